ghost use Rattle.std.specs.Prelude.{◌≡◌, ◌+◌, ◌++◌, ◌≤◌, min, length, take, vec_capacity, vec_len};

use crate::wire::{Wire, WireFault};
use std::alloc::{AllocError, Global};
use std::marker::Model;

/// A wire in memory, which can be made to fail. It moves at most `piece` bytes a call. Room for all that it
/// takes is allocated at the start, so no write runs out of memory.
#[derive(Drop)]
pub struct MemoryWire {
    input: Vec<u8>,
    at: usize,
    written: Vec<u8>,
    place: usize,
    piece: usize,
    calls: u64,
    failing: u64,
    failures: u64,
}

impl Model for MemoryWire {
    ghost use Rattle.std.specs.Prelude.{◌+◌, ◌<◌, ◌≤◌, drop, vec_capacity, vec_len};
    ghost use Rattle.node_io.specs.Tape.{Tape};

    ghost Value = { Tape };

    ghost view = { λ w. record {
      input = drop w.at w.input.items;
      written = w.written.items;
      place = w.place;
      piece = w.piece;
      calls = w.calls;
      failing = w.failing;
      failures = w.failures;
    } };

    ghost invariant = { λ w. (w.at ≤ vec_len w.input) × (vec_len w.written + w.place ≤ vec_capacity w.written)
        × (0 < w.piece) };
}

impl MemoryWire {
    ghost use Rattle.std.specs.Prelude.{◌≡◌, ◌<◌, ◌≤◌, IfOk, []};
    ghost use Rattle.node_io.specs.Tape.{counted, fails_next};

    /// A wire whose input is these bytes and then the end, with room for `place` bytes of output. None of its
    /// calls fails by request.
    pub fn new(
        alloc: Global,
        input: Vec<u8>,
        piece: usize,
        place: usize,
    ) -> Result<MemoryWire, AllocError>
        requires { 0 < piece }
        ensures { IfOk result (λ wire. wire ≡ record {
          input = input.items;
          written = [];
          place = place;
          piece = piece;
          calls = 0;
          failing = 0;
          failures = 0;
        }) }
    {
        let written = Vec::with_capacity(alloc, place)?;
        Ok(MemoryWire {
            input,
            at: 0,
            written,
            place,
            piece,
            calls: 0,
            failing: 0,
            failures: 0,
        })
    }

    /// Makes the read or write with this number fail, counted from 1 for the first call. All other calls
    /// work.
    pub fn fail_call(&mut self, number: u64)
        ensures { self.new ≡ record {
          input = self.old.input;
          written = self.old.written;
          place =
              self.old.place;
          piece = self.old.piece;
          calls = self.old.calls;
          failing = number;
          failures =
              self.old.failures;
        } }
    {
        self.failing = number;
    }

    /// The bytes that were written.
    pub fn written(&self) -> &[u8]
        ensures { result.now ≡ self.now.written }
    {
        self.written.as_slice()
    }

    // Counts a call, and returns whether it is the one to fail.
    fn fails(&mut self) -> bool
        ensures told { result ≡ fails_next self.old }
        ensures counted { self.new ≡ counted self.old }
        ensures input { self.new.input ≡ self.old.input }
        ensures rises { self.old.failures ≤ self.new.failures }
    {
        self.calls = self.calls.saturating_add(1);
        if self.calls != self.failing {
            return false;
        }
        self.failing = 0;
        self.failures = self.failures.saturating_add(1);
        true
    }
}

// Moves bytes from the front of `from` to the front of `buf`, at most `piece` of them, and returns how many.
fn give(from: &[u8], buf: &mut [u8], piece: usize) -> usize
    ensures count { result ≡ min (min (length buf.old) piece) (length from.now) }
    ensures bytes { take result buf.new ≡ take result from.now }
    ensures room { length buf.new ≡ length buf.old }
{
    let count = buf.len().min(piece).min(from.len());
    buf[..count].copy_from_slice(&from[..count]);
    count
}

// Adds bytes to a list that has room for them.
fn keep(list: &mut Vec<u8>, bytes: &[u8])
    requires { vec_len list.old + length bytes.now ≤ vec_capacity list.old }
    ensures bytes { list.new.items ≡ list.old.items ++ bytes.now }
    ensures count { vec_len list.new ≡ vec_len list.old + length bytes.now }
    ensures room { vec_capacity list.old ≤ vec_capacity list.new }
{
    if list.extend_from_slice(bytes).is_err() {
        prove!(false);
    }
}

impl Wire for MemoryWire {
    ghost use Rattle.std.specs.Prelude.{◌≡◌, ◌<◌, ◌≤◌, ◌↔◌, true, if◌then◌else◌, IfOk, IsErr, OnErr, Some};
    ghost use Rattle.std.specs.Prelude.{length, take};
    ghost use Rattle.std.specs.Io.KnownBytes.{Keeps, ReadConsumes, WriteAppends};
    ghost use Rattle.node_io.specs.Counts.{HasRisen};
    ghost use Rattle.node_io.specs.Tape.{counted, failed_more, fails_next, readable, with_read, with_written};
    ghost use Rattle.node_io.specs.Tape.{writable, write_fails};

    ghost input = { λ w. Some w.input };

    ghost output = { λ w. Some w.written };

    ghost failed = { λ w. w.failures };

    fn read(&mut self, buf: &mut [u8]) -> Result<usize, WireFault>
        // It fails if it is made to, and then moves nothing.
        ensures fails { IsErr result ↔ (fails_next self.old ≡ true) }
        ensures err { OnErr result (self.new ≡ counted self.old) }
        ensures count { IfOk result (λ n. n ≡ readable self.old (length buf.old)) }
        ensures moved { IfOk result (λ n. take n buf.new ≡ take n self.old.input) }
        ensures ok { IfOk result (λ n. self.new ≡ with_read (counted self.old) n) }

        // The promises of each device.
        ensures within { IfOk result (λ n. n ≤ length buf.new) }
        ensures room { length buf.new ≡ length buf.old }
        ensures input { ReadConsumes (Some self.old.input) (Some self.new.input) result buf.new }
        ensures output { Keeps (Some self.old.written) (Some self.new.written) }
        ensures failed { OnErr result (HasRisen self.old.failures self.new.failures) }
        ensures counted { self.old.failures ≤ self.new.failures }
    {
        if self.fails() {
            return Err(WireFault);
        }
        let count = give(&self.input[self.at..], buf, self.piece);
        self.at += count;
        Ok(count)
    }

    fn write(&mut self, bytes: &[u8]) -> Result<usize, WireFault>
        // It fails if it is made to or is full, and then moves nothing.
        ensures fails { IsErr result ↔ (write_fails self.old (length bytes.now) ≡ true) }
        ensures err { OnErr result (self.new ≡ (if fails_next self.old then counted self.old
            else failed_more (counted self.old))) }
        ensures count { IfOk result (λ n. n ≡ writable self.old (length bytes.now)) }
        ensures ok { IfOk result (λ n. self.new ≡ with_written (counted self.old) (take n bytes.now)) }

        // The promises of each device.
        ensures within { IfOk result (λ n. n ≤ length bytes.now) }
        ensures some { IfOk result (λ n. 0 < length bytes.now → 0 < n) }
        ensures output { WriteAppends (Some self.old.written) (Some self.new.written) result bytes.now }
        ensures input { Keeps (Some self.old.input) (Some self.new.input) }
        ensures failed { OnErr result (HasRisen self.old.failures self.new.failures) }
        ensures counted { self.old.failures ≤ self.new.failures }
    {
        if self.fails() {
            return Err(WireFault);
        }
        if !bytes.is_empty() && self.place == 0 {
            self.failures = self.failures.saturating_add(1);
            return Err(WireFault);
        }
        let count = bytes.len().min(self.piece).min(self.place);
        keep(&mut self.written, &bytes[..count]);
        self.place -= count;
        Ok(count)
    }

    fn failures(&self) -> u64
        ensures { result ≡ self.now.failures }
    {
        self.failures
    }
}
