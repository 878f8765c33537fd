ghost use Rattle.std.specs.Prelude.{◌≡◌, ◌<◌, ◌≤◌, IfOk, IfSome, vec_len};
ghost use Rattle.node_lock.specs.declared.limits.TheConstants.{MAX_ENTRIES};

use crate::node_lock_play::{Play, agree, played, settings};
use manifest::PodFault;
use node_lock::{Book, BookFault, PARTS, Receipt, Tally, audit};
use std::alloc::{AllocError, Global};
use std::marker::Brand;
use std::sync::ledger::{Blank, Ledger};
use std::test::Fail;
use worker_core::AgentEvent;

fn limited<L: Ledger>(
    alloc: Global,
    limit: usize,
    words: String,
    blank: Blank,
) -> Result<String, PodFault>
    requires name { blank.name ≡ L.name }
    requires parts { blank.parts ≡ L.parts }
    requires some { 0 < blank.parts }
    requires limit { limit ≤ MAX_ENTRIES }
{
    let mut play: Play<L> = Play::new(alloc, settings(false), limit, blank);
    let text = play.plays(words.as_str())?;
    if !play.stand(play.receipts()) {
        return Ok(String::from_str(alloc, "a receipt stands nowhere")?);
    }
    Ok(text)
}

fn limits(alloc: Global, limit: usize, words: String) -> Result<String, PodFault>
    requires { limit ≤ MAX_ENTRIES }
{
    limited::<Brand>(alloc, limit, words, Blank::new(PARTS))
}

// A held claim reserves room for one entry, and a claim needs room for two whatever its answer.
#[test]
fn rooms(rt: HostRuntime) -> Result<(), Fail> {
    let rows = [
        (
            3,
            "Aa c1 t1 l1 c1",
            "Aa: 1 done; c1: 2 request 1; t1: 7 HistoryFull; l1: 3 done; c1: 7 HistoryFull; ",
        ),
        (
            3,
            "Aa c1 t1 a2 a1 a1",
            "Aa: 1 done; c1: 2 request 1; t1: 7 HistoryFull; a2: 7 HistoryFull; a1: 3 done; \
             a1: 7 HistoryFull; ",
        ),
        (
            2,
            "c1 c1 t1 t2",
            "c1: 1 nothing; c1: 7 HistoryFull; t1: 2 done; t2: 7 HistoryFull; ",
        ),
        (0, "t0 c1", "t0: 7 HistoryFull; c1: 7 HistoryFull; "),
        // What the node refuses is in the history.
        (
            5,
            "t5 t4 Aa Aa l1 t6",
            "t5: 1 done; t4: 2 ClockBack; Aa: 3 done; Aa: 4 KnownUid; l1: 5 NotYours; t6: 7 HistoryFull; ",
        ),
    ];
    for (limit, words, want) in rows {
        let text = limits(rt.alloc(), limit, String::from_str(rt.alloc(), words)?)?;
        assert_eq!(rt; text.as_str(), want, "{words}");
    }
    Ok(())
}

const CREATED: &str = "Aa c1 d1 c1";

// Whether the receipts of a book that confines by default match another one's history.
fn agreed<L: Ledger, M: Ledger>(
    alloc: Global,
    seccomp_default: bool,
    words: String,
    blank: Blank,
    other: Blank,
) -> Result<bool, PodFault>
    requires name { (blank.name ≡ L.name) × (other.name ≡ M.name) }
    requires parts { (blank.parts ≡ L.parts) × (other.parts ≡ M.parts) }
    requires some { (0 < blank.parts) × (0 < other.parts) }
{
    let play: Play<L> = played(alloc, settings(true), CREATED, blank)?;
    let another: Play<M> = played(alloc, settings(seccomp_default), words.as_str(), other)?;
    Ok(agree(&play, &another))
}

fn agrees(alloc: Global, seccomp_default: bool, words: String) -> Result<bool, PodFault> {
    agreed::<Brand, Brand>(
        alloc,
        seccomp_default,
        words,
        Blank::new(PARTS),
        Blank::new(PARTS),
    )
}

// Against another book's history: the same, one that differs only in the answer to the last claim, one with
// another event, a shorter one, and a longer one.
#[test]
fn audits(rt: HostRuntime) -> Result<(), Fail> {
    let rows = [
        (true, CREATED, true),
        (false, CREATED, false),
        (true, "Aa c1 l1 c1", false),
        (true, "Aa c1 d1", false),
        (true, "Aa c1 d1 c1 c1", true),
    ];
    for (seccomp_default, words, want) in rows {
        let given = String::from_str(rt.alloc(), words)?;
        let agrees = agrees(rt.alloc(), seccomp_default, given)?;
        assert_eq!(rt; agrees, want, "{words}");
    }
    Ok(())
}

// The number of a receipt's entry.
fn one(alloc: Global, receipt: Receipt) -> Result<Vec<Receipt>, AllocError>
    ensures { IfOk result (λ one. vec_len one ≡ 1) }
{
    let mut one = Vec::new(alloc);
    one.push(receipt)?;
    Ok(one)
}

// Worker 0 advances the time, and worker 1 asks in vain. Together their tallies are the book's entries.
fn joined<L: Ledger>(alloc: Global, blank: Blank) -> Result<Option<(u64, usize)>, BookFault>
    requires name { blank.name ≡ L.name }
    requires parts { blank.parts ≡ L.parts }
    requires two { 2 ≤ blank.parts }
    ensures { IfOk result (λ told. IfSome told (λ both. both.0 ≡ both.1)) }
{
    let (mut book, mut all) = Book::<L>::with_limit(alloc, settings(false), 9, blank);
    let mut share = all.split_off(1, 0);
    let told = book.record(&mut all, 0, AgentEvent::Tick(1))?;
    let asked = book.record(&mut share, 1, AgentEvent::Claim(1))?;
    let mut tally = Tally::of(all, one(alloc, told)?);
    if tally.join(Tally::of(share, one(alloc, asked)?)).is_err() {
        return Ok(None);
    }
    Ok(Some((book.entries(&mut tally), tally.receipts().len())))
}

fn joins(alloc: Global) -> Result<Option<(u64, usize)>, BookFault> {
    joined::<Brand>(alloc, Blank::new(PARTS))
}

#[test]
fn tallies(rt: HostRuntime) -> Result<(), Fail> {
    assert_eq!(rt; joins(rt.alloc())?, Some((2, 2)));
    Ok(())
}

// A part without entries does not end. After one that ended the book is open, and numbers go on.
fn parted<L: Ledger>(alloc: Global, blank: Blank) -> Result<String, BookFault>
    requires name { blank.name ≡ L.name }
    requires parts { blank.parts ≡ L.parts }
    requires some { 0 < blank.parts }
{
    let (mut book, share) = Book::<L>::with_limit(alloc, settings(false), 9, blank);
    let mut tally = Tally::of(share, Vec::new(alloc));
    let empty = book.end_part(&mut tally).is_ok();
    let (mut share, _) = tally.into_share();
    let first = book.record(&mut share, 0, AgentEvent::Tick(1))?;
    let mut tally = Tally::of(share, one(alloc, first)?);
    book.close();
    let ended = book.end_part(&mut tally).is_ok();
    let (mut share, left) = tally.into_share();
    let next = book.record(&mut share, 0, AgentEvent::Tick(2))?;
    let stands = audit(book.before(), book.history(), one(alloc, next)?.as_slice());
    let (left, before, last) = (left.len(), book.before(), book.last_number());
    let closed = book.is_closed();
    Ok(format!(in alloc;
        "{empty} {ended} {closed}, {left} left, {before} before, {last} {stands}"
    )?)
}

fn parts(alloc: Global) -> Result<String, BookFault> {
    parted::<Brand>(alloc, Blank::new(PARTS))
}

#[test]
fn parts_follow_each_other(rt: HostRuntime) -> Result<(), Fail> {
    let told = parts(rt.alloc())?;
    assert_eq!(rt; told.as_str(), "false true false, 0 left, 1 before, 2 true");
    Ok(())
}

#[test]
fn faults(rt: HostRuntime) -> Result<(), Fail> {
    let rows = [
        (BookFault::Memory, "6 Memory"),
        (BookFault::HistoryFull, "7 HistoryFull"),
    ];
    for (fault, want) in rows {
        let text = format!(in rt.alloc(); "{} {fault}", fault.number())?;
        assert_eq!(rt; text.as_str(), want);
    }
    Ok(())
}
