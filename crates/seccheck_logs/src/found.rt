//! The calls that were found in logs.
ghost use Rattle.std.specs.Prelude.{◌<◌};
ghost use Rattle.sys_table.specs.declared.table.TheConstants.{TABLE_LIMIT};

use crate::lines::FoundLine;
use crate::log_file::{LineSink, Position};
use crate::reports::Reports;
use call_data::NATIVE_ARCH;
use profile_learn::{Learned, Sighting, small_argument};
use seen_calls::{Line, LineFault, known, read_line, record_calls};
use std::alloc::{AllocError, Global};
use sys_table::CallTable;

/// What was learned so far.
#[derive(Drop)]
pub(crate) struct Found {
    pub learned: Learned,
    /// Whether there was a call.
    pub has_call: bool,
    pub reports: Reports,
    /// The known calls.
    pub calls: CallTable,
    /// Whether a broken line ends the work.
    pub is_strict: bool,
}

impl LineSink for Found {
    /// Whether a broken line has ended the work.
    fn is_done(&self) -> bool {
        self.is_refused()
    }

    fn add_line(
        &mut self,
        alloc: Global,
        at: &Position<'_>,
        line: FoundLine<'_>,
    ) -> Result<(), AllocError> {
        self.add(alloc, at, line)
    }
}

impl Found {
    pub(crate) fn new(alloc: Global, calls: CallTable, is_strict: bool) -> Found {
        Found {
            learned: Learned::new(),
            has_call: false,
            reports: Reports::new(alloc),
            calls,
            is_strict,
        }
    }

    /// Whether a broken line has ended the work.
    pub(crate) fn is_refused(&self) -> bool {
        self.is_strict && self.reports.first.is_some()
    }

    fn add(
        &mut self,
        alloc: Global,
        at: &Position<'_>,
        line: FoundLine<'_>,
    ) -> Result<(), AllocError> {
        if self.is_refused() {
            return Ok(());
        }
        let line = match line {
            FoundLine::Whole(line) => line,
            FoundLine::TooLong(line) => return self.report(at, line, LineFault::TooLong),
        };
        match read_line(self.calls, line) {
            Ok(Line::Nothing) => Ok(()),
            Ok(Line::Call(sighting)) => {
                self.note(sighting);
                Ok(())
            }
            Ok(Line::Resumed(number)) => {
                self.resume(number);
                Ok(())
            }
            Ok(Line::Record) => self.add_record(alloc, at, line),
            Err(fault) => self.report(at, line, fault),
        }
    }

    fn note(&mut self, sighting: Sighting)
        requires { sighting.number < TABLE_LIMIT }
    {
        self.learned.note(sighting);
        self.has_call = true;
    }

    // The line that began a call has its small argument. If no line has begun it, the value is not known.
    fn resume(&mut self, number: u32)
        requires { number < TABLE_LIMIT }
    {
        if small_argument(number).is_none() || !self.learned.is_seen(number) {
            let value = None;
            self.note(Sighting { number, value });
        }
    }

    fn add_record(
        &mut self,
        alloc: Global,
        at: &Position<'_>,
        line: &[u8],
    ) -> Result<(), AllocError> {
        let calls = match record_calls(alloc, line) {
            Ok(calls) => calls,
            Err(fault) => return self.report(at, line, fault),
        };
        for call in calls.as_slice() {
            if call.arch != NATIVE_ARCH {
                self.report(at, line, LineFault::OtherArchitecture)?;
                continue;
            }
            match known(self.calls, call.nr) {
                Ok(number) => {
                    let value = None;
                    self.note(Sighting { number, value });
                }
                Err(fault) => self.report(at, line, fault)?,
            }
        }
        Ok(())
    }

    fn report(
        &mut self,
        at: &Position<'_>,
        line: &[u8],
        fault: LineFault,
    ) -> Result<(), AllocError> {
        match fault {
            LineFault::Memory => Err(AllocError),
            _ => self.reports.add(at.path, at.number, line, fault),
        }
    }
}
