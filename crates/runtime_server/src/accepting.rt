//! Reports on accepting connections: a fault when it begins and when it ends.
ghost use Rattle.std.specs.Prelude.{◌≡◌, Some, None};
ghost use Rattle.runtime_server.specs.Accepting.{report_for};

use node_io::Cause;
use std::alloc::Global;
use std::fmt;

/// What changed.
#[derive(Clone, Copy, Debug, PartialEq, Eq)]
pub(crate) enum Report {
    /// Connections can't be accepted, for a new cause.
    Fails(Cause),
    /// Connections are accepted again.
    Works,
}

/// A line of the log.
impl fmt::Display for Report {
    ghost use Rattle.std.specs.Prelude.{Some};
    ghost use Rattle.runtime_server.specs.Accepting.{report_text};

    ghost output = { λ report. Some (report_text report) };

    fn fmt<W: fmt::Write>(&self, f: &mut fmt::Formatter<W>) -> fmt::Result {
        match self {
            Report::Fails(cause) => write!(f, "cannot accept connections: {cause}"),
            Report::Works => f.write_str("accepts connections again"),
        }
    }
}

/// Why the last connection was not accepted, if it was not.
#[derive(Clone, Copy)]
pub(crate) struct Accepting {
    fault: Option<Cause>,
}

impl Accepting {
    /// Connections are accepted.
    pub(crate) fn new() -> Accepting
        ensures { result.fault ≡ None }
    {
        Accepting { fault: None }
    }

    /// Records why a connection was not accepted, or that one was. Returns a report if that is a change.
    pub(crate) fn note(&mut self, fault: Option<Cause>) -> Option<Report>
        ensures kept { self.new.fault ≡ fault }
        ensures same { fault ≡ self.old.fault → result ≡ None }
        ensures changed { (fault ≡ self.old.fault → ⊥) → result ≡ Some (report_for fault) }
    {
        if fault == self.fault {
            return None;
        }
        self.fault = fault;
        match fault {
            Some(cause) => Some(Report::Fails(cause)),
            None => Some(Report::Works),
        }
    }
}
