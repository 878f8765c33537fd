//! How far a long comparison has come, on a terminal.
ghost use Rattle.std.specs.Prelude.{◌≡◌};
ghost use Rattle.seccheck_cli.specs.Progress.{is_due};

use bpf_compare::Watch;
use std::io::Write;
use std::time::{Clock, Duration};

/// How many instructions are followed between two looks at the clock.
const BETWEEN_LOOKS: u64 = 1 << 16;

/// Prints a line a second to a terminal while filters are compared.
#[derive(Drop)]
pub(crate) struct Progress<'p, R, E> {
    rt: &'p R,
    err: &'p mut E,
    /// Whether somebody sees the lines.
    is_seen: bool,
    /// How many instructions were followed.
    followed: u64,
    /// The moment of the last line, or of the first look.
    last: Option<Duration>,
}

impl<'p, R: Clock, E: Write> Progress<'p, R, E> {
    pub(crate) fn new(rt: &'p R, err: &'p mut E, is_seen: bool) -> Progress<'p, R, E> {
        Progress {
            rt,
            err,
            is_seen,
            followed: 0,
            last: None,
        }
    }

    /// Prints a line if a second has passed since the last one.
    fn look(&mut self) {
        let Ok(now) = self.rt.monotonic() else {
            return;
        };
        let last = self.last;
        match last {
            None => self.last = Some(now),
            Some(last) if is_due(last.as_millis(), now.as_millis()) => {
                let followed = self.followed;
                let _ = writeln!(self.err, "seccheck: {followed} instructions followed");
                self.last = Some(now);
            }
            Some(_) => {}
        }
    }
}

/// Whether a second has passed between these moments, in milliseconds.
fn is_due(last: u128, now: u128) -> bool
    ensures { result ≡ is_due last now }
{
    now.saturating_sub(last) >= 1_000
}

impl<R: Clock, E: Write> Watch for Progress<'_, R, E> {
    fn follow(&mut self) {
        self.followed = self.followed.wrapping_add(1);
        if self.is_seen && self.followed % BETWEEN_LOOKS == 0 {
            self.look();
        }
    }
}
