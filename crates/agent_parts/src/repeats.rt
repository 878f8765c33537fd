//! Reports a repeated event the first time, and then once a minute with its count.
ghost use Rattle.std.specs.Prelude.{◌≡◌, None};
ghost use Rattle.agent_parts.specs.Repeats.{is_told, noted, told_now};

/// The fewest seconds between two reports of a repeated event.
pub const REPORT_REST: u64 = 60;

/// How often something happened, and when that was reported last.
#[derive(Clone, Copy, Debug)]
pub struct Repeats {
    // The moment of the last report, in seconds.
    told: Option<u64>,
    // How often it has happened since.
    since: u64,
}

impl Repeats {
    /// It has not happened yet.
    pub fn new() -> Repeats
        ensures { result ≡ record { told = None; since = 0 } }
    {
        Repeats {
            told: None,
            since: 0,
        }
    }

    // Whether a report is due at this moment.
    fn is_told(&self, now: u64) -> bool
        ensures { result ≡ is_told self.now.told now }
    {
        match self.told {
            Some(told) => now.saturating_sub(told) >= REPORT_REST,
            None => true,
        }
    }

    /// It happens once more, at this moment. If a report is due now, returns how often it has happened since
    /// the last one.
    pub fn note(&mut self, now: u64) -> Option<u64>
        ensures told { result ≡ told_now self.old now }
        ensures after { self.new ≡ noted self.old now }
    {
        let times = self.since.saturating_add(1);
        if self.is_told(now) {
            self.told = Some(now);
            self.since = 0;
            Some(times)
        } else {
            self.since = times;
            None
        }
    }
}
