ghost use Rattle.std.specs.Prelude.{◌≡◌, ◌<◌, ◌++◌, ◌∷◌, [], ◌&&◌, List, is_some};
ghost use Rattle.sys_table.specs.declared.table.TheConstants.{TABLE_LIMIT};
ghost use Rattle.profile_learn.specs.Kept.{IsSummary};
ghost use Rattle.profile_learn.specs.Sightings.{is_seen, is_unclear};
ghost use Rattle.profile_learn.specs.Small.{small_argument};
ghost use Rattle.profile_learn.specs.declared.sighting.Sighting.{Sighting};

use crate::sighting::{FCNTL, IOCTL, PERSONALITY, PRCTL, SOCKET, Sighting};
use crate::values::{Values, is_unclear, noted};
use sys_table::TABLE_LIMIT;

/// The summary of sightings: which calls were seen, and up to four values of each small argument. Its size
/// does not depend on how many sightings there were.
#[derive(Drop)]
pub struct Learned {
    // At each number of the table, whether the call was seen.
    pub(crate) seen: [bool; TABLE_LIMIT],
    pub(crate) ioctl: Values,
    pub(crate) socket: Values,
    pub(crate) fcntl: Values,
    pub(crate) personality: Values,
    pub(crate) prctl: Values,
}

impl Learned {
    /// The summary of no sightings.
    pub fn new() -> Learned
        ensures empty { IsSummary result [] }
    {
        Learned {
            seen: [false; TABLE_LIMIT],
            ioctl: Values::Nothing,
            socket: Values::Nothing,
            fcntl: Values::Nothing,
            personality: Values::Nothing,
            prctl: Values::Nothing,
        }
    }

    /// Adds a sighting.
    pub fn note(&mut self, sighting: Sighting)
        requires { sighting.number < TABLE_LIMIT }
        ensures noted { (history : List Sighting) → IsSummary self.old history
            → IsSummary self.new (history ++ sighting ∷ []) }
    {
        self.seen[sighting.number as usize] = true;
        self.ioctl = noted(self.ioctl, IOCTL, sighting);
        self.socket = noted(self.socket, SOCKET, sighting);
        self.fcntl = noted(self.fcntl, FCNTL, sighting);
        self.personality = noted(self.personality, PERSONALITY, sighting);
        self.prctl = noted(self.prctl, PRCTL, sighting);
    }

    /// Whether the call was seen.
    pub fn is_seen(&self, number: u32) -> bool
        requires { number < TABLE_LIMIT }
        ensures seen { (history : List Sighting) → IsSummary self.now history
            → result ≡ is_seen history number }
    {
        self.seen[number as usize]
    }

    /// Whether a call has a small argument, and was seen without its value.
    pub fn is_unclear(&self, number: u32) -> bool
        ensures unclear { (history : List Sighting) → IsSummary self.now history
            → result ≡ (is_some (small_argument number) && is_unclear history number) }
    {
        match number {
            IOCTL => is_unclear(self.ioctl),
            SOCKET => is_unclear(self.socket),
            FCNTL => is_unclear(self.fcntl),
            PERSONALITY => is_unclear(self.personality),
            PRCTL => is_unclear(self.prctl),
            _ => false,
        }
    }
}
