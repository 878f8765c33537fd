//! Copies of a profile.
ghost use Rattle.std.specs.Prelude.{◌≡◌, IfOk};

use crate::conditions::Conds;
use crate::profile::{Entries, Entry, Numbers, Profile};
use std::alloc::{AllocError, Global};

impl Profile {
    /// A copy of the profile.
    pub fn try_clone(&self, alloc: Global) -> Result<Profile, AllocError>
        ensures { IfOk result (λ copy. copy ≡ self.now) }
    {
        let entries = copies(alloc, self.entries.as_slice())?;
        Ok(Profile::new(self.default, Entries::new(entries)))
    }
}

fn copies(alloc: Global, entries: &[Entry]) -> Result<Vec<Entry>, AllocError>
    ensures { IfOk result (λ copies. copies.items ≡ entries.now) }
{
    let mut copies = Vec::with_capacity(alloc, entries.len())?;
    for entry in entries {
        copies.push(copied(alloc, entry)?)?;
    }
    Ok(copies)
}

fn copied(alloc: Global, entry: &Entry) -> Result<Entry, AllocError>
    ensures { IfOk result (λ copy. copy ≡ entry.now) }
{
    let numbers = Numbers::new(entry.numbers.as_slice().to_vec(alloc)?);
    let conds = Conds::new(entry.conds.as_slice().to_vec(alloc)?);
    Ok(Entry::new(numbers, entry.decision, conds))
}
