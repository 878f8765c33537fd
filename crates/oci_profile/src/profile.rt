ghost use Rattle.std.specs.Prelude.{◌≡◌};
ghost use Rattle.oci_profile.specs.Conditions.{AreNumbers};

use crate::conditions::Conds;
use crate::decision::Decision;
use std::marker::Model;

/// Numbers of system calls of the table, each below [`sys_table::TABLE_LIMIT`].
#[derive(Drop)]
pub struct Numbers {
    numbers: Vec<u32>,
}

impl Model for Numbers {
    ghost use Rattle.std.specs.Prelude.{ℕ, List};
    ghost use Rattle.oci_profile.specs.Conditions.{AreNumbers};

    ghost Value = { List ℕ };

    ghost view = { λ n. n.numbers.items };

    ghost invariant = { λ n. AreNumbers n.numbers.items };
}

impl Numbers {
    /// The numbers of this list, in order.
    pub fn new(numbers: Vec<u32>) -> Numbers
        requires { AreNumbers numbers.items }
        ensures { result ≡ numbers.items }
    {
        Numbers { numbers }
    }

    /// The numbers in order.
    pub fn as_slice(&self) -> &[u32]
        ensures value { result.now ≡ self.now }
        ensures fit { AreNumbers self.now }
    {
        self.numbers.as_slice()
    }
}

/// The decision on the calls with these numbers, if all conditions hold. An entry whose names were all
/// skipped has no numbers, and decides nothing.
#[derive(Drop)]
pub struct Entry {
    pub numbers: Numbers,
    pub decision: Decision,
    pub conds: Conds,
}

impl Entry {
    pub(crate) fn new(numbers: Numbers, decision: Decision, conds: Conds) -> Entry
        ensures { result ≡ record { numbers = numbers; decision = decision; conds = conds } }
    {
        Entry {
            numbers,
            decision,
            conds,
        }
    }
}

/// The entries of a profile, in order.
#[derive(Drop)]
pub struct Entries {
    entries: Vec<Entry>,
}

impl Model for Entries {
    ghost use Rattle.std.specs.Prelude.{List};
    ghost use Rattle.oci_profile.specs.declared.profile.Entry.{Entry};
    ghost use Rattle.oci_profile.specs.Entries.{AreEntries};

    ghost Value = { List Entry };

    ghost view = { λ e. e.entries.items };

    ghost invariant = { λ e. AreEntries e.entries.items };
}

impl Entries {
    ghost use Rattle.std.specs.Prelude.{◌≡◌};
    ghost use Rattle.oci_profile.specs.Entries.{AreEntries};

    /// The entries of this list, in order.
    pub fn new(entries: Vec<Entry>) -> Entries
        requires { AreEntries entries.items }
        ensures { result ≡ entries.items }
    {
        Entries { entries }
    }

    /// The entries in order.
    pub fn as_slice(&self) -> &[Entry]
        ensures value { result.now ≡ self.now }
        ensures fit { AreEntries self.now }
    {
        self.entries.as_slice()
    }
}

/// A seccomp profile.
#[derive(Drop)]
pub struct Profile {
    /// The decision on a call that no entry decides.
    pub default: Decision,
    /// The first of these that applies to a call decides.
    pub entries: Entries,
}

impl Profile {
    pub(crate) fn new(default: Decision, entries: Entries) -> Profile
        ensures { result ≡ record { default = default; entries = entries } }
    {
        Profile { default, entries }
    }
}
