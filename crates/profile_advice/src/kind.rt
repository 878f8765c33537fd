use call_data::SysCall;

/// Something that a profile probably gets wrong. An entry is named by its place among `syscalls`, from 0, and a
/// condition by its place among the entry's `args`.
#[derive(Clone, Copy, Debug, PartialEq, Eq)]
pub enum Advice {
    /// Of the entry at the first place, the condition at the second place holds for every argument.
    AlwaysHolds(usize, usize),
    /// The condition has a second value, and its operator does not read it.
    UnusedValue(usize, usize),
    /// The condition is about an argument that the call with this number does not have.
    NoArgument(usize, usize, u32),
    /// The condition compares 64 bits of an argument, and the kernel reads 32 bits of it. The profile has the
    /// first value for this call. For the call whose upper 32 bits are 0 it has the second one, which is stricter.
    WideArgument(usize, usize, SysCall, u32, u32),
    /// The entry at this place returns an errno that Linux does not have.
    UnknownErrno(usize, u16),
    /// The default returns an errno that Linux does not have.
    UnknownDefaultErrno(u16),
    /// The entry at the first place names the call, which the earlier entry at the last place decides differently.
    ShadowedName(usize, u32, usize),
    /// The entry at the first place names the call, which the earlier entry at the last place decides the same way.
    RepeatedName(usize, u32, usize),
    /// The profile denies the call with this number, and allows this call, which can do the same.
    Bypass(u32, SysCall),
    /// The profile denies most calls, and allows this one, which can undo what confines the program.
    Powerful(u32),
}

impl Advice {
    ghost use Rattle.std.specs.Prelude.{◌≡◌};
    ghost use Rattle.profile_advice.specs.Entries.{entry_of};

    /// The place of the entry that it is about, if it is about one.
    pub fn entry(self) -> Option<usize>
        ensures { result ≡ entry_of self }
    {
        match self {
            Advice::AlwaysHolds(place, _)
            | Advice::UnusedValue(place, _)
            | Advice::NoArgument(place, _, _)
            | Advice::WideArgument(place, _, _, _, _)
            | Advice::UnknownErrno(place, _)
            | Advice::ShadowedName(place, _, _)
            | Advice::RepeatedName(place, _, _) => Some(place),
            Advice::UnknownDefaultErrno(_) | Advice::Bypass(_, _) | Advice::Powerful(_) => None,
        }
    }
}
