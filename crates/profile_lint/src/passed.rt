/// The holder of a member.
#[derive(Clone, Copy, Debug, PartialEq, Eq)]
pub enum Holder {
    Profile,
    /// The entry at this place of `syscalls`, from 0.
    Entry(usize),
    /// Of the entry at the first place, the condition at the second one.
    Arg(usize, usize),
}

/// Something in a profile's text that decides nothing.
#[derive(Clone, Copy, Debug)]
pub enum Passed<'v> {
    /// The holder's member with this key.
    Ignored(Holder, &'v str),
    /// `architectures` without x86-64.
    OtherArchitectures,
    /// The name at this place of `architectures`, which no architecture has.
    UnknownArchitecture(usize, &'v str),
    /// Of the entry at the first place, the name at the second one, which the call table lacks.
    UnknownName(usize, usize, &'v str),
    /// Of the entry at the first place, the name at the second one, which repeats an earlier name.
    RepeatedName(usize, usize, &'v str),
}
