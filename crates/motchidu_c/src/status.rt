ghost use Rattle.std.specs.Prelude.{◌≡◌};
ghost use Rattle.motchidu_c.specs.Status.{number_of};

/// The answer of an export. The numbers are those of `enum motchidu_status` in the header.
#[derive(Clone, Copy, Debug, PartialEq, Eq)]
pub enum Status {
    /// The filter is sound.
    Accepted = 0,
    /// The filter's length in bytes is not a multiple of 8.
    Length = 1,
    /// The filter has more than 4,096 instructions.
    TooLong = 2,
    /// A code that is not in the table.
    BadCode = 3,
    /// There are no instructions.
    Empty = 4,
    /// A load from the call's data that is not of one of its words.
    BadOffset = 5,
    /// A jump to a place outside the filter.
    BadJump = 6,
    /// A scratch word that the machine does not have.
    BadWord = 7,
    /// A shift by 32 bits or more.
    BadShift = 8,
    /// A division by the constant 0.
    ZeroDivisor = 9,
    /// The last instruction is not a return.
    NoFinalReturn = 10,
    /// A load of a scratch word that some walk to it did not store.
    Unstored = 11,
    /// Memory ran out. The filter may have faults or none.
    Memory = 12,
    /// The lengths of the calls, the values and the steps don't agree.
    Lengths = 13,
    /// The text is not JSON.
    NotJson = 14,
    /// It is not an object.
    NotObject = 15,
    /// A required field is missing.
    Missing = 16,
    /// A field has the wrong type.
    WrongType = 17,
    /// No action has this name.
    UnknownAction = 18,
    /// No operator has this name.
    UnknownOp = 19,
    /// No call has an argument with this index.
    BadIndex = 20,
    /// An entry names no call.
    EmptyNames = 21,
    /// An entry has two conditions on one argument.
    RepeatedIndex = 22,
    /// An errno is given for an action that takes none.
    ErrnoNotAllowed = 23,
    /// An errno is above its action's limit.
    ErrnoTooLarge = 24,
    /// An entry that is stricter than the default names an unknown call.
    UnknownCall = 25,
    /// The action SCMP_ACT_NOTIFY, for which there is no listener.
    Notify = 26,
    /// A text of more than 262,144 bytes.
    TooLarge = 27,
    /// The profile has more entries, names and conditions than one filter is made for.
    TooHeavy = 28,
    /// The filter is longer than the room for it.
    NoRoom = 29,
    /// Two filters return the same value on every call of the comparison.
    Same = 30,
    /// On one of those calls they return different values.
    Differ = 31,
    /// Comparing them takes more instructions than the limit.
    Budget = 32,
    /// They were not compared to the end: one of them computes with loaded data, other than by masks.
    Arithmetic = 33,
    /// Both of two exclusive fields of a template are given.
    Both = 34,
    /// A template names an errno that does not exist.
    UnknownErrno = 35,
    /// A template has an invalid kernel version.
    BadKernel = 36,
    /// A number that names no version of Linux.
    UnknownVersion = 37,
}

impl Status {
    /// Its number in C.
    pub fn number(self) -> u32
        ensures { result ≡ number_of self }
    {
        self as u32
    }
}
