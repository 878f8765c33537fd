use std::fmt;

/// Why a word of the command line is refused.
#[derive(Clone, Copy, Debug, PartialEq, Eq)]
pub enum WordFault {
    /// No capability of Linux has such a name.
    BadCap,
    /// No architecture of templates has this name, or this number.
    BadArch,
    /// No architecture of a call has this name, and it is no number.
    NoArch,
    /// It is no version of a kernel.
    BadKernel,
    /// It is no action of a profile, with its number.
    BadAction,
    /// No finding has such a kind.
    BadKind,
    /// It is no version of Linux whose calls are known.
    BadCalls,
    /// Standard input is named more than once.
    ReadTwice,
}

/// The fault's name, and what would be right.
impl fmt::Display for WordFault {
    ghost use Rattle.std.specs.Prelude.{Some};
    ghost use Rattle.seccheck_stops.specs.BadWords.{word_fault_text};

    ghost output = { λ fault. Some (word_fault_text fault) };

    fn fmt<W: fmt::Write>(&self, f: &mut fmt::Formatter<W>) -> fmt::Result {
        f.write_str(match self {
            WordFault::BadCap => "BadCap (give a capability of Linux, as CAP_SYS_ADMIN)",
            WordFault::BadArch => "BadArch (give a name, as amd64, or an AUDIT_ARCH number)",
            WordFault::NoArch => "BadNumber (give a name, as amd64, or an AUDIT_ARCH number)",
            WordFault::BadKernel => "BadKernel (give two numbers, as 6.12)",
            WordFault::BadAction => "BadAction (give an action, as 'ERRNO 38')",
            WordFault::BadKind => "BadKind (give a kind as lint prints it)",
            WordFault::BadCalls => "BadCalls (give a version of Linux, 5.8 or 6.12)",
            WordFault::ReadTwice => "ReadTwice (standard input can be read once)",
        })
    }
}
