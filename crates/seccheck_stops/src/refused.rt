//! A file that is refused, and why.
ghost use Rattle.std.specs.Prelude.{◌≡◌, true, false};
ghost use Rattle.seccheck_stops.specs.Refused.{IsRefused, is_out_of_memory, word_before};

use crate::stop::Stop;
use bpf_code::CodeFault;
use bpf_verify::Refusal;
use compile::CompileFault;
use manifest::{PodFault, PodFaultAt};
use oci_profile::{ProfileFault, ProfileFaultAt};
use profile_template::{TemplateFault, TemplateFaultAt};
use script::{ScriptFault, ScriptFaultAt};
use std::fmt;
use verdict::StackFault;

/// What a refused file is, and why it is refused.
#[derive(Debug, Drop)]
pub enum Refused {
    /// The one filter of a command.
    Filter(Refusal),
    /// A filter of a stack.
    StackFilter(Refusal),
    /// A filter that a stack does not take.
    Stack(StackFault),
    Profile(ProfileFaultAt),
    /// A profile that is not compiled.
    Compile(CompileFault),
    /// A template of a profile.
    Template(TemplateFaultAt),
    Manifest(PodFaultAt),
    Script(ScriptFaultAt),
}

/// A file that is refused.
#[derive(Debug, Drop)]
pub struct RefusedFile<'a> {
    pub path: &'a str,
    /// The bytes that were read.
    pub bytes: Vec<u8>,
    pub refused: Refused,
}

/// Why a file of these bytes stops the program.
pub fn refused_stop(path: &str, bytes: Vec<u8>, refused: Refused) -> Stop<'_>
    ensures memory { is_out_of_memory refused ≡ true → result ≡ Stop.Memory }
    ensures refused { is_out_of_memory refused ≡ false → IsRefused path.now bytes.items refused result }
{
    if is_out_of_memory(&refused) {
        return Stop::Memory;
    }
    Stop::Refused(RefusedFile {
        path,
        bytes,
        refused,
    })
}

/// Whether memory ran out, so that the file may be right.
fn is_out_of_memory(refused: &Refused) -> bool
    ensures { result ≡ is_out_of_memory refused.now }
{
    match refused {
        Refused::Filter(refusal) | Refused::StackFilter(refusal) => {
            matches!(refusal, Refusal::Code(CodeFault::Memory))
        }
        Refused::Stack(fault) => *fault == StackFault::Memory,
        Refused::Profile(found) => found.fault == ProfileFault::Memory,
        Refused::Compile(fault) => *fault == CompileFault::Memory,
        Refused::Template(found) => {
            matches!(found.fault, TemplateFault::Profile(ProfileFault::Memory))
        }
        Refused::Manifest(found) => found.fault == PodFault::Memory,
        Refused::Script(found) => found.fault == ScriptFault::Memory,
    }
}

impl Refused {
    ghost use Rattle.std.specs.Prelude.{◌≡◌};
    ghost use Rattle.seccheck_stops.specs.Refused.{kind_of};

    /// The name of its fault.
    pub(crate) fn fault(&self) -> FaultName<'_>
        ensures { result.0.now ≡ self.now }
    {
        FaultName(self)
    }

    /// What is refused, in an object of JSON.
    pub(crate) fn kind(&self) -> &'static str
        ensures { result.now ≡ kind_of self.now }
    {
        match self {
            Refused::Filter(_) | Refused::StackFilter(_) | Refused::Stack(_) => "filter",
            Refused::Profile(_) | Refused::Compile(_) => "profile",
            Refused::Template(_) => "template",
            Refused::Manifest(_) => "manifest",
            Refused::Script(_) => "script",
        }
    }
}

/// The name of a fault, for a filter with its place.
#[derive(Clone, Copy)]
pub(crate) struct FaultName<'a>(&'a Refused);

impl fmt::Display for FaultName<'_> {
    ghost use Rattle.std.specs.Prelude.{Some};
    ghost use Rattle.seccheck_stops.specs.Refused.{fault_of};

    ghost output = { λ name. Some (fault_of name.0.now) };

    fn fmt<W: fmt::Write>(&self, f: &mut fmt::Formatter<W>) -> fmt::Result {
        match self.0 {
            Refused::Filter(refusal) | Refused::StackFilter(refusal) => write!(f, "{refusal}"),
            Refused::Stack(fault) => write!(f, "{fault}"),
            Refused::Profile(found) => write!(f, "{}", found.fault),
            Refused::Compile(fault) => write!(f, "{fault}"),
            Refused::Template(found) => write!(f, "{}", found.fault),
            Refused::Manifest(found) => write!(f, "{}", found.fault),
            Refused::Script(found) => write!(f, "{}", found.fault),
        }
    }
}

/// The fault's name, after the word `script` or `filter` if a script, a stack or a filter of one is refused.
impl fmt::Display for Refused {
    ghost use Rattle.std.specs.Prelude.{Some};
    ghost use Rattle.seccheck_stops.specs.Refused.{refused_text};

    ghost output = { λ refused. Some (refused_text refused) };

    fn fmt<W: fmt::Write>(&self, f: &mut fmt::Formatter<W>) -> fmt::Result {
        let (word, fault) = (word_before(self), FaultName(self));
        write!(f, "{word}{fault}")
    }
}

fn word_before(refused: &Refused) -> &'static str
    ensures { result.now ≡ word_before refused.now }
{
    match refused {
        Refused::StackFilter(_) | Refused::Stack(_) => "filter ",
        Refused::Script(_) => "script ",
        _ => "",
    }
}
