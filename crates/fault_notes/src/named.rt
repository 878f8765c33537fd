ghost use Rattle.std.specs.Prelude.{◌≡◌};
ghost use Rattle.fault_notes.specs.Notes.{kind_of};

use manifest::PodFault;
use oci_profile::ProfileFault;
use profile_template::TemplateFault;
use script::ScriptFault;
use std::fmt;

/// The fault of a refused text, by its name.
#[derive(Clone, Copy)]
pub enum Named {
    Profile(ProfileFault),
    Template(TemplateFault),
    /// A name that is left out of a template's profile.
    LeftOut,
    Manifest(PodFault),
    Script(ScriptFault),
}

impl fmt::Display for Named {
    ghost use Rattle.std.specs.Prelude.{Some};
    ghost use Rattle.fault_notes.specs.Notes.{named_text};

    ghost output = { λ named. Some (named_text named) };

    fn fmt<W: fmt::Write>(&self, f: &mut fmt::Formatter<W>) -> fmt::Result {
        match self {
            Named::Profile(fault) => write!(f, "{fault}"),
            Named::Template(fault) => write!(f, "{fault}"),
            Named::LeftOut => f.write_str("LeftOut"),
            Named::Manifest(fault) => write!(f, "{fault}"),
            Named::Script(fault) => write!(f, "{fault}"),
        }
    }
}

/// What a note can show besides the fault.
#[derive(Clone, Copy)]
pub(crate) enum Kind {
    /// The text is not JSON: where it stops being JSON.
    NoJson,
    /// The text is too large to be read.
    TooLarge,
    /// The value at the fault's place.
    Placed,
}

/// What a note on this fault can show besides it.
pub(crate) fn kind_of(fault: Named) -> Kind
    ensures { result ≡ kind_of fault }
{
    match fault {
        Named::Profile(ProfileFault::NotJson) => Kind::NoJson,
        Named::Template(TemplateFault::Profile(ProfileFault::NotJson)) => Kind::NoJson,
        Named::Manifest(PodFault::NotJson) => Kind::NoJson,
        Named::Script(ScriptFault::NotJson) => Kind::NoJson,
        Named::Profile(ProfileFault::TooLarge) => Kind::TooLarge,
        Named::Template(TemplateFault::Profile(ProfileFault::TooLarge)) => Kind::TooLarge,
        _ => Kind::Placed,
    }
}
