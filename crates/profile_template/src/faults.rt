ghost use Rattle.std.specs.Prelude.{◌≡◌};

use oci_profile::ProfileFault;
use std::fmt;
use thiserror::Error;

/// Why a text is not a template.
#[derive(Clone, Copy, Debug, PartialEq, Eq, Error)]
pub enum TemplateFault {
    /// A fault for which a plain profile is also refused.
    Profile(ProfileFault),
    /// Both of two exclusive fields are given: `name` and `names`, `architectures` and `archMap`.
    Both,
    /// No errno has this name.
    UnknownErrno,
    /// A kernel version is invalid.
    BadKernel,
}

/// The fault's name.
impl fmt::Display for TemplateFault {
    ghost use Rattle.std.specs.Prelude.{Some};
    ghost use Rattle.profile_template.specs.Faults.{fault_text};

    ghost output = { λ fault. Some (fault_text fault) };

    fn fmt<W: fmt::Write>(&self, f: &mut fmt::Formatter<W>) -> fmt::Result {
        match self {
            TemplateFault::Profile(fault) => write!(f, "{fault}"),
            TemplateFault::Both => f.write_str("Both"),
            TemplateFault::UnknownErrno => f.write_str("UnknownErrno"),
            TemplateFault::BadKernel => f.write_str("BadKernel"),
        }
    }
}
