ghost use Rattle.std.specs.Prelude.{◌≡◌, ◌++◌, IfOk, codes, string_bytes};
ghost use Rattle.profile_pick.specs.Choice.{choice_seen};
ghost use Rattle.seccheck_output.specs.PickText.{picked_text, profile_text};
ghost use Rattle.seccheck_output.specs.PickedText.{line_text};

use manifest::{Container, Pod};
use profile_pick::{Choice, pick};
use std::alloc::{AllocError, Global};
use std::fmt;

/// A container's name and the profile that it gets, as they are printed.
#[derive(Clone, Copy)]
pub(crate) struct Picked<'p> {
    name: &'p str,
    kind: &'static str,
    /// The file of the profile, if it has one.
    path: &'p str,
}

impl fmt::Display for Picked<'_> {
    ghost use Rattle.std.specs.Prelude.{Some};
    ghost use Rattle.seccheck_output.specs.PickedText.{line_text};

    ghost output = { λ picked. Some (line_text picked) };

    fn fmt<W: fmt::Write>(&self, f: &mut fmt::Formatter<W>) -> fmt::Result {
        let (name, kind, path) = (self.name, self.kind, self.path);
        write!(f, "{name} {kind}{path}")
    }
}

/// A line for each container of a pod, init ones first: the profile that it gets on a node whose seccomp
/// default is on or off.
pub fn picked_lines(alloc: Global, pod: &Pod, seccomp_default: bool) -> Result<String, AllocError>
    ensures { IfOk result (λ text. string_bytes text ≡ picked_text pod.now seccomp_default) }
{
    let mut text = String::new(alloc);
    for (place, container) in pod.containers.as_slice().iter().enumerate() {
        let line = named(container, pick(pod, place, seccomp_default));
        writeln!(text, "{line}")?;
    }
    Ok(text)
}

/// A container with the profile that it gets.
pub(crate) fn named<'p>(container: &'p Container, choice: Choice<'p>) -> Picked<'p>
    ensures { line_text result ≡ container.now.name
        ++ (codes " " ++ profile_text (choice_seen choice.entry)) }
{
    let name = container.name.as_str();
    match choice {
        Choice::RuntimeDefault => Picked {
            name,
            kind: "RuntimeDefault",
            path: "",
        },
        Choice::Localhost(path) => Picked {
            name,
            kind: "Localhost ",
            path: path.as_str(),
        },
        Choice::Unconfined => Picked {
            name,
            kind: "Unconfined",
            path: "",
        },
    }
}
