ghost use Rattle.std.specs.Prelude.{◌≡◌, option_and_then};
ghost use Rattle.serde_json.specs.View.{view};
ghost use Rattle.json_place.specs.Shown.{stands_at};
ghost use Rattle.fault_notes.specs.Notes.{IsShownOf};

use crate::call_hints::{CallHint, unknown_name};
use crate::named::Named;
use json_place::{Place, Shown, stands_at};
use serde_json::Value;
use std::fmt;

/// The note on a text with a fault at a place: `: syscalls[1].action: UnknownAction: "x", wanted an action ..`.
#[derive(Clone, Copy)]
pub(crate) struct PlaceNote<'p, 't> {
    pub(crate) place: &'p Place,
    pub(crate) fault: Named,
    pub(crate) shown: Option<Shown<'t>>,
    pub(crate) wanted: &'static str,
}

/// A place after a path, unless it is the root.
#[derive(Clone, Copy)]
struct Behind<'a>(&'a Place);

impl fmt::Display for Behind<'_> {
    ghost use Rattle.std.specs.Prelude.{Some};
    ghost use Rattle.fault_notes.specs.Notes.{behind_text};

    ghost output = { λ behind. Some (behind_text behind.0.now) };

    fn fmt<W: fmt::Write>(&self, f: &mut fmt::Formatter<W>) -> fmt::Result {
        if self.0.is_root() {
            Ok(())
        } else {
            write!(f, ": {}", self.0)
        }
    }
}

/// What was wanted, if that is shown, and the text that joins it to the words before it.
#[derive(Clone, Copy)]
struct Wanted(&'static str, &'static str);

impl fmt::Display for Wanted {
    ghost use Rattle.std.specs.Prelude.{Some};
    ghost use Rattle.fault_notes.specs.Notes.{wanted_text};

    ghost output = { λ wanted. Some (wanted_text wanted.0.now wanted.1.now) };

    fn fmt<W: fmt::Write>(&self, f: &mut fmt::Formatter<W>) -> fmt::Result {
        if self.1.is_empty() {
            Ok(())
        } else {
            write!(f, "{}wanted {}", self.0, self.1)
        }
    }
}

impl fmt::Display for PlaceNote<'_, '_> {
    ghost use Rattle.fault_notes.specs.Notes.{place_note};

    ghost output = { λ note. place_note note.place.now note.fault note.shown note.wanted.now };

    fn fmt<W: fmt::Write>(&self, f: &mut fmt::Formatter<W>) -> fmt::Result {
        let (behind, fault) = (Behind(self.place), self.fault);
        match self.shown {
            Some(shown) => {
                let wanted = Wanted(", ", self.wanted);
                let hint = CallHint(unknown_name(fault, shown));
                write!(f, "{behind}: {fault}: {shown}{wanted}{hint}")
            }
            None => {
                let wanted = Wanted(": ", self.wanted);
                write!(f, "{behind}: {fault}{wanted}")
            }
        }
    }
}

/// What is shown of the value at a place of a tree.
pub(crate) fn shown_at<'v>(tree: &'v Value, place: &Place) -> Option<Shown<'v>>
    ensures { IsShownOf (stands_at place.now (view tree.now)) result }
{
    match stands_at(tree, place) {
        Some(found) => Shown::of(found),
        None => None,
    }
}
