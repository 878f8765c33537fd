ghost use Rattle.std.specs.Prelude.{◌≡◌, option_map};
ghost use Rattle.serde_json.specs.View.{view};
ghost use Rattle.json_place.specs.Places.{part_of};
ghost use Rattle.json_place.specs.Shown.{IsShown, step_into, stands_at};

use crate::place::{Place, Step};
use crate::quoted::Quoted;
use json_tree::{list, text, whole};
use serde_json::{Number, Value};
use std::fmt;

/// The part of a tree that is shown to a person: a text, as [`Quoted`] shows it, or a number.
#[derive(Clone, Copy)]
pub enum Shown<'v> {
    Text(&'v str),
    Whole(u64),
    /// A negative number, or one that is not whole.
    Other(&'v Number),
}

impl fmt::Display for Shown<'_> {
    ghost use Rattle.json_place.specs.Shown.{shown_text};

    ghost output = { λ shown. shown_text shown };

    fn fmt<W: fmt::Write>(&self, f: &mut fmt::Formatter<W>) -> fmt::Result {
        match self {
            Shown::Text(text) => write!(f, "{}", Quoted(text)),
            Shown::Whole(number) => write!(f, "{number}"),
            Shown::Other(number) => write!(f, "{number}"),
        }
    }
}

impl<'v> Shown<'v> {
    /// What is shown of a tree. `None` for a list, an object, a `bool` and null.
    pub fn of(tree: &'v Value) -> Option<Shown<'v>>
        ensures { IsShown (view tree.now) result }
    {
        if let Some(text) = text(tree) {
            return Some(Shown::Text(text));
        }
        if let Some(number) = whole(tree) {
            return Some(Shown::Whole(number));
        }
        tree.as_number().map(Shown::Other)
    }
}

/// The value at a place of a tree, if there is one.
pub fn stands_at<'v>(tree: &'v Value, place: &Place) -> Option<&'v Value>
    ensures { option_map (λ v. view v.now) result ≡ stands_at place.now (view tree.now) }
{
    let mut tree = tree;
    for step in place.steps() {
        tree = step_into(tree, *step)?;
    }
    Some(tree)
}

fn step_into(tree: &Value, step: Step) -> Option<&Value>
    ensures { option_map (λ v. view v.now) result ≡ step_into (part_of step) (view tree.now) }
{
    match step {
        Step::Member(key) => tree.get(key),
        Step::Item(index) => list(tree)?.get(index),
    }
}
