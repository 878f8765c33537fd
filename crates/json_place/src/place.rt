ghost use Rattle.std.specs.Prelude.{◌≡◌, ◌==◌, [], length, map};
ghost use Rattle.json_place.specs.Places.{part_of, within};

use arrayvec::ArrayVec;
use std::fmt;
use std::marker::Model;

/// How many steps of a place are kept, the outermost ones.
pub const MAX_STEPS: usize = 6;

/// A step from a tree to one of its children.
#[derive(Clone, Copy, Debug)]
pub enum Step {
    /// To the member of an object with this key.
    Member(&'static str),
    /// To the item of a list with this index, from 0.
    Item(usize),
}

// Fills the unused steps of a place.
impl Default for Step {
    fn default() -> Step {
        Step::Item(0)
    }
}

/// A place in a JSON text: the steps from the root to it, outermost first. The root's place has none.
#[derive(Debug, Drop)]
pub struct Place {
    steps: ArrayVec<Step, MAX_STEPS>,
}

impl Model for Place {
    ghost use Rattle.std.specs.Prelude.{List, map};
    ghost use Rattle.json_place.specs.Parts.{Part};
    ghost use Rattle.json_place.specs.Places.{part_of};

    ghost Value = { List Part };

    ghost view = { λ place. map part_of place.steps.items };
}

impl Place {
    /// The place of the root, the whole text's tree.
    pub fn root() -> Place
        ensures { result ≡ [] }
    {
        Place {
            steps: ArrayVec::new(),
        }
    }

    /// Whether it is the root.
    pub fn is_root(&self) -> bool
        ensures { result ≡ (length self.now == 0) }
    {
        self.steps.is_empty()
    }

    /// The same place in the outer tree that has this tree under `step`. Beyond [`MAX_STEPS`] the innermost
    /// steps are dropped.
    pub fn within(self, step: Step) -> Place
        ensures { result ≡ within (part_of step) self }
    {
        let mut steps = self.steps;
        if steps.is_full() {
            steps.pop();
        }
        steps.insert(0, step);
        Place { steps }
    }

    /// The steps, outermost first.
    pub fn steps(&self) -> &[Step]
        ensures { map part_of result.now ≡ self.now }
    {
        self.steps.as_slice()
    }
}

/// A step after others: `.names`, `[2]`.
#[derive(Clone, Copy)]
struct Behind(Step);

impl fmt::Display for Behind {
    ghost use Rattle.std.specs.Prelude.{Some};
    ghost use Rattle.json_place.specs.Places.{behind_text, part_of};

    ghost output = { λ behind. Some (behind_text (part_of behind.0)) };

    fn fmt<W: fmt::Write>(&self, f: &mut fmt::Formatter<W>) -> fmt::Result {
        match self.0 {
            Step::Member(key) => write!(f, ".{key}"),
            Step::Item(_) => write!(f, "{}", First(self.0)),
        }
    }
}

/// The first step of a place: `syscalls`, `[1]`.
#[derive(Clone, Copy)]
struct First(Step);

impl fmt::Display for First {
    ghost use Rattle.std.specs.Prelude.{Some};
    ghost use Rattle.json_place.specs.Places.{first_text, part_of};

    ghost output = { λ first. Some (first_text (part_of first.0)) };

    fn fmt<W: fmt::Write>(&self, f: &mut fmt::Formatter<W>) -> fmt::Result {
        match self.0 {
            Step::Member(key) => write!(f, "{key}"),
            Step::Item(index) => write!(f, "[{index}]"),
        }
    }
}

/// The steps after the first one.
#[derive(Clone, Copy)]
struct Rest<'a>(&'a [Step]);

impl fmt::Display for Rest<'_> {
    ghost use Rattle.std.specs.Prelude.{Some, flat_map, map};
    ghost use Rattle.json_place.specs.Places.{behind_text, part_of};

    ghost output = { λ rest. Some (flat_map behind_text (map part_of rest.0.now)) };

    fn fmt<W: fmt::Write>(&self, f: &mut fmt::Formatter<W>) -> fmt::Result {
        for step in self.0 {
            write!(f, "{}", Behind(*step))?;
        }
        Ok(())
    }
}

/// `syscalls[1].names[2]`; empty for the whole text.
impl fmt::Display for Place {
    ghost use Rattle.std.specs.Prelude.{Some};
    ghost use Rattle.json_place.specs.Places.{place_text};

    ghost output = { λ place. Some (place_text place) };

    fn fmt<W: fmt::Write>(&self, f: &mut fmt::Formatter<W>) -> fmt::Result {
        match self.steps() {
            [first, rest @ ..] => write!(f, "{}{}", First(*first), Rest(rest)),
            [] => Ok(()),
        }
    }
}
