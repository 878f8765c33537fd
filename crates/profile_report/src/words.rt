//! The words for actions and for what decides.
ghost use Rattle.std.specs.Prelude.{◌≡◌};
ghost use Rattle.action.specs.Verdict.{verdict_of};
ghost use Rattle.profile_report.specs.Words.{letter_in, letter_of};

use action::{Action, ValueText, Verdict};
use explain::Decider;
use std::fmt;

/// How many entries of a profile are shown at most, the first ones.
pub const SHOWN_ENTRIES: usize = 32;

/// The letter of an action.
pub(crate) fn letter(action: Action) -> &'static str
    ensures { result.now ≡ letter_of action }
{
    match action {
        Action::KillProcess => "K",
        Action::KillThread => "H",
        Action::Trap => "T",
        Action::Errno => "E",
        Action::UserNotif => "N",
        Action::Trace => "R",
        Action::Log => "L",
        Action::Allow => "A",
    }
}

/// The letter of a filter's value.
pub(crate) fn letter_in(value: u32) -> &'static str
    ensures { result.now ≡ letter_in value }
{
    letter(Verdict::of_value(value).action)
}

/// The place of an entry, with a link to the entry if it is shown.
#[derive(Clone, Copy)]
struct EntryLink(usize);

impl fmt::Display for EntryLink {
    ghost use Rattle.std.specs.Prelude.{Some};
    ghost use Rattle.profile_report.specs.Words.{entry_link};

    ghost output = { λ link. Some (entry_link link.0) };

    #[tactic(auto, unfolding(crate::specs::Words::entry_link))]
    fn fmt<W: fmt::Write>(&self, f: &mut fmt::Formatter<W>) -> fmt::Result {
        let place = self.0;
        if place < SHOWN_ENTRIES {
            write!(f, "<a href=\"#e{place}\">syscalls[{place}]</a>")
        } else {
            write!(f, "syscalls[{place}]")
        }
    }
}

/// What decides, with a link to it if it is shown.
#[derive(Clone, Copy)]
struct Link(Decider);

impl fmt::Display for Link {
    ghost use Rattle.std.specs.Prelude.{Some};
    ghost use Rattle.profile_report.specs.Words.{link_text};

    ghost output = { λ link. Some (link_text link.0) };

    fn fmt<W: fmt::Write>(&self, f: &mut fmt::Formatter<W>) -> fmt::Result {
        match self.0 {
            Decider::Architecture => f.write_str("the architecture"),
            Decider::X32Bit => f.write_str("the x32 bit"),
            Decider::Entry(place) => write!(f, "{}", EntryLink(place)),
            Decider::Default => f.write_str("<a href=\"#default\">defaultAction</a>"),
        }
    }
}

/// A value's action and data, and a link to what decides.
#[derive(Clone, Copy)]
pub(crate) struct Linked(pub u32, pub Decider);

impl fmt::Display for Linked {
    ghost use Rattle.std.specs.Prelude.{Some};
    ghost use Rattle.profile_report.specs.Words.{linked_text};

    ghost output = { λ linked. Some (linked_text linked.0 linked.1) };

    fn fmt<W: fmt::Write>(&self, f: &mut fmt::Formatter<W>) -> fmt::Result {
        let (value, link) = (ValueText(self.0), Link(self.1));
        write!(f, "{value} by {link}")
    }
}
