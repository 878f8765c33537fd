//! What a call does to a container of an existing sandbox.
ghost use Rattle.std.specs.Prelude.{◌≡◌, ◌⊎◌, ◌↔◌, ℕ, Option, Some, List, true, if◌then◌else◌, map, IsTrue};
ghost use Rattle.std.specs.Prelude.{IfSome, IfNone};
ghost use Rattle.bpf_code.specs.declared.insn.Insn.{Insn};
ghost use Rattle.registry.specs.declared.known.Known.{Known};
ghost use Rattle.std.specs.List.{list_any};
ghost use Rattle.cri_msgs.specs.declared.refusals.Refusal.{Refusal};
ghost use Rattle.cri_msgs.specs.declared.replies.Answer.{Answer};
ghost use Rattle.registry.specs.Runtime.{id_of, is_same, slot_in};
ghost use Rattle.creation.specs.declared.files.FileAnswers.{FileAnswers};
ghost use Rattle.registry.specs.Runtime.Slot.{Free};
ghost use Rattle.creation.specs.Files.{choice_of};
ghost use Rattle.registry.specs.Serves.{CreatesIn, IsCrowded, Shows, StartsIn, Stops, WasAsked};
ghost use Rattle.registry.specs.Serves.{code_of_grace};
ghost use Rattle.registry.specs.Stands.{part_by, sandbox_of};

use crate::cells::Cells;
use crate::known::Live;
use crate::limits::{MAX_CELLS, STOPPED, TERMINATED};
use crate::listing::status_of;
use cri_msgs::{Answer, ContainerMetadata, Refusal};
use manifest::{DescendingPath, SeccompProfile};
use runtime_cell::{Cell, State};

/// The exit code of a container that is stopped with this grace period, in seconds.
pub(crate) fn code_of_grace(grace: u64) -> u8
    ensures { result ≡ code_of_grace grace }
{
    if grace == 0 { STOPPED } else { TERMINATED }
}

/// Starts a container that was not started.
#[tactic(auto, using(crate::proofs::Ids::ids_started, crate::proofs::Ids::ids_killed))]
pub(crate) fn start(live: &Live, cells: &mut Cells, container: &ContainerMetadata) -> Answer
    ensures row { (made : ℕ) → StartsIn (slot_in (sandbox_of (Some (Known.Live live.now)) cells.old)
        container.now) live.now.ready container.now
        (part_by made (Some (Known.Live live.now)) cells.old) result
        (part_by made (Some (Known.Live live.now)) cells.new) }
    ensures ids { map id_of cells.new ≡ map id_of cells.old }
{
    match cells.state_of(container) {
        None => missing(live, container),
        Some(State::Created) => {
            if live.ready {
                cells.start(container);
                Answer::Done
            } else {
                Answer::Refused(Refusal::FailedPrecondition)
            }
        }
        Some(State::Running) => Answer::Done,
        Some(State::Exited { .. }) => Answer::Done,
    }
}

/// The answer if the container's cell does not exist.
fn missing(live: &Live, container: &ContainerMetadata) -> Answer
    ensures { result ≡ (if list_any (is_same container.now) live.now.used
        then Answer.Refused Refusal.FailedPrecondition else Answer.Refused Refusal.NotFound) }
{
    if live.used.has(container) {
        Answer::Refused(Refusal::FailedPrecondition)
    } else {
        Answer::Refused(Refusal::NotFound)
    }
}

/// Ends a container.
#[tactic(auto, using(crate::proofs::Ids::ids_started, crate::proofs::Ids::ids_killed))]
pub(crate) fn stop(
    live: &Live,
    cells: &mut Cells,
    container: &ContainerMetadata,
    grace: u64,
) -> Answer
    ensures row { (made : ℕ) → Stops (slot_in (sandbox_of (Some (Known.Live live.now)) cells.old)
        container.now) container.now grace
        (part_by made (Some (Known.Live live.now)) cells.old) result
        (part_by made (Some (Known.Live live.now)) cells.new) }
    ensures ids { map id_of cells.new ≡ map id_of cells.old }
{
    match cells.state_of(container) {
        None => Answer::Done,
        Some(_) => {
            cells.kill(container, code_of_grace(grace));
            Answer::Done
        }
    }
}

/// The answer with the status of a container.
pub(crate) fn status(live: &Live, cells: &Cells, container: &ContainerMetadata) -> Answer
    ensures { (made : ℕ) → Shows (slot_in (sandbox_of (Some (Known.Live live.now)) cells.now) container.now)
        (part_by made (Some (Known.Live live.now)) cells.now) result
        (part_by made (Some (Known.Live live.now)) cells.now) }
{
    match cells.of(container) {
        Some(cell) => Answer::Status(status_of(cell)),
        None => Answer::Refused(Refusal::NotFound),
    }
}

/// The answer to a creation that makes no cell, whatever its files are. `None` if a cell must be made.
pub(crate) fn made_before(
    live: &Live,
    cells: &Cells,
    container: &ContainerMetadata,
    image: &DescendingPath,
    choice: &SeccompProfile,
) -> Option<Answer>
    ensures said { IfSome result (λ answer. (made : ℕ) (baseline : Option (List Insn)) (files : FileAnswers)
        → CreatesIn (slot_in (sandbox_of (Some (Known.Live live.now)) cells.now) container.now) live.now.ready
        baseline container.now image.now choice.now files
        (part_by made (Some (Known.Live live.now)) cells.now) answer
        (part_by made (Some (Known.Live live.now)) cells.now)) }
    ensures free { IfNone result (slot_in (sandbox_of (Some (Known.Live live.now)) cells.now) container.now
        ≡ Free) }
    ensures ready { IfNone result (live.now.ready ≡ true) }
    ensures place { IfNone result (IsCrowded (sandbox_of (Some (Known.Live live.now)) cells.now) → ⊥) }
{
    match cells.of(container) {
        Some(cell) => Some(again(cell, image, choice)),
        None => {
            if live.used.has(container) {
                return Some(Answer::Refused(Refusal::FailedPrecondition));
            }
            if !live.ready {
                return Some(Answer::Refused(Refusal::FailedPrecondition));
            }
            if is_crowded(live, cells) {
                return Some(Answer::Refused(Refusal::ResourceExhausted));
            }
            None
        }
    }
}

/// Whether a sandbox has no room for another container.
fn is_crowded(live: &Live, cells: &Cells) -> bool
    ensures { IsTrue result ↔ IsCrowded (sandbox_of (Some (Known.Live live.now)) cells.now) }
{
    cells.as_slice().len() >= MAX_CELLS || live.used.is_full()
}

/// The answer to a creation whose cell exists already.
fn again(cell: &Cell, image: &DescendingPath, choice: &SeccompProfile) -> Answer
    ensures { (WasAsked cell.now image.now choice.now × (result ≡ Answer.Container cell.now.making.label.id))
        ⊎ ((WasAsked cell.now image.now choice.now → ⊥) × (result ≡ Answer.Refused Refusal.AlreadyExists)) }
{
    if was_asked(cell, image, choice) {
        Answer::Container(cell.label().id)
    } else {
        Answer::Refused(Refusal::AlreadyExists)
    }
}

fn was_asked(cell: &Cell, image: &DescendingPath, choice: &SeccompProfile) -> bool
    ensures { IsTrue result ↔ WasAsked cell.now image.now choice.now }
{
    cell.label().image.as_str() == image.as_str() && has_choice(cell, choice)
}

/// Whether the cell was made with this profile.
fn has_choice(cell: &Cell, choice: &SeccompProfile) -> bool
    ensures { IsTrue result ↔ (choice_of cell.now.making ≡ choice.now) }
{
    let label = cell.label();
    match (&label.path, choice) {
        (Some(path), SeccompProfile::Localhost(file)) => path.as_str() == file.as_str(),
        (None, SeccompProfile::RuntimeDefault) => cell.profile().is_some(),
        (None, SeccompProfile::Unconfined) => cell.profile().is_none(),
        _ => false,
    }
}
