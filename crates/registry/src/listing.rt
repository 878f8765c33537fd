//! Listings and statuses of cells.
ghost use Rattle.std.specs.Prelude.{◌≡◌, ◌≤◌, IfOk, IfSome, IsTrue, length, map};
ghost use Rattle.registry.specs.declared.limits.TheConstants.{MAX_CELLS};
ghost use Rattle.manifest.specs.Texts.{is_label};
ghost use Rattle.registry.specs.Runtime.{container_in};
ghost use Rattle.registry.specs.Kept.{AreNamed};
ghost use Rattle.registry.specs.Serves.{AreStatuses, IsListing, TellsCells, listed, listed_status};
ghost use Rattle.registry.specs.Serves.{state_told, status_of};

use crate::cells::Cells;
use cri_msgs::{
    Answer, Call, ContainerMetadata, ListedContainer, ListedStatus, Listing, Refusal, Status,
    Statuses,
};
use manifest::Label;
use runtime_cell::{Cell, State};
use std::alloc::{AllocError, Global};

fn state_told(state: State) -> cri_msgs::State
    ensures { result ≡ state_told state }
{
    match state {
        State::Created => cri_msgs::State::Created,
        State::Running => cri_msgs::State::Running,
        State::Exited { code, .. } => cri_msgs::State::Exited(code),
    }
}

/// The status of a cell.
pub(crate) fn status_of(cell: &Cell) -> Status
    ensures { result ≡ status_of cell.now }
{
    let counts = cell.counts();
    Status {
        state: state_told(cell.state()),
        performed: counts.performed as u64,
        denied: counts.denied as u64,
    }
}

fn container_in(alloc: Global, cell: &Cell) -> Result<ContainerMetadata, AllocError>
    requires { IsTrue (is_label cell.now.making.label.name) }
    ensures { IfOk result (λ container. container ≡ container_in cell.now) }
{
    let label = cell.label();
    match Label::new(alloc, label.name.as_str())? {
        Some(name) => Ok(ContainerMetadata {
            name,
            attempt: label.attempt,
        }),
        None => unreachable!(),
    }
}

fn listed(alloc: Global, cell: &Cell) -> Result<ListedContainer, AllocError>
    requires { IsTrue (is_label cell.now.making.label.name) }
    ensures { IfOk result (λ item. item ≡ listed cell.now) }
{
    let container = container_in(alloc, cell)?;
    Ok(ListedContainer {
        container,
        state: state_told(cell.state()).kind(),
    })
}

fn listed_status(alloc: Global, cell: &Cell) -> Result<ListedStatus, AllocError>
    requires { IsTrue (is_label cell.now.making.label.name) }
    ensures { IfOk result (λ item. item ≡ listed_status cell.now) }
{
    let container = container_in(alloc, cell)?;
    Ok(ListedStatus {
        container,
        status: status_of(cell),
    })
}

fn all_listed(alloc: Global, cells: &[Cell]) -> Result<Vec<ListedContainer>, AllocError>
    requires { AreNamed cells.now }
    ensures { IfOk result (λ items. items.items ≡ map listed cells.now) }
{
    let mut items = Vec::new(alloc);
    for cell in cells {
        let item = listed(alloc, cell)?;
        items.push(item)?;
    }
    Ok(items)
}

fn all_statuses(alloc: Global, cells: &[Cell]) -> Result<Vec<ListedStatus>, AllocError>
    requires { AreNamed cells.now }
    ensures { IfOk result (λ items. items.items ≡ map listed_status cells.now) }
{
    let mut items = Vec::new(alloc);
    for cell in cells {
        let item = listed_status(alloc, cell)?;
        items.push(item)?;
    }
    Ok(items)
}

/// The cells of a sandbox, by name, then by attempt.
pub(crate) fn listing(alloc: Global, cells: &[Cell]) -> Result<Listing, AllocError>
    requires few { length cells.now ≤ MAX_CELLS }
    requires named { AreNamed cells.now }
    ensures { IfOk result (λ items. IsListing cells.now items) }
{
    let mut items = all_listed(alloc, cells)?;
    items.sort_unstable_by(|a, b| a.container.cmp(&b.container));
    Ok(Listing::new(items))
}

/// The statuses of a sandbox's cells, by name, then by attempt.
pub(crate) fn statuses(alloc: Global, cells: &[Cell]) -> Result<Statuses, AllocError>
    requires few { length cells.now ≤ MAX_CELLS }
    requires named { AreNamed cells.now }
    ensures { IfOk result (λ items. AreStatuses cells.now items) }
{
    let mut items = all_statuses(alloc, cells)?;
    items.sort_unstable_by(|a, b| a.container.cmp(&b.container));
    Ok(Statuses::new(items))
}

/// The answer to a call that lists the cells of a sandbox, ListContainers or ContainerStatuses, by these
/// cells alone. `None` for any other call. It is what [`crate::Registry::serve_lent`] answers as long as the
/// sandbox exists, so a caller that holds the cells' lock need not block other sandboxes meanwhile.
pub fn tell_cells(alloc: Global, call: &Call, cells: &Cells) -> Option<Answer>
    ensures { IfSome result (λ answer. TellsCells call.now cells.now answer) }
{
    match call {
        Call::ListContainers { .. } => match listing(alloc, cells.as_slice()) {
            Ok(items) => Some(Answer::List(items)),
            Err(AllocError) => Some(Answer::Refused(Refusal::Memory)),
        },
        Call::ContainerStatuses { .. } => match statuses(alloc, cells.as_slice()) {
            Ok(items) => Some(Answer::Statuses(items)),
            Err(AllocError) => Some(Answer::Refused(Refusal::Memory)),
        },
        _ => None,
    }
}
