//! What a runtime knows of all uids, except for their cells.
ghost use Rattle.std.specs.Prelude.{◌≡◌, ◌↔◌, ◌<◌, ◌++◌, ◌∷◌, IsTrue, OnOk, OnErr, ℕ, List, [], true, length};
ghost use Rattle.std.specs.Prelude.{Option, IfSome, IfNone, find, option_copied};
ghost use Rattle.creation.specs.declared.files.FileAnswers.{FileAnswers};
ghost use Rattle.registry.specs.declared.limits.TheConstants.{MAX_CELLS};
ghost use Rattle.manifest.specs.Texts.{is_label};
ghost use Rattle.runtime_cell.specs.Cell.{Cell};
ghost use Rattle.registry.specs.declared.stage.Stage.{Stage};
ghost use Rattle.registry.specs.Kept.{IsNextIn, home_in};
ghost use Rattle.registry.specs.Runtime.{empty, fresh_sandbox, is_of, removed, slot_in};
ghost use Rattle.registry.specs.Runtime.Slot.{Free};
ghost use Rattle.cri_msgs.specs.Calls.{uid_of};
ghost use Rattle.registry.specs.Serves.{Creates, Enters, IsCrowded, IsFull, Lists, ListsStatuses, MakesFrom};
ghost use Rattle.registry.specs.Serves.{Removes, RemovesPod, RunsPod, ServesIn, Shows, Starts, Stops};
ghost use Rattle.registry.specs.Serves.{StopsPod, gone_of, gone_with, handed_out};
ghost use Rattle.registry.specs.Stands.{Agrees, AreBound, IsPlaced, IsUnplaced, Keeps, Spares, around_in};
ghost use Rattle.registry.specs.Stands.{part_in, runtime_of, stages_in};

use crate::cells::Cells;
use crate::containers::{code_of_grace, made_before, start, status, stop};
use crate::homes::Homes;
use crate::known::{Known, Live};
use crate::listing::{listing, statuses};
use crate::removed::RemovedCells;
use crate::stage::Stage;
use crate::uids::Uids;
use crate::used::Used;
use bpf_verify::Filter;
use creation::{FileAnswers, ReadyDefault, built_cell};
use cri_msgs::{Answer, Call, ContainerMetadata, Key, Listing, Refusal, Reply, Request, Statuses};
use manifest::{DescendingPath, SeccompProfile, Uid};
use runtime_cell::Cell;
use std::alloc::{AllocError, Global};

/// Which uids are known, the stages of their sandboxes and what was made in them, and the sandbox of each id.
/// The cells themselves are in a list for each sandbox, [`Cells`].
#[derive(Drop)]
pub struct Registry {
    pub(crate) alloc: Global,
    pub(crate) baseline: Option<Filter>,
    pub(crate) ready: ReadyDefault,
    pub(crate) uids: Uids,
    pub(crate) homes: Homes,
    pub(crate) made: u64,
}

impl Registry {
    /// An empty registry, of a node with this baseline filter.
    pub fn new(alloc: Global, baseline: Option<Filter>) -> Registry
        ensures empty { runtime_of result (λ _. []) ≡ empty baseline }
        ensures bound { AreBound result }
        ensures agrees { (uid : List ℕ) → Agrees result uid [] }
    {
        Registry {
            alloc,
            baseline,
            ready: ReadyDefault::none(),
            uids: Uids::new(alloc),
            homes: Homes::new(alloc),
            made: 0,
        }
    }

    /// Compiles RuntimeDefault once, and later containers that ask for it get copies. If memory runs out, it
    /// is compiled anew for each of them.
    pub fn make_ready(&mut self)
        ensures { self.new ≡ self.old }
    {
        self.ready = ReadyDefault::new(self.alloc);
    }

    /// The stage of a uid's sandbox.
    pub fn stage(&self, uid: &str) -> Stage
        ensures { result ≡ stages_in self.now uid.now }
    {
        match self.uids.get(uid) {
            None => Stage::Unknown,
            Some(Known::Live(live)) => Stage::Live { ready: live.ready },
            Some(Known::Removed) => Stage::Removed,
        }
    }

    /// Whether there is no room for a further uid.
    pub fn is_full(&self) -> bool
        ensures { IsTrue result ↔ IsFull (stages_in self.now) }
    {
        self.uids.is_full()
    }

    /// The uid of the sandbox in which the cell with this id is.
    pub fn home(&self, id: u64) -> Option<&str>
        ensures { option_copied result ≡ home_in self.now.homes id }
    {
        self.homes.get(id)
    }

    /// The least id above this one that a cell has.
    pub fn next_id(&self, above: u64) -> Option<u64>
        ensures { IsNextIn (home_in self.now.homes) above result }
    {
        self.homes.next(above)
    }

    /// Serves a request, given the results of reading its files. `cells` is the list of the request's uid, or
    /// an empty one if that uid has no sandbox. `gone` receives the cells that are removed, so that a caller
    /// that holds locks can drop them later.
    pub fn serve_lent(
        &mut self,
        cells: &mut Cells,
        gone: &mut RemovedCells,
        request: Request,
        files: FileAnswers,
    ) -> Reply
        ensures number { result.id ≡ request.id }

        // The table of calls applies to that sandbox.
        ensures row { ServesIn (around_in self.old) request.call files
            (part_in self.old (uid_of request.call) cells.old) result.answer
            (part_in self.new (uid_of request.call) cells.new) }

        // Every other uid is unchanged.
        ensures spares { Spares self.old self.new (uid_of request.call) cells.old }

        // The invariant between registry and list is kept.
        ensures keeps { Keeps self.old self.new (uid_of request.call) cells.old cells.new }

        // The cells that are removed are handed out, and no others.
        ensures gone { gone.new ≡ handed_out request.call (stages_in self.old (uid_of request.call)) cells.old
            gone.old }
    {
        let Request { id, call } = request;
        let answer = self.answer(cells, gone, call, files);
        Reply { id, answer }
    }

    fn answer(
        &mut self,
        cells: &mut Cells,
        gone: &mut RemovedCells,
        call: Call,
        files: FileAnswers,
    ) -> Answer
        ensures row { ServesIn (around_in self.old) call files (part_in self.old (uid_of call) cells.old)
            result (part_in self.new (uid_of call) cells.new) }
        ensures spares { Spares self.old self.new (uid_of call) cells.old }
        ensures keeps { Keeps self.old self.new (uid_of call) cells.old cells.new }
        ensures gone { gone.new ≡ handed_out call (stages_in self.old (uid_of call)) cells.old gone.old }
    {
        match call {
            Call::RunPodSandbox { uid } => self.run_pod(cells, &uid),
            Call::StopPodSandbox { uid, grace } => self.stop_pod(cells, &uid, grace),
            Call::RemovePodSandbox { uid } => self.remove_pod(cells, gone, &uid),
            Call::CreateContainer {
                key,
                image,
                profile,
            } => self.create(cells, key, &image, &profile, files),
            Call::StartContainer { key } => self.start(cells, &key),
            Call::StopContainer { key, grace } => self.stop(cells, &key, grace),
            Call::RemoveContainer { key } => self.remove(cells, gone, &key),
            Call::ContainerStatus { key } => self.status(cells, &key),
            Call::ListContainers { uid } => self.list(cells, &uid),
            Call::ContainerStatuses { uid } => self.statuses(cells, &uid),
        }
    }

    pub(crate) fn run_pod(&mut self, cells: &mut Cells, uid: &Uid) -> Answer
        ensures row { RunsPod (stages_in self.old uid.now) (IsFull (stages_in self.old))
            (part_in self.old uid.now cells.old) result (part_in self.new uid.now cells.new) }
        ensures spares { Spares self.old self.new uid.now cells.old }
        ensures keeps { Keeps self.old self.new uid.now cells.old cells.new }
    {
        match self.stage(uid.as_str()) {
            Stage::Unknown => self.wake(cells, uid),
            Stage::Live { ready: true } => Answer::Done,
            Stage::Live { ready: false } => Answer::Refused(Refusal::FailedPrecondition),
            Stage::Removed => Answer::Refused(Refusal::FailedPrecondition),
        }
    }

    /// Makes a sandbox for a uid that was never named.
    fn wake(&mut self, cells: &mut Cells, uid: &Uid) -> Answer
        requires { stages_in self.old uid.now ≡ Stage.Unknown }
        ensures row { Enters (IsFull (stages_in self.old)) (part_in self.old uid.now cells.old) fresh_sandbox
            result (part_in self.new uid.now cells.new) }
        ensures spares { Spares self.old self.new uid.now cells.old }
        ensures keeps { Keeps self.old self.new uid.now cells.old cells.new }
    {
        if self.uids.is_full() {
            return Answer::Refused(Refusal::ResourceExhausted);
        }
        let live = Live {
            ready: true,
            used: Used::new(self.alloc),
        };
        match self.uids.put(self.alloc, uid.as_str(), Known::Live(live)) {
            Ok(()) => {
                cells.clear();
                Answer::Done
            }
            Err(AllocError) => Answer::Refused(Refusal::Memory),
        }
    }

    pub(crate) fn stop_pod(&mut self, cells: &mut Cells, uid: &Uid, grace: u64) -> Answer
        ensures row { StopsPod (stages_in self.old uid.now) grace (part_in self.old uid.now cells.old) result
            (part_in self.new uid.now cells.new) }
        ensures spares { Spares self.old self.new uid.now cells.old }
        ensures keeps { Keeps self.old self.new uid.now cells.old cells.new }
    {
        match self.stage(uid.as_str()) {
            Stage::Live { .. } => {
                self.uids.stop(uid.as_str());
                cells.kill_all(code_of_grace(grace));
                Answer::Done
            }
            Stage::Unknown => Answer::Done,
            Stage::Removed => Answer::Done,
        }
    }

    pub(crate) fn remove_pod(
        &mut self,
        cells: &mut Cells,
        gone: &mut RemovedCells,
        uid: &Uid,
    ) -> Answer
        ensures row { RemovesPod (stages_in self.old uid.now) (IsFull (stages_in self.old))
            (part_in self.old uid.now cells.old) result (part_in self.new uid.now cells.new) }
        ensures spares { Spares self.old self.new uid.now cells.old }
        ensures keeps { Keeps self.old self.new uid.now cells.old cells.new }
        ensures gone { gone.new ≡ gone_with (stages_in self.old uid.now) cells.old gone.old }
    {
        match self.stage(uid.as_str()) {
            Stage::Unknown => self.bury(uid),
            Stage::Live { .. } => {
                self.uids.end(uid.as_str());
                self.homes.forget(cells.as_slice());
                gone.put_all(cells);
                Answer::Done
            }
            Stage::Removed => Answer::Done,
        }
    }

    /// Marks a uid that was never named as removed.
    fn bury(&mut self, uid: &Uid) -> Answer
        requires { stages_in self.old uid.now ≡ Stage.Unknown }
        ensures row { (cells : List Cell) → Enters (IsFull (stages_in self.old))
            (part_in self.old uid.now cells) removed result (part_in self.new uid.now cells) }
        ensures spares { (cells : List Cell) → Spares self.old self.new uid.now cells }
        ensures keeps { (cells : List Cell) → Keeps self.old self.new uid.now cells cells }
    {
        if self.uids.is_full() {
            return Answer::Refused(Refusal::ResourceExhausted);
        }
        match self.uids.put(self.alloc, uid.as_str(), Known::Removed) {
            Ok(()) => Answer::Done,
            Err(AllocError) => Answer::Refused(Refusal::Memory),
        }
    }

    pub(crate) fn start(&self, cells: &mut Cells, key: &Key) -> Answer
        ensures row { Starts (stages_in self.now key.now.uid) key.now.container
            (part_in self.now key.now.uid cells.old) result (part_in self.now key.now.uid cells.new) }
        ensures keeps { Keeps self.now self.now key.now.uid cells.old cells.new }
    {
        match self.uids.get(key.uid.as_str()) {
            None => Answer::Refused(Refusal::NotFound),
            Some(Known::Live(live)) => start(live, cells, &key.container),
            Some(Known::Removed) => Answer::Refused(Refusal::FailedPrecondition),
        }
    }

    pub(crate) fn stop(&self, cells: &mut Cells, key: &Key, grace: u64) -> Answer
        ensures row { Stops (slot_in (part_in self.now key.now.uid cells.old).sandbox key.now.container)
            key.now.container grace
            (part_in self.now key.now.uid cells.old) result (part_in self.now key.now.uid cells.new) }
        ensures keeps { Keeps self.now self.now key.now.uid cells.old cells.new }
    {
        match self.uids.get(key.uid.as_str()) {
            None => Answer::Done,
            Some(Known::Live(live)) => stop(live, cells, &key.container, grace),
            Some(Known::Removed) => Answer::Done,
        }
    }

    pub(crate) fn status(&self, cells: &Cells, key: &Key) -> Answer
        ensures { Shows (slot_in (part_in self.now key.now.uid cells.now).sandbox key.now.container)
            (part_in self.now key.now.uid cells.now) result (part_in self.now key.now.uid cells.now) }
    {
        match self.uids.get(key.uid.as_str()) {
            None => Answer::Refused(Refusal::NotFound),
            Some(Known::Live(live)) => status(live, cells, &key.container),
            Some(Known::Removed) => Answer::Refused(Refusal::NotFound),
        }
    }

    pub(crate) fn list(&self, cells: &Cells, uid: &Uid) -> Answer
        ensures { Lists (part_in self.now uid.now cells.now) result (part_in self.now uid.now cells.now) }
    {
        match self.uids.get(uid.as_str()) {
            None => Answer::List(Listing::new(Vec::new(self.alloc))),
            Some(Known::Live(_)) => match listing(self.alloc, cells.as_slice()) {
                Ok(items) => Answer::List(items),
                Err(AllocError) => Answer::Refused(Refusal::Memory),
            },
            Some(Known::Removed) => Answer::List(Listing::new(Vec::new(self.alloc))),
        }
    }

    pub(crate) fn statuses(&self, cells: &Cells, uid: &Uid) -> Answer
        ensures { ListsStatuses (part_in self.now uid.now cells.now) result
            (part_in self.now uid.now cells.now) }
    {
        match self.uids.get(uid.as_str()) {
            None => Answer::Statuses(Statuses::new(Vec::new(self.alloc))),
            Some(Known::Live(_)) => match statuses(self.alloc, cells.as_slice()) {
                Ok(items) => Answer::Statuses(items),
                Err(AllocError) => Answer::Refused(Refusal::Memory),
            },
            Some(Known::Removed) => Answer::Statuses(Statuses::new(Vec::new(self.alloc))),
        }
    }

    pub(crate) fn remove(&mut self, cells: &mut Cells, gone: &mut RemovedCells, key: &Key) -> Answer
        ensures row { Removes (slot_in (part_in self.old key.now.uid cells.old).sandbox key.now.container)
            key.now.container
            (part_in self.old key.now.uid cells.old) result (part_in self.new key.now.uid cells.new) }
        ensures spares { Spares self.old self.new key.now.uid cells.old }
        ensures keeps { Keeps self.old self.new key.now.uid cells.old cells.new }
        ensures gone { gone.new ≡ gone_of (stages_in self.old key.now.uid)
            (find (is_of key.now.container) cells.old) gone.old }
    {
        match self.stage(key.uid.as_str()) {
            Stage::Live { .. } => {
                match cells.remove(&key.container) {
                    Some(cell) => {
                        self.homes.remove(cell.label().id);
                        gone.put(cell);
                        Answer::Done
                    }
                    None => Answer::Done,
                }
            }
            Stage::Unknown => Answer::Done,
            Stage::Removed => Answer::Done,
        }
    }

    pub(crate) fn create(
        &mut self,
        cells: &mut Cells,
        key: Key,
        image: &DescendingPath,
        choice: &SeccompProfile,
        files: FileAnswers,
    ) -> Answer
        ensures row { Creates (stages_in self.old key.uid) self.old.baseline key.container image.now
            choice.now files
            (part_in self.old key.uid cells.old) result (part_in self.new key.uid cells.new) }
        ensures spares { Spares self.old self.new key.uid cells.old }
        ensures keeps { Keeps self.old self.new key.uid cells.old cells.new }
    {
        match self.before_files(cells, &key, image, choice) {
            Some(answer) => answer,
            None => self.make(cells, key, image, choice, files),
        }
    }

    /// The answer to a creation that makes no cell, whatever its files are. `None` if a cell must be made.
    fn before_files(
        &self,
        cells: &Cells,
        key: &Key,
        image: &DescendingPath,
        choice: &SeccompProfile,
    ) -> Option<Answer>
        ensures said { IfSome result (λ answer. (files : FileAnswers)
            → Creates (stages_in self.now key.now.uid) self.now.baseline key.now.container image.now
            choice.now files
            (part_in self.now key.now.uid cells.now) answer (part_in self.now key.now.uid cells.now)) }
        ensures ready { IfNone result (stages_in self.now key.now.uid ≡ Stage.Live true) }
        ensures free { IfNone result (slot_in (part_in self.now key.now.uid cells.now).sandbox
            key.now.container ≡ Free) }
        ensures place { IfNone result (IsCrowded (part_in self.now key.now.uid cells.now).sandbox → ⊥) }
    {
        match self.uids.get(key.uid.as_str()) {
            None => Some(Answer::Refused(Refusal::NotFound)),
            Some(Known::Live(live)) => made_before(live, cells, &key.container, image, choice),
            Some(Known::Removed) => Some(Answer::Refused(Refusal::FailedPrecondition)),
        }
    }

    /// Makes a new cell, in a sandbox that has room for it.
    fn make(
        &mut self,
        cells: &mut Cells,
        key: Key,
        image: &DescendingPath,
        choice: &SeccompProfile,
        files: FileAnswers,
    ) -> Answer
        requires live { stages_in self.old key.uid ≡ Stage.Live true }
        requires place { length cells.old < MAX_CELLS }
        ensures row { MakesFrom self.old.baseline key.container image.now choice.now files
            (part_in self.old key.uid cells.old) result (part_in self.new key.uid cells.new) }
        ensures spares { Spares self.old self.new key.uid cells.old }
        ensures keeps { Keeps self.old self.new key.uid cells.old cells.new }
    {
        // 2^64 - 1 cells are never made.
        let id = self.made.saturating_add(1);
        match built_cell(
            self.alloc,
            &self.ready,
            &self.baseline,
            id,
            &key.container,
            image,
            choice,
            files,
        ) {
            Ok(cell) => {
                if self.made == u64::MAX {
                    return Answer::Refused(Refusal::Memory);
                }
                match self.settle(cells, key, cell, id) {
                    Ok(()) => Answer::Container(id),
                    Err(AllocError) => Answer::Refused(Refusal::Memory),
                }
            }
            Err(refusal) => Answer::Refused(refusal),
        }
    }

    /// Inserts a cell. If an allocation fails, nothing has changed.
    fn settle(&mut self, cells: &mut Cells, key: Key, cell: Cell, id: u64) -> Result<(), AllocError>
        requires place { length cells.old < MAX_CELLS }
        requires named { IsTrue (is_label cell.making.label.name) }
        requires fresh { self.old.made < id }
        ensures cells { OnOk result (cells.new ≡ cells.old ++ cell ∷ []) }
        ensures same { OnErr result (cells.new ≡ cells.old) }
        ensures ok { OnOk result (IsPlaced self.old self.new key.uid key.container id) }
        ensures err { OnErr result (IsUnplaced self.old self.new) }
    {
        let Key { uid, container } = key;
        match cells.push(cell) {
            Ok(()) => match self.place(&uid, container, id) {
                Ok(()) => Ok(()),
                Err(AllocError) => {
                    cells.pop();
                    Err(AllocError)
                }
            },
            Err(AllocError) => Err(AllocError),
        }
    }

    fn place(&mut self, uid: &Uid, container: ContainerMetadata, id: u64) -> Result<(), AllocError>
        requires { self.old.made < id }
        ensures ok { OnOk result (IsPlaced self.old self.new uid.now container id) }
        ensures err { OnErr result (IsUnplaced self.old self.new) }
    {
        match self.homes.put(self.alloc, id, uid.as_str()) {
            Ok(()) => match self.uids.add(uid.as_str(), container) {
                Ok(()) => {
                    self.made = id;
                    Ok(())
                }
                Err(AllocError) => {
                    self.homes.remove(id);
                    Err(AllocError)
                }
            },
            Err(AllocError) => Err(AllocError),
        }
    }
}
