//! Which pods of a folder's manifests are admitted to a node, and which are deleted.
ghost use Rattle.std.specs.Prelude.{◌≡◌, ◌<◌, ◌++◌, ◌∷◌, [], IfOk, IsSome, IsSomeAnd, None, OnErr, Some};
ghost use Rattle.std.specs.Prelude.{is_some, true};
ghost use Rattle.std.specs.Prelude.{if◌then◌else◌, option_copied, option_map, slice_get, vec_len};
ghost use Rattle.std.specs.Prelude.{vec_capacity};
ghost use Rattle.manifest.specs.Texts.{is_uid};
ghost use Rattle.pod_folder.specs.Folders.{Asks, HasLeft, IsAdmission, after_loss, changed, first_to_come};
ghost use Rattle.pod_folder.specs.Folders.{found_refused};
ghost use Rattle.pod_folder.specs.Folders.{fresh, is_leaving, leaving, looked, lost, may_move, moves};
ghost use Rattle.pod_folder.specs.Folders.{names_refused};
ghost use Rattle.pod_folder.specs.Folders.{place_of_file, placed_at, recorded, told_of, tried, uid_in};
ghost use Rattle.pod_folder.specs.Folders.{with_count};
ghost use Rattle.pod_folder.specs.Placing.{NoneLeaves};

use crate::asking::{Asked, Due};
use crate::looks::{FoundFile, Manifest};
use crate::naming::Naming;
use crate::placed::{PlacedPod, coming, leaving, place_of_pod};
use manifest::{Pod, Uid};
use std::alloc::{AllocError, Global};
use std::marker::Model;
use std::mem;
use worker_core::{AgentEvent, NodeRefusal};

/// The pods of a node.
pub trait OnNode {
    /// Whether a pod of this uid is on the node.
    fn has(&self, uid: &Uid) -> bool;
}

/// The manifests of a folder, and the state of their pods.
#[derive(Drop)]
pub struct Folder<'a> {
    alloc: Global,
    naming: Naming<'a>,
    found: Vec<FoundFile>,
    placed: Vec<PlacedPod>,
    // Whether the node was full, and no pod has left since.
    full: bool,
    asked: Asked,
}

impl<'a> Model for Folder<'a> {
    ghost use Rattle.std.specs.Prelude.{vec_len, vec_capacity};
    ghost use Rattle.pod_folder.specs.Folders.{Folders, HasRoom};

    ghost Value = { Folders };

    ghost view = { λ f. record {
      found = f.found.items;
      placed = f.placed.items;
      names = f.naming;
      full = f.full;
      asked = f.asked;
    } };

    // A pod whose admission is asked for has its room, so its entry takes no memory.
    ghost invariant = { λ f. HasRoom f.asked (vec_len f.placed) (vec_capacity f.placed) };
}

// The place of the file of this name.
fn place_of_file(name: &str, found: &[FoundFile]) -> Option<usize>
    ensures { result ≡ place_of_file name.now found.now }
{
    found.iter().position(|file| file.name.as_str() == name)
}

// Marks the file at this place as not to be asked for again.
fn try_no_more(found: &mut [FoundFile], place: Option<usize>)
    ensures { found.new ≡ changed tried found.old place }
{
    if let Some(place) = place {
        if place < found.len() {
            let file = &mut found[place];
            file.tried = true;
        }
    }
}

// Marks the pod at this place as leaving, after its deletion was recorded.
fn let_go(placed: &mut Vec<PlacedPod>, place: Option<usize>)
    ensures items { placed.new.items ≡ changed leaving placed.old.items place }
    ensures len { vec_len placed.new ≡ vec_len placed.old }
    ensures room { vec_capacity placed.new ≡ vec_capacity placed.old }
{
    if let Some(place) = place {
        if place < placed.len() {
            let pod = &mut placed[place];
            pod.leaving = true;
        }
    }
}

// Marks the pod at this place as lost by the runtime.
fn give_up(placed: &mut Vec<PlacedPod>, place: Option<usize>)
    ensures items { placed.new.items ≡ changed lost placed.old.items place }
    ensures len { vec_len placed.new ≡ vec_len placed.old }
    ensures room { vec_capacity placed.new ≡ vec_capacity placed.old }
{
    if let Some(place) = place {
        if place < placed.len() {
            let pod = &mut placed[place];
            pod.lost = true;
        }
    }
}

// Adds a pod, for which there is room.
fn add(placed: &mut Vec<PlacedPod>, pod: PlacedPod)
    requires { vec_len placed.old < vec_capacity placed.old }
    ensures { placed.new.items ≡ placed.old.items ++ pod ∷ [] }
{
    let pushed = placed.push(pod);
    let added = pushed.is_ok();
    prove!(added);
    drop(pushed);
}

// Adds the pod that the node admitted, for which there is room.
fn admit(naming: &mut Naming<'_>, placed: &mut Vec<PlacedPod>, pod: PlacedPod)
    requires { vec_len placed.old < vec_capacity placed.old }
    ensures names { naming.new ≡ with_count naming.old pod.manifest }
    ensures placed { placed.new.items ≡ placed.old.items ++ pod ∷ [] }
{
    if !pod.manifest.gives_uid {
        naming.count(&pod.manifest.pod);
    }
    add(placed, pod);
}

// Records that the node refused the pod for this reason.
fn refuse(
    naming: &mut Naming<'_>,
    found: &mut Vec<FoundFile>,
    pod: &PlacedPod,
    refusal: NodeRefusal,
)
    ensures names { naming.new ≡ names_refused naming.old pod.now refusal }
    ensures found { found.new.items ≡ found_refused found.old.items pod.now refusal }
{
    match refusal {
        NodeRefusal::Full => {}
        NodeRefusal::KnownUid if !pod.manifest.gives_uid => naming.count(&pod.manifest.pod),
        _ => {
            let place = place_of_file(pod.name.as_str(), found);
            try_no_more(found, place);
        }
    }
}

// The place of a leaving pod that is no longer on the node.
fn gone_place<T: OnNode>(placed: &[PlacedPod], node: &T) -> Option<usize> {
    placed
        .iter()
        .position(|pod| pod.leaving && !node.has(&pod.uid))
}

fn is_leaving(placed: &[PlacedPod], place: usize) -> bool
    ensures { result ≡ is_leaving (slice_get placed.now place) }
{
    match placed.get(place) {
        Some(pod) => pod.leaving,
        None => false,
    }
}

// Whether the pod goes on under another uid if the runtime has lost it.
fn may_move(placed: Option<&PlacedPod>) -> bool
    ensures { result ≡ may_move (option_copied placed.entry) }
{
    match placed {
        Some(pod) => !pod.manifest.gives_uid,
        None => false,
    }
}

fn placed_at(placed: &[PlacedPod], place: Option<usize>) -> Option<&PlacedPod>
    ensures { option_copied result ≡ placed_at placed.now place }
{
    match place {
        Some(place) => placed.get(place),
        None => None,
    }
}

impl<'a> Folder<'a> {
    /// A folder not looked into yet, with the naming of its pods.
    pub fn new(alloc: Global, naming: Naming<'a>) -> Folder<'a>
        ensures { result ≡ fresh naming.entry }
    {
        Folder {
            alloc,
            naming,
            found: Vec::new(alloc),
            placed: Vec::new(alloc),
            full: false,
            asked: Asked::Nothing,
        }
    }

    /// What the last whole look found.
    pub fn found(&self) -> &[FoundFile]
        ensures { result.now ≡ self.now.found }
    {
        self.found.as_slice()
    }

    /// The pods of files that are on the node.
    pub fn placed(&self) -> &[PlacedPod]
        ensures { result.now ≡ self.now.placed }
    {
        self.placed.as_slice()
    }

    /// The name of the file whose pod was asked for last, if this refusal is reported to the operator: not if
    /// the next uid of the pod's name is tried.
    pub fn told_of(&self, refusal: NodeRefusal) -> Option<&str>
        ensures { option_map (λ name. name.now) result ≡ told_of self.now.asked refusal }
    {
        match &self.asked {
            Asked::Admit(pod) => {
                if refusal == NodeRefusal::KnownUid && !pod.manifest.gives_uid {
                    None
                } else {
                    Some(pod.name.as_str())
                }
            }
            Asked::Nothing | Asked::Delete(_) => None,
        }
    }

    /// Whether this pod of the file of this name is on the node, and stays there.
    pub fn has_placed(&self, name: &str, pod: &Pod) -> bool {
        self.placed.iter().any(|placed| {
            placed.name.as_str() == name && !placed.leaving && placed.manifest.pod.same(pod)
        })
    }

    /// Whether the node was full, and no pod has left since.
    pub fn is_full(&self) -> bool
        ensures { result ≡ self.now.full }
    {
        self.full
    }

    /// Replaces what is known of the files by what this whole look found. Allocates nothing.
    pub fn take(&mut self, found: Vec<FoundFile>)
        ensures { self.new ≡ looked self.old found.items }
    {
        self.found = found;
    }

    // The place of the first file whose pod is due for admission.
    fn first_to_come(&self) -> Option<usize>
        ensures { result ≡ first_to_come self.now }
    {
        if self.full {
            None
        } else {
            coming(&self.found, &self.placed)
        }
    }

    /// What is due: returns the same event until it is recorded. If memory runs out, nothing changes.
    #[tactic(auto, using(crate::proofs::Coming::comes_there))]
    pub fn next(&mut self) -> Result<Due, AllocError>
        ensures due { IfOk result (λ due. Asks self.old due self.new) }
        ensures err { OnErr result (self.new ≡ self.old) }
    {
        if let Some(pod) = leaving(&self.found, &self.placed) {
            let uid = pod.uid.try_clone(self.alloc)?;
            let asked = Asked::Delete(pod.uid.try_clone(self.alloc)?);
            self.asked = asked;
            return Ok(Due::Event(AgentEvent::Delete(uid)));
        }
        match self.first_to_come() {
            Some(place) => self.admission(place),
            None => Ok(Due::Idle),
        }
    }

    /// Records that the event asked for last became an entry, and why the node refused it, if it did.
    /// Allocates nothing.
    pub fn recorded(&mut self, refusal: Option<NodeRefusal>)
        ensures { self.new ≡ recorded self.old refusal }
    {
        match mem::replace(&mut self.asked, Asked::Nothing) {
            Asked::Nothing => {}
            Asked::Delete(uid) => {
                let place = place_of_pod(&uid, &self.placed);
                let_go(&mut self.placed, place);
            }
            Asked::Admit(pod) => match refusal {
                None => admit(&mut self.naming, &mut self.placed, pod),
                Some(refusal) => {
                    refuse(&mut self.naming, &mut self.found, &pod, refusal);
                    self.full = self.full || refusal == NodeRefusal::Full;
                }
            },
        }
    }
    // Asks for the pod of the file at this place.
    fn admission(&mut self, place: usize) -> Result<Due, AllocError>
        requires first { first_to_come self.old ≡ Some place }
        requires there { IsSomeAnd (slice_get self.old.found place) (λ file. is_some file.asks ≡ true) }
        requires none { NoneLeaves self.old.found self.old.placed }
        ensures due { IfOk result (λ due. Asks self.old due self.new) }
        ensures err { OnErr result (self.new ≡ self.old) }
    {
        let file = file_at(&self.found, place);
        match admission_of(self.alloc, &self.naming, file)? {
            Some((pod, asked)) => {
                self.placed.reserve(1)?;
                self.naming.reserve(&asked.manifest.pod)?;
                self.asked = Asked::Admit(asked);
                Ok(Due::Event(AgentEvent::Admit(pod)))
            }
            None => {
                try_no_more(&mut self.found, Some(place));
                self.asked = Asked::Nothing;
                Ok(Due::Unnamed(place))
            }
        }
    }

    /// Forgets one pod that has left the node after its deletion was recorded; then there is room for
    /// another. Returns whether there was one.
    pub fn left<T: OnNode>(&mut self, node: &T) -> bool
        ensures { HasLeft self.old self.new result }
    {
        let Some(place) = gone_place(&self.placed, node) else {
            return false;
        };
        if !is_leaving(&self.placed, place) {
            return false;
        }
        drop(self.placed.remove(place));
        self.full = false;
        true
    }

    /// Records that the runtime has lost the pod of this uid: its deletion is due, and then its admission
    /// under the next uid of its name. A pod whose manifest sets its uid can't be admitted again, so then
    /// nothing changes. Returns whether the pod goes on under another uid.
    pub fn lost(&mut self, uid: &Uid) -> bool
        ensures moves { result ≡ moves self.old uid.now }
        ensures lost { self.new ≡ after_loss self.old uid.now }
    {
        let place = place_of_pod(uid, &self.placed);
        let moves = may_move(placed_at(&self.placed, place));
        if moves {
            give_up(&mut self.placed, place);
        }
        moves
    }
}

// The file at this place.
fn file_at(found: &[FoundFile], place: usize) -> &FoundFile
    requires { IsSome (slice_get found.now place) }
    ensures { slice_get found.now place ≡ Some result.now }
{
    &found[place]
}

// The pod that a file asks for, under its uid, and how it is remembered. `None` if no uid can be made for it.
fn admission_of(
    alloc: Global,
    naming: &Naming<'_>,
    file: &FoundFile,
) -> Result<Option<(Pod, PlacedPod)>, AllocError>
    requires { is_some file.now.asks ≡ true }
    ensures { IfOk result (IsAdmission naming.now file.now.name file.now.asks) }
{
    let Some(manifest) = file.content.shared()? else {
        return Ok(None);
    };
    let Some(uid) = uid_of(naming, &manifest)? else {
        return Ok(None);
    };
    let mut pod = manifest.pod.try_clone(alloc)?;
    pod.uid = uid.try_clone(alloc)?;
    let name = String::from_str(alloc, file.name.as_str())?;
    let asked = PlacedPod {
        name,
        uid,
        manifest,
        leaving: false,
        lost: false,
    };
    Ok(Some((pod, asked)))
}

// The uid of a manifest's pod. `None` if none can be made.
fn uid_of(naming: &Naming<'_>, manifest: &Manifest) -> Result<Option<Uid>, AllocError>
    ensures { IfOk result (λ uid. uid ≡ (if is_uid (uid_in naming.now manifest.now)
        then Some (uid_in naming.now manifest.now) else None)) }
{
    if manifest.gives_uid {
        Ok(Some(manifest.pod.uid.try_clone(naming.alloc())?))
    } else {
        naming.uid(&manifest.pod)
    }
}
