//! What is kept beside a node's book about the changes by its entries: the lines not printed yet, and why
//! containers wait. It is updated under the book's lock, so that no change is missed.

ghost use Rattle.std.specs.Prelude.{◌≡◌, ◌<◌, ◌++◌, [], ◌∷◌, IfOk, IfSome, IsTrue, Ok, length};
ghost use Rattle.std.specs.Prelude.{option_copied, option_map};
ghost use Rattle.std.specs.Bool.{OnFalse};
ghost use Rattle.std.specs.Global.{Global};
ghost use Rattle.std.specs.declared.string.String.{String};
ghost use Rattle.std.specs.String.{string_bytes};
ghost use Rattle.cri_msgs.specs.Calls.{uid_of};
ghost use Rattle.lifecycle.specs.BackOff.{later};
ghost use Rattle.node_watch.specs.Changes.{pod_changes};
ghost use Rattle.node_watch.specs.Reasons.{noted};
ghost use Rattle.node_watch.specs.Seen.{containers_seen};
ghost use Rattle.node_watch.specs.Waits.{waits_of};
ghost use Rattle.node_watch.specs.WaitTexts.{wait_changes};
ghost use Rattle.node_watch.specs.declared.seen.PodSeen.{PodSeen};
ghost use Rattle.node_watch.specs.declared.waits.PodWaits.{PodWaits};
ghost use Rattle.worker_core.specs.Slots.{claim_of, slot_of};
ghost use Rattle.worker_crew.specs.declared.observer.TheConstants.{MAX_CHANGES};
ghost use Rattle.worker_crew.specs.Observed.{Adds, Admits, AdmitsSeen, AdmitsReported, AdmitsWaits};
ghost use Rattle.worker_crew.specs.Observed.{AreWaitsBefore, CountsTo, Ends, EndsCounted, EndsReported, IsBefore};
ghost use Rattle.worker_crew.specs.Observed.{IsChange, IsSeenBefore, counts_behind, counts_told};
ghost use Rattle.worker_crew.specs.Observed.{IsWaitChange, Notes, reasons_behind, refusal_by, refusal_in};
ghost use Rattle.worker_crew.specs.Observed.{trouble_by, trouble_of};

use cri_msgs::{Answer, Call, Refusal};
use manifest::Uid;
use node_lock::Entry;
use node_watch::{
    Counts, Form, PodSeen, PodWaits, Reasons, Trouble, gone_line, pod_changes, uid_of, wait_changes,
};
use refusal_causes::CauseText;
use std::alloc::{AllocError, Global};
use std::marker::Model;
use std::mem;
use worker_core::{AgentEvent, Node, Reported};
use worker_pod::PodView;

/// The most lines of changes that wait to be printed. Further lines are left out, and counted.
pub const MAX_CHANGES: usize = 16_384;

/// What is kept beside a book.
#[derive(Clone, Copy, Debug, PartialEq, Eq)]
pub enum Observed {
    /// Nothing.
    Nothing,
    /// Why containers wait.
    Reasons,
    /// What changed in pods and their containers, in lines of this form.
    Changes(Form),
    /// The same lines, and after them why containers wait.
    ChangesAndReasons(Form),
}

/// What changed: the lines, each with its line end, and how many were left out after them.
#[derive(Drop)]
pub struct Changes {
    pub lines: Vec<String>,
    pub left_out: u64,
}

/// What was kept so far.
#[derive(Drop)]
pub(crate) struct Observer {
    alloc: Global,
    observed: Observed,
    // Whether counts of calls are kept.
    counting: bool,
    reasons: Reasons,
    counts: Counts,
    changes: Changes,
}

impl Model for Observer {
    ghost use Rattle.worker_crew.specs.Observed.{Beside};

    ghost Value = { Beside };

    ghost view = { λ o. record {
      observed = o.observed;
      counting = o.counting;
      reasons = o.reasons;
      counts = o.counts;
      lines = o.changes.lines.items;
      left_out = o.changes.left_out;
    } };
}

/// A worker's claim before it ends: its call, its pod as it is seen then, and why the pod's containers wait.
#[derive(Drop)]
pub(crate) struct Before {
    call: Call,
    seen: Option<PodSeen>,
    waits: Option<PodWaits>,
}

impl Before {
    /// The call of the claim.
    pub(crate) fn call(&self) -> &Call
        ensures { result.now ≡ self.now.call }
    {
        &self.call
    }
}

// The refusal in an event.
fn refusal_by(event: &AgentEvent) -> Option<Refusal>
    ensures { result ≡ refusal_by event.now }
{
    let AgentEvent::Report(_, Reported::Replied(reply)) = event else {
        return None;
    };
    match reply.answer {
        Answer::Refused(refusal) => Some(refusal),
        _ => None,
    }
}

// Why a claim failed, if it did. `lost` is whether the node keeps the pod's last call as lost.
fn trouble_by(refusal: Option<Refusal>, lost: Option<bool>) -> Option<Trouble>
    ensures { result ≡ trouble_by refusal lost }
{
    match (refusal, lost) {
        (Some(refusal), _) => Some(Trouble::Refused(refusal)),
        (None, Some(true)) => Some(Trouble::Lost),
        (None, Some(false) | None) => None,
    }
}

// Why the claim of a call failed, if it did, by the event that ended it.
fn trouble_of(event: &AgentEvent, node: &Node, call: &Call) -> Option<Trouble>
    ensures { result ≡ trouble_of event.now (slot_of (uid_of call.now) node.now.slots) }
{
    let lost = match node.pod_of(uid_of(call)) {
        Some(view) => Some(view.lost),
        None => None,
    };
    trouble_by(refusal_by(event), lost)
}

impl Observer {
    /// Nothing was kept yet.
    pub(crate) fn new(alloc: Global, observed: Observed, counting: bool) -> Observer
        ensures { result ≡ record {
          observed = observed;
          counting = counting;
          reasons = [];
          counts = [];
          lines = [];
          left_out = 0;
        } }
    {
        Observer {
            alloc,
            observed,
            counting,
            reasons: Reasons::new(alloc),
            counts: Counts::new(alloc),
            changes: Changes {
                lines: Vec::new(alloc),
                left_out: 0,
            },
        }
    }

    /// Whether there are changes not printed yet.
    pub(crate) fn has_changes(&self) -> bool
        ensures { OnFalse result ((self.now.lines ≡ []) × (self.now.left_out ≡ 0)) }
    {
        !self.changes.lines.is_empty() || self.changes.left_out > 0
    }

    /// Takes out the changes not printed yet.
    pub(crate) fn take(&mut self) -> Changes
        ensures lines { result.lines.items ≡ self.old.lines }
        ensures left_out { result.left_out ≡ self.old.left_out }
        ensures rest { self.new ≡ record self.old { lines = []; left_out = 0 } }
    {
        let none = Changes {
            lines: Vec::new(self.alloc),
            left_out: 0,
        };
        mem::replace(&mut self.changes, none)
    }

    /// Why containers wait.
    pub(crate) fn reasons(&self) -> &Reasons
        ensures { result.now ≡ self.now.reasons }
    {
        &self.reasons
    }

    /// The counts of the containers' calls.
    pub(crate) fn counts(&self) -> &Counts
        ensures { result.now ≡ self.now.counts }
    {
        &self.counts
    }

    /// Why containers wait, and the counts of their calls. Drops all else that is kept.
    pub(crate) fn into_parts(self) -> (Reasons, Counts)
        ensures { result ≡ (self.reasons, self.counts) }
    {
        let Observer {
            reasons,
            counts,
            changes,
            ..
        } = self;
        drop(changes);
        (reasons, counts)
    }

    // Adds a line, if it has a text. A line that could not be made is counted.
    fn add(&mut self, line: Result<String, AllocError>)
        ensures { Adds (λ text. (made : String Global) × (line ≡ Ok made) × (text ≡ string_bytes made))
            self.old self.new }
    {
        match line {
            Ok(line) => self.add_line(line),
            Err(_) => self.leave_out(),
        }
    }

    fn add_line(&mut self, line: String)
        ensures { Adds (λ text. text ≡ string_bytes line) self.old self.new }
    {
        if line.is_empty() {
            return;
        }
        if !self.put(line) {
            self.leave_out();
        }
    }

    // Keeps a line. False if there is no place or no memory for it.
    fn put(&mut self, line: String) -> bool
        ensures kept { IsTrue result → (length self.old.lines < MAX_CHANGES)
            × (self.new ≡ record self.old { lines = self.old.lines ++ line ∷ [] }) }
        ensures not_kept { OnFalse result (self.new ≡ self.old) }
    {
        self.changes.lines.len() < MAX_CHANGES && self.changes.lines.push(line).is_ok()
    }

    fn leave_out(&mut self)
        ensures { self.new ≡ record self.old { left_out = later self.old.left_out 1 } }
    {
        self.changes.left_out = self.changes.left_out.saturating_add(1);
    }

    // The pod of a call as it is seen, if changes are kept.
    fn seen(&self, node: &Node, call: &Call) -> Result<Option<PodSeen>, AllocError>
        ensures { IfOk result (IsSeenBefore self.now.observed self.now.counts
            (slot_of (uid_of call.now) node.now.slots)) }
    {
        match (self.observed, node.pod_of(uid_of(call))) {
            (Observed::Changes(_) | Observed::ChangesAndReasons(_), Some(view)) => {
                Ok(Some(PodSeen::of(self.alloc, view, &self.counts)?))
            }
            _ => Ok(None),
        }
    }

    // Why the containers of the pod of a call wait, if that is kept beside changes.
    fn waits(&self, moment: u64, node: &Node, call: &Call) -> Result<Option<PodWaits>, AllocError>
        ensures { IfOk result (AreWaitsBefore self.now.observed self.now.reasons moment
            (slot_of (uid_of call.now) node.now.slots)) }
    {
        match (self.observed, node.pod_of(uid_of(call))) {
            (Observed::ChangesAndReasons(_), Some(view)) => {
                Ok(Some(PodWaits::of(self.alloc, view, &self.reasons, moment)?))
            }
            _ => Ok(None),
        }
    }

    fn copy_of(&self, moment: u64, node: &Node, call: &Call) -> Result<Before, AllocError>
        ensures call { IfOk result (λ before. before.call ≡ call.now) }
        ensures seen { IfOk result (λ before. IsSeenBefore self.now.observed self.now.counts
            (slot_of (uid_of call.now) node.now.slots) before.seen) }
        ensures waits { IfOk result (λ before. AreWaitsBefore self.now.observed self.now.reasons moment
            (slot_of (uid_of call.now) node.now.slots) before.waits) }
    {
        let copy = call.try_clone(self.alloc)?;
        let seen = self.seen(node, call)?;
        let waits = self.waits(moment, node, call)?;
        Ok(Before {
            call: copy,
            seen,
            waits,
        })
    }

    /// A worker's claim before it ends at this moment: its call, its pod as it is seen, and why the pod's
    /// containers wait. `None` if nothing is kept, or memory runs out.
    pub(crate) fn before(&mut self, moment: u64, node: &Node, worker: u32) -> Option<Before>
        ensures before { IfSome result (λ b. IsBefore self.old moment node.now worker b.call b.seen b.waits) }
        ensures observed { self.new.observed ≡ self.old.observed }
        ensures counting { self.new.counting ≡ self.old.counting }
        ensures reasons { self.new.reasons ≡ self.old.reasons }
        ensures counts { self.new.counts ≡ self.old.counts }
        ensures lines { self.new.lines ≡ self.old.lines }
    {
        if self.observed == Observed::Nothing && !self.counting {
            return None;
        }
        let request = node.claim_of(worker)?;
        match self.copy_of(moment, node, &request.call) {
            Ok(before) => Some(before),
            Err(error) => {
                self.add(Err(error));
                None
            }
        }
    }

    /// Records that the claim has ended at this moment, by this entry, for this cause if it is known.
    pub(crate) fn ended(
        &mut self,
        moment: u64,
        node: &Node,
        entry: &Entry,
        cause: Option<CauseText>,
        before: &Before,
    )
        ensures { Ends self.old.observed moment node.now entry.now.event cause before.now.call
            before.now.seen before.now.waits self.old self.new }
    {
        self.count(node, entry, before);
        self.ended_counted(moment, node, entry, cause, before);
    }

    // Updates the counts. If memory runs out, they stay as they were.
    fn count(&mut self, node: &Node, entry: &Entry, before: &Before)
        ensures { CountsTo (counts_behind self.old.counting before.now.call entry.now.event
            (slot_of (uid_of before.now.call) node.now.slots) self.old.counts) self.old self.new }
    {
        if !self.counting {
            return;
        }
        match node.pod_of(uid_of(&before.call)) {
            Some(_) => self.count_by(&entry.event, &before.call),
            None => self.counts.forget(uid_of(&before.call)),
        }
    }

    fn count_by(&mut self, event: &AgentEvent, call: &Call)
        ensures { CountsTo (counts_told call.now event.now self.old.counts) self.old self.new }
    {
        if let AgentEvent::Report(_, Reported::Replied(reply)) = event {
            let _ = self.counts.note(call, &reply.answer);
        }
    }

    // Records the end of a claim, after its counts.
    fn ended_counted(
        &mut self,
        moment: u64,
        node: &Node,
        entry: &Entry,
        cause: Option<CauseText>,
        before: &Before,
    )
        ensures { EndsCounted self.old.observed moment node.now entry.now.event cause before.now.call
            before.now.seen before.now.waits self.old self.new }
    {
        match self.observed {
            Observed::Nothing => {}
            Observed::Reasons => self.note(moment, node, entry, cause, before),
            Observed::Changes(form) => self.add_change(form, moment, node, before),
            Observed::ChangesAndReasons(form) => {
                self.add_end(form, moment, node, entry, cause, before)
            }
        }
    }

    // Updates the reasons. If memory runs out, they stay as they were.
    fn note(
        &mut self,
        moment: u64,
        node: &Node,
        entry: &Entry,
        cause: Option<CauseText>,
        before: &Before,
    )
        ensures { Notes (noted moment before.now.call
            (trouble_of entry.now.event (slot_of (uid_of before.now.call) node.now.slots)) cause
            self.old.reasons) self.old self.new }
    {
        let trouble = trouble_of(&entry.event, node, &before.call);
        let _ = self.reasons.note(moment, &before.call, trouble, cause);
    }

    // The same, but forgets a pod that has left.
    fn note_or_forget(
        &mut self,
        moment: u64,
        node: &Node,
        entry: &Entry,
        cause: Option<CauseText>,
        before: &Before,
    )
        ensures { Notes (reasons_behind moment before.now.call
            (trouble_of entry.now.event (slot_of (uid_of before.now.call) node.now.slots)) cause
            (slot_of (uid_of before.now.call) node.now.slots) self.old.reasons) self.old self.new }
    {
        match node.pod_of(uid_of(&before.call)) {
            Some(_) => self.note(moment, node, entry, cause, before),
            None => self.reasons.forget(uid_of(&before.call)),
        }
    }

    fn add_change(&mut self, form: Form, moment: u64, node: &Node, before: &Before)
        ensures { Adds (IsChange form moment self.old.counts (uid_of before.now.call)
            (slot_of (uid_of before.now.call) node.now.slots) before.now.seen) self.old self.new }
    {
        let line = self.change_of(form, moment, node, before);
        self.add(line);
    }

    fn add_wait_change(&mut self, form: Form, moment: u64, node: &Node, before: &Before)
        ensures { Adds (IsWaitChange form moment self.old.reasons
            (slot_of (uid_of before.now.call) node.now.slots) before.now.waits) self.old self.new }
    {
        let line = self.wait_change_of(form, moment, node, before);
        self.add(line);
    }

    // Adds what changed, and then why containers wait.
    fn add_end(
        &mut self,
        form: Form,
        moment: u64,
        node: &Node,
        entry: &Entry,
        cause: Option<CauseText>,
        before: &Before,
    )
        ensures { EndsReported form moment before.now.call
            (trouble_of entry.now.event (slot_of (uid_of before.now.call) node.now.slots)) cause
            (slot_of (uid_of before.now.call) node.now.slots) before.now.seen before.now.waits self.old
            self.new }
    {
        self.add_change(form, moment, node, before);
        self.note_or_forget(moment, node, entry, cause, before);
        self.add_wait_change(form, moment, node, before);
    }

    fn wait_change_of(
        &self,
        form: Form,
        moment: u64,
        node: &Node,
        before: &Before,
    ) -> Result<String, AllocError>
        ensures { IfOk result (λ line. IsWaitChange form moment self.now.reasons
            (slot_of (uid_of before.now.call) node.now.slots) before.now.waits (string_bytes line)) }
    {
        let uid = uid_of(&before.call);
        match node.pod_of(uid) {
            Some(view) => self.waits_since(form, moment, before.waits.as_ref(), view),
            None => Ok(String::new(self.alloc)),
        }
    }

    // The text on why a pod's containers wait, given how they waited before, if they were seen.
    fn waits_since(
        &self,
        form: Form,
        moment: u64,
        old: Option<&PodWaits>,
        view: PodView<'_>,
    ) -> Result<String, AllocError>
        ensures { IfOk result (λ line. (now : PodWaits) × (now.uid ≡ view.entry.pod.now.uid)
            × (now.containers.items ≡ waits_of view.entry.pod.now.policy view.entry.pod.now.uid
            self.now.reasons moment view.entry.pod.now.containers.all view.entry.tracks.now)
            × (string_bytes line ≡ wait_changes form moment (option_copied old.entry) now)) }
    {
        let waits = PodWaits::of(self.alloc, view, &self.reasons, moment)?;
        wait_changes(self.alloc, form, moment, old, &waits)
    }

    fn change_of(
        &self,
        form: Form,
        moment: u64,
        node: &Node,
        before: &Before,
    ) -> Result<String, AllocError>
        ensures { IfOk result (λ line. IsChange form moment self.now.counts (uid_of before.now.call)
            (slot_of (uid_of before.now.call) node.now.slots) before.now.seen (string_bytes line)) }
    {
        let uid = uid_of(&before.call);
        match node.pod_of(uid) {
            Some(view) => self.changes_since(form, moment, before.seen.as_ref(), view),
            None => gone_line(self.alloc, form, moment, uid),
        }
    }

    // The text of what changed of a pod, given how it was seen before, if it was.
    fn changes_since(
        &self,
        form: Form,
        moment: u64,
        old: Option<&PodSeen>,
        view: PodView<'_>,
    ) -> Result<String, AllocError>
        ensures { IfOk result (λ line. (now : PodSeen) × (now.uid ≡ view.entry.pod.now.uid)
            × (now.phase ≡ view.entry.phase) × (now.containers.items
            ≡ containers_seen view.entry.pod.now.policy view.entry.pod.now.uid self.now.counts
            view.entry.pod.now.containers.all view.entry.tracks.now)
            × (string_bytes line ≡ pod_changes form moment (option_copied old.entry) now)) }
    {
        let seen = PodSeen::of(self.alloc, view, &self.counts)?;
        pod_changes(self.alloc, form, moment, old, &seen)
    }

    /// Records that a pod was admitted at this moment.
    pub(crate) fn admitted(&mut self, moment: u64, node: &Node, uid: &Uid)
        ensures { Admits self.old.observed moment (slot_of uid.now node.now.slots) self.old self.new }
    {
        match self.observed {
            Observed::Nothing | Observed::Reasons => {}
            Observed::Changes(form) => self.add_first(form, moment, node, uid),
            Observed::ChangesAndReasons(form) => self.tell_first(form, moment, node, uid),
        }
    }

    fn add_first(&mut self, form: Form, moment: u64, node: &Node, uid: &Uid)
        ensures { AdmitsSeen form moment (slot_of uid.now node.now.slots) self.old self.new }
    {
        if let Some(view) = node.pod_of(uid) {
            let line = self.changes_since(form, moment, None, view);
            self.add(line);
        }
    }

    fn add_first_waits(&mut self, form: Form, moment: u64, node: &Node, uid: &Uid)
        ensures { AdmitsWaits form moment (slot_of uid.now node.now.slots) self.old self.new }
    {
        if let Some(view) = node.pod_of(uid) {
            let line = self.waits_since(form, moment, None, view);
            self.add(line);
        }
    }

    fn tell_first(&mut self, form: Form, moment: u64, node: &Node, uid: &Uid)
        ensures { AdmitsReported form moment (slot_of uid.now node.now.slots) self.old self.new }
    {
        self.add_first(form, moment, node, uid);
        self.add_first_waits(form, moment, node, uid);
    }
}
