ghost use Rattle.std.specs.Prelude.{◌≡◌, ◌<◌, ◌∷◌, [], IfOk, OnOk, OnErr, None, Some, Ok, option_copied};
ghost use Rattle.std.specs.Prelude.{vec_len, vec_capacity};
ghost use Rattle.node_watch.specs.Reasons.{at_place, goes_on, is_same_cause, is_same_trouble, noted};
ghost use Rattle.node_watch.specs.Reasons.{place_of, reason_for};
ghost use Rattle.node_watch.specs.Reasons.{since_of, times_of, without_at, without_pod};

use crate::calls::{are_about_one, call_name, concerns, uid_of};
use cri_msgs::{Call, Refusal};
use manifest::{Label, Uid};
use refusal_causes::CauseText;
use std::alloc::{AllocError, Global};
use std::marker::Model;

/// Why a call failed.
#[derive(Clone, Copy, Debug)]
pub enum Trouble {
    /// The runtime refused it.
    Refused(Refusal),
    /// No valid reply came, or the call was given up.
    Lost,
}

/// A failed call.
#[derive(Debug, Drop)]
pub struct Reason {
    pub call: Call,
    pub trouble: Trouble,
    /// What the runtime wrote about the cause, if it is known.
    pub cause: Option<CauseText>,
    /// The moment, in seconds, since which each such call has failed in the same way.
    pub since: u64,
    /// How many such calls have failed since then.
    pub times: u64,
    /// The moment at which the latest of them failed.
    pub latest: u64,
}

impl Reason {
    /// A copy of the failed call.
    pub fn try_clone(&self, alloc: Global) -> Result<Reason, AllocError>
        ensures { IfOk result (λ copy. copy ≡ self.now) }
    {
        Ok(Reason {
            call: self.call.try_clone(alloc)?,
            trouble: self.trouble,
            cause: cause_copy(alloc, self.cause.as_ref())?,
            since: self.since,
            times: self.times,
            latest: self.latest,
        })
    }
}

fn cause_copy(alloc: Global, cause: Option<&CauseText>) -> Result<Option<CauseText>, AllocError>
    ensures { IfOk result (λ copy. copy ≡ option_copied cause.entry) }
{
    match cause {
        None => Ok(None),
        Some(cause) => Ok(Some(cause.try_clone(alloc)?)),
    }
}

/// Why the containers of a node wait: the latest failed calls, at most one for each container, and one for
/// each pod as a whole. Contracts see them newest first.
#[derive(Drop)]
pub struct Reasons {
    alloc: Global,
    list: Vec<Reason>,
}

impl Model for Reasons {
    ghost use Rattle.std.specs.Prelude.{List};
    ghost use Rattle.node_watch.specs.declared.reasons.Reason.{Reason};

    ghost Value = { List Reason };

    ghost view = { λ r. r.list.items };
}

pub(crate) fn is_same_trouble(trouble: Trouble, other: Trouble) -> bool
    ensures { result ≡ is_same_trouble trouble other }
{
    match (trouble, other) {
        (Trouble::Refused(refusal), Trouble::Refused(other)) => refusal.number() == other.number(),
        (Trouble::Lost, Trouble::Lost) => true,
        (Trouble::Refused(_), Trouble::Lost) | (Trouble::Lost, Trouble::Refused(_)) => false,
    }
}

pub(crate) fn is_same_cause(cause: Option<&CauseText>, other: Option<&CauseText>) -> bool
    ensures { result ≡ is_same_cause (option_copied cause.entry) (option_copied other.entry) }
{
    match (cause, other) {
        (None, None) => true,
        (Some(cause), Some(other)) => cause.as_str() == other.as_str(),
        (None, Some(_)) | (Some(_), None) => false,
    }
}

fn goes_on(call: &Call, trouble: Trouble, cause: Option<&CauseText>, reason: &Reason) -> bool
    ensures { result ≡ goes_on call.now trouble (option_copied cause.entry) reason.now }
{
    call_name(&reason.call) == call_name(call)
        && is_same_trouble(reason.trouble, trouble)
        && is_same_cause(reason.cause.as_ref(), cause)
}

fn since_of(
    moment: u64,
    call: &Call,
    trouble: Trouble,
    cause: Option<&CauseText>,
    was: Option<&Reason>,
) -> u64
    ensures { result ≡ since_of moment call.now trouble (option_copied cause.entry)
        (option_copied was.entry) }
{
    match was {
        Some(reason) if goes_on(call, trouble, cause, reason) => reason.since,
        _ => moment,
    }
}

fn times_of(call: &Call, trouble: Trouble, cause: Option<&CauseText>, was: Option<&Reason>) -> u64
    ensures { result ≡ times_of call.now trouble (option_copied cause.entry) (option_copied was.entry) }
{
    match was {
        Some(reason) if goes_on(call, trouble, cause, reason) => reason.times.saturating_add(1),
        _ => 1,
    }
}

fn place_of(call: &Call, reasons: &[Reason]) -> Option<usize>
    ensures { result ≡ place_of call.now reasons.now }
{
    reasons.iter().position(|r| are_about_one(&r.call, call))
}

fn at_place(reasons: &[Reason], place: Option<usize>) -> Option<&Reason>
    ensures { option_copied result ≡ at_place reasons.now place }
{
    match place {
        None => None,
        Some(place) => reasons.get(place),
    }
}

fn forget_at(reasons: &mut Vec<Reason>, place: Option<usize>)
    ensures items { reasons.new.items ≡ without_at place reasons.old.items }
    ensures room { vec_len reasons.old < vec_capacity reasons.old
        → vec_len reasons.new < vec_capacity reasons.new }
{
    if let Some(place) = place {
        if place < reasons.len() {
            drop(reasons.remove(place));
        }
    }
}

fn forget_pod(reasons: &mut Vec<Reason>, uid: &Uid)
    ensures { reasons.new.items ≡ without_pod uid.now reasons.old.items }
{
    reasons.retain(|r| uid_of(&r.call).as_str() != uid.as_str());
}

fn put_first(reasons: &mut Vec<Reason>, reason: Reason)
    requires { vec_len reasons.old < vec_capacity reasons.old }
    ensures { reasons.new.items ≡ reason ∷ reasons.old.items }
{
    let put = reasons.insert(0, reason);
    let is_there = put.is_ok();
    prove!(is_there);
    drop(put);
}

impl Reasons {
    /// No call has failed yet.
    pub fn new(alloc: Global) -> Reasons
        ensures { result ≡ [] }
    {
        Reasons {
            alloc,
            list: Vec::new(alloc),
        }
    }

    /// Records that a call ended at this moment, in seconds, with or without trouble, whose cause may be
    /// known. A failed allocation changes nothing, and is possible only with trouble.
    pub fn note(
        &mut self,
        moment: u64,
        call: &Call,
        trouble: Option<Trouble>,
        cause: Option<CauseText>,
    ) -> Result<(), AllocError>
        ensures ok { OnOk result (self.new ≡ noted moment call.now trouble cause self.old) }
        ensures err { OnErr result (self.new ≡ self.old) }
        ensures only { trouble ≡ None → result ≡ Ok (tt {0}) }
    {
        match trouble {
            None => {
                let place = place_of(call, self.list.as_slice());
                forget_at(&mut self.list, place);
                Ok(())
            }
            Some(trouble) => self.add(moment, call, trouble, cause),
        }
    }

    // Allocates everything before the first change.
    fn add(
        &mut self,
        moment: u64,
        call: &Call,
        trouble: Trouble,
        cause: Option<CauseText>,
    ) -> Result<(), AllocError>
        ensures ok { OnOk result (self.new ≡ noted moment call.now (Some trouble) cause self.old) }
        ensures err { OnErr result (self.new ≡ self.old) }
    {
        self.list.reserve(1)?;
        let copy = call.try_clone(self.alloc)?;
        let place = place_of(call, self.list.as_slice());
        let was = at_place(self.list.as_slice(), place);
        let since = since_of(moment, call, trouble, cause.as_ref(), was);
        let times = times_of(call, trouble, cause.as_ref(), was);
        forget_at(&mut self.list, place);
        put_first(
            &mut self.list,
            Reason {
                call: copy,
                trouble,
                cause,
                since,
                times,
                latest: moment,
            },
        );
        Ok(())
    }

    /// Forgets the failed calls about a pod that has left the node.
    pub fn forget(&mut self, uid: &Uid)
        ensures { self.new ≡ without_pod uid.now self.old }
    {
        forget_pod(&mut self.list, uid);
    }

    /// The last failed call about this container of the pod, or about the whole pod.
    pub fn reason_for(&self, uid: &Uid, name: &Label) -> Option<&Reason>
        ensures { option_copied result ≡ reason_for uid.now name.now self.now }
    {
        self.list.iter().find(|r| concerns(uid, name, &r.call))
    }
}
