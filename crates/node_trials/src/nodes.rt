//! A node that takes events.
use crate::runs::{same_run, same_runs};
use cri_msgs::{Reply, Version};
use lifecycle::{PastRun, Phase, RestartPolicy, Track, may_restart, phase, ready_at};
use manifest::{Pod, Uid};
use profile_pick::{Choice, pick};
use std::alloc::Global;
use trials::{CallResult, Trial, TrialResult, try_call};
use worker_core::{AgentEvent, Answer, Node, Reported};
use worker_pod::{PodView, Settings};

/// Tries an event of this name, which the node takes, or whose answer it predicts.
pub(crate) fn run_trial(rt: &HostRuntime, name: &str, event: &str) -> Option<TrialResult> {
    let alloc = rt.alloc();
    match name {
        "apply" => Some(try_call(rt, Applies::new(alloc, event))),
        "answer" => Some(try_call(rt, Foretells::new(alloc, event))),
        "Node::pod" => Some(try_call(rt, Shows::new(alloc))),
        _ => None,
    }
}

pub(crate) const SETTINGS: Settings = Settings {
    seccomp_default: false,
    poll: 0,
    version: Version::V2,
};

/// The pod of this name, with one container.
pub(crate) fn pod(alloc: Global, name: &str) -> Option<Pod> {
    let text = format!(in alloc;
        "{{\"apiVersion\":\"v1\",\"kind\":\"Pod\",\"metadata\":{{\"name\":\"{name}\"}},\
        \"spec\":{{\"restartPolicy\":\"Never\",\"containers\":[{{\"name\":\"main\",\"image\":\"a\"}}]}}}}"
    )
    .ok()?;
    manifest::read(alloc, text.as_bytes()).ok()
}

/// The reports on the requests of the pod `a` before: it runs.
const BEFORE: &str =
    "{\"id\":1,\"ok\":{},\"v\":2}\n{\"id\":2,\"ok\":{\"container\":1},\"v\":2}\n{\"id\":3,\"ok\":{},\"v\":2}";

/// The next report on it: it ended.
const ENDED: &str =
    r#"{"id":4,"ok":{"statuses":[{"attempt":0,"denied":0,"exit":3,"name":"main","performed":1,"state":"EXITED"}]},"v":2}"#;

fn report(alloc: Global, text: &str) -> Option<AgentEvent> {
    let reply = Reply::read(alloc, Version::V2, text.as_bytes()).ok()?;
    Some(AgentEvent::Report(1, Reported::Replied(reply)))
}

/// The events after which the trials begin: worker 1 has claimed what is next for `a`, nobody `b`.
pub(crate) fn events_before(alloc: Global) -> Option<Vec<AgentEvent>> {
    let mut events = Vec::new(alloc);
    events.push(AgentEvent::Admit(pod(alloc, "a")?)).ok()?;
    for text in BEFORE.lines() {
        events.push(AgentEvent::Claim(1)).ok()?;
        events.push(report(alloc, text)?).ok()?;
    }
    events.push(AgentEvent::Claim(1)).ok()?;
    events.push(AgentEvent::Admit(pod(alloc, "b")?)).ok()?;
    Some(events)
}

/// The event of this name.
pub(crate) fn event(alloc: Global, name: &str) -> Option<AgentEvent> {
    Some(match name {
        "admit" => AgentEvent::Admit(pod(alloc, "c")?),
        "claim" => AgentEvent::Claim(2),
        "report" => report(alloc, ENDED)?,
        "delete" => AgentEvent::Delete(Uid::new(alloc, "default.b").ok()??),
        "tick" => AgentEvent::Tick(7),
        "abandon" => AgentEvent::Abandon(1),
        _ => return None,
    })
}

/// A node after these events.
pub(crate) fn begun(alloc: Global) -> Option<Node> {
    let mut node = Node::new(alloc, SETTINGS);
    for event in events_before(alloc)? {
        drop(node.apply(event));
    }
    Some(node)
}

fn same_track(a: &Track, b: &Track) -> bool {
    let same_stage = a.init == b.init && a.stage == b.stage && a.worked == b.worked;
    same_stage && a.started() == b.started() && same_runs(&a.runs, &b.runs)
}

fn same_view(a: PodView<'_>, b: PodView<'_>) -> bool {
    for (track, other) in a.tracks.iter().zip(b.tracks) {
        if !same_track(track, other) {
            return false;
        }
    }
    a.pod.same(b.pod) && a.phase == b.phase
}

fn same_pod(a: &Node, b: &Node, place: usize) -> bool {
    match (a.pod(place), b.pod(place)) {
        (Some(view), Some(other)) => same_view(view, other),
        (None, None) => true,
        _ => false,
    }
}

fn same_claim(a: &Node, b: &Node, worker: u32) -> bool {
    match (a.claim_of(worker), b.claim_of(worker)) {
        (Some(claim), Some(other)) => claim.same(other),
        (None, None) => true,
        _ => false,
    }
}

/// Whether two nodes of up to four pods and three workers show the same.
pub(crate) fn same_node(a: &Node, b: &Node) -> bool {
    for place in 0..4 {
        if !same_pod(a, b, place) {
            return false;
        }
    }
    for worker in 1..4 {
        if !same_claim(a, b, worker) {
            return false;
        }
    }
    a.held() == b.held() && a.next_due() == b.next_due()
}

/// The wanted effect of an event on the node after the events above: the node before it and after it, and the
/// answer. The event is there twice, once for each call.
#[derive(Drop)]
pub(crate) struct Foreseen {
    pub(crate) before: Node,
    pub(crate) after: Node,
    pub(crate) events: Vec<AgentEvent>,
    pub(crate) wanted: Answer,
}

impl Foreseen {
    /// The same for the event of this name.
    pub(crate) fn new(alloc: Global, name: &str) -> Option<Foreseen> {
        let mut after = begun(alloc)?;
        let wanted = after.apply(event(alloc, name)?);
        let mut events = Vec::new(alloc);
        for _ in 0..2 {
            events.push(event(alloc, name)?).ok()?;
        }
        Some(Foreseen {
            before: begun(alloc)?,
            after,
            events,
            wanted,
        })
    }

    /// The result of the event, if this was the answer and this is the node.
    pub(crate) fn check(&self, answer: &Answer, node: &Node) -> CallResult {
        if answer.is_memory() {
            return CallResult::Memory;
        }
        CallResult::right_if(answer.same(&self.wanted) && same_node(node, &self.after))
    }
}

/// `Node::apply`.
#[derive(Drop)]
struct Applies {
    node: Node,
    foreseen: Foreseen,
}

impl Applies {
    fn new(alloc: Global, name: &str) -> Option<Applies> {
        let foreseen = Foreseen::new(alloc, name)?;
        let node = begun(alloc)?;
        Some(Applies { node, foreseen })
    }
}

impl Trial for Applies {
    type Answer = Option<Answer>;

    fn call(&mut self) -> Option<Answer> {
        Some(self.node.apply(self.foreseen.events.pop()?))
    }

    fn check(&mut self, answer: &Option<Answer>) -> CallResult {
        match answer {
            Some(answer) => self.foreseen.check(answer, &self.node),
            None => CallResult::Wrong,
        }
    }

    fn is_unchanged(&mut self) -> bool {
        same_node(&self.node, &self.foreseen.before)
    }
}

/// `Node::answer`, which returns what `Node::apply` would.
#[derive(Drop)]
struct Foretells {
    node: Node,
    event: AgentEvent,
    wanted: Answer,
}

impl Foretells {
    fn new(alloc: Global, name: &str) -> Option<Foretells> {
        let mut after = begun(alloc)?;
        let wanted = after.apply(event(alloc, name)?);
        Some(Foretells {
            node: begun(alloc)?,
            event: event(alloc, name)?,
            wanted,
        })
    }
}

impl Trial for Foretells {
    type Answer = Answer;

    fn call(&mut self) -> Answer {
        self.node.answer(&self.event)
    }

    fn check(&mut self, answer: &Answer) -> CallResult {
        if answer.is_memory() {
            return CallResult::Memory;
        }
        CallResult::right_if(answer.same(&self.wanted))
    }
}

/// What a node shows of itself and of its pods, and what is decided about them, after a container has ended.
/// It takes no memory.
#[derive(Drop)]
struct Shows {
    alloc: Global,
    node: Node,
}

impl Shows {
    fn new(alloc: Global) -> Option<Shows> {
        let mut node = begun(alloc)?;
        drop(node.apply(report(alloc, ENDED)?));
        Some(Shows { alloc, node })
    }
}

/// Whether a container ended at moment 0, and is not started again.
fn has_ended(track: &Track, policy: RestartPolicy) -> bool {
    let wanted = PastRun::new(0, 3, 0);
    let Some(run) = track.runs.last() else {
        return false;
    };
    same_run(run, &wanted)
        && track.runs.count() == 1
        && track.runs.ready_at() == 10
        && ready_at(&[wanted]) == 10
        && !may_restart(policy, track.init, 3)
}

/// Whether this is a pod that failed, and whose container is not confined.
fn has_failed(view: PodView<'_>) -> bool {
    let pod = view.pod;
    if pod.containers.as_slice().is_empty() {
        return false;
    }
    let has_ended = view
        .tracks
        .first()
        .is_some_and(|track| has_ended(track, pod.policy));
    has_ended
        && matches!(pick(pod, 0, false), Choice::Unconfined)
        && view.phase == Phase::Failed
        && phase(view.tracks, pod.policy, false) == Phase::Failed
}

impl Trial for Shows {
    type Answer = bool;

    fn call(&mut self) -> bool {
        let is_empty = Node::new(self.alloc, SETTINGS).held() == 0;
        let has_failed = match self.node.pod(0) {
            Some(view) => has_failed(view),
            None => false,
        };
        is_empty
            && has_failed
            && self.node.pod(2).is_none()
            && self.node.held() == 0
            && self.node.next_due() == Some(0)
    }

    fn check(&mut self, answer: &bool) -> CallResult {
        CallResult::right_if(*answer)
    }
}
