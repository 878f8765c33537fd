//! A runtime that serves requests.
use crate::filters::filter;
use crate::requests::request_of;
use creation::KeptTexts;
use cri_msgs::{Answer, Refusal, Reply, Request};
use runtime_cell::{Did, State};
use runtime_core::{Contents, FileAnswers, Runtime};
use std::alloc::Global;
use trials::{CallResult, Trial, TrialResult, files, try_call};

/// Tries to serve the request of this text.
pub(crate) fn run_trial(rt: &HostRuntime, name: &str, text: &str) -> Option<TrialResult> {
    match name {
        "serve" => Some(try_call(rt, Serves::new(rt.alloc(), text, false))),
        "prepare and serve" => Some(try_call(rt, Serves::new(rt.alloc(), text, true))),
        "Runtime::step" => Some(try_call(rt, Steps::new(rt.alloc()))),
        _ => None,
    }
}

/// The requests before the try_call one: `u1` has two containers, one of them started, and had a third one;
/// `u2` was stopped, and `u3` removed.
const BEFORE: &str = r#"{"call":"RunPodSandbox","id":1,"uid":"u1","v":2}
{"attempt":0,"call":"CreateContainer","id":2,"image":"a","name":"a","profile":{"type":"Unconfined"},"uid":"u1","v":2}
{"attempt":0,"call":"StartContainer","id":3,"name":"a","uid":"u1","v":2}
{"attempt":0,"call":"CreateContainer","id":4,"image":"a","name":"b","profile":{"type":"Unconfined"},"uid":"u1","v":2}
{"attempt":0,"call":"CreateContainer","id":5,"image":"a","name":"c","profile":{"type":"Unconfined"},"uid":"u1","v":2}
{"attempt":0,"call":"RemoveContainer","id":6,"name":"c","uid":"u1","v":2}
{"call":"RunPodSandbox","id":7,"uid":"u2","v":2}
{"call":"StopPodSandbox","grace":0,"id":8,"uid":"u2","v":2}
{"call":"RunPodSandbox","id":9,"uid":"u3","v":2}
{"call":"RemovePodSandbox","id":10,"uid":"u3","v":2}"#;

/// Requests that show the state of a runtime and change nothing: a creation without a script shows whether
/// the sandbox is ready, stopped, removed or unknown, and a start of what doesn't exist shows whether it ever
/// did.
const PROBES: &str = r#"{"call":"ContainerStatuses","id":1,"uid":"u1","v":2}
{"attempt":9,"call":"CreateContainer","id":2,"image":"a","name":"a","profile":{"type":"Unconfined"},"uid":"u1","v":2}
{"attempt":0,"call":"StartContainer","id":3,"name":"c","uid":"u1","v":2}
{"attempt":0,"call":"StartContainer","id":4,"name":"d","uid":"u1","v":2}
{"attempt":9,"call":"CreateContainer","id":5,"image":"a","name":"a","profile":{"type":"Unconfined"},"uid":"u2","v":2}
{"attempt":9,"call":"CreateContainer","id":6,"image":"a","name":"a","profile":{"type":"Unconfined"},"uid":"u3","v":2}
{"attempt":9,"call":"CreateContainer","id":7,"image":"a","name":"a","profile":{"type":"Unconfined"},"uid":"u4","v":2}"#;

fn no_files() -> FileAnswers {
    FileAnswers {
        script: None,
        profile: None,
    }
}

fn served(alloc: Global, runtime: &mut Runtime, text: &str, files: FileAnswers) -> Option<Reply> {
    let request = request_of(alloc, text)?;
    Some(runtime.serve(request, files))
}

/// A runtime after these requests.
fn begun(alloc: Global) -> Option<Runtime> {
    let mut runtime = Runtime::new(alloc, Some(filter(alloc)?));
    for text in BEFORE.lines() {
        drop(served(alloc, &mut runtime, text, files(alloc)?)?);
    }
    Some(runtime)
}

/// What a shared runtime does with the results of reading files before it takes a lock.
fn prepared(alloc: Global, texts: &mut KeptTexts, files: FileAnswers) -> FileAnswers {
    let files = texts.lend(files).prepared(alloc);
    texts.keep(files.new_texts(alloc));
    files
}

/// `Runtime::serve`: a runtime, one like it, and the inputs of two calls, which may be prepared first.
#[derive(Drop)]
struct Serves {
    alloc: Global,
    texts: Option<KeptTexts>,
    runtime: Runtime,
    twin: Runtime,
    given: Vec<(Request, FileAnswers)>,
    wanted: Reply,
}

impl Serves {
    fn new(alloc: Global, text: &str, is_prepared: bool) -> Option<Serves> {
        let mut given = Vec::new(alloc);
        for _ in 0..2 {
            given.push((request_of(alloc, text)?, files(alloc)?)).ok()?;
        }
        let mut first = begun(alloc)?;
        let wanted = served(alloc, &mut first, text, files(alloc)?)?;
        Some(Serves {
            alloc,
            texts: is_prepared.then(|| KeptTexts::new(alloc)),
            runtime: begun(alloc)?,
            twin: begun(alloc)?,
            given,
            wanted,
        })
    }

    /// Whether the runtime answers this like the other one.
    fn answers_alike(&mut self, text: &str) -> Option<bool> {
        let reply = served(self.alloc, &mut self.runtime, text, no_files())?;
        let other = served(self.alloc, &mut self.twin, text, no_files())?;
        Some(reply.same(&other))
    }
}

impl Trial for Serves {
    type Answer = Option<Reply>;

    fn call(&mut self) -> Option<Reply> {
        let (request, files) = self.given.pop()?;
        let files = match &mut self.texts {
            Some(texts) => prepared(self.alloc, texts, files),
            None => files,
        };
        Some(self.runtime.serve(request, files))
    }

    fn check(&mut self, answer: &Option<Reply>) -> CallResult {
        match answer {
            Some(reply) => match &reply.answer {
                Answer::Refused(Refusal::Memory) => CallResult::Memory,
                _ => CallResult::right_if(reply.same(&self.wanted)),
            },
            None => CallResult::Wrong,
        }
    }

    fn is_unchanged(&mut self) -> bool {
        for text in PROBES.lines() {
            if self.answers_alike(text) != Some(true) {
                return false;
            }
        }
        true
    }
}

/// `Runtime::new`, `step`, `kill`, `cell` and `next_id`, which take no memory.
#[derive(Drop)]
struct Steps {
    alloc: Global,
    runtime: Runtime,
}

impl Steps {
    fn new(alloc: Global) -> Option<Steps> {
        let runtime = begun(alloc)?;
        Some(Steps { alloc, runtime })
    }
}

impl Trial for Steps {
    type Answer = (Option<Did>, Option<()>);

    fn call(&mut self) -> (Option<Did>, Option<()>) {
        let none = Runtime::new(self.alloc, None).next_id(0);
        let first = self.runtime.next_id(0).unwrap_or(0);
        let did = if none.is_none() {
            self.runtime.step(first)
        } else {
            None
        };
        (did, self.runtime.kill(first, 9))
    }

    fn check(&mut self, answer: &(Option<Did>, Option<()>)) -> CallResult {
        let state = self.runtime.cell(1).map(|cell| cell.state());
        let is_killed = state
            == Some(State::Exited {
                code: 9,
                killed: true,
            });
        CallResult::right_if(*answer == (Some(Did::Performed), Some(())) && is_killed)
    }
}
