//! A runtime that threads share, and the runners that step its containers.
ghost use Rattle.std.specs.Prelude.{◌≡◌, ◌<◌};
ghost use Rattle.runner.specs.Shared.{MayServe};
ghost use Rattle.runtime_history.specs.History.{unseen};

use crate::recording::{EndGate, Recorder};
use cri_msgs::{Call, MessageFault, Reply, Request, Version};
use registry::RemovedCells;
use runner::{Begun, Callers, Host, Node, Notifier, Reader, SharedHost, SharedRuntime};
use runtime_core::FileAnswers;
use std::alloc::{AllocError, Global};
use std::marker::Model;
use std::sync::Wait;
use std::thread::{Scope, Threads};
use std::time::Clock;

/// A runtime that threads share, with the maker of its callers, the notifier of its runners, the reader of
/// large texts, and the recorder of its cells, if records are written.
#[derive(Drop)]
pub struct RuntimeThreads<B: Node> {
    runtime: SharedRuntime<B>,
    callers: Callers<B>,
    notifier: Notifier,
    reader: Reader,
    recorder: Option<Recorder>,
    alloc: Global,
}

impl<B: Node> RuntimeThreads<B> {
    /// A runtime that has served nothing.
    pub fn new(alloc: Global, begun: Begun, recorder: Option<Recorder>) -> RuntimeThreads<B>
        requires { begun ≡ (B.filter, B.table) }
    {
        let (runtime, callers) = SharedRuntime::new(alloc, begun);
        RuntimeThreads {
            runtime,
            callers,
            notifier: Notifier::new(),
            reader: Reader::new(),
            recorder,
            alloc,
        }
    }

    /// A host for a thread's calls to the runtime. It has seen nothing of the runtime's history.
    pub fn host<'a, R: Wait>(&'a self, rt: &'a R) -> RuntimeHost<'a, B, R>
        ensures { result ≡ unseen }
    {
        RuntimeHost {
            rt,
            host: SharedHost::new(rt, &self.runtime, &self.callers),
            notifier: &self.notifier,
            reader: &self.reader,
            recorder: self.recorder.as_ref(),
            alloc: self.alloc,
        }
    }

    /// Waits until no container runs or the runtime is closed. `runners` is its number of runners.
    pub fn wait_idle<R: Wait>(&self, rt: &R, runners: u32) {
        self.notifier.wait_idle(rt, u64::from(runners));
    }

    /// Waits until all records are written, if records are kept.
    pub fn finish<R: Wait + Clock>(&self, rt: &R) {
        if let Some(recorder) = &self.recorder {
            recorder.finish(rt);
        }
    }

    /// Stops the runners and the reader.
    pub fn close<R: Wait>(&self, rt: &R) {
        self.notifier.close(rt);
        self.reader.close(rt);
    }

    pub(crate) fn is_closed<R: Wait>(&self, rt: &R) -> bool {
        self.notifier.is_closed(rt)
    }

    // Steps the containers of a runner's share, and waits while none of them runs.
    fn run_cells<R: Wait>(&self, rt: &R, runner: u64, runners: u64) {
        if runner >= runners {
            return;
        }
        let mut me = self.runtime.client(&self.callers);
        let gate = EndGate {
            rt,
            recorder: self.recorder.as_ref(),
        };
        self.notifier.work(
            rt,
            || -> bool
                requires { runner < runners }
            { self.runtime.step_round(rt, &mut me, runner, runners, &gate) },
        );
    }
}

/// Starts the runners of a runtime and its reader, each in a thread of its own.
pub fn start_runners<'s, 'e, B: Node + Send + Sync, R: Threads + Wait + Sync>(
    scope: &'s Scope<'s, &'e ()>,
    rt: &'e R,
    threads: &'e RuntimeThreads<B>,
    runners: u32,
) -> Result<(), AllocError> {
    scope.spawn(move || threads.reader.work(rt, threads.alloc))?;
    let runners = u64::from(runners);
    for runner in 0..runners {
        scope.spawn(move || threads.run_cells(rt, runner, runners))?;
    }
    Ok(())
}

/// The host of a runtime that threads share. It wakes the runners for each container that is started.
/// Contracts see what the connection has seen of the runtime's history.
#[derive(Drop)]
pub struct RuntimeHost<'a, B: Node, R: Wait> {
    rt: &'a R,
    host: SharedHost<'a, B, R>,
    notifier: &'a Notifier,
    reader: &'a Reader,
    recorder: Option<&'a Recorder>,
    alloc: Global,
}

impl<'a, B: Node, R: Wait> RuntimeHost<'a, B, R> {
    // Serves a request, and records the cells that it removes.
    fn serve_recorded(&mut self, recorder: &Recorder, request: Request, files: FileAnswers) -> Reply
        ensures { MayServe B.filter self.old request files result self.new }
    {
        let uid = recorder.removal(&request);
        let mut gone = RemovedCells::new(self.alloc);
        let reply = self.host.serve_keeping(&mut gone, request, files);
        recorder.record_removed(self.rt, &uid, &gone);
        reply
    }
}

impl<'a, B: Node, R: Wait> Model for RuntimeHost<'a, B, R> {
    ghost use Rattle.runtime_history.specs.declared.event.Seen.{Seen};

    ghost Value = { Seen };

    ghost view = { λ host. host.host };
}

impl<B: Node, R: Wait> Host for RuntimeHost<'_, B, R> {
    ghost use Rattle.runner.specs.Shared.{MayServe};

    ghost may = { MayServe B.filter };

    fn serve(&mut self, request: Request, files: FileAnswers) -> Reply {
        let starts = matches!(&request.call, Call::StartContainer { .. });
        let reply = match self.recorder {
            Some(recorder) => self.serve_recorded(recorder, request, files),
            None => self.host.serve(request, files),
        };
        if starts {
            self.notifier.notify(self.rt);
        }
        reply
    }

    fn read(&self, alloc: Global, version: Version, text: &[u8]) -> Result<Request, MessageFault> {
        self.reader.read(self.rt, alloc, version, text)
    }
}
