ghost use Rattle.std.specs.Prelude.{◌≡◌, IfErr, OnErr, OnOk};
ghost use Rattle.world.specs.declared.events.Act.TheVariants as act;
ghost use Rattle.world.specs.declared.events.WorldEvent.TheVariants.{Agent, Serve, Report, Lose, StepCell};
ghost use Rattle.world.specs.declared.events.WorldEvent.TheVariants.{KillCell};
ghost use Rattle.world.specs.Kept.{Comes, IsCause, IsClaim, IsReached, StandsFor};
ghost use Rattle.world.specs.World.{WorldState, empty_world};

use crate::events::{Act, WorldEvent};
use crate::exchanges::{Exchange, keep_sent, pushed, reply_at, request_at};
use crate::faults::WorldFault;
use bpf_verify::Filter;
use cri_msgs::Request;
use runtime_core::{FileAnswers, Runtime};
use std::alloc::Global;
use std::marker::Model;
use worker_core::{AgentEvent, Node, Reported};
use worker_pod::Settings;

/// A world, and all messages that were sent in it. Contracts see what it keeps, and the worlds that it stands
/// for.
#[derive(Drop)]
pub struct World {
    alloc: Global,
    node: Node,
    runtime: Runtime,
    sent: Vec<Request>,
    given: Vec<Exchange>,
}

impl Model for World {
    ghost use Rattle.world.specs.Kept.{IsReached, KeptWorld};

    ghost Value = { KeptWorld };

    ghost view = { λ w. record {
      node = w.node;
      runtime = w.runtime;
      sent = w.sent.items;
      given =
          w.given.items;
    } };

    // The kept state stands for the end of a run, so the laws of every run apply to it.
    ghost invariant = { λ w. IsReached (record {
      node = w.node;
      runtime = w.runtime;
      sent = w.sent.items;
      given = w.given.items;
    }) };
}

impl World {
    /// A world in which nothing happened, on a node with this baseline filter.
    pub fn new(alloc: Global, settings: Settings, baseline: Option<Filter>) -> World
        ensures { StandsFor result (empty_world settings baseline) }
    {
        World {
            alloc,
            node: Node::new(alloc, settings),
            runtime: Runtime::new(alloc, baseline),
            sent: Vec::new(alloc),
            given: Vec::new(alloc),
        }
    }

    /// The agent.
    pub fn node(&self) -> &Node
        ensures node { result.now ≡ self.now.node }

        // The laws of every run apply to the run that led here.
        ensures reached { IsReached self.now }
    {
        &self.node
    }

    /// The runtime.
    pub fn runtime(&self) -> &Runtime
        ensures runtime { result.now ≡ self.now.runtime }
        ensures reached { IsReached self.now }
    {
        &self.runtime
    }

    /// All requests that were ever sent, in order of entry.
    pub fn sent(&self) -> &[Request]
        ensures { result.now ≡ self.now.sent }
    {
        self.sent.as_slice()
    }

    /// All replies that were ever given, each with its request, in order of entry.
    pub fn given(&self) -> &[Exchange]
        ensures { result.now ≡ self.now.given }
    {
        self.given.as_slice()
    }

    /// Takes a step, if the event can happen. A refusal by the agent or the runtime is an answer, not a
    /// fault. A fault changes nothing.
    pub fn step(&mut self, event: WorldEvent) -> Result<(), WorldFault>
        // It is a step of every world that the old state stands for.
        ensures step { OnOk result ((world : WorldState) → StandsFor self.old world
            → Comes world event self.new) }
        ensures same { OnErr result (self.new ≡ self.old) }
        ensures cause { IfErr result (λ fault. IsCause self.old event fault) }
    {
        match event {
            WorldEvent::Agent(act) => self.act(act),
            WorldEvent::Serve(which, files) => self.serve(which, files),
            WorldEvent::Report(worker, which) => self.report(worker, which),
            WorldEvent::Lose(worker) => {
                self.lose(worker);
                Ok(())
            }
            WorldEvent::StepCell(id) => self.step_cell(id),
            WorldEvent::KillCell(id, code) => self.kill_cell(id, code),
        }
    }

    fn act(&mut self, act: Act) -> Result<(), WorldFault>
        ensures step { OnOk result ((world : WorldState) → StandsFor self.old world
            → Comes world (Agent act) self.new) }
        ensures same { OnErr result (self.new ≡ self.old) }
        ensures cause { IfErr result (λ fault. IsCause self.old (Agent act) fault) }
    {
        if let Act::Claim(worker) = act {
            self.claim(worker)
        } else {
            self.go_on(act);
            Ok(())
        }
    }

    // Makes room for the request first.
    fn claim(&mut self, worker: u32) -> Result<(), WorldFault>
        ensures step { OnOk result ((world : WorldState) → StandsFor self.old world
            → Comes world (Agent (act.Claim worker)) self.new) }
        ensures same { OnErr result (self.new ≡ self.old) }
        ensures cause { IfErr result (λ fault. fault ≡ WorldFault.Memory) }
    {
        self.sent.reserve(1)?;
        let answer = self.node.apply(AgentEvent::Claim(worker));
        keep_sent(&mut self.sent, answer);
        Ok(())
    }

    // Any act but a claim. It sends nothing.
    fn go_on(&mut self, act: Act)
        requires { ¬ IsClaim act }
        ensures { (world : WorldState) → StandsFor self.old world → Comes world (Agent act) self.new }
    {
        drop(self.node.apply(act.event()));
    }

    // Makes room for the exchange first.
    fn serve(&mut self, which: usize, files: FileAnswers) -> Result<(), WorldFault>
        ensures step { OnOk result ((world : WorldState) → StandsFor self.old world
            → Comes world (Serve which files) self.new) }
        ensures same { OnErr result (self.new ≡ self.old) }
        ensures cause { IfErr result (λ fault. IsCause self.old (Serve which files) fault) }
    {
        let request = request_at(self.alloc, self.sent.as_slice(), which)?;
        let copy = request.try_clone(self.alloc)?;
        self.given.reserve(1)?;
        let reply = self.runtime.serve(copy, files);
        pushed(&mut self.given, Exchange { request, reply });
        Ok(())
    }

    fn report(&mut self, worker: u32, which: usize) -> Result<(), WorldFault>
        ensures step { OnOk result ((world : WorldState) → StandsFor self.old world
            → Comes world (Report worker which) self.new) }
        ensures same { OnErr result (self.new ≡ self.old) }
        ensures cause { IfErr result (λ fault. IsCause self.old (Report worker which) fault) }
    {
        let claim = self.node.claim_of(worker);
        match reply_at(self.alloc, self.given.as_slice(), which, claim) {
            Ok(reply) => {
                let reported = Reported::Replied(reply);
                drop(self.node.apply(AgentEvent::Report(worker, reported)));
                Ok(())
            }
            Err(fault) => Err(fault),
        }
    }

    fn lose(&mut self, worker: u32)
        ensures { (world : WorldState) → StandsFor self.old world → Comes world (Lose worker) self.new }
    {
        drop(self.node.apply(AgentEvent::Report(worker, Reported::Lost)));
    }

    fn step_cell(&mut self, id: u64) -> Result<(), WorldFault>
        ensures step { OnOk result ((world : WorldState) → StandsFor self.old world
            → Comes world (StepCell id) self.new) }
        ensures same { OnErr result (self.new ≡ self.old) }
        ensures cause { IfErr result (λ fault. IsCause self.old (StepCell id) fault) }
    {
        let Some(_cell) = self.runtime.cell(id) else {
            return Err(WorldFault::NoSuchCell);
        };
        let _did = self.runtime.step(id);
        Ok(())
    }

    fn kill_cell(&mut self, id: u64, code: u8) -> Result<(), WorldFault>
        ensures step { OnOk result ((world : WorldState) → StandsFor self.old world
            → Comes world (KillCell id code) self.new) }
        ensures same { OnErr result (self.new ≡ self.old) }
        ensures cause { IfErr result (λ fault. IsCause self.old (KillCell id code) fault) }
    {
        let Some(_cell) = self.runtime.cell(id) else {
            return Err(WorldFault::NoSuchCell);
        };
        let _found = self.runtime.kill(id, code);
        Ok(())
    }
}
