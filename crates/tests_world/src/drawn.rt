use crate::numbers::Numbers;
use crate::pods::{files_of, no_files, pod_of};
use crate::recorded::Recorded;
use crate::rows::settings;
use cri_msgs::Version;
use manifest::Uid;
use node_io::FileFault;
use runtime_core::FileAnswers;
use std::alloc::{AllocError, Global};
use std::process::Abort;
use std::test::Fail;
use world::{Act, World, WorldEvent};

const WORKERS: u32 = 4;

const SPECS: [(&str, &str); 5] = [
    (
        "flaky",
        r#""restartPolicy":"OnFailure","containers":[{"name":"main","image":"flaky.json"}]"#,
    ),
    (
        "boot",
        r#""restartPolicy":"OnFailure","initContainers":[{"name":"setup","image":"flaky.json"},
{"name":"second","image":"ends.json"}],"containers":[{"name":"main","image":"traces.json",
"securityContext":{"seccompProfile":{"type":"RuntimeDefault"}}},{"name":"beside","image":"adds.json"}]"#,
    ),
    (
        "adds",
        r#""containers":[{"name":"main","image":"adds.json"},{"name":"long","image":"long.json"}]"#,
    ),
    (
        "confined",
        r#""securityContext":{"seccompProfile":{"type":"Localhost","localhostProfile":"no_seccomp.json"}},
"containers":[{"name":"main","image":"adds.json"}]"#,
    ),
    (
        "lacks",
        r#""restartPolicy":"Never","containers":[{"name":"main","image":"absent.json"}]"#,
    ),
];

// A world that is given drawn events, with all that was seen of it.
#[derive(Drop)]
struct Drawn {
    alloc: Global,
    numbers: Numbers,
    world: World,
    recorded: Recorded,
    moment: u64,
    // for each request that was sent, whether its claim ended by a loss before it was served
    lost: Vec<bool>,
    served_late: u32,
}

impl Drawn {
    fn new(alloc: Global, seed: u64, version: Version) -> Drawn {
        Drawn {
            alloc,
            numbers: Numbers::from(seed),
            world: World::new(alloc, settings(version), None),
            recorded: Recorded::new(alloc),
            moment: 0,
            lost: Vec::new(alloc),
            served_late: 0,
        }
    }

    fn worker(&mut self) -> u32 {
        u32::try_from(self.numbers.below(WORKERS as u64)).unwrap_or(0)
    }

    // One of the last few, mostly, or any.
    fn place(&mut self, count: usize) -> usize {
        let near = if self.numbers.one_in(6) {
            count
        } else {
            count.min(4)
        };
        let back = self.numbers.below(near as u64) as usize;
        count.saturating_sub(1).saturating_sub(back)
    }

    fn files(&mut self, which: usize) -> Result<FileAnswers, AllocError> {
        let mut files = match self.world.sent().get(which) {
            Some(request) => files_of(self.alloc, request)?,
            None => no_files(),
        };
        if self.numbers.one_in(12) {
            files.script = Some(Err(FileFault::Failed));
        }
        if self.numbers.one_in(12) {
            files.profile = Some(Err(FileFault::NotFound));
        }
        Ok(files)
    }

    // The place of the newest reply that was given to the worker's request.
    fn reply_for(&self, worker: u32) -> usize {
        let Some(claim) = self.world.node().claim_of(worker) else {
            return 0;
        };
        let mut place = 0;
        for (at, exchange) in self.world.given().iter().enumerate() {
            if exchange.request.id == claim.id {
                place = at;
            }
        }
        place
    }

    fn cell(&mut self) -> u64 {
        let last = self.world.given().len() as u64;
        self.numbers.below(last.min(40).wrapping_add(1))
    }

    fn uid(&mut self) -> Result<Uid, Fail> {
        let (name, _) = SPECS
            .as_slice()
            .get(self.numbers.below(SPECS.len() as u64) as usize)
            .copied()
            .unwrap_or(("none", ""));
        let text = format!(in self.alloc; "default.{name}")?;
        Ok(Uid::new(self.alloc, text.as_str())?.ok_or("a uid")?)
    }

    fn event(&mut self) -> Result<WorldEvent, Fail> {
        let worker = self.worker();
        Ok(match self.numbers.below(100) {
            0..=24 => WorldEvent::Agent(Act::Claim(worker)),
            25..=49 => {
                let count = self.world.sent().len();
                let which = self.place(count);
                let files = self.files(which)?;
                WorldEvent::Serve(which, files)
            }
            50..=74 => {
                let place = self.reply_for(worker);
                WorldEvent::Report(worker, place)
            }
            75..=77 => WorldEvent::Lose(worker),
            78 => WorldEvent::Agent(Act::Abandon(worker)),
            79..=86 => {
                self.moment = self.moment.wrapping_add(self.numbers.below(8));
                WorldEvent::Agent(Act::Tick(self.moment))
            }
            87..=97 => WorldEvent::StepCell(self.cell()),
            98 => WorldEvent::KillCell(self.cell(), 137),
            _ => self.rare()?,
        })
    }

    // One in four is the end of a pod.
    fn rare(&mut self) -> Result<WorldEvent, Fail> {
        if self.numbers.one_in(4) {
            let uid = self.uid()?;
            Ok(WorldEvent::Agent(Act::Delete(uid)))
        } else {
            Ok(WorldEvent::StepCell(self.cell()))
        }
    }

    // Called before a loss: notes which request it was.
    fn loses(&mut self, worker: u32) {
        let Some(claim) = self.world.node().claim_of(worker) else {
            return;
        };
        let id = claim.id;
        let served = self.world.given().iter().any(|x| x.request.id == id);
        if let Some(at) = self.world.sent().iter().position(|r| r.id == id) {
            if let Some(lost) = self.lost.as_mut_slice().get_mut(at) {
                *lost = !served;
            }
        }
    }

    fn serves(&mut self, which: usize) {
        if let Some(lost) = self.lost.as_mut_slice().get_mut(which) {
            if *lost {
                self.served_late = self.served_late.wrapping_add(1);
                *lost = false;
            }
        }
    }

    // One drawn event, and what is wrong after it.
    fn does(&mut self) -> Result<Option<&'static str>, Fail> {
        let event = self.event()?;
        match &event {
            WorldEvent::Lose(worker) => self.loses(*worker),
            WorldEvent::Serve(which, _) => self.serves(*which),
            _ => {}
        }
        let kind = kind_of(&event);
        if self.world.step(event).is_err() {
            return Ok(None);
        }
        self.looks(kind)
    }

    // Looks at what the event may have touched.
    fn looks(&mut self, kind: Kind) -> Result<Option<&'static str>, Fail> {
        match kind {
            Kind::Claims => {
                for _ in self.lost.len()..self.world.sent().len() {
                    self.lost.push(false)?;
                }
                let apart = self.recorded.are_apart(&self.world, WORKERS);
                Ok(wrong_unless(apart, "two workers hold one pod"))
            }
            Kind::Serves => {
                if let Some(exchange) = self.world.given().last() {
                    if let Some(wrong) = self.recorded.served(exchange)? {
                        return Ok(Some(wrong));
                    }
                }
                Ok(self.recorded.looks(&self.world))
            }
            Kind::Reports => {
                let same = self.recorded.runs_are_of_cells(&self.world)?;
                Ok(wrong_unless(same, "a run is no cell's"))
            }
            Kind::Steps => Ok(self.recorded.looks(&self.world)),
            Kind::Other => Ok(None),
        }
    }
}

#[derive(Clone, Copy)]
enum Kind {
    Claims,
    Serves,
    Reports,
    Steps,
    Other,
}

fn kind_of(event: &WorldEvent) -> Kind {
    match event {
        WorldEvent::Agent(Act::Claim(_)) => Kind::Claims,
        WorldEvent::Serve(_, _) => Kind::Serves,
        WorldEvent::Report(_, _) => Kind::Reports,
        WorldEvent::StepCell(_) | WorldEvent::KillCell(_, _) => Kind::Steps,
        _ => Kind::Other,
    }
}

fn wrong_unless(holds: bool, wrong: &'static str) -> Option<&'static str> {
    if holds { None } else { Some(wrong) }
}

// A world into which the pods were admitted, after a thousand drawn events.
fn played(rt: &impl Abort, alloc: Global, seed: u64) -> Result<Drawn, Fail> {
    // half of the lists by each version
    let version = if seed % 2 == 0 {
        Version::V1
    } else {
        Version::V2
    };
    let mut drawn = Drawn::new(alloc, seed, version);
    for (name, spec) in SPECS {
        match pod_of(alloc, name, spec) {
            Ok(pod) => {
                let admitted = drawn.world.step(WorldEvent::Agent(Act::Admit(pod)));
                assert!(rt; admitted.is_ok());
            }
            Err(_) => Err("a pod")?,
        }
    }
    for at in 0..1000 {
        if let Some(wrong) = drawn.does()? {
            assert!(rt; false, "list {seed}, event {at}: {wrong}");
        }
    }
    assert!(rt;
        !drawn.recorded.came_back(&drawn.world),
        "list {seed}: a cell came back"
    );
    Ok(drawn)
}

#[test]
fn drawn_events(rt: HostRuntime) -> Result<(), Fail> {
    let (mut attempts, mut late, mut behind, mut refused) = (0_u32, 0_u32, 0_u32, 0_u32);
    for seed in 0..100 {
        let drawn = played(&rt, rt.alloc(), seed)?;
        attempts = attempts.wrapping_add(drawn.recorded.second_attempts);
        late = late.wrapping_add(drawn.served_late);
        behind = behind.wrapping_add(drawn.recorded.served_behind_removal);
        refused = refused.wrapping_add(drawn.recorded.refused_creations);
    }
    assert!(rt; attempts >= 50, "{attempts} second attempts");
    assert!(rt; late >= 50, "{late} replies that came late");
    assert!(rt;
        behind >= 20,
        "{behind} removed sandboxes with requests served afterwards"
    );
    assert!(rt; refused >= 20, "{refused} refused creations");
    Ok(())
}
