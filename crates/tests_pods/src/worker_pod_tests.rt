use crate::worker_pod_play::begun;
use cri_msgs::{Answer, Reply, Version};
use lifecycle::{PastRun, Phase, RestartPolicy, Runs, Stage, Track};
use manifest::PodFault;
use std::alloc::{AllocError, Global};
use std::test::Fail;
use worker_pod::{Outcome, Settings};

const FLAKY: &str =
    "\"restartPolicy\":\"OnFailure\",\"initContainers\":[{\"name\":\"setup\",\"image\":\"s.json\"}],\
    \"containers\":[{\"name\":\"main\",\"image\":\"m.json\"}]";

const ALONE: &str = "\"containers\":[{\"name\":\"main\",\"image\":\"m.json\"}]";

const THREE: &str =
    "\"containers\":[{\"name\":\"a\",\"image\":\"m\"},{\"name\":\"b\",\"image\":\"m\"},{\"name\":\"c\",\
     \"image\":\"m\"}]";

const PLAIN: Settings = Settings {
    seccomp_default: false,
    poll: 0,
    version: Version::V1,
};

// Statuses are asked for together.
const TOGETHER: Settings = Settings {
    seccomp_default: false,
    poll: 0,
    version: Version::V2,
};

// The life of a pod whose second run succeeds. Each request ends badly first, nothing is due for ten seconds,
// and then it is asked for again.
fn life(alloc: Global, settings: Settings, bad: &str) -> Result<String, PodFault> {
    let mut play = begun(alloc, FLAKY, settings)?;
    let mut text = String::new(alloc);
    for letter in b"ddddeddxddde" {
        play.tick();
        let worse = play.plays(bad)?;
        play.tick();
        let better = play.claim(*letter)?;
        let phase: Phase = play.state.view().phase;
        write!(text, "{}{} {phase}; ", worse.as_str(), better.as_str())?;
    }
    Ok(text)
}

const LIFE_LOST: &str = "run default.p: Unknown 10; none: Unknown 10; run default.p Pending; \
    create default.p setup 0 s.json unconfined: Unknown 20; none: Unknown 20; \
    create default.p setup 0 s.json unconfined Pending; start default.p setup 0: Unknown 30; \
    none: Unknown 30; start default.p setup 0 Pending; look default.p setup 0: Unknown 40; \
    none: Unknown 40; look default.p setup 0 Pending; look default.p setup 0: Unknown 50; none: Unknown 50; \
    look default.p setup 0 Pending; create default.p main 0 m.json unconfined: Unknown 60; \
    none: Unknown 60; create default.p main 0 m.json unconfined Pending; \
    start default.p main 0: Unknown 70; none: Unknown 70; start default.p main 0 Running; \
    look default.p main 0: Unknown 80; none: Unknown 80; look default.p main 0 Running; \
    clear default.p main 0: Unknown 100; none: Unknown 100; clear default.p main 0 Running; \
    create default.p main 1 m.json unconfined: Unknown 110; none: Unknown 110; \
    create default.p main 1 m.json unconfined Running; start default.p main 1: Unknown 120; \
    none: Unknown 120; start default.p main 1 Running; look default.p main 1: Unknown 130; \
    none: Unknown 130; look default.p main 1 Succeeded; ";

const LIFE_REFUSED: &str = "run default.p: Pending 10; none: Pending 10; run default.p Pending; \
    create default.p setup 0 s.json unconfined: Pending 20; none: Pending 20; \
    create default.p setup 0 s.json unconfined Pending; start default.p setup 0: Pending 30; \
    none: Pending 30; start default.p setup 0 Pending; look default.p setup 0: Pending 40; \
    none: Pending 40; look default.p setup 0 Pending; look default.p setup 0: Pending 50; none: Pending 50; \
    look default.p setup 0 Pending; create default.p main 0 m.json unconfined: Pending 60; \
    none: Pending 60; create default.p main 0 m.json unconfined Pending; \
    start default.p main 0: Pending 70; none: Pending 70; start default.p main 0 Running; \
    look default.p main 0: Running 80; none: Running 80; look default.p main 0 Running; \
    clear default.p main 0: Running 100; none: Running 100; clear default.p main 0 Running; \
    create default.p main 1 m.json unconfined: Running 110; none: Running 110; \
    create default.p main 1 m.json unconfined Running; start default.p main 1: Running 120; \
    none: Running 120; start default.p main 1 Running; look default.p main 1: Running 130; \
    none: Running 130; look default.p main 1 Succeeded; ";

// A refusal; a loss, a claim given up, an answer of another kind, a reply with another number.
#[test]
fn lives(rt: HostRuntime) -> Result<(), Fail> {
    for settings in [PLAIN, TOGETHER] {
        let refused = life(rt.alloc(), settings, "rd")?;
        assert_eq!(rt; refused.as_str(), LIFE_REFUSED);
        for bad in ["ld", "ad", "kd", "nd"] {
            let lost = life(rt.alloc(), settings, bad)?;
            assert_eq!(rt; lost.as_str(), LIFE_LOST);
        }
    }
    Ok(())
}

fn back_offs(alloc: Global) -> Result<String, PodFault> {
    let mut play = begun(alloc, ALONE, PLAIN)?;
    play.plays("d")?;
    let mut text = String::new(alloc);
    for _ in 0..7 {
        play.plays("ddxtd")?;
        write!(text, "{} ", play.now)?;
    }
    Ok(text)
}

// Seven runs that end at once.
#[test]
fn back_off(rt: HostRuntime) -> Result<(), Fail> {
    let text = back_offs(rt.alloc())?;
    assert_eq!(rt; text.as_str(), "10 30 70 150 310 610 910 ");
    Ok(())
}

fn played(
    alloc: Global,
    spec: &str,
    settings: Settings,
    letters: &str,
) -> Result<String, PodFault> {
    Ok(begun(alloc, spec, settings)?.plays(letters)?)
}

const POLLS: Settings = Settings {
    seccomp_default: true,
    poll: 5,
    version: Version::V1,
};

const NEVER: &str =
    "\"restartPolicy\":\"Never\",\"initContainers\":[{\"name\":\"setup\",\"image\":\"s\"},\
     {\"name\":\"last\",\"image\":\"l\"}],\
    \"containers\":[{\"name\":\"main\",\"image\":\"m\"}]";

const CONFINED: &str =
    "\"securityContext\":{\"seccompProfile\":{\"type\":\"RuntimeDefault\"}},\"containers\":[\
    {\"name\":\"a\",\"image\":\"m\",\"securityContext\":{\"seccompProfile\":{\"type\":\"Localhost\",\
    \"localhostProfile\":\"a.json\"}}},\
    {\"name\":\"b\",\"image\":\"m\"},\
    {\"name\":\"c\",\"image\":\"m\",\"securityContext\":{\"privileged\":true,\
    \"seccompProfile\":{\"type\":\"Localhost\",\"localhostProfile\":\"a.json\"}}}]";

#[test]
fn deletions(rt: HostRuntime) -> Result<(), Fail> {
    let rows = [
        // Before the first claim.
        (
            "Dddd",
            "stop default.p 30: Pending 0; remove default.p: Pending gone; none: Pending gone; ",
        ),
        (
            "Dltrtdd",
            "stop default.p 30: Unknown 10; stop default.p 30: Pending 20; stop default.p 30: Pending 0; \
             remove default.p: Pending gone; ",
        ),
        // While it is held.
        (
            "hdd",
            "run default.p: Pending 0; stop default.p 30: Pending 0; remove default.p: Pending gone; ",
        ),
        (
            "dhdatd",
            "run default.p: Pending 0; create default.p setup 0 s unconfined: Pending 0; \
             stop default.p 30: Pending 0; remove default.p: Unknown 10; remove default.p: Pending gone; ",
        ),
        // After its end.
        (
            "dddxdDdd",
            "run default.p: Pending 0; create default.p setup 0 s unconfined: Pending 0; \
             start default.p setup 0: Pending 0; look default.p setup 0: Failed -; none: Failed -; \
             stop default.p 30: Failed 0; remove default.p: Failed gone; ",
        ),
    ];
    for (letters, want) in rows {
        let text = played(rt.alloc(), NEVER, PLAIN, letters)?;
        assert_eq!(rt; text.as_str(), want, "{letters}");
    }
    Ok(())
}

#[test]
fn turns(rt: HostRuntime) -> Result<(), Fail> {
    let rows = [
        // Init containers run one after the other, each to success.
        (
            NEVER,
            PLAIN,
            "ddddeddeddedd",
            "run default.p: Pending 0; create default.p setup 0 s unconfined: Pending 0; \
             start default.p setup 0: Pending 0; look default.p setup 0: Pending 0; \
             look default.p setup 0: Pending 0; create default.p last 0 l unconfined: Pending 0; \
             start default.p last 0: Pending 0; look default.p last 0: Pending 0; \
             create default.p main 0 m unconfined: Pending 0; start default.p main 0: Running 0; \
             look default.p main 0: Succeeded -; none: Succeeded -; none: Succeeded -; ",
        ),
        // One that failed is tried again first.
        (
            FLAKY,
            PLAIN,
            "dddxdtdd",
            "run default.p: Pending 0; create default.p setup 0 s.json unconfined: Pending 0; \
             start default.p setup 0: Pending 0; look default.p setup 0: Pending 10; none: Pending 10; \
             clear default.p setup 0: Pending 10; create default.p setup 1 s.json unconfined: Pending 0; ",
        ),
        // The status is asked for at once, and then five seconds after it was reported.
        (
            ALONE,
            POLLS,
            "ddddtwtd",
            "run default.p: Pending 0; create default.p main 0 m.json default: Pending 0; \
             start default.p main 0: Running 0; look default.p main 0: Running 5; \
             look default.p main 0: Running 12; look default.p main 0: Running 17; ",
        ),
        // The container that was worked on longest ago is next, and a lost claim worked on it too.
        (
            THREE,
            PLAIN,
            "ddddddddddltddd",
            "run default.p: Pending 0; create default.p a 0 m unconfined: Pending 0; \
             create default.p b 0 m unconfined: Pending 0; create default.p c 0 m unconfined: Pending 0; \
             start default.p a 0: Pending 0; start default.p b 0: Pending 0; \
             start default.p c 0: Running 0; look default.p a 0: Running 0; look default.p b 0: Running 0; \
             look default.p c 0: Running 0; look default.p a 0: Unknown 10; look default.p b 0: Running 0; \
             look default.p c 0: Running 0; look default.p a 0: Running 10; ",
        ),
        // The container's profile, the pod's, none.
        (
            CONFINED,
            PLAIN,
            "dddd",
            "run default.p: Pending 0; create default.p a 0 m file a.json: Pending 0; \
             create default.p b 0 m default: Pending 0; create default.p c 0 m unconfined: Pending 0; ",
        ),
    ];
    for (spec, settings, letters, want) in rows {
        let text = played(rt.alloc(), spec, settings, letters)?;
        assert_eq!(rt; text.as_str(), want, "{letters}");
    }
    Ok(())
}

// The cells of a list of statuses are between bars, each as its container's name, its attempt and r, e or x:
// it runs, or exited with 0 or 1.
fn scripted(alloc: Global, spec: &str, poll: u64, script: &str) -> Result<String, PodFault> {
    let settings = Settings { poll, ..TOGETHER };
    let mut play = begun(alloc, spec, settings)?;
    let mut text = String::new(alloc);
    for (place, part) in script.split('|').enumerate() {
        let told = match place % 2 {
            0 => play.plays(part)?,
            _ => play.lists(part)?,
        };
        write!(text, "{}", told.as_str())?;
    }
    Ok(text)
}

const ONE: &str = "\"containers\":[{\"name\":\"a\",\"image\":\"m\"}]";

#[test]
fn statuses(rt: HostRuntime) -> Result<(), Fail> {
    let rows = [
        // Two of three exit between two statuses. What a list lacks was seen, and all were worked on by it.
        (
            THREE,
            5,
            "ddddddd|a0e b0x c0r|dt||tddd",
            "run default.p: Pending 0; create default.p a 0 m unconfined: Pending 0; \
             create default.p b 0 m unconfined: Pending 0; create default.p c 0 m unconfined: Pending 0; \
             start default.p a 0: Pending 0; start default.p b 0: Pending 0; \
             start default.p c 0: Running 0; look default.p a 0 b 0 c 0: Running 5; none: Running 5; \
             look default.p c 0: Running 10; clear default.p a 0: Running 10; \
             clear default.p b 0: Running 10; look default.p c 0: Running 10; ",
        ),
        // An older attempt, a later one and another container are passed over, and of two cells the first
        // counts.
        (
            ONE,
            5,
            "ddd|a0x|tddd|a0x|t|a0x a1r|t|b1x a2x|t|a1r a1x|t|a0e a1x|",
            "run default.p: Pending 0; create default.p a 0 m unconfined: Pending 0; \
             start default.p a 0: Running 0; look default.p a 0: Running 10; \
             clear default.p a 0: Running 10; create default.p a 1 m unconfined: Running 0; \
             start default.p a 1: Running 0; look default.p a 1: Running 15; \
             look default.p a 1: Running 20; look default.p a 1: Running 25; \
             look default.p a 1: Running 30; look default.p a 1: Running 50; ",
        ),
        // What was not made or not started is not seen.
        (
            THREE,
            0,
            "ddrtddrtd|a0r b0x c0x|d|b0x|d",
            "run default.p: Pending 0; create default.p a 0 m unconfined: Pending 0; \
             create default.p b 0 m unconfined: Pending 10; create default.p c 0 m unconfined: Pending 0; \
             start default.p a 0: Pending 0; create default.p b 0 m unconfined: Pending 20; \
             start default.p c 0: Pending 0; look default.p a 0 c 0: Pending 0; \
             create default.p b 0 m unconfined: Pending 0; look default.p a 0: Pending 0; \
             start default.p b 0: Running 0; ",
        ),
    ];
    for (spec, poll, script, want) in rows {
        let text = scripted(rt.alloc(), spec, poll, script)?;
        assert_eq!(rt; text.as_str(), want, "{script}");
    }
    Ok(())
}

// What is lent, copied and counted.
#[test]
fn views(rt: HostRuntime) -> Result<(), Fail> {
    let mut play = begun(rt.alloc(), FLAKY, PLAIN)?;
    play.plays("d")?;
    let view = play.state.view();
    assert_eq!(rt; view.pod.uid.as_str(), "default.p");
    assert_eq!(rt; view.tracks.len(), 2);
    assert_eq!(rt; play.state.worked(), 1);
    let reply = Reply {
        id: 4,
        answer: Answer::Done,
    };
    let copy = Outcome::Replied(reply).try_clone(rt.alloc())?;
    assert!(rt; matches!(&copy, Outcome::Replied(reply) if reply.id == 4));
    Ok(())
}
