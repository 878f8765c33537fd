use crate::worker_core_play::{Play, begun};
use manifest::{PodFault, Uid};
use std::alloc::Global;
use std::test::Fail;
use worker_core::{MAX_PODS, NodeRefusal};

const ALONE: &str =
    "\"restartPolicy\":\"Never\",\"containers\":[{\"name\":\"main\",\"image\":\"m.json\"}]";

const THREE: &str =
    "\"containers\":[{\"name\":\"x\",\"image\":\"m\"},{\"name\":\"y\",\"image\":\"m\"},{\"name\":\"z\",\
     \"image\":\"m\"}]";

fn played(alloc: Global, words: &str) -> Result<String, PodFault> {
    let mut play = begun(alloc);
    let mut text = play.plays(words, ALONE)?;
    let told = play.held_and_phases()?;
    write!(text, "{}", told.as_str())?;
    Ok(text)
}

#[test]
fn events(rt: HostRuntime) -> Result<(), Fail> {
    let rows = [
        // A pod whose sandbox was lost is not worked on for ten seconds, and a late reply counts as lost.
        (
            "Aa c1 c2 l2 l1 c1 t9 c1",
            "Aa: done; c1: default.a 1 1 run default.a; c2: nothing; l2: NotYours; l1: done; c1: nothing; \
             t9: done; c1: nothing; 0 held, due 10, default.a Unknown",
        ),
        (
            "Aa c1 l1 t10 c1 o1",
            "Aa: done; c1: default.a 1 1 run default.a; l1: done; t10: done; \
             c1: default.a 2 2 run default.a; o1: done; 0 held, due 20, default.a Unknown",
        ),
        // The clock does not go back.
        (
            "t5 t4 Aa t5",
            "t5: done; t4: ClockBack; Aa: done; t5: done; 0 held, due 5, default.a Pending",
        ),
        // A worker that holds nothing has nothing to report or to give up.
        (
            "d1 a1 c1",
            "d1: NotYours; a1: NotYours; c1: nothing; 0 held",
        ),
        // A worker holds one pod at most, and a pod is held by one worker at most.
        (
            "Aa Ab c1 c1 c2 c3 a1 c3",
            "Aa: done; Ab: done; c1: default.a 1 1 run default.a; c1: NotYours; \
             c2: default.b 2 2 run default.b; c3: nothing; a1: done; c3: nothing; \
             1 held, due 10, default.a Unknown, default.b Pending",
        ),
        ("Da", "Da: NoSuchPod; 0 held"),
        // A pod is deleted before the first claim, and leaves once its removal was answered.
        (
            "Aa Da Da c1 d1 c1 r1 t10 c1 d1 Da Aa",
            "Aa: done; Da: done; Da: done; c1: default.a 1 1 stop default.a; d1: done; \
             c1: default.a 2 2 remove default.a; r1: done; t10: done; c1: default.a 3 3 remove default.a; \
             d1: done; Da: NoSuchPod; Aa: KnownUid; 0 held",
        ),
        // It is deleted while it is held, and the claim counts.
        (
            "Aa c1 Da d1 c1 l1",
            "Aa: done; c1: default.a 1 1 run default.a; Da: done; d1: done; \
             c1: default.a 2 2 stop default.a; l1: done; 0 held, due 10, default.a Unknown",
        ),
        // It is deleted after its success.
        (
            "Aa c1 d1 c1 d1 c1 d1 c1 e1 c1 Da c1 d1 c1 d1",
            "Aa: done; c1: default.a 1 1 run default.a; d1: done; \
             c1: default.a 2 2 create default.a main 0; d1: done; c1: default.a 3 3 start default.a main 0; \
             d1: done; c1: default.a 4 4 look default.a main 0; e1: done; c1: nothing; Da: done; \
             c1: default.a 5 5 stop default.a; d1: done; c1: default.a 6 6 remove default.a; d1: done; \
             0 held",
        ),
    ];
    for (words, want) in rows {
        let text = played(rt.alloc(), words)?;
        assert_eq!(rt; text.as_str(), want, "{words}");
    }
    Ok(())
}

const TWELVE: &str =
    "c1: default.a 1 1 run default.a; d1: done; c1: default.b 2 2 run default.b; d1: done; \
    c1: default.c 3 3 run default.c; d1: done; c1: default.a 4 4 create default.a x 0; d1: done; \
    c1: default.b 5 5 create default.b x 0; d1: done; c1: default.c 6 6 create default.c x 0; d1: done; \
    c1: default.a 7 7 create default.a y 0; d1: done; c1: default.b 8 8 create default.b y 0; d1: done; \
    c1: default.c 9 9 create default.c y 0; d1: done; c1: default.a 10 10 create default.a z 0; d1: done; \
    c1: default.b 11 11 create default.b z 0; d1: done; c1: default.c 12 12 create default.c z 0; d1: done; \
    ";

// Of three pods with three containers, the pod that was worked on longest ago is given, and in it the
// container that was.
#[test]
fn longest_wait(rt: HostRuntime) -> Result<(), Fail> {
    let mut play = begun(rt.alloc());
    play.plays("Aa Ab Ac", THREE)?;
    let twelve = "c1 d1 c1 d1 c1 d1 c1 d1 c1 d1 c1 d1 c1 d1 c1 d1 c1 d1 c1 d1 c1 d1 c1 d1";
    let text = play.plays(twelve, THREE)?;
    assert_eq!(rt; text.as_str(), TWELVE);
    for round in 0..88_u64 {
        let claim = 13 + round;
        let text = play.plays("c1 d1", THREE)?;
        let pod = match round % 3 {
            0 => "a",
            1 => "b",
            _ => "c",
        };
        let container = match round / 3 % 3 {
            0 => "x",
            1 => "y",
            _ => "z",
        };
        let verb = if round < 9 { "start" } else { "look" };
        let want = format!(in rt.alloc();
            "c1: default.{pod} {claim} {claim} {verb} default.{pod} {container} 0; d1: done; "
        )?;
        assert_eq!(rt; text.as_str(), want.as_str(), "claim {claim}");
    }
    Ok(())
}

// A pod that is held is passed over, however long it waited.
#[test]
fn held_pods_wait(rt: HostRuntime) -> Result<(), Fail> {
    let mut play = begun(rt.alloc());
    let text = play.plays("Aa Ab Ac c1 c2 c3 d2 c2 d3 d2 c2 d1 c3 d2 c1", THREE)?;
    assert_eq!(rt;
        text.as_str(),
        "Aa: done; Ab: done; Ac: done; c1: default.a 1 1 run default.a; c2: default.b 2 2 run default.b; \
         c3: default.c 3 3 run default.c; d2: done; c2: default.b 4 4 create default.b x 0; d3: done; \
         d2: done; c2: default.c 5 5 create default.c x 0; d1: done; \
         c3: default.a 6 6 create default.a x 0; d2: done; c1: default.b 7 7 create default.b y 0; "
    );
    Ok(())
}

// As many pods as may be on a node.
fn filled(alloc: Global) -> Result<Play, PodFault> {
    let mut play = begun(alloc);
    for i in 0..MAX_PODS {
        let word = format!(in alloc; "Ap{i}")?;
        play.plays(word.as_str(), ALONE)?;
    }
    Ok(play)
}

// A uid that was admitted before is reported first.
#[test]
fn full_of_pods(rt: HostRuntime) -> Result<(), Fail> {
    let mut play = filled(rt.alloc())?;
    assert!(rt; play.node.pod(109).is_some());
    let text = play.plays(
        "Ap110 Ap1 Dp1 Ap110 c1 l1 c1 d1 c1 c2 d1 t10 c1 d1 c3 Ap110 Ap1",
        ALONE,
    )?;
    assert_eq!(rt;
        text.as_str(),
        "Ap110: Full; Ap1: KnownUid; Dp1: done; Ap110: Full; c1: default.p0 1 1 run default.p0; l1: done; \
         c1: default.p1 2 2 stop default.p1; d1: done; c1: default.p2 3 3 run default.p2; \
         c2: default.p3 4 4 run default.p3; d1: done; t10: done; c1: default.p4 5 5 run default.p4; \
         d1: done; c3: default.p5 6 6 run default.p5; Ap110: Full; Ap1: KnownUid; "
    );
    Ok(())
}

#[test]
fn views(rt: HostRuntime) -> Result<(), Fail> {
    let mut play = begun(rt.alloc());
    play.plays("Aa Ab c1", THREE)?;
    assert!(rt; matches!(play.node.pod(1), Some(view) if view.tracks.len() == 3));
    assert!(rt; play.node.pod(2).is_none());
    assert_eq!(rt; play.node.held(), 1);
    assert_eq!(rt; play.node.next_due(), Some(0));
    Ok(())
}

#[test]
fn refusals(rt: HostRuntime) -> Result<(), Fail> {
    let rows = [
        (NodeRefusal::Full, "1 Full"),
        (NodeRefusal::KnownUid, "2 KnownUid"),
        (NodeRefusal::NoSuchPod, "3 NoSuchPod"),
        (NodeRefusal::NotYours, "4 NotYours"),
        (NodeRefusal::ClockBack, "5 ClockBack"),
        (NodeRefusal::Memory, "6 Memory"),
    ];
    for (refusal, want) in rows {
        let text = format!(in rt.alloc(); "{} {refusal}", refusal.number())?;
        assert_eq!(rt; text.as_str(), want);
    }
    Ok(())
}
