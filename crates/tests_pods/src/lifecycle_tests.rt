use lifecycle::{
    ContainerState, PastRun, Phase, RestartPolicy, Runs, Stage, Track, may_restart, phase, ready_at,
};
use std::alloc::AllocError;
use std::test::Fail;

// Runs of (started, code, recorded).
fn runs_of(rt: &impl AllocGlobal, rows: &[(u64, u8, u64)]) -> Result<Vec<PastRun>, AllocError> {
    let mut runs = Vec::new(rt.alloc());
    for &(started, code, recorded) in rows {
        if started <= recorded {
            runs.push(PastRun::new(started, code, recorded))?;
        }
    }
    Ok(runs)
}

// The same as `Runs`, which keeps the last one.
fn kept_of(rows: &[(u64, u8, u64)]) -> Result<Runs, AllocError> {
    let mut runs = Runs::new();
    for &(started, code, recorded) in rows {
        if started <= recorded {
            runs.push(PastRun::new(started, code, recorded))?;
        }
    }
    Ok(runs)
}

fn told_of(run: &PastRun) -> (u64, u8, u64) {
    (run.started(), run.code(), run.recorded())
}

#[test]
fn back_off(rt: HostRuntime) -> Result<(), Fail> {
    let end = 18_446_744_073_709_551_610;
    let short = (999, 1, 1000);
    let cases: [(&[(u64, u8, u64)], u64); 7] = [
        (&[(0, 1, 5)], 15),
        (&[(0, 1, 10), (20, 1, 620)], 630),
        (&[(0, 1, 10), (20, 1, 619)], 639),
        (&[short, short, short, short, short], 1160),
        (&[short, short, short, short, short, short], 1300),
        (&[short, short, short, short, short, short, short], 1300),
        (&[(end, 0, end)], 18_446_744_073_709_551_615),
    ];
    for (rows, want) in cases {
        let runs = runs_of(&rt, rows)?;
        if !runs.is_empty() {
            assert_eq!(rt; ready_at(&runs), want);
        }
        assert_eq!(rt; runs.len(), rows.len());
        let kept = kept_of(rows)?;
        assert_eq!(rt; kept.ready_at(), want);
        assert_eq!(rt; kept.count(), rows.len());
        assert_eq!(rt; kept.last().map(told_of), rows.last().copied());
    }
    let none = Runs::new();
    assert_eq!(rt; none.ready_at(), 0);
    assert_eq!(rt; none.count(), 0);
    assert!(rt; none.last().is_none());
    assert!(rt; !none.is_full());
    Ok(())
}

// The cases of the documentation: policy, whether it is an init container, code, another attempt.
#[test]
fn policies(rt: HostRuntime) {
    let cases = [
        (RestartPolicy::Always, false, 0, true),
        (RestartPolicy::Always, false, 1, true),
        (RestartPolicy::Always, true, 0, false),
        (RestartPolicy::Always, true, 1, true),
        (RestartPolicy::OnFailure, false, 0, false),
        (RestartPolicy::OnFailure, true, 255, true),
        (RestartPolicy::Never, false, 1, false),
        (RestartPolicy::Never, true, 1, false),
    ];
    for (policy, init, code, want) in cases {
        assert_eq!(rt;
            may_restart(policy, init, code),
            want,
            "{policy:?} {init} {code}"
        );
    }
}

// A container that was never started, is at its first run, or ended with a code.
#[derive(Clone, Copy)]
enum Came {
    Nowhere,
    Going,
    To(u8),
}

fn track_of(init: bool, came: Came) -> Result<Track, AllocError> {
    let mut runs = Runs::new();
    let stage = match came {
        Came::Nowhere => Stage::Made { attempt: 0 },
        Came::Going => Stage::Running {
            attempt: 0,
            started: 0,
            polled: None,
        },
        Came::To(code) => {
            runs.push(PastRun::new(0, code, 1))?;
            Stage::Exited { attempt: 0 }
        }
    };
    Ok(Track {
        init,
        stage,
        runs,
        worked: 0,
    })
}

fn add_tracks(tracks: &mut Vec<Track>, init: bool, came: &[Came]) -> Result<(), AllocError> {
    for came in came {
        tracks.push(track_of(init, *came)?)?;
    }
    Ok(())
}

fn states_of(
    rt: &impl AllocGlobal,
    tracks: &[Track],
    policy: RestartPolicy,
) -> Result<String, AllocError> {
    let mut text = String::new(rt.alloc());
    for track in tracks {
        let state: ContainerState = track.state(policy);
        let name = format!(in rt.alloc(); "{state} ")?;
        text.push_str(name.as_str())?;
    }
    Ok(text)
}

// Init containers, the others, the policy, whether a call was lost, and the phase with the states.
#[test]
fn phases(rt: HostRuntime) -> Result<(), Fail> {
    use Came::{Going, Nowhere, To};
    use RestartPolicy::{Always, Never, OnFailure};
    let cases: [(&[Came], &[Came], RestartPolicy, bool, &str); 16] = [
        (
            &[To(3)],
            &[Nowhere],
            Never,
            true,
            "Failed Terminated Waiting ",
        ),
        (
            &[To(3)],
            &[Nowhere],
            OnFailure,
            false,
            "Pending Waiting Waiting ",
        ),
        (
            &[To(0)],
            &[To(0)],
            Never,
            true,
            "Succeeded Terminated Terminated ",
        ),
        (
            &[To(0)],
            &[To(0), To(1)],
            Never,
            true,
            "Failed Terminated Terminated Terminated ",
        ),
        (
            &[To(0)],
            &[To(0), Going],
            Never,
            true,
            "Unknown Terminated Terminated Running ",
        ),
        (
            &[To(0)],
            &[To(0), Going],
            Never,
            false,
            "Running Terminated Terminated Running ",
        ),
        (
            &[To(0)],
            &[Nowhere, Going],
            Never,
            true,
            "Unknown Terminated Waiting Running ",
        ),
        (
            &[To(0)],
            &[Nowhere, Going],
            Never,
            false,
            "Pending Terminated Waiting Running ",
        ),
        (
            &[Going],
            &[Going],
            Always,
            false,
            "Pending Running Running ",
        ),
        (
            &[To(0)],
            &[To(0)],
            Always,
            false,
            "Running Terminated Waiting ",
        ),
        (
            &[To(0)],
            &[To(1)],
            OnFailure,
            false,
            "Running Terminated Waiting ",
        ),
        (
            &[To(1)],
            &[To(0)],
            OnFailure,
            false,
            "Succeeded Waiting Terminated ",
        ),
        (&[], &[], Always, true, "Succeeded "),
        (&[Nowhere], &[], Always, true, "Succeeded Waiting "),
        (&[To(1)], &[], Never, true, "Failed Terminated "),
        (&[To(0)], &[], Never, false, "Succeeded Terminated "),
    ];
    for (inits, others, policy, lost, want) in cases {
        let mut tracks = Vec::new(rt.alloc());
        add_tracks(&mut tracks, true, inits)?;
        add_tracks(&mut tracks, false, others)?;
        let now: Phase = phase(&tracks, policy, lost);
        let states = states_of(&rt, &tracks, policy)?;
        let text = format!(in rt.alloc(); "{now} {states}")?;
        assert_eq!(rt; text.as_str(), want);
    }
    Ok(())
}
