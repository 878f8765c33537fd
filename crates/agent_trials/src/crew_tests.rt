use crate::test_crews::{
    COUNTED, Entries, HeldUp, Left, Pods, SETTLED, Trial, entries_at_call, many_told, settled,
};
use cri_msgs::Version;
use node_lock::{MAX_ENTRIES, PARTS};
use runner::Begun;
use std::alloc::Global;
use std::marker::Brand;
use std::sync::Wait;
use std::sync::ledger::Blank;
use std::test::Fail;
use std::thread::Threads;
use std::time::Clock;
use worker_crew::Pace;

const PLAIN: Trial = Trial {
    version: Version::V2,
    pods: Pods::Few,
    workers: 2,
    limit: MAX_ENTRIES,
    wires: 0,
    every: 0,
    scripts: 0,
    profiles: 0,
    holds: false,
};

fn tried<R: Threads + Wait + Clock + Sync>(
    rt: &R,
    alloc: Global,
    trial: Trial,
) -> Result<Left, Fail> {
    let node = Begun::new(alloc, None)?;
    settled::<Brand, Brand, R>(rt, alloc, trial, Blank::new(PARTS), node)
}

// One pod and four workers. The first call is held up.
fn held_up<R: Threads + Wait + Clock + Sync>(
    rt: &R,
    alloc: Global,
    pace: Pace,
    turns: u32,
    every: u64,
) -> Result<Entries, Fail> {
    let held_up = HeldUp {
        workers: 4,
        pace,
        turns,
        every,
    };
    let node = Begun::new(alloc, None)?;
    entries_at_call::<Brand, Brand, R>(rt, alloc, held_up, Blank::new(PARTS), node)
}

// The table at the end is the same for any number of workers, and each entry has its receipt.
#[test]
fn workers_settle(rt: HostRuntime) -> Result<(), Fail> {
    for version in [Version::V1, Version::V2] {
        for workers in [1, 2, 4, 64] {
            let trial = Trial {
                version,
                workers,
                ..PLAIN
            };
            let left = tried(&rt, rt.alloc(), trial)?;
            assert_eq!(rt;
                left.text.as_str(),
                SETTLED,
                "{workers} workers, {version:?}"
            );
        }
    }
    Ok(())
}

// Each read and write of the wires fails once, and each read of a file.
#[test]
fn failures_change_nothing(rt: HostRuntime) -> Result<(), Fail> {
    for round in 0..416 {
        let place = round / 2 + 1;
        let mut trial = PLAIN;
        if round % 2 == 0 {
            trial.version = Version::V1;
        }
        match place {
            201..=206 => trial.scripts = place - 200,
            207 | 208 => trial.profiles = place - 206,
            _ => trial.wires = place,
        }
        let left = tried(&rt, rt.alloc(), trial)?;
        assert_eq!(rt; left.text.as_str(), SETTLED, "{place}");
    }
    Ok(())
}

// The first attempt begins when its script can be read: immediately, or after the delay of a refusal. The
// others come after their back-off. One worker reads the first pod's script first.
#[test]
fn runs_are_recorded_behind_back_off(rt: HostRuntime) -> Result<(), Fail> {
    for (scripts, wanted) in [(0, [0, 10, 30]), (1, [10, 20, 40])] {
        let trial = Trial {
            workers: 1,
            scripts,
            ..PLAIN
        };
        let left = tried(&rt, rt.alloc(), trial)?;
        assert_eq!(rt; left.text.as_str(), SETTLED);
        assert_eq!(rt; left.recorded.as_slice(), wanted.as_slice());
    }
    Ok(())
}

// Settles a node with the most pods, by the most workers, once for each of these reads and writes of the
// wires, which then fails. Returns the first one after which the table at the end differs.
fn unsettled<R: Threads + Wait + Clock + Sync>(
    rt: &R,
    alloc: Global,
    first: u64,
    last: u64,
) -> Result<Option<u64>, Fail> {
    let told = many_told(alloc, 1)?;
    for wires in first..=last {
        let trial = Trial {
            pods: Pods::Many(1),
            workers: 64,
            wires,
            ..PLAIN
        };
        let left = tried(rt, alloc, trial)?;
        if left.text.as_str().strip_prefix("settled, true\n") != Some(told.as_str()) {
            return Ok(Some(wires));
        }
    }
    Ok(None)
}

#[test]
fn many_pods_settle_where_one_of_1_to_50_fails(rt: HostRuntime) -> Result<(), Fail> {
    let found = unsettled(&rt, rt.alloc(), 1, 50)?;
    assert_eq!(rt; found, None);
    Ok(())
}

#[test]
fn many_pods_settle_where_one_of_51_to_100_fails(rt: HostRuntime) -> Result<(), Fail> {
    let found = unsettled(&rt, rt.alloc(), 51, 100)?;
    assert_eq!(rt; found, None);
    Ok(())
}

#[test]
fn many_pods_settle_where_one_of_101_to_150_fails(rt: HostRuntime) -> Result<(), Fail> {
    let found = unsettled(&rt, rt.alloc(), 101, 150)?;
    assert_eq!(rt; found, None);
    Ok(())
}

#[test]
fn many_pods_settle_where_one_of_151_to_200_fails(rt: HostRuntime) -> Result<(), Fail> {
    let found = unsettled(&rt, rt.alloc(), 151, 200)?;
    assert_eq!(rt; found, None);
    Ok(())
}

// A node as full as it can be.
const FULL: Trial = Trial {
    pods: Pods::Many(16),
    workers: 64,
    ..PLAIN
};

#[test]
fn a_full_node_settles(rt: HostRuntime) -> Result<(), Fail> {
    let told = many_told(rt.alloc(), 16)?;
    let left = tried(&rt, rt.alloc(), FULL)?;
    assert_eq!(rt;
        left.text.as_str().strip_prefix("settled, true\n"),
        Some(told.as_str())
    );
    Ok(())
}

#[test]
fn a_full_node_settles_where_many_calls_fail(rt: HostRuntime) -> Result<(), Fail> {
    let told = many_told(rt.alloc(), 16)?;
    let trial = Trial { every: 97, ..FULL };
    let left = tried(&rt, rt.alloc(), trial)?;
    assert_eq!(rt;
        left.text.as_str().strip_prefix("settled, true\n"),
        Some(told.as_str())
    );
    Ok(())
}

// A full part of the history is followed by another, however small a part is: the table at the end is the
// same, and the receipts of the last part match it.
#[test]
fn parts_follow_each_other(rt: HostRuntime) -> Result<(), Fail> {
    for workers in [1, 64] {
        for limit in [3, 4, 7, 100] {
            let trial = Trial {
                limit,
                workers,
                ..PLAIN
            };
            let left = tried(&rt, rt.alloc(), trial)?;
            assert_eq!(rt; left.text.as_str(), SETTLED, "{limit} for {workers}");
        }
    }
    Ok(())
}

// If a part has no room for a claim and its end, neither has a second part, and that stops the crew.
#[test]
fn a_part_without_room_for_a_claim_stops_all(rt: HostRuntime) -> Result<(), Fail> {
    let trial = Trial {
        limit: 1,
        pods: Pods::One,
        ..PLAIN
    };
    let left = tried(&rt, rt.alloc(), trial)?;
    assert!(rt; left.text.as_str().starts_with("full, true\n"));
    Ok(())
}

// Several calls are in flight at the same time: they are made by threads of their own, and under no lock.
#[test]
fn two_calls_are_in_flight(rt: HostRuntime) -> Result<(), Fail> {
    let trial = Trial {
        holds: true,
        ..PLAIN
    };
    let left = tried(&rt, rt.alloc(), trial)?;
    assert_eq!(rt; left.text.as_str(), SETTLED);
    Ok(())
}

// Workers that have nothing to do make no entries: there are those of the admission and of the first claim.
#[test]
fn workers_without_work_wait(rt: HostRuntime) -> Result<(), Fail> {
    let entries = held_up(&rt, rt.alloc(), COUNTED, 100, 0)?;
    assert_eq!(rt; entries.held, 2);
    assert_eq!(rt;
        entries.text.as_str(),
        "settled, true\nPOD default.boot Failed\n  setup Terminated 3 0\n  main Waiting - 0\n"
    );
    Ok(())
}

// By the machine's clock a call that is held up costs one entry per second: there are those of the admission,
// of the claim, and of the moments up to 4.
#[test]
fn a_second_makes_one_entry(rt: HostRuntime) -> Result<(), Fail> {
    let entries = held_up(&rt, rt.alloc(), Pace::Real(Some(4)), 2_500, 0)?;
    assert!(rt; entries.held <= 6, "{}", entries.held);
    Ok(())
}

// After a lost call nothing is due for ten seconds: there are the entries of the admission, of one claim and
// its end, and of at most a few seconds in which the workers begin.
#[test]
fn time_makes_no_entries_where_nothing_is_due(rt: HostRuntime) -> Result<(), Fail> {
    let entries = held_up(&rt, rt.alloc(), Pace::Real(Some(8)), 0, 1)?;
    assert!(rt; entries.all <= 7, "{}", entries.all);
    Ok(())
}
