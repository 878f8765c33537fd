use crate::runtime_play::{Play, files_of, no_getpid, reply_text, request_of, wanted};
use registry::RemovedCells;
use runtime_core::{Cells, Registry, Stage};
use std::alloc::Global;
use std::test::Fail;

// Cells by their ids.
const IDS: &str = r#"RunPodSandbox u1=>ok
RunPodSandbox u2=>ok
next 0=>None
CreateContainer u1 a 0 a.json open short=>{"container":1}
CreateContainer u2 a 0 a.json open short=>{"container":2}
CreateContainer u1 b 0 a.json open absent=>13
CreateContainer u1 b 0 a.json open short=>{"container":3}
CreateContainer u2 b 0 a.json open short=>{"container":4}
next 0=>Some(1)
next 1=>Some(2)
next 2=>Some(3)
next 3=>Some(4)
next 4=>None
next 18446744073709551615=>None
StartContainer u1 a 0=>ok
StartContainer u2 a 0=>ok
StartContainer u1 b 0=>ok
step 2=>Some(Performed)
record 1=>
record 2=>39 Allow 0 done
record 3=>
record 4=>
cell 4=>b 0 Created
kill 3 9=>true
cell 3=>b 0 Exited { code: 9, killed: true }
cell 1=>a 0 Running
cell 2=>a 0 Running
cell 4=>b 0 Created
kill 3 8=>true
cell 3=>b 0 Exited { code: 9, killed: true }
step 3=>Some(Idle)
ContainerStatus u1 b 0=>{"denied":0,"exit":9,"performed":0,"state":"EXITED"}
kill 4 0=>true
cell 4=>b 0 Exited { code: 0, killed: true }
StartContainer u2 b 0=>ok
step 4=>Some(Idle)
RemoveContainer u1 a 0=>ok
next 0=>Some(2)
cell 1=>none
step 1=>None
kill 1 9=>false
step 2=>Some(Ended(3))
cell 2=>a 0 Exited { code: 3, killed: false }
RemovePodSandbox u2=>ok
next 0=>Some(3)
next 3=>None
cell 2=>none
step 4=>None
kill 4 9=>false
cell 3=>b 0 Exited { code: 9, killed: true }
step 0=>None
cell 0=>none
kill 5 9=>false
CreateContainer u1 c 0 a.json open short=>{"container":5}
next 3=>Some(5)"#;

// What is listed, and in which order.
const LISTS: &str = r#"RunPodSandbox u1=>ok
RunPodSandbox u2=>ok
CreateContainer u1 b 0 a.json open short=>{"container":1}
CreateContainer u1 a 10 a.json open short=>{"container":2}
CreateContainer u1 a-b 0 a.json open short=>{"container":3}
CreateContainer u2 a 7 a.json open short=>{"container":4}
CreateContainer u1 a 2 a.json open short=>{"container":5}
CreateContainer u1 c 0 a.json open short=>{"container":6}
StartContainer u1 a 10=>ok
step 2=>Some(Performed)
StartContainer u1 b 0=>ok
ends 1=>Some(Ended(3))
RemoveContainer u1 c 0=>ok
ListContainers u1=>{"containers":[{"attempt":2,"name":"a","state":"CREATED"},{"attempt":10,"name":"a","state":"RUNNING"},{"attempt":0,"name":"a-b","state":"CREATED"},{"attempt":0,"name":"b","state":"EXITED"}]}
ContainerStatuses u1=>{"statuses":[{"attempt":2,"denied":0,"exit":null,"name":"a","performed":0,"state":"CREATED"},{"attempt":10,"denied":0,"exit":null,"name":"a","performed":1,"state":"RUNNING"},{"attempt":0,"denied":0,"exit":null,"name":"a-b","performed":0,"state":"CREATED"},{"attempt":0,"denied":0,"exit":3,"name":"b","performed":1,"state":"EXITED"}]}
ListContainers u2=>{"containers":[{"attempt":7,"name":"a","state":"CREATED"}]}
ContainerStatuses u2=>{"statuses":[{"attempt":7,"denied":0,"exit":null,"name":"a","performed":0,"state":"CREATED"}]}
ListContainers u3=>{"containers":[]}
ContainerStatuses u3=>{"statuses":[]}
RemovePodSandbox u1=>ok
ListContainers u1=>{"containers":[]}
ContainerStatuses u1=>{"statuses":[]}
ListContainers u2=>{"containers":[{"attempt":7,"name":"a","state":"CREATED"}]}"#;

// What is performed on a node with no filter of its own.
const BARE: &str = r#"RunPodSandbox u1=>ok
CreateContainer u1 a 0 a.json open calls=>{"container":1}
StartContainer u1 a 0=>ok
ends 1=>Some(Ended(5))
record 1=>39 Allow 0 done, 110 Allow 0 done, 101 Allow 0 done, 0 Allow 0 done
CreateContainer u1 b 0 a.json p.json calls no_getppid=>{"container":2}
StartContainer u1 b 0=>ok
ends 2=>Some(Ended(5))
record 2=>39 Allow 0 done, 110 Errno 13 denied, 101 Allow 0 done, 0 Allow 0 done"#;

#[test]
fn cells(rt: HostRuntime) -> Result<(), Fail> {
    for text in [IDS, LISTS, BARE] {
        let mut play = Play::new(rt.alloc(), None);
        for row in text.lines() {
            play.plays(&rt, row, 1)?;
        }
    }
    Ok(())
}

// The filters of a start: the node's own denies `getpid` (39), those of profiles `getppid` (110) and, in its
// turn, `getpid`; RuntimeDefault denies `ptrace` (101). If two filters differ only in their data, the newer
// one's counts.
const FILTERS: &str = r#"RunPodSandbox u1=>ok
CreateContainer u1 a 0 a.json open calls=>{"container":1}
StartContainer u1 a 0=>ok
ends 1=>Some(Ended(5))
record 1=>39 Errno 1 denied, 110 Allow 0 done, 101 Allow 0 done, 0 Allow 0 done
CreateContainer u1 b 0 a.json p.json calls no_getppid=>{"container":2}
StartContainer u1 b 0=>ok
ends 2=>Some(Ended(5))
record 2=>39 Errno 1 denied, 110 Errno 13 denied, 101 Allow 0 done, 0 Allow 0 done
ContainerStatus u1 b 0=>{"denied":2,"exit":5,"performed":2,"state":"EXITED"}
CreateContainer u1 c 0 a.json default calls=>{"container":3}
StartContainer u1 c 0=>ok
ends 3=>Some(Ended(5))
record 3=>39 Errno 1 denied, 110 Allow 0 done, 101 Errno 1 denied, 0 Allow 0 done
CreateContainer u1 d 0 a.json p.json calls no_getpid=>{"container":4}
StartContainer u1 d 0=>ok
ends 4=>Some(Ended(5))
record 4=>39 Errno 7 denied, 110 Allow 0 done, 101 Allow 0 done, 0 Allow 0 done"#;

#[test]
fn filters(rt: HostRuntime) -> Result<(), Fail> {
    let mut play = Play::new(rt.alloc(), Some(no_getpid(rt.alloc())?));
    for row in FILTERS.lines() {
        play.plays(&rt, row, 1)?;
    }
    Ok(())
}

// Sends a request to a registry with this list, and returns whether the answer is the one that is wanted.
fn is_answered(
    alloc: Global,
    registry: &mut Registry,
    cells: &mut Cells,
    row: &str,
) -> Result<bool, Fail> {
    let (line, want) = row.split_once("=>").unwrap_or((row, ""));
    let files = files_of(alloc, line)?;
    let request = request_of(alloc, 1, line)?;
    let mut gone = RemovedCells::new(alloc);
    let reply = registry.serve_lent(cells, &mut gone, request, files);
    let told = reply_text(alloc, &reply)?;
    let want = wanted(alloc, 1, want)?;
    Ok(told.as_str() == want.as_str())
}

const LENT: &str = r#"RunPodSandbox u1=>ok
CreateContainer u1 a 0 a.json open short=>{"container":1}
CreateContainer u1 b 0 a.json open short=>{"container":2}
StartContainer u1 b 0=>ok"#;

// After a stop with another list: what was made is there, and can't be started any more.
const STOPPED: &str = r#"StartContainer u1 a 0=>9
StartContainer u1 b 0=>ok
CreateContainer u1 a 0 a.json open=>{"container":1}
CreateContainer u1 c 0 a.json open short=>9
ListContainers u1=>{"containers":[{"attempt":0,"name":"a","state":"CREATED"},{"attempt":0,"name":"b","state":"RUNNING"}]}"#;

#[test]
fn lent_lists(rt: HostRuntime) -> Result<(), Fail> {
    let alloc = rt.alloc();
    let mut registry = Registry::new(alloc, None);
    let mut cells = Cells::new(alloc);
    let mut other = Cells::new(alloc);
    for row in LENT.lines() {
        assert!(rt;
            is_answered(alloc, &mut registry, &mut cells, row)?,
            "{row}"
        );
    }
    assert!(rt; is_answered(alloc, &mut registry, &mut other, "StopPodSandbox u1 0=>ok")?);
    for row in STOPPED.lines() {
        assert!(rt;
            is_answered(alloc, &mut registry, &mut cells, row)?,
            "{row}"
        );
    }
    assert_eq!(rt; registry.stage("u1"), Stage::Live { ready: false });
    assert_eq!(rt; registry.stage("u2"), Stage::Unknown);
    assert_eq!(rt; cells.as_slice().len(), 2);
    assert_eq!(rt; (registry.next_id(0), registry.next_id(2)), (Some(1), None));
    assert!(rt; matches!(registry.home(2), Some(uid) if uid == "u1"));
    Ok(())
}
