use crate::runtime_play::Play;
use std::test::Fail;

// A sandbox with 1,024 cells.
const CROWD: &str = r#"CreateContainer u1 a 1024 a.json open absent=>8
CreateContainer u1 a 7 a.json open=>{"container":8}
CreateContainer u1 a 7 b.json open=>6
StopContainer u1 a 7 0=>ok
CreateContainer u1 a 1024 a.json open short=>8
RemoveContainer u1 a 7=>ok
CreateContainer u1 a 7 a.json open short=>9
CreateContainer u1 a 1024 a.json open short=>{"container":1025}
CreateContainer u1 a 1025 a.json open short=>8
RunPodSandbox u2=>ok
CreateContainer u2 a 0 a.json open short=>{"container":1026}"#;

#[test]
fn the_cells_of_a_sandbox(rt: HostRuntime) -> Result<(), Fail> {
    let mut play = Play::new(rt.alloc(), None);
    play.plays(&rt, "RunPodSandbox u1=>ok", 1)?;
    for made in 0u32..1_024 {
        let id = made + 1;
        let row = format!(in rt.alloc();
            "CreateContainer u1 a {made} a.json open short=>{{\"container\":{id}}}"
        )?;
        play.plays(&rt, row.as_str(), 1)?;
    }
    for row in CROWD.lines() {
        play.plays(&rt, row, 1)?;
    }
    Ok(())
}

// A sandbox with 65,536 former attempts, all removed.
const USED: &str = r#"ListContainers u1=>{"containers":[]}
CreateContainer u1 a 65536 a.json open absent=>8
CreateContainer u1 a 65536 a.json open short=>8
CreateContainer u1 a 65535 a.json open short=>9
RunPodSandbox u2=>ok
CreateContainer u2 a 0 a.json open short=>{"container":65537}"#;

#[test]
fn the_keys_of_a_sandbox(rt: HostRuntime) -> Result<(), Fail> {
    let mut play = Play::new(rt.alloc(), None);
    play.plays(&rt, "RunPodSandbox u1=>ok", 1)?;
    for attempt in 0u32..65_536 {
        let id = u64::from(attempt) + 1;
        assert_eq!(rt; play.makes(attempt)?, Some(id));
        assert!(rt; play.removes(attempt)?, "{attempt}");
    }
    for row in USED.lines() {
        play.plays(&rt, row, 1)?;
    }
    Ok(())
}

// A runtime that knows 65,536 uids.
const FULL: &str = r#"RunPodSandbox u65536=>8
RemovePodSandbox u65536=>8
RemovePodSandbox u1=>ok
RunPodSandbox u1=>9
StopPodSandbox u65536 0=>ok
CreateContainer u65536 a 0 a.json open short=>5"#;

#[test]
fn the_uids_of_a_runtime(rt: HostRuntime) -> Result<(), Fail> {
    let mut play = Play::new(rt.alloc(), None);
    for known in 0u32..65_536 {
        assert!(rt; play.buries(known)?, "{known}");
    }
    for row in FULL.lines() {
        play.plays(&rt, row, 1)?;
    }
    Ok(())
}
