use crate::plays::Play;
use cri_msgs::Version;
use std::test::Fail;
use worker_pod::Settings;

pub(crate) fn settings(version: Version) -> Settings {
    Settings {
        seccomp_default: false,
        poll: 0,
        version,
    }
}

// A creation whose profile can't be read makes no cell, and may be served again.
const UNREADABLE: &str = r#"admit web=>done
claim 1=>RunPodSandbox
serve 0=>ok
report 1 0=>done
claim 1=>CreateContainer main 0
serve 1 - absent=>13
cell 1=>false
serve 1=>container 1
cell 1=>true
serve 1=>container 1
serve 1 absent absent=>container 1
report 1 2=>done
claim 1=>StartContainer main 0"#;

// The reply to a start is lost, and the request is sent again: the script runs once.
const LOST: &str = r#"admit one=>done
claim 1=>RunPodSandbox
serve 0=>ok
report 1 0=>done
claim 1=>CreateContainer main 0
serve 1=>container 1
report 1 1=>done
claim 1=>StartContainer main 0
serve 2=>ok
lose 1=>done
table=>Unknown, main Waiting 0
step 1=>Running
step 1=>Exited { code: 0, killed: false }
claim 1=>nothing
tick 10=>done
claim 1=>StartContainer main 0
serve 3=>ok
report 1 2=>NoSuchReply
report 1 3=>done
step 1=>Exited { code: 0, killed: false }
claim 1=>ContainerStatus main 0
serve 4=>Exited(0)
report 1 4=>done
claim 1=>nothing
table=>Succeeded, main Terminated 0 1"#;

// A creation that comes after the removal of its sandbox makes nothing.
const LATE: &str = r#"admit one=>done
claim 1=>RunPodSandbox
serve 0=>ok
report 1 0=>done
claim 1=>CreateContainer main 0
lose 1=>done
delete one=>done
tick 10=>done
claim 1=>StopPodSandbox 30
serve 2=>ok
report 1 1=>done
claim 1=>RemovePodSandbox
serve 3=>ok
report 1 2=>done
serve 1=>9
cell 1=>false
serve 0=>9
table=>no pod"#;

// A sandbox that was never seen is removed, and can't be run again.
const NEVER_SEEN: &str = r#"admit one=>done
claim 1=>RunPodSandbox
lose 1=>done
delete one=>done
tick 10=>done
claim 1=>StopPodSandbox 30
serve 1=>ok
report 1 0=>done
claim 1=>RemovePodSandbox
serve 2=>ok
report 1 1=>done
serve 0=>9"#;

// An init container that failed keeps the others from being made.
const BOOT: &str = r#"admit boot=>done
claim 1=>RunPodSandbox
serve 0=>ok
report 1 0=>done
claim 1=>CreateContainer setup 0
serve 1=>container 1
report 1 1=>done
claim 1=>StartContainer setup 0
serve 2=>ok
report 1 2=>done
claim 1=>ContainerStatus setup 0
serve 3=>Running
report 1 3=>done
step 1=>Running
step 1=>Exited { code: 3, killed: false }
claim 1=>ContainerStatus setup 0
serve 4=>Exited(3)
report 1 4=>done
claim 1=>nothing
table=>Failed, setup Terminated 3 1, main Waiting 0"#;

// The same, with the statuses of all containers asked for at once.
const BOOT_BY_LISTS: &str = r#"admit boot=>done
claim 1=>RunPodSandbox
serve 0=>ok
report 1 0=>done
claim 1=>CreateContainer setup 0
serve 1=>container 1
report 1 1=>done
claim 1=>StartContainer setup 0
serve 2=>ok
report 1 2=>done
claim 1=>ContainerStatuses
serve 3=>setup 0 Running
report 1 3=>done
step 1=>Running
step 1=>Exited { code: 3, killed: false }
claim 1=>ContainerStatuses
serve 4=>setup 0 Exited(3)
report 1 4=>done
claim 1=>nothing
table=>Failed, setup Terminated 3 1, main Waiting 0"#;

// A script adds a filter by which its next call is denied; a cell is ended from outside.
const ADDS: &str = r#"admit adds=>done
claim 1=>RunPodSandbox
serve 0=>ok
report 1 0=>done
claim 1=>CreateContainer main 0
serve 1=>container 1
kill 1 137=>Exited { code: 137, killed: true }
report 1 1=>done
claim 1=>StartContainer main 0
serve 2=>ok
report 1 2=>done
claim 1=>ContainerStatus main 0
serve 3=>Exited(137)
report 1 3=>done
claim 1=>nothing
tick 10=>done
claim 1=>RemoveContainer main 0
serve 4=>ok
report 1 4=>done
claim 1=>CreateContainer main 1
serve 5=>container 2
report 1 5=>done
step 1=>NoSuchCell
step 2=>Created
claim 1=>StartContainer main 1
serve 6=>ok
step 2=>Running
step 2=>Running
step 2=>Exited { code: 7, killed: false }
step 2=>Exited { code: 7, killed: false }"#;

// What can't happen changes nothing.
const FAULTS: &str = r#"serve 0=>NoSuchRequest
report 1 0=>NoSuchReply
step 1=>NoSuchCell
kill 1 9=>NoSuchCell
lose 1=>done
admit one=>done
admit two=>done
claim 1=>RunPodSandbox
claim 1=>nothing
claim 2=>RunPodSandbox
serve 2=>NoSuchRequest
report 1 0=>NoSuchReply
serve 1=>ok
report 1 0=>NoSuchReply
report 1 1=>NoSuchReply
report 2 0=>done
report 2 0=>NoSuchReply
serve 0=>ok
serve 0=>ok
report 3 1=>NoSuchReply
report 1 2=>done
claim 3=>CreateContainer main 0"#;

const MAIN: &str = r#""restartPolicy":"Never","containers":[{"name":"main","image":"ends.json"}]"#;

const LOCALHOST: &str = r#""containers":[{"name":"main","image":"ends.json",
"securityContext":{"seccompProfile":{"type":"Localhost","localhostProfile":"no_getpid.json"}}}]"#;

const TWO: &str =
    r#""restartPolicy":"Never","initContainers":[{"name":"setup","image":"fails.json"}],
"containers":[{"name":"main","image":"ends.json"}]"#;

const ADDING: &str = r#""containers":[{"name":"main","image":"adds.json"}]"#;

#[test]
fn events_in_order(rt: HostRuntime) -> Result<(), Fail> {
    let (one, two) = (Version::V1, Version::V2);
    let rows = [
        (UNREADABLE, LOCALHOST, one),
        (LOST, MAIN, one),
        (LATE, MAIN, two),
        (NEVER_SEEN, MAIN, two),
        (BOOT, TWO, one),
        (BOOT_BY_LISTS, TWO, two),
        (ADDS, ADDING, one),
        (FAULTS, MAIN, two),
    ];
    for (text, spec, version) in rows {
        let mut play = Play::new(rt.alloc(), settings(version));
        for row in text.lines() {
            let (line, want) = row.split_once("=>").unwrap_or((row, ""));
            let told = play.does(line, spec)?;
            assert_eq!(rt; told.as_str(), want, "{row}");
        }
    }
    Ok(())
}
