use crate::runtime_play::Play;
use std::test::Fail;

// The calls of a sandbox, of uids that are unknown, there or removed.
const PODS: &str = r#"RunPodSandbox u1=>ok
RunPodSandbox u1=>ok
StopPodSandbox u1 30=>ok
RunPodSandbox u1=>9
RemovePodSandbox u1=>ok
RunPodSandbox u1=>9
StopPodSandbox u1 0=>ok
RemovePodSandbox u1=>ok
StopPodSandbox u2 30=>ok
RunPodSandbox u2=>ok
CreateContainer u2 a 0 a.json open short=>{"container":1}
CreateContainer u2 b 0 a.json open short=>{"container":2}
CreateContainer u2 c 0 a.json open short=>{"container":3}
StartContainer u2 b 0=>ok
StartContainer u2 c 0=>ok
ends 3=>Some(Ended(3))
StopPodSandbox u2 1=>ok
ContainerStatuses u2=>{"statuses":[{"attempt":0,"denied":0,"exit":143,"name":"a","performed":0,"state":"EXITED"},{"attempt":0,"denied":0,"exit":143,"name":"b","performed":0,"state":"EXITED"},{"attempt":0,"denied":0,"exit":3,"name":"c","performed":1,"state":"EXITED"}]}
StopPodSandbox u2 0=>ok
ContainerStatuses u2=>{"statuses":[{"attempt":0,"denied":0,"exit":143,"name":"a","performed":0,"state":"EXITED"},{"attempt":0,"denied":0,"exit":143,"name":"b","performed":0,"state":"EXITED"},{"attempt":0,"denied":0,"exit":3,"name":"c","performed":1,"state":"EXITED"}]}
step 2=>Some(Idle)
RunPodSandbox u3=>ok
CreateContainer u3 a 0 a.json open short=>{"container":4}
CreateContainer u3 b 0 a.json open short=>{"container":5}
StartContainer u3 b 0=>ok
StopPodSandbox u3 0=>ok
ContainerStatuses u3=>{"statuses":[{"attempt":0,"denied":0,"exit":137,"name":"a","performed":0,"state":"EXITED"},{"attempt":0,"denied":0,"exit":137,"name":"b","performed":0,"state":"EXITED"}]}
RemovePodSandbox u2=>ok
RemovePodSandbox u2=>ok
RunPodSandbox u2=>9
cell 1=>none
step 2=>None
kill 3 0=>false
next 0=>Some(4)
ContainerStatus u2 a 0=>5
ListContainers u2=>{"containers":[]}
RemovePodSandbox u4=>ok
RunPodSandbox u4=>9
RemovePodSandbox u4=>ok
RunPodSandbox u5=>ok
CreateContainer u5 a 0 a.json open short=>{"container":6}
StartContainer u5 a 0=>ok
RemovePodSandbox u5=>ok
step 6=>None
cell 6=>none
next 4=>Some(5)
next 5=>None"#;

// Creations, with files that are not asked for.
const CREATIONS: &str = r#"RemovePodSandbox u1=>ok
CreateContainer u1 a 0 a.json open absent=>9
CreateContainer u2 a 0 a.json open absent=>5
RunPodSandbox u2=>ok
CreateContainer u2 a 0 a.json open short=>{"container":1}
cell 1=>a 0 Created
CreateContainer u2 a 0 a.json open absent=>{"container":1}
CreateContainer u2 a 0 b.json open short=>6
CreateContainer u2 a 0 a.json default short=>6
CreateContainer u2 a 0 a.json p.json short no_getppid=>6
CreateContainer u2 p 4294967295 a.json p.json short no_getppid=>{"container":2}
CreateContainer u2 p 4294967295 a.json p.json=>{"container":2}
CreateContainer u2 p 4294967295 a.json q.json short no_getppid=>6
CreateContainer u2 p 4294967295 a.json open short=>6
CreateContainer u2 p 4294967295 a.json default short=>6
CreateContainer u2 d 0 a.json default short=>{"container":3}
CreateContainer u2 d 0 a.json default=>{"container":3}
CreateContainer u2 d 0 a.json open short=>6
CreateContainer u2 d 0 a.json p.json short no_getppid=>6
StartContainer u2 d 0=>ok
CreateContainer u2 d 0 a.json default=>{"container":3}
StopContainer u2 d 0 0=>ok
CreateContainer u2 d 0 a.json default=>{"container":3}
RemoveContainer u2 d 0=>ok
CreateContainer u2 d 0 a.json default short=>9
CreateContainer u2 d 1 a.json default short=>{"container":4}
StopPodSandbox u2 30=>ok
CreateContainer u2 a 0 a.json open=>{"container":1}
CreateContainer u2 a 0 b.json open=>6
CreateContainer u2 d 0 a.json default short=>9
CreateContainer u2 e 0 a.json open absent=>9
CreateContainer u2 e 0 a.json open short=>9
ContainerStatus u2 e 0=>5
RunPodSandbox u3=>ok
CreateContainer u3 a 0 a.json open short=>{"container":5}
RemovePodSandbox u3=>ok
CreateContainer u3 a 0 a.json open short=>9
next 4=>None"#;

// The other calls of a container, of keys that were never made, are there or gone.
const CONTAINERS: &str = r#"RemovePodSandbox u1=>ok
StartContainer u1 a 0=>9
StartContainer u2 a 0=>5
StopContainer u1 a 0 0=>ok
StopContainer u2 a 0 0=>ok
RemoveContainer u1 a 0=>ok
RemoveContainer u2 a 0=>ok
ContainerStatus u1 a 0=>5
ContainerStatus u2 a 0=>5
ListContainers u1=>{"containers":[]}
ListContainers u2=>{"containers":[]}
ContainerStatuses u1=>{"statuses":[]}
ContainerStatuses u2=>{"statuses":[]}
RunPodSandbox u2=>ok
ListContainers u2=>{"containers":[]}
ContainerStatuses u2=>{"statuses":[]}
StartContainer u2 a 0=>5
StopContainer u2 a 0 0=>ok
RemoveContainer u2 a 0=>ok
ContainerStatus u2 a 0=>5
CreateContainer u2 a 0 a.json default calls=>{"container":1}
ContainerStatus u2 a 0=>{"denied":0,"exit":null,"performed":0,"state":"CREATED"}
step 1=>Some(Idle)
StartContainer u2 a 0=>ok
step 1=>Some(Performed)
ContainerStatus u2 a 0=>{"denied":0,"exit":null,"performed":1,"state":"RUNNING"}
StartContainer u2 a 0=>ok
step 1=>Some(Performed)
step 1=>Some(Denied(Verdict { action: Errno, ret_data: 1 }))
ContainerStatus u2 a 0=>{"denied":1,"exit":null,"performed":2,"state":"RUNNING"}
ends 1=>Some(Ended(5))
ContainerStatus u2 a 0=>{"denied":1,"exit":5,"performed":3,"state":"EXITED"}
StartContainer u2 a 0=>ok
step 1=>Some(Idle)
StopContainer u2 a 0 0=>ok
ContainerStatus u2 a 0=>{"denied":1,"exit":5,"performed":3,"state":"EXITED"}
CreateContainer u2 b 0 a.json open short=>{"container":2}
StopContainer u2 b 0 0=>ok
ContainerStatus u2 b 0=>{"denied":0,"exit":137,"performed":0,"state":"EXITED"}
CreateContainer u2 b 1 a.json open short=>{"container":3}
StopContainer u2 b 1 1=>ok
ContainerStatus u2 b 1=>{"denied":0,"exit":143,"performed":0,"state":"EXITED"}
StopContainer u2 b 1 0=>ok
ContainerStatus u2 b 1=>{"denied":0,"exit":143,"performed":0,"state":"EXITED"}
StartContainer u2 b 1=>ok
step 3=>Some(Idle)
ContainerStatus u2 b 1=>{"denied":0,"exit":143,"performed":0,"state":"EXITED"}
CreateContainer u2 b 2 a.json open short=>{"container":4}
StartContainer u2 b 2=>ok
step 4=>Some(Performed)
StopContainer u2 b 2 18446744073709551615=>ok
ContainerStatus u2 b 2=>{"denied":0,"exit":143,"performed":1,"state":"EXITED"}
CreateContainer u2 b 3 a.json open short=>{"container":5}
StartContainer u2 b 3=>ok
StopContainer u2 b 3 0=>ok
ContainerStatus u2 b 3=>{"denied":0,"exit":137,"performed":0,"state":"EXITED"}
RemoveContainer u2 a 0=>ok
ContainerStatus u2 a 0=>5
cell 1=>none
step 1=>None
StartContainer u2 a 0=>9
StopContainer u2 a 0 0=>ok
RemoveContainer u2 a 0=>ok
CreateContainer u2 a 0 a.json default calls=>9
CreateContainer u2 c 0 a.json open short=>{"container":6}
RemoveContainer u2 c 0=>ok
cell 6=>none
CreateContainer u2 c 0 a.json open short=>9
CreateContainer u2 c 1 a.json open short=>{"container":7}
StartContainer u2 c 1=>ok
RemoveContainer u2 c 1=>ok
step 7=>None
StartContainer u2 c 1=>9
StopPodSandbox u2 0=>ok
StartContainer u2 b 0=>ok
StartContainer u2 a 0=>9
StartContainer u2 z 0=>5
ContainerStatus u2 b 0=>{"denied":0,"exit":137,"performed":0,"state":"EXITED"}
ListContainers u2=>{"containers":[{"attempt":0,"name":"b","state":"EXITED"},{"attempt":1,"name":"b","state":"EXITED"},{"attempt":2,"name":"b","state":"EXITED"},{"attempt":3,"name":"b","state":"EXITED"}]}"#;

// Requests that are sent again, or late.
const RESENT: &str = r#"RunPodSandbox u1=>ok
CreateContainer u1 main 0 a.json p.json short absent=>13
ListContainers u1=>{"containers":[]}
CreateContainer u1 main 0 a.json p.json short no_getppid=>{"container":1}
CreateContainer u1 main 0 a.json p.json short no_getppid=>{"container":1}
CreateContainer u1 main 0 b.json p.json short no_getppid=>6
ListContainers u1=>{"containers":[{"attempt":0,"name":"main","state":"CREATED"}]}
StartContainer u1 main 0=>ok
step 1=>Some(Performed)
StartContainer u1 main 0=>ok
step 1=>Some(Ended(3))
StartContainer u1 main 0=>ok
record 1=>39 Allow 0 done
RemovePodSandbox u1=>ok
CreateContainer u1 main 1 a.json open short=>9
RemovePodSandbox u2=>ok
RunPodSandbox u2=>9"#;

// The results of reading the files.
const FILES: &str = r#"RunPodSandbox u1=>ok
CreateContainer u1 a 0 a.json open=>13
CreateContainer u1 a 0 a.json open absent=>13
CreateContainer u1 a 0 a.json open large=>13
CreateContainer u1 a 0 a.json open failed=>13
CreateContainer u1 a 0 a.json open memory=>14
CreateContainer u1 a 0 a.json open junk=>3
CreateContainer u1 a 0 a.json open {}=>3
CreateContainer u1 a 0 a.json p.json short=>13
CreateContainer u1 a 0 a.json p.json short absent=>13
CreateContainer u1 a 0 a.json p.json short large=>13
CreateContainer u1 a 0 a.json p.json short failed=>13
CreateContainer u1 a 0 a.json p.json short memory=>14
CreateContainer u1 a 0 a.json p.json short junk=>3
CreateContainer u1 a 0 a.json p.json short {}=>3
CreateContainer u1 a 0 a.json p.json short heavy=>3
CreateContainer u1 a 0 a.json p.json absent memory=>13
CreateContainer u1 a 0 a.json p.json memory absent=>14
CreateContainer u1 a 0 a.json p.json junk absent=>3
CreateContainer u1 a 0 a.json default absent=>13
ListContainers u1=>{"containers":[]}
ContainerStatus u1 a 0=>5
next 0=>None
CreateContainer u1 a 0 a.json p.json short light=>{"container":1}
CreateContainer u1 a 1 a.json open short absent=>{"container":2}
CreateContainer u1 a 2 a.json default short absent=>{"container":3}
ListContainers u1=>{"containers":[{"attempt":0,"name":"a","state":"CREATED"},{"attempt":1,"name":"a","state":"CREATED"},{"attempt":2,"name":"a","state":"CREATED"}]}"#;

#[test]
fn calls(rt: HostRuntime) -> Result<(), Fail> {
    for text in [PODS, CREATIONS, CONTAINERS, RESENT, FILES] {
        let mut play = Play::new(rt.alloc(), None);
        for row in text.lines() {
            play.plays(&rt, row, 1)?;
        }
    }
    Ok(())
}

// Each request three times in a row.
const THRICE: &str = r#"RunPodSandbox u1=>ok
CreateContainer u1 a 0 a.json open short=>{"container":1}
CreateContainer u1 b 0 a.json open absent=>13
StartContainer u1 a 0=>ok
ContainerStatus u1 a 0=>{"denied":0,"exit":null,"performed":0,"state":"RUNNING"}
ListContainers u1=>{"containers":[{"attempt":0,"name":"a","state":"RUNNING"}]}
ContainerStatuses u1=>{"statuses":[{"attempt":0,"denied":0,"exit":null,"name":"a","performed":0,"state":"RUNNING"}]}
StopContainer u1 a 0 30=>ok
ContainerStatus u1 a 0=>{"denied":0,"exit":143,"performed":0,"state":"EXITED"}
StartContainer u1 a 0=>ok
RemoveContainer u1 a 0=>ok
CreateContainer u1 a 0 a.json open short=>9
StartContainer u1 a 0=>9
StopContainer u1 a 0 30=>ok
ContainerStatus u1 a 0=>5
StopPodSandbox u1 30=>ok
RunPodSandbox u1=>9
RemovePodSandbox u1=>ok
RunPodSandbox u1=>9
CreateContainer u1 a 0 a.json open short=>9
RemovePodSandbox u2=>ok
RunPodSandbox u2=>9
next 0=>None"#;

#[test]
fn requests_sent_three_times(rt: HostRuntime) -> Result<(), Fail> {
    let mut play = Play::new(rt.alloc(), None);
    for row in THRICE.lines() {
        play.plays(&rt, row, 3)?;
    }
    Ok(())
}
