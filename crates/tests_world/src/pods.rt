use cri_msgs::{Call, Request};
use manifest::{DescendingPath, Pod, PodFault, SeccompProfile};
use node_io::FileFault;
use runtime_core::{Contents, FileAnswers, ReadAs};
use std::alloc::{AllocError, Global};
use sys_table::CallTable;

// The files by their paths: scripts, and profiles.
const FILES: [(&str, &str); 8] = [
    ("ends.json", r#"{"steps":[{"call":"getpid"},{"exit":0}]}"#),
    ("fails.json", r#"{"steps":[{"call":"getpid"},{"exit":3}]}"#),
    (
        "flaky.json",
        r#"{"steps":[{"call":"getpid"},{"exitByAttempt":[1,1,0]}]}"#,
    ),
    (
        "traces.json",
        r#"{"steps":[{"call":"ptrace","onError":5},{"call":"read"},{"exit":0}]}"#,
    ),
    // adds a filter by which getpid returns errno 13
    (
        "adds.json",
        r#"{"steps":[{"call":"getpid"},{"install":[[32,0,0,0],[21,0,1,39],[6,0,0,327693],[6,0,0,2147418112]]},{"call":"getpid","onError":7},{"exit":0}]}"#,
    ),
    (
        "long.json",
        r#"{"steps":[{"call":"read"},{"call":"write"},{"call":"close"},{"call":"read"},{"call":"write"},
{"call":"close"},{"exit":9}]}"#,
    ),
    (
        "no_getpid.json",
        r#"{"defaultAction":"SCMP_ACT_ALLOW","syscalls":[{"names":["getpid"],"action":"SCMP_ACT_ERRNO"}]}"#,
    ),
    (
        "no_seccomp.json",
        r#"{"defaultAction":"SCMP_ACT_ALLOW","syscalls":[{"names":["seccomp"],"action":"SCMP_ACT_ERRNO"}]}"#,
    ),
];

fn file_at<T: ReadAs + Drop>(
    alloc: Global,
    path: &DescendingPath,
) -> Result<Result<Contents<T>, FileFault>, AllocError> {
    for (name, text) in FILES {
        if path.as_str() == name {
            let text = String::from_str(alloc, text)?;
            return Ok(Ok(Contents::new(CallTable::Linux5_8, text.into_bytes())));
        }
    }
    Ok(Err(FileFault::NotFound))
}

// The results of a request's files, if all of them can be read.
pub(crate) fn files_of(alloc: Global, request: &Request) -> Result<FileAnswers, AllocError> {
    let Call::CreateContainer { image, profile, .. } = &request.call else {
        return Ok(no_files());
    };
    let script = file_at(alloc, image)?;
    let profile = match profile {
        SeccompProfile::Localhost(path) => Some(file_at(alloc, path)?),
        _ => None,
    };
    Ok(FileAnswers {
        script: Some(script),
        profile,
    })
}

pub(crate) fn no_files() -> FileAnswers {
    FileAnswers {
        script: None,
        profile: None,
    }
}

// The pod of this name, whose spec has these members.
pub(crate) fn pod_of(alloc: Global, name: &str, spec: &str) -> Result<Pod, PodFault> {
    let text = format!(in alloc;
        "{{\"apiVersion\":\"v1\",\"kind\":\"Pod\",\"metadata\":{{\"name\":\"{name}\"}},\"spec\":{{{spec}}}}}"
    )?;
    manifest::read(alloc, text.as_bytes())
}
