//! The script and the profile that trials share.
use runtime_core::{Contents, FileAnswers, ReadAs};
use std::alloc::Global;
use sys_table::CallTable;

/// A script with a step of each kind.
pub const SCRIPT: &str =
    r#"{"steps":[{"call":"getppid"},{"call":59,"args":[1,2,3],"ip":7,"onError":9},
{"install":[[32,0,0,0],[21,0,1,39],[6,0,0,327693],[6,0,0,2147418112]],"onError":4},{"call":"getpid"},
{"exitByAttempt":[1,0]},{"exit":3}]}"#;

/// A profile with entries of several kinds.
pub const PROFILE: &str =
    r#"{"defaultAction":"SCMP_ACT_ERRNO","defaultErrnoRet":13,"architectures":["SCMP_ARCH_X86_64"],
"syscalls":[
{"names":["read","write","close","getpid"],"action":"SCMP_ACT_ALLOW"},
{"names":["personality"],"action":"SCMP_ACT_LOG","args":[{"index":0,"value":8,"op":"SCMP_CMP_EQ"}]},
{"names":["clone","clone3"],"action":"SCMP_ACT_TRACE","errnoRet":7,"args":[{"index":0,"value":2114060288,
"valueTwo":0,"op":"SCMP_CMP_MASKED_EQ"},{"index":1,"value":9,"op":"SCMP_CMP_GT"}]}]}"#;

fn contents<T: ReadAs + Drop>(alloc: Global, text: &str) -> Option<Contents<T>> {
    let bytes = Vec::from_slice(alloc, text.as_bytes()).ok()?;
    Some(Contents::new(CallTable::Linux5_8, bytes))
}

/// The results of reading the files of any request.
pub fn files(alloc: Global) -> Option<FileAnswers> {
    Some(FileAnswers {
        script: Some(Ok(contents(alloc, SCRIPT)?)),
        profile: Some(Ok(contents(alloc, PROFILE)?)),
    })
}
