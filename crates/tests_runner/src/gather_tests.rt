use cri_msgs::{Request, Version};
use node_io::{Files, MAX_FILE_BYTES, MemoryFiles, StoredFile};
use runner::gather;
use runtime_core::{FileAnswer, FileAnswers, ReadAs};
use std::alloc::{AllocError, Global};
use std::test::Fail;

// A folder of files. Two are as long as a file may be, and one byte longer.
fn folder(alloc: Global, fails: bool) -> Result<MemoryFiles, AllocError> {
    let mut stored = Vec::new(alloc);
    for (path, length) in [
        ("a", 3),
        ("b", 4),
        ("full", MAX_FILE_BYTES),
        ("long", MAX_FILE_BYTES + 1),
    ] {
        let path = String::from_str(alloc, path)?;
        let bytes = vec![in alloc; b'x'; length as usize]?;
        stored.push(StoredFile::new(path, bytes))?;
    }
    let mut files = MemoryFiles::new(stored);
    if fails {
        files.fail_call(1);
    }
    Ok(files)
}

fn request(alloc: Global, members: &str) -> Result<Request, Fail> {
    let text = format!(in alloc;
        "{{\"v\":2,\"id\":1,\"uid\":\"u1\",\"name\":\"a\",\"attempt\":0,\"grace\":1,{members}}}"
    )?;
    match Request::read(alloc, Version::V2, text.as_bytes()) {
        Ok(request) => Ok(request),
        Err(_) => Err("a request")?,
    }
}

// How many bytes a read returned, or its fault.
fn read_text<T: ReadAs + Drop>(
    alloc: Global,
    answer: &FileAnswer<T>,
) -> Result<String, AllocError> {
    match answer {
        None => String::from_str(alloc, "none"),
        Some(Ok(contents)) => format!(in alloc; "{}", contents.as_slice().len()),
        Some(Err(fault)) => format!(in alloc; "{fault}"),
    }
}

// The results for the script and the profile.
fn both_texts(alloc: Global, answers: &FileAnswers) -> Result<String, AllocError> {
    let script = read_text(alloc, &answers.script)?;
    let profile = read_text(alloc, &answers.profile)?;
    format!(in alloc; "{} {}", script.as_str(), profile.as_str())
}

// The results of a request with these members from these folders.
fn answered(
    alloc: Global,
    members: &str,
    scripts: &mut MemoryFiles,
    profiles: &mut MemoryFiles,
) -> Result<String, Fail> {
    let request = request(alloc, members)?;
    let answers = gather(scripts, profiles, &request);
    Ok(both_texts(alloc, &answers)?)
}

// The results for the script and the profile, and how many reads failed by request.
fn gathered(alloc: Global, members: &str, fails: bool) -> Result<String, Fail> {
    let mut scripts = folder(alloc, fails)?;
    let mut profiles = folder(alloc, fails)?;
    let texts = answered(alloc, members, &mut scripts, &mut profiles)?;
    let (first, second) = (scripts.failures(), profiles.failures());
    Ok(format!(in alloc; "{} {first} {second}", texts.as_str())?)
}

// What a request asks for besides its key, the results of its files, and the results if each folder's first
// read fails.
const ROWS: [(&str, &str, &str); 9] = [
    (
        "\"call\":\"RunPodSandbox\"",
        "none none 0 0",
        "none none 0 0",
    ),
    (
        "\"call\":\"StartContainer\"",
        "none none 0 0",
        "none none 0 0",
    ),
    (
        "\"call\":\"ContainerStatuses\"",
        "none none 0 0",
        "none none 0 0",
    ),
    (
        "\"call\":\"CreateContainer\",\"image\":\"a\",\"profile\":{\"type\":\"Unconfined\"}",
        "3 none 0 0",
        "Failed none 1 0",
    ),
    (
        "\"call\":\"CreateContainer\",\"image\":\"b\",\"profile\":{\"type\":\"RuntimeDefault\"}",
        "4 none 0 0",
        "Failed none 1 0",
    ),
    (
        "\"call\":\"CreateContainer\",\"image\":\"a\",\"profile\":{\"type\":\"Localhost\",\"path\":\"b\"}",
        "3 4 0 0",
        "Failed Failed 1 1",
    ),
    (
        "\"call\":\"CreateContainer\",\"image\":\"none\",\"profile\":{\"type\":\"Localhost\",\"path\":\"a\"}",
        "NotFound 3 0 0",
        "Failed Failed 1 1",
    ),
    (
        "\"call\":\"CreateContainer\",\"image\":\"a\",\"profile\":{\"type\":\"Localhost\",\"path\":\"none\"}",
        "3 NotFound 0 0",
        "Failed Failed 1 1",
    ),
    (
        "\"call\":\"CreateContainer\",\"image\":\"long\",\
         \"profile\":{\"type\":\"Localhost\",\"path\":\"full\"}",
        "TooLarge 1048576 0 0",
        "Failed Failed 1 1",
    ),
];

#[test]
fn files_are_gathered(rt: HostRuntime) -> Result<(), Fail> {
    for (members, want, failed) in ROWS {
        let found = gathered(rt.alloc(), members, false)?;
        assert_eq!(rt; found.as_str(), want, "{members}");
        let found = gathered(rt.alloc(), members, true)?;
        assert_eq!(rt; found.as_str(), failed, "{members}");
    }
    Ok(())
}
