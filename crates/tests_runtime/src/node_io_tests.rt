use node_io::{
    FileFault, Files, MemoryFiles, MemoryWire, StoredFile, StreamWire, SystemFiles, Wire,
};
use std::alloc::AllocError;
use std::os::unix::net::UnixStream;
use std::test::Fail;
use std::{env, fs, process};

fn stored(rt: &impl AllocGlobal, path: &str, bytes: &[u8]) -> Result<StoredFile, AllocError> {
    Ok(StoredFile::new(
        String::from_str(rt.alloc(), path)?,
        Vec::from_slice(rt.alloc(), bytes)?,
    ))
}

fn two_files(rt: &impl AllocGlobal) -> Result<MemoryFiles, AllocError> {
    let mut files = Vec::new(rt.alloc());
    files.push(stored(rt, "a.json", b"first")?)?;
    files.push(stored(rt, "b/c.json", b"second")?)?;
    files.push(stored(rt, "a.json", b"never")?)?;
    Ok(MemoryFiles::new(files))
}

// The result of a read, in words, and the count of failures after it.
fn read_text<F: Files>(
    rt: &impl AllocGlobal,
    files: &mut F,
    path: &str,
    limit: u64,
) -> Result<String, Fail> {
    let read = files.read(path, limit);
    let failures = files.failures();
    Ok(match read {
        Ok(bytes) => {
            let text = String::from_utf8(bytes)?;
            format!(in rt.alloc(); "{} {failures}", text.as_str())?
        }
        Err(fault) => format!(in rt.alloc(); "{fault} {failures}")?,
    })
}

#[test]
fn files_in_memory_fail_in_turn(rt: HostRuntime) -> Result<(), Fail> {
    let cases = [
        ("a.json", 5, "first 0", "first 1"),
        ("a.json", 4, "TooLarge 0", "TooLarge 1"),
        ("b/c.json", 6, "second 0", "second 1"),
        ("c.json", 6, "NotFound 0", "NotFound 1"),
        ("", 6, "NotFound 0", "NotFound 1"),
    ];
    for failing in 1..6 {
        let mut files = two_files(&rt)?;
        files.fail_call(failing);
        for (number, (path, limit, before, after)) in cases.into_iter().enumerate() {
            let number = number as u64 + 1;
            let text = read_text(&rt, &mut files, path, limit)?;
            let want = if number < failing {
                before
            } else if number == failing {
                "Failed 1"
            } else {
                after
            };
            assert_eq!(rt; text.as_str(), want, "read {number} with {failing} failing");
        }
    }
    Ok(())
}

#[test]
fn files_of_the_system(rt: HostRuntime) -> Result<(), Fail> {
    let temp = env::temp_dir(&rt)?;
    let folder = format!(in rt.alloc();
        "{}/motchidu_node_io_{}",
        temp.display(),
        process::id(rt.process())
    )?;
    let inner = format!(in rt.alloc(); "{folder}/inner")?;
    let file = format!(in rt.alloc(); "{folder}/inner/five")?;
    fs::create_dir_all(&rt, inner.as_str())?;
    fs::write(&rt, file.as_str(), "12345")?;
    let mut within = SystemFiles::within(&rt, folder.as_str());
    let cases = [
        ("inner/five", 5, "12345 0"),
        ("inner/five", 6, "12345 0"),
        ("inner/five", 4, "TooLarge 0"),
        ("five", 5, "NotFound 0"),
        ("", 5, "NotFound 0"),
        ("/dev/null", 5, "NotFound 0"),
        ("inner/../inner/five", 5, "NotFound 0"),
        ("inner", 5, "Failed 1"),
        ("inner/five/six", 5, "Failed 2"),
        ("inner/five", 5, "12345 2"),
    ];
    for (path, limit, want) in cases {
        let text = read_text(&rt, &mut within, path, limit)?;
        assert_eq!(rt; text.as_str(), want, "{path} up to {limit}");
    }
    let mut anywhere = SystemFiles::anywhere(&rt);
    let roundabout = format!(in rt.alloc(); "{folder}/inner/../inner/five")?;
    let cases = [
        (roundabout.as_str(), "12345 0"),
        ("", "NotFound 0"),
        ("/dev/null", "Failed 1"),
        ("/dev/zero", "Failed 2"),
    ];
    for (path, want) in cases {
        let text = read_text(&rt, &mut anywhere, path, 5)?;
        assert_eq!(rt; text.as_str(), want, "{path}");
    }
    fs::remove_dir_all(&rt, folder.as_str())?;
    Ok(())
}

// Writes all that is offered and reads to the end, and lists the calls: `w` and `r` with a count, and `x` for
// a failure.
fn moved<W: Wire>(
    rt: &impl AllocGlobal,
    wire: &mut W,
    offered: &[u8],
    turns: u64,
) -> Result<String, AllocError> {
    let mut text = String::new(rt.alloc());
    let mut left = offered;
    let mut buf = [0u8; 16];
    for _ in 0..turns {
        let call = if left.is_empty() {
            match wire.read(&mut buf) {
                Ok(count) => format!(in rt.alloc(); "r{count} ")?,
                Err(_) => format!(in rt.alloc(); "x{} ", wire.failures())?,
            }
        } else {
            match wire.write(left) {
                Ok(count) => {
                    left = &left[count..];
                    format!(in rt.alloc(); "w{count} ")?
                }
                Err(_) => format!(in rt.alloc(); "x{} ", wire.failures())?,
            }
        };
        text.push_str(call.as_str())?;
    }
    Ok(text)
}

#[test]
fn wires_in_memory_fail_in_turn(rt: HostRuntime) -> Result<(), Fail> {
    let cases = [
        (0, "w3 w3 w2 r3 r2 r0 r0 "),
        (1, "x1 w3 w3 w2 r3 r2 r0 "),
        (2, "w3 x1 w3 w2 r3 r2 r0 "),
        (3, "w3 w3 x1 w2 r3 r2 r0 "),
        (4, "w3 w3 w2 x1 r3 r2 r0 "),
        (5, "w3 w3 w2 r3 x1 r2 r0 "),
        (6, "w3 w3 w2 r3 r2 x1 r0 "),
    ];
    for (failing, want) in cases {
        let input = Vec::from_slice(rt.alloc(), b"reply")?;
        let mut wire = MemoryWire::new(rt.alloc(), input, 3, 8)?;
        wire.fail_call(failing);
        let text = moved(&rt, &mut wire, b"requests", 7)?;
        assert_eq!(rt; text.as_str(), want, "call {failing} failing");
        assert_eq!(rt; wire.written(), b"requests".as_slice());
    }
    Ok(())
}

#[test]
fn sockets_are_wires(rt: HostRuntime) -> Result<(), Fail> {
    let (near, far) = UnixStream::pair(&rt)?;
    let mut near = StreamWire::new(near);
    let mut far = StreamWire::new(far);
    let text = moved(&rt, &mut near, b"requests", 1)?;
    assert_eq!(rt; text.as_str(), "w8 ");
    let text = moved(&rt, &mut far, b"", 1)?;
    assert_eq!(rt; text.as_str(), "r8 ");
    std::mem::drop(near);
    let text = moved(&rt, &mut far, b"", 1)?;
    assert_eq!(rt; text.as_str(), "r0 ");
    let text = moved(&rt, &mut far, b"reply", 2)?;
    assert_eq!(rt; text.as_str(), "x1 x2 ");
    Ok(())
}
