use crate::memory_disk::MemoryDisk;
use crate::whole_file::put_whole;
use node_io::{Cause, CausedFault};
use std::alloc::{AllocError, Global};

const OLD: &[u8] = b"the old bytes";

const NEW: &[u8] = b"new";

// A disk with a file `f`, and beside it one that another run left.
fn disk(alloc: Global) -> Result<MemoryDisk, AllocError> {
    let mut disk = MemoryDisk::new(alloc);
    disk.put("f", OLD)?;
    disk.put("f.new0", b"left")?;
    Ok(disk)
}

#[test]
fn a_file_is_replaced(rt: HostRuntime) -> Result<(), CausedFault> {
    let mut disk = disk(rt.alloc())?;
    put_whole(rt.alloc(), &mut disk, "f", NEW)?;
    assert!(rt; disk.read("f") == Some(NEW));
    assert!(rt; disk.read("f.new0") == Some(b"left"));
    assert!(rt; disk.count() == 2);
    put_whole(rt.alloc(), &mut disk, "g", NEW)?;
    assert!(rt; disk.read("g") == Some(NEW));
    assert!(rt; disk.count() == 3);
    Ok(())
}

// The first call writes and the second one renames. After a fault the third one removes the new file.
#[test]
fn a_fault_leaves_the_old_file(rt: HostRuntime) -> Result<(), CausedFault> {
    for call in 1..=2u64 {
        let mut disk = disk(rt.alloc())?;
        disk.fail_call(call);
        let put = put_whole(rt.alloc(), &mut disk, "f", NEW);
        assert!(rt;
            put == Err(CausedFault::failed(Cause::Device)),
            "call {call}"
        );
        assert!(rt; disk.read("f") == Some(OLD), "call {call}");
        assert!(rt; disk.read("f.new0") == Some(b"left"), "call {call}");
        assert!(rt; disk.count() == 2, "call {call}");
    }
    Ok(())
}

// EEXIST
#[test]
fn all_names_are_taken(rt: HostRuntime) -> Result<(), CausedFault> {
    let mut disk = disk(rt.alloc())?;
    for number in 1..100u32 {
        let name = format!(in rt.alloc(); "f.new{number}")?;
        disk.put(name.as_str(), b"left")?;
    }
    let put = put_whole(rt.alloc(), &mut disk, "f", NEW);
    assert!(rt; put == Err(CausedFault::failed(Cause::Number(17))));
    assert!(rt; disk.read("f") == Some(OLD));
    assert!(rt; disk.count() == 101);
    Ok(())
}
