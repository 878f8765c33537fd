use cri_msgs::{Call, MessageFault, Request, Version};
use runner::{LARGE_TEXT, Reader};
use std::alloc::{AllocError, Global};
use std::sync::Wait;
use std::test::Fail;
use std::thread::{Threads, join};

// A request with a field of this many bytes that no request has.
fn text_with(alloc: Global, length: usize) -> Result<Vec<u8>, AllocError> {
    let mut text = String::from_str(
        alloc,
        r#"{"call":"ListContainers","id":7,"uid":"u1","v":1,"x":""#,
    )?;
    for _ in 0..length {
        text.push_str("a")?;
    }
    text.push_str(r#""}"#)?;
    Vec::from_slice(alloc, text.as_bytes())
}

fn is_list(given: &Result<Request, MessageFault>) -> bool {
    match given {
        Ok(request) => request.id == 7 && matches!(&request.call, Call::ListContainers { .. }),
        Err(_) => false,
    }
}

// Reads these texts while a thread works for the reader, then closes it. Returns whether each was read as its
// request, and `other`, which is in another version than the reader asks for, as no message.
fn read_beside<R: Threads + Wait + Sync>(
    rt: &R,
    alloc: Global,
    texts: &[Vec<u8>],
    other: &[u8],
) -> bool {
    let reader = Reader::new();
    let (_, found) = join(
        rt,
        || reader.work(rt, alloc),
        || {
            let mut found = true;
            for text in texts {
                let given = reader.read(rt, alloc, Version::V1, text.as_slice());
                found = found && is_list(&given);
            }
            let refused = reader.read(rt, alloc, Version::V2, other);
            reader.close(rt);
            found && matches!(refused, Err(MessageFault::NoMessage(7)))
        },
    );
    found
}

#[test]
fn large_and_small_texts_are_read(rt: HostRuntime) -> Result<(), Fail> {
    let alloc = rt.alloc();
    let texts = vec![in alloc;
        text_with(alloc, LARGE_TEXT + 1)?,
        text_with(alloc, 1)?,
        text_with(alloc, 2 * LARGE_TEXT)?,
    ]?;
    let other = text_with(alloc, LARGE_TEXT + 1)?;
    assert!(rt; read_beside(&rt, alloc, texts.as_slice(), other.as_slice()));
    Ok(())
}

// Without a thread, and once it is closed.
#[test]
fn a_large_text_is_read_where_no_thread_works(rt: HostRuntime) -> Result<(), Fail> {
    let alloc = rt.alloc();
    let text = text_with(alloc, LARGE_TEXT + 1)?;
    let reader = Reader::new();
    let given = reader.read(&rt, alloc, Version::V1, text.as_slice());
    assert!(rt; is_list(&given));
    reader.close(&rt);
    reader.work(&rt, alloc);
    let given = reader.read(&rt, alloc, Version::V1, text.as_slice());
    assert!(rt; is_list(&given));
    Ok(())
}
