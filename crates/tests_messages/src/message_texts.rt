use cri_msgs::*;
use std::alloc::Global;

// Helpers of the tests of messages. None owns two messages at once, and tables are texts with one row per
// line, which cost the prover less than arrays do.

// The two parts of a row.
pub(crate) fn halves(row: &str) -> (&str, &str) {
    row.split_once("=>").unwrap_or((row, ""))
}

// The text of a request, if its copy is the same.
fn written(alloc: Global, request: &Request, to: Version) -> Option<Vec<u8>> {
    if is_copied(alloc, request) {
        request.write(alloc, to).ok()
    } else {
        None
    }
}

fn is_copied(alloc: Global, request: &Request) -> bool {
    match request.try_clone(alloc) {
        Ok(copy) => {
            let is_same = copy.same(request);
            drop(copy);
            is_same
        }
        Err(_) => false,
    }
}

pub(crate) fn request_again(alloc: Global, text: &str, to: Version) -> Option<Vec<u8>> {
    match Request::read(alloc, Version::V2, text.as_bytes()) {
        Ok(request) => {
            let text = written(alloc, &request, to);
            drop(request);
            text
        }
        Err(_) => None,
    }
}

fn reply_written(alloc: Global, reply: &Reply, to: Version) -> Option<Vec<u8>> {
    if is_reply_copied(alloc, reply) {
        reply.write(alloc, to).ok()
    } else {
        None
    }
}

fn is_reply_copied(alloc: Global, reply: &Reply) -> bool {
    match reply.try_clone(alloc) {
        Ok(copy) => copy.same(reply),
        Err(_) => false,
    }
}

pub(crate) fn reply_again(alloc: Global, text: &str, to: Version) -> Option<Vec<u8>> {
    match Reply::read(alloc, Version::V2, text.as_bytes()) {
        Ok(reply) => reply_written(alloc, &reply, to),
        Err(_) => None,
    }
}

pub(crate) fn is_request(alloc: Global, version: Version, text: &str) -> bool {
    fault_of_request(alloc, version, text.as_bytes()).is_none()
}

pub(crate) fn is_reply(alloc: Global, version: Version, text: &str) -> bool {
    fault_of_reply(alloc, version, text.as_bytes()).is_none()
}

pub(crate) fn is_text(written: Option<Vec<u8>>, text: &str) -> bool {
    match written {
        Some(bytes) => bytes.as_slice() == text.as_bytes(),
        None => false,
    }
}

fn fault_of_request(alloc: Global, version: Version, text: &[u8]) -> Option<MessageFault> {
    Request::read(alloc, version, text).err()
}

fn fault_of_reply(alloc: Global, version: Version, text: &[u8]) -> Option<MessageFault> {
    Reply::read(alloc, version, text).err()
}

pub(crate) fn request_fault(alloc: Global, text: &[u8]) -> Option<MessageFault> {
    fault_of_request(alloc, Version::V2, text)
}

pub(crate) fn reply_fault(alloc: Global, text: &[u8]) -> Option<MessageFault> {
    fault_of_reply(alloc, Version::V2, text)
}
