use crate::message_texts::{halves, is_reply, is_request, reply_fault, request_fault};
use cri_msgs::*;
use std::alloc::Global;

// Each call with its fields.
const CALLS: &str = r#"{"call":"RunPodSandbox","v":2,"id":7,"uid":"u1"}
{"call":"StopPodSandbox","v":2,"id":7,"uid":"u1","grace":0}
{"call":"RemovePodSandbox","v":2,"id":7,"uid":"u1"}
{"call":"CreateContainer","v":2,"id":7,"uid":"u1","name":"main","attempt":0,"image":"a.json","profile":{"type":"Unconfined"}}
{"call":"StartContainer","v":2,"id":7,"uid":"u1","name":"main","attempt":0}
{"call":"StopContainer","v":2,"id":7,"uid":"u1","name":"main","attempt":0,"grace":0}
{"call":"RemoveContainer","v":2,"id":7,"uid":"u1","name":"main","attempt":0}
{"call":"ContainerStatus","v":2,"id":7,"uid":"u1","name":"main","attempt":0}
{"call":"ListContainers","v":2,"id":7,"uid":"u1"}
{"call":"ContainerStatuses","v":2,"id":7,"uid":"u1"}"#;

// A field of a call, and what is put in its place: nothing, null, another type, or a value past its limits.
// No call has the first.
const FIELDS: &str = r#","none":0=>
,"uid":"u1"=>
,"uid":"u1"=>,"uid":null
,"uid":"u1"=>,"uid":1
,"uid":"u1"=>,"uid":""
,"uid":"u1"=>,"uid":"a b"
,"name":"main"=>
,"name":"main"=>,"name":null
,"name":"main"=>,"name":["main"]
,"name":"main"=>,"name":"a.b"
,"name":"main"=>,"name":"Main"
,"attempt":0=>
,"attempt":0=>,"attempt":null
,"attempt":0=>,"attempt":"0"
,"attempt":0=>,"attempt":-1
,"attempt":0=>,"attempt":0.0
,"attempt":0=>,"attempt":4294967296
,"grace":0=>
,"grace":0=>,"grace":null
,"grace":0=>,"grace":"0"
,"grace":0=>,"grace":1e3
,"grace":0=>,"grace":18446744073709551616
,"image":"a.json"=>
,"image":"a.json"=>,"image":null
,"image":"a.json"=>,"image":1
,"image":"a.json"=>,"image":""
,"image":"a.json"=>,"image":"/a"
,"image":"a.json"=>,"image":"a/../b"
,"image":"a.json"=>,"image":"a\u0000"
,"profile":{"type":"Unconfined"}=>
,"profile":{"type":"Unconfined"}=>,"profile":null
,"profile":{"type":"Unconfined"}=>,"profile":"Unconfined"
,"profile":{"type":"Unconfined"}=>,"profile":[]
,"profile":{"type":"Unconfined"}=>,"profile":{}
,"profile":{"type":"Unconfined"}=>,"profile":{"type":null}
,"profile":{"type":"Unconfined"}=>,"profile":{"type":1}
,"profile":{"type":"Unconfined"}=>,"profile":{"type":"unconfined"}
,"profile":{"type":"Unconfined"}=>,"profile":{"type":"Localhost"}
,"profile":{"type":"Unconfined"}=>,"profile":{"type":"Localhost","path":null}
,"profile":{"type":"Unconfined"}=>,"profile":{"type":"Localhost","path":1}
,"profile":{"type":"Unconfined"}=>,"profile":{"type":"Localhost","path":"../a"}
,"profile":{"type":"Unconfined"}=>,"profile":{"type":"Unconfined","path":"a"}
,"profile":{"type":"Unconfined"}=>,"profile":{"type":"RuntimeDefault","path":"a"}
,"profile":{"type":"Unconfined"}=>,"profile":{"type":"RuntimeDefault","path":1}"#;

// Whether the call is refused with its number if it has the field, and is read if it has not.
fn is_right(alloc: Global, call: &str, field: &str, bad: &str) -> bool {
    let want = if call.contains(field) {
        Some(MessageFault::NoMessage(7))
    } else {
        None
    };
    match call.replace(alloc, field, bad) {
        Ok(text) => request_fault(alloc, text.as_bytes()) == want,
        Err(_) => false,
    }
}

#[test]
fn each_field(rt: HostRuntime) {
    for call in CALLS.lines() {
        for row in FIELDS.lines() {
            let (field, bad) = halves(row);
            assert!(rt; is_right(rt.alloc(), call, field, bad), "{call} {row}");
        }
    }
}

// Texts that are not messages, and the number that is reported for them.
const NONE: &str = r#"=>0
{"id":7,"v":2=>0
null=>0
[{"id":7}]=>0
7=>0
{}=>0
{"id":7,"v":3}=>7
{"id":7}=>7
{"id":7,"v":2}=>7
{"id":18446744073709551615}=>18446744073709551615
{"id":1,"id":2}=>2
{"call":"RunPodSandbox","uid":"u1","v":2}=>0
{"call":"RunPodSandbox","id":null,"uid":"u1","v":2}=>0
{"call":"RunPodSandbox","id":"7","uid":"u1","v":2}=>0
{"call":"RunPodSandbox","id":-7,"uid":"u1","v":2}=>0
{"call":"RunPodSandbox","id":7.0,"uid":"u1","v":2}=>0
{"call":"RunPodSandbox","id":18446744073709551616,"uid":"u1","v":2}=>0
{"call":"RunPodSandbox","id":7,"uid":"u1"}=>7
{"call":"RunPodSandbox","id":7,"uid":"u1","v":null}=>7
{"call":"RunPodSandbox","id":7,"uid":"u1","v":"2"}=>7
{"call":"RunPodSandbox","id":7,"uid":"u1","v":2.0}=>7
{"call":null,"id":7,"uid":"u1","v":2}=>7
{"call":1,"id":7,"uid":"u1","v":2}=>7
{"call":"runPodSandbox","id":7,"uid":"u1","v":2}=>7
{"call":"PodSandboxStatus","id":7,"uid":"u1","v":2}=>7
{"call":"RunPodSandbox ","id":7,"uid":"u1","v":2}=>7"#;

fn is_refused(alloc: Global, text: &[u8], id: u64) -> bool {
    let refused = Some(MessageFault::NoMessage(id));
    request_fault(alloc, text) == refused && reply_fault(alloc, text) == refused
}

#[test]
fn no_messages(rt: HostRuntime) {
    for row in NONE.lines() {
        let (text, id) = halves(row);
        let id = id.parse().unwrap_or(1);
        assert!(rt; is_refused(rt.alloc(), text.as_bytes(), id), "{row}");
    }
    assert!(rt; is_refused(rt.alloc(), b"{\"id\":7,\"\xff\":1}", 0));
    let brackets = [b'['; 128];
    assert!(rt; is_refused(rt.alloc(), &brackets, 0));
}

const LISTED: &str = r#",{"attempt":0,"name":"a","state":"CREATED"}"#;

// Whether a list with `more` further containers is read.
fn is_list_read(alloc: Global, more: usize) -> bool {
    match LISTED.repeat(alloc, more) {
        Ok(rest) => is_list_with(alloc, rest.as_str()),
        Err(_) => false,
    }
}

fn is_list_with(alloc: Global, rest: &str) -> bool {
    let list =
        r#"{"id":5,"v":2,"ok":{"containers":[{"attempt":0,"name":"a","state":"CREATED"}MORE]}}"#;
    match list.replace(alloc, "MORE", rest) {
        Ok(text) => is_reply(alloc, Version::V2, text.as_str()),
        Err(_) => false,
    }
}

// Whether a path of this length is read.
fn is_image_read(alloc: Global, count: usize) -> bool {
    match "a".repeat(alloc, count) {
        Ok(path) => is_image(alloc, path.as_str()),
        Err(_) => false,
    }
}

fn is_image(alloc: Global, path: &str) -> bool {
    let call =
        r#"{"call":"CreateContainer","v":2,"id":7,"uid":"u1","name":"main","attempt":0,"image":"PATH","profile":{"type":"Unconfined"}}"#;
    match call.replace(alloc, "PATH", path) {
        Ok(text) => is_request(alloc, Version::V2, text.as_str()),
        Err(_) => false,
    }
}

// The limits of lists and of paths, from both sides.
#[test]
fn limits(rt: HostRuntime) {
    assert!(rt; is_list_read(rt.alloc(), 1_023));
    assert!(rt; !is_list_read(rt.alloc(), 1_024));
    assert!(rt; is_image_read(rt.alloc(), 1_024));
    assert!(rt; !is_image_read(rt.alloc(), 1_025));
}
