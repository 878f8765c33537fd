use crate::message_texts::{
    halves, is_reply, is_request, is_text, reply_again, reply_fault, request_again,
};
use cri_msgs::*;
use manifest::{Label, Uid};
use std::alloc::Global;

// A request of each call as it is written, after the versions that have it.
const CALLS: &str = r#"12=>{"call":"RunPodSandbox","id":1,"uid":"u1","v":2}
12=>{"call":"StopPodSandbox","grace":30,"id":0,"uid":"u1","v":2}
12=>{"call":"RemovePodSandbox","id":3,"uid":"U.1-","v":2}
12=>{"attempt":0,"call":"CreateContainer","id":4,"image":"a.json","name":"main","profile":{"type":"RuntimeDefault"},"uid":"u1","v":2}
12=>{"attempt":1,"call":"CreateContainer","id":4,"image":"a/b","name":"main","profile":{"type":"Unconfined"},"uid":"u1","v":2}
12=>{"attempt":4294967295,"call":"CreateContainer","id":4,"image":"a\"\n\u0001","name":"main","profile":{"path":"a.json","type":"Localhost"},"uid":"u1","v":2}
12=>{"attempt":0,"call":"StartContainer","id":5,"name":"main","uid":"u1","v":2}
12=>{"attempt":0,"call":"StopContainer","grace":18446744073709551615,"id":18446744073709551615,"name":"main","uid":"u1","v":2}
12=>{"attempt":0,"call":"RemoveContainer","id":7,"name":"a-0","uid":"u1","v":2}
12=>{"attempt":0,"call":"ContainerStatus","id":2,"name":"main","uid":"u1","v":2}
12=>{"call":"ListContainers","id":8,"uid":"u1","v":2}
2=>{"call":"ContainerStatuses","id":9,"uid":"u1","v":2}"#;

// A reply of each kind as it is written, after the versions that have it.
const REPLIES: &str = r#"12=>{"id":1,"ok":{},"v":2}
12=>{"id":1,"refused":3,"v":2}
12=>{"id":1,"refused":5,"v":2}
12=>{"id":1,"refused":6,"v":2}
12=>{"id":1,"refused":8,"v":2}
12=>{"id":1,"refused":9,"v":2}
12=>{"id":1,"refused":13,"v":2}
12=>{"id":1,"refused":14,"v":2}
12=>{"id":18446744073709551615,"ok":{"container":18446744073709551615},"v":2}
12=>{"id":2,"ok":{"denied":0,"exit":null,"performed":0,"state":"CREATED"},"v":2}
12=>{"id":2,"ok":{"denied":0,"exit":255,"performed":1,"state":"EXITED"},"v":2}
12=>{"id":2,"ok":{"containers":[]},"v":2}
12=>{"id":2,"ok":{"containers":[{"attempt":0,"name":"main","state":"CREATED"},{"attempt":1,"name":"main","state":"RUNNING"},{"attempt":0,"name":"z","state":"EXITED"}]},"v":2}
2=>{"id":9,"ok":{"statuses":[]},"v":2}
2=>{"id":9,"ok":{"statuses":[{"attempt":0,"denied":0,"exit":null,"name":"main","performed":0,"state":"RUNNING"},{"attempt":1,"denied":7,"exit":0,"name":"main","performed":0,"state":"EXITED"}]},"v":2}"#;

// Whether the text is written as it is, also in version 1, whether version 1 reads it if it has the call, and
// whether no text of one version is one of the other.
fn is_call_kept(alloc: Global, text: &str, first: &str, in_first: bool) -> bool {
    is_text(request_again(alloc, text, Version::V2), text)
        && is_text(request_again(alloc, text, Version::V1), first)
        && is_request(alloc, Version::V1, first) == in_first
        && !is_request(alloc, Version::V1, text)
        && !is_request(alloc, Version::V2, first)
}

fn is_reply_kept(alloc: Global, text: &str, first: &str, in_first: bool) -> bool {
    is_text(reply_again(alloc, text, Version::V2), text)
        && is_text(reply_again(alloc, text, Version::V1), first)
        && is_reply(alloc, Version::V1, first) == in_first
        && !is_reply(alloc, Version::V1, text)
        && !is_reply(alloc, Version::V2, first)
}

fn in_first(alloc: Global, text: &str) -> Option<String> {
    text.replace(alloc, "\"v\":2}", "\"v\":1}").ok()
}

fn is_call_in_versions(alloc: Global, row: &str) -> bool {
    let (versions, text) = halves(row);
    match in_first(alloc, text) {
        Some(first) => is_call_kept(alloc, text, first.as_str(), versions == "12"),
        None => false,
    }
}

fn is_reply_in_versions(alloc: Global, row: &str) -> bool {
    let (versions, text) = halves(row);
    match in_first(alloc, text) {
        Some(first) => is_reply_kept(alloc, text, first.as_str(), versions == "12"),
        None => false,
    }
}

#[test]
fn there_and_back(rt: HostRuntime) {
    for row in CALLS.lines() {
        assert!(rt; is_call_in_versions(rt.alloc(), row), "{row}");
    }
    for row in REPLIES.lines() {
        assert!(rt; is_reply_in_versions(rt.alloc(), row), "{row}");
    }
}

// The members of a reply together: the text that is written after reading it, none if it is not a message.
const SAID: &str = r#"{"refused":3,"ok":{},"v":2,"id":5}=>{"id":5,"refused":3,"v":2}
{"refused":3,"ok":1,"v":2,"id":5}=>{"id":5,"refused":3,"v":2}
{"refused":null,"ok":{},"v":2,"id":5}=>{"id":5,"ok":{},"v":2}
{"refused":null,"v":2,"id":5}=>
{"refused":4,"ok":{},"v":2,"id":5}=>
{"refused":0,"v":2,"id":5}=>
{"refused":16,"v":2,"id":5}=>
{"refused":"3","v":2,"id":5}=>
{"refused":3.0,"v":2,"id":5}=>
{"ok":null,"v":2,"id":5}=>
{"ok":[],"v":2,"id":5}=>
{"ok":{"other":1},"more":null,"v":2,"id":5}=>{"id":5,"ok":{},"v":2}
{"ok":{"container":null,"containers":null,"state":null,"statuses":null,"exit":1},"v":2,"id":5}=>{"id":5,"ok":{},"v":2}
{"ok":{"statuses":1,"state":1,"containers":1,"container":0},"v":2,"id":5}=>{"id":5,"ok":{"container":0},"v":2}
{"ok":{"container":"1","containers":[]},"v":2,"id":5}=>
{"ok":{"container":-1},"v":2,"id":5}=>
{"ok":{"statuses":1,"state":1,"containers":[]},"v":2,"id":5}=>{"id":5,"ok":{"containers":[]},"v":2}
{"ok":{"containers":{}},"v":2,"id":5}=>
{"ok":{"containers":[1]},"v":2,"id":5}=>
{"ok":{"containers":[null]},"v":2,"id":5}=>
{"ok":{"containers":[{"name":"a","state":"CREATED"}]},"v":2,"id":5}=>
{"ok":{"containers":[{"attempt":0,"state":"CREATED"}]},"v":2,"id":5}=>
{"ok":{"containers":[{"attempt":0,"name":"a"}]},"v":2,"id":5}=>
{"ok":{"containers":[{"attempt":0,"name":"a","state":"UNKNOWN"}]},"v":2,"id":5}=>
{"ok":{"containers":[{"attempt":0,"name":"A","state":"CREATED"}]},"v":2,"id":5}=>
{"ok":{"containers":[{"attempt":4294967296,"name":"a","state":"CREATED"}]},"v":2,"id":5}=>
{"ok":{"containers":[{"name":"a","exit":1,"state":"CREATED","attempt":0}]},"v":2,"id":5}=>{"id":5,"ok":{"containers":[{"attempt":0,"name":"a","state":"CREATED"}]},"v":2}"#;

fn is_said(alloc: Global, row: &str) -> bool {
    let (text, want) = halves(row);
    if want.is_empty() {
        reply_fault(alloc, text.as_bytes()) == Some(MessageFault::NoMessage(5))
    } else {
        is_text(reply_again(alloc, text, Version::V2), want)
    }
}

#[test]
fn replies(rt: HostRuntime) {
    for row in SAID.lines() {
        assert!(rt; is_said(rt.alloc(), row), "{row}");
    }
}

const ONE: &str = r#"{"call":"ContainerStatus","id":5,"uid":"u1","name":"main","attempt":1,"v":2}"#;

const ALL: &str = r#"{"call":"ContainerStatuses","id":5,"uid":"u1","v":2}"#;

const STATUS: &str = r#"{"id":5,"v":2,"ok":{"performed":1,"denied":2,STATE}}"#;

const STATUSES: &str =
    r#"{"id":5,"v":2,"ok":{"statuses":[{"name":"main","attempt":0,"performed":0,"denied":0,"state":"EXITED","exit":9},{"name":"main","attempt":1,"performed":1,"denied":2,STATE}]}}"#;

fn is_code(told: Option<u8>, want: &str) -> bool {
    match told {
        Some(code) => want.parse() == Ok(code),
        None => want == "none",
    }
}

fn key(alloc: Global) -> Option<Key> {
    let uid = Uid::new(alloc, "u1").ok()??;
    let name = Label::new(alloc, "main").ok()??;
    Some(Key {
        uid,
        container: ContainerMetadata { name, attempt: 1 },
    })
}

// Whether the answer to the call reports this about the exit of attempt 1.
fn tells(alloc: Global, answer: &Answer, call: &Call, want: &str) -> bool {
    match key(alloc) {
        Some(key) => is_code(answer.exit_told(call, &key), want),
        None => false,
    }
}

fn tells_asked(alloc: Global, answer: &Answer, asked: &str, want: &str) -> bool {
    match Request::read(alloc, Version::V2, asked.as_bytes()) {
        Ok(request) => {
            let is_told = tells(alloc, answer, &request.call, want);
            drop(request);
            is_told
        }
        Err(_) => false,
    }
}

// The same for a text; nothing is wanted if it is not a message.
fn is_told(alloc: Global, text: &str, asked: &str, want: &str) -> bool {
    match Reply::read(alloc, Version::V2, text.as_bytes()) {
        Ok(reply) => tells_asked(alloc, &reply.answer, asked, want),
        Err(_) => want.is_empty(),
    }
}

fn is_state_told(alloc: Global, form: &str, state: &str, to_one: &str, to_all: &str) -> bool {
    match form.replace(alloc, "STATE", state) {
        Ok(text) => {
            is_told(alloc, text.as_str(), ONE, to_one) && is_told(alloc, text.as_str(), ALL, to_all)
        }
        Err(_) => false,
    }
}

// A status, as `ok` and as an item of `statuses`: what it reports, and nothing if it is not a message.
const STATES: &str = r#""state":"CREATED"=>none
"state":"RUNNING","exit":null=>none
"state":"EXITED","exit":0=>0
"state":"EXITED","exit":255=>255
"state":"CREATED","exit":0=>
"state":"RUNNING","exit":137=>
"state":"RUNNING","exit":""=>
"state":"EXITED"=>
"state":"EXITED","exit":null=>
"state":"EXITED","exit":256=>
"state":"EXITED","exit":-1=>
"state":"EXITED","exit":"0"=>
"state":"UNKNOWN"=>
"state":"created"=>
"state":1=>
"state":"CREATED","performed":null=>
"state":"CREATED","performed":1.5=>
"state":"CREATED","denied":null=>
"state":"CREATED","denied":"2"=>"#;

#[test]
fn statuses(rt: HostRuntime) {
    for row in STATES.lines() {
        let (state, want) = halves(row);
        let other = if want.is_empty() { "" } else { "none" };
        assert!(rt;
            is_state_told(rt.alloc(), STATUS, state, want, other),
            "{row}"
        );
        assert!(rt;
            is_state_told(rt.alloc(), STATUSES, state, other, want),
            "{row}"
        );
    }
}
