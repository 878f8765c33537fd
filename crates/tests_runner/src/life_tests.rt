ghost use Rattle.std.specs.Prelude.{◌≡◌};

use crate::wires::{Shared, add, service, wire};
use runner::{Begun, Ending, Host, Node, serve_wire};
use runtime_core::Runtime;
use std::alloc::{AllocError, Global};
use std::marker::Brand;
use std::sync::Wait;
use std::test::Fail;
use sys_table::CallTable;

// The requests of a pod's life, each with its reply. A text whose `v` is 2 is in a frame of version 2.
const LIFE: &str = r#"{"call":"RunPodSandbox","id":1,"uid":"u1","v":1}=>{"id":1,"ok":{},"v":1}
{"attempt":0,"call":"CreateContainer","id":2,"image":"a.json","name":"main","profile":{"path":"none.json","type":"Localhost"},"uid":"u1","v":1}=>{"id":2,"refused":13,"v":1}
{"attempt":0,"call":"CreateContainer","id":3,"image":"none.json","name":"main","profile":{"type":"Unconfined"},"uid":"u1","v":1}=>{"id":3,"refused":13,"v":1}
{"call":"ListContainers","id":4,"uid":"u1","v":1}=>{"id":4,"ok":{"containers":[]},"v":1}
{"attempt":0,"call":"CreateContainer","id":5,"image":"a.json","name":"main","profile":{"path":"p.json","type":"Localhost"},"uid":"u1","v":1}=>{"id":5,"ok":{"container":1},"v":1}
{"attempt":0,"call":"CreateContainer","id":6,"image":"a.json","name":"main","profile":{"path":"p.json","type":"Localhost"},"uid":"u1","v":2}=>{"id":6,"ok":{"container":1},"v":2}
{"attempt":0,"call":"CreateContainer","id":7,"image":"b.json","name":"main","profile":{"path":"p.json","type":"Localhost"},"uid":"u1","v":1}=>{"id":7,"refused":6,"v":1}
{"attempt":0,"call":"StartContainer","id":8,"name":"main","uid":"u1","v":1}=>{"id":8,"ok":{},"v":1}
{"attempt":0,"call":"StartContainer","id":8,"name":"main","uid":"u1","v":1}=>{"id":8,"ok":{},"v":1}
{"call":"ContainerStatuses","id":9,"uid":"u1","v":2}=>{"id":9,"ok":{"statuses":[{"attempt":0,"denied":0,"exit":null,"name":"main","performed":0,"state":"RUNNING"}]},"v":2}
{"attempt":0,"call":"ContainerStatus","id":10,"name":"main","uid":"u1","v":1}=>{"id":10,"ok":{"denied":0,"exit":null,"performed":0,"state":"RUNNING"},"v":1}
{"attempt":1,"call":"ContainerStatus","id":11,"name":"main","uid":"u1","v":1}=>{"id":11,"refused":5,"v":1}
{"attempt":0,"call":"CreateContainer","id":12,"image":"a.json","name":"main","profile":{"type":"RuntimeDefault"},"uid":"u2","v":1}=>{"id":12,"refused":5,"v":1}
{"call":"RunPodSandbox","id":13,"uid":"u2","v":2}=>{"id":13,"ok":{},"v":2}
{"attempt":0,"call":"CreateContainer","id":14,"image":"b.json","name":"main","profile":{"type":"RuntimeDefault"},"uid":"u2","v":2}=>{"id":14,"ok":{"container":2},"v":2}
{"call":"ListContainers","id":15,"uid":"u1","v":1}=>{"id":15,"ok":{"containers":[{"attempt":0,"name":"main","state":"RUNNING"}]},"v":1}
{"call":"ListContainers","id":16,"uid":"u2","v":1}=>{"id":16,"ok":{"containers":[{"attempt":0,"name":"main","state":"CREATED"}]},"v":1}
{"call":"StopPodSandbox","grace":0,"id":17,"uid":"u1","v":1}=>{"id":17,"ok":{},"v":1}
{"attempt":0,"call":"ContainerStatus","id":18,"name":"main","uid":"u1","v":1}=>{"id":18,"ok":{"denied":0,"exit":137,"performed":0,"state":"EXITED"},"v":1}
{"attempt":0,"call":"RemoveContainer","id":19,"name":"main","uid":"u1","v":1}=>{"id":19,"ok":{},"v":1}
{"call":"RemovePodSandbox","id":20,"uid":"u1","v":1}=>{"id":20,"ok":{},"v":1}
{"attempt":0,"call":"CreateContainer","id":21,"image":"a.json","name":"main","profile":{"type":"Unconfined"},"uid":"u1","v":1}=>{"id":21,"refused":9,"v":1}
{"call":"RunPodSandbox","id":22,"uid":"u1","v":1}=>{"id":22,"refused":9,"v":1}
{"call":"RemovePodSandbox","id":23,"uid":"u3","v":1}=>{"id":23,"ok":{},"v":1}
{"call":"RunPodSandbox","id":24,"uid":"u3","v":1}=>{"id":24,"refused":9,"v":1}
{}=>{"id":0,"refused":3,"v":1}
{"id":7,"v":3}=>{"id":7,"refused":3,"v":1}
{"call":"ContainerStatuses","id":25,"uid":"u2","v":1}=>{"id":25,"refused":3,"v":1}
{"call":"StopContainer","id":26,"uid":"u2","v":2}=>{"id":26,"refused":3,"v":2}
[[[[[[[[[[[[[[[[[[[[[[[[[[[[[[[[[[[[[[[[[[[[[[[[[[[[[[[[[[[[[[[[[[[[[[[[[[[[[[[[[[[[[[[[[[[[[[[[[[[[[[[[[[[[[[[[[[[[[[[[[[[[[[[[=>{"id":0,"refused":3,"v":1}
{"call":"ListContainers","id":27,"uid":"u2","v":1}=>{"id":27,"ok":{"containers":[{"attempt":0,"name":"main","state":"CREATED"}]},"v":1}"#;

// The frames of the requests, and those of the replies.
fn streams(alloc: Global) -> Result<(Vec<u8>, Vec<u8>), AllocError> {
    let mut asked = Vec::new(alloc);
    let mut told = Vec::new(alloc);
    for row in LIFE.lines() {
        let (request, reply) = row.split_once("=>").unwrap_or((row, ""));
        add(&mut asked, alloc, request)?;
        add(&mut told, alloc, reply)?;
    }
    Ok((asked, told))
}

// How a connection with this host and this input ends, and what was written on it.
fn served<H: Host + Drop>(
    alloc: Global,
    host: H,
    input: &[u8],
    piece: usize,
    failing: u64,
) -> Result<(Ending, Vec<u8>), AllocError> {
    let mut service = service(alloc, host)?;
    let mut wire = wire(alloc, input, piece, failing)?;
    let ending = serve_wire(alloc, CallTable::Linux5_8, &mut wire, &mut service);
    let written = Vec::from_slice(alloc, wire.written())?;
    Ok((ending, written))
}

// The same, with a runtime that threads share.
fn served_by<B: Node, R: Wait>(
    rt: &R,
    alloc: Global,
    begun: Begun,
    input: &[u8],
    piece: usize,
) -> Result<(Ending, Vec<u8>), AllocError>
    requires { begun ≡ (B.filter, B.table) }
{
    let runtime = Shared::<B>::new(alloc, begun);
    served(alloc, runtime.host(rt), input, piece, 0)
}

// The replies are the same whatever the pieces, also those of a runtime that threads share.
#[test]
fn a_pod_lives_over_a_wire(rt: HostRuntime) -> Result<(), Fail> {
    let alloc = rt.alloc();
    let (asked, told) = streams(alloc)?;
    for piece in [1, 20, 5_000] {
        let one = served(alloc, Runtime::new(alloc, None), asked.as_slice(), piece, 0)?;
        assert!(rt;
            one.0 == Ending::Ended && one.1.as_slice() == told.as_slice(),
            "{piece}"
        );
        let begun = Begun::new(alloc, None)?;
        let shared = served_by::<Brand, _>(&rt, alloc, begun, asked.as_slice(), piece)?;
        assert!(rt;
            shared.0 == Ending::Ended && shared.1.as_slice() == told.as_slice(),
            "{piece}"
        );
    }
    Ok(())
}

const HELLO: &str = "\0\0\0\x30{\"call\":\"RunPodSandbox\",\"id\":1,\"uid\":\"u1\",\"v\":1}";

const DONE: &str = "\0\0\0\x16{\"id\":1,\"ok\":{},\"v\":1}";

// Input, how the connection ends, and output.
const STREAMS: [(&str, Ending, &str); 14] = [
    ("", Ending::Ended, ""),
    (
        "\0\0\0\x02{}",
        Ending::Ended,
        "\0\0\0\x1a{\"id\":0,\"refused\":3,\"v\":1}",
    ),
    (
        "\x02\0\0\x02{}",
        Ending::Ended,
        "\x02\0\0\x1a{\"id\":0,\"refused\":3,\"v\":2}",
    ),
    (
        "\0\0\0\x0e{\"id\":7,\"v\":3}",
        Ending::Ended,
        "\0\0\0\x1a{\"id\":7,\"refused\":3,\"v\":1}",
    ),
    (
        "\0\0\0\x0e{\"id\":7,\"v\":2}",
        Ending::Ended,
        "\0\0\0\x1a{\"id\":7,\"refused\":3,\"v\":1}",
    ),
    (
        "\0\0\0\x10{\"id\":\"7\",\"v\":1}",
        Ending::Ended,
        "\0\0\0\x1a{\"id\":0,\"refused\":3,\"v\":1}",
    ),
    (HELLO, Ending::Ended, DONE),
    (
        "\x02\0\0\x30{\"call\":\"RunPodSandbox\",\"id\":1,\"uid\":\"u1\",\"v\":2}",
        Ending::Ended,
        "\x02\0\0\x16{\"id\":1,\"ok\":{},\"v\":2}",
    ),
    (
        "\x02\0\0\x30{\"call\":\"RunPodSandbox\",\"id\":1,\"uid\":\"u1\",\"v\":1}",
        Ending::Ended,
        "\x02\0\0\x1a{\"id\":1,\"refused\":3,\"v\":2}",
    ),
    ("\0\0\0\0", Ending::BadLength, ""),
    ("\x03\0\0\x01{", Ending::BadLength, ""),
    ("\0\x10\0\x01", Ending::BadLength, ""),
    (
        "\0\0\0\x30{\"call\":\"RunPodSandbox\",\"id\":1,\"uid\":\"u1\",\"v\":1}\0\0\0\0\0\0\0\x02{}",
        Ending::BadLength,
        DONE,
    ),
    (
        "\0\0\0\x02{}\0\0\0",
        Ending::Ended,
        "\0\0\0\x1a{\"id\":0,\"refused\":3,\"v\":1}",
    ),
];

#[test]
fn streams_end(rt: HostRuntime) -> Result<(), Fail> {
    let alloc = rt.alloc();
    for (input, ending, want) in STREAMS {
        for piece in [1, 20, 5_000] {
            let host = Runtime::new(alloc, None);
            let found = served(alloc, host, input.as_bytes(), piece, 0)?;
            assert!(rt;
                found.0 == ending && found.1.as_slice() == want.as_bytes(),
                "{input:?} in pieces of {piece}"
            );
        }
    }
    // What is cut off is not answered.
    for cut in 0..HELLO.len() {
        let host = Runtime::new(alloc, None);
        let found = served(alloc, host, &HELLO.as_bytes()[..cut], 20, 0)?;
        assert!(rt;
            found.0 == Ending::Ended && found.1.is_empty(),
            "cut at {cut}"
        );
    }
    Ok(())
}

// How a connection to a shared runtime ends if its call with this number fails, and whether what was written
// is a prefix of the reply.
fn failing_at<B: Node, R: Wait>(
    rt: &R,
    alloc: Global,
    runtime: &Shared<B>,
    failing: u64,
) -> Result<(Ending, bool), AllocError> {
    let host = runtime.host(rt);
    let found = served(alloc, host, HELLO.as_bytes(), 20, failing)?;
    Ok((found.0, DONE.as_bytes().starts_with(found.1.as_slice())))
}

// 52 bytes come in three reads, and 26 are written in two writes; the fourth read finds the end.
#[test]
fn a_failure_ends_its_connection_alone(rt: HostRuntime) -> Result<(), Fail> {
    let begun = Begun::new(rt.alloc(), None)?;
    let first_wrong = first_not_alone::<Brand, _>(&rt, rt.alloc(), begun)?;
    assert!(rt; first_wrong.is_none(), "{first_wrong:?}");
    Ok(())
}

// The first of seven calls whose failure does something else than to end its connection alone.
fn first_not_alone<B: Node, R: Wait>(
    rt: &R,
    alloc: Global,
    begun: Begun,
) -> Result<Option<u64>, AllocError>
    requires { begun ≡ (B.filter, B.table) }
{
    let runtime = Shared::<B>::new(alloc, begun);
    for failing in 1..=7u64 {
        let first = failing_at(rt, alloc, &runtime, failing)?;
        let want = if failing == 7 {
            Ending::Ended
        } else {
            Ending::Failed
        };
        let second = failing_at(rt, alloc, &runtime, 0)?;
        if first != (want, true) || second != (Ending::Ended, true) {
            return Ok(Some(failing));
        }
    }
    Ok(None)
}
