use bpf_code::Insn;
use bpf_verify::{Filter, verify};
use runtime_cell::{Cell, Did, Label, Text};
use script::Script;
use std::test::Fail;
use verdict::Stack;

const ALLOW: u32 = 0x7fff_0000;

fn script(rt: &HostRuntime, text: &str) -> Result<Script, Fail> {
    match script::read(rt.alloc(), text.as_bytes()) {
        Ok(script) => Ok(script),
        Err(_) => Err("a script")?,
    }
}

fn filter(rt: &HostRuntime, parts: &[(u16, u8, u8, u32)]) -> Result<Filter, Fail> {
    let mut code = Vec::new(rt.alloc());
    for (op, jt, jf, k) in parts {
        code.push(Insn::new(*op, *jt, *jf, *k).ok_or("a code of the table")?)?;
    }
    match verify(code) {
        Ok(filter) => Ok(filter),
        Err(_) => Err("sound")?,
    }
}

/// No filters, or one that answers seccomp(2) with errno 1 and allows the rest.
fn stack(rt: &HostRuntime, denies: bool) -> Result<Stack, Fail> {
    let mut stack = Stack::new(rt.alloc());
    let no_seccomp = [
        (0x20, 0, 0, 0),
        (0x15, 0, 1, 317),
        (0x06, 0, 0, 0x5_0001),
        (0x06, 0, 0, ALLOW),
    ];
    if denies && stack.push(filter(rt, &no_seccomp)?).is_err() {
        return Err("place")?;
    }
    Ok(stack)
}

fn created(rt: &HostRuntime, text: &str, denies: bool) -> Result<Cell, Fail> {
    let label = Label {
        id: 3,
        name: Text::new(String::from_str(rt.alloc(), "main")?),
        attempt: 2,
        image: Text::new(String::from_str(rt.alloc(), "main.json")?),
        path: None,
    };
    let (script, stack) = (script(rt, text)?, stack(rt, denies)?);
    Ok(Cell::created(rt.alloc(), label, script, stack, None)?)
}

/// Plays the letters on the cell: s starts it, t does a step, k kills it with 255 and z with 0. Returns the
/// result of each step, then the state, what was performed and denied, and the filters added.
fn played(rt: &HostRuntime, cell: &mut Cell, letters: &str) -> Result<String, Fail> {
    let mut text = String::new(rt.alloc());
    for letter in letters.as_bytes() {
        match *letter {
            b's' => cell.start(),
            b'k' => cell.kill(255),
            b'z' => cell.kill(0),
            _ => write!(text, "{:?} ", cell.step())?,
        }
    }
    let (state, counts) = (cell.state(), cell.counts());
    let (performed, denied) = (counts.performed, counts.denied);
    write!(text, "{state:?} {performed} {denied} {}", cell.added())?;
    Ok(text)
}

#[test]
fn states_and_records(rt: HostRuntime) -> Result<(), Fail> {
    let short = "{\"steps\":[{\"call\":39},{\"exit\":3}]}";
    let adds = "{\"steps\":[{\"call\":\"getpid\"},
        {\"install\":[[32,0,0,0],[21,0,1,39],[6,0,0,327693],[6,0,0,2147418112]]},
        {\"call\":\"getpid\",\"onError\":7},{\"exit\":0}]}";
    let rows = [
        (short, false, "", "Created 0 0 0"),
        (short, false, "t", "Idle Created 0 0 0"),
        (short, false, "st", "Performed Running 1 0 0"),
        (
            short,
            false,
            "sstst",
            "Performed Ended(3) Exited { code: 3, killed: false } 1 0 0",
        ),
        (
            short,
            false,
            "stttst",
            "Performed Ended(3) Idle Idle Exited { code: 3, killed: false } 1 0 0",
        ),
        (short, false, "zk", "Exited { code: 0, killed: true } 0 0 0"),
        (
            short,
            false,
            "kzst",
            "Idle Exited { code: 255, killed: true } 0 0 0",
        ),
        (short, false, "sz", "Exited { code: 0, killed: true } 0 0 0"),
        (
            short,
            false,
            "stkzst",
            "Performed Idle Exited { code: 255, killed: true } 1 0 0",
        ),
        (
            short,
            false,
            "sttkz",
            "Performed Ended(3) Exited { code: 3, killed: false } 1 0 0",
        ),
        (
            adds,
            false,
            "sttt",
            "Performed Performed Ended(7) Exited { code: 7, killed: false } 2 1 1",
        ),
        (
            adds,
            false,
            "sttk",
            "Performed Performed Exited { code: 255, killed: true } 2 0 1",
        ),
        (
            adds,
            true,
            "stttt",
            "Performed Denied(Verdict { action: Errno, ret_data: 1 }) Performed Ended(0) \
             Exited { code: 0, killed: false } 2 1 0",
        ),
    ];
    for (text, denies, letters, want) in rows {
        let mut cell = created(&rt, text, denies)?;
        assert_eq!(rt;
            played(&rt, &mut cell, letters)?.as_str(),
            want,
            "{letters}"
        );
    }
    Ok(())
}

#[test]
fn labels(rt: HostRuntime) -> Result<(), Fail> {
    let cell = created(&rt, "{\"steps\":[]}", false)?;
    assert!(rt; cell.profile().is_none());
    let label = cell.label();
    assert_eq!(rt; (label.id, label.attempt), (3, 2));
    assert_eq!(rt; label.name.as_str(), "main");
    assert_eq!(rt; label.image.as_str(), "main.json");
    Ok(())
}

/// Filters of these lengths. Each allows every call at its first instruction.
fn allowing(rt: &HostRuntime, lengths: &[usize]) -> Result<Stack, Fail> {
    let mut stack = Stack::new(rt.alloc());
    for length in lengths {
        let mut parts = Vec::new(rt.alloc());
        for _ in 0..*length {
            parts.push((0x06, 0, 0, ALLOW))?;
        }
        if stack.push(filter(rt, &parts)?).is_err() {
            return Err("place")?;
        }
    }
    Ok(stack)
}

/// A script of 4,096 steps. Every second step installs a filter of one instruction.
fn installing(rt: &HostRuntime) -> Result<Script, Fail> {
    let mut text = String::from_str(rt.alloc(), "{\"steps\":[")?;
    for place in 0..2048 {
        if place > 0 {
            text.push_str(",")?;
        }
        text.push_str("{\"call\":39},{\"install\":[[6,0,0,2147418112]]}")?;
    }
    text.push_str("]}")?;
    script(rt, text.as_str())
}

/// How many calls a cell performs before anything else happens to it.
fn performs(cell: &mut Cell) -> usize {
    for count in 0..5000 {
        if cell.step() != Did::Performed {
            return count;
        }
    }
    5000
}

// Seven filters of 4,096 instructions and one of 4,000 count 7 * 4,100 + 4,004; one of one instruction counts
// 5 more. The stack has place for 13 of these.
#[test]
fn filters_are_added_up_to_the_limit(rt: HostRuntime) -> Result<(), Fail> {
    let stack = allowing(&rt, &[4096, 4096, 4096, 4096, 4096, 4096, 4096, 4000])?;
    let mut cell = Cell::playing(rt.alloc(), installing(&rt)?, stack, 0)?;
    assert_eq!(rt; performs(&mut cell), 4096);
    assert_eq!(rt; cell.added(), 13);
    assert_eq!(rt; cell.exit(), Some(0));
    Ok(())
}
