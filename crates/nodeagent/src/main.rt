//! Runs pods in the containers of a runtime, over a socket: see `nodeagent --help`.
#![tactic(auto)]

use agent_program::nodeagent_run;
use host_io::open_closed;
use std::env;
use std::io::{self, ErrorKind};
use std::process::ExitCode;

fn main(rt: HostRuntime) -> ExitCode {
    if open_closed(&rt).is_err() {
        return ExitCode::from(3);
    }
    let status = match words(&rt) {
        Ok(words) => nodeagent_run(&rt, &rt, &words, &mut io::writer(&rt), &mut rt.stderr()),
        // A process always has its arguments: either there is no memory to copy them, or one is not UTF-8.
        Err(error) => {
            let (why, status) = match error.kind() {
                ErrorKind::InvalidData => ("a word of the command line is not UTF-8", 2),
                _ => ("Memory", 4),
            };
            let _ = eprintln!(rt; "nodeagent: {why}");
            status
        }
    };
    ExitCode::from(status)
}

/// The words of the command line, the program's name first.
fn words(rt: &HostRuntime) -> io::Result<Vec<String>> {
    Ok(env::args(rt)?.collect(rt.alloc())?)
}
