//! Inspects seccomp filters, and runs them: see `seccheck --help`.
#![tactic(auto)]

use host_io::open_closed;
use seccheck_cli::seccheck_run_on;
use std::env;
use std::io::{self, ErrorKind, IsTerminal};
use std::process::ExitCode;

fn main(rt: HostRuntime) -> ExitCode {
    if open_closed(&rt).is_err() {
        return ExitCode::from(3);
    }
    let status = match words(&rt) {
        Ok(words) => {
            let mut err = rt.stderr();
            let is_terminal = err.is_terminal();
            seccheck_run_on(&rt, &words, &mut io::writer(&rt), &mut err, is_terminal)
        }
        // A process always has its arguments: either there is no memory to copy them, or one is not UTF-8.
        Err(error) => {
            let (why, status) = match error.kind() {
                ErrorKind::InvalidData => ("a word of the command line is not UTF-8", 2),
                _ => ("Memory", 4),
            };
            let _ = eprintln!(rt; "seccheck: {why}");
            status
        }
    };
    ExitCode::from(status)
}

/// The words of the command line, the program's name first.
fn words(rt: &HostRuntime) -> io::Result<Vec<String>> {
    Ok(env::args(rt)?.collect(rt.alloc())?)
}
