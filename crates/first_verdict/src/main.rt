//! Compiles the profile in a file, and judges calls by its filter: the first answer of `make demo`. `seccheck`
//! does the same and much more, but takes longer to build.
#![tactic(auto)]

use action::ValueText;
use bpf_machine::run;
use bpf_verify::Filter;
use call_data::{NATIVE_ARCH, SysCall};
use compile::compile;
use node_io::{MAX_FILE_BYTES, read_file};
use std::process::ExitCode;
use std::{env, io};

fn main(rt: HostRuntime) -> ExitCode {
    match answer(&rt) {
        Ok(()) => ExitCode::from(0),
        Err(why) => {
            let _ = eprintln!(rt; "first_verdict: {why}");
            ExitCode::from(1)
        }
    }
}

/// Prints the verdict on each named call, or returns why it can't.
fn answer(rt: &HostRuntime) -> Result<(), &'static str> {
    let words = words(rt).map_err(|_| "the words can't be read")?;
    let [_, path, names @ ..] = words.as_slice() else {
        return Err("usage: first_verdict PROFILE CALL..");
    };
    let filter = filter_at(rt, path.as_str())?;
    let count = filter.len();
    let path = path.as_str();
    println!(rt; "{path}: a filter of {count} instructions").map_err(unwritten)?;
    for name in names {
        judge(rt, &filter, name.as_str())?;
    }
    Ok(())
}

fn words(rt: &HostRuntime) -> io::Result<Vec<String>> {
    Ok(env::args(rt)?.collect(rt.alloc())?)
}

fn unwritten(_: io::Error) -> &'static str {
    "standard output can't be written"
}

/// The filter of the profile in a file.
fn filter_at(rt: &HostRuntime, path: &str) -> Result<Filter, &'static str> {
    let bytes = read_file(rt, path, MAX_FILE_BYTES).map_err(|_| "the file can't be read")?;
    let profile = oci_profile::read(rt.alloc(), &bytes).map_err(|_| "the file is no profile")?;
    compile(rt.alloc(), &profile).map_err(|_| "the profile is not compiled")
}

/// Prints the verdict of the filter on a call.
fn judge(rt: &HostRuntime, filter: &Filter, name: &str) -> Result<(), &'static str> {
    let nr = sys_table::number(name).ok_or("a word is the name of no call")?;
    let call = SysCall {
        nr,
        arch: NATIVE_ARCH,
        ip: 0,
        args: [0; 6],
    };
    let ran = run(filter, &call);
    let (verdict, steps) = (ValueText(ran.value), ran.steps);
    println!(rt; "{name}: {verdict} in {steps} steps").map_err(unwritten)
}
