//! The program `scriptctl`.

use crate::answers::{call_of, head, lines_of};
use crate::asking::ask;
use crate::stops::{ClientStop, ask_stop};
use command_line::{PodCommand, ScriptctlLine, scriptctl_line};
use cri_frames::Lost;
use cri_msgs::{Answer, Request};
use fault_notes::refusal_name;
use manifest::Uid;
use node_io::Cause;
use node_watch::Form;
use runtime_stops::ServerStop;
use std::alloc::Global;
use std::io::{self, Write};

/// The program `scriptctl`: asks a runtime about pods, one after the other. `words` is the command line, with
/// the program's name first. Returns its exit status: 0 all requests answered, 1 a request was refused, 2
/// command line refused, 3 socket fault, or standard output can't be written, 4 out of memory.
pub fn scriptctl_run<O: Write, E: Write>(
    system: &HostRuntime,
    words: &[String],
    out: &mut O,
    err: &mut E,
) -> u8 {
    match run(system, words, out, err) {
        Ok(status) => status,
        Err(stop) => {
            let _ = write!(err, "{stop}");
            stop.status()
        }
    }
}

fn run<'a, O: Write, E: Write>(
    system: &HostRuntime,
    words: &'a [String],
    out: &mut O,
    err: &mut E,
) -> Result<u8, ClientStop<'a>> {
    let line = scriptctl_line(system.alloc(), words)?;
    let uids = uids_of(system.alloc(), &line)?;
    let mut status = 0;
    let mut is_first = true;
    for uid in uids.iter() {
        if is_answered(system, &line, is_first, uid, out, err)? {
            is_first = false;
        } else {
            status = 1;
        }
    }
    written(out.flush())?;
    Ok(status)
}

// The uids of the line, all checked before the first call.
fn uids_of<'a>(alloc: Global, line: &ScriptctlLine<'a>) -> Result<Vec<Uid>, ClientStop<'a>> {
    let mut uids = Vec::new(alloc);
    for word in &line.uids {
        match Uid::new(alloc, word)? {
            Some(uid) => {
                if uids.push(uid).is_err() {
                    return Err(ClientStop::Server(ServerStop::Memory));
                }
            }
            None => return Err(ClientStop::BadUid(word)),
        }
    }
    Ok(uids)
}

// Makes the call about a pod and prints the answer, for the first pod that has one below the header. Returns
// whether the request was not refused.
fn is_answered<'a, O: Write, E: Write>(
    system: &HostRuntime,
    line: &ScriptctlLine<'a>,
    is_first: bool,
    uid: &Uid,
    out: &mut O,
    err: &mut E,
) -> Result<bool, ClientStop<'a>> {
    let alloc = system.alloc();
    let form = if line.json { Form::Json } else { Form::Text };
    let call = call_of(alloc, line.command, uid)?;
    let request = Request { id: 1, call };
    let reply = match ask(system, line.socket, &request) {
        Ok(reply) => reply,
        Err(fault) => return Err(ask_stop(line.socket, fault)),
    };
    if let Answer::Refused(refusal) = &reply.answer {
        let name = refusal_name(*refusal);
        let _ = writeln!(err, "scriptctl: {}: {name}", uid.as_str());
        return Ok(false);
    }
    if let (true, PodCommand::Ps, Form::Text) = (is_first, line.command, form) {
        written(out.write_all(head().as_bytes()))?;
    }
    match lines_of(alloc, line.command, form, uid, &reply.answer)? {
        Some(lines) => written(out.write_all(lines.as_bytes()))?,
        None => return Err(ClientStop::Lost(line.socket, Lost::BadFrame, None)),
    }
    Ok(true)
}

fn written<'a>(wrote: io::Result<()>) -> Result<(), ClientStop<'a>> {
    match wrote {
        Ok(()) => Ok(()),
        Err(error) => Err(ClientStop::Server(ServerStop::Unwritten(Cause::of(&error)))),
    }
}
