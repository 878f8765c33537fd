//! The log line of each event, if logging is on: who, which pod, the request and its answer as in messages,
//! and a refusal's name and cause.
ghost use Rattle.std.specs.Prelude.{◌≡◌, IfOk, string_bytes};
ghost use Rattle.runtime_server.specs.Telling.{listening_text, name_behind};

use crate::diagnosis::Wrong;
use crate::server::ServerConfig;
use cri_msgs::{Answer, Reply, Request, Version};
use fault_notes::{ShownPath, refusal_name};
use runtime_core::uid_of;
use std::alloc::{AllocError, Global};
use std::str;

/// The first log line of a runtime.
pub(crate) fn listening_line(alloc: Global, config: ServerConfig<'_>) -> Result<String, AllocError>
    ensures { IfOk result (λ line. string_bytes line ≡ listening_text config.entry) }
{
    let socket = ShownPath(config.socket);
    let scripts = ShownPath(config.scripts);
    let profiles = ShownPath(config.profiles);
    format!(in alloc; "listens at {socket}, scripts in {scripts}, profiles in {profiles}")
}

// A message without its version, which comes last in it.
fn unversioned(message: &[u8]) -> &str {
    let text = str::from_utf8(message).unwrap_or("");
    text.strip_suffix(",\"v\":2}").unwrap_or(text)
}

/// The pod and the text of a request.
pub fn asked(alloc: Global, request: &Request) -> Result<String, AllocError> {
    let text = request.write(alloc, Version::V2)?;
    let uid = uid_of(&request.call).as_str();
    format!(in alloc; "{uid} {}}}", unversioned(text.as_slice()))
}

/// The text of a reply, followed by the name of a refusal.
pub fn answered(alloc: Global, reply: &Reply) -> Result<String, AllocError> {
    let text = reply.write(alloc, Version::V2)?;
    let name = name_behind(alloc, &reply.answer)?;
    format!(in alloc; "{}}}{}", unversioned(text.as_slice()), name.as_str())
}

fn name_behind(alloc: Global, answer: &Answer) -> Result<String, AllocError>
    ensures { IfOk result (λ text. string_bytes text ≡ name_behind answer.now) }
{
    match answer {
        Answer::Refused(refusal) => {
            let name = refusal_name(*refusal);
            format!(in alloc; " refused {name}")
        }
        _ => Ok(String::new(alloc)),
    }
}

/// The log line of a request over a connection: the request, the answer, and what is wrong with the request's
/// files, if that is known.
pub(crate) fn reply_line(
    alloc: Global,
    connection: u64,
    asked: Result<String, AllocError>,
    reply: &Reply,
    wrong: Option<Wrong>,
) -> Result<String, AllocError> {
    let asked = asked?;
    let answered = answered(alloc, reply)?;
    let mut line = format!(in alloc;
        "connection {connection} {} {}",
        asked.as_str(),
        answered.as_str()
    )?;
    if let Some(wrong) = wrong {
        write!(line, ": {}", wrong.as_str())?;
    }
    Ok(line)
}
