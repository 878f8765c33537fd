use bpf_code::Insn;
use bpf_verify::{Filter, verify};
use cri_msgs::{Answer, Call, ContainerMetadata, Key, Reply, Request, Version};
use manifest::{DescendingPath, Label, SeccompProfile, Uid};
use node_io::FileFault;
use runtime_cell::{Cell, Did};
use runtime_core::{Contents, FileAnswer, FileAnswers, ReadAs, Runtime};
use script::Script;
use std::alloc::{AllocError, Global};
use std::process::Abort;
use std::test::Fail;
use sys_table::CallTable;

// A runtime that is played with lines of words, and how many requests it was sent.
//
// A request is its call and uid; then, if the call has them, name and attempt; then the grace, or the image
// and the profile: `open`, `default`, or the path of a file. The last words are the answers of the files that
// it needs, the script's and the profile's, by the names below. Other lines are `step ID`, `ends ID` (steps
// until the script goes on no more), `kill ID CODE`, `cell ID`, `record ID` and `next ID`.
#[derive(Drop)]
pub(crate) struct Play {
    alloc: Global,
    runtime: Runtime,
    number: u64,
}

fn word(line: &str, at: usize) -> &str {
    line.split(' ').skip(at).next().unwrap_or("")
}

fn number(line: &str, at: usize) -> u64 {
    word(line, at).parse().unwrap_or(0)
}

fn profile_text(alloc: Global, word: &str) -> Result<String, AllocError> {
    match word {
        "open" => String::from_str(alloc, "{\"type\":\"Unconfined\"}"),
        "default" => String::from_str(alloc, "{\"type\":\"RuntimeDefault\"}"),
        path => format!(in alloc; "{{\"type\":\"Localhost\",\"path\":\"{path}\"}}"),
    }
}

// What a call has after its uid.
fn members(alloc: Global, line: &str) -> Result<String, AllocError> {
    let (name, attempt) = (word(line, 2), word(line, 3));
    let key = format!(in alloc; ",\"name\":\"{name}\",\"attempt\":{attempt}")?;
    let fifth = word(line, 4);
    match word(line, 0) {
        "StopPodSandbox" => format!(in alloc; ",\"grace\":{name}"),
        "StopContainer" => format!(in alloc; "{key},\"grace\":{fifth}"),
        "CreateContainer" => {
            let profile = profile_text(alloc, word(line, 5))?;
            format!(in alloc; "{key},\"image\":\"{fifth}\",\"profile\":{profile}")
        }
        "StartContainer" | "RemoveContainer" | "ContainerStatus" => Ok(key),
        _ => Ok(String::new(alloc)),
    }
}

fn request_text(alloc: Global, number: u64, line: &str) -> Result<String, AllocError> {
    let (call, uid) = (word(line, 0), word(line, 1));
    let members = members(alloc, line)?;
    format!(in alloc; "{{\"v\":2,\"id\":{number},\"call\":\"{call}\",\"uid\":\"{uid}\"{members}}}")
}

const SHORT: &str = "{\"steps\":[{\"call\":\"getpid\"},{\"exit\":3}]}";

const CALLS: &str =
    "{\"steps\":[{\"call\":\"getpid\"},{\"call\":\"getppid\"},{\"call\":\"ptrace\"},\
     {\"call\":\"read\"},{\"exit\":5}]}";

const NO_GETPPID: &str = "{\"defaultAction\":\"SCMP_ACT_ALLOW\",\"syscalls\":[\
    {\"names\":[\"getppid\"],\"action\":\"SCMP_ACT_ERRNO\",\"errnoRet\":13}]}";

const NO_GETPID: &str = "{\"defaultAction\":\"SCMP_ACT_ALLOW\",\"syscalls\":[\
    {\"names\":[\"getpid\"],\"action\":\"SCMP_ACT_ERRNO\",\"errnoRet\":7}]}";

fn reads(alloc: Global, times: usize) -> Result<String, AllocError> {
    let mut names = String::from_str(alloc, "\"read\"")?;
    for _ in 1..times {
        names.push_str(",\"read\"")?;
    }
    Ok(names)
}

// A profile that names `read` `plain` times without a condition, and `tested` times with one. It weighs 7, 8
// for each of the former and 14 for each of the latter. Above 4,096 it is not compiled; no weight is even.
fn long_profile(alloc: Global, plain: usize, tested: usize) -> Result<String, AllocError> {
    let (plain, tested) = (reads(alloc, plain)?, reads(alloc, tested)?);
    format!(in alloc;
        "{{\"defaultAction\":\"SCMP_ACT_ERRNO\",\"syscalls\":[\
        {{\"action\":\"SCMP_ACT_ALLOW\",\"names\":[{plain}]}},\
        {{\"action\":\"SCMP_ACT_ALLOW\",\"names\":[{tested}],\
        \"args\":[{{\"index\":0,\"value\":1,\"op\":\"SCMP_CMP_NE\"}}]}}]}}"
    )
}

fn file_text(alloc: Global, word: &str) -> Result<String, AllocError> {
    match word {
        "short" => String::from_str(alloc, SHORT),
        "calls" => String::from_str(alloc, CALLS),
        "no_getppid" => String::from_str(alloc, NO_GETPPID),
        "no_getpid" => String::from_str(alloc, NO_GETPID),
        "light" => long_profile(alloc, 504, 4),
        "heavy" => long_profile(alloc, 506, 3),
        other => String::from_str(alloc, other),
    }
}

fn answer<T: ReadAs + Drop>(alloc: Global, word: &str) -> Result<FileAnswer<T>, AllocError> {
    let fault = match word {
        "" => return Ok(None),
        "absent" => FileFault::NotFound,
        "large" => FileFault::TooLarge,
        "failed" => FileFault::Failed,
        "memory" => FileFault::Memory,
        name => {
            let text = file_text(alloc, name)?;
            return Ok(Some(Ok(Contents::new(CallTable::Linux5_8, text.into_bytes()))));
        }
    };
    Ok(Some(Err(fault)))
}

// The request of a line.
pub(crate) fn request_of(alloc: Global, number: u64, line: &str) -> Result<Request, Fail> {
    let text = request_text(alloc, number, line)?;
    match Request::read(alloc, Version::V2, text.as_bytes()) {
        Ok(request) => Ok(request),
        Err(_) => Err("a request")?,
    }
}

// The answers of the files of a line.
pub(crate) fn files_of(alloc: Global, line: &str) -> Result<FileAnswers, AllocError> {
    let script = answer(alloc, word(line, 6))?;
    let profile = answer(alloc, word(line, 7))?;
    Ok(FileAnswers { script, profile })
}

pub(crate) fn reply_text(alloc: Global, reply: &Reply) -> Result<String, Fail> {
    let bytes = reply.write(alloc, Version::V2)?;
    match String::from_utf8(bytes) {
        Ok(text) => Ok(text),
        Err(_) => Err("a text")?,
    }
}

// A cell's name, attempt and state.
fn cell_text(alloc: Global, cell: Option<&Cell>) -> Result<String, AllocError> {
    match cell {
        None => String::from_str(alloc, "none"),
        Some(cell) => {
            let label = cell.label();
            let name = label.name.as_str();
            format!(in alloc; "{name} {} {:?}", label.attempt, cell.state())
        }
    }
}

// The numbers of a cell's calls, with verdict and data, and whether they were performed.
fn record_text(alloc: Global, cell: Option<&Cell>) -> Result<String, AllocError> {
    let mut text = String::new(alloc);
    let Some(cell) = cell else {
        return Ok(text);
    };
    for entry in cell.record() {
        let verdict = entry.verdict;
        let performed = if entry.performed { "done" } else { "denied" };
        let before = if text.is_empty() { "" } else { ", " };
        write!(
            text,
            "{before}{} {:?} {} {performed}",
            entry.call.nr, verdict.action, verdict.ret_data
        )?;
    }
    Ok(text)
}

// The wanted answer, in the form of a reply: of `ok`, of a member as it is, or of the number of a refusal.
// Other lines have their result as it is.
pub(crate) fn wanted(alloc: Global, number: u64, want: &str) -> Result<String, AllocError> {
    if want == "ok" {
        format!(in alloc; "{{\"id\":{number},\"ok\":{{}},\"v\":2}}")
    } else if want.starts_with('{') {
        format!(in alloc; "{{\"id\":{number},\"ok\":{want},\"v\":2}}")
    } else if want.parse::<u64>().is_ok() {
        format!(in alloc; "{{\"id\":{number},\"refused\":{want},\"v\":2}}")
    } else {
        String::from_str(alloc, want)
    }
}

fn key(alloc: Global, attempt: u32) -> Result<Key, Fail> {
    let uid = Uid::new(alloc, "u1")?.ok_or("a uid")?;
    let name = Label::new(alloc, "a")?.ok_or("a name")?;
    let container = ContainerMetadata { name, attempt };
    Ok(Key { uid, container })
}

impl Play {
    pub(crate) fn new(alloc: Global, baseline: Option<Filter>) -> Play {
        Play {
            alloc,
            runtime: Runtime::new(alloc, baseline),
            number: 0,
        }
    }

    // Sends a request, and returns the reply's text.
    fn asks(&mut self, line: &str) -> Result<String, Fail> {
        self.number = self.number.wrapping_add(1);
        let files = files_of(self.alloc, line)?;
        let request = request_of(self.alloc, self.number, line)?;
        let reply = self.runtime.serve(request, files);
        reply_text(self.alloc, &reply)
    }

    fn ends(&mut self, id: u64) -> Option<Did> {
        for _ in 0..10 {
            match self.runtime.step(id) {
                Some(Did::Performed) | Some(Did::Denied(_)) => {}
                other => return other,
            }
        }
        None
    }

    // Carries out the line, and returns the result.
    fn does(&mut self, line: &str) -> Result<String, Fail> {
        let (alloc, id) = (self.alloc, number(line, 1));
        let text = match word(line, 0) {
            "step" => format!(in alloc; "{:?}", self.runtime.step(id))?,
            "ends" => format!(in alloc; "{:?}", self.ends(id))?,
            "kill" => {
                let code = word(line, 2).parse().unwrap_or(0);
                let is_there = self.runtime.kill(id, code).is_some();
                format!(in alloc; "{is_there}")?
            }
            "cell" => cell_text(alloc, self.runtime.cell(id))?,
            "record" => record_text(alloc, self.runtime.cell(id))?,
            "next" => format!(in alloc; "{:?}", self.runtime.next_id(id))?,
            _ => self.asks(line)?,
        };
        Ok(text)
    }

    fn serves(&mut self, call: Call, script: FileAnswer<Script>) -> Answer {
        let id = self.number;
        let files = FileAnswers {
            script,
            profile: None,
        };
        let Reply { answer, .. } = self.runtime.serve(Request { id, call }, files);
        answer
    }

    // Whether the uid of this number is removed.
    pub(crate) fn buries(&mut self, number: u32) -> Result<bool, Fail> {
        let text = format!(in self.alloc; "u{number}")?;
        let uid = Uid::new(self.alloc, text.as_str())?.ok_or("a uid")?;
        let answer = self.serves(Call::RemovePodSandbox { uid }, None);
        Ok(matches!(&answer, Answer::Done))
    }

    // The id that an attempt at the container `a` of `u1` gets.
    pub(crate) fn makes(&mut self, attempt: u32) -> Result<Option<u64>, Fail> {
        let key = key(self.alloc, attempt)?;
        let image = DescendingPath::new(self.alloc, "a.json")?.ok_or("a path")?;
        let script = answer(self.alloc, "short")?;
        let call = Call::CreateContainer {
            key,
            image,
            profile: SeccompProfile::Unconfined,
        };
        match self.serves(call, script) {
            Answer::Container(id) => Ok(Some(id)),
            _ => Ok(None),
        }
    }

    // Whether that attempt is removed.
    pub(crate) fn removes(&mut self, attempt: u32) -> Result<bool, Fail> {
        let key = key(self.alloc, attempt)?;
        let answer = self.serves(Call::RemoveContainer { key }, None);
        Ok(matches!(&answer, Answer::Done))
    }

    // Plays one line this many times. The wanted result comes after `=>`.
    pub(crate) fn plays(&mut self, rt: &impl Abort, row: &str, times: usize) -> Result<(), Fail> {
        let (line, want) = row.split_once("=>").unwrap_or((row, ""));
        for _ in 0..times {
            let told = self.does(line)?;
            let want = wanted(self.alloc, self.number, want)?;
            assert_eq!(rt; told.as_str(), want.as_str(), "{row}");
        }
        Ok(())
    }
}

// The filter of a node that answers `getpid` with errno 1, and allows the rest.
pub(crate) fn no_getpid(alloc: Global) -> Result<Filter, Fail> {
    let mut code = Vec::new(alloc);
    let parts = [
        (0x20, 0, 0, 0),
        (0x15, 0, 1, 39),
        (0x06, 0, 0, 0x5_0001),
        (0x06, 0, 0, 0x7fff_0000),
    ];
    for (op, jt, jf, k) in parts {
        code.push(Insn::new(op, jt, jf, k).ok_or("a code of the table")?)?;
    }
    match verify(code) {
        Ok(filter) => Ok(filter),
        Err(_) => Err("sound")?,
    }
}
