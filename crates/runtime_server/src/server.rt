//! A runtime with its socket: accepts connections and serves them.
ghost use Rattle.std.specs.Prelude.{◌≡◌, IfOk, Some};

use crate::accepting::{Accepting, Report};
use crate::connections::{Connections, NoPlace};
use crate::diagnosis::{CreationCopy, Wrong, cause_in, is_of_files, wrong_in};
use crate::line_writer::LineWriter;
use crate::recording::Recorder;
use crate::sockets::Socket;
use crate::telling::{asked, listening_line, reply_line};
use crate::templates::{SeenProfiles, given_profile, profile_line};
use crate::threads::{RuntimeHost, RuntimeThreads};
use cri_msgs::{Answer, MessageFault, Reply, Request, Version};
use node_io::{Cause, StreamWire, SystemFiles};
use refusal_causes::{self, Causes};
use runner::{Begun, Host, Node, Service, serve_wire};
use runtime_core::FileAnswers;
use runtime_stops::SocketFault;
use std::alloc::{AllocError, Global};
use std::marker::Model;
use std::os::unix::net::UnixStream;
use std::sync::{Arc, Mutex, Wait};
use std::thread::{self, Scope, Threads};
use std::time::{Clock, Duration};
use sys_table::CallTable;

// How many milliseconds the listener pauses when no connection can be accepted, for example with too many
// open files.
pub(crate) const REST: u64 = 10;

/// Where a runtime listens, and what it serves.
#[derive(Clone, Copy)]
pub struct ServerConfig<'a> {
    /// The path of its socket.
    pub socket: &'a str,
    /// The folder of scripts.
    pub scripts: &'a str,
    /// The folder of profiles.
    pub profiles: &'a str,
    /// The calls that scripts and profiles can name.
    pub calls: CallTable,
    /// Which of its answers are reported.
    pub tells: Tells,
}

/// Which of a runtime's answers are reported.
#[derive(Clone, Copy, Debug, PartialEq, Eq)]
pub enum Tells {
    Nothing,
    /// Those that refuse a container because of a bad file.
    WrongFiles,
    /// Each answer, after a line with the socket and the folders of the runtime.
    Each,
}

impl Tells {
    ghost use Rattle.std.specs.Prelude.{◌≡◌, is_some};
    ghost use Rattle.runtime_server.specs.Telling.{is_told};

    /// Whether an answer is reported, given the bad file that caused it, if there is one.
    fn is_told(self, wrong: &Option<Wrong>) -> bool
        ensures { result ≡ is_told self (is_some wrong.now) }
    {
        match self {
            Tells::Nothing => false,
            Tells::WrongFiles => wrong.is_some(),
            Tells::Each => true,
        }
    }
}

/// Where a runtime's reports go.
#[derive(Drop)]
pub struct Reports {
    /// Writes the reported answers, and which profiles are templates.
    pub writer: Option<Arc<LineWriter, Global>>,
    /// Writes the records of cells, if they are wanted.
    pub recorder: Option<Recorder>,
    /// Collects the causes of refusals, if an agent in this process asks for them.
    pub causes: Option<Arc<Mutex<Causes>, Global>>,
}

/// A runtime served over a socket.
#[derive(Drop)]
pub struct RuntimeServer<'a, B: Node> {
    alloc: Global,
    config: ServerConfig<'a>,
    socket: Socket,
    connections: Connections,
    seen: Mutex<SeenProfiles>,
    writer: Option<Arc<LineWriter, Global>>,
    causes: Option<Arc<Mutex<Causes>, Global>>,
    /// The runtime.
    pub threads: RuntimeThreads<B>,
}

impl<'a, B: Node> RuntimeServer<'a, B> {
    /// Listens at the address. The runtime has served nothing.
    pub fn open<R: Wait>(
        rt: &R,
        system: &HostRuntime,
        config: ServerConfig<'a>,
        begun: Begun,
        reports: Reports,
    ) -> Result<RuntimeServer<'a, B>, SocketFault>
        requires { begun ≡ (B.filter, B.table) }
        ensures { IfOk result (λ server. server.config ≡ config.entry) }
    {
        let Reports {
            writer,
            recorder,
            causes,
        } = reports;
        let connections = Connections::new(system.alloc())?;
        let socket = Socket::at(system, config.socket)?;
        if let (Some(writer), Tells::Each) = (&writer, config.tells) {
            writer.tell(rt, listening_line(system.alloc(), config));
        }
        Ok(RuntimeServer {
            alloc: system.alloc(),
            config,
            socket,
            connections,
            seen: Mutex::new(SeenProfiles::new(system.alloc())),
            writer,
            causes,
            threads: RuntimeThreads::new(system.alloc(), begun, recorder),
        })
    }

    // Reports a change in accepting connections, if anything is reported.
    fn tell_report<R: Wait>(&self, rt: &R, report: Report) {
        if let Some(writer) = &self.writer {
            writer.tell(rt, format!(in self.alloc; "{report}"));
        }
    }

    // Whether no part of an answer is reported.
    fn is_silent(&self) -> bool {
        let no_lines = self.writer.is_none() || self.config.tells == Tells::Nothing;
        no_lines && self.causes.is_none()
    }

    /// Ends all serving and stepping, and removes the socket's file.
    pub fn close<R: Wait>(&self, rt: &R, system: &HostRuntime) {
        self.threads.close(rt);
        self.connections.close(rt);
        self.socket.wake();
        self.socket.remove(system, self.config.socket);
    }
}

// Answers the requests of one connection, and reports each answer afterwards. Contracts see what the
// connection has seen of the runtime's history.
#[derive(Drop)]
struct LoggedHost<'a, B: Node, R: Wait> {
    rt: &'a R,
    system: &'a HostRuntime,
    server: &'a RuntimeServer<'a, B>,
    host: RuntimeHost<'a, B, R>,
    connection: u64,
}

impl<'a, B: Node, R: Wait> Model for LoggedHost<'a, B, R> {
    ghost use Rattle.runtime_history.specs.declared.event.Seen.{Seen};

    ghost Value = { Seen };

    ghost view = { λ host. host.host };
}

impl<B: Node, R: Wait> LoggedHost<'_, B, R> {
    // The bad file due to which a request was answered like this, if there is one. Its cause is noted for the
    // agent in this process. Out of memory, the answer is reported without it.
    fn wrong_by(&self, answer: &Answer, creation: &Option<CreationCopy>) -> Option<Wrong> {
        if !is_of_files(answer) {
            return None;
        }
        let CreationCopy { request, files } = creation.as_ref()?;
        let config = self.server.config;
        let scripts = SystemFiles::within(self.system, config.scripts);
        let profiles = SystemFiles::within(self.system, config.profiles);
        let wrong = wrong_in(self.server.alloc, &scripts, &profiles, request, files).unwrap_or(
            None,
        )?;
        self.note(request, &wrong);
        Some(wrong)
    }

    // Notes why the request is refused. Out of memory, nothing is noted.
    fn note(&self, request: &Request, wrong: &Wrong) {
        if let Some(causes) = &self.server.causes {
            if let Ok(Some(cause)) = cause_in(self.server.alloc, request, wrong) {
                let _ = causes.lock(self.rt).note(cause);
            }
        }
    }

    // Reports a profile that is a template, unless this one was reported. Out of memory, it is not reported.
    // The text is read while no lock is held, so that no other connection waits for it.
    fn tell_template(&self, request: &Request, files: &FileAnswers) {
        let (Some(writer), Some((path, bytes))) = (
            &self.server.writer,
            given_profile(request, files),
        ) else {
            return;
        };
        let alloc = self.server.alloc;
        if self.server.seen.lock(self.rt).is_known(path, bytes) {
            return;
        }
        let Ok(line) = profile_line(alloc, path, bytes) else {
            return;
        };
        let is_new = self.server.seen.lock(self.rt).remember(alloc, path, bytes);
        if let (Some(line), Ok(true)) = (line, is_new) {
            writer.tell(self.rt, Ok(line));
        }
    }

    // Reports the answer, if answers like it are reported.
    fn tell(&self, asked: Result<String, AllocError>, reply: &Reply, wrong: Option<Wrong>) {
        if let (Some(writer), true) = (
            &self.server.writer,
            self.server.config.tells.is_told(&wrong),
        ) {
            let line = reply_line(self.server.alloc, self.connection, asked, reply, wrong);
            writer.tell(self.rt, line);
        }
    }
}

impl<B: Node, R: Wait> Host for LoggedHost<'_, B, R> {
    ghost use Rattle.runner.specs.Shared.{MayServe};

    ghost may = { MayServe B.filter };

    fn serve(&mut self, request: Request, files: FileAnswers) -> Reply {
        self.tell_template(&request, &files);
        if self.server.is_silent() {
            return self.host.serve(request, files);
        }
        let asked = asked(self.server.alloc, &request);
        let creation = CreationCopy::of(self.server.alloc, &request, &files).unwrap_or(None);
        let reply = self.host.serve(request, files);
        let wrong = self.wrong_by(&reply.answer, &creation);
        self.tell(asked, &reply, wrong);
        reply
    }

    fn read(&self, alloc: Global, version: Version, text: &[u8]) -> Result<Request, MessageFault> {
        self.host.read(alloc, version, text)
    }
}

// The service of a connection, with the scripts and the profiles of the address.
fn service_for<'a, B: Node, R: Wait>(
    rt: &'a R,
    system: &'a HostRuntime,
    server: &'a RuntimeServer<'a, B>,
    connection: u64,
) -> Service<SystemFiles<'a, HostRuntime>, SystemFiles<'a, HostRuntime>, LoggedHost<'a, B, R>>
    ensures scripts { result.scripts.folder ≡ Some server.now.config.scripts.now }
    ensures profiles { result.profiles.folder ≡ Some server.now.config.profiles.now }
{
    Service {
        scripts: SystemFiles::within(system, server.config.scripts),
        profiles: SystemFiles::within(system, server.config.profiles),
        host: LoggedHost {
            rt,
            system,
            server,
            host: server.threads.host(rt),
            connection,
        },
    }
}

/// Serves a connection to its end.
fn serve_stream<B: Node, R: Wait>(
    rt: &R,
    system: &HostRuntime,
    server: &RuntimeServer<'_, B>,
    stream: UnixStream,
    connection: u64,
) {
    let mut wire = StreamWire::new(stream);
    let mut service = service_for(rt, system, server, connection);
    serve_wire(server.alloc, server.config.calls, &mut wire, &mut service);
}

/// Accepts connections, and serves each in a thread of its own, until the server is closed.
pub fn accept_all<'s, 'e, B: Node + Send + Sync, R: Threads + Wait + Clock + Sync>(
    scope: &'s Scope<'s, &'e ()>,
    rt: &'e R,
    system: &'e HostRuntime,
    server: &'e RuntimeServer<'e, B>,
) {
    let mut connection: u64 = 0;
    let mut accepting = Accepting::new();
    for _ in rt.forever() {
        let accepted = server.socket.listener.accept();
        if server.threads.is_closed(rt) {
            break;
        }
        let fault = match accepted {
            Ok((stream, _)) => {
                connection = connection.wrapping_add(1);
                admit(scope, rt, system, server, stream, connection)
            }
            Err(error) => {
                thread::sleep(rt, Duration::from_millis(REST));
                Some(Cause::of(&error))
            }
        };
        if let Some(report) = accepting.note(fault) {
            server.tell_report(rt, report);
        }
    }
}

// Serves a connection in a thread of its own, if there is a place for it. If the system's fault is why there
// is none, returns that fault.
fn admit<'s, 'e, B: Node + Send + Sync, R: Threads + Wait + Sync>(
    scope: &'s Scope<'s, &'e ()>,
    rt: &'e R,
    system: &'e HostRuntime,
    server: &'e RuntimeServer<'e, B>,
    stream: UnixStream,
    connection: u64,
) -> Option<Cause> {
    let place = match server.connections.enter(rt, &stream) {
        Ok(place) => place,
        Err(NoPlace::System(cause)) => return Some(cause),
        Err(NoPlace::Full | NoPlace::Closed) => return None,
    };
    let started = scope.spawn(move || {
        serve_stream(rt, system, server, stream, connection);
        server.connections.leave(rt, place);
    });
    if started.is_err() {
        server.connections.leave(rt, place);
    }
    None
}
