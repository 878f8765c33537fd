//! Naming pods whose manifests set no uid, and a folder of manifests.
use crate::nodes::pod;
use manifest::{Pod, Uid};
use node_io::CausedFault;
use pod_folder::{
    Due, Entries, Entry, Folder, FolderFiles, Look, Looking, Manifest, ManifestReader, Naming,
    Reading, Stamp, gives_uid, names_in, uid_for,
};
use std::alloc::{AllocError, Global};
use trials::{CallResult, Trial, TrialResult, try_call};
use worker_core::AgentEvent;

/// Tries the call of this name, if it is one of this module's.
pub(crate) fn run_trial(rt: &HostRuntime, name: &str) -> Option<TrialResult> {
    let alloc = rt.alloc();
    match name {
        "uid_for" => Some(try_call(rt, Names::new(alloc))),
        "gives_uid" => Some(try_call(rt, Some(Gives { alloc }))),
        "Naming::reserve" => Some(try_call(rt, Counts::new(alloc))),
        "names_in" => Some(try_call(rt, Lists::new(alloc))),
        "Looking::begin" => Some(try_call(rt, Begins::new(alloc))),
        "Looking::step" => Some(try_call(rt, Steps::new(alloc))),
        "Folder::next" => Some(try_call(rt, Asks::new(alloc, 0, "default.web"))),
        "Folder::next of two pods of a name" => Some(try_call(
            rt,
            Asks::new(alloc, 1, "default.web-2"),
        )),
        _ => None,
    }
}

/// `uid_for`, of the third pod of its name.
#[derive(Drop)]
struct Names {
    alloc: Global,
    pod: Pod,
}

impl Names {
    fn new(alloc: Global) -> Option<Names> {
        let pod = pod(alloc, "web")?;
        Some(Names { alloc, pod })
    }
}

impl Trial for Names {
    type Answer = Result<Option<Uid>, AllocError>;

    fn call(&mut self) -> Result<Option<Uid>, AllocError> {
        uid_for(self.alloc, &self.pod, 3, Some("night"))
    }

    fn check(&mut self, answer: &Result<Option<Uid>, AllocError>) -> CallResult {
        match answer {
            Ok(Some(uid)) => CallResult::right_if(uid.as_str() == "default.web-3.night"),
            Ok(None) => CallResult::Wrong,
            Err(AllocError) => CallResult::Memory,
        }
    }
}

/// `gives_uid`, of a manifest that does.
#[derive(Drop)]
struct Gives {
    alloc: Global,
}

impl Trial for Gives {
    type Answer = Result<bool, AllocError>;

    fn call(&mut self) -> Result<bool, AllocError> {
        gives_uid(self.alloc, br#"{"metadata":{"name":"a","uid":"u-1"}}"#)
    }

    fn check(&mut self, answer: &Result<bool, AllocError>) -> CallResult {
        match answer {
            Ok(gives) => CallResult::right_if(*gives),
            Err(AllocError) => CallResult::Memory,
        }
    }
}

fn is_uid(answer: Result<Option<Uid>, AllocError>, wanted: &str) -> bool {
    match answer {
        Ok(Some(uid)) => uid.as_str() == wanted,
        Ok(None) | Err(AllocError) => false,
    }
}

/// `Naming::reserve`, of the first pod of its name.
#[derive(Drop)]
struct Counts {
    naming: Naming<'static>,
    pod: Pod,
}

impl Counts {
    fn new(alloc: Global) -> Option<Counts> {
        let naming = Naming::new(alloc, None);
        let pod = pod(alloc, "web")?;
        Some(Counts { naming, pod })
    }
}

impl Trial for Counts {
    type Answer = Result<(), AllocError>;

    fn call(&mut self) -> Result<(), AllocError> {
        self.naming.reserve(&self.pod)
    }

    fn check(&mut self, answer: &Result<(), AllocError>) -> CallResult {
        match answer {
            Ok(()) => {
                self.naming.count(&self.pod);
                CallResult::right_if(is_uid(self.naming.uid(&self.pod), "default.web-2"))
            }
            Err(AllocError) => CallResult::Memory,
        }
    }

    fn is_unchanged(&mut self) -> bool {
        self.naming.count(&self.pod);
        is_uid(self.naming.uid(&self.pod), "default.web")
    }
}

/// A listing of this many manifests, and of a file that is not one.
#[derive(Drop)]
struct Listed {
    alloc: Global,
    left: u32,
    ended: bool,
    failed: bool,
}

impl Entries for Listed {
    ghost ended = { λ l. l.ended };

    ghost failed = { λ l. l.failed };

    fn next(&mut self) -> Result<Option<Entry>, CausedFault> {
        if self.left == 0 {
            self.ended = true;
            return Ok(None);
        }
        self.left -= 1;
        match name_of(self.alloc, self.left) {
            Ok(name) => Ok(Some(Entry::Named(name))),
            Err(error) => {
                self.failed = true;
                Err(CausedFault::from(error))
            }
        }
    }
}

// The third name is not a manifest's.
fn name_of(alloc: Global, number: u32) -> Result<String, AllocError> {
    if number == 2 {
        String::from_str(alloc, "notes.txt")
    } else {
        format!(in alloc; "{number}.json")
    }
}

/// `names_in`, of three manifests and another file.
#[derive(Drop)]
struct Lists {
    alloc: Global,
}

impl Lists {
    fn new(alloc: Global) -> Option<Lists> {
        Some(Lists { alloc })
    }
}

impl Trial for Lists {
    type Answer = Result<Vec<String>, CausedFault>;

    fn call(&mut self) -> Result<Vec<String>, CausedFault> {
        let mut listed = Listed {
            alloc: self.alloc,
            left: 4,
            ended: false,
            failed: false,
        };
        names_in(self.alloc, &mut listed)
    }

    fn check(&mut self, answer: &Result<Vec<String>, CausedFault>) -> CallResult {
        match answer {
            Ok(names) => CallResult::right_if(names.len() == 3),
            Err(fault) if *fault == CausedFault::from(AllocError) => CallResult::Memory,
            Err(_) => CallResult::Wrong,
        }
    }
}

const WEB: &[u8] = br#"{"apiVersion":"v1","kind":"Pod","metadata":{"name":"web"},
"spec":{"restartPolicy":"Never","containers":[{"name":"main","image":"a"}]}}"#;

/// Files each of which asks for a pod of one name.
#[derive(Drop)]
struct Same {
    alloc: Global,
}

impl FolderFiles for Same {
    fn stamp(&mut self, _: &str) -> Result<Stamp, CausedFault> {
        Ok(Stamp {
            device: 1,
            inode: 2,
            size: 3,
            modified: (4, 5),
            changed: (6, 7),
        })
    }

    fn read(&mut self, _: &str) -> Result<Vec<u8>, CausedFault> {
        Ok(Vec::from_slice(self.alloc, WEB)?)
    }
}

impl ManifestReader for Same {
    ghost use Rattle.manifest.specs.Pod.{ReadsPod};

    ghost reads = { λ bytes manifest. ReadsPod bytes manifest.pod };

    fn read(&self, _: &str, bytes: &[u8]) -> Result<Reading, AllocError> {
        match manifest::read(self.alloc, bytes) {
            Ok(pod) => Ok(Reading::Pod(Manifest {
                pod,
                gives_uid: false,
            })),
            Err(manifest::PodFault::Memory) => Err(AllocError),
            Err(_) => Ok(Reading::Refused(String::from_str(self.alloc, "refused")?)),
        }
    }

    fn is_on_node(&self, _: &Uid) -> bool {
        false
    }
}

fn numbered_names(alloc: Global, files: u32) -> Option<Vec<String>> {
    let mut names = Vec::new(alloc);
    for number in 0..files {
        let name = format!(in alloc; "{number}.json").ok()?;
        names.push(name).ok()?;
    }
    Some(names)
}

/// A whole look at this many files.
fn look(alloc: Global, folder: &Folder<'_>, files: u32) -> Option<Look> {
    let mut looking = Looking::begin(alloc, numbered_names(alloc, files)?).ok()?;
    let reader = Same { alloc };
    for _ in 0..=files {
        looking.step(folder, &mut Same { alloc }, &reader).ok()?;
    }
    looking.finish().ok()
}

/// `Looking::begin`, of two files. Their names are there twice, once for each call.
#[derive(Drop)]
struct Begins {
    alloc: Global,
    names: Vec<Vec<String>>,
}

impl Begins {
    fn new(alloc: Global) -> Option<Begins> {
        let mut twice = Vec::new(alloc);
        for _ in 0..2 {
            twice.push(numbered_names(alloc, 2)?).ok()?;
        }
        Some(Begins {
            alloc,
            names: twice,
        })
    }
}

impl Trial for Begins {
    type Answer = Option<Result<Looking, AllocError>>;

    fn call(&mut self) -> Option<Result<Looking, AllocError>> {
        Some(Looking::begin(self.alloc, self.names.pop()?))
    }

    fn check(&mut self, answer: &Option<Result<Looking, AllocError>>) -> CallResult {
        match answer {
            Some(Ok(_)) => CallResult::Right,
            Some(Err(AllocError)) => CallResult::Memory,
            None => CallResult::Wrong,
        }
    }
}

/// The first `Looking::step`, which reads a manifest.
#[derive(Drop)]
struct Steps {
    alloc: Global,
    folder: Folder<'static>,
    looking: Looking,
}

impl Steps {
    fn new(alloc: Global) -> Option<Steps> {
        Some(Steps {
            alloc,
            folder: Folder::new(alloc, Naming::new(alloc, None)),
            looking: Looking::begin(alloc, numbered_names(alloc, 1)?).ok()?,
        })
    }
}

impl Trial for Steps {
    type Answer = Result<bool, AllocError>;

    fn call(&mut self) -> Result<bool, AllocError> {
        let alloc = self.alloc;
        self.looking
            .step(&self.folder, &mut Same { alloc }, &Same { alloc })
    }

    fn check(&mut self, answer: &Result<bool, AllocError>) -> CallResult {
        match answer {
            Ok(more) => CallResult::right_if(*more),
            Err(AllocError) => CallResult::Memory,
        }
    }
}

fn is_admission(due: &Result<Due, AllocError>, uid: &str) -> bool {
    match due {
        Ok(Due::Event(AgentEvent::Admit(pod))) => pod.uid.as_str() == uid,
        _ => false,
    }
}

/// `Folder::next`, with a pod due for admission, after this many others of its name.
#[derive(Drop)]
struct Asks {
    folder: Folder<'static>,
    wanted: &'static str,
}

impl Asks {
    fn new(alloc: Global, before: u32, wanted: &'static str) -> Option<Asks> {
        let mut folder = Folder::new(alloc, Naming::new(alloc, None));
        let look = look(alloc, &folder, before.saturating_add(1))?;
        folder.take(look.files);
        for _ in 0..before {
            drop(folder.next().ok()?);
            folder.recorded(None);
        }
        Some(Asks { folder, wanted })
    }
}

impl Trial for Asks {
    type Answer = Result<Due, AllocError>;

    fn call(&mut self) -> Result<Due, AllocError> {
        self.folder.next()
    }

    fn check(&mut self, answer: &Result<Due, AllocError>) -> CallResult {
        match answer {
            Err(AllocError) => CallResult::Memory,
            due => CallResult::right_if(is_admission(due, self.wanted)),
        }
    }
}
