//! A folder of manifests whose pods come and go with the files.
ghost use Rattle.std.specs.Prelude.{◌≡◌, IfSome};
ghost use Rattle.node_lock.specs.Books.{worker_of};

use crate::limits::SLICE;
use agent_parts::{FolderLines, Repeats, SHORTEST_REST, advice_lines, for_node, rest_after};
use manifest::Uid;
use node_io::CausedFault;
use pod_folder::{
    Due, Folder, Look, Looking, MAX_FILES, ManifestReader, Naming, OnNode, Reading, SystemFolder,
    names_in,
};
use runtime_server::LineWriter;
use std::alloc::AllocError;
use std::mem;
use std::sync::Wait;
use std::sync::ledger::Ledger;
use std::time::{Clock, Duration, Instant};
use worker_core::{AgentEvent, NodeRefusal};
use worker_crew::Shared;

/// Reads manifests, reports faulty files on standard error, and knows which pods are on the node.
#[derive(Drop)]
pub struct FolderReader<'s, 'a, L: Ledger, R: Wait> {
    pub rt: &'s R,
    pub shared: &'s Shared<L>,
    pub writer: &'s LineWriter,
    pub lines: FolderLines<'a>,
}

impl<L: Ledger, R: Wait> FolderReader<'_, '_, L, R> {
    fn tell(&self, line: Result<String, AllocError>) {
        self.writer.tell(self.rt, line);
    }

    // Reports what of a manifest has no effect.
    fn advise(&self, path: &str, bytes: &[u8]) -> Result<(), AllocError> {
        for line in advice_lines(self.lines.alloc, path, bytes)? {
            self.tell(Ok(line));
        }
        Ok(())
    }
}

impl<L: Ledger, R: Wait> ManifestReader for FolderReader<'_, '_, L, R> {
    ghost use Rattle.agent_parts.specs.Looks.{IsManifest};

    ghost reads = { IsManifest };

    fn read(&self, name: &str, bytes: &[u8]) -> Result<Reading, AllocError> {
        let path = self.lines.path_of(name)?;
        let reading = self.lines.reading(path.as_str(), bytes)?;
        if let Reading::Pod(_) = &reading {
            self.advise(path.as_str(), bytes)?;
        }
        Ok(reading)
    }

    fn is_on_node(&self, uid: &Uid) -> bool {
        self.shared.has_pod(self.rt, uid)
    }
}

impl<L: Ledger, R: Wait> OnNode for FolderReader<'_, '_, L, R> {
    fn has(&self, uid: &Uid) -> bool {
        self.shared.has_pod(self.rt, uid)
    }
}

/// The folder, and the state of its files.
#[derive(Drop)]
pub struct PodsFolder<'s, 'a, L: Ledger, R: Wait> {
    reader: FolderReader<'s, 'a, L, R>,
    folder: Folder<'a>,
    // The look in progress, and how long it took so far.
    looking: Option<Looking>,
    spent: Duration,
    // When the last look began, and how many milliseconds later the next one begins.
    begun: Option<Instant>,
    rest: u64,
    // Why the last look failed, if it did.
    unseen: Option<CausedFault>,
    // How many files the last whole look left out.
    left_out: usize,
    // How often the node was full.
    full: Repeats,
    // Whether pods that have left the node are still in the file of uids.
    has_left: bool,
    // Whether nothing was due, and nothing has changed since.
    is_idle: bool,
}

impl<'s, 'a, L: Ledger, R: Wait + Clock> PodsFolder<'s, 'a, L, R> {
    /// A folder that was not read yet.
    pub fn new(reader: FolderReader<'s, 'a, L, R>, naming: Naming<'a>) -> PodsFolder<'s, 'a, L, R> {
        let folder = Folder::new(reader.lines.alloc, naming);
        PodsFolder {
            reader,
            folder,
            looking: None,
            spent: Duration::ZERO,
            begun: None,
            rest: 0,
            unseen: None,
            left_out: 0,
            full: Repeats::new(),
            has_left: false,
            is_idle: false,
        }
    }

    /// Whether a look is in progress, which continues at once.
    pub(crate) fn is_looking(&self) -> bool {
        self.looking.is_some()
    }

    // Whether the next look is due. Without a clock it always is. A tenth of a second early is in time.
    fn is_time(&self) -> bool {
        match self.begun.map(|begun| begun.elapsed(self.reader.rt)) {
            Some(Ok(passed)) => passed.saturating_add(Duration::from_millis(100))
                >= Duration::from_millis(self.rest),
            Some(Err(_)) | None => true,
        }
    }

    /// Continues a look for a moment, or begins one if it is due. If a look fails, nothing changes, and the
    /// fault is reported once.
    pub(crate) fn look(&mut self, system: &HostRuntime) {
        if self.looking.is_none() && !self.is_time() {
            return;
        }
        let start = Instant::now(self.reader.rt).ok();
        if self.looking.is_none() {
            self.begun = start;
            self.rest = SHORTEST_REST;
            self.spent = Duration::ZERO;
        }
        let came = self.go_on(system, start);
        self.spent = self.spent.saturating_add(self.since(start));
        match came {
            Ok(true) => self.finish(),
            Ok(false) => {}
            Err(fault) => {
                self.looking = None;
                self.missed(fault);
            }
        }
    }

    fn since(&self, start: Option<Instant>) -> Duration {
        match start.map(|start| start.elapsed(self.reader.rt)) {
            Some(Ok(passed)) => passed,
            Some(Err(_)) | None => Duration::ZERO,
        }
    }

    // Looks at files until all are done, or a moment has passed. Returns whether all are done.
    fn go_on(&mut self, system: &HostRuntime, start: Option<Instant>) -> Result<bool, CausedFault> {
        let mut files = SystemFolder::open(system, self.reader.lines.folder)?;
        let mut looking = match self.looking.take() {
            Some(looking) => looking,
            None => {
                let alloc = self.reader.lines.alloc;
                let names = names_in(alloc, &mut files.entries()?)?;
                Looking::begin(alloc, names)?
            }
        };
        let mut is_whole = false;
        for _ in 0..MAX_FILES {
            if !looking.step(&self.folder, &mut files, &self.reader)? {
                is_whole = true;
                break;
            }
            if self.since(start) >= Duration::from_millis(SLICE) {
                break;
            }
        }
        self.looking = Some(looking);
        Ok(is_whole)
    }

    // Replaces what is known of the files by what this look found.
    fn finish(&mut self) {
        let Some(looking) = self.looking.take() else {
            return;
        };
        match looking.finish() {
            Ok(look) => self.take(look),
            Err(looking) => self.looking = Some(looking),
        }
    }

    fn take(&mut self, look: Look) {
        let Look {
            files,
            reports,
            left_out,
        } = look;
        self.rest = rest_after(u64::try_from(self.spent.as_millis()).unwrap_or(u64::MAX));
        self.folder.take(files);
        self.is_idle = false;
        self.seen();
        for (place, report) in reports {
            let line = match self.folder.found().get(place) {
                Some(file) => self.reader.lines.report(file.name(), report),
                None => continue,
            };
            self.reader.tell(line);
        }
        if left_out != self.left_out {
            let line = self.reader.lines.left_out(left_out);
            self.reader.tell(line);
        }
        self.left_out = left_out;
    }

    // Reports once that the folder could not be read, for this reason.
    fn missed(&mut self, fault: CausedFault) {
        if self.unseen != Some(fault) {
            let line = self.reader.lines.missed(fault);
            self.reader.tell(line);
        }
        self.unseen = Some(fault);
    }

    // Reports once that the folder can be read again.
    fn seen(&mut self) {
        if self.unseen.take().is_some() {
            let line = self.reader.lines.seen();
            self.reader.tell(line);
        }
    }

    // Forgets the pods that have left the node.
    fn settle(&mut self) {
        for _ in 0..self.folder.placed().len() {
            if !self.folder.left(&self.reader) {
                break;
            }
            self.has_left = true;
            self.is_idle = false;
        }
    }

    /// The folder's next event for the node, if there is one.
    pub(crate) fn next(&mut self) -> Option<AgentEvent>
        ensures { IfSome result (λ event. worker_of event ≡ 0) }
    {
        if self.is_looking() {
            return None;
        }
        self.settle();
        if self.is_idle {
            return None;
        }
        for _ in 0..=MAX_FILES {
            match self.folder.next() {
                Ok(Due::Event(event)) => return for_node(event),
                Ok(Due::Unnamed(place)) => {
                    let line = match self.folder.found().get(place) {
                        Some(file) => self.reader.lines.unnamed(file.name()),
                        None => continue,
                    };
                    self.reader.tell(line);
                }
                Ok(Due::Idle) => {
                    self.is_idle = true;
                    return None;
                }
                Err(_) => return None,
            }
        }
        None
    }

    /// Whether pods have left the node since the last call.
    pub(crate) fn take_left(&mut self) -> bool {
        mem::replace(&mut self.has_left, false)
    }

    /// Records that the runtime has lost the pod of this uid. Returns whether it goes on under another uid.
    pub(crate) fn lost(&mut self, uid: &Uid) -> bool {
        self.is_idle = false;
        self.folder.lost(uid)
    }

    /// Records that the event became an entry, and why the node refused it, if it did.
    pub(crate) fn recorded(&mut self, refusal: Option<NodeRefusal>, now: u64) {
        if let Some(refusal) = refusal {
            self.refused(refusal, now);
        }
        self.is_idle = false;
        self.folder.recorded(refusal);
    }

    // Reports a refusal, unless another uid is tried after it. A full node is reported once, and then once a
    // minute.
    fn refused(&mut self, refusal: NodeRefusal, now: u64) {
        if self.folder.told_of(refusal).is_none() {
            return;
        }
        let times = if refusal == NodeRefusal::Full {
            self.full.note(now)
        } else {
            Some(1)
        };
        if let (Some(times), Some(name)) = (times, self.folder.told_of(refusal)) {
            let line = self.reader.lines.refusal(name, refusal, times);
            self.reader.tell(line);
        }
    }
}
