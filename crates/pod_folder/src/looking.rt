//! A look into a folder, file by file, so that other work can be done between two files. The findings are
//! returned whole or not at all.
ghost use Rattle.std.specs.Prelude.{◌≡◌, ◌<◌, ◌≤◌, IfErr, IfOk, IsSome, OnErr, OnOk, false, map, length};
ghost use Rattle.std.specs.Prelude.{option_copied};
ghost use Rattle.std.specs.Prelude.{slice_get, true, IsTrue};
ghost use Rattle.std.specs.String.{string_bytes};
ghost use Rattle.std.specs.Prelude.{None, Some, is_some};
ghost use Rattle.pod_folder.specs.Looking.{AreFirst, IsAmong, IsAsBefore, IsFound, IsLookedAt, IsRead};
ghost use Rattle.pod_folder.specs.Looking.{names_of};
ghost use Rattle.pod_folder.specs.Looks.{asked_by};

use crate::folder::Folder;
use crate::looks::{Content, FoundFile, Manifest, Stamp};
use crate::reading::{FolderFiles, ManifestReader, Reading};
use node_io::{CausedFault, FileFault};
use std::alloc::{AllocError, Global};
use std::marker::Model;
use std::rc::Rc;

/// The most files of a folder that are looked at: those whose names come first.
pub const MAX_FILES: usize = 4_096;

/// A report on a file.
#[derive(Debug, Drop)]
pub enum Report {
    /// Its text is refused; the line has the reason.
    Refused(String),
    /// It can't be read.
    Unread(CausedFault),
    /// Its manifest sets the uid of another pod that is on the node.
    KnownUid,
}

/// A whole look.
#[derive(Drop)]
pub struct Look {
    /// The files, in the order of their names.
    pub files: Vec<FoundFile>,
    /// The reports about the files at these places.
    pub reports: Vec<(usize, Report)>,
    /// How many more files there are, which are not looked at.
    pub left_out: usize,
}

/// A look in progress.
#[derive(Drop)]
pub struct Looking {
    alloc: Global,
    files: Vec<FoundFile>,
    // How many of them were looked at.
    next: usize,
    // How many files of the last look have names that come before the next one.
    passed: usize,
    reports: Vec<(usize, Report)>,
    left_out: usize,
}

impl Model for Looking {
    ghost use Rattle.std.specs.Prelude.{◌≤◌, vec_len};
    ghost use Rattle.pod_folder.specs.Looking.{Progress};

    ghost Value = { Progress };

    ghost view = { λ l. record { files = l.files.items; next = l.next; left_out = l.left_out } };

    ghost invariant = { λ l. l.next ≤ vec_len l.files };
}

// The finding on a file.
#[derive(Drop)]
struct Finding {
    file: FoundFile,
    report: Option<Report>,
}

impl Finding {
    fn of(name: String, stamp: Option<Stamp>, content: Content, report: Option<Report>) -> Finding
        ensures file { result.file ≡ record {
          name = string_bytes name;
          stamp = stamp;
          asks = asked_by content;
          tried = false;
        } }
    {
        Finding {
            file: FoundFile {
                name,
                stamp,
                content,
                tried: false,
            },
            report,
        }
    }
}

// The file as it was at the last look.
fn as_before(name: String, known: &FoundFile) -> Result<Finding, AllocError>
    requires name { string_bytes name ≡ known.now.name }
    requires stamp { is_some known.now.stamp ≡ true }
    ensures { IfOk result (λ finding. IsAsBefore (Some known.now) finding.file) }
{
    let content = known.content.share()?;
    Ok(Finding {
        file: FoundFile {
            name,
            stamp: known.stamp,
            content,
            tried: known.tried,
        },
        report: None,
    })
}

// A file that can't be read. It is reported once, and looked at anew each time.
fn unread(name: String, fault: CausedFault, known: Option<&FoundFile>) -> Finding
    ensures name { result.file.name ≡ string_bytes name }
    ensures nothing { result.file.asks ≡ None }
    ensures fresh { result.file.tried ≡ false }
{
    let was_told = match known {
        Some(known) => known.content.fault() == Some(fault),
        None => false,
    };
    let report = if was_told {
        None
    } else {
        Some(Report::Unread(fault))
    };
    Finding::of(name, None, Content::Unread(fault), report)
}

// Reads a file that is new, or has changed. Its state counts only if it is the same before and after.
#[tactic(auto, using(crate::proofs::ReadFiles::is_read))]
fn read_anew<F: FolderFiles, T: ManifestReader>(
    alloc: Global,
    name: String,
    stamp: Stamp,
    known: Option<&FoundFile>,
    folder: &Folder<'_>,
    files: &mut F,
    reader: &T,
) -> Result<Finding, AllocError>
    ensures name { IfOk result (λ finding. finding.file.name ≡ string_bytes name) }
    ensures fresh { IfOk result (λ finding. finding.file.tried ≡ false) }
    ensures read { IfOk result (λ finding. IsRead (F.held files.old) T.reads (string_bytes name)
        finding.file.asks) }
    ensures kept { F.held files.new ≡ F.held files.old }
{
    let bytes = match files.read(name.as_str()) {
        Ok(bytes) => bytes,
        Err(fault) if fault.fault == FileFault::Memory => return Err(AllocError),
        Err(fault) => return Ok(unread(name, fault, known)),
    };
    let reading = reader.read(name.as_str(), bytes.as_slice())?;
    let stamp = match files.stamp(name.as_str()) {
        Ok(after) if after == stamp => Some(stamp),
        Ok(_) | Err(_) => None,
    };
    match reading {
        Reading::Refused(line) => Ok(Finding::of(
            name,
            stamp,
            Content::Refused,
            Some(Report::Refused(line)),
        )),
        Reading::Pod(manifest) if takes_a_uid(folder, name.as_str(), &manifest, reader) => Ok(
            Finding::of(name, stamp, Content::Refused, Some(Report::KnownUid)),
        ),
        Reading::Pod(manifest) => {
            let manifest = Rc::new(alloc, manifest)?;
            Ok(Finding::of(name, stamp, Content::Manifest(manifest), None))
        }
    }
}

// Whether the manifest sets the uid of a pod that is on the node, and is not that pod.
fn takes_a_uid<T: ManifestReader>(
    folder: &Folder<'_>,
    name: &str,
    manifest: &Manifest,
    reader: &T,
) -> bool {
    manifest.gives_uid
        && !folder.has_placed(name, &manifest.pod)
        && reader.is_on_node(&manifest.pod.uid)
}

// Determines the content of the file of this name.
fn find_out<F: FolderFiles, T: ManifestReader>(
    alloc: Global,
    name: String,
    known: Option<&FoundFile>,
    folder: &Folder<'_>,
    files: &mut F,
    reader: &T,
) -> Result<Finding, AllocError>
    ensures name { IfOk result (λ finding. finding.file.name ≡ string_bytes name) }
    ensures found { IfOk result (λ finding.
        IsFound (F.held files.old) T.reads (option_copied known.entry) finding.file) }
    ensures kept { F.held files.new ≡ F.held files.old }
{
    let stamp = match files.stamp(name.as_str()) {
        Ok(stamp) => stamp,
        Err(fault) if fault.fault == FileFault::Memory => return Err(AllocError),
        Err(fault) => return Ok(unread(name, fault, known)),
    };
    match known {
        Some(file) if file.name.as_str() == name.as_str() && file.stamp == Some(stamp) => {
            as_before(name, file)
        }
        _ => read_anew(alloc, name, stamp, known, folder, files, reader),
    }
}

// How many files have names that come before this one, given that at least `passed` have.
fn passed_by(found: &[FoundFile], passed: usize, name: &str) -> usize {
    let mut passed = passed;
    for file in found.iter().skip(passed) {
        if file.name.as_str() >= name {
            break;
        }
        passed = passed.saturating_add(1);
    }
    passed
}

// The file at this place, if it has this name.
fn known_at<'f>(found: &'f [FoundFile], place: usize, name: &str) -> Option<&'f FoundFile>
    ensures { IsAmong found.now (option_copied result) }
{
    match found.get(place) {
        Some(file) if file.name.as_str() == name => Some(file),
        _ => None,
    }
}

impl Looking {
    /// Begins a look at the manifests of these names, in the order of their names. No file was looked at yet.
    pub fn begin(alloc: Global, names: Vec<String>) -> Result<Looking, AllocError>
        ensures none { IfOk result (λ looking. looking.next ≡ 0) }
        ensures names { IfOk result (λ looking. AreFirst names.items (names_of looking.files)
            looking.left_out) }
    {
        let mut names = names;
        names.sort()?;
        let left_out = names.len().saturating_sub(MAX_FILES);
        names.truncate(MAX_FILES);
        let files = files_of(alloc, names)?;
        Ok(Looking {
            alloc,
            files,
            next: 0,
            passed: 0,
            reports: Vec::new(alloc),
            left_out,
        })
    }

    /// Looks at the next file. False if each file was looked at. If memory runs out, the look can't be
    /// finished.
    pub fn step<F: FolderFiles, T: ManifestReader>(
        &mut self,
        folder: &Folder<'_>,
        files: &mut F,
        reader: &T,
    ) -> Result<bool, AllocError>
        ensures looked { IfOk result (λ more. more ≡ true
            → IsLookedAt (F.held files.old) T.reads folder.now.found
            self.old (slice_get self.old.files self.old.next) self.new) }
        ensures whole { IfOk result (λ more. more ≡ false → (self.old.next ≡ length self.old.files)
            × (self.new ≡ self.old)) }
        ensures err { OnErr result (self.new ≡ self.old) }
        ensures kept { F.held files.new ≡ F.held files.old }
    {
        if self.next >= self.files.len() {
            return Ok(false);
        }
        let name = String::from_str(self.alloc, self.files[self.next].name())?;
        let passed = passed_by(folder.found(), self.passed, name.as_str());
        let known = known_at(folder.found(), passed, name.as_str());
        let finding = find_out(self.alloc, name, known, folder, files, reader)?;
        self.reports.reserve(1)?;
        let Finding { file, report } = finding;
        if let Some(report) = report {
            drop(self.reports.push((self.next, report)));
        }
        self.files[self.next] = file;
        self.next += 1;
        self.passed = passed;
        Ok(true)
    }

    /// The findings, if each file was looked at; otherwise the look itself.
    pub fn finish(self) -> Result<Look, Looking>
        ensures whole { IfOk result (λ look. (look.files.items ≡ self.files) × (self.next ≡ length self.files)
            × (look.left_out ≡ self.left_out)) }
        ensures back { IfErr result (λ looking. (looking ≡ self) × (self.next < length self.files)) }
    {
        if self.next < self.files.len() {
            return Err(self);
        }
        let Looking {
            files,
            reports,
            left_out,
            ..
        } = self;
        Ok(Look {
            files,
            reports,
            left_out,
        })
    }
}

// Files of these names that were not looked at yet.
fn files_of(alloc: Global, names: Vec<String>) -> Result<Vec<FoundFile>, AllocError>
    ensures { IfOk result (λ files. names_of files.items ≡ map string_bytes names.items) }
{
    let mut files = Vec::with_capacity(alloc, names.len())?;
    for name in names {
        files.push(FoundFile {
            name,
            stamp: None,
            content: Content::Refused,
            tried: false,
        })?;
    }
    Ok(files)
}
