//! Faults of a request's files, in the order in which a runtime checks them: the script, then the profile. A
//! request refused for another reason is reported without them.
ghost use Rattle.std.specs.Prelude.{◌≡◌, ◌++◌, IfOk, IfSome, string_bytes};
ghost use Rattle.fault_notes.specs.Paths.{shown_path};
ghost use Rattle.wrong_files.specs.HintText.{hint_after};
ghost use Rattle.runtime_server.specs.Wrong.{TellsProfile, TellsScript, cause_in, cause_text, is_of_files, kind_text};

use compile::{CompileFault, compile};
use creation::ReadAs;
use cri_msgs::{Answer, Call, Refusal, Request};
use fault_notes::{ShownPath, profile_note, script_note};
use manifest::SeccompProfile;
use node_io::{CausedFault, FileFault, MAX_FILE_BYTES, SystemFiles};
use oci_profile::ProfileFault;
use refusal_causes::{Cause, CauseText};
use runtime_core::{CompiledProfile, Contents, FileAnswer, FileAnswers};
use script::{Script, ScriptFault};
use std::alloc::{AllocError, Global};
use wrong_files::{Hint, HintAfter, Wanted, hint_of_text};

/// The kind of a request's file.
#[derive(Clone, Copy, Debug)]
pub(crate) enum FileKind {
    Script,
    Profile,
}

/// A bad file of a request.
#[derive(Debug, Drop)]
pub(crate) struct Wrong {
    kind: FileKind,
    /// The file, the place, the fault: `gone.s: NotFound`, `s.json: steps[2].call: UnknownCall: "nosuch"`.
    text: String,
}

impl Wrong {
    /// The file, the place in it, and the fault.
    pub(crate) fn as_str(&self) -> &str
        ensures { result.now ≡ string_bytes self.now.text }
    {
        self.text.as_str()
    }
}

fn kind_text(kind: FileKind) -> &'static str
    ensures { result.now ≡ kind_text kind }
{
    match kind {
        FileKind::Script => "script ",
        FileKind::Profile => "profile ",
    }
}

fn cause_text(alloc: Global, wrong: &Wrong) -> Result<CauseText, AllocError>
    ensures { IfOk result (λ text. text ≡ cause_text wrong.now) }
{
    let mut text = String::from_str(alloc, kind_text(wrong.kind))?;
    text.push_str(wrong.as_str())?;
    Ok(CauseText::new(text))
}

/// Why a request with a bad file is refused.
pub(crate) fn cause_in(
    alloc: Global,
    request: &Request,
    wrong: &Wrong,
) -> Result<Option<Cause>, AllocError>
    ensures { IfOk result (λ cause. cause ≡ cause_in request.now.id request.now.call wrong.now) }
{
    let Call::CreateContainer { key, .. } = &request.call else {
        return Ok(None);
    };
    Ok(Some(Cause {
        number: request.id,
        uid: key.uid.try_clone(alloc)?,
        name: key.container.name.try_clone(alloc)?,
        text: cause_text(alloc, wrong)?,
    }))
}

/// Whether an answer may be due to a bad file.
pub(crate) fn is_of_files(answer: &Answer) -> bool
    ensures { result ≡ is_of_files answer.now }
{
    matches!(
        answer,
        Answer::Refused(Refusal::InvalidArgument | Refusal::Internal)
    )
}

/// A request to make a container, and its files: a copy that is kept until the request is answered, since a bad
/// file is looked for only if it is refused.
#[derive(Drop)]
pub(crate) struct CreationCopy {
    pub(crate) request: Request,
    pub(crate) files: FileAnswers,
}

impl CreationCopy {
    /// A copy of the request and its files, if it is to make a container.
    pub(crate) fn of(
        alloc: Global,
        request: &Request,
        files: &FileAnswers,
    ) -> Result<Option<CreationCopy>, AllocError>
        ensures request { IfOk result (λ copy. IfSome copy (λ creation. creation.request ≡ request.now)) }
        ensures files { IfOk result (λ copy. IfSome copy (λ creation. creation.files ≡ files.now)) }
    {
        let Call::CreateContainer { .. } = &request.call else {
            return Ok(None);
        };
        let request = request.try_clone(alloc)?;
        let files = FileAnswers {
            script: copied(alloc, &files.script)?,
            profile: copied(alloc, &files.profile)?,
        };
        Ok(Some(CreationCopy { request, files }))
    }
}

/// A copy of a file's bytes, or of why it could not be read.
fn copied<T: ReadAs + Drop>(
    alloc: Global,
    read: &FileAnswer<T>,
) -> Result<FileAnswer<T>, AllocError>
    ensures { IfOk result (λ copy. copy ≡ read.now) }
{
    match read {
        None => Ok(None),
        Some(Err(fault)) => Ok(Some(Err(*fault))),
        Some(Ok(contents)) => {
            let mut bytes = Vec::new(alloc);
            bytes.extend_from_slice(contents.as_slice())?;
            Ok(Some(Ok(Contents::new(contents.calls(), bytes))))
        }
    }
}

/// The first bad file of a request.
pub(crate) fn wrong_in(
    alloc: Global,
    scripts: &SystemFiles<'_, HostRuntime>,
    profiles: &SystemFiles<'_, HostRuntime>,
    request: &Request,
    files: &FileAnswers,
) -> Result<Option<Wrong>, AllocError> {
    let Call::CreateContainer { image, profile, .. } = &request.call else {
        return Ok(None);
    };
    if let Some(text) = wrong_script(alloc, scripts, image.as_str(), &files.script)? {
        let kind = FileKind::Script;
        return Ok(Some(Wrong { kind, text }));
    }
    let wrong = match profile {
        SeccompProfile::Localhost(path) => {
            wrong_profile(alloc, profiles, path.as_str(), &files.profile)?
        }
        SeccompProfile::RuntimeDefault | SeccompProfile::Unconfined => None,
    };
    match wrong {
        Some(text) => {
            let kind = FileKind::Profile;
            Ok(Some(Wrong { kind, text }))
        }
        None => Ok(None),
    }
}

fn wrong_script(
    alloc: Global,
    files: &SystemFiles<'_, HostRuntime>,
    path: &str,
    read: &FileAnswer<Script>,
) -> Result<Option<String>, AllocError> {
    match read {
        None => Ok(None),
        Some(Err(fault)) => Ok(Some(unread(alloc, files, path, *fault)?)),
        Some(Ok(contents)) => script_fault(alloc, path, contents),
    }
}

// The first fault of a script's text, if it has one.
fn script_fault(
    alloc: Global,
    path: &str,
    contents: &Contents<Script>,
) -> Result<Option<String>, AllocError>
    ensures { IfOk result (TellsScript path.now contents.now) }
{
    let (calls, bytes) = (contents.calls(), contents.as_slice());
    match script::read_placed_with(alloc, calls, bytes) {
        Ok(_script) => Ok(None),
        Err(found) => match found.fault {
            ScriptFault::Memory => Ok(None),
            _ => Ok(Some(behind(
                alloc,
                path,
                &script_note(alloc, bytes, &found)?,
                hint_of_text(alloc, bytes, Wanted::Script)?,
            )?)),
        },
    }
}

// The file's path, the note, and the hint on what the file seems to be, if there is one.
fn behind(alloc: Global, path: &str, note: &str, hint: Option<Hint>) -> Result<String, AllocError>
    ensures { IfOk result (λ text. string_bytes text ≡ shown_path path.now ++ (note.now ++ hint_after hint)) }
{
    format!(in alloc; "{}{note}{}", ShownPath(path), HintAfter(hint))
}

fn wrong_profile(
    alloc: Global,
    files: &SystemFiles<'_, HostRuntime>,
    path: &str,
    read: &FileAnswer<CompiledProfile>,
) -> Result<Option<String>, AllocError> {
    match read {
        None => Ok(None),
        Some(Err(fault)) => Ok(Some(unread(alloc, files, path, *fault)?)),
        Some(Ok(contents)) => profile_fault(alloc, path, contents),
    }
}

// The first fault of a profile's text, if it has one.
fn profile_fault(
    alloc: Global,
    path: &str,
    contents: &Contents<CompiledProfile>,
) -> Result<Option<String>, AllocError>
    ensures { IfOk result (TellsProfile path.now contents.now) }
{
    let (calls, bytes) = (contents.calls(), contents.as_slice());
    match oci_profile::read_placed_with(alloc, calls, bytes) {
        Ok(profile) => match compile(alloc, &profile) {
            Ok(_) | Err(CompileFault::Memory) => Ok(None),
            Err(CompileFault::TooLong) => Ok(Some(behind(alloc, path, ": TooLong", None)?)),
        },
        Err(found) => match found.fault {
            ProfileFault::Memory => Ok(None),
            _ => Ok(Some(behind(
                alloc,
                path,
                &profile_note(alloc, bytes, &found)?,
                hint_of_text(alloc, bytes, Wanted::Profile)?,
            )?)),
        },
    }
}

// The note on an unreadable file. After a failed read, queries the system again for the cause.
fn unread(
    alloc: Global,
    files: &SystemFiles<'_, HostRuntime>,
    path: &str,
    fault: FileFault,
) -> Result<String, AllocError> {
    let cause = match fault {
        FileFault::Failed => files.cause(path, MAX_FILE_BYTES),
        FileFault::NotFound | FileFault::TooLarge | FileFault::Memory => None,
    };
    format!(in alloc; "{}: {}", ShownPath(path), CausedFault { fault, cause })
}
