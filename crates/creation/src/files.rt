ghost use Rattle.std.specs.Prelude.{◌≡◌, ◌≢◌, ◌⊎◌, Ok, IfOk, IfErr, IfSome};
ghost use Rattle.cri_msgs.specs.declared.refusals.Refusal.{Refusal};
ghost use Rattle.creation.specs.Made.{IsReading};

use crate::kept::{KeptText, NewTexts};
use crate::texts::{CompiledProfile, ReadAs};
use cri_msgs::Refusal;
use node_io::FileFault;
use script::Script;
use std::alloc::Global;
use std::marker::Model;
use sys_table::CallTable;

/// The bytes of a file that was read, and the calls that are known. Contracts see both. The result of reading
/// these bytes as a script or profile may be kept with them.
#[derive(Drop)]
pub struct Contents<T: ReadAs + Drop> {
    calls: CallTable,
    bytes: Vec<u8>,
    // `None` if they were not read yet.
    value: Option<Result<T, Refusal>>,
    // Whether the value is one of those kept from an earlier request.
    is_known: bool,
}

impl<T: ReadAs + Drop> Model for Contents<T> {
    ghost use Rattle.std.specs.Prelude.{IfSome};
    ghost use Rattle.creation.specs.Made.{FileText, IsReading};

    ghost Value = { FileText };

    ghost view = { λ c. record { calls = c.calls; bytes = c.bytes.items } };

    // The value is the result of reading the bytes.
    ghost invariant = { λ c. IfSome c.value
        (IsReading T.is_of T.lacks (record { calls = c.calls; bytes = c.bytes.items })) };
}

impl<T: ReadAs + Drop> Contents<T> {
    /// The contents with these bytes, if these are the known calls.
    pub fn new(calls: CallTable, bytes: Vec<u8>) -> Contents<T>
        ensures { result ≡ record { calls = calls; bytes = bytes.items } }
    {
        Contents {
            calls,
            bytes,
            value: None,
            is_known: false,
        }
    }

    /// The bytes.
    pub fn as_slice(&self) -> &[u8]
        ensures { result.now ≡ self.now.bytes }
    {
        self.bytes.as_slice()
    }

    /// The calls that are known.
    pub fn calls(&self) -> CallTable
        ensures { result ≡ self.now.calls }
    {
        self.calls
    }

    /// The same contents, with the result of reading them.
    fn prepared(self, alloc: Global) -> Contents<T>
        ensures { result ≡ self }
    {
        if self.value.is_some() {
            return self;
        }
        let Contents { calls, bytes, .. } = self;
        let value = lasting_value(alloc, calls, bytes.as_slice());
        Contents {
            calls,
            bytes,
            value,
            is_known: false,
        }
    }

    /// The same contents, with their value, if that is known.
    pub(crate) fn with_known(self, known: Option<T>) -> Contents<T>
        requires { IfSome known (T.is_of self) }
        ensures { result ≡ self }
    {
        let Some(value) = known else {
            return self;
        };
        let Contents { calls, bytes, .. } = self;
        Contents {
            calls,
            bytes,
            value: Some(Ok(value)),
            is_known: true,
        }
    }

    /// A copy of the bytes and their value, if they were read for this request and memory is left.
    fn new_text(&self, alloc: Global) -> Option<KeptText<T>> {
        match &self.value {
            Some(Ok(value)) if !self.is_known => {
                KeptText::new(alloc, self.calls, self.bytes.as_slice(), value)
            }
            _ => None,
        }
    }

    /// The value of the bytes.
    pub(crate) fn into_value(self, alloc: Global) -> Result<T, Refusal>
        ensures found { IfOk result (T.is_of self) }
        ensures refused { IfErr result (λ refusal. (refusal ≡ Refusal.Memory) ⊎ T.lacks (Ok self) refusal) }
    {
        let Contents {
            calls,
            bytes,
            value,
            ..
        } = self;
        value_by(alloc, calls, bytes.as_slice(), value)
    }
}

/// The value of these bytes: the kept one, else the result of reading them now.
fn value_by<T: ReadAs + Drop>(
    alloc: Global,
    calls: CallTable,
    bytes: &[u8],
    kept: Option<Result<T, Refusal>>,
) -> Result<T, Refusal>
    requires { IfSome kept (IsReading T.is_of T.lacks (record { calls = calls; bytes = bytes.now })) }
    ensures found { IfOk result (T.is_of (record { calls = calls; bytes = bytes.now })) }
    ensures refused { IfErr result (λ refusal. (refusal ≡ Refusal.Memory)
        ⊎ T.lacks (Ok (record { calls = calls; bytes = bytes.now })) refusal) }
{
    match kept {
        Some(Ok(value)) => Ok(value),
        Some(Err(refusal)) => Err(refusal),
        None => T::read(alloc, calls, bytes),
    }
}

/// The refusal, unless memory ran out.
fn lasting(refusal: Refusal) -> Option<Refusal>
    ensures { IfSome result (λ same. (same ≡ refusal) × (same ≢ Refusal.Memory)) }
{
    if refusal == Refusal::Memory {
        return None;
    }
    Some(refusal)
}

/// The value of these bytes, or why they have none. `None` if memory runs out.
fn lasting_value<T: ReadAs + Drop>(
    alloc: Global,
    calls: CallTable,
    bytes: &[u8],
) -> Option<Result<T, Refusal>>
    ensures { IfSome result (IsReading T.is_of T.lacks (record { calls = calls; bytes = bytes.now })) }
{
    match T::read(alloc, calls, bytes) {
        Ok(value) => Some(Ok(value)),
        Err(refusal) => Some(Err(lasting(refusal)?)),
    }
}

/// The result of reading a file, if the request needs it.
pub type FileAnswer<T> = Option<Result<Contents<T>, FileFault>>;

/// The results of reading a request's files. A result that is needed and missing counts as a failed read.
#[derive(Drop)]
pub struct FileAnswers {
    /// The file of the script, for CreateContainer.
    pub script: FileAnswer<Script>,
    /// The file of the profile, if that is Localhost.
    pub profile: FileAnswer<CompiledProfile>,
}

impl FileAnswers {
    /// The same results, with script and profile already read and the profile compiled, so that a caller can
    /// do this work before it takes a lock. Work for which memory runs out is left for later.
    pub fn prepared(self, alloc: Global) -> FileAnswers
        ensures { result ≡ self }
    {
        let FileAnswers { script, profile } = self;
        FileAnswers {
            script: prepared(alloc, script),
            profile: prepared(alloc, profile),
        }
    }

    /// Whether no file was read.
    pub fn is_empty(&self) -> bool {
        self.script.is_none() && self.profile.is_none()
    }

    /// Copies of the texts that were read for this request, with their values.
    pub fn new_texts(&self, alloc: Global) -> NewTexts {
        NewTexts {
            script: new_text(alloc, &self.script),
            profile: new_text(alloc, &self.profile),
        }
    }
}

fn prepared<T: ReadAs + Drop>(alloc: Global, answer: FileAnswer<T>) -> FileAnswer<T>
    ensures { result ≡ answer }
{
    match answer {
        Some(Ok(contents)) => Some(Ok(contents.prepared(alloc))),
        Some(Err(fault)) => Some(Err(fault)),
        None => None,
    }
}

fn new_text<T: ReadAs + Drop>(alloc: Global, answer: &FileAnswer<T>) -> Option<KeptText<T>> {
    match answer {
        Some(Ok(contents)) => contents.new_text(alloc),
        _ => None,
    }
}
