//! The scripts and profiles of recent containers, for the next container that is made of the same bytes.
ghost use Rattle.std.specs.Prelude.{◌≡◌, IfSome, IsTrue};

use crate::files::{FileAnswer, FileAnswers};
use crate::texts::{CompiledProfile, ReadAs};
use script::Script;
use std::alloc::Global;
use std::marker::Model;
use sys_table::CallTable;

/// The greatest number of scripts that are kept.
pub const MAX_KEPT_SCRIPTS: usize = 64;

/// The greatest number of profiles that are kept.
pub const MAX_KEPT_PROFILES: usize = 16;

/// The memory limit of the kept scripts, and that of the kept profiles, in bytes.
pub const MAX_KEPT_BYTES: usize = 8 << 20;

// A text, the calls that were known to its reader, and its value.
#[derive(Drop)]
pub(crate) struct KeptText<T: ReadAs + Drop> {
    calls: CallTable,
    bytes: Vec<u8>,
    value: T,
}

impl<T: ReadAs + Drop> Model for KeptText<T> {
    ghost use Rattle.creation.specs.Made.{FileText};

    ghost Value = { FileText × T };

    ghost view = { λ kept. (record { calls = kept.calls; bytes = kept.bytes.items }, kept.value) };

    ghost invariant = { λ kept. T.is_of (record { calls = kept.calls; bytes = kept.bytes.items }) kept.value };
}

impl<T: ReadAs + Drop> KeptText<T> {
    // A copy of this text and its value. `None` if memory runs out.
    pub(crate) fn new(
        alloc: Global,
        calls: CallTable,
        bytes: &[u8],
        value: &T,
    ) -> Option<KeptText<T>>
        requires { T.is_of (record { calls = calls; bytes = bytes.now }) value.now }
    {
        let bytes = Vec::from_slice(alloc, bytes).ok()?;
        let value = value.share(alloc).ok()?;
        Some(KeptText {
            calls,
            bytes,
            value,
        })
    }

    fn is_of(&self, calls: CallTable, bytes: &[u8]) -> bool
        ensures { IsTrue result → self.now.0 ≡ record { calls = calls; bytes = bytes.now } }
    {
        self.calls == calls && self.bytes.as_slice() == bytes
    }

    // The value, if these bytes are the text and these are the known calls.
    fn value_of(&self, alloc: Global, calls: CallTable, bytes: &[u8]) -> Option<T>
        ensures { IfSome result (T.is_of (record { calls = calls; bytes = bytes.now })) }
    {
        if self.is_of(calls, bytes) {
            self.value.share(alloc).ok()
        } else {
            None
        }
    }

    fn size(&self) -> usize {
        self.value.size(self.bytes.len())
    }
}

// The newest texts of one kind.
#[derive(Drop)]
struct KeptList<T: ReadAs + Drop> {
    // The limit of their number.
    most: usize,
    texts: Vec<KeptText<T>>,
}

impl<T: ReadAs + Drop> KeptList<T> {
    fn new(alloc: Global, most: usize) -> KeptList<T> {
        KeptList {
            most,
            texts: Vec::new(alloc),
        }
    }

    // The value of these bytes, if it is known.
    fn find(&self, alloc: Global, calls: CallTable, bytes: &[u8]) -> Option<T>
        ensures { IfSome result (T.is_of (record { calls = calls; bytes = bytes.now })) }
    {
        for text in self.texts.as_slice() {
            if let Some(value) = text.value_of(alloc, calls, bytes) {
                return Some(value);
            }
        }
        None
    }

    // The same result, with the value of its bytes, if that is known.
    fn lend(&self, alloc: Global, answer: FileAnswer<T>) -> FileAnswer<T>
        ensures { result ≡ answer }
    {
        match answer {
            Some(Ok(contents)) => {
                let known = self.find(alloc, contents.calls(), contents.as_slice());
                Some(Ok(contents.with_known(known)))
            }
            Some(Err(fault)) => Some(Err(fault)),
            None => None,
        }
    }

    // An upper bound of the memory of all texts, in bytes.
    fn size(&self) -> usize {
        let mut size: usize = 0;
        for text in self.texts.as_slice() {
            size = size.saturating_add(text.size());
        }
        size
    }

    fn has_place_for(&self, size: usize) -> bool {
        self.texts.len() < self.most && self.size().saturating_add(size) <= MAX_KEPT_BYTES
    }

    // Whether this text is kept.
    fn has(&self, text: &KeptText<T>) -> bool {
        let (calls, bytes) = (text.calls, text.bytes.as_slice());
        self.texts.iter().any(|it| it.is_of(calls, bytes))
    }

    // Keeps this text, and drops the oldest ones until it fits. A text that is too large, or for which memory
    // runs out, is not kept.
    fn add(&mut self, text: KeptText<T>) {
        let size = text.size();
        if size > MAX_KEPT_BYTES || self.has(&text) {
            return;
        }
        for _ in 0..self.most {
            if !self.has_place_for(size) && !self.texts.is_empty() {
                drop(self.texts.remove(0));
            }
        }
        drop(self.texts.push(text));
    }
}

/// The texts of one request that were not known before.
#[derive(Drop)]
pub struct NewTexts {
    pub(crate) script: Option<KeptText<Script>>,
    pub(crate) profile: Option<KeptText<CompiledProfile>>,
}

impl NewTexts {
    /// Whether there are none.
    pub fn is_empty(&self) -> bool {
        self.script.is_none() && self.profile.is_none()
    }
}

/// The scripts and compiled profiles that were read last, found by their bytes. Contracts do not see them,
/// since they change no answer.
#[derive(Drop)]
pub struct KeptTexts {
    alloc: Global,
    scripts: KeptList<Script>,
    profiles: KeptList<CompiledProfile>,
}

impl Model for KeptTexts {
    ghost Value = { Unit {0} };

    ghost view = { λ _. tt };
}

impl KeptTexts {
    /// No texts.
    pub fn new(alloc: Global) -> KeptTexts {
        KeptTexts {
            alloc,
            scripts: KeptList::new(alloc, MAX_KEPT_SCRIPTS),
            profiles: KeptList::new(alloc, MAX_KEPT_PROFILES),
        }
    }

    /// The same results, with those values of their bytes that are known.
    pub fn lend(&self, files: FileAnswers) -> FileAnswers
        ensures { result ≡ files }
    {
        let FileAnswers { script, profile } = files;
        FileAnswers {
            script: self.scripts.lend(self.alloc, script),
            profile: self.profiles.lend(self.alloc, profile),
        }
    }

    /// Keeps these texts.
    pub fn keep(&mut self, new: NewTexts) {
        let NewTexts { script, profile } = new;
        if let Some(script) = script {
            self.scripts.add(script);
        }
        if let Some(profile) = profile {
            self.profiles.add(profile);
        }
    }
}
