//! What a look into a folder finds: each file with what was read there.
ghost use Rattle.std.specs.Prelude.{◌≡◌, IfOk, option_copied, option_map};
ghost use Rattle.std.specs.String.{string_bytes};
ghost use Rattle.pod_folder.specs.Looks.{asked_by};

use manifest::Pod;
use node_io::CausedFault;
use std::alloc::{AllocError, Global};
use std::marker::Model;
use std::rc::Rc;

/// Identifies the state of a file: its device and inode, its size, and when its bytes and its inode changed
/// last, in seconds and nanoseconds.
#[derive(Clone, Copy, Debug, PartialEq, Eq)]
pub struct Stamp {
    pub device: u64,
    pub inode: u64,
    pub size: u64,
    pub modified: (i64, i64),
    pub changed: (i64, i64),
}

/// A pod as its manifest describes it.
#[derive(Debug, Drop)]
pub struct Manifest {
    pub pod: Pod,
    /// Whether the manifest sets the uid of the pod.
    pub gives_uid: bool,
}

/// What was read in a file.
#[derive(Drop)]
pub enum Content {
    /// A manifest.
    Manifest(Rc<Manifest, Global>),
    /// A text that is refused.
    Refused,
    /// It can't be read.
    Unread(CausedFault),
}

impl Content {
    /// The same content, shared.
    pub(crate) fn share(&self) -> Result<Content, AllocError>
        ensures { IfOk result (λ content. asked_by content ≡ asked_by self.now) }
    {
        match self {
            Content::Manifest(manifest) => Ok(Content::Manifest(manifest.clone()?)),
            Content::Refused => Ok(Content::Refused),
            Content::Unread(fault) => Ok(Content::Unread(*fault)),
        }
    }

    /// The manifest, shared.
    pub(crate) fn shared(&self) -> Result<Option<Rc<Manifest, Global>>, AllocError>
        ensures { IfOk result (λ manifest. option_map (λ m. m.value) manifest ≡ asked_by self.now) }
    {
        match self {
            Content::Manifest(manifest) => Ok(Some(manifest.clone()?)),
            Content::Refused | Content::Unread(_) => Ok(None),
        }
    }

    /// Why the file can't be read, if it can't.
    pub(crate) fn fault(&self) -> Option<CausedFault> {
        match self {
            Content::Unread(fault) => Some(*fault),
            Content::Manifest(_) | Content::Refused => None,
        }
    }

    /// The pod that the file asks for.
    pub(crate) fn asked(&self) -> Option<&Manifest>
        ensures { option_copied result ≡ asked_by self.now }
    {
        match self {
            Content::Manifest(manifest) => Some(manifest),
            Content::Refused | Content::Unread(_) => None,
        }
    }
}

/// A file that a look found.
#[derive(Drop)]
pub struct FoundFile {
    pub(crate) name: String,
    pub(crate) stamp: Option<Stamp>,
    pub(crate) content: Content,
    // Whether its pod must not be asked for again: the node refused it, or no uid can be made for it.
    pub(crate) tried: bool,
}

impl Model for FoundFile {
    ghost use Rattle.std.specs.String.{string_bytes};
    ghost use Rattle.pod_folder.specs.Looks.{Found, asked_by};

    ghost Value = { Found };

    ghost view = { λ f. record {
      name = string_bytes f.name;
      stamp = f.stamp;
      asks = asked_by f.content;
      tried = f.tried;
    } };
}

impl FoundFile {
    /// Its name.
    pub fn name(&self) -> &str
        ensures { result.now ≡ self.now.name }
    {
        self.name.as_str()
    }

    /// The pod that it asks for.
    pub fn asks(&self) -> Option<&Manifest>
        ensures { option_copied result ≡ self.now.asks }
    {
        self.content.asked()
    }
}
