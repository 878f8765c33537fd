ghost use Rattle.std.specs.Prelude.{◌≡◌, ◌≢◌, ◌↔◌, ◌<◌, ◌≤◌, IfOk, IfErr, IsTrue, Ok, length};
ghost use Rattle.json_tree.specs.Reading.{Gives};
ghost use Rattle.cri_msgs.specs.declared.calls.Call.{Call};
ghost use Rattle.cri_msgs.specs.declared.calls.Request.{Request};
ghost use Rattle.cri_msgs.specs.declared.faults.MessageFault.{MessageFault};
ghost use Rattle.cri_msgs.specs.declared.version.TheConstants.{MAX_TEXT};
ghost use Rattle.cri_msgs.specs.Reading.{request_reading};
ghost use Rattle.cri_msgs.specs.Requests.{IsCallOf, ReadsRequest, number_of};
ghost use Rattle.cri_msgs.specs.Written.{request_text};

use crate::faults::MessageFault;
use crate::fields::message_fault;
use crate::keys::Key;
use crate::request_reader::request;
use crate::request_writer::call_tree;
use crate::version::Version;
use json_tree::TextFault;
use manifest::{DescendingPath, SeccompProfile, Uid};
use std::alloc::{AllocError, Global};

/// A call to a runtime, by its name in CRI v1. A grace period is in seconds.
#[derive(Debug, Drop)]
pub enum Call {
    RunPodSandbox {
        uid: Uid,
    },
    /// CRI's has no grace period; this project adds one.
    StopPodSandbox {
        uid: Uid,
        grace: u64,
    },
    RemovePodSandbox {
        uid: Uid,
    },
    CreateContainer {
        key: Key,
        /// The file of its script, relative to the runtime's folder of scripts.
        image: DescendingPath,
        /// The path of a Localhost profile is relative to the runtime's folder of profiles.
        profile: SeccompProfile,
    },
    StartContainer {
        key: Key,
    },
    StopContainer {
        key: Key,
        grace: u64,
    },
    RemoveContainer {
        key: Key,
    },
    ContainerStatus {
        key: Key,
    },
    ListContainers {
        uid: Uid,
    },
    /// The statuses of all containers of a sandbox. This project's own call, only in version 2.
    ContainerStatuses {
        uid: Uid,
    },
}

impl Call {
    /// Whether both are the same call.
    pub fn same(&self, other: &Call) -> bool
        ensures { IsTrue result ↔ (self.now ≡ other.now) }
    {
        match (self, other) {
            (Call::RunPodSandbox { uid: a }, Call::RunPodSandbox { uid: b })
            | (Call::RemovePodSandbox { uid: a }, Call::RemovePodSandbox { uid: b })
            | (Call::ListContainers { uid: a }, Call::ListContainers { uid: b })
            | (Call::ContainerStatuses { uid: a }, Call::ContainerStatuses { uid: b }) => {
                a.as_str() == b.as_str()
            }
            (
                Call::StopPodSandbox { uid: a, grace: g },
                Call::StopPodSandbox { uid: b, grace: h },
            ) => { *g == *h && a.as_str() == b.as_str() }
            (
                Call::CreateContainer {
                    key: a,
                    image: i,
                    profile: p,
                },
                Call::CreateContainer {
                    key: b,
                    image: j,
                    profile: q,
                },
            ) => a.same(b) && i.as_str() == j.as_str() && p.same(q),
            (Call::StopContainer { key: a, grace: g }, Call::StopContainer { key: b, grace: h }) =>
                { *g == *h && a.same(b) }
            (Call::StartContainer { key: a }, Call::StartContainer { key: b })
            | (Call::RemoveContainer { key: a }, Call::RemoveContainer { key: b })
            | (Call::ContainerStatus { key: a }, Call::ContainerStatus { key: b }) => a.same(b),
            _ => false,
        }
    }

    /// A copy of the call.
    pub fn try_clone(&self, alloc: Global) -> Result<Call, AllocError>
        ensures { IfOk result (λ copy. copy ≡ self.now) }
    {
        match self {
            Call::RunPodSandbox { uid } => {
                let uid = uid.try_clone(alloc)?;
                Ok(Call::RunPodSandbox { uid })
            }
            Call::StopPodSandbox { uid, grace } => {
                let uid = uid.try_clone(alloc)?;
                Ok(Call::StopPodSandbox { uid, grace: *grace })
            }
            Call::RemovePodSandbox { uid } => {
                let uid = uid.try_clone(alloc)?;
                Ok(Call::RemovePodSandbox { uid })
            }
            Call::StartContainer { key } => {
                let key = key.try_clone(alloc)?;
                Ok(Call::StartContainer { key })
            }
            Call::StopContainer { key, grace } => {
                let key = key.try_clone(alloc)?;
                Ok(Call::StopContainer { key, grace: *grace })
            }
            Call::RemoveContainer { key } => {
                let key = key.try_clone(alloc)?;
                Ok(Call::RemoveContainer { key })
            }
            Call::ContainerStatus { key } => {
                let key = key.try_clone(alloc)?;
                Ok(Call::ContainerStatus { key })
            }
            Call::ListContainers { uid } => {
                let uid = uid.try_clone(alloc)?;
                Ok(Call::ListContainers { uid })
            }
            Call::ContainerStatuses { uid } => {
                let uid = uid.try_clone(alloc)?;
                Ok(Call::ContainerStatuses { uid })
            }
            Call::CreateContainer {
                key,
                image,
                profile,
            } => create_again(alloc, key, image, profile),
        }
    }
}

fn create_again(
    alloc: Global,
    key: &Key,
    image: &DescendingPath,
    profile: &SeccompProfile,
) -> Result<Call, AllocError>
    ensures { IfOk result (λ copy. copy ≡ Call.CreateContainer key.now image.now profile.now) }
{
    let key = key.try_clone(alloc)?;
    let image = image.try_clone(alloc)?;
    let profile = profile.try_clone(alloc)?;
    Ok(Call::CreateContainer {
        key,
        image,
        profile,
    })
}

/// A call with its number.
#[derive(Debug, Drop)]
pub struct Request {
    pub id: u64,
    pub call: Call,
}

impl Request {
    /// Whether both are the same request.
    pub fn same(&self, other: &Request) -> bool
        ensures { IsTrue result ↔ (self.now ≡ other.now) }
    {
        self.id == other.id && self.call.same(&other.call)
    }

    /// Reads the request in the text of a frame of this version. Any other text is reported with its number.
    pub fn read(alloc: Global, version: Version, bytes: &[u8]) -> Result<Request, MessageFault>
        // The result is the text's request.
        ensures found { IfOk result (λ request. ReadsRequest version bytes.now request) }

        // Every request is read, unless memory runs out.
        ensures only { (request : Request) → ReadsRequest version bytes.now request
            → Gives MessageFault.Memory (λ r. r) result (Ok request) }

        // Any other text is reported with its number.
        ensures refused { IfErr result (λ fault. fault ≢ MessageFault.Memory
            → fault ≡ MessageFault.NoMessage (number_of bytes.now)) }
    {
        reading(alloc, version, bytes)
    }

    /// The text of the request in a frame of this version: compact JSON, keys in the order of their bytes.
    /// Version 1 has no ContainerStatuses: the text of that call then does not read as a message.
    #[tactic(auto, using(crate::proofs::WrittenRequest::no_float))]
    pub fn write(&self, alloc: Global, version: Version) -> Result<Vec<u8>, AllocError>
        ensures text { IfOk result (λ bytes. bytes.items ≡ request_text version self.now) }

        // The text reads as this request.
        ensures reads { IsCallOf version self.now.call
            → IfOk result (λ bytes. ReadsRequest version bytes.items self.now) }

        // It fits into a frame.
        ensures some { IfOk result (λ bytes. 0 < length bytes.items) }
        ensures short { IfOk result (λ bytes. length bytes.items ≤ MAX_TEXT) }
    {
        let tree = call_tree(alloc, version, self.id, &self.call)?;
        tree.to_vec(alloc)
    }

    /// A copy of the request.
    pub fn try_clone(&self, alloc: Global) -> Result<Request, AllocError>
        ensures { IfOk result (λ copy. copy ≡ self.now) }
    {
        let call = self.call.try_clone(alloc)?;
        Ok(Request { id: self.id, call })
    }
}

#[tactic(auto, unfolding(json_tree::specs::Reading::document))]
fn reading(alloc: Global, version: Version, bytes: &[u8]) -> Result<Request, MessageFault>
    ensures { Gives MessageFault.Memory (λ r. r) result (request_reading version bytes.now) }
{
    match json_tree::read(alloc, bytes) {
        Ok(tree) => request(alloc, version, &tree).map_err(|fault| message_fault(fault, &tree)),
        Err(TextFault::NotJson) => Err(MessageFault::NoMessage(0)),
        Err(TextFault::Memory) => Err(MessageFault::Memory),
    }
}
