//! The pods of files that are on the node.
ghost use Rattle.std.specs.Prelude.{◌≡◌, ◌↔◌, IfSome, IfNone, IsTrue, All, Contains, find, option_copied};
ghost use Rattle.std.specs.Prelude.{position};
ghost use Rattle.std.specs.List.{list_any};
ghost use Rattle.std.specs.Str.{bytes_eq};
ghost use Rattle.pod_folder.specs.Placing.{AsksForAnother, Leaves, LeavesBy, NoneLeaves, comes, file_of};
ghost use Rattle.pod_folder.specs.Placing.{place_of_pod};

use crate::looks::{FoundFile, Manifest};
use manifest::Uid;
use std::alloc::Global;
use std::marker::Model;
use std::rc::Rc;

/// The pod of a file that is on the node.
#[derive(Drop)]
pub struct PlacedPod {
    pub(crate) name: String,
    pub(crate) uid: Uid,
    pub(crate) manifest: Rc<Manifest, Global>,
    // Whether its deletion was recorded.
    pub(crate) leaving: bool,
    // Whether the runtime has lost it.
    pub(crate) lost: bool,
}

impl Model for PlacedPod {
    ghost use Rattle.std.specs.String.{string_bytes};
    ghost use Rattle.pod_folder.specs.Placing.{Placed};

    ghost Value = { Placed };

    ghost view = { λ p. record {
      name = string_bytes p.name;
      uid = p.uid;
      manifest = p.manifest.value;
      leaving = p.leaving;
      lost = p.lost;
    } };
}

// The file of this name.
pub(crate) fn file_of<'f>(name: &str, found: &'f [FoundFile]) -> Option<&'f FoundFile>
    ensures { option_copied result ≡ file_of name.now found.now }
{
    found.iter().find(|file| file.name.as_str() == name)
}

// Whether a file asks for another pod than this one.
fn is_another(asked: Option<&Manifest>, placed: &PlacedPod) -> bool
    ensures { IsTrue result ↔ AsksForAnother (option_copied asked.entry) placed.now }
{
    match asked {
        Some(manifest) => !manifest.pod.same(&placed.manifest.pod),
        None => false,
    }
}

// Whether the file is gone, or asks for another pod than this one.
fn leaves_by(file: Option<&FoundFile>, placed: &PlacedPod) -> bool
    ensures { IsTrue result ↔ LeavesBy (option_copied file.entry) placed.now }
{
    match file {
        Some(file) => is_another(file.asks(), placed),
        None => true,
    }
}

// Whether the pod's deletion is due.
fn is_to_leave(found: &[FoundFile], placed: &PlacedPod) -> bool
    ensures { IsTrue result ↔ Leaves found.now placed.now }
{
    if placed.leaving {
        false
    } else if placed.lost {
        true
    } else {
        leaves_by(file_of(placed.name.as_str(), found), placed)
    }
}

/// A pod whose deletion is due, if there is one.
pub(crate) fn leaving<'p>(found: &[FoundFile], placed: &'p [PlacedPod]) -> Option<&'p PlacedPod>
    ensures some { IfSome result (λ pod. Contains placed.now pod.now × Leaves found.now pod.now) }
    ensures none { IfNone result (NoneLeaves found.now placed.now) }
{
    placed.iter().find(|pod| is_to_leave(found, pod))
}

fn is_placed(name: &str, placed: &[PlacedPod]) -> bool
    ensures { result ≡ list_any (λ p. bytes_eq p.name name.now) placed.now }
{
    placed.iter().any(|pod| pod.name.as_str() == name)
}

fn comes(placed: &[PlacedPod], file: &FoundFile) -> bool
    ensures { result ≡ comes placed.now file.now }
{
    !file.tried && file.asks().is_some() && !is_placed(file.name.as_str(), placed)
}

/// The place of the first file whose pod is due for admission.
pub(crate) fn coming(found: &[FoundFile], placed: &[PlacedPod]) -> Option<usize>
    ensures { result ≡ position (comes placed.now) found.now }
{
    found.iter().position(|file| comes(placed, file))
}

/// The place of the pod of this uid.
pub(crate) fn place_of_pod(uid: &Uid, placed: &[PlacedPod]) -> Option<usize>
    ensures { result ≡ place_of_pod uid.now placed.now }
{
    placed.iter().position(|pod| pod.uid == *uid)
}
