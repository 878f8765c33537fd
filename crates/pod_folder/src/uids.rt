ghost use Rattle.std.specs.Prelude.{◌≡◌, ◌++◌, IfOk, OnOk, None, Some, if◌then◌else◌, option_map};
ghost use Rattle.std.specs.Prelude.{string_bytes};
ghost use Rattle.manifest.specs.Texts.{is_uid};
ghost use Rattle.pod_folder.specs.Uids.{base_of, numbered, uid_text, with_run};

use manifest::{Pod, Uid};
use std::alloc::{AllocError, Global};

/// The uid of a pod whose manifest sets none: the n-th pod of its name, from 1, in a run of this name. `None`
/// if the text is too long for a uid, or the run's name has bytes that a uid may not have.
pub fn uid_for(
    alloc: Global,
    pod: &Pod,
    place: u32,
    run: Option<&str>,
) -> Result<Option<Uid>, AllocError>
    ensures { IfOk result (λ uid. uid ≡ (if is_uid
        (uid_text pod.now place (option_map (λ r. r.now) run.entry))
        then Some (uid_text pod.now place (option_map (λ r. r.now) run.entry)) else None)) }
{
    let text = text_of(alloc, pod, place, run)?;
    Uid::new(alloc, text.as_str())
}

fn text_of(alloc: Global, pod: &Pod, place: u32, run: Option<&str>) -> Result<String, AllocError>
    ensures { IfOk result (λ text. string_bytes text
        ≡ uid_text pod.now place (option_map (λ r. r.now) run.entry)) }
{
    let base = base(alloc, pod)?;
    let text = numbered(alloc, base, place)?;
    with_run(alloc, text, run)
}

fn with_run(alloc: Global, text: String, run: Option<&str>) -> Result<String, AllocError>
    ensures { IfOk result (λ t. string_bytes t
        ≡ with_run (string_bytes text) (option_map (λ r. r.now) run.entry)) }
{
    match run {
        Some(run) => format!(in alloc; "{}.{run}", text.as_str()),
        None => Ok(text),
    }
}

fn base(alloc: Global, pod: &Pod) -> Result<String, AllocError>
    ensures { IfOk result (λ text. string_bytes text ≡ base_of pod.now) }
{
    format!(in alloc; "{}.{}", pod.namespace.as_str(), pod.name.as_str())
}

fn numbered(alloc: Global, base: String, place: u32) -> Result<String, AllocError>
    ensures { IfOk result (λ text. string_bytes text ≡ numbered (string_bytes base) place) }
{
    if place <= 1 {
        Ok(base)
    } else {
        format!(in alloc; "{}-{place}", base.as_str())
    }
}
