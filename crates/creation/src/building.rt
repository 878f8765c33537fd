//! What a container is made from: its files, its filters, its name.
ghost use Rattle.std.specs.Prelude.{◌≡◌, ◌⊎◌, ◌++◌, [], ◌∷◌, Ok, IfOk, IfErr, IfSome, IsSome, OnOk};
ghost use Rattle.std.specs.Prelude.{Some, option_map, option_to_list};
ghost use Rattle.oci_profile.specs.RuntimeDefault.{runtime_default};
ghost use Rattle.cri_msgs.specs.declared.refusals.Refusal.{Refusal};
ghost use Rattle.runtime_cell.specs.Cell.{FollowsScript, GivesMeaning};
ghost use Rattle.verdict.specs.Stack.{AllSound};
ghost use Rattle.creation.specs.Files.{IsCellOf, IsMade, IsProfileFor, IsProfileIn, IsScriptIn, Lacks};
ghost use Rattle.creation.specs.Files.{LacksProfile, WasRead, text_in, label_for, path_of, refusal_of};
ghost use Rattle.creation.specs.Made.{FileText, IsProfileOf, LacksIn, LacksScript};

use crate::files::{Contents, FileAnswer, FileAnswers};
use crate::ready::ReadyDefault;
use crate::texts::{CompiledProfile, ReadAs};
use bpf_verify::Filter;
use cri_msgs::{ContainerMetadata, Refusal};
use manifest::{DescendingPath, SeccompProfile};
use node_io::FileFault;
use runtime_cell::{Cell, Label, Text};
use script::Script;
use std::alloc::{AllocError, Global};
use verdict::Stack;

fn refusal_of(fault: FileFault) -> Refusal
    ensures { result ≡ refusal_of fault }
{
    match fault {
        FileFault::NotFound | FileFault::TooLarge | FileFault::Failed => Refusal::Internal,
        FileFault::Memory => Refusal::Memory,
    }
}

/// The contents of a required file.
fn contents_in<T: ReadAs + Drop>(answer: FileAnswer<T>) -> Result<Contents<T>, Refusal>
    ensures { result ≡ text_in answer }
{
    match answer {
        None => Err(Refusal::Internal),
        Some(Err(fault)) => Err(refusal_of(fault)),
        Some(Ok(contents)) => Ok(contents),
    }
}

/// The script of a container.
fn script_of(alloc: Global, answer: FileAnswer<Script>) -> Result<Script, Refusal>
    ensures found { IfOk result (λ script. IsScriptIn (text_in answer) script) }
    ensures refused { IfErr result (λ refusal. LacksScript (text_in answer) refusal
        ⊎ (((text : FileText) × (text_in answer ≡ Ok text)) × (refusal ≡ Refusal.Memory))) }
{
    match contents_in(answer) {
        Ok(contents) => contents.into_value(alloc),
        Err(refusal) => Err(refusal),
    }
}

/// The container's own profile and its filter. `None` if it is unconfined.
fn own(
    alloc: Global,
    ready: &ReadyDefault,
    choice: &SeccompProfile,
    answer: FileAnswer<CompiledProfile>,
) -> Result<Option<CompiledProfile>, Refusal>
    ensures found { IfOk result (λ own. IsProfileFor choice.now (text_in answer)
        (option_map (λ b. b.profile) own)) }
    ensures means { IfOk result (λ own. IfSome own (λ b. GivesMeaning b.filter b.profile)) }
    ensures refused { IfErr result (λ refusal.
        (refusal ≡ Refusal.Memory) ⊎ LacksProfile choice.now (text_in answer) refusal) }
{
    match choice {
        SeccompProfile::Unconfined => Ok(None),
        SeccompProfile::RuntimeDefault => default_own(alloc, ready),
        SeccompProfile::Localhost(_) => file_own(alloc, answer),
    }
}

fn default_own(alloc: Global, ready: &ReadyDefault) -> Result<Option<CompiledProfile>, Refusal>
    ensures found { IfOk result (λ own. option_map (λ b. b.profile) own ≡ Some runtime_default) }
    ensures means { IfOk result (λ own. IfSome own (λ b. GivesMeaning b.filter b.profile)) }
    ensures refused { IfErr result (λ refusal. refusal ≡ Refusal.Memory) }
{
    match ready.built(alloc) {
        Ok(built) => Ok(Some(built)),
        Err(refusal) => Err(refusal),
    }
}

fn file_own(
    alloc: Global,
    answer: FileAnswer<CompiledProfile>,
) -> Result<Option<CompiledProfile>, Refusal>
    ensures found { IfOk result (λ own. IfSome own (λ b. IsProfileIn (text_in answer) b.profile)) }
    ensures some { IfOk result (λ own. IsSome own) }
    ensures means { IfOk result (λ own. IfSome own (λ b. GivesMeaning b.filter b.profile)) }
    ensures refused { IfErr result (λ refusal.
        (refusal ≡ Refusal.Memory) ⊎ LacksIn (text_in answer) refusal) }
{
    match contents_in(answer) {
        Ok(contents) => own_of(alloc, contents),
        Err(refusal) => Err(refusal),
    }
}

fn own_of(
    alloc: Global,
    contents: Contents<CompiledProfile>,
) -> Result<Option<CompiledProfile>, Refusal>
    ensures found { IfOk result (λ own. IfSome own (λ b. IsProfileOf contents b.profile)) }
    ensures some { IfOk result (λ own. IsSome own) }
    ensures means { IfOk result (λ own. IfSome own (λ b. GivesMeaning b.filter b.profile)) }
    ensures refused { IfErr result (λ refusal. (refusal ≡ Refusal.Memory) ⊎ LacksIn (Ok contents) refusal) }
{
    match contents.into_value(alloc) {
        Ok(built) => Ok(Some(built)),
        Err(refusal) => Err(refusal),
    }
}

/// The filters at a container's start: the node's own, then that of the profile. Both together are far below
/// a stack's limit.
fn stack_of(
    alloc: Global,
    baseline: Option<&Filter>,
    own: Option<Filter>,
) -> Result<Stack, AllocError>
    ensures { IfOk result (λ stack. stack.filters ≡ option_to_list (option_map (λ f. f.now) baseline.entry)
        ++ option_to_list own) }
{
    let mut stack = Stack::new(alloc);
    if let Some(filter) = baseline {
        pushed(&mut stack, filter.try_clone(alloc)?)?;
    }
    if let Some(filter) = own {
        pushed(&mut stack, filter)?;
    }
    Ok(stack)
}

fn pushed(stack: &mut Stack, filter: Filter) -> Result<(), AllocError>
    ensures { OnOk result (stack.new.filters ≡ stack.old.filters ++ filter ∷ []) }
{
    match stack.push(filter) {
        Ok(()) => Ok(()),
        Err(_) => Err(AllocError),
    }
}

fn text_of(alloc: Global, text: &str) -> Result<Text, AllocError>
    ensures { IfOk result (λ copy. copy ≡ text.now) }
{
    Ok(Text::new(String::from_str(alloc, text)?))
}

fn path_of(alloc: Global, choice: &SeccompProfile) -> Result<Option<Text>, AllocError>
    ensures { IfOk result (λ path. path ≡ path_of choice.now) }
{
    match choice {
        SeccompProfile::Localhost(path) => Ok(Some(text_of(alloc, path.as_str())?)),
        SeccompProfile::RuntimeDefault | SeccompProfile::Unconfined => Ok(None),
    }
}

fn label_of(
    alloc: Global,
    id: u64,
    container: &ContainerMetadata,
    image: &DescendingPath,
    choice: &SeccompProfile,
) -> Result<Label, AllocError>
    ensures { IfOk result (λ label. label ≡ label_for id container.now image.now choice.now) }
{
    let name = text_of(alloc, container.name.as_str())?;
    let image = text_of(alloc, image.as_str())?;
    let path = path_of(alloc, choice)?;
    Ok(Label {
        id,
        name,
        attempt: container.attempt,
        image,
        path,
    })
}

/// Makes the cell of a request, or returns why not. Uses the script and the profile that the files were
/// prepared with, if they were, and the RuntimeDefault that is ready.
pub fn built_cell(
    alloc: Global,
    ready: &ReadyDefault,
    baseline: &Option<Filter>,
    id: u64,
    container: &ContainerMetadata,
    image: &DescendingPath,
    choice: &SeccompProfile,
    files: FileAnswers,
) -> Result<Cell, Refusal>
    ensures made { IfOk result (λ cell.
        IsMade baseline.now id container.now image.now choice.now files cell) }
    ensures refused { IfErr result (λ refusal.
        Lacks choice.now files refusal ⊎ (WasRead files × (refusal ≡ Refusal.Memory))) }
{
    let FileAnswers { script, profile } = files;
    let script = script_of(alloc, script)?;
    let own = own(alloc, ready, choice, profile)?;
    match cell_of(alloc, baseline, script, own, id, container, image, choice) {
        Ok(cell) => Ok(cell),
        Err(AllocError) => Err(Refusal::Memory),
    }
}

/// The cell of a script under the node's filter and that of a profile.
fn cell_of(
    alloc: Global,
    baseline: &Option<Filter>,
    script: Script,
    own: Option<CompiledProfile>,
    id: u64,
    container: &ContainerMetadata,
    image: &DescendingPath,
    choice: &SeccompProfile,
) -> Result<Cell, AllocError>
    requires means { IfSome own (λ b. GivesMeaning b.filter b.profile) }
    ensures { IfOk result (λ cell. IsCellOf (option_to_list baseline.now) script
        (option_map (λ b. b.profile) own) (label_for id container.now image.now choice.now) cell) }
{
    let label = label_of(alloc, id, container, image, choice)?;
    match own {
        None => {
            let stack = stack_of(alloc, baseline.as_ref(), None)?;
            Ok(kept(Cell::created(alloc, label, script, stack, None)?))
        }
        Some(CompiledProfile { profile, filter }) => {
            let stack = stack_of(alloc, baseline.as_ref(), Some(filter))?;
            Ok(kept(Cell::created(alloc, label, script, stack, Some(profile))?))
        }
    }
}

/// The same cell. The contract states what its type keeps.
fn kept(cell: Cell) -> Cell
    ensures same { result ≡ cell }
    ensures follows { FollowsScript result }
    ensures sound { AllSound result.making.stack }
{
    let _record = cell.record();
    cell
}
