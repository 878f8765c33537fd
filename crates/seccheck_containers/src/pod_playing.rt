//! The answer of `seccheck play --pod`: the end of each container of a pod under its own profile, and its denied
//! calls.
ghost use Rattle.std.specs.Prelude.{◌≡◌, ◌++◌, [], ◌∷◌, IfOk, OnOk, option_map, option_to_list};

use bpf_verify::Filter;
use call_names::Naming;
use compile::compile;
use manifest::{Container, Pod};
use node_io::{MAX_FILE_BYTES, look_at_folder, read_file};
use oci_profile::{Profile, runtime_default};
use profile_pick::{Choice, pick};
use script::Script;
use seccheck_output::{
    DeniedCall, Outcome, decided_by, denied_line, denied_object, ended_line, ended_object, play,
};
use seccheck_stops::{
    Form, Output, Refused, Stop, bytes_at, filter_at, manifest_lines, profile_of, refused_stop,
    stop_at,
};
use std::alloc::{AllocError, AllocFailed, Global};
use std::rt;
use sys_table::CallTable;
use verdict::Stack;

/// The options of `seccheck play --pod`: a manifest, and the node for its pod.
#[derive(Clone, Copy)]
pub struct PodOptions<'a> {
    pub manifest: &'a str,
    /// The folder of the containers' scripts.
    pub scripts: &'a str,
    /// The folder of the profiles.
    pub profiles: &'a str,
    /// The file of the node's own filter.
    pub baseline: Option<&'a str>,
    pub seccomp_default: bool,
    pub attempt: u32,
    /// The calls that scripts and profiles may name.
    pub calls: CallTable,
    pub naming: Naming,
    pub form: Form,
}

/// A container's own profile, and its filter.
#[derive(Drop)]
struct Own {
    profile: Profile,
    filter: Filter,
}

/// A container that was played.
#[derive(Clone, Copy)]
struct Played<'p> {
    choice: Choice<'p>,
    profile: Option<&'p Profile>,
    outcome: &'p Outcome,
}

/// Why no other container is played.
#[derive(Drop)]
enum Ended {
    /// A file of a container is refused or can't be read: this is printed.
    Printed(Output),
    Memory,
}

impl From<AllocError> for Ended {
    fn from(_: AllocError) -> Ended {
        Ended::Memory
    }
}

impl<T: Drop> From<AllocFailed<T>> for Ended {
    fn from(_: AllocFailed<T>) -> Ended {
        Ended::Memory
    }
}

/// How each container of the pod ended, init ones first, and its denied calls.
pub fn pod_output<'a, R: rt::Files + AllocGlobal>(
    rt: &R,
    options: PodOptions<'a>,
) -> Result<Output, Stop<'a>> {
    for folder in [options.scripts, options.profiles] {
        look_at_folder(rt, folder).map_err(|fault| Stop::File(folder, fault))?;
    }
    let baseline = match options.baseline {
        Some(path) => Some(filter_at(rt, path)?),
        None => None,
    };
    let bytes = bytes_at(rt, options.manifest)?;
    let pod = match manifest::read_placed(rt.alloc(), &bytes) {
        Ok(pod) => pod,
        Err(found) => {
            let refused = Refused::Manifest(found);
            return Err(refused_stop(options.manifest, bytes, refused));
        }
    };
    let mut aside = manifest_lines(rt.alloc(), options.manifest, &bytes)?;
    match pod_text(rt, options, &pod, baseline.as_ref(), &mut aside) {
        Ok(text) => Ok(Output::with_aside(text, aside)),
        Err(Ended::Printed(output)) => Ok(output.after(aside)?),
        Err(Ended::Memory) => Err(Stop::Memory),
    }
}

/// The lines of all containers. Those about profiles that are templates go to `aside`.
fn pod_text<'a, R: rt::Files + AllocGlobal>(
    rt: &R,
    options: PodOptions<'a>,
    pod: &Pod,
    baseline: Option<&Filter>,
    aside: &mut String,
) -> Result<String, Ended> {
    let mut text = String::new(rt.alloc());
    for (place, container) in pod.containers.as_slice().iter().enumerate() {
        let choice = pick(pod, place, options.seccomp_default);
        let script = script_of(rt, options, container)?;
        let own = own_of(rt, options, choice, aside)?;
        let filter = own.as_ref().map(|own| &own.filter);
        let stack = stack_of(rt.alloc(), baseline, filter)?;
        let played = Played {
            choice,
            profile: own.as_ref().map(|own| &own.profile),
            outcome: &play(rt.alloc(), script, stack, options.attempt)?,
        };
        let lines = container_text(rt.alloc(), options, container, played)?;
        text.push_str(lines.as_str())?;
    }
    Ok(text)
}

/// The lines or objects of a container that was played: how it ended, and its denied calls.
fn container_text(
    alloc: Global,
    options: PodOptions<'_>,
    container: &Container,
    played: Played<'_>,
) -> Result<String, AllocError> {
    let code = played.outcome.code();
    let mut text = match options.form {
        Form::Text => ended_line(alloc, container, played.choice, code)?,
        Form::Json => ended_object(alloc, container, played.choice, code)?,
    };
    for (place, entry) in played.outcome.entries().iter().enumerate() {
        if !entry.performed {
            let by = match played.profile {
                Some(profile) => decided_by(alloc, profile, entry)?,
                None => None,
            };
            let denied = DeniedCall {
                place,
                entry: *entry,
                naming: options.naming,
                by,
            };
            let line = match options.form {
                Form::Text => denied_line(alloc, denied)?,
                Form::Json => denied_object(alloc, container, denied)?,
            };
            text.push_str(line.as_str())?;
        }
    }
    Ok(text)
}

/// The script of a container.
fn script_of<R: rt::Files + AllocGlobal>(
    rt: &R,
    options: PodOptions<'_>,
    container: &Container,
) -> Result<Script, Ended> {
    let alloc = rt.alloc();
    let (folder, image) = (options.scripts, container.image.as_str());
    let path = format!(in alloc; "{folder}/{image}")?;
    let bytes = bytes_in(rt, path.as_str(), options.form)?;
    match script::read_placed_with(alloc, options.calls, &bytes) {
        Ok(script) => Ok(script),
        Err(found) => {
            let stop = refused_stop(path.as_str(), bytes, Refused::Script(found));
            Err(ended_by(alloc, &stop, options.form)?)
        }
    }
}

/// The profile that is chosen with its filter, if one is.
fn own_of<R: rt::Files + AllocGlobal>(
    rt: &R,
    options: PodOptions<'_>,
    choice: Choice<'_>,
    aside: &mut String,
) -> Result<Option<Own>, Ended> {
    let alloc = rt.alloc();
    match choice {
        Choice::Unconfined => Ok(None),
        Choice::RuntimeDefault => {
            let profile = runtime_default(alloc)?;
            let bytes = Vec::new(alloc);
            Ok(Some(compiled(alloc, options, profile, "runtime/default", bytes)?))
        }
        Choice::Localhost(path) => Ok(Some(own_at(rt, options, path.as_str(), aside)?)),
    }
}

/// The profile in a file of the folder of profiles, with its filter.
fn own_at<R: rt::Files + AllocGlobal>(
    rt: &R,
    options: PodOptions<'_>,
    path: &str,
    aside: &mut String,
) -> Result<Own, Ended> {
    let alloc = rt.alloc();
    let folder = options.profiles;
    let path = format!(in alloc; "{folder}/{path}")?;
    let bytes = bytes_in(rt, path.as_str(), options.form)?;
    let file = match profile_of(alloc, options.calls, path.as_str(), bytes) {
        Ok(file) => file,
        Err(stop) => return Err(ended_by(alloc, &stop, options.form)?),
    };
    // Another container may have this profile too.
    if !aside.as_str().contains(file.aside.as_str()) {
        aside.push_str(file.aside.as_str())?;
    }
    compiled(alloc, options, file.profile, path.as_str(), file.bytes)
}

fn compiled(
    alloc: Global,
    options: PodOptions<'_>,
    profile: Profile,
    path: &str,
    bytes: Vec<u8>,
) -> Result<Own, Ended> {
    match compile(alloc, &profile) {
        Ok(filter) => Ok(Own { profile, filter }),
        Err(fault) => {
            let stop = refused_stop(path, bytes, Refused::Compile(fault));
            Err(ended_by(alloc, &stop, options.form)?)
        }
    }
}

/// The bytes of a container's file.
fn bytes_in<R: rt::Files + AllocGlobal>(rt: &R, path: &str, form: Form) -> Result<Vec<u8>, Ended> {
    match read_file(rt, path, MAX_FILE_BYTES) {
        Ok(bytes) => Ok(bytes),
        Err(caused) => Err(ended_by(rt.alloc(), &stop_at(path, caused), form)?),
    }
}

/// Ends the play: prints the stop's answer, with a note on standard error. A stop other than an answer goes to
/// standard error alone.
fn ended_by(alloc: Global, stop: &Stop<'_>, form: Form) -> Result<Ended, AllocError> {
    if matches!(stop, Stop::Memory) {
        return Ok(Ended::Memory);
    }
    let lines = String::new(alloc);
    if stop.is_answer() {
        return Ok(Ended::Printed(Output::of_stop(alloc, stop, form, lines)?));
    }
    Ok(Ended::Printed(Output {
        text: lines,
        code: None,
        aside: format!(in alloc; "{stop}")?,
        status: stop.status(),
    }))
}

/// The filters under which a container starts: the node's own, and then that of its profile. Two filters
/// always have a place.
fn stack_of(
    alloc: Global,
    baseline: Option<&Filter>,
    own: Option<&Filter>,
) -> Result<Stack, AllocError>
    ensures { IfOk result (λ stack. stack.filters ≡ option_to_list (option_map (λ f. f.now) baseline.entry)
        ++ option_to_list (option_map (λ f. f.now) own.entry)) }
{
    let mut stack = Stack::new(alloc);
    if let Some(filter) = baseline {
        add_copy(alloc, &mut stack, filter)?;
    }
    if let Some(filter) = own {
        add_copy(alloc, &mut stack, filter)?;
    }
    Ok(stack)
}

fn add_copy(alloc: Global, stack: &mut Stack, filter: &Filter) -> Result<(), AllocError>
    ensures { OnOk result (stack.new.filters ≡ stack.old.filters ++ filter.now ∷ []) }
{
    match stack.push(filter.try_clone(alloc)?) {
        Ok(()) => Ok(()),
        Err(_) => Err(AllocError),
    }
}
