//! What is wanted at a place of a text, in a few words for a person.

use crate::named::Named;
use json_place::{Place, Step};
use manifest::PodFault;
use oci_profile::ProfileFault;
use profile_template::TemplateFault;
use script::ScriptFault;

/// What was wanted at a fault's place: a type, or the rule for a name. Empty if the fault's name states it.
pub(crate) fn wanted_at(fault: Named, place: &Place) -> &'static str {
    match fault {
        Named::Profile(fault) => wanted_in_profile(fault, place),
        Named::Template(TemplateFault::Profile(fault)) => wanted_in_profile(fault, place),
        Named::Template(TemplateFault::BadKernel) => "two numbers, as 4.8",
        Named::Manifest(PodFault::WrongType) => type_at(place),
        Named::Manifest(PodFault::BadName) => rule_at(place),
        Named::Manifest(PodFault::BadProfile) => profile_at(place),
        Named::Script(ScriptFault::WrongType) => script_type_at(place),
        Named::Script(ScriptFault::Missing) => missing_in_script(place),
        Named::Script(ScriptFault::BadCode) => "0 to 255",
        _ => "",
    }
}

fn wanted_in_profile(fault: ProfileFault, place: &Place) -> &'static str {
    match fault {
        ProfileFault::WrongType => type_at(place),
        ProfileFault::UnknownAction => "an action such as SCMP_ACT_ERRNO",
        ProfileFault::UnknownOp => "an operator such as SCMP_CMP_EQ",
        _ => "",
    }
}

fn type_at(place: &Place) -> &'static str {
    match step_from_end(place, 0) {
        Some(Step::Member(key)) => type_of_member(key),
        Some(Step::Item(_)) => type_in_list(step_from_end(place, 1)),
        None => "an object",
    }
}

fn type_in_list(list: Option<Step>) -> &'static str {
    match list {
        Some(Step::Member(key)) => type_of_item(key),
        _ => "",
    }
}

// The step with this many steps after it.
fn step_from_end(place: &Place, behind: usize) -> Option<Step> {
    let steps = place.steps();
    let index = steps.len().checked_sub(1)?.checked_sub(behind)?;
    steps.get(index).copied()
}

fn type_of_member(key: &str) -> &'static str {
    match key {
        "architectures" | "flags" | "names" => "a list of texts",
        "caps" | "arches" | "subArchitectures" => "a list of texts",
        "syscalls" | "args" | "initContainers" | "containers" => "a list of objects",
        "archMap" => "a list of objects",
        "defaultErrnoRet" | "errnoRet" | "index" | "value" | "valueTwo" => "a whole number",
        "terminationGracePeriodSeconds" => "a whole number",
        "metadata" | "spec" | "securityContext" | "seccompProfile" => "an object",
        "includes" | "excludes" => "an object",
        "privileged" => "true or false",
        "restartPolicy" => "Always, OnFailure or Never",
        "apiVersion" => "\"v1\"",
        "kind" => "\"Pod\"",
        _ => "a text",
    }
}

fn type_of_item(key: &str) -> &'static str {
    match key {
        "architectures" | "flags" | "names" => "a text",
        "caps" | "arches" | "subArchitectures" => "a text",
        _ => "an object",
    }
}

fn rule_at(place: &Place) -> &'static str {
    match step_from_end(place, 0) {
        Some(Step::Member(key)) if place.steps().len() == 2 => rule_of_pod(key),
        Some(Step::Member(key)) => rule_of_container(key),
        _ => "",
    }
}

fn profile_at(place: &Place) -> &'static str {
    match step_from_end(place, 0) {
        Some(Step::Member("type")) => "RuntimeDefault, Localhost or Unconfined",
        _ => "a path below the folder, for Localhost alone",
    }
}

fn rule_of_pod(key: &str) -> &'static str {
    match key {
        "name" => "1 to 253 of a-z, 0-9, - and .",
        "uid" => "1 to 317 letters, digits, - and .",
        _ => "1 to 63 of a-z, 0-9 and -",
    }
}

fn rule_of_container(key: &str) -> &'static str {
    match key {
        "image" => "a path below the folder",
        _ => "1 to 63 of a-z, 0-9 and -",
    }
}

const STEP: &str = "an object with one of call, exit, exitByAttempt and install";

fn script_type_at(place: &Place) -> &'static str {
    match step_from_end(place, 0) {
        Some(Step::Member(key)) => script_type_of_member(key),
        Some(Step::Item(_)) => script_type_in_list(step_from_end(place, 1)),
        None => "an object",
    }
}

fn script_type_of_member(key: &str) -> &'static str {
    match key {
        "steps" => "a list of objects",
        "call" => "a name or a number below 2^32",
        "args" => "a list of at most 6 whole numbers",
        "arch" => "a whole number below 2^32",
        "exitByAttempt" => "a list of whole numbers",
        "install" => "a list of instructions",
        _ => "a whole number",
    }
}

fn script_type_in_list(list: Option<Step>) -> &'static str {
    match list {
        Some(Step::Member("steps")) => STEP,
        Some(Step::Member("install")) => "a list of 4 whole numbers",
        _ => "a whole number",
    }
}

// What is missing if a step has no known member, or a list has no item.
fn missing_in_script(place: &Place) -> &'static str {
    match step_from_end(place, 0) {
        Some(Step::Item(_)) => STEP,
        Some(Step::Member("exitByAttempt")) => "one code at least",
        _ => "",
    }
}
