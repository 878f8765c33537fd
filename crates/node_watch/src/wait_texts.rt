//! The lines on why containers wait.
ghost use Rattle.std.specs.Prelude.{◌≡◌, ◌++◌, IfOk, OnOk, option_copied, string_bytes};
ghost use Rattle.cri_msgs.specs.declared.replies.Answer.TheVariants as answer;
ghost use Rattle.fault_notes.specs.Paths.{shown_path};
ghost use Rattle.node_watch.specs.Losses.{loss_of};
ghost use Rattle.node_watch.specs.WaitTexts.{back_off_text, cause_or_files, cause_words, container_waits};
ghost use Rattle.node_watch.specs.WaitTexts.{ending_of, failure_text, files_words, is_of_files, no_wait_line};
ghost use Rattle.node_watch.specs.WaitTexts.{profile_words, reason_before};
ghost use Rattle.node_watch.specs.WaitTexts.{reason_text, times_words, told_reason, trouble_words, wait_change};
ghost use Rattle.node_watch.specs.WaitTexts.{wait_change_by, wait_changes, wait_line};

use crate::calls::call_name;
use crate::changes::add_which;
use crate::forms::Form;
use crate::losses::loss_of;
use crate::reasons::{Reason, Trouble};
use crate::waits::{ContainerWait, PodWaits, WaitReason, is_same_reason};
use cri_msgs::{Answer, Call, Refusal};
use fault_notes::{ShownPath, refusal_name};
use manifest::{Label, SeccompProfile, Uid};
use refusal_causes::CauseText;
use std::alloc::{AllocError, Global};

fn is_of_files(refusal: Refusal) -> bool
    ensures { result ≡ is_of_files refusal }
{
    match refusal {
        Refusal::InvalidArgument | Refusal::Internal => true,
        _ => false,
    }
}

fn add_file(text: &mut String, before: &str, path: &str) -> Result<(), AllocError>
    ensures { OnOk result (string_bytes text.new ≡ string_bytes text.old
        ++ (before.now ++ shown_path path.now)) }
{
    write!(text, "{before}{}", ShownPath(path))?;
    Ok(())
}

fn add_profile(text: &mut String, profile: &SeccompProfile) -> Result<(), AllocError>
    ensures { OnOk result (string_bytes text.new ≡ string_bytes text.old ++ profile_words profile.now) }
{
    match profile {
        SeccompProfile::Localhost(path) => add_file(text, " and profile ", path.as_str())?,
        SeccompProfile::RuntimeDefault | SeccompProfile::Unconfined => {}
    }
    Ok(())
}

fn add_files(text: &mut String, call: &Call, refusal: Refusal) -> Result<(), AllocError>
    ensures { OnOk result (string_bytes text.new ≡ string_bytes text.old ++ files_words call.now refusal) }
{
    match call {
        Call::CreateContainer { image, profile, .. } if is_of_files(refusal) => {
            add_file(text, ": script ", image.as_str())?;
            add_profile(text, profile)
        }
        _ => Ok(()),
    }
}

// What the runtime wrote about the cause, or else the files that the call names.
fn add_cause_or_files(
    text: &mut String,
    call: &Call,
    refusal: Refusal,
    cause: Option<&CauseText>,
) -> Result<(), AllocError>
    ensures { OnOk result (string_bytes text.new ≡ string_bytes text.old
        ++ cause_or_files call.now refusal (option_copied cause.entry)) }
{
    match cause {
        Some(cause) => {
            let cause = cause.as_str();
            write!(text, ": {cause}")?;
            Ok(())
        }
        None => add_files(text, call, refusal),
    }
}

fn add_cause(
    text: &mut String,
    call: &Call,
    refusal: Refusal,
    cause: Option<&CauseText>,
) -> Result<(), AllocError>
    ensures { OnOk result (string_bytes text.new ≡ string_bytes text.old
        ++ cause_words (loss_of call.now (answer.Refused refusal)) call.now refusal
        (option_copied cause.entry)) }
{
    match loss_of(call, &Answer::Refused(refusal)) {
        Some(loss) => {
            write!(text, ": {loss}")?;
            Ok(())
        }
        None => add_cause_or_files(text, call, refusal, cause),
    }
}

fn add_trouble(
    text: &mut String,
    call: &Call,
    trouble: Trouble,
    cause: Option<&CauseText>,
) -> Result<(), AllocError>
    ensures { OnOk result (string_bytes text.new ≡ string_bytes text.old
        ++ trouble_words call.now trouble (option_copied cause.entry)) }
{
    match trouble {
        Trouble::Refused(refusal) => {
            let name = refusal_name(refusal);
            write!(text, " refused {name}")?;
            add_cause(text, call, refusal, cause)
        }
        Trouble::Lost => text.push_str(" lost"),
    }
}

fn add_times(text: &mut String, times: u64) -> Result<(), AllocError>
    ensures { OnOk result (string_bytes text.new ≡ string_bytes text.old ++ times_words times) }
{
    if times == 1 {
        text.push_str("once")
    } else {
        write!(text, "{times} times")?;
        Ok(())
    }
}

fn add_failure(text: &mut String, reason: &Reason) -> Result<(), AllocError>
    ensures { OnOk result (string_bytes text.new ≡ string_bytes text.old ++ failure_text reason.now) }
{
    text.push_str(call_name(&reason.call))?;
    add_trouble(text, &reason.call, reason.trouble, reason.cause.as_ref())?;
    text.push_str(", ")?;
    add_times(text, reason.times)?;
    let since = reason.since;
    write!(text, " since {since} s")?;
    Ok(())
}

// How the number ends as a word: `st`, `nd`, `rd` or `th`.
#[tactic(auto, unfolding(crate::specs::WaitTexts::ending_of))]
fn ending_of(number: usize) -> &'static str
    ensures { result.now ≡ ending_of number }
{
    let (tens, ones) = (number / 10 % 10, number % 10);
    if tens == 1 {
        "th"
    } else if ones == 1 {
        "st"
    } else if ones == 2 {
        "nd"
    } else if ones == 3 {
        "rd"
    } else {
        "th"
    }
}

#[tactic(auto, unfolding(crate::specs::WaitTexts::back_off_text))]
fn add_back_off(
    text: &mut String,
    left: u64,
    code: u8,
    run: usize,
    ending: &str,
) -> Result<(), AllocError>
    ensures { OnOk result (string_bytes text.new ≡ string_bytes text.old
        ++ back_off_text left code run ending.now) }
{
    write!(
        text,
        "restarts in {left} s, last exit {code}, {run}{ending} run"
    )?;
    Ok(())
}

fn add_reason(text: &mut String, moment: u64, reason: &WaitReason) -> Result<(), AllocError>
    ensures { OnOk result (string_bytes text.new ≡ string_bytes text.old ++ reason_text moment reason.now) }
{
    match reason {
        WaitReason::Setup => text.push_str("for setup"),
        WaitReason::BackOff { until, code, run } => {
            let left = until.saturating_sub(moment);
            add_back_off(text, left, *code, *run, ending_of(*run))
        }
        WaitReason::Failed(reason) => add_failure(text, reason),
        WaitReason::Due => text.push_str("for its next call"),
        WaitReason::Runs => Ok(()),
    }
}

/// What the lines of a pod have in common.
#[derive(Clone, Copy)]
struct PodLine<'a> {
    form: Form,
    /// In seconds.
    moment: u64,
    uid: &'a Uid,
}

fn add_wait(
    alloc: Global,
    text: &mut String,
    line: &PodLine<'_>,
    name: &Label,
    reason: &WaitReason,
) -> Result<(), AllocError>
    ensures { OnOk result (string_bytes text.new ≡ string_bytes text.old
        ++ wait_line line.now.form line.now.moment line.now.uid.now name.now reason.now) }
{
    let (moment, uid) = (line.moment, line.uid);
    match line.form {
        Form::Text => {
            let (uid, name) = (uid.as_str(), name.as_str());
            write!(text, "{moment} {uid} {name} waits: ")?;
            add_reason(text, moment, reason)?;
            text.push_str("\n")
        }
        Form::Json => {
            let mut words = String::new(alloc);
            add_reason(&mut words, moment, reason)?;
            add_which(text, moment, uid, name)?;
            write!(text, ",\"waits\":\"{}\"}}\n", ShownPath(words.as_str()))?;
            Ok(())
        }
    }
}

fn add_no_wait(text: &mut String, line: &PodLine<'_>, name: &Label) -> Result<(), AllocError>
    ensures { OnOk result (string_bytes text.new ≡ string_bytes text.old
        ++ no_wait_line line.now.form line.now.moment line.now.uid.now name.now) }
{
    let (moment, uid) = (line.moment, line.uid);
    match line.form {
        Form::Text => {
            let (uid, name) = (uid.as_str(), name.as_str());
            writeln!(text, "{moment} {uid} {name} waits no longer")?;
            Ok(())
        }
        Form::Json => {
            add_which(text, moment, uid, name)?;
            text.push_str(",\"waits\":null}\n")
        }
    }
}

fn told_reason(reason: &Option<WaitReason>) -> Option<&WaitReason>
    ensures { option_copied result ≡ told_reason reason.now }
{
    match reason {
        None | Some(WaitReason::Runs) => None,
        Some(reason) => Some(reason),
    }
}

fn add_change_by(
    alloc: Global,
    text: &mut String,
    line: &PodLine<'_>,
    name: &Label,
    old: Option<&WaitReason>,
    new: Option<&WaitReason>,
) -> Result<(), AllocError>
    ensures { OnOk result (string_bytes text.new ≡ string_bytes text.old
        ++ wait_change_by line.now.form line.now.moment line.now.uid.now name.now (option_copied old.entry)
        (option_copied new.entry)) }
{
    match (old, new) {
        (None, None) => Ok(()),
        (Some(_), None) => add_no_wait(text, line, name),
        (Some(old), Some(new)) if is_same_reason(old, new) => Ok(()),
        (_, Some(new)) => add_wait(alloc, text, line, name, new),
    }
}

fn add_change(
    alloc: Global,
    text: &mut String,
    line: &PodLine<'_>,
    old: Option<&ContainerWait>,
    new: &ContainerWait,
) -> Result<(), AllocError>
    ensures { OnOk result (string_bytes text.new ≡ string_bytes text.old
        ++ wait_change line.now.form line.now.moment line.now.uid.now (option_copied old.entry) new.now) }
{
    let before = match old {
        Some(old) => told_reason(&old.reason),
        None => None,
    };
    let after = told_reason(&new.reason);
    add_change_by(alloc, text, line, &new.name, before, after)
}

// Adds the changes place by place.
fn add_containers(
    alloc: Global,
    text: &mut String,
    line: &PodLine<'_>,
    old: &[ContainerWait],
    new: &[ContainerWait],
) -> Result<(), AllocError>
    ensures { OnOk result (string_bytes text.new ≡ string_bytes text.old
        ++ container_waits line.now.form line.now.moment line.now.uid.now old.now new.now) }
{
    let Some((wait, others)) = new.split_first() else {
        return Ok(());
    };
    match old.split_first() {
        Some((was, rest)) => {
            add_change(alloc, text, line, Some(was), wait)?;
            add_containers(alloc, text, line, rest, others)
        }
        None => {
            add_change(alloc, text, line, None, wait)?;
            add_containers(alloc, text, line, &[], others)
        }
    }
}

/// The changes at a moment, in seconds, in why the containers of a pod wait: a line for each container whose
/// reason appeared, changed or disappeared. All of them if the pod was not seen before.
pub fn wait_changes(
    alloc: Global,
    form: Form,
    moment: u64,
    old: Option<&PodWaits>,
    new: &PodWaits,
) -> Result<String, AllocError>
    ensures { IfOk result (λ text. string_bytes text
        ≡ wait_changes form moment (option_copied old.entry) new.now) }
{
    let mut text = String::new(alloc);
    let containers = new.containers.as_slice();
    let line = PodLine {
        form,
        moment,
        uid: &new.uid,
    };
    match old {
        Some(old) => {
            let before = old.containers.as_slice();
            add_containers(alloc, &mut text, &line, before, containers)?;
        }
        None => add_containers(alloc, &mut text, &line, &[], containers)?,
    }
    Ok(text)
}
