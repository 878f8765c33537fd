//! What `lint` prints about the manifest of a pod.
ghost use Rattle.std.specs.Prelude.{◌≡◌, ◌++◌, IfOk, OnOk, map, string_bytes};
ghost use Rattle.std.specs.List.{list_any};
ghost use Rattle.serde_json.specs.View.{view};
ghost use Rattle.manifest_advice.specs.Advice as advice;
ghost use Rattle.manifest_advice.specs.Advice.{told};
ghost use Rattle.profile_lint.specs.Text.{graded};
ghost use Rattle.seccheck_cli.specs.ManifestLint.{advice_line, advice_lines, advice_object, field_member};
ghost use Rattle.seccheck_cli.specs.ManifestLint.{finding_line, is_manifest_bad, key_of, kind_of_advice};
ghost use Rattle.seccheck_cli.specs.ManifestLint.{manifest_status, object_line};
ghost use Rattle.seccheck_cli.specs.ManifestLint.{shown, text_line};

use manifest_advice::{Advice, AdvicePlace, AdviceWords, advice_in};
use profile_lint::{FindingKind, finding_object, is_allowed, is_bad_kind, severity_of};
use seccheck_stops::{Form, Output};
use serde_json::Value;
use std::alloc::{AllocError, Global};

/// The advice on a manifest's tree but that of the allowed kinds, with status 1 if a warning or an error is among
/// it.
pub(crate) fn manifest_output(
    alloc: Global,
    tree: &Value,
    allowed: &[FindingKind],
    form: Form,
) -> Result<Output, AllocError>
    ensures text { IfOk result (λ output. string_bytes output.text
        ≡ advice_lines form allowed.now (advice.advice_in (view tree.now))) }
    ensures status { IfOk result (λ output. output.status
        ≡ manifest_status allowed.now (advice.advice_in (view tree.now))) }
{
    let found = advice_in(alloc, tree)?;
    let text = advice_lines(alloc, found.as_slice(), allowed, form)?;
    let status = manifest_status(found.as_slice(), allowed);
    Ok(Output {
        text,
        code: None,
        aside: String::new(alloc),
        status,
    })
}

fn manifest_status(found: &[Advice<'_>], allowed: &[FindingKind]) -> u8
    ensures { result ≡ manifest_status allowed.now (map told found.now) }
{
    if is_manifest_bad(found, allowed) {
        1
    } else {
        0
    }
}

/// Whether a warning or an error of a kind that is not allowed is among the advice.
fn is_manifest_bad(found: &[Advice<'_>], allowed: &[FindingKind]) -> bool
    ensures { result ≡ is_manifest_bad allowed.now (map told found.now) }
{
    for advice in found {
        if is_bad_kind(kind_of_advice(*advice), allowed) {
            return true;
        }
    }
    false
}

fn advice_lines(
    alloc: Global,
    found: &[Advice<'_>],
    allowed: &[FindingKind],
    form: Form,
) -> Result<String, AllocError>
    ensures { IfOk result (λ text. string_bytes text ≡ advice_lines form allowed.now (map told found.now)) }
{
    let mut text = String::new(alloc);
    for advice in found {
        add_advice(alloc, &mut text, *advice, allowed, form)?;
    }
    Ok(text)
}

/// Adds the line of a piece of advice, unless its kind is allowed.
fn add_advice(
    alloc: Global,
    text: &mut String,
    advice: Advice<'_>,
    allowed: &[FindingKind],
    form: Form,
) -> Result<(), AllocError>
    ensures { OnOk result (string_bytes text.new
        ≡ string_bytes text.old ++ advice_line form allowed.now (told advice.entry)) }
{
    if !is_allowed(kind_of_advice(advice), allowed) {
        let line = shown(alloc, advice, form)?;
        text.push_str(line.as_str())?;
    }
    Ok(())
}

fn shown(alloc: Global, advice: Advice<'_>, form: Form) -> Result<String, AllocError>
    ensures { IfOk result (λ text. string_bytes text ≡ shown form (told advice.entry)) }
{
    match form {
        Form::Text => text_line(alloc, advice),
        Form::Json => object_line(alloc, advice),
    }
}

fn text_line(alloc: Global, advice: Advice<'_>) -> Result<String, AllocError>
    ensures { IfOk result (λ text. string_bytes text ≡ text_line (told advice.entry)) }
{
    let place = format!(in alloc; "{}", AdvicePlace(advice))?;
    let words = format!(in alloc; "{}", AdviceWords(advice))?;
    finding_line(
        alloc,
        kind_of_advice(advice),
        place.as_str(),
        words.as_str(),
    )
}

fn finding_line(
    alloc: Global,
    kind: FindingKind,
    place: &str,
    words: &str,
) -> Result<String, AllocError>
    ensures { IfOk result (λ text. string_bytes text ≡ finding_line kind place.now words.now) }
{
    let text = format!(in alloc; "{place}: {kind}: {words}")?;
    graded_line(alloc, kind, text.as_str())
}

/// A finding with the severity of its kind.
fn graded_line(alloc: Global, kind: FindingKind, text: &str) -> Result<String, AllocError>
    ensures { IfOk result (λ line. string_bytes line ≡ graded kind text.now) }
{
    let severity = severity_of(kind);
    format!(in alloc; "{severity}: {text}\n")
}

fn object_line(alloc: Global, advice: Advice<'_>) -> Result<String, AllocError>
    ensures { IfOk result (λ text. string_bytes text ≡ object_line (told advice.entry)) }
{
    let object = advice_object(alloc, advice)?;
    format!(in alloc; "{object}\n")
}

/// An object of JSON (RFC 8259), with the key in the manifest as `field`.
#[tactic(auto, unfolding(crate::specs::ManifestLint::advice_object))]
fn advice_object(alloc: Global, advice: Advice<'_>) -> Result<String, AllocError>
    ensures { IfOk result (λ text. string_bytes text ≡ advice_object (told advice.entry)) }
{
    let place = format!(in alloc; "{}", AdvicePlace(advice))?;
    let words = format!(in alloc; "{}", AdviceWords(advice))?;
    let field = field_member(alloc, key_of(advice))?;
    finding_object(alloc, place, kind_of_advice(advice), field.as_str(), words)
}

fn field_member(alloc: Global, key: &str) -> Result<String, AllocError>
    ensures { IfOk result (λ text. string_bytes text ≡ field_member key.now) }
{
    let field = Value::String(String::from_str(alloc, key)?).to_string(alloc)?;
    format!(in alloc; ",\"field\":{field}")
}

fn kind_of_advice(advice: Advice<'_>) -> FindingKind
    ensures { result ≡ kind_of_advice (told advice.entry) }
{
    match advice {
        Advice::OtherCase(_, _, _) => FindingKind::OtherCase,
        Advice::OldAnnotation(_) => FindingKind::OldAnnotation,
    }
}

/// The key that has no effect.
fn key_of<'v>(advice: Advice<'v>) -> &'v str
    ensures { result.now ≡ key_of (told advice.entry) }
{
    match advice {
        Advice::OtherCase(_, key, _) => key,
        Advice::OldAnnotation(key) => key,
    }
}
