//! The settings of a template that the words of `resolve` write.
ghost use Rattle.std.specs.Prelude.{◌≡◌, ◌<◌, ◌≤◌, ◌+◌, ◌-◌, IfOk, IfSome, drop, length, map};
ghost use Rattle.std.specs.Prelude.{option_map, slice_index};
ghost use Rattle.profile_template.specs.Version.{dot_at};
ghost use Rattle.seccheck_cli.specs.Settings.{TellsCaps, arch_of, caps_of, digits_at, head_at, kernel_of};
ghost use Rattle.seccheck_cli.specs.Settings.{release_of, settings_of, told_settings, told_word};

use profile_template::{Settings, Version};
use seccheck_stops::{Stop, WordFault};
use seccheck_words::{cap_named, template_arch};
use std::alloc::Global;

/// The whole names of the capabilities that these words name.
#[tactic(auto, unfolding(crate::specs::Settings::caps_of), using(json_tree::proofs::After::after_more, json_tree::proofs::After::after_stops))]
pub(crate) fn caps_of<'a>(alloc: Global, words: &[&'a str]) -> Result<Vec<&'static str>, Stop<'a>>
    ensures { TellsCaps (λ caps. map (λ cap. cap.now) caps.items) result
        (caps_of (map (λ word. word.now) words.now)) }
{
    let mut caps = Vec::new(alloc);
    for word in words {
        let Some(cap) = cap_named(word) else {
            return Err(Stop::BadWord(word, WordFault::BadCap));
        };
        caps.push(cap)?;
    }
    Ok(caps)
}

/// The settings that these words write: amd64 and the newest kernel where a word is left out.
pub(crate) fn settings_of<'s, 'a>(
    caps: &'s [&'s str],
    arch: Option<&'a str>,
    kernel: Option<&'a str>,
) -> Result<Settings<'s>, (&'a str, WordFault)>
    ensures caps { IfOk result (λ s. s.caps.now ≡ caps.now) }
    ensures told { told_settings result
        ≡ settings_of (option_map (λ w. w.now) arch.entry) (option_map (λ w. w.now) kernel.entry) }
{
    let arch = arch_of(arch)?;
    let kernel = kernel_of(kernel)?;
    Ok(Settings { caps, arch, kernel })
}

fn arch_of<'a>(word: Option<&'a str>) -> Result<&'static str, (&'a str, WordFault)>
    ensures { told_word (λ name. name.now) result ≡ arch_of (option_map (λ w. w.now) word.entry) }
{
    match word {
        Some(word) => template_arch(word).ok_or((word, WordFault::BadArch)),
        None => Ok("amd64"),
    }
}

fn kernel_of<'a>(word: Option<&'a str>) -> Result<Option<Version>, (&'a str, WordFault)>
    ensures { told_word (λ version. version) result ≡ kernel_of (option_map (λ w. w.now) word.entry) }
{
    match word {
        Some(word) => match release_of(word) {
            Some(version) => Ok(Some(version)),
            None => Err((word, WordFault::BadKernel)),
        },
        None => Ok(None),
    }
}

/// The version with which a release begins, as `uname -r` prints it: the two numbers decide.
fn release_of(word: &str) -> Option<Version>
    ensures { result ≡ release_of word.now }
{
    let dot = dot_at(word.as_bytes())?;
    Version::of(head_at(word, dot))
}

fn dot_at(bytes: &[u8]) -> Option<usize>
    ensures place { result ≡ dot_at bytes.now }
    ensures within { IfSome result (λ dot. dot < length bytes.now) }
    ensures dot { IfSome result (λ dot. slice_index bytes.now dot ≡ 46) }
{
    bytes.iter().position(|byte| *byte == b'.')
}

/// The release up to the end of the digits after its dot.
#[tactic(auto, using(crate::proofs::Releases::is_boundary))]
fn head_at(word: &str, dot: usize) -> &str
    requires within { dot < length word.now }
    requires dot { slice_index word.now dot ≡ 46 }
    ensures { result.now ≡ head_at dot word.now }
{
    word.split_at(end_of_digits(word.as_bytes(), dot + 1)).0
}

/// The place at which the digits from this place on end. Another ASCII character precedes them.
fn end_of_digits(bytes: &[u8], from: usize) -> usize
    requires within { from ≤ length bytes.now }
    requires ascii { slice_index bytes.now (from - 1) < 128 }
    ensures end { result ≡ from + digits_at (drop from bytes.now) }
    ensures within { result ≤ length bytes.now }
    ensures ascii { slice_index bytes.now (result - 1) < 128 }
{
    let mut end = from;
    while end < bytes.len() && bytes[end].is_ascii_digit() {
        end += 1;
    }
    end
}
