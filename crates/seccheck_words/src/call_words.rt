ghost use Rattle.std.specs.Prelude.{◌≡◌, ◌^◌, map, option_map};
ghost use Rattle.json_tree.specs.Reading.{as_fault};
ghost use Rattle.seccheck_words.specs.Architectures.{arch_or};
ghost use Rattle.seccheck_words.specs.CallWords.{argument_of, arguments_of, call_number_of, call_of};
ghost use Rattle.seccheck_words.specs.CallWords.{told_word};
ghost use Rattle.seccheck_words.specs.CallWords.BadWord.{Arch, Call, Number};
ghost use Rattle.command_line.specs.Words.{told, written_or};

use crate::architectures::arch_or;
use call_data::SysCall;
use command_line::{number_or, word_of};
use sys_table::CallTable;

/// A word of a call that is no number of its range.
#[derive(Clone, Copy, Debug, PartialEq, Eq)]
pub enum BadCallWord<'w> {
    /// It is no name of a call either.
    Call(&'w str),
    /// It is no name of an architecture either.
    Arch(&'w str),
    /// It is an argument or an address.
    Number(&'w str),
}

/// The call that these words write: its number, or its name if it is a known one, up to six arguments, and its
/// architecture and address. All but the first may be absent.
#[tactic(auto, unfolding(crate::specs::CallWords::call_of))]
pub(crate) fn call<'w>(
    calls: CallTable,
    nr: &'w str,
    args: &[&'w str],
    arch: Option<&'w str>,
    ip: Option<&'w str>,
) -> Result<SysCall, BadCallWord<'w>>
    ensures { told_word result
        ≡ call_of calls nr.now (map (λ w. w.now) args.now) (option_map (λ w. w.now) arch.entry)
        (option_map (λ w. w.now) ip.entry) }
{
    let nr = number_in_call(calls, nr)?;
    let args = arguments_in_call(args)?;
    let arch = arch_in_call(arch)?;
    let ip = address_in_call(ip)?;
    Ok(SysCall { nr, arch, ip, args })
}

fn number_in_call(calls: CallTable, word: &str) -> Result<u32, BadCallWord<'_>>
    ensures { told_word result ≡ as_fault Call (call_number_of calls word.now) }
{
    match call_number(calls, word) {
        Ok(number) => Ok(number),
        Err(word) => Err(BadCallWord::Call(word)),
    }
}

fn arguments_in_call<'w>(words: &[&'w str]) -> Result<[u64; 6], BadCallWord<'w>>
    ensures { told_word result ≡ as_fault Number (arguments_of (map (λ w. w.now) words.now)) }
{
    match arguments(words) {
        Ok(args) => Ok(args),
        Err(word) => Err(BadCallWord::Number(word)),
    }
}

fn arch_in_call(word: Option<&str>) -> Result<u32, BadCallWord<'_>>
    ensures { told_word result ≡ as_fault Arch (arch_or (option_map (λ w. w.now) word.entry)) }
{
    match arch_or(word) {
        Ok(arch) => Ok(arch),
        Err(word) => Err(BadCallWord::Arch(word)),
    }
}

fn address_in_call(word: Option<&str>) -> Result<u64, BadCallWord<'_>>
    ensures { told_word result
        ≡ as_fault Number (written_or (2 ^ 64) 0 (option_map (λ w. w.now) word.entry)) }
{
    match number_or(0, word) {
        Ok(ip) => Ok(ip),
        Err(word) => Err(BadCallWord::Number(word)),
    }
}

#[tactic(auto, unfolding(crate::specs::CallWords::arguments_of))]
fn arguments<'w>(words: &[&'w str]) -> Result<[u64; 6], &'w str>
    ensures { told result ≡ arguments_of (map (λ w. w.now) words.now) }
{
    Ok([
        argument(words, 0)?,
        argument(words, 1)?,
        argument(words, 2)?,
        argument(words, 3)?,
        argument(words, 4)?,
        argument(words, 5)?,
    ])
}

fn argument<'w>(words: &[&'w str], place: usize) -> Result<u64, &'w str>
    ensures { told result ≡ argument_of (map (λ w. w.now) words.now) place }
{
    number_or(0, words.get(place).copied())
}

// No call's name begins with a digit, so no word is both.
fn call_number(calls: CallTable, word: &str) -> Result<u32, &str>
    ensures { told result ≡ call_number_of calls word.now }
{
    match word_of(word) {
        Some(number) => Ok(number),
        None => calls.number(word).ok_or(word),
    }
}
