// Each returns as its error the word that is not a number in the range.
ghost use Rattle.std.specs.Prelude.{◌≡◌, ◌^◌, option_map};
ghost use Rattle.command_line.specs.Words.{between, told, written_if_there, written_or, written_within};

use crate::number::{number_of, word_of};

/// The number of a word below 2^32, or the default if it is left out.
pub fn word_or(default: u32, word: Option<&str>) -> Result<u32, &str>
    ensures { told result ≡ written_or (2 ^ 32) default (option_map (λ w. w.now) word.entry) }
{
    match word {
        Some(word) => word_of(word).ok_or(word),
        None => Ok(default),
    }
}

/// The number of a word below 2^64, or the default if it is left out.
pub fn number_or(default: u64, word: Option<&str>) -> Result<u64, &str>
    ensures { told result ≡ written_or (2 ^ 64) default (option_map (λ w. w.now) word.entry) }
{
    match word {
        Some(word) => number_of(word).ok_or(word),
        None => Ok(default),
    }
}

/// The number of a word, from the least to the most, or the default if the word is left out.
pub fn number_within(least: u32, most: u32, default: u32, word: Option<&str>) -> Result<u32, &str>
    ensures { told result ≡ written_within least most default (option_map (λ w. w.now) word.entry) }
{
    match word {
        Some(word) => between(least, most, word_of(word)).ok_or(word),
        None => Ok(default),
    }
}

fn between(least: u32, most: u32, number: Option<u32>) -> Option<u32>
    ensures { result ≡ between least most number }
{
    match number {
        Some(number) if least <= number && number <= most => Some(number),
        _ => None,
    }
}

/// The number of a word below 2^64, if the word is there.
pub(crate) fn number_if_there(word: Option<&str>) -> Result<Option<u64>, &str>
    ensures { told result ≡ written_if_there (2 ^ 64) (option_map (λ w. w.now) word.entry) }
{
    match word {
        Some(word) => match number_of(word) {
            Some(number) => Ok(Some(number)),
            None => Err(word),
        },
        None => Ok(None),
    }
}
