ghost use Rattle.std.specs.Prelude.{◌≡◌, ◌==◌, ◌⊎◌, ◌^◌, slice_index};
ghost use Rattle.command_line.specs.Numbers.{base_of, digits_of, number_in, numeral};

/// The number that a word of a command line spells: ASCII digits, or `0x` and ASCII hexadecimal digits of
/// either case. `None` if it is not a number, or is 2^64 or more.
#[tactic(auto, unfolding(crate::specs::Numbers::number_in))]
pub fn number_of(word: &str) -> Option<u64>
    ensures { result ≡ number_in (2 ^ 64) word.now }
{
    match word.strip_prefix("0x") {
        Some(digits) => numeral_of(digits, 16),
        None => numeral_of(word, 10),
    }
}

/// The number that a word spells, as [`number_of`] reads it. `None` if that is 2^32 or more.
#[tactic(auto, unfolding(crate::specs::Numbers::number_in, crate::specs::Numbers::numeral))]
pub fn word_of(word: &str) -> Option<u32>
    ensures { result ≡ number_in (2 ^ 32) word.now }
{
    u32::try_from(number_of(word)?).ok()
}

/// The number that these digits spell.
#[tactic(auto, using(crate::proofs::Numerals::parsed, crate::proofs::Numerals::signed))]
fn numeral_of(digits: &str, base: u32) -> Option<u64>
    requires { (base ≡ 10) ⊎ (base ≡ 16) }
    ensures { result ≡ numeral (2 ^ 64) base digits.now }
{
    // std's parser would accept a sign.
    if has_sign(digits) {
        return None;
    }
    u64::from_str_radix(digits, base).ok()
}

fn has_sign(digits: &str) -> bool
    ensures { result ≡ (slice_index digits.now 0 == 43) }
{
    digits.starts_with('+')
}
