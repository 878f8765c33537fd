//! Numbers as they are printed.

/// The number of these hexadecimal digits, if there are some, and the number has 64 bits at most.
pub(crate) fn hexadecimal(digits: &[u8]) -> Option<u64> {
    of_digits(digits, 16)
}

/// The number of these decimal digits, if there are some, and the number has 64 bits at most.
pub(crate) fn decimal(digits: &[u8]) -> Option<u64> {
    of_digits(digits, 10)
}

fn of_digits(digits: &[u8], base: u64) -> Option<u64> {
    if digits.is_empty() {
        return None;
    }
    let mut number: u64 = 0;
    for digit in digits {
        let value = value_of(*digit)?;
        if value >= base {
            return None;
        }
        number = number.checked_mul(base)?.checked_add(value)?;
    }
    Some(number)
}

fn value_of(digit: u8) -> Option<u64> {
    match digit {
        b'0'..=b'9' => Some(u64::from(digit - b'0')),
        b'a'..=b'f' => Some(u64::from(digit - b'a') + 10),
        b'A'..=b'F' => Some(u64::from(digit - b'A') + 10),
        _ => None,
    }
}

/// Decimal, or hexadecimal after `0x`.
pub(crate) fn number_of(word: &[u8]) -> Option<u64> {
    match word.strip_prefix(b"0x") {
        Some(digits) => hexadecimal(digits),
        None => decimal(word),
    }
}
