ghost use Rattle.std.specs.Prelude.{◌≡◌, ◌<◌, IfSome, length};
ghost use Rattle.profile_template.specs.Version.{dot_at, is_at_least, number_after, number_of, version_at};
ghost use Rattle.profile_template.specs.Version.{version_of, with_digit};

/// A kernel's version, as templates require one.
#[derive(Clone, Copy, Debug, PartialEq, Eq)]
pub struct Version {
    pub major: u32,
    pub minor: u32,
}

impl Version {
    /// The version that a text spells: two decimal numbers below 2^32, joined by a dot.
    pub fn of(text: &str) -> Option<Version>
        ensures { result ≡ version_of text.now }
    {
        let bytes = text.as_bytes();
        version_at(bytes, dot_at(bytes)?)
    }

    /// Whether it is this one or a newer one.
    pub fn is_at_least(self, least: Version) -> bool
        ensures { result ≡ is_at_least self least }
    {
        self.major > least.major || (self.major == least.major && self.minor >= least.minor)
    }
}

fn dot_at(bytes: &[u8]) -> Option<usize>
    ensures place { result ≡ dot_at bytes.now }
    ensures within { IfSome result (λ dot. dot < length bytes.now) }
{
    bytes.iter().position(|byte| *byte == b'.')
}

fn version_at(bytes: &[u8], dot: usize) -> Option<Version>
    requires { dot < length bytes.now }
    ensures { result ≡ version_at bytes.now dot }
{
    let major = number(&bytes[..dot])?;
    let minor = number(&bytes[dot + 1..])?;
    Some(Version { major, minor })
}

/// The number that these digits spell.
fn number(digits: &[u8]) -> Option<u32>
    ensures { result ≡ number_of digits.now }
{
    if digits.is_empty() {
        return None;
    }
    number_after(digits)
}

fn number_after(digits: &[u8]) -> Option<u32>
    ensures { result ≡ number_after 0 digits.now }
{
    let mut number = 0u32;
    for digit in digits {
        number = with_digit(number, *digit)?;
    }
    Some(number)
}

fn with_digit(number: u32, digit: u8) -> Option<u32>
    ensures { result ≡ with_digit number digit }
{
    if !digit.is_ascii_digit() {
        return None;
    }
    number.checked_mul(10)?.checked_add(u32::from(digit - b'0'))
}
