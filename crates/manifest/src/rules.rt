ghost use Rattle.std.specs.Prelude.{◌≡◌};
ghost use Rattle.std.specs.List.{list_all};
ghost use Rattle.manifest.specs.Texts as rule;

// The rules for texts, as tests.

fn is_plain_byte(byte: u8) -> bool
    ensures { result ≡ rule.is_plain_byte byte }
{
    byte.is_ascii_lowercase() || byte.is_ascii_digit()
}

fn is_label_byte(byte: u8) -> bool
    ensures { result ≡ rule.is_label_byte byte }
{
    is_plain_byte(byte) || byte == b'-'
}

fn is_pod_byte(byte: u8) -> bool
    ensures { result ≡ rule.is_pod_byte byte }
{
    is_label_byte(byte) || byte == b'.'
}

fn is_uid_byte(byte: u8) -> bool
    ensures { result ≡ rule.is_uid_byte byte }
{
    is_pod_byte(byte) || byte.is_ascii_uppercase()
}

fn has_length_to(most: usize, bytes: &[u8]) -> bool
    ensures { result ≡ rule.has_length_to most bytes.now }
{
    1 <= bytes.len() && bytes.len() <= most
}

fn has_plain_ends(bytes: &[u8]) -> bool
    ensures { result ≡ rule.has_plain_ends bytes.now }
{
    match bytes {
        [] => false,
        [first, ..] => is_plain_byte(*first) && is_plain_byte(bytes[bytes.len() - 1]),
    }
}

/// Whether the text may be a pod's name: 1 to 253 bytes, each a lower-case letter, a digit, `-` or `.`,
/// the first and the last a letter or a digit.
#[tactic(auto, unfolding(crate::specs::Texts::is_pod_name))]
pub fn is_pod_name(text: &str) -> bool
    ensures { result ≡ rule.is_pod_name text.now }
{
    let bytes = text.as_bytes();
    has_length_to(253, bytes) && are_pod_bytes(bytes) && has_plain_ends(bytes)
}

fn are_pod_bytes(bytes: &[u8]) -> bool
    ensures { result ≡ list_all rule.is_pod_byte bytes.now }
{
    bytes.iter().all(|byte| is_pod_byte(*byte))
}

/// Whether the text may be the name of a namespace or of a container: 1 to 63 bytes, each a lower-case
/// letter, a digit or `-`, the first and the last a letter or a digit.
#[tactic(auto, unfolding(crate::specs::Texts::is_label))]
pub fn is_label(text: &str) -> bool
    ensures { result ≡ rule.is_label text.now }
{
    let bytes = text.as_bytes();
    has_length_to(63, bytes) && are_label_bytes(bytes) && has_plain_ends(bytes)
}

fn are_label_bytes(bytes: &[u8]) -> bool
    ensures { result ≡ list_all rule.is_label_byte bytes.now }
{
    bytes.iter().all(|byte| is_label_byte(*byte))
}

/// Whether the text may be a uid: 1 to 317 bytes, each a letter, a digit, `-` or `.`.
#[tactic(auto, unfolding(crate::specs::Texts::is_uid))]
pub fn is_uid(text: &str) -> bool
    ensures { result ≡ rule.is_uid text.now }
{
    let bytes = text.as_bytes();
    has_length_to(317, bytes) && are_uid_bytes(bytes)
}

fn are_uid_bytes(bytes: &[u8]) -> bool
    ensures { result ≡ list_all rule.is_uid_byte bytes.now }
{
    bytes.iter().all(|byte| is_uid_byte(*byte))
}

/// Whether the text is a descending path: 1 to 1,024 bytes, none of them zero, which do not begin with `/`
/// and have no part `..` between slashes.
#[tactic(auto, unfolding(crate::specs::Texts::is_descending))]
pub fn is_descending(text: &str) -> bool
    ensures { result ≡ rule.is_descending text.now }
{
    has_length_to(1024, text.as_bytes())
        && !is_rooted(text.as_bytes())
        && !has_zero(text.as_bytes())
        && !climbs(text)
}

fn is_rooted(bytes: &[u8]) -> bool
    ensures { result ≡ rule.is_rooted bytes.now }
{
    match bytes {
        [first, ..] => *first == b'/',
        [] => false,
    }
}

fn has_zero(bytes: &[u8]) -> bool
    ensures { result ≡ rule.has_zero bytes.now }
{
    bytes.iter().any(|byte| *byte == 0)
}

#[tactic(auto, unfolding(crate::specs::Texts::climbs))]
fn climbs(text: &str) -> bool
    ensures { result ≡ rule.climbs text.now }
{
    text.split('/').any(|part| part == "..")
}
