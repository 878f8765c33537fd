//! What a text begins with.
ghost use Rattle.std.specs.Prelude.{◌≡◌, ◌<◌, IfSome, length, not, position};
ghost use Rattle.fault_notes.specs.Starts.{begins_key, begins_list, begins_object, begins_yaml, is_letter};
ghost use Rattle.fault_notes.specs.Starts.{is_space, is_yaml_start, opens_mapping};

/// Whether the first byte that is not JSON white space (RFC 8259) begins an object.
pub fn begins_object(bytes: &[u8]) -> bool
    ensures { result ≡ begins_object bytes.now }
{
    match begin(bytes) {
        Some(first) => bytes[first] == b'{',
        None => false,
    }
}

/// Whether the first byte that is not JSON white space (RFC 8259) begins a list.
pub fn begins_list(bytes: &[u8]) -> bool
    ensures { result ≡ begins_list bytes.now }
{
    match begin(bytes) {
        Some(first) => bytes[first] == b'[',
        None => false,
    }
}

/// Whether a text begins as YAML does: its first byte that is not white space is a letter, `-`, `#` or `%`,
/// or a brace with a letter after it.
pub(crate) fn begins_yaml(bytes: &[u8]) -> bool
    ensures { result ≡ begins_yaml bytes.now }
{
    match begin(bytes) {
        Some(first) => is_yaml_start(bytes[first]) || opens_mapping(&bytes[first..]),
        None => false,
    }
}

/// Whether the first byte opens a mapping of YAML, whose first key is without quotes.
fn opens_mapping(bytes: &[u8]) -> bool
    ensures { result ≡ opens_mapping bytes.now }
{
    match bytes {
        [b'{', rest @ ..] => begins_key(rest),
        _ => false,
    }
}

/// Whether the first byte that is not white space is a letter.
fn begins_key(bytes: &[u8]) -> bool
    ensures { result ≡ begins_key bytes.now }
{
    match begin(bytes) {
        Some(first) => is_letter(bytes[first]),
        None => false,
    }
}

fn is_yaml_start(byte: u8) -> bool
    ensures { result ≡ is_yaml_start byte }
{
    is_letter(byte) || byte == b'-' || byte == b'#' || byte == b'%'
}

fn is_letter(byte: u8) -> bool
    ensures { result ≡ is_letter byte }
{
    (b'A' <= byte && byte <= b'Z') || (b'a' <= byte && byte <= b'z')
}

/// The index of the first byte that is not white space.
fn begin(bytes: &[u8]) -> Option<usize>
    ensures first { result ≡ position (λ byte. not (is_space byte)) bytes.now }
    ensures inside { IfSome result (λ at. at < length bytes.now) }
{
    bytes.iter().position(|byte| !is_space(*byte))
}

/// Whether the byte is white space of JSON (RFC 8259).
pub fn is_space(byte: u8) -> bool
    ensures { result ≡ is_space byte }
{
    byte == b' ' || byte == b'\t' || byte == b'\n' || byte == b'\r'
}
