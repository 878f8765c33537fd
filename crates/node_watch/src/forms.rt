/// How lines are written.
#[derive(Clone, Copy, Debug, PartialEq, Eq)]
pub enum Form {
    /// As words.
    Text,
    /// As one JSON object (RFC 8259) per line. Neither a uid nor a name has a byte that JSON would escape.
    Json,
}
