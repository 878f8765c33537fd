/// How answers are written.
#[derive(Clone, Copy, Debug, PartialEq, Eq)]
pub enum Form {
    /// As words.
    Text,
    /// As an object of JSON (RFC 8259) a line.
    Json,
}
