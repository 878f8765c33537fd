ghost use Rattle.std.specs.Prelude.{IfOk, string_bytes};
ghost use Rattle.seccheck_stops.specs.Answers.{IsAnswer, IsNoteOn};

use crate::answer_object::object_line;
use crate::form::Form;
use crate::notes::note_line;
use crate::stop::Stop;
use std::alloc::{AllocError, Global};

/// What a command prints if nothing stops it, and its status.
#[derive(Drop)]
pub struct Output {
    /// On standard output.
    pub text: String,
    /// The bytes of a filter on standard output, after the text.
    pub code: Option<Vec<u8>>,
    /// On standard error.
    pub aside: String,
    /// The status with which it ends.
    pub status: u8,
}

impl Output {
    ghost use Rattle.std.specs.Prelude.{◌≡◌, ◌==◌, ◌++◌, [], if◌then◌else◌, length, string_bytes, IfOk, None};
    ghost use Rattle.seccheck_stops.specs.Answers.{IsAnswer, IsBeside};
    ghost use Rattle.seccheck_stops.specs.Stops.{status_of};

    /// A text, and nothing beside it.
    pub fn plain(alloc: Global, text: String) -> Output
        ensures text { result.text ≡ text }
        ensures code { result.code ≡ None }
        ensures aside { string_bytes result.aside ≡ [] }
        ensures status { result.status ≡ 0 }
    {
        Output {
            text,
            code: None,
            aside: String::new(alloc),
            status: 0,
        }
    }

    /// Findings, with status 1 if there are some.
    pub fn found(alloc: Global, text: String) -> Output
        ensures text { result.text ≡ text }
        ensures code { result.code ≡ None }
        ensures aside { string_bytes result.aside ≡ [] }
        ensures status { result.status ≡ (if length (string_bytes text) == 0 then 0 else 1) }
    {
        let status = if text.as_str().is_empty() { 0 } else { 1 };
        Output {
            text,
            code: None,
            aside: String::new(alloc),
            status,
        }
    }

    /// A text, and lines on standard error beside it.
    pub fn with_aside(text: String, aside: String) -> Output
        ensures text { result.text ≡ text }
        ensures code { result.code ≡ None }
        ensures aside { result.aside ≡ aside }
        ensures status { result.status ≡ 0 }
    {
        Output {
            text,
            code: None,
            aside,
            status: 0,
        }
    }

    /// A text, and faults on standard error, with status 1 if there are some.
    pub fn with_faults(text: String, aside: String) -> Output
        ensures text { result.text ≡ text }
        ensures code { result.code ≡ None }
        ensures aside { result.aside ≡ aside }
        ensures status { result.status ≡ (if length (string_bytes aside) == 0 then 0 else 1) }
    {
        let status = if aside.as_str().is_empty() { 0 } else { 1 };
        Output {
            text,
            code: None,
            aside,
            status,
        }
    }

    /// The same output, with these lines on standard error before its own.
    pub fn after(self, lines: String) -> Result<Output, AllocError>
        ensures text { IfOk result (λ output. output.text ≡ self.text) }
        ensures code { IfOk result (λ output. output.code ≡ self.code) }
        ensures aside { IfOk result (λ output.
            string_bytes output.aside ≡ string_bytes lines ++ string_bytes self.aside) }
        ensures status { IfOk result (λ output. output.status ≡ self.status) }
    {
        let mut aside = lines;
        aside.push_str(self.aside.as_str())?;
        Ok(Output {
            text: self.text,
            code: self.code,
            aside,
            status: self.status,
        })
    }

    /// The answer of a stop, and these lines on standard error before the note on its file.
    pub fn of_stop(
        alloc: Global,
        stop: &Stop<'_>,
        form: Form,
        aside: String,
    ) -> Result<Output, AllocError>
        ensures text { IfOk result (λ output. IsAnswer form stop.now (string_bytes output.text)) }
        ensures code { IfOk result (λ output. output.code ≡ None) }
        ensures aside { IfOk result (λ output.
            IsBeside stop.now (string_bytes aside) (string_bytes output.aside)) }
        ensures status { IfOk result (λ output. output.status ≡ status_of stop.now) }
    {
        let text = answer_text(alloc, stop, form)?;
        let note = note_on(alloc, stop)?;
        let mut aside = aside;
        aside.push_str(note.as_str())?;
        Ok(Output {
            text,
            code: None,
            aside,
            status: stop.status(),
        })
    }
}

/// The line on the file that a stop refuses, if it refuses one.
fn note_on(alloc: Global, stop: &Stop<'_>) -> Result<String, AllocError>
    ensures { IfOk result (λ note. IsNoteOn stop.now (string_bytes note)) }
{
    match stop {
        Stop::Refused(file) => note_line(alloc, file),
        _ => Ok(String::new(alloc)),
    }
}

fn answer_text(alloc: Global, stop: &Stop<'_>, form: Form) -> Result<String, AllocError>
    ensures { IfOk result (λ text. IsAnswer form stop.now (string_bytes text)) }
{
    match form {
        Form::Text => format!(in alloc; "{stop}"),
        Form::Json => object_line(alloc, stop),
    }
}
