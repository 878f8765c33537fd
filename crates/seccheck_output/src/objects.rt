//! Answers as JSON objects (RFC 8259). No text of these has a byte that JSON would escape.
ghost use Rattle.std.specs.Prelude.{◌≡◌, IfOk, string_bytes};
ghost use Rattle.seccheck_output.specs.Objects.{accepted_object, compiled_object};
ghost use Rattle.seccheck_output.specs.Objects.{judged_object, longest_object};
ghost use Rattle.seccheck_output.specs.Objects.{same_object};

use crate::compared::Difference;
use crate::judging::Judged;
use action::ValueObject;
use bpf_compare::Calls;
use call_names::CallMembers;
use std::alloc::{AllocError, Global};
use std::fmt;

/// The object for a sound filter of this many instructions.
pub fn accepted_object(alloc: Global, count: usize) -> Result<String, AllocError>
    ensures { IfOk result (λ text. string_bytes text ≡ accepted_object count) }
{
    format!(in alloc; "{{\"answer\":\"accepted\",\"instructions\":{count}}}\n")
}

/// The object for a compiled filter of this many instructions.
pub fn compiled_object(alloc: Global, count: usize) -> Result<String, AllocError>
    ensures { IfOk result (λ text. string_bytes text ≡ compiled_object count) }
{
    format!(in alloc; "{{\"answer\":\"compiled\",\"instructions\":{count}}}\n")
}

/// The object for a filter whose runs take at most this many steps.
pub fn longest_object(alloc: Global, most: u32) -> Result<String, AllocError>
    ensures { IfOk result (λ text. string_bytes text ≡ longest_object most) }
{
    format!(in alloc; "{{\"longest\":{most}}}\n")
}

/// The object for a filter's answer.
pub fn judged_object(alloc: Global, judged: &Judged) -> Result<String, AllocError>
    ensures { IfOk result (λ text. string_bytes text ≡ judged_object judged.now) }
{
    let (value, steps) = (judged.value, judged.steps);
    let (action, ret_data) = (judged.verdict.action, judged.verdict.ret_data);
    format!(in alloc;
        "{{\"value\":{value},\"action\":\"{action}\",\"data\":{ret_data},\"steps\":{steps}}}\n"
    )
}

/// The object for filters that are the same on these calls.
pub fn same_object(alloc: Global, calls: Calls) -> Result<String, AllocError>
    ensures { IfOk result (λ text. string_bytes text ≡ same_object calls) }
{
    let calls = match calls {
        Calls::Every => "every",
        Calls::Native => "native",
    };
    format!(in alloc; "{{\"answer\":\"same\",\"calls\":\"{calls}\"}}\n")
}

/// The call on which two filters return different values, and these, with the end of the line.
#[derive(Clone, Copy)]
pub struct DifferenceObject(pub Difference);

impl fmt::Display for DifferenceObject {
    ghost use Rattle.std.specs.Prelude.{Some};
    ghost use Rattle.seccheck_output.specs.Objects.{difference_object};

    ghost output = { λ difference. Some (difference_object difference.0) };

    fn fmt<W: fmt::Write>(&self, f: &mut fmt::Formatter<W>) -> fmt::Result {
        let call = CallMembers(self.0.call);
        let (first, second) = (ValueObject(self.0.first), ValueObject(self.0.second));
        writeln!(
            f,
            "{{\"answer\":\"differ\",{call},\"first\":{first},\"second\":{second}}}"
        )
    }
}
