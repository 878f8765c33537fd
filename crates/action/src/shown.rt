//! Values and verdicts as they are printed, in words and as JSON (RFC 8259).
ghost use Rattle.std.specs.Prelude.{◌≡◌};
ghost use Rattle.action.specs.Shown.{is_errno};

use crate::action::Action;
use crate::errnos::ShownErrno;
use crate::verdict::Verdict;
use std::fmt;

/// `ERRNO 38`.
impl fmt::Display for Verdict {
    ghost use Rattle.std.specs.Prelude.{Some};
    ghost use Rattle.action.specs.Shown.{verdict_text};

    ghost output = { λ verdict. Some (verdict_text verdict) };

    fn fmt<W: fmt::Write>(&self, f: &mut fmt::Formatter<W>) -> fmt::Result {
        let (action, ret_data) = (self.action, self.ret_data);
        write!(f, "{action} {ret_data}")
    }
}

fn is_errno(action: Action) -> bool
    ensures { result ≡ is_errno action }
{
    action == Action::Errno
}

/// A filter's value as its action and its data, an errno with its name: `ERRNO 38 (ENOSYS)`.
#[derive(Clone, Copy, Debug)]
pub struct ValueText(pub u32);

impl fmt::Display for ValueText {
    ghost use Rattle.std.specs.Prelude.{Some};
    ghost use Rattle.action.specs.Shown.{value_text};

    ghost output = { λ value. Some (value_text value.0) };

    #[tactic(auto, unfolding(crate::specs::Shown::value_text))]
    fn fmt<W: fmt::Write>(&self, f: &mut fmt::Formatter<W>) -> fmt::Result {
        let verdict = Verdict::of_value(self.0);
        if is_errno(verdict.action) {
            write!(f, "ERRNO {}", ShownErrno(verdict.ret_data))
        } else {
            write!(f, "{verdict}")
        }
    }
}

/// A filter's value as members of a JSON object: `"value":327718,"action":"ERRNO","data":38`.
#[derive(Clone, Copy, Debug)]
pub struct ValueMembers(pub u32);

impl fmt::Display for ValueMembers {
    ghost use Rattle.std.specs.Prelude.{Some};
    ghost use Rattle.action.specs.Shown.{value_members};

    ghost output = { λ value. Some (value_members value.0) };

    fn fmt<W: fmt::Write>(&self, f: &mut fmt::Formatter<W>) -> fmt::Result {
        let value = self.0;
        let verdict = Verdict::of_value(value);
        let (action, ret_data) = (verdict.action, verdict.ret_data);
        write!(
            f,
            "\"value\":{value},\"action\":\"{action}\",\"data\":{ret_data}"
        )
    }
}

/// A filter's value as a JSON object: `{"value":327718,"action":"ERRNO","data":38}`.
#[derive(Clone, Copy, Debug)]
pub struct ValueObject(pub u32);

impl fmt::Display for ValueObject {
    ghost use Rattle.std.specs.Prelude.{Some};
    ghost use Rattle.action.specs.Shown.{value_object};

    ghost output = { λ value. Some (value_object value.0) };

    fn fmt<W: fmt::Write>(&self, f: &mut fmt::Formatter<W>) -> fmt::Result {
        write!(f, "{{{}}}", ValueMembers(self.0))
    }
}
