use call_names::Argument;
use oci_profile::{Cond, Op};
use std::fmt;

/// A condition in words: `args[0] & 0x7e020000 == 0`.
#[derive(Clone, Copy)]
pub struct Words(pub Cond);

impl fmt::Display for Words {
    ghost use Rattle.std.specs.Prelude.{Some};
    ghost use Rattle.profile_table.specs.Text.{cond_text};

    ghost output = { λ words. Some (cond_text words.0) };

    fn fmt<W: fmt::Write>(&self, f: &mut fmt::Formatter<W>) -> fmt::Result {
        let (index, value) = (self.0.index, Argument(self.0.value));
        match self.0.op {
            Op::NotEqual => write!(f, "args[{index}] != {value}"),
            Op::Less => write!(f, "args[{index}] < {value}"),
            Op::LessOrEqual => write!(f, "args[{index}] <= {value}"),
            Op::Equal => write!(f, "args[{index}] == {value}"),
            Op::GreaterOrEqual => write!(f, "args[{index}] >= {value}"),
            Op::Greater => write!(f, "args[{index}] > {value}"),
            Op::MaskedEqual => {
                let bits = Argument(self.0.value_two);
                write!(f, "args[{index}] & {value} == {bits}")
            }
        }
    }
}
