ghost use Rattle.std.specs.Prelude.{◌≡◌, ◌<◌, slice_index};
ghost use Rattle.call_data.specs.declared.sys_call.SysCall.{SysCall};
ghost use Rattle.oci_profile.specs.Conditions.{AreConds};

use std::marker::Model;

/// How an argument is compared, as an unsigned 64-bit number: SCMP_CMP_NE, LT, LE, EQ, GE, GT and MASKED_EQ.
#[derive(Clone, Copy, Debug, PartialEq, Eq)]
pub enum Op {
    /// The argument is not `value`.
    NotEqual,
    /// The argument is below `value`.
    Less,
    /// The argument is at most `value`.
    LessOrEqual,
    /// The argument is `value`.
    Equal,
    /// The argument is at least `value`.
    GreaterOrEqual,
    /// The argument is above `value`.
    Greater,
    /// The argument under the mask `value` is `value_two`.
    MaskedEqual,
}

/// A condition on one argument of a call.
#[derive(Clone, Copy, Debug, PartialEq, Eq)]
pub struct Cond {
    /// Which argument, from 0 to 5.
    pub index: u8,
    pub op: Op,
    pub value: u64,
    /// For [`Op::MaskedEqual`] the value that the masked argument must have; ignored otherwise.
    pub value_two: u64,
}

/// The conditions of an entry, in order: each on an argument from 0 to 5, no two on the same.
#[derive(Drop)]
pub struct Conds {
    conds: Vec<Cond>,
}

impl Model for Conds {
    ghost use Rattle.std.specs.Prelude.{List};
    ghost use Rattle.oci_profile.specs.declared.conditions.Cond.{Cond};
    ghost use Rattle.oci_profile.specs.Conditions.{AreConds};

    ghost Value = { List Cond };

    ghost view = { λ c. c.conds.items };

    ghost invariant = { λ c. AreConds c.conds.items };
}

impl Conds {
    /// The conditions of this list, in order.
    pub fn new(conds: Vec<Cond>) -> Conds
        requires { AreConds conds.items }
        ensures { result ≡ conds.items }
    {
        Conds { conds }
    }

    /// The conditions in order.
    pub fn as_slice(&self) -> &[Cond]
        ensures value { result.now ≡ self.now }
        ensures fit { AreConds self.now }
    {
        self.conds.as_slice()
    }
}
