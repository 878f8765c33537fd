ghost use Rattle.std.specs.Prelude.{◌≡◌, ℕ};
ghost use Rattle.call_data.specs.declared.sys_call.SysCall.{SysCall};
ghost use Rattle.call_data.specs.CallData.{IsCall};
ghost use Rattle.oci_profile.specs.Meaning.{meaning};
ghost use Rattle.bpf_compare.specs.Agree.{Returns};

use bpf_machine::runs_are_determined;
use bpf_verify::Filter;
use compile::{CompileFault, compile};
use oci_profile::Profile;
use std::alloc::Global;

/// A profile and its filter.
#[derive(Drop)]
pub struct Compiled {
    pub profile: Profile,
    pub filter: Filter,
    ghost means: { (call : SysCall) (value : ℕ) → IsCall call → Returns filter call value
        → value ≡ meaning profile call },
}

impl Compiled {
    ghost use Rattle.std.specs.Prelude.{IfOk};

    /// Compiles a profile.
    pub fn new(alloc: Global, profile: Profile) -> Result<Compiled, CompileFault>
        ensures { IfOk result (λ compiled. compiled.profile ≡ profile) }
    {
        runs_are_determined();
        let filter = compile(alloc, &profile)?;
        Ok(Compiled { profile, filter })
    }
}

/// One of two filters that are compared.
#[derive(Drop)]
pub enum Side {
    /// A filter by itself.
    Filter(Filter),
    /// The filter of a profile.
    Profile(Compiled),
}

impl Side {
    ghost use Rattle.std.specs.Prelude.{◌≡◌};
    ghost use Rattle.seccheck_differences.specs.Telling.{code_of};

    /// The filter.
    pub fn filter(&self) -> &Filter
        ensures { result.now ≡ code_of self.now }
    {
        match self {
            Side::Filter(filter) => filter,
            Side::Profile(compiled) => &compiled.filter,
        }
    }
}
