//! The profile RuntimeDefault, compiled once for all containers that ask for it.
ghost use Rattle.std.specs.Prelude.{◌≡◌, IfOk, IfErr, IfSome};
ghost use Rattle.oci_profile.specs.RuntimeDefault.{runtime_default};
ghost use Rattle.cri_msgs.specs.declared.refusals.Refusal.{Refusal};
ghost use Rattle.runtime_cell.specs.Cell.{GivesMeaning};
ghost use Rattle.creation.specs.Made.{IsDefault};

use crate::texts::{CompiledProfile, compiled};
use cri_msgs::Refusal;
use oci_profile::{runtime_default, runtime_default_is_light};
use std::alloc::{AllocError, Global};
use std::marker::Model;

/// RuntimeDefault and its filter, once they are made. Contracts do not see them, since they change no answer.
#[derive(Drop)]
pub struct ReadyDefault {
    built: Option<CompiledProfile>,
}

impl Model for ReadyDefault {
    ghost use Rattle.std.specs.Prelude.{IfSome};
    ghost use Rattle.creation.specs.Made.{IsDefault};

    ghost Value = { Unit {0} };

    ghost view = { λ _. tt };

    // The profile is RuntimeDefault, and its filter returns the value of the profile for every call.
    ghost invariant = { λ ready. IfSome ready.built IsDefault };
}

impl ReadyDefault {
    /// Nothing made yet.
    pub fn none() -> ReadyDefault {
        ReadyDefault { built: None }
    }

    /// RuntimeDefault and its filter. If memory runs out, they are made anew for each container.
    pub fn new(alloc: Global) -> ReadyDefault {
        ReadyDefault {
            built: default_built(alloc).ok(),
        }
    }

    /// RuntimeDefault and its filter, for one container.
    pub(crate) fn built(&self, alloc: Global) -> Result<CompiledProfile, Refusal>
        ensures found { IfOk result (λ b. b.profile ≡ runtime_default) }
        ensures means { IfOk result (λ b. GivesMeaning b.filter b.profile) }
        ensures refused { IfErr result (λ refusal. refusal ≡ Refusal.Memory) }
    {
        match &self.built {
            Some(built) => copied(alloc, built),
            None => default_built(alloc),
        }
    }
}

fn copied(alloc: Global, built: &CompiledProfile) -> Result<CompiledProfile, Refusal>
    ensures same { IfOk result (λ copy. copy ≡ built.now) }
    ensures refused { IfErr result (λ refusal. refusal ≡ Refusal.Memory) }
{
    match built.try_clone(alloc) {
        Ok(copy) => Ok(copy),
        Err(AllocError) => Err(Refusal::Memory),
    }
}

fn default_built(alloc: Global) -> Result<CompiledProfile, Refusal>
    ensures found { IfOk result (λ b. b.profile ≡ runtime_default) }
    ensures means { IfOk result (λ b. GivesMeaning b.filter b.profile) }
    ensures refused { IfErr result (λ refusal. refusal ≡ Refusal.Memory) }
{
    runtime_default_is_light();
    match runtime_default(alloc) {
        Ok(profile) => compiled(alloc, profile),
        Err(AllocError) => Err(Refusal::Memory),
    }
}
