ghost use Rattle.std.specs.Prelude.{◌≡◌, ◌<◌, ◌∷◌, [], OnOk, OnErr, option_map};
ghost use Rattle.std.specs.Prelude.{vec_len, vec_capacity};
ghost use Rattle.refusal_causes.specs.Causes.{is_of, noted, place_of, text_at, without_at};

use crate::cause_text::CauseText;
use manifest::{Label, Uid};
use std::alloc::{AllocError, Global};
use std::marker::Model;

/// The greatest number of causes that are kept until they are taken.
pub const MAX_CAUSES: usize = 256;

/// Why a request about a container was refused.
#[derive(Debug, Drop)]
pub struct Cause {
    /// The number of the request.
    pub number: u64,
    /// The pod of the container.
    pub uid: Uid,
    /// The name of the container.
    pub name: Label,
    pub text: CauseText,
}

/// The causes that were noted and not yet taken. Contracts see them newest first.
#[derive(Drop)]
pub struct Causes {
    list: Vec<Cause>,
}

impl Model for Causes {
    ghost use Rattle.std.specs.Prelude.{List};
    ghost use Rattle.refusal_causes.specs.declared.causes.Cause.{Cause};

    ghost Value = { List Cause };

    ghost view = { λ c. c.list.items };
}

fn is_of(number: u64, uid: &Uid, name: &Label, cause: &Cause) -> bool
    ensures { result ≡ is_of number uid.now name.now cause.now }
{
    cause.number == number
        && cause.uid.as_str() == uid.as_str()
        && cause.name.as_str() == name.as_str()
}

fn place_of(number: u64, uid: &Uid, name: &Label, causes: &[Cause]) -> Option<usize>
    ensures { result ≡ place_of number uid.now name.now causes.now }
{
    causes
        .iter()
        .position(|cause| is_of(number, uid, name, cause))
}

fn take_at(causes: &mut Vec<Cause>, place: Option<usize>) -> Option<CauseText>
    ensures text { result ≡ text_at place causes.old.items }
    ensures rest { causes.new.items ≡ without_at place causes.old.items }
{
    match place {
        Some(place) if place < causes.len() => Some(causes.remove(place).text),
        _ => None,
    }
}

fn put_first(causes: &mut Vec<Cause>, cause: Cause)
    requires { vec_len causes.old < vec_capacity causes.old }
    ensures { causes.new.items ≡ cause ∷ causes.old.items }
{
    let put = causes.insert(0, cause);
    let is_there = put.is_ok();
    prove!(is_there);
    drop(put);
}

impl Causes {
    /// No causes.
    pub fn new(alloc: Global) -> Causes
        ensures { result ≡ [] }
    {
        Causes {
            list: Vec::new(alloc),
        }
    }

    /// Notes why a request was refused.
    pub fn note(&mut self, cause: Cause) -> Result<(), AllocError>
        ensures ok { OnOk result (self.new ≡ noted cause self.old) }
        ensures err { OnErr result (self.new ≡ self.old) }
    {
        self.list.reserve(1)?;
        put_first(&mut self.list, cause);
        self.list.truncate(MAX_CAUSES);
        Ok(())
    }

    /// Removes and returns why the request with this number, about this container of the pod, was refused.
    pub fn take(&mut self, number: u64, uid: &Uid, name: &Label) -> Option<CauseText>
        ensures text { result ≡ text_at (place_of number uid.now name.now self.old) self.old }
        ensures rest { self.new ≡ without_at (place_of number uid.now name.now self.old) self.old }
    {
        let place = place_of(number, uid, name, self.list.as_slice());
        take_at(&mut self.list, place)
    }
}
