ghost use Rattle.std.specs.Prelude.{◌≡◌, IfOk};
ghost use Rattle.wrong_files.specs.Hints.{IsHint, filter_hints, hints_for};

use crate::hint::{Hint, Wanted};
use crate::suits::suits;
use std::alloc::{AllocError, Global};

/// The hint on these bytes, which are refused where this text was wanted.
pub fn hint_of_text(alloc: Global, bytes: &[u8], wanted: Wanted) -> Result<Option<Hint>, AllocError>
    ensures { IfOk result (λ hint. IsHint bytes.now (hints_for wanted) hint) }
{
    first_that_suits(alloc, bytes, hints_for(wanted))
}

/// The hint on these bytes, which are refused where a filter was wanted.
pub fn hint_of_filter(alloc: Global, bytes: &[u8]) -> Result<Option<Hint>, AllocError>
    ensures { IfOk result (λ hint. IsHint bytes.now filter_hints hint) }
{
    first_that_suits(alloc, bytes, filter_hints())
}

/// The hints that are tried where this text was wanted.
fn hints_for(wanted: Wanted) -> &'static [Hint]
    ensures { result.now ≡ hints_for wanted }
{
    match wanted {
        Wanted::Profile | Wanted::Template => &PROFILE_HINTS,
        Wanted::Manifest => &MANIFEST_HINTS,
        Wanted::Script => &SCRIPT_HINTS,
    }
}

fn filter_hints() -> &'static [Hint]
    ensures { result.now ≡ filter_hints }
{
    &FILTER_HINTS
}

static PROFILE_HINTS: [Hint; 6] = [
    Hint::ByteOrderMark,
    Hint::Filter,
    Hint::Config,
    Hint::Documents,
    Hint::Manifest,
    Hint::Script,
];

static MANIFEST_HINTS: [Hint; 5] = [
    Hint::ByteOrderMark,
    Hint::Filter,
    Hint::Documents,
    Hint::Profile,
    Hint::Script,
];

static SCRIPT_HINTS: [Hint; 5] = [
    Hint::ByteOrderMark,
    Hint::Filter,
    Hint::Documents,
    Hint::Profile,
    Hint::Manifest,
];

static FILTER_HINTS: [Hint; 2] = [Hint::Uncompiled, Hint::Base64];

fn first_that_suits(alloc: Global, bytes: &[u8], hints: &[Hint]) -> Result<Option<Hint>, AllocError>
    ensures { IfOk result (λ hint. IsHint bytes.now hints.now hint) }
{
    for (at, hint) in hints.iter().enumerate() {
        if suits(alloc, bytes, *hint)? {
            return Ok(Some(*hint));
        }
    }
    Ok(None)
}
