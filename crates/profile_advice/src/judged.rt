//! What a profile decides on calls.
ghost use Rattle.std.specs.Prelude.{◌≡◌};
ghost use Rattle.profile_advice.specs.Judged.{call_of, is_allowed, is_denied, plain_call, rank_on};
ghost use Rattle.profile_advice.specs.Judged.{allows_by_default, denies_by_default};

use action::{Action, Verdict};
use call_data::{NATIVE_ARCH, SysCall};
use oci_profile::Profile;

/// A call of x86-64.
pub(crate) fn call_of(nr: u32, args: [u64; 6]) -> SysCall
    ensures { result ≡ call_of nr args }
{
    SysCall {
        nr,
        arch: NATIVE_ARCH,
        ip: 0,
        args,
    }
}

/// The call with this first argument, and 0 for the others.
pub(crate) fn plain_call(nr: u32, first: u64) -> SysCall
    ensures { result ≡ plain_call nr first }
{
    call_of(nr, [first, 0, 0, 0, 0, 0])
}

/// How lenient the profile's decision on the call is.
pub(crate) fn rank_on(profile: &Profile, call: &SysCall) -> u8
    ensures { result ≡ rank_on profile.now call.now }
{
    Verdict::of_value(profile.value_on(call)).rank()
}

/// Whether the call is performed.
pub(crate) fn is_allowed(profile: &Profile, call: &SysCall) -> bool
    ensures { result ≡ is_allowed profile.now call.now }
{
    Verdict::of_value(profile.value_on(call)).performs()
}

/// Whether the call returns an errno, or ends the program.
pub(crate) fn is_denied(profile: &Profile, call: &SysCall) -> bool
    ensures { result ≡ is_denied profile.now call.now }
{
    rank_on(profile, call) <= Action::Errno.rank()
}

/// Whether calls that no entry decides are performed.
pub(crate) fn allows_by_default(profile: &Profile) -> bool
    ensures { result ≡ allows_by_default profile.now }
{
    Verdict::of_value(profile.default.value()).performs()
}

/// Whether calls that no entry decides return an errno, or end the program.
pub(crate) fn denies_by_default(profile: &Profile) -> bool
    ensures { result ≡ denies_by_default profile.now }
{
    Verdict::of_value(profile.default.value()).rank() <= Action::Errno.rank()
}
