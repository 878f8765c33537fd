ghost use Rattle.std.specs.Prelude.{◌≡◌, ◌↔◌, IfOk, IsTrue, option_map};
ghost use Rattle.manifest.specs.Profiles.{HasFitPath, profile_seen};

use crate::paths::DescendingPath;
use std::alloc::{AllocError, Global};

/// A `seccompProfile` (Kubernetes 1.27, `SeccompProfile` of the API reference).
#[derive(Debug, Drop, PartialEq, Eq)]
pub enum SeccompProfile {
    /// The profile of the runtime.
    RuntimeDefault,
    /// The profile in this file, relative to the node's folder of profiles.
    Localhost(DescendingPath),
    /// No profile.
    Unconfined,
}

impl SeccompProfile {
    /// Whether both are the same profile.
    pub fn same(&self, other: &SeccompProfile) -> bool
        ensures { IsTrue result ↔ (self.now ≡ other.now) }
    {
        match (self, other) {
            (SeccompProfile::RuntimeDefault, SeccompProfile::RuntimeDefault)
            | (SeccompProfile::Unconfined, SeccompProfile::Unconfined) => true,
            (SeccompProfile::Localhost(path), SeccompProfile::Localhost(file)) => {
                path.as_str() == file.as_str()
            }
            _ => false,
        }
    }

    /// A copy of the profile.
    pub fn try_clone(&self, alloc: Global) -> Result<SeccompProfile, AllocError>
        ensures { IfOk result (λ profile. profile ≡ self.now) }
    {
        match self {
            SeccompProfile::RuntimeDefault => Ok(SeccompProfile::RuntimeDefault),
            SeccompProfile::Localhost(path) => Ok(SeccompProfile::Localhost(path.try_clone(
                alloc,
            )?)),
            SeccompProfile::Unconfined => Ok(SeccompProfile::Unconfined),
        }
    }
}

// Whether an optional field is the same in both.
pub(crate) fn is_same(profile: &Option<SeccompProfile>, other: &Option<SeccompProfile>) -> bool
    ensures { IsTrue result ↔ (profile.now ≡ other.now) }
{
    match (profile, other) {
        (None, None) => true,
        (Some(profile), Some(other)) => profile.same(other),
        _ => false,
    }
}

// A copy of the profile of an optional field.
pub(crate) fn copied(
    alloc: Global,
    profile: &Option<SeccompProfile>,
) -> Result<Option<SeccompProfile>, AllocError>
    ensures { IfOk result (λ copy. copy ≡ profile.now) }
{
    match profile {
        Some(profile) => Ok(Some(profile.try_clone(alloc)?)),
        None => Ok(None),
    }
}

// A profile as written in a text that is being read.
#[derive(Clone, Copy)]
pub(crate) enum ProfileText<'v> {
    RuntimeDefault,
    Localhost(&'v str),
    Unconfined,
}

// The profile that was read.
pub(crate) fn kept(
    alloc: Global,
    read: Option<ProfileText<'_>>,
) -> Result<Option<SeccompProfile>, AllocError>
    requires { HasFitPath read }
    ensures { IfOk result (λ profile. profile ≡ option_map profile_seen read.entry) }
{
    match read {
        Some(ProfileText::RuntimeDefault) => Ok(Some(SeccompProfile::RuntimeDefault)),
        Some(ProfileText::Localhost(path)) => {
            let path = DescendingPath::copied(alloc, path)?;
            Ok(Some(SeccompProfile::Localhost(path)))
        }
        Some(ProfileText::Unconfined) => Ok(Some(SeccompProfile::Unconfined)),
        None => Ok(None),
    }
}
