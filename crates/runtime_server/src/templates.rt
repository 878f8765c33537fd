//! Templates in the place of profiles: a runtime reports each, and ignores its conditions.
ghost use Rattle.std.specs.Prelude.{◌≡◌, [], IfOk, not, option_map, string_bytes, true};
ghost use Rattle.std.specs.List.{list_any};
ghost use Rattle.runtime_server.specs.Templates.{given_profile, is_known, is_text, profile_line};

use cri_msgs::{Call, Request};
use fault_notes::ShownPath;
use manifest::SeccompProfile;
use oci_profile::MAX_PROFILE_BYTES;
use profile_template::template_sign;
use runtime_core::FileAnswers;
use std::alloc::{AllocError, Global};

/// The greatest number of profiles that are remembered.
pub(crate) const MAX_SEEN: usize = 16;

/// A profile that a runtime was given: the path, and the bytes.
#[derive(Drop)]
pub(crate) struct SeenProfile {
    path: String,
    bytes: Vec<u8>,
}

/// The profiles that a runtime was given last, so that each template is reported once.
#[derive(Drop)]
pub(crate) struct SeenProfiles {
    profiles: Vec<SeenProfile>,
}

impl SeenProfiles {
    /// No profile was given yet.
    pub(crate) fn new(alloc: Global) -> SeenProfiles
        ensures { result.profiles.items ≡ [] }
    {
        SeenProfiles {
            profiles: Vec::new(alloc),
        }
    }

    /// Whether this profile is remembered.
    pub(crate) fn is_known(&self, path: &str, bytes: &[u8]) -> bool
        ensures { result ≡ is_known path.now bytes.now self.now.profiles.items }
    {
        is_among(self.profiles.as_slice(), path, bytes)
    }

    /// Remembers this profile, and returns whether it was not remembered before. Out of memory, it is not.
    pub(crate) fn remember(
        &mut self,
        alloc: Global,
        path: &str,
        bytes: &[u8],
    ) -> Result<bool, AllocError>
        ensures new { IfOk result (λ is_new. is_new ≡ not (is_known path.now bytes.now self.old.profiles.items)) }
        ensures seen { IfOk result (λ _. is_known path.now bytes.now self.new.profiles.items ≡ true) }
    {
        if self.is_known(path, bytes) {
            return Ok(false);
        }
        let seen = SeenProfile {
            path: String::from_str(alloc, path)?,
            bytes: Vec::from_slice(alloc, bytes)?,
        };
        self.add(seen)?;
        Ok(true)
    }

    /// Adds a profile, and forgets the oldest one if there are too many.
    fn add(&mut self, seen: SeenProfile) -> Result<(), AllocError>
        ensures { IfOk result (λ _. is_known (string_bytes seen.path) seen.bytes.items self.new.profiles.items ≡ true) }
    {
        if self.profiles.len() >= MAX_SEEN {
            drop(self.profiles.remove(0));
        }
        self.profiles.push(seen)?;
        Ok(())
    }
}

fn is_among(profiles: &[SeenProfile], path: &str, bytes: &[u8]) -> bool
    ensures { result ≡ list_any (is_text path.now bytes.now) profiles.now }
{
    profiles.iter().any(|seen| is_text(seen, path, bytes))
}

fn is_text(seen: &SeenProfile, path: &str, bytes: &[u8]) -> bool
    ensures { result ≡ is_text path.now bytes.now seen.now }
{
    seen.path.as_str() == path && seen.bytes.as_slice() == bytes
}

/// The line on a profile that is a template. A text that is too large for a profile is not looked at.
pub(crate) fn profile_line(
    alloc: Global,
    path: &str,
    bytes: &[u8],
) -> Result<Option<String>, AllocError>
    ensures { IfOk result (λ line. option_map string_bytes line ≡ profile_line path.now bytes.now) }
{
    if bytes.len() > MAX_PROFILE_BYTES {
        return Ok(None);
    }
    match template_sign(alloc, bytes)? {
        Some(sign) => Ok(Some(format!(in alloc; "profile {}: {sign}", ShownPath(path))?)),
        None => Ok(None),
    }
}

/// The profile of a request by its path, and its bytes, if its file was read.
pub(crate) fn given_profile<'r>(
    request: &'r Request,
    files: &'r FileAnswers,
) -> Option<(&'r str, &'r [u8])>
    ensures { option_map (λ given. (given.0.now, given.1.now)) result
        ≡ given_profile request.now.call files.now.profile }
{
    let Call::CreateContainer {
        profile: SeccompProfile::Localhost(path),
        ..
    } = &request.call
    else {
        return None;
    };
    match &files.profile {
        Some(Ok(contents)) => Some((path.as_str(), contents.as_slice())),
        _ => None,
    }
}
