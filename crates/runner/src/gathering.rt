//! The files of a request, which are read before any lock is taken.
ghost use Rattle.std.specs.Prelude.{◌≡◌, ◌≤◌};
ghost use Rattle.node_io.specs.Counts.{HasRisen};
ghost use Rattle.sys_table.specs.declared.calls.CallTable.TheVariants.{Linux5_8};
ghost use Rattle.creation.specs.Files.{path_of};
ghost use Rattle.runner.specs.Gathered.{Gave, IsTold, profile_path, script_path};

use cri_msgs::{Call, Request};
use manifest::SeccompProfile;
use node_io::{FileFault, Files, MAX_FILE_BYTES};
use runtime_core::{CompiledProfile, Contents, FileAnswer, FileAnswers, ReadAs};
use sys_table::CallTable;

/// Reads the files of a request: for CreateContainer its image among the scripts and, if its profile is
/// Localhost, its path among the profiles. Nothing else is read. The known calls are those of Linux 5.8.
pub fn gather<S: Files, P: Files>(
    scripts: &mut S,
    profiles: &mut P,
    request: &Request,
) -> FileAnswers
    ensures script { Gave Linux5_8 S.held S.failed scripts.old (script_path request.now.call) result.script
        scripts.new }
    ensures profile { Gave Linux5_8 P.held P.failed profiles.old (profile_path request.now.call) result.profile
        profiles.new }
{
    gather_with(CallTable::Linux5_8, scripts, profiles, request)
}

/// Reads the files of a request as [`gather`] does, if these are the known calls.
pub fn gather_with<S: Files, P: Files>(
    calls: CallTable,
    scripts: &mut S,
    profiles: &mut P,
    request: &Request,
) -> FileAnswers
    ensures script { Gave calls S.held S.failed scripts.old (script_path request.now.call) result.script
        scripts.new }
    ensures profile { Gave calls P.held P.failed profiles.old (profile_path request.now.call) result.profile
        profiles.new }
{
    match &request.call {
        Call::CreateContainer { image, profile, .. } => FileAnswers {
            script: Some(contents(calls, scripts, image.as_str())),
            profile: own_profile(calls, profiles, profile),
        },
        _ => FileAnswers {
            script: None,
            profile: None,
        },
    }
}

// The result of reading a Localhost profile.
fn own_profile<P: Files>(
    calls: CallTable,
    profiles: &mut P,
    profile: &SeccompProfile,
) -> FileAnswer<CompiledProfile>
    ensures { Gave calls P.held P.failed profiles.old (path_of profile.now) result profiles.new }
{
    match profile {
        SeccompProfile::Localhost(path) => Some(contents(calls, profiles, path.as_str())),
        SeccompProfile::RuntimeDefault | SeccompProfile::Unconfined => None,
    }
}

// The result of reading a file.
fn contents<F: Files, T: ReadAs + Drop>(
    calls: CallTable,
    files: &mut F,
    path: &str,
) -> Result<Contents<T>, FileFault>
    ensures told { IsTold calls (F.held files.old) (HasRisen (F.failed files.old) (F.failed files.new)) path.now
        result }
    ensures held { F.held files.new ≡ F.held files.old }
    ensures counted { F.failed files.old ≤ F.failed files.new }
{
    match files.read(path, MAX_FILE_BYTES) {
        Ok(bytes) => Ok(Contents::new(calls, bytes)),
        Err(fault) => Err(fault),
    }
}
