//! The profiles of containers, read as they are needed, each once.
use denied_calls::{DeniedCall, Returned, Sighting, deciders};
use explain::Decider;
use fault_notes::ShownPath;
use manifest::DescendingPath;
use node_io::{FileFault, MAX_FILE_BYTES, read_file};
use oci_profile::{Profile, runtime_default};
use seccheck_stops::{Stop, note_line, profile_of};
use std::alloc::{AllocError, Global};
use std::rt;
use sys_table::CallTable;

/// A profile by its name in records, or none if it can't be had.
#[derive(Drop)]
struct Used {
    name: String,
    profile: Option<Profile>,
}

/// The profiles that were needed so far.
#[derive(Drop)]
pub(crate) struct UsedProfiles<'a> {
    calls: CallTable,
    folder: Option<&'a str>,
    used: Vec<Used>,
}

impl<'a> UsedProfiles<'a> {
    /// No profile was needed yet. Without a folder none will be. Those of the folder may name these calls.
    pub(crate) fn new(
        alloc: Global,
        calls: CallTable,
        folder: Option<&'a str>,
    ) -> UsedProfiles<'a> {
        UsedProfiles {
            calls,
            folder,
            used: Vec::new(alloc),
        }
    }

    /// The entries of the container's profile that denied the call, if there is a folder of profiles. A
    /// profile that can't be read is reported in `aside`, once.
    pub(crate) fn deciders<R: rt::Files + AllocGlobal>(
        &mut self,
        rt: &R,
        call: &Sighting,
        aside: &mut String,
    ) -> Result<Option<Vec<Decider>>, AllocError> {
        let Some(folder) = self.folder else {
            return Ok(None);
        };
        let name = call.profile.as_str();
        if self.known(name).is_none() {
            let used = Used {
                name: String::from_str(rt.alloc(), name)?,
                profile: profile_named(rt, self.calls, folder, name, aside)?,
            };
            self.used.push(used)?;
        }
        match self.known(name) {
            Some(
                Used {
                    profile: Some(profile),
                    ..
                },
            ) => Ok(Some(deciders(rt.alloc(), profile, &denied(call))?)),
            _ => Ok(Some(Vec::new(rt.alloc()))),
        }
    }

    fn known(&self, name: &str) -> Option<&Used> {
        self.used
            .as_slice()
            .iter()
            .find(|used| used.name.as_str() == name)
    }
}

fn denied(call: &Sighting) -> DeniedCall {
    DeniedCall {
        nr: call.nr,
        arch: call.arch,
        returned: Returned::Value(call.value),
    }
}

/// The profile with this name in records. There is none where a container is unconfined.
fn profile_named<R: rt::Files + AllocGlobal>(
    rt: &R,
    calls: CallTable,
    folder: &str,
    name: &str,
    aside: &mut String,
) -> Result<Option<Profile>, AllocError> {
    match name.strip_prefix("localhost/") {
        Some(path) => profile_in(rt, calls, folder, path, aside),
        None if name == "runtime/default" => Ok(Some(runtime_default(rt.alloc())?)),
        None => Ok(None),
    }
}

/// The profile at a path in the folder. If it can't be read there is none, and `aside` gets the reason.
fn profile_in<R: rt::Files + AllocGlobal>(
    rt: &R,
    calls: CallTable,
    folder: &str,
    path: &str,
    aside: &mut String,
) -> Result<Option<Profile>, AllocError> {
    let alloc = rt.alloc();
    let whole = format!(in alloc; "{folder}/{path}")?;
    let shown = ShownPath(whole.as_str());
    if DescendingPath::new(alloc, path)?.is_none() {
        let fault = FileFault::NotFound;
        writeln!(aside, "seccheck: {shown}: {fault}")?;
        return Ok(None);
    }
    let bytes = match read_file(rt, whole.as_str(), MAX_FILE_BYTES) {
        Ok(bytes) => bytes,
        Err(caused) if caused.fault == FileFault::Memory => return Err(AllocError),
        Err(caused) => {
            writeln!(aside, "seccheck: {shown}: {caused}")?;
            return Ok(None);
        }
    };
    match profile_of(alloc, calls, whole.as_str(), bytes) {
        Ok(file) => {
            aside.push_str(file.aside.as_str())?;
            Ok(Some(file.profile))
        }
        Err(Stop::Refused(refused)) => {
            aside.push_str(note_line(alloc, &refused)?.as_str())?;
            Ok(None)
        }
        Err(_) => Err(AllocError),
    }
}
