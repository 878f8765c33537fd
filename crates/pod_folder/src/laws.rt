ghost use Rattle.std.specs.Prelude.{◌≡◌};
ghost use Rattle.pod_folder.specs.Runs.{DeletesOnlyWhatIsGone};
ghost use Rattle.pod_folder.specs.declared.looking.TheConstants.{MAX_FILES};

/// In every run of a folder a pod is deleted only if the last whole look lacked its file or read another pod
/// in it, or the runtime has lost the pod.
pub fn a_pod_leaves_only_with_its_file()
    ensures { DeletesOnlyWhatIsGone }
{}

/// The values of this crate's constants.
pub fn constants_are_as_stated()
    ensures max_files { MAX_FILES ≡ 4096 }
{}
