ghost use Rattle.std.specs.Prelude.{◌≡◌, ◌^◌};
ghost use Rattle.node_io.specs.declared.files.TheConstants.{MAX_FILE_BYTES};

/// The values of this crate's constants.
pub fn constants_are_as_stated()
    // 1 MiB, this project's own
    ensures max_file_bytes { MAX_FILE_BYTES ≡ 2 ^ 20 }
{}
