ghost use Rattle.std.specs.Prelude.{◌≡◌, ◌≤◌, ℕ, List, length, true};
ghost use Rattle.oci_profile.specs.declared.profile.Profile.{Profile};
ghost use Rattle.oci_profile.specs.Profile.{ReadsProfileWith};
ghost use Rattle.oci_profile.specs.RuntimeDefault.{runtime_default};
ghost use Rattle.oci_profile.specs.declared.reader.TheConstants.{MAX_PROFILE_BYTES};
ghost use Rattle.sys_table.specs.declared.calls.CallTable.{CallTable};
ghost use Rattle.sys_table.specs.declared.calls.CallTable.TheVariants.{Linux5_8};
ghost use Rattle.profile_text.specs.Written.{profile_text};
ghost use Rattle.profile_text.specs.Writable.{is_writable};

use sys_table::names_and_numbers_agree;

/// RuntimeDefault can be written, and its text is short enough to be read.
pub fn runtime_default_can_be_written()
    ensures writable { is_writable Linux5_8 runtime_default ≡ true }
    ensures short { length (profile_text Linux5_8 runtime_default) ≤ MAX_PROFILE_BYTES }
{}

/// Every profile that was read can be written with the same calls, unless its text gets too large.
pub fn what_is_read_can_be_written()
    ensures { (calls : CallTable) (bytes : List ℕ) (profile : Profile) → ReadsProfileWith calls bytes profile
        → is_writable calls profile ≡ true }
{
    names_and_numbers_agree();
}
