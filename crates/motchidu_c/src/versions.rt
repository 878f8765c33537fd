ghost use Rattle.std.specs.Prelude.{◌≡◌};
ghost use Rattle.motchidu_c.specs.Versions.{calls_of};

use sys_table::CallTable;

/// The calls of the version of Linux with this number, as in `enum motchidu_version` of the header.
pub(crate) fn calls_of(version: u32) -> Option<CallTable>
    ensures { result ≡ calls_of version }
{
    match version {
        0 => Some(CallTable::Linux5_8),
        1 => Some(CallTable::Linux6_12),
        _ => None,
    }
}
