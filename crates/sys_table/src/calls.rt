ghost use Rattle.std.specs.Prelude.{◌≡◌};
ghost use Rattle.sys_table.specs.SysTable.{is_of, limit_of, table_of};

use crate::table::{LATE_NUMBER, NUMBER_LIMIT, TABLE_LIMIT};

/// The calls of a version of Linux on x86-64.
#[derive(Clone, Copy, Debug, PartialEq, Eq)]
pub enum CallTable {
    /// Those of Linux 5.8, with numbers up to 439.
    Linux5_8,
    /// Those of Linux 6.12, with numbers up to 462.
    Linux6_12,
}

impl CallTable {
    /// The calls of the version of Linux that the word names, such as `6.12`, if it has a table.
    pub fn of_linux(version: &str) -> Option<CallTable>
        ensures { result ≡ table_of version.now }
    {
        match version {
            "5.8" => Some(CallTable::Linux5_8),
            "6.12" => Some(CallTable::Linux6_12),
            _ => None,
        }
    }

    /// Every number of these calls is below this one.
    pub fn limit(self) -> u32
        ensures { result ≡ limit_of self }
    {
        match self {
            CallTable::Linux5_8 => NUMBER_LIMIT as u32,
            CallTable::Linux6_12 => TABLE_LIMIT as u32,
        }
    }

    /// Whether a call of the table with this number is one of these calls.
    pub(crate) fn has(self, number: u32) -> bool
        ensures { result ≡ is_of self number }
    {
        number < self.limit() && (self == CallTable::Linux6_12 || number != LATE_NUMBER)
    }
}
