//! The system calls of Linux on x86-64, by name and by number.
//!
//! One table has each name of Linux 6.12 at its number, and `CallTable` is the part of it that a version of
//! Linux knows; a second table has the numbers in the order of the names, for the
//! binary search of `number`. `specs/SysTable.antt` defines the look-ups.
//!
//! # What is proved
//!
//! - A name has the number of the table, and a number its name: `CallTable::number`, `CallTable::name`, and for
//!   Linux 5.8 `number`, `name`. The table of Linux 5.8 is part of that of Linux 6.12: `later_calls_are_added`.
//! - Names and numbers agree: `names_and_numbers_agree`.
//!
//! Only tested: the values of the table. The gate tests pairs at its edges and sums over all of it.
//! `make table` compares it with the kernel's header.
#![tactic(auto)]

mod calls;
mod laws;
mod look_up;
mod table;
#[cfg(test)]
mod tests;

pub use calls::CallTable;
pub use laws::{later_calls_are_added, names_and_numbers_agree};
pub use look_up::{name, number};
pub use table::{NUMBER_LIMIT, TABLE_LIMIT};
