//! Classic BPF instructions and their bytes, as seccomp(2) and linux/filter.h have them.
//!
//! `Operation` is what an instruction does, and `Insn` an `Operation` with its three numbers.
//! A code outside the table has no `Operation`, so no `Insn` needs to be checked for one. `bpf_machine`
//! defines what the operations do.
//!
//! # What is proved
//!
//! - The reader accepts exactly the texts of its form: `read` (text, fits, short).
//! - A text of another form is refused with its first fault: `read` (fault, refused).
//! - Writing code that was read returns the text: `write`, `written_is_read`.
//! - The code of an operation, its flow and its scratch word: `Operation::of_code`, `code`, `flow`,
//!   `scratch`.
//! - An instruction and its bytes: `Insn::new`, `to_bytes`.
//! - The assembler text of an instruction, and the name of a fault: `Display` of `Insn`, `CodeFault`.
#![tactic(auto)]

mod display;
mod fault;
mod flow;
mod insn;
mod laws;
mod limits;
mod operation;
mod reader;
mod writer;

pub use fault::CodeFault;
pub use flow::{Flow, Scratch};
pub use insn::Insn;
pub use laws::{codes_are_small, constants_are_as_stated, numbers_fit, written_is_read};
pub use limits::{DATA_LEN, MAX_BYTES, MAX_INSNS, SCRATCH_WORDS};
pub use operation::Operation;
pub use reader::read;
pub use writer::write;
