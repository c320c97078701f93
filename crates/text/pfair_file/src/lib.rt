//! Task files: the script of a run and its schedule, or why a file has none.
//!
//! A task file is a TOML document. Its header says how many processors, which frame and how many
//! slots a run has; each table of `entry` is the next entry of one processor's log. The modules go
//! from single keys to whole files, and on to what each command over a task file does: it takes the
//! program's words, opens and reads the file, works out the schedule, and writes the line of a
//! fault.
#![tactic(auto)]

pub(crate) mod document;
pub(crate) mod fault;
pub(crate) mod field;
mod input;
pub mod laws;
mod program_fault;
pub(crate) mod tables;

pub use document::read_file;
pub use fault::FileFault;
pub use field::Field;
pub use input::{LONGEST_FILE, given_words, opened, read_bytes, read_script};
pub use program_fault::{ProgramFault, write_line};
