//! Texts of comma-separated rows: made whole in memory, then sent to a writer.
#![tactic(auto)]

mod rows;

pub use rows::{WriteFailed, add_row, finish, new_text, send};
