//! What the commands write of a run: its tables, its decisions and its lags, as rows of text.
#![tactic(auto)]

mod decisions;
mod lags;
mod replay;
mod runs;

pub use decisions::{add_decisions_from, add_decisions_header};
pub use lags::{add_lags_from, add_lags_header, book_slots, first_book};
pub use replay::{
    add_placed_header, add_placed_tables_from, add_replay_header, add_table_rows, add_tables_from,
    placed_replay_of,
};
pub use runs::{decisions_of_script, lags_of_script};
