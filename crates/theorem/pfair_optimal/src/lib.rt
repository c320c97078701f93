//! Why no task misses its deadline under PD2: laws alone, none of which a program calls.
//!
//! The theorem is the law `laws::runs_never_miss`, of a run as plain data (`specs/Schedule.antt`, whose
//! record `IsRunBelow` has the premises; `laws::some_run_is_full` says that they can be met). It is
//! proved of beginnings (`laws::beginnings_never_miss`): a run is one each of whose beginnings keeps
//! the premises. That the executive is such a run is what the crate `pfair_in_time` shows.
//!
//! The proof counts quanta. Unlike the papers' proofs it displaces no subtask of a least
//! counterexample.
//! - **The set** (`proofs/Reasons.antt`). Take the first subtask that misses, and go back slot by
//!   slot. If one of the set waits, the slot is full: all its rows come in (`full_rows` says that
//!   there is one on each processor, each before the one that waits). Else it is a hole: those rows
//!   come in whose next subtask is in the set and is released by then (`hole_pick`). All ran in time
//!   (`in_time`), none is due after the miss (`due_by_miss`), and the last slot is full (`full_last`).
//! - **The holes** (`proofs/Holes.antt`). What is picked in a hole ran in its last slot, and reaches
//!   into the next window (`tight`); through holes that follow one another it goes on as a cascade
//!   (`cascade`), up to the full slot that ends them, past which the weight is held
//!   (`cascade_bound`, `reached`). A task with a window on a hole but no row there is `unserved`,
//!   and then the hole is the first of its block (`unserved_next`).
//! - **The sum** (`proofs/Shares.antt`, `proofs/Counting.antt`). In the fluid schedule the set has
//!   one quantum for each of its subtasks. Slot by slot a task's shares are paid by its rows in
//!   holes (`hole_pays`), and by its weight in full slots (`full_pays`), to which a block's first
//!   hole may leave something over (`left_over`). The weights have room on the machine, so there
//!   are as many rows as subtasks in the set (`paid`); but the one that misses has no row
//!   (`overload`).
//!
//! Of windows alone (`proofs/BusyBounds.antt`) the other laws say what is used. One more,
//! `laws::group_deadlines_are_least`, says that the formula of the group deadline is the papers'
//! definition by cascades (`proofs/Cascades.antt`).
#![tactic(auto)]

pub mod laws;
