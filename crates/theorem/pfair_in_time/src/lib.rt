//! No admitted task misses its deadline: laws, which no program calls.
//!
//! `pfair_optimal` has the theorem of a run as plain data. Here the tables, the members and the
//! offsets that follow from what a replica holds, up to any slot, are the beginning of such a run.
//! - **A boundary** (`proofs/Worlds.antt`). A member after it was one before, or has joined; who is
//!   gone was freed, and no sooner than its claim allows. An accepted delay moves no subtask that
//!   ran or is released.
//! - **Slot by slot** (`proofs/Worlds.antt`, `proofs/AsRun.antt`). The next index of a member rises
//!   by one if a table names it. An incarnation goes back to each slot since it joined (`back_to`),
//!   and on to each later one unless it is freed by then (`on_to`).
//! - **As a run** (`proofs/AsRun.antt`). A task is a name with its joining slot; its offsets are
//!   those of the last slot that has it, and for what ran or is released they are what the planner
//!   saw (`final`).
//! - **The premises** (`proofs/Executive.antt`). The weights have room, claims are held past busy
//!   bounds, and a released subtask without a row sees a full table of rows that go before it
//!   (`is_run`).
//! - **In time** (`proofs/Executive.antt`). The theorem of a first run in the executive's own
//!   words.
//! - **From run to run** (`proofs/LongRun.antt`). Runs that follow one another go on as one long
//!   run (`runs_go_on` of `pfair_table`), in which all is announced that was announced in them. A
//!   member of a later run is one of the long run from which whole jobs were taken off (`IsLater`),
//!   and both run in the same slots (`runs_long`). So none misses in a later run (`served_after`).
//! - **In windows** (`proofs/Windows.antt`, `proofs/ThroughRuns.antt`). The slots of all runs in
//!   which a member without delays runs, counted from the slot from which its subtasks count, are
//!   in its windows, and none that was due is missing: in the long run, exactly the subtasks of the
//!   jobs that were taken off ran before that slot (`exactly`).
//! - **Lags** (`proofs/ThroughRuns.antt`). A member's lag is that of these slots (`same_lag`), and
//!   so within one; and a book that begins as a run does has the lags of its members
//!   (`books_show_lags`).
//! - **By dispatchers** (`proofs/ThroughRuns.antt`). What was planned has the tables of the
//!   contents; and dispatchers that were handed on from run to run are in such runs
//!   (`dispatchers_run_on`).
//! - **Who can be served** (`proofs/Served.antt`, `proofs/LongRun.antt`). Arrivals at slot 0 for
//!   which there is room are all admitted (`all_join`), and stay (`world_is`); and each has its
//!   last deadline of a frame at the frame's end (`last_due`), by which no tables give more quanta
//!   than they have rows (`all_within`).
//! - **What repeats** (`laws::tables_repeat`, `proofs/Repeats.antt`). If nothing changes after slot
//!   0, each member has had exactly its quanta at a common multiple of the periods (`exactly`). The
//!   windows after it are those from slot 0 on, all later by one amount, which keeps the order of
//!   keys (`later_same` of `pfair_order`), and so the tables (`repeats_if`).
#![tactic(auto)]

pub mod laws;
