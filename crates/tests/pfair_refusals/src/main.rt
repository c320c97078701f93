//! `pfair_refusals`: makes the public calls that allocate, one after another, and looks at what each leaves.
//!
//! It is run with one allocation after another refused, by a library that is loaded before it.
//! After each call it looks, by calls that allocate nothing, whether the answer is the ample one, or
//! a failed allocation with the state that the call promises then. It prints a line for each look, and
//! ends with status 0 if all was as promised, with 1 if a call wasn't, and with 4 if an allocation of
//! the looking itself failed.
#![tactic(auto)]

mod admission;
mod board;
mod entries;
mod lag;
mod lattice;
mod ready;
mod replica;
mod table;
mod threads;

use pfair_lag::LagBook;
use pfair_ready::{HeapReady, PlainReady};
use std::alloc::AllocError;
use std::process::ExitCode;

// What a look answers: whether all was as promised, or that an allocation for the looking failed.
type Look = Result<bool, AllocError>;

// What was made for a look, if no allocation failed.
type Made<T> = Result<T, AllocError>;

// A look, and what it was at.
type Named = (&'static str, Look);

fn main(rt: HostRuntime) -> ExitCode {
    let alloc = rt.alloc();
    let book = [(
        "enter of a book of lags",
        lag::enter_two(&mut LagBook::new(alloc)),
    )];
    let mut status = 0;
    for told in [
        tell(&rt, "", &lattice::looks(alloc)),
        tell(&rt, "over lists, ", &ready::looks::<PlainReady>(alloc)),
        tell(&rt, "over heaps, ", &ready::looks::<HeapReady>(alloc)),
        tell(&rt, "", &replica::looks(alloc)),
        tell(&rt, "", &admission::looks(alloc)),
        tell(&rt, "over lists, ", &table::looks::<PlainReady>(alloc)),
        tell(&rt, "over heaps, ", &table::looks::<HeapReady>(alloc)),
        tell(&rt, "", &book),
        tell(&rt, "", &board::looks(alloc)),
        tell(&rt, "", &threads::looks(&rt, alloc)),
    ] {
        if status == 0 {
            status = told;
        }
    }
    ExitCode::from(status)
}

// Prints a line for each look, up to the first that was not as promised, and returns the status with
// which the program ends for these looks.
fn tell(rt: &HostRuntime, over: &str, looks: &[Named]) -> u8 {
    for (what, look) in looks {
        let (status, found) = match look {
            Ok(true) => (0, "as promised"),
            Ok(false) => (1, "NOT as promised"),
            Err(_) => (4, "no memory to look"),
        };
        let _ = println!(rt; "{over}{what}: {found}");
        if status != 0 {
            return status;
        }
    }
    0
}
