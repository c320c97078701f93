//! Dispatchers in threads of their own, and the fault with which their run ends.
ghost use Rattle.std.specs.Prelude.{◌≡◌, ◌≤◌, ℕ, [], IfOk, IfErr, Some, Vec, slice_get, vec_len, ◌↔◌, IsTrue, false};
ghost use Rattle.std.specs.declared.alloc.Global.{Global};
ghost use Rattle.pfair_replica.specs.Replica.{frontier, replica_of};
ghost use Rattle.pfair_table.specs.Script.{capacity_of, replica_of_logs};
ghost use Rattle.pfair_table.specs.declared.slot.Pick.{Pick};
ghost use Rattle.pfair_board.specs.RunFaults.{IsFinished, IsGood, HasPlan, IsRunFaultOf, SomeEndsIn, SomeStrays, Holds, AllHold, IsFirstFault};
ghost use Rattle.pfair_board.specs.Works.{has_first, has_kept};
ghost use Rattle.pfair_board.specs.declared.threads.Worked.{Worked};

use crate::threads::{Worked, run_on};
use crate::worker::{Gate, Sink};
use pfair_desk::{Board, Desk};
use pfair_ready::Ready;
use pfair_replica::Replica;
use pfair_table::{Pick, Run, RunFault, Script};
use std::alloc::{AllocError, Global};
use std::sync::Wait;
use std::thread::Threads;

/// A finished run.
#[derive(Drop)]
pub struct Finished {
    /// The board that the dispatchers shared.
    pub board: Board,
    /// The desk of each row, that of processor k at place k.
    pub desks: Vec<Desk>,
    /// What the dispatcher of each row worked out, that of processor k at place k.
    pub runs: Vec<Run>,
}

/// Runs a dispatcher for each processor of a script, in M threads of their own on one board, each
/// with its own desk and log. No master decides: each works out every slot itself.
///
/// The board has the capacity of the script's longest log, at least 1. No table depends on hints.
/// That a run ends does: each worker waits for the end of the hints, after which every log is on the
/// board.
///
/// Each thread has the cost of [`run_worker`](crate::run_worker). Beside that there are O(e log e)
/// steps for the e entries of all logs to take the script, and as many for each thread to compare its
/// desk with it. A thread holds each entry once, in its desk.
///
/// # Errors
/// The first of these that applies to the run's workers:
/// - `Memory` if an allocation fails, or a thread can't be started.
/// - `GateGaveUp` if the gate gives up, as only some types of gates may.
/// - `Astray` if a worker's row has another entry at a number of its log, or a worker's replica
///   isn't the script's.
/// - `Stalled` if the script's frontier, which is that slot, is below the number of slots.
pub fn run_dispatchers<R: Ready + Send, G: Gate + Sync>(
    rt: &(impl Threads + Wait + Sync),
    alloc: Global,
    script: &Script,
    gate: &G,
) -> Result<Finished, RunFault>
    ensures finished { IfOk result (λ f. IsFinished script.now f.board f.desks.items f.runs.items) }
    ensures fault { IfErr result (IsRunFaultOf has_kept G.may_give_up script.now) }
{
    let processors = script.settings().processors();
    let board = Board::new(alloc, processors, script.capacity())?;
    let mut sinks = Vec::with_capacity(alloc, processors as usize)?;
    for _ in 0..processors {
        sinks.push_reserved(Vec::new(alloc));
    }
    let works = run_on::<R, G, Vec<Vec<Pick>>>(rt, alloc, script, &board, gate, sinks)?;
    Ok(hand_back(alloc, script, board, works)?)
}

/// Runs the same dispatchers, each of which works out every slot itself and keeps no table, and
/// returns the sink, to which the first processor's worker hands each of its tables as it is planned.
///
/// So the memory of a worker doesn't grow with the slots, except by what the sink keeps. The cost is
/// that of [`run_dispatchers`] without places.
///
/// # Errors
/// As [`run_dispatchers`].
pub fn run_dispatchers_into<R: Ready + Send, G: Gate + Sync, K: Sink + Send>(
    rt: &(impl Threads + Wait + Sync),
    alloc: Global,
    script: &Script,
    gate: &G,
    sink: K,
) -> Result<K, RunFault>
    requires { K.has sink 0 [] }
    ensures plan { IfOk result (HasPlan K.has script.now) }
    ensures fault { IfErr result (IsRunFaultOf (has_first K.has) G.may_give_up script.now) }
{
    let processors = script.settings().processors();
    let board = Board::new(alloc, processors, script.capacity())?;
    let mut sinks = Vec::with_capacity(alloc, processors as usize)?;
    sinks.push_reserved(Some(sink));
    for _ in 1..processors {
        sinks.push_reserved(None);
    }
    let mut works = run_on::<R, G, Option<K>>(rt, alloc, script, &board, gate, sinks)?;
    let Worked { desk: _, kept } = works.swap_remove(0);
    let Ok(first) = kept else { unreachable!() };
    let Some(sink) = first else { unreachable!() };
    Ok(sink)
}

// Takes the works apart: their desks, and the runs of the tables that they kept.
fn hand_back(
    alloc: Global,
    script: &Script,
    board: Board,
    works: Vec<Worked<Vec<Vec<Pick>>>>,
) -> Result<Finished, AllocError>
    requires processors { board.processors ≡ script.now.settings.processors }
    requires capacity { board.capacity ≡ capacity_of script.now.logs }
    requires count { vec_len works ≡ script.now.settings.processors }
    requires good { (k : ℕ) (w : Worked (Vec (Vec Pick Global) Global)) → slice_get works.items k ≡ Some w → IsGood has_kept script.now board k w }
    requires far_enough { script.now.settings.slots ≤ frontier (replica_of_logs script.now.logs) }
    ensures { IfOk result (λ f. IsFinished script.now f.board f.desks.items f.runs.items) }
{
    let mut desks = Vec::new(alloc);
    let mut runs = Vec::new(alloc);
    for work in works {
        let Worked { desk, kept } = work;
        let Ok(tables) = kept else { unreachable!() };
        let made = Run::of_tables(alloc, tables)?;
        desks.push(desk)?;
        runs.push(made)?;
    }
    Ok(Finished { board, desks, runs })
}

/// Returns the first fault of these workers, each of whom should hold the whole script.
pub(crate) fn first_fault<K>(works: &[Worked<K>], whole: &Replica, slots: u64) -> Option<RunFault>
    ensures { IsFirstFault works.now (replica_of whole.now) slots result }
{
    if some_ends_in(works, RunFault::Memory) {
        return Some(RunFault::Memory);
    }
    if some_ends_in(works, RunFault::GateGaveUp) {
        return Some(RunFault::GateGaveUp);
    }
    if !all_hold(works, whole) {
        return Some(RunFault::Astray);
    }
    let slot = whole.frontier();
    if slot < slots {
        return Some(RunFault::Stalled { slot });
    }
    None
}

fn some_ends_in<K>(works: &[Worked<K>], fault: RunFault) -> bool
    ensures { IsTrue result ↔ SomeEndsIn works.now fault }
{
    for work in works {
        if let Err(own) = &work.kept {
            if *own == fault {
                return true;
            }
        }
    }
    false
}

fn all_hold<K>(works: &[Worked<K>], replica: &Replica) -> bool
    ensures all { IsTrue result → AllHold works.now (replica_of replica.now) }
    ensures some { result ≡ false → SomeStrays works.now (replica_of replica.now) }
{
    for work in works {
        if !holds(work, replica) {
            return false;
        }
    }
    true
}

fn holds<K>(work: &Worked<K>, replica: &Replica) -> bool
    ensures { IsTrue result ↔ Holds work.now (replica_of replica.now) }
{
    let held = work.desk.replica();
    work.kept.is_ok() && held.le(replica) && replica.le(held)
}
