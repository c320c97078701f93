//! The threads of a run, one for each processor, and what they tell each other.
ghost use Rattle.std.specs.Prelude.{◌≡◌, ◌≤◌, ℕ, [], IfOk, IfErr, OnOk, Some, slice_get, vec_len};
ghost use Rattle.std.specs.PromisedHandle.{KeepsEach};
ghost use Rattle.pfair_replica.specs.Replica.{frontier};
ghost use Rattle.pfair_table.specs.Script.{capacity_of, replica_of_logs};
ghost use Rattle.pfair_board.specs.RunFaults.{IsGood, IsRunFaultOf};
ghost use Rattle.pfair_board.specs.Works.{AreWorkplaces, AreWorks, IsWorkOf, IsWorkplaceOf};

use crate::dispatchers::first_fault;
use crate::worker::{Gate, Sink, run_into};
use crossbeam_channel::{Receiver, Sender};
use pfair_desk::{Board, Desk};
use pfair_ready::Ready;
use pfair_replica::laws::least_join;
use pfair_table::{RunFault, Script, take_script};
use std::alloc::{AllocError, Global};
use std::marker::PhantomData;
use std::snapshot::Snapshot;
use std::sync::Wait;
use std::thread;
use std::thread::{Promise, PromisedHandle, Scope, Threads};

/// What a worker's thread hands back: its desk, and a fault or the sink that took the tables.
#[derive(Drop)]
pub(crate) struct Worked<K> {
    pub(crate) desk: Desk,
    pub(crate) kept: Result<K, RunFault>,
}

/// What a worker's thread begins with, and by its type what orders the worker's ready tasks.
#[derive(Drop)]
struct Workplace<R, K> {
    desk: Desk,
    hints: Hints,
    sink: K,
    ready: PhantomData<R>,
}

// Whose thread it is: the processor's, in a run of this script on this board, with this gate.
#[derive(Drop)]
struct RowOf<G> {
    board: Snapshot<Board>,
    script: Snapshot<Script>,
    gate: Snapshot<G>,
    processor: u8,
}

impl<G: Gate, K: Sink> Promise<Worked<K>> for RowOf<G> {
    ghost kept_by = { λ p r. IsWorkOf K.has G.may_give_up p.board.value p.script.value p.processor r };
}

/// Runs a dispatcher for each row of a board in a thread of its own, the k-th of which has the k-th
/// of these sinks, and joins them all. Fails with the first fault of the workers, if they have one.
pub(crate) fn run_on<R: Ready + Send, G: Gate + Sync, K: Sink + Send>(
    rt: &(impl Threads + Wait + Sync),
    alloc: Global,
    script: &Script,
    board: &Board,
    gate: &G,
    sinks: Vec<K>,
) -> Result<Vec<Worked<K>>, RunFault>
    requires processors { board.now.processors ≡ script.now.settings.processors }
    requires capacity { board.now.capacity ≡ capacity_of script.now.logs }
    requires count { vec_len sinks ≡ board.now.processors }
    requires empty { (k : ℕ) (sink : K) → slice_get sinks.items k ≡ Some sink → K.has sink k [] }
    ensures count { IfOk result (λ works. vec_len works ≡ script.now.settings.processors) }
    ensures good { IfOk result (λ works. (k : ℕ) (w : Worked K) → slice_get works.items k ≡ Some w → IsGood K.has script.now board.now k w) }
    ensures far_enough { OnOk result (script.now.settings.slots ≤ frontier (replica_of_logs script.now.logs)) }
    ensures fault { IfErr result (IsRunFaultOf K.has G.may_give_up script.now) }
{
    least_join();
    // the board has a row for each log of the script
    prove!(script.settings().processors() == board.processors());
    let workplaces = workplaces::<R, K>(alloc, board, sinks)?;
    let works = thread::scope(
        thread::scope_env(),
        rt,
        move |scope| -> Result<Vec<Worked<K>>, AllocError>
            requires { (board.now.processors ≡ script.now.settings.processors) × (board.now.capacity ≡ capacity_of script.now.logs)
                × AreWorkplaces K.has board.now workplaces.items }
            ensures { IfOk result (λ works. AreWorks K.has G.may_give_up board.entry.now script.entry.now works.items) }
        {
            let mut threads = Vec::with_capacity(alloc, workplaces.len())?;
            for workplace in workplaces {
                let row = RowOf {
                    board: Snapshot::of(board),
                    script: Snapshot::of(script),
                    gate: Snapshot::of(gate),
                    processor: workplace.desk.proc(),
                };
                let started = scope.spawn_with(
                    row,
                    move || -> Worked<K>
                        requires { IsWorkplaceOf K.has board.now workplace.desk.processor workplace
                            × (board.now.processors ≡ script.now.settings.processors)
                            × (board.now.capacity ≡ capacity_of script.now.logs) }
                        ensures { IsWorkOf K.has G.may_give_up board.entry.now script.entry.now workplace.desk.processor result }
                    { work(rt, alloc, script, board, workplace, gate) },
                );
                match started {
                    Ok(started) => threads.push_reserved(started),
                    Err(_) => break,
                }
            }
            // by now no workplace is left whose hints a worker would wait for
            join_all(rt, threads, board.processors())
        },
    )?;
    let whole = take_script::<R>(alloc, script)?.into_replica();
    match first_fault(&works, &whole, script.settings().slots()) {
        Some(fault) => Err(fault),
        None => Ok(works),
    }
}

// The workplace of each row of a board, that of processor k at place k, with the k-th of these
// sinks.
fn workplaces<R, K: Sink>(
    alloc: Global,
    board: &Board,
    sinks: Vec<K>,
) -> Result<Vec<Workplace<R, K>>, AllocError>
    requires count { vec_len sinks ≡ board.now.processors }
    requires empty { (k : ℕ) (sink : K) → slice_get sinks.items k ≡ Some sink → K.has sink k [] }
    ensures { IfOk result (λ all. AreWorkplaces K.has board.now all.items) }
{
    let mut hints = Hints::all(alloc, board.processors())?.into_iter();
    let mut sinks = sinks.into_iter();
    let mut all = Vec::new(alloc);
    for desk in board.desks()? {
        let (Some(hints), Some(sink)) = (hints.next(), sinks.next()) else {
            unreachable!()
        };
        all.push(Workplace {
            desk,
            hints,
            sink,
            ready: PhantomData,
        })?;
    }
    Ok(all)
}

fn work<R: Ready, G: Gate, K: Sink>(
    rt: &impl Wait,
    alloc: Global,
    script: &Script,
    board: &Board,
    workplace: Workplace<R, K>,
    gate: &G,
) -> Worked<K>
    requires place { IsWorkplaceOf K.has board.now workplace.desk.processor workplace }
    requires processors { board.now.processors ≡ script.now.settings.processors }
    requires capacity { board.now.capacity ≡ capacity_of script.now.logs }
    ensures { IsWorkOf K.has G.may_give_up board.now script.now workplace.desk.processor result }
{
    let Workplace {
        mut desk,
        hints,
        sink,
        ..
    } = workplace;
    let log = script.log(desk.proc());
    let settings = script.settings();
    let kept = run_into::<R, G, K>(
        rt, alloc, settings, &mut desk, board, log, hints, gate, sink,
    );
    Worked { desk, kept }
}

// Joins the threads that were started, and returns what they hand back if there are as many as
// processors. If the list of that can't be allocated, each is joined alone, and its result dropped.
fn join_all<W: Threads, T: Drop, P: Promise<T>>(
    rt: &W,
    threads: Vec<PromisedHandle<T, P>>,
    processors: u8,
) -> Result<Vec<T>, AllocError>
    ensures count { OnOk result (vec_len threads ≡ processors) }
    ensures len { IfOk result (λ results. vec_len results ≡ vec_len threads) }
    ensures each { IfOk result (λ results. KeepsEach P.Promise (vec_len threads) threads.items results.items) }
{
    let is_whole = threads.len() == processors as usize;
    match thread::join_promised(rt, threads) {
        Ok(results) if is_whole => Ok(results),
        Ok(_) => Err(AllocError),
        Err(refused) => {
            for started in refused.value {
                drop(started.join(rt));
            }
            Err(AllocError)
        }
    }
}

/// Says that an entry of a processor may stand on the board by now.
#[derive(Clone, Copy)]
pub(crate) struct Hint {
    /// The processor, counted from 0.
    pub(crate) proc: u8,
    /// The entry's number, counted from 1.
    pub(crate) number: u32,
}

/// A worker's end of the hints: a receiver, and a sender to each other worker. A hint only says
/// where to look on the board. But once all senders to a worker are gone, all others have published
/// their logs, and its last look at the board finds them all.
#[derive(Drop)]
pub struct Hints {
    pub(crate) receiver: Receiver<Hint, Global>,
    pub(crate) senders: Vec<Sender<Hint, Global>>,
}

impl Hints {
    /// Returns the ends of all workers of so many processors, that of processor k at place k.
    /// O(n²) for n processors: a sender for each two workers.
    ///
    /// # Errors
    /// `AllocError` if an allocation fails.
    pub fn all(alloc: Global, processors: u8) -> Result<Vec<Hints>, AllocError>
        ensures { IfOk result (λ all. vec_len all ≡ processors) }
    {
        let mut senders = Vec::new(alloc);
        let mut receivers = Vec::new(alloc);
        for _ in 0..processors {
            let (sender, receiver) = crossbeam_channel::unbounded(alloc)?;
            senders.push(sender)?;
            receivers.push(receiver)?;
        }
        let mut all = Vec::new(alloc);
        for (worker, receiver) in receivers.into_iter().enumerate() {
            let mut others = Vec::new(alloc);
            for (other, sender) in senders.iter().enumerate() {
                if other != worker {
                    others.push(sender.clone()?)?;
                }
            }
            all.push(Hints {
                receiver,
                senders: others,
            })?;
        }
        Ok(all)
    }

    /// Sends a hint to each other worker. One that has left needs none.
    pub(crate) fn send(&self, rt: &impl Wait, hint: Hint) -> Result<(), AllocError> {
        for sender in &self.senders {
            if let Err(refused) = sender.send(rt, hint) {
                if refused.is_out_of_memory() {
                    return Err(AllocError);
                }
            }
        }
        Ok(())
    }
}
