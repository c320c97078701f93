//! The command `replay`: the tables of a task file, worked out by a dispatcher for each processor
//! in a thread of its own, and with `--affinity` the processor that runs each row.
ghost use Rattle.pfair_file.specs.ProgramFaults.{IsCommandOf};
ghost use Rattle.pfair_reports.specs.Runs.{IsFaultOfReplay, IsOutputOf, has_rows, placed_replay_of_run, replay_of_run};

use csv::Writer;
use pfair_board::{Gate, Sink, run_dispatchers_into};
use pfair_file::{ProgramFault, read_script};
use pfair_output::{add_replay_header, add_table_rows, placed_replay_of};
use pfair_ready::HeapReady;
use pfair_table::{Pick, Run};
use pfair_text::{finish, new_text, send};
use std::alloc::{AllocError, Global};
use std::io::{Read, Write};
use std::sync::Wait;
use std::thread::Threads;

/// Writes the tables of the script that a reader's bytes hold: a header, and for each quantum a row
/// of its slot, the row of the slot's table, the task and the index of the subtask. Slots stand in
/// order, and an empty table has no row.
///
/// Each processor's dispatcher runs in a thread of its own and works out every slot by itself, from
/// the entries that all publish on one board; each comes to the gate before each slot. The tables
/// are the first one's, and their rows are made as they are planned, so that no table is kept. The
/// whole run is made before the first byte goes out. No more than
/// 67,108,864 bytes are taken from the reader, or one more if the file is too long or an
/// allocation fails. The cost is that of reading the file, of its dispatchers
/// ([`run_dispatchers_into`](pfair_board::run_dispatchers_into)), and O(rows).
///
/// # Errors
/// Those of [`read_script`](pfair_file::read_script), [`ProgramFault::Stalled`] with the frontier of the
/// logs if it is below the number of slots,
/// [`ProgramFault::Memory`] if an allocation fails or a thread can't be started,
/// [`ProgramFault::GateGaveUp`] only if the gate's type may give up, and [`ProgramFault::Astray`] if
/// a worker learned something other than the logs: nothing has then been written.
/// [`ProgramFault::WriteFailed`] if the writer answered an error, or took nothing; a prefix of the
/// text has then gone out.
#[tactic(auto, using(crate::proofs::RunFacts::refusals))]
pub fn replay<R: Read, W: Write, G: Gate + Sync>(
    rt: &(impl Threads + Wait + Sync),
    alloc: Global,
    reader: &mut R,
    writer: &mut W,
    gate: &G,
) -> Result<(), ProgramFault>
    ensures { IsCommandOf (IsOutputOf replay_of_run) (IsFaultOfReplay G.may_give_up) result
        (R.remaining reader.old) (R.remaining reader.new) (W.contents writer.old) (W.contents writer.new) }
{
    let mut header = new_text(alloc);
    add_replay_header(&mut header)?;
    let script = read_script(alloc, reader)?;
    let sink = ReplayRows { writer: header };
    let rows = run_dispatchers_into::<HeapReady, _, _>(rt, alloc, &script, gate, sink)?;
    let text = finish(rows.writer)?;
    Ok(send(writer, text.as_slice())?)
}

/// Writes the tables of the script that a reader's bytes hold, with their places: a header, and the
/// rows of [`replay`], each with its place at its end, the processor that runs it.
///
/// A task that is in the tables of two slots running stays on its processor. The other rows of a
/// table, in row order, each take the least processor that no row keeps and none has taken. All
/// else is as for `replay`: the dispatchers' threads, the gate, the bytes that are read, the cost,
/// the faults, and what has then been written. But the first worker's tables and places are kept until
/// the text is made.
///
/// # Errors
/// Those of [`replay`].
#[tactic(auto, using(crate::proofs::RunFacts::refusals))]
pub fn replay_placed<R: Read, W: Write, G: Gate + Sync>(
    rt: &(impl Threads + Wait + Sync),
    alloc: Global,
    reader: &mut R,
    writer: &mut W,
    gate: &G,
) -> Result<(), ProgramFault>
    ensures { IsCommandOf (IsOutputOf placed_replay_of_run) (IsFaultOfReplay G.may_give_up) result
        (R.remaining reader.old) (R.remaining reader.new) (W.contents writer.old) (W.contents writer.new) }
{
    let script = read_script(alloc, reader)?;
    let sink = Vec::new(alloc);
    let tables = run_dispatchers_into::<HeapReady, _, _>(rt, alloc, &script, gate, sink)?;
    let run = Run::of_tables(alloc, tables)?;
    let text = placed_replay_of(alloc, run.tables.as_slice(), run.places.as_slice())?;
    Ok(send(writer, text.as_slice())?)
}

// Makes the rows of each table, and keeps no table.
#[derive(Drop)]
struct ReplayRows {
    writer: Writer<Vec<u8>>,
}

impl Sink for ReplayRows {
    ghost has = { λ rows row tables. has_rows rows.writer row tables };

    fn take(&mut self, slot: u64, table: Vec<Pick>) -> Result<Option<Vec<Pick>>, AllocError> {
        add_table_rows(&mut self.writer, slot, &table)?;
        Ok(Some(table))
    }
}
