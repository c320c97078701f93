//! The state with which a run begins, and the one that it leaves, in files.
ghost use Rattle.std.specs.Prelude.{◌≡◌, ◌≢◌, ◌↔◌, IfErr, IfOk, IfSome, IsErrOf, IsTrue, OnOk};
ghost use Rattle.pfair_table.specs.NextRun.{IsFinished, left_by};
ghost use Rattle.pfair_table.specs.Table.{Carried};
ghost use Rattle.pfair_state.specs.Reading.{IsWritable};
ghost use Rattle.pfair_state.specs.Rows.{state_text};
ghost use Rattle.pfair_state.specs.declared.fault.ReadFault.{ReadFault};
ghost use Rattle.pfair_state.specs.declared.fault.ReadFault.TheVariants.{Memory};
ghost use Rattle.pfair_follow.specs.Runs.{IsAskedOf, IsLaterRun, IsNoLaterRun, IsNoneLeft};
ghost use Rattle.pfair_file.specs.declared.program_fault.ProgramFault.TheVariants.{Memory as OutOfMemory};
ghost use Rattle.pfair_follow.specs.declared.fault.FollowFault.TheVariants.{Program, State as StateFault};

use crate::fault::FollowFault;
use pfair_feed::{Follower, Output};
use pfair_file::{ProgramFault, read_bytes};
use pfair_ready::Ready;
use pfair_state::{add_state, read_state};
use pfair_table::{Dispatcher, Script, Settings, State};
use pfair_text::{finish, new_text};
use pfair_words::follow::Resumed;
use std::alloc::Global;
use std::fs::{File, OpenFile};
use std::io::{Read, Write};
use std::{fs, io};

/// Returns the state whose text a reader gives. The cost is that of reading all bytes and of
/// [`read_state`].
///
/// # Errors
/// [`ProgramFault::ReadFailed`] if the reader answers an error, [`ProgramFault::FileTooLong`] if more
/// than 67,108,864 bytes come, the faults of [`read_state`], and [`ProgramFault::Memory`] if an
/// allocation fails.
pub fn load<I: Read>(alloc: Global, reader: &mut I) -> Result<State, FollowFault>
    ensures text { IfOk result (λ state. IfSome (I.remaining reader.old) (λ bytes. bytes ≡ state_text state)) }
    ensures writable { IfOk result (λ state. IsWritable state) }
    ensures refused { (fault : ReadFault) → IsErrOf result (StateFault fault) → fault ≢ Memory
        → (c : Carried) → IsWritable c → IfSome (I.remaining reader.old) (λ bytes. bytes ≢ state_text c) }
{
    let bytes = read_bytes(alloc, reader)?;
    read_state(alloc, &bytes).map_err(FollowFault::State)
}

/// Creates a follower of a run that begins with a state, and writes rows of `output` from slot `from`
/// on. The cost is that of [`Dispatcher::resume`].
///
/// # Errors
/// [`ProgramFault::CommandLine`] if other processors or another frame are asked for than the state
/// has, or more slots than a run can have; else those of [`Dispatcher::resume`].
pub fn later<R: Ready>(
    alloc: Global,
    state: State,
    resumed: &Resumed,
    output: Output,
    from: u64,
) -> Result<Follower<R>, FollowFault>
    ensures begun { IfOk result (IsLaterRun resumed.now output from state) }
    ensures fault { IfErr result (IsNoLaterRun resumed.now state) }
{
    if !is_asked(resumed, &state) {
        return Err(FollowFault::Program(ProgramFault::CommandLine));
    }
    let capacity = Script::LONGEST_LOG as u32;
    Follower::resume(alloc, state, resumed.slots, capacity, output, from).map_err(
        FollowFault::NextRun,
    )
}

fn is_asked(resumed: &Resumed, state: &State) -> bool
    ensures { IsTrue result ↔ IsAskedOf resumed.now state.now }
{
    let members = state.members();
    (1..=Settings::MAX_SLOTS).contains(&resumed.slots)
        && resumed
            .processors
            .is_none_or(|n| n == members.processors() as u64)
        && resumed.frame.is_none_or(|n| n == members.frame())
}

/// Returns the text of the state that a finished run leaves. The cost is that of
/// [`Dispatcher::next_run`] and of [`add_state`].
///
/// # Errors
/// Those of [`Dispatcher::next_run`] for a run of one slot, and [`ProgramFault::Memory`] if an
/// allocation fails.
pub fn left_text<R: Ready>(
    alloc: Global,
    dispatcher: &Dispatcher<R>,
) -> Result<Vec<u8>, FollowFault>
    ensures text { IfOk result (λ text. text.items ≡ state_text (left_by dispatcher.now)) }
    ensures finished { OnOk result (IsFinished dispatcher.now) }
    ensures fault { IfErr result (IsNoneLeft dispatcher.now) }
{
    match dispatcher.next_run(1) {
        Ok(next) => began_text(alloc, &next),
        Err(fault) => Err(FollowFault::NextRun(fault)),
    }
}

fn began_text<R: Ready>(alloc: Global, dispatcher: &Dispatcher<R>) -> Result<Vec<u8>, FollowFault>
    ensures text { IfSome dispatcher.now.origin (λ c. IfOk result (λ text. text.items ≡ state_text c)) }
    ensures memory { IfErr result (λ e. e ≡ Program OutOfMemory) }
{
    let mut writer = new_text(alloc);
    if let Some(state) = dispatcher.state() {
        add_state(&mut writer, state)?;
    }
    Ok(finish(writer)?)
}

/// Writes a text to a file: into FILE.new, which is flushed to the disk and then gets the file's name.
///
/// # Errors
/// [`ProgramFault::WriteFailed`] if the system refuses a step, and [`ProgramFault::Memory`] if an
/// allocation fails: the file is then what it was.
pub fn save(rt: &HostRuntime, file: &str, text: &[u8]) -> Result<(), FollowFault> {
    let mut beside = String::from_str(rt.alloc(), file)?;
    beside.push_str(".new")?;
    if replaced(rt, &beside, file, text).is_err() {
        let _ = fs::remove_file(rt, &beside);
        return Err(FollowFault::Program(ProgramFault::WriteFailed));
    }
    Ok(())
}

// The steps of the system.
fn replaced(rt: &HostRuntime, beside: &str, file: &str, text: &[u8]) -> io::Result<()> {
    let mut new = File::create(rt, beside)?;
    new.write_all(text)?;
    new.sync_all()?;
    fs::rename(rt, beside, file)
}
