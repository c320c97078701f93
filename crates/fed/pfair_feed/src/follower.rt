//! The follower.
ghost use Rattle.std.specs.Prelude.{◌≡◌, ◌≢◌, ◌⊎◌, ◌<◌, ◌≤◌, [], Err, IfErr, IfOk, IfSome, IsErrOf, OnErr, OnOk, Some, false, length, max, None};
ghost use Rattle.std.specs.Io.KnownBytes.{Appends, Keeps};
ghost use Rattle.pfair_text.specs.Rows.{TakesPrefix, line};
ghost use Rattle.pfair_replica.specs.Replica.{IsShape, held, replica_of, taken, has_torn};
ghost use Rattle.pfair_replica.specs.Faults.{IsKeyOf, IsTakenAs};
ghost use Rattle.pfair_table.specs.Events.{begin_at};
ghost use Rattle.pfair_table.specs.Places.{settings_from};
ghost use Rattle.pfair_table.specs.NextRun.{IsResumeFault};
ghost use Rattle.pfair_table.specs.Refinement.{IsWholePlan, course_of};
ghost use Rattle.pfair_feed.specs.Feeding.{is_past};
ghost use Rattle.pfair_feed.specs.Follow.{header_of, HasFollowed, HaveWrittenAlike, IsSameRun, IsStopOf, missing_of, news, IsGrown, IsEndOfPlans};
ghost use Rattle.pfair_feed.specs.Laws.{IsBegun};
ghost use Rattle.pfair_file.specs.declared.program_fault.ProgramFault.TheVariants.{Memory, WriteFailed};
ghost use Rattle.pfair_feed.specs.declared.output.Output.TheVariants.{Lags};

use crate::output::{Output, add_rows, send_now};
use pfair_entry::Entry;
use pfair_file::ProgramFault;
use pfair_lag::LagBook;
use pfair_lattice::Flat;
use pfair_output::{add_decisions_header, add_lags_header, add_placed_header, add_replay_header};
use pfair_ready::Ready;
use pfair_replica::Taken;
use pfair_table::{Dispatcher, NextRunFault, PlanFault, Settings, State, Step};
use pfair_text::{finish, new_text};
use std::alloc::{AllocError, Global};
use std::io::Write;
use std::marker::Model;

/// A dispatcher that is fed one entry after another, and writes the rows of each slot as soon as its
/// entries settle the slot. Slots whose rows are written are forgotten, unless the rows are lags.
#[derive(Drop)]
pub struct Follower<R: Ready> {
    alloc: Global,
    output: Output,
    dispatcher: Dispatcher<R>,
    unwritten: u64,
    book: Option<LagBook>,
}

impl<R: Ready> Model for Follower<R> {
    ghost use Rattle.pfair_feed.specs.Follow.{IsBookIfAny, KeepsUnwritten, Follow};

    ghost Value = { Follow };

    ghost view = { λ a. record { output = a.output; dispatch = a.dispatcher; unwritten = a.unwritten } };

    ghost invariant = { λ a. IsBookIfAny a.dispatcher.origin a.unwritten a.dispatcher.tables a.dispatcher.decided a.book
        × KeepsUnwritten a.output a.dispatcher.forgotten a.unwritten };
}

impl<R: Ready> Follower<R> {
    /// Creates a follower of a first run that holds nothing, has planned nothing and written nothing, with
    /// room for logs of `capacity` entries, 1 to 4,096. It writes the rows of slot `from` and of those
    /// after it; those before are left out. O(M) for M processors.
    ///
    /// # Errors
    /// Returns [`AllocError`] if an allocation fails.
    pub fn new(
        alloc: Global,
        settings: Settings,
        capacity: u32,
        output: Output,
        from: u64,
    ) -> Result<Self, AllocError>
        requires { IsShape settings.processors capacity }
        ensures output { IfOk result (λ f. f.output ≡ output) }
        ensures settings { IfOk result (λ f. f.dispatch.settings ≡ settings) }
        ensures course { IfOk result (λ f. course_of f.dispatch ≡ begin_at None settings capacity) }
        ensures spent { IfOk result (λ f. f.dispatch.spent ≡ false) }
        ensures nothing { IfOk result (λ f. length f.dispatch.tables ≡ 0) }
        ensures whole { IfOk result (λ f. IsWholePlan f.dispatch) }
        ensures unwritten { IfOk result (λ f. f.unwritten ≡ from) }
    {
        let dispatcher = Dispatcher::new(alloc, settings, capacity)?;
        Ok(Follower::begun(alloc, dispatcher, output, from))
    }

    /// Creates a follower of a run of 1 to 1,000,000 slots that begins with a state; the rest is as in
    /// [`Follower::new`]. The cost is that of [`Dispatcher::resume`].
    ///
    /// # Errors
    /// Those of [`Dispatcher::resume`].
    pub fn resume(
        alloc: Global,
        state: State,
        slots: u64,
        capacity: u32,
        output: Output,
        from: u64,
    ) -> Result<Self, NextRunFault>
        requires shape { IsShape state.machine.processors capacity }
        requires slots { (1 ≤ slots) × (slots ≤ Settings.MAX_SLOTS) }
        ensures begun { IfOk result (IsBegun (Some state) (settings_from state slots) capacity) }
        ensures spent { IfOk result (λ f. f.dispatch.spent ≡ false) }
        ensures whole { IfOk result (λ f. IsWholePlan f.dispatch) }
        ensures asked { IfOk result (λ f. (f.output ≡ output) × (f.unwritten ≡ from)) }
        ensures fault { IfErr result (IsResumeFault state slots) }
    {
        let dispatcher = Dispatcher::resume(alloc, state, slots, capacity)?;
        Ok(Follower::begun(alloc, dispatcher, output, from))
    }

    fn begun(alloc: Global, dispatcher: Dispatcher<R>, output: Output, from: u64) -> Self
        requires { dispatcher.forgotten ≡ 0 }
        ensures { result ≡ record { output = output; dispatch = dispatcher; unwritten = from } }
    {
        Follower {
            alloc,
            output,
            dispatcher,
            unwritten: from,
            book: None,
        }
    }

    /// Writes the header of the rows, and flushes it.
    ///
    /// # Errors
    /// [`ProgramFault::Memory`] if an allocation fails, and nothing is then written;
    /// [`ProgramFault::WriteFailed`] if the writer failed, and has then a part of the line.
    pub fn write_header<W: Write>(&self, writer: &mut W) -> Result<(), ProgramFault>
        ensures written { OnOk result (Appends (W.contents writer.old) (W.contents writer.new) (line (header_of self.now.output))) }
        ensures cut { IsErrOf result WriteFailed → TakesPrefix (W.contents writer.old) (W.contents writer.new) (line (header_of self.now.output)) }
        ensures nothing { IfErr result (λ e. e ≢ WriteFailed → Keeps (W.contents writer.old) (W.contents writer.new)) }
        ensures cause { IfErr result (λ e. (e ≡ WriteFailed) ⊎ (e ≡ Memory)) }
    {
        let mut text = new_text(self.alloc);
        match self.output {
            Output::Tables => add_replay_header(&mut text),
            Output::PlacedTables => add_placed_header(&mut text),
            Output::Decisions => add_decisions_header(&mut text),
            Output::Lags => add_lags_header(&mut text),
        }?;
        let text = finish(text)?;
        send_now(writer, text.as_slice())
    }

    /// Takes entry `number` (from 1) of the log of `proc` (from 0), plans all that is then settled,
    /// and writes and flushes the rows of the new slots. If there are none, nothing is written or
    /// flushed.
    ///
    /// The cost is that of [`Dispatcher::take`], of [`Dispatcher::plan_next`] for each new slot, and
    /// O(new rows).
    ///
    /// # Errors
    /// The first of these that applies:
    /// - [`ProgramFault::NoSuchProcessor`] or [`ProgramFault::NumberOutOfRange`] if no log has the key, and
    ///   [`ProgramFault::Memory`] if the key wasn't held and an allocation for its entry fails: nothing has changed.
    /// - [`ProgramFault::Torn`] if something held is then torn, and [`ProgramFault::Spent`] if an allocation failed
    ///   in an earlier plan: the entry is held, and nothing else has changed.
    /// - [`ProgramFault::Memory`] if an allocation fails in the plan of a slot: the slots before it are planned, and
    ///   the dispatcher is spent.
    /// - [`ProgramFault::Memory`] if an allocation for the new rows fails, and [`ProgramFault::WriteFailed`] if the
    ///   writer fails: all slots are planned.
    ///
    /// After a fault no new row counts as written: a later call writes all of them. Only after `WriteFailed` may
    /// the writer have gained anything: a part of the new rows.
    pub fn take<W: Write>(
        &mut self,
        writer: &mut W,
        proc: u8,
        number: u32,
        entry: Entry,
    ) -> Result<Taken, ProgramFault>
        ensures answer { IfOk result (IsTakenAs (held self.old.dispatch.replica proc number) entry) }
        ensures offered { (result ≡ Err Memory → ⊥) → replica_of self.new.dispatch.replica ≡ taken (replica_of self.old.dispatch.replica) proc number entry }
        ensures run { IsSameRun self.old self.new }
        ensures followed { OnOk result (HasFollowed self.old self.new proc number (W.contents writer.old) (W.contents writer.new)) }
        ensures stopped { IfErr result (IsStopOf self.old self.new proc number entry) }
        ensures stands { OnErr result ((self.new.unwritten ≡ self.old.unwritten) × (self.new.dispatch.forgotten ≡ self.old.dispatch.forgotten)) }
        ensures cut { IsErrOf result WriteFailed → TakesPrefix (W.contents writer.old) (W.contents writer.new) (news self.old self.new) }
        ensures nothing { IfErr result (λ e. e ≢ WriteFailed → Keeps (W.contents writer.old) (W.contents writer.new)) }
    {
        // as many slots have decisions as have tables
        prove!(self.dispatcher.next_slot() <= Settings::MAX_SLOTS);
        let taken = self.dispatcher.take(proc, number, entry)?;
        plan_all(&mut self.dispatcher)?;
        self.write_rows(writer)?;
        let next = self.dispatcher.next_slot();
        // no slot is forgotten that isn't planned
        prove!(self.dispatcher.forgotten() <= next);
        // lags are counted from slot 0 on
        if self.output != Output::Lags {
            self.dispatcher.forget(next);
        }
        Ok(taken)
    }

    fn write_rows<W: Write>(&mut self, writer: &mut W) -> Result<(), ProgramFault>
        ensures ok { OnOk result (self.new ≡ record self.old { unwritten = max self.old.unwritten (length self.old.dispatch.tables) }) }
        ensures stands { OnErr result (self.new ≡ self.old) }
        ensures written { OnOk result (Appends (W.contents writer.old) (W.contents writer.new) (news self.old self.old)) }
        ensures cut { IsErrOf result WriteFailed → TakesPrefix (W.contents writer.old) (W.contents writer.new) (news self.old self.old) }
        ensures nothing { IfErr result (λ e. e ≢ WriteFailed → Keeps (W.contents writer.old) (W.contents writer.new)) }
        ensures cause { IfErr result (λ e. (e ≡ WriteFailed) ⊎ (e ≡ Memory)) }
        ensures late { OnErr result (self.old.unwritten < length self.old.dispatch.tables) }
        ensures due { IsErrOf result WriteFailed → news self.old self.old ≢ [] }
    {
        let next = self.dispatcher.next_slot();
        if next <= self.unwritten {
            return Ok(());
        }
        // after a fault there is no book: it is made anew when it is needed
        let book = self.book.take();
        let mut text = new_text(self.alloc);
        let book = add_rows(
            self.alloc,
            &mut text,
            self.output,
            &self.dispatcher,
            self.unwritten,
            book,
        )?;
        let text = finish(text)?;
        send_now(writer, text.as_slice())?;
        self.book = book;
        self.unwritten = next;
        Ok(())
    }

    /// Returns the dispatcher. Unless the rows are lags, it has forgotten the slots whose rows are
    /// written.
    pub fn dispatcher(&self) -> &Dispatcher<R>
        ensures { result.now ≡ self.now.dispatch }
    {
        &self.dispatcher
    }

    /// Returns the first slot whose rows are still to be written.
    pub fn unwritten(&self) -> u64
        ensures { result ≡ self.now.unwritten }
    {
        self.unwritten
    }

    // The number right behind the sound beginning of a log, if its entry would settle more slots. One
    // look-up.
    pub(crate) fn missing(&self, proc: u8) -> Option<u32>
        ensures value { result ≡ missing_of self.now.dispatch.settings (replica_of self.now.dispatch.replica) proc }
        ensures key { IfSome result (IsKeyOf self.now.dispatch.replica proc) }
    {
        let replica = self.dispatcher.replica();
        let capacity = replica.capacity();
        let number = replica.sound_count(proc) + 1;
        let is_wanted = proc < replica.processors()
            && replica.mark(proc) < self.dispatcher.settings().slots()
            && number <= capacity
            && replica.get(proc, number).is_none();
        if is_wanted { Some(number) } else { None }
    }

    // Whether an entry announces something after the last slot of the run. One look-up.
    pub(crate) fn is_dropped(&self, proc: u8, number: u32) -> bool
        ensures { result ≡ is_past self.now.dispatch.settings.slots (held self.now.dispatch.replica proc number) }
    {
        let slots = self.dispatcher.settings().slots();
        match self.dispatcher.replica().get(proc, number) {
            Some(Flat::One(entry)) => entry.said().is_some_and(|(at, _)| at >= slots),
            _ => false,
        }
    }

    /// The law of two concrete followers after any calls: if their settings, the beginnings of
    /// their runs and their outputs are equal and their replicas agree, the rows of one begin those
    /// of the other, from any slot on. Does nothing.
    pub fn writes_alike<Q: Ready>(&self, other: &Follower<Q>)
        ensures { HaveWrittenAlike self.now other.now }
    {
        // as many slots have decisions as have tables
        prove!(self.dispatcher.next_slot() <= Settings::MAX_SLOTS);
        prove!(other.dispatcher.next_slot() <= Settings::MAX_SLOTS);
        self.dispatcher.plans_alike(&other.dispatcher);
    }
}

// Plans as many slots as the contents settle. After a fault the slots that were planned before stand.
fn plan_all<R: Ready>(dispatcher: &mut Dispatcher<R>) -> Result<(), PlanFault>
    ensures grown { IsGrown dispatcher.old dispatcher.new }
    ensures forgotten { dispatcher.new.forgotten ≡ dispatcher.old.forgotten }
    ensures whole { OnOk result (IsWholePlan dispatcher.new) }
    ensures sound { OnOk result ((has_torn (replica_of dispatcher.old.replica) ≡ false) × (dispatcher.old.spent ≡ false) × (dispatcher.new.spent ≡ false)) }
    ensures fault { IfErr result (IsEndOfPlans dispatcher.old dispatcher.new) }
{
    'slots: while let Step::Planned(_) = dispatcher.plan_next()? {}
    Ok(())
}
