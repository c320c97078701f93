//! What can happen to a dispatcher, and what a list of such events leaves.
ghost use Rattle.std.specs.Prelude.{◌≡◌, false, IfOk, OnErr, OnOk};
ghost use Rattle.pfair_replica.specs.Replica.{IsShape, replica_of, taken};
ghost use Rattle.pfair_replica.specs.Faults.{IsTakeFaultOf};
ghost use Rattle.std.specs.List.{AllByRecursion};
ghost use Rattle.pfair_table.specs.Events.{IsEvent, happens, run_of};
ghost use Rattle.pfair_table.specs.Refinement.{CanFail, course_of};

use crate::answer::PlanFault;
use crate::dispatcher::Dispatcher;
use crate::settings::Settings;
use pfair_entry::Entry;
use pfair_ready::Ready;
use pfair_replica::{MergeFault, Replica, TakeFault};
use std::alloc::{AllocError, Global};

/// What can happen to a dispatcher.
#[derive(Drop)]
pub enum Event {
    /// An entry comes: that with this number (from 1) in the log of this processor (from 0).
    Take { proc: u8, number: u32, entry: Entry },
    /// All entries of another replica come.
    Absorb(Replica),
    /// The next slot is to be planned.
    Plan,
}

/// Returns the dispatcher that a list of events leaves, from one that holds nothing. An event that is
/// refused changes nothing, and the run goes on. The cost is that of the events.
///
/// # Errors
/// Returns [`AllocError`] if an allocation fails; the run then ends.
pub fn run_events<R: Ready>(
    alloc: Global,
    settings: Settings,
    capacity: u32,
    events: &[Event],
) -> Result<Dispatcher<R>, AllocError>
    requires { IsShape settings.processors capacity }
    ensures settings { IfOk result (λ d. d.settings ≡ settings) }
    ensures course { IfOk result (λ d. course_of d ≡ run_of settings capacity events.now) }
    ensures unforgotten { IfOk result (λ d. d.forgotten ≡ 0) }
    ensures spent { IfOk result (λ d. d.spent ≡ false) }
    ensures events { OnOk result (AllByRecursion IsEvent events.now) }
{
    let mut dispatcher = Dispatcher::new(alloc, settings, capacity)?;
    for event in events {
        happen(&mut dispatcher, event)?;
    }
    Ok(dispatcher)
}

fn happen<R: Ready>(dispatcher: &mut Dispatcher<R>, event: &Event) -> Result<(), AllocError>
    requires { dispatcher.old.spent ≡ false }
    ensures settings { dispatcher.new.settings ≡ dispatcher.old.settings }
    ensures course { OnOk result (course_of dispatcher.new ≡ happens dispatcher.old.settings (course_of dispatcher.old) event.now) }
    ensures unforgotten { dispatcher.new.forgotten ≡ dispatcher.old.forgotten }
    ensures spent { OnOk result (dispatcher.new.spent ≡ false) }
    ensures event { IsEvent event.now }
    ensures memory { OnErr result (CanFail dispatcher.old event.now) }
{
    match event {
        Event::Take {
            proc,
            number,
            entry,
        } => {
            // an entry is within its limits
            prove!(entry.floor() <= Entry::LAST_SLOT);
            offer(dispatcher, *proc, *number, *entry)
        }
        Event::Absorb(other) => {
            // a replica holds entries of its own logs
            prove!(other.processors() >= 1);
            match dispatcher.absorb(other) {
                Err(MergeFault::Memory) => Err(AllocError),
                _ => Ok(()),
            }
        }
        Event::Plan => match dispatcher.plan_next() {
            Err(PlanFault::Memory) => Err(AllocError),
            _ => Ok(()),
        },
    }
}

/// Offers an entry: one that is refused changes nothing, and only a failed allocation is an error.
pub(crate) fn offer<R: Ready>(
    dispatcher: &mut Dispatcher<R>,
    processor: u8,
    number: u32,
    entry: Entry,
) -> Result<(), AllocError>
    ensures held { OnOk result (replica_of dispatcher.new.replica ≡ taken (replica_of dispatcher.old.replica) processor number entry) }
    ensures rest { dispatcher.new ≡ record dispatcher.old { replica = dispatcher.new.replica } }
    ensures memory { OnErr result (IsTakeFaultOf dispatcher.old.replica processor number TakeFault.Memory) }
{
    match dispatcher.take(processor, number, entry) {
        Err(TakeFault::Memory) => Err(AllocError),
        _ => Ok(()),
    }
}
