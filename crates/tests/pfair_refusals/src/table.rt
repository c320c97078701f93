//! Dispatchers: plans, reopening, next runs, and runs of events.

use crate::entries::{TABLES, is_planned, quiet, ten};
use crate::{Look, Made, Named};
use pfair_ready::Ready;
use pfair_replica::{TakeFault, Taken};
use pfair_table::{Dispatcher, Event, NextRunFault, PlanFault, Settings, Step, run_events};
use std::alloc::{AllocError, Global};

pub(crate) fn looks<R: Ready>(alloc: Global) -> [Named; 5] {
    [
        ("plans", look_at::<R>(alloc, Call::Plan)),
        ("reopening", look_at::<R>(alloc, Call::Reopen)),
        ("a second content", look_at::<R>(alloc, Call::Tear)),
        ("a next run", look_at::<R>(alloc, Call::NextRun)),
        ("a run of events", events::<R>(alloc, &mut Vec::new(alloc))),
    ]
}

// A call of a dispatcher that holds the ten entries.
#[derive(Clone, Copy)]
enum Call {
    // All six plans.
    Plan,
    // Reopening after three plans.
    Reopen,
    // A second content after three plans.
    Tear,
    // A next run after all six plans.
    NextRun,
}

fn look_at<R: Ready>(alloc: Global, call: Call) -> Look {
    let settings = Settings::new(2, 6, 6).ok_or(AllocError)?;
    look_with(&mut Dispatcher::<R>::new(alloc, settings, 20)?, call)
}

fn look_with<R: Ready>(dispatcher: &mut Dispatcher<R>, call: Call) -> Look {
    tell(dispatcher)?;
    match call {
        Call::Plan => plans_rest(dispatcher),
        Call::Reopen => {
            plan_three(dispatcher)?;
            Ok(reopens(dispatcher, 3)? && plans_rest(dispatcher)?)
        }
        Call::Tear => {
            plan_three(dispatcher)?;
            tears(dispatcher)
        }
        Call::NextRun => Ok(plans_rest(dispatcher)? && goes_on(dispatcher)?),
    }
}

// Tells a dispatcher the ten entries.
fn tell<R: Ready>(dispatcher: &mut Dispatcher<R>) -> Made<()> {
    for (processor, number, entry) in ten()? {
        if dispatcher.take(processor, number, entry) == Err(TakeFault::Memory) {
            return Err(AllocError);
        }
    }
    Ok(())
}

fn plan_three<R: Ready>(dispatcher: &mut Dispatcher<R>) -> Made<()> {
    for _ in 0..3 {
        if dispatcher.plan_next().is_err() {
            return Err(AllocError);
        }
    }
    Ok(())
}

// Plans the slots that are left.
fn plans_rest<R: Ready>(dispatcher: &mut Dispatcher<R>) -> Look {
    for slot in dispatcher.next_slot()..TABLES.len() as u64 {
        if !plans(dispatcher, slot)? {
            return Ok(false);
        }
    }
    Ok(is_planned(dispatcher, 6) && dispatcher.plan_next() == Ok(Step::Done))
}

// A plan. After a failed allocation the slot isn't planned, plans are refused until the dispatcher is
// reopened, and entries are taken all the same; then it is made once more.
fn plans<R: Ready>(dispatcher: &mut Dispatcher<R>, slot: u64) -> Look {
    let mut answer = dispatcher.plan_next();
    if answer == Err(PlanFault::Memory) {
        let (_, _, first) = ten()?[0];
        let is_taken = dispatcher.take(0, 1, first) == Ok(Taken::Known);
        if !is_taken || !is_spent(dispatcher, slot) || !reopens(dispatcher, slot)? {
            return Ok(false);
        }
        answer = dispatcher.plan_next();
    }
    match answer {
        Err(PlanFault::Memory) => Err(AllocError),
        _ => Ok(answer == Ok(Step::Planned(slot))),
    }
}

// Whether just these slots are planned, and plans are refused.
fn is_spent<R: Ready>(dispatcher: &mut Dispatcher<R>, slots: u64) -> bool {
    is_planned(dispatcher, slots) && dispatcher.plan_next() == Err(PlanFault::Spent)
}

// Reopening. After a failed allocation plans are spent, and what was planned stands; then it is made
// once more.
fn reopens<R: Ready>(dispatcher: &mut Dispatcher<R>, slots: u64) -> Look {
    let mut answer = dispatcher.reopen();
    if answer == Err(PlanFault::Memory) {
        if !is_spent(dispatcher, slots) {
            return Ok(false);
        }
        answer = dispatcher.reopen();
    }
    match answer {
        Err(PlanFault::Memory) => Err(AllocError),
        _ => Ok(answer == Ok(()) && is_planned(dispatcher, slots)),
    }
}

// A second content of an entry stops plans and reopening, also those of a dispatcher that is spent;
// what was planned stands.
fn tears<R: Ready>(dispatcher: &mut Dispatcher<R>) -> Look {
    let slots = match dispatcher.plan_next() {
        Ok(Step::Planned(3)) => 4,
        Err(PlanFault::Memory) if is_spent(dispatcher, 3) => 3,
        _ => return Ok(false),
    };
    let torn = PlanFault::Torn { proc: 0, number: 1 };
    Ok(
        dispatcher.take(0, 1, quiet(6)?) == Ok(Taken::Torn)
            && dispatcher.plan_next() == Err(torn)
            && dispatcher.reopen() == Err(torn)
            && is_planned(dispatcher, slots),
    )
}

// A next run. After a failed allocation this run stands; then the next one is begun once more.
fn goes_on<R: Ready>(dispatcher: &Dispatcher<R>) -> Look {
    let mut next = dispatcher.next_run(6);
    if matches!(next, Err(NextRunFault::Memory)) && is_planned(dispatcher, 6) {
        next = dispatcher.next_run(6);
    }
    let left = dispatcher.members().map_or(0, |members| members.len());
    match next {
        Ok(next) => Ok(next.members().map_or(0, |members| members.len()) == left && left > 0),
        Err(NextRunFault::Memory) => Err(AllocError),
        Err(_) => Ok(false),
    }
}

// A run of the coming of each of the ten entries, and of as many plans as there are slots.
fn events<R: Ready>(alloc: Global, events: &mut Vec<Event>) -> Look {
    for (proc, number, entry) in ten()? {
        events.push(Event::Take {
            proc,
            number,
            entry,
        })?;
    }
    for _ in TABLES {
        events.push(Event::Plan)?;
    }
    let settings = Settings::new(2, 6, 6).ok_or(AllocError)?;
    let dispatcher: Dispatcher<R> = run_events(alloc, settings, 5, events)?;
    Ok(is_planned(&dispatcher, 6))
}
