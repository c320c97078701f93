//! The laws of agreement, over all replicas and all events, of a first run and of each run that
//! follows. Each function does nothing: its contract is the law.
ghost use Rattle.pfair_table.specs.Events.{EventsLeaveTheLeast, OneTable, PlansGoOn, OnePlan, TablesAreOrdered, OneSchedule, PlanSoFar, RunsAreCounted};
ghost use Rattle.pfair_table.specs.NextRun.{RunsGoOn};
ghost use Rattle.pfair_table.specs.Refinement.{PlacesAreKept, PlacesFollowTables, OnePlacing};

/// Agreement: two replicas that agree give every slot below both frontiers one table and the same
/// decisions, wherever the run began.
pub fn one_table()
    ensures { OneTable }
{}

/// Growth: a replica that is above another and has nothing torn has no lower mark, and its plan begins
/// with the plan of the other.
pub fn plans_go_on()
    ensures { PlansGoOn }
{}

/// One plan: of the plans of two replicas that agree, the shorter begins the longer.
pub fn one_plan()
    ensures { OnePlan }
{}

/// A table has at most as many rows as there are processors, rising in the PD2 order, and each task
/// once. Premise: the run begins without members, or with members of distinct names.
pub fn tables_are_ordered()
    ensures { TablesAreOrdered }
{}

/// The headline: if two dispatchers have equal settings, runs that began alike and, after any events,
/// replicas that agree, each slot that both have planned has one table and the same decisions.
pub fn one_schedule()
    ensures { OneSchedule }
{}

/// A list of events leaves the least replica that is above each entry that they take and each replica
/// that they absorb; an event that is refused for its key or its shape brings nothing.
pub fn events_leave_the_least()
    ensures { EventsLeaveTheLeast }
{}

/// While a dispatcher's replica has nothing torn, its tables so far are the beginning of the replica's
/// plan.
pub fn plan_so_far()
    ensures { PlanSoFar }
{}

/// In a first run, adding one to the next index of each task of a table gives the indexes that are
/// counted over all tables.
#[tactic(auto, using(crate::proofs::TableLaws::runs_are_counted))]
pub fn runs_are_counted()
    ensures { RunsAreCounted }
{}

/// If tables have at most as many rows as there are processors, and each task once, then each row has
/// a place, which is a processor, no two rows of a table have the same, and a task that is in two
/// consecutive tables has one place in both: also if one is the last table of a run, and the other the
/// first table of the run that follows.
pub fn places_are_kept()
    ensures { PlacesAreKept }
{}

/// The places of a slot follow from the tables up to it, so the same tables give the same places.
#[tactic(auto, using(crate::proofs::PlacesKept::places_follow_tables))]
pub fn places_follow_tables()
    ensures { PlacesFollowTables }
{}

/// The headline for places: if two dispatchers have equal settings, runs that began alike and, after
/// any events, replicas that agree, each slot that both have planned has the same places.
#[tactic(auto, using(crate::proofs::Alike::one_placing))]
pub fn one_placing()
    ensures { OnePlacing }
{}

/// Runs go on as one: each slot of a next run is a slot of one long run. That has the announcements
/// of both, those of the next run later by the slots of the first. It has the same table, decisions
/// and places, and members with the same keys, freeing slots and lags; only indexes are lower, by
/// the subtasks of the jobs that were taken off. So the long run is notified of the next run's late
/// releases with indexes that are greater by as much. A next run can be followed by another.
#[tactic(auto, using(crate::proofs::RunsOn::runs_go_on))]
pub fn runs_go_on()
    ensures { RunsGoOn }
{}
