//! The laws of replicas: of their order and their join, of sound beginnings, marks and the
//! frontier, and of what is torn.
//!
//! Each function does nothing: its contract is the law, over every replica that there can be.
#![tactic(auto, using(crate::proofs::SaidListed::laws))]

ghost use Rattle.pfair_replica.specs.Laws.{IsLeastJoin, IsLongestRun, IsHeldAfter, IsAgreement, BelowAgrees, SayTheSame, MarksNeverFall, IsReadByNumber, BeginningsGrow, IsLeastMark, IsTornTest, IsListed, OfferedStays};
ghost use Rattle.pfair_replica.specs.Replica.{IsKnownByHeld, IsSaid};

/// The order of replicas is an order, and a merge gives the least replica above both; so it is
/// commutative, associative and idempotent.
pub fn least_join()
    ensures { IsLeastJoin }
{}

/// Replicas of one shape that have the same content at every key are equal.
pub fn known_by_held()
    ensures { IsKnownByHeld }
{}

/// The content of each key after an entry was joined in, which changes nothing if the entry was there
/// already, and after a merge.
pub fn held_after()
    ensures { IsHeldAfter }
{}

/// Offering an entry or a replica, refused or not, removes nothing, changes no shape and leaves a
/// replica.
pub fn offered_stays()
    ensures { OfferedStays }
{}

/// Replicas agree exactly if neither has anything torn and no key has two entries.
pub fn agreement()
    ensures { IsAgreement }
{}

/// A replica that is below one with nothing torn agrees with it.
pub fn below_agrees()
    ensures { BelowAgrees }
{}

/// A sound beginning is the longest run of held entries whose floors never fall.
pub fn longest_run()
    ensures { IsLongestRun }
{}

/// Entry n of a sound beginning is the entry that the replica has under number n.
pub fn read_by_number()
    ensures { IsReadByNumber }
{}

/// If a replica is above another and has nothing torn, its sound beginnings continue those of the
/// other.
pub fn beginnings_grow()
    ensures { BeginningsGrow }
{}

/// The frontier is no greater than any mark, and it is one of them.
pub fn least_mark()
    ensures { IsLeastMark }
{}

/// A replica that is above another and has nothing torn has no lower mark and no lower frontier.
pub fn marks_never_fall()
    ensures { MarksNeverFall }
{}

/// Replicas that agree have the same announcements at every slot below both frontiers.
pub fn say_the_same()
    ensures { SayTheSame }
{}

/// The list of torn keys is empty exactly if nothing is torn.
pub fn torn_test()
    ensures { IsTornTest }
{}

/// The torn keys are those whose content is torn, and the fallen ones those of an entry
/// right after a sound beginning with a floor below the mark.
pub fn listed()
    ensures { IsListed }
{}

/// The announcements at a slot are those of sound beginnings with that stamp, in order of processors,
/// and of numbers for each processor. Torn and fallen keys are listed in the same order.
pub fn said_in_order()
    ensures { IsSaid }
{}
