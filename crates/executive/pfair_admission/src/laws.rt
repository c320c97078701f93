//! The laws of members, for every machine, slot and list of members.
//!
//! Each function states one law and does nothing; [`next_key_is_of_its_subtask`] returns true.
#![tactic(auto, using(crate::proofs::Carrying::kept, crate::proofs::Carrying::of_members))]

ghost use Rattle.std.specs.Prelude.{IsTrue};
ghost use Rattle.pfair_admission.specs.Laws.{NamesStayApart, MembersKeepRoom, RefusalsChangeNothing, OrderIsKept, OneDecisionEach, DelaysMoveLaterSubtasks, LeaversHoldTheirClaim, EarlyReleaseKeepsBorders, CarriedMembersStay, CarriedMembersAreRestored, CarryingKeepsWindows, PeriodsStayInFrame, RestoredMembersAreCarried};

use crate::incarnation::Incarnation;
use pfair_order::Key;

/// If a name stands once among the members, it does so after each boundary and each quantum.
pub fn names_stay_apart()
    ensures { NamesStayApart }
{}

/// If the members' weights add to no more than the processors, they do so after each boundary
/// and each quantum.
pub fn members_keep_room()
    ensures { MembersKeepRoom }
{}

/// A refused announcement changes nothing.
pub fn refusals_change_nothing()
    ensures { RefusalsChangeNothing }
{}

/// The members stay in the order in which they joined.
pub fn order_is_kept()
    ensures { OrderIsKept }
{}

/// Each announcement gets one decision.
pub fn one_decision_each()
    ensures { OneDecisionEach }
{}

/// An accepted delay moves its subtask and all later ones by as many slots, and none before it
/// (the intra-sporadic model of Anderson and Srinivasan).
pub fn delays_move_later_subtasks()
    ensures { DelaysMoveLaterSubtasks }
{}

/// A leaver that never ran is freed at its stamp. Any other is freed no earlier than its stamp,
/// and not before the claim of its last subtask ends.
pub fn leavers_hold_their_claim()
    ensures { LeaversHoldTheirClaim }
{}

/// A subtask may run before its release only if the task is early, the subtask doesn't start a
/// job, and no accepted delay has exactly its index. No subtask may run before its task has joined.
pub fn early_release_keeps_borders()
    ensures { EarlyReleaseKeepsBorders }
{}

/// A carried member has run if it had. Its next subtask is of its first job or the one after, and
/// carried again it stays as it is.
pub fn carried_members_stay()
    ensures { CarriedMembersStay }
{}

/// Carrying a member moves none of its windows that are not over: those of its last subtask that
/// ran and of all later ones, its next key, and the slot in which it is freed if it departs.
pub fn carrying_keeps_windows()
    ensures { CarryingKeepsWindows }
{}

/// If the members' periods divide the frame, they do so after each boundary and each quantum, and in
/// the next run.
pub fn periods_stay_in_frame()
    ensures { PeriodsStayInFrame }
{}

/// Members that are restored one behind the other have distinct names and weights that add to no more
/// than the processors. Carrying leaves them as they are, so that a run can begin with them.
pub fn restored_members_are_carried()
    ensures { RestoredMembersAreCarried }
{}

/// Carried members that had joined and weren't freed can be restored, each behind those before it.
pub fn carried_members_are_restored()
    ensures { CarriedMembersAreRestored }
{}

/// The key of a member's next subtask ([`Incarnation::next_subtask`]), which an incarnation keeps by
/// sums, is that of the window formulas ([`Key::of`]).
pub fn next_key_is_of_its_subtask(member: &Incarnation) -> bool
    ensures { IsTrue result }
{
    let index = member.next();
    let key = Key::of(member.weight(), index, member.theta(index), *member.name());
    member.next_subtask().1 == key
}
