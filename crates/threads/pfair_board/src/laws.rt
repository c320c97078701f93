//! The laws of boards. Each function does nothing: its contract is the law.
ghost use Rattle.pfair_desk.specs.Steps.{DesksStayBelow, DesksAgree};
ghost use Rattle.pfair_board.specs.Laws.{DesksPlanAlike, DesksShareAPlan};

use pfair_desk::laws::desks_hold_set_cells;
use pfair_table::laws::{one_plan, one_table};

/// After any sets, gets and meets by any desks, from empty cells and desks, what each desk holds is
/// below the map of the set cells. So no two desks disagree, no slot gets two different tables, and
/// of the plans of two desks the shorter begins the longer.
pub fn desks_follow_the_cells()
    ensures below { DesksStayBelow }
    ensures agree { DesksAgree }
    ensures tables { DesksPlanAlike }
    ensures plans { DesksShareAPlan }
{
    desks_hold_set_cells();
    one_table();
    one_plan();
}
