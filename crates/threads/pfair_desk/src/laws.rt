//! The law of cells and desks. The function does nothing: its contract is the law.
ghost use Rattle.pfair_desk.specs.Steps.{DesksStayBelow, DesksAgree, DesksHoldReplicas};

/// After any sets, gets and meets by any desks, from empty cells and desks, what each desk holds is
/// below the map of the set cells. So no two desks disagree; and if only entries are set, at
/// keys of the board, each desk holds a replica.
pub fn desks_hold_set_cells()
    ensures below { DesksStayBelow }
    ensures agree { DesksAgree }
    ensures replicas { DesksHoldReplicas }
{}
