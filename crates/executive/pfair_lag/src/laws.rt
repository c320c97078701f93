//! Laws of lags and windows, for every weight, schedule and horizon, and of the book of lags.
//!
//! Each function states one law and does nothing.
ghost use Rattle.pfair_lag.specs.Lag.{LagsKeepWindows, LagsKeepDeadlines, OneFirstMiss, OneFirstLate, MissesAreOut, LateMissDeadlines};
ghost use Rattle.pfair_lag.specs.Book.{CountsSinceEntering};

/// The lag stays strictly between -1 and 1 up to a horizon exactly if each subtask that ran did
/// so in its window, and each whose deadline is at most the horizon ran (Baruah, Cohen, Plaxton and
/// Varvel 1996).
pub fn lags_keep_windows()
    ensures { LagsKeepWindows }
{}

/// The lag stays below 1 up to a horizon exactly if each subtask that ran did so before its
/// deadline, and each whose deadline is at most the horizon ran (ERfair, Anderson and Srinivasan).
pub fn lags_keep_deadlines()
    ensures { LagsKeepDeadlines }
{}

/// At most one subtask, and one cause, is the first that is out of its window, and then not all are
/// in their windows.
#[tactic(auto, using(crate::proofs::Counts::one_first_miss, crate::proofs::Counts::misses_are_out))]
pub fn first_misses_are_one()
    ensures one { OneFirstMiss }
    ensures out { MissesAreOut }
{}

/// At most one subtask, and one cause, is the first that is late, and then not all meet their
/// deadlines.
#[tactic(auto, using(crate::proofs::Counts::one_first_late, crate::proofs::Counts::late_miss_deadlines))]
pub fn first_late_are_one()
    ensures one { OneFirstLate }
    ensures late { LateMissDeadlines }
{}

/// After any calls the lag of a task goes by the slots recorded since it was last entered, and by
/// those of them whose list names it, with the slots and quanta that it was entered with. Slots
/// before it was last entered don't count, even if it had been entered before.
#[tactic(auto, using(crate::proofs::BookLemmas::counts_since_entering))]
pub fn lags_count_since_entering()
    ensures { CountsSinceEntering }
{}
