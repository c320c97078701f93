//! Tables: which subtasks run in each slot, as far as a dispatcher's log entries settle the slots.
//!
//! No master decides. A [`Dispatcher`] keeps a replica of the logs of all processors, and plans
//! slot after slot by the PD2 order of Anderson and Srinivasan over the Pfair model of Baruah,
//! Cohen, Plaxton and Varvel. The module [`laws`] says that any two dispatchers that took entries
//! of the same logs give every slot that both have planned the same table.
#![tactic(auto)]

mod answer;
mod dispatcher;
pub mod laws;
mod next_run;
mod places;
mod planned;
mod planner;
mod run;
mod script;
mod settings;
mod single;
mod slot;
mod slot_planner;
mod state;

pub use answer::{NextRunFault, PlanFault, RunFault, Step};
pub use dispatcher::Dispatcher;
pub use planned::Run;
pub use run::{Event, run_events};
pub use script::Script;
pub use settings::Settings;
pub use single::take_script;
pub use slot::{Decided, Pick, SlotPlan};
pub use slot_planner::SlotPlanner;
pub use state::State;
