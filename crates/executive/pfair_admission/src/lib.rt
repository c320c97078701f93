//! Members of a schedule, and the decisions at the boundary of a slot.
//!
//! At the boundary of a slot, before any task runs in it, the announcements stamped with the slot are
//! decided. An arriving task is admitted, and then a member, if its name is free, its period divides
//! the frame, and the members' total weight stays at most the number of processors. A departing member
//! gets no more quanta, and is freed, with its weight and its name, some slots later.
//!
//! A run ends after some slots. The next one can begin with its members, carried: their indexes are
//! lowered by whole jobs, and slots stay as they are.
#![tactic(auto)]

mod decision;
mod delay;
mod incarnation;
pub mod laws;
pub(crate) mod ledger;
mod member_state;
mod members;

pub use decision::{Decision, Refusal};
pub use delay::Delay;
pub use incarnation::Incarnation;
pub use member_state::{MemberState, RestoreFault};
pub use members::{Members, Quantum};
