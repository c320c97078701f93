//! What holds of every state.
ghost use Rattle.std.specs.Prelude.{◌≡◌};
ghost use Rattle.pfair_state.specs.Reading.{IsReadAs, StatesHaveOneText};

use crate::fault::ReadFault;
use crate::read::read_state;
use crate::write::add_state;
use pfair_table::State;
use pfair_text::{finish, new_text};
use std::alloc::Global;

/// States of equal texts are equal, so that two machines compare states by their bytes. Each state that
/// is written is one of these ([`add_state`]).
pub fn states_have_one_text()
    ensures { StatesHaveOneText }
{}

/// Writes a state and reads the text: gives that state again. O(bytes).
///
/// # Errors
/// [`ReadFault::Memory`] if an allocation fails, and no other.
pub fn states_are_read_back(alloc: Global, state: &State) -> Result<State, ReadFault>
    ensures { IsReadAs result (λ read. read ≡ state.now) }
{
    let mut writer = new_text(alloc);
    add_state(&mut writer, state)?;
    let text = finish(writer)?;
    read_state(alloc, &text)
}
