//! The entries of a script as rows.
ghost use Rattle.std.specs.Prelude.{◌≡◌, IfOk, OnOk};
ghost use Rattle.pfair_feed.specs.Laws.{entries_text, IsScript};

use pfair_entry_row::add_entry;
use pfair_table::Script;
use pfair_text::{finish, new_text};
use std::alloc::{AllocError, Global};

/// Returns the entries of a script as rows: the logs in order of processors, and in each its
/// entries, from number 1 on. O(rows). Fed in any order, repeated or not, they give the script's
/// schedule ([`entries_give_their_schedule`](crate::laws::entries_give_their_schedule)).
///
/// # Errors
/// Returns [`AllocError`] if an allocation fails.
pub fn entries_of(alloc: Global, script: &Script) -> Result<Vec<u8>, AllocError>
    ensures text { IfOk result (λ text. text.items ≡ entries_text script.now.logs) }
    ensures script { OnOk result (IsScript script.now) }
{
    // no log has more entries than a log has room for
    prove!(script.capacity() as usize <= Script::LONGEST_LOG);
    let mut writer = new_text(alloc);
    for processor in 0..script.settings().processors() {
        let log = script.log(processor);
        for (index, entry) in log.iter().enumerate() {
            add_entry(&mut writer, processor, index as u32 + 1, entry)?;
        }
    }
    finish(writer)
}
