//! A script's logs on one dispatcher.
ghost use Rattle.std.specs.Prelude.{◌≡◌, ◌+◌, ◌<◌, ◌≤◌, List, [], IfOk, OnOk, Some, None, false, slice_get, length, take};
ghost use Rattle.pfair_replica.specs.Replica.{replica_of};
ghost use Rattle.pfair_table.specs.Script.{held_of, replica_of_logs};

use crate::dispatcher::Dispatcher;
use crate::run::offer;
use crate::script::Script;
use pfair_entry::Entry;
use pfair_ready::Ready;
use std::alloc::{AllocError, Global};

/// Returns a dispatcher that has taken every entry of a script's logs and planned nothing. O(e log e)
/// for e entries.
///
/// # Errors
/// Returns [`AllocError`] if an allocation fails.
pub fn take_script<R: Ready>(alloc: Global, script: &Script) -> Result<Dispatcher<R>, AllocError>
    ensures settings { IfOk result (λ d. d.settings ≡ script.now.settings) }
    ensures held { IfOk result (λ d. replica_of d.replica ≡ replica_of_logs script.now.logs) }
    ensures first { IfOk result (λ d. d.origin ≡ None) }
    ensures nothing { IfOk result (λ d. d.tables ≡ []) }
    ensures undecided { IfOk result (λ d. d.decided ≡ []) }
    ensures unforgotten { IfOk result (λ d. d.forgotten ≡ 0) }
    ensures able { IfOk result (λ d. d.spent ≡ false) }
{
    let settings = script.settings();
    let mut dispatcher = Dispatcher::new(alloc, settings, script.capacity())?;
    for processor in 0..settings.processors() {
        let log = script.log(processor);
        for (index, entry) in log.iter().enumerate() {
            offer(&mut dispatcher, processor, index as u32 + 1, *entry)?;
        }
    }
    Ok(dispatcher)
}
