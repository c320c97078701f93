//! The limits, by their numbers.
ghost use Rattle.std.specs.Prelude.{◌≡◌, ◌-◌, ◌*◌, ◌^◌};

use crate::schedule::MAX_COUNT;
use pfair_admission::Members;
use pfair_entry::{Entry, MAX_PROCESSORS, Writer};
use pfair_lag::MAX_HORIZON;
use pfair_table::{Script, Settings};
use pfair_weight::{MAX_INDEX, MAX_OFFSET, TaskName, Weight};

/// The limits of all crates: processors, the slots of a frame and of a period, the slots of a run,
/// indexes of subtasks, delays and offsets, logs and announcements, and the length of names.
pub fn limits()
    ensures processors { (MAX_PROCESSORS ≡ 64) × (Members.MAX_PROCESSORS ≡ 64) × (Settings.MAX_PROCESSORS ≡ 64) }
    ensures frame { (Weight.MAX_PERIOD ≡ 1000000000) × (Members.MAX_FRAME ≡ 1000000000) × (Settings.MAX_FRAME ≡ 1000000000) }
    ensures slots { (Settings.MAX_SLOTS ≡ 1000000) × (Entry.LAST_SLOT ≡ 1000000) × (MAX_HORIZON ≡ 1000000) }
    ensures index { (Entry.LAST_INDEX ≡ 1000000) × (MAX_COUNT ≡ 1000000) × (MAX_INDEX ≡ 2000001) }
    ensures delay { Entry.LONGEST_DELAY ≡ 2 ^ 20 }
    ensures offset { (MAX_OFFSET ≡ 2 ^ 40) × (Members.LAST_SLOT ≡ 2 ^ 40 - 2 ^ 38) }
    ensures log { (Writer.LONGEST_LOG ≡ 4096) × (Script.LONGEST_LOG ≡ 4096) × (Members.MAX_HEARD ≡ 64 * 4096) }
    ensures name { TaskName.MAX_LEN ≡ 16 }
{}
