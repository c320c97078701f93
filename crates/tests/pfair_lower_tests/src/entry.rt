//! Worked entries and logs.

use pfair_entry::{Announcement, Entry, EntryFault, NoteFault, Writer};
use pfair_weight::TaskName;

fn late(name: TaskName, index: u64, by: u64) -> Option<(u64, Announcement)> {
    Some((0, Announcement::Late { name, index, by }))
}

fn departs(stamp: u64, name: TaskName) -> Option<(u64, Announcement)> {
    Some((stamp, Announcement::Depart { name }))
}

#[test]
fn entries_are_refused_by_the_first_fault(rt: HostRuntime) {
    let name = TaskName::from_bytes(b"a").expect(&rt, "a name");
    for (floor, said, fault) in [
        (1_000_001, None, Some(EntryFault::StampTooFar)),
        (5, departs(1_000_001, name), Some(EntryFault::StampTooFar)),
        (7, departs(3, name), Some(EntryFault::StampBeforeFloor)),
        (0, late(name, 0, 0), Some(EntryFault::BadIndex)),
        (0, late(name, 1_000_001, 1), Some(EntryFault::BadIndex)),
        (0, late(name, 1, 0), Some(EntryFault::BadDelay)),
        (0, late(name, 1, 1_048_577), Some(EntryFault::BadDelay)),
        (0, late(name, 1_000_000, 1_048_576), None),
        (1_000_000, departs(1_000_000, name), None),
    ] {
        assert!(&rt; Entry::new(floor, said).err() == fault);
    }
}

#[test]
fn refused_notes_are_not_counted(rt: HostRuntime) {
    let name = TaskName::from_bytes(b"a").expect(&rt, "a name");
    let refused = NoteFault::Refused(EntryFault::StampBeforeFloor);
    let mut writer = Writer::new(2);
    for (floor, said, answer) in [
        (5, None, Ok(1)),
        (4, None, Err(NoteFault::FloorFell)),
        (5, departs(4, name), Err(refused)),
        (5, None, Ok(2)),
        (4, None, Err(NoteFault::LogFull)),
    ] {
        let noted = writer.note(floor, said);
        assert!(&rt; noted.map(|(number, _)| number) == answer);
    }
}
