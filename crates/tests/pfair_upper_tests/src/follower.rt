//! Rows of each output over writers that fail, which come anew with the next entry.

use crate::devices::Sink;
use pfair_entry::{Announcement, Entry};
use pfair_feed::{Follower, Output};
use pfair_file::ProgramFault;
use pfair_ready::{HeapReady, Ready};
use pfair_replica::Taken;
use pfair_table::Settings;
use pfair_weight::{TaskName, Weight};
use std::alloc::Global;
use std::process::Abort;

// The whole of each output of one processor for four slots, with a task of weight 2/4 that may run
// ahead of its windows.
const WHOLE: [(Output, &str); 4] = [
    (
        Output::Tables,
        "slot,processor,task,index\n0,0,a,1\n1,0,a,2\n",
    ),
    (
        Output::PlacedTables,
        "slot,processor,task,index,place\n0,0,a,1,0\n1,0,a,2,0\n",
    ),
    (
        Output::Decisions,
        "slot,processor,number,task,outcome,value\n0,0,1,a,admitted,-\n",
    ),
    (
        Output::Lags,
        "time,task,numerator,period\n1,a,-2,4\n2,a,-4,4\n3,a,-2,4\n4,a,0,4\n",
    ),
];

fn arrival(rt: &impl Abort) -> Entry {
    let arrives = Announcement::Arrive {
        name: TaskName::from_bytes(b"a").expect(rt, "a name"),
        weight: Weight::new(2, 4).expect(rt, "a weight"),
        early: true,
    };
    Entry::new(0, Some((0, arrives))).expect(rt, "an entry")
}

fn follower<R: Ready>(rt: &impl Abort, alloc: Global, output: Output) -> Follower<R> {
    let settings = Settings::new(1, 4, 4).expect(rt, "settings");
    Follower::new(alloc, settings, 4096, output, 0).expect(rt, "memory")
}

// Whether a writer takes the header and all rows. A function that owns a follower is generic over its
// ready structure, and lends it to one with the looks.
fn is_written<R: Ready>(
    rt: &impl Abort,
    alloc: Global,
    output: Output,
    writer: &mut Sink,
    whole: &str,
) -> bool {
    let mut follower: Follower<R> = follower(rt, alloc, output);
    let mut anew: Vec<u8> = Vec::new(alloc);
    is_taken(rt, &mut follower, writer, &mut anew, whole)
}

// After a failure the rows come anew with an entry that is held already.
fn is_taken<R: Ready>(
    rt: &impl Abort,
    follower: &mut Follower<R>,
    writer: &mut Sink,
    anew: &mut Vec<u8>,
    whole: &str,
) -> bool {
    if follower.write_header(writer).is_err() {
        return false;
    }
    let (header, calls) = (writer.taken.len(), writer.calls);
    // no row is due, so that nothing is written and nothing flushed
    assert!(rt; follower.take(writer, 0, 1, arrival(rt)).is_ok());
    assert!(rt; writer.calls == calls);
    let closing = Entry::new(4, None).expect(rt, "an entry");
    let fault = follower.take(writer, 0, 2, closing).err();
    if fault.is_none() {
        assert!(rt; follower.unwritten() == 4 && writer.flushed == writer.taken.len());
        return true;
    }
    assert!(rt; fault == Some(ProgramFault::WriteFailed) && follower.unwritten() == 0);
    assert!(rt; follower.take(anew, 0, 2, closing) == Ok(Taken::Known));
    assert_eq!(rt; anew.len(), whole.len().saturating_sub(header));
    assert!(rt; whole.as_bytes().ends_with(anew.as_slice()));
    false
}

#[test]
fn a_writer_that_fails_at_each_call(rt: HostRuntime) {
    for (output, whole) in WHOLE {
        for takes_none in [false, true] {
            let mut is_whole = false;
            for failing in 0..20 {
                let mut writer = Sink::failing_at(rt.alloc(), 9, failing);
                writer.takes_none = takes_none;
                is_whole = is_written::<HeapReady>(&rt, rt.alloc(), output, &mut writer, whole);
                assert!(&rt; whole.as_bytes().starts_with(writer.taken.as_slice()));
            }
            assert!(&rt; is_whole);
        }
    }
}
