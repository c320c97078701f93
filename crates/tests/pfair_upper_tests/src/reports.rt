//! The commands over the sample file, and what they write of it.

use crate::devices::Source;
use pfair_board::{Gate, OpenGate};
use pfair_reports::{ProgramFault, decisions, lags, replay, replay_placed, write_fault};
use std::alloc::Global;
use std::io::{Read, Write};
use std::process::Abort;
use std::sync::Wait;
use std::thread::Threads;

/// A file with each kind of entry.
pub(crate) const SAMPLE: &str = "version = 1\nprocessors = 2\nframe = 6\nslots = 6\n
[[entry]]\nprocessor = 0\nfloor = 0\nkind = \"arrive\"\nat = 0\nname = \"a\"\ncost = 1\nperiod = 2\n
[[entry]]\nprocessor = 0\nfloor = 0\nkind = \"arrive\"\nat = 0\nname = \"b\"\ncost = 2\nperiod = 3\n
[[entry]]\nprocessor = 0\nfloor = 2\nkind = \"depart\"\nat = 2\nname = \"a\"\n
[[entry]]\nprocessor = 0\nfloor = 4\n
[[entry]]\nprocessor = 0\nfloor = 6\n
[[entry]]\nprocessor = 1\nfloor = 0\nkind = \"arrive\"\nat = 0\nname = \"c\"\ncost = 1\nperiod = 3\n
[[entry]]\nprocessor = 1\nfloor = 1\nkind = \"arrive\"\nat = 3\nname = \"d\"\ncost = 1\nperiod = 2\n
[[entry]]\nprocessor = 1\nfloor = 3\nkind = \"late\"\nat = 4\nname = \"b\"\nindex = 4\nby = 2\n
[[entry]]\nprocessor = 1\nfloor = 5\n
[[entry]]\nprocessor = 1\nfloor = 6\n";

/// What `replay` writes of it.
pub(crate) const TABLES: &str =
    "slot,processor,task,index\n0,0,b,1\n0,1,a,1\n1,0,b,2\n1,1,c,1\n3,0,b,3\n3,1,d,1\n4,0,c,2\n5,0,d,2\n";

/// What `replay` writes of it with places.
pub(crate) const PLACED: &str = "slot,processor,task,index,place
0,0,b,1,0\n0,1,a,1,1\n1,0,b,2,0\n1,1,c,1,1\n3,0,b,3,0\n3,1,d,1,1\n4,0,c,2,0\n5,0,d,2,0\n";

const DECISIONS: &str =
    "slot,processor,number,task,outcome,value\n0,0,1,a,admitted,-\n0,0,2,b,admitted,-
0,1,1,c,admitted,-\n2,0,3,a,departing,3\n3,1,2,d,admitted,-\n4,1,3,b,delayed,-\n";

const LAGS: &str =
    "time,task,numerator,period\n1,a,-1,2\n1,b,-1,3\n1,c,1,3\n2,a,0,2\n2,b,-2,3\n2,c,-1,3
3,b,0,3\n3,c,0,3\n4,b,-1,3\n4,c,1,3\n4,d,-1,2\n5,b,1,3\n5,c,-1,3\n5,d,0,2\n6,b,3,3\n6,c,0,3\n6,d,-1,2\n";

/// A command over a task file.
#[derive(Clone, Copy)]
pub(crate) enum Command {
    Replay,
    Placed,
    Decisions,
    Lags,
}

/// Each command, and what it writes of the sample file.
pub(crate) const COMMANDS: [(Command, &str); 4] = [
    (Command::Replay, TABLES),
    (Command::Placed, PLACED),
    (Command::Decisions, DECISIONS),
    (Command::Lags, LAGS),
];

/// Runs a command. Decisions and lags come to no gate.
pub(crate) fn run<P: Threads + Wait + Sync, R: Read, W: Write, G: Gate + Sync>(
    rt: &P,
    alloc: Global,
    command: Command,
    reader: &mut R,
    writer: &mut W,
    gate: &G,
) -> Result<(), ProgramFault> {
    match command {
        Command::Replay => replay(rt, alloc, reader, writer, gate),
        Command::Placed => replay_placed(rt, alloc, reader, writer, gate),
        Command::Decisions => decisions(alloc, reader, writer),
        Command::Lags => lags(alloc, reader, writer),
    }
}

// Asserts what a command writes of a file, read whole and byte by byte.
fn assert_rows<P: Abort + Threads + Wait + Sync>(
    rt: &P,
    alloc: Global,
    command: Command,
    file: &str,
    rows: &str,
) {
    for at_once in [usize::MAX, 1] {
        let mut reader = Source::of(file.as_bytes(), at_once);
        let mut text: Vec<u8> = Vec::new(alloc);
        assert!(rt; run(rt, alloc, command, &mut reader, &mut text, &OpenGate).is_ok());
        assert_eq!(rt; text.as_slice(), rows.as_bytes());
    }
}

#[test]
fn the_sample_has_its_rows(rt: HostRuntime) {
    for (command, rows) in COMMANDS {
        assert_rows(&rt, rt.alloc(), command, SAMPLE, rows);
    }
}

/// Asserts that a fault has this line and status.
pub(crate) fn assert_fault(
    rt: &impl Abort,
    alloc: Global,
    fault: &ProgramFault,
    line: &str,
    status: u8,
) {
    let mut written: Vec<u8> = Vec::new(alloc);
    assert_eq!(rt; write_fault(fault, &mut written), status);
    assert_eq!(rt; written.as_slice(), line.as_bytes());
}
