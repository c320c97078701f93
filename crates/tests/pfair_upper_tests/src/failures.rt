//! Readers and writers that fail once and would then go on.

use crate::devices::{Sink, Source};
use crate::reports::{COMMANDS, Command, SAMPLE, assert_fault, run};
use pfair_board::OpenGate;
use pfair_reports::{ProgramFault, windows, write_fault};
use pfair_weight::Weight;
use std::alloc::Global;
use std::process::Abort;
use std::sync::Wait;
use std::thread::Threads;

fn assert_read_fails<P: Abort + Threads + Wait + Sync>(
    rt: &P,
    alloc: Global,
    command: Command,
    failing: usize,
) {
    let mut reader = Source::of(SAMPLE.as_bytes(), 64);
    reader.failing = failing;
    let mut text: Vec<u8> = Vec::new(alloc);
    let fault = run(rt, alloc, command, &mut reader, &mut text, &OpenGate)
        .err()
        .expect(rt, "a fault");
    assert_fault(rt, alloc, &fault, "pfair: 70 reading failed\n", 5);
    assert!(rt; text.is_empty() && reader.calls == failing.saturating_add(1));
}

#[test]
fn a_reader_that_fails_once(rt: HostRuntime) {
    for (command, _) in COMMANDS {
        for failing in 0..SAMPLE.len() / 64 + 2 {
            assert_read_fails(&rt, rt.alloc(), command, failing);
        }
    }
}

fn assert_write_fails<P: Abort + Threads + Wait + Sync>(
    rt: &P,
    alloc: Global,
    command: Command,
    writer: &mut Sink,
    rows: &str,
) {
    let failing = writer.failing;
    let fault = run(
        rt,
        alloc,
        command,
        &mut SAMPLE.as_bytes(),
        writer,
        &OpenGate,
    )
    .err()
    .expect(rt, "a fault");
    assert_fault(rt, alloc, &fault, "pfair: 71 writing failed\n", 5);
    assert!(rt; writer.calls == failing.saturating_add(1));
    assert!(rt; writer.taken.len() == failing.saturating_mul(10));
    assert!(rt; rows.as_bytes().starts_with(writer.taken.as_slice()));
}

#[test]
fn a_writer_that_fails_once(rt: HostRuntime) {
    for (command, rows) in COMMANDS {
        for failing in 0..rows.len().div_ceil(10) {
            for takes_none in [false, true] {
                let mut writer = Sink::failing_at(rt.alloc(), 10, failing);
                writer.takes_none = takes_none;
                assert_write_fails(&rt, rt.alloc(), command, &mut writer, rows);
            }
        }
    }
}

#[test]
fn windows_over_a_writer_that_fails_after_the_header(rt: HostRuntime) {
    let weight = Weight::new(1, 1).expect(&rt, "a weight");
    let mut writer = Sink::failing_at(rt.alloc(), 10, 1);
    let fault = windows(rt.alloc(), weight, 2, &mut writer)
        .err()
        .expect(&rt, "a fault");
    assert_eq!(rt; writer.taken.as_slice(), b"i,r,d,b,D\n".as_slice());
    assert_fault(&rt, rt.alloc(), &fault, "pfair: 71 writing failed\n", 5);
    let mut broken = Sink::failing_at(rt.alloc(), 10, 0);
    broken.takes_none = true;
    assert_eq!(rt; write_fault(&ProgramFault::CommandLine, &mut broken), 1);
    assert!(rt; broken.taken.is_empty());
}
