//! The lines of faults, each of which goes out in one write.

use crate::devices::Sink;
use pfair_board::{LookFault, PublishFault, RunFault};
use pfair_entry::{Entry, EntryFault, NoteFault, NoticeFault};
use pfair_entry_row::RowFault;
use pfair_feed::report_refused;
use pfair_file::{Field, FileFault, ProgramFault, write_line};
use pfair_lag::PickFault;
use pfair_replica::{MergeFault, TakeFault};
use pfair_reports::write_fault;
use pfair_table::{NextRunFault, PlanFault};
use pfair_weight::{NameFault, TaskName, WeightFault};

const OF_THE_PROGRAM: &str = "pfair: 4 zero cost
pfair: 5 cost over period
pfair: 6 period too long
pfair: 52 stalled at slot 18446744073709551615
pfair: 53 gate gave up
pfair: 54 gone astray
pfair: 60 not TOML
pfair: 61 missing processors at 18446744073709551615
pfair: 62 processors of wrong kind at 18446744073709551615
pfair: 63 processors out of range at 18446744073709551615
pfair: 65 unknown version
pfair: 66 file too long
pfair: 70 reading failed
pfair: 71 writing failed
pfair: 80 command line refused
pfair: 90 out of memory
";

#[test]
fn faults_of_the_program_are_lines_of_one_write(rt: HostRuntime) {
    let (place, field) = (u64::MAX, Field::Processors);
    let faults = [
        ProgramFault::Weight(WeightFault::ZeroCost),
        ProgramFault::Weight(WeightFault::CostOverPeriod),
        ProgramFault::Weight(WeightFault::PeriodTooLong),
        ProgramFault::Stalled { slot: u64::MAX },
        ProgramFault::GateGaveUp,
        ProgramFault::Astray,
        ProgramFault::File(FileFault::NotToml),
        ProgramFault::File(FileFault::Missing { place, field }),
        ProgramFault::File(FileFault::WrongKind { place, field }),
        ProgramFault::File(FileFault::Range { place, field }),
        ProgramFault::File(FileFault::Version),
        ProgramFault::FileTooLong,
        ProgramFault::ReadFailed,
        ProgramFault::WriteFailed,
        ProgramFault::CommandLine,
        ProgramFault::Memory,
    ];
    let mut writer = Sink::of(rt.alloc(), usize::MAX);
    for fault in &faults {
        let _ = write_fault(fault, &mut writer);
    }
    assert_eq!(rt; writer.taken.as_slice(), OF_THE_PROGRAM.as_bytes());
    assert_eq!(rt; writer.calls, faults.len());
}

const OF_CALLS: &str = "pfair: 30 entry 2 of processor 1 torn
pfair: 31 spent
pfair: 90 out of memory
pfair: 30 entry 2 of processor 1 torn
pfair: 31 spent
pfair: 32 run not finished
pfair: 33 run past the last slot
pfair: 34 cannot carry a member
pfair: 90 out of memory
pfair: 11 floor fell
pfair: 12 log full
pfair: 9 bad delay
pfair: 13 no such processor
pfair: 14 number out of range
pfair: 90 out of memory
pfair: 15 other shape
pfair: 90 out of memory
pfair: 40 picks not rising at 1
pfair: 41 pick past horizon at 0
";

#[test]
fn faults_of_calls_have_their_texts(rt: HostRuntime) {
    let mut text: Vec<u8> = Vec::new(rt.alloc());
    let torn = PlanFault::Torn { proc: 1, number: 2 };
    for fault in [torn, PlanFault::Spent, PlanFault::Memory] {
        write_line("pfair", fault.number(), &fault, &mut text);
    }
    let name = TaskName::from_bytes(b"a").expect(&rt, "a name");
    for fault in [
        NextRunFault::Torn { proc: 1, number: 2 },
        NextRunFault::Spent,
        NextRunFault::Unfinished,
        NextRunFault::PastLastSlot,
        NextRunFault::CannotCarry { name },
        NextRunFault::Memory,
    ] {
        write_line("pfair", fault.number(), &fault, &mut text);
    }
    let refused = NoteFault::Refused(EntryFault::BadDelay);
    for fault in [NoteFault::FloorFell, NoteFault::LogFull, refused] {
        write_line("pfair", fault.number(), &fault, &mut text);
    }
    for fault in [
        TakeFault::NoSuchProcessor,
        TakeFault::NumberOutOfRange,
        TakeFault::Memory,
    ] {
        write_line("pfair", fault.number(), &fault, &mut text);
    }
    for fault in [MergeFault::OtherShape, MergeFault::Memory] {
        write_line("pfair", fault.number(), &fault, &mut text);
    }
    for fault in [
        PickFault::PicksNotRising { at: 1 },
        PickFault::PickPastHorizon { at: 0 },
    ] {
        write_line("pfair", fault.number(), &fault, &mut text);
    }
    assert_eq!(&rt; text.as_slice(), OF_CALLS.as_bytes());
}

const OF_BOARDS: &str = "pfair: 13 no such processor
pfair: 14 number out of range
pfair: 90 out of memory
pfair: 50 row full
pfair: 51 number taken
pfair: 90 out of memory
pfair: 52 stalled at slot 7
pfair: 53 gate gave up
pfair: 54 gone astray
pfair: 90 out of memory
";

#[test]
fn faults_of_boards_have_their_texts(rt: HostRuntime) {
    let mut text: Vec<u8> = Vec::new(rt.alloc());
    for fault in [
        LookFault::NoSuchProcessor,
        LookFault::NumberOutOfRange,
        LookFault::Memory,
    ] {
        write_line("pfair", fault.number(), &fault, &mut text);
    }
    let standing = Entry::new(0, None).expect(&rt, "an entry");
    for fault in [
        PublishFault::RowFull,
        PublishFault::Taken { standing },
        PublishFault::Memory,
    ] {
        write_line("pfair", fault.number(), &fault, &mut text);
    }
    for fault in [
        RunFault::Stalled { slot: 7 },
        RunFault::GateGaveUp,
        RunFault::Astray,
        RunFault::Memory,
    ] {
        write_line("pfair", fault.number(), &fault, &mut text);
    }
    assert_eq!(&rt; text.as_slice(), OF_BOARDS.as_bytes());
}

const OF_ROWS: &str = "pfair_follow: 67 no entry's row: x?
pfair_follow: 3 bad byte at 1: x?
pfair_follow: 5 cost over period: x?
pfair_follow: 7 stamp before floor: x?
pfair_follow: 13 no such processor: x?
pfair_follow: 14 number out of range: x?
pfair_follow: 13 no such processor: x?
pfair_follow: 14 number out of range: x?
pfair_follow: 30 entry 7 of processor 2 torn: x?
pfair_follow: 31 spent: x?
pfair_follow: 71 writing failed: x?
pfair_follow: 90 out of memory: x?
pfair_follow: 70 reading failed: x?
";

#[test]
fn refused_rows_are_reported_in_one_write(rt: HostRuntime) {
    let faults = [
        ProgramFault::Row(RowFault::NoRow),
        ProgramFault::Row(RowFault::Refused(NoticeFault::Name(NameFault::BadByte { at: 1 }))),
        ProgramFault::Row(RowFault::Refused(NoticeFault::Weight(WeightFault::CostOverPeriod))),
        ProgramFault::Row(RowFault::Refused(NoticeFault::Entry(EntryFault::StampBeforeFloor))),
        ProgramFault::Row(RowFault::NoSuchProcessor),
        ProgramFault::Row(RowFault::NumberOutOfRange),
        ProgramFault::NoSuchProcessor,
        ProgramFault::NumberOutOfRange,
        ProgramFault::Torn { proc: 2, number: 7 },
        ProgramFault::Spent,
        ProgramFault::WriteFailed,
        ProgramFault::Memory,
        ProgramFault::ReadFailed,
    ];
    let mut writer = Sink::of(rt.alloc(), usize::MAX);
    for fault in &faults {
        report_refused(&mut writer, fault, b"x\x07");
    }
    assert_eq!(&rt; writer.taken.as_slice(), OF_ROWS.as_bytes());
    assert_eq!(&rt; writer.calls, faults.len());
}

#[test]
fn a_long_line_is_not_cut(rt: HostRuntime) {
    let text = "a text that is longer than the room for a line, ";
    let long = text.repeat(rt.alloc(), 3).expect(&rt, "memory");
    let mut writer = Sink::of(rt.alloc(), usize::MAX);
    write_line("pfair", 1, &long, &mut writer);
    let line = format!(in rt.alloc(); "pfair: 1 {long}\n").expect(&rt, "memory");
    assert_eq!(rt; writer.taken.as_slice(), line.as_bytes());
}
