//! Task files, read into dispatchers.
ghost use Rattle.std.specs.Prelude.{◌≡◌};
ghost use Rattle.pfair_c.specs.State.{IsReadAnswer, fault_row};

use crate::answer::{FILE_TOO_LONG, MEMORY, OPEN_ALREADY};
use crate::open::put_new;
use pfair_file::{FileFault, LONGEST_FILE, read_file};
use pfair_handle::Handle;
use pfair_table::take_script;
use std::alloc::Global;

/// The place of a task file's fault.
#[repr(C)]
#[derive(Clone, Copy, Default)]
pub struct PfairFileFault {
    /// After 61 to 63 the number of the entry's table in the file, counted from 1, or 0 for the
    /// file's own keys; else 0.
    pub place: u64,
    /// After 61 to 63 the key: 1 to 15, in the order of [`Field`](pfair_file::Field); else 0.
    pub field: u64,
    /// After 64 the processor, counted from 0; else 0.
    pub processor: u64,
    /// After 64 the number that the entry would have in its log, counted from 1; else 0.
    pub number: u64,
    /// After 64 why there is no such entry: 12 if the log is full, or 1 to 10 for what is wrong with
    /// it; else 0.
    pub cause: u64,
}

/// Opens a dispatcher with the settings of a task file, which has taken all entries of the file's
/// logs and planned nothing. Its logs have room for as many entries as the longest of the file.
///
/// Answers 0; 101 if the handle has a dispatcher; 66 if there are more than [`LONGEST_FILE`] bytes; 60
/// to 65 for the file's first fault, whose place is written; 90 if an allocation fails. The handle is
/// as before except after 0. Costs what [`read_file`] and [`take_script`] cost.
#[unsafe(no_mangle)]
pub extern "C" fn pfair_read_file(
    alloc: Global,
    handle: &mut Handle,
    fault: &mut PfairFileFault,
    bytes: &[u8],
) -> u32
    ensures { IsReadAnswer bytes.now handle.old.owner.kept handle.new.owner.kept result fault.old fault.new }
{
    if handle.is_open() {
        return OPEN_ALREADY;
    }
    if bytes.len() > LONGEST_FILE {
        return FILE_TOO_LONG;
    }
    match read_file(alloc, bytes) {
        Ok(script) => put_new(alloc, handle, take_script(alloc, &script)),
        Err(FileFault::Memory) => MEMORY,
        Err(refused) => {
            *fault = fault_row(refused);
            refused.number() as u32
        }
    }
}

fn fault_row(fault: FileFault) -> PfairFileFault
    ensures { result ≡ fault_row fault }
{
    match fault {
        FileFault::Missing { place, field }
        | FileFault::WrongKind { place, field }
        | FileFault::Range { place, field } => PfairFileFault {
            place,
            field: field as u64 + 1,
            ..PfairFileFault::default()
        },
        FileFault::Entry {
            proc,
            number,
            cause,
        } => PfairFileFault {
            processor: proc as u64,
            number: number as u64,
            cause: cause.number() as u64,
            ..PfairFileFault::default()
        },
        FileFault::NotToml | FileFault::Version | FileFault::Memory => PfairFileFault::default(),
    }
}
