//! Task files: their header and their logs.
ghost use Rattle.std.specs.Prelude.{◌≡◌, ◌≢◌, ◌≤◌, IfOk, IfErr, OnOk, Ok, Err};
ghost use Rattle.toml.specs.View.{table_view};
ghost use Rattle.pfair_file.specs.Documents.{closed, script_of_file};
ghost use Rattle.pfair_file.specs.declared.fault.FileFault.TheVariants.{Memory};
ghost use Rattle.pfair_file.specs.Keys.{settings_of};

use crate::fault::FileFault;
use crate::field::{Field, integer, number, within};
use crate::tables::add_entries;
use pfair_entry::Entry;
use pfair_table::{Script, Settings};
use std::alloc::{AllocError, Global};
use toml::Table;

/// Reads a task file: the settings and the logs of a run, each log closed by an entry whose floor
/// is the number of slots, if its last floor is below that. O(b) for b bytes.
///
/// # Errors
/// The file's first fault: [`FileFault::NotToml`]; then, key by key in the order of [`Field`],
/// `Missing`, `WrongKind` and `Range`, or `Version` for a version that is none of 1 and 2; the
/// entries table by table, and for each table after its keys `Entry`. [`FileFault::Memory`] only
/// if an allocation fails.
#[tactic(auto, using(crate::proofs::TableFacts::texts))]
pub fn read_file(alloc: Global, bytes: &[u8]) -> Result<Script, FileFault>
    ensures ok { IfOk result (λ script. script_of_file bytes.now ≡ Ok script) }
    ensures fault { IfErr result (λ f. f ≢ Memory → script_of_file bytes.now ≡ Err f) }
{
    let text = std::str::from_utf8(bytes).map_err(|_| FileFault::NotToml)?;
    let table = match toml::table_from_str(alloc, text) {
        Ok(table) => table,
        Err(fault) if fault.is_memory() => return Err(FileFault::Memory),
        Err(_) => return Err(FileFault::NotToml),
    };
    let stated = integer(&table, 0, Field::Version)?;
    let version = within(stated, 1, 2, FileFault::Version)?;
    let settings = read_settings(&table)?;
    let mut logs = Vec::new(alloc);
    for _ in 0..settings.processors() {
        logs.push(Vec::new(alloc)).ok().ok_or(FileFault::Memory)?;
    }
    add_entries(&mut logs, version, &table)?;
    let slots = settings.slots();
    for i in 0..logs.len() {
        close_log(&mut logs[i], slots)?;
    }
    match Script::new(settings, logs) {
        Ok(script) => Ok(script),
        Err(_) => unreachable!(),
    }
}

// Adds the entry that closes a log, if its last floor is below the number of slots.
fn close_log(log: &mut Vec<Entry>, slots: u64) -> Result<(), AllocError>
    requires { slots ≤ Settings.MAX_SLOTS }
    ensures { OnOk result (log.new.items ≡ closed slots log.old.items) }
{
    if log.last().is_none_or(|entry| entry.floor() < slots) {
        let Ok(entry) = Entry::new(slots, None) else {
            unreachable!()
        };
        log.push(entry)?;
    }
    Ok(())
}

// Reads the settings of the run, or the first fault of their keys.
fn read_settings(table: &Table) -> Result<Settings, FileFault>
    ensures { result ≡ settings_of (table_view table.now) }
{
    let most = Settings::MAX_PROCESSORS as u64;
    let processors = number(table, 0, Field::Processors, 1, most)?;
    let frame = number(table, 0, Field::Frame, 1, Settings::MAX_FRAME)?;
    let slots = number(table, 0, Field::Slots, 1, Settings::MAX_SLOTS)?;
    match Settings::new(processors as u8, frame, slots) {
        Some(settings) => Ok(settings),
        None => unreachable!(),
    }
}
