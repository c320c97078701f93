//! The entries of a task file: each table makes one.
ghost use Rattle.std.specs.Prelude.{◌≡◌, ◌≢◌, ◌≤◌, All, IfErr, OnOk, Ok, Err, is_some, vec_len, option_map};
ghost use Rattle.std.specs.List.{list_all};
ghost use Rattle.toml.specs.Data.{as_table};
ghost use Rattle.toml.specs.View.{table_view, view};
ghost use Rattle.pfair_table.specs.Script.{lists_of};
ghost use Rattle.pfair_file.specs.Documents.{with_entry, entries_at};
ghost use Rattle.pfair_file.specs.declared.fault.FileFault.TheVariants.{Memory};
ghost use Rattle.pfair_file.specs.Tables.{early_at, kind_at, notice_at};
ghost use Rattle.std.specs.Result.{result_map_both};
ghost use Rattle.pfair_entry.specs.Notice.{noticed};

use crate::fault::FileFault;
use crate::field::{Field, find, natural_number, number, text};
use pfair_entry::{ChangeFields, Entry, Kind, Notice, NoticeFault, checked_entry};
use pfair_table::{Script, Settings};
use toml::{Table, Value};

// Adds the entry of one table to the log of its processor.
fn add_entry(
    logs: &mut Vec<Vec<Entry>>,
    place: u64,
    version: u64,
    table: &Table,
) -> Result<(), FileFault>
    requires some { 1 ≤ vec_len logs.old }
    requires few { vec_len logs.old ≤ Settings.MAX_PROCESSORS }
    requires short { All (λ log. vec_len log ≤ MOST_ENTRIES) logs.old.items }
    ensures ok { OnOk result (with_entry version place (lists_of logs.old.items) (table_view table.now) ≡ Ok (lists_of logs.new.items)) }
    ensures fault { IfErr result (λ f. f ≢ Memory → with_entry version place (lists_of logs.old.items) (table_view table.now) ≡ Err f) }
    ensures same { vec_len logs.new ≡ vec_len logs.old }
    ensures short { All (λ log. vec_len log ≤ MOST_ENTRIES) logs.new.items }
{
    let last = logs.len() as u64 - 1;
    let processor = number(table, place, Field::Processor, 0, last)?;
    let floor = natural_number(table, place, Field::Floor)?;
    let notice = read_notice(table, place, version)?;
    let log = &mut logs[processor as usize];
    let made = if log.len() >= MOST_ENTRIES {
        Err(NoticeFault::LogFull)
    } else {
        checked_entry(floor, notice)
    };
    match made {
        Ok(entry) => log.push(entry).ok().ok_or(FileFault::Memory),
        Err(cause) => Err(FileFault::Entry {
            proc: processor as u8,
            number: log.len() as u32 + 1,
            cause,
        }),
    }
}

fn are_tables(items: &[Value]) -> bool
    ensures { result ≡ list_all (λ v. is_some (as_table (view v))) items.now }
{
    items.iter().all(|value| value.as_table().is_some())
}

/// Adds the entries of a file.
pub fn add_entries(logs: &mut Vec<Vec<Entry>>, version: u64, table: &Table) -> Result<(), FileFault>
    requires some { 1 ≤ vec_len logs.old }
    requires few { vec_len logs.old ≤ Settings.MAX_PROCESSORS }
    requires short { All (λ log. vec_len log ≤ MOST_ENTRIES) logs.old.items }
    ensures ok { OnOk result (entries_at version (lists_of logs.old.items) (table_view table.now) ≡ Ok (lists_of logs.new.items)) }
    ensures fault { IfErr result (λ f. f ≢ Memory → entries_at version (lists_of logs.old.items) (table_view table.now) ≡ Err f) }
    ensures same { vec_len logs.new ≡ vec_len logs.old }
    ensures short { All (λ log. vec_len log ≤ MOST_ENTRIES) logs.new.items }
{
    let field = Field::Entries;
    let no_table = FileFault::WrongKind { place: 0, field };
    let Some(value) = find(table, field) else {
        return Ok(());
    };
    let items = value.as_array().ok_or(no_table)?.as_slice();
    if !are_tables(items) {
        return Err(no_table);
    }
    for (i, value) in items.iter().enumerate() {
        let Some(table) = value.as_table() else {
            return Err(no_table);
        };
        add_entry(logs, i as u64 + 1, version, table)?;
    }
    Ok(())
}

/// The most entries that a file can hold of one processor: one less than a log has, which the file's
/// end closes.
pub(crate) const MOST_ENTRIES: usize = Script::LONGEST_LOG - 1;

// Reads the announcement of a table, if it has a kind, or the first fault of its keys.
fn read_notice(table: &Table, place: u64, version: u64) -> Result<Option<Notice<'_>>, FileFault>
    ensures { result_map_both (option_map noticed) (λ e. e) result ≡ notice_at version place (table_view table.now) }
{
    let Some(kind) = read_kind(table, place)? else {
        return Ok(None);
    };
    let at = natural_number(table, place, Field::At)?;
    let name = text(table, place, Field::Name)?.as_bytes();
    let fields = ChangeFields {
        cost: natural_number(table, place, Field::Cost),
        period: natural_number(table, place, Field::Period),
        early: read_early(table, place, version),
        index: natural_number(table, place, Field::Index),
        by: natural_number(table, place, Field::By),
    };
    let change = fields.change(kind)?;
    Ok(Some(Notice { at, name, change }))
}

// The kind of a table, if it has one.
fn read_kind(table: &Table, place: u64) -> Result<Option<Kind>, FileFault>
    ensures { result ≡ kind_at place (table_view table.now) }
{
    let field = Field::Kind;
    let Some(value) = find(table, field) else {
        return Ok(None);
    };
    let name = value.as_str().ok_or(FileFault::WrongKind { place, field })?;
    let kind = Kind::named(name.as_bytes()).ok_or(FileFault::Range { place, field })?;
    Ok(Some(kind))
}

// Whether a task that arrives may run early: never in version 1.
fn read_early(table: &Table, place: u64, version: u64) -> Result<bool, FileFault>
    ensures { result ≡ early_at version place (table_view table.now) }
{
    let field = Field::Early;
    match find(table, field) {
        Some(value) if version >= 2 => value.as_bool().ok_or(FileFault::WrongKind { place, field }),
        _ => Ok(false),
    }
}
