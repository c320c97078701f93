//! The keys of a task file, and the values at them.
ghost use Rattle.std.specs.Prelude.{◌≡◌, ok_or, option_map};
ghost use Rattle.pfair_file.specs.Keys.{key_of, integer_at, natural, natural_at, number_at, ranged, text_at, value_at};
ghost use Rattle.std.specs.Result.{result_map_both};
ghost use Rattle.toml.specs.Data.{get_member};
ghost use Rattle.toml.specs.View.{table_view, view};

use crate::fault::FileFault;
use std::fmt;
use toml::{Table, Value};

/// A key of the file, or of one of its entries. It is shown as it stands in the file.
#[derive(Clone, Copy, Debug, PartialEq, Eq)]
pub enum Field {
    /// `version`, of the file.
    Version,
    /// `processors`, of the file.
    Processors,
    /// `frame`, of the file, in slots.
    Frame,
    /// `slots`, of the file.
    Slots,
    /// `entry`, the file's array of tables.
    Entries,
    /// `processor`, of an entry, counted from 0.
    Processor,
    /// `floor`, of an entry, a slot.
    Floor,
    /// `kind`, of an entry that announces something.
    Kind,
    /// `at`, of an announcement, the slot of its stamp.
    At,
    /// `name`, of the task that is announced.
    Name,
    /// `cost`, of a task that arrives, in quanta.
    Cost,
    /// `period`, of a task that arrives, in slots.
    Period,
    /// `early`, of a task that arrives, from version 2 on.
    Early,
    /// `index`, of the first subtask that is late, counted from 1.
    Index,
    /// `by`, of late subtasks, in slots.
    By,
}

impl Field {
    // The key as it stands in the file.
    pub(crate) fn key(self) -> &'static str
        ensures { result.now ≡ key_of self }
    {
        match self {
            Field::Version => "version",
            Field::Processors => "processors",
            Field::Frame => "frame",
            Field::Slots => "slots",
            Field::Entries => "entry",
            Field::Processor => "processor",
            Field::Floor => "floor",
            Field::Kind => "kind",
            Field::At => "at",
            Field::Name => "name",
            Field::Cost => "cost",
            Field::Period => "period",
            Field::Early => "early",
            Field::Index => "index",
            Field::By => "by",
        }
    }
}

impl fmt::Display for Field {
    fn fmt<W: fmt::Write>(&self, f: &mut fmt::Formatter<W>) -> fmt::Result {
        f.write_str(self.key())
    }
}

/// Returns the value at a key, if there is one.
pub fn find(table: &Table, field: Field) -> Option<&Value>
    ensures { option_map (λ v. view v.now) result ≡ get_member (key_of field) (table_view table.now) }
{
    table.get(field.key())
}

fn value(table: &Table, place: u64, field: Field) -> Result<&Value, FileFault>
    ensures { result_map_both (λ v. view v.now) (λ e. e) result ≡ value_at (table_view table.now) place field }
{
    find(table, field).ok_or(FileFault::Missing { place, field })
}

/// Returns the integer at a key.
pub fn integer(table: &Table, place: u64, field: Field) -> Result<i64, FileFault>
    ensures { result ≡ integer_at (table_view table.now) place field }
{
    value(table, place, field)?
        .as_integer()
        .ok_or(FileFault::WrongKind { place, field })
}

/// Returns the text at a key.
pub fn text(table: &Table, place: u64, field: Field) -> Result<&str, FileFault>
    ensures { result_map_both (λ t. t.now) (λ e. e) result ≡ text_at (table_view table.now) place field }
{
    value(table, place, field)?
        .as_str()
        .ok_or(FileFault::WrongKind { place, field })
}

fn not_negative(value: i64, fault: FileFault) -> Result<u64, FileFault>
    ensures { result ≡ natural fault value }
{
    u64::try_from(value).ok().ok_or(fault)
}

/// Returns an integer from `low` to `high`, or the fault.
pub fn within(value: i64, low: u64, high: u64, fault: FileFault) -> Result<u64, FileFault>
    ensures { result ≡ ranged low high fault value }
{
    let number = not_negative(value, fault)?;
    if low <= number && number <= high {
        Ok(number)
    } else {
        Err(fault)
    }
}

/// Returns the number at a key, from `low` to `high`.
pub fn number(
    table: &Table,
    place: u64,
    field: Field,
    low: u64,
    high: u64,
) -> Result<u64, FileFault>
    ensures { result ≡ number_at (table_view table.now) place field low high }
{
    let value = integer(table, place, field)?;
    within(value, low, high, FileFault::Range { place, field })
}

/// Returns the number at a key, which isn't negative.
pub fn natural_number(table: &Table, place: u64, field: Field) -> Result<u64, FileFault>
    ensures { result ≡ natural_at (table_view table.now) place field }
{
    let value = integer(table, place, field)?;
    not_negative(value, FileFault::Range { place, field })
}
