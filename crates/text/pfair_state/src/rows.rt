//! The rows of a text, each read.
#![tactic(auto, using(crate::proofs::Spelled::whole_fields))]

ghost use Rattle.std.specs.Prelude.{◌≡◌, List, map, slice_get, ◌<◌, ◌^◌, Some, IfSome, Option, ℕ};
ghost use Rattle.std.specs.List.{AllByRecursion};
ghost use Rattle.pfair_text.specs.Rows.{lines_text};
ghost use Rattle.pfair_state.specs.Reading.{IsReadAs, IsSpelled, fields_of, first_fields, late_fields, member_fields, ran_fields};
ghost use Rattle.pfair_state.specs.declared.rows.Row.{Row};
ghost use Rattle.pfair_entry_row.specs.Row.{parts};
ghost use Rattle.pfair_state.specs.Rows.{slot_field};
ghost use Rattle.pfair_state.specs.declared.rows.FirstRow.{FirstRow};
ghost use Rattle.pfair_state.specs.declared.rows.LateRow.{LateRow};
ghost use Rattle.pfair_state.specs.declared.rows.MemberRow.{MemberRow};
ghost use Rattle.pfair_state.specs.declared.rows.Row.TheVariants.{First, Member, Late, Ran};
ghost use Rattle.pfair_table.specs.declared.slot.Pick.{Pick};

use crate::fault::{ReadFault, no_row};
use pfair_entry_row::{cut, is_dash, read_number, read_truth};
use pfair_table::Pick;
use pfair_weight::{TaskName, Weight};
use std::alloc::{AllocError, Global};

/// The rows of a text, each of which ends with a newline.
pub(crate) fn read_rows(alloc: Global, text: &[u8]) -> Result<Vec<Row>, ReadFault>
    ensures { (rows : List Row) → AllByRecursion IsSpelled rows → text.now ≡ lines_text (map fields_of rows) →
        IsReadAs result (λ read. read.items ≡ rows) }
{
    let mut rows = Vec::new(alloc);
    let mut rest = text;
    while let Some((line, behind)) = cut(rest, b'\n') {
        let Some(row) = read_row(line) else {
            return Err(no_row(rows.len()));
        };
        if let Err(error) = rows.push(row) {
            return Err(AllocError::from(error).into());
        }
        rest = behind;
    }
    if rest.is_empty() {
        Ok(rows)
    } else {
        Err(no_row(rows.len()))
    }
}

pub(crate) fn row_at(rows: &[Row], at: usize) -> Option<Row>
    ensures { result ≡ slice_get rows.now at }
{
    rows.get(at).copied()
}

#[derive(Clone, Copy)]
pub(crate) enum Row {
    First(FirstRow),
    Member(MemberRow),
    Late(LateRow),
    Ran(Pick, u8),
    /// The last row, with the number of all.
    End(u64),
}

/// The row of the form of the rows, the slot, the processors and the frame.
#[derive(Clone, Copy)]
pub(crate) struct FirstRow {
    pub form: u64,
    pub slot: u64,
    pub processors: u8,
    pub frame: u64,
}

/// The row of a member, without its late releases.
#[derive(Clone, Copy)]
pub(crate) struct MemberRow {
    pub name: TaskName,
    pub weight: Weight,
    pub early: bool,
    pub joined: u64,
    pub next: u64,
    pub freed_at: Option<u64>,
}

/// The row of a late release of a task.
#[derive(Clone, Copy)]
pub(crate) struct LateRow {
    pub name: TaskName,
    pub index: u64,
    pub by: u64,
}

fn read_row(line: &[u8]) -> Option<Row>
    ensures { (row : Row) → IsSpelled row → parts line.now ≡ fields_of row → result ≡ Some row }
{
    let (word, fields) = cut(line, b',')?;
    match word {
        b"state" => Some(Row::First(read_first(fields)?)),
        b"member" => Some(Row::Member(read_member(fields)?)),
        b"late" => Some(Row::Late(read_late(fields)?)),
        b"ran" => read_ran(fields),
        b"end" => Some(Row::End(read_number(fields)?)),
        _ => None,
    }
}

fn read_first(fields: &[u8]) -> Option<FirstRow>
    ensures { (row : FirstRow) → IsSpelled (First row) → parts fields.now ≡ first_fields row → result ≡ Some row }
{
    let (form, rest) = cut(fields, b',')?;
    let (slot, rest) = cut(rest, b',')?;
    let (processors, frame) = cut(rest, b',')?;
    Some(FirstRow {
        form: read_number(form)?,
        slot: read_number(slot)?,
        processors: u8::try_from(read_number(processors)?).ok()?,
        frame: read_number(frame)?,
    })
}

fn read_member(fields: &[u8]) -> Option<MemberRow>
    ensures { (row : MemberRow) → IsSpelled (Member row) → parts fields.now ≡ member_fields row → result ≡ Some row }
{
    let (name, rest) = cut(fields, b',')?;
    let (cost, rest) = cut(rest, b',')?;
    let (period, rest) = cut(rest, b',')?;
    let (early, rest) = cut(rest, b',')?;
    let (joined, rest) = cut(rest, b',')?;
    let (next, freed_at) = cut(rest, b',')?;
    Some(MemberRow {
        name: TaskName::from_bytes(name).ok()?,
        weight: Weight::new(read_number(cost)?, read_number(period)?).ok()?,
        early: read_truth(early)?,
        joined: read_number(joined)?,
        next: read_number(next)?,
        freed_at: read_slot(freed_at)?,
    })
}

fn read_slot(field: &[u8]) -> Option<Option<u64>>
    ensures { (slot : Option ℕ) → IfSome slot (λ t. t < 2 ^ 64) → field.now ≡ slot_field slot → result ≡ Some slot }
{
    if is_dash(field) {
        return Some(None);
    }
    Some(Some(read_number(field)?))
}

fn read_late(fields: &[u8]) -> Option<LateRow>
    ensures { (row : LateRow) → IsSpelled (Late row) → parts fields.now ≡ late_fields row → result ≡ Some row }
{
    let (name, rest) = cut(fields, b',')?;
    let (index, by) = cut(rest, b',')?;
    Some(LateRow {
        name: TaskName::from_bytes(name).ok()?,
        index: read_number(index)?,
        by: read_number(by)?,
    })
}

fn read_ran(fields: &[u8]) -> Option<Row>
    ensures { (pick : Pick) → (place : ℕ) → IsSpelled (Ran pick place) → parts fields.now ≡ ran_fields pick place →
        result ≡ Some (Ran pick place) }
{
    let (name, rest) = cut(fields, b',')?;
    let (index, place) = cut(rest, b',')?;
    let pick = Pick {
        name: TaskName::from_bytes(name).ok()?,
        index: read_number(index)?,
    };
    Some(Row::Ran(pick, u8::try_from(read_number(place)?).ok()?))
}
