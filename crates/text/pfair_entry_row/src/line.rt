//! What the fields of a row say, whether or not a rule of entries refuses it.
ghost use Rattle.std.specs.Prelude.{◌≡◌, ◌↔◌, IsTrue, MatchOption, option_map, ◌≢◌, ◌<◌, [], ◌∷◌, length, IfSome, ◌^◌, ℕ, Bool};
ghost use Rattle.pfair_entry.specs.Notice.{noticed};
ghost use Rattle.pfair_entry_row.specs.Row.{entry_row, IsSayable, HasNoComma, HasNone, dash, truth, SaysNothing, parts, parts_at, texts};
ghost use Rattle.pfair_entry_row.specs.Line.{logged, AreDashes, HasNoOthers, Announces, AnnouncesNothing, Notes, NotesNothing};
ghost use Rattle.std.specs.Fmt.{decimal};

use itoa::Buffer;
use pfair_entry::{Change, ChangeFields, Kind, Notice};

/// What the fields of a row hold.
#[derive(Clone, Copy)]
pub(crate) struct Line<'a> {
    pub(crate) processor: u64,
    pub(crate) number: u64,
    pub(crate) floor: u64,
    pub(crate) notice: Option<Notice<'a>>,
}

/// What a row says, if it says something.
pub(crate) fn read_line(row: &[u8]) -> Option<Line<'_>>
    ensures { MatchOption result (SaysNothing row.now)
        (λ l. IsSayable l.processor l.number (logged l) × (row.now ≡ entry_row l.processor l.number (logged l))) }
{
    let fields = cut_fields(row)?;
    Some(Line {
        processor: read_number(fields.processor)?,
        number: read_number(fields.number)?,
        floor: read_number(fields.floor)?,
        notice: read_notice(&fields)?,
    })
}

// What is announced, if something is.
fn read_notice<'a>(fields: &Fields<'a>) -> Option<Option<Notice<'a>>>
    requires { HasNoComma fields.now.name.now }
    ensures { MatchOption result (NotesNothing fields.now) (λ n. Notes fields.now (option_map noticed n)) }
{
    if is_dash(fields.kind) {
        return if are_dashes(fields) { Some(None) } else { None };
    }
    let change = read_change(fields)?;
    let at = read_number(fields.at)?;
    Some(Some(Notice {
        at,
        name: fields.name,
        change,
    }))
}

fn are_dashes(fields: &Fields<'_>) -> bool
    ensures { IsTrue result ↔ AreDashes fields.now }
{
    is_dash(fields.at)
        && is_dash(fields.name)
        && is_dash(fields.cost)
        && is_dash(fields.period)
        && is_dash(fields.early)
        && is_dash(fields.index)
        && is_dash(fields.by)
}

// What a kind announces by its own fields, if the others are dashes.
fn read_change(fields: &Fields<'_>) -> Option<Change>
    requires { HasNoComma fields.now.name.now }
    ensures { MatchOption result (AnnouncesNothing fields.now) (Announces fields.now) }
{
    let kind = Kind::named(fields.kind)?;
    if !has_no_others(fields, kind) {
        return None;
    }
    let read = ChangeFields {
        cost: read_number(fields.cost).ok_or(()),
        period: read_number(fields.period).ok_or(()),
        early: read_truth(fields.early).ok_or(()),
        index: read_number(fields.index).ok_or(()),
        by: read_number(fields.by).ok_or(()),
    };
    read.change(kind).ok()
}

// Whether dashes stand in the fields that a kind doesn't have.
fn has_no_others(fields: &Fields<'_>, kind: Kind) -> bool
    ensures { IsTrue result ↔ HasNoOthers kind fields.now }
{
    let has_no_weight = is_dash(fields.cost) && is_dash(fields.period) && is_dash(fields.early);
    let has_no_delay = is_dash(fields.index) && is_dash(fields.by);
    match kind {
        Kind::Arrive => has_no_delay,
        Kind::Depart => has_no_weight && has_no_delay,
        Kind::Late => has_no_weight,
    }
}

/// What stands between the commas of a row.
#[derive(Clone, Copy)]
pub(crate) struct Fields<'a> {
    pub(crate) processor: &'a [u8],
    pub(crate) number: &'a [u8],
    pub(crate) floor: &'a [u8],
    pub(crate) at: &'a [u8],
    pub(crate) kind: &'a [u8],
    pub(crate) name: &'a [u8],
    pub(crate) cost: &'a [u8],
    pub(crate) period: &'a [u8],
    pub(crate) early: &'a [u8],
    pub(crate) index: &'a [u8],
    pub(crate) by: &'a [u8],
}

fn cut_fields(row: &[u8]) -> Option<Fields<'_>>
    ensures { MatchOption result (length (parts row.now) ≢ 11) (λ fields. HasNoComma fields.name.now × (parts row.now ≡ texts fields)) }
{
    let (processor, rest) = cut(row, b',')?;
    let (number, rest) = cut(rest, b',')?;
    let (floor, rest) = cut(rest, b',')?;
    let (at, rest) = cut(rest, b',')?;
    let (kind, rest) = cut(rest, b',')?;
    let (name, rest) = cut(rest, b',')?;
    let (cost, rest) = cut(rest, b',')?;
    let (period, rest) = cut(rest, b',')?;
    let (early, rest) = cut(rest, b',')?;
    let (index, by) = cut(rest, b',')?;
    if cut(by, b',').is_some() {
        return None;
    }
    Some(Fields {
        processor,
        number,
        floor,
        at,
        kind,
        name,
        cost,
        period,
        early,
        index,
        by,
    })
}

/// Returns what is before the first separator of a text and what is after it, if it has one. O(bytes).
pub fn cut(text: &[u8], separator: u8) -> Option<(&[u8], &[u8])>
    ensures parts { MatchOption result (parts_at separator text.now ≡ text.now ∷ [])
        (λ p. HasNone separator p.0.now × (parts_at separator text.now ≡ p.0.now ∷ parts_at separator p.1.now)) }
    ensures less { IfSome result (λ p. length p.1.now < length text.now) }
{
    let at = text.iter().position(|byte| *byte == separator)?;
    Some((&text[..at], &text[at + 1..]))
}

/// Returns the number that a field is the text of, without leading zeros, if it is one of 64 bits.
pub fn read_number(field: &[u8]) -> Option<u64>
    ensures { MatchOption result ((n : ℕ) → n < 2 ^ 64 → field.now ≢ decimal n) (λ n. (n < 2 ^ 64) × (field.now ≡ decimal n)) }
{
    let number: u64 = str::from_utf8(field).ok()?.parse().ok()?;
    (Buffer::new().format(number).as_bytes() == field).then_some(number)
}

/// Returns the truth that a field is the word of, if it is one.
pub fn read_truth(field: &[u8]) -> Option<bool>
    ensures { MatchOption result ((b : Bool) → field.now ≢ truth b) (λ b. field.now ≡ truth b) }
{
    match field {
        b"true" => Some(true),
        b"false" => Some(false),
        _ => None,
    }
}

/// Returns whether a field stands for nothing.
pub fn is_dash(field: &[u8]) -> bool
    ensures { IsTrue result ↔ (field.now ≡ dash) }
{
    field == b"-".as_slice()
}
