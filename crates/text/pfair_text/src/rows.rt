//! The text of a table, made row by row by a CSV writer in memory, then sent to a writer.
ghost use Rattle.std.specs.Prelude.{◌≡◌, ◌<◌, ◌++◌, [], length, map, IsTrue, OnOk, IfOk, OnErr};
ghost use Rattle.std.specs.List.{list_all};
ghost use Rattle.csv.specs.Writing.{writer_pending};
ghost use Rattle.pfair_text.specs.Rows.{is_plain, IsOpen, line, text_so_far, TakesPrefix};
ghost use Rattle.std.specs.Io.KnownBytes.{Appends};

use csv::{Writer, WriterBuilder};
use std::alloc::{AllocError, Global};
use std::io::Write;

/// Creates an empty text, to which rows are added, of any numbers of fields.
pub fn new_text(alloc: Global) -> Writer<Vec<u8>>
    ensures open { IsOpen result }
    ensures text { text_so_far result ≡ [] }
    ensures sent { writer_pending result ≡ [] }
{
    WriterBuilder::new()
        .flexible(true)
        .from_writer(Vec::new(alloc))
}

/// Adds a line of fields, with commas between and a newline at the end.
///
/// There is at least one field, and each is plain: not empty, with no comma, quote or line break,
/// so that it is written as it is. O(bytes) amortized.
///
/// # Errors
/// Returns [`AllocError`] if an allocation fails; the text is then not to be used any more.
pub fn add_row(writer: &mut Writer<Vec<u8>>, fields: &[&[u8]]) -> Result<(), AllocError>
    requires open { IsOpen writer.old }
    requires some { 0 < length fields.now }
    requires plain { IsTrue (list_all is_plain (map (λ f. f.now) fields.now)) }
    ensures open { OnOk result (IsOpen writer.new) }
    ensures text { OnOk result (text_so_far writer.new ≡ text_so_far writer.old ++ line (map (λ f. f.now) fields.now)) }
{
    match writer.write_fields(fields) {
        Ok(()) => Ok(()),
        Err(_) => Err(AllocError),
    }
}

/// Returns the whole text.
///
/// # Errors
/// Returns [`AllocError`] if an allocation fails.
pub fn finish(writer: Writer<Vec<u8>>) -> Result<Vec<u8>, AllocError>
    ensures { IfOk result (λ text. text.items ≡ text_so_far writer) }
{
    match writer.into_inner() {
        Ok(text) => Ok(text),
        Err(_) => Err(AllocError),
    }
}

/// A writer answered an error, or took none of a piece that isn't empty.
#[derive(Clone, Copy, Debug, PartialEq, Eq)]
pub struct WriteFailed;

/// Sends a text in as many calls of `write` as the writer takes.
///
/// At `Ok` the writer has gained the whole text. O(bytes), beside the writer's own cost; it allocates
/// nothing.
///
/// # Errors
/// Returns [`WriteFailed`] at the first error of the writer, whatever its kind, or if the writer takes
/// nothing of a piece; a prefix of the text has then gone out.
pub fn send<W: Write>(writer: &mut W, text: &[u8]) -> Result<(), WriteFailed>
    ensures ok { OnOk result (Appends (W.contents writer.old) (W.contents writer.new) text.now) }
    ensures failed { OnErr result (TakesPrefix (W.contents writer.old) (W.contents writer.new) text.now) }
{
    let mut sent = 0;
    'pieces: while sent < text.len() {
        match writer.write(&text[sent..]) {
            Ok(0) | Err(_) => return Err(WriteFailed),
            Ok(taken) => sent += taken,
        }
    }
    Ok(())
}
