//! What a program is given: its words, and the task file that it reads.
ghost use Rattle.std.specs.Prelude.{◌≡◌, ◌⊎◌, IfErr, alloc_error, Ok, IfOk, IfSome, ◌≤◌, ◌<◌, length, IsErrOf, OnOk};
ghost use Rattle.pfair_file.specs.ProgramFaults.{TakesOneFile, HasTaken};
ghost use Rattle.pfair_file.specs.Documents.{script_of_file, IsRefusalOf};
ghost use Rattle.pfair_file.specs.declared.program_fault.ProgramFault.TheVariants.{ReadFailed, Memory, FileTooLong};
ghost use Rattle.std.specs.Io.KnownBytes.{Consumes, IsAtEnd};

use crate::document::read_file;
use crate::program_fault::ProgramFault;
use pfair_table::Script;
use std::alloc::{AllocError, AllocGlobal, Global};
use std::fs::{File, Files};
use std::io::{ErrorKind, Read};
use std::rt::Env;

/// Returns the words after the program's name.
///
/// # Errors
/// `no_text` if a word is no text, and what a failed allocation makes of the fault's type if an
/// allocation fails.
pub fn given_words<P: Env + AllocGlobal, F: From<AllocError> + Drop>(
    rt: &P,
    no_text: F,
) -> Result<Vec<String>, F>
    ensures { IfErr result (λ e. (e ≡ no_text) ⊎ F.from_gives alloc_error e) }
{
    match std::env::args(rt) {
        Ok(args) => Ok(args.skip(1).collect(rt.alloc())?),
        Err(error) if error.kind() == ErrorKind::OutOfMemory => Err(F::from(AllocError)),
        Err(_) => Err(no_text),
    }
}

/// Opens a task file for reading.
///
/// # Errors
/// [`ProgramFault::Memory`] if an allocation fails, else [`ProgramFault::ReadFailed`].
pub fn opened<P: Files>(rt: &P, file: &str) -> Result<P::File, ProgramFault>
    ensures { IfErr result (λ e. (e ≡ ReadFailed) ⊎ (e ≡ Memory)) }
{
    match File::open(rt, file) {
        Ok(reader) => Ok(reader),
        Err(error) if error.kind() == ErrorKind::OutOfMemory => Err(ProgramFault::Memory),
        Err(_) => Err(ProgramFault::ReadFailed),
    }
}

/// Returns the script that a reader's bytes hold. No more than 67,108,864 bytes are taken from the
/// reader, or one more if the file is too long or an allocation fails. The cost is that of reading
/// all bytes, and of [`read_file`].
///
/// # Errors
/// [`ProgramFault::ReadFailed`] if the reader answers an error, [`ProgramFault::FileTooLong`]
/// if more than 67,108,864 bytes come, [`ProgramFault::File`] with the first fault of the file,
/// and [`ProgramFault::Memory`] if an allocation fails.
pub fn read_script<R: Read>(alloc: Global, reader: &mut R) -> Result<Script, ProgramFault>
    ensures ok { IfOk result (λ s. IfSome (R.remaining reader.old) (λ bytes. script_of_file bytes ≡ Ok s)) }
    ensures refused { IfErr result (IsRefusalOf (R.remaining reader.old)) }
    ensures taken { TakesOneFile result (R.remaining reader.old) (R.remaining reader.new) }
{
    let bytes = read_bytes(alloc, reader)?;
    Ok(read_file(alloc, bytes.as_slice())?)
}

/// The most bytes that a file may have.
pub const LONGEST_FILE: usize = 67_108_864;

// How many bytes are asked for at once.
const PIECE: usize = 8192;

/// Returns all bytes of a reader.
///
/// At most one byte more than the longest file has is read, whatever the answer, so the call ends
/// whatever the reader gives. Takes time and memory in proportion to the bytes that come.
///
/// # Errors
/// [`ProgramFault::FileTooLong`] only if more than [`LONGEST_FILE`] bytes came,
/// [`ProgramFault::ReadFailed`] if the reader answered an error, at once and whatever its kind, and
/// [`ProgramFault::Memory`] if an allocation fails.
pub fn read_bytes<R: Read>(alloc: Global, reader: &mut R) -> Result<Vec<u8>, ProgramFault>
    ensures short { IfOk result (λ bytes. length bytes.items ≤ 67108864) }
    ensures whole { IfOk result (λ bytes. Consumes (R.remaining reader.old) (R.remaining reader.new) bytes.items) }
    ensures end { IfOk result (λ _. IsAtEnd (R.remaining reader.new)) }
    ensures long { IsErrOf result FileTooLong → HasTaken (R.remaining reader.old) (R.remaining reader.new) (λ n. n ≡ 67108865) }
    ensures failed { IsErrOf result ReadFailed → HasTaken (R.remaining reader.old) (R.remaining reader.new) (λ n. n ≤ 67108864) }
    ensures within { OnOk result (HasTaken (R.remaining reader.old) (R.remaining reader.new) (λ n. n ≤ 67108864)) }
    ensures only { IfErr result (λ e. (e ≡ FileTooLong) ⊎ (e ≡ ReadFailed) ⊎ (e ≡ Memory)) }
    ensures most { HasTaken (R.remaining reader.old) (R.remaining reader.new) (λ n. n ≤ 67108865) }
{
    let mut bytes = Vec::new(alloc);
    let mut piece = [0u8; PIECE];
    'pieces: while bytes.len() <= LONGEST_FILE {
        let room = PIECE.min(LONGEST_FILE + 1 - bytes.len());
        match reader.read(&mut piece[..room]) {
            Err(_) => return Err(ProgramFault::ReadFailed),
            Ok(0) => return Ok(bytes),
            Ok(count) => bytes.extend_from_slice(&piece[..count])?,
        }
    }
    Err(ProgramFault::FileTooLong)
}
