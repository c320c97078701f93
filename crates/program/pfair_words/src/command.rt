//! What the command lines of both programs are made of, and how words are read by them.
#![tactic(auto, using(crate::proofs::LineFacts::by_rows))]

ghost use Rattle.std.specs.Prelude.{◌≡◌, IfOk, Ok, false, ◌⊎◌, ℕ, MatchResult, None, Some, codes, string_bytes, true};
ghost use Rattle.clap.specs.Words.{AddsSubcommand, new_app, rule_of, app_of, first_of, found_of, is_simple_and_free, rows_of, with_rule};
ghost use Rattle.pfair_words.specs.Parse as line;
ghost use Rattle.clap.specs.Walk.{one_of};
ghost use Rattle.pfair_words.specs.Parse.{IsFlag, IsNumber, IsParsed, IsTextIfAny, texts};
ghost use Rattle.pfair_file.specs.declared.program_fault.ProgramFault.TheVariants.{CommandLine, Memory};

use clap::error::ErrorKind;
use clap::{Arg, ArgAction, ArgMatches, Command};
use pfair_file::ProgramFault;
use std::alloc::{AllocError, Global};

// The version of both programs, which `--version` prints after the name.
const VERSION: &str = "0.6.0";

/// What help says of the flag by which rows get their places.
pub(crate) const AFFINITY_HELP: &str = "End each row with its place, the processor that runs it";

/// What help says of a program or of a command.
#[derive(Clone, Copy)]
pub(crate) struct Texts {
    pub(crate) about: &'static str,
    pub(crate) usage: &'static str,
    pub(crate) after: &'static str,
}

/// A program without its commands: no name stands before its words, and a command has to be named.
pub(crate) fn program<'a>(
    alloc: Global,
    name: &'a str,
    about: &'a str,
    after: &'a str,
) -> Result<Command<'a>, AllocError>
    ensures { IfOk result (line.IsRead (line.program name.now)) }
{
    Command::new(alloc, name)
        .version(VERSION)
        .disable_version_flag(true)
        .about(about)
        .after_help(after)
        .no_binary_name(true)
        .subcommand_required(true)
        .disable_help_subcommand(true)
        .arg(version(alloc))
}

// The flag that `clap` would add has a short form too.
fn version<'a>(alloc: Global) -> Arg<'a>
    ensures rule { rule_of result ≡ line.version }
    ensures here { result.global ≡ false }
{
    Arg::new(alloc, "version")
        .long("version")
        .help("Print name and version")
        .action(ArgAction::Version)
}

pub(crate) fn with<'a>(
    program: Command<'a>,
    command: Result<Command<'a>, AllocError>,
) -> Result<Command<'a>, AllocError>
    ensures { IfOk result (λ r. (c : _) × (command.entry ≡ Ok c) × AddsSubcommand program.entry c r) }
{
    program.subcommand(command?)
}

pub(crate) fn command<'a>(alloc: Global, name: &'a str, texts: Texts) -> Command<'a>
    ensures { line.IsRead (new_app name.now) result }
{
    Command::new(alloc, name)
        .about(texts.about)
        .override_usage(texts.usage)
        .after_help(texts.after)
}

/// A command over a task file, without its flags.
pub(crate) fn over_file<'a>(
    alloc: Global,
    name: &'a str,
    texts: Texts,
) -> Result<Command<'a>, AllocError>
    ensures { IfOk result (line.IsRead (with_rule (new_app name.now) line.file)) }
{
    let file = Arg::new(alloc, "file")
        .value_name("FILE")
        .help("Task file: TOML, at most 67108864 bytes")
        .required(true);
    command(alloc, name, texts).arg(file)
}

pub(crate) fn flag<'a>(alloc: Global, name: &'a str, help: &'a str) -> Arg<'a>
    ensures rule { rule_of result ≡ line.flag name.now }
    ensures here { result.global ≡ false }
{
    Arg::new(alloc, name)
        .long(name)
        .help(help)
        .action(ArgAction::SetTrue)
}

/// What words that the parser takes ask for.
#[derive(Drop)]
pub(crate) enum Parsed<'a> {
    /// A command.
    Matches(ArgMatches<'a>),
    /// A text about the program: how it is used, or its name and version.
    Help(String),
}

/// Reads the words after the program's name by its command line.
///
/// # Errors
/// [`ProgramFault::CommandLine`] if the parser refuses them, and [`ProgramFault::Memory`] if an
/// allocation fails.
pub(crate) fn parse<'a>(
    alloc: Global,
    command: Command<'a>,
    words: &'a [String],
) -> Result<Parsed<'a>, ProgramFault>
    requires { is_simple_and_free (app_of command) ≡ true }
    ensures { IsParsed (app_of command.entry) (texts words.now) result }
{
    match command.try_get_matches_from(words) {
        Ok(matches) => Ok(Parsed::Matches(matches)),
        Err(error) => match error.kind() {
            ErrorKind::DisplayHelp | ErrorKind::DisplayVersion => {
                Ok(Parsed::Help(error.to_string(alloc)?))
            }
            ErrorKind::OutOfMemory => Err(ProgramFault::Memory),
            _ => Err(ProgramFault::CommandLine),
        },
    }
}

/// The name of the task file.
pub(crate) fn file_name(alloc: Global, words: &ArgMatches<'_>) -> Result<String, ProgramFault>
    ensures { MatchResult result
        (λ name. first_of (codes "file") (rows_of (found_of words.now)) ≡ Some (string_bytes name))
        (λ e. (e ≡ Memory) ⊎ ((e ≡ CommandLine) × (first_of (codes "file") (rows_of (found_of words.now)) ≡ None))) }
{
    text_if_any(alloc, words, "file")?.ok_or(ProgramFault::CommandLine)
}

/// The word under a name, if there is one.
pub(crate) fn text_if_any(
    alloc: Global,
    words: &ArgMatches<'_>,
    name: &str,
) -> Result<Option<String>, AllocError>
    ensures { IfOk result (IsTextIfAny (rows_of (found_of words.now)) name.now) }
{
    match words.get_str(name) {
        Some(word) => Ok(Some(String::from_str(alloc, word)?)),
        None => Ok(None),
    }
}

/// The number under a name.
pub(crate) fn number(words: &ArgMatches<'_>, name: &str) -> Result<u64, ProgramFault>
    ensures { MatchResult result
        (IsNumber (rows_of (found_of words.now)) name.now)
        (λ e. (e ≡ CommandLine) × ((n : ℕ) → ¬ IsNumber (rows_of (found_of words.now)) name.now n)) }
{
    words.get_one::<u64>(name).ok_or(ProgramFault::CommandLine)
}

pub(crate) fn is_set(words: &ArgMatches<'_>, name: &str) -> bool
    ensures { IsFlag (one_of name.now (rows_of (found_of words.now))) result }
{
    words.get_flag(name)
}
