//! The words of `pfair_follow`, and its command line, one level of commands.
#![tactic(auto, using(crate::proofs::LineFacts::by_rows))]

ghost use Rattle.std.specs.Prelude.{◌≡◌, ◌⊎◌, MatchResult, IfOk, false};
ghost use Rattle.clap.specs.Words.{found_of, rows_of, subcommand_rows_of, new_app, rule_of};
ghost use Rattle.pfair_words.specs.Parse.{texts, IsRead};
ghost use Rattle.pfair_words.specs.FollowAsked.{AskFeed, AskSettings, AskStart, AsksNoFeed, AsksNoSettings, AsksNoStart, IsAnswer, IsAnswerToAny};
ghost use Rattle.pfair_file.specs.declared.program_fault.ProgramFault.TheVariants.{CommandLine, Memory};
ghost use Rattle.pfair_words.specs.FollowAsked as line;

mod help;

use crate::command::{
    AFFINITY_HELP, Parsed, Texts, command, file_name, flag, is_set, number, over_file, parse,
    program, text_if_any, with,
};
use clap::builder::ValueParser;
use clap::{Arg, ArgMatches, Command};
use help::{
    ABOUT, AFTER, DECISIONS_TEXTS, ENTRIES_TEXTS, FRAME_HELP, FROM_HELP, LAGS_TEXTS,
    PROCESSORS_HELP, REPLAY_TEXTS, RESUME_HELP, SAVE_HELP, SLOTS_HELP, STRICT_HELP,
};
use pfair_file::ProgramFault;
use pfair_table::Settings;
use std::alloc::{AllocError, Global};

/// A run that is fed by rows of entries.
#[derive(Drop)]
pub struct Feed {
    /// Where it begins.
    pub start: Start,
    /// The first slot whose rows are written.
    pub from: u64,
    /// Whether the first row that is refused ends the run.
    pub is_strict: bool,
    /// The file that gets the state that the run leaves.
    pub save: Option<String>,
}

/// Where a run begins.
#[derive(Drop)]
pub enum Start {
    /// A first run, with these processors, frame and slots.
    First(Settings),
    /// A later run, with the state of a file.
    Later(Resumed),
}

/// A run that begins with the state of a file.
#[derive(Drop)]
pub struct Resumed {
    /// The file.
    pub file: String,
    /// Its slots.
    pub slots: u64,
    /// How many processors the state has to have, if that is said.
    pub processors: Option<u64>,
    /// The frame that the state has to have, if that is said.
    pub frame: Option<u64>,
}

/// What a command line asks for.
#[derive(Drop)]
pub enum Asked {
    /// The entries of a task file as rows.
    Entries { file: String },
    /// The tables of a run, and with `affinity` the place of each row.
    Replay { feed: Feed, affinity: bool },
    /// The admission decisions of a run.
    Decisions { feed: Feed },
    /// The lags of a run.
    Lags { feed: Feed },
    /// A text about the program: how it is used, or its name and version.
    Help { text: String },
}

/// Reads the words after the program's name.
///
/// `entries FILE` asks for the rows of the entries of that file, whatever its name is. `replay`,
/// `decisions` and `lags` ask for the rows of a run, with the options `--slots S`, 1 to 1,000,000,
/// `--processors M`, 1 to 64, and `--frame F`, 1 to 1,000,000,000. With `--resume FILE`, a run that
/// begins with that file's state, only `--slots` has to be there. `--save FILE`, `--from SLOT`, 0 to
/// 1,000,000 and 0 if it isn't given, and `--strict` may be there, and of `replay` `--affinity` too.
/// Options come in any order, each once. The clause cites `clap`'s own definitions, for any words.
///
/// # Errors
/// [`ProgramFault::CommandLine`] if a number isn't spelt as one or is out of its range, a word is
/// missing or surplus, the command is unknown, or there are no words. [`ProgramFault::Memory`] if an
/// allocation fails.
pub fn read_words(alloc: Global, words: &[String]) -> Result<Asked, ProgramFault>
    ensures { IsAnswer (texts words.now) result }
{
    match parse(alloc, command_line(alloc)?, words)? {
        Parsed::Matches(matches) => read_matches(alloc, &matches),
        Parsed::Help(text) => Ok(Asked::Help { text }),
    }
}

fn read_matches(alloc: Global, matches: &ArgMatches<'_>) -> Result<Asked, ProgramFault>
    ensures { IsAnswerToAny (subcommand_rows_of matches.now) result }
{
    let Some((name, words)) = matches.subcommand() else {
        return Err(ProgramFault::CommandLine);
    };
    if name == "entries" {
        let file = file_name(alloc, words)?;
        Ok(Asked::Entries { file })
    } else if name == "replay" {
        let affinity = is_set(words, "affinity");
        let feed = read_feed(alloc, words)?;
        Ok(Asked::Replay { feed, affinity })
    } else if name == "decisions" {
        let feed = read_feed(alloc, words)?;
        Ok(Asked::Decisions { feed })
    } else if name == "lags" {
        let feed = read_feed(alloc, words)?;
        Ok(Asked::Lags { feed })
    } else {
        Err(ProgramFault::CommandLine)
    }
}

fn read_feed(alloc: Global, words: &ArgMatches<'_>) -> Result<Feed, ProgramFault>
    ensures { MatchResult result (AskFeed (rows_of (found_of words.now)))
        (λ e. (e ≡ Memory) ⊎ ((e ≡ CommandLine) × AsksNoFeed (rows_of (found_of words.now)))) }
{
    let start = read_start(alloc, words)?;
    let from = number(words, "from")?;
    if from > Settings::MAX_SLOTS {
        return Err(ProgramFault::CommandLine);
    }
    let save = text_if_any(alloc, words, "save")?;
    Ok(Feed {
        start,
        from,
        is_strict: is_set(words, "strict"),
        save,
    })
}

fn read_start(alloc: Global, words: &ArgMatches<'_>) -> Result<Start, ProgramFault>
    ensures { MatchResult result (AskStart (rows_of (found_of words.now)))
        (λ e. (e ≡ Memory) ⊎ ((e ≡ CommandLine) × AsksNoStart (rows_of (found_of words.now)))) }
{
    match text_if_any(alloc, words, "resume")? {
        Some(file) => Ok(Start::Later(Resumed {
            file,
            slots: number(words, "slots")?,
            processors: words.get_one::<u64>("processors"),
            frame: words.get_one::<u64>("frame"),
        })),
        None => Ok(Start::First(read_settings(words)?)),
    }
}

fn read_settings(words: &ArgMatches<'_>) -> Result<Settings, ProgramFault>
    ensures { MatchResult result (AskSettings (rows_of (found_of words.now)))
        (λ e. (e ≡ CommandLine) × AsksNoSettings (rows_of (found_of words.now))) }
{
    let processors = number(words, "processors")?;
    let frame = number(words, "frame")?;
    let slots = number(words, "slots")?;
    let processors = u8::try_from(processors).map_err(|_| ProgramFault::CommandLine)?;
    Settings::new(processors, frame, slots).ok_or(ProgramFault::CommandLine)
}

fn command_line<'a>(alloc: Global) -> Result<Command<'a>, AllocError>
    ensures { IfOk result (IsRead line.line) }
{
    let follow = program(alloc, "pfair_follow", ABOUT, AFTER)?;
    let follow = with(follow, over_file(alloc, "entries", ENTRIES_TEXTS))?;
    let follow = with(follow, replay(alloc))?;
    let follow = with(follow, run(alloc, "decisions", DECISIONS_TEXTS))?;
    with(follow, run(alloc, "lags", LAGS_TEXTS))
}

fn replay<'a>(alloc: Global) -> Result<Command<'a>, AllocError>
    ensures { IfOk result (IsRead line.replay) }
{
    run(alloc, "replay", REPLAY_TEXTS)?.arg(flag(alloc, "affinity", AFFINITY_HELP))
}

// A command over a run, with its options.
fn run<'a>(alloc: Global, name: &'a str, texts: Texts) -> Result<Command<'a>, AllocError>
    ensures { IfOk result (IsRead (line.with_run (new_app name.now))) }
{
    with_settings(alloc, name, texts)?
        .arg(from(alloc))?
        .arg(flag(alloc, "strict", STRICT_HELP))?
        .arg(worded(alloc, "resume", RESUME_HELP))?
        .arg(worded(alloc, "save", SAVE_HELP))
}

// A command over a run, with the options of its settings alone.
fn with_settings<'a>(alloc: Global, name: &'a str, texts: Texts) -> Result<Command<'a>, AllocError>
    ensures { IfOk result (IsRead (line.with_settings (new_app name.now))) }
{
    let processors = Settings::MAX_PROCESSORS as u64;
    let slots = numbered(alloc, "slots", "S", SLOTS_HELP, 1, Settings::MAX_SLOTS);
    command(alloc, name, texts)
        .arg(numbered(alloc, "processors", "M", PROCESSORS_HELP, 1, processors))?
        .arg(numbered(alloc, "frame", "F", FRAME_HELP, 1, Settings::MAX_FRAME))?
        .arg(slots.required(true))
}

// The first slot whose rows are written: 0 if it isn't given.
fn from<'a>(alloc: Global) -> Arg<'a>
    ensures rule { rule_of result ≡ line.from }
    ensures here { result.global ≡ false }
{
    numbered(alloc, "from", "SLOT", FROM_HELP, 0, Settings::MAX_SLOTS).default_value("0")
}

// An option with a number from `least` to `most`.
fn numbered<'a>(
    alloc: Global,
    name: &'a str,
    value_name: &'a str,
    help: &'a str,
    least: u64,
    most: u64,
) -> Arg<'a>
    ensures rule { rule_of result ≡ line.option name.now least most }
    ensures here { result.global ≡ false }
{
    Arg::new(alloc, name)
        .long(name)
        .value_name(value_name)
        .help(help)
        .value_parser(ValueParser::Unsigned(least, most))
}

fn worded<'a>(alloc: Global, name: &'a str, help: &'a str) -> Arg<'a>
    ensures rule { rule_of result ≡ line.worded name.now }
    ensures here { result.global ≡ false }
{
    Arg::new(alloc, name)
        .long(name)
        .value_name("FILE")
        .help(help)
}
