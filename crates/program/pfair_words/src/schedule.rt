//! The words of `pfair`, and its command line, one level of commands.
ghost use Rattle.std.specs.Prelude.{◌≡◌, IfOk, codes, false};
ghost use Rattle.clap.specs.Words.{found_of, rows_of, subcommand_rows_of, rule_of};
ghost use Rattle.pfair_words.specs.Parse.{texts, IsRead};
ghost use Rattle.pfair_words.specs.ScheduleAsked.{IsAnswer, IsAnswerTo, IsAnswerToAny, HasCount, IsPlainAnswer};
ghost use Rattle.pfair_words.specs.ScheduleAsked as line;

mod help;

use crate::command::{
    AFFINITY_HELP, Parsed, command, file_name, flag, is_set, number, over_file, parse, program,
    with,
};
use clap::builder::ValueParser;
use clap::{Arg, ArgMatches, Command};
use help::{
    ABOUT, AFTER, COST_HELP, COUNT_HELP, DECISIONS_TEXTS, LAGS_TEXTS, PERIOD_HELP, REPLAY_TEXTS,
    WINDOWS_TEXTS,
};
use pfair_file::ProgramFault;
use pfair_table::Settings;
use pfair_weight::Weight;
use std::alloc::{AllocError, Global};

/// The most windows that a command line can ask for.
pub const MAX_COUNT: u64 = Settings::MAX_SLOTS;

/// What a command line asks for.
#[derive(Drop)]
pub enum Asked {
    /// The windows of the first `count` subtasks of a weight, at most [`MAX_COUNT`].
    Windows { weight: Weight, count: u64 },
    /// The tables of a task file, and with `affinity` the place of each row.
    Replay { file: String, affinity: bool },
    /// The admission decisions of a task file.
    Decisions { file: String },
    /// The lags of a task file.
    Lags { file: String },
    /// A text about the program: how it is used, or its name and version.
    Help { text: String },
}

/// Reads the words after the program's name.
///
/// `windows E P COUNT` asks for that many windows of the weight E/P, and `replay [--affinity] FILE`,
/// `decisions FILE` and `lags FILE` for the rows of that file, whatever its name and its length are.
/// `parsed` says by `clap`'s own definitions what is answered to any words, and `plain` in plain
/// words what is answered to each form of a command if no word but the flag begins with `-`.
///
/// # Errors
/// [`ProgramFault::CommandLine`] if a word doesn't read as the number that it should be, the count is
/// past [`MAX_COUNT`], a word is missing or surplus, the command is unknown, or there are no words.
/// After that [`ProgramFault::Weight`] if cost and period make no weight. [`ProgramFault::Memory`] if
/// an allocation fails.
pub fn read_words(alloc: Global, words: &[String]) -> Result<Asked, ProgramFault>
    ensures parsed { IsAnswer (texts words.now) result }
    ensures plain { IsPlainAnswer (texts words.now) result }
    ensures count { IfOk result HasCount }
{
    match parse(alloc, command_line(alloc)?, words)? {
        Parsed::Matches(matches) => read_matches(alloc, &matches),
        Parsed::Help(text) => Ok(Asked::Help { text }),
    }
}

fn read_matches(alloc: Global, matches: &ArgMatches<'_>) -> Result<Asked, ProgramFault>
    ensures { IsAnswerToAny (subcommand_rows_of matches.now) result }
{
    let Some((name, words)) = matches.subcommand() else {
        return Err(ProgramFault::CommandLine);
    };
    if name == "windows" {
        read_windows(words)
    } else if name == "replay" {
        let affinity = is_set(words, "affinity");
        let file = file_name(alloc, words)?;
        Ok(Asked::Replay { file, affinity })
    } else if name == "decisions" {
        let file = file_name(alloc, words)?;
        Ok(Asked::Decisions { file })
    } else if name == "lags" {
        let file = file_name(alloc, words)?;
        Ok(Asked::Lags { file })
    } else {
        Err(ProgramFault::CommandLine)
    }
}

fn read_windows(words: &ArgMatches<'_>) -> Result<Asked, ProgramFault>
    ensures { IsAnswerTo (codes "windows", rows_of (found_of words.now)) result }
{
    let cost = number(words, "cost")?;
    let period = number(words, "period")?;
    let count = number(words, "count")?;
    if count > MAX_COUNT {
        return Err(ProgramFault::CommandLine);
    }
    let weight = Weight::new(cost, period).map_err(ProgramFault::Weight)?;
    Ok(Asked::Windows { weight, count })
}

fn command_line<'a>(alloc: Global) -> Result<Command<'a>, AllocError>
    ensures { IfOk result (IsRead line.line) }
{
    let pfair = with(program(alloc, "pfair", ABOUT, AFTER)?, windows(alloc))?;
    let pfair = with(pfair, replay(alloc))?;
    let pfair = with(pfair, over_file(alloc, "decisions", DECISIONS_TEXTS))?;
    with(pfair, over_file(alloc, "lags", LAGS_TEXTS))
}

fn windows<'a>(alloc: Global) -> Result<Command<'a>, AllocError>
    ensures { IfOk result (IsRead line.windows) }
{
    command(alloc, "windows", WINDOWS_TEXTS)
        .arg(number_argument(alloc, "cost", "E", COST_HELP, u64::MAX))?
        .arg(number_argument(alloc, "period", "P", PERIOD_HELP, u64::MAX))?
        .arg(number_argument(alloc, "count", "COUNT", COUNT_HELP, MAX_COUNT))
}

fn replay<'a>(alloc: Global) -> Result<Command<'a>, AllocError>
    ensures { IfOk result (IsRead line.replay) }
{
    over_file(alloc, "replay", REPLAY_TEXTS)?.arg(flag(alloc, "affinity", AFFINITY_HELP))
}

// A number from 0 to `most`, which has to be there.
fn number_argument<'a>(
    alloc: Global,
    name: &'a str,
    value_name: &'a str,
    help: &'a str,
    most: u64,
) -> Arg<'a>
    ensures rule { rule_of result ≡ line.number name.now most }
    ensures here { result.global ≡ false }
{
    Arg::new(alloc, name)
        .value_name(value_name)
        .help(help)
        .required(true)
        .value_parser(ValueParser::Unsigned(0, most))
}
