ghost use Rattle.std.specs.Prelude.{◌≡◌, ◌⊎◌, List, map, unwrap_or, option_and_then, Ok, Err, IfOk, IfErr};
ghost use Rattle.std.specs.String.{string_bytes};
ghost use Rattle.ooo_words.specs.Limits.{IsWithinLimits};
ghost use Rattle.ooo_words.specs.Numbers.{number_of, time_of};
ghost use Rattle.ooo_words.specs.Parser.{HasValuesOf, value_found};
ghost use Rattle.ooo_words.specs.Reading.{Setting, command_of, reading, run_options};
ghost use Rattle.ooo_words.specs.declared.options.OptionName.TheVariants.{Stop};

use crate::breach::check_settings;
use crate::command::{Command, RunOptions};
use crate::matches::matches;
use crate::numbers::time;
use crate::options::{CommandName, OptionName};
use crate::refused::{WordsBreach, WordsError};
use clap::ArgMatches;
use ooo_time::Time;
use ooo_value::Name;
use std::alloc::Global;

// The numbers of the options where the words don't say.
const DEFAULT_WORKERS: u32 = 1;

/// Delta cycles at one time.
const DEFAULT_DELTAS: u32 = 10_000;

/// Statements in one activation.
const DEFAULT_STATEMENTS: u32 = 1_000_000;

const DEFAULT_STAGES: u32 = 4;

const DEFAULT_ITEMS: u32 = 16;

const DEFAULT_SEED: u32 = 1;

/// The command that the words after the program's name ask for.
///
/// The first word names the command, and each option of it is given as `--name VALUE` or `--name=VALUE`, in any order
/// and at most once. Else the error is the first breach from left to right, or out of memory.
pub fn read(alloc: Global, words: &[String]) -> Result<Command, WordsError>
    ensures ok { IfOk result (λ command. reading (map string_bytes words.now) ≡ Ok command) }

    // Each number is in the range of its option.
    ensures limits { IfOk result IsWithinLimits }

    // Each error but out of memory is the first breach.
    ensures err { IfErr result (λ e.
        (e ≡ WordsError.OutOfMemory) ⊎ (reading (map string_bytes words.now) ≡ Err e)) }
{
    let Some((word, settings)) = words.split_first() else {
        return Err(WordsError::Refused(WordsBreach::NoCommand, None));
    };
    let Some(command) = CommandName::named(word.as_str()) else {
        let word = Name::new(alloc, word.as_str())?;
        return Err(WordsError::Refused(WordsBreach::UnknownCommand, Some(word)));
    };
    check_settings(alloc, command, settings)?;
    let matches = matches(alloc, command, words)?;
    Ok(command_given(command, &matches))
}

/// The command with the values that were found.
fn command_given(command: CommandName, matches: &ArgMatches<'_>) -> Command
    ensures { (settings : List Setting) → HasValuesOf settings matches.now
        → result ≡ command_of command settings }
{
    match command {
        CommandName::Run => Command::Run {
            options: run_options(matches),
            workers: number_or(matches, OptionName::Workers, DEFAULT_WORKERS),
        },
        CommandName::Plain => Command::Plain(run_options(matches)),
        CommandName::Check => Command::Check,
        CommandName::Tables => Command::Tables,
        CommandName::Bench => Command::Bench {
            stages: number_or(matches, OptionName::Stages, DEFAULT_STAGES),
            items: number_or(matches, OptionName::Items, DEFAULT_ITEMS),
            seed: number_or(matches, OptionName::Seed, DEFAULT_SEED),
            workers: number_or(matches, OptionName::Workers, DEFAULT_WORKERS),
        },
    }
}

/// What was found of the options of a run.
fn run_options(matches: &ArgMatches<'_>) -> RunOptions
    ensures { (settings : List Setting) → HasValuesOf settings matches.now
        → result ≡ run_options settings }
{
    RunOptions {
        stop: stop_time(matches),
        deltas: number_or(matches, OptionName::Deltas, DEFAULT_DELTAS),
        statements: number_or(matches, OptionName::Statements, DEFAULT_STATEMENTS),
    }
}

/// The stop time, where it was found.
fn stop_time(matches: &ArgMatches<'_>) -> Option<Time>
    ensures { result ≡ option_and_then time_of (value_found matches.now Stop) }
{
    let text = matches.get_str(OptionName::Stop.text())?;
    time(text.as_bytes())
}

/// The number that was found for an option, or this one where none was.
fn number_or(matches: &ArgMatches<'_>, option: OptionName, default: u32) -> u32
    ensures { result
        ≡ unwrap_or (option_and_then (number_of option) (value_found matches.now option)) default }
{
    match matches.get_str(option.text()) {
        Some(text) => option.number(text).unwrap_or(default),
        None => default,
    }
}
