ghost use Rattle.std.specs.Prelude.{◌≡◌, Ok, IfOk};
ghost use Rattle.ooo_words.specs.Limits.{AreWithinLimits, IsWithinLimits, by_default};
ghost use Rattle.ooo_sim.specs.Requests.{AsksInRange, request_for, request_of, words_of};

use crate::outcome::Refusal;
use ooo_words::{Command, RunOptions, WordsError, read};
use std::alloc::{AllocError, Global};

/// What is told of a run.
#[derive(Clone, Copy)]
pub enum Told {
    /// Its report: what was printed, what happened on each channel, and how it ended.
    Report,
    /// Its summary: how many activations and history entries it has, the sum of what was printed, and how it ended.
    Summary,
}

/// What is asked of a text.
#[derive(Clone, Copy)]
pub enum Wanted {
    /// What its model's run gives. Its report, by the sequential scheduler, is what the command `plain` asks for.
    Run(Told, RunOptions),
    /// How many processes and segments its model has: the command `check`.
    Counts,
    /// The tables of its model's segments: the command `tables`.
    Tables,
}

/// What the words ask for.
#[derive(Drop)]
pub enum Request {
    /// Something of the text that the source gives, without workers.
    OfText(Wanted),
    /// The report of the run of that text's model by so many workers: the command `run`.
    Run {
        options: RunOptions,
        workers: u32,
    },
    /// The summary of the run of a generated text's model by so many workers: the command `bench`.
    Bench {
        stages: u32,
        items: u32,
        seed: u32,
        workers: u32,
    },
    /// Nothing that may be had.
    Refused(Refusal),
}

/// Reads the words.
///
/// # Errors
///
/// Only where memory runs out.
pub(crate) fn read_request(alloc: Global, words: &[String]) -> Result<Request, AllocError>
    ensures request { IfOk result (λ request. request ≡ request_of (words_of words.now)) }
    ensures range { IfOk result AsksInRange }
{
    match read(alloc, words) {
        Ok(command) => Ok(request_for(command)),
        Err(WordsError::OutOfMemory) => Err(AllocError),
        Err(error) => Ok(Request::Refused(Refusal::Words(error))),
    }
}

/// What is asked of a run where the words say nothing of it.
pub(crate) fn default_options() -> RunOptions
    ensures default { result ≡ by_default }
    ensures range { AreWithinLimits result }
{
    RunOptions {
        stop: None,
        deltas: 10_000,
        statements: 1_000_000,
    }
}

// What a command asks for.
fn request_for(command: Command) -> Request
    requires { IsWithinLimits command }
    ensures request { result ≡ request_for (Ok command) }
    ensures range { AsksInRange result }
{
    match command {
        Command::Plain(options) => Request::OfText(Wanted::Run(Told::Report, options)),
        Command::Run { options, workers } => Request::Run { options, workers },
        Command::Check => Request::OfText(Wanted::Counts),
        Command::Tables => Request::OfText(Wanted::Tables),
        Command::Bench {
            stages,
            items,
            seed,
            workers,
        } => Request::Bench {
            stages,
            items,
            seed,
            workers,
        },
    }
}
