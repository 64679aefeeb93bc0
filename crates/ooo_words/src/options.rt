ghost use Rattle.std.specs.Prelude.{◌≡◌};
ghost use Rattle.ooo_words.specs.Numbers.{number_of, takes_value};
ghost use Rattle.ooo_words.specs.Options.{command_named, command_text, options_of};
ghost use Rattle.ooo_words.specs.Options.{option_named, option_text, option_word};

use crate::numbers::{number, time};

// The greatest numbers that the options take.
const MOST_WORKERS: u32 = 64;

/// Delta cycles at one time.
const MOST_DELTAS: u32 = 1_000_000;

/// Statements in one activation.
const MOST_STATEMENTS: u32 = 1_000_000_000;

const MOST_STAGES: u32 = 200;

const MOST_ITEMS: u32 = 10_000;

const MOST_SEED: u32 = u32::MAX;

/// A command, by its name.
#[derive(Clone, Copy)]
pub enum CommandName {
    Run,
    Plain,
    Check,
    Tables,
    Bench,
}

/// An option, by its name.
#[derive(Clone, Copy)]
pub enum OptionName {
    Stop,
    Workers,
    Deltas,
    Statements,
    Stages,
    Items,
    Seed,
}

impl CommandName {
    /// The command that a word names.
    pub fn named(word: &str) -> Option<CommandName>
        ensures { result ≡ command_named word.now }
    {
        match word {
            "run" => Some(CommandName::Run),
            "plain" => Some(CommandName::Plain),
            "check" => Some(CommandName::Check),
            "tables" => Some(CommandName::Tables),
            "bench" => Some(CommandName::Bench),
            _ => None,
        }
    }

    /// How the command is written.
    pub fn text(self) -> &'static str
        ensures { result.now ≡ command_text self }
    {
        match self {
            CommandName::Run => "run",
            CommandName::Plain => "plain",
            CommandName::Check => "check",
            CommandName::Tables => "tables",
            CommandName::Bench => "bench",
        }
    }

    /// The options that the command takes.
    pub fn options(self) -> &'static [OptionName]
        ensures { result.now ≡ options_of self }
    {
        match self {
            CommandName::Run => &RUN_OPTIONS,
            CommandName::Plain => &PLAIN_OPTIONS,
            CommandName::Check | CommandName::Tables => &[],
            CommandName::Bench => &BENCH_OPTIONS,
        }
    }

    /// The option of this command that a word names.
    pub fn option_named(self, word: &str) -> Option<OptionName>
        ensures { result ≡ option_named self word.now }
    {
        self.options()
            .iter()
            .copied()
            .find(|option| word == option.word())
    }
}

static RUN_OPTIONS: [OptionName; 4] = [
    OptionName::Stop,
    OptionName::Workers,
    OptionName::Deltas,
    OptionName::Statements,
];

static PLAIN_OPTIONS: [OptionName; 3] = [
    OptionName::Stop,
    OptionName::Deltas,
    OptionName::Statements,
];

static BENCH_OPTIONS: [OptionName; 4] = [
    OptionName::Stages,
    OptionName::Items,
    OptionName::Seed,
    OptionName::Workers,
];

impl OptionName {
    /// The name of the option.
    pub fn text(self) -> &'static str
        ensures { result.now ≡ option_text self }
    {
        match self {
            OptionName::Stop => "stop",
            OptionName::Workers => "workers",
            OptionName::Deltas => "deltas",
            OptionName::Statements => "statements",
            OptionName::Stages => "stages",
            OptionName::Items => "items",
            OptionName::Seed => "seed",
        }
    }

    /// How the option is written: two hyphens and its name.
    pub fn word(self) -> &'static str
        ensures { result.now ≡ option_word self }
    {
        match self {
            OptionName::Stop => "--stop",
            OptionName::Workers => "--workers",
            OptionName::Deltas => "--deltas",
            OptionName::Statements => "--statements",
            OptionName::Stages => "--stages",
            OptionName::Items => "--items",
            OptionName::Seed => "--seed",
        }
    }

    /// The number that a value of the option stands for, in the option's range; stop takes a time and no number.
    pub fn number(self, text: &str) -> Option<u32>
        ensures { result ≡ number_of self text.now }
    {
        let text = text.as_bytes();
        match self {
            OptionName::Stop => None,
            OptionName::Workers => number(text, 1, MOST_WORKERS),
            OptionName::Deltas => number(text, 1, MOST_DELTAS),
            OptionName::Statements => number(text, 1, MOST_STATEMENTS),
            OptionName::Stages => number(text, 1, MOST_STAGES),
            OptionName::Items => number(text, 1, MOST_ITEMS),
            OptionName::Seed => number(text, 0, MOST_SEED),
        }
    }

    /// Whether the option takes the value.
    pub fn takes(self, text: &str) -> bool
        ensures { result ≡ takes_value self text.now }
    {
        match self {
            OptionName::Stop => time(text.as_bytes()).is_some(),
            _ => self.number(text).is_some(),
        }
    }
}
