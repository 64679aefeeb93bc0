ghost use Rattle.std.specs.Prelude.{◌≡◌, ◌≢◌, Some, IfOk};
ghost use Rattle.std.specs.Option.{option_copied};
ghost use Rattle.ooo_words.specs.Refused.{line_of, name_of, refusal_line};

use ooo_value::Name;
use std::alloc::{AllocError, AllocFailed, Global};
use std::error::Error;
use std::fmt;

/// What is wrong with words.
#[derive(Clone, Copy, Debug)]
pub enum WordsBreach {
    /// There are no words.
    NoCommand,
    /// The first word names no command.
    UnknownCommand,
    /// A word in an option's place names no option of the command.
    UnknownOption,
    /// An option is the last word, without a value.
    NoValue,
    /// The value of an option is out of form or range.
    BadValue,
    /// An earlier setting is of the same option.
    Twice,
}

impl WordsBreach {
    /// The name of the breach.
    pub fn name(self) -> &'static str
        ensures { result.now ≡ name_of self }
    {
        match self {
            WordsBreach::NoCommand => "NoCommand",
            WordsBreach::UnknownCommand => "UnknownCommand",
            WordsBreach::UnknownOption => "UnknownOption",
            WordsBreach::NoValue => "NoValue",
            WordsBreach::BadValue => "BadValue",
            WordsBreach::Twice => "Twice",
        }
    }
}

/// Writes the breach's name.
impl fmt::Display for WordsBreach {
    ghost use Rattle.std.specs.Prelude.{Some};
    ghost use Rattle.ooo_words.specs.Refused.{name_of};

    ghost output = { λ breach. Some (name_of breach) };

    fn fmt<W: fmt::Write>(&self, f: &mut fmt::Formatter<W>) -> fmt::Result {
        f.write_str(self.name())
    }
}

impl Error for WordsBreach {}

/// Why there is no command.
#[derive(Drop)]
pub enum WordsError {
    /// The first breach from left to right, and the word that it is told with: the first word, or the option up to its
    /// first `=`. Where there are no words it has none.
    Refused(WordsBreach, Option<Name>),
    /// Memory ran out.
    OutOfMemory,
}

impl From<AllocError> for WordsError {
    ghost use Rattle.ooo_words.specs.declared.refused.WordsError.TheVariants.{OutOfMemory};

    ghost from_gives = { λ _ e. e ≡ OutOfMemory };

    fn from(_error: AllocError) -> Self {
        WordsError::OutOfMemory
    }
}

impl<T: Drop> From<AllocFailed<T>> for WordsError {
    ghost use Rattle.ooo_words.specs.declared.refused.WordsError.TheVariants.{OutOfMemory};

    ghost from_gives = { λ _ e. e ≡ OutOfMemory };

    fn from(_error: AllocFailed<T>) -> Self {
        WordsError::OutOfMemory
    }
}

/// The line that says why the words were refused: `refused words`, the breach's name, and its word where it has one.
/// Out of memory is no refusal.
pub fn refusal(alloc: Global, error: &WordsError) -> Result<Vec<u8>, AllocError>
    requires { error.now ≢ WordsError.OutOfMemory }
    ensures { IfOk result (λ text. refusal_line error.now ≡ Some text.items) }
{
    match error {
        WordsError::Refused(breach, word) => line(alloc, breach.name(), word.as_ref()),
        WordsError::OutOfMemory => unreachable!(),
    }
}

/// A refusal's line.
fn line(alloc: Global, name: &str, word: Option<&Name>) -> Result<Vec<u8>, AllocError>
    ensures { IfOk result (λ text. text.items ≡ line_of name.now (option_copied word.entry)) }
{
    let mut text = Vec::from_slice(alloc, b"refused words ")?;
    text.extend_from_slice(name.as_bytes())?;
    if let Some(word) = word {
        text.extend_from_slice(b" ")?;
        text.extend_from_slice(word.as_bytes())?;
    }
    text.extend_from_slice(b"\n")?;
    Ok(text)
}
