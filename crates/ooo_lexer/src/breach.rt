ghost use Rattle.std.specs.Prelude.{◌≡◌};
ghost use Rattle.ooo_lexer.specs.Breaches.{name_of};

use std::error::Error;
use std::fmt;

/// What is wrong with a source that can't be cut.
#[derive(Clone, Copy, Debug, PartialEq, Eq)]
pub enum LexBreach {
    /// A byte that begins no token, or a backslash in a text that begins no escape.
    BadByte,
    /// A number whose value none of its kinds holds, by its first byte.
    NumberTooWide,
    /// A text that its line or the source ends, by its opening quote.
    TextNotClosed,
    /// A comment that begins with `/*` and that the source ends, by its first byte.
    CommentNotClosed,
    /// A line from a `#` on that includes none of the known headers, by the `#`.
    Directive,
    /// Letters and digits that begin with a digit and are no number, by the first of them.
    BadNumber,
}

impl LexBreach {
    /// The breach's name, as refusals write it.
    pub fn name(self) -> &'static str
        ensures { result.now ≡ name_of self }
    {
        match self {
            LexBreach::BadByte => "BadByte",
            LexBreach::NumberTooWide => "NumberTooWide",
            LexBreach::TextNotClosed => "TextNotClosed",
            LexBreach::CommentNotClosed => "CommentNotClosed",
            LexBreach::Directive => "Directive",
            LexBreach::BadNumber => "BadNumber",
        }
    }
}

/// Writes the breach's name.
impl fmt::Display for LexBreach {
    ghost use Rattle.std.specs.Prelude.{Some};
    ghost use Rattle.ooo_lexer.specs.Breaches.{name_of};

    ghost output = { λ breach. Some (name_of breach) };

    fn fmt<W: fmt::Write>(&self, f: &mut fmt::Formatter<W>) -> fmt::Result {
        f.write_str(self.name())
    }
}

impl Error for LexBreach {}
