ghost use Rattle.std.specs.Prelude.{◌≡◌};
ghost use Rattle.ooo_syntax.specs.Breaches.{name_of};

use ooo_lexer::Position;
use std::alloc::AllocError;
use std::error::Error;
use std::fmt;

/// What is wrong with a text that is cut into tokens.
#[derive(Clone, Copy, Debug, PartialEq, Eq)]
pub enum ParseBreach {
    /// A token after which no text of the grammar goes on, or the end of the source where one has to.
    Syntax,
    /// A token that stands inside too many brackets and statements, or an operator too many of one expression.
    TooDeep,
    /// A token as for `Syntax` that C++ or SystemC has at its place and the grammar hasn't.
    NotInProfile,
}

impl ParseBreach {
    /// The breach's name, as refusals write it.
    pub fn name(self) -> &'static str
        ensures { result.now ≡ name_of self }
    {
        match self {
            ParseBreach::Syntax => "Syntax",
            ParseBreach::TooDeep => "TooDeep",
            ParseBreach::NotInProfile => "NotInProfile",
        }
    }
}

/// Writes the breach's name.
impl fmt::Display for ParseBreach {
    ghost use Rattle.std.specs.Prelude.{Some};
    ghost use Rattle.ooo_syntax.specs.Breaches.{name_of};

    ghost output = { λ breach. Some (name_of breach) };

    fn fmt<W: fmt::Write>(&self, f: &mut fmt::Formatter<W>) -> fmt::Result {
        f.write_str(self.name())
    }
}

impl Error for ParseBreach {}

/// Why tokens were not read as a tree.
#[derive(Clone, Copy, PartialEq, Eq)]
pub enum ParseError {
    /// The tokens are refused: what is wrong, and where.
    Refused(ParseBreach, Position),
    /// Memory ran out, which says nothing of the tokens.
    OutOfMemory,
}

impl From<AllocError> for ParseError {
    ghost use Rattle.std.specs.Prelude.{◌≡◌};
    ghost use Rattle.ooo_syntax.specs.declared.error.ParseError.TheVariants.{OutOfMemory};

    ghost from_gives = { λ _ e. e ≡ OutOfMemory };

    fn from(_error: AllocError) -> ParseError {
        ParseError::OutOfMemory
    }
}
