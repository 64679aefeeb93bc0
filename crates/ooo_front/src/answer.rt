use ooo_bound::Bound;
use ooo_checked::{TypeBreach, TypeError};
use ooo_code::Design;
use ooo_lexer::{LexBreach, LexError, Position};
use ooo_lower::LowerError;
use ooo_syntax::{ParseBreach, ParseError};
use ooo_walk::{ElabError, Refusal};

/// What a text is accepted as, that no layer refuses. Its design has no more than
/// [`Graph::GREATEST_SEGMENTS`](ooo_segments::Graph::GREATEST_SEGMENTS) segments.
#[derive(Drop)]
pub struct Accepted {
    /// Its bound model.
    pub bound: Bound,
    /// The design of its model: its statements as nodes.
    pub design: Design,
    /// How many segments the design has.
    pub segments: u32,
}

/// Why a text was not accepted: by the layer that refuses it, or since memory ran out.
#[derive(Drop)]
pub enum Refused {
    /// The text can't be cut into tokens: what is wrong, and where.
    Lexer(LexBreach, Position),
    /// The tokens are no text of the grammar: what is wrong, and where.
    Parser(ParseBreach, Position),
    /// A name or a type of the text is wrong: what is wrong, and where.
    Types(TypeBreach, Position),
    /// The text can't be elaborated: what is refused first.
    Elaborate(Refusal),
    /// The code of the text's model is larger than code may be.
    CodeTooLarge,
    /// The design of the text's model has more segments than a design may have.
    TooManySegments,
    /// Memory ran out, which says nothing of the text.
    OutOfMemory,
}

impl From<LexError> for Refused {
    ghost use Rattle.std.specs.Prelude.{◌≡◌};
    ghost use Rattle.ooo_front.specs.Errors.{refused_by_lexer};

    ghost from_gives = { λ error own. own ≡ refused_by_lexer error };

    fn from(error: LexError) -> Refused {
        match error {
            LexError::Refused(breach, at) => Refused::Lexer(breach, at),
            LexError::OutOfMemory => Refused::OutOfMemory,
        }
    }
}

impl From<ParseError> for Refused {
    ghost use Rattle.std.specs.Prelude.{◌≡◌};
    ghost use Rattle.ooo_front.specs.Errors.{refused_by_parser};

    ghost from_gives = { λ error own. own ≡ refused_by_parser error };

    fn from(error: ParseError) -> Refused {
        match error {
            ParseError::Refused(breach, at) => Refused::Parser(breach, at),
            ParseError::OutOfMemory => Refused::OutOfMemory,
        }
    }
}

impl From<TypeError> for Refused {
    ghost use Rattle.std.specs.Prelude.{◌≡◌};
    ghost use Rattle.ooo_front.specs.Errors.{refused_by_types};

    ghost from_gives = { λ error own. own ≡ refused_by_types error };

    fn from(error: TypeError) -> Refused {
        match error {
            TypeError::Refused(breach, at) => Refused::Types(breach, at),
            TypeError::OutOfMemory => Refused::OutOfMemory,
        }
    }
}

impl From<ElabError> for Refused {
    ghost use Rattle.std.specs.Prelude.{◌≡◌};
    ghost use Rattle.ooo_front.specs.Errors.{refused_by_elaboration};

    ghost from_gives = { λ error own. own ≡ refused_by_elaboration error };

    fn from(error: ElabError) -> Refused {
        match error {
            ElabError::Refused(why) => Refused::Elaborate(why),
            ElabError::OutOfMemory => Refused::OutOfMemory,
        }
    }
}

impl From<LowerError> for Refused {
    ghost use Rattle.std.specs.Prelude.{◌≡◌};
    ghost use Rattle.ooo_front.specs.Errors.{refused_by_lowering};

    ghost from_gives = { λ error own. own ≡ refused_by_lowering error };

    fn from(error: LowerError) -> Refused {
        match error {
            LowerError::CodeTooLarge => Refused::CodeTooLarge,
            LowerError::OutOfMemory => Refused::OutOfMemory,
        }
    }
}
