ghost use Rattle.std.specs.Prelude.{◌≡◌};
ghost use Rattle.ooo_messages.specs.Breaches.{reason_of};

use crate::reasons::{elab_reason, lexer_reason, parser_reason, types_reason};
use ooo_checked::TypeBreach;
use ooo_lexer::{LexBreach, Position};
use ooo_syntax::ParseBreach;
use ooo_value::Name;
use ooo_walk::ElabBreach;

/// What a layer says of a text that it refuses.
#[derive(Clone, Copy)]
pub enum Breach {
    /// It can't be cut into tokens.
    Lexer(LexBreach),
    /// The grammar refuses it.
    Parser(ParseBreach),
    /// A name or a type is wrong.
    Types(TypeBreach),
    /// It can't be elaborated.
    Elaborate(ElabBreach),
}

impl Breach {
    /// What it says.
    pub fn reason(self) -> &'static str
        ensures { result.now ≡ reason_of self }
    {
        match self {
            Breach::Lexer(breach) => lexer_reason(breach),
            Breach::Parser(breach) => parser_reason(breach),
            Breach::Types(breach) => types_reason(breach),
            Breach::Elaborate(breach) => elab_reason(breach),
        }
    }
}

/// What is refused of a text, at a place.
#[derive(Clone, Copy)]
pub struct TextRefusal<'a> {
    /// What is wrong.
    pub breach: Breach,
    /// Where.
    pub at: Position,
    /// The full names that it is about: elaboration has one at least, the other layers none.
    pub names: &'a [Name],
}

impl<'a> TextRefusal<'a> {
    /// What is refused at a place and is about no names.
    pub fn new(breach: Breach, at: Position) -> TextRefusal<'a> {
        TextRefusal {
            breach,
            at,
            names: &[],
        }
    }
}
