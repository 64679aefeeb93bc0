ghost use Rattle.std.specs.Prelude.{◌≡◌};
ghost use Rattle.ooo_checked.specs.Kinds.{kind_of};
ghost use Rattle.ooo_checked.specs.Places.{first_of, is_constant, is_target};

use crate::denotation::{Method, Resolved};
use ooo_lexer::Position;
use ooo_syntax::{BinaryOp, Number, PrefixOp, TypeName, Word};
use ooo_value::Kind;
use sqlite_items::{Boxed, Items};

/// An expression with the kind of its value. A position is that of the first token.
#[derive(Drop)]
pub enum CheckedExpr {
    Number(Kind, Number),
    Truth(bool, Position),
    Name(Kind, Resolved),
    /// `( e )`
    Paren(Kind, Position, Boxed<CheckedExpr>),
    /// `a [ i ]`
    Index(Kind, Resolved, Boxed<CheckedExpr>),
    /// `f ( e , e )`
    Call(Kind, Resolved, Items<CheckedExpr>),
    /// `a . f ( )` or `a . f ( e )`
    Member(Kind, Resolved, Word, Method, Option<Boxed<CheckedExpr>>),
    /// `- e`
    Prefix(Kind, Position, PrefixOp, Boxed<CheckedExpr>),
    /// `( int ) e`
    Cast(Kind, Position, TypeName, Boxed<CheckedExpr>),
    /// `int ( e )`
    Conversion(Kind, TypeName, Boxed<CheckedExpr>),
    /// `e + e`
    Binary(Kind, BinaryOp, Boxed<CheckedExpr>, Boxed<CheckedExpr>),
    /// `e ? e : e`
    Choose(Kind, Boxed<CheckedExpr>, Boxed<CheckedExpr>, Boxed<CheckedExpr>),
}

impl CheckedExpr {
    /// The kind of its value.
    pub fn kind(&self) -> Kind
        ensures { result ≡ kind_of self.now }
    {
        match self {
            CheckedExpr::Truth(_, _) => Kind::Bool,
            CheckedExpr::Number(kind, _)
            | CheckedExpr::Name(kind, _)
            | CheckedExpr::Paren(kind, _, _)
            | CheckedExpr::Index(kind, _, _)
            | CheckedExpr::Call(kind, _, _)
            | CheckedExpr::Member(kind, _, _, _, _)
            | CheckedExpr::Prefix(kind, _, _, _)
            | CheckedExpr::Cast(kind, _, _, _)
            | CheckedExpr::Conversion(kind, _, _)
            | CheckedExpr::Binary(kind, _, _, _)
            | CheckedExpr::Choose(kind, _, _, _) => *kind,
        }
    }

    /// The position of its first token.
    #[tactic(auto, unfolding(crate::specs::Places::first_of))]
    pub fn first(&self) -> Position
        ensures { result ≡ first_of self.now }
    {
        match self {
            CheckedExpr::Number(_, number) => number.position,
            CheckedExpr::Name(_, name)
            | CheckedExpr::Index(_, name, _)
            | CheckedExpr::Call(_, name, _)
            | CheckedExpr::Member(_, name, _, _, _) => name.word.position,
            CheckedExpr::Conversion(_, form, _) => form.position,
            CheckedExpr::Truth(_, at)
            | CheckedExpr::Paren(_, at, _)
            | CheckedExpr::Prefix(_, at, _, _)
            | CheckedExpr::Cast(_, at, _, _) => *at,
            CheckedExpr::Binary(_, _, a, _) | CheckedExpr::Choose(_, a, _, _) => a.get().first(),
        }
    }

    /// Whether `nb_read` can put a value into it: a local, a parameter, a variable of one value, an element of an array.
    pub fn is_target(&self) -> bool
        ensures { result ≡ is_target self.now }
    {
        match self {
            CheckedExpr::Name(_, name) => name.denotes.thing.takes_value(),
            CheckedExpr::Index(_, name, _) => name.denotes.thing.takes_elements(),
            _ => false,
        }
    }

    /// Whether its value is known before the simulation.
    #[tactic(auto, unfolding(crate::specs::Places::is_constant))]
    pub fn is_constant(&self) -> bool
        ensures { result ≡ is_constant self.now }
    {
        match self {
            CheckedExpr::Number(_, _) | CheckedExpr::Truth(_, _) => true,
            CheckedExpr::Name(_, name) => name.denotes.thing.is_constant(),
            CheckedExpr::Index(_, _, _)
            | CheckedExpr::Call(_, _, _)
            | CheckedExpr::Member(_, _, _, _, _) => false,
            CheckedExpr::Paren(_, _, e)
            | CheckedExpr::Prefix(_, _, _, e)
            | CheckedExpr::Cast(_, _, _, e)
            | CheckedExpr::Conversion(_, _, e) => e.get().is_constant(),
            CheckedExpr::Binary(_, _, a, b) => a.get().is_constant() && b.get().is_constant(),
            CheckedExpr::Choose(_, c, a, b) => {
                c.get().is_constant() && a.get().is_constant() && b.get().is_constant()
            }
        }
    }
}
