use crate::leaves::{Number, TypeName, Word};
use ooo_lexer::Position;
use sqlite_items::{Boxed, Items};

/// A binary operator.
#[derive(Clone, Copy)]
pub enum BinaryOp {
    /// `||`
    Either,
    /// `&&`
    Both,
    /// `|`
    Or,
    /// `^`
    Xor,
    /// `&`
    And,
    /// `==`
    Equal,
    /// `!=`
    NotEqual,
    /// `<`
    Less,
    /// `<=`
    LessEqual,
    /// `>`
    Greater,
    /// `>=`
    GreaterEqual,
    /// `<<`
    ShiftLeft,
    /// `>>`
    ShiftRight,
    /// `+`
    Add,
    /// `-`
    Subtract,
    /// `*`
    Multiply,
    /// `/`
    Divide,
    /// `%`
    Remainder,
}

/// A sign before an operand.
#[derive(Clone, Copy)]
pub enum PrefixOp {
    /// `!`
    Not,
    /// `~`
    Invert,
    /// `-`
    Negate,
    /// `+`
    Keep,
}

/// An expression as it is written. A position is that of the first token.
#[derive(Drop)]
pub enum Expr {
    Number(Number),
    Truth(bool, Position),
    Name(Word),
    /// `( e )`
    Paren(Position, Boxed<Expr>),
    /// `a [ i ]`
    Index(Word, Boxed<Expr>),
    /// `f ( e , e )`
    Call(Word, Items<Expr>),
    /// `a . f ( )` or `a . f ( e )`
    Member(Word, Word, Option<Boxed<Expr>>),
    /// `- e`
    Prefix(Position, PrefixOp, Boxed<Expr>),
    /// `( int ) e`
    Cast(Position, TypeName, Boxed<Expr>),
    /// `int ( e )`
    Conversion(TypeName, Boxed<Expr>),
    /// `e + e`
    Binary(BinaryOp, Boxed<Expr>, Boxed<Expr>),
    /// `e ? e : e`
    Choose(Boxed<Expr>, Boxed<Expr>, Boxed<Expr>),
}
