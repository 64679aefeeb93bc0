use crate::terminal::Terminal;
use ooo_lexer::Position;
use ooo_value::Value;

/// A word or a sign of the grammar that was read.
#[derive(Clone, Copy)]
pub struct Mark {
    /// Where it stands.
    pub position: Position,
}

/// A token as the grammar sees it. The pairs `std ::` and `sc_core ::` before a word belong to the word's symbol.
#[derive(Clone, Copy)]
pub struct Symbol<'a> {
    /// Its bytes in the source, without pairs, and a text's with its quotes.
    pub text: &'a [u8],
    /// A number's value; any other's is the `int` 0.
    pub value: Value,
    /// Where its text stands.
    pub position: Position,
    /// Where the first of its pairs stands, or its text where it has none.
    pub first: Position,
    /// How many symbols before it count.
    pub before: u32,
    /// What it is to the grammar.
    pub terminal: Terminal,
    /// Whether it is an operator where it stands in an expression.
    pub counts: bool,
}
