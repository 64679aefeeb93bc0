ghost use Rattle.std.specs.Prelude.{◌≡◌, ◌≤◌};
ghost use Rattle.ooo_lexer.specs.Numbers.{greatest_of};
ghost use Rattle.ooo_lexer.specs.Spans.{IsWithin};
ghost use Rattle.ooo_parser.specs.Symbols.{place, single, value_in, value_of};

use ooo_lexer::law::number_found;
use ooo_lexer::{Number, NumberKind, Position, Token, TokenKind, read_number};
use ooo_syntax::{Symbol, terminal_of};
use ooo_value::Value;

/// The source that the tokens are of.
#[derive(Clone, Copy)]
pub(crate) struct Source<'a> {
    pub(crate) bytes: &'a [u8],
}

impl<'a> Source<'a> {
    /// A token as a symbol of its own.
    #[inline(always)]
    pub(crate) fn single(self, token: &Token) -> Symbol<'a>
        requires { IsWithin self.bytes.now token.now }
        ensures { result ≡ single self.entry.bytes token.now }
    {
        let text = &self.bytes[token.start as usize..token.end as usize];
        let position = place(token);
        Symbol {
            terminal: terminal_of(token.kind, text),
            text,
            value: value_in(token.kind, text),
            counts: false,
            before: 0,
            position,
            first: position,
        }
    }
}

#[inline(always)]
fn place(token: &Token) -> Position
    ensures { result ≡ place token.now }
{
    Position {
        line: token.line,
        column: token.column,
    }
}

// A number's value, and the `int` 0 for anything else.
#[inline(always)]
fn value_in(kind: TokenKind, bytes: &[u8]) -> Value
    ensures { result ≡ value_in kind bytes.now }
{
    number_found();
    match kind {
        TokenKind::Number => match read_number(bytes) {
            Some(number) => value_of(number),
            None => Value::Int(0),
        },
        _ => Value::Int(0),
    }
}

// A number as a value of its kind.
fn value_of(number: Number) -> Value
    requires { number.value ≤ greatest_of number.kind }
    ensures { result ≡ value_of number.kind number.value }
{
    match number.kind {
        NumberKind::Int => Value::Int(number.value as i32),
        NumberKind::Uint => Value::Uint(number.value as u32),
        NumberKind::Long => Value::Long(number.value as i64),
        NumberKind::Ulong => Value::Ulong(number.value),
    }
}
