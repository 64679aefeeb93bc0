ghost use Rattle.std.specs.Prelude.{◌≡◌, IfOk};
ghost use Rattle.ooo_grammar.specs.Roots.{expression_root, sum_root, whole_text};
ghost use Rattle.ooo_parser.specs.Answers.{IfRefused, IsWholeOf};
ghost use Rattle.ooo_parser.specs.Reaches.{FailsBy, root_of};
ghost use Rattle.ooo_parser.specs.Refusals.{IsPartOf, IsRefused, IsTreeOf};
ghost use Rattle.ooo_lexer.specs.declared.position.Position.{Position as PositionSpec};
ghost use Rattle.ooo_syntax.specs.declared.error.ParseBreach.{ParseBreach as BreachSpec};

use crate::readings::{LIMITS, Start};
use crate::refusals::of_rest;
use ooo_exprs::{read_sum, read_value};
use ooo_grammar::law::{beginnings_within, readers};
use ooo_grammar::{Read, ReadError};
use ooo_lexer::Position;
use ooo_syntax::{Expr, ParseBreach, ParseError, Symbol, Unit};
use ooo_units::read_unit;
use std::alloc::{AllocError, Global};

// What a reader's answer says of whole texts: what follows a spelling is refused.
fn whole<T: Drop>(answer: Read<'_, T>) -> Result<T, ReadError>
    ensures { IsWholeOf answer.entry result }
{
    match answer {
        Ok((tree, rest)) => {
            if rest.is_empty() {
                Ok(tree)
            } else {
                Err(ReadError::Syntax(rest.len()))
            }
        }
        Err(error) => Err(error),
    }
}

// Why the symbols are no whole text, where a reader says this of them.
fn refused<'a>(
    alloc: Global,
    start: Start,
    symbols: &'a [Symbol<'a>],
    error: ReadError,
    end: Position,
) -> ParseError
    requires { FailsBy (root_of start) symbols.now error }
    ensures { (breach : BreachSpec) (place : PositionSpec) →
        result ≡ ParseError.Refused breach place →
        IsRefused (root_of start) symbols.now end breach place }
{
    readers();
    match error {
        ReadError::Syntax(left) => {
            let (read, rest) = symbols.split_at(symbols.len() - left);
            match of_rest(alloc, start, read, rest, end) {
                Ok(refusal) => ParseError::Refused(refusal.breach, refusal.place),
                Err(AllocError) => ParseError::OutOfMemory,
            }
        }
        ReadError::TooDeep(left) => {
            let symbol = symbols[symbols.len() - left];
            ParseError::Refused(ParseBreach::TooDeep, symbol.first)
        }
        ReadError::OutOfMemory => ParseError::OutOfMemory,
    }
}

/// Reads the symbols of a source as a whole text; `end` is the position of the source's end. It is refused at the
/// refused token, or at the first that is too deep where that stands before it.
pub(crate) fn parse_symbols<'a>(
    alloc: Global,
    symbols: &'a [Symbol<'a>],
    end: Position,
) -> Result<Unit, ParseError>
    ensures tree { IfOk result (λ tree. IsTreeOf whole_text symbols.now tree) }
    ensures refused { IfRefused result (IsRefused whole_text symbols.now end) }
{
    readers();
    match whole(read_unit(alloc, symbols, LIMITS)) {
        Ok(tree) => Ok(tree),
        Err(error) => Err(refused(alloc, Start::WholeText, symbols, error, end)),
    }
}

/// Reads an expression that the symbols of a source begin with, up to the first symbol with which no expression goes
/// on, and says how many symbols are left from there on; `end` is the position of the source's end.
pub fn expression<'a>(
    alloc: Global,
    symbols: &'a [Symbol<'a>],
    end: Position,
) -> Result<(Expr, usize), ParseError>
    ensures tree { IfOk result (λ found. IsPartOf expression_root symbols.now found.0 found.1) }
    ensures refused { IfRefused result (IsRefused expression_root symbols.now end) }
{
    readers();
    beginnings_within();
    match read_value(alloc, symbols, LIMITS) {
        Ok((tree, rest)) => Ok((tree, rest.len())),
        Err(error) => Err(refused(alloc, Start::Expression, symbols, error, end)),
    }
}

/// Reads a sum in the same way: an expression that holds no operator looser than `+` and `-` outside of brackets.
pub fn sum<'a>(
    alloc: Global,
    symbols: &'a [Symbol<'a>],
    end: Position,
) -> Result<(Expr, usize), ParseError>
    ensures tree { IfOk result (λ found. IsPartOf sum_root symbols.now found.0 found.1) }
    ensures refused { IfRefused result (IsRefused sum_root symbols.now end) }
{
    readers();
    beginnings_within();
    match read_sum(alloc, symbols, LIMITS) {
        Ok((tree, rest)) => Ok((tree, rest.len())),
        Err(error) => Err(refused(alloc, Start::Sum, symbols, error, end)),
    }
}
