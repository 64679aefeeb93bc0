ghost use Rattle.std.specs.Prelude.{◌≡◌, IfOk, MatchBool};
ghost use Rattle.ooo_grammar.specs.Numbers.{number};
ghost use Rattle.ooo_grammar.specs.Sets.{has};
ghost use Rattle.ooo_parser.specs.Answers.{TellsForeign};
ghost use Rattle.ooo_parser.specs.Refusals.{BreachOf, IsForeign, EndsInSignalOfType, IsSignalOfType, IsType, breach_of_first, foreign_words};

use crate::readings::LIMITS;
use crate::words::has_pairs;
use ooo_grammar::law::types;
use ooo_grammar::{ReadError, read_type, starts};
use ooo_syntax::{ParseBreach, Symbol, Terminal};
use std::alloc::AllocError;

// Whether C++ or SystemC has the word, and the grammar hasn't or hasn't everywhere.
fn is_foreign_word(terminal: Terminal) -> bool
    ensures { result ≡ has foreign_words (number terminal) }
{
    matches!(
        terminal,
        Terminal::Outside | Terminal::Char | Terminal::Namespace
    )
}

// Whether the symbols are a type.
fn is_type<'a>(symbols: &'a [Symbol<'a>]) -> Result<bool, AllocError>
    ensures { IfOk result (λ b. MatchBool b (IsType symbols.now) (IsType symbols.now → ⊥)) }
{
    types();
    match read_type(symbols, LIMITS) {
        Ok((_, rest)) => Ok(rest.is_empty()),
        Err(ReadError::Syntax(_)) => Ok(false),
        Err(ReadError::TooDeep(_)) => Ok(false),
        Err(ReadError::OutOfMemory) => Err(AllocError),
    }
}

// Whether the symbols are `sc_signal < type`.
fn is_signal_of_type<'a>(symbols: &'a [Symbol<'a>]) -> Result<bool, AllocError>
    ensures { IfOk result
        (λ b. MatchBool b (IsSignalOfType symbols.now) (IsSignalOfType symbols.now → ⊥)) }
{
    match symbols {
        [_, second @ ..] => {
            if starts(symbols, Terminal::ScSignal) && starts(second, Terminal::Less) {
                is_type(&second[1..])
            } else {
                Ok(false)
            }
        }
        [] => Ok(false),
    }
}

// Whether the symbols end in `sc_signal < type`.
fn ends_in_signal_of_type<'a>(symbols: &'a [Symbol<'a>]) -> Result<bool, AllocError>
    ensures { IfOk result
        (λ b. MatchBool b (EndsInSignalOfType symbols.now) (EndsInSignalOfType symbols.now → ⊥)) }
{
    for at in 0..symbols.len() {
        if is_signal_of_type(&symbols[at..])? {
            return Ok(true);
        }
    }
    Ok(false)
}

// Whether C++ or SystemC has the symbol after those that were read, and the grammar hasn't.
fn is_foreign<'a>(read: &'a [Symbol<'a>], symbol: Symbol<'a>) -> Result<bool, AllocError>
    ensures { IfOk result (TellsForeign read.now symbol.entry) }
{
    if is_foreign_word(symbol.terminal) {
        Ok(true)
    } else if matches!(symbol.terminal, Terminal::Comma) {
        ends_in_signal_of_type(read)
    } else {
        Ok(false)
    }
}

/// As what the symbol is refused after the symbols that were read.
pub(crate) fn breach_of<'a>(
    read: &'a [Symbol<'a>],
    symbol: Symbol<'a>,
) -> Result<ParseBreach, AllocError>
    ensures { IfOk result (BreachOf read.now symbol.entry) }
{
    if is_foreign(read, symbol)? {
        Ok(ParseBreach::NotInProfile)
    } else {
        Ok(ParseBreach::Syntax)
    }
}

/// As what the first token of the symbol is refused.
pub(crate) fn breach_of_first(symbol: Symbol<'_>) -> ParseBreach
    ensures { result ≡ breach_of_first symbol.entry }
{
    if is_foreign_word(symbol.terminal) && !has_pairs(symbol) {
        ParseBreach::NotInProfile
    } else {
        ParseBreach::Syntax
    }
}
