ghost use Rattle.std.specs.Prelude.{◌≡◌, ◌++◌, IfOk};
ghost use Rattle.ooo_parser.specs.Reaches.{root_of};
ghost use Rattle.ooo_parser.specs.Refusals.{BreachOf, IsAtFirst, IsRefused, IsToldOf, IsWithin, StopsAt};

use crate::breaches::{breach_of, breach_of_first};
use crate::follow::{Follow, a_word_follows};
use crate::readings::Start;
use crate::words::{lacks_word, opens_word};
use ooo_grammar::next;
use ooo_lexer::Position;
use ooo_syntax::{ParseBreach, Symbol};
use std::alloc::{AllocError, Global};

/// As what a token is refused, and where it stands.
#[derive(Clone, Copy)]
pub(crate) struct Refusal {
    pub(crate) breach: ParseBreach,
    pub(crate) place: Position,
}

// Of the first token of the symbols, or of the end of the source where there are none.
fn at_first(symbols: &[Symbol<'_>], end: Position) -> Refusal
    ensures { IsAtFirst symbols.now end result.breach result.place }
{
    match symbols {
        [first, ..] => Refusal {
            breach: breach_of_first(*first),
            place: first.first,
        },
        [] => Refusal {
            breach: ParseBreach::Syntax,
            place: end,
        },
    }
}

// Of the symbol itself.
fn at_itself<'a>(read: &'a [Symbol<'a>], symbol: Symbol<'a>) -> Result<Refusal, AllocError>
    ensures breach { IfOk result (λ r. BreachOf read.now symbol.entry r.breach) }
    ensures place { IfOk result (λ r. r.place ≡ symbol.entry.position) }
{
    Ok(Refusal {
        breach: breach_of(read, symbol)?,
        place: symbol.position,
    })
}

// Of the first token of the symbol.
fn at_start(symbol: Symbol<'_>, breach: ParseBreach) -> Refusal
    ensures breach { result.breach ≡ breach }
    ensures place { result.place ≡ symbol.entry.first }
{
    Refusal {
        breach,
        place: symbol.first,
    }
}

// Of the refused symbol, which stands between these others.
fn of_symbol<'a>(
    alloc: Global,
    start: Start,
    read: &'a [Symbol<'a>],
    symbol: Symbol<'a>,
    later: &'a [Symbol<'a>],
    end: Position,
) -> Result<Refusal, AllocError>
    requires { IsWithin (root_of start) read.now }
    ensures { IfOk result
        (λ r. IsToldOf (root_of start) read.now symbol.entry later.now end r.breach r.place) }
{
    if !opens_word(symbol) {
        return at_itself(read, symbol);
    }
    match a_word_follows(alloc, start, read, symbol)? {
        Follow::Never => Ok(at_start(symbol, ParseBreach::Syntax)),
        Follow::TooDeep => Ok(at_start(symbol, ParseBreach::TooDeep)),
        Follow::Within => {
            if lacks_word(symbol) {
                Ok(at_first(later, end))
            } else {
                at_itself(read, symbol)
            }
        }
    }
}

/// Of the refused token, where the symbols that were read are followed by the rest.
pub(crate) fn of_rest<'a>(
    alloc: Global,
    start: Start,
    read: &'a [Symbol<'a>],
    rest: &'a [Symbol<'a>],
    end: Position,
) -> Result<Refusal, AllocError>
    requires { StopsAt (root_of start) read.now rest.now }
    ensures { IfOk result
        (λ r. IsRefused (root_of start) (read.now ++ rest.now) end r.breach r.place) }
{
    match next(rest) {
        Some((symbol, later)) => of_symbol(alloc, start, read, symbol, later, end),
        None => Ok(Refusal {
            breach: ParseBreach::Syntax,
            place: end,
        }),
    }
}
