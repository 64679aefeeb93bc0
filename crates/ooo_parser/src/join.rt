ghost use Rattle.std.specs.Prelude.{◌≡◌, ◌∷◌, ◌++◌, ◌<◌, All, IfNone, IfOk, IfSome, None, OnOk, false, length, map, true};
ghost use Rattle.ooo_lexer.specs.Spans.{IsWithin};
ghost use Rattle.ooo_parser.specs.Symbols.{begins_pair, behind, is_pair, joined, single, with_pair};

use crate::classes::{is_library, is_word};
use crate::single::Source;
use ooo_lexer::Token;
use ooo_syntax::{Symbol, Terminal};
use std::alloc::{AllocError, Global};

/// The tokens as symbols of their own, with their pairs taken in.
pub(crate) fn joined<'a>(
    alloc: Global,
    source: Source<'a>,
    tokens: &[Token],
) -> Result<Vec<Symbol<'a>>, AllocError>
    requires { All (IsWithin source.bytes.now) tokens.now }
    ensures { IfOk result
        (λ v. v.items ≡ joined None (map (single source.entry.bytes) tokens.now)) }
{
    let mut symbols = Vec::new(alloc);
    let mut pairs = None;
    let mut rest = tokens;
    'tokens: while let Some((token, after)) = rest.split_first() {
        let symbol = source.single(token);
        match scope_after(source, symbol, after) {
            Some((scope, others)) => {
                pairs = Some(with_pair(pairs, symbol, scope));
                rest = others;
            }
            None => {
                push_behind(&mut symbols, pairs, symbol)?;
                pairs = None;
                rest = after;
            }
        }
    }
    if let Some(scope) = pairs {
        symbols.push(scope)?;
    }
    Ok(symbols)
}

// The `::` that makes a pair of the symbol, and the tokens after it.
fn scope_after<'a, 't>(
    source: Source<'a>,
    symbol: Symbol<'a>,
    tokens: &'t [Token],
) -> Option<(Symbol<'a>, &'t [Token])>
    requires { All (IsWithin source.bytes.now) tokens.now }
    ensures none { IfNone result
        (begins_pair symbol.entry (map (single source.entry.bytes) tokens.now) ≡ false) }
    ensures pair { IfSome result (λ found. is_pair symbol.entry found.0 ≡ true) }
    ensures next { IfSome result (λ found. map (single source.entry.bytes) tokens.now
        ≡ found.0 ∷ map (single source.entry.bytes) found.1.now) }
    ensures within { IfSome result (λ found. All (IsWithin source.entry.bytes.now) found.1.now) }
    ensures shorter { IfSome result (λ found. length found.1.now < length tokens.now) }
{
    let Some((token, others)) = tokens.split_first() else {
        return None;
    };
    if !is_library(symbol.terminal) {
        return None;
    }
    let scope = source.single(token);
    if is_pair(symbol, scope) {
        Some((scope, others))
    } else {
        None
    }
}

fn is_pair(symbol: Symbol<'_>, next: Symbol<'_>) -> bool
    ensures { result ≡ is_pair symbol.entry next.entry }
{
    is_library(symbol.terminal) && matches!(next.terminal, Terminal::Scope)
}

// The symbol that pairs are where no word follows, with one more pair.
fn with_pair<'a>(pairs: Option<Symbol<'a>>, library: Symbol<'a>, scope: Symbol<'a>) -> Symbol<'a>
    ensures { result ≡ with_pair pairs.entry library.entry scope.entry }
{
    let first = match pairs {
        None => library.position,
        Some(earlier) => earlier.first,
    };
    Symbol { first, ..scope }
}

// Keeps a symbol that stands right behind pairs, or behind none.
fn push_behind<'a>(
    symbols: &mut Vec<Symbol<'a>>,
    pairs: Option<Symbol<'a>>,
    symbol: Symbol<'a>,
) -> Result<(), AllocError>
    ensures { OnOk result
        (symbols.new.items ≡ symbols.old.items ++ behind pairs.entry symbol.entry) }
{
    match pairs {
        None => symbols.push(symbol)?,
        Some(scope) => {
            if is_word(symbol.terminal) {
                symbols.push(Symbol {
                    first: scope.first,
                    ..symbol
                })?;
            } else {
                symbols.push(scope)?;
                symbols.push(symbol)?;
            }
        }
    }
    Ok(())
}
