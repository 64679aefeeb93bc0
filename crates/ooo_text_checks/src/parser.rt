//! Expressions and sums by hand. All symbols stand in one line, each in a column of its own.

mod table;
mod texts;

use ooo_lexer::Position;
use ooo_parser::{expression, sum};
use ooo_syntax::{ParseBreach, ParseError, Symbol, Terminal};
use ooo_value::Value;
use std::alloc::{AllocError, Global};

fn column(column: u32) -> Position {
    Position { line: 1, column }
}

fn symbol(terminal: Terminal, place: u32) -> Symbol<'static> {
    Symbol {
        terminal,
        text: b"x",
        value: Value::Int(0),
        counts: matches!(terminal, Terminal::Plus | Terminal::Less),
        before: 0,
        position: column(place),
        first: column(place),
    }
}

// The word with pairs before it.
fn with_pairs(terminal: Terminal, first: u32, place: u32) -> Symbol<'static> {
    Symbol {
        first: column(first),
        ..symbol(terminal, place)
    }
}

// So many opened brackets, and the symbol after them.
fn inside(
    alloc: Global,
    brackets: u32,
    last: Symbol<'static>,
) -> Result<Vec<Symbol<'static>>, AllocError> {
    let mut symbols = Vec::new(alloc);
    for place in 0..brackets {
        symbols.push(symbol(Terminal::Open, place))?;
    }
    symbols.push(last)?;
    Ok(symbols)
}

// A sum of words with so many operators: operator n stands in column n, and so does the word after it.
fn sum_with(alloc: Global, operators: u32) -> Result<Vec<Symbol<'static>>, AllocError> {
    let mut symbols = Vec::new(alloc);
    symbols.push(symbol(Terminal::Word, 0))?;
    for before in 0..operators {
        let place = before + 1;
        symbols.push(Symbol {
            before,
            ..symbol(Terminal::Plus, place)
        })?;
        symbols.push(Symbol {
            before: place,
            ..symbol(Terminal::Word, place)
        })?;
    }
    Ok(symbols)
}

const END: u32 = 9000;

// How many symbols stand after the expression that they begin with, or none where it is refused.
fn left_by_expression(alloc: Global, symbols: &[Symbol<'static>]) -> Option<usize> {
    match expression(alloc, symbols, column(END)) {
        Ok((_, left)) => Some(left),
        Err(_) => None,
    }
}

// The same after a sum.
fn left_by_sum(alloc: Global, symbols: &[Symbol<'static>]) -> Option<usize> {
    match sum(alloc, symbols, column(END)) {
        Ok((_, left)) => Some(left),
        Err(_) => None,
    }
}

// Whether the symbols are refused as an expression, with this breach in this column.
fn is_refused(alloc: Global, symbols: &[Symbol<'static>], breach: ParseBreach, place: u32) -> bool {
    match expression(alloc, symbols, column(END)) {
        Ok(_) => false,
        Err(error) => error == ParseError::Refused(breach, column(place)),
    }
}

#[test]
fn parts_end_where_nothing_goes_on(rt: HostRuntime) {
    let symbols = [
        symbol(Terminal::Word, 1),
        symbol(Terminal::Plus, 2),
        symbol(Terminal::Word, 3),
        symbol(Terminal::Less, 4),
        symbol(Terminal::Word, 5),
        symbol(Terminal::Semicolon, 6),
    ];
    assert_eq!(rt; left_by_expression(rt.alloc(), &symbols), Some(1));
    assert_eq!(rt; left_by_sum(rt.alloc(), &symbols), Some(3));
}

#[test]
fn tokens_are_refused_where_they_stand(rt: HostRuntime) {
    let word = symbol(Terminal::Word, 1);
    let plus = symbol(Terminal::Plus, 2);
    let close = [word, plus, symbol(Terminal::Close, 3)];
    assert!(rt; is_refused(rt.alloc(), &close, ParseBreach::Syntax, 3));
    let early = [word, plus];
    assert!(rt; is_refused(rt.alloc(), &early, ParseBreach::Syntax, END));
    let foreign = [word, plus, symbol(Terminal::Char, 3)];
    assert!(rt; is_refused(rt.alloc(), &foreign, ParseBreach::NotInProfile, 3));
}

#[test]
fn pairs_stand_where_words_may(rt: HostRuntime) {
    let word = symbol(Terminal::Word, 1);
    let plus = symbol(Terminal::Plus, 2);
    let open = symbol(Terminal::Open, 1);
    let after_word = [
        open,
        symbol(Terminal::Word, 2),
        with_pairs(Terminal::Word, 3, 8),
    ];
    assert!(rt; is_refused(rt.alloc(), &after_word, ParseBreach::Syntax, 3));
    let keyword = [word, plus, with_pairs(Terminal::If, 3, 8)];
    assert!(rt; is_refused(rt.alloc(), &keyword, ParseBreach::Syntax, 8));
    let foreign = [word, plus, with_pairs(Terminal::Outside, 3, 8)];
    assert!(rt; is_refused(rt.alloc(), &foreign, ParseBreach::NotInProfile, 8));
}

#[test]
fn pairs_want_a_word(rt: HostRuntime) {
    let word = symbol(Terminal::Word, 1);
    let plus = symbol(Terminal::Plus, 2);
    let alone = symbol(Terminal::Std, 3);
    let scope = with_pairs(Terminal::Scope, 3, 6);
    let early = [word, plus, alone];
    assert!(rt; is_refused(rt.alloc(), &early, ParseBreach::Syntax, END));
    let sign = [word, plus, scope, symbol(Terminal::Semicolon, 8)];
    assert!(rt; is_refused(rt.alloc(), &sign, ParseBreach::Syntax, 8));
    let foreign = [word, plus, alone, symbol(Terminal::Outside, 7)];
    assert!(rt; is_refused(rt.alloc(), &foreign, ParseBreach::NotInProfile, 7));
    let pairs = [word, plus, alone, with_pairs(Terminal::Outside, 7, 12)];
    assert!(rt; is_refused(rt.alloc(), &pairs, ParseBreach::Syntax, 7));
}

#[test]
fn brackets_may_hold_64_levels(rt: HostRuntime) -> Result<(), AllocError> {
    let word = symbol(Terminal::Word, 100);
    let keyword = with_pairs(Terminal::If, 100, 105);
    let most = inside(rt.alloc(), 64, word)?;
    assert!(rt; is_refused(rt.alloc(), &most, ParseBreach::Syntax, END));
    let more = inside(rt.alloc(), 65, word)?;
    assert!(rt; is_refused(rt.alloc(), &more, ParseBreach::TooDeep, 100));
    let refused = inside(rt.alloc(), 64, keyword)?;
    assert!(rt; is_refused(rt.alloc(), &refused, ParseBreach::Syntax, 105));
    let deep = inside(rt.alloc(), 65, keyword)?;
    assert!(rt; is_refused(rt.alloc(), &deep, ParseBreach::TooDeep, 100));
    Ok(())
}

#[test]
fn expressions_may_hold_1024_operators(rt: HostRuntime) -> Result<(), AllocError> {
    let most = sum_with(rt.alloc(), 1024)?;
    assert_eq!(rt; left_by_expression(rt.alloc(), &most), Some(0));
    drop(most);
    let more = sum_with(rt.alloc(), 1025)?;
    assert!(rt; is_refused(rt.alloc(), &more, ParseBreach::TooDeep, 1025));
    Ok(())
}
