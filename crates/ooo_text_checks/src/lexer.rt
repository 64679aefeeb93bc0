//! Sources and their tokens, by hand; positions; and the calls on single tokens.

mod table;

use ooo_lexer::{
    LexBreach, LexError, MOST_BYTES, Number, Position, Token, TokenKind, lex, position_of_end,
    read_number, unescape,
};
use std::alloc::{AllocError, Global};
use std::process::Abort;
use std::test::Fail;

/// A source, and what `lex` gives as [`shown`] writes it.
pub type Case = (&'static [u8], &'static [u8]);

// Writes each token as the letter of its kind, a colon, its bytes and a bar; or the breach's name and position.
fn shown(rt: &impl Abort, alloc: Global, source: &[u8]) -> Result<Vec<u8>, AllocError> {
    assert!(rt; source.len() <= MOST_BYTES);
    match lex(alloc, source) {
        Ok(tokens) => show_tokens(rt, alloc, source, &tokens),
        Err(error) => show_error(alloc, error),
    }
}

fn show_tokens(
    rt: &impl Abort,
    alloc: Global,
    source: &[u8],
    tokens: &[Token],
) -> Result<Vec<u8>, AllocError> {
    let mut text = Vec::new(alloc);
    for token in tokens {
        assert!(rt; token.start <= token.end && token.end as usize <= source.len());
        let letter = match token.kind {
            TokenKind::Word => b'w',
            TokenKind::Number => b'n',
            TokenKind::Text => b't',
            TokenKind::Sign => b's',
        };
        text.push(letter)?;
        text.push(b':')?;
        text.extend_from_slice(token.text(source))?;
        text.push(b'|')?;
    }
    Ok(text)
}

fn show_error(alloc: Global, error: LexError) -> Result<Vec<u8>, AllocError> {
    let LexError::Refused(breach, position) = error else {
        return Err(AllocError);
    };
    let line = position.line;
    let column = position.column;
    let text = format!(in alloc; "{breach} {line}:{column}")?;
    Vec::from_slice(alloc, text.as_bytes())
}

fn check(rt: &impl Abort, alloc: Global, cases: &[Case]) -> Result<(), AllocError> {
    for (number, (source, wanted)) in cases.iter().enumerate() {
        let found = shown(rt, alloc, source)?;
        assert!(rt; found.as_slice() == *wanted, "case {number}");
    }
    Ok(())
}

#[test]
fn cuts_at_spaces(rt: HostRuntime) -> Result<(), Fail> {
    check(&rt, rt.alloc(), &table::SPACES)?;
    Ok(())
}

#[test]
fn takes_the_longest_sign(rt: HostRuntime) -> Result<(), Fail> {
    check(&rt, rt.alloc(), &table::SIGNS)?;
    Ok(())
}

#[test]
fn tells_numbers(rt: HostRuntime) -> Result<(), Fail> {
    check(&rt, rt.alloc(), &table::NUMBERS)?;
    Ok(())
}

#[test]
fn tells_texts(rt: HostRuntime) -> Result<(), Fail> {
    check(&rt, rt.alloc(), &table::TEXTS)?;
    Ok(())
}

#[test]
fn skips_comments(rt: HostRuntime) -> Result<(), Fail> {
    check(&rt, rt.alloc(), &table::COMMENTS)?;
    Ok(())
}

#[test]
fn skips_directives(rt: HostRuntime) -> Result<(), Fail> {
    check(&rt, rt.alloc(), &table::DIRECTIVES)?;
    Ok(())
}

fn token(kind: TokenKind, start: u32, end: u32, line: u32, column: u32) -> Token {
    Token {
        kind,
        start,
        end,
        line,
        column,
    }
}

#[test]
fn places_tokens(rt: HostRuntime) -> Result<(), Fail> {
    let source = b"a\n\t bc \"d\"#include <systemc>\r\n\n<</*\n\n*/x";
    let tokens = lex(rt.alloc(), source).ok().ok_or("not cut")?;
    let wanted = [
        token(TokenKind::Word, 0, 1, 1, 1),
        token(TokenKind::Word, 4, 6, 2, 3),
        token(TokenKind::Text, 7, 10, 2, 6),
        token(TokenKind::Sign, 31, 33, 4, 1),
        token(TokenKind::Word, 39, 40, 6, 3),
    ];
    assert!(rt; tokens.as_slice() == wanted.as_slice());
    Ok(())
}

#[test]
fn tells_where_sources_end(rt: HostRuntime) {
    let rows: [(&[u8], u32, u32); 4] = [
        (b"", 1, 1),
        (b"ab", 1, 3),
        (b"ab\n", 1, 4),
        (b"ab\n\nc", 3, 2),
    ];
    for (source, line, column) in rows {
        assert!(rt; source.len() <= MOST_BYTES);
        assert!(rt; position_of_end(source) == Position { line, column });
    }
}

#[test]
fn reads_numbers(rt: HostRuntime) {
    for (bytes, kind, value) in &table::KINDS {
        let number = Number {
            kind: *kind,
            value: *value,
        };
        assert!(rt; read_number(bytes) == Some(number));
    }
    for bytes in &table::NO_NUMBERS {
        assert!(rt; read_number(bytes).is_none());
    }
}

#[test]
fn undoes_escapes(rt: HostRuntime) -> Result<(), Fail> {
    let mut text = Vec::from_slice(rt.alloc(), b"> ")?;
    unescape(&mut text, b"a\\n\\tb\\\\n\\\"\xc3\xa9")?;
    assert!(rt; text.as_slice() == b"> a\n\tb\\n\"\xc3\xa9".as_slice());
    Ok(())
}

#[test]
fn cuts_a_source_of_one_mebibyte(rt: HostRuntime) -> Result<(), Fail> {
    let slashes = vec![in rt.alloc(); b'/'; MOST_BYTES]?;
    assert!(rt; slashes.len() <= MOST_BYTES);
    let tokens = lex(rt.alloc(), &slashes).ok().ok_or("not cut")?;
    assert!(rt; tokens.is_empty());
    let digits = vec![in rt.alloc(); b'1'; MOST_BYTES]?;
    assert!(rt; digits.len() <= MOST_BYTES);
    let position = Position { line: 1, column: 1 };
    assert!(rt;
        lex(rt.alloc(), &digits) == Err(LexError::Refused(LexBreach::NumberTooWide, position))
    );
    Ok(())
}
