//! What is printed from a tree is its text, token by token, and is read as that tree.

mod table;

use crate::frames::{EXPRESSION, FILE, Frame, MAIN, MEMBER, SETUP, STATEMENT, framed};
use ooo_lexer::{MOST_BYTES, Token, TokenKind, lex, read_number, unescape};
use ooo_parser::parse;
use ooo_printer::print;
use ooo_syntax::Unit;
use std::alloc::{AllocError, Global};
use std::process::Abort;
use std::test::Fail;

/// A token by its kind and its bytes.
#[derive(Clone, Copy)]
struct Lexeme<'a> {
    kind: TokenKind,
    bytes: &'a [u8],
}

impl<'a> Lexeme<'a> {
    fn is(self, text: &str) -> bool {
        self.bytes == text.as_bytes()
    }
}

/// The tokens of a source.
fn tokens_of(rt: &impl Abort, alloc: Global, source: &[u8]) -> Result<Vec<Token>, AllocError> {
    assert!(rt; source.len() <= MOST_BYTES);
    match lex(alloc, source) {
        Ok(tokens) => Ok(tokens),
        Err(_) => Ok(Vec::new(alloc)),
    }
}

fn lexeme_of<'a>(rt: &impl Abort, source: &'a [u8], token: &Token) -> Lexeme<'a> {
    assert!(rt; token.start <= token.end && token.end as usize <= source.len());
    Lexeme {
        kind: token.kind,
        bytes: token.text(source),
    }
}

fn lexemes_of<'a>(
    rt: &impl Abort,
    alloc: Global,
    source: &'a [u8],
    tokens: &[Token],
) -> Result<Vec<Lexeme<'a>>, AllocError> {
    let mut lexemes = Vec::new(alloc);
    for token in tokens {
        lexemes.push(lexeme_of(rt, source, token))?;
    }
    Ok(lexemes)
}

/// The tokens without the pairs `std ::` and `sc_core ::`. Where a text is read, a `::` stands nowhere else.
fn without_pairs<'a>(alloc: Global, all: &[Lexeme<'a>]) -> Result<Vec<Lexeme<'a>>, AllocError> {
    let mut kept = Vec::new(alloc);
    for lexeme in all {
        if lexeme.is("::") {
            let _ = kept.pop();
        } else {
            kept.push(*lexeme)?;
        }
    }
    Ok(kept)
}

/// The value of a text token.
fn value_of(alloc: Global, quoted: &[u8]) -> Result<Vec<u8>, AllocError> {
    let mut value = Vec::new(alloc);
    if let [_, inside @ .., _] = quoted {
        unescape(&mut value, inside)?;
    }
    Ok(value)
}

/// Whether a printed token is the text's: of a number the kind and the value count, of a text the value, and of any
/// other the bytes.
fn is_same(alloc: Global, a: Lexeme<'_>, b: Lexeme<'_>) -> Result<bool, AllocError> {
    if a.kind != b.kind {
        return Ok(false);
    }
    match a.kind {
        TokenKind::Number => Ok(is_same_number(a.bytes, b.bytes)),
        TokenKind::Text => {
            let left = value_of(alloc, a.bytes)?;
            let right = value_of(alloc, b.bytes)?;
            Ok(left.as_slice() == right.as_slice())
        }
        TokenKind::Word | TokenKind::Sign => Ok(a.bytes == b.bytes),
    }
}

fn is_same_number(a: &[u8], b: &[u8]) -> bool {
    match (read_number(a), read_number(b)) {
        (Some(m), Some(n)) => m.kind == n.kind && m.value == n.value,
        _ => false,
    }
}

/// How many braces are open after a token.
fn depth_after(depth: u32, lexeme: Lexeme<'_>) -> u32 {
    if lexeme.is("{") {
        depth.saturating_add(1)
    } else if lexeme.is("}") {
        depth.saturating_sub(1)
    } else {
        depth
    }
}

/// Whether the printed tokens are those of the text. The `;` behind a constructor, which closes to one open brace, may be
/// left out.
fn are_same(
    alloc: Global,
    text: &[Lexeme<'_>],
    printed: &[Lexeme<'_>],
) -> Result<bool, AllocError> {
    let mut rest = printed;
    let mut depth = 0;
    let mut closes = false;
    for lexeme in text {
        let left_out = depth == 1 && closes && lexeme.is(";");
        match rest {
            [first, more @ ..] if is_same(alloc, *lexeme, *first)? => rest = more,
            _ if left_out => {}
            _ => return Ok(false),
        }
        depth = depth_after(depth, *lexeme);
        closes = lexeme.is("}");
    }
    Ok(rest.is_empty())
}

fn read(rt: &impl Abort, alloc: Global, source: &[u8], what: &str) -> Result<Unit, AllocError> {
    assert!(rt; source.len() <= MOST_BYTES);
    let Ok(tokens) = lex(alloc, source) else {
        rt.abort();
    };
    match parse(alloc, source, &tokens) {
        Ok(tree) => Ok(tree),
        Err(_) => {
            assert!(rt; false, "not read: {what}");
            rt.abort();
        }
    }
}

/// What is printed from the tree of a source.
fn printed(
    rt: &impl Abort,
    alloc: Global,
    source: &[u8],
    what: &str,
) -> Result<Vec<u8>, AllocError> {
    let tree = read(rt, alloc, source, what)?;
    let printed = print(alloc, &tree);
    drop(tree);
    printed
}

/// Whether the tokens of what was printed are those of the text.
fn has_its_tokens(
    rt: &impl Abort,
    alloc: Global,
    text: &[u8],
    printed: &[u8],
) -> Result<bool, AllocError> {
    let own = tokens_of(rt, alloc, text)?;
    let own = lexemes_of(rt, alloc, text, own.as_slice())?;
    let own = without_pairs(alloc, own.as_slice())?;
    let found = tokens_of(rt, alloc, printed)?;
    let found = lexemes_of(rt, alloc, printed, found.as_slice())?;
    are_same(alloc, own.as_slice(), found.as_slice())
}

fn check_row(rt: &impl Abort, alloc: Global, frame: Frame, body: &str) -> Result<(), AllocError> {
    let text = framed(alloc, frame, body)?;
    let once = printed(rt, alloc, text.as_slice(), body)?;
    let is_its_own = has_its_tokens(rt, alloc, text.as_slice(), once.as_slice())?;
    assert!(rt; is_its_own, "printed: {body}");
    let twice = printed(rt, alloc, once.as_slice(), body)?;
    assert!(rt;
        twice.as_slice() == once.as_slice(),
        "printed twice: {body}"
    );
    Ok(())
}

fn check(rt: &impl Abort, alloc: Global, frame: Frame, rows: &str) -> Result<(), AllocError> {
    for body in rows.lines() {
        if !body.is_empty() {
            check_row(rt, alloc, frame, body)?;
        }
    }
    Ok(())
}

#[test]
fn files_are_printed(rt: HostRuntime) -> Result<(), Fail> {
    check(&rt, rt.alloc(), FILE, table::FILES)?;
    Ok(())
}

#[test]
fn members_are_printed(rt: HostRuntime) -> Result<(), Fail> {
    check(&rt, rt.alloc(), MEMBER, table::MEMBERS)?;
    Ok(())
}

#[test]
fn constructors_and_sc_main_are_printed(rt: HostRuntime) -> Result<(), Fail> {
    check(&rt, rt.alloc(), SETUP, table::SETUPS)?;
    check(&rt, rt.alloc(), MAIN, table::MAINS)?;
    Ok(())
}

#[test]
fn statements_are_printed(rt: HostRuntime) -> Result<(), Fail> {
    check(&rt, rt.alloc(), STATEMENT, table::STATEMENTS)?;
    Ok(())
}

#[test]
fn expressions_are_printed(rt: HostRuntime) -> Result<(), Fail> {
    check(&rt, rt.alloc(), EXPRESSION, table::EXPRESSIONS)?;
    Ok(())
}
