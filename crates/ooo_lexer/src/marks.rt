ghost use Rattle.std.specs.Prelude.{◌≡◌, ◌≤◌, length, IfSome};
ghost use Rattle.ooo_lexer.specs.Forms.{headers};
ghost use Rattle.ooo_lexer.specs.Heads.{flaw, header_length, is_end, is_named, is_include, directive_head, close_at, block_head, is_pair, takes_equals, may_be_doubled, stands_alone, is_lone_sign, is_separator, sign_head, mark_head};

use crate::breach::LexBreach;
use crate::bytes::Class;
use crate::flaw::Flaw;
use crate::heads::{Head, PieceKind, token_head};
use crate::token::TokenKind;

/// A directive, by what follows its `#`.
pub(crate) fn directive_head(bytes: &[u8]) -> Result<Head, Flaw>
    ensures { result ≡ directive_head bytes.now }
{
    let (line, _) = Class::Line.split(bytes);
    let (_, parts) = Class::Blank.split(line);
    if is_include(parts) {
        Ok(Head {
            kind: PieceKind::Directive,
            length: line.len() + 1,
        })
    } else {
        Err(Flaw::first(LexBreach::Directive))
    }
}

// Whether the bytes are `include`, a header and what may follow it.
fn is_include(bytes: &[u8]) -> bool
    ensures { result ≡ is_include bytes.now }
{
    bytes.starts_with(b"include") && is_named(&bytes[7..])
}

// Whether the bytes are blanks, a header and what may follow it.
fn is_named(bytes: &[u8]) -> bool
    ensures { result ≡ is_named bytes.now }
{
    let (_, parts) = Class::Blank.split(bytes);
    match header_length(parts) {
        Some(length) => is_end(&parts[length..]),
        None => false,
    }
}

// Whether the bytes are blanks and then a comment to the line's end or nothing.
fn is_end(bytes: &[u8]) -> bool
    ensures { result ≡ is_end bytes.now }
{
    let (_, note) = Class::Blank.split(bytes);
    match note {
        [] => true,
        _ => note.starts_with(b"//"),
    }
}

// How many bytes the header takes that stands first.
fn header_length(bytes: &[u8]) -> Option<usize>
    ensures within { IfSome result (λ n. n ≤ length bytes.now) }
    ensures exact { result ≡ header_length headers bytes.now }
{
    if bytes.starts_with(b"<systemc>") {
        Some(9)
    } else if bytes.starts_with(b"<systemc.h>") {
        Some(11)
    } else if bytes.starts_with(b"<iostream>") {
        Some(10)
    } else if bytes.starts_with(b"\"systemc\"") {
        Some(9)
    } else if bytes.starts_with(b"\"systemc.h\"") {
        Some(11)
    } else {
        None
    }
}

/// A comment or a sign, by its first byte and what follows.
pub(crate) fn mark_head(first: u8, rest: &[u8]) -> Result<Head, Flaw>
    ensures { result ≡ mark_head first rest.now }
{
    match rest {
        [b'/', ..] if first == b'/' => {
            let (line, _) = Class::Line.split(rest);
            Ok(Head {
                kind: PieceKind::Comment,
                length: line.len() + 1,
            })
        }
        [b'*', inside @ ..] if first == b'/' => block_head(inside),
        _ => sign_head(first, rest),
    }
}

// A comment that `/*` begins, by what follows that.
fn block_head(inside: &[u8]) -> Result<Head, Flaw>
    ensures { result ≡ block_head (close_at inside.now) }
{
    match close_at(inside) {
        None => Err(Flaw::first(LexBreach::CommentNotClosed)),
        Some(length) => Ok(Head {
            kind: PieceKind::Comment,
            length: length + 4,
        }),
    }
}

// How many bytes stand before the first `*/`.
fn close_at(bytes: &[u8]) -> Option<usize>
    ensures within { IfSome result (λ n. n ≤ length bytes.now) }
    ensures exact { result ≡ close_at bytes.now }
{
    let mut rest = bytes;
    'bytes: while let [first, after @ ..] = rest {
        if *first == b'*' && after.first() == Some(&b'/') {
            return Some(bytes.len() - rest.len());
        }
        rest = after;
    }
    None
}

// A sign, by its first byte and what follows.
fn sign_head(first: u8, rest: &[u8]) -> Result<Head, Flaw>
    ensures { result ≡ sign_head first rest.now }
{
    match rest {
        [b'<', b'=', ..] if first == b'<' => Ok(token_head(TokenKind::Sign, 3)),
        [b'>', b'=', ..] if first == b'>' => Ok(token_head(TokenKind::Sign, 3)),
        [second, ..] if is_pair(first, *second) => Ok(token_head(TokenKind::Sign, 2)),
        _ if is_lone_sign(first) => Ok(token_head(TokenKind::Sign, 1)),
        _ => Err(Flaw::first(LexBreach::BadByte)),
    }
}

// Whether the bytes are a sign: one that ends in `=`, or the same byte twice.
fn is_pair(first: u8, second: u8) -> bool
    ensures { result ≡ is_pair first second }
{
    second == b'=' && takes_equals(first) || first == second && may_be_doubled(first)
}

// The signs of one byte that make another sign with a `=` after them.
fn takes_equals(byte: u8) -> bool
    ensures { result ≡ takes_equals byte }
{
    matches!(
        byte,
        b'<' | b'>' | b'=' | b'!' | b'+' | b'-' | b'*' | b'/' | b'%' | b'&' | b'|' | b'^'
    )
}

// The signs of one byte that make another sign when they stand twice.
fn may_be_doubled(byte: u8) -> bool
    ensures { result ≡ may_be_doubled byte }
{
    matches!(byte, b'<' | b'>' | b'&' | b'|' | b'+' | b'-' | b':')
}

/// The signs of one byte with which no other sign begins, nor a comment. Texts have these most, so they are looked for
/// before the others.
pub(crate) fn is_separator(byte: u8) -> bool
    ensures { result ≡ is_separator byte }
{
    matches!(
        byte,
        b'{' | b'}' | b'(' | b')' | b'[' | b']' | b';' | b',' | b'.'
    )
}

fn is_lone_sign(byte: u8) -> bool
    ensures { result ≡ is_lone_sign byte }
{
    takes_equals(byte) || stands_alone(byte)
}

// The signs of one byte that make no other sign with a `=`.
fn stands_alone(byte: u8) -> bool
    ensures { result ≡ stands_alone byte }
{
    matches!(
        byte,
        b'~' | b'?' | b':' | b';' | b',' | b'.' | b'(' | b')' | b'{' | b'}' | b'[' | b']'
    )
}
