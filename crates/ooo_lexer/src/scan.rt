ghost use Rattle.std.specs.Prelude.{◌≡◌, ◌≤◌, ◌<◌, ◌+◌, ◌++◌, ◌^◌, All, map, take, length, OnOk, IfOk};
ghost use Rattle.ooo_lexer.specs.Pieces.{IsUncut, AreLexemesOf};
ghost use Rattle.ooo_lexer.specs.Spans.{AreTokensOf, AreOnlyTokensOf, IsWithin, AreInOrder, lexeme_at};
ghost use Rattle.ooo_lexer.specs.Breaches.{HasBreach, IsOnlyBreach, IsUnbroken, IfRefused};
ghost use Rattle.ooo_lexer.specs.Steps.{tokens_of, cursor_after, position_of};

use crate::cursor::Cursor;
use crate::error::LexError;
use crate::flaw::Flaw;
use crate::heads::{Head, PieceKind, head_of};
use crate::position::{MOST_BYTES, Position};
use crate::token::Token;
use std::alloc::{AllocError, Global};

// Keeps the token of a piece, if it is one.
fn keep(tokens: &mut Vec<Token>, head: Head, cursor: Cursor) -> Result<(), AllocError>
    requires { cursor.start + head.length < 2 ^ 32 }
    ensures { let added = tokens_of head.kind head.length cursor in
        OnOk result (tokens.new.items ≡ tokens.old.items ++ added) }
{
    if let PieceKind::Token(kind) = head.kind {
        tokens.push(Token {
            kind,
            start: cursor.start,
            end: cursor.start + head.length as u32,
            line: cursor.line,
            column: cursor.column,
        })?;
    }
    Ok(())
}

/// Cuts a source into tokens by the longest fit, and skips spaces, comments and directives (ISO/IEC
/// 14882, [lex.pptoken], [lex.comment] and [cpp.include]).
///
/// It takes memory for the tokens alone, and its time is in proportion to the source; no clause says so.
///
/// # Errors
///
/// The leftmost breach of the source, with its position, or `OutOfMemory` where memory ran out,
/// whatever the source.
pub fn lex(alloc: Global, source: &[u8]) -> Result<Vec<Token>, LexError>
    requires { length source.now ≤ MOST_BYTES }

    // The source is cut into pieces, these are their tokens, and any cutting gives the same.
    ensures tokens { IfOk result (λ v. AreTokensOf source.now v.items) }
    ensures only { IfOk result (λ v. AreOnlyTokensOf source.now v.items) }

    // What the tokens' spans are.
    ensures within { IfOk result (λ v. All (IsWithin source.now) v.items) }
    ensures in_order { IfOk result (λ v. AreInOrder v.items) }
    ensures lexemes { IfOk result
        (λ v. AreLexemesOf source.now (map (lexeme_at source.now) v.items)) }

    // A source that is refused has this breach at this position, no other breach, and no cutting.
    // One that is cut has no breach.
    ensures breach { IfRefused result (HasBreach source.now) }
    ensures one { IfRefused result (IsOnlyBreach source.now) }
    ensures uncut { IfRefused result (λ _ _. IsUncut source.now) }
    ensures unbroken { IfOk result (λ _. IsUnbroken source.now) }
{
    let mut tokens = Vec::new(alloc);
    let mut cursor = Cursor::FIRST;
    let mut rest = source;
    'pieces: while !rest.is_empty() {
        let head = match head_of(rest) {
            Ok(head) => head,
            Err(flaw) => {
                let position = flaw_position(cursor, rest, flaw);
                return Err(LexError::Refused(flaw.breach, position));
            }
        };
        keep(&mut tokens, head, cursor)?;
        let (piece, after) = rest.split_at(head.length);
        cursor = cursor.after(piece);
        rest = after;
    }
    Ok(tokens)
}

// The position of a flaw of what stands at a cursor.
fn flaw_position(cursor: Cursor, rest: &[u8], flaw: Flaw) -> Position
    requires within { flaw.before ≤ length rest.now }
    requires start_fits { cursor.start + length rest.now < 2 ^ 32 }
    requires line_fits { cursor.line + length rest.now < 2 ^ 32 }
    requires column_fits { cursor.column + length rest.now < 2 ^ 32 }
    ensures { result ≡ position_of (cursor_after cursor (take flaw.before rest.now)) }
{
    let (before, _) = rest.split_at(flaw.before);
    cursor.after(before).position()
}
