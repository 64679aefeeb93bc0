ghost use Rattle.std.specs.Prelude.{◌≡◌, length};
ghost use Rattle.ooo_lexer.specs.Heads.{head, head_of_number, marked_head, head_of};
ghost use Rattle.ooo_lexer.specs.declared.heads.PieceKind.TheVariants as piece;
ghost use Rattle.ooo_lexer.specs.Numerals.{number_of};

use crate::breach::LexBreach;
use crate::bytes::{Class, begins_word, is_digit, is_space};
use crate::flaw::Flaw;
use crate::marks::{directive_head, is_separator, mark_head};
use crate::numbers::number_of;
use crate::texts::text_head;
use crate::token::TokenKind;

/// What a piece of a source is.
#[derive(Clone, Copy)]
pub(crate) enum PieceKind {
    Space,
    Comment,
    Directive,
    Token(TokenKind),
}

/// The first piece of a list of bytes: what it is, and how many bytes it takes.
#[derive(Clone, Copy)]
pub(crate) struct Head {
    pub(crate) kind: PieceKind,
    pub(crate) length: usize,
}

/// The first piece, or why none stands first.
#[tactic(auto, unfolding(crate::specs::Heads::head_of, crate::specs::Heads::head_at), using(crate::proofs::Separators::head_of_separator))]
pub(crate) fn head_of(bytes: &[u8]) -> Result<Head, Flaw>
    ensures { result ≡ head_of bytes.now }
{
    let [first, rest @ ..] = bytes else {
        return Err(Flaw::first(LexBreach::BadByte));
    };
    if is_space(*first) {
        return Ok(Head {
            kind: PieceKind::Space,
            length: 1,
        });
    }
    if is_separator(*first) {
        return Ok(token_head(TokenKind::Sign, 1));
    }
    if begins_word(*first) {
        let (run, _) = Class::Word.split(bytes);
        Ok(token_head(TokenKind::Word, run.len()))
    } else if is_digit(*first) {
        let (run, _) = Class::Word.split(bytes);
        number_head(run)
    } else {
        marked_head(*first, rest)
    }
}

// A text, a directive, a comment or a sign, by its first byte and what follows.
fn marked_head(first: u8, rest: &[u8]) -> Result<Head, Flaw>
    ensures { result ≡ marked_head first rest.now }
{
    match first {
        b'"' => text_head(rest),
        b'#' => directive_head(rest),
        _ => mark_head(first, rest),
    }
}

pub(crate) fn token_head(kind: TokenKind, length: usize) -> Head
    ensures { result ≡ head (piece.Token kind) length }
{
    Head {
        kind: PieceKind::Token(kind),
        length,
    }
}

// A number, by its word bytes.
fn number_head(run: &[u8]) -> Result<Head, Flaw>
    ensures { result ≡ head_of_number (length run.now) (number_of run.now) }
{
    match number_of(run) {
        Ok(_) => Ok(token_head(TokenKind::Number, run.len())),
        Err(breach) => Err(Flaw::first(breach)),
    }
}
