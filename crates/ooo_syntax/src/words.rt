ghost use Rattle.std.specs.Prelude.{◌≡◌, find, true, IfSome};
ghost use Rattle.std.specs.Option.{option_copied};
ghost use Rattle.ooo_syntax.specs.Rows.{are_by_length, has_bytes, in_rows, written_groups};
ghost use Rattle.ooo_syntax.specs.Words.{is_reserved, long_words, middle_words, only_follows_dot, short_words};
ghost use Rattle.ooo_syntax.specs.Words.{signs, terminal_of, words, written_as};

use crate::table::{LONG_WORDS, MIDDLE_WORDS, Row, SHORT_WORDS, SIGNS};
use crate::terminal::Terminal;
use ooo_lexer::TokenKind;
use sqlite_items::at;

/// What a token of this kind and these bytes is to the grammar.
#[inline(always)]
pub fn terminal_of(kind: TokenKind, bytes: &[u8]) -> Terminal
    ensures { result ≡ terminal_of kind bytes.now }
{
    match kind {
        TokenKind::Word => word(bytes).unwrap_or(Terminal::Word),
        TokenKind::Number => Terminal::Number,
        TokenKind::Text => Terminal::Text,
        TokenKind::Sign => sign(bytes).unwrap_or(Terminal::Outside),
    }
}

/// Whether no name may be these bytes.
pub fn is_reserved(bytes: &[u8]) -> bool
    ensures { result ≡ is_reserved bytes.now }
{
    match word(bytes) {
        None => false,
        Some(terminal) => !only_follows_dot(terminal),
    }
}

// Whether the grammar holds the word only after a dot.
fn only_follows_dot(terminal: Terminal) -> bool
    ensures { result ≡ only_follows_dot terminal }
{
    matches!(
        terminal,
        Terminal::Notify | Terminal::Cancel | Terminal::Bind
    )
}

// The words are in three tables, since the proof of what reads a table takes a time that goes by the square of its rows.
fn word(bytes: &[u8]) -> Option<Terminal>
    ensures { result ≡ written_as words bytes.now }
{
    if let Some(terminal) = short_word(bytes) {
        return Some(terminal);
    }
    if let Some(terminal) = middle_word(bytes) {
        return Some(terminal);
    }
    long_word(bytes)
}

#[tactic(auto, unfolding(crate::specs::Words::short_words))]
fn short_word(bytes: &[u8]) -> Option<Terminal>
    ensures { result ≡ written_as short_words bytes.now }
{
    in_groups(0, &SHORT_WORDS, bytes)
}

#[tactic(auto, unfolding(crate::specs::Words::middle_words))]
fn middle_word(bytes: &[u8]) -> Option<Terminal>
    ensures { result ≡ written_as middle_words bytes.now }
{
    in_groups(6, &MIDDLE_WORDS, bytes)
}

#[tactic(auto, unfolding(crate::specs::Words::long_words))]
fn long_word(bytes: &[u8]) -> Option<Terminal>
    ensures { result ≡ written_as long_words bytes.now }
{
    in_groups(9, &LONG_WORDS, bytes)
}

#[tactic(auto, unfolding(crate::specs::Words::signs))]
#[inline(always)]
fn sign(bytes: &[u8]) -> Option<Terminal>
    ensures { result ≡ written_as signs bytes.now }
{
    match common_sign(bytes) {
        Some(terminal) => Some(terminal),
        None => in_groups(0, &SIGNS, bytes),
    }
}

// One of the signs that texts have most, all of one byte, without a search.
#[tactic(auto, unfolding(crate::specs::Words::signs))]
#[inline(always)]
fn common_sign(bytes: &[u8]) -> Option<Terminal>
    ensures { IfSome result (λ terminal. written_as signs bytes.now ≡ Some terminal) }
{
    match bytes {
        [b'{'] => Some(Terminal::OpenBrace),
        [b'}'] => Some(Terminal::CloseBrace),
        [b'('] => Some(Terminal::Open),
        [b')'] => Some(Terminal::Close),
        [b';'] => Some(Terminal::Semicolon),
        [b','] => Some(Terminal::Comma),
        [b'.'] => Some(Terminal::Dot),
        [b'='] => Some(Terminal::Assign),
        _ => None,
    }
}

// What the row with these bytes says, of those in the group of their length; the first group has rows of `shortest` bytes.
#[inline(never)]
fn in_groups(shortest: usize, groups: &[&[Row]], bytes: &[u8]) -> Option<Terminal>
    requires { are_by_length shortest groups.now ≡ true }
    ensures { result ≡ written_as (written_groups groups.now) bytes.now }
{
    if bytes.len() < shortest {
        return None;
    }
    match at(groups, bytes.len() - shortest) {
        None => None,
        Some(rows) => in_rows(rows, bytes),
    }
}

// What the first row with these bytes says.
fn in_rows(rows: &[Row], bytes: &[u8]) -> Option<Terminal>
    ensures { result ≡ in_rows rows.now bytes.now }
{
    match row_of(rows, bytes) {
        None => None,
        Some(row) => Some(row.terminal),
    }
}

// The first row with these bytes.
fn row_of<'a>(rows: &'a [Row], bytes: &[u8]) -> Option<&'a Row>
    ensures { option_copied result ≡ find (has_bytes bytes.now) rows.now }
{
    rows.iter().find(|row| has_bytes(row, bytes))
}

// Whether a row has these bytes. Most differ in the first one, which is compared without a call.
fn has_bytes(row: &Row, bytes: &[u8]) -> bool
    ensures { result ≡ has_bytes bytes.now row.now }
{
    match (row.bytes.split_first(), bytes.split_first()) {
        (Some((a, after)), Some((b, others))) => *a == *b && *after == *others,
        (None, None) => true,
        _ => false,
    }
}
