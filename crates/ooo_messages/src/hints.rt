use crate::declared::declared_in;
use crate::lexer_hints::lexer_hint;
use crate::message::Message;
use crate::refusal::{Breach, TextRefusal};
use crate::shape::hint_of;
use crate::shapes::{elaborate_shapes, expected_shapes, hint_anywhere, parser_hint, type_hint};
use crate::site::Site;
use crate::spelling::{is_near, known_near};
use ooo_checked::TypeBreach;
use ooo_lexer::{Position, Token, TokenKind};
use ooo_syntax::ParseBreach;
use ooo_walk::ElabBreach;

/// Adds what helps to go on, for a text that is refused.
pub fn add_hints(message: &mut Message<'_>, refusal: &TextRefusal<'_>, site: &Site<'_>) {
    match refusal.breach {
        Breach::Lexer(breach) => add_some(message, lexer_hint(breach, site.source(), refusal.at)),
        Breach::Parser(breach) => add_parser_hints(message, breach, site),
        Breach::Types(breach) => {
            add_declaration(message, site, declared_word(breach, site));
            if breach == TypeBreach::UnknownName {
                add_meant(message, site);
            }
            add_some(message, type_hint(breach, site))
        }
        Breach::Elaborate(breach) => {
            if breach == ElabBreach::PortKind {
                add_binding(message, site);
            }
            add_some(message, hint_of(elaborate_shapes(breach), site))
        }
    }
}

fn add_some(message: &mut Message<'_>, hint: Option<&str>) {
    if let Some(hint) = hint {
        message.hint(hint);
    }
}

// What is known of a token that the grammar refuses: the word before it that is misspelled, or the way around where it
// meets a shape; else the end that is missing, or what may stand there.
fn add_parser_hints(message: &mut Message<'_>, breach: ParseBreach, site: &Site<'_>) {
    if let Some(hint) = hint_anywhere(site) {
        return message.hint(hint);
    }
    if breach == ParseBreach::TooDeep {
        return message.hint("give a part of it to a local, or to a function");
    }
    match misspelled(site) {
        Some((token, meant)) => { add_spelling(message, place_of(token), site.text(token), meant) }
        None => add_expected(message, site),
    }
}

// Says which word of the language may be meant by one that is none.
fn add_spelling(message: &mut Message<'_>, at: Position, word: &[u8], meant: &str) {
    message.begin_note(at);
    message.words("'");
    message.token(word);
    message.all_words(&["' is no word of the language: is '", meant, "' meant?"]);
    message.end_shown(at);
}

// The way around where a token meets a shape of its place; else the end that is missing, or what may stand there.
fn add_expected(message: &mut Message<'_>, site: &Site<'_>) {
    let place = site.place();
    if let Some(hint) = parser_hint(place, site) {
        return message.hint(hint);
    }
    if let Some(end) = missing_end(site) {
        return message.note_at(end, "a ';' seems to be missing here");
    }
    add_some(message, hint_of(expected_shapes(place), site))
}

// The word before the refused token, or before the parentheses before it, that may be a word of the language.
fn misspelled<'s>(site: &'s Site<'_>) -> Option<(&'s Token, &'static str)> {
    let token = match site.before().split_last() {
        Some((last, before)) if site.text(last) == b")".as_slice() => word_before_parens(
            site, before,
        ),
        Some((last, _)) => Some(last),
        None => None,
    }?;
    let word = site.text(token);
    if site.declared(word).is_some() {
        return None;
    }
    Some((token, known_near(word)?))
}

// The token before the parenthesis that is open at the end of these tokens.
fn word_before_parens<'s>(site: &Site<'_>, tokens: &'s [Token]) -> Option<&'s Token> {
    let mut depth: u32 = 1;
    for token in tokens.iter().rev() {
        if depth == 0 {
            return Some(token);
        }
        depth = match site.text(token) {
            b")" => depth.saturating_add(1),
            b"(" => depth - 1,
            _ => depth,
        };
    }
    None
}

// Where a ';' is missing, as far as the layout tells: behind the last token of an earlier line that may end a statement.
fn missing_end(site: &Site<'_>) -> Option<Position> {
    let last = site.before().last()?;
    let is_ended = match site.here() {
        Some(here) => {
            (last.line < here.line && here.kind == TokenKind::Word)
                || site.text(here) == b"}".as_slice()
        }
        None => false,
    };
    if is_ended && may_end(last, site.text(last)) {
        Some(place_behind(last))
    } else {
        None
    }
}

fn may_end(token: &Token, text: &[u8]) -> bool {
    token.kind != TokenKind::Sign || matches!(text, b")" | b"]" | b"}" | b"++" | b"--")
}

fn place_of(token: &Token) -> Position {
    Position {
        line: token.line,
        column: token.column,
    }
}

// The place of what stands right behind a token, which ends on its line.
fn place_behind(token: &Token) -> Position {
    Position {
        line: token.line,
        column: token
            .column
            .saturating_add(token.end.saturating_sub(token.start)),
    }
}

// The word whose declaration tells more about a breach of names and types: the one before the dot, or the one itself.
fn declared_word<'s>(breach: TypeBreach, site: &'s Site<'_>) -> Option<&'s Token> {
    match site.before().split_last() {
        Some((dot, before)) if site.text(dot) == b".".as_slice() => before.last(),
        _ if breach == TypeBreach::UnknownName => None,
        _ => site.here(),
    }
}

// Shows how a word is declared.
fn add_declaration(message: &mut Message<'_>, site: &Site<'_>, word: Option<&Token>) {
    let Some(word) = word else {
        return;
    };
    let name = site.text(word);
    if let Some(declared) = site.declared(name)
        && declared.name.start != word.start
    {
        let at = place_of(declared.name);
        message.begin_note(at);
        message.words("'");
        message.token(name);
        message.words("' is declared here");
        message.end_shown(at);
    }
}

// Says which word may be meant by one that is unknown.
fn add_meant(message: &mut Message<'_>, site: &Site<'_>) {
    if let Some(here) = site.here()
        && let Some(meant) = meant_by(site, site.text(here))
    {
        message.begin_hint();
        message.words("is '");
        message.token(meant);
        message.words("' meant?");
        message.end();
    }
}

// The word around a place, or else of the language, that may be meant by one that is unknown.
fn meant_by<'s>(site: &Site<'s>, word: &[u8]) -> Option<&'s [u8]> {
    let near = site
        .around()
        .iter()
        .filter(|token| token.kind == TokenKind::Word)
        .map(|token| site.text(token))
        .find(|other| is_near(word, other));
    match near {
        Some(near) => Some(near),
        None => known_near(word).map(|known| known.as_bytes()),
    }
}

// Shows how the port and the channel of a binding `instance . port ( channel )` are declared.
fn add_binding(message: &mut Message<'_>, site: &Site<'_>) {
    let Some([instance, _, port, rest @ ..]) = site.from(0) else {
        return;
    };
    let channel = rest.iter().find(|token| token.kind == TokenKind::Word
        && site.text(token) != b"bind".as_slice());
    if let Some(tokens) = site.module_of(site.text(instance))
        && let Some(declared) = declared_in(site, tokens, site.text(port), u32::MAX)
    {
        message.note_at(place_of(declared.name), "the port is declared here");
    }
    add_declaration(message, site, channel);
}
