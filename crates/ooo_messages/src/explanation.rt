use crate::hints::add_hints;
use crate::message::Message;
use crate::reasons::stop_reason;
use crate::refusal::{Breach, TextRefusal};
use crate::site::{Site, place_of_word};
use ooo_syntax::ParseBreach;
use ooo_value::Name;
use std::alloc::{AllocError, Global};

/// What is wrong with a text that is refused, in the form that compilers have: where and what, the line with a mark, and
/// hints on how to go on.
pub fn explain(
    alloc: Global,
    source: &[u8],
    refusal: &TextRefusal<'_>,
) -> Result<String, AllocError> {
    let site = Site::find(alloc, source, refusal.at)?;
    let mut message = Message::new(alloc, source);
    message.begin_error(refusal.at);
    add_error(&mut message, refusal, &site);
    message.end_shown(refusal.at);
    add_hints(&mut message, refusal, &site);
    message.into_text()
}

// Says what is wrong, with the token or the names that it is about.
fn add_error(message: &mut Message<'_>, refusal: &TextRefusal<'_>, site: &Site<'_>) {
    let reason = refusal.breach.reason();
    let found = match site.here() {
        Some(token) => site.text(token),
        None => b"",
    };
    match refusal.breach {
        Breach::Lexer(_) => message.words(reason),
        Breach::Parser(ParseBreach::Syntax) if site.here().is_none() => message.words(
            "the text ends too early",
        ),
        Breach::Parser(_) => add_found(message, "found '", found, reason),
        Breach::Types(_) => add_found(message, "'", found, reason),
        Breach::Elaborate(_) => add_names(message, refusal.names, reason),
    }
}

// Says what is wrong with a token.
fn add_found(message: &mut Message<'_>, before: &str, found: &[u8], reason: &str) {
    message.words(before);
    message.token(found);
    message.all_words(&["': ", reason]);
}

// Says what is wrong with the first of these names, and behind it the others.
fn add_names(message: &mut Message<'_>, names: &[Name], reason: &str) {
    let Some((name, others)) = names.split_first() else {
        return message.words(reason);
    };
    message.all_words(&[text_of(name), ": ", reason]);
    let mut mark = ": ";
    for other in others {
        message.all_words(&[mark, text_of(other)]);
        mark = " ";
    }
}

// A name as it is told: a text names nothing but by ASCII.
fn text_of(name: &Name) -> &str {
    str::from_utf8(name.as_bytes()).unwrap_or("")
}

/// Why a text isn't run that no time stops, in the form that compilers have; nothing is said where it has no `sc_start`.
pub fn explain_stop(alloc: Global, source: &[u8]) -> Result<Option<String>, AllocError> {
    let Some(at) = place_of_word(alloc, source, b"sc_start")? else {
        return Ok(None);
    };
    let mut message = Message::new(alloc, source);
    message.begin_error(at);
    message.words(stop_reason());
    message.end_shown(at);
    message.hint("write 'sc_start(100, SC_NS);', or call with '--stop 100ns'");
    message.into_text().map(Some)
}
