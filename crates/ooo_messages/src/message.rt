use crate::excerpt::{line_of, put_excerpt};
use crate::sheet::Sheet;
use ooo_lexer::Position;
use std::alloc::{AllocError, Global};

/// What is said of a source, in the form that compilers have and editors read. It keeps that memory ran out until it is
/// asked for its text.
#[derive(Drop)]
pub struct Message<'a> {
    source: &'a [u8],
    sheet: Sheet,
}

impl<'a> Message<'a> {
    /// A message that says nothing yet.
    pub fn new(alloc: Global, source: &'a [u8]) -> Message<'a> {
        Message {
            source,
            sheet: Sheet::new(alloc),
        }
    }

    /// Begins to say what is wrong at a place.
    pub fn begin_error(&mut self, at: Position) {
        self.begin(at, ": error: ");
    }

    /// Begins to say what is wrong with the source and not with a place of it.
    pub fn begin_error_anywhere(&mut self) {
        self.sheet.put("<stdin>: error: ");
    }

    /// Begins to say something of another place.
    pub fn begin_note(&mut self, at: Position) {
        self.begin(at, ": note: ");
    }

    fn begin(&mut self, at: Position, sort: &str) {
        self.sheet.put("<stdin>:");
        self.sheet.number(at.line);
        self.sheet.put(":");
        self.sheet.number(at.column);
        self.sheet.put(sort);
    }

    /// Goes on with these words.
    pub fn words(&mut self, words: &str) {
        self.sheet.put(words);
    }

    /// Goes on with these words, one after the other.
    pub fn all_words(&mut self, words: &[&str]) {
        for part in words {
            self.words(part);
        }
    }

    /// Goes on with a token's bytes.
    pub fn token(&mut self, token: &[u8]) {
        self.sheet.token(token);
    }

    /// Ends what was begun.
    pub fn end(&mut self) {
        self.sheet.put("\n");
    }

    /// Ends what was begun, and shows the place.
    pub fn end_shown(&mut self, at: Position) {
        self.end();
        if let Some(line) = line_of(self.source, at.line) {
            put_excerpt(&mut self.sheet, line, at.column);
        }
    }

    /// Says something of another place, and shows it.
    pub fn note_at(&mut self, at: Position, what: &str) {
        self.begin_note(at);
        self.words(what);
        self.end_shown(at);
    }

    /// Begins to say something that belongs to the place that was shown last.
    pub fn begin_hint(&mut self) {
        self.sheet.put("note: ");
    }

    /// Says something that belongs to the place that was shown last.
    pub fn hint(&mut self, what: &str) {
        self.begin_hint();
        self.words(what);
        self.end();
    }

    /// What was said, unless memory ran out.
    pub fn into_text(self) -> Result<String, AllocError> {
        self.sheet.into_text()
    }
}
