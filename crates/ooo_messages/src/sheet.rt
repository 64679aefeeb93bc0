use std::alloc::{AllocError, Global};

/// The most bytes of a token that are named in a sentence.
const MOST_NAMED: usize = 60;

/// A text that grows. Once memory has run out, nothing more is added to it, and who asks for it is told so: what adds to
/// it need not ask each time.
#[derive(Drop)]
pub struct Sheet {
    text: String,
    added: Result<(), AllocError>,
}

impl Sheet {
    /// A sheet with nothing on it.
    pub fn new(alloc: Global) -> Sheet {
        Sheet {
            text: String::new(alloc),
            added: Ok(()),
        }
    }

    /// The text, unless memory has run out.
    pub fn into_text(self) -> Result<String, AllocError> {
        let Sheet { text, added } = self;
        match added {
            Ok(()) => Ok(text),
            Err(error) => Err(error),
        }
    }

    /// Adds words.
    pub fn put(&mut self, words: &str) {
        if self.added.is_ok() {
            self.added = self.text.push_str(words);
        }
    }

    /// Adds a number by its decimal digits.
    pub fn number(&mut self, number: u32) {
        if self.added.is_ok() {
            self.added = write!(self.text, "{number}");
        }
    }

    /// Adds a token's bytes as they are named in a sentence: of a long one the first ones.
    pub fn token(&mut self, token: &[u8]) {
        self.shown(token.get(..MOST_NAMED).unwrap_or(token));
    }

    /// Adds bytes as they are shown: a tab and what ASCII prints as they are, and a `?` for each other byte.
    pub fn shown(&mut self, bytes: &[u8]) {
        for byte in bytes {
            self.letter(shown_as(*byte));
        }
    }

    /// Adds as many blanks as there are bytes, with the tabs among them kept.
    pub fn blanks(&mut self, bytes: &[u8]) {
        for byte in bytes {
            self.letter(blank_for(*byte));
        }
    }

    fn letter(&mut self, letter: char) {
        if self.added.is_ok() {
            self.added = self.text.push(letter);
        }
    }
}

fn shown_as(byte: u8) -> char {
    match byte {
        b'\t' | b' '..=b'~' => char::from(byte),
        _ => '?',
    }
}

fn blank_for(byte: u8) -> char {
    if byte == b'\t' { '\t' } else { ' ' }
}
