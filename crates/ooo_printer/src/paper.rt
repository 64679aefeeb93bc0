use ooo_syntax::{Number, Text, TypeForm, TypeName, Word};
use ooo_time::Scale;
use ooo_value::Kind;
use std::alloc::{AllocError, Global};

/// A text that grows by tokens, with a blank between two of them. Once memory has run out, nothing more is added to it,
/// and who asks for it is told so: what prints a part need not ask after each token.
pub(crate) struct Paper {
    text: Vec<u8>,
    added: Result<(), AllocError>,
}

impl Paper {
    pub(crate) fn new(alloc: Global) -> Paper {
        Paper {
            text: Vec::new(alloc),
            added: Ok(()),
        }
    }

    /// The text, unless memory has run out.
    pub(crate) fn into_text(self) -> Result<Vec<u8>, AllocError> {
        let Paper { text, added } = self;
        match added {
            Ok(()) => Ok(text),
            Err(error) => Err(error),
        }
    }

    /// Adds tokens, between which blanks stand.
    pub(crate) fn put(&mut self, tokens: &str) {
        self.bytes(tokens.as_bytes());
    }

    pub(crate) fn word(&mut self, word: &Word) {
        self.bytes(word.name.as_bytes());
    }

    /// Adds the name of a thing, and behind a point what is called of it.
    pub(crate) fn member(&mut self, thing: &Word, called: &Word) {
        self.word(thing);
        self.put(".");
        self.word(called);
    }

    /// Adds a number by its decimal digits and the suffix of its kind.
    pub(crate) fn number(&mut self, number: &Number) {
        self.bytes(b"");
        if self.added.is_ok() {
            self.added = ooo_value::append(&mut self.text, number.value);
        }
        let suffix = match number.value.kind() {
            Kind::Bool | Kind::Int => "",
            Kind::Uint => "u",
            Kind::Long => "ll",
            Kind::Ulong => "ull",
        };
        self.more(suffix.as_bytes());
    }

    /// Adds a text between its quotes.
    pub(crate) fn text(&mut self, text: &Text) {
        self.bytes(b"\"");
        for byte in text.value.as_bytes() {
            self.escaped(*byte);
        }
        self.more(b"\"");
    }

    pub(crate) fn type_name(&mut self, name: &TypeName) {
        self.put(match name.form {
            TypeForm::Bool => "bool",
            TypeForm::Int => "int",
            TypeForm::Unsigned => "unsigned",
            TypeForm::UnsignedInt => "unsigned int",
            TypeForm::LongLong => "long long",
            TypeForm::LongLongInt => "long long int",
            TypeForm::UnsignedLongLong => "unsigned long long",
            TypeForm::UnsignedLongLongInt => "unsigned long long int",
        });
    }

    pub(crate) fn scale(&mut self, scale: Scale) {
        self.put(match scale {
            Scale::Ps => "SC_PS",
            Scale::Ns => "SC_NS",
            Scale::Us => "SC_US",
            Scale::Ms => "SC_MS",
            Scale::Sec => "SC_SEC",
        });
    }

    /// Adds words with commas between them.
    pub(crate) fn words(&mut self, words: &[Word]) {
        for (n, word) in words.iter().enumerate() {
            self.between(n, ",");
            self.word(word);
        }
    }

    /// Adds what stands before the thing of this number in a list, unless it is the first.
    pub(crate) fn between(&mut self, n: usize, sign: &str) {
        if n > 0 {
            self.put(sign);
        }
    }

    // Adds a byte of a text as it is written there.
    fn escaped(&mut self, byte: u8) {
        match byte {
            b'\n' => self.more(b"\\n"),
            b'\t' => self.more(b"\\t"),
            b'\\' => self.more(b"\\\\"),
            b'"' => self.more(b"\\\""),
            other => self.more(&[other]),
        }
    }

    // Adds the bytes of a token, behind a blank unless they are the first.
    fn bytes(&mut self, bytes: &[u8]) {
        if !self.text.is_empty() {
            self.more(b" ");
        }
        self.more(bytes);
    }

    // Adds bytes as they are.
    fn more(&mut self, bytes: &[u8]) {
        if self.added.is_ok() {
            self.added = self.text.extend_from_slice(bytes);
        }
    }
}
