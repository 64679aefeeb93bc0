use std::alloc::{AllocError, Global};

/// A text that grows. Once memory has run out, nothing more is added to it, and who asks for it is told so: what tells a
/// part need not ask after each word.
#[derive(Drop)]
pub(crate) struct Paper {
    alloc: Global,
    text: String,
    added: Result<(), AllocError>,
}

impl Paper {
    pub(crate) fn new(alloc: Global) -> Paper {
        Paper {
            alloc,
            text: String::new(alloc),
            added: Ok(()),
        }
    }

    /// The text, unless memory has run out.
    pub(crate) fn into_text(self) -> Result<String, AllocError> {
        let Paper {
            alloc: _,
            text,
            added,
        } = self;
        match added {
            Ok(()) => Ok(text),
            Err(error) => Err(error),
        }
    }

    pub(crate) fn put(&mut self, text: &str) {
        if self.added.is_ok() {
            self.added = self.text.push_str(text);
        }
    }

    /// A word and a number right behind it.
    pub(crate) fn named(&mut self, word: &str, number: u64) {
        self.put(word);
        if self.added.is_ok() {
            self.added = push(self.alloc, &mut self.text, number);
        }
    }
}

fn push(alloc: Global, text: &mut String, number: u64) -> Result<(), AllocError> {
    text.push_str(format!(in alloc; "{number}")?.as_str())
}
