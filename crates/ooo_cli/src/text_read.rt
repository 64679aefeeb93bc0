ghost use Rattle.std.specs.Prelude.{◌≡◌};

use std::alloc::Global;
use std::io::{self, Read};

/// A reader that passes bytes on from another, and keeps them while there is memory for them.
#[derive(Drop)]
pub struct TextRead<R> {
    inner: R,
    bytes: Vec<u8>,
    is_whole: bool,
}

impl<R> TextRead<R> {
    /// Passes on from this reader.
    pub fn new(alloc: Global, inner: R) -> TextRead<R>
        ensures { result.inner ≡ inner }
    {
        TextRead {
            inner,
            bytes: Vec::new(alloc),
            is_whole: true,
        }
    }

    /// What was read; nothing where there was no memory to keep it.
    pub fn kept(&self) -> &[u8] {
        if self.is_whole { &self.bytes } else { b"" }
    }

    fn keep(&mut self, read: &[u8])
        ensures { self.new.inner ≡ self.old.inner }
    {
        if self.bytes.extend_from_slice(read).is_err() {
            self.is_whole = false;
        }
    }
}

impl<R: Read> Read for TextRead<R> {
    ghost remaining = { λ r. R.remaining r.inner };

    fn read(&mut self, buf: &mut [u8]) -> io::Result<usize> {
        let count = self.inner.read(buf)?;
        self.keep(&buf[..count]);
        Ok(count)
    }
}
