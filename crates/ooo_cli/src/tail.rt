ghost use Rattle.std.specs.Prelude.{◌≡◌, ◌≤◌};

use std::io::{self, Write};

/// The most bytes that are kept: the line that ends a report is shorter, unless the name in it is very long.
const MOST: usize = 2048;

/// A writer that passes bytes on to another, and keeps the last ones that this took.
#[derive(Drop)]
pub struct Tail<W> {
    inner: W,
    bytes: [u8; MOST],
    count: usize,
    ghost within: { count ≤ 2048 },
}

impl<W> Tail<W> {
    /// Passes on to this writer.
    pub fn new(inner: W) -> Tail<W>
        ensures { result.inner ≡ inner }
    {
        Tail {
            inner,
            bytes: [0; MOST],
            count: 0,
        }
    }

    /// The last bytes that were taken.
    pub fn last(&self) -> &[u8] {
        &self.bytes[..self.count]
    }

    // Keeps the last of these, and in what room there is the last that were kept.
    fn keep(&mut self, taken: &[u8])
        ensures { self.new.inner ≡ self.old.inner }
    {
        let more = taken.len().min(MOST);
        let stay = self.count.min(MOST - more);
        self.bytes.copy_within(self.count - stay..self.count, 0);
        self.bytes[stay..stay + more].copy_from_slice(&taken[taken.len() - more..]);
        self.count = stay + more;
    }
}

impl<W: Write> Write for Tail<W> {
    ghost contents = { λ w. W.contents w.inner };

    fn write(&mut self, buf: &[u8]) -> io::Result<usize> {
        let count = self.inner.write(buf)?;
        self.keep(&buf[..count]);
        Ok(count)
    }

    fn flush(&mut self) -> io::Result<()> {
        self.inner.flush()
    }
}
