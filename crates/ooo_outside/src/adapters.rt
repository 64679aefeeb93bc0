ghost use Rattle.std.specs.Prelude.{◌≡◌, ◌≤◌, ◌<◌, length, IfOk, OnOk, OnErr};
ghost use Rattle.std.specs.Io.KnownBytes.{ReadConsumes, WriteAppends};
ghost use Rattle.ooo_outside.specs.Causes.{HasCause};
ghost use Rattle.ooo_outside.specs.Memory.{counted};

use crate::count::counted;
use crate::traits::{Failed, Sink, Source};
use std::io::{Read, Write};
use std::marker::Model;

/// A source over a reader of std, seen as the reader and its count of faults. It tells the bytes that
/// the reader tells. Each error counts as one fault.
#[derive(Drop)]
pub struct ReadSource<R> {
    inner: R,
    faults: u64,
}

impl<R> Model for ReadSource<R> {
    ghost use Rattle.ooo_outside.specs.Adapters.{Adapter};

    ghost Value = { Adapter R };

    ghost view = { λ s. record { inner = s.inner; faults = s.faults } };
}

impl<R> ReadSource<R> {
    pub fn new(inner: R) -> ReadSource<R>
        ensures { result ≡ record { inner = inner; faults = 0 } }
    {
        ReadSource { inner, faults: 0 }
    }
}

impl<R: Read> Source for ReadSource<R> {
    ghost rest = { λ s. R.remaining s.inner };

    ghost faults = { λ s. s.faults };

    fn read(&mut self, into: &mut [u8]) -> Result<usize, Failed>
        ensures bound { IfOk result (λ n. n ≤ length into.new) }
        ensures bytes { let before = R.remaining self.old.inner in
            ReadConsumes before (R.remaining self.new.inner) result into.new }
        ensures cause { HasCause self.old.faults self.new.faults result }

        // The count of faults.
        ensures counts { OnErr result (self.new.faults ≡ counted self.old.faults) }
        ensures kept { OnOk result (self.new.faults ≡ self.old.faults) }
    {
        match self.inner.read(into) {
            Ok(count) => Ok(count),
            Err(_) => {
                self.faults = counted(self.faults);
                Err(Failed)
            }
        }
    }
}

/// A sink over a writer of std, seen as the writer and its count of faults. It tells the bytes that
/// the writer tells. Each error counts as one fault, and so does a write that takes nothing of a
/// piece.
#[derive(Drop)]
pub struct WriteSink<W> {
    inner: W,
    faults: u64,
}

impl<W> Model for WriteSink<W> {
    ghost use Rattle.ooo_outside.specs.Adapters.{Adapter};

    ghost Value = { Adapter W };

    ghost view = { λ s. record { inner = s.inner; faults = s.faults } };
}

impl<W> WriteSink<W> {
    pub fn new(inner: W) -> WriteSink<W>
        ensures { result ≡ record { inner = inner; faults = 0 } }
    {
        WriteSink { inner, faults: 0 }
    }
}

impl<W: Write> Sink for WriteSink<W> {
    ghost held = { λ s. W.contents s.inner };

    ghost faults = { λ s. s.faults };

    fn write(&mut self, piece: &[u8]) -> Result<usize, Failed>
        ensures bound { IfOk result (λ n. n ≤ length piece.now) }
        ensures onward { IfOk result (λ n. 0 < length piece.now → 0 < n) }
        ensures bytes { let before = W.contents self.old.inner in
            WriteAppends before (W.contents self.new.inner) result piece.now }
        ensures cause { HasCause self.old.faults self.new.faults result }

        // The count of faults.
        ensures counts { OnErr result (self.new.faults ≡ counted self.old.faults) }
        ensures kept { OnOk result (self.new.faults ≡ self.old.faults) }
    {
        match self.inner.write(piece) {
            Ok(count) if count > 0 || piece.is_empty() => Ok(count),
            _ => {
                self.faults = counted(self.faults);
                Err(Failed)
            }
        }
    }
}
