ghost use Rattle.std.specs.Prelude.{◌≡◌, ◌≤◌, ◌<◌, ◌+◌, ◌++◌, ◌↔◌, min, length, take, vec_len, vec_capacity, IfOk, OnErr, IsErr, IsTrue, Contains};
ghost use Rattle.std.specs.Io.KnownBytes.{ReadConsumes, WriteAppends};
ghost use Rattle.ooo_outside.specs.Causes.{HasCause};
ghost use Rattle.ooo_outside.specs.Memory.{SinkFails, SourceFails, given_count, sink_failed, sink_made, sink_taken, source_failed, source_given, source_made, taken_count};

use crate::count::counted;
use crate::traits::{Failed, Sink, Source};
use std::alloc::{AllocError, Global};
use std::marker::Model;

/// A source in memory, of which each call gives at most `most` bytes, and chosen calls fail.
#[derive(Drop)]
pub struct MemorySource {
    bytes: Vec<u8>,
    given: usize,
    most: usize,
    failing: Vec<u32>,
    calls: u64,
    faults: u64,
}

impl Model for MemorySource {
    ghost use Rattle.std.specs.Prelude.{◌≤◌, length, drop};
    ghost use Rattle.ooo_outside.specs.Memory.{SourceState};

    ghost Value = { SourceState };

    ghost view = { λ s. record {
      rest = drop s.given s.bytes.items;
      most = s.most;
      failing = s.failing.items;
      calls = s.calls;
      faults = s.faults;
    } };

    ghost invariant = { λ s. (s.given ≤ length s.bytes.items) × (1 ≤ s.most) };
}

impl MemorySource {
    /// A source of these bytes. `failing` has the numbers of the calls that are to fail; the first
    /// call is number 1.
    pub fn new(bytes: Vec<u8>, most: usize, failing: Vec<u32>) -> MemorySource
        requires { 1 ≤ most }
        ensures { result ≡ source_made bytes.items most failing.items }
    {
        MemorySource {
            bytes,
            given: 0,
            most,
            failing,
            calls: 0,
            faults: 0,
        }
    }
}

// Whether the call of this number is to fail.
fn fails(failing: &[u32], call: u64) -> bool
    ensures { IsTrue result ↔ Contains failing.now call }
{
    failing.iter().any(|number| u64::from(*number) == call)
}

// Moves at most `most` bytes to the front of `into`, and says how many.
fn give(into: &mut [u8], from: &[u8], most: usize) -> usize
    ensures count { result ≡ min most (min (length into.new) (length from.now)) }
    ensures bytes { take result into.new ≡ take result from.now }
{
    let count = most.min(into.len().min(from.len()));
    for i in 0..count {
        into[i] = from[i];
    }
    count
}

impl Source for MemorySource {
    ghost use Rattle.std.specs.Prelude.{Some};

    ghost rest = { λ s. Some s.rest };

    ghost faults = { λ s. s.faults };

    fn read(&mut self, into: &mut [u8]) -> Result<usize, Failed>
        ensures bound { IfOk result (λ n. n ≤ length into.new) }
        ensures bytes { ReadConsumes (Some self.old.rest) (Some self.new.rest) result into.new }
        ensures cause { HasCause self.old.faults self.new.faults result }

        // Which calls fail, and how much the others give.
        ensures failing { IsErr result ↔ SourceFails self.old }
        ensures failed { OnErr result (self.new ≡ source_failed self.old) }
        ensures given { IfOk result (λ n. self.new ≡ source_given self.old n) }
        ensures count { IfOk result (λ n. n ≡ given_count self.old into.new) }
    {
        self.calls = counted(self.calls);
        if fails(&self.failing, self.calls) {
            self.faults = counted(self.faults);
            return Err(Failed);
        }
        let count = give(into, &self.bytes[self.given..], self.most);
        self.given += count;
        Ok(count)
    }
}

/// A sink in memory with room for a number of bytes, of which each call takes at most `most`, and
/// chosen calls fail.
#[derive(Drop)]
pub struct MemorySink {
    bytes: Vec<u8>,
    room: usize,
    most: usize,
    failing: Vec<u32>,
    calls: u64,
    faults: u64,
}

impl Model for MemorySink {
    ghost use Rattle.std.specs.Prelude.{◌≤◌, ◌+◌, vec_len, vec_capacity};
    ghost use Rattle.ooo_outside.specs.Memory.{SinkState};

    ghost Value = { SinkState };

    ghost view = { λ s. record {
      held = s.bytes.items;
      room = s.room;
      most = s.most;
      failing = s.failing.items;
      calls = s.calls;
      faults = s.faults;
    } };

    ghost invariant = { λ s. (vec_len s.bytes + s.room ≤ vec_capacity s.bytes) × (1 ≤ s.most) };
}

impl MemorySink {
    /// An empty sink with this room. `failing` has the numbers of the calls that are to fail; the
    /// first call is number 1.
    pub fn make(
        alloc: Global,
        room: usize,
        most: usize,
        failing: Vec<u32>,
    ) -> Result<MemorySink, AllocError>
        requires { 1 ≤ most }
        ensures { IfOk result (λ sink. sink ≡ sink_made room most failing.items) }
    {
        Ok(MemorySink {
            bytes: Vec::with_capacity(alloc, room)?,
            room,
            most,
            failing,
            calls: 0,
            faults: 0,
        })
    }

    /// The bytes taken so far.
    pub fn held(&self) -> &[u8]
        ensures { result.now ≡ self.now.held }
    {
        &self.bytes
    }
}

// Adds bytes for which there is room.
fn keep(bytes: &mut Vec<u8>, piece: &[u8])
    requires { vec_len bytes.old + length piece.now ≤ vec_capacity bytes.old }
    ensures items { bytes.new.items ≡ bytes.old.items ++ piece.now }
    ensures capacity { vec_capacity bytes.old ≤ vec_capacity bytes.new }
{
    match bytes.extend_from_slice(piece) {
        Ok(()) => {}
        Err(_) => unreachable!(),
    }
}

impl Sink for MemorySink {
    ghost use Rattle.std.specs.Prelude.{Some};

    ghost held = { λ s. Some s.held };

    ghost faults = { λ s. s.faults };

    fn write(&mut self, piece: &[u8]) -> Result<usize, Failed>
        ensures bound { IfOk result (λ n. n ≤ length piece.now) }
        ensures onward { IfOk result (λ n. 0 < length piece.now → 0 < n) }
        ensures bytes { WriteAppends (Some self.old.held) (Some self.new.held) result piece.now }
        ensures cause { HasCause self.old.faults self.new.faults result }

        // Which calls fail, and how much the others take.
        ensures failing { IsErr result ↔ SinkFails self.old }
        ensures failed { OnErr result (self.new ≡ sink_failed self.old) }
        ensures taken { IfOk result (λ n. self.new ≡ sink_taken self.old piece.now n) }
        ensures count { IfOk result (λ n. n ≡ taken_count self.old piece.now) }
    {
        self.calls = counted(self.calls);
        if self.room == 0 || fails(&self.failing, self.calls) {
            self.faults = counted(self.faults);
            return Err(Failed);
        }
        let count = self.most.min(piece.len().min(self.room));
        keep(&mut self.bytes, &piece[..count]);
        self.room -= count;
        Ok(count)
    }
}
