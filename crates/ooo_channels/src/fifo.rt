ghost use Rattle.std.specs.Prelude.{◌≡◌, ◌+◌, ◌-◌, ◌≤◌, ◌<◌, ◌^◌, ℕ, List, [], ◌∷◌, ◌++◌, length, drop, map, Some, None, OnOk, IfOk, vec_len, vec_capacity, slice_get};
ghost use Rattle.std.specs.VecDeque.{deque_len, deque_capacity};
ghost use Rattle.ooo_time.specs.Stamps.{IsBefore};
ghost use Rattle.ooo_events.specs.declared.call.Call.{Call as CallSpec};
ghost use Rattle.ooo_events.specs.declared.call.Call.TheVariants as call;
ghost use Rattle.ooo_code.specs.declared.activation.Effect.TheVariants as effect;
ghost use Rattle.ooo_meaning.specs.World.{zero_stamp};
ghost use Rattle.ooo_channels.specs.Conditions.{IsCountableStamp};
ghost use Rattle.ooo_events.specs.Firings.{Fires, IsFirstAfter};
ghost use Rattle.ooo_value.specs.declared.bound.BoundEvent.{BoundEvent as EventSpec};
ghost use Rattle.ooo_channels.specs.Calls.{channel_of};
ghost use Rattle.ooo_channels.specs.Entries.{put_entry, took_entry, entries_before};

use crate::entries::{copy_before, is_within};
use crate::notices::Notice;
use ooo_history::{Entry, What};
use ooo_time::Stamp;
use ooo_value::{BoundEvent, Value};
use std::alloc::{AllocError, Global};
use std::collections::VecDeque;

/// What is kept of a fifo (IEEE 1666-2011, 6.23): the fifo in the cycle of the last operation on it, and its history.
#[derive(Drop)]
pub struct FifoState {
    /// The cycle of the last operation.
    pub stamp: Stamp,
    /// How many values there may be.
    pub size: u32,
    /// The values that are not read yet.
    pub values: VecDeque<Value>,
    /// How many values were read in the cycle.
    pub read: u32,
    /// How many values were written in the cycle: the last of the values.
    pub written: u32,
    /// The entries of the updates before the cycle, and of what was read in it.
    pub history: Vec<Entry>,
    /// Data written.
    pub puts: Notice,
    /// Data read.
    pub takes: Notice,
}

impl FifoState {
    ghost use Rattle.ooo_channels.specs.Kept.{IsFifoIn, IsFifoAfter, IsFifoEvent, FifoKeeps};
    ghost use Rattle.ooo_channels.specs.Room.{HasFifoRoom};
    ghost use Rattle.ooo_channels.specs.declared.notices.Notice.TheVariants as notice;
    ghost use Rattle.ooo_channels.specs.Cycles.{Cycle, cycle_at, cycle_after, first_cycle, whole_history, readable, writable, values_left};

    /// A fifo as it starts, without values, which keeps none of its events. It takes no memory.
    pub fn new(alloc: Global, size: u32) -> FifoState
        ensures size { result.size ≡ size }
        ensures values { result.values.items ≡ [] }
        ensures counts { (result.read ≡ 0) × (result.written ≡ 0) }
        ensures stamp { result.stamp ≡ zero_stamp }
        ensures history { result.history.items ≡ [] }
        ensures puts { result.puts ≡ notice.Absent }
        ensures takes { result.takes ≡ notice.Absent }
        ensures room { HasFifoRoom 0 result }
    {
        FifoState {
            stamp: Stamp::default(),
            size,
            values: VecDeque::new(alloc),
            read: 0,
            written: 0,
            history: Vec::new(alloc),
            puts: Notice::Absent,
            takes: Notice::Absent,
        }
    }

    /// Keeps an event of the fifo, on which there was no operation yet. It takes no memory.
    pub fn keep(&mut self, alloc: Global, kind: BoundEvent)
        ensures kept { FifoKeeps kind self.new }
        ensures keeps { (k : EventSpec) → FifoKeeps k self.old → FifoKeeps k self.new }
        ensures after { (c : ℕ) (below : Stamp) (x : Cycle) →
            IsFifoAfter c below x (λ k. []) self.old → IsFifoAfter c below x (λ k. []) self.new }
    {
        match kind {
            BoundEvent::Written(_) => self.puts = Notice::new(alloc),
            BoundEvent::Taken(_) => self.takes = Notice::new(alloc),
            BoundEvent::Own | BoundEvent::Changed(_) | BoundEvent::Rise(_) | BoundEvent::Fall(_) =>
                {}
        }
    }

    /// The first firing after a stamp of an event of the fifo.
    pub fn first(&self, kind: BoundEvent, since: Stamp) -> Option<Stamp>
        requires is { IsFifoEvent kind }
        requires kept { FifoKeeps kind self.now }
        ensures { (below : Stamp) (x : Cycle) (calls : EventSpec → List CallSpec) →
            IsFifoAfter (channel_of kind) below x calls self.now → ¬ IsBefore since below →
            IsFirstAfter (Fires (calls kind)) since result }
    {
        match kind {
            BoundEvent::Written(_) => self.puts.first_after(since),
            BoundEvent::Taken(_) => self.takes.first_after(since),
            BoundEvent::Own | BoundEvent::Changed(_) | BoundEvent::Rise(_) | BoundEvent::Fall(_) =>
                { None }
        }
    }

    /// The history up to the cycle of a stamp. The fifo is used up, and its history isn't copied.
    ///
    /// # Errors
    ///
    /// Only where memory runs out.
    pub fn into_history(mut self, at: Stamp) -> Result<Vec<Entry>, AllocError>
        requires { (x : Cycle) × IsFifoIn self x }
        ensures { IfOk result (λ h. (x : Cycle) → IsFifoIn self x →
            h.items ≡ (cycle_at at x).history) }
    {
        if self.stamp.is_before(at) {
            let first = self.values.len() - self.written as usize;
            append_written(&mut self.history, self.stamp, &self.values, first)?;
        } else {
            let settled = self.history.len() - self.read as usize;
            self.history.truncate(settled);
        }
        Ok(self.history)
    }

    /// A copy of the history before a stamp, with what the update of the last operation's cycle adds, if that is before it
    /// too; of all cycles where there is no stamp.
    ///
    /// # Errors
    ///
    /// Only where memory runs out.
    pub fn history(&self, alloc: Global, before: Option<Stamp>) -> Result<Vec<Entry>, AllocError>
        requires { (x : Cycle) × IsFifoIn self.now x }
        ensures { IfOk result (λ h. (x : Cycle) → IsFifoIn self.now x →
            h.items ≡ entries_before before (whole_history x)) }
    {
        let mut copied = copy_before(alloc, self.history.as_slice(), before)?;
        if is_within(self.stamp, before) {
            let first = self.values.len() - self.written as usize;
            append_written(&mut copied, self.stamp, &self.values, first)?;
        }
        Ok(copied)
    }

    /// How many values are not read yet.
    fn held(&self) -> u32
        requires { (x : Cycle) × IsFifoIn self.now x }
        ensures { result ≡ deque_len self.now.values }
    {
        let _size = self.size;
        self.values.len() as u32
    }

    /// How many values may be read in the cycle of a stamp.
    pub fn available(&self, at: Stamp) -> u32
        requires { (x : Cycle) × IsFifoIn self.now x }
        ensures { (x : Cycle) → IsFifoIn self.now x →
            result ≡ length (readable (cycle_at at x).channel) }
    {
        let held = self.held();
        if self.stamp.is_before(at) {
            held
        } else {
            held - self.written
        }
    }

    /// How many values the fifo takes in the cycle of a stamp.
    pub fn free(&self, at: Stamp) -> u32
        requires { (x : Cycle) × IsFifoIn self.now x }
        ensures { (x : Cycle) → IsFifoIn self.now x → result ≡ writable (cycle_at at x).channel }
    {
        let held = self.held();
        if self.stamp.is_before(at) {
            self.size - held
        } else {
            self.size - held - self.read
        }
    }

    /// A value that is not read yet, by its number.
    pub fn value(&self, n: usize) -> Value
        requires { n < deque_len self.now.values }
        ensures { slice_get self.now.values.items n ≡ Some result }
    {
        self.values[n]
    }
}

impl FifoState {
    ghost use Rattle.ooo_channels.specs.Kept.{IsFifoIn, IsFifoAfter, IsNoticeKept, AreFifoEventsBy, FifoKeeps};
    ghost use Rattle.ooo_channels.specs.Room.{HasFifoRoom};
    ghost use Rattle.ooo_channels.specs.Cycles.{Cycle, cycle_at, cycle_after, readable, writable};

    /// Goes on to the cycle of a stamp, where that is later.
    fn move_to(&mut self, at: Stamp)
        requires room { HasFifoRoom 0 self.old }
        requires fifo { (x : Cycle) × IsFifoIn self.old x }
        ensures cycle { (x : Cycle) → IsFifoIn self.old x → IsFifoIn self.new (cycle_at at x) }
        ensures rest { let s = self.new in s ≡ record self.old {
          stamp = s.stamp;
          read = s.read;
          written = s.written;
          history = s.history;
        } }
        ensures stamp { ¬ IsBefore at self.old.stamp → self.new.stamp ≡ at }
        ensures room { (n : ℕ) → HasFifoRoom n self.old → HasFifoRoom n self.new }
    {
        if self.stamp.is_before(at) {
            let first = self.values.len() - self.written as usize;
            log_written(&mut self.history, self.stamp, &self.values, first);
            self.stamp = at;
            self.read = 0;
            self.written = 0;
        }
    }

    /// Makes room for `n` more puts and takes.
    ///
    /// # Errors
    ///
    /// Only where memory runs out.
    pub fn reserve(&mut self, n: usize) -> Result<(), AllocError>
        ensures room { OnOk result (HasFifoRoom n self.new) }
        ensures kept { (m : ℕ) → HasFifoRoom m self.old → HasFifoRoom m self.new }
        ensures after { (c : ℕ) (below : Stamp) (x : Cycle) (calls : EventSpec → List CallSpec) →
            IsFifoAfter c below x calls self.old → IsFifoAfter c below x calls self.new }
        ensures keeps { (k : EventSpec) → FifoKeeps k self.old → FifoKeeps k self.new }
    {
        let history = self
            .history
            .reserve((self.written as usize).saturating_add(n));
        let values = self.values.reserve(n);
        let puts = self.puts.reserve(n);
        let takes = self.takes.reserve(n);
        history.and(values).and(puts).and(takes)
    }

    /// Puts a value in the cycle of a stamp, which isn't before the last one.
    pub fn put(&mut self, at: Stamp, value: Value, below: Stamp)
        requires room { HasFifoRoom 1 self.old }
        requires in_order { ¬ IsBefore at self.old.stamp }
        requires events { AreFifoEventsBy self.old }
        requires free { (x : Cycle) × IsFifoIn self.old x × (1 ≤ writable (cycle_at at x).channel) }
        requires countable { IsCountableStamp at }

        ensures cycle { (x : Cycle) (c : ℕ) → IsFifoIn self.old x →
            1 ≤ writable (cycle_at at x).channel →
            IsFifoIn self.new (cycle_after x (record { at = at; effect = effect.Put c value })) }
        ensures stamp { self.new.stamp ≡ at }
        ensures events { AreFifoEventsBy self.new }

        ensures written { 1 ≤ self.new.written }

        // Data written is notified, and data read is as it was.
        ensures puts { (calls : List CallSpec) → IsNoticeKept below self.old.puts calls →
            let made = call.Notify at (record { 0 = 0 }) in
            IsNoticeKept below self.new.puts (calls ++ made ∷ []) }
        ensures takes { self.new.takes ≡ self.old.takes }

        ensures keeps { (k : EventSpec) → FifoKeeps k self.old → FifoKeeps k self.new }
        ensures room { (n : ℕ) → HasFifoRoom (n + 1) self.old → HasFifoRoom n self.new }
    {
        self.move_to(at);
        self.values.push_back_reserved(value);
        self.written += 1;
        self.puts.renew(at, true, below);
    }

    /// Takes a value in the cycle of a stamp, which isn't before the last one.
    pub fn take(&mut self, at: Stamp, below: Stamp)
        requires room { HasFifoRoom 1 self.old }
        requires in_order { ¬ IsBefore at self.old.stamp }
        requires events { AreFifoEventsBy self.old }
        requires available { (x : Cycle) × IsFifoIn self.old x ×
            (1 ≤ length (readable (cycle_at at x).channel)) }
        requires countable { IsCountableStamp at }

        ensures cycle { (x : Cycle) (c : ℕ) → IsFifoIn self.old x →
            1 ≤ length (readable (cycle_at at x).channel) →
            IsFifoIn self.new (cycle_after x (record { at = at; effect = effect.Take c })) }
        ensures stamp { self.new.stamp ≡ at }
        ensures events { AreFifoEventsBy self.new }

        ensures read { 1 ≤ self.new.read }

        // Data read is notified, and data written is as it was.
        ensures takes { (calls : List CallSpec) → IsNoticeKept below self.old.takes calls →
            let made = call.Notify at (record { 0 = 0 }) in
            IsNoticeKept below self.new.takes (calls ++ made ∷ []) }
        ensures puts { self.new.puts ≡ self.old.puts }

        ensures keeps { (k : EventSpec) → FifoKeeps k self.old → FifoKeeps k self.new }
        ensures room { (n : ℕ) → HasFifoRoom (n + 1) self.old → HasFifoRoom n self.new }
    {
        self.move_to(at);
        let _size = self.size;
        let value = self.values.pop_front().unwrap();
        self.history.push_reserved(Entry {
            stamp: at,
            what: What::Took,
            value,
        });
        self.read += 1;
        self.takes.renew(at, true, below);
    }
}

/// Appends the entries of the values from one on, which were written in the cycle of a stamp.
fn append_written(
    history: &mut Vec<Entry>,
    stamp: Stamp,
    values: &VecDeque<Value>,
    first: usize,
) -> Result<(), AllocError>
    ensures { let puts = map (put_entry stamp) (drop first values.now.items) in
        OnOk result (history.new.items ≡ history.old.items ++ puts) }
{
    for n in first..values.len() {
        history.push(Entry {
            stamp,
            what: What::Put,
            value: values[n],
        })?;
    }
    Ok(())
}

/// Does so in the room that there is.
fn log_written(history: &mut Vec<Entry>, stamp: Stamp, values: &VecDeque<Value>, first: usize)
    requires { vec_len history.old + (deque_len values.now - first) ≤ vec_capacity history.old }
    ensures items { let puts = map (put_entry stamp) (drop first values.now.items) in
        history.new.items ≡ history.old.items ++ puts }
    ensures capacity { vec_capacity history.new ≡ vec_capacity history.old }
    ensures len { vec_len history.new ≡ vec_len history.old + (deque_len values.now - first) }
{
    for n in first..values.len() {
        history.push_reserved(Entry {
            stamp,
            what: What::Put,
            value: values[n],
        });
    }
}
