ghost use Rattle.std.specs.Prelude.{◌≡◌, ◌+◌, ◌++◌, ◌≤◌, ◌<◌, ℕ, List, [], length, Some, OnOk, IfOk, slice_get};
ghost use Rattle.ooo_value.specs.declared.bound.ChannelKind.{ChannelKind as KindSpec};
ghost use Rattle.ooo_time.specs.Stamps.{IsBefore};
ghost use Rattle.ooo_time.specs.declared.stamp.Stamp.{Stamp as StampSpec};
ghost use Rattle.ooo_code.specs.Channels.{Channel};
ghost use Rattle.ooo_events.specs.declared.call.Call.{Call as CallSpec};
ghost use Rattle.ooo_value.specs.declared.bound.BoundEvent.{BoundEvent as EventSpec};
ghost use Rattle.ooo_value.specs.declared.bound.ChannelKind.TheVariants as kind;
ghost use Rattle.ooo_code.specs.declared.activation.Effect.TheVariants as effect;
ghost use Rattle.ooo_channels.specs.Conditions.{IsCountableStamp};
ghost use Rattle.ooo_channels.specs.Operations.{Operation};
ghost use Rattle.ooo_channels.specs.Cycles.{Cycle, cycle_at, cycle_after, first_cycle, first_shown, whole_history, readable, writable, values_left, IsSeenAs};
ghost use Rattle.ooo_channels.specs.Entries.{entries_before};
ghost use Rattle.ooo_events.specs.Firings.{Fires, IsFirstAfter};
ghost use Rattle.ooo_channels.specs.Calls.{channel_of};

use crate::fifo::FifoState;
use crate::signal::SignalState;
use ooo_history::Entry;
use ooo_time::Stamp;
use ooo_value::{BoundChannel, BoundEvent, ChannelKind, Value};
use std::alloc::{AllocError, Global};

/// What is kept of a channel.
#[derive(Drop)]
pub enum ChannelState {
    Signal(SignalState),
    Fifo(FifoState),
}

impl ChannelState {
    ghost use Rattle.ooo_channels.specs.Kept.{HasKind, HasEvent, IsChannelAfter, IsChannelNext, ChannelShows, HasCycle, ForCycle, Keeps};
    ghost use Rattle.ooo_channels.specs.Versions.{IsContinued};
    ghost use Rattle.ooo_channels.specs.Room.{HasRoom};

    /// A channel as it starts, which keeps none of its events. It takes no memory.
    pub fn new(alloc: Global, channel: BoundChannel) -> ChannelState
        ensures kind { HasKind channel.kind result }
        ensures first { (c : ℕ) (below : Stamp) →
            IsChannelAfter c below (first_cycle (Some channel)) (λ k. []) result }
        ensures shows { (below : Stamp) →
            ChannelShows below (first_shown (Some channel)) result }
    {
        match channel.kind {
            ChannelKind::Signal => ChannelState::Signal(SignalState::new(alloc, channel.value)),
            ChannelKind::Fifo => ChannelState::Fifo(FifoState::new(alloc, channel.size)),
        }
    }

    /// Keeps an event of the channel, on which there was no operation yet. It takes no memory.
    pub fn keep(&mut self, alloc: Global, kind: BoundEvent)
        ensures kind { (k : KindSpec) → HasKind k self.old → HasKind k self.new }
        ensures kept { Keeps kind self.new }
        ensures keeps { (k : EventSpec) → Keeps k self.old → Keeps k self.new }
        ensures after { (c : ℕ) (below : Stamp) (x : Cycle) →
            IsChannelAfter c below x (λ k. []) self.old →
            IsChannelAfter c below x (λ k. []) self.new }
        ensures shows { (below : Stamp) (was : StampSpec → Channel) →
            ChannelShows below was self.old → ChannelShows below was self.new }
    {
        match self {
            ChannelState::Signal(signal) => signal.keep(alloc, kind),
            ChannelState::Fifo(fifo) => fifo.keep(alloc, kind),
        }
    }

    /// Makes room for `n` more effects.
    ///
    /// # Errors
    ///
    /// Only where memory runs out.
    #[inline(always)]
    pub fn reserve(&mut self, n: usize) -> Result<(), AllocError>
        ensures room { OnOk result (HasRoom n self.new) }
        ensures kept { (m : ℕ) → HasRoom m self.old → HasRoom m self.new }
        ensures kind { (k : KindSpec) → HasKind k self.old → HasKind k self.new }
        ensures after { (c : ℕ) (below : Stamp) (x : Cycle) (calls : EventSpec → List CallSpec) →
            IsChannelAfter c below x calls self.old → IsChannelAfter c below x calls self.new }
        ensures shows { (below : Stamp) (was : StampSpec → Channel) →
            ChannelShows below was self.old → ChannelShows below was self.new }
        ensures keeps { (k : EventSpec) → Keeps k self.old → Keeps k self.new }
    {
        match self {
            ChannelState::Signal(signal) => signal.reserve(n),
            ChannelState::Fifo(fifo) => fifo.reserve(n),
        }
    }

    /// The history up to the cycle of a stamp. The channel is used up, and its history isn't copied.
    ///
    /// # Errors
    ///
    /// Only where memory runs out.
    pub fn into_history(self, at: Stamp) -> Result<Vec<Entry>, AllocError>
        requires { HasCycle self }
        ensures { IfOk result (λ h. ForCycle self (λ x. h.items ≡ (cycle_at at x).history)) }
    {
        match self {
            ChannelState::Signal(signal) => signal.into_history(at),
            ChannelState::Fifo(fifo) => fifo.into_history(at),
        }
    }

    /// A copy of the history before a stamp, with what the update of the last operation's cycle adds, if that is before it
    /// too; of all cycles where there is no stamp.
    ///
    /// # Errors
    ///
    /// Only where memory runs out.
    pub fn history(&self, alloc: Global, before: Option<Stamp>) -> Result<Vec<Entry>, AllocError>
        requires { HasCycle self.now }
        ensures { IfOk result (λ h. ForCycle self.now (λ x.
            h.items ≡ entries_before before (whole_history x))) }
    {
        match self {
            ChannelState::Signal(signal) => signal.history(alloc, before),
            ChannelState::Fifo(fifo) => fifo.history(alloc, before),
        }
    }

    /// A value of a fifo that is not read yet, by its number.
    pub fn value(&self, n: usize) -> Value
        requires kind { HasKind kind.Fifo self.now }
        requires within { (c : ℕ) × (below : Stamp) × (x : Cycle)
            × (calls : EventSpec → List CallSpec)
            × IsChannelAfter c below x calls self.now × (n < length (values_left x.channel)) }
        ensures { ForCycle self.now (λ x. slice_get (values_left x.channel) n ≡ Some result) }
    {
        match self {
            ChannelState::Signal(_) => Value::Bool(false),
            ChannelState::Fifo(fifo) => fifo.value(n),
        }
    }

    /// Requests a value of a signal in the cycle of a stamp.
    pub fn request(&mut self, at: Stamp, value: Value, below: Stamp)
        requires kind { HasKind kind.Signal self.old }
        requires room { HasRoom 1 self.old }
        requires may { (c : ℕ) × (x : Cycle) × (calls : EventSpec → List CallSpec) ×
            IsChannelAfter c below x calls self.old × (¬ IsBefore at x.stamp) }
        requires countable { IsCountableStamp at }
        ensures kind { HasKind kind.Signal self.new }
        ensures after { (c : ℕ) (x : Cycle) (calls : EventSpec → List CallSpec) →
            IsChannelAfter c below x calls self.old → ¬ IsBefore at x.stamp →
            IsChannelNext c below x calls
            (record { at = at; effect = effect.Request c value }) self.new }
        ensures shows { (c : ℕ) (x : Cycle) (calls : EventSpec → List CallSpec)
            (was next : StampSpec → Channel) →
            let o : Operation = record { at = at; effect = effect.Request c value } in
            IsChannelAfter c below x calls self.old → IsContinued at (cycle_after x o) was next →
            ChannelShows below was self.old → ChannelShows below next self.new }
        ensures keeps { (k : EventSpec) → Keeps k self.old → Keeps k self.new }
        ensures room { (n : ℕ) → HasRoom (n + 1) self.old → HasRoom n self.new }
    {
        match self {
            ChannelState::Signal(signal) => signal.request(at, value, below),
            ChannelState::Fifo(_) => {}
        }
    }

    /// Puts a value into a fifo in the cycle of a stamp.
    pub fn put(&mut self, at: Stamp, value: Value, below: Stamp)
        requires kind { HasKind kind.Fifo self.old }
        requires room { HasRoom 1 self.old }
        requires may { (c : ℕ) × (x : Cycle) × (calls : EventSpec → List CallSpec) ×
            IsChannelAfter c below x calls self.old × (¬ IsBefore at x.stamp)
            × (1 ≤ writable (cycle_at at x).channel) }
        requires countable { IsCountableStamp at }
        ensures kind { HasKind kind.Fifo self.new }
        ensures after { (c : ℕ) (x : Cycle) (calls : EventSpec → List CallSpec) →
            IsChannelAfter c below x calls self.old → ¬ IsBefore at x.stamp →
            1 ≤ writable (cycle_at at x).channel →
            IsChannelNext c below x calls
            (record { at = at; effect = effect.Put c value }) self.new }
        ensures keeps { (k : EventSpec) → Keeps k self.old → Keeps k self.new }
        ensures room { (n : ℕ) → HasRoom (n + 1) self.old → HasRoom n self.new }
    {
        match self {
            ChannelState::Signal(_) => {}
            ChannelState::Fifo(fifo) => fifo.put(at, value, below),
        }
    }

    /// Takes a value of a fifo in the cycle of a stamp.
    pub fn take(&mut self, at: Stamp, below: Stamp)
        requires kind { HasKind kind.Fifo self.old }
        requires room { HasRoom 1 self.old }
        requires may { (c : ℕ) × (x : Cycle) × (calls : EventSpec → List CallSpec) ×
            IsChannelAfter c below x calls self.old × (¬ IsBefore at x.stamp)
            × (1 ≤ length (readable (cycle_at at x).channel)) }
        requires countable { IsCountableStamp at }
        ensures kind { HasKind kind.Fifo self.new }
        ensures after { (c : ℕ) (x : Cycle) (calls : EventSpec → List CallSpec) →
            IsChannelAfter c below x calls self.old → ¬ IsBefore at x.stamp →
            1 ≤ length (readable (cycle_at at x).channel) →
            IsChannelNext c below x calls (record { at = at; effect = effect.Take c }) self.new }
        ensures keeps { (k : EventSpec) → Keeps k self.old → Keeps k self.new }
        ensures room { (n : ℕ) → HasRoom (n + 1) self.old → HasRoom n self.new }
    {
        match self {
            ChannelState::Signal(_) => {}
            ChannelState::Fifo(fifo) => fifo.take(at, below),
        }
    }

    /// What is seen of a signal in the cycle of a stamp.
    pub fn seen(&self, at: Stamp) -> (Value, bool)
        requires { HasKind kind.Signal self.now }
        ensures newest { ForCycle self.now (λ x. ¬ IsBefore at x.stamp →
            IsSeenAs (cycle_at at x).channel at.time result) }
        ensures since { (below : Stamp) (was : StampSpec → Channel) →
            ChannelShows below was self.now → ¬ IsBefore at below →
            IsSeenAs (was at) at.time result }
    {
        match self {
            ChannelState::Signal(signal) => signal.seen(at),
            ChannelState::Fifo(_) => (Value::Bool(false), false),
        }
    }

    /// How many values of a fifo may be read in the cycle of a stamp.
    pub fn available(&self, at: Stamp) -> u32
        requires kind { HasKind kind.Fifo self.now }
        requires fifo { HasCycle self.now }
        ensures { ForCycle self.now (λ x. result ≡ length (readable (cycle_at at x).channel)) }
    {
        match self {
            ChannelState::Signal(_) => 0,
            ChannelState::Fifo(fifo) => fifo.available(at),
        }
    }

    /// How many values a fifo takes in the cycle of a stamp.
    pub fn free(&self, at: Stamp) -> u32
        requires kind { HasKind kind.Fifo self.now }
        requires fifo { HasCycle self.now }
        ensures { ForCycle self.now (λ x. result ≡ writable (cycle_at at x).channel) }
    {
        match self {
            ChannelState::Signal(_) => 0,
            ChannelState::Fifo(fifo) => fifo.free(at),
        }
    }

    /// The first firing after a stamp of an event of the channel.
    pub fn first(&self, kind: BoundEvent, since: Stamp) -> Option<Stamp>
        requires is { HasEvent kind self.now }
        requires kept { Keeps kind self.now }
        ensures { (below : Stamp) (x : Cycle) (calls : EventSpec → List CallSpec) →
            IsChannelAfter (channel_of kind) below x calls self.now → ¬ IsBefore since below →
            IsFirstAfter (Fires (calls kind)) since result }
    {
        match self {
            ChannelState::Signal(signal) => signal.first(kind, since),
            ChannelState::Fifo(fifo) => fifo.first(kind, since),
        }
    }
}
