ghost use Rattle.std.specs.Prelude.{◌≡◌, ◌≢◌, ◌<◌, ◌≤◌, ◌++◌, ℕ, List, [], ◌∷◌, length, Some, IfOk, OnOk, MatchOption, All, slice_get};
ghost use Rattle.ooo_time.specs.Stamps.{IsBefore};
ghost use Rattle.ooo_events.specs.Firings.{IsFirstAfter};
ghost use Rattle.ooo_code.specs.declared.activation.Effect.{Effect as EffectSpec};
ghost use Rattle.ooo_value.specs.declared.bound.BoundChannel.{BoundChannel as ChannelSpec};
ghost use Rattle.ooo_value.specs.declared.bound.ChannelKind.TheVariants as kind;
ghost use Rattle.ooo_channels.specs.Operations.{Operations, no_operations, after_effects, after_forgetting, operations_before};
ghost use Rattle.ooo_channels.specs.Cycles.{channel_in, channel_before, cycle_of, whole_history, readable, writable, values_left, IsSeenAs};
ghost use Rattle.ooo_channels.specs.Calls.{FiresAt, channel_of};
ghost use Rattle.ooo_code.specs.declared.activation.Effect.TheVariants as effect;
ghost use Rattle.ooo_value.specs.declared.bound.BoundEvent.{BoundEvent as EventSpec};
ghost use Rattle.ooo_value.specs.declared.bound.BoundEvent.TheVariants as event;
ghost use Rattle.ooo_channels.specs.Conditions.{HasChannel, ChannelIsBy, AreOrdered, HasEventAt, Names, MayApply, MayApplyAll, IsCountableStamp};
ghost use Rattle.ooo_channels.specs.Apart.{LeavesOthers, AreAllSame};
ghost use Rattle.ooo_channels.specs.Bank.{IsBankAfter, HasChannelIn, ForChannel, Covers, Applies, HasMoreRoom, HasRoomFor, IsKeptIn, AreFirst, AreNew, AreHistories};

use crate::channel::ChannelState;
use crate::notices::make;
use ooo_code::{Design, Effect};
use ooo_events::{Call, Event};
use ooo_history::Entry;
use ooo_time::{Stamp, Time};
use ooo_value::{BoundChannel, BoundEvent, Value};
use sqlite_items::Items;
use std::alloc::{AllocError, Global};
use std::marker::Model;

/// The channels and events of a design, by the effects that were applied to them.
#[derive(Drop)]
pub struct Bank {
    channels: Vec<ChannelState>,
    kinds: Vec<BoundEvent>,
    events: Vec<Event>,
    below: Stamp,
}

impl Model for Bank {
    ghost use Rattle.ooo_channels.specs.Bank.{BankState};

    ghost Value = { BankState };

    ghost view = { λ b. record {
      channels = b.channels.items;
      kinds = b.kinds.items;
      events = b.events.items;
      below = b.below;
    } };
}

impl Bank {
    /// The bank of a design, to which nothing was applied, with room for no effect.
    ///
    /// # Errors
    ///
    /// Only where memory runs out.
    pub fn make(alloc: Global, design: &Design) -> Result<Bank, AllocError>
        ensures { let ops = no_operations design.now.channels design.now.events in
            IfOk result (λ bank. IsBankAfter bank ops) }
    {
        let mut channels = first_channels(alloc, design.channels.as_slice())?;
        keep_all(&mut channels, alloc, design.events.as_slice());
        let kinds = Vec::from_slice(alloc, design.events.as_slice())?;
        let events = first_events(alloc, kinds.len())?;
        Ok(Bank {
            channels,
            kinds,
            events,
            below: Stamp::default(),
        })
    }

    /// What is seen of a signal in the cycle of a stamp: its value, and whether that changed in the delta
    /// cycle immediately before, at the same time (IEEE 1666-2011, 6.4). It takes no memory, one step where
    /// no later request was applied, and else a number of steps that is logarithmic in the versions that are
    /// kept of the signal.
    pub fn signal(&self, id: u32, at: Stamp) -> (Value, bool)
        requires { HasChannelIn self.now id kind.Signal }

        // At any stamp that isn't forgotten, the operations before that stamp say it.
        ensures before { ForChannel self.now id kind.Signal (λ ops. ¬ IsBefore at ops.below →
            IsSeenAs (channel_before ops id at) at.time result) }

        // Where no request was applied later, all operations say it.
        ensures now { ForChannel self.now id kind.Signal (λ ops. ChannelIsBy ops id at →
            IsSeenAs (channel_in at ops id) at.time result) }
    {
        self.channels[id as usize].seen(at)
    }

    /// How many values of a fifo may be read in the cycle of a stamp (6.23). It takes no memory.
    pub fn available(&self, id: u32, at: Stamp) -> u32
        requires { HasChannelIn self.now id kind.Fifo }
        ensures { ForChannel self.now id kind.Fifo (λ ops.
            result ≡ length (readable (channel_in at ops id))) }
    {
        self.channels[id as usize].available(at)
    }

    /// How many values a fifo takes in the cycle of a stamp (6.23). It takes no memory.
    pub fn free(&self, id: u32, at: Stamp) -> u32
        requires { HasChannelIn self.now id kind.Fifo }
        ensures { ForChannel self.now id kind.Fifo (λ ops.
            result ≡ writable (channel_in at ops id)) }
    {
        self.channels[id as usize].free(at)
    }

    /// A value of a fifo that is not read yet, by its number: first those that may be read, then those that
    /// are written in the cycle of the last operation (6.23). It takes no memory.
    pub fn value(&self, id: u32, n: u32) -> Value
        requires { (ops : Operations) × IsBankAfter self.now ops × HasChannel ops id kind.Fifo
            × (n < length (values_left (cycle_of ops id).channel)) }
        ensures left { ForChannel self.now id kind.Fifo (λ ops.
            slice_get (values_left (cycle_of ops id).channel) n ≡ Some result) }
        ensures readable { (ops : Operations) (at : Stamp) → IsBankAfter self.now ops →
            HasChannel ops id kind.Fifo → n < length (readable (channel_in at ops id)) →
            slice_get (readable (channel_in at ops id)) n ≡ Some result }
    {
        self.channels[id as usize].value(n as usize)
    }

    /// A copy of the history of a channel: what the updates add by the operations before a stamp, that of the cycle of the
    /// last of them among them, or by all operations where there is no stamp. Operations at later stamps may have been
    /// applied, if those on the channel were applied in the order of their stamps.
    ///
    /// # Errors
    ///
    /// Only where memory runs out.
    pub fn history(
        &self,
        alloc: Global,
        id: u32,
        before: Option<Stamp>,
    ) -> Result<Vec<Entry>, AllocError>
        requires { (ops : Operations) × IsBankAfter self.now ops × (id < length ops.channels) }
        ensures { IfOk result (λ h. (ops : Operations) → IsBankAfter self.now ops →
            MatchOption before (h.items ≡ whole_history (cycle_of ops id))
            (λ s. AreOrdered ops id →
            h.items ≡ whole_history (cycle_of (operations_before s ops) id))) }
    {
        self.channels[id as usize].history(alloc, before)
    }

    /// The histories of all channels up to the cycle of a stamp, channel by channel: what the updates before
    /// it added, in each cycle what was read before what was written. The bank is used up, and no history is
    /// copied.
    ///
    /// # Errors
    ///
    /// Only where memory runs out.
    pub fn into_histories(self, alloc: Global, at: Stamp) -> Result<Vec<Items<Entry>>, AllocError>
        requires { (ops : Operations) × IsBankAfter self ops }
        ensures { IfOk result (λ made. AreHistories self at (length self.channels) made.items) }
    {
        let mut made = Vec::new(alloc);
        for channel in self.channels {
            made.push(Items::from_vec(channel.into_history(at)?))?;
        }
        Ok(made)
    }

    /// Makes room for effects on channels and events that are there.
    ///
    /// # Errors
    ///
    /// Only where memory runs out; the bank is then as it was, but for its room.
    pub fn reserve(&mut self, effects: &[Effect]) -> Result<(), AllocError>
        requires { (ops : Operations) × IsBankAfter self.old ops × All (Names ops) effects.now }
        ensures room { OnOk result (Covers self.new effects.now) }
        ensures after { (ops : Operations) → IsBankAfter self.old ops → IsBankAfter self.new ops }
        ensures kept { (more : List EffectSpec) → Covers self.old more → Covers self.new more }
    {
        for effect in effects {
            self.reserve_for(*effect, effects.len())?;
        }
        Ok(())
    }

    /// The first stamp after `since` at which an event fires, as far as the effects tell. No firing after
    /// `since` is forgotten. It takes no memory, and a number of steps that is logarithmic in the firings
    /// that are kept of the event.
    pub fn first(&self, event: u32, since: Stamp) -> Option<Stamp>
        requires { (ops : Operations) × IsBankAfter self.now ops × HasEventAt ops event }
        ensures { (ops : Operations) → IsBankAfter self.now ops → ¬ IsBefore since ops.below →
            IsFirstAfter (FiresAt ops event) since result }
    {
        let kind = self.kinds[event as usize];
        match channel(kind) {
            None => self.events[event as usize].first_after(since),
            Some(c) => self.channels[c as usize].first(kind, since),
        }
    }

    /// Applies effects at a stamp, in their order, for which there is room. It takes no memory.
    pub fn apply(&mut self, effects: &[Effect], at: Stamp)
        requires room { Covers self.old effects.now }
        requires may { (ops : Operations) × IsBankAfter self.old ops
            × MayApplyAll ops at effects.now }
        requires countable { IsCountableStamp at }
        ensures after { (ops : Operations) → IsBankAfter self.old ops →
            MayApplyAll ops at effects.now →
            IsBankAfter self.new (after_effects at ops effects.now) }

        // What the effects don't name answers as before.
        ensures others { (ops : Operations) → LeavesOthers at ops effects.now }

        // The room for more effects is left.
        ensures room { (more : List EffectSpec) → Covers self.old (effects.now ++ more) →
            Covers self.new more }
    {
        for effect in effects {
            self.apply_one(at, *effect);
        }
    }

    /// Forgets the firings of all events before a stamp, and of each signal the versions of which nothing is
    /// seen from that stamp on, so that they take no room later. It takes no memory.
    pub fn forget(&mut self, below: Stamp)
        ensures after { (ops : Operations) → IsBankAfter self.old ops →
            IsBankAfter self.new (after_forgetting below ops) }
        ensures others { (ops : Operations) → AreAllSame ops (after_forgetting below ops) }
        ensures room { (more : List EffectSpec) → Covers self.old more → Covers self.new more }
    {
        if self.below.is_before(below) {
            self.below = below;
        }
    }

    /// Makes room for `n` effects on what an effect is on.
    #[inline(always)]
    fn reserve_for(&mut self, effect: Effect, n: usize) -> Result<(), AllocError>
        requires { (ops : Operations) × IsBankAfter self.old ops × Names ops effect }
        ensures room { OnOk result (HasRoomFor self.new effect n) }
        ensures more { HasMoreRoom self.old self.new }
    {
        match effect {
            Effect::Request(c, _) | Effect::Put(c, _) | Effect::Take(c) => {
                self.channels[c as usize].reserve(n)
            }
            Effect::Notify(e, _) | Effect::Cancel(e) => self.events[e as usize].reserve(n),
            Effect::Stop => Ok(()),
        }
    }

    /// Applies one effect.
    fn apply_one(&mut self, at: Stamp, effect: Effect)
        requires room { Covers self.old (effect ∷ []) }
        requires may { (ops : Operations) × IsBankAfter self.old ops × MayApply ops at effect }
        requires countable { IsCountableStamp at }
        ensures { Applies self.old self.new at effect }
    {
        match effect {
            Effect::Request(c, value) => self.request(c, value, at),
            Effect::Put(c, value) => self.put(c, value, at),
            Effect::Take(c) => self.take(c, at),
            Effect::Notify(e, delay) => self.notify(e, delay, at),
            Effect::Cancel(e) => self.cancel(e, at),
            Effect::Stop => {}
        }
    }

    /// Requests a value of a signal.
    fn request(&mut self, id: u32, value: Value, at: Stamp)
        requires room { Covers self.old (effect.Request id value ∷ []) }
        requires may { (ops : Operations) × IsBankAfter self.old ops
            × MayApply ops at (effect.Request id value) }
        requires countable { IsCountableStamp at }
        ensures { Applies self.old self.new at (effect.Request id value) }
    {
        let below = self.below;
        self.channels[id as usize].request(at, value, below);
    }

    /// Puts a value into a fifo.
    fn put(&mut self, id: u32, value: Value, at: Stamp)
        requires room { Covers self.old (effect.Put id value ∷ []) }
        requires may { (ops : Operations) × IsBankAfter self.old ops
            × MayApply ops at (effect.Put id value) }
        requires countable { IsCountableStamp at }
        ensures { Applies self.old self.new at (effect.Put id value) }
    {
        let below = self.below;
        self.channels[id as usize].put(at, value, below);
    }

    /// Takes a value of a fifo.
    fn take(&mut self, id: u32, at: Stamp)
        requires room { Covers self.old (effect.Take id ∷ []) }
        requires may { (ops : Operations) × IsBankAfter self.old ops
            × MayApply ops at (effect.Take id) }
        requires countable { IsCountableStamp at }
        ensures { Applies self.old self.new at (effect.Take id) }
    {
        let below = self.below;
        self.channels[id as usize].take(at, below);
    }

    /// Notifies an event of the model's own.
    fn notify(&mut self, id: u32, delay: Time, at: Stamp)
        requires room { Covers self.old (effect.Notify id delay ∷ []) }
        requires may { (ops : Operations) × IsBankAfter self.old ops
            × MayApply ops at (effect.Notify id delay) }
        requires countable { IsCountableStamp at }
        ensures { Applies self.old self.new at (effect.Notify id delay) }
    {
        let below = self.below;
        make(
            &mut self.events[id as usize],
            Call::Notify(at, delay),
            below,
        );
    }

    /// Cancels what is pending of an event of the model's own.
    fn cancel(&mut self, id: u32, at: Stamp)
        requires room { Covers self.old (effect.Cancel id ∷ []) }
        requires may { (ops : Operations) × IsBankAfter self.old ops
            × MayApply ops at (effect.Cancel id) }
        requires countable { IsCountableStamp at }
        ensures { Applies self.old self.new at (effect.Cancel id) }
    {
        let below = self.below;
        make(&mut self.events[id as usize], Call::Cancel(at), below);
    }
}

/// The channel of an event, if it is of one.
fn channel(kind: BoundEvent) -> Option<u32>
    ensures { MatchOption result (kind ≡ event.Own)
        (λ c. (c ≡ channel_of kind) × (kind ≢ event.Own)) }
{
    match kind {
        BoundEvent::Own => None,
        BoundEvent::Changed(c)
        | BoundEvent::Rise(c)
        | BoundEvent::Fall(c)
        | BoundEvent::Written(c)
        | BoundEvent::Taken(c) => Some(c),
    }
}

/// The channels of a design as they start.
fn first_channels(alloc: Global, channels: &[BoundChannel]) -> Result<Vec<ChannelState>, AllocError>
    ensures { let count = length channels.now in
        IfOk result (λ made. AreFirst channels.now count made.items) }
{
    let mut made = Vec::new(alloc);
    for channel in channels {
        made.push(ChannelState::new(alloc, *channel))?;
    }
    Ok(made)
}

/// Lets the channels of a design keep those of their events that the design has.
fn keep_all(channels: &mut Vec<ChannelState>, alloc: Global, events: &[BoundEvent])
    ensures first { (design : List ChannelSpec) (count : ℕ) →
        AreFirst design count channels.old.items → AreFirst design count channels.new.items }
    ensures present { All (IsKeptIn channels.new.items) events.now }
{
    for kind in events {
        keep(channels, alloc, *kind);
    }
}

/// Lets the channel of an event keep it, if the event is one of a channel that is there.
fn keep(channels: &mut Vec<ChannelState>, alloc: Global, kind: BoundEvent)
    ensures first { (design : List ChannelSpec) (count : ℕ) →
        AreFirst design count channels.old.items → AreFirst design count channels.new.items }
    ensures kept { IsKeptIn channels.new.items kind }
    ensures others { (k : EventSpec) → IsKeptIn channels.old.items k →
        IsKeptIn channels.new.items k }
{
    if let Some(c) = channel(kind) {
        if (c as usize) < channels.len() {
            channels[c as usize].keep(alloc, kind);
        }
    }
}

/// So many events on which no call was made.
fn first_events(alloc: Global, count: usize) -> Result<Vec<Event>, AllocError>
    ensures { IfOk result (λ made. AreNew count made.items) }
{
    let mut made = Vec::new(alloc);
    'events: for _event in 0..count {
        made.push(Event::new(alloc))?;
    }
    Ok(made)
}
