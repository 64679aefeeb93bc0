ghost use Rattle.std.specs.Prelude.{◌≡◌, ◌+◌, ◌≤◌, ℕ, List, [], ◌∷◌, ◌++◌, Some, None, Bool, ◌&&◌, not, if◌then◌else◌, vec_len, vec_capacity, pos, IsOk, IfOk, OnOk};
ghost use Rattle.std.specs.VecDeque.{deque_len, deque_capacity};
ghost use Rattle.ooo_time.specs.declared.stamp.Stamp.{Stamp as StampSpec};
ghost use Rattle.ooo_events.specs.Calls.{Follows};
ghost use Rattle.ooo_value.specs.Values.{number_of, truth_of, value_of};
ghost use Rattle.ooo_code.specs.Channels.{Channel, same_value, is_time, changes, next_value};
ghost use Rattle.ooo_meaning.specs.World.{next_delta, same_stamp, zero_stamp, change_entries};
ghost use Rattle.ooo_time.specs.Stamps.{IsBefore};
ghost use Rattle.ooo_events.specs.declared.call.Call.{Call as CallSpec};
ghost use Rattle.ooo_code.specs.Channels.{IsSignal};
ghost use Rattle.ooo_code.specs.declared.activation.Effect.TheVariants as effect;
ghost use Rattle.ooo_value.specs.declared.bound.BoundEvent.TheVariants as event;
ghost use Rattle.ooo_channels.specs.Conditions.{IsCountableStamp};
ghost use Rattle.ooo_channels.specs.Operations.{Operation};
ghost use Rattle.ooo_events.specs.Firings.{Fires, IsFirstAfter};
ghost use Rattle.ooo_value.specs.declared.bound.BoundEvent.{BoundEvent as EventSpec};
ghost use Rattle.ooo_channels.specs.Calls.{channel_of, notifies, renewal};
ghost use Rattle.ooo_channels.specs.Versions.{signal_of};
ghost use Rattle.ooo_channels.specs.Entries.{entries_before};

use crate::entries::{copy_before, is_within};
use crate::notices::Notice;
use crate::version::{Version, append, is_next, version_in};
use ooo_history::{Entry, What};
use ooo_time::Stamp;
use ooo_value::{BoundEvent, Kind, Value, convert, truth};
use std::alloc::{AllocError, Global};
use std::collections::VecDeque;

/// What is kept of a signal (IEEE 1666-2011, 6.4): its versions, of which the newest is of the cycle of the last request,
/// and its history up to that cycle.
#[derive(Drop)]
pub struct SignalState {
    /// The newest version.
    pub newest: Version,
    /// The versions before it that may still be asked for, in their order.
    pub past: VecDeque<Version>,
    /// The entries of the updates before the newest version's cycle.
    pub history: Vec<Entry>,
    /// Value changed.
    pub changes: Notice,
    /// Changed to true.
    pub rises: Notice,
    /// Changed to false.
    pub falls: Notice,
}

impl SignalState {
    ghost use Rattle.ooo_channels.specs.Kept.{IsSignalIn, IsSignalAfter, IsSignalEvent, IsNoticeKept, AreSignalEventsBy, SignalKeeps, SignalShows};
    ghost use Rattle.ooo_channels.specs.Room.{HasSignalRoom};
    ghost use Rattle.ooo_channels.specs.declared.notices.Notice.TheVariants as notice;
    ghost use Rattle.ooo_channels.specs.Cycles.{Cycle, cycle_at, cycle_after, whole_history, IsSeenAs};
    ghost use Rattle.ooo_channels.specs.Versions.{signal_of, IsContinued, StartsBy, AreVersionsOf, AreVersionsSince, versions_with};

    /// A signal as it starts, at 0 of its kind, which keeps none of its events. It takes no memory.
    pub fn new(alloc: Global, kind: Kind) -> SignalState
        ensures value { result.newest.current ≡ value_of kind (pos 0) }
        ensures fresh { result.newest.requested ≡ None }
        ensures unchanged { result.newest.changed ≡ None }
        ensures stamp { result.newest.stamp ≡ zero_stamp }
        ensures past { result.past.items ≡ [] }
        ensures history { result.history.items ≡ [] }
        ensures changes { result.changes ≡ notice.Absent }
        ensures rises { result.rises ≡ notice.Absent }
        ensures falls { result.falls ≡ notice.Absent }
        ensures room { HasSignalRoom 0 result }
    {
        SignalState {
            newest: Version {
                stamp: Stamp::default(),
                current: convert(Value::Int(0), kind),
                requested: None,
                changed: None,
            },
            past: VecDeque::new(alloc),
            history: Vec::new(alloc),
            changes: Notice::Absent,
            rises: Notice::Absent,
            falls: Notice::Absent,
        }
    }

    /// Keeps an event of the signal, of which nothing was requested yet. It takes no memory.
    pub fn keep(&mut self, alloc: Global, kind: BoundEvent)
        ensures kept { SignalKeeps kind self.new }
        ensures keeps { (k : EventSpec) → SignalKeeps k self.old → SignalKeeps k self.new }
        ensures after { (c : ℕ) (below : Stamp) (x : Cycle) →
            IsSignalAfter c below x (λ k. []) self.old →
            IsSignalAfter c below x (λ k. []) self.new }
        ensures shows { (below : Stamp) (was : StampSpec → Channel) →
            SignalShows below was self.old → SignalShows below was self.new }
    {
        match kind {
            BoundEvent::Changed(_) => self.changes = Notice::new(alloc),
            BoundEvent::Rise(_) => self.rises = Notice::new(alloc),
            BoundEvent::Fall(_) => self.falls = Notice::new(alloc),
            BoundEvent::Own | BoundEvent::Written(_) | BoundEvent::Taken(_) => {}
        }
    }

    /// Makes room for `n` more requests.
    ///
    /// # Errors
    ///
    /// Only where memory runs out.
    #[inline(always)]
    pub fn reserve(&mut self, n: usize) -> Result<(), AllocError>
        ensures room { OnOk result (HasSignalRoom n self.new) }
        ensures kept { (m : ℕ) → HasSignalRoom m self.old → HasSignalRoom m self.new }
        ensures after { (c : ℕ) (below : Stamp) (x : Cycle) (calls : EventSpec → List CallSpec) →
            IsSignalAfter c below x calls self.old → IsSignalAfter c below x calls self.new }
        ensures shows { (below : Stamp) (was : StampSpec → Channel) →
            SignalShows below was self.old → SignalShows below was self.new }
        ensures keeps { (k : EventSpec) → SignalKeeps k self.old → SignalKeeps k self.new }
    {
        let past = self.past.reserve(n);
        let history = self.history.reserve(n);
        let changes = self.changes.reserve(n);
        let rises = self.rises.reserve(n);
        let falls = self.falls.reserve(n);
        past.and(history).and(changes).and(rises).and(falls)
    }

    /// Requests a value in the cycle of a stamp, which isn't before the last one, and forgets the versions of which nothing
    /// is seen from a stamp on.
    pub fn request(&mut self, at: Stamp, value: Value, below: Stamp)
        requires room { HasSignalRoom 1 self.old }
        requires in_order { ¬ IsBefore at self.old.newest.stamp }
        requires events { AreSignalEventsBy self.old }
        requires countable { IsCountableStamp at }

        ensures cycle { (x : Cycle) (c : ℕ) → IsSignalIn self.old x →
            IsSignalIn self.new (cycle_after x
            (record { at = at; effect = effect.Request c value })) }
        ensures stamp { self.new.newest.stamp ≡ at }
        ensures events { AreSignalEventsBy self.new }

        // It shows before and in its cycle what it showed, and the request later.
        ensures shows { (was next : StampSpec → Channel) (x : Cycle) (c : ℕ) →
            let o : Operation = record { at = at; effect = effect.Request c value } in
            IsSignalIn self.old x → IsContinued at (cycle_after x o) was next →
            SignalShows below was self.old → SignalShows below next self.new }

        // The events are notified anew.
        ensures changes { (calls : List CallSpec) → IsNoticeKept below self.old.changes calls →
            let s = IsSignal (signal_of self.new.newest) in
            IsNoticeKept below self.new.changes
            (calls ++ renewal at (notifies (event.Changed 0) s) ∷ []) }
        ensures rises { (calls : List CallSpec) → IsNoticeKept below self.old.rises calls →
            let s = IsSignal (signal_of self.new.newest) in
            IsNoticeKept below self.new.rises
            (calls ++ renewal at (notifies (event.Rise 0) s) ∷ []) }
        ensures falls { (calls : List CallSpec) → IsNoticeKept below self.old.falls calls →
            let s = IsSignal (signal_of self.new.newest) in
            IsNoticeKept below self.new.falls
            (calls ++ renewal at (notifies (event.Fall 0) s) ∷ []) }

        ensures keeps { (k : EventSpec) → SignalKeeps k self.old → SignalKeeps k self.new }
        ensures room { (n : ℕ) → HasSignalRoom (n + 1) self.old → HasSignalRoom n self.new }
    {
        self.move_to(at, below);
        self.newest.requested = Some(value);
        let changes = self.newest.is_changing();
        let up = truth(value);
        self.changes.renew(at, changes, below);
        self.rises.renew(at, changes && up, below);
        self.falls.renew(at, changes && !up, below);
    }

    /// The first firing after a stamp of an event of the signal.
    pub fn first(&self, kind: BoundEvent, since: Stamp) -> Option<Stamp>
        requires is { IsSignalEvent kind }
        requires kept { SignalKeeps kind self.now }
        ensures { (below : Stamp) (x : Cycle) (calls : EventSpec → List CallSpec) →
            IsSignalAfter (channel_of kind) below x calls self.now → ¬ IsBefore since below →
            IsFirstAfter (Fires (calls kind)) since result }
    {
        match kind {
            BoundEvent::Changed(_) => self.changes.first_after(since),
            BoundEvent::Rise(_) => self.rises.first_after(since),
            BoundEvent::Fall(_) => self.falls.first_after(since),
            BoundEvent::Own | BoundEvent::Written(_) | BoundEvent::Taken(_) => None,
        }
    }

    /// The history up to the cycle of a stamp. The signal is used up, and its history isn't copied.
    ///
    /// # Errors
    ///
    /// Only where memory runs out.
    pub fn into_history(mut self, at: Stamp) -> Result<Vec<Entry>, AllocError>
        ensures { IfOk result (λ h. (x : Cycle) → IsSignalIn self x →
            h.items ≡ (cycle_at at x).history) }
    {
        if self.newest.stamp.is_before(at) && self.newest.is_changing() {
            let entry = Entry {
                stamp: self.newest.stamp,
                what: What::Changed,
                value: self.newest.next_value(),
            };
            self.history.push(entry)?;
        }
        Ok(self.history)
    }

    /// A copy of the history before a stamp, with what the update of the newest version's cycle adds, if that is before it
    /// too; of all cycles where there is no stamp.
    ///
    /// # Errors
    ///
    /// Only where memory runs out.
    pub fn history(&self, alloc: Global, before: Option<Stamp>) -> Result<Vec<Entry>, AllocError>
        ensures { IfOk result (λ h. (x : Cycle) → IsSignalIn self.now x →
            h.items ≡ entries_before before (whole_history x)) }
    {
        let mut copied = copy_before(alloc, self.history.as_slice(), before)?;
        if is_within(self.newest.stamp, before) && self.newest.is_changing() {
            let entry = Entry {
                stamp: self.newest.stamp,
                what: What::Changed,
                value: self.newest.next_value(),
            };
            copied.push(entry)?;
        }
        Ok(copied)
    }

    /// Goes on to the cycle of a stamp, where that is later.
    fn move_to(&mut self, at: Stamp, below: Stamp)
        requires history { vec_len self.old.history + 1 ≤ vec_capacity self.old.history }
        requires past { deque_len self.old.past + 1 ≤ deque_capacity self.old.past }
        ensures cycle { (x : Cycle) → IsSignalIn self.old x → IsSignalIn self.new (cycle_at at x) }
        ensures rest { let s = self.new in
            s ≡ record self.old { newest = s.newest; past = s.past; history = s.history } }
        ensures stamp { ¬ IsBefore at self.old.newest.stamp → self.new.newest.stamp ≡ at }
        ensures since { (was : StampSpec → Channel) (new : Version) → new.stamp ≡ at →
            StartsBy below (self.old.past.items ++ self.old.newest ∷ []) →
            AreVersionsOf was (versions_with self.old.past.items self.old.newest new) →
            AreVersionsSince below was (self.new.past.items ++ new ∷ []) }
        ensures history_room { (n : ℕ) →
            vec_len self.old.history + (n + 1) ≤ vec_capacity self.old.history →
            vec_len self.new.history + n ≤ vec_capacity self.new.history }
        ensures past_room { (n : ℕ) →
            deque_len self.old.past + (n + 1) ≤ deque_capacity self.old.past →
            deque_len self.new.past + n ≤ deque_capacity self.new.past }
    {
        let left = self.newest;
        if left.stamp.is_before(at) {
            let changes = left.is_changing();
            log_change(&mut self.history, &left, changes);
            append(&mut self.past, left, at, below);
            self.newest = Version {
                stamp: at,
                current: left.next_value(),
                requested: None,
                changed: (changes && is_next(at, left.stamp)).then_some(left.stamp.time),
            };
        }
    }

    /// The value that is seen in the cycle of a stamp, and whether it changed in the delta cycle just before. It takes a
    /// number of steps that is logarithmic in the versions that are kept, and one step from the newest one's cycle on.
    pub fn seen(&self, at: Stamp) -> (Value, bool)
        ensures newest { (x : Cycle) → IsSignalIn self.now x → ¬ IsBefore at x.stamp →
            IsSeenAs (cycle_at at x).channel at.time result }
        ensures since { (below : Stamp) (was : StampSpec → Channel) →
            SignalShows below was self.now → ¬ IsBefore at below →
            IsSeenAs (was at) at.time result }
    {
        if !at.is_before(self.newest.stamp) {
            return self.newest.seen(at);
        }
        match version_in(&self.past, at) {
            Some(version) => version.seen(at),
            None => self.newest.seen(at),
        }
    }
}

/// Appends the entry of a version's update, where that changes the value.
fn log_change(history: &mut Vec<Entry>, version: &Version, changing: bool)
    requires room { vec_len history.old + 1 ≤ vec_capacity history.old }
    requires told { changing ≡ changes (signal_of version.now) }
    ensures items { let s = signal_of version.now in
        history.new.items ≡ history.old.items ++ change_entries version.now.stamp s }
    ensures room { (n : ℕ) → vec_len history.old + (n + 1) ≤ vec_capacity history.old →
        vec_len history.new + n ≤ vec_capacity history.new }
{
    if changing {
        history.push_reserved(Entry {
            stamp: version.stamp,
            what: What::Changed,
            value: version.next_value(),
        });
    }
}
