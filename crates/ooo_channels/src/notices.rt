ghost use Rattle.std.specs.Prelude.{◌≡◌, ◌+◌, ◌≤◌, List, [], ◌∷◌, ◌++◌, Some};
ghost use Rattle.ooo_events.specs.Calls.{Follows, IsCountable, stamp_of};
ghost use Rattle.ooo_channels.specs.Calls.{renewal};
ghost use Rattle.ooo_channels.specs.Conditions.{IsCountableStamp};
ghost use Rattle.ooo_channels.specs.Kept.{IsEventKept};

use ooo_events::{Call, Event};
use ooo_time::{Stamp, Time};
use std::alloc::{AllocError, Global};

/// An event of a channel, which is kept where the design has it.
#[derive(Drop)]
pub enum Notice {
    /// An event that the design has.
    Kept(Event),
    /// An event that it hasn't.
    Absent,
}

impl Notice {
    ghost use Rattle.std.specs.Prelude.{◌≡◌, ◌+◌, ℕ, List, [], ◌∷◌, ◌++◌, OnOk};
    ghost use Rattle.ooo_time.specs.Stamps.{IsBefore};
    ghost use Rattle.ooo_events.specs.declared.call.Call.{Call as CallSpec};
    ghost use Rattle.ooo_events.specs.Firings.{Fires, IsFirstAfter};
    ghost use Rattle.ooo_channels.specs.Calls.{renewal};
    ghost use Rattle.ooo_channels.specs.Conditions.{IsCountableStamp};
    ghost use Rattle.ooo_channels.specs.Kept.{IsNoticeKept, IsNoticeBy, IsNotice, IsPresent};
    ghost use Rattle.ooo_channels.specs.Room.{HasNoticeRoom};

    /// An event on which no call was made, with no room for any, which is kept from now on. It takes no memory.
    pub fn new(alloc: Global) -> Notice
        ensures present { IsPresent result }
        ensures first { (below stamp : Stamp) → IsNotice below stamp result [] }
        ensures room { HasNoticeRoom 0 result }
    {
        Notice::Kept(Event::new(alloc))
    }

    /// Makes room for `n` more calls, where the event is kept.
    ///
    /// # Errors
    ///
    /// Only where memory runs out; the event is then as it was.
    #[inline(always)]
    pub fn reserve(&mut self, n: usize) -> Result<(), AllocError>
        ensures room { OnOk result (HasNoticeRoom n self.new) }
        ensures more { (m : ℕ) → HasNoticeRoom m self.old → HasNoticeRoom m self.new }
        ensures after { (below stamp : Stamp) (calls : List CallSpec) →
            IsNotice below stamp self.old calls → IsNotice below stamp self.new calls }
        ensures present { IsPresent self.old → IsPresent self.new }
    {
        match self {
            Notice::Kept(event) => event.reserve(n),
            Notice::Absent => Ok(()),
        }
    }

    /// Notifies the event for the next delta cycle, or cancels what is pending of it, once its firings before `below` are
    /// forgotten.
    #[inline(always)]
    pub fn renew(&mut self, at: Stamp, notified: bool, below: Stamp)
        requires room { HasNoticeRoom 1 self.old }
        requires in_order { IsNoticeBy at self.old }
        requires countable { IsCountableStamp at }
        ensures kept { (calls : List CallSpec) → IsNoticeKept below self.old calls →
            IsNoticeKept below self.new (calls ++ renewal at notified ∷ []) }
        ensures by { IsNoticeBy at self.new }
        ensures room { (n : ℕ) → HasNoticeRoom (n + 1) self.old → HasNoticeRoom n self.new }
        ensures present { IsPresent self.old → IsPresent self.new }
    {
        match self {
            Notice::Kept(event) => renew(event, at, notified, below),
            Notice::Absent => {}
        }
    }

    /// The first stamp after `since` at which the event fires.
    pub fn first_after(&self, since: Stamp) -> Option<Stamp>
        requires { IsPresent self.now }
        ensures { (below : Stamp) (calls : List CallSpec) → IsNoticeKept below self.now calls →
            ¬ IsBefore since below → IsFirstAfter (Fires calls) since result }
    {
        match self {
            Notice::Kept(event) => event.first_after(since),
            Notice::Absent => None,
        }
    }
}

/// Makes one more call on an event, which forgets its firings before `below`.
pub fn make(event: &mut Event, call: Call, below: Stamp)
    requires room { 1 ≤ event.old.spare }
    requires in_order { Follows event.old.last (stamp_of call) }
    requires countable { IsCountable call }
    ensures kept { (calls : List Call) → IsEventKept below event.old calls →
        IsEventKept below event.new (calls ++ call ∷ []) }
    ensures last { event.new.last ≡ Some (stamp_of call) }
    ensures room { event.old.spare ≤ event.new.spare + 1 }
{
    event.forget(below);
    event.apply(call);
}

/// Notifies an event for the next delta cycle, or cancels what is pending of it, once its firings before `below` are
/// forgotten.
#[inline(always)]
pub fn renew(event: &mut Event, at: Stamp, notified: bool, below: Stamp)
    requires room { 1 ≤ event.old.spare }
    requires in_order { Follows event.old.last at }
    requires countable { IsCountableStamp at }
    ensures kept { (calls : List Call) → IsEventKept below event.old calls →
        IsEventKept below event.new (calls ++ renewal at notified ∷ []) }
    ensures last { event.new.last ≡ Some at }
    ensures room { event.old.spare ≤ event.new.spare + 1 }
{
    event.forget(below);
    if notified {
        event.notify(at, Time::ZERO);
    } else {
        event.cancel(at);
    }
}
