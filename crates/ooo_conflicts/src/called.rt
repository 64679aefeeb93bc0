ghost use Rattle.std.specs.Prelude.{◌≡◌, ℕ, ◌↔◌, ◌⊎◌, Option, IfOk, OnOk, IsTrue, Contains, slice_get};
ghost use Rattle.std.specs.Option.{option_copied};
ghost use Rattle.ooo_time.specs.declared.time.Time.{Time as TimeSpec};
ghost use Rattle.ooo_code.specs.Sound.{IsOwn};
ghost use Rattle.ooo_segments.specs.Numbers.{IsIn};
ghost use Rattle.ooo_conflicts.specs.Kinds.{AllCalled, AreCalled, AreListed};

use ooo_access::Access;
use ooo_segments::NumberSet;
use ooo_time::Time;
use ooo_value::BoundEvent;
use sqlite_items::{Items, at};
use std::alloc::{AllocError, Global};

// The events that an access notifies or cancels, and those of them that are of type sc_event.
#[derive(Drop)]
pub(crate) struct Called {
    pub(crate) all: Items<u32>,
    pub(crate) own: Items<u32>,
}

// What an access calls, in a design with these events.
pub(crate) fn called_by(
    alloc: Global,
    events: &[BoundEvent],
    access: &Access,
) -> Result<Called, AllocError>
    ensures exact { IfOk result (AreCalled events.now access.now) }
    ensures listed { IfOk result AreListed }
{
    let mut all = NumberSet::new(alloc);
    add_notified(&mut all, access.notified.as_slice())?;
    add_all(&mut all, access.cancelled.as_slice())?;
    let all = all.numbers(alloc)?;
    let own = own_of(alloc, events, all.as_slice())?;
    let own = own.numbers(alloc)?;
    Ok(Called { all, own })
}

// What each of these accesses calls.
pub(crate) fn all_called(
    alloc: Global,
    events: &[BoundEvent],
    access: &[Access],
) -> Result<Vec<Called>, AllocError>
    ensures { IfOk result (λ called. AllCalled events.now access.now called.items) }
{
    let mut called = Vec::new(alloc);
    for one in access {
        called.push(called_by(alloc, events, one)?)?;
    }
    Ok(called)
}

// Adds the events of these notifications.
fn add_notified(set: &mut NumberSet, notified: &[(u32, Option<Time>)]) -> Result<(), AllocError>
    ensures { OnOk result ((e : ℕ) → IsIn set.new e
        ↔ (IsIn set.old e ⊎ ((t : Option TimeSpec) × Contains notified.now (e, t)))) }
{
    for notice in notified {
        set.add(notice.0)?;
    }
    Ok(())
}

// Adds these events.
fn add_all(set: &mut NumberSet, events: &[u32]) -> Result<(), AllocError>
    ensures { OnOk result ((e : ℕ) → IsIn set.new e ↔ (IsIn set.old e ⊎ Contains events.now e)) }
{
    for e in events {
        set.add(*e)?;
    }
    Ok(())
}

// Those of the events that are of type sc_event.
fn own_of(alloc: Global, events: &[BoundEvent], called: &[u32]) -> Result<NumberSet, AllocError>
    ensures { IfOk result (λ s. (e : ℕ) →
        IsIn s e ↔ (Contains called.now e × IsOwn (slice_get events.now e))) }
{
    let mut own = NumberSet::new(alloc);
    for e in called {
        if is_own(at(events, *e as usize)) {
            own.add(*e)?;
        }
    }
    Ok(own)
}

// Whether an event is of type sc_event.
fn is_own(event: Option<&BoundEvent>) -> bool
    ensures { IsTrue result ↔ IsOwn (option_copied event.entry) }
{
    matches!(event, Some(BoundEvent::Own))
}
