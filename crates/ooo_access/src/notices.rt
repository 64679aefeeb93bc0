ghost use Rattle.std.specs.Prelude.{◌≡◌, ℕ, ◌⊎◌, ◌↔◌, true, None, Option, Contains, IsTrue, IfOk, OnOk};
ghost use Rattle.ooo_time.specs.declared.time.Time.{Time as TimeSpec};
ghost use Rattle.ooo_code.specs.Touches.{Notifies};
ghost use Rattle.ooo_segments.specs.Numbers.{IsIn};
ghost use Rattle.ooo_access.specs.declared.told.Part.TheVariants as part;
ghost use Rattle.ooo_access.specs.declared.told.Told.TheVariants as tells;
ghost use Rattle.ooo_access.specs.Notices.{AreInOrder};
ghost use Rattle.ooo_access.specs.Told.{IsTold, all_meant};
ghost use Rattle.ooo_access.specs.Calls.{IsCalled, IsCalledAt};

use crate::parts::set_of;
use crate::sorting::{Notice, insert};
use crate::told::{Part, Told};
use ooo_segments::NumberSet;
use ooo_value::BoundEvent;
use std::alloc::{AllocError, Global};

// The channels of which events are notified: signals that are written, fifos that are read and fifos that are written.
#[derive(Drop)]
struct Called {
    changed: NumberSet,
    taken: NumberSet,
    given: NumberSet,
}

// The notifications that are told, in a model with these events. A model of more than 2^32 events is too large.
pub(crate) fn notices_of(
    alloc: Global,
    events: &[BoundEvent],
    told: &[Told],
) -> Result<Vec<Notice>, AllocError>
    ensures members { IfOk result (λ notices. (e : ℕ) (t : Option TimeSpec) →
        Contains notices.items (e, t) ↔ Contains (all_meant events.now told.now) (Notifies e t)) }
    ensures in_order { IfOk result (λ notices. AreInOrder notices.items) }
{
    let called = called_of(alloc, told)?;
    let mut notices = keeping!(called; direct_notices(alloc, told));
    keeping!(called, notices; called.add(&mut notices, events));
    Ok(notices)
}

// The channels of which events are notified.
fn called_of(alloc: Global, told: &[Told]) -> Result<Called, AllocError>
    ensures changed { IfOk result (λ called.
        (n : ℕ) → IsIn called.changed n ↔ IsTold part.Changed n told.now) }
    ensures taken { IfOk result (λ called.
        (n : ℕ) → IsIn called.taken n ↔ IsTold part.Taken n told.now) }
    ensures given { IfOk result (λ called.
        (n : ℕ) → IsIn called.given n ↔ IsTold part.Given n told.now) }
{
    let changed = set_of(alloc, told, Part::Changed)?;
    let taken = keeping!(changed; set_of(alloc, told, Part::Taken));
    let given = keeping!(changed, taken; set_of(alloc, told, Part::Given));
    Ok(Called {
        changed,
        taken,
        given,
    })
}

// The notifications that are told as such.
fn direct_notices(alloc: Global, told: &[Told]) -> Result<Vec<Notice>, AllocError>
    ensures members { IfOk result (λ notices. (e : ℕ) (t : Option TimeSpec) →
        Contains notices.items (e, t) ↔ Contains told.now (tells.Notifies e t)) }
    ensures in_order { IfOk result (λ notices. AreInOrder notices.items) }
{
    let mut notices = Vec::new(alloc);
    for one in told {
        if let Told::Notifies(e, time) = one {
            insert(&mut notices, (*e, *time))?;
        }
    }
    Ok(notices)
}

// A place as a number, where it is one.
fn number_of(place: usize) -> Result<u32, AllocError>
    ensures { IfOk result (λ n. n ≡ place) }
{
    if place <= u32::MAX as usize {
        Ok(place as u32)
    } else {
        Err(AllocError)
    }
}

impl Called {
    // Puts the notifications of the events that are notified into their places.
    fn add(&self, notices: &mut Vec<Notice>, events: &[BoundEvent]) -> Result<(), AllocError>
        requires { AreInOrder notices.old.items }
        ensures members { OnOk result ((e : ℕ) (t : Option TimeSpec) →
            Contains notices.new.items (e, t) ↔ (Contains notices.old.items (e, t)
            ⊎ ((t ≡ None) × IsCalledAt self.now.changed self.now.taken self.now.given
            events.now e))) }
        ensures in_order { OnOk result (AreInOrder notices.new.items) }
    {
        for (e, event) in events.iter().enumerate() {
            if self.calls(event) {
                insert(notices, (number_of(e)?, None))?;
            }
        }
        Ok(())
    }

    // Whether an event is notified.
    fn calls(&self, event: &BoundEvent) -> bool
        ensures { IsTrue result
            ↔ IsCalled self.now.changed self.now.taken self.now.given event.now }
    {
        match event {
            BoundEvent::Own => false,
            BoundEvent::Changed(c) | BoundEvent::Rise(c) | BoundEvent::Fall(c) => {
                self.changed.contains(*c)
            }
            BoundEvent::Written(c) => self.given.contains(*c),
            BoundEvent::Taken(c) => self.taken.contains(*c),
        }
    }
}
