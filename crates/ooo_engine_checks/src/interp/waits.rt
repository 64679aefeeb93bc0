//! Waits of threads, and what methods wait for next.

use super::nodes::{Code, int, set};
use super::parts::{are_ints, locals};
use super::{MANY, Made, is_over, run_from, wait_of};
use ooo_code::{JobEnd, NodeExpr, NodeKind, NodeTime, NodeWait, SegmentEntry};
use ooo_time::Time;
use ooo_value::ProcessKind;
use sqlite_items::Items;
use std::alloc::Global;
use std::test::Fail;

/// 5 ticks, or an event.
fn pause(alloc: Global, event: u32) -> Made<NodeWait> {
    let events = Items::from_slice(alloc, &[event])?;
    Ok(NodeWait {
        time: Some(NodeTime::Fixed(Time(5))),
        events,
        is_static: false,
    })
}

/// Whether an activation ended by a wait for a time and this event.
fn waits_for(end: &JobEnd, time: Option<Time>, event: u32) -> bool {
    match wait_of(end) {
        Some(on) => on.time == time && on.events.as_slice() == [event].as_slice(),
        None => false,
    }
}

fn wait(alloc: Global, event: u32) -> Made<NodeKind> {
    Ok(NodeKind::Wait(pause(alloc, event)?))
}

fn waiting(alloc: Global) -> Code {
    Code::new(alloc)
        .counted(set(0, Ok(int(1))), 1, 1)
        .counted(wait(alloc, 2), 2, 2)
        .counted(set(0, Ok(int(2))), 3, 3)
        .ends()
}

// The second activation has the local as the first one left it.
#[test]
fn goes_on_after_a_wait(rt: HostRuntime) -> Result<(), Fail> {
    let alloc = rt.alloc();
    for (entry, before, behind, after) in [
        (SegmentEntry::Start, 0, SegmentEntry::After(1), 1),
        (SegmentEntry::After(1), 1, SegmentEntry::After(1), 2),
    ] {
        let design = waiting(alloc).design(ProcessKind::Thread);
        let ran = run_from(alloc, locals(alloc, &[before]), design, entry, MANY)?;
        assert_eq!(rt; ran.entry, behind);
        assert!(rt; are_ints(&ran.slots, &[after]));
        assert_eq!(rt; waits_for(&ran.end, Some(Time(5)), 2), before == 0);
        assert_eq!(rt; is_over(&ran.end), before == 1);
    }
    Ok(())
}

fn trigger(alloc: Global, event: u32) -> Made<NodeKind> {
    Ok(NodeKind::Trigger(pause(alloc, event)?))
}

fn triggering(alloc: Global) -> Code {
    Code::new(alloc)
        .counted(Ok(NodeKind::Test(NodeExpr::Slot(0), 2)), 1, 1)
        .counted(trigger(alloc, 3), 2, 2)
        .ends()
}

#[test]
fn waits_for_its_trigger_or_its_static_events(rt: HostRuntime) -> Result<(), Fail> {
    let alloc = rt.alloc();
    for (x, time, event) in [(1, Some(Time(5)), 3), (0, None, 7)] {
        let design = triggering(alloc).design(ProcessKind::Method);
        let start = SegmentEntry::Start;
        let ran = run_from(alloc, locals(alloc, &[x]), design, start, MANY)?;
        assert_eq!(rt; ran.entry, start);
        assert!(rt; waits_for(&ran.end, time, event));
    }
    Ok(())
}
