//! Prints, waits, triggers, and what is done to events and the run.

use crate::making::{Made, empty, no_functions, process, simple, told_process, told_thread, with};
use ooo_bound::{BoundExpr, BoundItem, BoundSimple, BoundTime, BoundWait};
use ooo_time::{Scale, Time};
use ooo_value::{Name, ProcessKind};
use sqlite_items::Items;
use std::alloc::{AllocError, Global};
use std::test::Fail;

static PRINTS: &str = "thread starts [0] from 0 to 6 [b i u l ul b i u l ul]
0: goto; line 1 counted; next 1
1: print v0; line 1; next 2
2: print \"x\\n\"; line 1; next 3
3: print time; line 1; next 4
4: goto; line 2 counted; next 5
5: end; line 0; next 5
";

// A value, a text and the time.
fn items(alloc: Global) -> Made<Items<BoundItem>> {
    let text = Name::new(alloc, "x\n")?;
    let mut items = Items::new(alloc);
    items.push(BoundItem::Value(BoundExpr::Variable(0)))?;
    items.push(BoundItem::Text(text))?;
    items.push(BoundItem::Time)?;
    Ok(items)
}

// A print of a value, a text and the time, and one of nothing.
#[test]
fn prints(rt: HostRuntime) -> Result<(), Fail> {
    let alloc = rt.alloc();
    let first = simple(alloc, 1, BoundSimple::Print(items(alloc)?));
    let second = simple(alloc, 2, BoundSimple::Print(Items::new(alloc)));
    let body = with(with(empty(alloc), first), second);
    let text = told_thread(alloc, body, no_functions(alloc))?;
    assert!(rt; text.as_slice() == PRINTS.as_bytes());
    Ok(())
}

// What is waited for: a time and events.
fn on(alloc: Global, time: BoundTime, events: &[u32]) -> Made<BoundWait> {
    match Items::from_slice(alloc, events) {
        Ok(events) => Ok(BoundWait {
            time: Some(time),
            events,
            is_static: false,
        }),
        Err(_) => Err(AllocError),
    }
}

// The static events.
fn on_static(alloc: Global) -> BoundWait {
    BoundWait {
        time: None,
        events: Items::new(alloc),
        is_static: true,
    }
}

static WAITS: &str = "thread starts [0] from 0 to 6 [b i u l ul b i u l ul]
0: wait v0 ns [4 0]; line 1 counted; next 1
1: wait static - [0]; line 2 counted; next 2
2: notify 0 =7; line 3 counted; next 3
3: cancel 0; line 4 counted; next 4
4: stop; line 5 counted; next 5
5: end; line 0; next 5
";

// A wait for a time and events, and one for the static events; then a notification, a cancellation, and the stop.
#[test]
fn waits(rt: HostRuntime) -> Result<(), Fail> {
    let alloc = rt.alloc();
    let time = BoundTime::Amount(BoundExpr::Variable(0), Scale::Ns);
    let wait = on(alloc, time, &[4, 0])?;
    let seven = BoundTime::Fixed(Time(7));
    let body = with(empty(alloc), simple(alloc, 1, BoundSimple::Wait(wait)));
    let body = with(body, simple(alloc, 2, BoundSimple::Wait(on_static(alloc))));
    let body = with(body, simple(alloc, 3, BoundSimple::Notify(0, seven)));
    let body = with(body, simple(alloc, 4, BoundSimple::Cancel(0)));
    let body = with(body, simple(alloc, 5, BoundSimple::Stop));
    let text = told_thread(alloc, body, no_functions(alloc))?;
    assert!(rt; text.as_slice() == WAITS.as_bytes());
    Ok(())
}

static TRIGGERS: &str = "method waits [0] from 0 to 3 [b i u l ul b i u l ul]
0: trigger =3 [5]; line 1 counted; next 1
1: trigger static - [0]; line 2 counted; next 2
2: end; line 0; next 2
";

// A method that isn't initialized, with two triggers.
#[test]
fn triggers(rt: HostRuntime) -> Result<(), Fail> {
    let alloc = rt.alloc();
    let trigger = on(alloc, BoundTime::Fixed(Time(3)), &[5])?;
    let first = simple(alloc, 1, BoundSimple::NextTrigger(trigger));
    let second = simple(alloc, 2, BoundSimple::NextTrigger(on_static(alloc)));
    let body = with(with(empty(alloc), first), second);
    let method = process(alloc, ProcessKind::Method, false, body);
    let text = told_process(alloc, method, no_functions(alloc))?;
    assert!(rt; text.as_slice() == TRIGGERS.as_bytes());
    Ok(())
}
