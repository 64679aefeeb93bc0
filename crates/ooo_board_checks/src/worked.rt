//! The worked rows: what a board answers between its steps.

use crate::driving::{Told, told_in_orders};
use crate::lines::Line::{self, Allowed, Front, Holder, Holds, IsOver, Makes, Picks, Refuses};
use crate::rows::Row;
use ooo_dispatch::Step::{Commit, Dispatch};
use ooo_fronts::Hold;
use ooo_time::{Stamp, Time};
use std::alloc::Global;
use std::process::Abort;
use std::test::Fail;

// How many orders are drawn for each row.
const ORDERS: u32 = 2000;

// The board of a row does all this, and then has the row's report.
fn follows(rt: &impl Abort, alloc: Global, row: Row, lines: &[Line]) -> Result<(), Fail> {
    let Some(seen) = row.tried(alloc, lines)? else {
        panic!(rt; "{row:?}: the text is refused")
    };
    assert_eq!(rt; seen.wrong, None, "{row:?}");
    assert!(rt; is_text(&seen.report, row.report()), "{row:?}");
    Ok(())
}

// Whether there is a text, and it is this.
fn is_text(text: &Option<Vec<u8>>, wanted: &[u8]) -> bool {
    match text {
        Some(text) => text.as_slice() == wanted,
        None => false,
    }
}

// A time in picoseconds and a delta cycle.
macro_rules! at {
    ($ticks:expr, $delta:expr) => {
        Stamp {
            time: Time($ticks),
            delta: $delta,
        }
    };
}

// The front of a process: what it leads to, and at what time and delta cycle.
macro_rules! front {
    ($segment:expr, $ticks:expr, $delta:expr) => {
        Some(ooo_fronts::Front {
            segment: $segment,
            stamp: at!($ticks, $delta),
        })
    };
}

// What holds a process up: the front of a process, by what it leads to.
macro_rules! held {
    ($front:expr, $segment:expr, $ticks:expr, $delta:expr) => {
        Some(Hold {
            front: $front,
            segment: $segment,
            at: at!($ticks, $delta),
        })
    };
}

// The second thread is dispatched and committed twice while the first one's job is out.
static SECOND_ENDS_FIRST: [Line; 9] = [
    Makes(Dispatch(0)),
    Picks(Some(1)),
    Makes(Dispatch(1)),
    Makes(Commit(1)),
    Makes(Dispatch(1)),
    Makes(Commit(1)),
    IsOver(false),
    Makes(Commit(0)),
    IsOver(true),
];

#[test]
fn the_second_thread_ends_first(rt: HostRuntime) -> Result<(), Fail> {
    follows(&rt, rt.alloc(), Row::SecondThreadFirst, &SECOND_ENDS_FIRST)
}

// The second thread reads the variable at 3 ns before the first is dispatched. At 10 ns it is held up, since the first writes
// the variable at 5 ns: by one clash.
static READ_AHEAD: [Line; 22] = [
    Makes(Dispatch(1)),
    Makes(Commit(1)),
    Front(1, front!(3, 3_000, 0)),
    Allowed(1, true),
    Makes(Dispatch(1)),
    Makes(Commit(1)),
    Front(1, front!(4, 10_000, 0)),
    Allowed(1, false),
    Refuses(Dispatch(1)),
    Holder(1, held!(0, 1, 5_000, 0)),
    Holds(&[0, 1]),
    Picks(Some(0)),
    Makes(Dispatch(0)),
    Makes(Commit(0)),
    Makes(Dispatch(0)),
    Makes(Commit(0)),
    Allowed(1, true),
    Holder(1, None),
    Holds(&[0, 0]),
    Makes(Dispatch(1)),
    Makes(Commit(1)),
    IsOver(true),
];

#[test]
fn a_variable_is_read_ahead(rt: HostRuntime) -> Result<(), Fail> {
    follows(&rt, rt.alloc(), Row::VariableAhead, &READ_AHEAD)
}

// The third thread is held up by what the second will write, once the first has notified it.
static HELD_UP_BY_NOTIFIED: [Line; 21] = [
    Makes(Dispatch(1)),
    Makes(Commit(1)),
    Makes(Dispatch(2)),
    Makes(Commit(2)),
    Front(1, None),
    Allowed(1, false),
    Allowed(2, false),
    Holder(2, held!(0, 3, 1_000, 1)),
    Makes(Dispatch(0)),
    Makes(Commit(0)),
    Makes(Dispatch(0)),
    Makes(Commit(0)),
    Front(1, front!(3, 1_000, 1)),
    Allowed(2, false),
    Holder(2, held!(1, 3, 1_000, 1)),
    Makes(Dispatch(1)),
    Refuses(Dispatch(2)),
    Makes(Commit(1)),
    Makes(Dispatch(2)),
    Makes(Commit(2)),
    IsOver(true),
];

#[test]
fn who_is_notified_later_holds_up(rt: HostRuntime) -> Result<(), Fail> {
    follows(&rt, rt.alloc(), Row::NotifiedLater, &HELD_UP_BY_NOTIFIED)
}

// Who writes a signal runs ahead of who reads it later, which sees what was written before.
static WRITER_AHEAD: [Line; 13] = [
    Makes(Dispatch(1)),
    Makes(Commit(1)),
    Allowed(1, true),
    Holder(1, None),
    Makes(Dispatch(1)),
    Makes(Commit(1)),
    Front(1, None),
    Makes(Dispatch(0)),
    Makes(Commit(0)),
    Front(0, front!(1, 5_000, 0)),
    Makes(Dispatch(0)),
    Makes(Commit(0)),
    IsOver(true),
];

#[test]
fn a_writer_is_ahead_of_a_reader(rt: HostRuntime) -> Result<(), Fail> {
    follows(&rt, rt.alloc(), Row::SlowReader, &WRITER_AHEAD)
}

// The second thread runs to the stop time before the first faults, at 5 ns: what it printed after that isn't in the report.
static CUT_OFF: [Line; 20] = [
    Makes(Dispatch(1)),
    Makes(Commit(1)),
    Makes(Dispatch(1)),
    Makes(Commit(1)),
    Makes(Dispatch(1)),
    Makes(Commit(1)),
    Makes(Dispatch(1)),
    Makes(Commit(1)),
    Makes(Dispatch(1)),
    Makes(Commit(1)),
    Makes(Dispatch(1)),
    Makes(Commit(1)),
    Front(1, front!(3, 120_000, 0)),
    Allowed(1, false),
    Makes(Dispatch(0)),
    Makes(Commit(0)),
    Makes(Dispatch(0)),
    IsOver(false),
    Makes(Commit(0)),
    IsOver(true),
];

#[test]
fn a_fault_cuts_off_what_ran_ahead(rt: HostRuntime) -> Result<(), Fail> {
    follows(&rt, rt.alloc(), Row::FaultBehind, &CUT_OFF)
}

// Each board comes to be over, whatever order is drawn, and reports what the sequential scheduler does.
#[test]
fn any_order_gives_the_report(rt: HostRuntime) -> Result<(), Fail> {
    let alloc = rt.alloc();
    for row in Row::ALL {
        let Some(sample) = row.sample(alloc)? else {
            panic!(rt; "{row:?}: the text is refused")
        };
        match told_in_orders(alloc, &sample, ORDERS)? {
            Told::Same(report) => assert!(rt; report.as_slice() == row.report(), "{row:?}"),
            Told::Differs(seed) => panic!(rt; "{row:?}, seed {seed}"),
        }
    }
    Ok(())
}
