//! What the worked rows leave out of the calls of a board: which steps are refused, abandoned jobs, and the schedule.

use crate::lines::Line::{
    self, Allowed, Front, Holder, Holds, IsLost, IsOver, Makes, Picks, Refuses, Running,
};
use crate::rows::Row;
use ooo_dispatch::Step::{self, Abandon, Commit, Dispatch};
use std::alloc::Global;
use std::process::Abort;
use std::test::Fail;

// Whether two steps are the same.
fn is_same(one: Step, other: Step) -> bool {
    match (one, other) {
        (Dispatch(p), Dispatch(q)) | (Commit(p), Commit(q)) | (Abandon(p), Abandon(q)) => p == q,
        _ => false,
    }
}

// Whether these are the steps that were made.
fn are_same(made: &[Step], steps: &[Step]) -> bool {
    made.len() == steps.len()
        && made
            .iter()
            .zip(steps)
            .all(|(one, other)| is_same(*one, *other))
}

// The board of a row does all this, by these steps.
fn makes(
    rt: &impl Abort,
    alloc: Global,
    row: Row,
    lines: &[Line],
    steps: &[Step],
) -> Result<(), Fail> {
    let Some(seen) = row.tried(alloc, lines)? else {
        panic!(rt; "the text is refused")
    };
    assert_eq!(rt; seen.wrong, None);
    assert!(rt; are_same(&seen.made, steps));
    Ok(())
}

// Three jobs, each committed before the next one is dispatched.
static ONE_AFTER_ANOTHER: [Step; 6] = [
    Dispatch(0),
    Commit(0),
    Dispatch(1),
    Commit(1),
    Dispatch(1),
    Commit(1),
];

// A job is out from its dispatch to its commit, and its process isn't dispatched again before.
static OUT_UNTIL_COMMIT: [Line; 27] = [
    Allowed(0, true),
    Allowed(1, true),
    Running(0, false),
    Picks(Some(0)),
    Holds(&[0, 0]),
    IsOver(false),
    IsLost(false),
    Refuses(Commit(0)),
    Refuses(Abandon(0)),
    Refuses(Dispatch(2)),
    Makes(Dispatch(0)),
    Running(0, true),
    Running(1, false),
    Allowed(0, false),
    Holder(0, None),
    Refuses(Dispatch(0)),
    Refuses(Commit(1)),
    Makes(Commit(0)),
    Running(0, false),
    Front(0, None),
    IsOver(false),
    Makes(Dispatch(1)),
    Makes(Commit(1)),
    Makes(Dispatch(1)),
    Makes(Commit(1)),
    IsOver(true),
    Picks(None),
];

#[test]
fn a_job_is_out_until_its_commit(rt: HostRuntime) -> Result<(), Fail> {
    let row = Row::SecondThreadFirst;
    makes(&rt, rt.alloc(), row, &OUT_UNTIL_COMMIT, &ONE_AFTER_ANOTHER)
}

// Once a job is abandoned nothing is dispatched, and the board never is over; another job can be committed.
static ABANDONED: [Line; 16] = [
    Makes(Dispatch(0)),
    Makes(Dispatch(1)),
    Makes(Abandon(0)),
    IsLost(true),
    IsOver(false),
    Picks(None),
    Running(0, false),
    Running(1, true),
    Refuses(Abandon(0)),
    Refuses(Commit(0)),
    Makes(Commit(1)),
    Running(1, false),
    Allowed(0, false),
    Allowed(1, false),
    Holder(1, None),
    IsOver(false),
];

#[test]
fn an_abandoned_job_is_lost(rt: HostRuntime) -> Result<(), Fail> {
    let steps = [Dispatch(0), Dispatch(1), Abandon(0), Commit(1)];
    makes(&rt, rt.alloc(), Row::VariableAhead, &ABANDONED, &steps)
}
