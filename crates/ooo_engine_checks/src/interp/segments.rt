//! The segment of a job.

ghost use Rattle.std.specs.Prelude.{◌≡◌, IfOk};
ghost use Rattle.ooo_engine_checks.specs.SmallJob.{IsSmall, small_design};

use super::{MANY, Made, is_over};
use ooo_code::{Design, Frame, Node, NodeKind, Proc, SegmentEntry};
use ooo_interp::{Done, Job, run_segment};
use ooo_time::{Stamp, Time};
use ooo_value::{BoundVariable, Kind, ProcessKind, Value};
use sqlite_items::Items;
use std::alloc::Global;
use std::process::Abort;
use std::sync::Arc;
use std::test::Fail;

/// The design of a thread that prints a text and ends, and of one variable.
fn design(alloc: Global, text: &[u8]) -> Made<Design>
    ensures { IfOk result (λ design. design ≡ small_design text.now) }
{
    let text = Items::from_slice(alloc, text)?;
    let mut nodes = Items::new(alloc);
    nodes.push(Node {
        kind: NodeKind::PrintText(text),
        line: 1,
        counts: true,
        next: 1,
    })?;
    nodes.push(Node {
        kind: NodeKind::End,
        line: 2,
        counts: false,
        next: 0,
    })?;
    let mut processes = Items::new(alloc);
    processes.push(Proc {
        kind: ProcessKind::Thread,
        first: 0,
        end: 2,
        slots: Items::new(alloc),
        sensitive: Items::new(alloc),
        initialize: true,
    })?;
    let mut variables = Items::new(alloc);
    variables.push(BoundVariable {
        kind: Kind::Uint,
        length: 1,
        start: Value::Uint(0),
    })?;
    Ok(Design {
        nodes,
        processes,
        variables,
        channels: Items::new(alloc),
        events: Items::new(alloc),
    })
}

/// A job of that design, at the start of the thread, with 3 in the variable.
fn job(alloc: Global, text: &[u8]) -> Made<Job>
    ensures { IfOk result (λ job. IsSmall text.now job) }
{
    let design = design(alloc, text)?;
    let design = Arc::new(alloc, design)?;
    let mut cells = Items::new(alloc);
    cells.push(Value::Uint(3))?;
    let mut owned = Vec::new(alloc);
    owned.push((0, cells))?;
    Ok(Job {
        design,
        process: 0,
        activation: 7,
        stamp: Stamp {
            time: Time::ZERO,
            delta: 0,
        },
        statements: MANY,
        frame: Frame {
            entry: SegmentEntry::Start,
            slots: Items::new(alloc),
        },
        owned,
        copied: Vec::new(alloc),
        seen: Vec::new(alloc),
    })
}

// What a job of that design came to: the thread printed its text and is over.
fn ends(rt: &impl Abort, done: &Done) {
    assert_eq!(rt; done.process, 0);
    assert_eq!(rt; done.activation, 7);
    assert_eq!(rt; done.emitted.output.as_slice(), b"done".as_slice());
    assert!(rt; is_over(&done.end));
    assert!(rt; done.emitted.effects.is_empty());
    assert_eq!(rt; done.frame.entry, SegmentEntry::Start);
}

// What it was given to change comes back as it was, since the thread writes nothing.
fn hands_back(rt: &impl Abort, owned: &[(u32, Items<Value>)]) {
    assert_eq!(rt; owned.len(), 1);
    let (number, cells) = &owned[0];
    assert_eq!(rt; *number, 0);
    assert_eq!(rt; cells.as_slice(), [Value::Uint(3)].as_slice());
}

#[test]
fn a_job_that_fits_is_done(rt: HostRuntime) -> Result<(), Fail> {
    let job = job(rt.alloc(), b"done")?;
    let done = run_segment(rt.alloc(), job)?;
    ends(&rt, &done);
    hands_back(&rt, &done.owned);
    Ok(())
}
