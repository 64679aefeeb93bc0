//! The access of a segment that touches something in each way.

use crate::closed::are_closed;
use crate::sketch::{Made, node, waiting, with_node};
use crate::tables::{Tables, tables_of};
use ooo_access::Access;
use ooo_code::{Design, Node, NodeExpr, NodeKind, NodeTime, Proc};
use ooo_time::{Scale, Time};
use ooo_value::{BoundEvent, ProcessKind, Value};
use sqlite_items::{Boxed, Items};
use std::alloc::{AllocError, Global};
use std::process::Abort;
use std::test::Fail;

// One node of each kind that touches something, one after another, and the end.
fn nodes(alloc: Global) -> Made<Items<Node>> {
    let index = Some(NodeExpr::Variable(1));
    let store = NodeKind::Store(3, index, NodeExpr::Slot(0));
    let put = NodeKind::Put(5, NodeExpr::Constant(Value::Int(1)));
    let nodes = with_node(Ok(Items::new(alloc)), node(store, 1));
    let nodes = with_node(nodes, node(NodeKind::Write(0, NodeExpr::Signal(1)), 2));
    let nodes = with_node(nodes, node(NodeKind::Test(NodeExpr::Edge(2, true), 5), 3));
    let nodes = with_node(nodes, node(NodeKind::Take(4, 0), 4));
    let nodes = with_node(nodes, node(put, 5));
    let nodes = with_node(
        nodes,
        node(NodeKind::Notify(0, NodeTime::Fixed(Time(7))), 6),
    );
    let nodes = with_node(
        nodes,
        node(NodeKind::Notify(0, NodeTime::Fixed(Time(0))), 7),
    );
    let nodes = with_node(nodes, node(NodeKind::Cancel(9), 8));
    let nodes = with_node(nodes, wait(alloc));
    with_node(nodes, node(NodeKind::End, 0))
}

// A wait for a negated variable in nanoseconds, or for event 3.
fn wait(alloc: Global) -> Made<Node> {
    let amount = NodeExpr::Negate(Boxed::new(alloc, NodeExpr::Variable(2))?);
    let kind = waiting(alloc, Some(NodeTime::Amount(amount, Scale::Ns)), Some(3))?;
    node(kind, 9)
}

fn events(alloc: Global) -> Made<Items<BoundEvent>> {
    Items::from_slice(
        alloc,
        &[
            BoundEvent::Own,
            BoundEvent::Changed(0),
            BoundEvent::Rise(0),
            BoundEvent::Fall(0),
            BoundEvent::Taken(4),
            BoundEvent::Written(5),
            BoundEvent::Changed(1),
        ],
    )
}

fn processes(alloc: Global) -> Made<Items<Proc>> {
    let sensitive = Items::from_slice(alloc, &[6, 2])?;
    let mut processes = Items::new(alloc);
    processes.push(Proc {
        kind: ProcessKind::Thread,
        first: 0,
        end: 10,
        slots: Items::new(alloc),
        sensitive,
        initialize: false,
    })?;
    Ok(processes)
}

fn design(alloc: Global) -> Made<Design> {
    match (nodes(alloc), processes(alloc), events(alloc)) {
        (Ok(nodes), Ok(processes), Ok(events)) => Ok(Design {
            nodes,
            processes,
            variables: Items::new(alloc),
            channels: Items::new(alloc),
            events,
        }),
        _ => Err(AllocError),
    }
}

// The access of each segment of the design.
fn accesses(rt: &impl Abort, alloc: Global) -> Result<Vec<Access>, Fail> {
    let design = design(alloc)?;
    assert!(rt; are_closed(&design));
    let tables = tables_of(alloc, &design);
    drop(design);
    let Tables { access, .. } = tables?;
    Ok(access)
}

fn reads_and_writes(rt: &impl Abort, access: &Access) {
    assert_eq!(rt; access.read.as_slice(), [1, 2].as_slice());
    assert_eq!(rt; access.written.as_slice(), [3].as_slice());
    assert_eq!(rt; access.signals_read.as_slice(), [1, 2].as_slice());
    assert_eq!(rt; access.signals_written.as_slice(), [0].as_slice());
}

fn uses_fifos_and_events(rt: &impl Abort, access: &Access) {
    assert_eq!(rt; access.takes.as_slice(), [4].as_slice());
    assert_eq!(rt; access.puts.as_slice(), [5].as_slice());
    assert_eq!(rt; access.cancelled.as_slice(), [9].as_slice());
    assert_eq!(rt; access.waited.as_slice(), [2, 6].as_slice());
}

fn notifies_all(rt: &impl Abort, access: &Access) {
    let notified = access.notified.as_slice();
    assert_eq!(rt; notified.len(), 7);
    assert!(rt; notified[0] == (0, None) && notified[1] == (0, Some(Time(7))));
    assert!(rt; notified[2] == (1, None) && notified[3] == (2, None));
    assert!(rt; notified[4] == (3, None) && notified[5] == (4, None));
    assert!(rt; notified[6] == (5, None));
}

// Worked by hand: each list holds what the nodes touch, once and in order. Behind the wait nothing is touched.
#[test]
fn lists_what_the_nodes_touch(rt: HostRuntime) -> Result<(), Fail> {
    let accesses = accesses(&rt, rt.alloc())?;
    assert_eq!(rt; accesses.len(), 2);
    reads_and_writes(&rt, &accesses[0]);
    uses_fifos_and_events(&rt, &accesses[0]);
    notifies_all(&rt, &accesses[0]);
    let access = &accesses[1];
    assert_eq!(rt; access.waited.as_slice(), [3].as_slice());
    assert!(rt; access.read.is_empty() && access.notified.is_empty());
    Ok(())
}
