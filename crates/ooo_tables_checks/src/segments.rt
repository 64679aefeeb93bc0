//! Sets of numbers, the delays of waits, and the name of a refusal.

use crate::closed::are_closed;
use crate::sketch::{Made, node, processes_of, thread, waiting, with_node};
use ooo_code::{Design, Node, NodeExpr, NodeKind, NodeTime};
use ooo_segments::{Edge, GraphError, NumberSet, graph_of_closed};
use ooo_time::{Delay, Scale, Time};
use ooo_value::Value;
use sqlite_items::Items;
use std::alloc::Global;
use std::test::Fail;

// The numbers of a set, once these are added.
fn numbers(alloc: Global, set: &mut NumberSet, added: &[u32]) -> Made<Items<u32>> {
    for n in added {
        set.add(*n)?;
    }
    set.numbers(alloc)
}

#[test]
fn sets_list_their_numbers_in_order(rt: HostRuntime) -> Result<(), Fail> {
    let mut set = NumberSet::new(rt.alloc());
    let numbers = numbers(rt.alloc(), &mut set, &[7, 2, 7, 0])?;
    assert_eq!(rt; numbers.as_slice(), [0, 2, 7].as_slice());
    assert!(rt; set.contains(2) && !set.contains(3) && !set.contains(8));
    Ok(())
}

#[test]
fn a_set_below_a_number_is_empty_at_first(rt: HostRuntime) -> Result<(), Fail> {
    let mut set = NumberSet::below(rt.alloc(), 2)?;
    assert!(rt; !set.contains(1));
    let numbers = numbers(rt.alloc(), &mut set, &[1])?;
    assert_eq!(rt; numbers.as_slice(), [1].as_slice());
    Ok(())
}

// A thread of five nodes.
fn thread_of(alloc: Global, nodes: Items<Node>) -> Made<Design> {
    match processes_of(alloc, &[thread(0, 5)]) {
        Ok(processes) => Ok(Design {
            nodes,
            processes,
            variables: Items::new(alloc),
            channels: Items::new(alloc),
            events: Items::new(alloc),
        }),
        Err(error) => {
            drop(nodes);
            Err(error)
        }
    }
}

fn edge(from: u32, to: u32, delay: Delay) -> Edge {
    Edge { from, to, delay }
}

// A wait for a time, or for one event, too.
fn wait(alloc: Global, time: NodeTime, event: Option<u32>, next: u32) -> Made<Node> {
    node(waiting(alloc, Some(time), event)?, next)
}

// Waits for a constant time, for none, for a computed one, and for a constant time or an event; and the end.
fn waits(alloc: Global) -> Made<Items<Node>> {
    let amount = NodeTime::Amount(NodeExpr::Constant(Value::Int(5)), Scale::Ns);
    let nodes = Ok(Items::new(alloc));
    let nodes = with_node(nodes, wait(alloc, NodeTime::Fixed(Time(5)), None, 1));
    let nodes = with_node(nodes, wait(alloc, NodeTime::Fixed(Time(0)), None, 2));
    let nodes = with_node(nodes, wait(alloc, amount, None, 3));
    let nodes = with_node(nodes, wait(alloc, NodeTime::Fixed(Time(5)), Some(3), 4));
    with_node(nodes, node(NodeKind::End, 0))
}

// Worked by hand: a constant time above zero alone is the wait's delay, and every other wait takes one delta cycle.
#[test]
fn waits_take_a_time_or_one_delta(rt: HostRuntime) -> Result<(), Fail> {
    let alloc = rt.alloc();
    let design = thread_of(alloc, waits(alloc)?)?;
    assert!(rt; are_closed(&design));
    let graph = graph_of_closed(alloc, &design);
    drop(design);
    let graph = graph?;
    let time = Time(5);
    let edges = [
        edge(0, 1, Delay { time, deltas: 0 }),
        edge(1, 2, Delay::DELTA),
        edge(2, 3, Delay::DELTA),
        edge(3, 4, Delay::DELTA),
    ];
    assert_eq!(rt; graph.edges.as_slice(), edges.as_slice());
    Ok(())
}

#[test]
fn a_refusal_has_a_name(rt: HostRuntime) {
    assert_eq!(rt; GraphError::TooManySegments.name(), "TooManySegments");
}
