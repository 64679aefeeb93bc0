//! Designs drawn up node by node.

use ooo_code::{Design, Node, NodeExpr, NodeKind, NodeTime, NodeWait, Proc};
use ooo_time::{Scale, Time};
use ooo_value::{BoundChannel, BoundEvent, BoundVariable, ChannelKind, Kind, ProcessKind, Value};
use sqlite_items::Items;
use std::alloc::{AllocError, Global};

/// A node. The last number is that of the node to which it leads, the one before it, if any, that of a variable, a
/// channel or an event, unless another meaning is told.
#[derive(Clone, Copy)]
pub(crate) enum Step {
    /// Goes to the first node or to the second, by variable 0.
    Test(u32, u32),
    Goto(u32),
    /// Waits for a number of ticks.
    Wait(u64, u32),
    WaitEvent(u32, u32),
    /// Waits for a number of ticks or an event.
    WaitEither(u64, u32, u32),
    /// Waits for as many nanoseconds as a variable has.
    WaitBy(u32, u32),
    /// Waits on the static sensitivity, which is an event.
    WaitStatic(u32, u32),
    /// Sets the next trigger to an event.
    Trigger(u32, u32),
    Store(u32, u32),
    /// Writes the value of the third variable to the first, at the index that is in the second.
    StoreAt(u32, u32, u32, u32),
    Print(u32, u32),
    PrintSignal(u32, u32),
    PrintTime(u32),
    Write(u32, u32),
    /// Goes to the first node where a value is available, and else to the second.
    TestAvailable(u32, u32, u32),
    /// Goes to the first node where a slot is free, and else to the second.
    TestFree(u32, u32, u32),
    Take(u32, u32),
    Put(u32, u32),
    /// Notifies an event with a number of ticks.
    Notify(u32, u64, u32),
    /// Notifies an event with as many nanoseconds as variable 0 has.
    NotifyBy(u32, u32),
    Cancel(u32, u32),
    Stop(u32),
    End,
}

/// A process of the nodes from the first to the last before the end. Its static sensitivity is one event at most.
#[derive(Clone, Copy)]
pub(crate) struct Part {
    pub(crate) kind: ProcessKind,
    pub(crate) first: u32,
    pub(crate) end: u32,
    pub(crate) sensitive: Option<u32>,
    pub(crate) initialize: bool,
}

/// A design: nodes, processes, channels and events have their numbers by their places. There are three scalars of kind
/// int, and each process has one slot of kind int.
#[derive(Clone, Copy)]
pub(crate) struct Sketch<'a> {
    pub(crate) nodes: &'a [Step],
    pub(crate) processes: &'a [Part],
    pub(crate) channels: &'a [BoundChannel],
    pub(crate) events: &'a [BoundEvent],
}

/// A fifo of 16 values of kind int.
pub(crate) const FIFO: BoundChannel = BoundChannel {
    kind: ChannelKind::Fifo,
    value: Kind::Int,
    size: 16,
};

/// A signal of bool.
pub(crate) const SIGNAL: BoundChannel = BoundChannel {
    kind: ChannelKind::Signal,
    value: Kind::Bool,
    size: 0,
};

const SCALAR: BoundVariable = BoundVariable {
    kind: Kind::Int,
    length: 1,
    start: Value::Int(0),
};

/// A thread that runs at initialization.
pub(crate) fn thread(first: u32, end: u32) -> Part {
    Part {
        kind: ProcessKind::Thread,
        first,
        end,
        sensitive: None,
        initialize: true,
    }
}

/// What was made, unless memory ran out.
pub(crate) type Made<T> = Result<T, AllocError>;

/// The design that is drawn up, with each node on line 1.
pub(crate) fn design_of(alloc: Global, sketch: Sketch) -> Made<Design> {
    design_on_lines(alloc, sketch, &[])
}

/// The design that is drawn up, with each node on its line, or on line 1 where none is told.
pub(crate) fn design_on_lines(alloc: Global, sketch: Sketch, lines: &[u32]) -> Made<Design> {
    let nodes = nodes_on_lines(alloc, sketch.nodes, lines);
    let processes = processes_of(alloc, sketch.processes);
    let variables = Items::from_slice(alloc, &[SCALAR, SCALAR, SCALAR]);
    let channels = Items::from_slice(alloc, sketch.channels);
    let events = Items::from_slice(alloc, sketch.events);
    match (nodes, processes, variables, channels, events) {
        (Ok(nodes), Ok(processes), Ok(variables), Ok(channels), Ok(events)) => Ok(Design {
            nodes,
            processes,
            variables,
            channels,
            events,
        }),
        _ => Err(AllocError),
    }
}

fn nodes_on_lines(alloc: Global, steps: &[Step], lines: &[u32]) -> Made<Items<Node>> {
    let mut nodes = Ok(Items::new(alloc));
    for (n, step) in steps.iter().enumerate() {
        let line = lines.get(n).copied().unwrap_or(1);
        nodes = with_node(nodes, node_of(alloc, *step, line));
    }
    nodes
}

/// A node of line 1 that counts.
pub(crate) fn node(kind: NodeKind, next: u32) -> Made<Node> {
    Ok(Node {
        kind,
        line: 1,
        counts: true,
        next,
    })
}

/// The nodes, and one more.
pub(crate) fn with_node(nodes: Made<Items<Node>>, node: Made<Node>) -> Made<Items<Node>> {
    match node {
        Ok(node) => pushed(nodes, node),
        Err(error) => {
            drop(nodes);
            Err(error)
        }
    }
}

fn pushed(nodes: Made<Items<Node>>, node: Node) -> Made<Items<Node>> {
    match nodes {
        Ok(mut nodes) => {
            nodes.push(node)?;
            Ok(nodes)
        }
        Err(error) => {
            drop(node);
            Err(error)
        }
    }
}

/// The processes that are told.
pub(crate) fn processes_of(alloc: Global, parts: &[Part]) -> Made<Items<Proc>> {
    let mut processes = Items::new(alloc);
    for part in parts {
        processes.push(process_of(alloc, *part)?)?;
    }
    Ok(processes)
}

/// The process that is told.
pub(crate) fn process_of(alloc: Global, part: Part) -> Made<Proc> {
    Ok(Proc {
        kind: part.kind,
        first: part.first,
        end: part.end,
        slots: Items::from_slice(alloc, &[Kind::Int])?,
        sensitive: listed(alloc, part.sensitive)?,
        initialize: part.initialize,
    })
}

fn node_of(alloc: Global, step: Step, line: u32) -> Made<Node> {
    let (kind, next) = match step {
        Step::Test(next, other) => (NodeKind::Test(NodeExpr::Variable(0), other), next),
        Step::Goto(next) => (NodeKind::Goto, next),
        Step::Wait(ticks, next) => (waiting(alloc, fixed(ticks), None)?, next),
        Step::WaitEvent(e, next) => (waiting(alloc, None, Some(e))?, next),
        Step::WaitEither(ticks, e, next) => (waiting(alloc, fixed(ticks), Some(e))?, next),
        Step::WaitBy(x, next) => (waiting(alloc, Some(amount(x)), None)?, next),
        Step::WaitStatic(e, next) => (NodeKind::Wait(on_events(alloc, e, true)?), next),
        Step::Trigger(e, next) => (NodeKind::Trigger(on_events(alloc, e, false)?), next),
        other => touching(other),
    };
    Ok(Node {
        kind,
        line,
        counts: true,
        next,
    })
}

// The nodes that name no list.
fn touching(step: Step) -> (NodeKind, u32) {
    match step {
        Step::Store(x, next) => (NodeKind::Store(x, None, one()), next),
        Step::StoreAt(x, i, y, next) => (
            NodeKind::Store(x, Some(NodeExpr::Variable(i)), NodeExpr::Variable(y)),
            next,
        ),
        Step::Print(x, next) => (NodeKind::PrintValue(NodeExpr::Variable(x)), next),
        Step::PrintSignal(c, next) => (NodeKind::PrintValue(NodeExpr::Signal(c)), next),
        Step::PrintTime(next) => (NodeKind::PrintTime, next),
        Step::Notify(e, ticks, next) => {
            (NodeKind::Notify(e, NodeTime::Fixed(Time(ticks))), next)
        }
        Step::NotifyBy(e, next) => (NodeKind::Notify(e, amount(0)), next),
        Step::Cancel(e, next) => (NodeKind::Cancel(e), next),
        Step::Stop(next) => (NodeKind::Stop, next),
        other => on_channel(other),
    }
}

// The nodes of channels, and the end.
fn on_channel(step: Step) -> (NodeKind, u32) {
    match step {
        Step::Write(c, next) => {
            let up = NodeExpr::Constant(Value::Bool(true));
            (NodeKind::Write(c, up), next)
        }
        Step::TestAvailable(c, next, other) => (NodeKind::TestAvailable(c, other), next),
        Step::TestFree(c, next, other) => (NodeKind::TestFree(c, other), next),
        Step::Take(c, next) => (NodeKind::Take(c, 0), next),
        Step::Put(c, next) => (NodeKind::Put(c, one()), next),
        _ => (NodeKind::End, 0),
    }
}

/// What waits for a time or an event, or for either.
pub(crate) fn waiting(alloc: Global, time: Option<NodeTime>, event: Option<u32>) -> Made<NodeKind> {
    match listed(alloc, event) {
        Ok(events) => Ok(NodeKind::Wait(NodeWait {
            time,
            events,
            is_static: false,
        })),
        Err(error) => {
            drop(time);
            Err(error)
        }
    }
}

// What waits on an event.
fn on_events(alloc: Global, event: u32, is_static: bool) -> Made<NodeWait> {
    Ok(NodeWait {
        time: None,
        events: listed(alloc, Some(event))?,
        is_static,
    })
}

/// At most one number.
pub(crate) fn listed(alloc: Global, number: Option<u32>) -> Made<Items<u32>> {
    let mut items = Items::new(alloc);
    if let Some(number) = number {
        items.push(number)?;
    }
    Ok(items)
}

// The constant 1.
fn one() -> NodeExpr {
    NodeExpr::Constant(Value::Int(1))
}

fn fixed(ticks: u64) -> Option<NodeTime> {
    Some(NodeTime::Fixed(Time(ticks)))
}

// As many nanoseconds as a variable has.
fn amount(variable: u32) -> NodeTime {
    NodeTime::Amount(NodeExpr::Variable(variable), Scale::Ns)
}
