use crate::expression::NodeExpr;
use ooo_time::{Scale, Time};
use sqlite_items::Items;

/// One step of a process.
#[derive(Drop)]
pub struct Node {
    pub kind: NodeKind,
    /// The line of its statement's first token.
    pub line: u32,
    /// Whether it counts against the statement limit.
    pub counts: bool,
    /// The number of the next node; of a test, of the next one where it holds.
    pub next: u32,
}

/// What a node does.
#[derive(Drop)]
pub enum NodeKind {
    /// A slot gets a value.
    Set(u32, NodeExpr),
    /// A variable, or its element at an index, gets a value. The value is evaluated first.
    Store(u32, Option<NodeExpr>, NodeExpr),
    /// Goes to this node where the value is 0.
    Test(NodeExpr, u32),
    Goto,
    PrintText(Items<u8>),
    PrintValue(NodeExpr),
    /// Prints the present time.
    PrintTime,
    /// Requests a value of a signal.
    Write(u32, NodeExpr),
    /// Goes to this node where no value of the fifo is available.
    TestAvailable(u32, u32),
    /// Goes to this node where no slot of the fifo is free.
    TestFree(u32, u32),
    /// Takes a value of a fifo into a slot.
    Take(u32, u32),
    /// Puts a value into a fifo.
    Put(u32, NodeExpr),
    Notify(u32, NodeTime),
    Cancel(u32),
    /// Calls `sc_stop`.
    Stop,
    /// Sets a method's next trigger.
    Trigger(NodeWait),
    /// Ends the activation until what it waits for.
    Wait(NodeWait),
    /// Ends the activation.
    End,
}

/// A time in a node.
#[derive(Drop)]
pub enum NodeTime {
    Fixed(Time),
    /// A value of this unit.
    Amount(NodeExpr, Scale),
}

/// What a wait or a trigger waits for: a time, events, or both.
#[derive(Drop)]
pub struct NodeWait {
    pub time: Option<NodeTime>,
    pub events: Items<u32>,
    /// Whether the events are the process's static ones, as of `wait()` and `next_trigger()`.
    pub is_static: bool,
}
