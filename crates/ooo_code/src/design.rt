use crate::node::Node;
use ooo_value::{BoundChannel, BoundEvent, BoundVariable, Kind, ProcessKind};
use sqlite_items::Items;

/// A model as lowered code. Nodes, processes, variables, channels and events are named by their numbers.
#[derive(Drop)]
pub struct Design {
    pub nodes: Items<Node>,
    pub processes: Items<Proc>,
    pub variables: Items<BoundVariable>,
    pub channels: Items<BoundChannel>,
    pub events: Items<BoundEvent>,
}

/// A process of a design.
#[derive(Drop)]
pub struct Proc {
    pub kind: ProcessKind,
    /// Its first node, at which it starts.
    pub first: u32,
    /// The number after its last node.
    pub end: u32,
    /// The kind of each of its slots, which start at 0.
    pub slots: Items<Kind>,
    /// The events of its static sensitivity.
    pub sensitive: Items<u32>,
    /// Whether it is made runnable at initialization.
    pub initialize: bool,
}
