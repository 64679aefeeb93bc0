//! Designs that are written node by node.

use super::Made;
use ooo_code::{Design, Node, NodeExpr, NodeKind, Proc};
use ooo_value::{Op, ProcessKind, Value};
use sqlite_items::{Boxed, Items};
use std::alloc::{AllocError, Global};

/// Nodes that are written one after the other, unless memory ran out.
#[derive(Drop)]
pub struct Code {
    pub alloc: Global,
    nodes: Made<Items<Node>>,
}

impl Code {
    pub fn new(alloc: Global) -> Code {
        Code {
            alloc,
            nodes: Ok(Items::new(alloc)),
        }
    }

    /// A node that counts, of a line, before a node.
    pub fn counted(self, kind: Made<NodeKind>, line: u32, next: u32) -> Code {
        let Code { alloc, nodes } = self;
        let nodes = with_node(nodes, node(kind, line, true, next));
        Code { alloc, nodes }
    }

    /// A node that doesn't count, before a node.
    pub fn passed(self, kind: Made<NodeKind>, next: u32) -> Code {
        let Code { alloc, nodes } = self;
        let nodes = with_node(nodes, node(kind, 0, false, next));
        Code { alloc, nodes }
    }

    /// A node that counts and prints a text.
    pub fn says(self, text: &str, line: u32, next: u32) -> Code {
        let kind = printing(Items::from_slice(self.alloc, text.as_bytes()));
        self.counted(kind, line, next)
    }

    /// The last node.
    pub fn ends(self) -> Code {
        self.passed(Ok(NodeKind::End), 0)
    }

    /// The design of one process of these nodes, sensitive to event 7.
    pub fn design(self, kind: ProcessKind) -> Made<Design> {
        let Code { alloc, nodes } = self;
        let nodes = nodes?;
        match processes(alloc, kind, nodes.len()) {
            Ok(processes) => Ok(Design {
                nodes,
                processes,
                variables: Items::new(alloc),
                channels: Items::new(alloc),
                events: Items::new(alloc),
            }),
            Err(error) => {
                drop(nodes);
                Err(error)
            }
        }
    }
}

fn node(kind: Made<NodeKind>, line: u32, counts: bool, next: u32) -> Made<Node> {
    Ok(Node {
        kind: kind?,
        line,
        counts,
        next,
    })
}

// The nodes, and one more.
fn with_node(nodes: Made<Items<Node>>, node: Made<Node>) -> Made<Items<Node>> {
    match node {
        Ok(node) => pushed(nodes, node),
        Err(error) => {
            drop(nodes);
            Err(error)
        }
    }
}

fn pushed(nodes: Made<Items<Node>>, node: Node) -> Made<Items<Node>> {
    match nodes {
        Ok(mut nodes) => {
            nodes.push(node)?;
            Ok(nodes)
        }
        Err(error) => {
            drop(node);
            Err(error)
        }
    }
}

fn printing(text: Made<Items<u8>>) -> Made<NodeKind> {
    Ok(NodeKind::PrintText(text?))
}

// One process of so many nodes, sensitive to event 7.
fn processes(alloc: Global, kind: ProcessKind, nodes: usize) -> Made<Items<Proc>> {
    let sensitive = Items::from_slice(alloc, &[7])?;
    let mut processes = Items::new(alloc);
    processes.push(Proc {
        kind,
        first: 0,
        end: u32::try_from(nodes).unwrap_or(u32::MAX),
        slots: Items::new(alloc),
        sensitive,
        initialize: true,
    })?;
    Ok(processes)
}

/// A number.
pub fn int(x: i32) -> NodeExpr {
    NodeExpr::Constant(Value::Int(x))
}

/// An expression in a box.
pub fn boxed(alloc: Global, e: Made<NodeExpr>) -> Made<Boxed<NodeExpr>> {
    Boxed::new(alloc, e?)
}

/// An operator on two expressions.
pub fn binary(alloc: Global, op: Op, a: Made<NodeExpr>, b: Made<NodeExpr>) -> Made<NodeExpr> {
    match (boxed(alloc, a), boxed(alloc, b)) {
        (Ok(a), Ok(b)) => Ok(NodeExpr::Binary(op, a, b)),
        _ => Err(AllocError),
    }
}

/// An element of a variable.
pub fn element(alloc: Global, variable: u32, index: Made<NodeExpr>) -> Made<NodeExpr> {
    Ok(NodeExpr::Element(variable, boxed(alloc, index)?))
}

/// The next number of what a local holds.
pub fn one_more(alloc: Global, slot: u32) -> Made<NodeExpr> {
    binary(alloc, Op::Add, Ok(NodeExpr::Slot(slot)), Ok(int(1)))
}

/// A node that gives a local a value.
pub fn set(slot: u32, value: Made<NodeExpr>) -> Made<NodeKind> {
    Ok(NodeKind::Set(slot, value?))
}
