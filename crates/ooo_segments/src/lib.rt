//! The segments of a design, and the edges within its processes.
//!
//! Proved: [`graph`] gives exactly the segments of the definition (the nodes that are reachable from a process's start, or
//! after one of its waits, without passing a wait), ascending, process by process, each process's start first and then its
//! waits in order of their nodes; and exactly the edges of the definition, ascending, each with its delay. It answers
//! `TooManySegments` exactly where a design has more than [`Graph::GREATEST_SEGMENTS`]. Else only memory can run out.
//! [`graph_of_closed`] gives the same, and asks for less than a sound design. [`segment_count`] counts the segments, and
//! makes none of them.
//!
//! A design's nodes are gone through once for each segment.
#![tactic(auto)]

mod counting;
mod edges;
mod error;
mod graphs;
mod making;
mod numbers;
mod searching;
mod segments;
mod waits;

pub use counting::segment_count;
pub use error::GraphError;
pub use graphs::{Edge, Graph};
pub use making::{graph, graph_of_closed};
pub use numbers::NumberSet;
