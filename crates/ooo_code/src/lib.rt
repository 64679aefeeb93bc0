//! Lowered code: a model as nodes, what an activation of a process sees and does, and segments.
//!
//! `specs/` says what it means: `Expressions` and `Nodes` what a process does by its nodes, `Touches` what a node
//! touches, `Channels` what signals and fifos are, `Segments` which nodes a process may run up to its next wait, and
//! `Sound` when a design is sound.
#![tactic(auto)]

mod activation;
mod design;
mod expression;
pub mod law;
mod limits;
mod node;
mod segment;

pub use activation::{Cells, Effect, Frame, JobEnd, Seen, WaitOn};
pub use design::{Design, Proc};
pub use expression::NodeExpr;
pub use limits::Limits;
pub use node::{Node, NodeKind, NodeTime, NodeWait};
pub use segment::{Segment, SegmentEntry};
