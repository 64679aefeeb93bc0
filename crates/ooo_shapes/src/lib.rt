//! Lowering: from the statements of a bound model to nodes.
//!
//! `specs/` says which nodes: `Widths` where the locals of a function stand, `Expressions` and `Simples` the nodes of a
//! statement without statements in it, `Shapes` those of every statement, and `Designs` the design of a model. `Segments`
//! says what statements touch from one wait to the next, and how they wait. `law` says that a sound model does by its nodes
//! what it does by its statements, that its segments are the same by both, that an activation depends on what these touch
//! alone and changes nothing else, and that its design is sound: `proofs/Places` has what relates the two, `proofs/Trees`
//! the nodes of an item with all their ways, and `proofs/Flow` what a sound design needs of a node.
#![tactic(auto)]

mod around;
pub mod law;

pub use around::{Around, Widths};
