//! A bound model: what is left of a text once its modules are instances, its ports are bound and each name is the number
//! of what it denotes (IEEE 1666-2011, clause 4.1). A local is a slot, a constant its value.
//!
//! These are the plain types alone; `ooo_elaborate` makes a bound model, and a scheduler or a lowering runs it.
#![tactic(auto)]

mod expr;
mod model;
mod stat;

pub use expr::{BoundExpr, BoundTime, BoundWait};
pub use model::{Bound, BoundFunction, BoundProcess};
pub use stat::{BoundItem, BoundRight, BoundSimple, BoundStat, BoundTarget, LinedSimple};
