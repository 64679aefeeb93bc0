//! What is known of a text before the simulation: the values of constant expressions and of constant times, what is wrong
//! with the times in a body, and which functions a body calls (IEEE 1666-2011, clause 4.1).
//!
//! Proved: each call answers what the definitions in `specs/` say: `Meanings` of names, `Values` of expressions, `Times` of
//! times, `Bodies` of bodies. [`add_calls`] alone takes memory, and may fail for want of it.
#![tactic(auto)]

mod bare;
mod bodies;
mod calls;
mod kinds;
mod known;
mod meaning;
mod names;
mod times;
mod values;

pub use bodies::{TimeRefusal, refuse_times};
pub use calls::add_calls;
pub use kinds::kind_written;
pub use known::Known;
pub use meaning::Meaning;
pub use names::constant_at;
pub use times::{TimeBreach, is_fixed, is_fixed_time, place, time};
pub use values::{operator, value};
