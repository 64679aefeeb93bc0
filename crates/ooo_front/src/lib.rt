//! The front: goes with a text from layer to layer, through lexer, parser, types, elaboration and lowering.
//!
//! Proved: [`front`] answers what the first layer that refuses the text refuses, or what the text is accepted as where
//! none does; or memory runs out. `specs/Layers` says so layer by layer. The model and the design of what is accepted are
//! sound. A text has one answer, and none is left out (module `law`).
#![tactic(auto)]

mod answer;
pub mod law;
mod layers;

pub use answer::{Accepted, Refused};
pub use layers::front;
