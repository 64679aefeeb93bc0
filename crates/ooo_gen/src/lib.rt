//! The text of a generated model: a source, so many stages joined by fifos, and a drain.
//!
//! Proved: [`text`] is that of `specs/Text`, line by line, with the numbers of `specs/Numbers`.
#![tactic(auto)]

mod model;
mod numbers;

pub use model::text;
