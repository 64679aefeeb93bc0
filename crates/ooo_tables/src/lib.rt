//! The tables of a design: its segments, what each touches, which clash, and how soon one can come after another.
//!
//! Proved: [`Tables::make`] gives the tables of the definition for each sound design that has not too many segments, or
//! memory runs out. A design has one set of tables: by [`law::one_tables`] any two that meet the definition are the same.
//! [`text`] writes the bytes that the definition gives for a design, its tables and the names of its processes: a line for
//! each segment, for each pair with a least delay, and for each pair of segments of two processes that clash. It goes once
//! over all pairs of segments for each of the two, and writes into one buffer.
#![tactic(auto)]

pub mod law;
mod tables;
mod texts;

pub use tables::Tables;
pub use texts::text;
