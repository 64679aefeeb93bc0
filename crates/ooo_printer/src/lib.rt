//! Writes a tree of the grammar as a text. It is there for tests: what is printed from a tree is read as that tree.
//!
//! A tree keeps all that its text says but the spelling of numbers (a suffix's case, hexadecimal digits), that of texts
//! where a byte can be written in two ways, pairs `std ::` and `sc_core ::`, and whether a `;` stands behind a
//! constructor. A text that is printed spells a number by its decimal digits and its kind's suffix, writes `\n`, `\t`,
//! `\\` and `\"` as escapes, and has no pairs and no such `;`.
#![tactic(auto)]

mod expressions;
mod members;
mod paper;
mod setups;
mod statements;
mod times;
mod units;

pub use units::print;
