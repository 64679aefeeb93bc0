//! The five kinds of values of the simulated language and their arithmetic, as C++ means it on a
//! machine of two's complement with an `int` of 32 and a `long long` of 64 bits. Small types of a
//! model's parts stand here too, for the crates above. Only `append`, which prints a value, and names take memory.
//!
//! Proved: [`common`], [`convert`], [`binary`], [`negate`], [`invert`] and [`truth`] are the definition's arithmetic,
//! value and run fault in every case; module [`law`] says when each fault comes, and ties the definition to C++.
#![tactic(auto)]

mod arithmetic;
mod bits;
mod bound;
mod comparisons;
mod counts;
mod division;
mod fault_names;
mod kinds;
pub mod law;
mod naming;
mod operators;
mod pairs;
mod shifts;
mod text;
mod times;
mod values;

pub use arithmetic::negate;
pub use bits::invert;
pub use bound::{BoundChannel, BoundEvent, BoundVariable, ChannelKind, ProcessKind};
pub use counts::narrow;
pub use kinds::{Kind, common, promoted};
pub use naming::{Name, Names};
pub use operators::{Fault, Op, binary};
pub use text::append;
pub use times::time_of;
pub use values::{Value, convert, truth};
