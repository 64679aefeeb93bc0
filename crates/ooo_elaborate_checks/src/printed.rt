//! Writes a bound model as lines, with all that it holds: each list in its order, and each statement with its line. The
//! tests compare the lines with lines that are worked out by hand.
//!
//! A process is its kind, whether it starts or waits, the numbers of its static events, and its body; then come
//! functions, variables, the names of channels, channels, events and the stop time. In bodies `$0i` is slot 0, of kind
//! int; `v0` is variable 0, `s0` is signal 0, and a number bears the letters of its kind.

mod expressions;
mod models;
mod paper;
mod simple;
mod statements;

pub(crate) use models::lines;
