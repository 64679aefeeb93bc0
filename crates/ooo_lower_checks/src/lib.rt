//! Tests of lowering over small models that are made by hand: what no clause says. And the printer of a design that they
//! need.
//!
//! `nodes::lines` writes a line for each process: its kind, whether it starts or waits, the numbers of its static events,
//! its first node and the one behind its last, and the kinds of its slots. Then comes a line for each node: its number,
//! what it does, its line, whether it is counted, and the number of the next one. `$0` is slot 0, `v0` variable 0 and
//! `s0` signal 0; a number bears the letters of its kind, an operator stands before its operands, and that of a conversion
//! is the letters of its kind.
#![tactic(auto)]

#[cfg(test)]
mod actions;
#[cfg(test)]
mod branches;
#[cfg(test)]
mod calls;
#[cfg(test)]
mod expressions;
#[cfg(test)]
mod fifos;
#[cfg(test)]
mod loops;
#[cfg(test)]
mod making;
#[cfg(test)]
mod nodes;
#[cfg(test)]
mod operators;
#[cfg(test)]
mod paper;
#[cfg(test)]
mod places;
#[cfg(test)]
mod simples;
#[cfg(test)]
mod sizes;
#[cfg(test)]
mod updates;
