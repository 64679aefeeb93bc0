//! What each name denotes at a place of a text: blocks that are entered and left, and names that are declared in them.
//!
//! [`Scopes`] is the list of the blocks that a place stands in, the innermost first, with the names that each declares
//! (ISO C++ \[basic.scope\]). Looking a name up and declaring one take a time that grows with the length of the name
//! and the logarithm of the number of names that are known; leaving a block takes as much for each name that it
//! declared. Nothing goes by hashes, so that no choice of names makes this slow.
//!
//! Proved: each call does what the definition of scopes in `ooo_checked` says, and a call that runs out of memory
//! leaves the blocks as they were.
#![tactic(auto)]

mod names;
mod places;
mod scopes;

pub use scopes::Scopes;
