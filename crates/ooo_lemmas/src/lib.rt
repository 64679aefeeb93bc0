//! General lemmas on lists and on numbers below a bound, which more than one crate needs, and which the standard library
//! lacks or has in another form. It has proofs and no running code, and it is the one crate whose `proofs/` others cite.
//!
//! `proofs/Each` speaks of what holds of each element, `proofs/Contained` of what a list contains, `proofs/Placed` of what
//! stands at a place, `proofs/Ascending` of a search among ascending numbers, and `proofs/Counting` of how many numbers
//! pass a test. A law of the module `law` stands on each of them, so that each is proved with this crate.
#![tactic(auto)]

pub mod law;
