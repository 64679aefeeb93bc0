//! The least delays by which segments can come after one another.
//!
//! Proved: of any two segments of a design, [`AdvanceTable::least`] gives the least sum of delays over the walks from the
//! first to the second, whose steps are the edges within a process and the notifications of events on which a segment's
//! entry waits: a walk has that sum, and no walk has a lesser one. It answers none where there is no walk, or where each
//! takes more than the greatest time. It looks up one entry, which can be added to a stamp. Only memory can run out while
//! the table is made, in a time by the third power of the number of segments.
#![tactic(auto)]

pub mod law;
mod links;
mod search;
mod table;

pub use table::AdvanceTable;
