//! When two segments clash, so that they can't run out of order.
//!
//! Proved: of any two segments whose accesses a [`ClashTable`] was made of, [`ClashTable::clash`] says exactly whether they
//! clash, by the five cases of the definition: one writes a variable that the other reads or writes; both notify or cancel
//! one event of type sc_event; and, strictly, the first notifies or cancels an event on which the entry of the second
//! waits, it writes a signal that the second reads, or they hold the two ends of one fifo. It looks up one entry.
//! [`ClashTable::clashing`] lends the ascending list of exactly those segments that clash strictly with a segment. The lists
//! are made with the table, in a time by the second power of the number of segments.
#![tactic(auto)]

mod called;
mod clashing;
mod kind;
mod kinds;
mod sharing;
mod table;

pub use table::ClashTable;
