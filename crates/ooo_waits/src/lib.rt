//! The waits of a process stand in its code in the order of the text: one for each `wait` and each blocking statement of a
//! fifo, with the statement's line, its events and its constant time (`law::waits_in_order`). It has definitions and a
//! law, and no running code.
#![tactic(auto)]

pub mod law;
