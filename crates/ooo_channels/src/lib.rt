//! The bank: signals, fifos and events by stamped effects, with the history of each channel.
//!
//! A bank has no present delta cycle. Effects come with stamps, and it is asked at stamps.
#![tactic(auto)]

mod bank;
mod channel;
mod entries;
mod fifo;
pub mod law;
mod notices;
mod signal;
mod version;

pub use bank::Bank;
