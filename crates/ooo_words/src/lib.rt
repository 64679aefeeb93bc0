//! The words after the program's name, read as a command.
//!
//! Proved: [`read`] answers the command of the words, or their first breach from left to right with its word, and
//! [`refusal`] is its line. Module [`law`] says that the form of settings doesn't matter, nor does their order where the
//! words ask for a command.
#![tactic(auto)]

mod breach;
mod command;
pub mod law;
mod matches;
mod numbers;
mod options;
mod reader;
mod refused;
mod setting;

pub use command::{Command, RunOptions};
pub use reader::read;
pub use refused::{WordsBreach, WordsError, refusal};
