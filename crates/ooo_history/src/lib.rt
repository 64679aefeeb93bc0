//! What a run gives, and its report: what was printed, what happened on each channel, and how the run ended.
//!
//! `specs/Reporting.antt` says which bytes the report of a run has.
#![tactic(auto)]

mod reporting;
mod run;

pub use reporting::{is_named, report};
pub use run::{End, Entry, Piece, Run, What};
