//! The fronts of a board: which segment each process runs next, or runs, and at which stamp; how many clashes hold each of
//! them up; the cut, below which a place has to be; and by these which process may run.
//!
//! Nothing here knows of jobs, variables or channels: a front is told, and the counts of holds are mended for it.
#![tactic(auto)]

mod choice;
mod cut;
mod front;
mod fronts;
mod holds;
pub mod law;
mod reaching;
mod soonest;

pub use choice::{Choice, State};
pub use cut::{Break, Cut};
pub use front::{Front, Hold};
pub use fronts::Fronts;
pub use reaching::Reaches;
