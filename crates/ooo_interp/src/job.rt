use crate::doing::Emitted;
use ooo_code::{Cells, Design, Frame, JobEnd, Seen};
use ooo_time::Stamp;
use std::sync::Arc;

/// An activation of a process with all that it reads and changes. A variable is carried as its number and its elements.
#[derive(Drop)]
pub struct Job {
    pub design: Arc<Design>,
    /// The number of the process.
    pub process: u32,
    /// Which of the process's activations it is, counted from 0.
    pub activation: u128,
    /// The stamp at which it runs.
    pub stamp: Stamp,
    /// How many statements it may count.
    pub statements: u32,
    pub frame: Frame,
    /// The variables that it may change, ascending by number.
    pub owned: Vec<(u32, Cells)>,
    /// The variables that it only reads, ascending by number.
    pub copied: Vec<(u32, Cells)>,
    /// What it sees of channels, ascending by number.
    pub seen: Vec<Seen>,
}

/// What an activation did.
#[derive(Drop)]
pub struct Done {
    /// The number of the process.
    pub process: u32,
    /// Which of the process's activations it was.
    pub activation: u128,
    /// Where the process is after it.
    pub frame: Frame,
    /// The variables that it was given to change, as it left them.
    pub owned: Vec<(u32, Cells)>,
    pub emitted: Emitted,
    pub end: JobEnd,
}
