//! The plain engine: the sequential scheduler's run of lowered code (IEEE 1666-2011, 4.2.1), process by process.
//!
//! [`run_plain`] gives the run of a design: an engine starts (`starting::start`), goes on from cycle to cycle
//! (`Engine::cycle`), and tells at the end what its run gave (`run::finish`).
#![tactic(auto)]

// What is made while values that were made before are kept: where nothing is, they go.
macro_rules! keeping {
    ($($kept:ident),+; $made:expr) => {
        match $made {
            Ok(found) => found,
            Err(error) => {
                $(drop($kept);)+
                return Err(error);
            }
        }
    };
}

// What was made, or the failure of it: the walk of a `?` on a large value costs more.
macro_rules! got {
    ($made:expr) => {
        match $made {
            Ok(found) => found,
            Err(error) => return Err(error),
        }
    };
}

mod agenda;
mod bank_fifos;
mod cycles;
mod deltas;
mod due_queue;
mod engine;
mod laws;
mod ports;
mod row;
mod run;
mod schedule;
mod starting;
mod touching;

pub use run::run_plain;
