//! The board: the simulation of a design step by step, out of order.
//!
//! A [`Board`] hands out the next activation of a process as a job and takes back what it did, in any order that the rule of
//! ooo_dispatch allows, on however many threads the jobs are run. What it keeps is a function of the steps that were made:
//! the fronts of processes, the clashes that hold them up, the cells of variables, and what was applied to channels and
//! events.
#![tactic(auto)]

// Of an outcome what was made; an error is handed on, and the values made before it are let go.
macro_rules! keeping {
    ($($kept:ident),+; $made:expr) => {
        match $made {
            Ok(made) => made,
            Err(error) => {
                $(drop($kept);)+
                return Err(error);
            }
        }
    };
}

mod board;
mod carrying;
mod committing;
mod cores;
mod finishing;
mod forgetting;
pub mod law;
mod laws;
mod links;
mod process;
mod seeing;
mod spares;
mod starting;
mod waking;

pub use board::Board;
