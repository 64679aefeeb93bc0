//! The interpreter of lowered code: what a process does by its nodes, on parts that are lent to it.
//!
//! Proved: [`evaluate`] gives what the definition of an expression gives on what the parts show, and [`run_process`] does
//! what the definition of an activation does: the same changes, effects, output and end, with its line. It takes any
//! design and any parts; only memory can run out.
//!
//! [`run_segment`] runs a job, on the variables and channels that it carries. On every view of all variables that the job
//! is part of, the definition's activation gives what was done: what it emitted, its end and frame, the variables that the
//! job was given to change as it left them, and all others as they were. The job has to fit (`specs/Jobs`): above
//! all, it carries what its segment touches.
#![tactic(auto)]

// What is made while values that were made before are kept: where nothing is, they go.
macro_rules! keeping {
    ($($kept:ident),+; $made:expr) => {
        match $made {
            Ok(found) => found,
            Err(error) => {
                $(drop($kept);)+
                return Err(error);
            }
        }
    };
}

mod acting;
mod changes;
mod choices;
mod combining;
mod counting;
mod delays;
mod doing;
mod events;
mod expressions;
mod fifo_port;
mod fifo_values;
mod job;
mod job_parts;
mod numbers;
mod parts;
mod plainly;
mod port;
mod ports;
mod printing;
mod processes;
mod running;
mod seen_fifos;
mod segments;
mod whole;

pub use doing::{Emitted, Halt, Pause};
pub use expressions::evaluate;
pub use fifo_port::FifoPort;
pub use fifo_values::FifoValues;
pub use job::{Done, Job};
pub use job_parts::JobParts;
pub use parts::Lent;
pub use port::Port;
pub use ports::Ports;
pub use processes::{Start, run_process};
pub use seen_fifos::SeenFifos;
pub use segments::run_segment;
pub use whole::Whole;
