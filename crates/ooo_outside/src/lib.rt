//! What a simulation meets outside: where it reads, where it writes, and the gate that a worker passes.
//!
//! Sources and sinks count their faults, so that a caller can tell a fault of theirs from anything else.
//!
//! Proved: a source moves its next bytes, a sink takes the first ones, at least one where there is one; a call fails only
//! where the count of faults rose, and moves nothing then. Of those in memory, which call fails and how much each moves.
#![tactic(auto)]

mod adapters;
mod count;
mod gate;
mod memory;
mod traits;

pub use adapters::{ReadSource, WriteSink};
pub use gate::{Gate, MeetGate, OpenGate};
pub use memory::{MemorySink, MemorySource};
pub use traits::{Failed, Sink, Source};
