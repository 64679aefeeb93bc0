//! The sequential scheduler, as definitions: `specs/World.antt` has the phases of a cycle (IEEE 1666-2011, 4.2.1),
//! `specs/Sequence.antt` the run of any activations, and `specs/Runs.antt` the run of a design.
#![tactic(auto)]

pub mod law;
