//! The rule of out-of-order simulation, over any kind of activation: every lawful schedule agrees with the sequential run.
//! It has definitions and laws, and no running code.
//!
//! A design is here a table of edges with delays, a table of clashes, what each segment notifies and waits on, and what
//! an activation does as a function of what it reads. `specs/Model` has the board: a log of committed activations, jobs
//! out, the fronts of the processes, and the rule by which one may be dispatched (`Allowed`); a schedule is lawful where
//! each of its steps is (`Lawful`). `specs/Program` has what access and edges must say of the activations (`Sound`),
//! `specs/Sequence` the sequential scheduler (`RunsTo`), `specs/Tables` the theorem in ten parts.
//!
//! Proved, in module [`law`]: the theorem ([`law::every_schedule`]), how the sequential run goes on from turn to turn and
//! ends, for schedulers that make the same steps ([`law::every_step`], [`law::every_ending`], `specs/Going`), what of a board
//! that is over is the run and when it would go on ([`law::every_report`], `specs/Reports`), that a board goes on until it is
//! over, but not for ever ([`law::every_board`], `specs/Boards`), and that the theorem speaks of something
//! ([`law::example_is_sound`]).
#![tactic(auto)]

pub mod law;
