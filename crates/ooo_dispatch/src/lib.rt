//! The board of a design, as definitions and laws: which steps are lawful, which process may be dispatched, and when it is
//! over. It has no running code.
//!
//! `specs/Rules` says what a design is to the rule of out-of-order simulation: its segments, what they touch, which clash
//! and which follow which, and what an activation reads and does, as a function of the activations before it.
//! `specs/Boards` says with that what a board is, when a process is allowed, which boards lawful steps lead to, and when
//! one is over. `specs/Reports` has the run that is read off a board that is over.
//!
//! `specs/Least` says by the tables that are computed of a design, their least delays and clashes, which process may be
//! dispatched; `specs/Steps` has lists of steps, the board that each leads to, and when one is lawful; and `specs/Schedules`
//! what holds of each that is.
//!
//! Proved, in module [`law`]: that the edges, accesses and clashes of a sound design say of its activations what the theorem
//! on schedules (of ooo_schedules) asks, and so that theorem for designs; that the sequential run of a design makes the
//! steps of the run of which the theorem speaks; that a lawful board goes on until it is over, but not for ever; that the
//! run read off a board that is over is that sequential run; and of every lawful list of steps by the computed tables how
//! fronts move, what overtakes what, what jobs own and read, and that it leads to such a board.
#![tactic(auto)]

pub mod law;
mod reads;
mod step;

pub use reads::Reads;
pub use step::Step;
