//! What an activation of a process of a bound model does by its statements (IEEE 1666-2011, clause 5; ISO C++ for
//! expressions and statements), and the run that this gives with the sequential scheduler.
//!
//! It has definitions and no running code: `specs/Expressions` says what an expression gives, `specs/Items` how the
//! statements of a body follow one another, `specs/Activations` what each does, `specs/Touches` what they touch,
//! `specs/Runs` the run of a model, and `specs/Sound` when a model is sound.
#![tactic(auto)]
