//! What holds of the walk over any text, and of the calls in its modules, whether its names and types are right or not.
//!
//! Proved, in module `law`: the variables, channels, events and clocks that a walk declares are right; where nothing is
//! refused, each name of each instance means what its declaration says, given that the modules of children and of
//! `sc_main`'s instances stand before (`specs/Names`); what is reached by calls has each function that is called, by the
//! calls that it begins with or by one of its own functions, and it has functions alone, and no more than each list has that
//! is closed so.
#![tactic(auto)]

pub mod law;
