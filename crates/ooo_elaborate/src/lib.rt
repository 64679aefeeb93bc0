//! Elaboration: makes the instances of a text's modules, binds their ports and puts numbers in place of names
//! (IEEE 1666-2011, clause 4.1).
//!
//! Proved: [`elaborate`] answers the bound model that the definition `bound_of` in `specs/Elaborated` gives of a text, or what
//! it refuses first in its four passes; or memory runs out.
#![tactic(auto)]

// Of an outcome what was made; an error is handed on, and the values made before it are let go.
macro_rules! keeping {
    ($($kept:ident),+; $made:expr) => {
        match $made {
            Ok(made) => made,
            Err(error) => {
                $(drop($kept);)+
                return Err(error);
            }
        }
    };
}

// The same where no value has to be let go: the walk of a `?` on a large value costs more.
macro_rules! got {
    ($made:expr) => {
        match $made {
            Ok(made) => made,
            Err(error) => return Err(error),
        }
    };
}

mod bindings;
mod elaborated;
mod ends;
mod functions;
mod holders;
mod processes;

pub use bindings::Links;
pub use elaborated::elaborate;
pub use functions::{Numbered, WalkedFunction};
pub use holders::{End, Held, Holders};
pub use processes::Model;
