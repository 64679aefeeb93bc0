//! Reads whole texts of the grammar: the members of modules, `sc_main` and a file.
//!
//! A whole text is `read_unit`. Each reader answers what the code in its contract does: the tree and the tokens
//! after it, or the first token that the code refuses or that stands too deep. Only running out of memory stands
//! beside that. The codes are those of the grammar's crate, so nothing is read that the grammar doesn't have, and
//! nothing that it has is refused.
#![tactic(auto)]

// What is read while values that were read before are kept: where nothing is, they go.
macro_rules! keeping {
    ($($kept:ident),+; $read:expr) => {
        match $read {
            Ok(found) => found,
            Err(error) => {
                $(drop($kept);)+
                return Err(error);
            }
        }
    };
}

// What was read, or the refusal of it: the walk of a `?` on a large value costs more.
macro_rules! got {
    ($read:expr) => {
        match $read {
            Ok(found) => found,
            Err(error) => return Err(error),
        }
    };
}

mod lists;
mod members;
mod signs;
mod units;

pub use units::read_unit;
