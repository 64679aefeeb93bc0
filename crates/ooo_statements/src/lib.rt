//! Reads statements of the grammar.
//!
//! Each reader answers what the code in its contract does: the tree and the tokens after it, or where the code
//! refuses the tokens. Only running out of memory stands beside that.
#![tactic(auto)]

// What is read while values that were read before are kept: where nothing is, they go.
macro_rules! keeping {
    ($($kept:ident),+; $read:expr) => {
        match $read {
            Ok(found) => found,
            Err(error) => {
                $(drop($kept);)+
                return Err(error);
            }
        }
    };
}

// What was read, or the refusal of it: the walk of a `?` on a large value costs more.
macro_rules! got {
    ($read:expr) => {
        match $read {
            Ok(found) => found,
            Err(error) => return Err(error),
        }
    };
}

mod signs;
mod statements;

pub use statements::read_body;
