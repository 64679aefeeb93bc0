//! Reads expressions of the grammar.
#![tactic(auto)]

// What is read while values that were read before are kept: where nothing is, they go.
macro_rules! keeping {
    ($($kept:ident),+; $read:expr) => {
        match $read {
            Ok(found) => found,
            Err(error) => {
                $(drop($kept);)+
                return Err(error);
            }
        }
    };
}

// What was read, or the refusal of it: the walk of a `?` on a large value costs more.
macro_rules! got {
    ($read:expr) => {
        match $read {
            Ok(found) => found,
            Err(error) => return Err(error),
        }
    };
}

mod expressions;
mod lists;
mod own;
mod signs;

pub use lists::begun;
pub use own::{read_boxed_inner_value, read_boxed_value, read_inner_value, read_sum, read_value};
pub use signs::begins_with_expression;
