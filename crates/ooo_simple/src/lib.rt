//! Reads times, events and simple statements of the grammar, those that hold no other, and the heads of others.
//!
//! Each reader answers what the code in its contract does: the tree and the tokens after it, or where the code
//! refuses the tokens. Only running out of memory stands beside that.
#![tactic(auto)]

// What is read while values that were read before are kept: where nothing is, they go.
macro_rules! keeping {
    ($($kept:ident),+; $read:expr) => {
        match $read {
            Ok(found) => found,
            Err(error) => {
                $(drop($kept);)+
                return Err(error);
            }
        }
    };
}

// What was read, or the refusal of it: the walk of a `?` on a large value costs more.
macro_rules! got {
    ($read:expr) => {
        match $read {
            Ok(found) => found,
            Err(error) => return Err(error),
        }
    };
}

mod events;
mod heads;
mod keeping;
mod lists;
mod locals;
mod prints;
mod signs;
mod simple;
mod times;
mod waits;

pub use events::read_event;
pub use heads::{
    read_condition, read_ended_value, read_for_first, read_for_step, read_for_test, read_parens,
};
pub use keeping::followed;
pub use lists::{none_yet, with};
pub use locals::read_boxed_local;
pub use signs::{begins_with_named_time, begins_with_simple, begins_with_unit_of_time};
pub use simple::read_boxed_simple;
pub use times::{
    read_boxed_named_time, read_boxed_timed, read_boxed_timed_inside, read_unit_of_time,
};
