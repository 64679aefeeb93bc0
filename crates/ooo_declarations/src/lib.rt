//! Reads declarations of the grammar: arguments, parameters and constants, the constructors of modules, and the
//! channels, clocks, instances and bindings of `sc_main`.
//!
//! Each reader answers what the code in its contract does: the tree and the tokens after it, or the first token that
//! the code refuses or that stands too deep. Only running out of memory stands beside that.
#![tactic(auto)]

// What is read while values that were read before are kept: where nothing is, they go.
macro_rules! keeping {
    ($($kept:ident),+; $read:expr) => {
        match $read {
            Ok(found) => found,
            Err(error) => {
                $(drop($kept);)+
                return Err(error);
            }
        }
    };
}

// What was read, or the refusal of it: the walk of a `?` on a large value costs more.
macro_rules! got {
    ($read:expr) => {
        match $read {
            Ok(found) => found,
            Err(error) => return Err(error),
        }
    };
}

mod arguments;
mod constants;
mod constructors;
mod main_entries;
mod params;
mod signs;
mod words;

pub use arguments::read_args_inside;
pub use constants::{read_constant, read_constant_tail};
pub use constructors::{read_named_constructor, read_written_constructor};
pub use main_entries::read_main_entries;
pub use params::read_params;
pub use signs::begins_with_channel;
pub use words::{
    read_channel_word, read_of_type, read_parens_word, read_word_in_parens, read_words,
};
