//! The walk over the declarations of a text: its instances, objects, processes and bindings in the order of elaboration, or
//! what is refused first (IEEE 1666-2011, clause 4.1).
//!
//! Proved: [`walk`] leaves what the definition `walk_of` in `specs/Texts` says, or memory runs out.
#![tactic(auto)]

// What is made while values that were made before are kept: where nothing is, they go.
macro_rules! keeping {
    ($($kept:ident),+; $made:expr) => {
        match $made {
            Ok(found) => found,
            Err(error) => {
                $(drop($kept);)+
                return Err(error);
            }
        }
    };
}

// What was made, or the failure of it: the walk of a `?` on a large value costs more.
macro_rules! got {
    ($made:expr) => {
        match $made {
            Ok(found) => found,
            Err(error) => return Err(error),
        }
    };
}

mod children;
mod main_items;
mod members;
mod plan;
mod reach;
mod refusal;
mod setups;
mod state;
mod states;
mod texts;

pub use plan::{Modules, Plan, View, plans};
pub use reach::{calls, reached};
pub use refusal::{ElabBreach, ElabError, Refusal};
pub use state::{
    Evaluated, Here, ProcessForm, Walk, WalkedBinding, WalkedChannel, WalkedInstance, WalkedPort,
    WalkedProcess,
};
pub use states::{MOST_CELLS, MOST_OBJECTS, MOST_PROCESSES};
pub use texts::walk;
