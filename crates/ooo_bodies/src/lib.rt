//! Reads the expressions and statements of bodies in a scope: their trees with what each name denotes, and what is noted
//! of them.
//!
//! Proved: the tree, the notes and the scope behind a part are those of the definitions in `Exprs` and `Stats` of
//! ooo_checked, for every expression and statement; only memory can run out. Of the breaches that are noted the one that
//! is told is kept (`specs/Noting`), with all calls, waits and `next_trigger`s in the order of the text: whether these
//! may stand where they do hangs on the whole module.
#![tactic(auto)]

// What is made while values that were made before are kept: where nothing is, they go.
macro_rules! keeping {
    ($($kept:ident),+; $made:expr) => {
        match $made {
            Ok(made) => made,
            Err(error) => {
                $(drop($kept);)+
                return Err(error);
            }
        }
    };
}

// What was made: the walk of a `?` on a large value costs more.
macro_rules! got {
    ($made:expr) => {
        match $made {
            Ok(made) => made,
            Err(error) => return Err(error),
        }
    };
}

pub mod copies;
pub mod events;
pub mod exprs;
mod kinds;
mod names;
pub mod notes;
pub mod simple_stats;
pub mod stats;
