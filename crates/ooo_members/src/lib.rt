//! Reads the members of a module in the scope of all names that the module declares: their trees with what each name
//! denotes, and what is noted of them.
//!
//! Proved: tree, notes and what is known behind a member are those of the definitions in `specs/`, `Declarations` of the
//! names that members declare, `Args` of constant expressions and arguments, `Bodies` of functions, `Constructors` of
//! constructors and what they set up, `Members` of all members; only memory can run out.
#![tactic(auto)]

// What is made while values that were made before are kept: where nothing is, they go.
macro_rules! keeping {
    ($($kept:ident),+; $made:expr) => {
        match $made {
            Ok(made) => made,
            Err(error) => {
                $(drop($kept);)+
                return Err(error);
            }
        }
    };
}

// What was made: the walk of a `?` on a large value costs more.
macro_rules! got {
    ($made:expr) => {
        match $made {
            Ok(made) => made,
            Err(error) => return Err(error),
        }
    };
}

// A whole with the part that was made for it, or the failure of it.
macro_rules! with_part {
    ($part:ident = $made:expr; $whole:expr) => {
        match $made {
            Ok($part) => Ok($whole),
            Err(error) => Err(error),
        }
    };
}

pub mod args;
pub mod bodies;
pub mod constructors;
pub mod declarations;
pub mod known;
pub mod members;
pub mod setups;
