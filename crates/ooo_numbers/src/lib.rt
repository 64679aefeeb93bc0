//! Bodies with numbers in place of names: what each name of an expression, a statement or an event denotes in one instance
//! (IEEE 1666-2011, clause 4.1).
//!
//! Proved: each call answers what the definitions in `specs/` say, or memory runs out. `Names` says what a name denotes.
#![tactic(auto)]

// What is made while values that were made before are kept: where nothing is, they go.
macro_rules! keeping {
    ($($kept:ident),+; $made:expr) => {
        match $made {
            Ok(made) => made,
            Err(error) => {
                $(drop($kept);)+
                return Err(error);
            }
        }
    };
}

// What was made, or that memory ran out: the walk of a `?` on a large value costs more.
macro_rules! got {
    ($made:expr) => {
        match $made {
            Ok(made) => made,
            Err(error) => return Err(error),
        }
    };
}

mod exprs;
mod names;
mod numbers;
mod simples;
mod statements;

pub use names::events;
pub use numbers::Numbers;
pub use statements::stats;
