//! Checks the names and types of a text: its tree with what each name denotes and the kind of each expression, or the
//! breach that is told.
//!
//! Proved: [`check`] answers a text where the definition (`specs/Units`) has no breach, and lends the text's tree as the
//! definition says; else it answers the breach that stands first in the text, and of those at one place the first of
//! [`ooo_checked::TypeBreach`] (`specs/Told`); or memory runs out. `specs/Processes` says which functions may wait and
//! which calls lie on a cycle. Module `law`: what is lent is, without its additions, the text that was given.
#![tactic(auto)]

// Of an outcome what was made; an error is handed on, and the values made before it are let go.
macro_rules! keeping {
    ($($kept:ident),+; $made:expr) => {
        match $made {
            Ok(made) => made,
            Err(error) => {
                $(drop($kept);)+
                return Err(error);
            }
        }
    };
}

// The same where no value has to be let go: the walk of a `?` on a large value costs more.
macro_rules! got {
    ($made:expr) => {
        match $made {
            Ok(made) => made,
            Err(error) => return Err(error),
        }
    };
}

mod checked;
pub mod law;
mod modules;
mod processes;
mod units;

pub use checked::{Checked, check};
