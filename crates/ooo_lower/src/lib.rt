//! Lowering in code: the design of a bound model, node by node as `ooo_shapes` defines it.
#![tactic(auto)]

// What is made while values that were made before are kept: where nothing is, they go.
macro_rules! keeping {
    ($($kept:ident),+; $made:expr) => {
        match $made {
            Ok(found) => found,
            Err(error) => {
                $(drop($kept);)+
                return Err(error);
            }
        }
    };
}

// What was made, or the failure of it: the walk of a `?` on a large value costs more.
macro_rules! got {
    ($made:expr) => {
        match $made {
            Ok(found) => found,
            Err(error) => return Err(error),
        }
    };
}

mod calls;
mod code;
mod designs;
mod expressions;
mod kinds_of_nodes;
mod simples;
mod splitting;
mod statements;
mod tasks;

pub use designs::{GREATEST_SIZE, LowerError, lower};
