//! The access of a segment: what its nodes touch, and the events on which its entry waits.
//!
//! Proved: [`sets`] gives exactly the access of the definition, by membership: each list holds just the numbers of what
//! some node of the segment touches in this way, and the list of events that are waited on just those on which the
//! segment's entry waits. Each list is ascending, and nothing stands in it twice. Only memory can run out.
#![tactic(auto)]

// What was made. Where memory ran out, what else was made goes by a call, since a drop of it in the midst of the body is dear to
// prove.
macro_rules! keeping {
    ($($kept:ident),+; $made:expr) => {
        match $made {
            Ok(made) => made,
            Err(error) => {
                $(drop($kept);)+
                return Err(error);
            }
        }
    };
}

mod access;
mod expressions;
mod gathering;
mod nodes;
mod notices;
mod parts;
mod sorting;
mod told;
mod waiting;

pub use access::Access;
pub use gathering::sets;
