//! Which calls among functions lie on a cycle of calls.
//!
//! Proved: [`Calls`] answers for each call exactly whether it lies on a cycle, which is whether its function is called by
//! the function that it calls, directly or through others; and for each function whether it is called.
//!
//! The functions' numbers may have gaps; memory goes by the greatest. To make the answers takes a time that grows with the
//! greatest number and with the number of calls, and no recursion; each question is one look-up. A search proposes groups
//! of functions that call each other, and of it nothing is proved but that it is safe and ends. A check that is proved
//! right then looks at each call once. If it ever refused what the search proposes, the answers would come from a closure
//! by rounds, call by call, which takes a time that grows with the third power of the number of calls.
#![tactic(auto)]

mod call;
mod calls;
mod chains;
mod claim;
mod closure;
mod marks;
mod search;

pub use call::Call;
pub use calls::Calls;
