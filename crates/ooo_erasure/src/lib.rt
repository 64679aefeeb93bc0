//! What a checked text is without its additions: the tree of the grammar, with each name by its word alone.
//!
//! `specs/Exprs` says it of expressions, `Stats` of statements, `Modules` of modules and their parts, and `Units` of whole
//! texts. It is proved that an expression, a time, an event, a statement and a body are what they are checked to be,
//! without additions, in any scope and context, whether their names are known and their types right or not; and that each
//! text is what some checked text is without additions. The functions of `law` have these laws as their contracts: to
//! cite one, call its function.
#![tactic(auto)]

pub mod law;
