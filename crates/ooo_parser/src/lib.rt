//! From the tokens of a source to the symbols of the grammar, and from these to a whole text, an expression or a sum, or
//! to the token that is refused, as what and where.
//!
//! A token is a symbol by its kind and its bytes. Pairs `std ::` and `sc_core ::` before a word belong to the word's
//! symbol. The symbols that are operators where they stand in an expression are numbered, for the limit on them.
//! `specs/Classes.antt` says which terminals are words and which are operators, `specs/Symbols.antt` what the symbols
//! of a list of tokens are. [`symbols`] answers them, or that memory ran out.
//!
//! A reading gives a tree that the symbols spell within the limits, where they spell no other (`IsTreeOf` in
//! `specs/Refusals.antt`); or the refused token's breach and place, case by case (`IsRefused`); or memory runs out.
//! Symbols have one of these trees or one such breach at one place, and not both (`law::one_answer`). Where a symbol with
//! pairs is refused, or `std` or `sc_core` by itself, the refused token hangs on whether some word may follow there: the
//! words are tried one by one.
#![tactic(auto)]

mod breaches;
mod classes;
mod follow;
mod join;
pub mod law;
mod number;
mod parsing;
mod readings;
mod refusals;
mod single;
mod source;
mod symbol_list;
mod words;

pub use parsing::{expression, sum};
pub use source::parse;
pub use symbol_list::symbols;
