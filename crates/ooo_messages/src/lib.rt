//! What is wrong with words and texts, in words, for who reads standard error.
//!
//! [`explain`] says of a refused text what is wrong, where, and how to go on: with the line and a mark, and a hint from
//! the tables of `shapes`.
#![tactic(auto)]

mod declared;
mod endings;
mod excerpt;
mod explanation;
mod hints;
mod lexer_hints;
mod message;
mod reasons;
mod refusal;
mod shape;
mod shapes;
mod sheet;
mod site;
mod spelling;

pub use endings::explain_ending;
pub use explanation::{explain, explain_stop};
pub use reasons::{
    code_reason, elab_reason, lexer_reason, parser_reason, segments_reason, stop_reason,
    types_reason, words_reason,
};
pub use refusal::{Breach, TextRefusal};
