//! The grammar as data, what holds of it, and what its readers stand on.
//!
//! `specs/Expressions.antt` to `specs/Units.antt` have the productions, each over its line of EBNF. A production is a
//! code (`specs/Codes.antt`), of which `specs/Readings.antt` says which tokens spell which tree, what a reader of it
//! answers, and which tokens begin a spelling. `specs/Laws.antt` states what `law` proves of them.
#![tactic(auto)]

pub mod law;
mod lexis;
mod limits;
mod tokens;

pub use lexis::{
    begins_with_member_word, begins_with_plain_type, begins_with_type, begins_with_word,
    named_type, read_event_word, read_literal, read_long_after, read_member_word, read_plain_type,
    read_text, read_type, read_word,
};
pub use limits::{LEVEL_LIMIT, Limits, OPERATOR_LIMIT, ReadError};
pub use tokens::{Read, next, one, one_inside, starts};
