//! Cuts a source into tokens, each with its kind, its span and its line and column.
//!
//! A source is cut from left to right, by the longest fit, into spaces, comments, include directives and tokens:
//! words, numbers, texts and signs (ISO/IEC 14882, [lex.pptoken]). `specs/Forms.antt`, `specs/Numbers.antt` and
//! `specs/Texts.antt` say what each of these is, `specs/Pieces.antt` what it is to cut a source,
//! `specs/Breaches.antt` why a source can't be cut, and `specs/Positions.antt` where a token stands. The code goes
//! over the source once, from left to right, and looks at no byte more than a few times.
//!
//! Proved: [`lex`] answers the tokens of the one cutting of the source, with their positions and with spans in order, or
//! the source's one breach exactly where it has one, or that memory ran out. [`read_number`] answers the kind and the
//! value of a number's bytes, or none exactly where they are no number or too wide. [`unescape`] appends a text's value,
//! or leaves the vector as it was. Module [`law`] has what holds of the definitions.
#![tactic(auto)]

mod breach;
mod bytes;
mod cursor;
mod error;
mod flaw;
mod heads;
pub mod law;
mod marks;
mod numbers;
mod position;
mod scan;
mod texts;
mod token;

pub use breach::LexBreach;
pub use error::LexError;
pub use numbers::{Number, NumberKind, read_number};
pub use position::{MOST_BYTES, Position, position_of_end};
pub use scan::lex;
pub use texts::unescape;
pub use token::{Token, TokenKind};
