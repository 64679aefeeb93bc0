//! The yard: one board that several workers share, each on a thread of its own.
//!
//! A [`Yard`] holds a board, which one caller at a time takes out and puts back, for one call of the board. A [`Pass`] is the
//! token of one caller; contracts see in it what the caller has seen of the board and what steps it made. [`drive`] has a board
//! driven by so many workers, until it is over.
#![tactic(auto)]

mod board_box;
mod driving;
mod lengths;
mod turn;
mod view;
mod yard;

pub use driving::drive;
pub use turn::{Turn, Worked};
pub use view::{Pass, View};
pub use yard::Yard;
