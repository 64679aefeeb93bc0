//! The program's calls: what a simulation reads, runs and writes.
//!
//! [`alone`] and [`simulate`] carry the whole contract of the program. `specs/Replies.antt` says what a call would write,
//! as one relation of the words, the bytes that they have read, and a reply; `specs/Calls.antt` what a call reads and writes
//! of its source and its sink, and `specs/Boards.antt` which board it hands out.
#![tactic(auto)]

// Of an outcome what was made; an error is handed on, and the values made before it are let go.
macro_rules! keeping {
    ($($kept:ident),+; $made:expr) => {
        match $made {
            Ok(made) => made,
            Err(error) => {
                $(drop($kept);)+
                return Err(error);
            }
        }
    };
}

mod call;
mod counts;
pub mod law;
mod lines;
mod outcome;
mod pump;
mod reply;
mod request;
mod running;
mod summary;
mod workers;

pub use call::{alone, simulate};
pub use ooo_lexer::MOST_BYTES;
pub use outcome::{Failure, Outcome, Refusal, Verdict};
pub use reply::Reply;
pub use request::{Request, Told, Wanted};
