//! What texts do that are refused, as shapes of tokens, each with what to write instead. Of the shapes of a table, and of
//! tables one after the other, the first one that fits counts.
//!
//! A table has at most some 25 shapes, since the time of a proof that reads it goes by the square of their number.

mod elaboration;
mod expected;
mod grammar;
mod inside;
mod kinds;
mod outside;
mod types;
mod unknown;

use crate::shape::{Shape, hint_of};
use crate::site::{Place, Site};
pub use grammar::hint_anywhere;
use ooo_checked::TypeBreach;
use ooo_walk::ElabBreach;

/// What to write in place of what the grammar refuses at a place, besides what [`hint_anywhere`] says.
pub fn parser_hint(place: Place, site: &Site<'_>) -> Option<&'static str> {
    match place {
        Place::File => hint_of(outside::IN_FILE, site),
        Place::Members => inside::hint_in_members(site),
        Place::Constructor => hint_of(inside::IN_CONSTRUCTOR, site),
        Place::Body => inside::hint_in_body(site),
        Place::Main => outside::hint_in_main(site),
    }
}

/// What may stand at a place, where that is few things.
pub fn expected_shapes(place: Place) -> &'static [Shape] {
    match place {
        Place::File => expected::OF_FILE,
        Place::Members => expected::OF_MEMBERS,
        Place::Constructor => expected::OF_CONSTRUCTOR,
        Place::Body => expected::OF_BODY,
        Place::Main => expected::OF_MAIN,
    }
}

/// What to write in place of what is refused by a breach of names and types.
pub fn type_hint(breach: TypeBreach, site: &Site<'_>) -> Option<&'static str> {
    match breach {
        TypeBreach::UnknownName => unknown::hint_of_unknown(site),
        TypeBreach::DeclaredTwice => hint_of(types::DECLARED_TWICE, site),
        TypeBreach::WrongKind => kinds::hint_of_kind(site),
        TypeBreach::WaitInMethod => hint_of(types::WAIT_IN_METHOD, site),
        TypeBreach::WaitInFunction => hint_of(types::WAIT_IN_FUNCTION, site),
        TypeBreach::RecursiveCall => hint_of(types::RECURSIVE_CALL, site),
        TypeBreach::NotAPort => hint_of(types::NOT_A_PORT, site),
        TypeBreach::WrongCount => hint_of(kinds::WRONG_COUNT, site),
        TypeBreach::EffectInside => hint_of(types::EFFECT_INSIDE, site),
        TypeBreach::NotConstant => hint_of(types::NOT_CONSTANT, site),
    }
}

/// The shapes that are refused by a breach of elaboration.
pub fn elaborate_shapes(breach: ElabBreach) -> &'static [Shape] {
    match breach {
        ElabBreach::PortNotBound => elaboration::PORT_NOT_BOUND,
        ElabBreach::PortBoundTwice => elaboration::PORT_BOUND_TWICE,
        ElabBreach::PortKind => elaboration::PORT_KIND,
        ElabBreach::TwoWriters => elaboration::TWO_WRITERS,
        ElabBreach::TwoReaders => elaboration::TWO_READERS,
        ElabBreach::TooManyProcesses => elaboration::TOO_MANY_PROCESSES,
        ElabBreach::TooManyObjects => elaboration::TOO_MANY_OBJECTS,
        ElabBreach::TooManyCells => elaboration::TOO_MANY_CELLS,
        ElabBreach::FifoSize => elaboration::FIFO_SIZE,
        ElabBreach::TimeTooLarge => elaboration::TIME_TOO_LARGE,
        ElabBreach::OddClock => elaboration::ODD_CLOCK,
        ElabBreach::BadConstant => elaboration::BAD_CONSTANT,
    }
}
