ghost use Rattle.std.specs.Prelude.{◌≡◌, ◌≤◌, IfOk, None, length};
ghost use Rattle.ooo_grammar.specs.Forms.{Outcome};
ghost use Rattle.ooo_grammar.specs.Gives.{Gives, level_limit};
ghost use Rattle.ooo_grammar.specs.Laws.{whole};
ghost use Rattle.ooo_parser.specs.Reaches.{extent_of, reads_whole, root_of};

use ooo_exprs::{read_sum, read_value};
use ooo_grammar::{LEVEL_LIMIT, Limits, Read, ReadError};
use ooo_syntax::Symbol;
use ooo_units::read_unit;
use std::alloc::{AllocError, Global};

/// What symbols are read as.
#[derive(Clone, Copy)]
pub(crate) enum Start {
    WholeText,
    Expression,
    Sum,
}

/// How far a reading of symbols reaches.
#[derive(Clone, Copy)]
pub(crate) enum Extent {
    /// To their end.
    Whole,
    /// To the refused symbol, by how many symbols are left from it on: none where more has to follow.
    Refused(usize),
    /// To the first symbol that is too deep, by how many symbols are left from it on.
    TooDeep(usize),
}

/// The limits of a text: no operator is counted outside of expressions.
pub(crate) const LIMITS: Limits = Limits {
    levels: LEVEL_LIMIT,
    bound: None,
};

/// How far the symbols can be read within the limits.
pub(crate) fn reach(
    alloc: Global,
    start: Start,
    symbols: &[Symbol<'_>],
) -> Result<Extent, AllocError>
    ensures { IfOk result (λ r. r ≡ extent_of (reads_whole (root_of start) symbols.now)) }
{
    match start {
        Start::WholeText => extent_of(read_unit(alloc, symbols, LIMITS)),
        Start::Expression => extent_of(read_value(alloc, symbols, LIMITS)),
        Start::Sum => extent_of(read_sum(alloc, symbols, LIMITS)),
    }
}

// How far a reader's answer reaches.
fn extent_of<T: Drop>(answer: Read<'_, T>) -> Result<Extent, AllocError>
    ensures { (o : Outcome T) → Gives o answer.entry → IfOk result (λ r. r ≡ extent_of (whole o)) }
{
    match answer {
        Ok((_, [])) => Ok(Extent::Whole),
        Ok((_, rest)) => Ok(Extent::Refused(rest.len())),
        Err(ReadError::Syntax(left)) => Ok(Extent::Refused(left)),
        Err(ReadError::TooDeep(left)) => Ok(Extent::TooDeep(left)),
        Err(ReadError::OutOfMemory) => Err(AllocError),
    }
}
