ghost use Rattle.ooo_grammar.specs.Codes.{deeper};
ghost use Rattle.ooo_grammar.specs.Times.{inner_amount, named_time, timed, unit_of_time};
ghost use Rattle.ooo_grammar.specs.Gives.{Gives, reads_at};

use crate::keeping::{followed, on_heap};
use crate::signs::{begins_with_named_time, scale_of};
use ooo_exprs::{read_inner_value, read_value};
use ooo_grammar::{Limits, Read, ReadError, next, one, one_inside, starts};
use ooo_syntax::{Mark, Symbol, Terminal, TimeForm};
use ooo_time::Scale;
use sqlite_items::Boxed;
use std::alloc::Global;

/// Reads a unit of time.
#[tactic(auto, using(ooo_grammar::specs::Steps::steps), unfolding(ooo_grammar::specs::Times::unit_of_time))]
pub fn read_unit_of_time<'a>(tokens: &'a [Symbol<'a>], limits: Limits) -> Read<'a, Scale>
    ensures { Gives (reads_at limits unit_of_time tokens.now) result }
{
    let Some((token, rest)) = next(tokens) else {
        return Err(ReadError::Syntax(tokens.len()));
    };
    let Some(unit) = scale_of(token) else {
        return Err(ReadError::Syntax(tokens.len()));
    };
    if !limits.fit(token) {
        return Err(ReadError::TooDeep(tokens.len()));
    }
    Ok((unit, rest))
}

// A unit of time, one level deeper.
#[tactic(auto, using(ooo_grammar::specs::Steps::deeper_gives))]
pub(crate) fn read_unit_inside<'a>(tokens: &'a [Symbol<'a>], limits: Limits) -> Read<'a, Scale>
    ensures { Gives (reads_at limits (deeper unit_of_time) tokens.now) result }
{
    read_unit_of_time(tokens, limits.inside())
}

// An amount, a comma and a unit, after `sc_time (`.
#[tactic(auto, using(ooo_grammar::specs::Steps::steps), unfolding(ooo_grammar::specs::Times::inner_amount))]
fn read_inner_amount<'a>(
    alloc: Global,
    head: Mark,
    tokens: &'a [Symbol<'a>],
    limits: Limits,
) -> Read<'a, TimeForm>
    ensures { Gives (reads_at limits (inner_amount head) tokens.now) result }
{
    let (amount, rest) = got!(read_inner_value(alloc, tokens, limits));
    let (_, rest) = keeping!(amount; one_inside(rest, Terminal::Comma, limits));
    let (unit, rest) = keeping!(amount; read_unit_inside(rest, limits));
    Ok((TimeForm::Made(head.position, amount, unit), rest))
}

/// Reads `SC_ZERO_TIME`, or `sc_time` and what it is made of.
#[tactic(auto, using(ooo_grammar::specs::Steps::steps), unfolding(ooo_grammar::specs::Times::named_time))]
pub fn read_named_time<'a>(
    alloc: Global,
    tokens: &'a [Symbol<'a>],
    limits: Limits,
) -> Read<'a, TimeForm>
    ensures { Gives (reads_at limits named_time tokens.now) result }
{
    if starts(tokens, Terminal::ScZeroTime) {
        let (head, rest) = got!(one(tokens, Terminal::ScZeroTime, limits));
        return Ok((TimeForm::Zero(head.position), rest));
    }
    let (head, rest) = got!(one(tokens, Terminal::ScTime, limits));
    let (_, rest) = got!(one(rest, Terminal::Open, limits));
    let (time, rest) = got!(read_inner_amount(alloc, head, rest, limits));
    followed(time, Terminal::Close, rest, limits)
}

// The same, one level deeper.
#[tactic(auto, using(ooo_grammar::specs::Steps::deeper_gives))]
pub(crate) fn read_named_time_inside<'a>(
    alloc: Global,
    tokens: &'a [Symbol<'a>],
    limits: Limits,
) -> Read<'a, TimeForm>
    ensures { Gives (reads_at limits (deeper named_time) tokens.now) result }
{
    read_named_time(alloc, tokens, limits.inside())
}

/// Reads a time.
#[tactic(auto, using(ooo_grammar::specs::Steps::steps), unfolding(ooo_grammar::specs::Times::timed))]
pub fn read_timed<'a>(alloc: Global, tokens: &'a [Symbol<'a>], limits: Limits) -> Read<'a, TimeForm>
    ensures { Gives (reads_at limits timed tokens.now) result }
{
    if begins_with_named_time(tokens) {
        return read_named_time(alloc, tokens, limits);
    }
    let (amount, rest) = got!(read_value(alloc, tokens, limits));
    let (_, rest) = keeping!(amount; one(rest, Terminal::Comma, limits));
    let (unit, rest) = keeping!(amount; read_unit_of_time(rest, limits));
    Ok((TimeForm::Amount(amount, unit), rest))
}

/// Reads a time, one level deeper.
#[tactic(auto, using(ooo_grammar::specs::Steps::deeper_gives))]
pub fn read_timed_inside<'a>(
    alloc: Global,
    tokens: &'a [Symbol<'a>],
    limits: Limits,
) -> Read<'a, TimeForm>
    ensures { Gives (reads_at limits (deeper timed) tokens.now) result }
{
    read_timed(alloc, tokens, limits.inside())
}

/// Reads `SC_ZERO_TIME`, or `sc_time` and what it is made of, onto the heap.
#[tactic(auto, using(ooo_grammar::specs::Steps::steps))]
pub fn read_boxed_named_time<'a>(
    alloc: Global,
    tokens: &'a [Symbol<'a>],
    limits: Limits,
) -> Read<'a, Boxed<TimeForm>>
    ensures { Gives (reads_at limits named_time tokens.now) result }
{
    let (time, rest) = got!(read_named_time(alloc, tokens, limits));
    on_heap(alloc, time, rest)
}

/// Reads a time onto the heap.
#[tactic(auto, using(ooo_grammar::specs::Steps::steps))]
pub fn read_boxed_timed<'a>(
    alloc: Global,
    tokens: &'a [Symbol<'a>],
    limits: Limits,
) -> Read<'a, Boxed<TimeForm>>
    ensures { Gives (reads_at limits timed tokens.now) result }
{
    let (time, rest) = got!(read_timed(alloc, tokens, limits));
    on_heap(alloc, time, rest)
}

/// Reads a time onto the heap, one level deeper.
#[tactic(auto, using(ooo_grammar::specs::Steps::steps))]
pub fn read_boxed_timed_inside<'a>(
    alloc: Global,
    tokens: &'a [Symbol<'a>],
    limits: Limits,
) -> Read<'a, Boxed<TimeForm>>
    ensures { Gives (reads_at limits (deeper timed) tokens.now) result }
{
    let (time, rest) = got!(read_timed_inside(alloc, tokens, limits));
    on_heap(alloc, time, rest)
}
