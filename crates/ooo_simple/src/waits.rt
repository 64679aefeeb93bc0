ghost use Rattle.std.specs.Prelude.{Some};
ghost use Rattle.ooo_grammar.specs.Times.{after_amount, after_awaited, after_time, awaited_expression, awaiting};
ghost use Rattle.ooo_grammar.specs.Gives.{Gives, reads_at};

use crate::events::{read_events_inside, spelled_events};
use crate::keeping::followed;
use crate::signs::begins_with_named_time;
use crate::times::{read_named_time_inside, read_unit_inside};
use ooo_exprs::read_inner_value;
use ooo_grammar::{Limits, Read, ReadError, one, one_inside, starts};
use ooo_syntax::{Awaited, Event, Expr, Symbol, Terminal, TimeForm};
use sqlite_items::Items;
use std::alloc::Global;

// Events or nothing and `)`, after a time.
#[tactic(auto, using(ooo_grammar::specs::Steps::steps), unfolding(ooo_grammar::specs::Times::after_time))]
fn read_after_time<'a>(
    alloc: Global,
    time: TimeForm,
    tokens: &'a [Symbol<'a>],
    limits: Limits,
) -> Read<'a, Awaited>
    ensures { Gives (reads_at limits (after_time time) tokens.now) result }
{
    if starts(tokens, Terminal::Comma) {
        let (_, rest) = keeping!(time; one_inside(tokens, Terminal::Comma, limits));
        let (list, rest) = keeping!(time; read_events_inside(alloc, rest, limits));
        return followed(Awaited::Until(time, list), Terminal::Close, rest, limits);
    }
    followed(Awaited::Delay(time), Terminal::Close, tokens, limits)
}

// A comma and a unit, and what follows a time, after an amount.
#[tactic(auto, using(ooo_grammar::specs::Steps::steps), unfolding(ooo_grammar::specs::Times::after_amount))]
fn read_after_amount<'a>(
    alloc: Global,
    amount: Expr,
    tokens: &'a [Symbol<'a>],
    limits: Limits,
) -> Read<'a, Awaited>
    ensures { Gives (reads_at limits (after_amount amount) tokens.now) result }
{
    let (_, rest) = keeping!(amount; one_inside(tokens, Terminal::Comma, limits));
    let (unit, rest) = keeping!(amount; read_unit_inside(rest, limits));
    read_after_time(alloc, TimeForm::Amount(amount, unit), rest, limits)
}

// `)` or an amount's unit, after an expression that spells events.
#[tactic(auto, using(ooo_grammar::specs::Steps::steps), unfolding(ooo_grammar::specs::Times::after_awaited))]
fn read_after_events<'a>(
    alloc: Global,
    list: Items<Event>,
    first: Expr,
    tokens: &'a [Symbol<'a>],
    limits: Limits,
) -> Read<'a, Awaited>
    ensures { Gives (reads_at limits (after_awaited (Some list) first) tokens.now) result }
{
    if starts(tokens, Terminal::Close) {
        drop(first);
        return followed(Awaited::Events(list), Terminal::Close, tokens, limits);
    }
    drop(list);
    read_after_amount(alloc, first, tokens, limits)
}

// What follows an expression, which may spell events.
fn read_after_awaited<'a>(
    alloc: Global,
    list: Option<Items<Event>>,
    first: Expr,
    tokens: &'a [Symbol<'a>],
    limits: Limits,
) -> Read<'a, Awaited>
    ensures { Gives (reads_at limits (after_awaited list first) tokens.now) result }
{
    match list {
        None => read_after_amount(alloc, first, tokens, limits),
        Some(list) => read_after_events(alloc, list, first, tokens, limits),
    }
}

// A time or events that begin with an expression, and `)`.
#[tactic(auto, using(ooo_grammar::specs::Steps::steps, crate::proofs::Awaits::awaited_tail), unfolding(ooo_grammar::specs::Times::awaited_expression))]
fn read_awaited_expression<'a>(
    alloc: Global,
    tokens: &'a [Symbol<'a>],
    limits: Limits,
) -> Read<'a, Awaited>
    ensures { Gives (reads_at limits awaited_expression tokens.now) result }
{
    let (first, rest) = got!(read_inner_value(alloc, tokens, limits));
    match spelled_events(alloc, &first) {
        Ok(list) => read_after_awaited(alloc, list, first, rest, limits),
        Err(_) => {
            drop(first);
            Err(ReadError::OutOfMemory)
        }
    }
}

// What `wait` or `next_trigger` waits for, in parentheses.
#[tactic(auto, using(ooo_grammar::specs::Steps::steps), unfolding(ooo_grammar::specs::Times::awaiting))]
pub(crate) fn read_awaiting<'a>(
    alloc: Global,
    tokens: &'a [Symbol<'a>],
    limits: Limits,
) -> Read<'a, Awaited>
    ensures { Gives (reads_at limits awaiting tokens.now) result }
{
    let (_, rest) = got!(one(tokens, Terminal::Open, limits));
    if starts(rest, Terminal::Close) {
        return followed(Awaited::Sensitive, Terminal::Close, rest, limits);
    }
    if begins_with_named_time(rest) {
        let (time, rest) = got!(read_named_time_inside(alloc, rest, limits));
        return read_after_time(alloc, time, rest, limits);
    }
    read_awaited_expression(alloc, rest, limits)
}
