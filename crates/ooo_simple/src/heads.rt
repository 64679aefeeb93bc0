ghost use Rattle.ooo_grammar.specs.Codes.{deeper};
ghost use Rattle.ooo_grammar.specs.Combinators.{optional};
ghost use Rattle.ooo_grammar.specs.Statements.{condition, for_first, for_start, for_step, for_test, parens, simple};
ghost use Rattle.ooo_grammar.specs.Gives.{Gives, reads_at};
ghost use Rattle.ooo_simple.specs.Parts.{closed_step, ended_start, ended_value, opened_start};

use crate::keeping::{followed, on_heap};
use crate::locals::read_local;
use crate::signs::{begins_with_for_start, begins_with_simple};
use crate::simple::{read_boxed_simple, read_simple};
use ooo_exprs::{begins_with_expression, read_boxed_inner_value, read_boxed_value};
use ooo_grammar::{Limits, Read, begins_with_type, one};
use ooo_syntax::{Expr, ForStart, Simple, Symbol, Terminal};
use sqlite_items::Boxed;
use std::alloc::Global;

/// Reads an expression in parentheses.
#[tactic(auto, using(ooo_grammar::specs::Steps::steps), unfolding(ooo_grammar::specs::Statements::parens))]
pub fn read_parens<'a>(
    alloc: Global,
    tokens: &'a [Symbol<'a>],
    limits: Limits,
) -> Read<'a, Boxed<Expr>>
    ensures { Gives (reads_at limits parens tokens.now) result }
{
    let (_, rest) = got!(one(tokens, Terminal::Open, limits));
    let (test, rest) = got!(read_boxed_inner_value(alloc, rest, limits));
    followed(test, Terminal::Close, rest, limits)
}

/// Reads an expression in parentheses, one level deeper.
#[tactic(auto, using(ooo_grammar::specs::Steps::deeper_gives), unfolding(ooo_grammar::specs::Statements::condition))]
pub fn read_condition<'a>(
    alloc: Global,
    tokens: &'a [Symbol<'a>],
    limits: Limits,
) -> Read<'a, Boxed<Expr>>
    ensures { Gives (reads_at limits condition tokens.now) result }
{
    read_parens(alloc, tokens, limits.inside())
}

/// Reads an expression or nothing, and `;`.
#[tactic(auto, using(ooo_grammar::specs::Steps::steps))]
pub fn read_ended_value<'a>(
    alloc: Global,
    tokens: &'a [Symbol<'a>],
    limits: Limits,
) -> Read<'a, Option<Boxed<Expr>>>
    ensures { Gives (reads_at limits ended_value tokens.now) result }
{
    if !begins_with_expression(tokens) {
        return followed(None, Terminal::Semicolon, tokens, limits);
    }
    let (found, rest) = got!(read_boxed_value(alloc, tokens, limits));
    followed(Some(found), Terminal::Semicolon, rest, limits)
}

// What a `for` begins with.
#[tactic(auto, using(ooo_grammar::specs::Steps::steps), unfolding(ooo_grammar::specs::Statements::for_start))]
fn read_for_start<'a>(alloc: Global, tokens: &'a [Symbol<'a>], limits: Limits) -> Read<'a, ForStart>
    ensures { Gives (reads_at limits for_start tokens.now) result }
{
    if begins_with_type(tokens) {
        let (locals, rest) = got!(read_local(alloc, tokens, limits));
        return Ok((ForStart::Local(locals), rest));
    }
    let (found, rest) = got!(read_simple(alloc, tokens, limits));
    Ok((ForStart::Simple(found), rest))
}

// The same on the heap.
#[tactic(auto, using(ooo_grammar::specs::Steps::steps))]
fn read_boxed_for_start<'a>(
    alloc: Global,
    tokens: &'a [Symbol<'a>],
    limits: Limits,
) -> Read<'a, Boxed<ForStart>>
    ensures { Gives (reads_at limits for_start tokens.now) result }
{
    let (found, rest) = got!(read_for_start(alloc, tokens, limits));
    on_heap(alloc, found, rest)
}

// What a `for` begins with or nothing, and `;`.
#[tactic(auto, using(ooo_grammar::specs::Steps::steps))]
fn read_ended_start<'a>(
    alloc: Global,
    tokens: &'a [Symbol<'a>],
    limits: Limits,
) -> Read<'a, Option<Boxed<ForStart>>>
    ensures { Gives (reads_at limits ended_start tokens.now) result }
{
    if !begins_with_for_start(tokens) {
        return followed(None, Terminal::Semicolon, tokens, limits);
    }
    let (found, rest) = got!(read_boxed_for_start(alloc, tokens, limits));
    followed(Some(found), Terminal::Semicolon, rest, limits)
}

// The same, one level deeper.
#[tactic(auto, using(ooo_grammar::specs::Steps::deeper_gives))]
fn read_ended_start_inside<'a>(
    alloc: Global,
    tokens: &'a [Symbol<'a>],
    limits: Limits,
) -> Read<'a, Option<Boxed<ForStart>>>
    ensures { Gives (reads_at limits (deeper ended_start) tokens.now) result }
{
    read_ended_start(alloc, tokens, limits.inside())
}

// `(` and what a `for` begins with, where `(` stands inside the `for`.
#[tactic(auto, using(ooo_grammar::specs::Steps::steps))]
fn read_opened_start<'a>(
    alloc: Global,
    tokens: &'a [Symbol<'a>],
    limits: Limits,
) -> Read<'a, Option<Boxed<ForStart>>>
    ensures { Gives (reads_at limits opened_start tokens.now) result }
{
    let (_, rest) = got!(one(tokens, Terminal::Open, limits));
    read_ended_start_inside(alloc, rest, limits)
}

/// Reads the first part of a `for`, with its `(` and `;`.
#[tactic(auto, using(ooo_grammar::specs::Steps::deeper_gives), unfolding(ooo_grammar::specs::Statements::for_first))]
pub fn read_for_first<'a>(
    alloc: Global,
    tokens: &'a [Symbol<'a>],
    limits: Limits,
) -> Read<'a, Option<Boxed<ForStart>>>
    ensures { Gives (reads_at limits for_first tokens.now) result }
{
    read_opened_start(alloc, tokens, limits.inside())
}

// An expression or nothing and `;`, one level deeper.
#[tactic(auto, using(ooo_grammar::specs::Steps::deeper_gives))]
fn read_ended_value_inside<'a>(
    alloc: Global,
    tokens: &'a [Symbol<'a>],
    limits: Limits,
) -> Read<'a, Option<Boxed<Expr>>>
    ensures { Gives (reads_at limits (deeper ended_value) tokens.now) result }
{
    read_ended_value(alloc, tokens, limits.inside())
}

/// Reads the test of a `for` with its `;`, inside the `for` and its parentheses.
#[tactic(auto, using(ooo_grammar::specs::Steps::deeper_gives), unfolding(ooo_grammar::specs::Statements::for_test))]
pub fn read_for_test<'a>(
    alloc: Global,
    tokens: &'a [Symbol<'a>],
    limits: Limits,
) -> Read<'a, Option<Boxed<Expr>>>
    ensures { Gives (reads_at limits for_test tokens.now) result }
{
    read_ended_value_inside(alloc, tokens, limits.inside())
}

// A statement without its `;`, or nothing.
#[tactic(auto, using(ooo_grammar::specs::Steps::steps))]
fn read_optional_simple<'a>(
    alloc: Global,
    tokens: &'a [Symbol<'a>],
    limits: Limits,
) -> Read<'a, Option<Boxed<Simple>>>
    ensures { Gives (reads_at limits (optional simple) tokens.now) result }
{
    if !begins_with_simple(tokens) {
        return Ok((None, tokens));
    }
    let (found, rest) = got!(read_boxed_simple(alloc, tokens, limits));
    Ok((Some(found), rest))
}

// The same, one level deeper.
#[tactic(auto, using(ooo_grammar::specs::Steps::deeper_gives))]
fn read_optional_simple_inside<'a>(
    alloc: Global,
    tokens: &'a [Symbol<'a>],
    limits: Limits,
) -> Read<'a, Option<Boxed<Simple>>>
    ensures { Gives (reads_at limits (deeper (optional simple)) tokens.now) result }
{
    read_optional_simple(alloc, tokens, limits.inside())
}

// The same and `)`.
#[tactic(auto, using(ooo_grammar::specs::Steps::steps))]
fn read_closed_step<'a>(
    alloc: Global,
    tokens: &'a [Symbol<'a>],
    limits: Limits,
) -> Read<'a, Option<Boxed<Simple>>>
    ensures { Gives (reads_at limits closed_step tokens.now) result }
{
    let (found, rest) = got!(read_optional_simple_inside(alloc, tokens, limits));
    followed(found, Terminal::Close, rest, limits)
}

/// Reads the last part of a `for` with its `)`.
#[tactic(auto, using(ooo_grammar::specs::Steps::deeper_gives), unfolding(ooo_grammar::specs::Statements::for_step))]
pub fn read_for_step<'a>(
    alloc: Global,
    tokens: &'a [Symbol<'a>],
    limits: Limits,
) -> Read<'a, Option<Boxed<Simple>>>
    ensures { Gives (reads_at limits for_step tokens.now) result }
{
    read_closed_step(alloc, tokens, limits.inside())
}
