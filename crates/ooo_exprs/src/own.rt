ghost use Rattle.ooo_grammar.specs.Expressions.{counted_sum, inner_value, sum, value};
ghost use Rattle.ooo_grammar.specs.Gives.{Gives, reads_at};

use crate::expressions::{First, boxed_read, read_boxed_inner, read_inner, read_level, read_whole};
use ooo_grammar::{Limits, Read};
use ooo_syntax::{Expr, Symbol};
use sqlite_items::Boxed;
use std::alloc::Global;

/// Reads an expression that is part of no other.
#[tactic(auto, using(ooo_grammar::specs::Steps::outermost_gives), unfolding(ooo_grammar::specs::Expressions::value))]
pub fn read_value<'a>(alloc: Global, tokens: &'a [Symbol<'a>], limits: Limits) -> Read<'a, Expr>
    ensures { Gives (reads_at limits value tokens.now) result }
{
    read_whole(alloc, tokens, limits.enter(tokens))
}

/// Reads an expression that is part of no other, one level deeper.
#[tactic(auto, using(ooo_grammar::specs::Steps::outermost_gives), unfolding(ooo_grammar::specs::Expressions::inner_value))]
pub fn read_inner_value<'a>(
    alloc: Global,
    tokens: &'a [Symbol<'a>],
    limits: Limits,
) -> Read<'a, Expr>
    ensures { Gives (reads_at limits inner_value tokens.now) result }
{
    read_inner(alloc, tokens, limits.enter(tokens))
}

/// Reads an expression that is part of no other, onto the heap.
#[tactic(auto, using(ooo_grammar::specs::Steps::steps))]
pub fn read_boxed_value<'a>(
    alloc: Global,
    tokens: &'a [Symbol<'a>],
    limits: Limits,
) -> Read<'a, Boxed<Expr>>
    ensures { Gives (reads_at limits value tokens.now) result }
{
    let (found, rest) = got!(read_value(alloc, tokens, limits));
    boxed_read(alloc, found, rest)
}

/// The same, one level deeper.
#[tactic(auto, using(ooo_grammar::specs::Steps::outermost_gives), unfolding(ooo_grammar::specs::Expressions::inner_value))]
pub fn read_boxed_inner_value<'a>(
    alloc: Global,
    tokens: &'a [Symbol<'a>],
    limits: Limits,
) -> Read<'a, Boxed<Expr>>
    ensures { Gives (reads_at limits inner_value tokens.now) result }
{
    read_boxed_inner(alloc, tokens, limits.enter(tokens))
}

// The level `sum`, without a bound of its own.
#[tactic(auto, using(crate::proofs::Turns::sum_gives))]
fn read_counted_sum<'a>(alloc: Global, tokens: &'a [Symbol<'a>], limits: Limits) -> Read<'a, Expr>
    ensures { Gives (reads_at limits counted_sum tokens.now) result }
{
    read_level(alloc, tokens, First::Any, 8, limits)
}

/// Reads a `sum` that is part of no expression.
#[tactic(auto, using(ooo_grammar::specs::Steps::outermost_gives), unfolding(ooo_grammar::specs::Expressions::sum))]
pub fn read_sum<'a>(alloc: Global, tokens: &'a [Symbol<'a>], limits: Limits) -> Read<'a, Expr>
    ensures { Gives (reads_at limits sum tokens.now) result }
{
    read_counted_sum(alloc, tokens, limits.enter(tokens))
}
