ghost use Rattle.std.specs.Prelude.{◌≡◌, IfOk};
ghost use Rattle.ooo_grammar.specs.Codes.{deeper};
ghost use Rattle.ooo_grammar.specs.Gives.{Gives, reads_at};
ghost use Rattle.ooo_grammar.specs.Members.{arg_part, args, ends_in_value, next_arg, scale_or_arg, some_args, with_unit};
ghost use Rattle.ooo_declarations.specs.Loops.{arg_step};
ghost use Rattle.ooo_declarations.specs.Parts.{listed_args, maybe_args};

use crate::signs::begins_with_arg;
use ooo_exprs::{begun, read_boxed_value};
use ooo_grammar::{Limits, Read, one, read_text, starts};
use ooo_simple::{
    begins_with_named_time, begins_with_unit_of_time, followed, read_boxed_named_time,
    read_unit_of_time, with,
};
use ooo_syntax::{Arg, Expr, Symbol, Terminal, TimeForm};
use ooo_time::Scale;
use sqlite_items::{Boxed, Items};
use std::alloc::{AllocError, Global};

// Whether the last argument is a value.
#[tactic(auto, using(crate::proofs::Args::ends))]
fn ends_in_value(list: &Items<Arg>) -> bool
    ensures { result ≡ ends_in_value list.now }
{
    matches!(list.as_slice().last(), Some(Arg::Value(_)))
}

// An amount and its unit.
fn amount_of(alloc: Global, amount: Boxed<Expr>, unit: Scale) -> Result<Boxed<TimeForm>, AllocError>
    ensures { IfOk result (λ time. time ≡ TimeForm.Amount amount unit) }
{
    Boxed::new(alloc, TimeForm::Amount(amount.into_inner(), unit))
}

// The arguments, of which the last value has this unit.
#[tactic(auto, using(crate::proofs::Args::units))]
fn with_unit(alloc: Global, unit: Scale, mut list: Items<Arg>) -> Result<Items<Arg>, AllocError>
    ensures { IfOk result (λ xs. xs ≡ with_unit unit list) }
{
    match list.pop() {
        Some(Arg::Value(amount)) => {
            let time = keeping!(list; amount_of(alloc, amount, unit));
            with(list, Arg::Time(time))
        }
        Some(Arg::Text(text)) => with(list, Arg::Text(text)),
        Some(Arg::Time(time)) => with(list, Arg::Time(time)),
        None => Ok(list),
    }
}

// An argument, without what makes a value a time.
#[tactic(auto, using(ooo_grammar::specs::Steps::steps), unfolding(ooo_grammar::specs::Members::arg_part))]
fn read_arg_part<'a>(alloc: Global, tokens: &'a [Symbol<'a>], limits: Limits) -> Read<'a, Arg>
    ensures { Gives (reads_at limits arg_part tokens.now) result }
{
    if starts(tokens, Terminal::Text) {
        let (text, rest) = got!(read_text(alloc, tokens, limits));
        return Ok((Arg::Text(text), rest));
    }
    if begins_with_named_time(tokens) {
        let (time, rest) = got!(read_boxed_named_time(alloc, tokens, limits));
        return Ok((Arg::Time(time), rest));
    }
    let (value, rest) = got!(read_boxed_value(alloc, tokens, limits));
    Ok((Arg::Value(value), rest))
}

// A unit of time or an argument, after a value and a comma.
#[tactic(auto, using(ooo_grammar::specs::Steps::steps), unfolding(ooo_grammar::specs::Members::scale_or_arg))]
fn read_scale_or_arg<'a>(
    alloc: Global,
    list: Items<Arg>,
    tokens: &'a [Symbol<'a>],
    limits: Limits,
) -> Read<'a, Items<Arg>>
    ensures { Gives (reads_at limits (scale_or_arg list) tokens.now) result }
{
    if begins_with_unit_of_time(tokens) {
        let (unit, rest) = keeping!(list; read_unit_of_time(tokens, limits));
        return Ok((with_unit(alloc, unit, list)?, rest));
    }
    let (more, rest) = keeping!(list; read_arg_part(alloc, tokens, limits));
    Ok((with(list, more)?, rest))
}

// A comma and one more argument.
#[tactic(auto, using(ooo_grammar::specs::Steps::steps), unfolding(ooo_grammar::specs::Members::next_arg))]
fn read_next_arg<'a>(
    alloc: Global,
    ends_in_value: bool,
    list: Items<Arg>,
    tokens: &'a [Symbol<'a>],
    limits: Limits,
) -> Read<'a, Items<Arg>>
    ensures { Gives (reads_at limits (next_arg ends_in_value list) tokens.now) result }
{
    let (_, rest) = keeping!(list; one(tokens, Terminal::Comma, limits));
    if ends_in_value {
        return read_scale_or_arg(alloc, list, rest, limits);
    }
    let (more, rest) = keeping!(list; read_arg_part(alloc, rest, limits));
    Ok((with(list, more)?, rest))
}

// A comma and one more argument, by the last one.
#[tactic(auto, using(ooo_grammar::specs::Steps::steps))]
fn read_further_arg<'a>(
    alloc: Global,
    list: Items<Arg>,
    tokens: &'a [Symbol<'a>],
    limits: Limits,
) -> Read<'a, Items<Arg>>
    ensures { Gives (arg_step limits list tokens.now) result }
{
    let is_value = ends_in_value(&list);
    read_next_arg(alloc, is_value, list, tokens, limits)
}

// Arguments.
#[tactic(auto, using(ooo_grammar::specs::Steps::steps), unfolding(ooo_grammar::specs::Members::args))]
fn read_args<'a>(alloc: Global, tokens: &'a [Symbol<'a>], limits: Limits) -> Read<'a, Items<Arg>>
    ensures { Gives (reads_at limits args tokens.now) result }
{
    let (first, mut rest) = read_arg_part(alloc, tokens, limits)?;
    let mut list = begun(alloc, first)?;
    'turns: for _turn in 0..rest.len() {
        if !starts(rest, Terminal::Comma) {
            return Ok((list, rest));
        }
        let (more, after) = read_further_arg(alloc, list, rest, limits)?;
        list = more;
        rest = after;
    }
    Ok((list, rest))
}

/// Reads arguments, one level deeper.
#[tactic(auto, using(ooo_grammar::specs::Steps::deeper_gives))]
pub fn read_args_inside<'a>(
    alloc: Global,
    tokens: &'a [Symbol<'a>],
    limits: Limits,
) -> Read<'a, Items<Arg>>
    ensures { Gives (reads_at limits (deeper args) tokens.now) result }
{
    read_args(alloc, tokens, limits.inside())
}

// Arguments in parentheses.
#[tactic(auto, using(ooo_grammar::specs::Steps::steps), unfolding(ooo_grammar::specs::Members::some_args))]
pub(crate) fn read_some_args<'a>(
    alloc: Global,
    tokens: &'a [Symbol<'a>],
    limits: Limits,
) -> Read<'a, Items<Arg>>
    ensures { Gives (reads_at limits some_args tokens.now) result }
{
    let (_, rest) = got!(one(tokens, Terminal::Open, limits));
    let (list, rest) = got!(read_args_inside(alloc, rest, limits));
    followed(list, Terminal::Close, rest, limits)
}

// Arguments or nothing, in parentheses.
#[tactic(auto, using(ooo_grammar::specs::Steps::steps))]
pub(crate) fn read_listed_args<'a>(
    alloc: Global,
    tokens: &'a [Symbol<'a>],
    limits: Limits,
) -> Read<'a, Items<Arg>>
    ensures { Gives (reads_at limits listed_args tokens.now) result }
{
    let (_, rest) = got!(one(tokens, Terminal::Open, limits));
    if !begins_with_arg(rest) {
        return followed(Items::new(alloc), Terminal::Close, rest, limits);
    }
    let (list, rest) = got!(read_args_inside(alloc, rest, limits));
    followed(list, Terminal::Close, rest, limits)
}

// Arguments in parentheses, or nothing.
#[tactic(auto, using(ooo_grammar::specs::Steps::steps))]
pub(crate) fn read_maybe_args<'a>(
    alloc: Global,
    tokens: &'a [Symbol<'a>],
    limits: Limits,
) -> Read<'a, Option<Items<Arg>>>
    ensures { Gives (reads_at limits maybe_args tokens.now) result }
{
    if !starts(tokens, Terminal::Open) {
        return Ok((None, tokens));
    }
    let (list, rest) = got!(read_some_args(alloc, tokens, limits));
    Ok((Some(list), rest))
}
