ghost use Rattle.std.specs.Prelude.{refl};
ghost use Rattle.ooo_grammar.specs.Codes.{deeper};
ghost use Rattle.ooo_grammar.specs.Combinators.{in_brackets, in_parens, optional, separated_inside, table};
ghost use Rattle.ooo_grammar.specs.Expressions.{inner_value};
ghost use Rattle.ooo_grammar.specs.Times.{timed};
ghost use Rattle.ooo_grammar.specs.Statements.{after_dot, after_first_word, after_target, assigns, call_arguments, simple, target};
ghost use Rattle.ooo_grammar.specs.Gives.{Gives, reads_at};
ghost use Rattle.ooo_simple.specs.Loops.{next_inside};
ghost use Rattle.ooo_simple.specs.Parts.{cancel_call, member_call, next_trigger_call, notify_call, step_before, stop_call, wait_call};

use crate::keeping::{followed, on_heap};
use crate::lists::added;
use crate::prints::read_print;
use crate::signs::assign_of;
use crate::times::read_timed_inside;
use crate::waits::read_awaiting;
use ooo_exprs::{begins_with_expression, begun, read_inner_value, read_value};
use ooo_grammar::{
    Limits, Read, ReadError, begins_with_word, next, one, one_inside, read_member_word, read_word,
    starts,
};
use ooo_syntax::{AssignOp, Expr, Simple, StepOp, Symbol, Target, Terminal, TimeForm, Word};
use sqlite_items::{Boxed, Items};
use std::alloc::Global;

// An assignment's sign.
#[tactic(auto, using(ooo_grammar::specs::Steps::steps))]
fn read_assign_op<'a>(tokens: &'a [Symbol<'a>], limits: Limits) -> Read<'a, AssignOp>
    ensures { Gives (reads_at limits (table assigns) tokens.now) result }
{
    let Some((token, rest)) = next(tokens) else {
        return Err(ReadError::Syntax(tokens.len()));
    };
    let Some(op) = assign_of(token) else {
        return Err(ReadError::Syntax(tokens.len()));
    };
    if !limits.fit(token) {
        return Err(ReadError::TooDeep(tokens.len()));
    }
    Ok((op, rest))
}

// An assignment's sign and its value, `++` or `--`, after the target.
#[tactic(auto, using(ooo_grammar::specs::Steps::steps), unfolding(ooo_grammar::specs::Statements::after_target))]
fn read_after_target<'a>(
    alloc: Global,
    to: Target,
    tokens: &'a [Symbol<'a>],
    limits: Limits,
) -> Read<'a, Simple>
    ensures { Gives (reads_at limits (after_target to) tokens.now) result }
{
    if starts(tokens, Terminal::PlusPlus) {
        return followed(
            Simple::StepAfter(to, StepOp::Up),
            Terminal::PlusPlus,
            tokens,
            limits,
        );
    }
    if starts(tokens, Terminal::MinusMinus) {
        return followed(
            Simple::StepAfter(to, StepOp::Down),
            Terminal::MinusMinus,
            tokens,
            limits,
        );
    }
    let (op, rest) = keeping!(to; read_assign_op(tokens, limits));
    let (value, rest) = keeping!(to; read_value(alloc, rest, limits));
    Ok((Simple::Assign(to, op, value), rest))
}

// A time in parentheses.
#[tactic(auto, using(ooo_grammar::specs::Steps::steps))]
fn read_time_in_parens<'a>(
    alloc: Global,
    tokens: &'a [Symbol<'a>],
    limits: Limits,
) -> Read<'a, TimeForm>
    ensures { Gives (reads_at limits (in_parens (deeper timed) refl) tokens.now) result }
{
    let (_, rest) = got!(one(tokens, Terminal::Open, limits));
    let (time, rest) = got!(read_timed_inside(alloc, rest, limits));
    followed(time, Terminal::Close, rest, limits)
}

// An expression or nothing in parentheses.
#[tactic(auto, using(ooo_grammar::specs::Steps::steps))]
fn read_option_in_parens<'a>(
    alloc: Global,
    tokens: &'a [Symbol<'a>],
    limits: Limits,
) -> Read<'a, Option<Expr>>
    ensures { Gives (reads_at limits (in_parens (optional inner_value) refl) tokens.now) result }
{
    let (_, rest) = got!(one(tokens, Terminal::Open, limits));
    if !begins_with_expression(rest) {
        return followed(None, Terminal::Close, rest, limits);
    }
    let (value, rest) = got!(read_inner_value(alloc, rest, limits));
    followed(Some(value), Terminal::Close, rest, limits)
}

// A notification, after the dot.
#[tactic(auto, using(ooo_grammar::specs::Steps::steps))]
fn read_notify<'a>(
    alloc: Global,
    name: Word,
    tokens: &'a [Symbol<'a>],
    limits: Limits,
) -> Read<'a, Simple>
    ensures { Gives (reads_at limits (notify_call name) tokens.now) result }
{
    let (head, rest) = keeping!(name; one(tokens, Terminal::Notify, limits));
    let (time, rest) = keeping!(name; read_time_in_parens(alloc, rest, limits));
    Ok((Simple::Notify(name, head.position, time), rest))
}

// A cancellation, after the dot.
#[tactic(auto, using(ooo_grammar::specs::Steps::steps))]
fn read_cancel<'a>(name: Word, tokens: &'a [Symbol<'a>], limits: Limits) -> Read<'a, Simple>
    ensures { Gives (reads_at limits (cancel_call name) tokens.now) result }
{
    let (head, rest) = keeping!(name; one(tokens, Terminal::Cancel, limits));
    let (_, rest) = keeping!(name; one(rest, Terminal::Open, limits));
    followed(
        Simple::Cancel(name, head.position),
        Terminal::Close,
        rest,
        limits,
    )
}

// A member and its parentheses, after the dot.
#[tactic(auto, using(ooo_grammar::specs::Steps::steps))]
fn read_member_call<'a>(
    alloc: Global,
    name: Word,
    tokens: &'a [Symbol<'a>],
    limits: Limits,
) -> Read<'a, Simple>
    ensures { Gives (reads_at limits (member_call name) tokens.now) result }
{
    let (member, rest) = keeping!(name; read_member_word(alloc, tokens, limits));
    let (value, rest) = keeping!(name, member; read_option_in_parens(alloc, rest, limits));
    Ok((Simple::Member(name, member, value), rest))
}

// What follows a word and its dot.
#[tactic(auto, using(ooo_grammar::specs::Steps::steps), unfolding(ooo_grammar::specs::Statements::after_dot))]
fn read_after_dot<'a>(
    alloc: Global,
    name: Word,
    tokens: &'a [Symbol<'a>],
    limits: Limits,
) -> Read<'a, Simple>
    ensures { Gives (reads_at limits (after_dot name) tokens.now) result }
{
    if starts(tokens, Terminal::Notify) {
        return read_notify(alloc, name, tokens, limits);
    }
    if starts(tokens, Terminal::Cancel) {
        return read_cancel(name, tokens, limits);
    }
    read_member_call(alloc, name, tokens, limits)
}

// A comma and one more argument.
#[tactic(auto, using(ooo_grammar::specs::Steps::steps))]
fn read_next_argument<'a>(
    alloc: Global,
    list: Items<Expr>,
    tokens: &'a [Symbol<'a>],
    limits: Limits,
) -> Read<'a, Items<Expr>>
    ensures { Gives (next_inside limits Terminal.Comma inner_value list tokens.now) result }
{
    let (_, rest) = keeping!(list; one_inside(tokens, Terminal::Comma, limits));
    let (more, rest) = keeping!(list; read_inner_value(alloc, rest, limits));
    added(list, more, rest)
}

// Arguments and commas between them.
#[tactic(auto, using(ooo_grammar::specs::Steps::steps))]
fn read_some_arguments<'a>(
    alloc: Global,
    tokens: &'a [Symbol<'a>],
    limits: Limits,
) -> Read<'a, Items<Expr>>
    ensures { Gives (reads_at limits
        (separated_inside Terminal.Comma inner_value refl) tokens.now) result }
{
    let (first, mut rest) = got!(read_inner_value(alloc, tokens, limits));
    let mut list = begun(alloc, first)?;
    'turns: for _turn in 0..rest.len() {
        if !starts(rest, Terminal::Comma) {
            return Ok((list, rest));
        }
        let (more, after) = got!(read_next_argument(alloc, list, rest, limits));
        list = more;
        rest = after;
    }
    Ok((list, rest))
}

// Arguments in parentheses.
#[tactic(auto, using(ooo_grammar::specs::Steps::steps), unfolding(ooo_grammar::specs::Statements::call_arguments))]
fn read_arguments<'a>(
    alloc: Global,
    tokens: &'a [Symbol<'a>],
    limits: Limits,
) -> Read<'a, Items<Expr>>
    ensures { Gives (reads_at limits call_arguments tokens.now) result }
{
    let (_, rest) = got!(one(tokens, Terminal::Open, limits));
    if !begins_with_expression(rest) {
        return followed(Items::new(alloc), Terminal::Close, rest, limits);
    }
    let (list, rest) = got!(read_some_arguments(alloc, rest, limits));
    followed(list, Terminal::Close, rest, limits)
}

// An index in brackets.
#[tactic(auto, using(ooo_grammar::specs::Steps::steps))]
fn read_index<'a>(alloc: Global, tokens: &'a [Symbol<'a>], limits: Limits) -> Read<'a, Expr>
    ensures { Gives (reads_at limits (in_brackets inner_value refl) tokens.now) result }
{
    let (_, rest) = got!(one(tokens, Terminal::OpenBracket, limits));
    let (at, rest) = got!(read_inner_value(alloc, rest, limits));
    followed(at, Terminal::CloseBracket, rest, limits)
}

// What follows the word that a statement begins with.
#[tactic(auto, using(ooo_grammar::specs::Steps::steps), unfolding(ooo_grammar::specs::Statements::after_first_word))]
fn read_after_first_word<'a>(
    alloc: Global,
    name: Word,
    tokens: &'a [Symbol<'a>],
    limits: Limits,
) -> Read<'a, Simple>
    ensures { Gives (reads_at limits (after_first_word name) tokens.now) result }
{
    if starts(tokens, Terminal::OpenBracket) {
        let (at, rest) = keeping!(name; read_index(alloc, tokens, limits));
        let index = Some(at);
        return read_after_target(alloc, Target { name, index }, rest, limits);
    }
    if starts(tokens, Terminal::Open) {
        let (list, rest) = keeping!(name; read_arguments(alloc, tokens, limits));
        return Ok((Simple::Call(name, list), rest));
    }
    if starts(tokens, Terminal::Dot) {
        let (_, rest) = keeping!(name; one(tokens, Terminal::Dot, limits));
        return read_after_dot(alloc, name, rest, limits);
    }
    read_after_target(alloc, Target { name, index: None }, tokens, limits)
}

// What is assigned to.
#[tactic(auto, using(ooo_grammar::specs::Steps::steps), unfolding(ooo_grammar::specs::Statements::target))]
fn read_target<'a>(alloc: Global, tokens: &'a [Symbol<'a>], limits: Limits) -> Read<'a, Target>
    ensures { Gives (reads_at limits target tokens.now) result }
{
    let (name, rest) = got!(read_word(alloc, tokens, limits));
    if !starts(rest, Terminal::OpenBracket) {
        return Ok((Target { name, index: None }, rest));
    }
    let (at, rest) = keeping!(name; read_index(alloc, rest, limits));
    let index = Some(at);
    Ok((Target { name, index }, rest))
}

// `++` or `--` before a target.
#[tactic(auto, using(ooo_grammar::specs::Steps::steps))]
fn read_step_before<'a>(
    alloc: Global,
    sign: Terminal,
    op: StepOp,
    tokens: &'a [Symbol<'a>],
    limits: Limits,
) -> Read<'a, Simple>
    ensures { Gives (reads_at limits (step_before sign op) tokens.now) result }
{
    let (head, rest) = got!(one(tokens, sign, limits));
    let (to, rest) = got!(read_target(alloc, rest, limits));
    Ok((Simple::StepBefore(head.position, op, to), rest))
}

// A wait.
#[tactic(auto, using(ooo_grammar::specs::Steps::steps))]
fn read_wait<'a>(alloc: Global, tokens: &'a [Symbol<'a>], limits: Limits) -> Read<'a, Simple>
    ensures { Gives (reads_at limits wait_call tokens.now) result }
{
    let (head, rest) = got!(one(tokens, Terminal::Wait, limits));
    let (awaited, rest) = got!(read_awaiting(alloc, rest, limits));
    Ok((Simple::Wait(head.position, awaited), rest))
}

// A trigger of a method.
#[tactic(auto, using(ooo_grammar::specs::Steps::steps))]
fn read_next_trigger<'a>(
    alloc: Global,
    tokens: &'a [Symbol<'a>],
    limits: Limits,
) -> Read<'a, Simple>
    ensures { Gives (reads_at limits next_trigger_call tokens.now) result }
{
    let (head, rest) = got!(one(tokens, Terminal::NextTrigger, limits));
    let (awaited, rest) = got!(read_awaiting(alloc, rest, limits));
    Ok((Simple::NextTrigger(head.position, awaited), rest))
}

// A call of `sc_stop`.
#[tactic(auto, using(ooo_grammar::specs::Steps::steps))]
fn read_stop<'a>(tokens: &'a [Symbol<'a>], limits: Limits) -> Read<'a, Simple>
    ensures { Gives (reads_at limits stop_call tokens.now) result }
{
    let (head, rest) = got!(one(tokens, Terminal::ScStop, limits));
    let (_, rest) = got!(one(rest, Terminal::Open, limits));
    followed(Simple::Stop(head.position), Terminal::Close, rest, limits)
}

// A statement without its `;`.
#[tactic(auto, using(ooo_grammar::specs::Steps::steps), unfolding(ooo_grammar::specs::Statements::simple))]
pub(crate) fn read_simple<'a>(
    alloc: Global,
    tokens: &'a [Symbol<'a>],
    limits: Limits,
) -> Read<'a, Simple>
    ensures { Gives (reads_at limits simple tokens.now) result }
{
    if begins_with_word(tokens) {
        let (name, rest) = got!(read_word(alloc, tokens, limits));
        return read_after_first_word(alloc, name, rest, limits);
    }
    if starts(tokens, Terminal::PlusPlus) {
        return read_step_before(alloc, Terminal::PlusPlus, StepOp::Up, tokens, limits);
    }
    if starts(tokens, Terminal::MinusMinus) {
        return read_step_before(alloc, Terminal::MinusMinus, StepOp::Down, tokens, limits);
    }
    if starts(tokens, Terminal::Wait) {
        return read_wait(alloc, tokens, limits);
    }
    if starts(tokens, Terminal::NextTrigger) {
        return read_next_trigger(alloc, tokens, limits);
    }
    if starts(tokens, Terminal::ScStop) {
        return read_stop(tokens, limits);
    }
    read_print(alloc, tokens, limits)
}

/// Reads a statement without its `;` that holds no other, onto the heap.
#[tactic(auto, using(ooo_grammar::specs::Steps::steps))]
pub fn read_boxed_simple<'a>(
    alloc: Global,
    tokens: &'a [Symbol<'a>],
    limits: Limits,
) -> Read<'a, Boxed<Simple>>
    ensures { Gives (reads_at limits simple tokens.now) result }
{
    let (found, rest) = got!(read_simple(alloc, tokens, limits));
    on_heap(alloc, found, rest)
}
