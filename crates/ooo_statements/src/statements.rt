ghost use Rattle.std.specs.Prelude.{◌≡◌, ◌∷◌, ◌++◌, [], IfOk};
ghost use Rattle.ooo_grammar.specs.Codes.{nothing};
ghost use Rattle.ooo_grammar.specs.Names.{ends_open};
ghost use Rattle.ooo_grammar.specs.Statements.{after_condition, after_do, after_while, block_stat, body, break_stat, continue_stat, do_stat, else_part, empty_stat, for_body, for_stat, if_stat, inner_stat, local_stat, maybe_other, other_stat, return_stat, simple_stat, stat, stats, while_stat};
ghost use Rattle.ooo_grammar.specs.Gives.{Gives, reads_at};
ghost use Rattle.ooo_statements.specs.Loops.{next_stat};
ghost use Rattle.ooo_statements.specs.Parts.{closed_do};

use crate::signs::begins_with_statement;
use ooo_grammar::{Limits, Read, ReadError, begins_with_type, one, one_inside, starts};
use ooo_lexer::Position;
use ooo_simple::{
    begins_with_simple, followed, read_boxed_local, read_boxed_simple, read_condition,
    read_ended_value, read_for_first, read_for_step, read_for_test, read_parens, with,
};
use ooo_syntax::{Expr, ForStart, Simple, Stat, Symbol, Terminal};
use sqlite_items::{Boxed, Items};
use std::alloc::{AllocError, Global};

// Whether an `else` could still be read as part of the statement.
#[tactic(auto, unfolding(ooo_grammar::specs::Names::ends_open))]
fn is_open(of: &Stat) -> bool
    ensures { result ≡ ends_open of.now }
{
    match of {
        Stat::If(_, _, _, None) => true,
        Stat::If(_, _, _, Some(other)) => is_open(other.get()),
        Stat::While(_, _, inner) => is_open(inner.get()),
        Stat::For(_, _, _, _, inner) => is_open(inner.get()),
        _ => false,
    }
}

// ---- statements that hold no other

// `;`
#[tactic(auto, using(ooo_grammar::specs::Steps::steps), unfolding(ooo_grammar::specs::Statements::empty_stat))]
fn read_empty<'a>(tokens: &'a [Symbol<'a>], limits: Limits) -> Read<'a, Stat>
    ensures { Gives (reads_at limits empty_stat tokens.now) result }
{
    let (head, rest) = got!(one(tokens, Terminal::Semicolon, limits));
    Ok((Stat::Empty(head.position), rest))
}

// `break ;`
#[tactic(auto, using(ooo_grammar::specs::Steps::steps), unfolding(ooo_grammar::specs::Statements::break_stat))]
fn read_break<'a>(tokens: &'a [Symbol<'a>], limits: Limits) -> Read<'a, Stat>
    ensures { Gives (reads_at limits break_stat tokens.now) result }
{
    let (head, rest) = got!(one(tokens, Terminal::Break, limits));
    let (_, rest) = got!(one(rest, Terminal::Semicolon, limits));
    Ok((Stat::Break(head.position), rest))
}

// `continue ;`
#[tactic(auto, using(ooo_grammar::specs::Steps::steps), unfolding(ooo_grammar::specs::Statements::continue_stat))]
fn read_continue<'a>(tokens: &'a [Symbol<'a>], limits: Limits) -> Read<'a, Stat>
    ensures { Gives (reads_at limits continue_stat tokens.now) result }
{
    let (head, rest) = got!(one(tokens, Terminal::Continue, limits));
    let (_, rest) = got!(one(rest, Terminal::Semicolon, limits));
    Ok((Stat::Continue(head.position), rest))
}

// `return`, an expression or nothing, and `;`.
#[tactic(auto, using(ooo_grammar::specs::Steps::steps), unfolding(ooo_grammar::specs::Statements::return_stat))]
fn read_return<'a>(alloc: Global, tokens: &'a [Symbol<'a>], limits: Limits) -> Read<'a, Stat>
    ensures { Gives (reads_at limits return_stat tokens.now) result }
{
    let (head, rest) = got!(one(tokens, Terminal::Return, limits));
    let (found, rest) = got!(read_ended_value(alloc, rest, limits));
    Ok((Stat::Return(head.position, found), rest))
}

// Locals and `;`.
#[tactic(auto, using(ooo_grammar::specs::Steps::steps), unfolding(ooo_grammar::specs::Statements::local_stat))]
fn read_local_stat<'a>(alloc: Global, tokens: &'a [Symbol<'a>], limits: Limits) -> Read<'a, Stat>
    ensures { Gives (reads_at limits local_stat tokens.now) result }
{
    let (locals, rest) = got!(read_boxed_local(alloc, tokens, limits));
    let (locals, rest) = got!(followed(locals, Terminal::Semicolon, rest, limits));
    Ok((Stat::Local(locals), rest))
}

// A statement that begins with a word or a sign, and `;`.
#[tactic(auto, using(ooo_grammar::specs::Steps::steps), unfolding(ooo_grammar::specs::Statements::simple_stat))]
fn read_simple_stat<'a>(alloc: Global, tokens: &'a [Symbol<'a>], limits: Limits) -> Read<'a, Stat>
    ensures { Gives (reads_at limits simple_stat tokens.now) result }
{
    let (found, rest) = got!(read_boxed_simple(alloc, tokens, limits));
    let (found, rest) = got!(followed(found, Terminal::Semicolon, rest, limits));
    Ok((Stat::Simple(found), rest))
}

// ---- the test of a `do`

fn boxed(alloc: Global, inner: Stat) -> Result<Boxed<Stat>, AllocError>
    ensures { IfOk result (λ s. s ≡ inner) }
{
    Boxed::new(alloc, inner)
}

fn do_of(alloc: Global, at: Position, inner: Stat, test: Boxed<Expr>) -> Result<Stat, AllocError>
    ensures { IfOk result (λ s. s ≡ Stat.Do at inner test) }
{
    let inner = keeping!(test; boxed(alloc, inner));
    Ok(Stat::Do(at, inner, test))
}

// `while`, an expression in parentheses and `;`, after the statement of a `do`.
#[tactic(auto, using(ooo_grammar::specs::Steps::steps), unfolding(ooo_grammar::specs::Statements::parens))]
fn read_closed_do<'a>(
    alloc: Global,
    at: Position,
    inner: Stat,
    tokens: &'a [Symbol<'a>],
    limits: Limits,
) -> Read<'a, Stat>
    ensures { Gives (reads_at limits (closed_do at inner) tokens.now) result }
{
    let (_, rest) = keeping!(inner; one(tokens, Terminal::While, limits));
    let (test, rest) = keeping!(inner; read_parens(alloc, rest, limits));
    let (test, rest) = keeping!(inner; followed(test, Terminal::Semicolon, rest, limits));
    Ok((do_of(alloc, at, inner, test)?, rest))
}

// The same, where it stands inside the `do`.
#[tactic(auto, using(ooo_grammar::specs::Steps::deeper_gives), unfolding(ooo_grammar::specs::Statements::after_do))]
fn read_after_do<'a>(
    alloc: Global,
    at: Position,
    inner: Stat,
    tokens: &'a [Symbol<'a>],
    limits: Limits,
) -> Read<'a, Stat>
    ensures { Gives (reads_at limits (after_do at inner) tokens.now) result }
{
    read_closed_do(alloc, at, inner, tokens, limits.inside())
}

// ---- statements that hold others

// A statement inside another.
#[cycle(statement)]
#[tactic(auto, using(ooo_grammar::specs::Steps::steps), unfolding(ooo_grammar::specs::Statements::inner_stat))]
fn read_inner_stat<'a>(alloc: Global, tokens: &'a [Symbol<'a>], limits: Limits) -> Read<'a, Stat>
    ensures { Gives (reads_at limits inner_stat tokens.now) result }
{
    if limits.levels > 0 {
        return read_stat(alloc, tokens, limits.inside());
    }
    if begins_with_statement(tokens) {
        return Err(ReadError::TooDeep(tokens.len()));
    }
    Err(ReadError::Syntax(tokens.len()))
}

// A list of one statement, which most lists of a block are: it has no spare room.
fn alone(alloc: Global, one: Stat) -> Result<Items<Stat>, AllocError>
    ensures { IfOk result (λ all. all ≡ one ∷ []) }
{
    let items = vec![in alloc; one]?;
    Ok(Items::from_vec(items))
}

// A list with one more statement.
fn with_stat(alloc: Global, list: Items<Stat>, more: Stat) -> Result<Items<Stat>, AllocError>
    ensures { IfOk result (λ all. all ≡ list ++ more ∷ []) }
{
    if list.is_empty() {
        return alone(alloc, more);
    }
    with(list, more)
}

// One more statement.
#[cycle(statement)]
#[tactic(auto, using(ooo_grammar::specs::Steps::steps))]
fn read_next_stat<'a>(
    alloc: Global,
    list: Items<Stat>,
    tokens: &'a [Symbol<'a>],
    limits: Limits,
) -> Read<'a, Items<Stat>>
    ensures { Gives (next_stat limits list tokens.now) result }
{
    let (more, rest) = keeping!(list; read_inner_stat(alloc, tokens, limits));
    Ok((with_stat(alloc, list, more)?, rest))
}

// No statement yet.
fn read_none<'a>(alloc: Global, tokens: &'a [Symbol<'a>], limits: Limits) -> Read<'a, Items<Stat>>
    ensures { Gives (reads_at limits (nothing []) tokens.now) result }
{
    Ok((Items::new(alloc), tokens))
}

// Statements.
#[cycle(statement)]
#[tactic(auto, using(ooo_grammar::specs::Steps::steps), unfolding(ooo_grammar::specs::Statements::stats))]
fn read_stats<'a>(alloc: Global, tokens: &'a [Symbol<'a>], limits: Limits) -> Read<'a, Items<Stat>>
    ensures { Gives (reads_at limits stats tokens.now) result }
{
    let (mut list, mut rest) = read_none(alloc, tokens, limits)?;
    'turns: for _turn in 0..rest.len() {
        if !begins_with_statement(rest) {
            return Ok((list, rest));
        }
        let (more, after) = read_next_stat(alloc, list, rest, limits)?;
        list = more;
        rest = after;
    }
    Ok((list, rest))
}

// Statements in braces, as a statement.
#[cycle(statement)]
#[tactic(auto, using(ooo_grammar::specs::Steps::steps), unfolding(ooo_grammar::specs::Statements::block_stat))]
fn read_block<'a>(alloc: Global, tokens: &'a [Symbol<'a>], limits: Limits) -> Read<'a, Stat>
    ensures { Gives (reads_at limits block_stat tokens.now) result }
{
    let (head, rest) = got!(one(tokens, Terminal::OpenBrace, limits));
    let (list, rest) = got!(read_stats(alloc, rest, limits));
    let (list, rest) = got!(followed(list, Terminal::CloseBrace, rest, limits));
    Ok((Stat::Block(head.position, list), rest))
}

// `else` and its statement.
#[cycle(statement)]
#[tactic(auto, using(ooo_grammar::specs::Steps::steps), unfolding(ooo_grammar::specs::Statements::other_stat))]
fn read_other<'a>(alloc: Global, tokens: &'a [Symbol<'a>], limits: Limits) -> Read<'a, Stat>
    ensures { Gives (reads_at limits other_stat tokens.now) result }
{
    let (_, rest) = got!(one_inside(tokens, Terminal::Else, limits));
    read_inner_stat(alloc, rest, limits)
}

// The same or nothing.
#[cycle(statement)]
#[tactic(auto, using(ooo_grammar::specs::Steps::steps), unfolding(ooo_grammar::specs::Statements::maybe_other))]
fn read_maybe_other<'a>(
    alloc: Global,
    tokens: &'a [Symbol<'a>],
    limits: Limits,
) -> Read<'a, Option<Boxed<Stat>>>
    ensures { Gives (reads_at limits maybe_other tokens.now) result }
{
    if !starts(tokens, Terminal::Else) {
        return Ok((None, tokens));
    }
    let (other, rest) = got!(read_other(alloc, tokens, limits));
    Ok((Some(boxed(alloc, other)?), rest))
}

// What may follow the first statement of an `if`, to which an `else` could still belong or not.
#[cycle(statement)]
#[tactic(auto, using(crate::proofs::Elses::else_open, crate::proofs::Elses::else_gives))]
fn read_else_part<'a>(
    alloc: Global,
    dangling: bool,
    tokens: &'a [Symbol<'a>],
    limits: Limits,
) -> Read<'a, Option<Boxed<Stat>>>
    ensures { Gives (reads_at limits (else_part dangling) tokens.now) result }
{
    if dangling {
        return Ok((None, tokens));
    }
    read_maybe_other(alloc, tokens, limits)
}

fn if_of(
    alloc: Global,
    at: Position,
    test: Boxed<Expr>,
    yes: Stat,
    no: Option<Boxed<Stat>>,
) -> Result<Stat, AllocError>
    ensures { IfOk result (λ s. s ≡ Stat.If at test yes no) }
{
    let yes = keeping!(test, no; boxed(alloc, yes));
    Ok(Stat::If(at, test, yes, no))
}

// The statement of an `if` and its `else`, after the condition.
#[cycle(statement)]
#[tactic(auto, using(ooo_grammar::specs::Steps::steps), unfolding(ooo_grammar::specs::Statements::after_condition))]
fn read_after_condition<'a>(
    alloc: Global,
    at: Position,
    test: Boxed<Expr>,
    tokens: &'a [Symbol<'a>],
    limits: Limits,
) -> Read<'a, Stat>
    ensures { Gives (reads_at limits (after_condition at test) tokens.now) result }
{
    let (yes, rest) = keeping!(test; read_inner_stat(alloc, tokens, limits));
    let dangling = is_open(&yes);
    let (no, rest) = keeping!(test, yes; read_else_part(alloc, dangling, rest, limits));
    Ok((if_of(alloc, at, test, yes, no)?, rest))
}

// `if`, its condition, its statement and its `else`.
#[cycle(statement)]
#[tactic(auto, using(ooo_grammar::specs::Steps::steps), unfolding(ooo_grammar::specs::Statements::if_stat))]
fn read_if<'a>(alloc: Global, tokens: &'a [Symbol<'a>], limits: Limits) -> Read<'a, Stat>
    ensures { Gives (reads_at limits if_stat tokens.now) result }
{
    let (head, rest) = got!(one(tokens, Terminal::If, limits));
    let (test, rest) = got!(read_condition(alloc, rest, limits));
    read_after_condition(alloc, head.position, test, rest, limits)
}

fn while_of(alloc: Global, at: Position, test: Boxed<Expr>, inner: Stat) -> Result<Stat, AllocError>
    ensures { IfOk result (λ s. s ≡ Stat.While at test inner) }
{
    let inner = keeping!(test; boxed(alloc, inner));
    Ok(Stat::While(at, test, inner))
}

// The statement of a `while`.
#[cycle(statement)]
#[tactic(auto, using(ooo_grammar::specs::Steps::steps), unfolding(ooo_grammar::specs::Statements::after_while))]
fn read_after_while<'a>(
    alloc: Global,
    at: Position,
    test: Boxed<Expr>,
    tokens: &'a [Symbol<'a>],
    limits: Limits,
) -> Read<'a, Stat>
    ensures { Gives (reads_at limits (after_while at test) tokens.now) result }
{
    let (inner, rest) = keeping!(test; read_inner_stat(alloc, tokens, limits));
    Ok((while_of(alloc, at, test, inner)?, rest))
}

// `while`, its condition and its statement.
#[cycle(statement)]
#[tactic(auto, using(ooo_grammar::specs::Steps::steps), unfolding(ooo_grammar::specs::Statements::while_stat))]
fn read_while<'a>(alloc: Global, tokens: &'a [Symbol<'a>], limits: Limits) -> Read<'a, Stat>
    ensures { Gives (reads_at limits while_stat tokens.now) result }
{
    let (head, rest) = got!(one(tokens, Terminal::While, limits));
    let (test, rest) = got!(read_condition(alloc, rest, limits));
    read_after_while(alloc, head.position, test, rest, limits)
}

// `do`, its statement and its test.
#[cycle(statement)]
#[tactic(auto, using(ooo_grammar::specs::Steps::steps), unfolding(ooo_grammar::specs::Statements::do_stat))]
fn read_do<'a>(alloc: Global, tokens: &'a [Symbol<'a>], limits: Limits) -> Read<'a, Stat>
    ensures { Gives (reads_at limits do_stat tokens.now) result }
{
    let (head, rest) = got!(one(tokens, Terminal::Do, limits));
    let (inner, rest) = got!(read_inner_stat(alloc, rest, limits));
    read_after_do(alloc, head.position, inner, rest, limits)
}

// The statement of a `for`.
#[cycle(statement)]
#[tactic(auto, using(ooo_grammar::specs::Steps::steps), unfolding(ooo_grammar::specs::Statements::for_body))]
fn read_for_body<'a>(
    alloc: Global,
    at: Position,
    parts: (
        Option<Boxed<ForStart>>,
        Option<Boxed<Expr>>,
        Option<Boxed<Simple>>,
    ),
    tokens: &'a [Symbol<'a>],
    limits: Limits,
) -> Read<'a, Stat>
    ensures { Gives (reads_at limits (for_body at parts.0 parts.1 parts.2) tokens.now) result }
{
    let (inner, rest) = keeping!(parts; read_inner_stat(alloc, tokens, limits));
    match boxed(alloc, inner) {
        Ok(inner) => {
            let (start, test, step) = parts;
            Ok((Stat::For(at, start, test, step, inner), rest))
        }
        Err(_) => {
            drop(parts);
            Err(ReadError::OutOfMemory)
        }
    }
}

// `for`, its three parts and its statement.
#[cycle(statement)]
#[tactic(auto, using(ooo_grammar::specs::Steps::steps), unfolding(ooo_grammar::specs::Statements::for_stat))]
fn read_for<'a>(alloc: Global, tokens: &'a [Symbol<'a>], limits: Limits) -> Read<'a, Stat>
    ensures { Gives (reads_at limits for_stat tokens.now) result }
{
    let (head, rest) = got!(one(tokens, Terminal::For, limits));
    let (start, rest) = got!(read_for_first(alloc, rest, limits));
    let (test, rest) = keeping!(start; read_for_test(alloc, rest, limits));
    let (step, rest) = keeping!(start, test; read_for_step(alloc, rest, limits));
    read_for_body(alloc, head.position, (start, test, step), rest, limits)
}

// A statement.
#[cycle(statement)]
#[tactic(auto, using(ooo_grammar::specs::Steps::steps), unfolding(ooo_grammar::specs::Statements::stat))]
fn read_stat<'a>(alloc: Global, tokens: &'a [Symbol<'a>], limits: Limits) -> Read<'a, Stat>
    ensures { Gives (reads_at limits stat tokens.now) result }
{
    if starts(tokens, Terminal::OpenBrace) {
        return read_block(alloc, tokens, limits);
    }
    if starts(tokens, Terminal::Semicolon) {
        return read_empty(tokens, limits);
    }
    if starts(tokens, Terminal::Break) {
        return read_break(tokens, limits);
    }
    if starts(tokens, Terminal::Continue) {
        return read_continue(tokens, limits);
    }
    if starts(tokens, Terminal::Return) {
        return read_return(alloc, tokens, limits);
    }
    if begins_with_type(tokens) {
        return read_local_stat(alloc, tokens, limits);
    }
    if begins_with_simple(tokens) {
        return read_simple_stat(alloc, tokens, limits);
    }
    if starts(tokens, Terminal::If) {
        return read_if(alloc, tokens, limits);
    }
    if starts(tokens, Terminal::While) {
        return read_while(alloc, tokens, limits);
    }
    if starts(tokens, Terminal::Do) {
        return read_do(alloc, tokens, limits);
    }
    read_for(alloc, tokens, limits)
}

/// Reads a block: statements in braces.
#[tactic(auto, using(ooo_grammar::specs::Steps::steps), unfolding(ooo_grammar::specs::Statements::body))]
pub fn read_body<'a>(
    alloc: Global,
    tokens: &'a [Symbol<'a>],
    limits: Limits,
) -> Read<'a, Items<Stat>>
    ensures { Gives (reads_at limits body tokens.now) result }
{
    let (_, rest) = got!(one(tokens, Terminal::OpenBrace, limits));
    let (list, rest) = got!(read_stats(alloc, rest, limits));
    followed(list, Terminal::CloseBrace, rest, limits)
}
