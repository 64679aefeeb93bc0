ghost use Rattle.ooo_grammar.specs.Codes.{deeper};
ghost use Rattle.ooo_grammar.specs.Gives.{Gives, reads_at};
ghost use Rattle.ooo_grammar.specs.Members.{name_and_params, param, params};
ghost use Rattle.ooo_simple.specs.Loops.{next_item};
ghost use Rattle.ooo_declarations.specs.Parts.{further_params, listed_params, named_params, some_params};

use ooo_exprs::begun;
use ooo_grammar::{Limits, Read, begins_with_type, one, read_type, read_word, starts};
use ooo_simple::{followed, none_yet, with};
use ooo_syntax::{Param, Symbol, Terminal, Word};
use sqlite_items::Items;
use std::alloc::Global;

// A parameter.
#[tactic(auto, using(ooo_grammar::specs::Steps::steps), unfolding(ooo_grammar::specs::Members::param))]
fn read_param<'a>(alloc: Global, tokens: &'a [Symbol<'a>], limits: Limits) -> Read<'a, Param>
    ensures { Gives (reads_at limits param tokens.now) result }
{
    let (form, rest) = got!(read_type(tokens, limits));
    let (name, rest) = got!(read_word(alloc, rest, limits));
    Ok((Param { form, name }, rest))
}

// A comma and one more parameter.
#[tactic(auto, using(ooo_grammar::specs::Steps::steps))]
fn read_next_param<'a>(
    alloc: Global,
    list: Items<Param>,
    tokens: &'a [Symbol<'a>],
    limits: Limits,
) -> Read<'a, Items<Param>>
    ensures { Gives (next_item limits Terminal.Comma param list tokens.now) result }
{
    let (_, rest) = keeping!(list; one(tokens, Terminal::Comma, limits));
    let (more, rest) = keeping!(list; read_param(alloc, rest, limits));
    Ok((with(list, more)?, rest))
}

// Parameters.
#[tactic(auto, using(ooo_grammar::specs::Steps::steps))]
fn read_some_params<'a>(
    alloc: Global,
    tokens: &'a [Symbol<'a>],
    limits: Limits,
) -> Read<'a, Items<Param>>
    ensures { Gives (reads_at limits some_params tokens.now) result }
{
    let (first, mut rest) = got!(read_param(alloc, tokens, limits));
    let mut list = begun(alloc, first)?;
    'turns: for _turn in 0..rest.len() {
        if !starts(rest, Terminal::Comma) {
            return Ok((list, rest));
        }
        let (more, after) = got!(read_next_param(alloc, list, rest, limits));
        list = more;
        rest = after;
    }
    Ok((list, rest))
}

// Parameters or none.
#[tactic(auto, using(ooo_grammar::specs::Steps::steps))]
fn read_listed_params<'a>(
    alloc: Global,
    tokens: &'a [Symbol<'a>],
    limits: Limits,
) -> Read<'a, Items<Param>>
    ensures { Gives (reads_at limits listed_params tokens.now) result }
{
    if begins_with_type(tokens) {
        return read_some_params(alloc, tokens, limits);
    }
    Ok((Items::new(alloc), tokens))
}

// The same, one level deeper.
#[tactic(auto, using(ooo_grammar::specs::Steps::deeper_gives))]
fn read_listed_params_inside<'a>(
    alloc: Global,
    tokens: &'a [Symbol<'a>],
    limits: Limits,
) -> Read<'a, Items<Param>>
    ensures { Gives (reads_at limits (deeper listed_params) tokens.now) result }
{
    read_listed_params(alloc, tokens, limits.inside())
}

/// Reads parameters in parentheses.
#[tactic(auto, using(ooo_grammar::specs::Steps::steps), unfolding(ooo_grammar::specs::Members::params))]
pub fn read_params<'a>(
    alloc: Global,
    tokens: &'a [Symbol<'a>],
    limits: Limits,
) -> Read<'a, Items<Param>>
    ensures { Gives (reads_at limits params tokens.now) result }
{
    let (_, rest) = got!(one(tokens, Terminal::Open, limits));
    let (list, rest) = got!(read_listed_params_inside(alloc, rest, limits));
    followed(list, Terminal::Close, rest, limits)
}

// A comma and a parameter, any number of times.
#[tactic(auto, using(ooo_grammar::specs::Steps::steps))]
fn read_further_params<'a>(
    alloc: Global,
    tokens: &'a [Symbol<'a>],
    limits: Limits,
) -> Read<'a, Items<Param>>
    ensures { Gives (reads_at limits further_params tokens.now) result }
{
    let (mut list, mut rest) = none_yet(alloc, tokens);
    'turns: for _turn in 0..rest.len() {
        if !starts(rest, Terminal::Comma) {
            return Ok((list, rest));
        }
        let (more, after) = got!(read_next_param(alloc, list, rest, limits));
        list = more;
        rest = after;
    }
    Ok((list, rest))
}

// The instance's name and the parameters.
#[tactic(auto, using(ooo_grammar::specs::Steps::steps))]
fn read_named_params<'a>(
    alloc: Global,
    tokens: &'a [Symbol<'a>],
    limits: Limits,
) -> Read<'a, (Word, Items<Param>)>
    ensures { Gives (reads_at limits named_params tokens.now) result }
{
    let (name, rest) = got!(read_word(alloc, tokens, limits));
    let (params, rest) = keeping!(name; read_further_params(alloc, rest, limits));
    Ok(((name, params), rest))
}

// The same, one level deeper.
#[tactic(auto, using(ooo_grammar::specs::Steps::deeper_gives))]
fn read_named_params_inside<'a>(
    alloc: Global,
    tokens: &'a [Symbol<'a>],
    limits: Limits,
) -> Read<'a, (Word, Items<Param>)>
    ensures { Gives (reads_at limits (deeper named_params) tokens.now) result }
{
    read_named_params(alloc, tokens, limits.inside())
}

// The instance's name and the parameters, after `sc_module_name`.
#[tactic(auto, using(ooo_grammar::specs::Steps::steps), unfolding(ooo_grammar::specs::Members::name_and_params))]
pub(crate) fn read_name_and_params<'a>(
    alloc: Global,
    tokens: &'a [Symbol<'a>],
    limits: Limits,
) -> Read<'a, (Word, Items<Param>)>
    ensures { Gives (reads_at limits name_and_params tokens.now) result }
{
    let (named, rest) = got!(read_named_params_inside(alloc, tokens, limits));
    followed(named, Terminal::Close, rest, limits)
}
