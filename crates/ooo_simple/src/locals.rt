ghost use Rattle.std.specs.Prelude.{refl};
ghost use Rattle.ooo_grammar.specs.Combinators.{separated};
ghost use Rattle.ooo_grammar.specs.Statements.{declarator, local};
ghost use Rattle.ooo_grammar.specs.Gives.{Gives, reads_at};
ghost use Rattle.ooo_simple.specs.Loops.{next_item};

use crate::keeping::on_heap;
use crate::lists::added;
use ooo_exprs::{begun, read_value};
use ooo_grammar::{Limits, Read, one, read_type, read_word, starts};
use ooo_syntax::{Declarator, Local, Symbol, Terminal};
use sqlite_items::{Boxed, Items};
use std::alloc::Global;

// A local's name and its initial value or nothing.
#[tactic(auto, using(ooo_grammar::specs::Steps::steps), unfolding(ooo_grammar::specs::Statements::declarator))]
fn read_declarator<'a>(
    alloc: Global,
    tokens: &'a [Symbol<'a>],
    limits: Limits,
) -> Read<'a, Declarator>
    ensures { Gives (reads_at limits declarator tokens.now) result }
{
    let (name, rest) = got!(read_word(alloc, tokens, limits));
    if !starts(rest, Terminal::Assign) {
        return Ok((Declarator { name, value: None }, rest));
    }
    let (_, rest) = keeping!(name; one(rest, Terminal::Assign, limits));
    let (value, rest) = keeping!(name; read_value(alloc, rest, limits));
    Ok((
        Declarator {
            name,
            value: Some(value),
        },
        rest,
    ))
}

// A comma and one more name.
#[tactic(auto, using(ooo_grammar::specs::Steps::steps))]
fn read_next_declarator<'a>(
    alloc: Global,
    list: Items<Declarator>,
    tokens: &'a [Symbol<'a>],
    limits: Limits,
) -> Read<'a, Items<Declarator>>
    ensures { Gives (next_item limits Terminal.Comma declarator list tokens.now) result }
{
    let (_, rest) = keeping!(list; one(tokens, Terminal::Comma, limits));
    let (more, rest) = keeping!(list; read_declarator(alloc, rest, limits));
    added(list, more, rest)
}

// Names and commas between them.
#[tactic(auto, using(ooo_grammar::specs::Steps::steps))]
fn read_declarators<'a>(
    alloc: Global,
    tokens: &'a [Symbol<'a>],
    limits: Limits,
) -> Read<'a, Items<Declarator>>
    ensures { Gives (reads_at limits (separated Terminal.Comma declarator refl) tokens.now) result }
{
    let (first, mut rest) = got!(read_declarator(alloc, tokens, limits));
    let mut list = begun(alloc, first)?;
    'turns: for _turn in 0..rest.len() {
        if !starts(rest, Terminal::Comma) {
            return Ok((list, rest));
        }
        let (more, after) = got!(read_next_declarator(alloc, list, rest, limits));
        list = more;
        rest = after;
    }
    Ok((list, rest))
}

// A type and the names of locals.
#[tactic(auto, using(ooo_grammar::specs::Steps::steps), unfolding(ooo_grammar::specs::Statements::local))]
pub(crate) fn read_local<'a>(
    alloc: Global,
    tokens: &'a [Symbol<'a>],
    limits: Limits,
) -> Read<'a, Local>
    ensures { Gives (reads_at limits local tokens.now) result }
{
    let (form, rest) = got!(read_type(tokens, limits));
    let (names, rest) = got!(read_declarators(alloc, rest, limits));
    Ok((Local { form, names }, rest))
}

/// Reads locals onto the heap.
#[tactic(auto, using(ooo_grammar::specs::Steps::steps))]
pub fn read_boxed_local<'a>(
    alloc: Global,
    tokens: &'a [Symbol<'a>],
    limits: Limits,
) -> Read<'a, Boxed<Local>>
    ensures { Gives (reads_at limits local tokens.now) result }
{
    let (locals, rest) = got!(read_local(alloc, tokens, limits));
    on_heap(alloc, locals, rest)
}
