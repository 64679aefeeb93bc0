ghost use Rattle.std.specs.Prelude.{refl};
ghost use Rattle.ooo_grammar.specs.Combinators.{separated};
ghost use Rattle.ooo_grammar.specs.Statements.{item, print};
ghost use Rattle.ooo_grammar.specs.Gives.{Gives, reads_at};
ghost use Rattle.ooo_simple.specs.Loops.{next_item};

use crate::keeping::followed;
use crate::lists::added;
use ooo_exprs::{begun, read_sum};
use ooo_grammar::{Limits, Read, one, read_text, starts};
use ooo_syntax::{PrintItem, Simple, Symbol, Terminal};
use sqlite_items::Items;
use std::alloc::Global;

// One item of a print.
#[tactic(auto, using(ooo_grammar::specs::Steps::steps), unfolding(ooo_grammar::specs::Statements::item))]
fn read_print_item<'a>(
    alloc: Global,
    tokens: &'a [Symbol<'a>],
    limits: Limits,
) -> Read<'a, PrintItem>
    ensures { Gives (reads_at limits item tokens.now) result }
{
    if starts(tokens, Terminal::Text) {
        let (text, rest) = got!(read_text(alloc, tokens, limits));
        return Ok((PrintItem::Text(text), rest));
    }
    if starts(tokens, Terminal::Endl) {
        let (head, rest) = got!(one(tokens, Terminal::Endl, limits));
        return Ok((PrintItem::Line(head.position), rest));
    }
    if starts(tokens, Terminal::ScTimeStamp) {
        let (head, rest) = got!(one(tokens, Terminal::ScTimeStamp, limits));
        let (_, rest) = got!(one(rest, Terminal::Open, limits));
        return followed(
            PrintItem::TimeStamp(head.position),
            Terminal::Close,
            rest,
            limits,
        );
    }
    let (value, rest) = got!(read_sum(alloc, tokens, limits));
    Ok((PrintItem::Value(value), rest))
}

// `<<` and one more item.
#[tactic(auto, using(ooo_grammar::specs::Steps::steps))]
fn read_next_item<'a>(
    alloc: Global,
    list: Items<PrintItem>,
    tokens: &'a [Symbol<'a>],
    limits: Limits,
) -> Read<'a, Items<PrintItem>>
    ensures { Gives (next_item limits Terminal.ShiftLeft item list tokens.now) result }
{
    let (_, rest) = keeping!(list; one(tokens, Terminal::ShiftLeft, limits));
    let (more, rest) = keeping!(list; read_print_item(alloc, rest, limits));
    added(list, more, rest)
}

// Items and `<<` between them.
#[tactic(auto, using(ooo_grammar::specs::Steps::steps))]
fn read_items<'a>(
    alloc: Global,
    tokens: &'a [Symbol<'a>],
    limits: Limits,
) -> Read<'a, Items<PrintItem>>
    ensures { Gives (reads_at limits (separated Terminal.ShiftLeft item refl) tokens.now) result }
{
    let (first, mut rest) = got!(read_print_item(alloc, tokens, limits));
    let mut list = begun(alloc, first)?;
    'turns: for _turn in 0..rest.len() {
        if !starts(rest, Terminal::ShiftLeft) {
            return Ok((list, rest));
        }
        let (more, after) = got!(read_next_item(alloc, list, rest, limits));
        list = more;
        rest = after;
    }
    Ok((list, rest))
}

// `cout` and its items.
#[tactic(auto, using(ooo_grammar::specs::Steps::steps), unfolding(ooo_grammar::specs::Statements::print))]
pub(crate) fn read_print<'a>(
    alloc: Global,
    tokens: &'a [Symbol<'a>],
    limits: Limits,
) -> Read<'a, Simple>
    ensures { Gives (reads_at limits print tokens.now) result }
{
    let (head, rest) = got!(one(tokens, Terminal::Cout, limits));
    let (_, rest) = got!(one(rest, Terminal::ShiftLeft, limits));
    let (list, rest) = got!(read_items(alloc, rest, limits));
    Ok((Simple::Print(head.position, list), rest))
}
