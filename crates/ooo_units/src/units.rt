ghost use Rattle.ooo_grammar.specs.Codes.{deeper};
ghost use Rattle.ooo_grammar.specs.Combinators.{table};
ghost use Rattle.ooo_grammar.specs.Gives.{Gives, reads_at};
ghost use Rattle.ooo_grammar.specs.Units.{library_table, main, main_body, main_count, main_parts, main_values, returned, start, start_tail, unit, unit_item, using_form};
ghost use Rattle.ooo_declarations.specs.Loops.{one_more};
ghost use Rattle.ooo_units.specs.Parts.{array_end, array_values, count_word, maybe_returned, maybe_start, maybe_word, pointer_values, unit_items};

use crate::lists::added;
use crate::members::read_module_form;
use crate::signs::{begins_with_unit_item, library_of};
use ooo_declarations::{read_constant, read_main_entries};
use ooo_grammar::{
    Limits, Read, ReadError, begins_with_word, next, one, one_inside, read_literal, read_word,
    starts,
};
use ooo_simple::{followed, none_yet, read_boxed_timed_inside};
use ooo_syntax::{
    Library, Main, MainValues, Mark, Number, StartForm, Symbol, Terminal, Unit, UnitItem, Word,
};
use sqlite_items::Items;
use std::alloc::Global;

// A word or nothing.
#[tactic(auto, using(ooo_grammar::specs::Steps::steps))]
fn read_maybe_word<'a>(
    alloc: Global,
    tokens: &'a [Symbol<'a>],
    limits: Limits,
) -> Read<'a, Option<Word>>
    ensures { Gives (reads_at limits maybe_word tokens.now) result }
{
    if !begins_with_word(tokens) {
        return Ok((None, tokens));
    }
    let (word, rest) = got!(read_word(alloc, tokens, limits));
    Ok((Some(word), rest))
}

// The same, one level deeper.
#[tactic(auto, using(ooo_grammar::specs::Steps::deeper_gives))]
fn read_maybe_word_inside<'a>(
    alloc: Global,
    tokens: &'a [Symbol<'a>],
    limits: Limits,
) -> Read<'a, Option<Word>>
    ensures { Gives (reads_at limits (deeper maybe_word) tokens.now) result }
{
    read_maybe_word(alloc, tokens, limits.inside())
}

// The values of `sc_main`'s parameters as a pointer, from its second `*` on.
#[tactic(auto, using(ooo_grammar::specs::Steps::steps))]
fn read_pointer_values<'a>(
    alloc: Global,
    tokens: &'a [Symbol<'a>],
    limits: Limits,
) -> Read<'a, MainValues>
    ensures { Gives (reads_at limits pointer_values tokens.now) result }
{
    let (_, rest) = got!(one_inside(tokens, Terminal::Star, limits));
    let (word, rest) = got!(read_maybe_word_inside(alloc, rest, limits));
    followed(MainValues::Pointer(word), Terminal::Close, rest, limits)
}

// The brackets of an array, after its name.
#[tactic(auto, using(ooo_grammar::specs::Steps::steps))]
fn read_array_end<'a>(
    word: Option<Word>,
    tokens: &'a [Symbol<'a>],
    limits: Limits,
) -> Read<'a, MainValues>
    ensures { Gives (reads_at limits (array_end word) tokens.now) result }
{
    let (_, rest) = keeping!(word; one_inside(tokens, Terminal::OpenBracket, limits));
    let (_, rest) = keeping!(word; one_inside(rest, Terminal::CloseBracket, limits));
    followed(MainValues::Array(word), Terminal::Close, rest, limits)
}

// The values of the parameters as an array.
#[tactic(auto, using(ooo_grammar::specs::Steps::steps))]
fn read_array_values<'a>(
    alloc: Global,
    tokens: &'a [Symbol<'a>],
    limits: Limits,
) -> Read<'a, MainValues>
    ensures { Gives (reads_at limits array_values tokens.now) result }
{
    let (word, rest) = got!(read_maybe_word_inside(alloc, tokens, limits));
    read_array_end(word, rest, limits)
}

// The values of `sc_main`'s parameters.
#[tactic(auto, using(ooo_grammar::specs::Steps::steps), unfolding(ooo_grammar::specs::Units::main_values))]
fn read_main_values<'a>(
    alloc: Global,
    tokens: &'a [Symbol<'a>],
    limits: Limits,
) -> Read<'a, MainValues>
    ensures { Gives (reads_at limits main_values tokens.now) result }
{
    if starts(tokens, Terminal::Star) {
        return read_pointer_values(alloc, tokens, limits);
    }
    read_array_values(alloc, tokens, limits)
}

// The count of `sc_main`'s parameters, up to the first `*`.
#[tactic(auto, using(ooo_grammar::specs::Steps::steps))]
fn read_count_word<'a>(
    alloc: Global,
    tokens: &'a [Symbol<'a>],
    limits: Limits,
) -> Read<'a, Option<Word>>
    ensures { Gives (reads_at limits count_word tokens.now) result }
{
    let (_, rest) = got!(one(tokens, Terminal::Int, limits));
    let (word, rest) = got!(read_maybe_word(alloc, rest, limits));
    let (_, rest) = keeping!(word; one(rest, Terminal::Comma, limits));
    let (_, rest) = keeping!(word; one(rest, Terminal::Char, limits));
    followed(word, Terminal::Star, rest, limits)
}

// The same, one level deeper.
#[tactic(auto, using(ooo_grammar::specs::Steps::deeper_gives))]
fn read_count_word_inside<'a>(
    alloc: Global,
    tokens: &'a [Symbol<'a>],
    limits: Limits,
) -> Read<'a, Option<Word>>
    ensures { Gives (reads_at limits (deeper count_word) tokens.now) result }
{
    read_count_word(alloc, tokens, limits.inside())
}

// The count of `sc_main`'s parameters.
#[tactic(auto, using(ooo_grammar::specs::Steps::steps), unfolding(ooo_grammar::specs::Units::main_count))]
fn read_main_count<'a>(
    alloc: Global,
    tokens: &'a [Symbol<'a>],
    limits: Limits,
) -> Read<'a, Option<Word>>
    ensures { Gives (reads_at limits main_count tokens.now) result }
{
    let (_, rest) = got!(one(tokens, Terminal::Open, limits));
    read_count_word_inside(alloc, rest, limits)
}

// What follows `sc_start (`.
#[tactic(auto, using(ooo_grammar::specs::Steps::steps), unfolding(ooo_grammar::specs::Units::start_tail))]
fn read_start_tail<'a>(
    alloc: Global,
    first: Mark,
    tokens: &'a [Symbol<'a>],
    limits: Limits,
) -> Read<'a, StartForm>
    ensures { Gives (reads_at limits (start_tail first) tokens.now) result }
{
    if starts(tokens, Terminal::Close) {
        let form = StartForm::Open(first.position);
        return followed(form, Terminal::Close, tokens, limits);
    }
    let (time, rest) = got!(read_boxed_timed_inside(alloc, tokens, limits));
    let form = StartForm::Limited(first.position, time);
    followed(form, Terminal::Close, rest, limits)
}

// `sc_start` and its time.
#[tactic(auto, using(ooo_grammar::specs::Steps::steps), unfolding(ooo_grammar::specs::Units::start))]
fn read_start<'a>(alloc: Global, tokens: &'a [Symbol<'a>], limits: Limits) -> Read<'a, StartForm>
    ensures { Gives (reads_at limits start tokens.now) result }
{
    let (first, rest) = got!(one(tokens, Terminal::ScStart, limits));
    let (_, rest) = got!(one(rest, Terminal::Open, limits));
    let (form, rest) = got!(read_start_tail(alloc, first, rest, limits));
    followed(form, Terminal::Semicolon, rest, limits)
}

// `return` and its number.
#[tactic(auto, using(ooo_grammar::specs::Steps::steps), unfolding(ooo_grammar::specs::Units::returned))]
fn read_returned<'a>(tokens: &'a [Symbol<'a>], limits: Limits) -> Read<'a, Number>
    ensures { Gives (reads_at limits returned tokens.now) result }
{
    let (_, rest) = got!(one(tokens, Terminal::Return, limits));
    let (number, rest) = got!(read_literal(rest, limits));
    let (_, rest) = got!(one(rest, Terminal::Semicolon, limits));
    Ok((number, rest))
}

// `sc_start` and its time, or nothing.
#[tactic(auto, using(ooo_grammar::specs::Steps::steps))]
fn read_maybe_start<'a>(
    alloc: Global,
    tokens: &'a [Symbol<'a>],
    limits: Limits,
) -> Read<'a, Option<StartForm>>
    ensures { Gives (reads_at limits maybe_start tokens.now) result }
{
    if !starts(tokens, Terminal::ScStart) {
        return Ok((None, tokens));
    }
    let (form, rest) = got!(read_start(alloc, tokens, limits));
    Ok((Some(form), rest))
}

// `return` and its number, or nothing.
#[tactic(auto, using(ooo_grammar::specs::Steps::steps))]
fn read_maybe_returned<'a>(tokens: &'a [Symbol<'a>], limits: Limits) -> Read<'a, Option<Number>>
    ensures { Gives (reads_at limits maybe_returned tokens.now) result }
{
    if !starts(tokens, Terminal::Return) {
        return Ok((None, tokens));
    }
    let (number, rest) = got!(read_returned(tokens, limits));
    Ok((Some(number), rest))
}

// What stands in `sc_main`'s braces.
#[tactic(auto, using(ooo_grammar::specs::Steps::steps), unfolding(ooo_grammar::specs::Units::main_parts))]
fn read_main_parts<'a>(
    alloc: Global,
    count: Option<Word>,
    values: MainValues,
    tokens: &'a [Symbol<'a>],
    limits: Limits,
) -> Read<'a, Main>
    ensures { Gives (reads_at limits (main_parts count values) tokens.now) result }
{
    let (items, rest) = keeping!(count, values; read_main_entries(alloc, tokens, limits));
    let (start, rest) = keeping!(count, values, items; read_maybe_start(alloc, rest, limits));
    let (returned, rest) = keeping!(
        count, values, items, start;
        read_maybe_returned(rest, limits)
    );
    Ok((
        Main {
            count,
            values,
            items,
            start,
            returned,
        },
        rest,
    ))
}

// The same, one level deeper.
#[tactic(auto, using(ooo_grammar::specs::Steps::deeper_gives))]
fn read_main_parts_inside<'a>(
    alloc: Global,
    count: Option<Word>,
    values: MainValues,
    tokens: &'a [Symbol<'a>],
    limits: Limits,
) -> Read<'a, Main>
    ensures { Gives (reads_at limits (deeper (main_parts count values)) tokens.now) result }
{
    read_main_parts(alloc, count, values, tokens, limits.inside())
}

// The braces of `sc_main`.
#[tactic(auto, using(ooo_grammar::specs::Steps::steps), unfolding(ooo_grammar::specs::Units::main_body))]
fn read_main_body<'a>(
    alloc: Global,
    count: Option<Word>,
    values: MainValues,
    tokens: &'a [Symbol<'a>],
    limits: Limits,
) -> Read<'a, Main>
    ensures { Gives (reads_at limits (main_body count values) tokens.now) result }
{
    let (_, rest) = keeping!(count, values; one(tokens, Terminal::OpenBrace, limits));
    let (main, rest) = got!(read_main_parts_inside(alloc, count, values, rest, limits));
    followed(main, Terminal::CloseBrace, rest, limits)
}

// `sc_main`.
#[tactic(auto, using(ooo_grammar::specs::Steps::steps), unfolding(ooo_grammar::specs::Units::main))]
fn read_main<'a>(alloc: Global, tokens: &'a [Symbol<'a>], limits: Limits) -> Read<'a, Main>
    ensures { Gives (reads_at limits main tokens.now) result }
{
    let (_, rest) = got!(one(tokens, Terminal::Int, limits));
    let (_, rest) = got!(one(rest, Terminal::ScMain, limits));
    let (count, rest) = got!(read_main_count(alloc, rest, limits));
    let (values, rest) = keeping!(count; read_main_values(alloc, rest, limits));
    read_main_body(alloc, count, values, rest, limits)
}

// A library's namespace.
#[tactic(auto, using(ooo_grammar::specs::Steps::steps))]
fn read_library<'a>(tokens: &'a [Symbol<'a>], limits: Limits) -> Read<'a, Library>
    ensures { Gives (reads_at limits (table library_table) tokens.now) result }
{
    let Some((token, rest)) = next(tokens) else {
        return Err(ReadError::Syntax(tokens.len()));
    };
    let Some(found) = library_of(token) else {
        return Err(ReadError::Syntax(tokens.len()));
    };
    if !limits.fit(token) {
        return Err(ReadError::TooDeep(tokens.len()));
    }
    Ok((found, rest))
}

// A namespace that is used.
#[tactic(auto, using(ooo_grammar::specs::Steps::steps), unfolding(ooo_grammar::specs::Units::using_form))]
fn read_using_form<'a>(tokens: &'a [Symbol<'a>], limits: Limits) -> Read<'a, Library>
    ensures { Gives (reads_at limits using_form tokens.now) result }
{
    let (_, rest) = got!(one(tokens, Terminal::Using, limits));
    let (_, rest) = got!(one(rest, Terminal::Namespace, limits));
    let (library, rest) = got!(read_library(rest, limits));
    let (_, rest) = got!(one(rest, Terminal::Semicolon, limits));
    Ok((library, rest))
}

// A declaration of a file.
#[tactic(auto, using(ooo_grammar::specs::Steps::steps), unfolding(ooo_grammar::specs::Units::unit_item))]
fn read_unit_item<'a>(alloc: Global, tokens: &'a [Symbol<'a>], limits: Limits) -> Read<'a, UnitItem>
    ensures { Gives (reads_at limits unit_item tokens.now) result }
{
    if starts(tokens, Terminal::Using) {
        let (library, rest) = got!(read_using_form(tokens, limits));
        return Ok((UnitItem::Using(library), rest));
    }
    if starts(tokens, Terminal::ScModule) {
        let (module, rest) = got!(read_module_form(alloc, tokens, limits));
        return Ok((UnitItem::Module(module), rest));
    }
    let (constant, rest) = got!(read_constant(alloc, tokens, limits));
    Ok((UnitItem::Constant(constant), rest))
}

// One more declaration of a file.
#[tactic(auto, using(ooo_grammar::specs::Steps::steps))]
fn read_one_more_unit_item<'a>(
    alloc: Global,
    list: Items<UnitItem>,
    tokens: &'a [Symbol<'a>],
    limits: Limits,
) -> Read<'a, Items<UnitItem>>
    ensures { Gives (one_more limits unit_item list tokens.now) result }
{
    let (more, rest) = keeping!(list; read_unit_item(alloc, tokens, limits));
    added(list, more, rest)
}

// The declarations of a file.
#[tactic(auto, using(ooo_grammar::specs::Steps::steps))]
fn read_unit_items<'a>(
    alloc: Global,
    tokens: &'a [Symbol<'a>],
    limits: Limits,
) -> Read<'a, Items<UnitItem>>
    ensures { Gives (reads_at limits unit_items tokens.now) result }
{
    let (mut list, mut rest) = none_yet(alloc, tokens);
    'turns: for _turn in 0..rest.len() {
        if !begins_with_unit_item(rest) {
            return Ok((list, rest));
        }
        let (more, after) = got!(read_one_more_unit_item(alloc, list, rest, limits));
        list = more;
        rest = after;
    }
    Ok((list, rest))
}

/// Reads a whole text: its `using` lines, constants and modules in any order, and then `sc_main`.
///
/// The tokens after `sc_main` are handed back, so that the caller sees whether any stand there.
#[tactic(auto, using(ooo_grammar::specs::Steps::steps), unfolding(ooo_grammar::specs::Units::unit))]
pub fn read_unit<'a>(alloc: Global, tokens: &'a [Symbol<'a>], limits: Limits) -> Read<'a, Unit>
    ensures { Gives (reads_at limits unit tokens.now) result }
{
    let (items, rest) = got!(read_unit_items(alloc, tokens, limits));
    let (main, rest) = keeping!(items; read_main(alloc, rest, limits));
    Ok((Unit { items, main }, rest))
}
