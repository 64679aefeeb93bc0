ghost use Rattle.ooo_grammar.specs.Codes.{deeper};
ghost use Rattle.ooo_grammar.specs.Combinators.{table};
ghost use Rattle.ooo_grammar.specs.Gives.{Gives, reads_at};
ghost use Rattle.ooo_grammar.specs.Lexis.{word};
ghost use Rattle.ooo_grammar.specs.Members.{channel_table, of_type, word_in_parens, words};
ghost use Rattle.ooo_simple.specs.Loops.{next_item};
ghost use Rattle.ooo_declarations.specs.Parts.{parens_word, some_words};

use crate::signs::channel_of;
use ooo_exprs::begun;
use ooo_grammar::{Limits, Read, ReadError, next, one, read_type, read_word, starts};
use ooo_simple::{followed, with};
use ooo_syntax::{ChannelWord, Symbol, Terminal, TypeName, Word};
use sqlite_items::Items;
use std::alloc::Global;

// A word, one level deeper.
#[tactic(auto, using(ooo_grammar::specs::Steps::deeper_gives))]
fn read_word_inside<'a>(alloc: Global, tokens: &'a [Symbol<'a>], limits: Limits) -> Read<'a, Word>
    ensures { Gives (reads_at limits (deeper word) tokens.now) result }
{
    read_word(alloc, tokens, limits.inside())
}

/// Reads a word in parentheses.
#[tactic(auto, using(ooo_grammar::specs::Steps::steps))]
pub fn read_parens_word<'a>(
    alloc: Global,
    tokens: &'a [Symbol<'a>],
    limits: Limits,
) -> Read<'a, Word>
    ensures { Gives (reads_at limits parens_word tokens.now) result }
{
    let (_, rest) = got!(one(tokens, Terminal::Open, limits));
    let (word, rest) = got!(read_word_inside(alloc, rest, limits));
    followed(word, Terminal::Close, rest, limits)
}

/// Reads a word in parentheses, and a `;`.
#[tactic(auto, using(ooo_grammar::specs::Steps::steps), unfolding(ooo_grammar::specs::Members::word_in_parens))]
pub fn read_word_in_parens<'a>(
    alloc: Global,
    tokens: &'a [Symbol<'a>],
    limits: Limits,
) -> Read<'a, Word>
    ensures { Gives (reads_at limits word_in_parens tokens.now) result }
{
    let (word, rest) = got!(read_parens_word(alloc, tokens, limits));
    followed(word, Terminal::Semicolon, rest, limits)
}

// A comma and one more word.
#[tactic(auto, using(ooo_grammar::specs::Steps::steps))]
fn read_next_word<'a>(
    alloc: Global,
    list: Items<Word>,
    tokens: &'a [Symbol<'a>],
    limits: Limits,
) -> Read<'a, Items<Word>>
    ensures { Gives (next_item limits Terminal.Comma word list tokens.now) result }
{
    let (_, rest) = keeping!(list; one(tokens, Terminal::Comma, limits));
    let (more, rest) = keeping!(list; read_word(alloc, rest, limits));
    Ok((with(list, more)?, rest))
}

// Words.
#[tactic(auto, using(ooo_grammar::specs::Steps::steps))]
fn read_some_words<'a>(
    alloc: Global,
    tokens: &'a [Symbol<'a>],
    limits: Limits,
) -> Read<'a, Items<Word>>
    ensures { Gives (reads_at limits some_words tokens.now) result }
{
    let (first, mut rest) = got!(read_word(alloc, tokens, limits));
    let mut list = begun(alloc, first)?;
    'turns: for _turn in 0..rest.len() {
        if !starts(rest, Terminal::Comma) {
            return Ok((list, rest));
        }
        let (more, after) = got!(read_next_word(alloc, list, rest, limits));
        list = more;
        rest = after;
    }
    Ok((list, rest))
}

/// Reads words and the `;`.
#[tactic(auto, using(ooo_grammar::specs::Steps::steps), unfolding(ooo_grammar::specs::Members::words))]
pub fn read_words<'a>(
    alloc: Global,
    tokens: &'a [Symbol<'a>],
    limits: Limits,
) -> Read<'a, Items<Word>>
    ensures { Gives (reads_at limits words tokens.now) result }
{
    let (list, rest) = got!(read_some_words(alloc, tokens, limits));
    followed(list, Terminal::Semicolon, rest, limits)
}

/// Reads a type in angle brackets.
#[tactic(auto, using(ooo_grammar::specs::Steps::steps), unfolding(ooo_grammar::specs::Members::of_type))]
pub fn read_of_type<'a>(tokens: &'a [Symbol<'a>], limits: Limits) -> Read<'a, TypeName>
    ensures { Gives (reads_at limits of_type tokens.now) result }
{
    let (_, rest) = got!(one(tokens, Terminal::Less, limits));
    let (form, rest) = got!(read_type(rest, limits));
    let (_, rest) = got!(one(rest, Terminal::Greater, limits));
    Ok((form, rest))
}

/// Reads a channel's word.
#[tactic(auto, using(ooo_grammar::specs::Steps::steps))]
pub fn read_channel_word<'a>(tokens: &'a [Symbol<'a>], limits: Limits) -> Read<'a, ChannelWord>
    ensures { Gives (reads_at limits (table channel_table) tokens.now) result }
{
    let Some((token, rest)) = next(tokens) else {
        return Err(ReadError::Syntax(tokens.len()));
    };
    let Some(found) = channel_of(token) else {
        return Err(ReadError::Syntax(tokens.len()));
    };
    if !limits.fit(token) {
        return Err(ReadError::TooDeep(tokens.len()));
    }
    Ok((found, rest))
}
