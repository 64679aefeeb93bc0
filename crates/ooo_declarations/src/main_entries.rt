ghost use Rattle.std.specs.Prelude.{◌≡◌, ◌∷◌, ◌++◌, [], IfOk};
ghost use Rattle.ooo_grammar.specs.Codes.{deeper};
ghost use Rattle.ooo_grammar.specs.Gives.{Gives, reads_at};
ghost use Rattle.ooo_grammar.specs.Units.{clock, clock_tail, clocks, instance_of, instances_of, main_channel, main_channels, main_entry};
ghost use Rattle.ooo_simple.specs.Loops.{next_item};
ghost use Rattle.ooo_declarations.specs.Loops.{more_of};
ghost use Rattle.ooo_declarations.specs.Parts.{clock_parts, main_entries, some_clocks, some_instances, some_main_channels};

use crate::arguments::{read_maybe_args, read_some_args};
use crate::constants::read_constant;
use crate::constructors::read_binding;
use crate::signs::{begins_with_channel, begins_with_constant, begins_with_main_entry};
use crate::words::{read_channel_word, read_of_type};
use ooo_exprs::begun;
use ooo_grammar::{Limits, Read, begins_with_word, one, read_text, read_word, starts};
use ooo_simple::{followed, none_yet, read_boxed_timed, with};
use ooo_syntax::{Arg, ChannelWord, MainChannel, MainItem, Mark, Symbol, Terminal, TypeName, Word};
use ooo_value::Name;
use sqlite_items::Items;
use std::alloc::{AllocError, Global};

// ---- channels

// A channel of `sc_main`, after what it is and its type.
#[tactic(auto, using(ooo_grammar::specs::Steps::steps), unfolding(ooo_grammar::specs::Units::main_channel))]
fn read_main_channel<'a>(
    alloc: Global,
    channel: ChannelWord,
    form: TypeName,
    tokens: &'a [Symbol<'a>],
    limits: Limits,
) -> Read<'a, MainItem>
    ensures { Gives (reads_at limits (main_channel channel form) tokens.now) result }
{
    let (name, rest) = got!(read_word(alloc, tokens, limits));
    let (args, rest) = keeping!(name; read_maybe_args(alloc, rest, limits));
    Ok((
        MainItem::Channel(MainChannel {
            channel,
            form,
            name,
            args,
        }),
        rest,
    ))
}

// A comma and one more channel.
#[tactic(auto, using(ooo_grammar::specs::Steps::steps))]
fn read_next_main_channel<'a>(
    alloc: Global,
    list: Items<MainItem>,
    channel: ChannelWord,
    form: TypeName,
    tokens: &'a [Symbol<'a>],
    limits: Limits,
) -> Read<'a, Items<MainItem>>
    ensures { let c = main_channel channel form in
        Gives (next_item limits Terminal.Comma c list tokens.now) result }
{
    let (_, rest) = keeping!(list; one(tokens, Terminal::Comma, limits));
    let (more, rest) = keeping!(list; read_main_channel(alloc, channel, form, rest, limits));
    Ok((with(list, more)?, rest))
}

// Channels of one type.
#[tactic(auto, using(ooo_grammar::specs::Steps::steps))]
fn read_some_main_channels<'a>(
    alloc: Global,
    channel: ChannelWord,
    form: TypeName,
    tokens: &'a [Symbol<'a>],
    limits: Limits,
) -> Read<'a, Items<MainItem>>
    ensures { Gives (reads_at limits (some_main_channels channel form) tokens.now) result }
{
    let (first, mut rest) = got!(read_main_channel(alloc, channel, form, tokens, limits));
    let mut list = begun(alloc, first)?;
    'turns: for _turn in 0..rest.len() {
        if !starts(rest, Terminal::Comma) {
            return Ok((list, rest));
        }
        let (more, after) = got!(read_next_main_channel(alloc, list, channel, form, rest, limits));
        list = more;
        rest = after;
    }
    Ok((list, rest))
}

// A declaration of channels.
#[tactic(auto, using(ooo_grammar::specs::Steps::steps), unfolding(ooo_grammar::specs::Units::main_channels))]
fn read_main_channels<'a>(
    alloc: Global,
    tokens: &'a [Symbol<'a>],
    limits: Limits,
) -> Read<'a, Items<MainItem>>
    ensures { Gives (reads_at limits main_channels tokens.now) result }
{
    let (channel, rest) = got!(read_channel_word(tokens, limits));
    let (form, rest) = got!(read_of_type(rest, limits));
    let (list, rest) = got!(read_some_main_channels(alloc, channel, form, rest, limits));
    followed(list, Terminal::Semicolon, rest, limits)
}

// ---- clocks

// The arguments of a clock.
#[tactic(auto, using(ooo_grammar::specs::Steps::steps))]
fn read_clock_parts<'a>(
    alloc: Global,
    first: Mark,
    word: Word,
    tokens: &'a [Symbol<'a>],
    limits: Limits,
) -> Read<'a, MainItem>
    ensures { Gives (reads_at limits (clock_parts first word) tokens.now) result }
{
    let (text, rest) = keeping!(word; read_text(alloc, tokens, limits));
    let (_, rest) = keeping!(word, text; one(rest, Terminal::Comma, limits));
    let (time, rest) = keeping!(word, text; read_boxed_timed(alloc, rest, limits));
    Ok((MainItem::Clock(first.position, word, text, time), rest))
}

// The same, one level deeper.
#[tactic(auto, using(ooo_grammar::specs::Steps::deeper_gives))]
fn read_clock_parts_inside<'a>(
    alloc: Global,
    first: Mark,
    word: Word,
    tokens: &'a [Symbol<'a>],
    limits: Limits,
) -> Read<'a, MainItem>
    ensures { Gives (reads_at limits (deeper (clock_parts first word)) tokens.now) result }
{
    read_clock_parts(alloc, first, word, tokens, limits.inside())
}

// What follows the word of a clock.
#[tactic(auto, using(ooo_grammar::specs::Steps::steps), unfolding(ooo_grammar::specs::Units::clock_tail))]
fn read_clock_tail<'a>(
    alloc: Global,
    first: Mark,
    word: Word,
    tokens: &'a [Symbol<'a>],
    limits: Limits,
) -> Read<'a, MainItem>
    ensures { Gives (reads_at limits (clock_tail first word) tokens.now) result }
{
    let (_, rest) = keeping!(word; one(tokens, Terminal::Open, limits));
    let (clock, rest) = got!(read_clock_parts_inside(alloc, first, word, rest, limits));
    followed(clock, Terminal::Close, rest, limits)
}

// A clock, after `sc_clock`.
#[tactic(auto, using(ooo_grammar::specs::Steps::steps), unfolding(ooo_grammar::specs::Units::clock))]
fn read_clock<'a>(
    alloc: Global,
    first: Mark,
    tokens: &'a [Symbol<'a>],
    limits: Limits,
) -> Read<'a, MainItem>
    ensures { Gives (reads_at limits (clock first) tokens.now) result }
{
    let (word, rest) = got!(read_word(alloc, tokens, limits));
    read_clock_tail(alloc, first, word, rest, limits)
}

// A comma and one more clock.
#[tactic(auto, using(ooo_grammar::specs::Steps::steps))]
fn read_next_clock<'a>(
    alloc: Global,
    list: Items<MainItem>,
    first: Mark,
    tokens: &'a [Symbol<'a>],
    limits: Limits,
) -> Read<'a, Items<MainItem>>
    ensures { Gives (next_item limits Terminal.Comma (clock first) list tokens.now) result }
{
    let (_, rest) = keeping!(list; one(tokens, Terminal::Comma, limits));
    let (more, rest) = keeping!(list; read_clock(alloc, first, rest, limits));
    Ok((with(list, more)?, rest))
}

// Clocks.
#[tactic(auto, using(ooo_grammar::specs::Steps::steps))]
fn read_some_clocks<'a>(
    alloc: Global,
    first: Mark,
    tokens: &'a [Symbol<'a>],
    limits: Limits,
) -> Read<'a, Items<MainItem>>
    ensures { Gives (reads_at limits (some_clocks first) tokens.now) result }
{
    let (clock, mut rest) = got!(read_clock(alloc, first, tokens, limits));
    let mut list = begun(alloc, clock)?;
    'turns: for _turn in 0..rest.len() {
        if !starts(rest, Terminal::Comma) {
            return Ok((list, rest));
        }
        let (more, after) = got!(read_next_clock(alloc, list, first, rest, limits));
        list = more;
        rest = after;
    }
    Ok((list, rest))
}

// A declaration of clocks.
#[tactic(auto, using(ooo_grammar::specs::Steps::steps), unfolding(ooo_grammar::specs::Units::clocks))]
fn read_clocks<'a>(
    alloc: Global,
    tokens: &'a [Symbol<'a>],
    limits: Limits,
) -> Read<'a, Items<MainItem>>
    ensures { Gives (reads_at limits clocks tokens.now) result }
{
    let (first, rest) = got!(one(tokens, Terminal::ScClock, limits));
    let (list, rest) = got!(read_some_clocks(alloc, first, rest, limits));
    followed(list, Terminal::Semicolon, rest, limits)
}

// ---- instances

// The same word: each instance of a list has its module's.
fn copy_of(alloc: Global, word: &Word) -> Result<Word, AllocError>
    ensures { IfOk result (λ copy. copy ≡ word.now) }
{
    let name = Name::from_bytes(Vec::from_slice(alloc, word.name.as_bytes())?);
    Ok(Word {
        name,
        position: word.position,
    })
}

// An instance of a module.
fn instance(
    alloc: Global,
    module_name: &Word,
    name: Word,
    args: Items<Arg>,
) -> Result<MainItem, AllocError>
    ensures { IfOk result (λ item. item ≡ MainItem.Instance module_name.now name args) }
{
    let module_name = keeping!(name, args; copy_of(alloc, module_name));
    Ok(MainItem::Instance(module_name, name, args))
}

// An instance, after the word of its module.
#[tactic(auto, using(ooo_grammar::specs::Steps::steps), unfolding(ooo_grammar::specs::Units::instance_of))]
fn read_instance_of<'a>(
    alloc: Global,
    module_name: &Word,
    tokens: &'a [Symbol<'a>],
    limits: Limits,
) -> Read<'a, MainItem>
    ensures { Gives (reads_at limits (instance_of module_name.now) tokens.now) result }
{
    let (name, rest) = got!(read_word(alloc, tokens, limits));
    let (args, rest) = keeping!(name; read_some_args(alloc, rest, limits));
    Ok((instance(alloc, module_name, name, args)?, rest))
}

// A comma and one more instance.
#[tactic(auto, using(ooo_grammar::specs::Steps::steps))]
fn read_next_instance<'a>(
    alloc: Global,
    list: Items<MainItem>,
    module_name: &Word,
    tokens: &'a [Symbol<'a>],
    limits: Limits,
) -> Read<'a, Items<MainItem>>
    ensures { let c = instance_of module_name.now in
        Gives (next_item limits Terminal.Comma c list tokens.now) result }
{
    let (_, rest) = keeping!(list; one(tokens, Terminal::Comma, limits));
    let (more, rest) = keeping!(list; read_instance_of(alloc, module_name, rest, limits));
    Ok((with(list, more)?, rest))
}

// Instances of one module.
#[tactic(auto, using(ooo_grammar::specs::Steps::steps))]
fn read_some_instances<'a>(
    alloc: Global,
    module_name: &Word,
    tokens: &'a [Symbol<'a>],
    limits: Limits,
) -> Read<'a, Items<MainItem>>
    ensures { Gives (reads_at limits (some_instances module_name.now) tokens.now) result }
{
    let (first, mut rest) = got!(read_instance_of(alloc, module_name, tokens, limits));
    let mut list = begun(alloc, first)?;
    'turns: for _turn in 0..rest.len() {
        if !starts(rest, Terminal::Comma) {
            return Ok((list, rest));
        }
        let (more, after) = got!(read_next_instance(alloc, list, module_name, rest, limits));
        list = more;
        rest = after;
    }
    Ok((list, rest))
}

// A declaration of instances, after the word of their module.
#[tactic(auto, using(ooo_grammar::specs::Steps::steps), unfolding(ooo_grammar::specs::Units::instances_of))]
fn read_instances_of<'a>(
    alloc: Global,
    module_name: &Word,
    tokens: &'a [Symbol<'a>],
    limits: Limits,
) -> Read<'a, Items<MainItem>>
    ensures { Gives (reads_at limits (instances_of module_name.now) tokens.now) result }
{
    let (list, rest) = got!(read_some_instances(alloc, module_name, tokens, limits));
    followed(list, Terminal::Semicolon, rest, limits)
}

// ---- all of them

// The declarations up to the next `;`, or a binding.
#[tactic(auto, using(ooo_grammar::specs::Steps::steps), unfolding(ooo_grammar::specs::Units::main_entry))]
fn read_main_entry<'a>(
    alloc: Global,
    tokens: &'a [Symbol<'a>],
    limits: Limits,
) -> Read<'a, Items<MainItem>>
    ensures { Gives (reads_at limits main_entry tokens.now) result }
{
    if begins_with_constant(tokens) {
        let (constant, rest) = got!(read_constant(alloc, tokens, limits));
        return Ok((begun(alloc, MainItem::Constant(constant))?, rest));
    }
    if begins_with_channel(tokens) {
        return read_main_channels(alloc, tokens, limits);
    }
    if starts(tokens, Terminal::ScClock) {
        return read_clocks(alloc, tokens, limits);
    }
    let (word, rest) = got!(read_word(alloc, tokens, limits));
    if begins_with_word(rest) {
        return read_instances_of(alloc, &word, rest, limits);
    }
    let (binding, rest) = got!(read_binding(alloc, word, rest, limits));
    Ok((begun(alloc, MainItem::Bind(binding))?, rest))
}

// Both lists one after the other.
fn joined(mut list: Items<MainItem>, more: Items<MainItem>) -> Result<Items<MainItem>, AllocError>
    ensures { IfOk result (λ all. all ≡ list ++ more) }
{
    keeping!(list; list.append(more));
    Ok(list)
}

// The declarations up to one more `;`, or one more binding.
#[tactic(auto, using(ooo_grammar::specs::Steps::steps))]
fn read_one_more_main_entry<'a>(
    alloc: Global,
    list: Items<MainItem>,
    tokens: &'a [Symbol<'a>],
    limits: Limits,
) -> Read<'a, Items<MainItem>>
    ensures { Gives (more_of limits main_entry list tokens.now) result }
{
    let (more, rest) = keeping!(list; read_main_entry(alloc, tokens, limits));
    Ok((joined(list, more)?, rest))
}

/// Reads the declarations and bindings of `sc_main`.
#[tactic(auto, using(ooo_grammar::specs::Steps::steps))]
pub fn read_main_entries<'a>(
    alloc: Global,
    tokens: &'a [Symbol<'a>],
    limits: Limits,
) -> Read<'a, Items<MainItem>>
    ensures { Gives (reads_at limits main_entries tokens.now) result }
{
    let (mut list, mut rest) = none_yet(alloc, tokens);
    'turns: for _turn in 0..rest.len() {
        if !begins_with_main_entry(rest) {
            return Ok((list, rest));
        }
        let (more, after) = got!(read_one_more_main_entry(alloc, list, rest, limits));
        list = more;
        rest = after;
    }
    Ok((list, rest))
}
