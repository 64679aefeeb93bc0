ghost use Rattle.ooo_grammar.specs.Codes.{deeper};
ghost use Rattle.ooo_grammar.specs.Gives.{Gives, reads_at};
ghost use Rattle.ooo_grammar.specs.Members.{after_port, binding, bound_to, by_bind, events_listed, init, inits, named_constructor, setup, setup_tail, setups, written_constructor};
ghost use Rattle.ooo_grammar.specs.Times.{event};
ghost use Rattle.ooo_simple.specs.Loops.{next_item};
ghost use Rattle.ooo_declarations.specs.Loops.{one_more};
ghost use Rattle.ooo_declarations.specs.Parts.{all_setups, braced_setups, maybe_inits, method_setup, quiet_setup, sensitive_setup, some_events, some_inits, thread_setup};

use crate::arguments::read_listed_args;
use crate::params::read_name_and_params;
use crate::signs::begins_with_setup;
use crate::words::{read_parens_word, read_word_in_parens};
use ooo_exprs::{begun, read_boxed_value};
use ooo_grammar::{
    Limits, Read, begins_with_member_word, one, one_inside, read_event_word, read_member_word,
    read_word, starts,
};
use ooo_simple::{followed, none_yet, read_event, with};
use ooo_syntax::{Binding, Constructor, Event, Init, Member, Setup, Symbol, Terminal, Word};
use sqlite_items::Items;
use std::alloc::Global;

// An initialiser.
#[tactic(auto, using(ooo_grammar::specs::Steps::steps), unfolding(ooo_grammar::specs::Members::init))]
fn read_init<'a>(alloc: Global, tokens: &'a [Symbol<'a>], limits: Limits) -> Read<'a, Init>
    ensures { Gives (reads_at limits init tokens.now) result }
{
    let (name, rest) = got!(read_word(alloc, tokens, limits));
    let (args, rest) = keeping!(name; read_listed_args(alloc, rest, limits));
    Ok((Init { name, args }, rest))
}

// A comma and one more initialiser.
#[tactic(auto, using(ooo_grammar::specs::Steps::steps))]
fn read_next_init<'a>(
    alloc: Global,
    list: Items<Init>,
    tokens: &'a [Symbol<'a>],
    limits: Limits,
) -> Read<'a, Items<Init>>
    ensures { Gives (next_item limits Terminal.Comma init list tokens.now) result }
{
    let (_, rest) = keeping!(list; one(tokens, Terminal::Comma, limits));
    let (more, rest) = keeping!(list; read_init(alloc, rest, limits));
    Ok((with(list, more)?, rest))
}

// Initialisers.
#[tactic(auto, using(ooo_grammar::specs::Steps::steps))]
fn read_some_inits<'a>(
    alloc: Global,
    tokens: &'a [Symbol<'a>],
    limits: Limits,
) -> Read<'a, Items<Init>>
    ensures { Gives (reads_at limits some_inits tokens.now) result }
{
    let (first, mut rest) = got!(read_init(alloc, tokens, limits));
    let mut list = begun(alloc, first)?;
    'turns: for _turn in 0..rest.len() {
        if !starts(rest, Terminal::Comma) {
            return Ok((list, rest));
        }
        let (more, after) = got!(read_next_init(alloc, list, rest, limits));
        list = more;
        rest = after;
    }
    Ok((list, rest))
}

// A `:` and initialisers.
#[tactic(auto, using(ooo_grammar::specs::Steps::steps), unfolding(ooo_grammar::specs::Members::inits))]
fn read_inits<'a>(alloc: Global, tokens: &'a [Symbol<'a>], limits: Limits) -> Read<'a, Items<Init>>
    ensures { Gives (reads_at limits inits tokens.now) result }
{
    let (_, rest) = got!(one(tokens, Terminal::Colon, limits));
    read_some_inits(alloc, rest, limits)
}

// A `:` and initialisers, or nothing.
#[tactic(auto, using(ooo_grammar::specs::Steps::steps))]
fn read_maybe_inits<'a>(
    alloc: Global,
    tokens: &'a [Symbol<'a>],
    limits: Limits,
) -> Read<'a, Items<Init>>
    ensures { Gives (reads_at limits maybe_inits tokens.now) result }
{
    if starts(tokens, Terminal::Colon) {
        return read_inits(alloc, tokens, limits);
    }
    Ok((Items::new(alloc), tokens))
}

// The channel of a binding, and its `;`.
#[tactic(auto, using(ooo_grammar::specs::Steps::steps), unfolding(ooo_grammar::specs::Members::bound_to))]
fn read_bound_to<'a>(
    alloc: Global,
    instance: Word,
    port: Word,
    is_by_bind: bool,
    tokens: &'a [Symbol<'a>],
    limits: Limits,
) -> Read<'a, Binding>
    ensures { Gives (reads_at limits (bound_to instance port is_by_bind) tokens.now) result }
{
    let (channel, rest) = keeping!(instance, port; read_parens_word(alloc, tokens, limits));
    let (channel, rest) = keeping!(
        instance, port;
        followed(channel, Terminal::Semicolon, rest, limits)
    );
    Ok((
        Binding {
            instance,
            port,
            is_by_bind,
            channel,
        },
        rest,
    ))
}

// `. bind` and the channel.
#[tactic(auto, using(ooo_grammar::specs::Steps::steps), unfolding(ooo_grammar::specs::Members::by_bind))]
fn read_by_bind<'a>(
    alloc: Global,
    instance: Word,
    port: Word,
    tokens: &'a [Symbol<'a>],
    limits: Limits,
) -> Read<'a, Binding>
    ensures { Gives (reads_at limits (by_bind instance port) tokens.now) result }
{
    let (_, rest) = keeping!(instance, port; one(tokens, Terminal::Dot, limits));
    let (_, rest) = keeping!(instance, port; one(rest, Terminal::Bind, limits));
    read_bound_to(alloc, instance, port, true, rest, limits)
}

// What follows the port of a binding.
#[tactic(auto, using(ooo_grammar::specs::Steps::steps), unfolding(ooo_grammar::specs::Members::after_port))]
fn read_after_port<'a>(
    alloc: Global,
    instance: Word,
    port: Word,
    tokens: &'a [Symbol<'a>],
    limits: Limits,
) -> Read<'a, Binding>
    ensures { Gives (reads_at limits (after_port instance port) tokens.now) result }
{
    if starts(tokens, Terminal::Dot) {
        return read_by_bind(alloc, instance, port, tokens, limits);
    }
    read_bound_to(alloc, instance, port, false, tokens, limits)
}

// A binding, after its first word.
#[tactic(auto, using(ooo_grammar::specs::Steps::steps), unfolding(ooo_grammar::specs::Members::binding))]
pub(crate) fn read_binding<'a>(
    alloc: Global,
    instance: Word,
    tokens: &'a [Symbol<'a>],
    limits: Limits,
) -> Read<'a, Binding>
    ensures { Gives (reads_at limits (binding instance) tokens.now) result }
{
    let (_, rest) = keeping!(instance; one(tokens, Terminal::Dot, limits));
    if begins_with_member_word(rest) {
        let (port, rest) = keeping!(instance; read_member_word(alloc, rest, limits));
        return read_after_port(alloc, instance, port, rest, limits);
    }
    let (port, rest) = keeping!(instance; read_event_word(alloc, rest, limits));
    read_by_bind(alloc, instance, port, rest, limits)
}

// A binding or an assignment, after its first word.
#[tactic(auto, using(ooo_grammar::specs::Steps::steps), unfolding(ooo_grammar::specs::Members::setup_tail))]
fn read_setup_tail<'a>(
    alloc: Global,
    word: Word,
    tokens: &'a [Symbol<'a>],
    limits: Limits,
) -> Read<'a, Setup>
    ensures { Gives (reads_at limits (setup_tail word) tokens.now) result }
{
    if starts(tokens, Terminal::Dot) {
        let (binding, rest) = got!(read_binding(alloc, word, tokens, limits));
        return Ok((Setup::Bind(binding), rest));
    }
    let (_, rest) = keeping!(word; one(tokens, Terminal::Assign, limits));
    let (value, rest) = keeping!(word; read_boxed_value(alloc, rest, limits));
    let (value, rest) = keeping!(word; followed(value, Terminal::Semicolon, rest, limits));
    Ok((Setup::Set(word, value), rest))
}

// `<<` and one more event.
#[tactic(auto, using(ooo_grammar::specs::Steps::steps))]
fn read_next_event<'a>(
    alloc: Global,
    list: Items<Event>,
    tokens: &'a [Symbol<'a>],
    limits: Limits,
) -> Read<'a, Items<Event>>
    ensures { Gives (next_item limits Terminal.ShiftLeft event list tokens.now) result }
{
    let (_, rest) = keeping!(list; one(tokens, Terminal::ShiftLeft, limits));
    let (more, rest) = keeping!(list; read_event(alloc, rest, limits));
    Ok((with(list, more)?, rest))
}

// Events and `<<` between them.
#[tactic(auto, using(ooo_grammar::specs::Steps::steps))]
fn read_some_events<'a>(
    alloc: Global,
    tokens: &'a [Symbol<'a>],
    limits: Limits,
) -> Read<'a, Items<Event>>
    ensures { Gives (reads_at limits some_events tokens.now) result }
{
    let (first, mut rest) = got!(read_event(alloc, tokens, limits));
    let mut list = begun(alloc, first)?;
    'turns: for _turn in 0..rest.len() {
        if !starts(rest, Terminal::ShiftLeft) {
            return Ok((list, rest));
        }
        let (more, after) = got!(read_next_event(alloc, list, rest, limits));
        list = more;
        rest = after;
    }
    Ok((list, rest))
}

// Events and `<<`, and the `;`.
#[tactic(auto, using(ooo_grammar::specs::Steps::steps), unfolding(ooo_grammar::specs::Members::events_listed))]
fn read_events_listed<'a>(
    alloc: Global,
    tokens: &'a [Symbol<'a>],
    limits: Limits,
) -> Read<'a, Items<Event>>
    ensures { Gives (reads_at limits events_listed tokens.now) result }
{
    let (list, rest) = got!(read_some_events(alloc, tokens, limits));
    followed(list, Terminal::Semicolon, rest, limits)
}

// A thread.
#[tactic(auto, using(ooo_grammar::specs::Steps::steps))]
fn read_thread_setup<'a>(alloc: Global, tokens: &'a [Symbol<'a>], limits: Limits) -> Read<'a, Setup>
    ensures { Gives (reads_at limits thread_setup tokens.now) result }
{
    let (head, rest) = got!(one(tokens, Terminal::ScThread, limits));
    let (word, rest) = got!(read_word_in_parens(alloc, rest, limits));
    Ok((Setup::Thread(head.position, word), rest))
}

// A method.
#[tactic(auto, using(ooo_grammar::specs::Steps::steps))]
fn read_method_setup<'a>(alloc: Global, tokens: &'a [Symbol<'a>], limits: Limits) -> Read<'a, Setup>
    ensures { Gives (reads_at limits method_setup tokens.now) result }
{
    let (head, rest) = got!(one(tokens, Terminal::ScMethod, limits));
    let (word, rest) = got!(read_word_in_parens(alloc, rest, limits));
    Ok((Setup::Method(head.position, word), rest))
}

// What a process is sensitive to.
#[tactic(auto, using(ooo_grammar::specs::Steps::steps))]
fn read_sensitive_setup<'a>(
    alloc: Global,
    tokens: &'a [Symbol<'a>],
    limits: Limits,
) -> Read<'a, Setup>
    ensures { Gives (reads_at limits sensitive_setup tokens.now) result }
{
    let (head, rest) = got!(one(tokens, Terminal::Sensitive, limits));
    let (_, rest) = got!(one(rest, Terminal::ShiftLeft, limits));
    let (list, rest) = got!(read_events_listed(alloc, rest, limits));
    Ok((Setup::Sensitive(head.position, list), rest))
}

// `dont_initialize ( ) ;`
#[tactic(auto, using(ooo_grammar::specs::Steps::steps))]
fn read_quiet_setup<'a>(tokens: &'a [Symbol<'a>], limits: Limits) -> Read<'a, Setup>
    ensures { Gives (reads_at limits quiet_setup tokens.now) result }
{
    let (head, rest) = got!(one(tokens, Terminal::DontInitialize, limits));
    let (_, rest) = got!(one(rest, Terminal::Open, limits));
    let (_, rest) = got!(one(rest, Terminal::Close, limits));
    let (_, rest) = got!(one(rest, Terminal::Semicolon, limits));
    Ok((Setup::DontInitialize(head.position), rest))
}

// A statement of a constructor.
#[tactic(auto, using(ooo_grammar::specs::Steps::steps), unfolding(ooo_grammar::specs::Members::setup))]
fn read_setup<'a>(alloc: Global, tokens: &'a [Symbol<'a>], limits: Limits) -> Read<'a, Setup>
    ensures { Gives (reads_at limits setup tokens.now) result }
{
    if starts(tokens, Terminal::ScThread) {
        return read_thread_setup(alloc, tokens, limits);
    }
    if starts(tokens, Terminal::ScMethod) {
        return read_method_setup(alloc, tokens, limits);
    }
    if starts(tokens, Terminal::Sensitive) {
        return read_sensitive_setup(alloc, tokens, limits);
    }
    if starts(tokens, Terminal::DontInitialize) {
        return read_quiet_setup(tokens, limits);
    }
    let (word, rest) = got!(read_word(alloc, tokens, limits));
    read_setup_tail(alloc, word, rest, limits)
}

// One more statement of a constructor.
#[tactic(auto, using(ooo_grammar::specs::Steps::steps))]
fn read_one_more_setup<'a>(
    alloc: Global,
    list: Items<Setup>,
    tokens: &'a [Symbol<'a>],
    limits: Limits,
) -> Read<'a, Items<Setup>>
    ensures { Gives (one_more limits setup list tokens.now) result }
{
    let (more, rest) = keeping!(list; read_setup(alloc, tokens, limits));
    Ok((with(list, more)?, rest))
}

// The statements of a constructor.
#[tactic(auto, using(ooo_grammar::specs::Steps::steps))]
fn read_all_setups<'a>(
    alloc: Global,
    tokens: &'a [Symbol<'a>],
    limits: Limits,
) -> Read<'a, Items<Setup>>
    ensures { Gives (reads_at limits all_setups tokens.now) result }
{
    let (mut list, mut rest) = none_yet(alloc, tokens);
    'turns: for _turn in 0..rest.len() {
        if !begins_with_setup(rest) {
            return Ok((list, rest));
        }
        let (more, after) = got!(read_one_more_setup(alloc, list, rest, limits));
        list = more;
        rest = after;
    }
    Ok((list, rest))
}

// The same, one level deeper.
#[tactic(auto, using(ooo_grammar::specs::Steps::deeper_gives))]
fn read_all_setups_inside<'a>(
    alloc: Global,
    tokens: &'a [Symbol<'a>],
    limits: Limits,
) -> Read<'a, Items<Setup>>
    ensures { Gives (reads_at limits (deeper all_setups) tokens.now) result }
{
    read_all_setups(alloc, tokens, limits.inside())
}

// The statements of a constructor, in braces.
#[tactic(auto, using(ooo_grammar::specs::Steps::steps))]
fn read_braced_setups<'a>(
    alloc: Global,
    tokens: &'a [Symbol<'a>],
    limits: Limits,
) -> Read<'a, Items<Setup>>
    ensures { Gives (reads_at limits braced_setups tokens.now) result }
{
    let (_, rest) = got!(one(tokens, Terminal::OpenBrace, limits));
    let (list, rest) = got!(read_all_setups_inside(alloc, rest, limits));
    followed(list, Terminal::CloseBrace, rest, limits)
}

// The statements of a constructor, and a `;` if one follows.
#[tactic(auto, using(ooo_grammar::specs::Steps::steps), unfolding(ooo_grammar::specs::Members::setups))]
fn read_setups<'a>(
    alloc: Global,
    tokens: &'a [Symbol<'a>],
    limits: Limits,
) -> Read<'a, Items<Setup>>
    ensures { Gives (reads_at limits setups tokens.now) result }
{
    let (list, rest) = read_braced_setups(alloc, tokens, limits)?;
    if !starts(rest, Terminal::Semicolon) {
        return Ok((list, rest));
    }
    let (_, rest) = keeping!(list; one(rest, Terminal::Semicolon, limits));
    Ok((list, rest))
}

/// Reads a constructor that begins with `SC_CTOR`.
#[tactic(auto, using(ooo_grammar::specs::Steps::steps), unfolding(ooo_grammar::specs::Members::named_constructor))]
pub fn read_named_constructor<'a>(
    alloc: Global,
    tokens: &'a [Symbol<'a>],
    limits: Limits,
) -> Read<'a, Member>
    ensures { Gives (reads_at limits named_constructor tokens.now) result }
{
    let (_, rest) = got!(one(tokens, Terminal::ScCtor, limits));
    let (word, rest) = got!(read_parens_word(alloc, rest, limits));
    let (inits, rest) = keeping!(word; read_maybe_inits(alloc, rest, limits));
    let (setups, rest) = keeping!(word, inits; read_setups(alloc, rest, limits));
    Ok((
        Member::Constructor(Constructor::Named(word, inits, setups)),
        rest,
    ))
}

/// Reads a constructor that begins with the module's name, after it.
#[tactic(auto, using(ooo_grammar::specs::Steps::steps), unfolding(ooo_grammar::specs::Members::written_constructor))]
pub fn read_written_constructor<'a>(
    alloc: Global,
    word: Word,
    tokens: &'a [Symbol<'a>],
    limits: Limits,
) -> Read<'a, Member>
    ensures { Gives (reads_at limits (written_constructor word) tokens.now) result }
{
    let (_, rest) = keeping!(word; one(tokens, Terminal::Open, limits));
    let (_, rest) = keeping!(word; one_inside(rest, Terminal::ScModuleName, limits));
    let ((name, params), rest) = keeping!(word; read_name_and_params(alloc, rest, limits));
    let (inits, rest) = keeping!(word, name, params; read_maybe_inits(alloc, rest, limits));
    let (setups, rest) = keeping!(word, name, params, inits; read_setups(alloc, rest, limits));
    Ok((
        Member::Constructor(Constructor::Written(word, name, params, inits, setups)),
        rest,
    ))
}
