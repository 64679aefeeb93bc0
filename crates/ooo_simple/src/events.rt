ghost use Rattle.std.specs.Prelude.{◌≡◌, ◌∷◌, [], IfOk};
ghost use Rattle.ooo_grammar.specs.Codes.{deeper};
ghost use Rattle.ooo_grammar.specs.Times.{event, event_call, events, events_of, joined};
ghost use Rattle.ooo_grammar.specs.Gives.{Gives, reads_at};
ghost use Rattle.ooo_simple.specs.Loops.{next_item};
ghost use Rattle.ooo_simple.specs.Spelled.{event_of};

use crate::keeping::followed;
use crate::lists::{added, with};
use ooo_exprs::begun;
use ooo_grammar::{Limits, Read, one, read_member_word, read_word, starts};
use ooo_syntax::{BinaryOp, Event, Expr, Symbol, Terminal, Word};
use ooo_value::Name;
use sqlite_items::Items;
use std::alloc::{AllocError, Global};

// A call of a member without arguments.
#[tactic(auto, using(ooo_grammar::specs::Steps::steps), unfolding(ooo_grammar::specs::Times::event_call))]
fn read_event_call<'a>(alloc: Global, tokens: &'a [Symbol<'a>], limits: Limits) -> Read<'a, Word>
    ensures { Gives (reads_at limits event_call tokens.now) result }
{
    let (_, rest) = got!(one(tokens, Terminal::Dot, limits));
    let (member, rest) = got!(read_member_word(alloc, rest, limits));
    let (member, rest) = got!(followed(member, Terminal::Open, rest, limits));
    followed(member, Terminal::Close, rest, limits)
}

/// Reads a word that names an event, or a call of a member that gives one.
#[tactic(auto, using(ooo_grammar::specs::Steps::steps), unfolding(ooo_grammar::specs::Times::event))]
pub fn read_event<'a>(alloc: Global, tokens: &'a [Symbol<'a>], limits: Limits) -> Read<'a, Event>
    ensures { Gives (reads_at limits event tokens.now) result }
{
    let (name, rest) = got!(read_word(alloc, tokens, limits));
    if !starts(rest, Terminal::Dot) {
        return Ok((Event { name, call: None }, rest));
    }
    let (member, rest) = keeping!(name; read_event_call(alloc, rest, limits));
    Ok((
        Event {
            name,
            call: Some(member),
        },
        rest,
    ))
}

// `|` and one more event.
#[tactic(auto, using(ooo_grammar::specs::Steps::steps))]
fn read_next_event<'a>(
    alloc: Global,
    list: Items<Event>,
    tokens: &'a [Symbol<'a>],
    limits: Limits,
) -> Read<'a, Items<Event>>
    ensures { Gives (next_item limits Terminal.Or event list tokens.now) result }
{
    let (_, rest) = keeping!(list; one(tokens, Terminal::Or, limits));
    let (more, rest) = keeping!(list; read_event(alloc, rest, limits));
    added(list, more, rest)
}

// Events and `|` between them.
#[tactic(auto, using(ooo_grammar::specs::Steps::steps), unfolding(ooo_grammar::specs::Times::events))]
fn read_events<'a>(
    alloc: Global,
    tokens: &'a [Symbol<'a>],
    limits: Limits,
) -> Read<'a, Items<Event>>
    ensures { Gives (reads_at limits events tokens.now) result }
{
    let (first, mut rest) = got!(read_event(alloc, tokens, limits));
    let mut list = begun(alloc, first)?;
    'turns: for _turn in 0..rest.len() {
        if !starts(rest, Terminal::Or) {
            return Ok((list, rest));
        }
        let (more, after) = got!(read_next_event(alloc, list, rest, limits));
        list = more;
        rest = after;
    }
    Ok((list, rest))
}

// The same, one level deeper.
#[tactic(auto, using(ooo_grammar::specs::Steps::deeper_gives))]
pub(crate) fn read_events_inside<'a>(
    alloc: Global,
    tokens: &'a [Symbol<'a>],
    limits: Limits,
) -> Read<'a, Items<Event>>
    ensures { Gives (reads_at limits (deeper events) tokens.now) result }
{
    read_events(alloc, tokens, limits.inside())
}

fn copy_of(alloc: Global, source: &Word) -> Result<Word, AllocError>
    ensures { IfOk result (λ w. w ≡ source.now) }
{
    let name = Name::from_bytes(Vec::from_slice(alloc, source.name.as_bytes())?);
    Ok(Word {
        name,
        position: source.position,
    })
}

fn named_event(alloc: Global, name: &Word) -> Result<Event, AllocError>
    ensures { IfOk result (λ e. e ≡ record { name = name.now; call = None }) }
{
    Ok(Event {
        name: copy_of(alloc, name)?,
        call: None,
    })
}

fn called_event(alloc: Global, name: &Word, member: &Word) -> Result<Event, AllocError>
    ensures { IfOk result (λ e. e ≡ record { name = name.now; call = Some member.now }) }
{
    let name = copy_of(alloc, name)?;
    let member = keeping!(name; copy_of(alloc, member));
    Ok(Event {
        name,
        call: Some(member),
    })
}

// The event that an expression spells, if it has the form of one.
#[tactic(auto, unfolding(crate::specs::Spelled::event_of))]
fn spelled_event(alloc: Global, expr: &Expr) -> Result<Option<Event>, AllocError>
    ensures { IfOk result (λ o. o ≡ event_of expr.now) }
{
    match expr {
        Expr::Name(name) => Ok(Some(named_event(alloc, name)?)),
        Expr::Member(name, member, None) => Ok(Some(called_event(alloc, name, member)?)),
        _ => Ok(None),
    }
}

fn named_alone(alloc: Global, name: &Word) -> Result<Option<Items<Event>>, AllocError>
    ensures { IfOk result (λ o. o ≡ Some (record { name = name.now; call = None } ∷ [])) }
{
    let event = named_event(alloc, name)?;
    Ok(Some(begun(alloc, event)?))
}

fn called_alone(
    alloc: Global,
    name: &Word,
    member: &Word,
) -> Result<Option<Items<Event>>, AllocError>
    ensures { IfOk result
        (λ o. o ≡ Some (record { name = name.now; call = Some member.now } ∷ [])) }
{
    let event = called_event(alloc, name, member)?;
    Ok(Some(begun(alloc, event)?))
}

fn join(list: Option<Items<Event>>, last: Option<Event>) -> Result<Option<Items<Event>>, AllocError>
    ensures { IfOk result (λ o. o ≡ joined list last) }
{
    let Some(list) = list else {
        drop(last);
        return Ok(None);
    };
    let Some(last) = last else {
        drop(list);
        return Ok(None);
    };
    Ok(Some(with(list, last)?))
}

// The events that an expression spells, if it has their form.
#[tactic(auto, unfolding(ooo_grammar::specs::Times::events_of, crate::specs::Spelled::event_of))]
pub(crate) fn spelled_events(alloc: Global, expr: &Expr) -> Result<Option<Items<Event>>, AllocError>
    ensures { IfOk result (λ o. o ≡ events_of expr.now) }
{
    match expr {
        Expr::Name(name) => named_alone(alloc, name),
        Expr::Member(name, member, None) => called_alone(alloc, name, member),
        Expr::Binary(BinaryOp::Or, left, right) => {
            let list = spelled_events(alloc, left.get())?;
            let last = keeping!(list; spelled_event(alloc, right.get()));
            join(list, last)
        }
        _ => Ok(None),
    }
}
