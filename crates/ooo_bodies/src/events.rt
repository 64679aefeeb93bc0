ghost use Rattle.std.specs.Prelude.{◌≡◌, IfOk, OnOk};
ghost use Rattle.ooo_checked.specs.Notes.{all_notes, trees};
ghost use Rattle.ooo_checked.specs.Stats.{awaited_of, event_call_notes, event_meant, event_notes, event_of, events_of};
ghost use Rattle.ooo_checked.specs.Stats.{is_call_of, time_of};
ghost use Rattle.ooo_bodies.specs.Noting.{noted};

use crate::copies::{copy_word, resolve};
use crate::exprs::{expr, room};
use crate::notes::Notes;
use ooo_checked::{
    CheckedAwaited, CheckedEvent, CheckedTime, EventForm, Resolved, Thing, TypeBreach,
};
use ooo_lexer::Position;
use ooo_scopes::Scopes;
use ooo_syntax::{Awaited, Event, TimeForm, Word};
use sqlite_items::Items;
use std::alloc::{AllocError, Global};

/// A time, with what its names denote; what is noted of it is kept.
///
/// # Errors
///
/// Only where memory runs out; what was noted until then is kept.
pub fn time(
    alloc: Global,
    time: &TimeForm,
    scopes: &Scopes,
    notes: &mut Notes,
) -> Result<CheckedTime, AllocError>
    ensures tree { IfOk result (λ tree. tree ≡ (time_of time.now scopes.now).tree) }
    ensures notes { OnOk result (notes.new ≡ noted notes.old (time_of time.now scopes.now).notes) }
{
    match time {
        TimeForm::Zero(at) => Ok(CheckedTime::Zero(*at)),
        TimeForm::Made(at, amount, scale) => {
            let amount = got!(expr(alloc, amount, scopes, notes));
            Ok(CheckedTime::Made(*at, amount, *scale))
        }
        TimeForm::Amount(amount, scale) => {
            let amount = got!(expr(alloc, amount, scopes, notes));
            Ok(CheckedTime::Amount(amount, *scale))
        }
    }
}

// The event that is meant where an event stands.
fn event_meant(in_sensitive: bool, thing: Thing, call: &Option<Word>) -> EventForm
    ensures { result ≡ event_meant in_sensitive thing call.now }
{
    match call {
        None => thing.named_event(in_sensitive),
        Some(word) => thing.called_event(in_sensitive, word.name.as_bytes()),
    }
}

// Whether the word is some call of the thing, though it may not stand where an event does.
fn is_call_of(thing: Thing, word: &Word) -> bool
    ensures { result ≡ is_call_of thing word.now.name }
{
    let name = word.name.as_bytes();
    thing.has_method_named(name) || thing.event_by(name).is_event()
}

impl Notes {
    // Notes a call where an event stands.
    fn event_call(&mut self, is_meant: bool, is_call: bool, at: Position)
        ensures { self.new ≡ noted self.old (event_call_notes is_meant is_call at) }
    {
        if is_meant {
            return;
        }
        let what = if is_call {
            TypeBreach::WrongKind
        } else {
            TypeBreach::UnknownName
        };
        self.breaks(what, at);
    }

    // Notes what stands where an event does, and means this event.
    fn event(&mut self, in_sensitive: bool, name: &Resolved, call: &Option<Word>)
        ensures { self.new ≡ noted self.old (event_notes in_sensitive name.now call.now) }
    {
        let thing = name.denotes.thing;
        let is_meant = event_meant(in_sensitive, thing, call).is_event();
        match call {
            None => self.name(thing, is_meant, name.word.position),
            Some(word) => {
                if thing.is_known() {
                    self.event_call(is_meant, is_call_of(thing, word), word.position);
                } else {
                    self.breaks(TypeBreach::UnknownName, name.word.position);
                }
            }
        }
    }
}

// The same word, if there is one.
fn copy_option(alloc: Global, word: &Option<Word>) -> Result<Option<Word>, AllocError>
    ensures { IfOk result (λ copy. copy ≡ word.now) }
{
    match word {
        None => Ok(None),
        Some(word) => Ok(Some(copy_word(alloc, word)?)),
    }
}

/// An event in `sensitive` or in a wait, with what its name denotes; what is noted of it is kept.
///
/// # Errors
///
/// Only where memory runs out; what was noted until then is kept.
pub fn event(
    alloc: Global,
    in_sensitive: bool,
    event: &Event,
    scopes: &Scopes,
    notes: &mut Notes,
) -> Result<CheckedEvent, AllocError>
    ensures tree { IfOk result (λ tree. tree ≡ (event_of in_sensitive event.now scopes.now).tree) }
    ensures notes { OnOk result (notes.new
        ≡ noted notes.old (event_of in_sensitive event.now scopes.now).notes) }
{
    let call = copy_option(alloc, &event.call)?;
    let name = keeping!(call; resolve(alloc, scopes, &event.name));
    notes.event(in_sensitive, &name, &event.call);
    let form = event_meant(in_sensitive, name.denotes.thing, &event.call);
    Ok(CheckedEvent { name, call, form })
}

/// The events one after the other, with what their names denote; what is noted of them is kept.
///
/// # Errors
///
/// Only where memory runs out; what was noted until then is kept.
pub fn events(
    alloc: Global,
    in_sensitive: bool,
    es: &Items<Event>,
    scopes: &Scopes,
    notes: &mut Notes,
) -> Result<Items<CheckedEvent>, AllocError>
    ensures trees { IfOk result (λ all. all ≡ trees (events_of in_sensitive es.now scopes.now)) }
    ensures notes { OnOk result (notes.new
        ≡ noted notes.old (all_notes (events_of in_sensitive es.now scopes.now))) }
{
    let mut all = room(alloc, es.len())?;
    'parts: for e in es.as_slice() {
        let made = keeping!(all; event(alloc, in_sensitive, e, scopes, notes));
        keeping!(all; all.push(made));
    }
    Ok(all)
}

/// What a wait or a `next_trigger` waits for, with what its names denote; what is noted of it is kept.
///
/// # Errors
///
/// Only where memory runs out; what was noted until then is kept.
#[tactic(auto, using(crate::specs::Noting::noted_append))]
pub fn awaited(
    alloc: Global,
    awaited: &Awaited,
    scopes: &Scopes,
    notes: &mut Notes,
) -> Result<CheckedAwaited, AllocError>
    ensures tree { IfOk result (λ tree. tree ≡ (awaited_of awaited.now scopes.now).tree) }
    ensures notes { OnOk result (notes.new
        ≡ noted notes.old (awaited_of awaited.now scopes.now).notes) }
{
    match awaited {
        Awaited::Sensitive => Ok(CheckedAwaited::Sensitive),
        Awaited::Delay(most) => {
            let most = got!(time(alloc, most, scopes, notes));
            Ok(CheckedAwaited::Delay(most))
        }
        Awaited::Until(most, es) => {
            let most = got!(time(alloc, most, scopes, notes));
            let es = keeping!(most; events(alloc, false, es, scopes, notes));
            Ok(CheckedAwaited::Until(most, es))
        }
        Awaited::Events(es) => {
            let es = got!(events(alloc, false, es, scopes, notes));
            Ok(CheckedAwaited::Events(es))
        }
    }
}
