ghost use Rattle.std.specs.Prelude.{◌≡◌, ◌++◌, IfOk, OnOk, slice_get};
ghost use Rattle.ooo_numbers.specs.Names.{channel_of, event_by, event_of, event_offset, events_of, function_of};
ghost use Rattle.ooo_numbers.specs.Names.{number_in, numbering_of, own_event_of, port_channel, variable_of};

use crate::numbers::Numbers;
use ooo_checked::{CheckedEvent, Denotation, EventForm};
use ooo_constants::Meaning;
use ooo_value::narrow;
use sqlite_items::Items;
use std::alloc::AllocError;

// The channel that a port is bound to, if it is.
fn port_channel(ports: &[Option<u32>], port: u32) -> u32
    ensures { result ≡ port_channel (slice_get ports.now port) }
{
    match ports.get(port as usize) {
        Some(Some(channel)) => *channel,
        _ => 0,
    }
}

/// The channel that a name means: itself, or the one that its port is bound to.
pub(crate) fn channel_of(numbers: Numbers<'_>, name: Denotation) -> u32
    ensures { result ≡ channel_of (numbering_of numbers.entry) name }
{
    match numbers.members.get(name.number) {
        Some(Meaning::Channel(channel)) => *channel,
        Some(Meaning::Port(port)) => port_channel(numbers.ports, *port),
        _ => 0,
    }
}

/// The variable that a name means.
pub(crate) fn variable_of(numbers: Numbers<'_>, name: Denotation) -> u32
    ensures { result ≡ variable_of (numbering_of numbers.entry) name }
{
    match numbers.members.get(name.number) {
        Some(Meaning::Variable(variable)) => *variable,
        _ => 0,
    }
}

/// The function that a name means.
pub(crate) fn function_of(numbers: Numbers<'_>, name: Denotation) -> u32
    ensures { result ≡ function_of (numbering_of numbers.entry) name }
{
    match numbers.members.get(name.number) {
        Some(Meaning::Function(function)) => *function,
        _ => 0,
    }
}

/// The `sc_event` that a name means.
pub(crate) fn own_event_of(numbers: Numbers<'_>, name: Denotation) -> u32
    ensures { result ≡ own_event_of (numbering_of numbers.entry) name }
{
    match numbers.members.get(name.number) {
        Some(Meaning::Event(event)) => *event,
        _ => 0,
    }
}

// How far an event of a channel stands behind the channel's first one.
fn event_offset(form: EventForm) -> usize
    ensures { result ≡ event_offset form }
{
    match form {
        EventForm::Rise | EventForm::Taken => 1,
        EventForm::Fall => 2,
        _ => 0,
    }
}

// The first event of a channel.
fn first_event(events: &[u32], channel: u32) -> u32
    ensures { result ≡ number_in (slice_get events.now channel) }
{
    match events.get(channel as usize) {
        Some(event) => *event,
        None => 0,
    }
}

// The event of this form of the thing that a name denotes.
fn event_by(numbers: Numbers<'_>, name: Denotation, form: EventForm) -> Result<u32, AllocError>
    ensures { IfOk result (λ event. event ≡ event_by (numbering_of numbers.entry) name form) }
{
    match form {
        EventForm::Own => Ok(own_event_of(numbers, name)),
        _ => {
            let first = first_event(numbers.events, channel_of(numbers, name));
            narrow(first as usize + event_offset(form))
        }
    }
}

// An event in `sensitive` or in a wait.
fn event(numbers: Numbers<'_>, given: &CheckedEvent) -> Result<u32, AllocError>
    ensures { IfOk result (λ event. event ≡ event_of (numbering_of numbers.entry) given.now) }
{
    event_by(numbers, given.name.denotes, given.form)
}

/// Adds the numbers of events, in the order of the text.
///
/// # Errors
///
/// Only where memory runs out, or where a number is above `2^32 - 1`, which no source of a MiB has; some are added then.
pub fn events(
    numbers: Numbers<'_>,
    given: &[CheckedEvent],
    all: &mut Items<u32>,
) -> Result<(), AllocError>
    ensures { OnOk result (all.new ≡ all.old ++ events_of (numbering_of numbers.entry) given.now) }
{
    'parts: for part in given {
        all.push(event(numbers, part)?)?;
    }
    Ok(())
}
