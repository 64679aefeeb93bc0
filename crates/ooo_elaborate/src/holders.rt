ghost use Rattle.std.specs.Prelude.{◌≡◌, ◌∷◌, [], None, Some, IfOk, OnOk, slice_get};
ghost use Rattle.std.specs.Option.{option_copied};
ghost use Rattle.ooo_elaborate.specs.Holders.{channel_refusal, functions_hold, holders_refusal};
ghost use Rattle.ooo_elaborate.specs.Holders.{meant_holds, name_in, refusal_at, refusal_by};
ghost use Rattle.ooo_elaborate.specs.Holding.{holds, with_holder};

use crate::bindings::push_copy;
use crate::ends::hold_body;
use ooo_bound::BoundFunction;
use ooo_constants::Meaning;
use ooo_value::Name;
use ooo_walk::{ElabBreach, Refusal, WalkedChannel, WalkedProcess};
use sqlite_items::{Items, at};
use std::alloc::{AllocError, Global};

/// An end of a channel, by the channel's number: the writing of a signal, or an end of a fifo (IEEE 1666-2011, 6.4 and 6.23).
#[derive(Clone, Copy)]
pub enum End {
    Writing(u32),
    Reading(u32),
}

/// The first two processes that hold an end.
#[derive(Clone, Copy)]
pub struct Holders {
    pub first: Option<u32>,
    pub second: Option<u32>,
}

/// Who holds the ends of a channel.
#[derive(Clone, Copy)]
pub struct Held {
    pub writers: Holders,
    pub readers: Holders,
}

impl Held {
    /// Nobody holds an end.
    pub(crate) const NOT_HELD: Held = Held {
        writers: Holders {
            first: None,
            second: None,
        },
        readers: Holders {
            first: None,
            second: None,
        },
    };
}

impl Holders {
    // With a process more, where no lower one comes after it.
    fn with(self, process: u32) -> Holders
        ensures { result ≡ with_holder process self }
    {
        match (self.first, self.second) {
            (None, _) => Holders {
                first: Some(process),
                ..self
            },
            (Some(first), None) if first != process => Holders {
                second: Some(process),
                ..self
            },
            _ => self,
        }
    }
}

/// A process holds an end.
pub(crate) fn hold(process: u32, end: End, all: &mut Items<Held>)
    ensures { all.new ≡ holds process end all.old }
{
    match end {
        End::Writing(channel) => {
            if let Some(held) = all.get(channel as usize).copied() {
                let writers = held.writers.with(process);
                all.set(channel as usize, Held { writers, ..held });
            }
        }
        End::Reading(channel) => {
            if let Some(held) = all.get(channel as usize).copied() {
                let readers = held.readers.with(process);
                all.set(channel as usize, Held { readers, ..held });
            }
        }
    }
}

// A process holds the ends that what a function's name means holds.
fn hold_function(
    process: u32,
    functions: &[BoundFunction],
    meaning: Option<Meaning>,
    all: &mut Items<Held>,
)
    ensures { all.new ≡ meant_holds process functions.now meaning all.old }
{
    if let Some(Meaning::Function(number)) = meaning {
        if let Some(function) = at(functions, number as usize) {
            hold_body(process, function.body.as_slice(), all);
        }
    }
}

/// A process holds the ends that functions hold, by what their names mean in its instance.
pub(crate) fn hold_functions(
    process: u32,
    functions: &[BoundFunction],
    members: &[Meaning],
    names: &[usize],
    all: &mut Items<Held>,
)
    ensures { all.new ≡ functions_hold process functions.now members.now names.now all.old }
{
    'parts: for e in names {
        hold_function(process, functions, at(members, *e).copied(), all);
    }
}

// The full name of a process.
fn name_of(alloc: Global, processes: &[WalkedProcess], process: u32) -> Result<Name, AllocError>
    ensures { IfOk result (λ name. name ≡ name_in (slice_get processes.now process)) }
{
    match at(processes, process as usize) {
        Some(process) => process.name.copy(alloc),
        None => Ok(Name::from_bytes(Vec::new(alloc))),
    }
}

// Two processes that hold one end of a channel, as a refusal.
fn refusal_by(
    alloc: Global,
    what: ElabBreach,
    processes: &[WalkedProcess],
    channel: &WalkedChannel,
    holders: Holders,
) -> Result<Option<Refusal>, AllocError>
    ensures { IfOk result (λ refusal. refusal ≡ refusal_by what processes.now channel.now holders) }
{
    let (Some(first), Some(second)) = (holders.first, holders.second) else {
        return Ok(None);
    };
    let mut names = Items::new(alloc);
    keeping!(names; push_copy(alloc, &channel.name, &mut names));
    let name = keeping!(names; name_of(alloc, processes, first));
    keeping!(names; names.push(name));
    let name = keeping!(names; name_of(alloc, processes, second));
    keeping!(names; names.push(name));
    Ok(Some(Refusal {
        what,
        at: channel.at,
        names,
    }))
}

// Two processes that write a channel, or else that read it, as a refusal.
fn channel_refusal(
    alloc: Global,
    processes: &[WalkedProcess],
    channel: &WalkedChannel,
    held: Held,
) -> Result<Option<Refusal>, AllocError>
    ensures { IfOk result (λ refusal. refusal ≡ channel_refusal processes.now channel.now held) }
{
    let writers = refusal_by(
        alloc,
        ElabBreach::TwoWriters,
        processes,
        channel,
        held.writers,
    )?;
    match writers {
        Some(refusal) => Ok(Some(refusal)),
        None => refusal_by(
            alloc,
            ElabBreach::TwoReaders,
            processes,
            channel,
            held.readers,
        ),
    }
}

// The same of a channel that is held like this, if it is one.
fn refusal_at(
    alloc: Global,
    processes: &[WalkedProcess],
    channel: &WalkedChannel,
    held: Option<Held>,
) -> Result<Option<Refusal>, AllocError>
    ensures { IfOk result (λ refusal. refusal ≡ refusal_at processes.now channel.now held) }
{
    match held {
        Some(held) => channel_refusal(alloc, processes, channel, held),
        None => Ok(None),
    }
}

/// The first of the channels of which two processes hold one end, as a refusal.
///
/// # Errors
///
/// Only where memory runs out.
pub(crate) fn holders_refusal(
    alloc: Global,
    processes: &[WalkedProcess],
    channels: &[WalkedChannel],
    held: &[Held],
) -> Result<Option<Refusal>, AllocError>
    ensures { IfOk result (λ refusal. refusal
        ≡ holders_refusal processes.now 0 channels.now held.now) }
{
    'parts: for (place, e) in channels.iter().enumerate() {
        let refusal = refusal_at(alloc, processes, e, at(held, place).copied())?;
        if refusal.is_some() {
            return Ok(refusal);
        }
    }
    Ok(None)
}
