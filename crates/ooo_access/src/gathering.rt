ghost use Rattle.std.specs.Prelude.{◌≡◌, Contains, IfOk};
ghost use Rattle.ooo_code.specs.Segments.{IsSegment};
ghost use Rattle.ooo_access.specs.Access.{AreAscending, AreThose, IsAccess, IsInOrder, Lists};
ghost use Rattle.ooo_access.specs.Told.{IsTold, all_meant, entry_waits, touched_of};

use crate::access::Access;
use crate::nodes::told_of;
use crate::notices::notices_of;
use crate::parts::set_of;
use crate::told::{Part, Told};
use crate::waiting::waited_on;
use ooo_code::{Design, Proc, Segment, SegmentEntry};
use ooo_value::BoundEvent;
use sqlite_items::{Items, at};
use std::alloc::{AllocError, Global};

/// The access of a segment.
///
/// # Errors
///
/// Only where memory runs out.
pub fn sets(alloc: Global, design: &Design, segment: &Segment) -> Result<Access, AllocError>
    requires { IsSegment design.now segment.now }
    ensures exact { IfOk result (IsAccess design.now segment.now) }
    ensures in_order { IfOk result IsInOrder }
{
    match at(design.processes.as_slice(), segment.process as usize) {
        Some(process) => Ok(gather(alloc, design, process, segment)?),
        None => Err(AllocError),
    }
}

// The access of a segment of a process, by its nodes.
fn gather(
    alloc: Global,
    design: &Design,
    process: &Proc,
    segment: &Segment,
) -> Result<Access, AllocError>
    ensures exact { IfOk result (Lists (Contains (touched_of design.now segment.now.nodes))
        (Contains (entry_waits design.now process.now segment.now.nodes segment.now.entry))) }
    ensures in_order { IfOk result IsInOrder }
{
    let nodes = segment.nodes.as_slice();
    let told = told_of(alloc, design, nodes)?;
    let waited = keeping!(told; waits_of(alloc, design, process, segment.entry, nodes));
    lists_of(alloc, design.events.as_slice(), told.as_slice(), waited)
}

// The events on which an entry waits, ascending, whose segment has these nodes.
fn waits_of(
    alloc: Global,
    design: &Design,
    process: &Proc,
    entry: SegmentEntry,
    nodes: &[u32],
) -> Result<Items<u32>, AllocError>
    ensures members { IfOk result (AreThose
        (Contains (entry_waits design.now process.now nodes.now entry))) }
    ensures ascending { IfOk result AreAscending }
{
    let waited = waited_on(alloc, design, process, entry, nodes)?;
    waited.numbers(alloc)
}

// The lists of an access, by what is told in a model with these events, and by the events that are waited on.
fn lists_of(
    alloc: Global,
    events: &[BoundEvent],
    told: &[Told],
    waited: Items<u32>,
) -> Result<Access, AllocError>
    requires { AreAscending waited }
    ensures exact { IfOk result (Lists (Contains (all_meant events.now told.now)) (Contains waited)) }
    ensures in_order { IfOk result IsInOrder }
{
    let notified = keeping!(waited; notices_of(alloc, events, told));
    let notified = Items::from_vec(notified);
    let read = keeping!(waited, notified; numbers_of(alloc, told, Part::Read));
    let written = keeping!(waited, notified, read; numbers_of(alloc, told, Part::Written));
    let signals_read = keeping!(
        waited, notified, read, written;
        numbers_of(alloc, told, Part::SignalsRead)
    );
    let signals_written = keeping!(
        waited, notified, read, written, signals_read;
        numbers_of(alloc, told, Part::SignalsWritten)
    );
    let takes = keeping!(
        waited, notified, read, written, signals_read, signals_written;
        numbers_of(alloc, told, Part::Takes)
    );
    let puts = keeping!(
        waited, notified, read, written, signals_read, signals_written, takes;
        numbers_of(alloc, told, Part::Puts)
    );
    let cancelled = keeping!(
        waited, notified, read, written, signals_read, signals_written, takes, puts;
        numbers_of(alloc, told, Part::Cancelled)
    );
    Ok(Access {
        read,
        written,
        signals_read,
        signals_written,
        takes,
        puts,
        cancelled,
        waited,
        notified,
    })
}

// The numbers that are told in a part, ascending.
fn numbers_of(alloc: Global, told: &[Told], part: Part) -> Result<Items<u32>, AllocError>
    ensures members { IfOk result (AreThose (λ n. IsTold part n told.now)) }
    ensures ascending { IfOk result AreAscending }
{
    let set = set_of(alloc, told, part)?;
    let numbers = set.numbers(alloc)?;
    Ok(numbers)
}
