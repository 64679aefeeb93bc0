//! What is looked up at each step, made once of the tables: what a segment sees and only reads, who may wait on an event,
//! where a process's segments begin, and which processes a front can hold up.

ghost use Rattle.std.specs.Prelude.{◌≡◌, ◌≢◌, ◌<◌, ◌≤◌, ◌+◌, ◌++◌, [], ◌∷◌, length, map, replicate, false, if◌then◌else◌, Some, IfOk, OnOk, MatchOption, IsTrue, All, Contains, slice_get};
ghost use Rattle.ooo_value.specs.declared.bound.BoundEvent.TheVariants as own;
ghost use Rattle.ooo_code.specs.declared.design.Design.{Design as DesignSpec};
ghost use Rattle.ooo_code.specs.declared.limits.Limits.{Limits as LimitsSpec};
ghost use Rattle.ooo_code.specs.Segments.{IsSegment};
ghost use Rattle.ooo_code.specs.Sound.{IsSound};
ghost use Rattle.ooo_segments.specs.Beginnings.{greatest_segments};
ghost use Rattle.ooo_channels.specs.Calls.{channel_of};
ghost use Rattle.ooo_access.specs.Access.{AreAscending, IsInOrder};
ghost use Rattle.ooo_tables.specs.declared.tables.Tables.{Tables as TablesSpec};
ghost use Rattle.ooo_tables.specs.Accesses.{AreAccesses};
ghost use Rattle.ooo_tables.specs.Tables.{AreTables};
ghost use Rattle.ooo_dispatch.specs.Least.{rules_of};
ghost use Rattle.ooo_dispatch.specs.Rules.{has, segment_at};
ghost use Rattle.ooo_board.specs.Links.{AreChannelEvents, AreLinks, AreStarts, AreWaiters, Adds, HasSegment, IsFew, IsUpTo, WaitsOnEvents, begins_at, only_read, watched_from, watched_if};

use ooo_access::Access;
use ooo_code::{Design, Segment, SegmentEntry};
use ooo_fronts::Reaches;
use ooo_tables::Tables;
use ooo_value::{BoundEvent, ChannelKind};
use sqlite_items::Items;
use std::alloc::{AllocError, Global};

/// A channel of which a segment sees something: a signal, or the ends of a fifo that the segment holds.
#[derive(Clone, Copy)]
pub(crate) struct Watched {
    pub(crate) channel: u32,
    pub(crate) takes: bool,
    pub(crate) puts: bool,
}

/// What is looked up at each step.
#[derive(Drop)]
pub(crate) struct Links {
    /// Of each segment, the channels of which it sees something, ascending.
    pub(crate) watched: Vec<Items<Watched>>,
    /// Of each segment, the variables that it reads and doesn't write, ascending.
    pub(crate) only_read: Vec<Items<u32>>,
    /// Of each event, the processes that have a segment whose entry waits on it.
    pub(crate) waiters: Vec<Items<u32>>,
    /// Of each channel, the numbers of its events.
    pub(crate) channel_events: Vec<Items<u32>>,
    /// Of each process, its first segment.
    pub(crate) starts: Vec<u32>,
    /// Of each segment, the processes that a front of it can hold up.
    pub(crate) reaches: Reaches,
}

impl Links {
    /// What is looked up of a sound design with its tables.
    ///
    /// # Errors
    ///
    /// Only where memory runs out.
    pub(crate) fn make(alloc: Global, design: &Design, tables: &Tables) -> Result<Links, AllocError>
        requires sound { IsSound design.now }
        requires few { IsFew design.now }
        requires tables { AreTables design.now tables.now }
        requires waits { WaitsOnEvents design.now tables.now.access }
        ensures { IfOk result (AreLinks design.now tables.now) }
    {
        ooo_fronts::law::tables_are_aligned();
        let access = tables.access.as_slice();
        let segments = tables.graph.segments.as_slice();
        let starts = all_starts(alloc, design, segments)?;
        let reaches = keeping!(starts; Reaches::make(alloc, tables));
        let watched = keeping!(starts, reaches; all_watched(alloc, design, access));
        let only_read = keeping!(starts, reaches, watched; all_only_read(alloc, access));
        let waiters = all_waiters(alloc, design, segments, access);
        let waiters = keeping!(starts, reaches, watched, only_read; waiters);
        let channel_events = all_channel_events(alloc, design);
        let channel_events = keeping!(starts, reaches, watched, only_read, waiters; channel_events);
        Ok(Links {
            watched,
            only_read,
            waiters,
            channel_events,
            starts,
            reaches,
        })
    }

    /// The segment of process `p` that begins at an entry, of which there is one.
    pub(crate) fn segment(&self, segments: &[Segment], p: u32, entry: SegmentEntry) -> u32
        requires { HasSegment self.now segments.now p entry }
        ensures within { result < length segments.now }
        ensures at { (design : DesignSpec) (limits : LimitsSpec) (t : TablesSpec) →
            t.graph.segments ≡ segments.now →
            result ≡ segment_at (rules_of design limits t) p entry }
    {
        let mut g = self.starts[p as usize] as usize;
        while g < segments.len() {
            if is_at(&segments[g], p, entry) {
                return g as u32;
            }
            g += 1;
        }
        unreachable!()
    }
}

// Whether a segment is that of process `p` that begins at an entry.
fn is_at(segment: &Segment, p: u32, entry: SegmentEntry) -> bool
    ensures { result ≡ begins_at p entry segment.now }
{
    segment.process == p && segment.entry == entry
}

// Of each of these accesses, what is seen of channels.
fn all_watched(
    alloc: Global,
    design: &Design,
    access: &[Access],
) -> Result<Vec<Items<Watched>>, AllocError>
    requires in_order { All IsInOrder access.now }
    requires few { IsFew design.now }
    ensures { IfOk result (λ lists.
        lists.items ≡ map (λ a. watched_from a 0 design.now.channels) access.now) }
{
    let mut lists = Vec::with_capacity(alloc, access.len())?;
    for one in access {
        lists.push_reserved(keeping!(lists; watched_by(alloc, design, one)));
    }
    Ok(lists)
}

// What a segment with this access sees of channels. The three lists are gone through once, beside the channels.
fn watched_by(alloc: Global, design: &Design, access: &Access) -> Result<Items<Watched>, AllocError>
    requires in_order { IsInOrder access.now }
    requires few { IsFew design.now }
    ensures { IfOk result (λ all. all ≡ watched_from access.now 0 design.now.channels) }
{
    let channels = design.channels.as_slice();
    let mut all = Items::new(alloc);
    let mut signals = 0;
    let mut taken = 0;
    let mut put = 0;
    for c in 0..channels.len() as u32 {
        let reads = comes_next(access.signals_read.as_slice(), &mut signals, c);
        let takes = comes_next(access.takes.as_slice(), &mut taken, c);
        let puts = comes_next(access.puts.as_slice(), &mut put, c);
        let ends = Watched {
            channel: c,
            takes,
            puts,
        };
        keeping!(all; add_watched(&mut all, channels[c as usize].kind, reads, ends));
    }
    Ok(all)
}

// Whether a number is the next of ascending ones, which is then passed.
#[inline(always)]
fn comes_next(numbers: &[u32], at: &mut usize, c: u32) -> bool
    requires ascending { AreAscending numbers.now }
    requires up_to { IsUpTo numbers.now at.old c }
    ensures has { result ≡ has numbers.now c }
    ensures up_to { IsUpTo numbers.now at.new (c + 1) }
{
    if *at < numbers.len() && numbers[*at] == c {
        *at += 1;
        return true;
    }
    false
}

// Adds what is seen of a channel, if something is: of a signal, if it is read, and of a fifo, if an end is held.
fn add_watched(
    all: &mut Items<Watched>,
    kind: ChannelKind,
    reads: bool,
    ends: Watched,
) -> Result<(), AllocError>
    ensures { OnOk result (all.new
        ≡ all.old ++ watched_if reads ends.takes ends.puts ends.channel kind) }
{
    match kind {
        ChannelKind::Signal => add_if(all, reads, signal(ends.channel)),
        ChannelKind::Fifo => add_if(all, ends.takes || ends.puts, ends),
    }
}

// A signal that is watched.
#[inline(always)]
fn signal(channel: u32) -> Watched
    ensures { result ≡ record { channel = channel; takes = false; puts = false } }
{
    Watched {
        channel,
        takes: false,
        puts: false,
    }
}

// Adds a channel, if it is watched.
fn add_if(all: &mut Items<Watched>, watched: bool, channel: Watched) -> Result<(), AllocError>
    ensures { OnOk result (all.new ≡ all.old ++ (if watched then channel ∷ [] else [])) }
{
    if watched {
        return all.push(channel);
    }
    Ok(())
}

// Of each of these accesses, the variables that are read and not written.
fn all_only_read(alloc: Global, access: &[Access]) -> Result<Vec<Items<u32>>, AllocError>
    requires { All IsInOrder access.now }
    ensures { IfOk result (λ lists. lists.items ≡ map only_read access.now) }
{
    let mut lists = Vec::with_capacity(alloc, access.len())?;
    for one in access {
        lists.push_reserved(keeping!(lists; not_written(alloc, one)));
    }
    Ok(lists)
}

// The variables that are read and not written.
fn not_written(alloc: Global, access: &Access) -> Result<Items<u32>, AllocError>
    requires { IsInOrder access.now }
    ensures { IfOk result (λ numbers. numbers ≡ only_read access.now) }
{
    let mut numbers = Items::new(alloc);
    for x in access.read.as_slice() {
        if !contains(access.written.as_slice(), *x) {
            keeping!(numbers; numbers.push(*x));
        }
    }
    Ok(numbers)
}

// Whether a number is among ascending ones.
fn contains(numbers: &[u32], x: u32) -> bool
    requires { AreAscending numbers.now }
    ensures { result ≡ has numbers.now x }
{
    numbers.binary_search(&x).is_ok()
}

// Of each event, who may wait on it.
fn all_waiters(
    alloc: Global,
    design: &Design,
    segments: &[Segment],
    access: &[Access],
) -> Result<Vec<Items<u32>>, AllocError>
    requires segments { All (IsSegment design.now) segments.now }
    requires access { AreAccesses design.now segments.now access.now }
    requires waits { WaitsOnEvents design.now access.now }
    ensures { IfOk result (λ lists.
        AreWaiters design.now (length segments.now) segments.now access.now lists.items) }
{
    let mut waiters = empty_lists(alloc, design.events.len())?;
    for (g, segment) in segments.iter().enumerate() {
        keeping!(waiters; add_waiter(&mut waiters, access[g].waited.as_slice(), segment.process));
    }
    Ok(waiters)
}

// Adds a process to those that may wait on each of these events.
fn add_waiter(waiters: &mut Vec<Items<u32>>, events: &[u32], p: u32) -> Result<(), AllocError>
    requires { All (λ e. e < length waiters.old.items) events.now }
    ensures { OnOk result (Adds events.now p waiters.old.items waiters.new.items) }
{
    for e in events {
        add_once(waiters, *e, p)?;
    }
    Ok(())
}

// Of each channel, the numbers of its events.
fn all_channel_events(alloc: Global, design: &Design) -> Result<Vec<Items<u32>>, AllocError>
    requires sound { IsSound design.now }
    requires few { IsFew design.now }
    ensures { IfOk result (λ lists.
        AreChannelEvents design.now (length design.now.events) lists.items) }
{
    let mut lists = empty_lists(alloc, design.channels.len())?;
    let events = design.events.as_slice();
    for e in 0..events.len() as u32 {
        keeping!(lists; add_event(design, &mut lists, e, events[e as usize]));
    }
    Ok(lists)
}

// An event stands in the list of its channel, if it is of one.
fn add_event(
    design: &Design,
    lists: &mut Vec<Items<u32>>,
    e: u32,
    event: BoundEvent,
) -> Result<(), AllocError>
    requires sound { IsSound design.now }
    requires event { slice_get design.now.events e ≡ Some event }
    requires so_far { AreChannelEvents design.now e lists.old.items }
    ensures { OnOk result (AreChannelEvents design.now (e + 1) lists.new.items) }
{
    match channel(event) {
        Some(c) => add_once(lists, c, e),
        None => Ok(()),
    }
}

// The channel of an event, if it is of one.
fn channel(event: BoundEvent) -> Option<u32>
    ensures { MatchOption result (event ≡ own.Own)
        (λ c. (event ≢ own.Own) × (channel_of event ≡ c)) }
{
    match event {
        BoundEvent::Own => None,
        BoundEvent::Changed(c)
        | BoundEvent::Rise(c)
        | BoundEvent::Fall(c)
        | BoundEvent::Written(c)
        | BoundEvent::Taken(c) => Some(c),
    }
}

// So many lists without elements.
fn empty_lists(alloc: Global, count: usize) -> Result<Vec<Items<u32>>, AllocError>
    ensures { IfOk result (λ lists. lists.items ≡ replicate count []) }
{
    let mut lists = Vec::with_capacity(alloc, count)?;
    for _list in 0..count {
        lists.push_reserved(Items::new(alloc));
    }
    Ok(lists)
}

// Adds a number to a list, unless it stands last there.
fn add_once(lists: &mut Vec<Items<u32>>, at: u32, n: u32) -> Result<(), AllocError>
    requires { at < length lists.old.items }
    ensures { OnOk result (Adds (at ∷ []) n lists.old.items lists.new.items) }
{
    if is_last(lists[at as usize].as_slice(), n) {
        return Ok(());
    }
    lists[at as usize].push(n)
}

// Whether a number is the last of these.
fn is_last(numbers: &[u32], n: u32) -> bool
    ensures { IsTrue result → Contains numbers.now n }
{
    numbers.last().copied() == Some(n)
}

// Of each process, its first segment.
fn all_starts(alloc: Global, design: &Design, segments: &[Segment]) -> Result<Vec<u32>, AllocError>
    requires segments { All (IsSegment design.now) segments.now }
    requires few { length segments.now ≤ greatest_segments }
    ensures { IfOk result (λ starts. AreStarts design.now 0 segments.now starts.items) }
{
    let mut starts = vec![in alloc; 0; design.processes.len()]?;
    let mut g = segments.len();
    while g > 0 {
        g -= 1;
        starts[segments[g].process as usize] = g as u32;
    }
    Ok(starts)
}
