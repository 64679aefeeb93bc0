ghost use Rattle.std.specs.Prelude.{◌≡◌, ◌≢◌, ◌+◌, ◌<◌, ◌^◌, ◌++◌, [], ◌∷◌, length, IfOk, OnOk, MatchOption, Some, slice_get, slice_set, slice_index_or};
ghost use Rattle.ooo_code.specs.Sound.{IsSound};
ghost use Rattle.ooo_value.specs.declared.bound.BoundEvent.TheVariants as own;
ghost use Rattle.ooo_channels.specs.Bank.{IsBankAfter};
ghost use Rattle.ooo_channels.specs.Calls.{channel_of};
ghost use Rattle.ooo_plain.specs.Engine.{IsFew, AreShownChannels, AreChannelEvents};
ghost use Rattle.ooo_plain.specs.Schedule.{lists_of, AreEmpty};
ghost use Rattle.ooo_plain.specs.Starting.{zeros_of, first_cells, AreFirstProcesses, AreBegun, AreFirstChannelEvents, Starts, first_operations};

use crate::engine::{Engine, Process};
use crate::laws::laws;
use crate::schedule::Schedule;
use crate::touching::all_shown_channels;
use ooo_channels::Bank;
use ooo_code::{Cells, Design, Proc, SegmentEntry};
use ooo_interp::Ports;
use ooo_time::{Stamp, Time};
use ooo_value::{BoundEvent, BoundVariable, Kind, Value};
use sqlite_items::Items;
use std::alloc::{AllocError, Global};

/// The engine as a run of a design starts, before initialization (IEEE 1666-2011, 4.2.1.1).
///
/// # Errors
///
/// Only where memory runs out.
pub fn start(alloc: Global, design: &Design) -> Result<Engine, AllocError>
    requires sound { IsSound design.now }
    requires few { IsFew design.now }
    ensures { IfOk result (Starts design.now) }
{
    let bank = Bank::make(alloc, design)?;
    let schedule = keeping!(bank; begin(alloc, design, &bank));
    let parts = keeping!(bank, schedule; parts_of(alloc, design));
    Ok(assemble(alloc, design, bank, schedule, parts))
}

// What an engine starts with, beside its bank and its schedule.
#[derive(Drop)]
struct Parts {
    processes: Vec<Process>,
    shown_channels: Vec<Vec<u32>>,
    channel_events: Vec<Vec<u32>>,
    variables: Vec<Cells>,
}

// What an engine of a design starts with, beside its bank and its schedule.
fn parts_of(alloc: Global, design: &Design) -> Result<Parts, AllocError>
    requires sound { IsSound design.now }
    requires few { IsFew design.now }
    ensures processes { IfOk result (λ parts.
        AreFirstProcesses design.now.processes parts.processes.items) }
    ensures shown { IfOk result (λ parts. let lists = lists_of parts.shown_channels.items in
        AreShownChannels design.now (length design.now.processes) lists) }
    ensures channel_events { IfOk result (λ parts.
        AreChannelEvents design.now (lists_of parts.channel_events.items)) }
    ensures variables { IfOk result (λ parts.
        parts.variables.items ≡ first_cells design.now.variables) }
{
    let processes = first_processes(alloc, design.processes.as_slice())?;
    let shown_channels = keeping!(processes; all_shown_channels(alloc, design));
    let channel_events = keeping!(processes, shown_channels; all_channel_events(alloc, design));
    let variables = keeping!(
        processes, shown_channels, channel_events;
        first_variables(alloc, design.variables.as_slice())
    );
    Ok(Parts {
        processes,
        shown_channels,
        channel_events,
        variables,
    })
}

// The engine of its parts.
fn assemble(alloc: Global, design: &Design, bank: Bank, schedule: Schedule, parts: Parts) -> Engine
    requires sound { IsSound design.now }
    requires begun { AreBegun design.now (length design.now.processes) schedule }
    requires bank { IsBankAfter bank (first_operations design.now) }
    requires processes { AreFirstProcesses design.now.processes parts.processes.items }
    requires shown { let lists = lists_of parts.shown_channels.items in
        AreShownChannels design.now (length design.now.processes) lists }
    requires channel_events { AreChannelEvents design.now (lists_of parts.channel_events.items) }
    requires variables { parts.variables.items ≡ first_cells design.now.variables }
    ensures { Starts design.now result }
{
    laws();
    let stamp = Stamp {
        time: Time::ZERO,
        delta: 0,
    };
    Engine {
        stamp,
        schedule,
        processes: parts.processes,
        shown_channels: parts.shown_channels,
        channel_events: parts.channel_events,
        bank,
        variables: parts.variables,
        ports: Ports::new(alloc),
        output: Vec::new(alloc),
        last: stamp,
        activations: 0,
        stopped: false,
    }
}

// Who is due, and who waits, as the run starts: a process that is initialized is due at time zero, another one waits on its
// static events.
fn begin(alloc: Global, design: &Design, bank: &Bank) -> Result<Schedule, AllocError>
    requires sound { IsSound design.now }
    requires few { IsFew design.now }
    requires bank { IsBankAfter bank.now (first_operations design.now) }
    ensures { IfOk result (AreBegun design.now (length design.now.processes)) }
{
    let processes = design.processes.as_slice();
    let mut schedule = Schedule::new(alloc, processes.len(), design.events.len())?;
    for p in 0..processes.len() {
        keeping!(schedule; begin_one(alloc, design, bank, &mut schedule, p));
    }
    Ok(schedule)
}

// One process more.
fn begin_one(
    alloc: Global,
    design: &Design,
    bank: &Bank,
    schedule: &mut Schedule,
    p: usize,
) -> Result<(), AllocError>
    requires sound { IsSound design.now }
    requires bank { IsBankAfter bank.now (first_operations design.now) }
    requires within { p < length design.now.processes }
    requires begun { AreBegun design.now p schedule.old }
    ensures { OnOk result (AreBegun design.now (p + 1) schedule.new) }
{
    laws();
    let process = &design.processes.as_slice()[p];
    let zero = Stamp {
        time: Time::ZERO,
        delta: 0,
    };
    if process.initialize {
        return schedule.agenda.set(p, Some(zero));
    }
    schedule.wait(alloc, p, process.sensitive.as_slice(), None, bank, zero)
}

// Each process at its start.
fn first_processes(alloc: Global, bound: &[Proc]) -> Result<Vec<Process>, AllocError>
    ensures { IfOk result (λ made. AreFirstProcesses bound.now made.items) }
{
    let mut made = Vec::new(alloc);
    for process in bound {
        let slots = keeping!(made; zeros(alloc, process.slots.as_slice()));
        made.push(Process {
            entry: SegmentEntry::Start,
            slots,
        })?;
    }
    Ok(made)
}

// A 0 of each kind.
fn zeros(alloc: Global, kinds: &[Kind]) -> Result<Vec<Value>, AllocError>
    ensures { IfOk result (λ values. values.items ≡ zeros_of kinds.now) }
{
    kinds.iter().map(|kind| kind.zero()).collect(alloc)
}

// Each variable with its start value.
fn first_variables(alloc: Global, bound: &[BoundVariable]) -> Result<Vec<Cells>, AllocError>
    ensures { IfOk result (λ made. made.items ≡ first_cells bound.now) }
{
    let mut made = Vec::new(alloc);
    for x in bound {
        let cells = vec![in alloc; x.start; x.length as usize]?;
        made.push(Items::from_vec(cells))?;
    }
    Ok(made)
}

// Of each channel, the numbers of its events.
fn all_channel_events(alloc: Global, design: &Design) -> Result<Vec<Vec<u32>>, AllocError>
    requires sound { IsSound design.now }
    requires few { IsFew design.now }
    ensures { IfOk result (λ lists. AreChannelEvents design.now (lists_of lists.items)) }
{
    let mut channel_events = no_events(alloc, design.channels.len())?;
    let events = design.events.as_slice();
    for e in 0..events.len() {
        keeping!(channel_events; add_event(design, &mut channel_events, e, events[e]));
    }
    Ok(channel_events)
}

// So many lists without elements.
fn no_events(alloc: Global, count: usize) -> Result<Vec<Vec<u32>>, AllocError>
    ensures { IfOk result (λ lists. AreEmpty count lists.items) }
{
    let mut lists = Vec::new(alloc);
    for _channel in 0..count {
        lists.push(Vec::new(alloc))?;
    }
    Ok(lists)
}

// An event stands in the list of its channel, if it is of one.
fn add_event(
    design: &Design,
    channel_events: &mut Vec<Vec<u32>>,
    e: usize,
    event: BoundEvent,
) -> Result<(), AllocError>
    requires sound { IsSound design.now }
    requires few { IsFew design.now }
    requires event { slice_get design.now.events e ≡ Some event }
    requires so_far { AreFirstChannelEvents design.now e (lists_of channel_events.old.items) }
    ensures { OnOk result (AreFirstChannelEvents design.now (e + 1)
        (lists_of channel_events.new.items)) }
{
    match channel_of(event) {
        Some(c) => add_to(channel_events, c, e as u32),
        None => Ok(()),
    }
}

// The channel of an event, if it is of one.
fn channel_of(event: BoundEvent) -> Option<u32>
    ensures { MatchOption result (event ≡ own.Own)
        (λ c. (event ≢ own.Own) × (channel_of event ≡ c)) }
{
    match event {
        BoundEvent::Own => None,
        BoundEvent::Changed(c)
        | BoundEvent::Rise(c)
        | BoundEvent::Fall(c)
        | BoundEvent::Written(c)
        | BoundEvent::Taken(c) => Some(c),
    }
}

// A number is added to a list.
fn add_to(lists: &mut Vec<Vec<u32>>, c: u32, e: u32) -> Result<(), AllocError>
    requires { c < length lists.old.items }
    ensures { let old = lists_of lists.old.items in
        OnOk result (lists_of lists.new.items
        ≡ slice_set old c (slice_index_or old c [] ++ e ∷ [])) }
{
    lists[c as usize].push(e)?;
    Ok(())
}
