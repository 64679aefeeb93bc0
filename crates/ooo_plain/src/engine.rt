ghost use Rattle.std.specs.Prelude.{◌≡◌, ◌+◌, ◌<◌, ◌≤◌, ◌^◌, length, IfOk, IfSome, OnOk, ◌||◌, [], ◌∷◌};
ghost use Rattle.std.specs.List.{list_any};
ghost use Rattle.ooo_time.specs.Scales.{greatest_time};
ghost use Rattle.ooo_events.specs.Slots.{due_of};
ghost use Rattle.ooo_code.specs.declared.design.Design.{Design as DesignSpec};
ghost use Rattle.ooo_code.specs.Sound.{IsSound};
ghost use Rattle.ooo_channels.specs.Conditions.{IsCountableStamp};
ghost use Rattle.ooo_interp.specs.Acting.{job_end};
ghost use Rattle.ooo_meaning.specs.World.{timeout_of};
ghost use Rattle.ooo_channels.specs.Operations.{Operations};
ghost use Rattle.ooo_meaning.specs.World.{World};
ghost use Rattle.ooo_plain.specs.Engine.{IsFew, MayAct, Acts, MayApply, Applied, MayRefresh, Refreshed, MayTouch, Touches, is_stop, Noted, MayClose, Closed, Turned, Mirrors, MayTurn};
ghost use Rattle.ooo_plain.specs.Tracking.{IsPlannedBut};

use crate::bank_fifos::BankFifos;
use crate::laws::laws;
use crate::ports::open_ports;
use crate::schedule::Schedule;
use ooo_channels::Bank;
use ooo_code::{Cells, Design, Effect, SegmentEntry};
use ooo_history::End;
use ooo_interp::{Emitted, Halt, Ports, Start, Whole, run_process};
use ooo_time::{Place, Stamp, Time, after};
use ooo_value::Value;
use std::alloc::{AllocError, Global};
use std::mem;

/// Where a process is: where it goes on, or went on last, and its locals.
#[derive(Drop)]
pub struct Process {
    pub entry: SegmentEntry,
    pub slots: Vec<Value>,
}

/// A run within a cycle.
#[derive(Drop)]
pub struct Engine {
    pub stamp: Stamp,
    pub schedule: Schedule,
    pub processes: Vec<Process>,
    /// Of each process, the numbers of the channels that its nodes are shown something of, ascending.
    pub shown_channels: Vec<Vec<u32>>,
    /// Of each channel, the numbers of its events.
    pub channel_events: Vec<Vec<u32>>,
    pub bank: Bank,
    pub variables: Vec<Cells>,
    /// The ports of the last process that ran. Their memory is used again.
    pub ports: Ports,
    pub output: Vec<u8>,
    /// The stamp of the last activation.
    pub last: Stamp,
    pub activations: u128,
    pub stopped: bool,
}

impl Engine {
    // A process runs from where it is: what it emitted, and how its activation ended.
    #[inline(always)]
    fn act<'a>(
        &mut self,
        alloc: Global,
        design: &'a Design,
        emitted: &mut Emitted,
        p: u32,
        statements: u32,
    ) -> Result<Halt<'a>, AllocError>
        requires sound { IsSound design.now }
        requires few { IsFew design.now }
        requires may { MayAct design.now self.old p }
        ensures { IfOk result (Acts design.now statements p self.old self.new emitted.new) }
    {
        laws();
        let at = p as usize;
        let channels = &self.shown_channels[at];
        open_ports(&mut self.ports, design, &self.bank, self.stamp, channels)?;
        let process = &mut self.processes[at];
        let start = Start {
            process: p,
            entry: process.entry,
            stamp: self.stamp,
            statements,
        };
        let mut lent = Whole {
            slots: mem::replace(&mut process.slots, Vec::new(alloc)),
            variables: mem::replace(&mut self.variables, Vec::new(alloc)),
            ports: mem::replace(&mut self.ports, Ports::new(alloc)),
            fifos: BankFifos::new(design, &self.bank, self.stamp),
        };
        let halt = keeping!(lent; run_process(&mut lent, emitted, design, start));
        let Whole {
            slots,
            variables,
            ports,
            fifos: _,
        } = lent;
        self.variables = variables;
        self.ports = ports;
        let process = &mut self.processes[at];
        process.entry = halt.entry_after(start.entry);
        process.slots = slots;
        Ok(halt)
    }

    // Applies the effects of an activation now.
    fn apply(&mut self, effects: &[Effect]) -> Result<(), AllocError>
        requires { MayApply self.old effects.now }
        ensures { OnOk result (Applied effects.now self.old self.new) }
    {
        self.bank.reserve(effects)?;
        self.bank.apply(effects, self.stamp);
        Ok(())
    }

    // Asks anew when those are due that wait on what effects touched.
    fn refresh(&mut self, design: &Design, effects: &[Effect]) -> Result<(), AllocError>
        requires { MayRefresh design.now self.old effects.now }
        ensures { OnOk result (Refreshed design.now effects.now self.old self.new) }
    {
        for effect in effects {
            self.refresh_for(design, *effect)?;
        }
        Ok(())
    }

    // Asks anew when those are due that wait on what an effect touched.
    fn refresh_for(&mut self, design: &Design, effect: Effect) -> Result<(), AllocError>
        requires { MayRefresh design.now self.old (effect ∷ []) }
        ensures { OnOk result (Refreshed design.now (effect ∷ []) self.old self.new) }
    {
        let _events = design.events.len();
        match effect {
            Effect::Request(c, _) | Effect::Put(c, _) | Effect::Take(c) => self.touch_channel(c),
            Effect::Notify(e, _) | Effect::Cancel(e) => {
                self.schedule.touch(e, &self.bank, self.stamp)
            }
            Effect::Stop => Ok(()),
        }
    }

    // Asks anew when those are due that wait on an event of a channel.
    fn touch_channel(&mut self, c: u32) -> Result<(), AllocError>
        requires { MayTouch self.old c }
        ensures { OnOk result (Touches c self.old self.new) }
    {
        let events = self.channel_events[c as usize].as_slice();
        self.schedule.touch_all(events, &self.bank, self.stamp)
    }

    // Adds an activation's output, and notes whether it called `sc_stop`.
    fn note(&mut self, output: &[u8], effects: &[Effect]) -> Result<(), AllocError>
        requires { self.old.activations + 1 < 2 ^ 128 }
        ensures { OnOk result (Noted output.now effects.now self.old self.new) }
    {
        self.output.extend_from_slice(output)?;
        self.last = self.stamp;
        self.activations += 1;
        self.stopped = either(self.stopped, stops(effects));
        Ok(())
    }

    // A process ends its activation: it waits, or it ends the run.
    #[inline(always)]
    fn close(&mut self, alloc: Global, p: u32, halt: Halt<'_>) -> Result<Option<End>, AllocError>
        requires { (design : DesignSpec) × MayClose design self.old p (job_end halt) }
        ensures { IfOk result (λ o. Closed p (job_end halt.entry) o self.old self.new) }
    {
        let place = Place {
            stamp: self.stamp,
            process: p,
        };
        match halt {
            Halt::Waits(_, on) => {
                let timeout = timeout_due(self.stamp, on.time);
                let events = on.events.as_slice();
                self.schedule
                    .wait(alloc, p as usize, events, timeout, &self.bank, self.stamp)?;
                Ok(None)
            }
            Halt::Ended => {
                self.schedule
                    .wait(alloc, p as usize, &[], None, &self.bank, self.stamp)?;
                Ok(None)
            }
            Halt::Faulted(fault, line) => Ok(Some(End::Fault(fault, place, line))),
            Halt::Limit(line) => Ok(Some(End::Statements(place, line))),
        }
    }

    /// A process that was taken off has its turn, and emits into what it is lent for that: how that ended the run, if it
    /// did.
    ///
    /// # Errors
    ///
    /// Only where memory runs out.
    pub fn turn(
        &mut self,
        alloc: Global,
        design: &Design,
        emitted: &mut Emitted,
        p: u32,
        statements: u32,
    ) -> Result<Option<End>, AllocError>
        requires sound { IsSound design.now }
        requires few { IsFew design.now }
        requires may { MayTurn design.now self.old p }
        requires counts { self.old.activations + 1 < 2 ^ 128 }
        ensures { IfOk result (λ o. (w : World) (ops : Operations) →
            Mirrors design.now self.old ops w → IsPlannedBut p self.old.schedule w →
            Turned design.now statements p o self.old self.new w) }
    {
        laws();
        let halt = got!(self.act(alloc, design, emitted, p, statements));
        got!(self.apply(&emitted.effects));
        got!(self.refresh(design, &emitted.effects));
        got!(self.note(&emitted.output, &emitted.effects));
        self.close(alloc, p, halt)
    }
}

// When a time-out is due that begins now.
fn timeout_due(now: Stamp, time: Option<Time>) -> Option<Stamp>
    requires now { IsCountableStamp now }
    requires time { IfSome time (λ k. k.0 ≤ greatest_time) }
    ensures { result ≡ due_of (timeout_of now time) }
{
    match time {
        None => None,
        Some(k) => Some(after(now, k)),
    }
}

// Whether one of these holds.
fn either(a: bool, b: bool) -> bool
    ensures { result ≡ (a || b) }
{
    a || b
}

// Whether an effect is a call of `sc_stop`, among many.
fn stops(effects: &[Effect]) -> bool
    ensures { result ≡ list_any is_stop effects.now }
{
    effects.iter().any(|effect| is_stop(*effect))
}

// Whether an effect is a call of `sc_stop`.
fn is_stop(effect: Effect) -> bool
    ensures { result ≡ is_stop effect }
{
    match effect {
        Effect::Stop => true,
        Effect::Request(_, _)
        | Effect::Put(_, _)
        | Effect::Take(_)
        | Effect::Notify(_, _)
        | Effect::Cancel(_) => false,
    }
}
