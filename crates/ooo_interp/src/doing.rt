ghost use Rattle.std.specs.Prelude.{◌≡◌, [], OnOk, Option};
ghost use Rattle.ooo_code.specs.Expressions.{Sight};
ghost use Rattle.ooo_code.specs.Nodes.{with_effect};
ghost use Rattle.ooo_interp.specs.Acting.{GoesWith, doing_of, entry_after};
ghost use Rattle.ooo_interp.specs.declared.doing.Pause.{Pause as PauseSpec};

use ooo_code::{Effect, Proc, SegmentEntry};
use ooo_time::{Stamp, Time};
use ooo_value::Fault;
use sqlite_items::Items;
use std::alloc::{AllocError, Global};

/// The process that acts, the entry of the segment that it runs, and the stamp at which.
#[derive(Drop)]
pub struct Activation<'a> {
    pub process: &'a Proc,
    pub entry: SegmentEntry,
    pub stamp: Stamp,
}

/// What an activation emitted so far: its output, and its effects in order. It is lent by who runs the activation. What it
/// holds is dropped as the next one begins, and its memory is used again.
#[derive(Drop)]
pub struct Emitted {
    pub output: Vec<u8>,
    pub effects: Vec<Effect>,
    /// How many statements the activation that ended last counted. No clause speaks of it: it is there for guessing how long
    /// the next activation of the process takes.
    pub counted: u32,
}

impl Emitted {
    /// Nothing emitted yet. It takes no memory.
    pub fn new(alloc: Global) -> Emitted
        ensures output { result.output.items ≡ [] }
        ensures effects { result.effects.items ≡ [] }
    {
        Emitted {
            output: Vec::new(alloc),
            effects: Vec::new(alloc),
            counted: 0,
        }
    }

    // Nothing is emitted, as an activation begins.
    pub(crate) fn clear(&mut self)
        ensures output { self.new.output.items ≡ [] }
        ensures effects { self.new.effects.items ≡ [] }
    {
        self.output.clear();
        self.effects.clear();
    }

    // Adds an effect, and goes on to a node.
    pub(crate) fn go_with<'a>(&mut self, effect: Effect, to: u32) -> Result<u32, Break<'a>>
        ensures { (s : Sight) (p : Option PauseSpec) →
            GoesWith effect to result (doing_of s self.old p) (doing_of s self.new p) }
    {
        self.add(effect)?;
        Ok(to)
    }

    // Adds an effect.
    pub(crate) fn add(&mut self, effect: Effect) -> Result<(), AllocError>
        ensures { OnOk result ((s : Sight) (p : Option PauseSpec) →
            doing_of s self.new p ≡ with_effect effect (doing_of s self.old p)) }
    {
        self.effects.push(effect)?;
        Ok(())
    }
}

/// What a process waits for: a time, events that its design lends, or both.
#[derive(Drop)]
pub struct Pause<'a> {
    pub time: Option<Time>,
    pub events: &'a Items<u32>,
}

/// How an activation ends. The last number is that of a line.
#[derive(Drop)]
pub enum Halt<'a> {
    /// Its process waits, and goes on from this entry.
    Waits(SegmentEntry, Pause<'a>),
    Ended,
    Faulted(Fault, u32),
    /// It would count one statement more than the statement limit.
    Limit(u32),
}

impl<'a> Halt<'a> {
    /// The entry from which the process goes on, whose activation began at an entry.
    pub fn entry_after(&self, began: SegmentEntry) -> SegmentEntry
        ensures { result ≡ entry_after began self.now }
    {
        match self {
            Halt::Waits(entry, _) => *entry,
            Halt::Ended | Halt::Faulted(_, _) | Halt::Limit(_) => began,
        }
    }
}

/// Why no node follows a node.
#[derive(Drop)]
pub enum Break<'a> {
    /// The activation is over.
    Halts(Halt<'a>),
    Faults(Fault),
    OutOfMemory,
}

impl<'a> From<Fault> for Break<'a> {
    ghost use Rattle.std.specs.Prelude.{◌≡◌};
    ghost use Rattle.ooo_interp.specs.declared.doing.Break.TheVariants.{Faults};

    ghost from_gives = { λ f b. b ≡ Faults f };

    fn from(fault: Fault) -> Break<'a> {
        Break::Faults(fault)
    }
}

impl<'a> From<AllocError> for Break<'a> {
    ghost use Rattle.std.specs.Prelude.{◌≡◌};
    ghost use Rattle.ooo_interp.specs.declared.doing.Break.TheVariants.{OutOfMemory};

    ghost from_gives = { λ _ b. b ≡ OutOfMemory };

    fn from(_error: AllocError) -> Break<'a> {
        Break::OutOfMemory
    }
}
