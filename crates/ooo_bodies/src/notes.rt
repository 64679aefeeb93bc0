ghost use Rattle.std.specs.Prelude.{◌≡◌, [], OnOk, Some, None};
ghost use Rattle.ooo_bodies.specs.Noting.{is_earlier, is_same, noted, precedes, told, with_note};
ghost use Rattle.ooo_checked.specs.Notes.{Breaks, Calls, Waits, Triggers, breach_when};

use ooo_checked::{Breach, TypeBreach};
use ooo_lexer::Position;
use sqlite_items::Items;
use std::alloc::{AllocError, Global};

/// A call, and the number of the member function that is called.
#[derive(Clone, Copy)]
pub struct Call {
    pub at: Position,
    pub function: usize,
}

/// What is kept of a text that is checked: the breach that is told of those met so far, and all calls, waits and
/// `next_trigger`s of a body in the order of the text.
#[derive(Drop)]
pub struct Notes {
    pub breach: Option<Breach>,
    pub calls: Items<Call>,
    pub waits: Items<Position>,
    pub triggers: Items<Position>,
}

impl Notes {
    /// Nothing is noted yet.
    pub fn new(alloc: Global) -> Notes
        ensures { result ≡ record { breach = None; calls = []; waits = []; triggers = [] } }
    {
        Notes {
            breach: None,
            calls: Items::new(alloc),
            waits: Items::new(alloc),
            triggers: Items::new(alloc),
        }
    }

    /// Notes a breach.
    pub fn breaks(&mut self, what: TypeBreach, at: Position)
        ensures { self.new ≡ with_note self.old (Breaks what at) }
    {
        self.breach = told(self.breach, Breach { what, at });
    }

    /// Notes a breach where something is so.
    pub fn breaks_when(&mut self, is_so: bool, what: TypeBreach, at: Position)
        ensures { self.new ≡ noted self.old (breach_when is_so what at) }
    {
        if is_so {
            self.breaks(what, at);
        }
    }

    /// Notes a call.
    pub fn calls(&mut self, at: Position, function: usize) -> Result<(), AllocError>
        ensures { OnOk result (self.new ≡ with_note self.old (Calls at function)) }
    {
        self.calls.push(Call { at, function })
    }

    /// Notes a wait.
    pub fn waits(&mut self, at: Position) -> Result<(), AllocError>
        ensures { OnOk result (self.new ≡ with_note self.old (Waits at)) }
    {
        self.waits.push(at)
    }

    /// Notes a `next_trigger`.
    pub fn triggers(&mut self, at: Position) -> Result<(), AllocError>
        ensures { OnOk result (self.new ≡ with_note self.old (Triggers at)) }
    {
        self.triggers.push(at)
    }
}

// Of the breach that was told so far and one more, the one that is told.
fn told(before: Option<Breach>, more: Breach) -> Option<Breach>
    ensures { result ≡ told before more }
{
    match before {
        Some(known) if !precedes(more, known) => Some(known),
        _ => Some(more),
    }
}

/// Whether a breach is told rather than the other.
pub fn precedes(a: Breach, b: Breach) -> bool
    ensures { result ≡ precedes a b }
{
    is_earlier(a.at, b.at) || (is_same(a.at, b.at) && a.what.rank() < b.what.rank())
}

fn is_earlier(a: Position, b: Position) -> bool
    ensures { result ≡ is_earlier a b }
{
    a.line < b.line || (a.line == b.line && a.column < b.column)
}

fn is_same(a: Position, b: Position) -> bool
    ensures { result ≡ is_same a b }
{
    a.line == b.line && a.column == b.column
}
