ghost use Rattle.std.specs.Prelude.{◌≡◌, ◌<◌, None, OnOk, IfOk, replicate, IfSome, IfNone, length, slice_set, IsTrue};
ghost use Rattle.ooo_meaning.specs.World.{least};
ghost use Rattle.ooo_plain.specs.Agenda.{due_in, AllFrom, Takes, TakesNone};

use crate::due_queue::DueQueue;
use ooo_time::Stamp;
use std::alloc::{AllocError, Global};
use std::marker::Model;

/// A process by its number, and the stamp at which it is due. The least is the next to run.
#[derive(Clone, Copy, PartialEq, Eq, PartialOrd, Ord)]
pub struct Due {
    pub stamp: Stamp,
    pub process: usize,
}

/// When each process is due, and the next of them.
#[derive(Drop)]
pub struct Agenda {
    dues: Vec<Option<Stamp>>,
    queue: DueQueue,
}

impl Model for Agenda {
    ghost use Rattle.std.specs.Prelude.{List, Option};
    ghost use Rattle.ooo_time.specs.declared.stamp.Stamp.{Stamp};
    ghost use Rattle.ooo_plain.specs.DueQueue.{IsExact};

    ghost Value = { List (Option Stamp) };

    ghost view = { λ a. a.dues.items };

    ghost invariant = { λ a. IsExact a.dues.items a.queue };
}

impl Agenda {
    /// So many processes, none of which is due.
    ///
    /// # Errors
    ///
    /// Only where memory runs out.
    pub fn new(alloc: Global, count: usize) -> Result<Agenda, AllocError>
        ensures { IfOk result (λ agenda. agenda ≡ replicate count None) }
    {
        Ok(Agenda {
            dues: vec![in alloc; None; count]?,
            queue: DueQueue::new(alloc),
        })
    }

    /// When a process is due.
    pub fn due(&self, p: usize) -> Option<Stamp>
        requires { p < length self.now }
        ensures { result ≡ due_in self.now p }
    {
        self.dues[p]
    }

    /// Sets when a process is due.
    ///
    /// # Errors
    ///
    /// Only where memory runs out.
    pub fn set(&mut self, p: usize, due: Option<Stamp>) -> Result<(), AllocError>
        requires { p < length self.old }
        ensures { OnOk result (self.new ≡ slice_set self.old p due) }
    {
        if is_same(self.due(p), due) {
            return Ok(());
        }
        self.renew(p, due)
    }

    // Sets when a process is due, whenever it was before.
    fn renew(&mut self, p: usize, due: Option<Stamp>) -> Result<(), AllocError>
        requires { p < length self.old }
        ensures { OnOk result (self.new ≡ slice_set self.old p due) }
    {
        self.clear(p);
        if let Some(stamp) = due {
            self.queue.insert(Due { stamp, process: p })?;
            self.dues[p] = due;
        }
        Ok(())
    }

    // A process is due no more.
    fn clear(&mut self, p: usize)
        requires { p < length self.old }
        ensures { self.new ≡ slice_set self.old p None }
    {
        if let Some(stamp) = self.dues[p] {
            self.queue.remove(Due { stamp, process: p });
            self.dues[p] = None;
        }
    }

    /// Takes off the lowest process that is due now, where none is due before.
    pub fn take(&mut self, now: Stamp) -> Option<usize>
        requires { AllFrom now self.old }
        ensures taken { IfSome result (λ p. Takes p now self.old self.new) }
        ensures none { IfNone result (TakesNone now self.old self.new) }
    {
        let first = self.queue.first()?;
        if now.is_before(first.stamp) {
            return None;
        }
        self.queue.take(first);
        self.dues[first.process] = None;
        Some(first.process)
    }

    /// The earliest stamp at which a process is due.
    pub fn first(&self) -> Option<Stamp>
        ensures { result ≡ least self.now }
    {
        Some(self.queue.first()?.stamp)
    }
}

// Whether two processes are due at the same stamp, or both are not.
fn is_same(a: Option<Stamp>, b: Option<Stamp>) -> bool
    ensures { IsTrue result → a ≡ b }
{
    a == b
}
