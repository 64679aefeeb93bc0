ghost use Rattle.std.specs.Prelude.{◌≡◌, false, IfOk, OnOk, OnErr};
ghost use Rattle.ooo_plain.specs.declared.agenda.Due.{Due as DueSpec};
ghost use Rattle.ooo_plain.specs.Row.{IsFirstOf, IsLowest, Loses, Gains};
ghost use Rattle.std.specs.BTreeSet.{contains};
ghost use Rattle.ooo_plain.specs.Agenda.{due_cmp};
ghost use Rattle.ooo_plain.specs.DueQueue.{is_in};

use crate::agenda::Due;
use crate::deltas::Deltas;
use crate::row::lower;
use std::alloc::{AllocError, Global};
use std::collections::BTreeSet;
use std::marker::Model;

/// Processes and the stamps at which they are due. Those of delta cycles that come in ascending order stand in rows, and all
/// others in an ordered queue.
#[derive(Drop)]
pub struct DueQueue {
    rows: Deltas,
    others: BTreeSet<Due>,
}

impl Model for DueQueue {
    ghost use Rattle.std.specs.BTreeSet.{contains};
    ghost use Rattle.ooo_plain.specs.Agenda.{due_cmp};
    ghost use Rattle.ooo_plain.specs.Row.{AreApart};
    ghost use Rattle.ooo_plain.specs.Deltas.{stands_among};
    ghost use Rattle.ooo_plain.specs.DueQueue.{QueueState};

    ghost Value = { QueueState };

    ghost view = { λ q. record { rows = q.rows; others = q.others } };

    ghost invariant = { λ q. AreApart (stands_among q.rows) (contains due_cmp q.others) };
}

impl DueQueue {
    /// A queue in which nobody is. It takes no memory.
    pub fn new(alloc: Global) -> DueQueue
        ensures { (k : DueSpec) → is_in result k ≡ false }
    {
        DueQueue {
            rows: Deltas::new(alloc),
            others: BTreeSet::new(alloc),
        }
    }

    /// The first of all.
    #[inline(always)]
    pub fn first(&self) -> Option<Due>
        ensures { IsFirstOf (is_in self.now) result }
    {
        lower(self.rows.first(), first_of(&self.others))
    }

    /// Takes the first of all off.
    pub fn take(&mut self, first: Due)
        requires { IsLowest (is_in self.old) first }
        ensures { Loses first (is_in self.old) (is_in self.new) }
    {
        if self.rows.remove(first) {
            return;
        }
        self.others.pop_first();
    }

    /// Takes one out.
    pub fn remove(&mut self, due: Due)
        ensures { Loses due (is_in self.old) (is_in self.new) }
    {
        if self.rows.remove(due) {
            return;
        }
        self.others.remove(&due);
    }

    /// Adds one that isn't in it.
    ///
    /// # Errors
    ///
    /// Only where memory runs out; the queue is then as it was.
    pub fn insert(&mut self, due: Due) -> Result<(), AllocError>
        requires { is_in self.old due ≡ false }
        ensures done { OnOk result (Gains due (is_in self.old) (is_in self.new)) }
        ensures failed { OnErr result (self.new ≡ self.old) }
    {
        if self.rows.push(due)? {
            return Ok(());
        }
        self.others.insert(due)?;
        Ok(())
    }
}

// The first of a queue.
#[inline(always)]
fn first_of(others: &BTreeSet<Due>) -> Option<Due>
    ensures { IsFirstOf (contains due_cmp others.now) result }
{
    let first = *others.first()?;
    Some(first)
}
