ghost use Rattle.std.specs.Prelude.{◌≡◌, false, IfOk, OnErr, MatchBool};
ghost use Rattle.ooo_plain.specs.declared.agenda.Due.{Due as DueSpec};
ghost use Rattle.ooo_plain.specs.Row.{IsFirstOf, Loses, Gains};
ghost use Rattle.ooo_plain.specs.Deltas.{stands_among};

use crate::agenda::Due;
use crate::row::{Row, lower};
use std::alloc::{AllocError, Global};
use std::marker::Model;

/// Processes that are due in delta cycles, in two rows: while those of the present cycle have their turns, others become due
/// in the next.
#[derive(Drop)]
pub struct Deltas {
    even: Row,
    odd: Row,
}

impl Model for Deltas {
    ghost use Rattle.ooo_plain.specs.Row.{AreApart, stands_in};
    ghost use Rattle.ooo_plain.specs.Deltas.{DeltasState};

    ghost Value = { DeltasState };

    ghost view = { λ d. record { even = d.even; odd = d.odd } };

    ghost invariant = { λ d. AreApart (stands_in d.even) (stands_in d.odd) };
}

impl Deltas {
    /// Two rows without processes. They take no memory.
    pub fn new(alloc: Global) -> Deltas
        ensures { (k : DueSpec) → stands_among result k ≡ false }
    {
        Deltas {
            even: Row::new(alloc),
            odd: Row::new(alloc),
        }
    }

    /// The lowest process of the earlier cycle, as it is due.
    #[inline(always)]
    pub fn first(&self) -> Option<Due>
        ensures { IsFirstOf (stands_among self.now) result }
    {
        lower(self.even.first(), self.odd.first())
    }

    /// Takes a process out that is due at a stamp. It answers whether it stood here.
    pub fn remove(&mut self, due: Due) -> bool
        ensures stood { result ≡ stands_among self.old due }
        ensures left { Loses due (stands_among self.old) (stands_among self.new) }
    {
        if self.even.remove(due) {
            return true;
        }
        self.odd.remove(due)
    }

    /// Puts a process that isn't there at the end of the row of its delta cycle, where that keeps the order. It answers
    /// whether it did.
    ///
    /// # Errors
    ///
    /// Only where memory runs out; the rows are then as they were.
    pub fn push(&mut self, due: Due) -> Result<bool, AllocError>
        requires { stands_among self.old due ≡ false }
        ensures done { IfOk result (λ done. MatchBool done
            (Gains due (stands_among self.old) (stands_among self.new)) (self.new ≡ self.old)) }
        ensures failed { OnErr result (self.new ≡ self.old) }
    {
        if due.stamp.delta % 2 == 0 {
            return self.even.push(due);
        }
        self.odd.push(due)
    }
}
