ghost use Rattle.std.specs.Prelude.{◌≡◌, ℕ, ◌^◌, ◌<◌, ◌≤◌, ◌⊎◌, ◌↔◌, [], false, true, length, replicate, slice_set, IsTrue, IfOk, OnOk};
ghost use Rattle.ooo_segments.specs.Numbers.{IsIn, AreNumbersOf};

use sqlite_items::Items;
use std::alloc::{AllocError, Global};
use std::marker::Model;

/// A set of numbers, which has a mark for each number up to the greatest one that it ever had.
#[derive(Drop)]
pub struct NumberSet {
    marks: Vec<bool>,
}

impl Model for NumberSet {
    ghost use Rattle.std.specs.Prelude.{◌^◌, ◌≤◌, Bool, List, length};

    ghost Value = { List Bool };

    ghost view = { λ s. s.marks.items };

    ghost invariant = { λ s. length s.marks.items ≤ 2 ^ 32 };
}

impl NumberSet {
    /// The empty set.
    pub fn new(alloc: Global) -> NumberSet
        ensures { result ≡ [] }
    {
        NumberSet {
            marks: Vec::new(alloc),
        }
    }

    /// The empty set, with the marks of the numbers below `count`.
    pub fn below(alloc: Global, count: u32) -> Result<NumberSet, AllocError>
        ensures { IfOk result (λ s. s ≡ replicate count false) }
    {
        let marks = vec![in alloc; false; count as usize]?;
        Ok(NumberSet { marks })
    }

    /// Whether the number is in the set.
    pub fn contains(&self, n: u32) -> bool
        ensures { IsTrue result ↔ IsIn self.now n }
    {
        let at = n as usize;
        at < self.marks.len() && self.marks[at]
    }

    /// Puts a number into the set that has its mark.
    pub fn mark(&mut self, n: u32)
        requires { n < length self.old }
        ensures { self.new ≡ slice_set self.old n true }
    {
        self.marks[n as usize] = true;
    }

    /// Puts a number into the set.
    ///
    /// # Errors
    ///
    /// Only where memory runs out; the set is then as it was.
    pub fn add(&mut self, n: u32) -> Result<(), AllocError>
        ensures { OnOk result ((m : ℕ) → IsIn self.new m ↔ (IsIn self.old m ⊎ (m ≡ n))) }
    {
        let at = n as usize;
        if self.marks.len() <= at {
            self.marks.resize(at + 1, false)?;
        }
        self.marks[at] = true;
        Ok(())
    }

    /// The numbers of the set, ascending.
    ///
    /// # Errors
    ///
    /// Only where memory runs out.
    pub fn numbers(&self, alloc: Global) -> Result<Items<u32>, AllocError>
        ensures { IfOk result (AreNumbersOf self.now) }
    {
        let count = self.marks.iter().filter(|marked| **marked).count();
        let mut numbers = Vec::with_capacity(alloc, count)?;
        for (n, marked) in self.marks.iter().enumerate() {
            if *marked {
                numbers.push(n as u32)?;
            }
        }
        Ok(Items::from_vec(numbers))
    }
}
