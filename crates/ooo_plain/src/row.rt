ghost use Rattle.std.specs.Prelude.{◌≡◌, ◌≢◌, ◌<◌, false, IsTrue, IfOk, OnErr, MatchBool, MatchOption, AllPairs, length, slice_index_or};
ghost use Rattle.std.specs.VecDeque.{deque_len};
ghost use Rattle.ooo_plain.specs.declared.agenda.Due.{Due as DueSpec};
ghost use Rattle.ooo_plain.specs.Row.{IsFirstOf, Loses, Gains, MayEnd, IsPlaceOf, IsUpTo, IsLower, is_among, stands_in};

use crate::agenda::Due;
use ooo_time::Stamp;
use std::alloc::{AllocError, Global};
use std::collections::VecDeque;
use std::marker::Model;

/// Processes that are due in one delta cycle, which isn't the first of its time, ascending by their numbers.
#[derive(Drop)]
pub struct Row {
    stamp: Stamp,
    processes: VecDeque<usize>,
}

impl Model for Row {
    ghost use Rattle.std.specs.Prelude.{◌<◌, AllPairs};
    ghost use Rattle.ooo_plain.specs.Row.{RowState};

    ghost Value = { RowState };

    ghost view = { λ r. record { stamp = r.stamp; processes = r.processes.items } };

    ghost invariant = { λ r. AllPairs (λ a b. a < b) r.processes.items };
}

impl Row {
    /// A row without processes. It takes no memory.
    pub fn new(alloc: Global) -> Row
        ensures { (k : DueSpec) → stands_in result k ≡ false }
    {
        Row {
            stamp: Stamp::default(),
            processes: VecDeque::new(alloc),
        }
    }

    /// The lowest process, as it is due.
    #[inline(always)]
    pub fn first(&self) -> Option<Due>
        ensures { IsFirstOf (stands_in self.now) result }
    {
        let process = *self.processes.front()?;
        Some(Due {
            stamp: self.stamp,
            process,
        })
    }

    /// Takes a process out that is due at a stamp. It answers whether it stood here.
    pub fn remove(&mut self, due: Due) -> bool
        ensures stood { result ≡ stands_in self.old due }
        ensures left { Loses due (stands_in self.old) (stands_in self.new) }
    {
        if !is_same(due.stamp, self.stamp) {
            return false;
        }
        if is_first(&self.processes, due.process) {
            self.processes.pop_front();
            return true;
        }
        match place_of(&self.processes, due.process) {
            None => false,
            Some(at) => {
                self.processes.remove(at);
                true
            }
        }
    }

    /// Puts a process at the end that is due at a stamp, where that keeps the order. It answers whether it did.
    ///
    /// # Errors
    ///
    /// Only where memory runs out; the row is then as it was.
    pub fn push(&mut self, due: Due) -> Result<bool, AllocError>
        ensures done { IfOk result (λ done. MatchBool done
            (Gains due (stands_in self.old) (stands_in self.new)) (self.new ≡ self.old)) }
        ensures failed { OnErr result (self.new ≡ self.old) }
    {
        if !self.may_end(due) {
            return Ok(false);
        }
        self.processes.push_back(due.process)?;
        self.stamp = due.stamp;
        Ok(true)
    }

    // Whether a process may stand at the end.
    #[inline(always)]
    fn may_end(&self, due: Due) -> bool
        ensures { IsTrue result → MayEnd self.now due }
    {
        match self.processes.back() {
            None => due.stamp.delta > 0,
            Some(last) => is_same(due.stamp, self.stamp) && *last < due.process,
        }
    }
}

// Whether two stamps are the same.
#[inline(always)]
fn is_same(a: Stamp, b: Stamp) -> bool
    ensures { MatchBool result (a ≡ b) (a ≢ b) }
{
    a == b
}

// Where a process stands among ascending ones.
fn place_of(processes: &VecDeque<usize>, p: usize) -> Option<usize>
    requires { AllPairs (λ a b. a < b) processes.now.items }
    ensures { let items = processes.now.items in
        MatchOption result (is_among items p ≡ false)
        (IsPlaceOf p (deque_len processes.now) items) }
{
    processes.binary_search(&p).ok()
}

// Whether a process is the first of these.
#[inline(always)]
fn is_first(processes: &VecDeque<usize>, p: usize) -> bool
    ensures { IsTrue result → IsPlaceOf p (deque_len processes.now) processes.now.items 0 }
{
    processes.front().copied() == Some(p)
}

/// The lower of two, of those that there are.
#[inline(always)]
pub fn lower(a: Option<Due>, b: Option<Due>) -> Option<Due>
    ensures { IsLower a b result }
{
    match (a, b) {
        (None, _) => b,
        (_, None) => a,
        (Some(x), Some(y)) => { if is_up_to(x, y) { a } else { b } }
    }
}

// Whether one isn't later than another one.
#[inline(always)]
fn is_up_to(x: Due, y: Due) -> bool
    ensures { MatchBool result (IsUpTo x y) (IsUpTo y x) }
{
    x.stamp.is_before(y.stamp) || x.stamp == y.stamp && x.process <= y.process
}
