ghost use Rattle.std.specs.Prelude.{◌≡◌, ◌≤◌, ◌<◌, ◌↔◌, ◌+◌, false, IsTrue, IfSome, [], None, Some, length, slice_index_or};
ghost use Rattle.ooo_time.specs.Stamps.{IsBefore};
ghost use Rattle.ooo_dispatch.specs.Boards.{Board, IsOverBoard};
ghost use Rattle.ooo_dispatch.specs.Least.{Advance, IsBelowCut};
ghost use Rattle.ooo_dispatch.specs.Rules.{Rules};
ghost use Rattle.ooo_fronts.specs.Choices.{AllBelowLimit, HasFrontBelow, IsBestBelow, IsChoiceOf};
ghost use Rattle.ooo_fronts.specs.Choices.{IsPick, IsReadyAt, MayRunNow, NoFrontBelow};
ghost use Rattle.ooo_fronts.specs.Cuts.{IsLeastStamp};

use crate::cut::Cut;
use crate::front::Front;
use crate::fronts::least_of;
use ooo_time::{Place, Stamp};

/// What a process does.
#[derive(Clone, Copy)]
pub enum State {
    /// It waits until it may run at its front, if it has one.
    Waiting,
    /// Its job is out.
    Running,
    /// Its job was abandoned, and stays out.
    Abandoned,
}

impl State {
    // Whether the process waits.
    #[inline(always)]
    fn is_waiting(self) -> bool
        ensures { IsTrue result ↔ (self ≡ State.Waiting) }
    {
        match self {
            State::Waiting => true,
            State::Running | State::Abandoned => false,
        }
    }
}

/// The processes of a board, by which one is chosen to run: what each does, its front, and how many clashes hold that up.
#[derive(Clone, Copy)]
pub struct Choice<'a> {
    pub states: &'a [State],
    pub fronts: &'a [Option<Front>],
    pub held: &'a [u32],
    pub cut: &'a Cut,
}

impl Choice<'_> {
    /// Whether a process may run.
    pub fn may_run(&self, p: u32) -> bool
        requires process { p < length self.now.fronts.now }
        requires states { length self.now.states.now ≡ length self.now.fronts.now }
        requires held { length self.now.held.now ≡ length self.now.fronts.now }
        ensures { (r : Rules) (least : Advance) (b : Board r) → IsChoiceOf r least b self.now →
            IsTrue result ↔ MayRunNow r least b p }
    {
        let Some(place) = self.ready_at(p) else {
            return false;
        };
        self.is_below(place, true)
    }

    /// Of the processes that may run, the one of the least place; none where none may. What comes before a place that is
    /// below the cut is below it, too, so the cut is asked only of the first place at which a process may run but for that.
    pub fn pick(&self) -> Option<u32>
        requires few { length self.now.fronts.now ≤ u32.MAX }
        requires states { length self.now.states.now ≡ length self.now.fronts.now }
        requires held { length self.now.held.now ≡ length self.now.fronts.now }
        ensures within { IfSome result (λ p. p < length self.now.fronts.now) }
        ensures pick { (r : Rules) (least : Advance) (b : Board r) → IsChoiceOf r least b self.now →
            IsPick r least b result }
    {
        let mut best = None;
        let mut limited = false;
        for p in 0..self.fronts.len() as u32 {
            if let Some(front) = self.fronts[p as usize] {
                if self.cut.is_below_limit(front.stamp) {
                    best = self.better(best, p, front);
                } else {
                    limited = true;
                }
            }
        }
        let place: Place = best?;
        if self.is_below(place, limited) {
            Some(place.process)
        } else {
            None
        }
    }

    /// Whether no front is below the cut. So the board is over where also no job is out.
    pub fn is_over(&self) -> bool
        requires { length self.now.fronts.now ≤ u32.MAX }
        ensures none { (r : Rules) (least : Advance) (b : Board r) → IsChoiceOf r least b self.now →
            IsTrue result ↔ NoFrontBelow r b }
        ensures over { (r : Rules) (least : Advance) (b : Board r) → IsChoiceOf r least b self.now →
            b.out ≡ [] → IsTrue result ↔ IsOverBoard r b }
    {
        let first = self.least();
        for p in 0..self.fronts.len() as u32 {
            if self.has_front_below(first, p) {
                return false;
            }
        }
        true
    }

    // The place of a process that may run, if that is below the cut: it waits, its front is below the limit of deltas, and
    // nothing holds it up.
    #[inline(always)]
    fn ready_at(&self, p: u32) -> Option<Place>
        requires process { p < length self.now.fronts.now }
        requires states { length self.now.states.now ≡ length self.now.fronts.now }
        requires held { length self.now.held.now ≡ length self.now.fronts.now }
        ensures own { IfSome result (λ at. at.process ≡ p) }
        ensures ready { (r : Rules) (least : Advance) (b : Board r) →
            IsChoiceOf r least b self.now → IsReadyAt r least b p result }
    {
        let front = self.fronts[p as usize]?;
        if self.cut.is_below_limit(front.stamp)
            && self.states[p as usize].is_waiting()
            && self.is_free(p)
        {
            Some(Place {
                stamp: front.stamp,
                process: p,
            })
        } else {
            None
        }
    }

    // Whether nothing holds a process up.
    #[inline(always)]
    fn is_free(&self, p: u32) -> bool
        requires { p < length self.now.held.now }
        ensures { IsTrue result ↔ (slice_index_or self.now.held.now p 0 ≡ 0) }
    {
        self.held[p as usize] == 0
    }

    // The best place of the processes before this one and of this one, whose front is below the limit of deltas.
    #[inline(always)]
    fn better(&self, best: Option<Place>, p: u32, front: Front) -> Option<Place>
        requires process { p < length self.now.fronts.now }
        requires states { length self.now.states.now ≡ length self.now.fronts.now }
        requires held { length self.now.held.now ≡ length self.now.fronts.now }
        requires front { slice_index_or self.now.fronts.now p None ≡ Some front }
        requires limit { front.stamp.delta < self.now.cut.now.deltas }
        requires best { IfSome best (λ at. at.process < p) }
        ensures within { IfSome result (λ at. at.process < p + 1) }
        ensures best { (r : Rules) (least : Advance) (b : Board r) → IsChoiceOf r least b self.now →
            IsBestBelow r least b p best → IsBestBelow r least b (p + 1) result }
    {
        if comes_first(front.stamp, best)
            && self.states[p as usize].is_waiting()
            && self.is_free(p)
        {
            Some(Place {
                stamp: front.stamp,
                process: p,
            })
        } else {
            best
        }
    }

    // Whether a place is below the cut. The limit of deltas cuts off nothing unless a front is at it, so the least front is
    // looked for only where it is said that one may be.
    fn is_below(&self, at: Place, limited: bool) -> bool
        requires { limited ≡ false → AllBelowLimit self.now }
        ensures { (r : Rules) (least : Advance) (b : Board r) → IsChoiceOf r least b self.now →
            IsTrue result ↔ IsBelowCut r b at.stamp at.process }
    {
        if limited {
            self.cut.is_below(self.least(), at)
        } else {
            self.cut.is_uncut(at)
        }
    }

    // Whether a process has a front below the cut, where this is the earliest stamp of all fronts.
    fn has_front_below(&self, first: Option<Stamp>, p: u32) -> bool
        requires { p < length self.now.fronts.now }
        ensures { (r : Rules) (least : Advance) (b : Board r) → IsChoiceOf r least b self.now →
            IsLeastStamp r b first → IsTrue result ↔ HasFrontBelow r b p }
    {
        match self.fronts[p as usize] {
            Some(front) => self.cut.is_below(
                first,
                Place {
                    stamp: front.stamp,
                    process: p,
                },
            ),
            None => false,
        }
    }

    // The earliest stamp of all fronts.
    fn least(&self) -> Option<Stamp>
        ensures { (r : Rules) (least : Advance) (b : Board r) → IsChoiceOf r least b self.now →
            IsLeastStamp r b result }
    {
        least_of(self.fronts)
    }
}

// Whether a stamp is before that of the best place so far, if there is one.
#[inline(always)]
fn comes_first(stamp: Stamp, best: Option<Place>) -> bool
    ensures { IsTrue result ↔ IfSome best (λ at. IsBefore stamp at.stamp) }
{
    match best {
        Some(best) => stamp.is_before(best.stamp),
        None => true,
    }
}
