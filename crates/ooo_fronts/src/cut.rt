ghost use Rattle.std.specs.Prelude.{◌≡◌, ◌<◌, ◌≤◌, ◌↔◌, IsTrue, IfSome, List, [], ◌∷◌, Option};
ghost use Rattle.ooo_time.specs.Stamps.{IsBefore, ComesBefore};
ghost use Rattle.ooo_time.specs.declared.stamp.Stamp.{Stamp as StampSpec};
ghost use Rattle.ooo_meaning.specs.World.{broken_by, place_of};
ghost use Rattle.ooo_schedules.specs.Model.{Act};
ghost use Rattle.ooo_dispatch.specs.declared.reads.Reads.{Reads as ReadsSpec};
ghost use Rattle.ooo_dispatch.specs.Boards.{Board};
ghost use Rattle.ooo_dispatch.specs.Least.{IsBelowCut};
ghost use Rattle.ooo_dispatch.specs.Rules.{Rules, outcome_of};
ghost use Rattle.ooo_fronts.specs.Cuts.{IsCutOf, IsFirstBreak, IsFirstStop, IsLeastStamp};
ghost use Rattle.ooo_fronts.specs.Cuts.{IsUncut, calls_stop};

use ooo_code::{JobEnd, Limits};
use ooo_history::End;
use ooo_time::{Place, Stamp, Time};

/// That the activation of a place ended the run, and how.
#[derive(Clone, Copy)]
pub struct Break {
    pub place: Place,
    pub end: End,
}

/// The cut of a board, below which a place has to be: by the limits, and by what was committed that ends the run. The limit
/// of deltas cuts off only where the least front comes to it, so that front is told with each question.
#[derive(Clone, Copy)]
pub struct Cut {
    /// The last time at which anything runs.
    pub stop: Time,
    /// How many delta cycles there may be at one time.
    pub deltas: u32,
    /// The first of the committed activations that ended the run.
    pub broken: Option<Break>,
    /// The first stamp at which a committed activation called `sc_stop`.
    pub stopped: Option<Stamp>,
}

impl Cut {
    /// The cut where nothing was committed.
    pub fn new(limits: &Limits) -> Cut
        ensures { (r : Rules) → r.limits ≡ limits.now → IsCutOf r [] result }
    {
        Cut {
            stop: limits.stop,
            deltas: limits.deltas,
            broken: None,
            stopped: None,
        }
    }

    /// An activation at this place was committed, which ended so, and called `sc_stop` or not.
    pub fn note(&mut self, at: Place, end: &JobEnd, stops: bool)
        ensures { (r : Rules) (j : Act StampSpec ReadsSpec) (log : List (Act StampSpec ReadsSpec)) →
            IsCutOf r log self.old → at ≡ place_of j.stamp j.process →
            end.now ≡ (outcome_of r j).deed.end → stops ≡ calls_stop r j →
            IsCutOf r (j ∷ log) self.new }
    {
        self.broken = first_break(self.broken, at, ending(at, end));
        self.stopped = first_stop(self.stopped, at.stamp, stops);
    }

    /// Whether a place is below the cut, where this is the earliest stamp of all fronts.
    pub fn is_below(&self, first: Option<Stamp>, at: Place) -> bool
        ensures { (r : Rules) (b : Board r) → IsCutOf r b.log self.now → IsLeastStamp r b first →
            IsTrue result ↔ IsBelowCut r b at.stamp at.process }
    {
        self.is_uncut(at) && self.is_before_limit(first, at.stamp)
    }

    /// Whether a place is in time, and no committed activation cuts it off: all of what is asked of a place below the cut,
    /// where the least front isn't at the limit of deltas.
    pub fn is_uncut(&self, at: Place) -> bool
        ensures { (r : Rules) (log : List (Act StampSpec ReadsSpec)) → IsCutOf r log self.now →
            IsTrue result ↔ IsUncut r log at }
    {
        self.is_in_time(at.stamp) && self.is_before_break(at) && self.is_before_stop(at.stamp)
    }

    /// Whether there may be a delta cycle of this number.
    #[inline(always)]
    pub fn is_below_limit(&self, stamp: Stamp) -> bool
        ensures { IsTrue result ↔ (stamp.delta < self.now.deltas) }
    {
        stamp.delta < self.deltas
    }

    // Whether a stamp isn't after the stop time.
    fn is_in_time(&self, stamp: Stamp) -> bool
        ensures { IsTrue result ↔ (stamp.time.0 ≤ self.now.stop.0) }
    {
        stamp.time <= self.stop
    }

    // Whether a place is before the first break.
    fn is_before_break(&self, at: Place) -> bool
        ensures { IsTrue result ↔ IfSome self.now.broken (λ x. ComesBefore at x.place) }
    {
        match self.broken {
            Some(broken) => at.is_before(broken.place),
            None => true,
        }
    }

    // Whether a stamp isn't after that of the first call of `sc_stop`.
    fn is_before_stop(&self, stamp: Stamp) -> bool
        ensures { IsTrue result ↔ IfSome self.now.stopped (λ s. IsBefore s stamp → ⊥) }
    {
        match self.stopped {
            Some(stopped) => !stopped.is_before(stamp),
            None => true,
        }
    }

    // Whether a stamp is before the earliest one of all fronts, where that is at the limit of deltas.
    fn is_before_limit(&self, first: Option<Stamp>, stamp: Stamp) -> bool
        ensures { IsTrue result ↔ IfSome first (λ s. s.delta ≡ self.now.deltas → IsBefore stamp s) }
    {
        match first {
            Some(first) if first.delta == self.deltas => stamp.is_before(first),
            _ => true,
        }
    }
}

// How an activation at a place ended the run, if it did.
fn ending(at: Place, end: &JobEnd) -> Option<End>
    ensures { result ≡ broken_by at end.now }
{
    match end {
        JobEnd::Waits(_) | JobEnd::Ended => None,
        JobEnd::Faulted(fault, line) => Some(End::Fault(*fault, at, *line)),
        JobEnd::Limit(line) => Some(End::Statements(at, *line)),
    }
}

// The first break, with an activation more: its place, and how it ended the run, if it did.
fn first_break(known: Option<Break>, place: Place, end: Option<End>) -> Option<Break>
    ensures { (r : Rules) (j : Act StampSpec ReadsSpec) (log : List (Act StampSpec ReadsSpec)) →
        IsFirstBreak r log known → place ≡ place_of j.stamp j.process →
        end ≡ broken_by place (outcome_of r j).deed.end → IsFirstBreak r (j ∷ log) result }
{
    match (known, end) {
        (_, None) => known,
        (Some(known), Some(_)) if !place.is_before(known.place) => Some(known),
        (_, Some(end)) => Some(Break { place, end }),
    }
}

// The first stamp at which `sc_stop` was called, with an activation more.
fn first_stop(known: Option<Stamp>, stamp: Stamp, stops: bool) -> Option<Stamp>
    ensures { (r : Rules) (j : Act StampSpec ReadsSpec) (log : List (Act StampSpec ReadsSpec)) →
        IsFirstStop r log known → stamp ≡ j.stamp → stops ≡ calls_stop r j →
        IsFirstStop r (j ∷ log) result }
{
    match known {
        _ if !stops => known,
        Some(known) if !stamp.is_before(known) => Some(known),
        _ => Some(stamp),
    }
}
