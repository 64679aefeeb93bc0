ghost use Rattle.std.specs.Prelude.{◌≡◌, ◌+◌, ◌≤◌, ◌↔◌, IsTrue};
ghost use Rattle.ooo_time.specs.Scales.{greatest_time, greatest_delta};
ghost use Rattle.ooo_time.specs.Delays.{IsLess, joined, advanced, greatest_wait, greatest_deltas};

use crate::stamp::Stamp;
use crate::time::Time;

/// How much later than a stamp something may come at the earliest: a time, and then delta cycles. Ordered by the time,
/// then by the delta cycles.
#[derive(Clone, Copy, PartialEq, Eq, PartialOrd, Ord, Debug)]
pub struct Delay {
    pub time: Time,
    pub deltas: u32,
}

impl Delay {
    /// No delay at all.
    pub const NONE: Delay = Delay {
        time: Time::ZERO,
        deltas: 0,
    };

    /// One delta cycle.
    pub const DELTA: Delay = Delay {
        time: Time::ZERO,
        deltas: 1,
    };

    /// Whether this delay is less than the other: by time, then by delta cycles.
    pub fn is_less(self, other: Delay) -> bool
        ensures { IsTrue result ↔ IsLess self other }
    {
        self < other
    }

    /// The delay of both, one after the other: a later time begins its delta cycles anew.
    pub fn then(self, next: Delay) -> Delay
        requires time { self.time.0 ≤ greatest_time }
        requires next_time { next.time.0 ≤ greatest_time }
        requires deltas { self.deltas + next.deltas ≤ greatest_deltas }
        ensures { result ≡ joined self next }
    {
        if next.time == Time::ZERO {
            Delay {
                time: self.time,
                deltas: self.deltas + next.deltas,
            }
        } else {
            Delay {
                time: Time(self.time.0 + next.time.0),
                deltas: next.deltas,
            }
        }
    }
}

/// The stamp that comes by the delay `d` after `s`: in the same time where the delay has none, else in a later time
/// whose delta cycles are counted anew.
pub fn advance(s: Stamp, d: Delay) -> Stamp
    requires time { s.time.0 ≤ greatest_wait }
    requires delta { s.delta ≤ greatest_delta }
    requires delay { d.time.0 ≤ greatest_time }
    requires deltas { d.deltas ≤ greatest_deltas }
    ensures { result ≡ advanced s d }
{
    if d.time == Time::ZERO {
        Stamp {
            time: s.time,
            delta: s.delta + d.deltas,
        }
    } else {
        Stamp {
            time: Time(s.time.0 + d.time.0),
            delta: d.deltas,
        }
    }
}
