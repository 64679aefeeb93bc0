ghost use Rattle.std.specs.Prelude.{◌≡◌, ◌+◌, ◌≤◌, ◌<◌, ◌++◌, ℕ, List, [], ◌∷◌, Some, None, Option, Bool, ◌&&◌, not, AllPairs, MatchOption};
ghost use Rattle.std.specs.Ordering.{int_eq};
ghost use Rattle.std.specs.VecDeque.{deque_len, deque_capacity};
ghost use Rattle.std.specs.List.Sorted.{IsPartitionPoint};
ghost use Rattle.ooo_time.specs.declared.stamp.Stamp.{Stamp as StampSpec};
ghost use Rattle.ooo_time.specs.Stamps.{IsBefore, is_before};
ghost use Rattle.ooo_value.specs.Values.{number_of};
ghost use Rattle.ooo_code.specs.Channels.{Channel, same_value, is_time, changes, next_value};
ghost use Rattle.ooo_meaning.specs.World.{next_delta, same_stamp};
ghost use Rattle.ooo_channels.specs.Versions.{signal_of, IsVersionIn, IsEarlier, StartsBy, AreVersionsOf, AreVersionsSince, versions_with, version_at};
ghost use Rattle.ooo_channels.specs.Cycles.{Cycle, cycle_at, IsSeenAs, ShowsAs};

use ooo_time::{Stamp, Time};
use ooo_value::Value;
use std::collections::VecDeque;

/// A version of a signal: the signal in a cycle, before the update of that cycle (IEEE 1666-2011, 6.4).
#[derive(Clone, Copy)]
pub struct Version {
    /// The cycle.
    pub stamp: Stamp,
    /// The value in that cycle.
    pub current: Value,
    /// The value that is requested in it, which is seen after it.
    pub requested: Option<Value>,
    /// The time of the update just before it, where that changed the value.
    pub changed: Option<Time>,
}

impl Version {
    /// The value after the update of the cycle.
    pub fn next_value(&self) -> Value
        ensures { result ≡ next_value (signal_of self.now) }
    {
        match self.requested {
            Some(value) => value,
            None => self.current,
        }
    }

    /// Whether the update of the cycle changes the value.
    pub fn is_changing(&self) -> bool
        ensures { result ≡ changes (signal_of self.now) }
    {
        !is_same(self.current, self.next_value())
    }

    /// The value that is seen in the cycle of a stamp, and whether it changed in the delta cycle just before.
    #[inline(always)]
    pub fn seen(&self, at: Stamp) -> (Value, bool)
        ensures { (x : Cycle) → IsVersionIn self.now x →
            IsSeenAs (cycle_at at x).channel at.time result }
    {
        if self.stamp.is_before(at) {
            (
                self.next_value(),
                self.is_changing() && is_next(at, self.stamp),
            )
        } else {
            (self.current, self.changed == Some(at.time))
        }
    }
}

/// The version in whose cycle a stamp lies: the last one that isn't after it.
pub fn version_in(versions: &VecDeque<Version>, at: Stamp) -> Option<Version>
    ensures { (was : StampSpec → Channel) (next : Version) →
        AreVersionsSince at was (versions.now.items ++ next ∷ []) → IsBefore at next.stamp →
        MatchOption result ⊥ (λ v. ShowsAs at.time (version_at at v) (was at)) }
{
    let count = count_reached(versions, at);
    if count == 0 {
        None
    } else {
        Some(versions[count - 1])
    }
}

/// How many of these versions aren't after a stamp.
#[tactic(auto, using(crate::proofs::Orders::tells_is_before))]
fn count_reached(versions: &VecDeque<Version>, at: Stamp) -> usize
    ensures bound { result ≤ deque_len versions.now }
    ensures point { AllPairs IsEarlier versions.now.items →
        IsPartitionPoint (λ v. ¬ IsBefore at v.stamp) (λ v. IsBefore at v.stamp)
        versions.now.items result }
{
    versions.partition_point(
        |v: &Version| -> bool
            ensures { result ≡ not (is_before at v.now.stamp) }
        { !at.is_before(v.stamp) },
    )
}

/// Appends a version to those before it, as one of a later cycle follows it, and drops those of which nothing is seen from a
/// stamp on: all, where that isn't before the later cycle.
pub fn append(versions: &mut VecDeque<Version>, left: Version, at: Stamp, below: Stamp)
    requires { deque_len versions.old < deque_capacity versions.old }
    ensures since { (was : StampSpec → Channel) (next : Version) → next.stamp ≡ at →
        StartsBy below (versions.old.items ++ left ∷ []) →
        AreVersionsOf was (versions.old.items ++ left ∷ next ∷ []) →
        AreVersionsSince below was (versions.new.items ++ next ∷ []) }
    ensures capacity { deque_capacity versions.new ≡ deque_capacity versions.old }
    ensures len { deque_len versions.new ≤ deque_len versions.old + 1 }
{
    if below.is_before(at) {
        versions.push_back_reserved(left);
        drop_before(versions, below);
    } else {
        versions.clear();
    }
}

/// Drops the versions of which nothing is seen from a stamp on, since another one follows that isn't after it.
fn drop_before(versions: &mut VecDeque<Version>, below: Stamp)
    ensures start { StartsBy below versions.old.items → StartsBy below versions.new.items }
    ensures left { (was : StampSpec → Channel) (rest : List Version) →
        AreVersionsOf was (versions.old.items ++ rest) →
        AreVersionsOf was (versions.new.items ++ rest) }
    ensures capacity { deque_capacity versions.new ≡ deque_capacity versions.old }
    ensures len { deque_len versions.new ≤ deque_len versions.old }
{
    while let Some(second) = versions.get(1).copied() {
        if below.is_before(second.stamp) {
            return;
        }
        let _first = versions.pop_front();
    }
}

/// The next delta cycle of the same time is this stamp.
pub fn is_next(at: Stamp, stamp: Stamp) -> bool
    ensures { result ≡ same_stamp at (next_delta stamp) }
{
    at.time == stamp.time && stamp.delta.checked_add(1) == Some(at.delta)
}

/// Whether two values stand for the same number.
fn is_same(a: Value, b: Value) -> bool
    ensures { result ≡ same_value a b }
{
    match (a, b) {
        (Value::Bool(x), Value::Bool(y)) => x == y,
        (Value::Int(x), Value::Int(y)) => x == y,
        (Value::Uint(x), Value::Uint(y)) => x == y,
        (Value::Long(x), Value::Long(y)) => x == y,
        (Value::Ulong(x), Value::Ulong(y)) => x == y,
        _ => number(a) == number(b),
    }
}

/// The number that a value stands for.
fn number(v: Value) -> i128
    ensures { result ≡ number_of v }
{
    match v {
        Value::Bool(b) => i128::from(b),
        Value::Int(x) => i128::from(x),
        Value::Uint(x) => i128::from(x),
        Value::Long(x) => i128::from(x),
        Value::Ulong(x) => i128::from(x),
    }
}
