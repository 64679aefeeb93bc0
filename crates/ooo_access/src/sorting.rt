ghost use Rattle.std.specs.Prelude.{◌≡◌, ℕ, ◌-◌, ◌<◌, ◌≤◌, ◌⊎◌, ◌↔◌, length, slice_index_or, Contains, IsTrue, OnOk};
ghost use Rattle.ooo_access.specs.Notices.{AreInOrder, IsNoticeBefore, rank_of, Notice as NoticeSpec};

use ooo_time::Time;
use std::alloc::AllocError;

// A notification: of an event, for the next delta cycle or after a constant time.
pub(crate) type Notice = (u32, Option<Time>);

// Puts a notification into its place, unless it is there.
pub(crate) fn insert(notices: &mut Vec<Notice>, new: Notice) -> Result<(), AllocError>
    requires { AreInOrder notices.old.items }
    ensures members { OnOk result ((m : NoticeSpec) →
        Contains notices.new.items m ↔ (Contains notices.old.items m ⊎ (m ≡ new))) }
    ensures in_order { OnOk result (AreInOrder notices.new.items) }
{
    let place = place_of(notices.as_slice(), new);
    if is_there(notices.as_slice(), place, new) {
        return Ok(());
    }
    notices.insert(place, new)?;
    Ok(())
}

// Where the notifications begin that come after a new one.
fn place_of(notices: &[Notice], new: Notice) -> usize
    ensures within { result ≤ length notices.now }
    ensures later { (k : ℕ) (d : NoticeSpec) → result ≤ k → k < length notices.now →
        IsNoticeBefore new (slice_index_or notices.now k d) }
    ensures last { 0 < result → ¬ IsNoticeBefore new (slice_index_or notices.now (result - 1) new) }
{
    let mut place = notices.len();
    'later: while place > 0 {
        if !is_before(new, notices[place - 1]) {
            return place;
        }
        place -= 1;
    }
    0
}

// Whether the notification before a place doesn't come before the new one.
fn is_there(notices: &[Notice], place: usize, new: Notice) -> bool
    requires { place ≤ length notices.now }
    ensures { IsTrue result
        ↔ ((0 < place) × (¬ IsNoticeBefore (slice_index_or notices.now (place - 1) new) new)) }
{
    place > 0 && !is_before(notices[place - 1], new)
}

// Whether a notification comes before another: of a lower event, or of the same event and sooner.
fn is_before(a: Notice, b: Notice) -> bool
    ensures { IsTrue result ↔ IsNoticeBefore a b }
{
    a.0 < b.0 || (a.0 == b.0 && is_sooner(a.1, b.1))
}

// Whether a delay is less than another; none is less than any time.
fn is_sooner(a: Option<Time>, b: Option<Time>) -> bool
    ensures { IsTrue result ↔ (rank_of a < rank_of b) }
{
    match (a, b) {
        (None, Some(_)) => true,
        (Some(s), Some(t)) => s.0 < t.0,
        (_, None) => false,
    }
}
