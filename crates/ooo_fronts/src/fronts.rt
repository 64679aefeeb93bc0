ghost use Rattle.std.specs.Prelude.{◌≡◌, ◌≢◌, ◌<◌, ◌≤◌, ◌↔◌, ◌⊎◌, ◌+◌, ◌-◌, ◌*◌, false, IfOk, length, slice_index, slice_index_or, slice_set};
ghost use Rattle.ooo_time.specs.declared.stamp.Stamp.{Stamp as StampSpec};
ghost use Rattle.ooo_time.specs.Stamps.{IsBefore};
ghost use Rattle.ooo_segments.specs.Beginnings.{greatest_segments};
ghost use Rattle.ooo_dispatch.specs.Boards.{Board};
ghost use Rattle.ooo_dispatch.specs.Rules.{Rules};
ghost use Rattle.ooo_fronts.specs.declared.front.Front.{Front as FrontSpec};
ghost use Rattle.ooo_fronts.specs.Cuts.{IsLeastStamp};
ghost use Rattle.ooo_fronts.specs.Fronts.{AreAligned, AreFit, AreFrontsOf, IsFit, IsLeastOf};
ghost use Rattle.ooo_fronts.specs.Holds.{AreCounts, AreHolds, AreKept, ChangesColumn, ChangesEntry, ChangesOnly, IsColumn, IsFirstFrom, IsFirstHold, entry_in, held, holds_from, holds_of};
ghost use Rattle.ooo_fronts.specs.Reaching.{AreReaches};

use crate::front::{Front, Hold};
use crate::holds::{first_of, holds_of};
use crate::reaching::Reaches;
use ooo_tables::Tables;
use ooo_time::Stamp;
use std::alloc::{AllocError, Global};
use std::marker::Model;

/// The front of each process, and how many clashes hold each of them up. There are at most as many processes as a design may
/// have segments.
#[derive(Drop)]
pub struct Fronts {
    fronts: Vec<Option<Front>>,
    counts: Vec<u32>,
    // A table with a row for each process: by how many segments its front holds up that of each other one. That is so where
    // both have a front, and the segment of the first can hold up the second; any other entry may be an old one.
    holds: Vec<u32>,
}

impl Model for Fronts {
    ghost use Rattle.std.specs.Prelude.{◌≤◌, length};
    ghost use Rattle.ooo_segments.specs.Beginnings.{greatest_segments};
    ghost use Rattle.ooo_fronts.specs.Fronts.{Kept};

    ghost Value = { Kept };

    ghost view = { λ f. record {
      fronts = f.fronts.items;
      counts = f.counts.items;
      holds = f.holds.items;
    } };

    ghost invariant = { λ f. length f.fronts.items ≤ greatest_segments };
}

impl Fronts {
    /// The fronts with their counts. It takes four bytes for each two processes, so that later changes take none.
    ///
    /// # Errors
    ///
    /// Only where memory runs out.
    pub fn make(
        alloc: Global,
        tables: &Tables,
        reaches: &Reaches,
        fronts: Vec<Option<Front>>,
    ) -> Result<Fronts, AllocError>
        requires aligned { AreAligned tables.now }
        requires reaches { AreReaches tables.now reaches.now }
        requires few { length fronts.items ≤ greatest_segments }
        requires fit { AreFit tables.now fronts.items }
        ensures fronts { IfOk result (λ f. f.fronts ≡ fronts.items) }
        ensures kept { IfOk result (AreKept tables.now) }
    {
        let processes = fronts.len();
        let mut holds = vec![in alloc; 0; processes * processes]?;
        let counts = counts_of(
            alloc,
            tables,
            reaches,
            fronts.as_slice(),
            holds.as_mut_slice(),
        )?;
        Ok(Fronts {
            fronts,
            counts,
            holds,
        })
    }

    /// How many processes there are.
    pub fn len(&self) -> usize
        ensures { result ≡ length self.now.fronts }
    {
        self.fronts.len()
    }

    /// The front of each process, in order.
    pub fn fronts(&self) -> &[Option<Front>]
        ensures { result.now ≡ self.now.fronts }
    {
        self.fronts.as_slice()
    }

    /// The front of process `p`.
    pub fn front(&self, p: u32) -> Option<Front>
        requires { p < length self.now.fronts }
        ensures { result ≡ slice_index_or self.now.fronts p None }
    {
        self.fronts[p as usize]
    }

    /// Gives process `p` this front, and mends the counts. It takes no memory, and goes over no processes but those that the
    /// old front or the new one can hold up, and those that can hold the new one up. What the old front held up stands in its
    /// row, so nothing is counted for it. Of the new one and each other front it looks up the least delay by which the holding
    /// one leads to a segment that meets the held one, and counts only where the held one doesn't come before that: over the
    /// fewer of the segments to which the holding front leads, and of those that meet the held one. At one stamp it goes only
    /// over the segments to which the holding front leads with no delay.
    pub fn set(&mut self, tables: &Tables, reaches: &Reaches, p: u32, front: Option<Front>)
        requires aligned { AreAligned tables.now }
        requires reaches { AreReaches tables.now reaches.now }
        requires within { p < length self.old.fronts }
        requires fit { AreFit tables.now self.old.fronts }
        requires new { (f : FrontSpec) → front ≡ Some f → IsFit tables.now p f }
        requires kept { AreKept tables.now self.old }
        ensures fronts { self.new.fronts ≡ slice_set self.old.fronts p front }
        ensures kept { AreKept tables.now self.new }
        ensures fit { AreFit tables.now self.new.fronts }
    {
        leave(
            tables,
            reaches,
            self.fronts.as_slice(),
            self.counts.as_mut_slice(),
            self.holds.as_slice(),
            p,
        );
        self.fronts[p as usize] = front;
        enter(
            tables,
            reaches,
            self.fronts.as_slice(),
            self.counts.as_mut_slice(),
            self.holds.as_mut_slice(),
            p,
        );
    }

    /// How many pairs of a front of another process and a segment hold each process up, in the order of the processes.
    pub fn counts(&self) -> &[u32]
        ensures { result.now ≡ self.now.counts }
    {
        self.counts.as_slice()
    }

    /// Whether a clash holds process `p` up.
    pub fn is_held(&self, p: u32) -> bool
        requires { p < length self.now.counts }
        ensures { (result ≡ false) ↔ (slice_index self.now.counts p ≡ 0) }
    {
        self.counts[p as usize] != 0
    }

    /// The first clash that holds process `p` up: by the lowest process whose front does, and its lowest segment. None
    /// exactly where nothing holds it up, or it has no front.
    pub fn first_hold(&self, tables: &Tables, p: u32) -> Option<Hold>
        requires aligned { AreAligned tables.now }
        requires within { p < length self.now.fronts }
        requires fit { AreFit tables.now self.now.fronts }
        ensures first { IsFirstHold tables.now self.now.fronts p result }
        ensures none { (result ≡ None) ↔ (held tables.now self.now.fronts p ≡ 0) }
    {
        let held = self.fronts[p as usize]?;
        first_hold(tables, self.fronts.as_slice(), p, held)
    }

    /// The earliest stamp of all fronts.
    pub fn least(&self) -> Option<Stamp>
        ensures least { IsLeastOf self.now.fronts result }
        ensures board { (r : Rules) (b : Board r) → AreFrontsOf r b self.now.fronts →
            IsLeastStamp r b result }
    {
        least_of(self.fronts.as_slice())
    }
}

// The earliest stamp of these fronts.
pub(crate) fn least_of(fronts: &[Option<Front>]) -> Option<Stamp>
    ensures { IsLeastOf fronts.now result }
{
    let mut least: Option<Stamp> = None;
    for front in fronts {
        if let Some(front) = front {
            least = Some(earlier(front.stamp, least));
        }
    }
    least
}

// The earlier of two stamps, of which the second may be missing.
fn earlier(one: Stamp, other: Option<Stamp>) -> Stamp
    ensures one_of { (result ≡ one) ⊎ (other ≡ Some result) }
    ensures first { ¬ IsBefore one result }
    ensures second { (s : StampSpec) → other ≡ Some s → ¬ IsBefore s result }
{
    match other {
        Some(other) if other.is_before(one) => other,
        _ => one,
    }
}

// The first clash that holds the front f of process p up.
fn first_hold(tables: &Tables, fronts: &[Option<Front>], p: u32, f: Front) -> Option<Hold>
    requires aligned { AreAligned tables.now }
    requires few { length fronts.now ≤ greatest_segments }
    requires own { slice_index_or fronts.now p None ≡ Some f }
    requires fit { AreFit tables.now fronts.now }
    ensures { IsFirstHold tables.now fronts.now p result }
{
    for q in 0..fronts.len() {
        if let Some(hold) = first_from(tables, fronts, q as u32, p, f) {
            return Some(hold);
        }
    }
    None
}

// The first clash of the front of process q that holds the front f of process p up, if that is another process.
fn first_from(tables: &Tables, fronts: &[Option<Front>], q: u32, p: u32, f: Front) -> Option<Hold>
    requires aligned { AreAligned tables.now }
    requires within { q < length fronts.now }
    requires own { slice_index_or fronts.now p None ≡ Some f }
    requires fit { AreFit tables.now fronts.now }
    ensures { IsFirstFrom tables.now fronts.now p q result }
{
    if q == p {
        return None;
    }
    let (segment, at) = first_of(tables, fronts[q as usize]?, p, f)?;
    Some(Hold {
        front: q,
        segment,
        at,
    })
}

// The counts of these fronts. It sets the entries of all of them.
fn counts_of(
    alloc: Global,
    tables: &Tables,
    reaches: &Reaches,
    fronts: &[Option<Front>],
    holds: &mut [u32],
) -> Result<Vec<u32>, AllocError>
    requires aligned { AreAligned tables.now }
    requires reaches { AreReaches tables.now reaches.now }
    requires few { length fronts.now ≤ greatest_segments }
    requires fit { AreFit tables.now fronts.now }
    requires size { length holds.old ≡ length fronts.now * length fronts.now }
    ensures counts { IfOk result (λ counts. AreCounts tables.now fronts.now counts.items) }
    ensures holds { IfOk result (λ _. AreHolds tables.now fronts.now holds.new) }
{
    let mut counts = Vec::with_capacity(alloc, fronts.len())?;
    for p in 0..fronts.len() {
        counts.push(count_of(tables, reaches, fronts, holds, p as u32))?;
    }
    Ok(counts)
}

// How many pairs of a front of another process and a segment hold process p up. It sets the entries of these fronts for p.
fn count_of(
    tables: &Tables,
    reaches: &Reaches,
    fronts: &[Option<Front>],
    holds: &mut [u32],
    p: u32,
) -> u32
    requires aligned { AreAligned tables.now }
    requires reaches { AreReaches tables.now reaches.now }
    requires few { length fronts.now ≤ greatest_segments }
    requires within { p < length fronts.now }
    requires fit { AreFit tables.now fronts.now }
    requires size { length holds.old ≡ length fronts.now * length fronts.now }
    ensures count { result ≡ held tables.now fronts.now p }
    ensures others { ChangesColumn (length fronts.now) p holds.old holds.new }
    ensures column { IsColumn tables.now fronts.now p holds.new }
{
    let Some(f) = fronts[p as usize] else {
        return 0;
    };
    let holders = reaches.holders(p);
    let mut count = 0;
    for q in holders {
        count += holds_from(tables, reaches, fronts, holds, *q, p, f);
    }
    count
}

// By how many segments the front of process q holds the front f of process p up; none where that is q's own. It sets the
// entry in the row of q for p.
#[inline(always)]
fn holds_from(
    tables: &Tables,
    reaches: &Reaches,
    fronts: &[Option<Front>],
    holds: &mut [u32],
    q: u32,
    p: u32,
    f: Front,
) -> u32
    requires aligned { AreAligned tables.now }
    requires reaches { AreReaches tables.now reaches.now }
    requires few { length fronts.now ≤ greatest_segments }
    requires within { p < length fronts.now }
    requires fit { AreFit tables.now fronts.now }
    requires held { IsFit tables.now p f }
    requires size { length holds.old ≡ length fronts.now * length fronts.now }
    ensures count { result ≡ holds_from tables.now fronts.now p f q }
    ensures others { ChangesEntry (length fronts.now) q p holds.old holds.new }
    ensures entry { (g : FrontSpec) → q ≢ p → slice_index_or fronts.now q None ≡ Some g →
        entry_in (length fronts.now) holds.new q p ≡ holds_of tables.now g p f }
{
    if q == p {
        return 0;
    }
    let Some(g) = front_at(fronts, q) else {
        return 0;
    };
    let count = holds_of(tables, reaches, g, p, f);
    holds[entry_of(fronts.len(), q, p)] = count;
    count
}

// The front of process q; none of a process that there isn't.
fn front_at(fronts: &[Option<Front>], q: u32) -> Option<Front>
    ensures { result ≡ slice_index_or fronts.now q None }
{
    *fronts.get(q as usize)?
}

// Where the entry in the row of process p for process q stands, in the table of so many processes.
#[inline(always)]
fn entry_of(processes: usize, p: u32, q: u32) -> usize
    requires few { processes ≤ greatest_segments }
    requires row { p < processes }
    requires place { q < processes }
    ensures place { result ≡ p * processes + q }
    ensures within { result < processes * processes }
{
    p as usize * processes + q as usize
}

// Mends the counts for the front of process p to leave: those that it can hold up are held up by so much less, as its row
// says, and p itself by nothing.
fn leave(
    _tables: &Tables,
    reaches: &Reaches,
    fronts: &[Option<Front>],
    counts: &mut [u32],
    holds: &[u32],
    p: u32,
)
    requires reaches { AreReaches _tables.now reaches.now }
    requires few { length fronts.now ≤ greatest_segments }
    requires within { p < length fronts.now }
    requires fit { AreFit _tables.now fronts.now }
    requires counts { AreCounts _tables.now fronts.now counts.old }
    requires holds { AreHolds _tables.now fronts.now holds.now }
    ensures { AreCounts _tables.now (slice_set fronts.now p None) counts.new }
{
    let Some(old) = fronts[p as usize] else {
        return;
    };
    counts[p as usize] = 0;
    let affected = reaches.affected(old.segment);
    for q in affected {
        lower(counts, holds, *q, p);
    }
}

// Takes the entry in the row of process p for process q off the count of q. Where that is 0 nothing holds q up, and the entry
// may be an old one.
#[inline(always)]
fn lower(counts: &mut [u32], holds: &[u32], q: u32, p: u32)
    requires few { length counts.old ≤ greatest_segments }
    requires within { p < length counts.old }
    requires size { length holds.now ≡ length counts.old * length counts.old }
    requires entry { slice_index_or counts.old q 0 ≢ 0 →
        entry_in (length counts.old) holds.now p q ≤ slice_index_or counts.old q 0 }
    ensures only { ChangesOnly q counts.old counts.new }
    ensures count { slice_index_or counts.new q 0
        ≡ slice_index_or counts.old q 0 - entry_in (length counts.old) holds.now p q }
{
    let processes = counts.len();
    if q as usize >= processes || counts[q as usize] == 0 {
        return;
    }
    counts[q as usize] -= holds[entry_of(processes, p, q)];
}

// Mends the counts for the front of process p to enter: those that it can hold up are held up by so much more, and p itself
// by all others. It sets the entries of all these.
fn enter(
    tables: &Tables,
    reaches: &Reaches,
    fronts: &[Option<Front>],
    counts: &mut [u32],
    holds: &mut [u32],
    p: u32,
)
    requires aligned { AreAligned tables.now }
    requires reaches { AreReaches tables.now reaches.now }
    requires few { length fronts.now ≤ greatest_segments }
    requires within { p < length fronts.now }
    requires fit { AreFit tables.now fronts.now }
    requires counts { AreCounts tables.now (slice_set fronts.now p None) counts.old }
    requires holds { AreHolds tables.now (slice_set fronts.now p None) holds.old }
    ensures counts { AreCounts tables.now fronts.now counts.new }
    ensures holds { AreHolds tables.now fronts.now holds.new }
{
    let Some(new) = fronts[p as usize] else {
        return;
    };
    let affected = reaches.affected(new.segment);
    for q in affected {
        raise(tables, reaches, fronts, counts, holds, *q, p, new);
    }
    counts[p as usize] = count_of(tables, reaches, fronts, holds, p);
}

// Puts onto the count of process q what the front g of process p holds it up by, if that is another process, and sets the
// entry in the row of p for q.
#[inline(always)]
fn raise(
    tables: &Tables,
    reaches: &Reaches,
    fronts: &[Option<Front>],
    counts: &mut [u32],
    holds: &mut [u32],
    q: u32,
    p: u32,
    g: Front,
)
    requires aligned { AreAligned tables.now }
    requires reaches { AreReaches tables.now reaches.now }
    requires few { length fronts.now ≤ greatest_segments }
    requires count { length counts.old ≡ length fronts.now }
    requires size { length holds.old ≡ length fronts.now * length fronts.now }
    requires own { slice_index_or fronts.now p None ≡ Some g }
    requires fit { AreFit tables.now fronts.now }
    requires held { q ≢ p →
        slice_index_or counts.old q 0 ≡ held tables.now (slice_set fronts.now p None) q }
    ensures only { ChangesOnly q counts.old counts.new }
    ensures held { q ≢ p → slice_index_or counts.new q 0 ≡ held tables.now fronts.now q }
    ensures others { ChangesEntry (length fronts.now) p q holds.old holds.new }
    ensures entry { (f : FrontSpec) → q ≢ p → slice_index_or fronts.now q None ≡ Some f →
        entry_in (length fronts.now) holds.new p q ≡ holds_of tables.now g q f }
{
    if q == p {
        return;
    }
    if let Some(f) = front_at(fronts, q) {
        let more = holds_of(tables, reaches, g, q, f);
        counts[q as usize] += more;
        holds[entry_of(fronts.len(), p, q)] = more;
    }
}
