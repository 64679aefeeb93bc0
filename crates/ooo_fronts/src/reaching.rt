ghost use Rattle.std.specs.Prelude.{◌≡◌, ◌≢◌, ◌^◌, ◌<◌, ◌≤◌, ◌⊎◌, ◌↔◌, ℕ, Some, [], length, slice_index_or, All, Contains, IfOk, OnOk, IsTrue};
ghost use Rattle.ooo_access.specs.Access.{AreAscending};
ghost use Rattle.ooo_advance.specs.Rows.{entry_at};
ghost use Rattle.ooo_advance.specs.Walks.{no_delay};
ghost use Rattle.ooo_segments.specs.Beginnings.{greatest_segments};
ghost use Rattle.ooo_segments.specs.Numbers.{IsIn};
ghost use Rattle.ooo_fronts.specs.Fronts.{AreAligned, process_in};
ghost use Rattle.ooo_fronts.specs.Reaching.{AreListsOf, AreReaches, CanBeHeldBy, CanHoldProcess, IsListOf, LeadsTo, Meets, MeetsProcess, Relates, RelatesTo};

use crate::holds::process_of;
use crate::soonest::all_soonest;
use ooo_segments::NumberSet;
use ooo_tables::Tables;
use ooo_time::Delay;
use sqlite_items::Items;
use std::alloc::{AllocError, Global};
use std::marker::Model;

/// What a front can come to, whatever its stamp: to which segments it leads, and which processes it can hold up by these.
/// It is made once of a design's tables, so that a front that changes is held against no others but those.
#[derive(Drop)]
pub struct Reaches {
    // Of each segment those to which it leads.
    leads: Vec<Items<u32>>,
    // Of each segment those to which it leads with no delay.
    at_once: Vec<Items<u32>>,
    // Of each segment those that meet it.
    meeting: Vec<Items<u32>>,
    // Of each segment the processes that it can hold up.
    affected: Vec<Items<u32>>,
    // Of each process those by which it can be held up.
    holders: Vec<Items<u32>>,
    // Of each two segments the least delay by which the first leads to one that meets the second.
    soonest: Vec<Items<Option<Delay>>>,
}

impl Model for Reaches {
    ghost use Rattle.ooo_fronts.specs.Reaching.{Reached};

    ghost Value = { Reached };

    ghost view = { λ r. record {
      leads = r.leads.items;
      at_once = r.at_once.items;
      meeting = r.meeting.items;
      affected = r.affected.items;
      holders = r.holders.items;
      soonest = r.soonest.items;
    } };
}

impl Reaches {
    /// What the fronts of segments of these tables can come to.
    ///
    /// # Errors
    ///
    /// Only where memory runs out.
    pub fn make(alloc: Global, tables: &Tables) -> Result<Reaches, AllocError>
        requires aligned { AreAligned tables.now }
        ensures { IfOk result (AreReaches tables.now) }
    {
        let leads = all_related(alloc, tables, Relation::Leads)?;
        let at_once = all_related(alloc, tables, Relation::AtOnce)?;
        let meeting = all_related(alloc, tables, Relation::Met)?;
        let met = all_met(alloc, tables)?;
        let affected = all_affected(alloc, tables, leads.as_slice(), met.as_slice())?;
        let holders = all_holders(alloc, tables, affected.as_slice())?;
        let soonest = all_soonest(alloc, tables)?;
        Ok(Reaches {
            leads,
            at_once,
            meeting,
            affected,
            holders,
            soonest,
        })
    }

    // The segments to which segment a leads, ascending.
    pub(crate) fn leads(&self, a: u32) -> &[u32]
        requires { a < length self.now.leads }
        ensures { result.now ≡ slice_index_or self.now.leads a [] }
    {
        self.leads[a as usize].as_slice()
    }

    // The segments to which segment a leads with no delay, ascending.
    pub(crate) fn at_once(&self, a: u32) -> &[u32]
        requires { a < length self.now.at_once }
        ensures { result.now ≡ slice_index_or self.now.at_once a [] }
    {
        self.at_once[a as usize].as_slice()
    }

    // The segments that meet segment c, ascending.
    pub(crate) fn meeting(&self, c: u32) -> &[u32]
        requires { c < length self.now.meeting }
        ensures { result.now ≡ slice_index_or self.now.meeting c [] }
    {
        self.meeting[c as usize].as_slice()
    }

    // The processes that a front of segment a can hold up, ascending.
    pub(crate) fn affected(&self, a: u32) -> &[u32]
        requires { a < length self.now.affected }
        ensures { result.now ≡ slice_index_or self.now.affected a [] }
    {
        self.affected[a as usize].as_slice()
    }

    // The processes by which a front of process p can be held up, ascending.
    pub(crate) fn holders(&self, p: u32) -> &[u32]
        requires { p < length self.now.holders }
        ensures { result.now ≡ slice_index_or self.now.holders p [] }
    {
        self.holders[p as usize].as_slice()
    }

    // The least delay by which segment a leads to one that meets segment c.
    #[inline(always)]
    pub(crate) fn soonest(&self, a: u32, c: u32) -> Option<Delay>
        requires from { a < length self.now.soonest }
        requires to { c < length (slice_index_or self.now.soonest a []) }
        ensures { result ≡ entry_at self.now.soonest a c }
    {
        self.soonest[a as usize].as_slice()[c as usize]
    }
}

// How a segment stands to another one.
#[derive(Clone, Copy)]
enum Relation {
    // It leads to the other.
    Leads,
    // It leads to the other with no delay.
    AtOnce,
    // It is met by the other.
    Met,
}

// Of each segment those to which it stands so.
fn all_related(
    alloc: Global,
    tables: &Tables,
    relation: Relation,
) -> Result<Vec<Items<u32>>, AllocError>
    requires aligned { AreAligned tables.now }
    ensures { IfOk result (λ lists.
        AreListsOf (RelatesTo tables.now relation) (length tables.now.graph.segments) lists.items) }
{
    let count = tables.graph.segments.len();
    let mut lists = Vec::with_capacity(alloc, count)?;
    for a in 0..count {
        lists.push(related_to(alloc, tables, relation, a as u32)?)?;
    }
    Ok(lists)
}

// The segments to which segment a stands so.
fn related_to(
    alloc: Global,
    tables: &Tables,
    relation: Relation,
    a: u32,
) -> Result<Items<u32>, AllocError>
    requires aligned { AreAligned tables.now }
    requires segment { a < length tables.now.graph.segments }
    ensures { IfOk result (IsListOf (RelatesTo tables.now relation a)) }
{
    let mut set = NumberSet::new(alloc);
    for b in 0..tables.graph.segments.len() {
        let is_one = relates(tables, relation, a, b as u32);
        add_if(&mut set, is_one, b as u32)?;
    }
    set.numbers(alloc)
}

// Whether segment a stands so to segment b.
fn relates(tables: &Tables, relation: Relation, a: u32, b: u32) -> bool
    requires aligned { AreAligned tables.now }
    requires one { a < length tables.now.graph.segments }
    requires other { b < length tables.now.graph.segments }
    ensures { IsTrue result ↔ Relates tables.now relation a b }
{
    match relation {
        Relation::Leads => tables.advance.least(a, b).is_some(),
        Relation::AtOnce => leads_at_once(tables, a, b),
        Relation::Met => meets(tables, b, a),
    }
}

// Whether segment a leads to segment b with no delay.
pub(crate) fn leads_at_once(tables: &Tables, a: u32, b: u32) -> bool
    requires aligned { AreAligned tables.now }
    requires one { a < length tables.now.graph.segments }
    requires other { b < length tables.now.graph.segments }
    ensures { IsTrue result ↔ (entry_at tables.now.advance a b ≡ Some no_delay) }
{
    tables.advance.least(a, b) == Some(Delay::NONE)
}

// Of each segment the processes of which it meets a segment.
fn all_met(alloc: Global, tables: &Tables) -> Result<Vec<Items<u32>>, AllocError>
    requires aligned { AreAligned tables.now }
    ensures { IfOk result (λ lists.
        AreListsOf (MeetsProcess tables.now) (length tables.now.graph.segments) lists.items) }
{
    let count = tables.graph.segments.len();
    let mut lists = Vec::with_capacity(alloc, count)?;
    for b in 0..count {
        lists.push(met_by(alloc, tables, b as u32)?)?;
    }
    Ok(lists)
}

// The processes of which segment b meets a segment.
fn met_by(alloc: Global, tables: &Tables, b: u32) -> Result<Items<u32>, AllocError>
    requires aligned { AreAligned tables.now }
    requires segment { b < length tables.now.graph.segments }
    ensures { IfOk result (IsListOf (MeetsProcess tables.now b)) }
{
    let mut set = NumberSet::new(alloc);
    for c in 0..tables.graph.segments.len() {
        let met = meets(tables, b, c as u32);
        add_if(&mut set, met, process_of(tables, c as u32))?;
    }
    set.numbers(alloc)
}

// Whether segment b meets segment c.
pub(crate) fn meets(tables: &Tables, b: u32, c: u32) -> bool
    requires aligned { AreAligned tables.now }
    requires one { b < length tables.now.graph.segments }
    requires other { c < length tables.now.graph.segments }
    ensures { IsTrue result ↔ Meets tables.now b c }
{
    process_of(tables, b) != process_of(tables, c) && tables.clash.clash(b, c, true)
}

// Of each segment the processes that it can hold up, where it leads to these segments, and these are met by each of them.
fn all_affected(
    alloc: Global,
    tables: &Tables,
    leads: &[Items<u32>],
    met: &[Items<u32>],
) -> Result<Vec<Items<u32>>, AllocError>
    requires leads { AreListsOf (LeadsTo tables.now) (length tables.now.graph.segments) leads.now }
    requires met { AreListsOf (MeetsProcess tables.now) (length tables.now.graph.segments) met.now }
    ensures { IfOk result (λ lists.
        AreListsOf (CanHoldProcess tables.now) (length tables.now.graph.segments) lists.items) }
{
    let mut lists = Vec::with_capacity(alloc, leads.len())?;
    for a in 0..leads.len() {
        lists.push(of_any(alloc, leads[a].as_slice(), met)?)?;
    }
    Ok(lists)
}

// The numbers that stand in any of the lists at these places.
fn of_any(alloc: Global, places: &[u32], lists: &[Items<u32>]) -> Result<Items<u32>, AllocError>
    requires { All (λ k. k < length lists.now) places.now }
    ensures { IfOk result (IsListOf (λ n.
        (k : ℕ) × Contains places.now k × Contains (slice_index_or lists.now k []) n)) }
{
    let mut set = NumberSet::new(alloc);
    for k in places {
        add_all(&mut set, lists[*k as usize].as_slice())?;
    }
    set.numbers(alloc)
}

// Of each process those by which it can be held up, where each segment can hold up these.
fn all_holders(
    alloc: Global,
    tables: &Tables,
    affected: &[Items<u32>],
) -> Result<Vec<Items<u32>>, AllocError>
    requires few { length tables.now.graph.segments ≤ greatest_segments }
    requires affected { AreListsOf (CanHoldProcess tables.now)
        (length tables.now.graph.segments) affected.now }
    ensures lists { IfOk result (λ lists.
        AreListsOf (CanBeHeldBy tables.now) (length lists.items) lists.items) }
    ensures processes { IfOk result (λ lists. (a : ℕ) → a < length tables.now.graph.segments →
        process_in tables.now a < length lists.items) }
{
    let count = process_count(tables);
    let mut lists = Vec::new(alloc);
    for p in 0..count {
        lists.push(holders_of(alloc, tables, affected, p as u32)?)?;
    }
    Ok(lists)
}

// One more than the greatest process of a segment.
fn process_count(tables: &Tables) -> usize
    requires few { length tables.now.graph.segments ≤ greatest_segments }
    ensures all { (a : ℕ) → a < length tables.now.graph.segments →
        process_in tables.now a < result }
    ensures few { result ≤ 2 ^ 32 }
{
    let mut count = 0usize;
    for a in 0..tables.graph.segments.len() {
        count = count.max(process_of(tables, a as u32) as usize + 1);
    }
    count
}

// The processes by which a front of process p can be held up, where each segment can hold up these.
fn holders_of(
    alloc: Global,
    tables: &Tables,
    affected: &[Items<u32>],
    p: u32,
) -> Result<Items<u32>, AllocError>
    requires few { length tables.now.graph.segments ≤ greatest_segments }
    requires affected { AreListsOf (CanHoldProcess tables.now)
        (length tables.now.graph.segments) affected.now }
    ensures { IfOk result (IsListOf (CanBeHeldBy tables.now p)) }
{
    let mut set = NumberSet::new(alloc);
    for a in 0..affected.len() {
        let holds = contains(affected[a].as_slice(), p);
        add_if(&mut set, holds, process_of(tables, a as u32))?;
    }
    set.numbers(alloc)
}

// Whether a number is among ascending ones.
fn contains(numbers: &[u32], n: u32) -> bool
    requires { AreAscending numbers.now }
    ensures { IsTrue result ↔ Contains numbers.now n }
{
    numbers.binary_search(&n).is_ok()
}

// Puts the number into the set, if it is to be there.
fn add_if(set: &mut NumberSet, is_to: bool, n: u32) -> Result<(), AllocError>
    ensures { OnOk result
        ((m : ℕ) → IsIn set.new m ↔ (IsIn set.old m ⊎ (IsTrue is_to × (m ≡ n)))) }
{
    if is_to {
        set.add(n)?;
    }
    Ok(())
}

// Puts these numbers into the set.
fn add_all(set: &mut NumberSet, numbers: &[u32]) -> Result<(), AllocError>
    ensures { OnOk result ((m : ℕ) → IsIn set.new m ↔ (IsIn set.old m ⊎ Contains numbers.now m)) }
{
    for n in numbers {
        set.add(*n)?;
    }
    Ok(())
}
