//! Of each two segments the least delay by which the one leads to a segment that meets the other.

ghost use Rattle.std.specs.Prelude.{◌≡◌, ◌<◌, ◌⊎◌, length, IfOk, Some};
ghost use Rattle.ooo_time.specs.declared.delay.Delay.{Delay as DelaySpec};
ghost use Rattle.ooo_time.specs.Delays.{IsLess};
ghost use Rattle.ooo_fronts.specs.Fronts.{AreAligned};
ghost use Rattle.ooo_fronts.specs.Reaching.{AreSoonest, IsSoonest, IsSoonestRow, delay_by};

use crate::holds::process_of;
use crate::reaching::{leads_at_once, meets};
use ooo_tables::Tables;
use ooo_time::Delay;
use sqlite_items::Items;
use std::alloc::{AllocError, Global};

/// Of each segment a row: of each segment the least delay by which the first leads to one that meets the second.
pub(crate) fn all_soonest(
    alloc: Global,
    tables: &Tables,
) -> Result<Vec<Items<Option<Delay>>>, AllocError>
    requires aligned { AreAligned tables.now }
    ensures { IfOk result (λ rows.
        AreSoonest tables.now (length tables.now.graph.segments) rows.items) }
{
    let count = tables.graph.segments.len();
    let mut rows = Vec::with_capacity(alloc, count)?;
    for a in 0..count {
        rows.push(soonest_from(alloc, tables, a as u32)?)?;
    }
    Ok(rows)
}

// The row of segment a.
fn soonest_from(alloc: Global, tables: &Tables, a: u32) -> Result<Items<Option<Delay>>, AllocError>
    requires aligned { AreAligned tables.now }
    requires segment { a < length tables.now.graph.segments }
    ensures { IfOk result (IsSoonestRow tables.now a (length tables.now.graph.segments)) }
{
    let mut row = Items::new(alloc);
    for c in 0..tables.graph.segments.len() {
        row.push(soonest(tables, a, c as u32))?;
    }
    Ok(row)
}

// The least delay by which segment a leads to one that meets segment c: none at all, where it is one itself. So the others
// are gone over only where it isn't.
fn soonest(tables: &Tables, a: u32, c: u32) -> Option<Delay>
    requires aligned { AreAligned tables.now }
    requires from { a < length tables.now.graph.segments }
    requires to { c < length tables.now.graph.segments }
    ensures { IsSoonest tables.now a c result }
{
    if meets(tables, a, c) && leads_at_once(tables, a, a) {
        return Some(Delay::NONE);
    }
    soonest_by_others(tables, a, c)
}

// The same, of all that clash strictly with segment c.
fn soonest_by_others(tables: &Tables, a: u32, c: u32) -> Option<Delay>
    requires aligned { AreAligned tables.now }
    requires from { a < length tables.now.graph.segments }
    requires to { c < length tables.now.graph.segments }
    ensures { IsSoonest tables.now a c result }
{
    let mut least: Option<Delay> = None;
    let clashing = tables.clash.clashing(c);
    for b in clashing {
        if let Some(delay) = delay_by(tables, a, *b, c) {
            least = Some(lesser(delay, least));
        }
    }
    least
}

// The delay by which segment a leads to segment b, if that is of another process than segment c.
fn delay_by(tables: &Tables, a: u32, b: u32, c: u32) -> Option<Delay>
    requires aligned { AreAligned tables.now }
    requires from { a < length tables.now.graph.segments }
    requires by { b < length tables.now.graph.segments }
    requires to { c < length tables.now.graph.segments }
    ensures { result ≡ delay_by tables.now a b c }
{
    if process_of(tables, b) == process_of(tables, c) {
        return None;
    }
    tables.advance.least(a, b)
}

// The lesser of two delays, of which the second may be missing.
fn lesser(one: Delay, other: Option<Delay>) -> Delay
    ensures one_of { (result ≡ one) ⊎ (other ≡ Some result) }
    ensures first { ¬ IsLess one result }
    ensures second { (d : DelaySpec) → other ≡ Some d → ¬ IsLess d result }
{
    match other {
        Some(other) if other.is_less(one) => other,
        _ => one,
    }
}
