ghost use Rattle.std.specs.Prelude.{◌≡◌, ◌<◌, ◌↔◌, [], All, Contains, IfOk, IsTrue, length, slice_index_or};
ghost use Rattle.ooo_access.specs.Access.{AreAscending, IsInOrder};
ghost use Rattle.ooo_segments.specs.Edges.{IsLink, delay_after as delay_by_time};
ghost use Rattle.ooo_advance.specs.Links.{AreNotices, IsAdded, IsLinkTable, AreNoticeRows};
ghost use Rattle.ooo_advance.specs.Orders.{IsLeastOf, IsLesser};
ghost use Rattle.ooo_advance.specs.Walks.{Notifies};

use ooo_access::Access;
use ooo_segments::{Edge, Graph};
use ooo_time::{Delay, Time};
use sqlite_items::Items;
use std::alloc::{AllocError, Global};

// The least delay of an edge to each segment, from each.
pub(crate) type Links = Vec<Items<Option<Delay>>>;

// The least delay of an edge from each segment to each.
pub(crate) fn links_of(alloc: Global, graph: &Graph, access: &[Access]) -> Result<Links, AllocError>
    requires links { All (IsLink (length access.now)) graph.now.edges }
    requires in_order { All IsInOrder access.now }
    ensures { IfOk result (λ links. IsLinkTable graph.now access.now links.items) }
{
    let mut links = all_notices(alloc, access)?;
    for edge in graph.edges.as_slice() {
        add_edge(&mut links, edge);
    }
    Ok(links)
}

// The least delay by which each segment notifies an event on which each waits.
fn all_notices(alloc: Global, access: &[Access]) -> Result<Links, AllocError>
    requires { All IsInOrder access.now }
    ensures { IfOk result (λ links. AreNoticeRows access.now access.now links.items) }
{
    let mut links = Vec::new(alloc);
    for from in access {
        links.push(notices_of(alloc, from, access)?)?;
    }
    Ok(links)
}

// The least delay by which a segment notifies an event on which each waits.
fn notices_of(
    alloc: Global,
    from: &Access,
    access: &[Access],
) -> Result<Items<Option<Delay>>, AllocError>
    requires { All IsInOrder access.now }
    ensures { IfOk result (AreNotices from.now access.now) }
{
    let mut row = Items::new(alloc);
    for to in access {
        row.push(notice_between(from, to))?;
    }
    Ok(row)
}

// The least delay by which one segment notifies an event on which the other waits.
fn notice_between(from: &Access, to: &Access) -> Option<Delay>
    requires { AreAscending to.now.waited }
    ensures { IsLeastOf (Notifies from.now to.now) result }
{
    let mut least = None;
    for notice in from.notified.as_slice() {
        if has_number(to.waited.as_slice(), notice.0) {
            least = Some(lesser(least, delay_after(notice.1)));
        }
    }
    least
}

// Whether a number is among ascending ones.
fn has_number(numbers: &[u32], n: u32) -> bool
    requires { AreAscending numbers.now }
    ensures { IsTrue result ↔ Contains numbers.now n }
{
    numbers.binary_search(&n).is_ok()
}

// The delay of a notification: of its time, or of one delta cycle.
fn delay_after(time: Option<Time>) -> Delay
    ensures { result ≡ delay_by_time time }
{
    match time {
        Some(time) => Delay { time, deltas: 0 },
        None => Delay::DELTA,
    }
}

// Lowers the delay between two segments to that of an edge, where it is less.
fn add_edge(links: &mut Links, edge: &Edge)
    requires from { edge.now.from < length links.old.items }
    requires to { edge.now.to < length (slice_index_or links.old.items edge.now.from []) }
    ensures { IsAdded links.old.items edge.now links.new.items }
{
    let to = edge.to as usize;
    let row = &mut links[edge.from as usize];
    let least = lesser(row.as_slice()[to], edge.delay);
    row.set(to, Some(least));
}

// The lesser of two delays, of which the first may be missing.
pub(crate) fn lesser(known: Option<Delay>, other: Delay) -> Delay
    ensures { IsLesser known other result }
{
    match known {
        Some(delay) if !other.is_less(delay) => delay,
        _ => other,
    }
}
