ghost use Rattle.std.specs.Prelude.{◌≡◌, ◌<◌, ◌≤◌, [], ◌∷◌, All, IfOk, OnOk, length};
ghost use Rattle.ooo_time.specs.Scales.{greatest_time};
ghost use Rattle.ooo_access.specs.Access.{IsInOrder};
ghost use Rattle.ooo_segments.specs.Edges.{IsLink};

use ooo_access::Access;
use ooo_advance::AdvanceTable;
use ooo_segments::{Edge, Graph};
use ooo_time::{Delay, Time};
use sqlite_items::Items;
use std::alloc::{AllocError, Global};
use std::test::Fail;

// No walk.
const FAR: Option<(u64, u32)> = None;

// No delay.
const HERE: Option<(u64, u32)> = Some((0, 0));

// One delta cycle.
const NEXT: Option<(u64, u32)> = Some((0, 1));

// Adds an edge between two of four segments: by a time, or by one delta cycle where that is zero.
fn add(edges: &mut Items<Edge>, from: u32, to: u32, ticks: u64) -> Result<(), AllocError>
    requires from { from < 4 }
    requires to { to < 4 }
    requires ticks { ticks ≤ greatest_time }
    requires so_far { All (IsLink 4) edges.old }
    ensures { OnOk result (All (IsLink 4) edges.new) }
{
    let delay = if ticks == 0 {
        Delay::DELTA
    } else {
        Delay {
            time: Time(ticks),
            deltas: 0,
        }
    };
    edges.push(Edge { from, to, delay })?;
    Ok(())
}

// A segment that waits on and notifies at most one event each.
fn segment(
    alloc: Global,
    waited: Option<u32>,
    notified: Option<(u32, Option<Time>)>,
) -> Result<Access, AllocError>
    ensures { IfOk result IsInOrder }
{
    let waited = listed(alloc, waited)?;
    let notified = listed(alloc, notified)?;
    Ok(Access {
        read: Items::new(alloc),
        written: Items::new(alloc),
        signals_read: Items::new(alloc),
        signals_written: Items::new(alloc),
        takes: Items::new(alloc),
        puts: Items::new(alloc),
        cancelled: Items::new(alloc),
        waited,
        notified,
    })
}

// At most one item.
fn listed<T: Copy + Drop>(alloc: Global, item: Option<T>) -> Result<Items<T>, AllocError>
    ensures { IfOk result (λ items. length items ≤ 1) }
{
    let mut items = Items::new(alloc);
    if let Some(item) = item {
        items.push(item)?;
    }
    Ok(items)
}

// Four segments.
fn four(
    alloc: Global,
    waited: [Option<u32>; 4],
    notified: [Option<(u32, Option<Time>)>; 4],
) -> Result<Vec<Access>, AllocError>
    ensures count { IfOk result (λ access. length access.items ≡ 4) }
    ensures in_order { IfOk result (λ access. All IsInOrder access.items) }
{
    let mut access = Vec::new(alloc);
    for k in 0..4 {
        access.push(segment(alloc, waited[k], notified[k])?)?;
    }
    Ok(access)
}

// Whether the table of four segments is this one, row by row: each delay by its time and its delta cycles.
fn has_rows(
    alloc: Global,
    edges: Items<Edge>,
    access: Vec<Access>,
    rows: &[[Option<(u64, u32)>; 4]; 4],
) -> Result<bool, AllocError>
    requires edges { All (IsLink 4) edges }
    requires count { length access.items ≡ 4 }
    requires in_order { All IsInOrder access.items }
{
    let graph = Graph {
        segments: Items::new(alloc),
        edges,
    };
    let table = AdvanceTable::make(alloc, &graph, access.as_slice())?;
    let mut same = true;
    for a in 0..4u32 {
        for b in 0..4u32 {
            let delay = table.least(a, b).map(|d| (d.time.0, d.deltas));
            same &= delay == rows[a as usize][b as usize];
        }
    }
    Ok(same)
}

// Worked by hand: a wait of 5 ticks, then one of zero, which takes a delta cycle. The last segment stands alone.
#[test]
fn waits_add_up(rt: HostRuntime) -> Result<(), Fail> {
    let alloc = rt.alloc();
    let mut edges = Items::new(alloc);
    add(&mut edges, 0, 1, 5)?;
    add(&mut edges, 1, 2, 0)?;
    let access = four(alloc, [None; 4], [None; 4])?;
    let rows = [
        [HERE, Some((5, 0)), Some((5, 1)), FAR],
        [FAR, HERE, NEXT, FAR],
        [FAR, FAR, HERE, FAR],
        [FAR, FAR, FAR, HERE],
    ];
    assert!(rt; has_rows(alloc, edges, access, &rows)?);
    Ok(())
}

// Worked by hand: 3 and 4 ticks, and 5 and 2, come to one sum. A time begins its delta cycles anew.
#[test]
fn the_least_of_two_walks_counts(rt: HostRuntime) -> Result<(), Fail> {
    let alloc = rt.alloc();
    let mut edges = Items::new(alloc);
    add(&mut edges, 0, 1, 3)?;
    add(&mut edges, 0, 2, 5)?;
    add(&mut edges, 1, 3, 4)?;
    add(&mut edges, 2, 3, 2)?;
    add(&mut edges, 3, 0, 0)?;
    let access = four(alloc, [None; 4], [None; 4])?;
    let rows = [
        [HERE, Some((3, 0)), Some((5, 0)), Some((7, 0))],
        [Some((4, 1)), HERE, Some((9, 0)), Some((4, 0))],
        [Some((2, 1)), Some((5, 0)), HERE, Some((2, 0))],
        [NEXT, Some((3, 0)), Some((5, 0)), HERE],
    ];
    assert!(rt; has_rows(alloc, edges, access, &rows)?);
    Ok(())
}

// Worked by hand: a walk of the greatest time and one delta cycle counts, one of a tick more doesn't.
#[test]
fn walks_beyond_the_greatest_time_do_not_count(rt: HostRuntime) -> Result<(), Fail> {
    let alloc = rt.alloc();
    let mut edges = Items::new(alloc);
    add(&mut edges, 0, 1, Time::GREATEST.0)?;
    add(&mut edges, 1, 2, 1)?;
    add(&mut edges, 1, 3, 0)?;
    let access = four(alloc, [None; 4], [None; 4])?;
    let greatest = Time::GREATEST.0;
    let rows = [
        [HERE, Some((greatest, 0)), FAR, Some((greatest, 1))],
        [FAR, HERE, Some((1, 0)), NEXT],
        [FAR, FAR, HERE, FAR],
        [FAR, FAR, FAR, HERE],
    ];
    assert!(rt; has_rows(alloc, edges, access, &rows)?);
    Ok(())
}

// Worked by hand: the first two segments notify each other's events in no time, and an edge goes round in delta cycles.
#[test]
fn a_cycle_of_no_time_adds_nothing(rt: HostRuntime) -> Result<(), Fail> {
    let alloc = rt.alloc();
    let mut edges = Items::new(alloc);
    add(&mut edges, 1, 2, 0)?;
    add(&mut edges, 2, 2, 0)?;
    let at_once = Some(Time::ZERO);
    let waited = [Some(8), Some(9), None, None];
    let notified = [Some((9, at_once)), Some((8, at_once)), None, None];
    let access = four(alloc, waited, notified)?;
    let rows = [
        [HERE, HERE, NEXT, FAR],
        [HERE, HERE, NEXT, FAR],
        [FAR, FAR, HERE, FAR],
        [FAR, FAR, FAR, HERE],
    ];
    assert!(rt; has_rows(alloc, edges, access, &rows)?);
    Ok(())
}

// Worked by hand: the first segment notifies in a constant time the event on which two others wait, of which an edge comes
// to one sooner. The second notifies in a variable time, which counts as one delta cycle.
#[test]
fn notifications_lead_across_processes(rt: HostRuntime) -> Result<(), Fail> {
    let alloc = rt.alloc();
    let mut edges = Items::new(alloc);
    add(&mut edges, 0, 2, 4)?;
    let waited = [None, Some(7), Some(7), Some(8)];
    let notified = [
        Some((7, Some(Time(10)))),
        Some((8, None)),
        None,
        Some((6, None)),
    ];
    let access = four(alloc, waited, notified)?;
    let rows = [
        [HERE, Some((10, 0)), Some((4, 0)), Some((10, 1))],
        [FAR, HERE, FAR, NEXT],
        [FAR, FAR, HERE, FAR],
        [FAR, FAR, FAR, HERE],
    ];
    assert!(rt; has_rows(alloc, edges, access, &rows)?);
    Ok(())
}
