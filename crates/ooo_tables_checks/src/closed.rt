//! Whether a design has a graph: a test of what `graph_of_closed` requires.

ghost use Rattle.std.specs.Prelude.{◌<◌, ◌≤◌, ◌↔◌, IsTrue, IfSome};
ghost use Rattle.ooo_code.specs.Segments.{IsNodeOf};
ghost use Rattle.ooo_segments.specs.Closed.{AreClosed, IsBounded, IsClosed, StaysIn};

use ooo_code::{Design, Node, NodeKind, NodeTime, NodeWait, Proc};
use ooo_time::Time;

/// Whether each process has nodes of its own, which lead to none but these, and no constant wait is above the greatest
/// time.
pub(crate) fn are_closed(design: &Design) -> bool
    ensures { IsTrue result → AreClosed design.now }
{
    for process in design.processes.as_slice() {
        if !is_closed(design, process) {
            return false;
        }
    }
    true
}

// Whether a process is such a one.
fn is_closed(design: &Design, process: &Proc) -> bool
    ensures { IsTrue result → IsClosed design.now process.now }
{
    let nodes = design.nodes.as_slice();
    if process.first >= process.end || process.end as usize > nodes.len() {
        return false;
    }
    for n in process.first..process.end {
        if !stays_in(process, &nodes[n as usize]) {
            return false;
        }
    }
    true
}

// Whether a node leads to nodes of its process alone, and waits no longer than the greatest time.
fn stays_in(process: &Proc, node: &Node) -> bool
    ensures { IsTrue result → StaysIn process.now node.now }
{
    match &node.kind {
        NodeKind::Test(_, other)
        | NodeKind::TestAvailable(_, other)
        | NodeKind::TestFree(_, other) => is_own(process, node.next) && is_own(process, *other),
        NodeKind::Wait(on) => is_own(process, node.next) && is_bounded(on),
        NodeKind::End => true,
        _ => is_own(process, node.next),
    }
}

// Whether a node is of a process.
fn is_own(process: &Proc, n: u32) -> bool
    ensures { IsTrue result ↔ IsNodeOf process.now n }
{
    process.first <= n && n < process.end
}

// Whether a wait takes no longer than the greatest time, as far as its time is constant.
fn is_bounded(wait: &NodeWait) -> bool
    ensures { IsTrue result → IfSome wait.now.time IsBounded }
{
    match &wait.time {
        Some(NodeTime::Fixed(time)) => *time <= Time::GREATEST,
        Some(NodeTime::Amount(_, _)) | None => true,
    }
}
