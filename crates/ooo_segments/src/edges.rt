ghost use Rattle.std.specs.Prelude.{◌≡◌, ℕ, ◌<◌, ◌≤◌, ◌↔◌, Some, length, slice_get, All, AllPairs, Contains, IsTrue, IfOk, OnOk};
ghost use Rattle.ooo_time.specs.declared.delay.Delay.{Delay as DelaySpec};
ghost use Rattle.ooo_segments.specs.Beginnings.{greatest_segments};
ghost use Rattle.ooo_code.specs.declared.segment.SegmentEntry.TheVariants.{After};
ghost use Rattle.ooo_segments.specs.Edges.{AreEdges, AreEdgesBefore, EndsBefore, Follows};

use crate::graphs::Edge;
use crate::waits::delay_of;
use ooo_code::{Design, NodeKind, Segment, SegmentEntry};
use ooo_time::Delay;
use ooo_value::ProcessKind;
use sqlite_items::at;
use std::alloc::{AllocError, Global};

// All edges between two segments, in order.
pub(crate) fn all_edges(
    alloc: Global,
    design: &Design,
    segments: &[Segment],
) -> Result<Vec<Edge>, AllocError>
    requires few { length segments.now ≤ greatest_segments }
    requires ascending { All (λ s. AllPairs (λ m n. m < n) s.nodes) segments.now }
    ensures { IfOk result (λ edges. AreEdges design.now segments.now edges.items) }
{
    let mut edges = Vec::new(alloc);
    for (from, before) in segments.iter().enumerate() {
        add_edges(&mut edges, design, segments, from as u32, before)?;
    }
    Ok(edges)
}

// Adds the edges from a segment.
fn add_edges(
    edges: &mut Vec<Edge>,
    design: &Design,
    segments: &[Segment],
    from: u32,
    before: &Segment,
) -> Result<(), AllocError>
    requires few { length segments.now ≤ greatest_segments }
    requires ascending { AllPairs (λ m n. m < n) before.now.nodes }
    requires before { slice_get segments.now from ≡ Some before.now }
    requires so_far { AreEdgesBefore design.now segments.now from 0 edges.old.items }
    ensures { let count = length segments.now in
        OnOk result (AreEdgesBefore design.now segments.now from count edges.new.items) }
{
    for (to, after) in segments.iter().enumerate() {
        let to = to as u32;
        if let Some(delay) = delay_between(design, from, to, before, after) {
            edges.push(Edge { from, to, delay })?;
        }
    }
    Ok(())
}

// The delay by which one segment can follow another in their process.
fn delay_between(
    design: &Design,
    from: u32,
    to: u32,
    before: &Segment,
    after: &Segment,
) -> Option<Delay>
    requires { AllPairs (λ m n. m < n) before.now.nodes }
    ensures { (d : DelaySpec) →
        (result ≡ Some d) ↔ Follows design.now from to before.now after.now d }
{
    if before.process != after.process {
        return None;
    }
    let process = at(design.processes.as_slice(), before.process as usize)?;
    match (process.kind, after.entry) {
        (ProcessKind::Thread, SegmentEntry::Start) => None,
        (ProcessKind::Thread, SegmentEntry::After(wait)) => {
            wait_among(design, before.nodes.as_slice(), wait)
        }
        (ProcessKind::Method, _) if from == to => Some(Delay::DELTA),
        (ProcessKind::Method, _) => None,
    }
}

// The delay of a wait, where it is one of these nodes.
fn wait_among(design: &Design, nodes: &[u32], wait: u32) -> Option<Delay>
    requires { AllPairs (λ m n. m < n) nodes.now }
    ensures { (d : DelaySpec) → (result ≡ Some d) ↔ EndsBefore design.now nodes.now (After wait) d }
{
    if !has_number(nodes, wait) {
        return None;
    }
    let node = at(design.nodes.as_slice(), wait as usize)?;
    match &node.kind {
        NodeKind::Wait(on) => Some(delay_of(on)),
        _ => None,
    }
}

// Whether a number is among ascending ones.
fn has_number(numbers: &[u32], n: u32) -> bool
    requires { AllPairs (λ m n. m < n) numbers.now }
    ensures { IsTrue result ↔ Contains numbers.now n }
{
    numbers.binary_search(&n).is_ok()
}
