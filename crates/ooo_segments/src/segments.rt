ghost use Rattle.std.specs.Prelude.{◌≡◌, ◌≤◌, [], ◌∷◌, Some, length, slice_get, Contains, IfOk, OnOk};
ghost use Rattle.ooo_code.specs.Segments.{entries_of};
ghost use Rattle.ooo_code.specs.Nodes.{entry_node as entry_node_of};
ghost use Rattle.ooo_segments.specs.Beginnings.{beginnings, beginnings_of, greatest_segments, AreSegments, AddsSegments};
ghost use Rattle.ooo_segments.specs.Closed.{AreClosed};

use crate::searching::reached;
use crate::waits::is_wait;
use ooo_code::{Design, Proc, Segment, SegmentEntry};
use sqlite_items::at;
use std::alloc::{AllocError, Global};

// All segments of a design, in order.
pub(crate) fn all_segments(alloc: Global, design: &Design) -> Result<Vec<Segment>, AllocError>
    requires closed { AreClosed design.now }
    requires few { length (beginnings design.now) ≤ greatest_segments }
    ensures { IfOk result (λ segments. AreSegments design.now segments.items) }
{
    let mut segments = Vec::new(alloc);
    for (p, process) in design.processes.as_slice().iter().enumerate() {
        add_process(alloc, &mut segments, design, p as u32, process)?;
    }
    Ok(segments)
}

// Adds the segments of a process.
fn add_process(
    alloc: Global,
    segments: &mut Vec<Segment>,
    design: &Design,
    p: u32,
    process: &Proc,
) -> Result<(), AllocError>
    requires closed { AreClosed design.now }
    requires process { slice_get design.now.processes p ≡ Some process.now }
    ensures { OnOk result (AddsSegments design.now segments.old.items segments.new.items
        (beginnings_of design.now p process.now)) }
{
    add_segment(alloc, segments, design, p, process, SegmentEntry::Start)?;
    for n in process.first..process.end {
        if is_wait(&design.nodes.as_slice()[n as usize]) {
            add_segment(alloc, segments, design, p, process, SegmentEntry::After(n))?;
        }
    }
    Ok(())
}

// Adds a segment of a process.
fn add_segment(
    alloc: Global,
    segments: &mut Vec<Segment>,
    design: &Design,
    p: u32,
    process: &Proc,
    entry: SegmentEntry,
) -> Result<(), AllocError>
    requires closed { AreClosed design.now }
    requires process { slice_get design.now.processes p ≡ Some process.now }
    requires entry { Contains (entries_of design.now process.now) entry }
    ensures { OnOk result (AddsSegments design.now segments.old.items segments.new.items
        ((p, entry) ∷ [])) }
{
    let first = entry_node(design, process, entry);
    let found = reached(alloc, design.nodes.as_slice(), first, process.end)?;
    let segment = Segment {
        process: p,
        entry,
        nodes: found.numbers(alloc)?,
    };
    segments.push(segment)?;
    Ok(())
}

// The node at which a segment begins.
fn entry_node(design: &Design, process: &Proc, entry: SegmentEntry) -> u32
    ensures { result ≡ entry_node_of design.now process.now entry }
{
    match entry {
        SegmentEntry::Start => process.first,
        SegmentEntry::After(wait) => match at(design.nodes.as_slice(), wait as usize) {
            Some(node) => node.next,
            None => 0,
        },
    }
}
