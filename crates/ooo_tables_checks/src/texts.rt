//! The tables of a design in words: a line for each segment, each access and each edge, and a row for each segment of the
//! clashes and of the least advances.

ghost use Rattle.std.specs.Prelude.{◌≡◌, ◌<◌, length};

use crate::closed::are_closed;
use crate::paper::Paper;
use crate::sketch::{Sketch, design_of};
use crate::tables::{Tables, tables_of};
use ooo_access::Access;
use ooo_code::{Segment, SegmentEntry};
use ooo_segments::Edge;
use ooo_time::{Delay, Time};
use std::alloc::Global;
use std::test::Fail;

/// The tables of a design in words.
pub(crate) fn told(alloc: Global, sketch: Sketch) -> Result<String, Fail> {
    let design = design_of(alloc, sketch)?;
    if are_closed(&design) {
        let tables = tables_of(alloc, &design);
        drop(design);
        told_of(alloc, tables?)
    } else {
        drop(design);
        Ok(String::from_str(alloc, "not closed")?)
    }
}

fn told_of(alloc: Global, tables: Tables) -> Result<String, Fail> {
    let mut paper = Paper::new(alloc);
    tell(&mut paper, &tables);
    drop(tables);
    Ok(paper.into_text()?)
}

fn tell(paper: &mut Paper, tables: &Tables) {
    tell_graph(paper, tables);
    tell_clashes(paper, tables);
    tell_advances(paper, tables);
}

// The segments, their accesses, and the edges.
fn tell_graph(paper: &mut Paper, tables: &Tables) {
    for (number, segment) in tables.graph.segments.as_slice().iter().enumerate() {
        tell_segment(paper, number, segment);
    }
    for (number, access) in tables.access.as_slice().iter().enumerate() {
        tell_access(paper, number, access);
    }
    for edge in tables.graph.edges.as_slice() {
        tell_edge(paper, edge);
    }
}

// A segment: where it begins, and its nodes.
fn tell_segment(paper: &mut Paper, number: usize, segment: &Segment) {
    paper.named("segment ", number as u64);
    paper.named(": process ", u64::from(segment.process));
    match segment.entry {
        SegmentEntry::Start => paper.put(" start"),
        SegmentEntry::After(wait) => paper.named(" after ", u64::from(wait)),
    }
    tell_numbers(paper, "nodes", segment.nodes.as_slice());
    paper.put("\n");
}

// Some numbers, where there are any.
fn tell_numbers(paper: &mut Paper, what: &str, numbers: &[u32]) {
    if numbers.is_empty() {
        return;
    }
    paper.put("; ");
    paper.put(what);
    for n in numbers {
        paper.named(" ", u64::from(*n));
    }
}

// What a segment touches, without what it doesn't.
fn tell_access(paper: &mut Paper, number: usize, access: &Access) {
    paper.named("access ", number as u64);
    let parts = [
        ("reads", access.read.as_slice()),
        ("writes", access.written.as_slice()),
        ("reads signals", access.signals_read.as_slice()),
        ("writes signals", access.signals_written.as_slice()),
        ("takes", access.takes.as_slice()),
        ("puts", access.puts.as_slice()),
        ("cancels", access.cancelled.as_slice()),
        ("waits", access.waited.as_slice()),
    ];
    for (what, numbers) in parts {
        tell_numbers(paper, what, numbers);
    }
    tell_notices(paper, access.notified.as_slice());
    paper.put("\n");
}

// The notifications, each for the next delta cycle or with its ticks.
fn tell_notices(paper: &mut Paper, notices: &[(u32, Option<Time>)]) {
    if notices.is_empty() {
        return;
    }
    paper.put("; notifies");
    for notice in notices {
        paper.named(" ", u64::from(notice.0));
        if let Some(Time(ticks)) = notice.1 {
            paper.named(" in ", ticks);
        }
    }
}

// An edge within a process: its segments, and its ticks and delta cycles.
fn tell_edge(paper: &mut Paper, edge: &Edge) {
    paper.named("edge ", u64::from(edge.from));
    paper.named(" to ", u64::from(edge.to));
    paper.named(": ", edge.delay.time.0);
    paper.named("+", u64::from(edge.delay.deltas));
    paper.put("\n");
}

// A row for each segment: `s` where it clashes with the segment of the column at one stamp, `e` where only at an earlier
// one, and `.` where never; `?` where the table contradicts itself.
fn tell_clashes(paper: &mut Paper, tables: &Tables) {
    for b in 0..tables.access.len() as u32 {
        paper.named("clashes ", u64::from(b));
        paper.put(": ");
        for g in 0..tables.access.len() as u32 {
            let strictly = tables.clashes.clash(b, g, true);
            let same = tables.clashes.clash(b, g, false);
            let listed = tables.clashes.clashing(g).contains(&b);
            paper.put(letter(strictly, same, listed));
        }
        paper.put("\n");
    }
}

// When two segments clash, by whether they do strictly and at one stamp, and whether the first is listed for the second.
// Never are they to clash at one stamp alone, and it is to be listed exactly where they clash strictly.
fn letter(strictly: bool, same: bool, listed: bool) -> &'static str {
    match (strictly, same, listed) {
        (false, false, false) => ".",
        (true, false, true) => "e",
        (true, true, true) => "s",
        _ => "?",
    }
}

// A row for each segment: the ticks and delta cycles of the least advance to that of the column, and `-` where none is.
fn tell_advances(paper: &mut Paper, tables: &Tables) {
    for a in 0..tables.access.len() as u32 {
        paper.named("least ", u64::from(a));
        paper.put(":");
        for b in 0..tables.access.len() as u32 {
            tell_advance(paper, tables.advances.least(a, b));
        }
        paper.put("\n");
    }
}

fn tell_advance(paper: &mut Paper, least: Option<Delay>) {
    match least {
        None => paper.put(" -"),
        Some(delay) => {
            paper.named(" ", delay.time.0);
            paper.named("+", u64::from(delay.deltas));
        }
    }
}
