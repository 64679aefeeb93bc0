ghost use Rattle.std.specs.Prelude.{◌≡◌, ◌<◌, ◌≤◌, ◌++◌, length, codes, decimal, slice_get, All, IfOk, OnOk};
ghost use Rattle.ooo_code.specs.Segments.{IsSegment};
ghost use Rattle.ooo_segments.specs.Beginnings.{greatest_segments};
ghost use Rattle.ooo_conflicts.specs.Kinds.{kind_at};
ghost use Rattle.ooo_tables.specs.Tables.{AreTables};
ghost use Rattle.ooo_tables.specs.Text.{clash_between_text, clash_text, clashes_from_text, clashes_text, entry_text, least_text, leasts_from_text, leasts_text, line_of, pair_text, segment_text, segments_text, tables_text};

use crate::tables::Tables;
use itoa::Buffer;
use ooo_advance::AdvanceTable;
use ooo_code::{Design, Segment, SegmentEntry};
use ooo_conflicts::ClashTable;
use ooo_time::Delay;
use ooo_value::Name;
use sqlite_items::at;
use std::alloc::{AllocError, Global};

/// The text of a design's tables, by the full names of its processes, each in the order of its number.
///
/// # Errors
///
/// Only where memory runs out.
pub fn text(
    alloc: Global,
    design: &Design,
    names: &[Name],
    tables: &Tables,
) -> Result<Vec<u8>, AllocError>
    requires tables { AreTables design.now tables.now }
    requires named { length design.now.processes ≤ length names.now }
    ensures { IfOk result (λ text. text.items ≡ tables_text design.now names.now tables.now) }
{
    let segments = tables.graph.segments.as_slice();
    let mut text = Vec::new(alloc);
    append_segments(&mut text, design, names, segments)?;
    append_leasts(&mut text, &tables.advance, segments.len() as u32)?;
    append_clashes(&mut text, &tables.clash, segments)?;
    Ok(text)
}

// A line for each segment.
fn append_segments(
    text: &mut Vec<u8>,
    design: &Design,
    names: &[Name],
    segments: &[Segment],
) -> Result<(), AllocError>
    requires are { All (IsSegment design.now) segments.now }
    requires few { length segments.now ≤ greatest_segments }
    requires named { length design.now.processes ≤ length names.now }
    ensures { OnOk result
        (text.new.items ≡ text.old.items ++ segments_text design.now names.now segments.now) }
{
    for n in 0..segments.len() as u32 {
        append_segment(text, design, names, n, &segments[n as usize])?;
    }
    Ok(())
}

// The line of a segment.
fn append_segment(
    text: &mut Vec<u8>,
    design: &Design,
    names: &[Name],
    number: u32,
    segment: &Segment,
) -> Result<(), AllocError>
    requires { segment.now.process < length names.now }
    ensures { OnOk result
        (text.new.items ≡ text.old.items ++ segment_text design.now names.now number segment.now) }
{
    text.extend_from_slice(b"segment ")?;
    append_number(text, number)?;
    text.extend_from_slice(b" ")?;
    text.extend_from_slice(names[segment.process as usize].as_bytes())?;
    text.extend_from_slice(b" ")?;
    append_entry(text, design, segment.entry)?;
    text.extend_from_slice(b"\n")
}

// Where a segment begins: at the start of its process, or on the line of a wait.
fn append_entry(text: &mut Vec<u8>, design: &Design, entry: SegmentEntry) -> Result<(), AllocError>
    ensures { OnOk result (text.new.items ≡ text.old.items ++ entry_text design.now entry) }
{
    match entry {
        SegmentEntry::Start => text.extend_from_slice(b"start"),
        SegmentEntry::After(wait) => append_number(text, line_of_node(design, wait)),
    }
}

// The line of a node.
fn line_of_node(design: &Design, node: u32) -> u32
    ensures { result ≡ line_of (slice_get design.now.nodes node) }
{
    match at(design.nodes.as_slice(), node as usize) {
        Some(node) => node.line,
        None => 0,
    }
}

fn append_number(text: &mut Vec<u8>, number: u32) -> Result<(), AllocError>
    ensures { OnOk result (text.new.items ≡ text.old.items ++ decimal number) }
{
    text.extend_from_slice(Buffer::new().format(number).as_bytes())
}

// The numbers of two segments, and the blank before each.
fn append_pair(text: &mut Vec<u8>, a: u32, b: u32) -> Result<(), AllocError>
    ensures { OnOk result (text.new.items ≡ text.old.items ++ pair_text a b) }
{
    text.extend_from_slice(b" ")?;
    append_number(text, a)?;
    text.extend_from_slice(b" ")?;
    append_number(text, b)
}

// A line for each pair of segments that has a least delay.
fn append_leasts(text: &mut Vec<u8>, advance: &AdvanceTable, count: u32) -> Result<(), AllocError>
    requires { length advance.now ≡ count }
    ensures { OnOk result (text.new.items ≡ text.old.items ++ leasts_text advance.now count) }
{
    for a in 0..count {
        append_leasts_from(text, advance, a, count)?;
    }
    Ok(())
}

// The lines of the pairs that begin with segment a.
fn append_leasts_from(
    text: &mut Vec<u8>,
    advance: &AdvanceTable,
    a: u32,
    count: u32,
) -> Result<(), AllocError>
    requires count { length advance.now ≡ count }
    requires first { a < count }
    ensures { OnOk result
        (text.new.items ≡ text.old.items ++ leasts_from_text advance.now count a) }
{
    for b in 0..count {
        append_least(text, a, b, advance.least(a, b))?;
    }
    Ok(())
}

// The line of a least delay, if there is one.
fn append_least(text: &mut Vec<u8>, a: u32, b: u32, least: Option<Delay>) -> Result<(), AllocError>
    ensures { OnOk result (text.new.items ≡ text.old.items ++ least_text a b least) }
{
    let Some(delay) = least else {
        return Ok(());
    };
    text.extend_from_slice(b"least")?;
    append_pair(text, a, b)?;
    text.extend_from_slice(b" ")?;
    ooo_time::append(text, delay.time)?;
    text.extend_from_slice(b" ")?;
    append_number(text, delay.deltas)?;
    text.extend_from_slice(b"\n")
}

// A line for each pair of segments of two processes that clash.
fn append_clashes(
    text: &mut Vec<u8>,
    clash: &ClashTable,
    segments: &[Segment],
) -> Result<(), AllocError>
    requires count { length clash.now ≡ length segments.now }
    requires few { length segments.now ≤ greatest_segments }
    ensures { OnOk result
        (text.new.items ≡ text.old.items ++ clashes_text segments.now clash.now) }
{
    for a in 0..segments.len() as u32 {
        append_clashes_of(text, clash, segments, a)?;
    }
    Ok(())
}

// The lines of the pairs that begin with segment a.
fn append_clashes_of(
    text: &mut Vec<u8>,
    clash: &ClashTable,
    segments: &[Segment],
    a: u32,
) -> Result<(), AllocError>
    requires count { length clash.now ≡ length segments.now }
    requires few { length segments.now ≤ greatest_segments }
    requires first { a < length segments.now }
    ensures { OnOk result
        (text.new.items ≡ text.old.items ++ clashes_from_text segments.now clash.now a) }
{
    for b in 0..segments.len() as u32 {
        append_clash_between(text, clash, segments, a, b)?;
    }
    Ok(())
}

// The line of two segments, if they are of two processes and clash.
fn append_clash_between(
    text: &mut Vec<u8>,
    clash: &ClashTable,
    segments: &[Segment],
    a: u32,
    b: u32,
) -> Result<(), AllocError>
    requires count { length clash.now ≡ length segments.now }
    requires first { a < length segments.now }
    requires second { b < length segments.now }
    ensures { OnOk result
        (text.new.items ≡ text.old.items ++ clash_between_text segments.now clash.now a b) }
{
    if segments[a as usize].process == segments[b as usize].process {
        return Ok(());
    }
    append_clash(text, clash, a, b)
}

// The line of two segments that clash, if they do.
fn append_clash(text: &mut Vec<u8>, clash: &ClashTable, a: u32, b: u32) -> Result<(), AllocError>
    requires first { a < length clash.now }
    requires second { b < length clash.now }
    ensures { OnOk result
        (text.new.items ≡ text.old.items ++ clash_text a b (kind_at clash.now a b)) }
{
    if !clash.clash(a, b, true) {
        return Ok(());
    }
    text.extend_from_slice(b"clash")?;
    append_pair(text, a, b)?;
    if clash.clash(a, b, false) {
        text.extend_from_slice(b" same\n")
    } else {
        text.extend_from_slice(b" earlier\n")
    }
}
