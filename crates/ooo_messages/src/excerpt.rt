ghost use Rattle.std.specs.Prelude.{◌≤◌, length};

use crate::sheet::Sheet;

/// The most bytes of a line that are shown.
const WINDOW: usize = 80;

/// The most bytes that are shown before the mark where the line's first byte is shown.
const MOST_BEFORE: usize = 60;

/// How many bytes are shown before the mark where the line's first byte isn't shown.
const BEFORE: usize = 40;

/// What stands for bytes of a line that aren't shown.
const CUT: &str = "...";

/// The part of a line that is shown: what stands before the marked byte, and what stands from it on.
#[derive(Clone, Copy)]
struct Window<'a> {
    before: &'a [u8],
    from: &'a [u8],
    is_cut_before: bool,
    is_cut_behind: bool,
}

/// The line of this number of a source, from 1, without its end; none where the source has no such line.
pub fn line_of(source: &[u8], number: u32) -> Option<&[u8]> {
    let index = (number as usize).checked_sub(1)?;
    let line = source.split(|byte| *byte == b'\n').nth(index)?;
    Some(line.strip_suffix(b"\r").unwrap_or(line))
}

/// Adds a line of a source, and below it a mark under the byte of this column, from 1. Of a long line the part around
/// the mark is shown.
pub fn put_excerpt(sheet: &mut Sheet, line: &[u8], column: u32) {
    let window = window_of(line, (column as usize).saturating_sub(1));
    put_shown(sheet, window);
    put_mark(sheet, window);
}

// Adds what is shown of a line.
fn put_shown(sheet: &mut Sheet, window: Window<'_>) {
    if window.is_cut_before {
        sheet.put(CUT);
    }
    sheet.shown(window.before);
    sheet.shown(window.from);
    if window.is_cut_behind {
        sheet.put(CUT);
    }
    sheet.put("\n");
}

// Adds the mark under the marked byte.
fn put_mark(sheet: &mut Sheet, window: Window<'_>) {
    if window.is_cut_before {
        sheet.put("   ");
    }
    sheet.blanks(window.before);
    sheet.put("^\n");
}

// The part of a line around the byte that has this many before it.
fn window_of(line: &[u8], at: usize) -> Window<'_> {
    let (before, from) = line.split_at(at.min(line.len()));
    let shown_before = last_of(before);
    let room = WINDOW - shown_before.len();
    Window {
        before: shown_before,
        from: &from[..from.len().min(room)],
        is_cut_before: shown_before.len() < before.len(),
        is_cut_behind: room < from.len(),
    }
}

// What is shown of the bytes before the mark: all of them, or the last ones.
fn last_of(before: &[u8]) -> &[u8]
    ensures { length result.now ≤ MOST_BEFORE }
{
    if before.len() > MOST_BEFORE {
        &before[before.len() - BEFORE..]
    } else {
        before
    }
}
