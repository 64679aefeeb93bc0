ghost use Rattle.std.specs.Prelude.{◌≡◌, ◌++◌, ◌<◌, ◌≤◌, ◌↔◌, length, codes, List, ℕ, IfOk, OnOk, IsTrue};
ghost use Rattle.ooo_history.specs.Reporting.{closed, output_text, stamp_text, sign_of, entry_line, history_text, histories_text, place_text, end_text, report_text, IsNamed};

use crate::run::{End, Entry, Piece, Run, What};
use itoa::Buffer;
use ooo_time::{Place, Stamp};
use ooo_value::{Name, Names};
use sqlite_items::Items;
use std::alloc::{AllocError, Global};

/// The report of a run, by the full names of the model's processes and channels.
///
/// # Errors
///
/// Only where memory runs out.
pub fn report(alloc: Global, run: &Run, names: &Names) -> Result<Vec<u8>, AllocError>
    requires channels { length run.now.channels ≤ length names.now.channels }
    requires process { IsNamed run.now.end names.now.processes }
    ensures { IfOk result (λ text. text.items ≡ report_text run.now names.now) }
{
    let mut text = Vec::new(alloc);
    append_output(&mut text, run.pieces.as_slice())?;
    close(&mut text)?;
    text.extend_from_slice(b"== histories\n")?;
    append_histories(
        alloc,
        &mut text,
        names.channels.as_slice(),
        run.channels.as_slice(),
    )?;
    text.extend_from_slice(b"== end\n")?;
    append_end(&mut text, names.processes.as_slice(), run.end)?;
    text.extend_from_slice(b"\n")?;
    Ok(text)
}

/// Whether the process that an ending speaks of, if any, has a name among these.
pub fn is_named(end: End, processes: &[Name]) -> bool
    ensures { IsTrue result ↔ IsNamed end processes.now }
{
    match end {
        End::Fault(_, place, _) => (place.process as usize) < processes.len(),
        End::Statements(place, _) => (place.process as usize) < processes.len(),
        End::Time(_) | End::Idle(_) | End::Stop(_) | End::Deltas(_) => true,
    }
}

fn append_output(text: &mut Vec<u8>, pieces: &[Piece]) -> Result<(), AllocError>
    ensures { OnOk result (text.new.items ≡ text.old.items ++ output_text pieces.now) }
{
    for piece in pieces {
        text.extend_from_slice(piece.bytes.as_slice())?;
    }
    Ok(())
}

// Ends the last line of a text.
fn close(text: &mut Vec<u8>) -> Result<(), AllocError>
    ensures { OnOk result (text.new.items ≡ closed text.old.items) }
{
    match text.last().copied() {
        Some(last) if last != b'\n' => {
            text.push(b'\n')?;
            Ok(())
        }
        _ => Ok(()),
    }
}

fn append_histories(
    alloc: Global,
    text: &mut Vec<u8>,
    names: &[Name],
    channels: &[Items<Entry>],
) -> Result<(), AllocError>
    requires { length channels.now ≤ length names.now }
    ensures { OnOk result
        (text.new.items ≡ text.old.items ++ histories_text names.now channels.now) }
{
    for (channel, entries) in channels.iter().enumerate() {
        append_history(alloc, text, names[channel].as_bytes(), entries.as_slice())?;
    }
    Ok(())
}

// Appends the lines of a channel, which all start with the same bytes.
fn append_history(
    alloc: Global,
    text: &mut Vec<u8>,
    name: &[u8],
    entries: &[Entry],
) -> Result<(), AllocError>
    ensures { OnOk result (text.new.items ≡ text.old.items ++ history_text name.now entries.now) }
{
    let start = line_start(alloc, name)?;
    for entry in entries {
        append_entry(text, start.as_slice(), *entry)?;
    }
    Ok(())
}

// What stands before the stamp in each line of a channel.
fn line_start(alloc: Global, name: &[u8]) -> Result<Vec<u8>, AllocError>
    ensures { IfOk result (λ start. start.items ≡ name.now ++ codes " @ ") }
{
    let mut start = Vec::from_slice(alloc, name)?;
    start.extend_from_slice(b" @ ")?;
    Ok(start)
}

fn append_entry(text: &mut Vec<u8>, start: &[u8], entry: Entry) -> Result<(), AllocError>
    ensures { (name : List ℕ) → start.now ≡ name ++ codes " @ " →
        OnOk result (text.new.items ≡ text.old.items ++ entry_line name entry) }
{
    text.extend_from_slice(start)?;
    append_stamp(text, entry.stamp)?;
    text.extend_from_slice(sign(entry.what))?;
    ooo_value::append(text, entry.value)?;
    text.push(b'\n')?;
    Ok(())
}

fn sign(what: What) -> &'static [u8]
    ensures { result.now ≡ sign_of what }
{
    match what {
        What::Took => b" out ",
        What::Put => b" in ",
        What::Changed => b" = ",
    }
}

fn append_stamp(text: &mut Vec<u8>, stamp: Stamp) -> Result<(), AllocError>
    ensures { OnOk result (text.new.items ≡ text.old.items ++ stamp_text stamp) }
{
    ooo_time::append(text, stamp.time)?;
    text.push(b' ')?;
    text.extend_from_slice(Buffer::new().format(stamp.delta).as_bytes())
}

fn append_end(text: &mut Vec<u8>, names: &[Name], end: End) -> Result<(), AllocError>
    requires { IsNamed end names.now }
    ensures { OnOk result (text.new.items ≡ text.old.items ++ end_text names.now end) }
{
    match end {
        End::Time(stop) => {
            text.extend_from_slice(b"time ")?;
            ooo_time::append(text, stop)
        }
        End::Idle(last) => {
            text.extend_from_slice(b"idle ")?;
            append_stamp(text, last)
        }
        End::Stop(stamp) => {
            text.extend_from_slice(b"stop ")?;
            append_stamp(text, stamp)
        }
        End::Fault(fault, place, line) => {
            text.extend_from_slice(b"fault ")?;
            text.extend_from_slice(fault.name().as_bytes())?;
            text.extend_from_slice(b" ")?;
            append_place(text, names, place, line)
        }
        End::Statements(place, line) => {
            text.extend_from_slice(b"statements ")?;
            append_place(text, names, place, line)
        }
        End::Deltas(stamp) => {
            text.extend_from_slice(b"deltas ")?;
            append_stamp(text, stamp)
        }
    }
}

fn append_place(
    text: &mut Vec<u8>,
    names: &[Name],
    place: Place,
    line: u32,
) -> Result<(), AllocError>
    requires { place.process < length names.now }
    ensures { OnOk result (text.new.items ≡ text.old.items ++ place_text names.now place line) }
{
    append_stamp(text, place.stamp)?;
    text.extend_from_slice(b" ")?;
    text.extend_from_slice(names[place.process as usize].as_bytes())?;
    text.extend_from_slice(b" ")?;
    text.extend_from_slice(Buffer::new().format(line).as_bytes())
}
