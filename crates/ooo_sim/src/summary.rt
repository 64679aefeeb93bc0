ghost use Rattle.std.specs.Prelude.{◌≡◌, ◌+◌, ◌%◌, ◌^◌, ◌++◌, [], codes, IfOk, OnOk};
ghost use Rattle.std.specs.List.{sum};
ghost use Rattle.ooo_history.specs.Reporting.{IsNamed, end_text, output_text};
ghost use Rattle.ooo_sim.specs.Summaries.{byte_sum, entry_count, summary_text};

use crate::lines::add_number;
use ooo_history::{End, Entry, Piece, Run, report};
use ooo_value::Names;
use sqlite_items::Items;
use std::alloc::{AllocError, Global};

// How many bytes the two headlines of a report have: `== histories` and `== end`, each in a line.
const HEADLINES: usize = 20;

/// The summary of a run: how many activations and history entries it has, the sum of the printed bytes, and how it ended.
pub(crate) fn summary(alloc: Global, run: &Run, names: &Names) -> Result<Vec<u8>, AllocError>
    requires { IsNamed run.now.end names.now.processes }
    ensures { IfOk result (λ text. text.items ≡ summary_text run.now names.now) }
{
    let mut text = Vec::new(alloc);
    keeping!(text; add_number(&mut text, b"activations ", run.activations));
    let entries = entry_count(run.channels.as_slice());
    keeping!(text; add_number(&mut text, b" entries ", entries));
    let printed = byte_sum(run.pieces.as_slice());
    keeping!(text; add_number(&mut text, b" sum ", printed as u128));
    keeping!(text; text.extend_from_slice(b"\n"));
    keeping!(text; append_ending(alloc, &mut text, run.end, names));
    Ok(text)
}

// Adds the line that ends a report. The report of a run that printed nothing and has no channels is this line behind headlines.
fn append_ending(
    alloc: Global,
    text: &mut Vec<u8>,
    end: End,
    names: &Names,
) -> Result<(), AllocError>
    requires { IsNamed end names.now.processes }
    ensures { OnOk result
        (text.new.items ≡ text.old.items ++ end_text names.now.processes end ++ codes "\n") }
{
    let nothing = Run {
        pieces: Items::new(alloc),
        channels: Items::new(alloc),
        end,
        activations: 0,
    };
    let report = keeping!(nothing; report(alloc, &nothing, names));
    drop(nothing);
    let added = text.extend_from_slice(&report[HEADLINES..]);
    drop(report);
    added
}

// How many entries the histories have.
fn entry_count(channels: &[Items<Entry>]) -> u128
    ensures { result ≡ entry_count channels.now }
{
    let mut count: u128 = 0;
    'channels: for entries in channels {
        count += entries.len() as u128;
    }
    count
}

// The sum of the bytes of all pieces, modulo 2^32.
fn byte_sum(pieces: &[Piece]) -> u32
    ensures { result ≡ byte_sum (output_text pieces.now) }
{
    let mut total: u32 = 0;
    'pieces: for piece in pieces {
        total = with_bytes(total, piece.bytes.as_slice());
    }
    total
}

// A sum and these bytes, modulo 2^32.
fn with_bytes(from: u32, bytes: &[u8]) -> u32
    ensures { result ≡ (from + sum bytes.now) % 2 ^ 32 }
{
    let mut total = from;
    'bytes: for byte in bytes {
        total = total.wrapping_add(u32::from(*byte));
    }
    total
}
