ghost use Rattle.std.specs.Prelude.{◌≡◌, IfOk};
ghost use Rattle.ooo_channels.specs.Entries.{is_within, entries_before};

use ooo_history::Entry;
use ooo_time::Stamp;
use std::alloc::{AllocError, Global};

/// Whether a stamp is before another one, if there is one.
pub fn is_within(stamp: Stamp, before: Option<Stamp>) -> bool
    ensures { result ≡ is_within before stamp }
{
    match before {
        Some(end) => stamp.is_before(end),
        None => true,
    }
}

/// A copy of the entries that are before a stamp, or of all where there is none.
pub fn copy_before(
    alloc: Global,
    entries: &[Entry],
    before: Option<Stamp>,
) -> Result<Vec<Entry>, AllocError>
    ensures { IfOk result (λ copied. copied.items ≡ entries_before before entries.now) }
{
    let mut copied = Vec::new(alloc);
    for entry in entries {
        if is_within(entry.stamp, before) {
            copied.push(*entry)?;
        }
    }
    Ok(copied)
}
