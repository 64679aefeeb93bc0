ghost use Rattle.std.specs.Prelude.{◌≡◌, ◌<◌, ◌≤◌, length, All, IfOk};
ghost use Rattle.ooo_segments.specs.Beginnings.{greatest_segments};
ghost use Rattle.ooo_conflicts.specs.Clashing.{AreLists, IsListOf};

use crate::kind::ClashKind;
use sqlite_items::Items;
use std::alloc::{AllocError, Global};

// Of each segment the ascending list of those that clash strictly with it, by the rows of a table.
pub(crate) fn all_clashing(
    alloc: Global,
    rows: &[Items<ClashKind>],
) -> Result<Vec<Items<u32>>, AllocError>
    requires few { length rows.now ≤ greatest_segments }
    requires wide { All (λ row. length row ≡ length rows.now) rows.now }
    ensures { IfOk result (λ lists. AreLists rows.now lists.items) }
{
    let mut lists = Vec::with_capacity(alloc, rows.len())?;
    for g in 0..rows.len() {
        lists.push(clashing_with(alloc, rows, g)?)?;
    }
    Ok(lists)
}

// The segments that clash strictly with segment g, ascending.
fn clashing_with(
    alloc: Global,
    rows: &[Items<ClashKind>],
    g: usize,
) -> Result<Items<u32>, AllocError>
    requires few { length rows.now ≤ greatest_segments }
    requires wide { All (λ row. length row ≡ length rows.now) rows.now }
    requires within { g < length rows.now }
    ensures { IfOk result (IsListOf rows.now g) }
{
    let mut clashing = Items::new(alloc);
    for (b, row) in rows.iter().enumerate() {
        if row.as_slice()[g].holds(true) {
            clashing.push(b as u32)?;
        }
    }
    Ok(clashing)
}
