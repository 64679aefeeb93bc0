ghost use Rattle.std.specs.Prelude.{◌≡◌, ◌∷◌, [], IfOk};

use sqlite_items::Items;
use std::alloc::{AllocError, Global};

/// A list of one item, to which more may be added. It has room for one: most lists of a text have no more, and a text may
/// have a list in every few bytes.
///
/// # Errors
///
/// Only where memory runs out.
pub fn begun<T: Drop>(alloc: Global, first: T) -> Result<Items<T>, AllocError>
    ensures { IfOk result (λ all. all ≡ first ∷ []) }
{
    let mut list = keeping!(first; Vec::with_capacity(alloc, 1));
    list.push_reserved(first);
    Ok(Items::from_vec(list))
}
