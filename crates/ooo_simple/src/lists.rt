ghost use Rattle.std.specs.Prelude.{◌≡◌, ◌∷◌, ◌++◌, [], IfOk};
ghost use Rattle.ooo_grammar.specs.Forms.{nothing_r};
ghost use Rattle.ooo_grammar.specs.Gives.{Gives};

use ooo_grammar::Read;
use ooo_syntax::Symbol;
use sqlite_items::Items;
use std::alloc::{AllocError, Global};

/// A list with one more item.
pub fn with<T: Drop>(mut list: Items<T>, more: T) -> Result<Items<T>, AllocError>
    ensures { IfOk result (λ all. all ≡ list ++ more ∷ []) }
{
    keeping!(list; list.push(more));
    Ok(list)
}

// A list with one more item, before the tokens that are left.
pub(crate) fn added<'a, T: Drop>(
    list: Items<T>,
    more: T,
    rest: &'a [Symbol<'a>],
) -> Read<'a, Items<T>>
    ensures { Gives (nothing_r (list ++ more ∷ []) rest.now) result }
{
    Ok((with(list, more)?, rest))
}

/// No items and all tokens: how a loop begins.
pub fn none_yet<'a, T>(alloc: Global, tokens: &'a [Symbol<'a>]) -> (Items<T>, &'a [Symbol<'a>])
    ensures list { result.0 ≡ [] }
    ensures rest { result.1.now ≡ tokens.now }
{
    (Items::new(alloc), tokens)
}
