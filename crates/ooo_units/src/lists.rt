ghost use Rattle.std.specs.Prelude.{◌∷◌, ◌++◌, []};
ghost use Rattle.ooo_grammar.specs.Forms.{nothing_r};
ghost use Rattle.ooo_grammar.specs.Gives.{Gives};

use ooo_grammar::Read;
use ooo_simple::with;
use ooo_syntax::Symbol;
use sqlite_items::Items;

// A list with one more item, before the tokens that are left.
pub(crate) fn added<'a, T: Drop>(
    list: Items<T>,
    more: T,
    rest: &'a [Symbol<'a>],
) -> Read<'a, Items<T>>
    ensures { Gives (nothing_r (list ++ more ∷ []) rest.now) result }
{
    Ok((with(list, more)?, rest))
}
