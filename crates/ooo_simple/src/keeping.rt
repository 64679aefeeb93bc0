ghost use Rattle.ooo_grammar.specs.Combinators.{quoted, to};
ghost use Rattle.ooo_grammar.specs.Forms.{nothing_r};
ghost use Rattle.ooo_grammar.specs.Gives.{Gives, reads_at};

use ooo_grammar::{Limits, Read, one};
use ooo_syntax::{Symbol, Terminal};
use sqlite_items::Boxed;
use std::alloc::Global;

/// Reads a token after what was found already, and hands that back.
#[tactic(auto, using(ooo_grammar::specs::Steps::steps))]
pub fn followed<'a, T: Drop>(
    found: T,
    terminal: Terminal,
    tokens: &'a [Symbol<'a>],
    limits: Limits,
) -> Read<'a, T>
    ensures { Gives (reads_at limits (to (λ _. found) (quoted terminal)) tokens.now) result }
{
    let (_, rest) = keeping!(found; one(tokens, terminal, limits));
    Ok((found, rest))
}

// What was found onto the heap, before the tokens that are left.
pub(crate) fn on_heap<'a, T: Drop>(
    alloc: Global,
    found: T,
    rest: &'a [Symbol<'a>],
) -> Read<'a, Boxed<T>>
    ensures { Gives (nothing_r found rest.now) result }
{
    Ok((Boxed::new(alloc, found)?, rest))
}
