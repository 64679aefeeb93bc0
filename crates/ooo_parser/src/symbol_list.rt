ghost use Rattle.std.specs.Prelude.{◌≡◌, ◌≤◌, All, IfOk, length, map};
ghost use Rattle.ooo_lexer.specs.Spans.{AreInOrder, IsWithin};
ghost use Rattle.ooo_parser.specs.Symbols.{single, symbols_of};

use crate::join::joined;
use crate::number::number;
use crate::single::Source;
use ooo_lexer::{MOST_BYTES, Token};
use ooo_syntax::Symbol;
use std::alloc::{AllocError, Global};

/// The symbols of a source's tokens.
///
/// Its time is in proportion to the source; no clause says so.
///
/// # Errors
///
/// Memory ran out, whatever the tokens.
pub fn symbols<'a>(
    alloc: Global,
    source: &'a [u8],
    tokens: &[Token],
) -> Result<Vec<Symbol<'a>>, AllocError>
    requires short { length source.now ≤ MOST_BYTES }
    requires within { All (IsWithin source.now) tokens.now }
    requires in_order { AreInOrder tokens.now }
    ensures { IfOk result (λ v. v.items ≡ symbols_of (map (single source.entry) tokens.now)) }
{
    let mut symbols = joined(alloc, Source { bytes: source }, tokens)?;
    number(&mut symbols);
    Ok(symbols)
}
