ghost use Rattle.std.specs.Prelude.{◌≡◌, ◌≤◌, All, Err, IfOk, length};
ghost use Rattle.ooo_lexer.specs.Positions.{position_of_end};
ghost use Rattle.ooo_lexer.specs.Spans.{AreInOrder, IsWithin};
ghost use Rattle.ooo_lexer.specs.declared.position.Position.{Position as PositionSpec};
ghost use Rattle.ooo_syntax.specs.declared.error.ParseBreach.{ParseBreach as ParseBreachSpec};
ghost use Rattle.ooo_grammar.specs.Roots.{whole_text};
ghost use Rattle.ooo_parser.specs.Refusals.{IsRefused, IsTreeOf};
ghost use Rattle.ooo_parser.specs.Sources.{symbols_in};

use crate::parsing::parse_symbols;
use crate::symbol_list::symbols;
use ooo_lexer::{MOST_BYTES, Token, position_of_end};
use ooo_syntax::{ParseError, Unit};
use std::alloc::Global;

/// Reads the tokens of a source as a text of the grammar.
///
/// Its time is in proportion to the source; no clause says so.
///
/// # Errors
///
/// What the tokens are refused as, and where, or `OutOfMemory` where memory ran out, whatever the tokens.
pub fn parse(alloc: Global, source: &[u8], tokens: &[Token]) -> Result<Unit, ParseError>
    requires short { length source.now ≤ MOST_BYTES }
    requires within { All (IsWithin source.now) tokens.now }
    requires in_order { AreInOrder tokens.now }

    // The tokens spell the tree, and no other.
    ensures tree { IfOk result (λ tree.
        IsTreeOf whole_text (symbols_in source.now tokens.now) tree) }

    // The refused token, or the first one that is too deep, is there.
    ensures refused { (breach : ParseBreachSpec) (at : PositionSpec)
        → result ≡ Err (ParseError.Refused breach at)
        → IsRefused whole_text (symbols_in source.now tokens.now)
        (position_of_end source.now) breach at }
{
    crate::law::anywhere();
    let symbols = symbols(alloc, source, tokens)?;
    parse_symbols(alloc, symbols.as_slice(), position_of_end(source))
}
