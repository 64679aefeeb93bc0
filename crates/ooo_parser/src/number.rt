ghost use Rattle.std.specs.Prelude.{false, ◌≡◌, ◌<◌, ◌^◌, length};
ghost use Rattle.ooo_parser.specs.Symbols.{numbered};

use crate::classes::{counts, is_type_word};
use ooo_syntax::Symbol;

/// Numbers the symbols that count as operators.
pub(crate) fn number(symbols: &mut [Symbol<'_>])
    requires { length symbols.old < 2 ^ 32 }
    ensures { symbols.new ≡ numbered false 0 symbols.old }
{
    let mut behind_type = false;
    let mut before = 0u32;
    for symbol in symbols.iter_mut() {
        let counts = counts(behind_type, symbol.terminal);
        symbol.counts = counts;
        symbol.before = before;
        behind_type = is_type_word(symbol.terminal);
        before += counts as u32;
    }
}
