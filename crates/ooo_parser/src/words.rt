ghost use Rattle.std.specs.Prelude.{◌≡◌};
ghost use Rattle.ooo_grammar.specs.Numbers.{number};
ghost use Rattle.ooo_grammar.specs.Names.{type_words};
ghost use Rattle.ooo_grammar.specs.Sets.{has};
ghost use Rattle.ooo_parser.specs.Words.{ends_in_type_word, has_pairs, in_place, lacks_word, opens_word, words};

use ooo_syntax::{Symbol, Terminal};

/// Every terminal that is a word, but for `Outside`, which no text of the grammar holds.
pub const WORDS: [Terminal; 61] = [
    Terminal::Word,
    Terminal::Using,
    Terminal::Namespace,
    Terminal::ScCore,
    Terminal::ScDt,
    Terminal::Std,
    Terminal::True,
    Terminal::False,
    Terminal::Notify,
    Terminal::Cancel,
    Terminal::Bind,
    Terminal::Bool,
    Terminal::Int,
    Terminal::Unsigned,
    Terminal::Long,
    Terminal::Void,
    Terminal::Char,
    Terminal::Static,
    Terminal::Const,
    Terminal::If,
    Terminal::Else,
    Terminal::While,
    Terminal::Do,
    Terminal::For,
    Terminal::Break,
    Terminal::Continue,
    Terminal::Return,
    Terminal::Public,
    Terminal::ScModule,
    Terminal::ScHasProcess,
    Terminal::ScCtor,
    Terminal::ScThread,
    Terminal::ScMethod,
    Terminal::ScModuleName,
    Terminal::ScMain,
    Terminal::ScStart,
    Terminal::ScClock,
    Terminal::ScIn,
    Terminal::ScOut,
    Terminal::ScInout,
    Terminal::ScFifoIn,
    Terminal::ScFifoOut,
    Terminal::ScInClk,
    Terminal::ScSignal,
    Terminal::ScFifo,
    Terminal::ScEvent,
    Terminal::Sensitive,
    Terminal::DontInitialize,
    Terminal::Wait,
    Terminal::NextTrigger,
    Terminal::ScStop,
    Terminal::Cout,
    Terminal::Endl,
    Terminal::ScTimeStamp,
    Terminal::ScTime,
    Terminal::ScZeroTime,
    Terminal::ScPs,
    Terminal::ScNs,
    Terminal::ScUs,
    Terminal::ScMs,
    Terminal::ScSec,
];

/// The words that might stand in the place of a symbol.
#[tactic(auto, unfolding(crate::specs::Words::words))]
pub(crate) fn words() -> &'static [Terminal]
    ensures { result.now ≡ words }
{
    &WORDS
}

/// Whether pairs belong to the symbol.
pub(crate) fn has_pairs(symbol: Symbol<'_>) -> bool
    ensures { result ≡ has_pairs symbol.entry }
{
    !(symbol.first.line == symbol.position.line && symbol.first.column == symbol.position.column)
}

/// Whether the symbol begins with `std` or `sc_core`, which some word might follow after `::`.
pub(crate) fn opens_word(symbol: Symbol<'_>) -> bool
    ensures { result ≡ opens_word symbol.entry }
{
    matches!(symbol.terminal, Terminal::Std | Terminal::ScCore) || has_pairs(symbol)
}

/// Whether what the symbol opens comes to no word.
pub(crate) fn lacks_word(symbol: Symbol<'_>) -> bool
    ensures { result ≡ lacks_word symbol.entry }
{
    matches!(
        symbol.terminal,
        Terminal::Std | Terminal::ScCore | Terminal::Scope
    )
}

fn is_type_word(terminal: Terminal) -> bool
    ensures { result ≡ has type_words (number terminal) }
{
    matches!(
        terminal,
        Terminal::Bool | Terminal::Int | Terminal::Unsigned | Terminal::Long
    )
}

fn ends_in_type_word(symbols: &[Symbol<'_>]) -> bool
    ensures { result ≡ ends_in_type_word symbols.now }
{
    match symbols.last() {
        Some(symbol) => is_type_word(symbol.terminal),
        None => false,
    }
}

/// The word in the place of the symbol, which stands after the symbols that were read.
pub(crate) fn in_place<'a>(read: &[Symbol<'a>], symbol: Symbol<'a>, word: Terminal) -> Symbol<'a>
    ensures { result ≡ in_place read.now symbol.entry word }
{
    Symbol {
        terminal: word,
        counts: is_type_word(word) && !ends_in_type_word(read),
        ..symbol
    }
}
