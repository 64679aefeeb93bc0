ghost use Rattle.std.specs.Prelude.{◌≡◌, ◌∷◌, []};
ghost use Rattle.ooo_grammar.specs.Numbers.{number};
ghost use Rattle.ooo_grammar.specs.Forms.{begins_with};
ghost use Rattle.ooo_grammar.specs.Sets.{has, in_set, table_test};
ghost use Rattle.ooo_grammar.specs.Combinators.{rows, terminals_of};
ghost use Rattle.ooo_grammar.specs.Members.{begins_arg, channel_table};
ghost use Rattle.ooo_declarations.specs.Parts.{begins_main_entry, begins_setup};

use ooo_grammar::next;
use ooo_syntax::{ChannelWord, Symbol, Terminal};

fn begins_argument(terminal: Terminal) -> bool
    ensures { result ≡ has begins_arg (number terminal) }
{
    matches!(
        terminal,
        Terminal::Text
            | Terminal::ScZeroTime
            | Terminal::ScTime
            | Terminal::Bool
            | Terminal::Int
            | Terminal::Unsigned
            | Terminal::Not
            | Terminal::Tilde
            | Terminal::Minus
            | Terminal::Plus
            | Terminal::Open
            | Terminal::Number
            | Terminal::True
            | Terminal::False
            | Terminal::Word
            | Terminal::Notify
            | Terminal::Cancel
            | Terminal::Bind
    )
}

fn begins_a_setup(terminal: Terminal) -> bool
    ensures { result ≡ has begins_setup (number terminal) }
{
    matches!(
        terminal,
        Terminal::ScThread
            | Terminal::ScMethod
            | Terminal::Sensitive
            | Terminal::DontInitialize
            | Terminal::Word
            | Terminal::Notify
            | Terminal::Cancel
            | Terminal::Bind
    )
}

fn begins_a_main_item(terminal: Terminal) -> bool
    ensures { result ≡ has begins_main_entry (number terminal) }
{
    matches!(
        terminal,
        Terminal::Static
            | Terminal::Const
            | Terminal::ScSignal
            | Terminal::ScFifo
            | Terminal::ScClock
            | Terminal::Word
            | Terminal::Notify
            | Terminal::Cancel
            | Terminal::Bind
    )
}

// Whether an argument begins here.
pub(crate) fn begins_with_arg<'a>(tokens: &'a [Symbol<'a>]) -> bool
    ensures { result ≡ begins_with (in_set begins_arg) tokens.now }
{
    match next(tokens) {
        Some((token, _)) => begins_argument(token.terminal),
        None => false,
    }
}

// Whether a statement of a constructor begins here.
pub(crate) fn begins_with_setup<'a>(tokens: &'a [Symbol<'a>]) -> bool
    ensures { result ≡ begins_with (in_set begins_setup) tokens.now }
{
    match next(tokens) {
        Some((token, _)) => begins_a_setup(token.terminal),
        None => false,
    }
}

// Whether a declaration or a binding of `sc_main` begins here.
pub(crate) fn begins_with_main_entry<'a>(tokens: &'a [Symbol<'a>]) -> bool
    ensures { result ≡ begins_with (in_set begins_main_entry) tokens.now }
{
    match next(tokens) {
        Some((token, _)) => begins_a_main_item(token.terminal),
        None => false,
    }
}

// Whether a constant begins here.
pub(crate) fn begins_with_constant<'a>(tokens: &'a [Symbol<'a>]) -> bool
    ensures { result ≡ begins_with (in_set (Terminal.Static ∷ Terminal.Const ∷ [])) tokens.now }
{
    match next(tokens) {
        Some((token, _)) => matches!(token.terminal, Terminal::Static | Terminal::Const),
        None => false,
    }
}

/// Whether a channel's word stands here.
pub fn begins_with_channel<'a>(tokens: &'a [Symbol<'a>]) -> bool
    ensures { result ≡ begins_with (in_set (terminals_of channel_table)) tokens.now }
{
    match next(tokens) {
        Some((token, _)) => matches!(token.terminal, Terminal::ScSignal | Terminal::ScFifo),
        None => false,
    }
}

// The channel's word that a token is.
pub(crate) fn channel_of(token: Symbol<'_>) -> Option<ChannelWord>
    ensures { result ≡ table_test (rows channel_table) token.entry }
{
    match token.terminal {
        Terminal::ScSignal => Some(ChannelWord::Signal),
        Terminal::ScFifo => Some(ChannelWord::Fifo),
        _ => None,
    }
}
