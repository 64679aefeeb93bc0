ghost use Rattle.std.specs.Prelude.{◌≡◌};
ghost use Rattle.ooo_grammar.specs.Numbers.{number};
ghost use Rattle.ooo_grammar.specs.Forms.{begins_with};
ghost use Rattle.ooo_grammar.specs.Sets.{has, in_set, table_test};
ghost use Rattle.ooo_grammar.specs.Combinators.{rows, terminals_of};
ghost use Rattle.ooo_grammar.specs.Members.{begins_member, port_table};
ghost use Rattle.ooo_grammar.specs.Units.{library_table};
ghost use Rattle.ooo_units.specs.Parts.{begins_unit_item};

use ooo_grammar::next;
use ooo_syntax::{Library, PortWord, Symbol, Terminal};

fn begins_a_member(terminal: Terminal) -> bool
    ensures { result ≡ has begins_member (number terminal) }
{
    matches!(
        terminal,
        Terminal::Public
            | Terminal::Static
            | Terminal::Const
            | Terminal::ScHasProcess
            | Terminal::ScInClk
            | Terminal::ScEvent
            | Terminal::Void
            | Terminal::ScCtor
            | Terminal::Bool
            | Terminal::Int
            | Terminal::Unsigned
            | Terminal::Long
            | Terminal::ScIn
            | Terminal::ScOut
            | Terminal::ScInout
            | Terminal::ScFifoIn
            | Terminal::ScFifoOut
            | Terminal::ScSignal
            | Terminal::ScFifo
            | Terminal::Word
            | Terminal::Notify
            | Terminal::Cancel
            | Terminal::Bind
    )
}

// Whether a member of a module begins here.
pub(crate) fn begins_with_member<'a>(tokens: &'a [Symbol<'a>]) -> bool
    ensures { result ≡ begins_with (in_set begins_member) tokens.now }
{
    match next(tokens) {
        Some((token, _)) => begins_a_member(token.terminal),
        None => false,
    }
}

// Whether a declaration of a file begins here.
pub(crate) fn begins_with_unit_item<'a>(tokens: &'a [Symbol<'a>]) -> bool
    ensures { result ≡ begins_with (in_set begins_unit_item) tokens.now }
{
    match next(tokens) {
        Some((token, _)) => matches!(
            token.terminal,
            Terminal::Using | Terminal::ScModule | Terminal::Static | Terminal::Const
        ),
        None => false,
    }
}

// Whether a port's word stands here.
pub(crate) fn begins_with_port<'a>(tokens: &'a [Symbol<'a>]) -> bool
    ensures { result ≡ begins_with (in_set (terminals_of port_table)) tokens.now }
{
    match next(tokens) {
        Some((token, _)) => matches!(
            token.terminal,
            Terminal::ScIn
                | Terminal::ScOut
                | Terminal::ScInout
                | Terminal::ScFifoIn
                | Terminal::ScFifoOut
        ),
        None => false,
    }
}

// The port's word that a token is.
pub(crate) fn port_of(token: Symbol<'_>) -> Option<PortWord>
    ensures { result ≡ table_test (rows port_table) token.entry }
{
    match token.terminal {
        Terminal::ScIn => Some(PortWord::In),
        Terminal::ScOut => Some(PortWord::Out),
        Terminal::ScInout => Some(PortWord::Inout),
        Terminal::ScFifoIn => Some(PortWord::FifoIn),
        Terminal::ScFifoOut => Some(PortWord::FifoOut),
        _ => None,
    }
}

// The library that a token names.
pub(crate) fn library_of(token: Symbol<'_>) -> Option<Library>
    ensures { result ≡ table_test (rows library_table) token.entry }
{
    match token.terminal {
        Terminal::ScCore => Some(Library::ScCore),
        Terminal::ScDt => Some(Library::ScDt),
        Terminal::Std => Some(Library::Std),
        _ => None,
    }
}
