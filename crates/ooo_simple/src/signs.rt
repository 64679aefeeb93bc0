ghost use Rattle.std.specs.Prelude.{◌≡◌, ◌∷◌, ◌++◌, []};
ghost use Rattle.ooo_grammar.specs.Numbers.{number};
ghost use Rattle.ooo_grammar.specs.Forms.{begins_with};
ghost use Rattle.ooo_grammar.specs.Sets.{has, in_set, table_test};
ghost use Rattle.ooo_grammar.specs.Names.{begins_simple, type_words};
ghost use Rattle.ooo_grammar.specs.Combinators.{rows, terminals_of};
ghost use Rattle.ooo_grammar.specs.Times.{scale_table};
ghost use Rattle.ooo_grammar.specs.Statements.{assigns};

use ooo_grammar::next;
use ooo_syntax::{AssignOp, Symbol, Terminal};
use ooo_time::Scale;

fn begins_simple_statement(terminal: Terminal) -> bool
    ensures { result ≡ has begins_simple (number terminal) }
{
    matches!(
        terminal,
        Terminal::Word
            | Terminal::Notify
            | Terminal::Cancel
            | Terminal::Bind
            | Terminal::PlusPlus
            | Terminal::MinusMinus
            | Terminal::Wait
            | Terminal::NextTrigger
            | Terminal::ScStop
            | Terminal::Cout
    )
}

fn begins_for_start(terminal: Terminal) -> bool
    ensures { result ≡ has (type_words ++ begins_simple) (number terminal) }
{
    matches!(
        terminal,
        Terminal::Bool
            | Terminal::Int
            | Terminal::Unsigned
            | Terminal::Long
            | Terminal::Word
            | Terminal::Notify
            | Terminal::Cancel
            | Terminal::Bind
            | Terminal::PlusPlus
            | Terminal::MinusMinus
            | Terminal::Wait
            | Terminal::NextTrigger
            | Terminal::ScStop
            | Terminal::Cout
    )
}

/// Whether a statement that ends in `;` and has no word of its own but a call's begins here.
pub fn begins_with_simple<'a>(tokens: &'a [Symbol<'a>]) -> bool
    ensures { result ≡ begins_with (in_set begins_simple) tokens.now }
{
    match next(tokens) {
        Some((token, _)) => begins_simple_statement(token.terminal),
        None => false,
    }
}

// Whether what a `for` begins with stands here.
pub(crate) fn begins_with_for_start<'a>(tokens: &'a [Symbol<'a>]) -> bool
    ensures { result ≡ begins_with (in_set (type_words ++ begins_simple)) tokens.now }
{
    match next(tokens) {
        Some((token, _)) => begins_for_start(token.terminal),
        None => false,
    }
}

/// Whether `SC_ZERO_TIME` or `sc_time` stands here.
pub fn begins_with_named_time<'a>(tokens: &'a [Symbol<'a>]) -> bool
    ensures { result ≡ begins_with
        (in_set (Terminal.ScZeroTime ∷ Terminal.ScTime ∷ [])) tokens.now }
{
    match next(tokens) {
        Some((token, _)) => matches!(token.terminal, Terminal::ScZeroTime | Terminal::ScTime),
        None => false,
    }
}

/// Whether a unit of time stands here.
pub fn begins_with_unit_of_time<'a>(tokens: &'a [Symbol<'a>]) -> bool
    ensures { result ≡ begins_with (in_set (terminals_of scale_table)) tokens.now }
{
    match next(tokens) {
        Some((token, _)) => matches!(
            token.terminal,
            Terminal::ScPs | Terminal::ScNs | Terminal::ScUs | Terminal::ScMs | Terminal::ScSec
        ),
        None => false,
    }
}

// The unit of time that a token is.
pub(crate) fn scale_of(token: Symbol<'_>) -> Option<Scale>
    ensures { result ≡ table_test (rows scale_table) token.entry }
{
    match token.terminal {
        Terminal::ScPs => Some(Scale::Ps),
        Terminal::ScNs => Some(Scale::Ns),
        Terminal::ScUs => Some(Scale::Us),
        Terminal::ScMs => Some(Scale::Ms),
        Terminal::ScSec => Some(Scale::Sec),
        _ => None,
    }
}

// The assignment's sign that a token is.
pub(crate) fn assign_of(token: Symbol<'_>) -> Option<AssignOp>
    ensures { result ≡ table_test (rows assigns) token.entry }
{
    match token.terminal {
        Terminal::Assign => Some(AssignOp::Set),
        Terminal::PlusAssign => Some(AssignOp::Add),
        Terminal::MinusAssign => Some(AssignOp::Subtract),
        Terminal::TimesAssign => Some(AssignOp::Multiply),
        Terminal::DivideAssign => Some(AssignOp::Divide),
        Terminal::RemainderAssign => Some(AssignOp::Remainder),
        Terminal::AndAssign => Some(AssignOp::And),
        Terminal::OrAssign => Some(AssignOp::Or),
        Terminal::XorAssign => Some(AssignOp::Xor),
        Terminal::ShiftLeftAssign => Some(AssignOp::ShiftLeft),
        Terminal::ShiftRightAssign => Some(AssignOp::ShiftRight),
        _ => None,
    }
}
