ghost use Rattle.std.specs.Prelude.{◌≡◌};
ghost use Rattle.ooo_grammar.specs.Numbers.{number};
ghost use Rattle.ooo_grammar.specs.Forms.{begins_with};
ghost use Rattle.ooo_grammar.specs.Sets.{has, in_set};
ghost use Rattle.ooo_grammar.specs.Names.{begins_stat};

use ooo_grammar::next;
use ooo_syntax::{Symbol, Terminal};

fn begins_statement(terminal: Terminal) -> bool
    ensures { result ≡ has begins_stat (number terminal) }
{
    matches!(
        terminal,
        Terminal::OpenBrace
            | Terminal::Semicolon
            | Terminal::Break
            | Terminal::Continue
            | Terminal::Return
            | Terminal::If
            | Terminal::While
            | Terminal::Do
            | Terminal::For
            | Terminal::Bool
            | Terminal::Int
            | Terminal::Unsigned
            | Terminal::Long
            | Terminal::Word
            | Terminal::Notify
            | Terminal::Cancel
            | Terminal::Bind
            | Terminal::PlusPlus
            | Terminal::MinusMinus
            | Terminal::Wait
            | Terminal::NextTrigger
            | Terminal::ScStop
            | Terminal::Cout
    )
}

// Whether a statement begins here.
pub(crate) fn begins_with_statement<'a>(tokens: &'a [Symbol<'a>]) -> bool
    ensures { result ≡ begins_with (in_set begins_stat) tokens.now }
{
    match next(tokens) {
        Some((token, _)) => begins_statement(token.terminal),
        None => false,
    }
}
