ghost use Rattle.std.specs.Prelude.{◌≡◌, ◌∷◌, [], ◌==◌, MatchOption};
ghost use Rattle.ooo_grammar.specs.Numbers.{number};
ghost use Rattle.ooo_grammar.specs.Forms.{begins_with};
ghost use Rattle.ooo_grammar.specs.Sets.{in_set};
ghost use Rattle.ooo_grammar.specs.Codes.{deeper};
ghost use Rattle.ooo_grammar.specs.Combinators.{mark_of, quoted};
ghost use Rattle.ooo_grammar.specs.Gives.{Gives, reads_at};

use crate::limits::{Limits, ReadError};
use ooo_syntax::{Mark, Symbol, Terminal};

/// A value that was read and the tokens after it, or why none was.
pub type Read<'a, T> = Result<(T, &'a [Symbol<'a>]), ReadError>;

fn number_of(terminal: Terminal) -> u8
    ensures { result ≡ number terminal }
{
    terminal as u8
}

pub(crate) fn is_same(a: Terminal, b: Terminal) -> bool
    ensures { result ≡ (number a == number b) }
{
    number_of(a) == number_of(b)
}

/// The next token and those after it.
pub fn next<'a>(tokens: &'a [Symbol<'a>]) -> Option<(Symbol<'a>, &'a [Symbol<'a>])>
    ensures { MatchOption result (tokens.now ≡ []) (λ found. tokens.now ≡ found.0 ∷ found.1.now) }
{
    match tokens {
        [] => None,
        [first, rest @ ..] => Some((*first, rest)),
    }
}

/// Whether the next token is this one.
pub fn starts<'a>(tokens: &'a [Symbol<'a>], terminal: Terminal) -> bool
    ensures { result ≡ begins_with (in_set (terminal ∷ [])) tokens.now }
{
    match next(tokens) {
        Some((token, _)) => is_same(terminal, token.terminal),
        None => false,
    }
}

fn mark_of(token: Symbol<'_>) -> Mark
    ensures { result ≡ mark_of token.entry }
{
    Mark {
        position: token.position,
    }
}

/// Reads this token.
pub fn one<'a>(tokens: &'a [Symbol<'a>], terminal: Terminal, limits: Limits) -> Read<'a, Mark>
    ensures { Gives (reads_at limits (quoted terminal) tokens.now) result }
{
    match next(tokens) {
        Some((token, rest)) => {
            if !is_same(terminal, token.terminal) {
                return Err(ReadError::Syntax(tokens.len()));
            }
            if limits.fit(token) {
                Ok((mark_of(token), rest))
            } else {
                Err(ReadError::TooDeep(tokens.len()))
            }
        }
        None => Err(ReadError::Syntax(tokens.len())),
    }
}

/// Reads this token, one level deeper.
#[tactic(auto, using(crate::specs::Steps::deeper_gives))]
pub fn one_inside<'a>(
    tokens: &'a [Symbol<'a>],
    terminal: Terminal,
    limits: Limits,
) -> Read<'a, Mark>
    ensures { Gives (reads_at limits (deeper (quoted terminal)) tokens.now) result }
{
    one(tokens, terminal, limits.inside())
}
