ghost use Rattle.std.specs.Prelude.{◌≡◌, ◌∷◌, []};
ghost use Rattle.ooo_grammar.specs.Numbers.{number};
ghost use Rattle.ooo_grammar.specs.Forms.{begins_with};
ghost use Rattle.ooo_grammar.specs.Sets.{has, in_set};
ghost use Rattle.ooo_grammar.specs.Names.{begins_expr, begins_plain, prefix_signs, short_types};
ghost use Rattle.ooo_exprs.specs.Levels.{op_at};

use ooo_grammar::next;
use ooo_syntax::{BinaryOp, Symbol, Terminal};

fn begins_expression(terminal: Terminal) -> bool
    ensures { result ≡ has begins_expr (number terminal) }
{
    matches!(
        terminal,
        Terminal::Bool
            | Terminal::Int
            | Terminal::Unsigned
            | Terminal::Not
            | Terminal::Tilde
            | Terminal::Minus
            | Terminal::Plus
            | Terminal::Open
            | Terminal::Number
            | Terminal::True
            | Terminal::False
            | Terminal::Word
            | Terminal::Notify
            | Terminal::Cancel
            | Terminal::Bind
    )
}

fn begins_plain_expression(terminal: Terminal) -> bool
    ensures { result ≡ has begins_plain (number terminal) }
{
    matches!(
        terminal,
        Terminal::Not
            | Terminal::Tilde
            | Terminal::Minus
            | Terminal::Plus
            | Terminal::Open
            | Terminal::Number
            | Terminal::True
            | Terminal::False
            | Terminal::Word
            | Terminal::Notify
            | Terminal::Cancel
            | Terminal::Bind
    )
}

// The operator of a level, by the level's number.
#[tactic(auto, unfolding(crate::specs::Levels::op_at))]
pub(crate) fn op_of_level(level: usize, token: Symbol<'_>) -> Option<BinaryOp>
    ensures { result ≡ op_at level token.entry }
{
    match (level, token.terminal) {
        (0, Terminal::OrOr) => Some(BinaryOp::Either),
        (1, Terminal::AndAnd) => Some(BinaryOp::Both),
        (2, Terminal::Or) => Some(BinaryOp::Or),
        (3, Terminal::Xor) => Some(BinaryOp::Xor),
        (4, Terminal::And) => Some(BinaryOp::And),
        (5, Terminal::EqualEqual) => Some(BinaryOp::Equal),
        (5, Terminal::NotEqual) => Some(BinaryOp::NotEqual),
        (6, Terminal::Less) => Some(BinaryOp::Less),
        (6, Terminal::LessEqual) => Some(BinaryOp::LessEqual),
        (6, Terminal::Greater) => Some(BinaryOp::Greater),
        (6, Terminal::GreaterEqual) => Some(BinaryOp::GreaterEqual),
        (7, Terminal::ShiftLeft) => Some(BinaryOp::ShiftLeft),
        (7, Terminal::ShiftRight) => Some(BinaryOp::ShiftRight),
        (8, Terminal::Plus) => Some(BinaryOp::Add),
        (8, Terminal::Minus) => Some(BinaryOp::Subtract),
        (9, Terminal::Star) => Some(BinaryOp::Multiply),
        (9, Terminal::Slash) => Some(BinaryOp::Divide),
        (9, Terminal::Percent) => Some(BinaryOp::Remainder),
        _ => None,
    }
}

/// Whether an expression begins here.
pub fn begins_with_expression<'a>(tokens: &'a [Symbol<'a>]) -> bool
    ensures { result ≡ begins_with (in_set begins_expr) tokens.now }
{
    match next(tokens) {
        Some((token, _)) => begins_expression(token.terminal),
        None => false,
    }
}

// Whether an expression begins here that doesn't begin with a type.
pub(crate) fn begins_with_plain<'a>(tokens: &'a [Symbol<'a>]) -> bool
    ensures { result ≡ begins_with (in_set begins_plain) tokens.now }
{
    match next(tokens) {
        Some((token, _)) => begins_plain_expression(token.terminal),
        None => false,
    }
}

// Whether a prefix sign stands here.
pub(crate) fn begins_with_prefix<'a>(tokens: &'a [Symbol<'a>]) -> bool
    ensures { result ≡ begins_with (in_set prefix_signs) tokens.now }
{
    match next(tokens) {
        Some((token, _)) => matches!(
            token.terminal,
            Terminal::Not | Terminal::Tilde | Terminal::Minus | Terminal::Plus
        ),
        None => false,
    }
}

// Whether a type of one word stands here.
pub(crate) fn begins_with_short_type<'a>(tokens: &'a [Symbol<'a>]) -> bool
    ensures { result ≡ begins_with (in_set short_types) tokens.now }
{
    match next(tokens) {
        Some((token, _)) => matches!(
            token.terminal,
            Terminal::Bool | Terminal::Int | Terminal::Unsigned
        ),
        None => false,
    }
}

// Whether `true` or `false` stands here.
pub(crate) fn begins_with_truth<'a>(tokens: &'a [Symbol<'a>]) -> bool
    ensures { result ≡ begins_with (in_set (Terminal.True ∷ Terminal.False ∷ [])) tokens.now }
{
    match next(tokens) {
        Some((token, _)) => matches!(token.terminal, Terminal::True | Terminal::False),
        None => false,
    }
}
