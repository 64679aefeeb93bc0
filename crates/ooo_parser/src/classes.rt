ghost use Rattle.std.specs.Prelude.{◌≡◌};
ghost use Rattle.ooo_parser.specs.Classes.{counts, is_library, is_literal, is_mark, is_operator, is_type_word, is_word};

use ooo_syntax::Terminal;

/// Whether it is a word, reserved or not.
pub(crate) fn is_word(terminal: Terminal) -> bool
    ensures { result ≡ is_word terminal }
{
    !(is_literal(terminal) || is_operator(terminal) || is_mark(terminal))
}

// Whether it is a number or a text.
fn is_literal(terminal: Terminal) -> bool
    ensures { result ≡ is_literal terminal }
{
    matches!(terminal, Terminal::Number | Terminal::Text)
}

// Whether it is a sign that is no operator.
fn is_mark(terminal: Terminal) -> bool
    ensures { result ≡ is_mark terminal }
{
    matches!(
        terminal,
        Terminal::ShiftLeftAssign
            | Terminal::ShiftRightAssign
            | Terminal::PlusPlus
            | Terminal::MinusMinus
            | Terminal::PlusAssign
            | Terminal::MinusAssign
            | Terminal::TimesAssign
            | Terminal::DivideAssign
            | Terminal::RemainderAssign
            | Terminal::AndAssign
            | Terminal::OrAssign
            | Terminal::XorAssign
            | Terminal::Scope
            | Terminal::Assign
            | Terminal::Colon
            | Terminal::Semicolon
            | Terminal::Comma
            | Terminal::Dot
            | Terminal::Open
            | Terminal::Close
            | Terminal::OpenBrace
            | Terminal::CloseBrace
            | Terminal::CloseBracket
    )
}

/// Whether it names a library that `::` may follow.
pub(crate) fn is_library(terminal: Terminal) -> bool
    ensures { result ≡ is_library terminal }
{
    matches!(terminal, Terminal::Std | Terminal::ScCore)
}

/// Whether it is a word of a type's name.
pub(crate) fn is_type_word(terminal: Terminal) -> bool
    ensures { result ≡ is_type_word terminal }
{
    matches!(
        terminal,
        Terminal::Bool | Terminal::Int | Terminal::Unsigned | Terminal::Long
    )
}

// Whether it is a sign that is an operator where it stands in an expression.
fn is_operator(terminal: Terminal) -> bool
    ensures { result ≡ is_operator terminal }
{
    matches!(
        terminal,
        Terminal::Plus
            | Terminal::Minus
            | Terminal::Star
            | Terminal::Slash
            | Terminal::Percent
            | Terminal::And
            | Terminal::Or
            | Terminal::Xor
            | Terminal::Tilde
            | Terminal::Not
            | Terminal::Less
            | Terminal::Greater
            | Terminal::LessEqual
            | Terminal::GreaterEqual
            | Terminal::EqualEqual
            | Terminal::NotEqual
            | Terminal::ShiftLeft
            | Terminal::ShiftRight
            | Terminal::AndAnd
            | Terminal::OrOr
            | Terminal::Question
            | Terminal::OpenBracket
    )
}

/// Whether it counts as an operator, right behind a type word or not.
pub(crate) fn counts(behind_type: bool, terminal: Terminal) -> bool
    ensures { result ≡ counts behind_type terminal }
{
    is_operator(terminal) || (is_type_word(terminal) && !behind_type)
}
