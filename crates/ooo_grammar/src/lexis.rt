ghost use Rattle.std.specs.Prelude.{◌≡◌, ◌∷◌, [], IfOk};
ghost use Rattle.ooo_grammar.specs.Numbers.{number};
ghost use Rattle.ooo_grammar.specs.Forms.{begins_with};
ghost use Rattle.ooo_grammar.specs.Sets.{has, in_set};
ghost use Rattle.ooo_grammar.specs.Names.{names, type_words};
ghost use Rattle.ooo_grammar.specs.Lexis.{after_unsigned, event_word, inside_quotes, int_after, literal, long_after, member_word, named_type, plain_type, text, text_of, type_name, word, word_of};
ghost use Rattle.ooo_grammar.specs.Gives.{Gives, reads_at};

use crate::limits::{Limits, ReadError};
use crate::tokens::{Read, is_same, next, one, starts};
use ooo_lexer::unescape;
use ooo_syntax::{Mark, Number, Symbol, Terminal, Text, TypeForm, TypeName, Word};
use ooo_value::Name;
use std::alloc::{AllocError, Global};

// The word that a token is.
fn word_of(alloc: Global, token: Symbol<'_>) -> Result<Word, AllocError>
    ensures { IfOk result (λ w. w ≡ word_of token.entry) }
{
    let name = Name::from_bytes(Vec::from_slice(alloc, token.text)?);
    Ok(Word {
        name,
        position: token.position,
    })
}

// What stands between a text's quotes.
fn inside_quotes(text: &[u8]) -> &[u8]
    ensures { result.now ≡ inside_quotes text.now }
{
    match text {
        [] => text,
        [_, rest @ ..] => &rest[..rest.len().saturating_sub(1)],
    }
}

// The text that a token is.
fn text_of(alloc: Global, token: Symbol<'_>) -> Result<Text, AllocError>
    ensures { IfOk result (λ x. x ≡ text_of token.entry) }
{
    let mut value = Vec::new(alloc);
    unescape(&mut value, inside_quotes(token.text))?;
    Ok(Text {
        value: Name::from_bytes(value),
        position: token.position,
    })
}

fn is_name(terminal: Terminal) -> bool
    ensures { result ≡ has names (number terminal) }
{
    matches!(
        terminal,
        Terminal::Word | Terminal::Notify | Terminal::Cancel | Terminal::Bind
    )
}

fn is_member_word(terminal: Terminal) -> bool
    ensures { result ≡ has (Terminal.Word ∷ Terminal.Bind ∷ []) (number terminal) }
{
    matches!(terminal, Terminal::Word | Terminal::Bind)
}

fn is_event_word(terminal: Terminal) -> bool
    ensures { result ≡ has (Terminal.Notify ∷ Terminal.Cancel ∷ []) (number terminal) }
{
    matches!(terminal, Terminal::Notify | Terminal::Cancel)
}

/// Whether a word of the model's own begins here.
pub fn begins_with_word<'a>(tokens: &'a [Symbol<'a>]) -> bool
    ensures { result ≡ begins_with (in_set names) tokens.now }
{
    match next(tokens) {
        Some((token, _)) => is_name(token.terminal),
        None => false,
    }
}

/// Whether a word that may be called stands here, after a dot.
pub fn begins_with_member_word<'a>(tokens: &'a [Symbol<'a>]) -> bool
    ensures { result ≡ begins_with (in_set (Terminal.Word ∷ Terminal.Bind ∷ [])) tokens.now }
{
    match next(tokens) {
        Some((token, _)) => is_member_word(token.terminal),
        None => false,
    }
}

/// Whether a type begins here.
pub fn begins_with_type<'a>(tokens: &'a [Symbol<'a>]) -> bool
    ensures { result ≡ begins_with (in_set type_words) tokens.now }
{
    match next(tokens) {
        Some((token, _)) => matches!(
            token.terminal,
            Terminal::Bool | Terminal::Int | Terminal::Unsigned | Terminal::Long
        ),
        None => false,
    }
}

/// Reads a word of the model's own.
#[tactic(auto, using(crate::specs::Steps::steps), unfolding(crate::specs::Lexis::word))]
pub fn read_word<'a>(alloc: Global, tokens: &'a [Symbol<'a>], limits: Limits) -> Read<'a, Word>
    ensures { Gives (reads_at limits word tokens.now) result }
{
    let Some((token, rest)) = next(tokens) else {
        return Err(ReadError::Syntax(tokens.len()));
    };
    if !is_name(token.terminal) {
        return Err(ReadError::Syntax(tokens.len()));
    }
    if !limits.fit(token) {
        return Err(ReadError::TooDeep(tokens.len()));
    }
    Ok((word_of(alloc, token)?, rest))
}

/// Reads a word after a dot, but for `notify` and `cancel`.
#[tactic(auto, using(crate::specs::Steps::steps), unfolding(crate::specs::Lexis::member_word))]
pub fn read_member_word<'a>(
    alloc: Global,
    tokens: &'a [Symbol<'a>],
    limits: Limits,
) -> Read<'a, Word>
    ensures { Gives (reads_at limits member_word tokens.now) result }
{
    let Some((token, rest)) = next(tokens) else {
        return Err(ReadError::Syntax(tokens.len()));
    };
    if !is_member_word(token.terminal) {
        return Err(ReadError::Syntax(tokens.len()));
    }
    if !limits.fit(token) {
        return Err(ReadError::TooDeep(tokens.len()));
    }
    Ok((word_of(alloc, token)?, rest))
}

/// Reads `notify` or `cancel` as a word.
#[tactic(auto, using(crate::specs::Steps::steps), unfolding(crate::specs::Lexis::event_word))]
pub fn read_event_word<'a>(
    alloc: Global,
    tokens: &'a [Symbol<'a>],
    limits: Limits,
) -> Read<'a, Word>
    ensures { Gives (reads_at limits event_word tokens.now) result }
{
    let Some((token, rest)) = next(tokens) else {
        return Err(ReadError::Syntax(tokens.len()));
    };
    if !is_event_word(token.terminal) {
        return Err(ReadError::Syntax(tokens.len()));
    }
    if !limits.fit(token) {
        return Err(ReadError::TooDeep(tokens.len()));
    }
    Ok((word_of(alloc, token)?, rest))
}

/// Reads a number.
#[tactic(auto, using(crate::specs::Steps::steps), unfolding(crate::specs::Lexis::literal))]
pub fn read_literal<'a>(tokens: &'a [Symbol<'a>], limits: Limits) -> Read<'a, Number>
    ensures { Gives (reads_at limits literal tokens.now) result }
{
    let Some((token, rest)) = next(tokens) else {
        return Err(ReadError::Syntax(tokens.len()));
    };
    if !is_same(Terminal::Number, token.terminal) {
        return Err(ReadError::Syntax(tokens.len()));
    }
    if !limits.fit(token) {
        return Err(ReadError::TooDeep(tokens.len()));
    }
    Ok((
        Number {
            value: token.value,
            position: token.position,
        },
        rest,
    ))
}

/// Reads a text.
#[tactic(auto, using(crate::specs::Steps::steps), unfolding(crate::specs::Lexis::text))]
pub fn read_text<'a>(alloc: Global, tokens: &'a [Symbol<'a>], limits: Limits) -> Read<'a, Text>
    ensures { Gives (reads_at limits text tokens.now) result }
{
    let Some((token, rest)) = next(tokens) else {
        return Err(ReadError::Syntax(tokens.len()));
    };
    if !is_same(Terminal::Text, token.terminal) {
        return Err(ReadError::Syntax(tokens.len()));
    }
    if !limits.fit(token) {
        return Err(ReadError::TooDeep(tokens.len()));
    }
    Ok((text_of(alloc, token)?, rest))
}

// Reads `int` or nothing, of two forms of a type the one without it and the one with it.
#[tactic(auto, using(crate::specs::Steps::steps), unfolding(crate::specs::Lexis::int_after))]
fn read_int_after<'a>(
    bare: TypeForm,
    full: TypeForm,
    tokens: &'a [Symbol<'a>],
    limits: Limits,
) -> Read<'a, TypeForm>
    ensures { Gives (reads_at limits (int_after bare full) tokens.now) result }
{
    if !starts(tokens, Terminal::Int) {
        return Ok((bare, tokens));
    }
    let (_, rest) = one(tokens, Terminal::Int, limits)?;
    Ok((full, rest))
}

/// Reads what follows the first `long` of a type.
#[tactic(auto, using(crate::specs::Steps::steps), unfolding(crate::specs::Lexis::long_after))]
pub fn read_long_after<'a>(
    bare: TypeForm,
    full: TypeForm,
    tokens: &'a [Symbol<'a>],
    limits: Limits,
) -> Read<'a, TypeForm>
    ensures { Gives (reads_at limits (long_after bare full) tokens.now) result }
{
    let (_, rest) = one(tokens, Terminal::Long, limits)?;
    read_int_after(bare, full, rest, limits)
}

// Reads what follows `unsigned` in a type.
#[tactic(auto, using(crate::specs::Steps::steps), unfolding(crate::specs::Lexis::after_unsigned))]
fn read_after_unsigned<'a>(tokens: &'a [Symbol<'a>], limits: Limits) -> Read<'a, TypeForm>
    ensures { Gives (reads_at limits after_unsigned tokens.now) result }
{
    if starts(tokens, Terminal::Long) {
        let (_, rest) = one(tokens, Terminal::Long, limits)?;
        return read_long_after(
            TypeForm::UnsignedLongLong,
            TypeForm::UnsignedLongLongInt,
            rest,
            limits,
        );
    }
    read_int_after(TypeForm::Unsigned, TypeForm::UnsignedInt, tokens, limits)
}

/// Reads `bool` or `int`.
#[tactic(auto, using(crate::specs::Steps::steps), unfolding(crate::specs::Lexis::plain_type))]
pub fn read_plain_type<'a>(tokens: &'a [Symbol<'a>], limits: Limits) -> Read<'a, TypeName>
    ensures { Gives (reads_at limits plain_type tokens.now) result }
{
    if starts(tokens, Terminal::Bool) {
        let (token, rest) = one(tokens, Terminal::Bool, limits)?;
        return Ok((named_type(token, TypeForm::Bool), rest));
    }
    let (token, rest) = one(tokens, Terminal::Int, limits)?;
    Ok((named_type(token, TypeForm::Int), rest))
}

/// A type by its first word.
pub fn named_type(mark: Mark, form: TypeForm) -> TypeName
    ensures { result ≡ named_type mark form }
{
    TypeName {
        form,
        position: mark.position,
    }
}

/// Reads a type.
#[tactic(auto, using(crate::specs::Steps::steps), unfolding(crate::specs::Lexis::type_name))]
pub fn read_type<'a>(tokens: &'a [Symbol<'a>], limits: Limits) -> Read<'a, TypeName>
    ensures { Gives (reads_at limits type_name tokens.now) result }
{
    if begins_with_plain_type(tokens) {
        return read_plain_type(tokens, limits);
    }
    if starts(tokens, Terminal::Unsigned) {
        let (token, rest) = one(tokens, Terminal::Unsigned, limits)?;
        let (form, rest) = read_after_unsigned(rest, limits)?;
        return Ok((named_type(token, form), rest));
    }
    let (token, rest) = one(tokens, Terminal::Long, limits)?;
    let (form, rest) = read_long_after(TypeForm::LongLong, TypeForm::LongLongInt, rest, limits)?;
    Ok((named_type(token, form), rest))
}

/// Whether `bool` or `int` stands here.
pub fn begins_with_plain_type<'a>(tokens: &'a [Symbol<'a>]) -> bool
    ensures { result ≡ begins_with (in_set (Terminal.Bool ∷ Terminal.Int ∷ [])) tokens.now }
{
    match next(tokens) {
        Some((token, _)) => matches!(token.terminal, Terminal::Bool | Terminal::Int),
        None => false,
    }
}
