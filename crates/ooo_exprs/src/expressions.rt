ghost use Rattle.std.specs.Prelude.{◌≡◌, ◌∷◌, ◌++◌, [], ◌≤◌, ◌<◌, ◌-◌, IfErr, IfOk, refl};
ghost use Rattle.ooo_grammar.specs.Combinators.{led, quoted, to};
ghost use Rattle.ooo_grammar.specs.Expressions.{arguments, bracketed, cast_to, converted, index, inner, member_call, named, numeral, parenthesis, plain_unary, prefixed, prefixed_by, short_type, some_expressions, truth, unary, whole_expression};
ghost use Rattle.ooo_grammar.specs.Forms.{begins_with, nothing_r};
ghost use Rattle.ooo_grammar.specs.Gives.{Gives, Stops, reads_at};
ghost use Rattle.ooo_grammar.specs.Lexis.{named_type};
ghost use Rattle.ooo_grammar.specs.Sets.{in_set};
ghost use Rattle.ooo_exprs.specs.Levels.{IsPrefixBy, closed, expression_r, first_r, is_cast, is_inside, level_at, op_levels, others_of, refused};

use crate::lists::begun;
use crate::signs::{
    begins_with_expression, begins_with_plain, begins_with_prefix, begins_with_short_type,
    begins_with_truth, op_of_level,
};
use ooo_grammar::{
    Limits, Read, ReadError, begins_with_type, named_type, next, one, one_inside, read_literal,
    read_member_word, read_type, read_word, starts,
};
use ooo_syntax::{BinaryOp, Expr, Mark, PrefixOp, Symbol, Terminal, TypeForm, TypeName, Word};
use sqlite_items::{Boxed, Items};
use std::alloc::{AllocError, Global};

// Reads a token after what was found already, and hands that back.
#[tactic(auto, using(ooo_grammar::specs::Steps::steps))]
fn followed<'a, T: Drop>(
    found: T,
    terminal: Terminal,
    tokens: &'a [Symbol<'a>],
    limits: Limits,
) -> Read<'a, T>
    ensures { Gives (reads_at limits (to (λ _. found) (quoted terminal)) tokens.now) result }
{
    let (_, rest) = keeping!(found; one(tokens, terminal, limits));
    Ok((found, rest))
}

// ---- expressions of parts

fn boxed(alloc: Global, e: Expr) -> Result<Boxed<Expr>, AllocError>
    ensures { IfOk result (λ b. b ≡ e) }
{
    Boxed::new(alloc, e)
}

fn with(mut list: Items<Expr>, more: Expr) -> Result<Items<Expr>, AllocError>
    ensures { IfOk result (λ all. all ≡ list ++ more ∷ []) }
{
    keeping!(list; list.push(more));
    Ok(list)
}

// An expression onto the heap, before the tokens that are left.
pub(crate) fn boxed_read<'a>(
    alloc: Global,
    of: Expr,
    rest: &'a [Symbol<'a>],
) -> Read<'a, Boxed<Expr>>
    ensures { Gives (nothing_r of rest.now) result }
{
    Ok((boxed(alloc, of)?, rest))
}

// A prefix and its operand, before the tokens that are left.
fn prefix<'a>(
    alloc: Global,
    sign: Mark,
    op: PrefixOp,
    of: Expr,
    rest: &'a [Symbol<'a>],
) -> Read<'a, Expr>
    ensures { Gives (nothing_r (Expr.Prefix sign.position op of) rest.now) result }
{
    Ok((Expr::Prefix(sign.position, op, boxed(alloc, of)?), rest))
}

// A cast and its operand, before the tokens that are left.
fn cast<'a>(
    alloc: Global,
    opening: Mark,
    form: TypeName,
    of: Expr,
    rest: &'a [Symbol<'a>],
) -> Read<'a, Expr>
    ensures { Gives (nothing_r (Expr.Cast opening.position form of) rest.now) result }
{
    Ok((Expr::Cast(opening.position, form, boxed(alloc, of)?), rest))
}

// An expression in parentheses, of which `)` is still to be read.
fn read_close<'a>(
    alloc: Global,
    opening: Mark,
    of: Expr,
    tokens: &'a [Symbol<'a>],
    limits: Limits,
) -> Read<'a, Expr>
    ensures { Gives (closed (Expr.Paren opening.position of) limits tokens.now) result }
{
    let of = boxed(alloc, of)?;
    followed(
        Expr::Paren(opening.position, of),
        Terminal::Close,
        tokens,
        limits,
    )
}

// The limits one level deeper. Where no level is left, what begins here is too deep.
fn deeper_limits<'a>(
    begins: bool,
    tokens: &'a [Symbol<'a>],
    limits: Limits,
) -> Result<Limits, ReadError>
    ensures left { IfOk result (λ _. 0 < limits.levels) }
    ensures levels { IfOk result (λ l. l.levels ≡ limits.levels - 1) }
    ensures bound { IfOk result (λ l. l.bound ≡ limits.bound) }
    ensures refused { IfErr result (λ e. (limits.levels ≡ 0) × Stops (refused begins tokens.now) e) }
{
    if limits.levels > 0 {
        return Ok(limits.inside());
    }
    if begins {
        return Err(ReadError::TooDeep(tokens.len()));
    }
    Err(ReadError::Syntax(tokens.len()))
}

// An expression in brackets or after a sign.
#[cycle(read)]
#[tactic(auto, using(ooo_grammar::specs::Steps::steps))]
pub(crate) fn read_inner<'a>(
    alloc: Global,
    tokens: &'a [Symbol<'a>],
    limits: Limits,
) -> Read<'a, Expr>
    ensures { Gives (reads_at limits inner tokens.now) result }
{
    let deeper = got!(deeper_limits(begins_with_expression(tokens), tokens, limits));
    read_expression(alloc, First::Any, tokens, deeper)
}

// The same, onto the heap.
#[cycle(read)]
#[tactic(auto, using(ooo_grammar::specs::Steps::steps))]
pub(crate) fn read_boxed_inner<'a>(
    alloc: Global,
    tokens: &'a [Symbol<'a>],
    limits: Limits,
) -> Read<'a, Boxed<Expr>>
    ensures { Gives (reads_at limits inner tokens.now) result }
{
    let (of, rest) = got!(read_inner(alloc, tokens, limits));
    boxed_read(alloc, of, rest)
}

// An index, after the word.
#[cycle(read)]
#[tactic(auto, using(ooo_grammar::specs::Steps::steps), unfolding(ooo_grammar::specs::Expressions::index))]
fn read_index<'a>(
    alloc: Global,
    word: Word,
    tokens: &'a [Symbol<'a>],
    limits: Limits,
) -> Read<'a, Expr>
    ensures { Gives (reads_at limits (index word) tokens.now) result }
{
    let (_, rest) = keeping!(word; one(tokens, Terminal::OpenBracket, limits));
    let (at, rest) = keeping!(word; read_boxed_inner(alloc, rest, limits));
    followed(Expr::Index(word, at), Terminal::CloseBracket, rest, limits)
}

// Arguments in parentheses.
#[cycle(read)]
#[tactic(auto, using(ooo_grammar::specs::Steps::steps), unfolding(ooo_grammar::specs::Expressions::arguments))]
fn read_arguments<'a>(
    alloc: Global,
    tokens: &'a [Symbol<'a>],
    limits: Limits,
) -> Read<'a, Items<Expr>>
    ensures { Gives (reads_at limits arguments tokens.now) result }
{
    let (_, rest) = got!(one(tokens, Terminal::Open, limits));
    if !begins_with_expression(rest) {
        return followed(Items::new(alloc), Terminal::Close, rest, limits);
    }
    let (list, rest) = got!(read_some(alloc, rest, limits));
    followed(list, Terminal::Close, rest, limits)
}

// Expressions and commas.
#[cycle(read)]
#[tactic(auto, using(ooo_grammar::specs::Steps::steps), unfolding(ooo_grammar::specs::Expressions::some_expressions))]
fn read_some<'a>(alloc: Global, tokens: &'a [Symbol<'a>], limits: Limits) -> Read<'a, Items<Expr>>
    ensures { Gives (reads_at limits some_expressions tokens.now) result }
{
    let (first, mut rest) = got!(read_inner(alloc, tokens, limits));
    let mut list = begun(alloc, first)?;
    'turns: for _turn in 0..rest.len() {
        if !starts(rest, Terminal::Comma) {
            return Ok((list, rest));
        }
        let (_, after) = keeping!(list; one_inside(rest, Terminal::Comma, limits));
        let (more, after) = keeping!(list; read_inner(alloc, after, limits));
        list = with(list, more)?;
        rest = after;
    }
    Ok((list, rest))
}

// A call of a member, after the word.
#[cycle(read)]
#[tactic(auto, using(ooo_grammar::specs::Steps::steps), unfolding(ooo_grammar::specs::Expressions::member_call))]
fn read_member<'a>(
    alloc: Global,
    word: Word,
    tokens: &'a [Symbol<'a>],
    limits: Limits,
) -> Read<'a, Expr>
    ensures { Gives (reads_at limits (member_call word) tokens.now) result }
{
    let (_, rest) = keeping!(word; one(tokens, Terminal::Dot, limits));
    let (member, rest) = keeping!(word; read_member_word(alloc, rest, limits));
    let (_, rest) = keeping!(word, member; one(rest, Terminal::Open, limits));
    if !begins_with_expression(rest) {
        return followed(
            Expr::Member(word, member, None),
            Terminal::Close,
            rest,
            limits,
        );
    }
    let (value, rest) = keeping!(word, member; read_boxed_inner(alloc, rest, limits));
    followed(
        Expr::Member(word, member, Some(value)),
        Terminal::Close,
        rest,
        limits,
    )
}

// An operand that begins with a word.
#[cycle(read)]
#[tactic(auto, using(ooo_grammar::specs::Steps::steps), unfolding(ooo_grammar::specs::Expressions::named, ooo_grammar::specs::Expressions::after_word))]
fn read_named<'a>(alloc: Global, tokens: &'a [Symbol<'a>], limits: Limits) -> Read<'a, Expr>
    ensures { Gives (reads_at limits named tokens.now) result }
{
    let (word, rest) = got!(read_word(alloc, tokens, limits));
    if starts(rest, Terminal::OpenBracket) {
        return read_index(alloc, word, rest, limits);
    }
    if starts(rest, Terminal::Open) {
        let (list, rest) = keeping!(word; read_arguments(alloc, rest, limits));
        return Ok((Expr::Call(word, list), rest));
    }
    if starts(rest, Terminal::Dot) {
        return read_member(alloc, word, rest, limits);
    }
    Ok((Expr::Name(word), rest))
}

// What a prefix means, and its sign: `+` where no other stands here.
#[tactic(auto, unfolding(ooo_grammar::specs::Expressions::prefixed))]
fn prefix_sign<'a>(tokens: &'a [Symbol<'a>]) -> (PrefixOp, Terminal)
    ensures { IsPrefixBy result.0 result.1 tokens.now }
{
    if starts(tokens, Terminal::Not) {
        return (PrefixOp::Not, Terminal::Not);
    }
    if starts(tokens, Terminal::Tilde) {
        return (PrefixOp::Invert, Terminal::Tilde);
    }
    if starts(tokens, Terminal::Minus) {
        return (PrefixOp::Negate, Terminal::Minus);
    }
    (PrefixOp::Keep, Terminal::Plus)
}

// A prefix and its operand.
#[cycle(read)]
#[tactic(auto, using(ooo_grammar::specs::Steps::steps))]
fn read_prefixed<'a>(alloc: Global, tokens: &'a [Symbol<'a>], limits: Limits) -> Read<'a, Expr>
    ensures { Gives (reads_at limits prefixed tokens.now) result }
{
    let (op, sign) = prefix_sign(tokens);
    let (mark, rest) = got!(one(tokens, sign, limits));
    let (of, rest) = got!(read_first(alloc, First::Operand, rest, limits));
    prefix(alloc, mark, op, of, rest)
}

/// The operand that an expression begins with.
#[derive(Clone, Copy)]
pub(crate) enum First {
    /// Any.
    Any,
    /// One that doesn't begin with a type.
    Plain,
    /// `( expr )` after a type, within a bracket that is open.
    Converted(TypeName),
    /// Any, within a bracket that is open.
    Operand,
}

fn others(first: First) -> First
    ensures { result ≡ others_of first }
{
    match first {
        First::Any | First::Plain => First::Any,
        First::Converted(_) | First::Operand => First::Operand,
    }
}

fn op_limits(first: First, limits: Limits) -> Limits
    ensures levels { result.levels ≡ op_levels (is_inside first) limits.levels }
    ensures bound { result.bound ≡ limits.bound }
    ensures no_more { result.levels ≤ limits.levels }
{
    match first {
        First::Any | First::Plain => limits,
        First::Converted(_) | First::Operand => limits.inside(),
    }
}

fn binary(alloc: Global, op: BinaryOp, a: Expr, b: Expr) -> Result<Expr, AllocError>
    ensures { IfOk result (λ e. e ≡ Expr.Binary op a b) }
{
    let a = keeping!(b; boxed(alloc, a));
    let b = keeping!(a; boxed(alloc, b));
    Ok(Expr::Binary(op, a, b))
}

// The levels from a number on, loosest first.
#[cycle(read)]
#[tactic(auto, using(ooo_grammar::specs::Steps::steps))]
pub(crate) fn read_level<'a>(
    alloc: Global,
    tokens: &'a [Symbol<'a>],
    first: First,
    number: usize,
    limits: Limits,
) -> Read<'a, Expr>
    requires { number ≤ 10 }
    ensures { Gives (level_at limits first number tokens.now) result }
{
    if number >= 10 {
        return read_first(alloc, first, tokens, limits);
    }
    let (mut left, mut rest) = got!(read_level(alloc, tokens, first, number + 1, limits));
    let signs = op_limits(first, limits);
    'turns: for _turn in 0..rest.len() {
        let Some((token, after)) = next(rest) else {
            return Ok((left, rest));
        };
        let Some(op) = op_of_level(number, token) else {
            return Ok((left, rest));
        };
        if !signs.fit(token) {
            drop(left);
            return Err(ReadError::TooDeep(rest.len()));
        }
        let (right, more) =
            keeping!(left; read_level(alloc, after, others(first), number + 1, limits));
        left = binary(alloc, op, left, right)?;
        rest = more;
    }
    Ok((left, rest))
}

// The first operand.
#[cycle(read)]
#[tactic(auto, unfolding(crate::specs::Levels::first_r))]
fn read_first<'a>(
    alloc: Global,
    first: First,
    tokens: &'a [Symbol<'a>],
    limits: Limits,
) -> Read<'a, Expr>
    ensures { Gives (first_r limits first tokens.now) result }
{
    match first {
        First::Any => read_unary(alloc, tokens, limits),
        First::Plain => read_plain_unary(alloc, tokens, limits),
        First::Converted(form) => read_converted(alloc, form, tokens, limits.inside()),
        First::Operand => {
            let deeper = got!(deeper_limits(begins_with_expression(tokens), tokens, limits));
            read_unary(alloc, tokens, deeper)
        }
    }
}

// What a conversion converts, after the type.
#[cycle(read)]
#[tactic(auto, using(ooo_grammar::specs::Steps::steps), unfolding(ooo_grammar::specs::Expressions::converted))]
fn read_converted<'a>(
    alloc: Global,
    form: TypeName,
    tokens: &'a [Symbol<'a>],
    limits: Limits,
) -> Read<'a, Expr>
    ensures { Gives (reads_at limits (converted form) tokens.now) result }
{
    let (_, rest) = got!(one(tokens, Terminal::Open, limits));
    let (of, rest) = got!(read_boxed_inner(alloc, rest, limits.inside()));
    followed(Expr::Conversion(form, of), Terminal::Close, rest, limits)
}

// An expression by its first operand.
#[cycle(read)]
#[tactic(auto, using(ooo_grammar::specs::Steps::steps))]
fn read_expression<'a>(
    alloc: Global,
    first: First,
    tokens: &'a [Symbol<'a>],
    limits: Limits,
) -> Read<'a, Expr>
    ensures { Gives (expression_r limits first tokens.now) result }
{
    let (condition, rest) = got!(read_level(alloc, tokens, first, 0, limits));
    if !starts(rest, Terminal::Question) {
        return Ok((condition, rest));
    }
    let inner = op_limits(first, limits);
    let condition = boxed(alloc, condition)?;
    let (_, rest) = keeping!(condition; one(rest, Terminal::Question, inner));
    let (yes, rest) = keeping!(condition; read_boxed_inner(alloc, rest, inner));
    let (_, rest) = keeping!(condition, yes; one_inside(rest, Terminal::Colon, inner));
    let (no, rest) = keeping!(condition, yes; read_boxed_inner(alloc, rest, inner));
    Ok((Expr::Choose(condition, yes, no), rest))
}

// An expression.
#[tactic(auto, using(crate::proofs::Turns::whole_gives))]
pub(crate) fn read_whole<'a>(
    alloc: Global,
    tokens: &'a [Symbol<'a>],
    limits: Limits,
) -> Read<'a, Expr>
    ensures { Gives (reads_at limits whole_expression tokens.now) result }
{
    read_expression(alloc, First::Any, tokens, limits)
}

// What a cast converts, after its type.
#[cycle(read)]
#[tactic(auto, using(ooo_grammar::specs::Steps::steps), unfolding(ooo_grammar::specs::Expressions::cast_to))]
fn read_cast_to<'a>(
    alloc: Global,
    opening: Mark,
    form: TypeName,
    tokens: &'a [Symbol<'a>],
    limits: Limits,
) -> Read<'a, Expr>
    ensures { Gives (reads_at limits (cast_to opening form) tokens.now) result }
{
    let (_, rest) = got!(one(tokens, Terminal::Close, limits));
    let (of, rest) = got!(read_first(alloc, First::Operand, rest, limits));
    cast(alloc, opening, form, of, rest)
}

// An expression in parentheses that doesn't begin with a type, after `(`.
#[cycle(read)]
#[tactic(auto, using(ooo_grammar::specs::Steps::steps), unfolding(ooo_grammar::specs::Expressions::parenthesis))]
fn read_parenthesis<'a>(
    alloc: Global,
    opening: Mark,
    tokens: &'a [Symbol<'a>],
    limits: Limits,
) -> Read<'a, Expr>
    ensures { Gives (reads_at limits (parenthesis opening) tokens.now) result }
{
    let deeper = got!(deeper_limits(begins_with_plain(tokens), tokens, limits));
    let (of, rest) = got!(read_expression(alloc, First::Plain, tokens, deeper));
    read_close(alloc, opening, of, rest, limits)
}

// Whether a cast follows `(` and a type: `)` tells after a type that a conversion may begin with.
fn is_cast<'a>(form: TypeForm, tokens: &'a [Symbol<'a>]) -> bool
    ensures { result ≡ is_cast form (begins_with (in_set (Terminal.Close ∷ [])) tokens.now) }
{
    match form {
        TypeForm::Bool | TypeForm::Int | TypeForm::Unsigned => starts(tokens, Terminal::Close),
        _ => true,
    }
}

// What `(` begins.
#[cycle(read)]
#[tactic(auto, using(ooo_grammar::specs::Steps::steps), unfolding(ooo_grammar::specs::Expressions::bracketed))]
fn read_bracketed<'a>(alloc: Global, tokens: &'a [Symbol<'a>], limits: Limits) -> Read<'a, Expr>
    ensures { Gives (reads_at limits bracketed tokens.now) result }
{
    let (opening, rest) = got!(one(tokens, Terminal::Open, limits));
    if !begins_with_type(rest) {
        return read_parenthesis(alloc, opening, rest, limits);
    }
    let (form, rest) = got!(read_type(rest, limits.inside()));
    if is_cast(form.form, rest) {
        return read_cast_to(alloc, opening, form, rest, limits);
    }
    let (of, rest) = got!(read_expression(alloc, First::Converted(form), rest, limits));
    read_close(alloc, opening, of, rest, limits)
}

// The word of a type that has no other.
#[tactic(auto, using(ooo_grammar::specs::Steps::steps))]
fn read_type_word<'a>(
    form: TypeForm,
    key: Terminal,
    tokens: &'a [Symbol<'a>],
    limits: Limits,
) -> Read<'a, TypeName>
    ensures { Gives (reads_at limits (to (λ k. named_type k form) (quoted key)) tokens.now) result }
{
    let (mark, rest) = got!(one(tokens, key, limits));
    Ok((named_type(mark, form), rest))
}

// A type of one word.
#[tactic(auto, using(ooo_grammar::specs::Steps::steps), unfolding(ooo_grammar::specs::Expressions::short_type))]
fn read_short_type<'a>(tokens: &'a [Symbol<'a>], limits: Limits) -> Read<'a, TypeName>
    ensures { Gives (reads_at limits short_type tokens.now) result }
{
    if starts(tokens, Terminal::Bool) {
        return read_type_word(TypeForm::Bool, Terminal::Bool, tokens, limits);
    }
    if starts(tokens, Terminal::Int) {
        return read_type_word(TypeForm::Int, Terminal::Int, tokens, limits);
    }
    read_type_word(TypeForm::Unsigned, Terminal::Unsigned, tokens, limits)
}

// A number.
#[tactic(auto, using(ooo_grammar::specs::Steps::steps), unfolding(ooo_grammar::specs::Expressions::numeral))]
fn read_numeral<'a>(tokens: &'a [Symbol<'a>], limits: Limits) -> Read<'a, Expr>
    ensures { Gives (reads_at limits numeral tokens.now) result }
{
    let (number, rest) = got!(read_literal(tokens, limits));
    Ok((Expr::Number(number), rest))
}

// `true` or `false`.
#[tactic(auto, using(ooo_grammar::specs::Steps::steps), unfolding(ooo_grammar::specs::Expressions::truth))]
fn read_truth<'a>(tokens: &'a [Symbol<'a>], limits: Limits) -> Read<'a, Expr>
    ensures { Gives (reads_at limits truth tokens.now) result }
{
    if starts(tokens, Terminal::True) {
        let (word, rest) = got!(one(tokens, Terminal::True, limits));
        return Ok((Expr::Truth(true, word.position), rest));
    }
    let (word, rest) = got!(one(tokens, Terminal::False, limits));
    Ok((Expr::Truth(false, word.position), rest))
}

// An operand that doesn't begin with a type.
#[cycle(read)]
#[tactic(auto, using(ooo_grammar::specs::Steps::steps), unfolding(ooo_grammar::specs::Expressions::plain_unary))]
fn read_plain_unary<'a>(alloc: Global, tokens: &'a [Symbol<'a>], limits: Limits) -> Read<'a, Expr>
    ensures { Gives (reads_at limits plain_unary tokens.now) result }
{
    if begins_with_prefix(tokens) {
        return read_prefixed(alloc, tokens, limits);
    }
    if starts(tokens, Terminal::Open) {
        return read_bracketed(alloc, tokens, limits);
    }
    if starts(tokens, Terminal::Number) {
        return read_numeral(tokens, limits);
    }
    if begins_with_truth(tokens) {
        return read_truth(tokens, limits);
    }
    read_named(alloc, tokens, limits)
}

// An operand.
#[cycle(read)]
#[tactic(auto, using(ooo_grammar::specs::Steps::steps), unfolding(ooo_grammar::specs::Expressions::unary, ooo_grammar::specs::Expressions::conversion))]
fn read_unary<'a>(alloc: Global, tokens: &'a [Symbol<'a>], limits: Limits) -> Read<'a, Expr>
    ensures { Gives (reads_at limits unary tokens.now) result }
{
    if begins_with_short_type(tokens) {
        let (form, rest) = got!(read_short_type(tokens, limits));
        return read_converted(alloc, form, rest, limits);
    }
    read_plain_unary(alloc, tokens, limits)
}
