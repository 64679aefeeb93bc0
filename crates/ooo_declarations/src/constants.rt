ghost use Rattle.ooo_grammar.specs.Gives.{Gives, reads_at};
ghost use Rattle.ooo_grammar.specs.Members.{constant, constant_tail};

use ooo_exprs::read_boxed_value;
use ooo_grammar::{Limits, Read, one, read_type, read_word, starts};
use ooo_simple::followed;
use ooo_syntax::{Constant, Symbol, Terminal};
use std::alloc::Global;

/// Reads a constant, after `const`.
#[tactic(auto, using(ooo_grammar::specs::Steps::steps), unfolding(ooo_grammar::specs::Members::constant_tail))]
pub fn read_constant_tail<'a>(
    alloc: Global,
    is_static: bool,
    tokens: &'a [Symbol<'a>],
    limits: Limits,
) -> Read<'a, Constant>
    ensures { Gives (reads_at limits (constant_tail is_static) tokens.now) result }
{
    let (form, rest) = got!(read_type(tokens, limits));
    let (name, rest) = got!(read_word(alloc, rest, limits));
    let (_, rest) = keeping!(name; one(rest, Terminal::Assign, limits));
    let (value, rest) = keeping!(name; read_boxed_value(alloc, rest, limits));
    let (value, rest) = keeping!(name; followed(value, Terminal::Semicolon, rest, limits));
    Ok((
        Constant {
            is_static,
            form,
            name,
            value,
        },
        rest,
    ))
}

/// Reads a constant.
#[tactic(auto, using(ooo_grammar::specs::Steps::steps), unfolding(ooo_grammar::specs::Members::constant))]
pub fn read_constant<'a>(
    alloc: Global,
    tokens: &'a [Symbol<'a>],
    limits: Limits,
) -> Read<'a, Constant>
    ensures { Gives (reads_at limits constant tokens.now) result }
{
    if starts(tokens, Terminal::Static) {
        let (_, rest) = one(tokens, Terminal::Static, limits)?;
        let (_, rest) = one(rest, Terminal::Const, limits)?;
        return read_constant_tail(alloc, true, rest, limits);
    }
    let (_, rest) = one(tokens, Terminal::Const, limits)?;
    read_constant_tail(alloc, false, rest, limits)
}
