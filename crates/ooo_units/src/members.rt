ghost use Rattle.std.specs.Prelude.{◌≡◌, true};
ghost use Rattle.ooo_grammar.specs.Codes.{deeper};
ghost use Rattle.ooo_grammar.specs.Combinators.{table};
ghost use Rattle.ooo_grammar.specs.Forms.{nothing_r};
ghost use Rattle.ooo_grammar.specs.Gives.{Gives, reads_at};
ghost use Rattle.ooo_grammar.specs.Members.{channels, const_field, const_fields, const_member, field, field_form, fields_of, function_tail, member, module_form, more_fields, part, parts, port_table, ports, typed_member, typed_tail, worded_tail};
ghost use Rattle.ooo_simple.specs.Loops.{next_item};
ghost use Rattle.ooo_declarations.specs.Loops.{one_more};
ghost use Rattle.ooo_units.specs.Parts.{braced_members, clocks_member, events_member, further_fields, members, other_member, placed_member, process_member, public_member, some_parts, static_member, void_member};

use crate::lists::added;
use crate::signs::{begins_with_member, begins_with_port, port_of};
use ooo_declarations::{
    begins_with_channel, read_args_inside, read_channel_word, read_constant_tail,
    read_named_constructor, read_of_type, read_params, read_parens_word, read_word_in_parens,
    read_words, read_written_constructor,
};
use ooo_exprs::{begun, read_boxed_inner_value, read_boxed_value};
use ooo_grammar::{
    Limits, Read, ReadError, begins_with_type, next, one, read_type, read_word, starts,
};
use ooo_simple::{followed, none_yet, with};
use ooo_statements::read_body;
use ooo_syntax::{
    Channels, Children, Constant, Field, FieldForm, Fields, Function, Member, Module, Part,
    PortWord, Ports, ResultForm, Symbol, Terminal, TypeName, Word,
};
use sqlite_items::Items;
use std::alloc::Global;

// What follows a field's name.
#[tactic(auto, using(ooo_grammar::specs::Steps::steps), unfolding(ooo_grammar::specs::Members::field_form))]
fn read_field_form<'a>(
    alloc: Global,
    tokens: &'a [Symbol<'a>],
    limits: Limits,
) -> Read<'a, FieldForm>
    ensures { Gives (reads_at limits field_form tokens.now) result }
{
    if starts(tokens, Terminal::OpenBracket) {
        let (_, rest) = got!(one(tokens, Terminal::OpenBracket, limits));
        let (length, rest) = got!(read_boxed_inner_value(alloc, rest, limits));
        let length = FieldForm::Length(length);
        return followed(length, Terminal::CloseBracket, rest, limits);
    }
    if starts(tokens, Terminal::Assign) {
        let (_, rest) = got!(one(tokens, Terminal::Assign, limits));
        let (value, rest) = got!(read_boxed_value(alloc, rest, limits));
        return Ok((FieldForm::Value(value), rest));
    }
    Ok((FieldForm::Plain, tokens))
}

// A field.
#[tactic(auto, using(ooo_grammar::specs::Steps::steps), unfolding(ooo_grammar::specs::Members::field))]
fn read_field<'a>(alloc: Global, tokens: &'a [Symbol<'a>], limits: Limits) -> Read<'a, Field>
    ensures { Gives (reads_at limits field tokens.now) result }
{
    let (name, rest) = got!(read_word(alloc, tokens, limits));
    let (form, rest) = keeping!(name; read_field_form(alloc, rest, limits));
    Ok((Field { name, form }, rest))
}

// A comma and one more field.
#[tactic(auto, using(ooo_grammar::specs::Steps::steps))]
fn read_next_field<'a>(
    alloc: Global,
    list: Items<Field>,
    tokens: &'a [Symbol<'a>],
    limits: Limits,
) -> Read<'a, Items<Field>>
    ensures { Gives (next_item limits Terminal.Comma field list tokens.now) result }
{
    let (_, rest) = keeping!(list; one(tokens, Terminal::Comma, limits));
    let (more, rest) = keeping!(list; read_field(alloc, rest, limits));
    added(list, more, rest)
}

// More fields, after the first one.
#[tactic(auto, using(ooo_grammar::specs::Steps::steps))]
fn read_further_fields<'a>(
    alloc: Global,
    first: Field,
    tokens: &'a [Symbol<'a>],
    limits: Limits,
) -> Read<'a, Items<Field>>
    ensures { Gives (reads_at limits (further_fields first) tokens.now) result }
{
    let (none, mut rest) = none_yet(alloc, tokens);
    let mut list = with(none, first)?;
    'turns: for _turn in 0..rest.len() {
        if !starts(rest, Terminal::Comma) {
            return Ok((list, rest));
        }
        let (more, after) = got!(read_next_field(alloc, list, rest, limits));
        list = more;
        rest = after;
    }
    Ok((list, rest))
}

// More fields, and the `;`.
#[tactic(auto, using(ooo_grammar::specs::Steps::steps), unfolding(ooo_grammar::specs::Members::more_fields))]
fn read_more_fields<'a>(
    alloc: Global,
    first: Field,
    tokens: &'a [Symbol<'a>],
    limits: Limits,
) -> Read<'a, Items<Field>>
    ensures { Gives (reads_at limits (more_fields first) tokens.now) result }
{
    let (list, rest) = got!(read_further_fields(alloc, first, tokens, limits));
    followed(list, Terminal::Semicolon, rest, limits)
}

// Fields after `const`.
fn all_const(form: TypeName, fields: Items<Field>) -> Member
    ensures { result ≡ fields_of true form fields }
{
    Member::Fields(Fields {
        is_const: true,
        form,
        fields,
    })
}

// A declaration of one field after `const`: with a value it is a constant.
fn const_field<'a>(
    alloc: Global,
    form: TypeName,
    field: Field,
    rest: &'a [Symbol<'a>],
) -> Read<'a, Member>
    ensures { Gives (nothing_r (const_field form field field.form) rest.now) result }
{
    let Field { name, form: tail } = field;
    if let FieldForm::Value(value) = tail {
        let constant = Constant {
            is_static: false,
            form,
            name,
            value,
        };
        return Ok((Member::Constant(constant), rest));
    }
    let fields = begun(alloc, Field { name, form: tail })?;
    Ok((all_const(form, fields), rest))
}

// What `const` declares.
#[tactic(auto, using(crate::proofs::Consts::several))]
fn const_member<'a>(
    alloc: Global,
    form: TypeName,
    mut fields: Items<Field>,
    rest: &'a [Symbol<'a>],
) -> Read<'a, Member>
    ensures { Gives (nothing_r (const_member form fields) rest.now) result }
{
    let Some(last) = fields.pop() else {
        return Ok((all_const(form, fields), rest));
    };
    if fields.is_empty() {
        drop(fields);
        return const_field(alloc, form, last, rest);
    }
    let fields = with(fields, last)?;
    Ok((all_const(form, fields), rest))
}

// Fields or a constant, after `const`.
#[tactic(auto, using(ooo_grammar::specs::Steps::steps), unfolding(ooo_grammar::specs::Members::const_fields))]
fn read_const_fields<'a>(
    alloc: Global,
    tokens: &'a [Symbol<'a>],
    limits: Limits,
) -> Read<'a, Member>
    ensures { Gives (reads_at limits const_fields tokens.now) result }
{
    let (form, rest) = got!(read_type(tokens, limits));
    let (first, rest) = got!(read_field(alloc, rest, limits));
    let (fields, rest) = got!(read_more_fields(alloc, first, rest, limits));
    const_member(alloc, form, fields, rest)
}

// A port's word.
#[tactic(auto, using(ooo_grammar::specs::Steps::steps))]
fn read_port_word<'a>(tokens: &'a [Symbol<'a>], limits: Limits) -> Read<'a, PortWord>
    ensures { Gives (reads_at limits (table port_table) tokens.now) result }
{
    let Some((token, rest)) = next(tokens) else {
        return Err(ReadError::Syntax(tokens.len()));
    };
    let Some(found) = port_of(token) else {
        return Err(ReadError::Syntax(tokens.len()));
    };
    if !limits.fit(token) {
        return Err(ReadError::TooDeep(tokens.len()));
    }
    Ok((found, rest))
}

// Ports.
#[tactic(auto, using(ooo_grammar::specs::Steps::steps), unfolding(ooo_grammar::specs::Members::ports))]
fn read_ports<'a>(alloc: Global, tokens: &'a [Symbol<'a>], limits: Limits) -> Read<'a, Ports>
    ensures { Gives (reads_at limits ports tokens.now) result }
{
    let (port, rest) = got!(read_port_word(tokens, limits));
    let (form, rest) = got!(read_of_type(rest, limits));
    let (names, rest) = got!(read_words(alloc, rest, limits));
    Ok((Ports { port, form, names }, rest))
}

// A part.
#[tactic(auto, using(ooo_grammar::specs::Steps::steps), unfolding(ooo_grammar::specs::Members::part))]
fn read_part<'a>(alloc: Global, tokens: &'a [Symbol<'a>], limits: Limits) -> Read<'a, Part>
    ensures { Gives (reads_at limits part tokens.now) result }
{
    let (name, rest) = got!(read_word(alloc, tokens, limits));
    if !starts(rest, Terminal::OpenBrace) {
        return Ok((Part { name, args: None }, rest));
    }
    let (_, rest) = keeping!(name; one(rest, Terminal::OpenBrace, limits));
    let (args, rest) = keeping!(name; read_args_inside(alloc, rest, limits));
    let (args, rest) = keeping!(name; followed(args, Terminal::CloseBrace, rest, limits));
    Ok((
        Part {
            name,
            args: Some(args),
        },
        rest,
    ))
}

// A comma and one more part.
#[tactic(auto, using(ooo_grammar::specs::Steps::steps))]
fn read_next_part<'a>(
    alloc: Global,
    list: Items<Part>,
    tokens: &'a [Symbol<'a>],
    limits: Limits,
) -> Read<'a, Items<Part>>
    ensures { Gives (next_item limits Terminal.Comma part list tokens.now) result }
{
    let (_, rest) = keeping!(list; one(tokens, Terminal::Comma, limits));
    let (more, rest) = keeping!(list; read_part(alloc, rest, limits));
    added(list, more, rest)
}

// Parts.
#[tactic(auto, using(ooo_grammar::specs::Steps::steps))]
fn read_some_parts<'a>(
    alloc: Global,
    tokens: &'a [Symbol<'a>],
    limits: Limits,
) -> Read<'a, Items<Part>>
    ensures { Gives (reads_at limits some_parts tokens.now) result }
{
    let (first, mut rest) = got!(read_part(alloc, tokens, limits));
    let mut list = begun(alloc, first)?;
    'turns: for _turn in 0..rest.len() {
        if !starts(rest, Terminal::Comma) {
            return Ok((list, rest));
        }
        let (more, after) = got!(read_next_part(alloc, list, rest, limits));
        list = more;
        rest = after;
    }
    Ok((list, rest))
}

// Parts and the `;`.
#[tactic(auto, using(ooo_grammar::specs::Steps::steps), unfolding(ooo_grammar::specs::Members::parts))]
fn read_parts<'a>(alloc: Global, tokens: &'a [Symbol<'a>], limits: Limits) -> Read<'a, Items<Part>>
    ensures { Gives (reads_at limits parts tokens.now) result }
{
    let (list, rest) = got!(read_some_parts(alloc, tokens, limits));
    followed(list, Terminal::Semicolon, rest, limits)
}

// Channels.
#[tactic(auto, using(ooo_grammar::specs::Steps::steps), unfolding(ooo_grammar::specs::Members::channels))]
fn read_channels<'a>(alloc: Global, tokens: &'a [Symbol<'a>], limits: Limits) -> Read<'a, Channels>
    ensures { Gives (reads_at limits channels tokens.now) result }
{
    let (channel, rest) = got!(read_channel_word(tokens, limits));
    let (form, rest) = got!(read_of_type(rest, limits));
    let (parts, rest) = got!(read_parts(alloc, rest, limits));
    Ok((
        Channels {
            channel,
            form,
            parts,
        },
        rest,
    ))
}

// A function, after its name.
#[tactic(auto, using(ooo_grammar::specs::Steps::steps), unfolding(ooo_grammar::specs::Members::function_tail))]
fn read_function_tail<'a>(
    alloc: Global,
    gives: ResultForm,
    word: Word,
    tokens: &'a [Symbol<'a>],
    limits: Limits,
) -> Read<'a, Member>
    ensures { Gives (reads_at limits (function_tail gives word) tokens.now) result }
{
    let (params, rest) = keeping!(word; read_params(alloc, tokens, limits));
    let (body, rest) = keeping!(word, params; read_body(alloc, rest, limits));
    Ok((
        Member::Function(Function {
            result: gives,
            name: word,
            params,
            body,
        }),
        rest,
    ))
}

// A function or fields, after a type and a word.
#[tactic(auto, using(ooo_grammar::specs::Steps::steps), unfolding(ooo_grammar::specs::Members::typed_tail))]
fn read_typed_tail<'a>(
    alloc: Global,
    form: TypeName,
    word: Word,
    tokens: &'a [Symbol<'a>],
    limits: Limits,
) -> Read<'a, Member>
    ensures { Gives (reads_at limits (typed_tail form word) tokens.now) result }
{
    if starts(tokens, Terminal::Open) {
        return read_function_tail(alloc, ResultForm::Value(form), word, tokens, limits);
    }
    let (tail, rest) = keeping!(word; read_field_form(alloc, tokens, limits));
    let first = Field {
        name: word,
        form: tail,
    };
    let (fields, rest) = got!(read_more_fields(alloc, first, rest, limits));
    Ok((
        Member::Fields(Fields {
            is_const: false,
            form,
            fields,
        }),
        rest,
    ))
}

// A member that begins with a type.
#[tactic(auto, using(ooo_grammar::specs::Steps::steps), unfolding(ooo_grammar::specs::Members::typed_member))]
fn read_typed_member<'a>(
    alloc: Global,
    tokens: &'a [Symbol<'a>],
    limits: Limits,
) -> Read<'a, Member>
    ensures { Gives (reads_at limits typed_member tokens.now) result }
{
    let (form, rest) = got!(read_type(tokens, limits));
    let (word, rest) = got!(read_word(alloc, rest, limits));
    read_typed_tail(alloc, form, word, rest, limits)
}

// What follows a first word: a constructor or children.
#[tactic(auto, using(ooo_grammar::specs::Steps::steps), unfolding(ooo_grammar::specs::Members::worded_tail))]
fn read_worded_tail<'a>(
    alloc: Global,
    word: Word,
    tokens: &'a [Symbol<'a>],
    limits: Limits,
) -> Read<'a, Member>
    ensures { Gives (reads_at limits (worded_tail word) tokens.now) result }
{
    if starts(tokens, Terminal::Open) {
        return read_written_constructor(alloc, word, tokens, limits);
    }
    let (parts, rest) = keeping!(word; read_parts(alloc, tokens, limits));
    Ok((
        Member::Children(Children {
            module_name: word,
            parts,
        }),
        rest,
    ))
}

// `public :`
#[tactic(auto, using(ooo_grammar::specs::Steps::steps))]
fn read_public_member<'a>(tokens: &'a [Symbol<'a>], limits: Limits) -> Read<'a, Member>
    ensures { Gives (reads_at limits public_member tokens.now) result }
{
    let (_, rest) = got!(one(tokens, Terminal::Public, limits));
    followed(Member::Public, Terminal::Colon, rest, limits)
}

// A constant that begins with `static`.
#[tactic(auto, using(ooo_grammar::specs::Steps::steps))]
fn read_static_member<'a>(
    alloc: Global,
    tokens: &'a [Symbol<'a>],
    limits: Limits,
) -> Read<'a, Member>
    ensures { Gives (reads_at limits static_member tokens.now) result }
{
    let (_, rest) = got!(one(tokens, Terminal::Static, limits));
    let (_, rest) = got!(one(rest, Terminal::Const, limits));
    let (constant, rest) = got!(read_constant_tail(alloc, true, rest, limits));
    Ok((Member::Constant(constant), rest))
}

// `SC_HAS_PROCESS` and its word.
#[tactic(auto, using(ooo_grammar::specs::Steps::steps))]
fn read_process_member<'a>(
    alloc: Global,
    tokens: &'a [Symbol<'a>],
    limits: Limits,
) -> Read<'a, Member>
    ensures { Gives (reads_at limits process_member tokens.now) result }
{
    let (_, rest) = got!(one(tokens, Terminal::ScHasProcess, limits));
    let (word, rest) = got!(read_word_in_parens(alloc, rest, limits));
    Ok((Member::HasProcess(word), rest))
}

// Clock ports.
#[tactic(auto, using(ooo_grammar::specs::Steps::steps))]
fn read_clocks_member<'a>(
    alloc: Global,
    tokens: &'a [Symbol<'a>],
    limits: Limits,
) -> Read<'a, Member>
    ensures { Gives (reads_at limits clocks_member tokens.now) result }
{
    let (_, rest) = got!(one(tokens, Terminal::ScInClk, limits));
    let (list, rest) = got!(read_words(alloc, rest, limits));
    Ok((Member::Clocks(list), rest))
}

// Events.
#[tactic(auto, using(ooo_grammar::specs::Steps::steps))]
fn read_events_member<'a>(
    alloc: Global,
    tokens: &'a [Symbol<'a>],
    limits: Limits,
) -> Read<'a, Member>
    ensures { Gives (reads_at limits events_member tokens.now) result }
{
    let (_, rest) = got!(one(tokens, Terminal::ScEvent, limits));
    let (list, rest) = got!(read_words(alloc, rest, limits));
    Ok((Member::Events(list), rest))
}

// A function that gives nothing.
#[tactic(auto, using(ooo_grammar::specs::Steps::steps))]
fn read_void_member<'a>(alloc: Global, tokens: &'a [Symbol<'a>], limits: Limits) -> Read<'a, Member>
    ensures { Gives (reads_at limits void_member tokens.now) result }
{
    let (_, rest) = got!(one(tokens, Terminal::Void, limits));
    let (word, rest) = got!(read_word(alloc, rest, limits));
    read_function_tail(alloc, ResultForm::Nothing, word, rest, limits)
}

// Ports, channels, or a member that begins with a word of the model's own.
#[tactic(auto, using(ooo_grammar::specs::Steps::steps))]
fn read_placed_member<'a>(
    alloc: Global,
    tokens: &'a [Symbol<'a>],
    limits: Limits,
) -> Read<'a, Member>
    ensures { Gives (reads_at limits placed_member tokens.now) result }
{
    if begins_with_port(tokens) {
        let (ports, rest) = got!(read_ports(alloc, tokens, limits));
        return Ok((Member::Ports(ports), rest));
    }
    if begins_with_channel(tokens) {
        let (channels, rest) = got!(read_channels(alloc, tokens, limits));
        return Ok((Member::Channels(channels), rest));
    }
    let (word, rest) = got!(read_word(alloc, tokens, limits));
    read_worded_tail(alloc, word, rest, limits)
}

// A member that is told by no word of its own.
#[tactic(auto, using(ooo_grammar::specs::Steps::steps))]
fn read_other_member<'a>(
    alloc: Global,
    tokens: &'a [Symbol<'a>],
    limits: Limits,
) -> Read<'a, Member>
    ensures { Gives (reads_at limits other_member tokens.now) result }
{
    if starts(tokens, Terminal::ScCtor) {
        return read_named_constructor(alloc, tokens, limits);
    }
    if begins_with_type(tokens) {
        return read_typed_member(alloc, tokens, limits);
    }
    read_placed_member(alloc, tokens, limits)
}

// A member.
#[tactic(auto, using(ooo_grammar::specs::Steps::steps), unfolding(ooo_grammar::specs::Members::member))]
fn read_member<'a>(alloc: Global, tokens: &'a [Symbol<'a>], limits: Limits) -> Read<'a, Member>
    ensures { Gives (reads_at limits member tokens.now) result }
{
    if starts(tokens, Terminal::Public) {
        return read_public_member(tokens, limits);
    }
    if starts(tokens, Terminal::Static) {
        return read_static_member(alloc, tokens, limits);
    }
    if starts(tokens, Terminal::Const) {
        let (_, rest) = got!(one(tokens, Terminal::Const, limits));
        return read_const_fields(alloc, rest, limits);
    }
    if starts(tokens, Terminal::ScHasProcess) {
        return read_process_member(alloc, tokens, limits);
    }
    if starts(tokens, Terminal::ScInClk) {
        return read_clocks_member(alloc, tokens, limits);
    }
    if starts(tokens, Terminal::ScEvent) {
        return read_events_member(alloc, tokens, limits);
    }
    if starts(tokens, Terminal::Void) {
        return read_void_member(alloc, tokens, limits);
    }
    read_other_member(alloc, tokens, limits)
}

// One more member.
#[tactic(auto, using(ooo_grammar::specs::Steps::steps))]
fn read_one_more_member<'a>(
    alloc: Global,
    list: Items<Member>,
    tokens: &'a [Symbol<'a>],
    limits: Limits,
) -> Read<'a, Items<Member>>
    ensures { Gives (one_more limits member list tokens.now) result }
{
    let (more, rest) = keeping!(list; read_member(alloc, tokens, limits));
    added(list, more, rest)
}

// Members.
#[tactic(auto, using(ooo_grammar::specs::Steps::steps))]
fn read_members<'a>(
    alloc: Global,
    tokens: &'a [Symbol<'a>],
    limits: Limits,
) -> Read<'a, Items<Member>>
    ensures { Gives (reads_at limits members tokens.now) result }
{
    let (mut list, mut rest) = none_yet(alloc, tokens);
    'turns: for _turn in 0..rest.len() {
        if !begins_with_member(rest) {
            return Ok((list, rest));
        }
        let (more, after) = got!(read_one_more_member(alloc, list, rest, limits));
        list = more;
        rest = after;
    }
    Ok((list, rest))
}

// The same, one level deeper.
#[tactic(auto, using(ooo_grammar::specs::Steps::deeper_gives))]
fn read_members_inside<'a>(
    alloc: Global,
    tokens: &'a [Symbol<'a>],
    limits: Limits,
) -> Read<'a, Items<Member>>
    ensures { Gives (reads_at limits (deeper members) tokens.now) result }
{
    read_members(alloc, tokens, limits.inside())
}

// Members in braces.
#[tactic(auto, using(ooo_grammar::specs::Steps::steps))]
fn read_braced_members<'a>(
    alloc: Global,
    tokens: &'a [Symbol<'a>],
    limits: Limits,
) -> Read<'a, Items<Member>>
    ensures { Gives (reads_at limits braced_members tokens.now) result }
{
    let (_, rest) = got!(one(tokens, Terminal::OpenBrace, limits));
    let (list, rest) = got!(read_members_inside(alloc, rest, limits));
    followed(list, Terminal::CloseBrace, rest, limits)
}

// A module.
#[tactic(auto, using(ooo_grammar::specs::Steps::steps), unfolding(ooo_grammar::specs::Members::module_form))]
pub(crate) fn read_module_form<'a>(
    alloc: Global,
    tokens: &'a [Symbol<'a>],
    limits: Limits,
) -> Read<'a, Module>
    ensures { Gives (reads_at limits module_form tokens.now) result }
{
    let (_, rest) = got!(one(tokens, Terminal::ScModule, limits));
    let (name, rest) = got!(read_parens_word(alloc, rest, limits));
    let (members, rest) = keeping!(name; read_braced_members(alloc, rest, limits));
    followed(Module { name, members }, Terminal::Semicolon, rest, limits)
}
