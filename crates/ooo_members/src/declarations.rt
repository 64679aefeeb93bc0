ghost use Rattle.std.specs.Prelude.{◌≡◌, OnOk};
ghost use Rattle.ooo_checked.specs.Scopes.{left};
ghost use Rattle.ooo_bodies.specs.Noting.{noted};
ghost use Rattle.ooo_members.specs.Declarations.{channel_thing, denotation_of, field_thing, fields_of, instance_thing};
ghost use Rattle.ooo_members.specs.Declarations.{is_module, member_names};
ghost use Rattle.ooo_members.specs.Declarations.{members_names, name_of, parts_of, port_thing, result_of, words_of};

use ooo_bodies::copies::kind_written;
use ooo_bodies::notes::Notes;
use ooo_checked::{Denotation, Direction, Thing, TypeBreach};
use ooo_scopes::Scopes;
use ooo_syntax::{ChannelWord, FieldForm, Fields, Member, Part, PortWord, ResultForm, Word};
use ooo_value::Kind;
use sqlite_items::Items;
use std::alloc::AllocError;

/// What a field is.
pub fn field_thing(is_const: bool, kind: Kind, form: &FieldForm) -> Thing
    ensures { result ≡ field_thing is_const kind form.now }
{
    match (is_const, form) {
        (true, FieldForm::Length(_)) => Thing::FixedArray(kind),
        (false, FieldForm::Length(_)) => Thing::Array(kind),
        (true, _) => Thing::Fixed(kind, false),
        (false, _) => Thing::Variable(kind),
    }
}

/// What a port is.
pub fn port_thing(port: PortWord, kind: Kind) -> Thing
    ensures { result ≡ port_thing port kind }
{
    match port {
        PortWord::In => Thing::SignalPort(Direction::In, kind),
        PortWord::Out => Thing::SignalPort(Direction::Out, kind),
        PortWord::Inout => Thing::SignalPort(Direction::Inout, kind),
        PortWord::FifoIn => Thing::FifoIn(kind),
        PortWord::FifoOut => Thing::FifoOut(kind),
    }
}

/// What a channel is.
pub fn channel_thing(channel: ChannelWord, kind: Kind) -> Thing
    ensures { result ≡ channel_thing channel kind }
{
    match channel {
        ChannelWord::Signal => Thing::Signal(kind),
        ChannelWord::Fifo => Thing::Fifo(kind),
    }
}

/// What a function gives.
pub fn result_of(form: ResultForm) -> Option<Kind>
    ensures { result ≡ result_of form }
{
    match form {
        ResultForm::Nothing => None,
        ResultForm::Value(name) => Some(kind_written(name.form)),
    }
}

/// Declares a name, and notes it where its block declares it already. What is known outside counts for no number.
///
/// # Errors
///
/// Only where memory runs out.
#[tactic(auto, using(ooo_bodies::specs::Parts::left_declared))]
pub fn declare(
    outside: usize,
    thing: Thing,
    word: &Word,
    scopes: &mut Scopes,
    notes: &mut Notes,
) -> Result<(), AllocError>
    ensures scope { OnOk result (scopes.new ≡ (name_of outside thing word.now scopes.old).scope) }
    ensures notes { OnOk result (notes.new
        ≡ noted notes.old (name_of outside thing word.now scopes.old).notes) }
    ensures outer { OnOk result (left scopes.new ≡ left scopes.old) }
{
    if scopes.is_declared_here(word.name.as_bytes()) {
        notes.breaks(TypeBreach::DeclaredTwice, word.position);
        return Ok(());
    }
    let denotes = denotation(outside, thing, scopes);
    scopes.declare(word.name.as_bytes(), denotes)
}

/// What a name denotes as it is declared.
pub fn denotation(outside: usize, thing: Thing, scopes: &Scopes) -> Denotation
    ensures { result ≡ denotation_of outside thing scopes.now }
{
    Denotation {
        thing,
        number: scopes.size().saturating_sub(outside),
    }
}

// Declares names of one thing.
fn words(
    outside: usize,
    thing: Thing,
    words: &Items<Word>,
    scopes: &mut Scopes,
    notes: &mut Notes,
) -> Result<(), AllocError>
    ensures scope { OnOk result (scopes.new ≡ (words_of outside thing words.now scopes.old).scope) }
    ensures notes { OnOk result (notes.new
        ≡ noted notes.old (words_of outside thing words.now scopes.old).notes) }
    ensures outer { OnOk result (left scopes.new ≡ left scopes.old) }
{
    'parts: for e in words.as_slice() {
        declare(outside, thing, e, scopes, notes)?;
    }
    Ok(())
}

// Declares the names of channels or children.
fn parts(
    outside: usize,
    thing: Thing,
    parts: &Items<Part>,
    scopes: &mut Scopes,
    notes: &mut Notes,
) -> Result<(), AllocError>
    ensures scope { OnOk result (scopes.new ≡ (parts_of outside thing parts.now scopes.old).scope) }
    ensures notes { OnOk result (notes.new
        ≡ noted notes.old (parts_of outside thing parts.now scopes.old).notes) }
    ensures outer { OnOk result (left scopes.new ≡ left scopes.old) }
{
    'parts: for e in parts.as_slice() {
        declare(outside, thing, &e.name, scopes, notes)?;
    }
    Ok(())
}

// Declares the names of fields.
fn fields(
    outside: usize,
    fields: &Fields,
    scopes: &mut Scopes,
    notes: &mut Notes,
) -> Result<(), AllocError>
    ensures scope { OnOk result (scopes.new ≡ (fields_of outside fields.now scopes.old).scope) }
    ensures notes { OnOk result (notes.new
        ≡ noted notes.old (fields_of outside fields.now scopes.old).notes) }
    ensures outer { OnOk result (left scopes.new ≡ left scopes.old) }
{
    let kind = kind_written(fields.form.form);
    'parts: for e in fields.fields.as_slice() {
        let thing = field_thing(fields.is_const, kind, &e.form);
        declare(outside, thing, &e.name, scopes, notes)?;
    }
    Ok(())
}

/// Whether a thing is a module.
pub fn is_module(thing: Thing) -> bool
    ensures { result ≡ is_module thing }
{
    matches!(thing, Thing::Module(_))
}

/// An instance of what a name denotes; where that is no module, of a number that no module has.
pub fn instance_thing(denotes: Denotation, scopes: &Scopes) -> Thing
    ensures { result ≡ instance_thing denotes scopes.now }
{
    if is_module(denotes.thing) {
        Thing::Instance(denotes.number)
    } else {
        Thing::Instance(scopes.size())
    }
}

/// Declares the names of a member, and notes those that the module declares already.
///
/// # Errors
///
/// Only where memory runs out.
pub fn declare_member(
    outside: usize,
    member: &Member,
    scopes: &mut Scopes,
    notes: &mut Notes,
) -> Result<(), AllocError>
    ensures scope { OnOk result (scopes.new ≡ (member_names outside member.now scopes.old).scope) }
    ensures notes { OnOk result (notes.new
        ≡ noted notes.old (member_names outside member.now scopes.old).notes) }
    ensures outer { OnOk result (left scopes.new ≡ left scopes.old) }
{
    match member {
        Member::Public | Member::HasProcess(_) | Member::Constructor(_) => Ok(()),
        Member::Constant(c) => {
            let thing = Thing::Fixed(kind_written(c.form.form), c.is_static);
            declare(outside, thing, &c.name, scopes, notes)
        }
        Member::Fields(f) => fields(outside, f, scopes, notes),
        Member::Ports(p) => {
            let thing = port_thing(p.port, kind_written(p.form.form));
            words(outside, thing, &p.names, scopes, notes)
        }
        Member::Clocks(names) => {
            let thing = Thing::SignalPort(Direction::In, Kind::Bool);
            words(outside, thing, names, scopes, notes)
        }
        Member::Channels(c) => {
            let thing = channel_thing(c.channel, kind_written(c.form.form));
            parts(outside, thing, &c.parts, scopes, notes)
        }
        Member::Events(names) => words(outside, Thing::Event, names, scopes, notes),
        Member::Children(c) => {
            let denotes = scopes.denotes(c.module_name.name.as_bytes());
            let thing = instance_thing(denotes, scopes);
            parts(outside, thing, &c.parts, scopes, notes)
        }
        Member::Function(f) => {
            let thing = Thing::Function(result_of(f.result), f.params.len());
            declare(outside, thing, &f.name, scopes, notes)
        }
    }
}

/// Declares the names of the members of a module, one member after the other.
///
/// # Errors
///
/// Only where memory runs out.
pub fn declare_members(
    outside: usize,
    members: &[Member],
    scopes: &mut Scopes,
    notes: &mut Notes,
) -> Result<(), AllocError>
    ensures scope { OnOk result (scopes.new
        ≡ (members_names outside members.now scopes.old).scope) }
    ensures notes { OnOk result (notes.new
        ≡ noted notes.old (members_names outside members.now scopes.old).notes) }
    ensures outer { OnOk result (left scopes.new ≡ left scopes.old) }
{
    'parts: for e in members {
        declare_member(outside, e, scopes, notes)?;
    }
    Ok(())
}
