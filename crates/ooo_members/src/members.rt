ghost use Rattle.std.specs.Prelude.{◌≡◌, ◌++◌, map, reverse, IfOk, OnOk};
ghost use Rattle.ooo_syntax.specs.declared.module.Field.{Field};
ghost use Rattle.ooo_syntax.specs.declared.module.Part.{Part};
ghost use Rattle.ooo_checked.specs.Notes.{all_notes, trees};
ghost use Rattle.ooo_bodies.specs.Noting.{noted};
ghost use Rattle.ooo_members.specs.Members.{channels_of, child_of, children_of, constant_named, field_form_of, field_of};
ghost use Rattle.ooo_members.specs.Members.{fields_of, functions_in, functions_of, has_params, lacks_arguments, member_of};
ghost use Rattle.ooo_members.specs.Members.{members_of, names_of, option_args, params_of_module, part_notes, part_of};
ghost use Rattle.ooo_members.specs.Members.{parts_of, ports_of};

use crate::args::{args, constant, is_form_of};
use crate::bodies::known_function;
use crate::declarations::{channel_thing, instance_thing, is_module};
use crate::known::{FunctionFacts, Sofar, Surroundings};
use ooo_bodies::copies::{copy_word, kind_written, resolve};
use ooo_bodies::notes::Notes;
use ooo_checked::{
    CheckedArg, CheckedChannels, CheckedChildren, CheckedConstant, CheckedField, CheckedFieldForm,
    CheckedFields, CheckedMember, CheckedPart, CheckedPorts, Resolved, Thing, TypeBreach,
};
use ooo_scopes::Scopes;
use ooo_syntax::{
    Arg, Channels, Children, Constant, Field, FieldForm, Fields, Member, Part, Ports, Word,
};
use sqlite_items::Items;
use std::alloc::{AllocError, Global};

/// A constant with its name.
///
/// # Errors
///
/// Only where memory runs out; what was noted until then is kept.
pub fn constant_named(
    alloc: Global,
    name: Resolved,
    declared: &Constant,
    scopes: &Scopes,
    notes: &mut Notes,
) -> Result<CheckedConstant, AllocError>
    ensures tree { IfOk result (λ tree.
        tree ≡ (constant_named name declared.now scopes.now).tree) }
    ensures notes { OnOk result (notes.new
        ≡ noted notes.old (constant_named name declared.now scopes.now).notes) }
{
    let value = keeping!(name; constant(alloc, declared.value.get(), scopes, notes));
    Ok(CheckedConstant {
        is_static: declared.is_static,
        form: declared.form,
        name,
        value,
    })
}

// Ports, with what their names denote.
fn ports(alloc: Global, declared: &Ports, scopes: &Scopes) -> Result<CheckedPorts, AllocError>
    ensures { IfOk result (λ p. p ≡ ports_of declared.now scopes.now) }
{
    Ok(CheckedPorts {
        port: declared.port,
        form: declared.form,
        names: names(alloc, &declared.names, scopes)?,
    })
}

// What stands behind a field's name.
fn field_form(
    alloc: Global,
    form: &FieldForm,
    scopes: &Scopes,
    notes: &mut Notes,
) -> Result<CheckedFieldForm, AllocError>
    ensures tree { IfOk result (λ tree. tree ≡ (field_form_of form.now scopes.now).tree) }
    ensures notes { OnOk result (notes.new
        ≡ noted notes.old (field_form_of form.now scopes.now).notes) }
{
    match form {
        FieldForm::Plain => Ok(CheckedFieldForm::Plain),
        FieldForm::Length(e) => {
            with_part!(length = constant(alloc, e.get(), scopes, notes); CheckedFieldForm::Length(length))
        }
        FieldForm::Value(e) => {
            with_part!(value = constant(alloc, e.get(), scopes, notes); CheckedFieldForm::Value(value))
        }
    }
}

// A field.
fn field(
    alloc: Global,
    field: &Field,
    scopes: &Scopes,
    notes: &mut Notes,
) -> Result<CheckedField, AllocError>
    ensures tree { IfOk result (λ tree. tree ≡ (field_of field.now scopes.now).tree) }
    ensures notes { OnOk result (notes.new
        ≡ noted notes.old (field_of field.now scopes.now).notes) }
{
    let name = resolve(alloc, scopes, &field.name)?;
    let form = keeping!(name; field_form(alloc, &field.form, scopes, notes));
    Ok(CheckedField { name, form })
}

// A declaration of fields.
fn fields(
    alloc: Global,
    fields: &Fields,
    scopes: &Scopes,
    notes: &mut Notes,
) -> Result<CheckedFields, AllocError>
    ensures tree { IfOk result (λ tree. tree ≡ (fields_of fields.now scopes.now).tree) }
    ensures notes { OnOk result (notes.new
        ≡ noted notes.old (fields_of fields.now scopes.now).notes) }
{
    let all = field_list(alloc, &fields.fields, scopes, notes)?;
    Ok(CheckedFields {
        is_const: fields.is_const,
        form: fields.form,
        fields: all,
    })
}

// Fields one after the other.
fn field_list(
    alloc: Global,
    fields: &Items<Field>,
    scopes: &Scopes,
    notes: &mut Notes,
) -> Result<Items<CheckedField>, AllocError>
    ensures trees { IfOk result (λ all.
        all ≡ trees (map (λ (x : Field). field_of x scopes.now) fields.now)) }
    ensures notes { OnOk result (notes.new ≡ noted notes.old
        (all_notes (map (λ (x : Field). field_of x scopes.now) fields.now))) }
{
    let mut all = Items::new(alloc);
    'parts: for e in fields.as_slice() {
        let made = keeping!(all; field(alloc, e, scopes, notes));
        keeping!(all; all.push(made));
    }
    Ok(all)
}

// Names with what they denote.
fn names(alloc: Global, words: &Items<Word>, scopes: &Scopes) -> Result<Items<Resolved>, AllocError>
    ensures { IfOk result (λ all. all ≡ names_of words.now scopes.now) }
{
    let mut all = Items::new(alloc);
    'parts: for e in words.as_slice() {
        let made = keeping!(all; resolve(alloc, scopes, e));
        keeping!(all; all.push(made));
    }
    Ok(all)
}

/// What a part is, and how many parameters the constructor of its module has, if it is an instance of a known one.
#[derive(Clone, Copy)]
pub struct PartForm {
    pub thing: Thing,
    pub params: Option<usize>,
}

/// The arguments of a part of this form, if it has some.
///
/// # Errors
///
/// Only where memory runs out; what was noted until then is kept.
#[tactic(auto, using(ooo_bodies::specs::Noting::noted_append))]
pub fn option_args(
    alloc: Global,
    form: PartForm,
    word: &Word,
    given: &Option<Items<Arg>>,
    scopes: &Scopes,
    notes: &mut Notes,
) -> Result<Option<Items<CheckedArg>>, AllocError>
    ensures tree { IfOk result (λ tree. tree ≡ option_args given.now scopes.now) }
    ensures notes { OnOk result (notes.new
        ≡ noted notes.old (part_notes form.thing form.params word.now given.now scopes.now)) }
{
    match given {
        None => Ok(None),
        Some(given) => {
            let has_form = is_form_of(form.thing, form.params, given.as_slice());
            notes.breaks_when(!has_form, TypeBreach::WrongCount, word.position);
            let all = args(alloc, given, scopes, notes)?;
            Ok(Some(all))
        }
    }
}

// A part of this form.
fn part(
    alloc: Global,
    form: PartForm,
    part: &Part,
    scopes: &Scopes,
    notes: &mut Notes,
) -> Result<CheckedPart, AllocError>
    ensures tree { IfOk result (λ tree.
        tree ≡ (part_of form.thing form.params part.now scopes.now).tree) }
    ensures notes { OnOk result (notes.new
        ≡ noted notes.old (part_of form.thing form.params part.now scopes.now).notes) }
{
    let name = resolve(alloc, scopes, &part.name)?;
    let args = keeping!(name; option_args(alloc, form, &part.name, &part.args, scopes, notes));
    Ok(CheckedPart { name, args })
}

// Parts of this form.
fn parts(
    alloc: Global,
    form: PartForm,
    parts: &Items<Part>,
    scopes: &Scopes,
    notes: &mut Notes,
) -> Result<Items<CheckedPart>, AllocError>
    ensures trees { IfOk result (λ all.
        all ≡ trees (parts_of form.thing form.params parts.now scopes.now)) }
    ensures notes { OnOk result (notes.new
        ≡ noted notes.old (all_notes (parts_of form.thing form.params parts.now scopes.now))) }
{
    let mut all = Items::new(alloc);
    'parts: for e in parts.as_slice() {
        let made = keeping!(all; part(alloc, form, e, scopes, notes));
        keeping!(all; all.push(made));
    }
    Ok(all)
}

// A declaration of channels.
fn channels(
    alloc: Global,
    channels: &Channels,
    scopes: &Scopes,
    notes: &mut Notes,
) -> Result<CheckedChannels, AllocError>
    ensures tree { IfOk result (λ tree. tree ≡ (channels_of channels.now scopes.now).tree) }
    ensures notes { OnOk result (notes.new
        ≡ noted notes.old (channels_of channels.now scopes.now).notes) }
{
    let thing = channel_thing(channels.channel, kind_written(channels.form.form));
    let form = PartForm {
        thing,
        params: None,
    };
    let all = parts(alloc, form, &channels.parts, scopes, notes)?;
    Ok(CheckedChannels {
        channel: channels.channel,
        form: channels.form,
        parts: all,
    })
}

/// How many parameters a module's constructor has, if the thing is a module.
pub fn params_of_module(thing: Thing) -> Option<usize>
    ensures { result ≡ params_of_module thing }
{
    match thing {
        Thing::Module(params) => Some(params),
        _ => None,
    }
}

// Whether there are parameters.
fn has_params(params: Option<usize>) -> bool
    ensures { result ≡ has_params params }
{
    match params {
        Some(params) => params != 0,
        None => false,
    }
}

// Whether a child lacks its arguments.
fn lacks_arguments(initialised: &Scopes, params: Option<usize>, part: &Part) -> bool
    ensures { result ≡ lacks_arguments initialised.now params part.now }
{
    has_params(params)
        && part.args.is_none()
        && !initialised.is_declared_here(part.name.name.as_bytes())
}

// A child of this form.
#[tactic(auto, using(ooo_bodies::specs::Noting::noted_append))]
fn child(
    alloc: Global,
    initialised: &Scopes,
    form: PartForm,
    declared: &Part,
    scopes: &Scopes,
    notes: &mut Notes,
) -> Result<CheckedPart, AllocError>
    ensures tree { IfOk result (λ tree.
        tree ≡ (child_of initialised.now form.thing form.params declared.now scopes.now).tree) }
    ensures notes { OnOk result (notes.new ≡ noted notes.old
        (child_of initialised.now form.thing form.params declared.now scopes.now).notes) }
{
    let tree = part(alloc, form, declared, scopes, notes)?;
    let is_lacking = lacks_arguments(initialised, form.params, declared);
    notes.breaks_when(is_lacking, TypeBreach::WrongCount, declared.name.position);
    Ok(tree)
}

// Children of this form one after the other.
fn child_list(
    alloc: Global,
    initialised: &Scopes,
    form: PartForm,
    parts: &Items<Part>,
    scopes: &Scopes,
    notes: &mut Notes,
) -> Result<Items<CheckedPart>, AllocError>
    ensures trees { IfOk result (λ all. all ≡ trees (map (λ (p : Part).
        child_of initialised.now form.thing form.params p scopes.now) parts.now)) }
    ensures notes { OnOk result (notes.new ≡ noted notes.old (all_notes (map (λ (p : Part).
        child_of initialised.now form.thing form.params p scopes.now) parts.now))) }
{
    let mut all = Items::new(alloc);
    'parts: for e in parts.as_slice() {
        let made = keeping!(all; child(alloc, initialised, form, e, scopes, notes));
        keeping!(all; all.push(made));
    }
    Ok(all)
}

// Children of a module.
#[tactic(auto, using(ooo_bodies::specs::Noting::noted_append))]
fn children(
    alloc: Global,
    initialised: &Scopes,
    children: &Children,
    scopes: &Scopes,
    notes: &mut Notes,
) -> Result<CheckedChildren, AllocError>
    ensures tree { IfOk result (λ tree.
        tree ≡ (children_of initialised.now children.now scopes.now).tree) }
    ensures notes { OnOk result (notes.new
        ≡ noted notes.old (children_of initialised.now children.now scopes.now).notes) }
{
    let module_name = resolve(alloc, scopes, &children.module_name)?;
    let thing = module_name.denotes.thing;
    notes.name(thing, is_module(thing), children.module_name.position);
    let form = PartForm {
        thing: instance_thing(module_name.denotes, scopes),
        params: params_of_module(thing),
    };
    let parts =
        keeping!(module_name; child_list(alloc, initialised, form, &children.parts, scopes, notes));
    Ok(CheckedChildren { module_name, parts })
}

/// The same items, the last one first.
///
/// # Errors
///
/// Only where memory runs out.
pub fn reversed<T: Drop>(alloc: Global, items: Items<T>) -> Result<Items<T>, AllocError>
    ensures { IfOk result (λ all. all ≡ reverse items) }
{
    let mut left = items;
    let mut all = Items::new(alloc);
    'parts: while let Some(item) = left.pop() {
        keeping!(all, left; all.push(item));
    }
    drop(left);
    Ok(all)
}

// What was made of a member's parts, as a member of that form.
macro_rules! as_member {
    ($form:ident; $made:expr) => {
        match $made {
            Ok(made) => Ok(CheckedMember::$form(made)),
            Err(error) => Err(error),
        }
    };
}

impl Surroundings<'_> {
    /// A member, behind others. A function is added to those that are known, with what has to be known of it.
    ///
    /// # Errors
    ///
    /// Only where memory runs out; what was noted until then is kept.
    #[tactic(auto, using(ooo_bodies::specs::Noting::noted_append))]
    pub fn member(
        self,
        declared: &Member,
        scopes: &mut Scopes,
        sofar: &mut Sofar,
        functions: &mut Items<FunctionFacts>,
        notes: &mut Notes,
    ) -> Result<CheckedMember, AllocError>
        ensures tree { IfOk result (λ tree. tree ≡ (member_of self.entry.modules.now
            self.entry.module_name.now self.entry.initialised.now
            scopes.old declared.now sofar.old).tree) }
        ensures behind { OnOk result (sofar.new ≡ (member_of self.entry.modules.now
            self.entry.module_name.now self.entry.initialised.now
            scopes.old declared.now sofar.old).behind) }
        ensures notes { OnOk result (notes.new ≡ noted notes.old (member_of
            self.entry.modules.now self.entry.module_name.now self.entry.initialised.now
            scopes.old declared.now sofar.old).notes) }
        ensures scope { OnOk result (scopes.new ≡ scopes.old) }
        ensures functions { OnOk result (functions.new
            ≡ functions.old ++ functions_in declared.now scopes.old) }
    {
        let alloc = self.alloc;
        match declared {
            Member::Public => Ok(CheckedMember::Public),
            Member::Constant(c) => {
                let name = resolve(alloc, scopes, &c.name)?;
                as_member!(Constant; constant_named(alloc, name, c, scopes, notes))
            }
            Member::HasProcess(word) => {
                let is_named_so = word.name.as_bytes() == self.module_name;
                notes.breaks_when(!is_named_so, TypeBreach::WrongKind, word.position);
                as_member!(HasProcess; copy_word(alloc, word))
            }
            Member::Fields(f) => as_member!(Fields; fields(alloc, f, scopes, notes)),
            Member::Ports(p) => as_member!(Ports; ports(alloc, p, scopes)),
            Member::Clocks(words) => as_member!(Clocks; names(alloc, words, scopes)),
            Member::Channels(c) => as_member!(Channels; channels(alloc, c, scopes, notes)),
            Member::Events(words) => as_member!(Events; names(alloc, words, scopes)),
            Member::Children(c) => {
                as_member!(Children; children(alloc, self.initialised, c, scopes, notes))
            }
            Member::Function(f) => {
                as_member!(Function; known_function(alloc, f, scopes, functions, notes))
            }
            Member::Constructor(c) => {
                as_member!(Constructor; self.constructor(c, scopes, sofar, notes))
            }
        }
    }

    // A member, which is let go.
    fn taken(
        self,
        declared: Member,
        scopes: &mut Scopes,
        sofar: &mut Sofar,
        functions: &mut Items<FunctionFacts>,
        notes: &mut Notes,
    ) -> Result<CheckedMember, AllocError>
        ensures tree { IfOk result (λ tree. tree ≡ (member_of self.entry.modules.now
            self.entry.module_name.now self.entry.initialised.now
            scopes.old declared sofar.old).tree) }
        ensures behind { OnOk result (sofar.new ≡ (member_of self.entry.modules.now
            self.entry.module_name.now self.entry.initialised.now
            scopes.old declared sofar.old).behind) }
        ensures notes { OnOk result (notes.new ≡ noted notes.old (member_of
            self.entry.modules.now self.entry.module_name.now self.entry.initialised.now
            scopes.old declared sofar.old).notes) }
        ensures scope { OnOk result (scopes.new ≡ scopes.old) }
        ensures functions { OnOk result (functions.new
            ≡ functions.old ++ functions_in declared scopes.old) }
    {
        let made = self.member(&declared, scopes, sofar, functions, notes);
        drop(declared);
        made
    }

    /// Members one after the other. Each is let go as soon as it is read, so that the next tree takes its memory.
    ///
    /// # Errors
    ///
    /// Only where memory runs out; what was noted until then is kept.
    pub fn members(
        self,
        members: Items<Member>,
        scopes: &mut Scopes,
        sofar: &mut Sofar,
        functions: &mut Items<FunctionFacts>,
        notes: &mut Notes,
    ) -> Result<Items<CheckedMember>, AllocError>
        ensures trees { IfOk result (λ all. all ≡ (members_of self.entry.modules.now
            self.entry.module_name.now self.entry.initialised.now
            scopes.old members sofar.old).tree) }
        ensures behind { OnOk result (sofar.new ≡ (members_of self.entry.modules.now
            self.entry.module_name.now self.entry.initialised.now
            scopes.old members sofar.old).behind) }
        ensures notes { OnOk result (notes.new ≡ noted notes.old (members_of
            self.entry.modules.now self.entry.module_name.now self.entry.initialised.now
            scopes.old members sofar.old).notes) }
        ensures scope { OnOk result (scopes.new ≡ scopes.old) }
        ensures functions { OnOk result (functions.new
            ≡ functions.old ++ functions_of members scopes.old) }
    {
        let mut rest = reversed(self.alloc, members)?;
        let mut all = Items::new(self.alloc);
        'parts: while let Some(e) = rest.pop() {
            let made = keeping!(all, rest; self.taken(e, scopes, sofar, functions, notes));
            keeping!(all, rest; all.push(made));
        }
        drop(rest);
        Ok(all)
    }
}
