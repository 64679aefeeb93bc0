ghost use Rattle.std.specs.Prelude.{◌≡◌, ◌∷◌, ◌++◌, [], None, IfOk, OnOk};
ghost use Rattle.ooo_checked.specs.Notes.{all_notes, trees};
ghost use Rattle.ooo_checked.specs.Scopes.{entered};
ghost use Rattle.ooo_bodies.specs.Noting.{noted};
ghost use Rattle.ooo_members.specs.Declarations.{name_of};
ghost use Rattle.ooo_types.specs.Units.{channel_of, constant_item_of, constant_of, instance_of, item_of};
ghost use Rattle.ooo_types.specs.Units.{clock_of, form_notes, items_of, main_item_of, module_item_of};
ghost use Rattle.ooo_types.specs.Units.{at_first, main_items_of, main_of, option_start_form_of, parameter_of};
ghost use Rattle.ooo_types.specs.Units.{unit_of, values_of, with_name};

use crate::modules::{facts, module, params_count};
use ooo_bodies::copies::{copy_text, copy_word, kind_written, resolve};
use ooo_bodies::notes::Notes;
use ooo_checked::{
    CheckedConstant, CheckedMain, CheckedMainChannel, CheckedMainItem, CheckedMainValues,
    CheckedModule, CheckedStartForm, CheckedUnit, CheckedUnitItem, Resolved, Thing, TypeBreach,
};
use ooo_lexer::Position;
use ooo_members::args::{args, constant_time, is_instance_form};
use ooo_members::bodies::name;
use ooo_members::declarations::{channel_thing, declare, denotation, instance_thing, is_module};
use ooo_members::known::ModuleFacts;
use ooo_members::members::{PartForm, constant_named, option_args, params_of_module, reversed};
use ooo_members::setups::binding;
use ooo_scopes::Scopes;
use ooo_syntax::{
    Arg, Constant, Main, MainChannel, MainItem, MainValues, Module, StartForm, Text, TimeForm,
    Unit, UnitItem, Word,
};
use sqlite_items::Items;
use std::alloc::{AllocError, Global};

// What is known of a file's declarations.
#[derive(Drop)]
struct File {
    // Of each name that the file declares, the module that it names.
    modules: Items<Option<ModuleFacts>>,
    // Its names.
    scope: Scopes,
}

// A name as it will be declared here.
fn own(
    alloc: Global,
    outside: usize,
    thing: Thing,
    word: &Word,
    scopes: &Scopes,
) -> Result<Resolved, AllocError>
    ensures { IfOk result (λ name. name ≡ (name_of outside thing word.now scopes.now).tree) }
{
    Ok(Resolved {
        word: copy_word(alloc, word)?,
        denotes: denotation(outside, thing, scopes),
    })
}

// What was made, once its name is declared behind it.
fn declared<T: Drop>(
    made: T,
    outside: usize,
    thing: Thing,
    word: &Word,
    scopes: &mut Scopes,
    notes: &mut Notes,
) -> Result<T, AllocError>
    ensures same { IfOk result (λ same. same ≡ made) }
    ensures scope { OnOk result (scopes.new ≡ (name_of outside thing word.now scopes.old).scope) }
    ensures notes { OnOk result (notes.new
        ≡ noted notes.old (name_of outside thing word.now scopes.old).notes) }
{
    match declare(outside, thing, word, scopes, notes) {
        Ok(()) => Ok(made),
        Err(error) => {
            drop(made);
            Err(error)
        }
    }
}

// A constant.
#[tactic(auto, using(ooo_bodies::specs::Noting::noted_append))]
fn constant(
    alloc: Global,
    outside: usize,
    thing: Thing,
    constant: &Constant,
    scopes: &mut Scopes,
    notes: &mut Notes,
) -> Result<CheckedConstant, AllocError>
    ensures tree { IfOk result (λ tree.
        tree ≡ (constant_of outside thing constant.now scopes.old).tree) }
    ensures scope { OnOk result (scopes.new
        ≡ (constant_of outside thing constant.now scopes.old).scope) }
    ensures notes { OnOk result (notes.new
        ≡ noted notes.old (constant_of outside thing constant.now scopes.old).notes) }
{
    let name = got!(own(alloc, outside, thing, &constant.name, scopes));
    let tree = got!(constant_named(alloc, name, constant, scopes, notes));
    declared(tree, outside, thing, &constant.name, scopes, notes)
}

// What is known of a file behind one name more.
fn add_name(file: &mut File, facts: Option<ModuleFacts>) -> Result<(), AllocError>
    ensures modules { OnOk result (file.new.modules ≡ file.old.modules ++ facts ∷ []) }
    ensures scope { OnOk result (file.new.scope ≡ file.old.scope) }
{
    file.modules.push(facts)
}

// What is known of a file behind a name of another thing.
fn add_nothing(file: &mut File) -> Result<(), AllocError>
    ensures { OnOk result (file.new ≡ with_name None file.old.scope file.old) }
{
    add_name(file, None)
}

// A constant of the file.
fn constant_item(
    alloc: Global,
    file: &mut File,
    declared_constant: &Constant,
    notes: &mut Notes,
) -> Result<CheckedConstant, AllocError>
    ensures tree { IfOk result (λ tree.
        tree ≡ (constant_item_of declared_constant.now file.old).tree) }
    ensures behind { OnOk result (file.new
        ≡ (constant_item_of declared_constant.now file.old).behind) }
    ensures notes { OnOk result (notes.new
        ≡ noted notes.old (constant_item_of declared_constant.now file.old).notes) }
{
    let thing = Thing::FileConstant(kind_written(declared_constant.form.form));
    let tree = got!(constant(alloc, 0, thing, declared_constant, &mut file.scope, notes));
    keeping!(tree; add_nothing(file));
    Ok(tree)
}

// A module of the file.
#[tactic(auto, using(ooo_bodies::specs::Noting::noted_append))]
fn module_item(
    alloc: Global,
    file: &mut File,
    declared_module: Module,
    notes: &mut Notes,
) -> Result<CheckedModule, AllocError>
    ensures tree { IfOk result (λ tree. tree ≡ (module_item_of declared_module file.old).tree) }
    ensures behind { OnOk result (file.new ≡ (module_item_of declared_module file.old).behind) }
    ensures notes { OnOk result (notes.new
        ≡ noted notes.old (module_item_of declared_module file.old).notes) }
{
    let facts = keeping!(declared_module; facts(alloc, &declared_module));
    let word = keeping!(declared_module, facts; copy_word(alloc, &declared_module.name));
    let thing = Thing::Module(params_count(declared_module.members.as_slice()));
    let name = keeping!(
        declared_module, facts, word;
        own(alloc, 0, thing, &word, &file.scope)
    );
    let modules = file.modules.as_slice();
    let tree = keeping!(
        facts, word;
        module(alloc, modules, name, declared_module, &mut file.scope, notes)
    );
    let tree = keeping!(facts, word; declared(tree, 0, thing, &word, &mut file.scope, notes));
    drop(word);
    keeping!(tree; add_name(file, Some(facts)));
    Ok(tree)
}

// A declaration of the file.
fn item(
    alloc: Global,
    file: &mut File,
    declared_item: UnitItem,
    notes: &mut Notes,
) -> Result<CheckedUnitItem, AllocError>
    ensures tree { IfOk result (λ tree. tree ≡ (item_of declared_item file.old).tree) }
    ensures behind { OnOk result (file.new ≡ (item_of declared_item file.old).behind) }
    ensures notes { OnOk result (notes.new
        ≡ noted notes.old (item_of declared_item file.old).notes) }
{
    match declared_item {
        UnitItem::Using(library) => Ok(CheckedUnitItem::Using(library)),
        UnitItem::Constant(c) => {
            let tree = constant_item(alloc, file, &c, notes);
            drop(c);
            Ok(CheckedUnitItem::Constant(got!(tree)))
        }
        UnitItem::Module(m) => {
            let m = got!(module_item(alloc, file, m, notes));
            Ok(CheckedUnitItem::Module(m))
        }
    }
}

// The declarations of the file one after the other. Each is let go as soon as it is read.
fn items(
    alloc: Global,
    file: &mut File,
    items: Items<UnitItem>,
    notes: &mut Notes,
) -> Result<Items<CheckedUnitItem>, AllocError>
    ensures trees { IfOk result (λ all. all ≡ (items_of items file.old).tree) }
    ensures behind { OnOk result (file.new ≡ (items_of items file.old).behind) }
    ensures notes { OnOk result (notes.new
        ≡ noted notes.old (items_of items file.old).notes) }
{
    let mut rest = got!(reversed(alloc, items));
    let mut all = Items::new(alloc);
    'parts: while let Some(e) = rest.pop() {
        let item = keeping!(rest, all; item(alloc, file, e, notes));
        keeping!(rest, all; all.push(item));
    }
    Ok(all)
}

// A channel of `sc_main`.
#[tactic(auto, using(ooo_bodies::specs::Noting::noted_append))]
fn channel(
    alloc: Global,
    outside: usize,
    channel: &MainChannel,
    scopes: &mut Scopes,
    notes: &mut Notes,
) -> Result<CheckedMainChannel, AllocError>
    ensures tree { IfOk result (λ tree.
        tree ≡ (channel_of outside channel.now scopes.old).tree) }
    ensures scope { OnOk result (scopes.new ≡ (channel_of outside channel.now scopes.old).scope) }
    ensures notes { OnOk result (notes.new
        ≡ noted notes.old (channel_of outside channel.now scopes.old).notes) }
{
    let thing = channel_thing(channel.channel, kind_written(channel.form.form));
    let name = got!(own(alloc, outside, thing, &channel.name, scopes));
    let form = PartForm {
        thing,
        params: None,
    };
    let args = keeping!(
        name;
        option_args(alloc, form, &channel.name, &channel.args, scopes, notes)
    );
    let tree = CheckedMainChannel {
        channel: channel.channel,
        form: channel.form,
        name,
        args,
    };
    declared(tree, outside, thing, &channel.name, scopes, notes)
}

// Notes an instance: its module, and the form of its arguments.
#[tactic(auto, using(ooo_bodies::specs::Noting::noted_append))]
fn note_instance(module_name: &Resolved, word: &Word, args: &[Arg], notes: &mut Notes)
    ensures { notes.new ≡ noted notes.old (form_notes module_name.now word.now args.now) }
{
    let thing = module_name.denotes.thing;
    notes.name(thing, is_module(thing), module_name.word.position);
    let has_form = is_instance_form(params_of_module(thing), args);
    notes.breaks_when(!has_form, TypeBreach::WrongCount, word.position);
}

// An instance of a module.
#[tactic(auto, using(ooo_bodies::specs::Noting::noted_append))]
fn instance(
    alloc: Global,
    outside: usize,
    module_word: &Word,
    word: &Word,
    given: &Items<Arg>,
    scopes: &mut Scopes,
    notes: &mut Notes,
) -> Result<CheckedMainItem, AllocError>
    ensures tree { IfOk result (λ tree. tree
        ≡ (instance_of outside module_word.now word.now given.now scopes.old).tree) }
    ensures scope { OnOk result (scopes.new
        ≡ (instance_of outside module_word.now word.now given.now scopes.old).scope) }
    ensures notes { OnOk result (notes.new ≡ noted notes.old
        (instance_of outside module_word.now word.now given.now scopes.old).notes) }
{
    let module = got!(resolve(alloc, scopes, module_word));
    let thing = instance_thing(module.denotes, scopes);
    let name = keeping!(module; own(alloc, outside, thing, word, scopes));
    note_instance(&module, word, given.as_slice(), notes);
    let args = keeping!(module, name; args(alloc, given, scopes, notes));
    let tree = CheckedMainItem::Instance(module, name, args);
    declared(tree, outside, thing, word, scopes, notes)
}

// A clock of `sc_main`.
#[tactic(auto, using(ooo_bodies::specs::Noting::noted_append))]
fn clock(
    alloc: Global,
    outside: usize,
    at: Position,
    word: &Word,
    text: &Text,
    period: &TimeForm,
    scopes: &mut Scopes,
    notes: &mut Notes,
) -> Result<CheckedMainItem, AllocError>
    ensures tree { IfOk result (λ tree. tree
        ≡ (clock_of outside at word.now text.now period.now scopes.old).tree) }
    ensures scope { OnOk result (scopes.new
        ≡ (clock_of outside at word.now text.now period.now scopes.old).scope) }
    ensures notes { OnOk result (notes.new ≡ noted notes.old
        (clock_of outside at word.now text.now period.now scopes.old).notes) }
{
    let name = got!(own(alloc, outside, Thing::Clock, word, scopes));
    let text = keeping!(name; copy_text(alloc, text));
    let time = keeping!(name, text; constant_time(alloc, period, scopes, notes));
    let tree = CheckedMainItem::Clock(at, name, text, time);
    declared(tree, outside, Thing::Clock, word, scopes, notes)
}

// A declaration or a binding of `sc_main`.
fn main_item(
    alloc: Global,
    modules: &[Option<ModuleFacts>],
    outside: usize,
    item: &MainItem,
    scopes: &mut Scopes,
    notes: &mut Notes,
) -> Result<CheckedMainItem, AllocError>
    ensures tree { IfOk result (λ tree.
        tree ≡ (main_item_of modules.now outside item.now scopes.old).tree) }
    ensures scope { OnOk result (scopes.new
        ≡ (main_item_of modules.now outside item.now scopes.old).scope) }
    ensures notes { OnOk result (notes.new
        ≡ noted notes.old (main_item_of modules.now outside item.now scopes.old).notes) }
{
    match item {
        MainItem::Constant(c) => {
            let thing = Thing::MainConstant(kind_written(c.form.form));
            let c = got!(constant(alloc, outside, thing, c, scopes, notes));
            Ok(CheckedMainItem::Constant(c))
        }
        MainItem::Channel(c) => {
            let c = got!(channel(alloc, outside, c, scopes, notes));
            Ok(CheckedMainItem::Channel(c))
        }
        MainItem::Clock(at, word, text, period) => {
            clock(alloc, outside, *at, word, text, period.get(), scopes, notes)
        }
        MainItem::Instance(module_word, word, given) => {
            instance(alloc, outside, module_word, word, given, scopes, notes)
        }
        MainItem::Bind(b) => {
            let b = got!(binding(alloc, modules, b, scopes, notes));
            Ok(CheckedMainItem::Bind(b))
        }
    }
}

// The declarations and bindings of `sc_main` one after the other.
fn main_items(
    alloc: Global,
    modules: &[Option<ModuleFacts>],
    outside: usize,
    items: &Items<MainItem>,
    scopes: &mut Scopes,
    notes: &mut Notes,
) -> Result<Items<CheckedMainItem>, AllocError>
    ensures trees { IfOk result (λ all.
        all ≡ (main_items_of modules.now outside items.now scopes.old).tree) }
    ensures scope { OnOk result (scopes.new
        ≡ (main_items_of modules.now outside items.now scopes.old).scope) }
    ensures notes { OnOk result (notes.new
        ≡ noted notes.old (main_items_of modules.now outside items.now scopes.old).notes) }
{
    let mut all = Items::new(alloc);
    'parts: for e in items.as_slice() {
        let item = keeping!(all; main_item(alloc, modules, outside, e, scopes, notes));
        keeping!(all; all.push(item));
    }
    Ok(all)
}

// What `sc_start` is given, if it is called.
fn option_start_form(
    alloc: Global,
    begins: &Option<StartForm>,
    scopes: &Scopes,
    notes: &mut Notes,
) -> Result<Option<CheckedStartForm>, AllocError>
    ensures tree { IfOk result (λ tree.
        tree ≡ (option_start_form_of begins.now scopes.now).tree) }
    ensures notes { OnOk result (notes.new
        ≡ noted notes.old (option_start_form_of begins.now scopes.now).notes) }
{
    match begins {
        None => Ok(None),
        Some(StartForm::Open(at)) => Ok(Some(CheckedStartForm::Open(*at))),
        Some(StartForm::Limited(at, time)) => {
            let time = constant_time(alloc, time.get(), scopes, notes)?;
            Ok(Some(CheckedStartForm::Limited(*at, time)))
        }
    }
}

// A parameter of `sc_main`, if it has a name.
fn parameter(
    alloc: Global,
    outside: usize,
    word: &Option<Word>,
    scopes: &mut Scopes,
    notes: &mut Notes,
) -> Result<Option<Resolved>, AllocError>
    ensures tree { IfOk result (λ tree. tree ≡ (parameter_of outside word.now scopes.old).tree) }
    ensures scope { OnOk result (scopes.new ≡ (parameter_of outside word.now scopes.old).scope) }
    ensures notes { OnOk result (notes.new
        ≡ noted notes.old (parameter_of outside word.now scopes.old).notes) }
{
    match word {
        None => Ok(None),
        Some(word) => {
            let name = name(alloc, outside, Thing::MainArgument, word, scopes, notes)?;
            Ok(Some(name))
        }
    }
}

// The second parameter of `sc_main`.
fn values(
    alloc: Global,
    outside: usize,
    form: &MainValues,
    scopes: &mut Scopes,
    notes: &mut Notes,
) -> Result<CheckedMainValues, AllocError>
    ensures tree { IfOk result (λ tree. tree ≡ (values_of outside form.now scopes.old).tree) }
    ensures scope { OnOk result (scopes.new ≡ (values_of outside form.now scopes.old).scope) }
    ensures notes { OnOk result (notes.new
        ≡ noted notes.old (values_of outside form.now scopes.old).notes) }
{
    match form {
        MainValues::Array(word) => {
            let word = parameter(alloc, outside, word, scopes, notes)?;
            Ok(CheckedMainValues::Array(word))
        }
        MainValues::Pointer(word) => {
            let word = parameter(alloc, outside, word, scopes, notes)?;
            Ok(CheckedMainValues::Pointer(word))
        }
    }
}

// `sc_main`, behind the file.
#[tactic(auto, using(ooo_bodies::specs::Noting::noted_append))]
fn main(
    alloc: Global,
    file: &mut File,
    main: &Main,
    notes: &mut Notes,
) -> Result<CheckedMain, AllocError>
    ensures tree { IfOk result (λ tree. tree ≡ (main_of main.now file.old).tree) }
    ensures notes { OnOk result (notes.new ≡ noted notes.old (main_of main.now file.old).notes) }
{
    let outside = file.scope.size();
    got!(file.scope.enter());
    let count = got!(parameter(alloc, outside, &main.count, &mut file.scope, notes));
    let values = keeping!(count; values(alloc, outside, &main.values, &mut file.scope, notes));
    let outside = file.scope.size();
    keeping!(count, values; file.scope.enter());
    let modules = file.modules.as_slice();
    let items = keeping!(
        count, values;
        main_items(alloc, modules, outside, &main.items, &mut file.scope, notes)
    );
    let start = keeping!(
        count, values, items;
        option_start_form(alloc, &main.start, &file.scope, notes)
    );
    Ok(CheckedMain {
        count,
        values,
        items,
        start,
        returned: main.returned,
    })
}

/// A whole text with what its names denote; what is noted of it is kept.
///
/// # Errors
///
/// Only where memory runs out.
#[tactic(auto, using(ooo_bodies::specs::Noting::noted_append))]
pub(crate) fn unit(alloc: Global, unit: Unit, notes: &mut Notes) -> Result<CheckedUnit, AllocError>
    ensures tree { IfOk result (λ tree. tree ≡ (unit_of unit).tree) }
    ensures notes { OnOk result (notes.new ≡ noted notes.old (unit_of unit).notes) }
{
    let Unit {
        items: declared,
        main: last,
    } = unit;
    let mut scope = Scopes::new(alloc);
    keeping!(declared, last, scope; scope.enter());
    let modules = Items::new(alloc);
    let mut file = File { modules, scope };
    let items = keeping!(last, file; items(alloc, &mut file, declared, notes));
    let main = keeping!(last, file, items; main(alloc, &mut file, &last, notes));
    drop(last);
    drop(file);
    Ok(CheckedUnit { items, main })
}
