ghost use Rattle.std.specs.Prelude.{◌≡◌, IfOk, OnOk};
ghost use Rattle.std.specs.Option.{option_copied};
ghost use Rattle.ooo_bodies.specs.Noting.{noted};
ghost use Rattle.ooo_members.specs.Constructors.{after_process, binding_of, in_module, is_stranger, is_variable, module_of};
ghost use Rattle.ooo_members.specs.Constructors.{port_notes, process_notes};
ghost use Rattle.ooo_members.specs.Known.{port_of};
ghost use Rattle.ooo_members.specs.Constructors.{registering, set_of, setup_of, setups_of};

use crate::args::constant_right;
use crate::known::{ModuleFacts, Sofar, module_at, port_of};
use ooo_bodies::copies::{copy_word, resolve};
use ooo_bodies::events::events;
use ooo_bodies::notes::Notes;
use ooo_checked::{CheckedBinding, CheckedSetup, Resolved, Thing, TypeBreach};
use ooo_lexer::Position;
use ooo_scopes::Scopes;
use ooo_syntax::{Binding, Expr, Setup, Word};
use ooo_value::ProcessKind;
use sqlite_items::Items;
use std::alloc::{AllocError, Global};

// The module of an instance, if it is known.
fn module_of(modules: &[Option<ModuleFacts>], thing: Thing) -> Option<&ModuleFacts>
    ensures { option_copied result ≡ module_of modules.now thing }
{
    match thing {
        Thing::Instance(number) => module_at(modules, number),
        _ => None,
    }
}

// Whether a thing is an instance of a module that is not known.
fn is_stranger(modules: &[Option<ModuleFacts>], thing: Thing) -> bool
    ensures { result ≡ is_stranger modules.now thing }
{
    match thing {
        Thing::Instance(number) => module_at(modules, number).is_none(),
        _ => false,
    }
}

// Notes the name of a port, which has to be one of the instance's module.
fn note_port(modules: &[Option<ModuleFacts>], thing: Thing, port: &Resolved, notes: &mut Notes)
    ensures { notes.new ≡ noted notes.old (port_notes modules.now thing port.now) }
{
    let is_due = thing.is_known() && !is_stranger(modules, thing);
    let is_port = port.denotes.thing.is_known();
    notes.breaks_when(is_due && !is_port, TypeBreach::NotAPort, port.word.position);
}

// The port that is bound, of the instance that a thing is.
fn port(
    alloc: Global,
    modules: &[Option<ModuleFacts>],
    thing: Thing,
    word: &Word,
) -> Result<Resolved, AllocError>
    ensures { IfOk result (λ port. port ≡ record {
      word = word.now;
      denotes = port_of (module_of modules.now thing) word.now.name;
    }) }
{
    let denotes = port_of(module_of(modules, thing), word.name.as_bytes());
    Ok(Resolved {
        word: copy_word(alloc, word)?,
        denotes,
    })
}

/// An instance, one of its ports and what the port is bound to.
///
/// # Errors
///
/// Only where memory runs out; what was noted until then is kept.
#[tactic(auto, using(ooo_bodies::specs::Noting::noted_append))]
pub fn binding(
    alloc: Global,
    modules: &[Option<ModuleFacts>],
    binding: &Binding,
    scopes: &Scopes,
    notes: &mut Notes,
) -> Result<CheckedBinding, AllocError>
    ensures tree { IfOk result (λ tree.
        tree ≡ (binding_of modules.now binding.now scopes.now).tree) }
    ensures notes { OnOk result (notes.new
        ≡ noted notes.old (binding_of modules.now binding.now scopes.now).notes) }
{
    let instance = resolve(alloc, scopes, &binding.instance)?;
    let port = keeping!(instance; port(alloc, modules, instance.denotes.thing, &binding.port));
    let channel = keeping!(instance, port; resolve(alloc, scopes, &binding.channel));
    let is_known = instance.denotes.thing.is_known();
    notes.breaks_when(
        !is_known,
        TypeBreach::UnknownName,
        binding.instance.position,
    );
    note_port(modules, instance.denotes.thing, &port, notes);
    let is_channel_known = channel.denotes.thing.is_known();
    notes.breaks_when(
        !is_channel_known,
        TypeBreach::UnknownName,
        binding.channel.position,
    );
    Ok(CheckedBinding {
        instance,
        port,
        is_by_bind: binding.is_by_bind,
        channel,
    })
}

// Notes a name that is registered as a process.
fn note_process(sofar: &Sofar, name: &Resolved, notes: &mut Notes)
    ensures { notes.new ≡ noted notes.old (process_notes sofar.now.registered name.now) }
{
    let at = name.word.position;
    match name.denotes.thing {
        Thing::Nothing => notes.breaks(TypeBreach::UnknownName, at),
        Thing::Function(None, 0) => {
            let is_again = sofar.registration_at(name.denotes.number).is_process();
            notes.breaks_when(is_again, TypeBreach::DeclaredTwice, at);
        }
        _ => notes.breaks(TypeBreach::WrongKind, at),
    }
}

// Notes what is said of the process before, where there is none.
fn note_after_process(sofar: &Sofar, at: Position, notes: &mut Notes)
    ensures { notes.new ≡ noted notes.old (after_process sofar.now at) }
{
    notes.breaks_when(!sofar.has_process, TypeBreach::WrongKind, at);
}

// Whether a thing is a variable of one value.
fn is_variable(thing: Thing) -> bool
    ensures { result ≡ is_variable thing }
{
    matches!(thing, Thing::Variable(_))
}

// A start value that a constructor gives to a variable.
#[tactic(auto, using(ooo_bodies::specs::Noting::noted_append))]
fn set(
    alloc: Global,
    word: &Word,
    e: &Expr,
    scopes: &Scopes,
    notes: &mut Notes,
) -> Result<CheckedSetup, AllocError>
    ensures tree { IfOk result (λ tree. tree ≡ (set_of word.now e.now scopes.now).tree) }
    ensures notes { OnOk result (notes.new
        ≡ noted notes.old (set_of word.now e.now scopes.now).notes) }
{
    let name = resolve(alloc, scopes, word)?;
    let thing = name.denotes.thing;
    notes.name(thing, is_variable(thing), word.position);
    let value = keeping!(name; constant_right(alloc, e, scopes, notes));
    Ok(CheckedSetup::Set(name, value))
}

// A function of the module that is registered as a process.
fn process(
    alloc: Global,
    kind: ProcessKind,
    word: &Word,
    scopes: &Scopes,
    sofar: &mut Sofar,
    notes: &mut Notes,
) -> Result<Resolved, AllocError>
    ensures tree { IfOk result (λ name. name ≡ in_module scopes.now word.now) }
    ensures behind { OnOk result (sofar.new
        ≡ registering kind (in_module scopes.now word.now) sofar.old) }
    ensures notes { OnOk result (notes.new ≡ noted notes.old
        (process_notes sofar.old.registered (in_module scopes.now word.now))) }
{
    let name = Resolved {
        word: copy_word(alloc, word)?,
        denotes: scopes.denotes_outside(word.name.as_bytes()),
    };
    note_process(sofar, &name, notes);
    sofar.register(kind, &name);
    Ok(name)
}

/// A statement of a constructor, behind others.
///
/// # Errors
///
/// Only where memory runs out; what was noted until then is kept.
#[tactic(auto, using(ooo_bodies::specs::Noting::noted_append))]
pub fn setup(
    alloc: Global,
    modules: &[Option<ModuleFacts>],
    statement: &Setup,
    scopes: &Scopes,
    sofar: &mut Sofar,
    notes: &mut Notes,
) -> Result<CheckedSetup, AllocError>
    ensures tree { IfOk result (λ tree.
        tree ≡ (setup_of modules.now scopes.now statement.now sofar.old).tree) }
    ensures behind { OnOk result (sofar.new
        ≡ (setup_of modules.now scopes.now statement.now sofar.old).behind) }
    ensures notes { OnOk result (notes.new
        ≡ noted notes.old (setup_of modules.now scopes.now statement.now sofar.old).notes) }
{
    match statement {
        Setup::Thread(at, word) => {
            with_part!(
                name = process(alloc, ProcessKind::Thread, word, scopes, sofar, notes);
                CheckedSetup::Thread(*at, name)
            )
        }
        Setup::Method(at, word) => {
            with_part!(
                name = process(alloc, ProcessKind::Method, word, scopes, sofar, notes);
                CheckedSetup::Method(*at, name)
            )
        }
        Setup::Sensitive(at, on) => {
            note_after_process(sofar, *at, notes);
            with_part!(all = events(alloc, true, on, scopes, notes); CheckedSetup::Sensitive(*at, all))
        }
        Setup::DontInitialize(at) => {
            note_after_process(sofar, *at, notes);
            Ok(CheckedSetup::DontInitialize(*at))
        }
        Setup::Bind(b) => {
            with_part!(bound = binding(alloc, modules, b, scopes, notes); CheckedSetup::Bind(bound))
        }
        Setup::Set(word, e) => set(alloc, word, e.get(), scopes, notes),
    }
}

/// Statements of a constructor one after the other.
///
/// # Errors
///
/// Only where memory runs out; what was noted until then is kept.
pub fn setups(
    alloc: Global,
    modules: &[Option<ModuleFacts>],
    statements: &Items<Setup>,
    scopes: &Scopes,
    sofar: &mut Sofar,
    notes: &mut Notes,
) -> Result<Items<CheckedSetup>, AllocError>
    ensures trees { IfOk result (λ all.
        all ≡ (setups_of modules.now scopes.now statements.now sofar.old).tree) }
    ensures behind { OnOk result (sofar.new
        ≡ (setups_of modules.now scopes.now statements.now sofar.old).behind) }
    ensures notes { OnOk result (notes.new
        ≡ noted notes.old (setups_of modules.now scopes.now statements.now sofar.old).notes) }
{
    let mut all = Items::new(alloc);
    'parts: for e in statements.as_slice() {
        let made = keeping!(all; setup(alloc, modules, e, scopes, sofar, notes));
        keeping!(all; all.push(made));
    }
    Ok(all)
}
