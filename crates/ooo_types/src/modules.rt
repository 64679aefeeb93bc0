ghost use Rattle.std.specs.Prelude.{◌≡◌, [], IfOk, OnOk, replicate};
ghost use Rattle.ooo_members.specs.Known.{not_registered};
ghost use Rattle.ooo_checked.specs.Scopes.{entered, left};
ghost use Rattle.ooo_bodies.specs.Noting.{noted};
ghost use Rattle.ooo_types.specs.Modules.{at_first, facts_of, initialised_by, inits_in, module_of, params_count};
ghost use Rattle.ooo_types.specs.Modules.{params_in, with_inits};

use crate::processes::note_functions;
use ooo_bodies::notes::Notes;
use ooo_checked::{CheckedMember, CheckedModule, Resolved};
use ooo_members::declarations::declare_members;
use ooo_members::known::{ModuleFacts, NOT_REGISTERED, Registration, Sofar, Surroundings, UNKNOWN};
use ooo_scopes::Scopes;
use ooo_syntax::{Constructor, Init, Member, Module};
use sqlite_items::Items;
use std::alloc::{AllocError, Global};

// The members that a constructor initialises.
fn inits_in(constructor: &Constructor) -> &Items<Init>
    ensures { result.now ≡ inits_in constructor.now }
{
    match constructor {
        Constructor::Named(_, inits, _) | Constructor::Written(_, _, _, inits, _) => inits,
    }
}

// Declares the names that initialisers name.
fn declare_inits(inits: &Items<Init>, scopes: &mut Scopes) -> Result<(), AllocError>
    ensures { OnOk result (scopes.new ≡ with_inits inits.now scopes.old) }
{
    'parts: for e in inits.as_slice() {
        scopes.declare(e.name.name.as_bytes(), UNKNOWN)?;
    }
    Ok(())
}

// Declares the names that the constructors among members initialise.
fn declare_initialised(members: &Items<Member>, scopes: &mut Scopes) -> Result<(), AllocError>
    ensures { OnOk result (scopes.new ≡ initialised_by members.now scopes.old) }
{
    'parts: for e in members.as_slice() {
        if let Member::Constructor(constructor) = e {
            declare_inits(inits_in(constructor), scopes)?;
        }
    }
    Ok(())
}

// How many parameters a constructor has.
fn params_in(constructor: &Constructor) -> usize
    ensures { result ≡ params_in constructor.now }
{
    match constructor {
        Constructor::Named(_, _, _) => 0,
        Constructor::Written(_, _, params, _, _) => params.len(),
    }
}

/// How many parameters the first constructor among members has; none where there is no constructor.
pub(crate) fn params_count(members: &[Member]) -> usize
    ensures { result ≡ params_count members.now }
{
    'parts: for e in members {
        if let Member::Constructor(constructor) = e {
            return params_in(constructor);
        }
    }
    0
}

/// What is known of a module behind its declaration.
pub(crate) fn facts(alloc: Global, declared: &Module) -> Result<ModuleFacts, AllocError>
    ensures { IfOk result (λ facts. facts ≡ facts_of declared.now) }
{
    let mut names = Scopes::new(alloc);
    keeping!(names; names.enter());
    let members = declared.members.as_slice();
    let mut notes = Notes::new(alloc);
    keeping!(names, notes; declare_members(0, members, &mut names, &mut notes));
    drop(notes);
    let params = params_count(members);
    Ok(ModuleFacts { names, params })
}

// Nothing is registered yet, of so many names.
fn none_registered(alloc: Global, names: usize) -> Result<Items<Registration>, AllocError>
    ensures { IfOk result (λ all. all ≡ replicate names not_registered) }
{
    Ok(Items::from_vec(Vec::from_elem(alloc, NOT_REGISTERED, names)?))
}

// Nothing is set up yet, of so many names.
fn at_first(alloc: Global, names: usize) -> Result<Sofar, AllocError>
    ensures { IfOk result (λ sofar. sofar ≡ at_first names) }
{
    Ok(Sofar {
        registered: none_registered(alloc, names)?,
        has_process: false,
        has_constructor: false,
    })
}

// The names that the constructors of a module initialise, by themselves.
fn initialised(alloc: Global, members: &Items<Member>) -> Result<Scopes, AllocError>
    ensures { IfOk result (λ names. names ≡ initialised_by members.now (entered [])) }
{
    let mut names = Scopes::new(alloc);
    keeping!(names; names.enter());
    keeping!(names; declare_initialised(members, &mut names));
    Ok(names)
}

/// A module with its name, behind others.
///
/// # Errors
///
/// Only where memory runs out; what was noted until then is kept.
#[tactic(auto, using(ooo_bodies::specs::Noting::noted_append))]
pub(crate) fn module(
    alloc: Global,
    modules: &[Option<ModuleFacts>],
    name: Resolved,
    declared: Module,
    scopes: &mut Scopes,
    notes: &mut Notes,
) -> Result<CheckedModule, AllocError>
    ensures tree { IfOk result (λ tree.
        tree ≡ (module_of modules.now name declared scopes.old).tree) }
    ensures scope { OnOk result (scopes.new ≡ scopes.old) }
    ensures notes { OnOk result (notes.new
        ≡ noted notes.old (module_of modules.now name declared scopes.old).notes) }
{
    let outside = scopes.size();
    let Module {
        name: word,
        members,
    } = declared;
    keeping!(name, word, members; scopes.enter());
    keeping!(name, word, members; declare_members(outside, members.as_slice(), scopes, notes));
    let size = scopes.size().saturating_sub(outside);
    let mut sofar = keeping!(name, word, members; at_first(alloc, size));
    let mut functions = Items::new(alloc);
    let initialised = keeping!(name, word, members, sofar; initialised(alloc, &members));
    let surroundings = Surroundings {
        alloc,
        modules,
        module_name: word.name.as_bytes(),
        initialised: &initialised,
    };
    let members = keeping!(
        name, word, initialised, sofar, functions;
        surroundings.members(members, scopes, &mut sofar, &mut functions, notes)
    );
    drop(word);
    drop(initialised);
    scopes.leave();
    keeping!(name, members, sofar, functions; note_functions(alloc, &sofar, &functions, notes));
    drop(sofar);
    drop(functions);
    Ok(CheckedModule { name, members })
}
