ghost use Rattle.std.specs.Prelude.{◌≡◌, ◌∷◌, ◌++◌, [], drop, length, IfOk, OnOk};
ghost use Rattle.ooo_checked.specs.Scopes.{left};
ghost use Rattle.ooo_bodies.specs.Noting.{noted};
ghost use Rattle.ooo_members.specs.Bodies.{facts_of, function_context, function_of, param_of, params_of};
ghost use Rattle.ooo_members.specs.Declarations.{name_of};

use crate::declarations::{declare, denotation, result_of};
use crate::known::FunctionFacts;
use ooo_bodies::copies::{copy_word, kind_written, resolve};
use ooo_bodies::notes::Notes;
use ooo_bodies::stats::stats;
use ooo_checked::{CheckedFunction, CheckedParam, Context, Resolved, Thing};
use ooo_scopes::Scopes;
use ooo_syntax::{Function, Param, Word};
use sqlite_items::Items;
use std::alloc::{AllocError, Global};

/// Declares a name, and gives it with what it denotes.
///
/// # Errors
///
/// Only where memory runs out.
pub fn name(
    alloc: Global,
    outside: usize,
    thing: Thing,
    word: &Word,
    scopes: &mut Scopes,
    notes: &mut Notes,
) -> Result<Resolved, AllocError>
    ensures tree { IfOk result (λ name.
        name ≡ (name_of outside thing word.now scopes.old).tree) }
    ensures scope { OnOk result (scopes.new ≡ (name_of outside thing word.now scopes.old).scope) }
    ensures notes { OnOk result (notes.new
        ≡ noted notes.old (name_of outside thing word.now scopes.old).notes) }
    ensures outer { OnOk result (left scopes.new ≡ left scopes.old) }
{
    let copy = copy_word(alloc, word)?;
    let denotes = denotation(outside, thing, scopes);
    keeping!(copy; declare(outside, thing, word, scopes, notes));
    Ok(Resolved {
        word: copy,
        denotes,
    })
}

// A parameter.
fn param(
    alloc: Global,
    outside: usize,
    param: &Param,
    scopes: &mut Scopes,
    notes: &mut Notes,
) -> Result<CheckedParam, AllocError>
    ensures tree { IfOk result (λ tree. tree ≡ (param_of outside param.now scopes.old).tree) }
    ensures scope { OnOk result (scopes.new ≡ (param_of outside param.now scopes.old).scope) }
    ensures notes { OnOk result (notes.new
        ≡ noted notes.old (param_of outside param.now scopes.old).notes) }
    ensures outer { OnOk result (left scopes.new ≡ left scopes.old) }
{
    let thing = Thing::Parameter(kind_written(param.form.form));
    let name = name(alloc, outside, thing, &param.name, scopes, notes)?;
    Ok(CheckedParam {
        form: param.form,
        name,
    })
}

/// Parameters one after the other.
///
/// # Errors
///
/// Only where memory runs out.
pub fn params(
    alloc: Global,
    outside: usize,
    params: &Items<Param>,
    scopes: &mut Scopes,
    notes: &mut Notes,
) -> Result<Items<CheckedParam>, AllocError>
    ensures trees { IfOk result (λ all. all ≡ (params_of outside params.now scopes.old).tree) }
    ensures scope { OnOk result (scopes.new ≡ (params_of outside params.now scopes.old).scope) }
    ensures notes { OnOk result (notes.new
        ≡ noted notes.old (params_of outside params.now scopes.old).notes) }
    ensures outer { OnOk result (left scopes.new ≡ left scopes.old) }
{
    let mut all = Items::new(alloc);
    'parts: for e in params.as_slice() {
        let made = keeping!(all; param(alloc, outside, e, scopes, notes));
        keeping!(all; all.push(made));
    }
    Ok(all)
}

// Where the statements of a function stand.
fn function_context(function: &Function, scopes: &Scopes) -> Context
    ensures { result ≡ function_context function.now scopes.now }
{
    Context {
        result: result_of(function.result),
        outside: scopes.size(),
        in_loop: false,
    }
}

/// A function of a module, whose name is known.
///
/// # Errors
///
/// Only where memory runs out; what was noted until then is kept.
#[tactic(auto, using(ooo_bodies::specs::Noting::noted_append))]
pub fn function(
    alloc: Global,
    function: &Function,
    scopes: &mut Scopes,
    notes: &mut Notes,
) -> Result<CheckedFunction, AllocError>
    ensures tree { IfOk result (λ tree. tree ≡ (function_of function.now scopes.old).tree) }
    ensures scope { OnOk result (scopes.new ≡ scopes.old) }
    ensures notes { OnOk result (notes.new
        ≡ noted notes.old (function_of function.now scopes.old).notes) }
{
    let name = resolve(alloc, scopes, &function.name)?;
    let context = function_context(function, scopes);
    keeping!(name; scopes.enter());
    let params = keeping!(name; params(alloc, context.outside, &function.params, scopes, notes));
    keeping!(name, params; scopes.enter());
    let body = keeping!(name, params; stats(alloc, context, &function.body, scopes, notes));
    scopes.leave();
    scopes.leave();
    Ok(CheckedFunction {
        result: function.result,
        name,
        params,
        body,
    })
}

// What stands in a list from a place on.
fn tail<T>(items: &[T], from: usize) -> &[T]
    ensures { result.now ≡ drop from items.now }
{
    if from <= items.len() {
        &items[from..]
    } else {
        &[]
    }
}

// What was noted of the function of this number, behind what was noted before.
fn noted_since(
    alloc: Global,
    number: usize,
    calls: usize,
    waits: usize,
    triggers: usize,
    notes: &Notes,
) -> Result<FunctionFacts, AllocError>
    ensures { IfOk result (λ facts. facts ≡ record {
      number = number;
      calls = drop calls notes.now.calls;
      waits = drop waits notes.now.waits;
      triggers = drop triggers notes.now.triggers;
    }) }
{
    let calls = got!(Items::from_slice(alloc, tail(notes.calls.as_slice(), calls)));
    let waits = keeping!(calls; Items::from_slice(alloc, tail(notes.waits.as_slice(), waits)));
    let triggers = tail(notes.triggers.as_slice(), triggers);
    let triggers = keeping!(calls, waits; Items::from_slice(alloc, triggers));
    Ok(FunctionFacts {
        number,
        calls,
        waits,
        triggers,
    })
}

/// A function of a module, with what has to be known of it when all of the module is known.
///
/// # Errors
///
/// Only where memory runs out; what was noted until then is kept.
pub fn known_function(
    alloc: Global,
    declared: &Function,
    scopes: &mut Scopes,
    functions: &mut Items<FunctionFacts>,
    notes: &mut Notes,
) -> Result<CheckedFunction, AllocError>
    ensures tree { IfOk result (λ tree. tree ≡ (function_of declared.now scopes.old).tree) }
    ensures scope { OnOk result (scopes.new ≡ scopes.old) }
    ensures facts { OnOk result (functions.new
        ≡ functions.old ++ facts_of declared.now scopes.old ∷ []) }
    ensures notes { OnOk result (notes.new
        ≡ noted notes.old (function_of declared.now scopes.old).notes) }
{
    let number = scopes.denotes(declared.name.name.as_bytes()).number;
    let calls = notes.calls.len();
    let waits = notes.waits.len();
    let triggers = notes.triggers.len();
    let tree = function(alloc, declared, scopes, notes)?;
    let facts = keeping!(tree; noted_since(alloc, number, calls, waits, triggers, notes));
    keeping!(tree; functions.push(facts));
    Ok(tree)
}
