ghost use Rattle.std.specs.Prelude.{◌≡◌, IfOk, OnOk};
ghost use Rattle.std.specs.List.{list_all};
ghost use Rattle.ooo_checked.specs.Notes.{all_notes, trees};
ghost use Rattle.ooo_bodies.specs.Noting.{noted};
ghost use Rattle.ooo_members.specs.Args.{are_values, arg_of, args_of, constant_notes, constant_of, constant_right};
ghost use Rattle.ooo_members.specs.Args.{constant_time_of, is_child_form, is_form_of, is_instance_form, is_size_form, is_text_form};
ghost use Rattle.ooo_members.specs.Args.{is_value};

use ooo_bodies::copies::copy_text;
use ooo_bodies::exprs::{expr, right_side};
use ooo_bodies::notes::Notes;
use ooo_checked::{CheckedArg, CheckedExpr, CheckedTime, Thing, TypeBreach};
use ooo_scopes::Scopes;
use ooo_syntax::{Arg, Expr, TimeForm};
use sqlite_items::Items;
use std::alloc::{AllocError, Global};

// Notes an expression that has to be known before the simulation, and isn't.
fn note_constant(e: &CheckedExpr, notes: &mut Notes)
    ensures { notes.new ≡ noted notes.old (constant_notes e.now) }
{
    notes.breaks_when(!e.is_constant(), TypeBreach::NotConstant, e.first());
}

/// A constant expression: an array length, a size, a start value, an argument.
///
/// # Errors
///
/// Only where memory runs out; what was noted until then is kept.
#[tactic(auto, using(ooo_bodies::specs::Noting::noted_append))]
pub fn constant(
    alloc: Global,
    e: &Expr,
    scopes: &Scopes,
    notes: &mut Notes,
) -> Result<CheckedExpr, AllocError>
    ensures tree { IfOk result (λ tree. tree ≡ (constant_of e.now scopes.now).tree) }
    ensures notes { OnOk result (notes.new
        ≡ noted notes.old (constant_of e.now scopes.now).notes) }
{
    let tree = expr(alloc, e, scopes, notes)?;
    note_constant(&tree, notes);
    Ok(tree)
}

/// The right side of an assignment in a constructor.
///
/// # Errors
///
/// Only where memory runs out; what was noted until then is kept.
#[tactic(auto, using(ooo_bodies::specs::Noting::noted_append))]
pub fn constant_right(
    alloc: Global,
    e: &Expr,
    scopes: &Scopes,
    notes: &mut Notes,
) -> Result<CheckedExpr, AllocError>
    ensures tree { IfOk result (λ tree. tree ≡ (constant_right e.now scopes.now).tree) }
    ensures notes { OnOk result (notes.new
        ≡ noted notes.old (constant_right e.now scopes.now).notes) }
{
    let tree = right_side(alloc, e, scopes, notes)?;
    note_constant(&tree, notes);
    Ok(tree)
}

/// A constant time: a period, or the time of `sc_start`.
///
/// # Errors
///
/// Only where memory runs out; what was noted until then is kept.
pub fn constant_time(
    alloc: Global,
    time: &TimeForm,
    scopes: &Scopes,
    notes: &mut Notes,
) -> Result<CheckedTime, AllocError>
    ensures tree { IfOk result (λ tree. tree ≡ (constant_time_of time.now scopes.now).tree) }
    ensures notes { OnOk result (notes.new
        ≡ noted notes.old (constant_time_of time.now scopes.now).notes) }
{
    match time {
        TimeForm::Zero(at) => Ok(CheckedTime::Zero(*at)),
        TimeForm::Made(at, amount, scale) => {
            with_part!(a = constant(alloc, amount, scopes, notes); CheckedTime::Made(*at, a, *scale))
        }
        TimeForm::Amount(amount, scale) => {
            with_part!(a = constant(alloc, amount, scopes, notes); CheckedTime::Amount(a, *scale))
        }
    }
}

/// An argument.
///
/// # Errors
///
/// Only where memory runs out; what was noted until then is kept.
pub fn arg(
    alloc: Global,
    arg: &Arg,
    scopes: &Scopes,
    notes: &mut Notes,
) -> Result<CheckedArg, AllocError>
    ensures tree { IfOk result (λ tree. tree ≡ (arg_of arg.now scopes.now).tree) }
    ensures notes { OnOk result (notes.new ≡ noted notes.old (arg_of arg.now scopes.now).notes) }
{
    match arg {
        Arg::Text(text) => with_part!(copy = copy_text(alloc, text); CheckedArg::Text(copy)),
        Arg::Time(time) => {
            with_part!(t = constant_time(alloc, time.get(), scopes, notes); CheckedArg::Time(t))
        }
        Arg::Value(e) => {
            with_part!(value = constant(alloc, e.get(), scopes, notes); CheckedArg::Value(value))
        }
    }
}

/// Arguments one after the other.
///
/// # Errors
///
/// Only where memory runs out; what was noted until then is kept.
pub fn args(
    alloc: Global,
    args: &Items<Arg>,
    scopes: &Scopes,
    notes: &mut Notes,
) -> Result<Items<CheckedArg>, AllocError>
    ensures trees { IfOk result (λ all. all ≡ trees (args_of args.now scopes.now)) }
    ensures notes { OnOk result (notes.new
        ≡ noted notes.old (all_notes (args_of args.now scopes.now))) }
{
    let mut all = Items::new(alloc);
    'parts: for e in args.as_slice() {
        let made = keeping!(all; arg(alloc, e, scopes, notes));
        keeping!(all; all.push(made));
    }
    Ok(all)
}

// Whether an argument is a value.
fn is_value(arg: &Arg) -> bool
    ensures { result ≡ is_value arg.now }
{
    matches!(arg, Arg::Value(_))
}

// Whether all arguments are values.
fn all_values(args: &[Arg]) -> bool
    ensures { result ≡ list_all is_value args.now }
{
    args.iter().all(|arg| is_value(arg))
}

// Whether all arguments are values, and there are as many.
fn are_values(count: usize, args: &[Arg]) -> bool
    ensures { result ≡ are_values count args.now }
{
    args.len() == count && all_values(args)
}

// Whether there is a text at most.
fn is_text_form(args: &[Arg]) -> bool
    ensures { result ≡ is_text_form args.now }
{
    matches!(args, [] | [Arg::Text(_)])
}

// Whether there is a text at most, and then a size at most.
fn is_size_form(args: &[Arg]) -> bool
    ensures { result ≡ is_size_form args.now }
{
    matches!(
        args,
        [] | [Arg::Text(_)] | [Arg::Text(_), Arg::Value(_)] | [Arg::Value(_)]
    )
}

// Whether there is a text, and then a value for each parameter.
fn is_child_form(params: usize, args: &[Arg]) -> bool
    ensures { result ≡ is_child_form params args.now }
{
    match args {
        [Arg::Text(_), values @ ..] => are_values(params, values),
        _ => false,
    }
}

/// Whether arguments are those of an instance, whose module's constructor has so many parameters if it is known.
pub fn is_instance_form(params: Option<usize>, args: &[Arg]) -> bool
    ensures { result ≡ is_instance_form params args.now }
{
    match params {
        Some(params) => is_child_form(params, args),
        None => true,
    }
}

/// Whether arguments are of the form of a thing, where the constructor of an instance's module has so many parameters if
/// the module is known.
pub fn is_form_of(thing: Thing, params: Option<usize>, args: &[Arg]) -> bool
    ensures { result ≡ is_form_of thing params args.now }
{
    match thing {
        Thing::Fifo(_) => is_size_form(args),
        Thing::Variable(_) | Thing::Fixed(_, _) => are_values(1, args),
        Thing::Instance(_) => is_instance_form(params, args),
        _ => is_text_form(args),
    }
}
