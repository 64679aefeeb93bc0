ghost use Rattle.std.specs.Prelude.{◌≡◌, [], IfOk, OnOk};
ghost use Rattle.ooo_checked.specs.Exprs.{call_of, expr_of, exprs_of, index_of, member_of, name_of, option_of, right_of, tree_of};
ghost use Rattle.ooo_checked.specs.Exprs.{argument_notes, count_of};
ghost use Rattle.ooo_checked.specs.Scopes.{Scope};
ghost use Rattle.ooo_checked.specs.Notes.{all_notes, trees};
ghost use Rattle.ooo_bodies.specs.Noting.{noted};

use crate::copies::{copy_word, kind_written, resolve};
use crate::kinds::{binary_kind, choice_kind, prefix_kind};
use crate::names::MemberCall;
use crate::notes::Notes;
use ooo_checked::{CallPlace, CheckedExpr, Method};
use ooo_scopes::Scopes;
use ooo_syntax::{Expr, Word};
use sqlite_items::{Boxed, Items};
use std::alloc::{AllocError, Global};

/// An expression inside another or by itself, with what its names denote; what is noted of it is kept.
///
/// # Errors
///
/// Only where memory runs out; what was noted until then is kept.
#[cycle(expr)]
#[tactic(auto, unfolding(ooo_checked::specs::Exprs::expr_of), using(crate::specs::Noting::noted_append))]
pub fn expr(
    alloc: Global,
    e: &Expr,
    scopes: &Scopes,
    notes: &mut Notes,
) -> Result<CheckedExpr, AllocError>
    ensures tree { IfOk result (λ tree. tree ≡ (expr_of e.now scopes.now).tree) }
    ensures notes { OnOk result (notes.new ≡ noted notes.old (expr_of e.now scopes.now).notes) }
{
    match e {
        Expr::Number(number) => Ok(CheckedExpr::Number(number.value.kind(), *number)),
        Expr::Truth(is_true, at) => Ok(CheckedExpr::Truth(*is_true, *at)),
        Expr::Name(word) => named(alloc, word, scopes, notes),
        Expr::Paren(at, inner) => {
            let tree = got!(boxed(alloc, inner.get(), scopes, notes));
            Ok(CheckedExpr::Paren(tree.get().kind(), *at, tree))
        }
        Expr::Index(word, index) => indexed(alloc, word, index.get(), scopes, notes),
        Expr::Call(word, args) => call(alloc, CallPlace::Inside, word, args, scopes, notes),
        Expr::Member(word, after, arg) => {
            let place = CallPlace::Inside;
            let call = MemberCall { place, word, after };
            member(alloc, call, arg, scopes, notes)
        }
        Expr::Prefix(at, op, operand) => {
            let tree = got!(boxed(alloc, operand.get(), scopes, notes));
            Ok(CheckedExpr::Prefix(prefix_kind(*op, tree.get().kind()), *at, *op, tree))
        }
        Expr::Cast(at, form, operand) => {
            let tree = got!(boxed(alloc, operand.get(), scopes, notes));
            Ok(CheckedExpr::Cast(kind_written(form.form), *at, *form, tree))
        }
        Expr::Conversion(form, operand) => {
            let tree = got!(boxed(alloc, operand.get(), scopes, notes));
            Ok(CheckedExpr::Conversion(kind_written(form.form), *form, tree))
        }
        Expr::Binary(op, left, right) => {
            let a = got!(boxed(alloc, left.get(), scopes, notes));
            let b = keeping!(a; boxed(alloc, right.get(), scopes, notes));
            let kind = binary_kind(*op, a.get().kind(), b.get().kind());
            Ok(CheckedExpr::Binary(kind, *op, a, b))
        }
        Expr::Choose(test, yes, no) => {
            let c = got!(boxed(alloc, test.get(), scopes, notes));
            let a = keeping!(c; boxed(alloc, yes.get(), scopes, notes));
            let b = keeping!(c, a; boxed(alloc, no.get(), scopes, notes));
            let kind = choice_kind(a.get().kind(), b.get().kind());
            Ok(CheckedExpr::Choose(kind, c, a, b))
        }
    }
}

// An expression on the heap.
#[cycle(expr)]
#[tactic(auto, unfolding(ooo_checked::specs::Exprs::expr_of), using(crate::specs::Noting::noted_append))]
pub(crate) fn boxed(
    alloc: Global,
    e: &Expr,
    scopes: &Scopes,
    notes: &mut Notes,
) -> Result<Boxed<CheckedExpr>, AllocError>
    ensures tree { IfOk result (λ tree. tree ≡ (expr_of e.now scopes.now).tree) }
    ensures notes { OnOk result (notes.new ≡ noted notes.old (expr_of e.now scopes.now).notes) }
{
    let tree = got!(expr(alloc, e, scopes, notes));
    Boxed::new(alloc, tree)
}

// A name by itself.
#[tactic(auto, unfolding(ooo_checked::specs::Exprs::expr_of))]
fn named(
    alloc: Global,
    word: &Word,
    scopes: &Scopes,
    notes: &mut Notes,
) -> Result<CheckedExpr, AllocError>
    ensures tree { IfOk result (λ tree. tree ≡ (name_of word.now scopes.now).tree) }
    ensures notes { OnOk result (notes.new ≡ noted notes.old (name_of word.now scopes.now).notes) }
{
    let thing = scopes.denotes(word.name.as_bytes()).thing;
    notes.value(thing, word.position);
    Ok(CheckedExpr::Name(thing.value_kind(), resolve(alloc, scopes, word)?))
}

// An element of an array.
#[cycle(expr)]
#[tactic(auto, unfolding(ooo_checked::specs::Exprs::expr_of), using(crate::specs::Noting::noted_append))]
fn indexed(
    alloc: Global,
    word: &Word,
    index: &Expr,
    scopes: &Scopes,
    notes: &mut Notes,
) -> Result<CheckedExpr, AllocError>
    ensures tree { IfOk result (λ tree.
        tree ≡ (index_of word.now (expr_of index.now scopes.now) scopes.now).tree) }
    ensures notes { OnOk result (notes.new
        ≡ noted notes.old (index_of word.now (expr_of index.now scopes.now) scopes.now).notes) }
{
    let thing = scopes.denotes(word.name.as_bytes()).thing;
    notes.indexed(thing, word.position);
    let tree = boxed(alloc, index, scopes, notes)?;
    let name = keeping!(tree; resolve(alloc, scopes, word));
    Ok(CheckedExpr::Index(thing.value_kind(), name, tree))
}

// A call of a function in an expression.
#[cycle(expr)]
#[tactic(auto, unfolding(ooo_checked::specs::Exprs::expr_of), using(crate::specs::Noting::noted_append))]
fn call(
    alloc: Global,
    place: CallPlace,
    word: &Word,
    args: &Items<Expr>,
    scopes: &Scopes,
    notes: &mut Notes,
) -> Result<CheckedExpr, AllocError>
    ensures tree { IfOk result (λ tree.
        tree ≡ (call_of place word.now (exprs_of args.now scopes.now) scopes.now).tree) }
    ensures notes { OnOk result (notes.new
        ≡ noted notes.old (call_of place word.now
        (exprs_of args.now scopes.now) scopes.now).notes) }
{
    let denotes = scopes.denotes(word.name.as_bytes());
    notes.call(place, denotes, args.len(), word.position)?;
    let trees = exprs(alloc, args, scopes, notes)?;
    let name = keeping!(trees; resolve(alloc, scopes, word));
    Ok(CheckedExpr::Call(denotes.thing.result_kind(), name, trees))
}

// A call of a channel or a port in an expression.
#[cycle(expr)]
#[tactic(auto, unfolding(ooo_checked::specs::Exprs::expr_of), using(crate::specs::Noting::noted_append))]
fn member(
    alloc: Global,
    call: MemberCall<'_>,
    arg: &Option<Boxed<Expr>>,
    scopes: &Scopes,
    notes: &mut Notes,
) -> Result<CheckedExpr, AllocError>
    ensures tree { IfOk result (λ tree. tree
        ≡ (member_of call.entry.place call.entry.word.now call.entry.after.now
        (option_of arg.now scopes.now) scopes.now).tree) }
    ensures notes { OnOk result (notes.new ≡ noted notes.old
        (member_of call.entry.place call.entry.word.now call.entry.after.now
        (option_of arg.now scopes.now) scopes.now).notes) }
{
    let thing = scopes.denotes(call.word.name.as_bytes()).thing;
    let method = thing.method(call.after.name.as_bytes());
    let count = argument_count(arg);
    notes.member(call, thing, method, count)?;
    let tree = argument(alloc, method, arg, scopes, notes)?;
    let after = keeping!(tree; copy_word(alloc, call.after));
    let name = keeping!(tree, after; resolve(alloc, scopes, call.word));
    Ok(CheckedExpr::Member(method.kind(thing), name, after, method, tree))
}

// How many arguments there are.
fn argument_count(arg: &Option<Boxed<Expr>>) -> usize
    ensures { (s : Scope) → result ≡ count_of (option_of arg.now s) }
{
    match arg {
        None => 0,
        Some(_) => 1,
    }
}

// The argument of a call of a channel or a port, if it has one.
#[cycle(expr)]
#[tactic(auto, unfolding(ooo_checked::specs::Exprs::expr_of), using(crate::specs::Noting::noted_append))]
fn argument(
    alloc: Global,
    method: Method,
    arg: &Option<Boxed<Expr>>,
    scopes: &Scopes,
    notes: &mut Notes,
) -> Result<Option<Boxed<CheckedExpr>>, AllocError>
    ensures tree { IfOk result (λ tree. tree ≡ tree_of (option_of arg.now scopes.now)) }
    ensures notes { OnOk result (notes.new
        ≡ noted notes.old (argument_notes method (option_of arg.now scopes.now))) }
{
    match arg {
        None => Ok(None),
        Some(arg) => {
            let tree = boxed(alloc, arg.get(), scopes, notes)?;
            notes.target(method, tree.get());
            Ok(Some(tree))
        }
    }
}

// No part yet, with room for so many.
pub(crate) fn room<T>(alloc: Global, count: usize) -> Result<Items<T>, AllocError>
    ensures { IfOk result (λ all. all ≡ []) }
{
    Ok(Items::from_vec(Vec::with_capacity(alloc, count)?))
}

/// The expressions one after the other, with what their names denote; what is noted of them is kept.
///
/// # Errors
///
/// Only where memory runs out; what was noted until then is kept.
#[cycle(expr)]
#[tactic(auto, unfolding(ooo_checked::specs::Exprs::expr_of), using(crate::specs::Noting::noted_append))]
pub fn exprs(
    alloc: Global,
    es: &Items<Expr>,
    scopes: &Scopes,
    notes: &mut Notes,
) -> Result<Items<CheckedExpr>, AllocError>
    ensures trees { IfOk result (λ all. all ≡ trees (exprs_of es.now scopes.now)) }
    ensures notes { OnOk result (notes.new
        ≡ noted notes.old (all_notes (exprs_of es.now scopes.now))) }
{
    let mut all = room(alloc, es.len())?;
    'args: for e in es.as_slice() {
        let made = keeping!(all; expr(alloc, e, scopes, notes));
        keeping!(all; all.push(made));
    }
    Ok(all)
}

/// The whole right side of an assignment or of an initial value, with what its names denote; what is noted of it is
/// kept.
///
/// # Errors
///
/// Only where memory runs out; what was noted until then is kept.
#[tactic(auto, using(crate::specs::Noting::noted_append))]
pub fn right_side(
    alloc: Global,
    e: &Expr,
    scopes: &Scopes,
    notes: &mut Notes,
) -> Result<CheckedExpr, AllocError>
    ensures tree { IfOk result (λ tree. tree ≡ (right_of e.now scopes.now).tree) }
    ensures notes { OnOk result (notes.new ≡ noted notes.old (right_of e.now scopes.now).notes) }
{
    match e {
        Expr::Call(word, args) => call(alloc, CallPlace::Whole, word, args, scopes, notes),
        Expr::Member(word, after, arg) => {
            let place = CallPlace::Whole;
            let call = MemberCall { place, word, after };
            member(alloc, call, arg, scopes, notes)
        }
        _ => expr(alloc, e, scopes, notes),
    }
}
