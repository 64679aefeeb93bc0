ghost use Rattle.std.specs.Prelude.{◌≡◌, ◌++◌, IfOk, OnOk};
ghost use Rattle.ooo_checked.specs.Exprs.{argument_notes, count_of, member_notes, option_of, tree_of};
ghost use Rattle.ooo_checked.specs.Things.{method_of};
ghost use Rattle.ooo_checked.specs.Notes.{all_notes, trees};
ghost use Rattle.ooo_checked.specs.Stats.{is_compound, is_own_event, item_of, items_of, notify_notes, option_notes};
ghost use Rattle.ooo_checked.specs.Stats.{assign_of, call_stat_of, member_stat_of, notify_of};
ghost use Rattle.ooo_checked.specs.Stats.{simple_of, target_of, value_of};
ghost use Rattle.ooo_bodies.specs.Noting.{noted};

use crate::copies::{copy_text, copy_word, resolve};
use crate::events::{awaited, time};
use crate::exprs::{boxed, expr, exprs, right_side, room};
use crate::names::MemberCall;
use crate::notes::Notes;
use ooo_checked::{
    CallPlace, CheckedExpr, CheckedItem, CheckedSimple, CheckedTarget, Method, Thing, TypeBreach,
};
use ooo_lexer::Position;
use ooo_scopes::Scopes;
use ooo_syntax::{AssignOp, Awaited, Expr, PrintItem, Simple, Target, TimeForm, Word};
use sqlite_items::{Boxed, Items};
use std::alloc::{AllocError, Global};

/// An expression, if there is one, with what its names denote; what is noted of it is kept.
///
/// # Errors
///
/// Only where memory runs out; what was noted until then is kept.
pub fn option_expr(
    alloc: Global,
    e: &Option<Expr>,
    scopes: &Scopes,
    notes: &mut Notes,
) -> Result<Option<CheckedExpr>, AllocError>
    ensures tree { IfOk result (λ tree. tree ≡ tree_of (option_of e.now scopes.now)) }
    ensures notes { OnOk result (notes.new
        ≡ noted notes.old (option_notes (option_of e.now scopes.now))) }
{
    match e {
        None => Ok(None),
        Some(e) => {
            let tree = expr(alloc, e, scopes, notes)?;
            Ok(Some(tree))
        }
    }
}

// The same of one on the heap, which stays there.
pub(crate) fn boxed_option(
    alloc: Global,
    e: &Option<Boxed<Expr>>,
    scopes: &Scopes,
    notes: &mut Notes,
) -> Result<Option<Boxed<CheckedExpr>>, AllocError>
    ensures tree { IfOk result (λ tree. tree ≡ tree_of (option_of e.now scopes.now)) }
    ensures notes { OnOk result (notes.new
        ≡ noted notes.old (option_notes (option_of e.now scopes.now))) }
{
    match e {
        None => Ok(None),
        Some(e) => {
            let tree = boxed(alloc, e.get(), scopes, notes)?;
            Ok(Some(tree))
        }
    }
}

// Whether the sign is another than `=`.
fn is_compound(op: AssignOp) -> bool
    ensures { result ≡ is_compound op }
{
    !matches!(op, AssignOp::Set)
}

// What is assigned to.
#[tactic(auto, using(crate::specs::Noting::noted_append))]
fn target(
    alloc: Global,
    is_compound: bool,
    target: &Target,
    scopes: &Scopes,
    notes: &mut Notes,
) -> Result<CheckedTarget, AllocError>
    ensures tree { IfOk result (λ tree. tree ≡ (target_of is_compound target.now scopes.now).tree) }
    ensures notes { OnOk result (notes.new
        ≡ noted notes.old (target_of is_compound target.now scopes.now).notes) }
{
    let thing = scopes.denotes(target.name.name.as_bytes()).thing;
    let passes = thing.is_assignable(target.index.is_some(), is_compound);
    notes.name(thing, passes, target.name.position);
    let name = resolve(alloc, scopes, &target.name)?;
    let index = keeping!(name; option_expr(alloc, &target.index, scopes, notes));
    Ok(CheckedTarget { name, index })
}

// The right side of an assignment.
fn value(
    alloc: Global,
    is_compound: bool,
    e: &Expr,
    scopes: &Scopes,
    notes: &mut Notes,
) -> Result<CheckedExpr, AllocError>
    ensures tree { IfOk result (λ tree. tree ≡ (value_of is_compound e.now scopes.now).tree) }
    ensures notes { OnOk result (notes.new
        ≡ noted notes.old (value_of is_compound e.now scopes.now).notes) }
{
    if is_compound {
        expr(alloc, e, scopes, notes)
    } else {
        right_side(alloc, e, scopes, notes)
    }
}

// An assignment.
#[tactic(auto, using(crate::specs::Noting::noted_append))]
fn assign(
    alloc: Global,
    to: &Target,
    op: AssignOp,
    e: &Expr,
    scopes: &Scopes,
    notes: &mut Notes,
) -> Result<CheckedSimple, AllocError>
    ensures tree { IfOk result (λ tree. tree ≡ (assign_of to.now op e.now scopes.now).tree) }
    ensures notes { OnOk result (notes.new
        ≡ noted notes.old (assign_of to.now op e.now scopes.now).notes) }
{
    let is_compound = is_compound(op);
    let to = got!(target(alloc, is_compound, to, scopes, notes));
    let value = keeping!(to; value(alloc, is_compound, e, scopes, notes));
    Ok(CheckedSimple::Assign(to, op, value))
}

// What a print writes.
fn item(
    alloc: Global,
    item: &PrintItem,
    scopes: &Scopes,
    notes: &mut Notes,
) -> Result<CheckedItem, AllocError>
    ensures tree { IfOk result (λ tree. tree ≡ (item_of item.now scopes.now).tree) }
    ensures notes { OnOk result (notes.new ≡ noted notes.old (item_of item.now scopes.now).notes) }
{
    match item {
        PrintItem::Value(e) => {
            let tree = expr(alloc, e, scopes, notes)?;
            Ok(CheckedItem::Value(tree))
        }
        PrintItem::Text(text) => Ok(CheckedItem::Text(copy_text(alloc, text)?)),
        PrintItem::Line(at) => Ok(CheckedItem::Line(*at)),
        PrintItem::TimeStamp(at) => Ok(CheckedItem::TimeStamp(*at)),
    }
}

// The items of a print.
fn items(
    alloc: Global,
    is: &Items<PrintItem>,
    scopes: &Scopes,
    notes: &mut Notes,
) -> Result<Items<CheckedItem>, AllocError>
    ensures trees { IfOk result (λ all. all ≡ trees (items_of is.now scopes.now)) }
    ensures notes { OnOk result (notes.new
        ≡ noted notes.old (all_notes (items_of is.now scopes.now))) }
{
    let mut all = room(alloc, is.len())?;
    'parts: for e in is.as_slice() {
        let made = keeping!(all; item(alloc, e, scopes, notes));
        keeping!(all; all.push(made));
    }
    Ok(all)
}

impl Notes {
    // Notes a notification of a thing, or its cancelling.
    fn notifies(&mut self, thing: Thing, at: Position, dot: Position)
        ensures { self.new ≡ noted self.old (notify_notes thing at dot) }
    {
        if thing.is_known() {
            let is_event = is_own_event(thing);
            self.breaks_when(!is_event, TypeBreach::UnknownName, dot);
        } else {
            self.breaks(TypeBreach::UnknownName, at);
        }
    }
}

// Whether the thing is an `sc_event`.
fn is_own_event(thing: Thing) -> bool
    ensures { result ≡ is_own_event thing }
{
    matches!(thing, Thing::Event)
}

// A call of a function as a statement.
#[tactic(auto, using(crate::specs::Noting::noted_append))]
fn call(
    alloc: Global,
    word: &Word,
    args: &Items<Expr>,
    scopes: &Scopes,
    notes: &mut Notes,
) -> Result<CheckedSimple, AllocError>
    ensures tree { IfOk result (λ tree. tree ≡ (call_stat_of word.now args.now scopes.now).tree) }
    ensures notes { OnOk result (notes.new
        ≡ noted notes.old (call_stat_of word.now args.now scopes.now).notes) }
{
    let denotes = scopes.denotes(word.name.as_bytes());
    got!(notes.call(CallPlace::Statement, denotes, args.len(), word.position));
    let trees = got!(exprs(alloc, args, scopes, notes));
    let name = keeping!(trees; resolve(alloc, scopes, word));
    Ok(CheckedSimple::Call(name, trees))
}

// How many arguments there are.
fn argument_count(arg: &Option<Expr>) -> usize
    ensures { result ≡ count_of arg.now }
{
    match arg {
        None => 0,
        Some(_) => 1,
    }
}

// The argument of a call of a channel or a port, if it has one.
#[tactic(auto, using(crate::specs::Noting::noted_append))]
fn argument(
    alloc: Global,
    method: Method,
    arg: &Option<Expr>,
    scopes: &Scopes,
    notes: &mut Notes,
) -> Result<Option<CheckedExpr>, AllocError>
    ensures tree { IfOk result (λ tree. tree ≡ tree_of (option_of arg.now scopes.now)) }
    ensures notes { OnOk result (notes.new
        ≡ noted notes.old (argument_notes method (option_of arg.now scopes.now))) }
{
    match arg {
        None => Ok(None),
        Some(arg) => {
            let tree = expr(alloc, arg, scopes, notes)?;
            notes.target(method, &tree);
            Ok(Some(tree))
        }
    }
}

// Notes a call of a channel or a port that is this thing, and gives its argument, if it has one.
#[tactic(auto, using(crate::specs::Noting::noted_append))]
fn noted_argument(
    alloc: Global,
    call: MemberCall<'_>,
    thing: Thing,
    arg: &Option<Expr>,
    scopes: &Scopes,
    notes: &mut Notes,
) -> Result<Option<CheckedExpr>, AllocError>
    ensures tree { IfOk result (λ tree. tree ≡ tree_of (option_of arg.now scopes.now)) }
    ensures notes { OnOk result (notes.new ≡ noted notes.old
        (member_notes call.entry.place thing (method_of thing call.entry.after.now.name)
        (count_of arg.now) call.entry.word.now.position call.entry.after.now.position
        ++ argument_notes (method_of thing call.entry.after.now.name)
        (option_of arg.now scopes.now))) }
{
    let method = thing.method(call.after.name.as_bytes());
    let count = argument_count(arg);
    notes.member(call, thing, method, count)?;
    argument(alloc, method, arg, scopes, notes)
}

// A call of a channel or a port as a statement.
fn member(
    alloc: Global,
    word: &Word,
    after: &Word,
    arg: &Option<Expr>,
    scopes: &Scopes,
    notes: &mut Notes,
) -> Result<CheckedSimple, AllocError>
    ensures tree { IfOk result (λ tree.
        tree ≡ (member_stat_of word.now after.now arg.now scopes.now).tree) }
    ensures notes { OnOk result (notes.new
        ≡ noted notes.old (member_stat_of word.now after.now arg.now scopes.now).notes) }
{
    let name = got!(resolve(alloc, scopes, word));
    let dot = keeping!(name; copy_word(alloc, after));
    let thing = name.denotes.thing;
    let method = thing.method(after.name.as_bytes());
    let place = CallPlace::Statement;
    let call = MemberCall { place, word, after };
    let tree = keeping!(name, dot; noted_argument(alloc, call, thing, arg, scopes, notes));
    Ok(CheckedSimple::Member(name, dot, method, tree))
}

// A notification.
#[tactic(auto, using(crate::specs::Noting::noted_append))]
fn notify(
    alloc: Global,
    word: &Word,
    dot: Position,
    delay: &TimeForm,
    scopes: &Scopes,
    notes: &mut Notes,
) -> Result<CheckedSimple, AllocError>
    ensures tree { IfOk result (λ tree. tree ≡ (notify_of word.now dot delay.now scopes.now).tree) }
    ensures notes { OnOk result (notes.new
        ≡ noted notes.old (notify_of word.now dot delay.now scopes.now).notes) }
{
    let name = got!(resolve(alloc, scopes, word));
    notes.notifies(name.denotes.thing, word.position, dot);
    let delay = keeping!(name; time(alloc, delay, scopes, notes));
    Ok(CheckedSimple::Notify(name, dot, delay))
}

// The cancelling of a notification.
fn cancel(
    alloc: Global,
    word: &Word,
    dot: Position,
    scopes: &Scopes,
    notes: &mut Notes,
) -> Result<CheckedSimple, AllocError>
    ensures tree { IfOk result (λ tree.
        tree ≡ (simple_of (Simple.Cancel word.now dot) scopes.now).tree) }
    ensures notes { OnOk result (notes.new
        ≡ noted notes.old (simple_of (Simple.Cancel word.now dot) scopes.now).notes) }
{
    let name = got!(resolve(alloc, scopes, word));
    notes.notifies(name.denotes.thing, word.position, dot);
    Ok(CheckedSimple::Cancel(name, dot))
}

// A wait.
fn wait(
    alloc: Global,
    at: Position,
    what: &Awaited,
    scopes: &Scopes,
    notes: &mut Notes,
) -> Result<CheckedSimple, AllocError>
    ensures tree { IfOk result (λ tree.
        tree ≡ (simple_of (Simple.Wait at what.now) scopes.now).tree) }
    ensures notes { OnOk result (notes.new
        ≡ noted notes.old (simple_of (Simple.Wait at what.now) scopes.now).notes) }
{
    got!(notes.waits(at));
    let what = got!(awaited(alloc, what, scopes, notes));
    Ok(CheckedSimple::Wait(at, what))
}

// A `next_trigger`.
fn next_trigger(
    alloc: Global,
    at: Position,
    what: &Awaited,
    scopes: &Scopes,
    notes: &mut Notes,
) -> Result<CheckedSimple, AllocError>
    ensures tree { IfOk result (λ tree.
        tree ≡ (simple_of (Simple.NextTrigger at what.now) scopes.now).tree) }
    ensures notes { OnOk result (notes.new
        ≡ noted notes.old (simple_of (Simple.NextTrigger at what.now) scopes.now).notes) }
{
    got!(notes.triggers(at));
    let what = got!(awaited(alloc, what, scopes, notes));
    Ok(CheckedSimple::NextTrigger(at, what))
}

/// A simple statement, with what its names denote; what is noted of it is kept.
///
/// # Errors
///
/// Only where memory runs out; what was noted until then is kept.
#[tactic(auto, using(crate::specs::Noting::noted_append))]
pub fn simple_stat(
    alloc: Global,
    statement: &Simple,
    scopes: &Scopes,
    notes: &mut Notes,
) -> Result<CheckedSimple, AllocError>
    ensures tree { IfOk result (λ tree. tree ≡ (simple_of statement.now scopes.now).tree) }
    ensures notes { OnOk result (notes.new
        ≡ noted notes.old (simple_of statement.now scopes.now).notes) }
{
    match statement {
        Simple::Assign(to, op, e) => assign(alloc, to, *op, e, scopes, notes),
        Simple::StepAfter(to, op) => {
            let to = got!(target(alloc, true, to, scopes, notes));
            Ok(CheckedSimple::StepAfter(to, *op))
        }
        Simple::StepBefore(at, op, to) => {
            let to = got!(target(alloc, true, to, scopes, notes));
            Ok(CheckedSimple::StepBefore(*at, *op, to))
        }
        Simple::Call(word, args) => call(alloc, word, args, scopes, notes),
        Simple::Member(word, after, arg) => member(alloc, word, after, arg, scopes, notes),
        Simple::Notify(word, dot, delay) => notify(alloc, word, *dot, delay, scopes, notes),
        Simple::Cancel(word, dot) => cancel(alloc, word, *dot, scopes, notes),
        Simple::Wait(at, what) => wait(alloc, *at, what, scopes, notes),
        Simple::NextTrigger(at, what) => next_trigger(alloc, *at, what, scopes, notes),
        Simple::Stop(at) => Ok(CheckedSimple::Stop(*at)),
        Simple::Print(at, is) => {
            let is = got!(items(alloc, is, scopes, notes));
            Ok(CheckedSimple::Print(*at, is))
        }
    }
}

// A simple statement on the heap.
pub(crate) fn boxed_simple(
    alloc: Global,
    statement: &Simple,
    scopes: &Scopes,
    notes: &mut Notes,
) -> Result<Boxed<CheckedSimple>, AllocError>
    ensures tree { IfOk result (λ tree. tree ≡ (simple_of statement.now scopes.now).tree) }
    ensures notes { OnOk result (notes.new
        ≡ noted notes.old (simple_of statement.now scopes.now).notes) }
{
    let tree = got!(simple_stat(alloc, statement, scopes, notes));
    Boxed::new(alloc, tree)
}
