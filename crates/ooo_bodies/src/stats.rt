ghost use Rattle.std.specs.Prelude.{◌≡◌, None, IfOk, OnOk};
ghost use Rattle.ooo_checked.specs.Exprs.{option_of, tree_of};
ghost use Rattle.ooo_checked.specs.Scopes.{entered, left};
ghost use Rattle.ooo_checked.specs.Stats.{declarator_of, declarators_of, do_of, else_of, for_of, head_notes};
ghost use Rattle.ooo_checked.specs.Stats.{initial_of, inner, local_denotation, local_of, loop_notes, looped};
ghost use Rattle.ooo_checked.specs.Stats.{option_notes, option_reading, option_start_of, return_notes, return_of, start_of};
ghost use Rattle.ooo_checked.specs.Stats.{simple_of, stat_of, stats_of, step_of, while_of};
ghost use Rattle.ooo_bodies.specs.Noting.{noted};

use crate::copies::{copy_word, kind_written};
use crate::exprs::{boxed, right_side, room};
use crate::notes::Notes;
use crate::simple_stats::{boxed_option, boxed_simple, simple_stat};
use ooo_checked::{
    CheckedDeclarator, CheckedExpr, CheckedLocal, CheckedSimple, CheckedStart, CheckedStat,
    Context, Denotation, Resolved, Thing, TypeBreach,
};
use ooo_lexer::Position;
use ooo_scopes::Scopes;
use ooo_syntax::{Declarator, Expr, ForStart, Local, Simple, Stat};
use ooo_value::Kind;
use sqlite_items::{Boxed, Items};
use std::alloc::{AllocError, Global};

// The initial value of a local, if it has one.
fn initial(
    alloc: Global,
    e: &Option<Expr>,
    scopes: &Scopes,
    notes: &mut Notes,
) -> Result<Option<CheckedExpr>, AllocError>
    ensures tree { IfOk result (λ tree. tree ≡ tree_of (initial_of e.now scopes.now)) }
    ensures notes { OnOk result (notes.new
        ≡ noted notes.old (option_notes (initial_of e.now scopes.now))) }
{
    match e {
        None => Ok(None),
        Some(e) => {
            let tree = right_side(alloc, e, scopes, notes)?;
            Ok(Some(tree))
        }
    }
}

// A local as it is declared.
fn local_denotation(kind: Kind, context: Context, scopes: &Scopes) -> Denotation
    ensures { result ≡ local_denotation kind context scopes.now }
{
    Denotation {
        thing: Thing::Local(kind),
        number: scopes.size().saturating_sub(context.outside),
    }
}

// A declarator.
#[tactic(auto, using(crate::specs::Noting::noted_append, crate::specs::Parts::left_declared))]
fn declarator(
    alloc: Global,
    kind: Kind,
    context: Context,
    declared: &Declarator,
    scopes: &mut Scopes,
    notes: &mut Notes,
) -> Result<CheckedDeclarator, AllocError>
    ensures tree { IfOk result (λ tree.
        tree ≡ (declarator_of kind context declared.now scopes.old).tree) }
    ensures scope { OnOk result (scopes.new
        ≡ (declarator_of kind context declared.now scopes.old).scope) }
    ensures notes { OnOk result (notes.new
        ≡ noted notes.old (declarator_of kind context declared.now scopes.old).notes) }
    ensures outer { OnOk result (left scopes.new ≡ left scopes.old) }
{
    let denotes = local_denotation(kind, context, scopes);
    let is_again = scopes.is_declared_here(declared.name.name.as_bytes());
    notes.breaks_when(is_again, TypeBreach::DeclaredTwice, declared.name.position);
    let word = got!(copy_word(alloc, &declared.name));
    let value = keeping!(word; initial(alloc, &declared.value, scopes, notes));
    keeping!(word, value; scopes.declare(declared.name.name.as_bytes(), denotes));
    let name = Resolved { word, denotes };
    Ok(CheckedDeclarator { name, value })
}

// Declarators one after the other.
fn declarators(
    alloc: Global,
    kind: Kind,
    context: Context,
    names: &Items<Declarator>,
    scopes: &mut Scopes,
    notes: &mut Notes,
) -> Result<Items<CheckedDeclarator>, AllocError>
    ensures trees { IfOk result (λ all.
        all ≡ (declarators_of kind context names.now scopes.old).tree) }
    ensures scope { OnOk result (scopes.new
        ≡ (declarators_of kind context names.now scopes.old).scope) }
    ensures notes { OnOk result (notes.new
        ≡ noted notes.old (declarators_of kind context names.now scopes.old).notes) }
    ensures outer { OnOk result (left scopes.new ≡ left scopes.old) }
{
    let mut all = room(alloc, names.len())?;
    'parts: for e in names.as_slice() {
        let made = keeping!(all; declarator(alloc, kind, context, e, scopes, notes));
        keeping!(all; all.push(made));
    }
    Ok(all)
}

// A declaration of locals.
fn local(
    alloc: Global,
    context: Context,
    local: &Local,
    scopes: &mut Scopes,
    notes: &mut Notes,
) -> Result<CheckedLocal, AllocError>
    ensures tree { IfOk result (λ tree. tree ≡ (local_of context local.now scopes.old).tree) }
    ensures scope { OnOk result (scopes.new ≡ (local_of context local.now scopes.old).scope) }
    ensures notes { OnOk result (notes.new
        ≡ noted notes.old (local_of context local.now scopes.old).notes) }
    ensures outer { OnOk result (left scopes.new ≡ left scopes.old) }
{
    let kind = kind_written(local.form.form);
    let names = declarators(alloc, kind, context, &local.names, scopes, notes)?;
    Ok(CheckedLocal {
        form: local.form,
        names,
    })
}

// A declaration of locals as a statement.
fn local_stat(
    alloc: Global,
    context: Context,
    names: &Local,
    scopes: &mut Scopes,
    notes: &mut Notes,
) -> Result<CheckedStat, AllocError>
    ensures tree { IfOk result (λ tree.
        tree ≡ CheckedStat.Local (local_of context names.now scopes.old).tree) }
    ensures scope { OnOk result (scopes.new ≡ (local_of context names.now scopes.old).scope) }
    ensures notes { OnOk result (notes.new
        ≡ noted notes.old (local_of context names.now scopes.old).notes) }
    ensures outer { OnOk result (left scopes.new ≡ left scopes.old) }
{
    let tree = local(alloc, context, names, scopes, notes)?;
    Ok(CheckedStat::Local(Boxed::new(alloc, tree)?))
}

// A simple statement as a statement.
fn plain_stat(
    alloc: Global,
    statement: &Simple,
    scopes: &Scopes,
    notes: &mut Notes,
) -> Result<CheckedStat, AllocError>
    ensures tree { IfOk result (λ tree.
        tree ≡ CheckedStat.Simple (simple_of statement.now scopes.now).tree) }
    ensures notes { OnOk result (notes.new
        ≡ noted notes.old (simple_of statement.now scopes.now).notes) }
{
    let tree = boxed_simple(alloc, statement, scopes, notes)?;
    Ok(CheckedStat::Simple(tree))
}

// How a `for` begins.
fn start(
    alloc: Global,
    context: Context,
    begins: &ForStart,
    scopes: &mut Scopes,
    notes: &mut Notes,
) -> Result<CheckedStart, AllocError>
    ensures tree { IfOk result (λ tree. tree ≡ (start_of context begins.now scopes.old).tree) }
    ensures scope { OnOk result (scopes.new ≡ (start_of context begins.now scopes.old).scope) }
    ensures notes { OnOk result (notes.new
        ≡ noted notes.old (start_of context begins.now scopes.old).notes) }
    ensures outer { OnOk result (left scopes.new ≡ left scopes.old) }
{
    match begins {
        ForStart::Local(names) => {
            let names = got!(local(alloc, context, names, scopes, notes));
            Ok(CheckedStart::Local(names))
        }
        ForStart::Simple(statement) => {
            let statement = got!(simple_stat(alloc, statement, scopes, notes));
            Ok(CheckedStart::Simple(statement))
        }
    }
}

// How a `for` begins, on the heap.
fn boxed_start(
    alloc: Global,
    context: Context,
    begins: &ForStart,
    scopes: &mut Scopes,
    notes: &mut Notes,
) -> Result<Boxed<CheckedStart>, AllocError>
    ensures tree { IfOk result (λ tree. tree ≡ (start_of context begins.now scopes.old).tree) }
    ensures scope { OnOk result (scopes.new ≡ (start_of context begins.now scopes.old).scope) }
    ensures notes { OnOk result (notes.new
        ≡ noted notes.old (start_of context begins.now scopes.old).notes) }
    ensures outer { OnOk result (left scopes.new ≡ left scopes.old) }
{
    let tree = got!(start(alloc, context, begins, scopes, notes));
    Boxed::new(alloc, tree)
}

// How a `for` begins, if it says so.
fn option_start(
    alloc: Global,
    context: Context,
    begins: &Option<Boxed<ForStart>>,
    scopes: &mut Scopes,
    notes: &mut Notes,
) -> Result<Option<Boxed<CheckedStart>>, AllocError>
    ensures tree { IfOk result (λ tree.
        tree ≡ (option_start_of context begins.now scopes.old).tree) }
    ensures scope { OnOk result (scopes.new
        ≡ (option_start_of context begins.now scopes.old).scope) }
    ensures notes { OnOk result (notes.new
        ≡ noted notes.old (option_start_of context begins.now scopes.old).notes) }
    ensures outer { OnOk result (left scopes.new ≡ left scopes.old) }
{
    match begins {
        None => Ok(None),
        Some(begins) => {
            let begins = boxed_start(alloc, context, begins.get(), scopes, notes)?;
            Ok(Some(begins))
        }
    }
}

// What a `for` does after each turn, if it says so.
fn step(
    alloc: Global,
    statement: &Option<Boxed<Simple>>,
    scopes: &Scopes,
    notes: &mut Notes,
) -> Result<Option<Boxed<CheckedSimple>>, AllocError>
    ensures tree { IfOk result (λ tree. tree ≡ (step_of statement.now scopes.now).tree) }
    ensures notes { OnOk result (notes.new
        ≡ noted notes.old (step_of statement.now scopes.now).notes) }
{
    match statement {
        None => Ok(None),
        Some(statement) => {
            let statement = boxed_simple(alloc, statement.get(), scopes, notes)?;
            Ok(Some(statement))
        }
    }
}

impl Notes {
    // Notes a `break` or a `continue`.
    fn leaves_loop(&mut self, context: Context, at: Position)
        ensures { self.new ≡ noted self.old (loop_notes context at) }
    {
        self.breaks_when(!context.in_loop, TypeBreach::WrongKind, at);
    }

    // Notes a `return` with a value, or without one.
    fn returns(&mut self, gives: Option<Kind>, value: &Option<Boxed<Expr>>, at: Position)
        ensures { self.new ≡ noted self.old (return_notes gives value.now at) }
    {
        match (gives, value) {
            (None, None) | (Some(_), Some(_)) => {}
            _ => self.breaks(TypeBreach::WrongKind, at),
        }
    }
}

// `return`
#[tactic(auto, using(crate::specs::Noting::noted_append))]
fn return_stat(
    alloc: Global,
    context: Context,
    at: Position,
    value: &Option<Boxed<Expr>>,
    scopes: &Scopes,
    notes: &mut Notes,
) -> Result<CheckedStat, AllocError>
    ensures tree { IfOk result (λ tree.
        tree ≡ (return_of at value.now context scopes.now).tree) }
    ensures notes { OnOk result (notes.new
        ≡ noted notes.old (return_of at value.now context scopes.now).notes) }
{
    notes.returns(context.result, value, at);
    let value = boxed_option(alloc, value, scopes, notes)?;
    Ok(CheckedStat::Return(at, value))
}

// Where the body of a loop stands.
fn looped(context: Context) -> Context
    ensures { result ≡ looped context }
{
    Context {
        result: context.result,
        outside: context.outside,
        in_loop: true,
    }
}

/// A statement, with what its names denote; what is noted of it is kept, and the names that it declares are known behind
/// it.
///
/// # Errors
///
/// Only where memory runs out; what was noted until then is kept.
#[cycle(stat)]
#[tactic(auto, unfolding(ooo_checked::specs::Stats::stat_of), using(crate::specs::Noting::noted_append))]
pub fn stat(
    alloc: Global,
    context: Context,
    statement: &Stat,
    scopes: &mut Scopes,
    notes: &mut Notes,
) -> Result<CheckedStat, AllocError>
    ensures tree { IfOk result (λ tree. tree ≡ (stat_of statement.now context scopes.old).tree) }
    ensures scope { OnOk result (scopes.new ≡ (stat_of statement.now context scopes.old).scope) }
    ensures notes { OnOk result (notes.new
        ≡ noted notes.old (stat_of statement.now context scopes.old).notes) }
    ensures outer { OnOk result (left scopes.new ≡ left scopes.old) }
{
    match statement {
        Stat::Block(at, body) => {
            let body = got!(block(alloc, context, body, scopes, notes));
            Ok(CheckedStat::Block(*at, body))
        }
        Stat::Empty(at) => Ok(CheckedStat::Empty(*at)),
        Stat::Local(names) => local_stat(alloc, context, names.get(), scopes, notes),
        Stat::Simple(statement) => plain_stat(alloc, statement.get(), scopes, notes),
        Stat::If(at, test, yes, no) => {
            let condition = test.get();
            let first = yes.get();
            let test = got!(boxed(alloc, condition, scopes, notes));
            let yes = keeping!(test; inner(alloc, context, first, scopes, notes));
            let no = keeping!(test, yes; otherwise(alloc, context, no, scopes, notes));
            Ok(CheckedStat::If(*at, test, yes, no))
        }
        Stat::While(at, test, body) => {
            let head = LoopHead { at, test };
            while_stat(alloc, context, head, body.get(), scopes, notes)
        }
        Stat::Do(at, body, test) => {
            let head = LoopHead { at, test };
            do_stat(alloc, context, head, body.get(), scopes, notes)
        }
        Stat::For(at, begins, test, after, body) => {
            let head = ForHead {
                at,
                begins,
                test,
                after,
            };
            for_stat(alloc, context, head, body.get(), scopes, notes)
        }
        Stat::Break(at) => {
            notes.leaves_loop(context, *at);
            Ok(CheckedStat::Break(*at))
        }
        Stat::Continue(at) => {
            notes.leaves_loop(context, *at);
            Ok(CheckedStat::Continue(*at))
        }
        Stat::Return(at, value) => return_stat(alloc, context, *at, value, scopes, notes),
    }
}

// The statements of a block, whose names are known in it alone.
#[cycle(stat)]
#[tactic(auto, unfolding(ooo_checked::specs::Stats::stat_of), using(crate::specs::Noting::noted_append))]
fn block(
    alloc: Global,
    context: Context,
    body: &Items<Stat>,
    scopes: &mut Scopes,
    notes: &mut Notes,
) -> Result<Items<CheckedStat>, AllocError>
    ensures trees { IfOk result (λ all.
        all ≡ (stats_of body.now context (entered scopes.old)).tree) }
    ensures scope { OnOk result (scopes.new
        ≡ left (stats_of body.now context (entered scopes.old)).scope) }
    ensures notes { OnOk result (notes.new
        ≡ noted notes.old (stats_of body.now context (entered scopes.old)).notes) }
    ensures outer { OnOk result (left scopes.new ≡ left scopes.old) }
{
    scopes.enter()?;
    let all = stats(alloc, context, body, scopes, notes)?;
    scopes.leave();
    Ok(all)
}

/// The statements of a body one after the other, with what their names denote; what is noted of them is kept, and the
/// names that they declare are known behind them.
///
/// # Errors
///
/// Only where memory runs out; what was noted until then is kept.
#[cycle(stat)]
#[tactic(auto, unfolding(ooo_checked::specs::Stats::stat_of), using(crate::specs::Noting::noted_append))]
pub fn stats(
    alloc: Global,
    context: Context,
    body: &Items<Stat>,
    scopes: &mut Scopes,
    notes: &mut Notes,
) -> Result<Items<CheckedStat>, AllocError>
    ensures trees { IfOk result (λ all. all ≡ (stats_of body.now context scopes.old).tree) }
    ensures scope { OnOk result (scopes.new ≡ (stats_of body.now context scopes.old).scope) }
    ensures notes { OnOk result (notes.new
        ≡ noted notes.old (stats_of body.now context scopes.old).notes) }
    ensures outer { OnOk result (left scopes.new ≡ left scopes.old) }
{
    let mut all = room(alloc, body.len())?;
    'parts: for e in body.as_slice() {
        let made = keeping!(all; stat(alloc, context, e, scopes, notes));
        keeping!(all; all.push(made));
    }
    Ok(all)
}

// A statement on the heap.
fn boxed_stat(alloc: Global, tree: CheckedStat) -> Result<Boxed<CheckedStat>, AllocError>
    ensures { IfOk result (λ boxed. boxed ≡ tree) }
{
    Boxed::new(alloc, tree)
}

// A statement inside another, whose names are known in it alone.
#[cycle(stat)]
#[tactic(auto, unfolding(ooo_checked::specs::Stats::stat_of), using(crate::specs::Noting::noted_append))]
fn inner(
    alloc: Global,
    context: Context,
    statement: &Stat,
    scopes: &mut Scopes,
    notes: &mut Notes,
) -> Result<Boxed<CheckedStat>, AllocError>
    ensures tree { IfOk result (λ tree.
        tree ≡ (inner (stat_of statement.now) context scopes.old).tree) }
    ensures scope { OnOk result (scopes.new
        ≡ (inner (stat_of statement.now) context scopes.old).scope) }
    ensures notes { OnOk result (notes.new
        ≡ noted notes.old (inner (stat_of statement.now) context scopes.old).notes) }
    ensures outer { OnOk result (left scopes.new ≡ left scopes.old) }
{
    scopes.enter()?;
    let tree = stat(alloc, context, statement, scopes, notes)?;
    scopes.leave();
    boxed_stat(alloc, tree)
}

// The statement after `else`, if there is one.
#[cycle(stat)]
#[tactic(auto, unfolding(ooo_checked::specs::Stats::stat_of), using(crate::specs::Noting::noted_append))]
fn otherwise(
    alloc: Global,
    context: Context,
    no: &Option<Boxed<Stat>>,
    scopes: &mut Scopes,
    notes: &mut Notes,
) -> Result<Option<Boxed<CheckedStat>>, AllocError>
    ensures tree { IfOk result (λ tree.
        tree ≡ (else_of (option_reading no.now) context scopes.old).tree) }
    ensures scope { OnOk result (scopes.new
        ≡ (else_of (option_reading no.now) context scopes.old).scope) }
    ensures notes { OnOk result (notes.new
        ≡ noted notes.old (else_of (option_reading no.now) context scopes.old).notes) }
    ensures outer { OnOk result (left scopes.new ≡ left scopes.old) }
{
    match no {
        None => Ok(None),
        Some(statement) => {
            let tree = inner(alloc, context, statement.get(), scopes, notes)?;
            Ok(Some(tree))
        }
    }
}

// Where a `while` or a `do` begins, and its test.
#[derive(Clone, Copy)]
struct LoopHead<'a> {
    at: &'a Position,
    test: &'a Boxed<Expr>,
}

// `while`
#[cycle(stat)]
#[tactic(auto, unfolding(ooo_checked::specs::Stats::stat_of), using(crate::specs::Noting::noted_append))]
fn while_stat(
    alloc: Global,
    context: Context,
    head: LoopHead<'_>,
    body: &Stat,
    scopes: &mut Scopes,
    notes: &mut Notes,
) -> Result<CheckedStat, AllocError>
    ensures tree { IfOk result (λ tree. tree ≡ (while_of head.entry.at.now
        head.entry.test.now (stat_of body.now) context scopes.old).tree) }
    ensures scope { OnOk result (scopes.new ≡ (while_of head.entry.at.now
        head.entry.test.now (stat_of body.now) context scopes.old).scope) }
    ensures notes { OnOk result (notes.new ≡ noted notes.old (while_of head.entry.at.now
        head.entry.test.now (stat_of body.now) context scopes.old).notes) }
    ensures outer { OnOk result (left scopes.new ≡ left scopes.old) }
{
    let test = boxed(alloc, head.test.get(), scopes, notes)?;
    let body = keeping!(test; inner(alloc, looped(context), body, scopes, notes));
    Ok(CheckedStat::While(*head.at, test, body))
}

// `do`
#[cycle(stat)]
#[tactic(auto, unfolding(ooo_checked::specs::Stats::stat_of), using(crate::specs::Noting::noted_append))]
fn do_stat(
    alloc: Global,
    context: Context,
    head: LoopHead<'_>,
    body: &Stat,
    scopes: &mut Scopes,
    notes: &mut Notes,
) -> Result<CheckedStat, AllocError>
    ensures tree { IfOk result (λ tree. tree ≡ (do_of head.entry.at.now
        (stat_of body.now) head.entry.test.now context scopes.old).tree) }
    ensures scope { OnOk result (scopes.new ≡ (do_of head.entry.at.now
        (stat_of body.now) head.entry.test.now context scopes.old).scope) }
    ensures notes { OnOk result (notes.new ≡ noted notes.old (do_of head.entry.at.now
        (stat_of body.now) head.entry.test.now context scopes.old).notes) }
    ensures outer { OnOk result (left scopes.new ≡ left scopes.old) }
{
    let body = inner(alloc, looped(context), body, scopes, notes)?;
    let test = keeping!(body; boxed(alloc, head.test.get(), scopes, notes));
    Ok(CheckedStat::Do(*head.at, body, test))
}

// Where a `for` begins, and what stands in its parentheses.
#[derive(Clone, Copy)]
struct ForHead<'a> {
    at: &'a Position,
    begins: &'a Option<Boxed<ForStart>>,
    test: &'a Option<Boxed<Expr>>,
    after: &'a Option<Boxed<Simple>>,
}

// What stands in the parentheses of a `for`, with what its names denote.
#[derive(Drop)]
struct CheckedForHead {
    begins: Option<Boxed<CheckedStart>>,
    test: Option<Boxed<CheckedExpr>>,
    after: Option<Boxed<CheckedSimple>>,
}

// What stands in the parentheses of a `for`, read in the scope that its block begins with.
#[tactic(auto, using(crate::specs::Noting::noted_append))]
fn for_head(
    alloc: Global,
    context: Context,
    head: ForHead<'_>,
    scopes: &mut Scopes,
    notes: &mut Notes,
) -> Result<CheckedForHead, AllocError>
    ensures begins { IfOk result (λ made. made.begins
        ≡ (option_start_of context head.entry.begins.now scopes.old).tree) }
    ensures test { IfOk result (λ made. made.test ≡ tree_of (option_of head.entry.test.now
        (option_start_of context head.entry.begins.now scopes.old).scope)) }
    ensures after { IfOk result (λ made. made.after ≡ (step_of head.entry.after.now
        (option_start_of context head.entry.begins.now scopes.old).scope).tree) }
    ensures scope { OnOk result (scopes.new
        ≡ (option_start_of context head.entry.begins.now scopes.old).scope) }
    ensures notes { OnOk result (notes.new ≡ noted notes.old (head_notes context
        head.entry.begins.now head.entry.test.now head.entry.after.now scopes.old)) }
    ensures outer { OnOk result (left scopes.new ≡ left scopes.old) }
{
    let begins = got!(option_start(alloc, context, head.begins, scopes, notes));
    let test = keeping!(begins; boxed_option(alloc, head.test, scopes, notes));
    let after = keeping!(begins, test; step(alloc, head.after, scopes, notes));
    Ok(CheckedForHead {
        begins,
        test,
        after,
    })
}

// `for`
#[cycle(stat)]
#[tactic(auto, unfolding(ooo_checked::specs::Stats::stat_of), using(crate::specs::Noting::noted_append))]
fn for_stat(
    alloc: Global,
    context: Context,
    head: ForHead<'_>,
    body: &Stat,
    scopes: &mut Scopes,
    notes: &mut Notes,
) -> Result<CheckedStat, AllocError>
    ensures tree { IfOk result (λ tree. tree ≡ (for_of head.entry.at.now head.entry.begins.now
        head.entry.test.now head.entry.after.now (stat_of body.now) context scopes.old).tree) }
    ensures scope { OnOk result (scopes.new ≡ (for_of head.entry.at.now head.entry.begins.now
        head.entry.test.now head.entry.after.now (stat_of body.now) context scopes.old).scope) }
    ensures notes { OnOk result (notes.new ≡ noted notes.old (for_of head.entry.at.now
        head.entry.begins.now head.entry.test.now head.entry.after.now (stat_of body.now)
        context scopes.old).notes) }
    ensures outer { OnOk result (left scopes.new ≡ left scopes.old) }
{
    scopes.enter()?;
    let made = for_head(alloc, context, head, scopes, notes)?;
    let body = keeping!(made; inner(alloc, looped(context), body, scopes, notes));
    scopes.leave();
    let CheckedForHead {
        begins,
        test,
        after,
    } = made;
    Ok(CheckedStat::For(*head.at, begins, test, after, body))
}
