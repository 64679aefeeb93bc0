ghost use Rattle.std.specs.Prelude.{◌≡◌, ◌∷◌, ◌++◌, [], IfOk};
ghost use Rattle.ooo_bound.specs.declared.stat.BoundStat.TheVariants as made;
ghost use Rattle.ooo_checked.specs.declared.stat.CheckedStart.TheVariants as start;
ghost use Rattle.ooo_numbers.specs.Exprs.{expr_of, option_of};
ghost use Rattle.ooo_numbers.specs.Names.{numbering_of};
ghost use Rattle.ooo_numbers.specs.Simples.{declarators_of, lined_of, local_of};
ghost use Rattle.ooo_numbers.specs.Stats.{after_of, as_stats, else_of, start_of, stat_of, stats_of};

use crate::exprs::{boxed, option};
use crate::numbers::Numbers;
use crate::simples::{boxed_declarator, boxed_lined, lined, local, with};
use ooo_bound::{BoundExpr, BoundStat, LinedSimple};
use ooo_checked::{
    CheckedDeclarator, CheckedExpr, CheckedLocal, CheckedSimple, CheckedStart, CheckedStat,
};
use ooo_constants::kind_written;
use ooo_value::Kind;
use sqlite_items::{Boxed, Items};
use std::alloc::{AllocError, Global};

// A list with one statement more at its end.
fn with_stat(mut list: Items<BoundStat>, more: BoundStat) -> Result<Items<BoundStat>, AllocError>
    ensures { IfOk result (λ all. all ≡ list ++ more ∷ []) }
{
    keeping!(list; list.push(more));
    Ok(list)
}

// A statement that is made already, onto the heap.
fn boxed_stat(alloc: Global, tree: BoundStat) -> Result<Boxed<BoundStat>, AllocError>
    ensures { IfOk result (λ boxed. boxed ≡ tree) }
{
    Boxed::new(alloc, tree)
}

// Declarators one after the other, as statements.
fn declared(
    alloc: Global,
    numbers: Numbers<'_>,
    kind: Kind,
    line: u32,
    names: &[CheckedDeclarator],
) -> Result<Items<BoundStat>, AllocError>
    ensures { IfOk result (λ all. all
        ≡ as_stats (declarators_of (numbering_of numbers.entry) kind line names.now)) }
{
    let mut all = Items::new(alloc);
    'parts: for part in names {
        let lined = keeping!(all; boxed_declarator(alloc, numbers, kind, line, part));
        all = with_stat(all, BoundStat::Simple(lined))?;
    }
    Ok(all)
}

// A declaration of locals, as statements.
fn local_stats(
    alloc: Global,
    numbers: Numbers<'_>,
    given: &CheckedLocal,
) -> Result<Items<BoundStat>, AllocError>
    ensures { IfOk result
        (λ all. all ≡ as_stats (local_of (numbering_of numbers.entry) given.now)) }
{
    let kind = kind_written(given.form.form);
    declared(
        alloc,
        numbers,
        kind,
        given.form.position.line,
        given.names.as_slice(),
    )
}

// A declaration of locals as a statement.
fn local_stat(
    alloc: Global,
    numbers: Numbers<'_>,
    given: &CheckedLocal,
) -> Result<BoundStat, AllocError>
    ensures { IfOk result (λ tree. tree
        ≡ BoundStat.Block (as_stats (local_of (numbering_of numbers.entry) given.now))) }
{
    let body = got!(local_stats(alloc, numbers, given));
    Ok(BoundStat::Block(body))
}

// A simple statement as a statement.
fn plain_stat(
    alloc: Global,
    numbers: Numbers<'_>,
    statement: &CheckedSimple,
) -> Result<BoundStat, AllocError>
    ensures { IfOk result (λ tree. tree
        ≡ BoundStat.Simple (lined_of (numbering_of numbers.entry) statement.now)) }
{
    let lined = got!(boxed_lined(alloc, numbers, statement));
    Ok(BoundStat::Simple(lined))
}

// `return`
fn return_stat(
    alloc: Global,
    numbers: Numbers<'_>,
    line: u32,
    value: &Option<Boxed<CheckedExpr>>,
) -> Result<BoundStat, AllocError>
    ensures { IfOk result (λ tree. tree
        ≡ BoundStat.Return line (option_of (numbering_of numbers.entry) value.now)) }
{
    let value = got!(option(alloc, numbers, value));
    Ok(BoundStat::Return(line, value))
}

// A statement by itself.
fn single(
    alloc: Global,
    numbers: Numbers<'_>,
    statement: &CheckedSimple,
) -> Result<Items<LinedSimple>, AllocError>
    ensures { IfOk result (λ all. all
        ≡ start_of (numbering_of numbers.entry) (Some (start.Simple statement.now))) }
{
    let lined = got!(lined(alloc, numbers, statement));
    with(Items::new(alloc), lined)
}

// What a `for` begins with.
fn start(
    alloc: Global,
    numbers: Numbers<'_>,
    begins: &Option<Boxed<CheckedStart>>,
) -> Result<Items<LinedSimple>, AllocError>
    ensures { IfOk result (λ all. all ≡ start_of (numbering_of numbers.entry) begins.now) }
{
    match begins {
        None => Ok(Items::new(alloc)),
        Some(begins) => match begins.get() {
            CheckedStart::Local(given) => local(alloc, numbers, given),
            CheckedStart::Simple(statement) => single(alloc, numbers, statement),
        },
    }
}

// What a `for` does after each turn, if it says so.
fn after(
    alloc: Global,
    numbers: Numbers<'_>,
    statement: &Option<Boxed<CheckedSimple>>,
) -> Result<Option<Boxed<LinedSimple>>, AllocError>
    ensures { IfOk result (λ lined. lined ≡ after_of (numbering_of numbers.entry) statement.now) }
{
    match statement {
        None => Ok(None),
        Some(statement) => {
            let lined = boxed_lined(alloc, numbers, statement.get())?;
            Ok(Some(lined))
        }
    }
}

// What stands in the parentheses of a `for`.
#[derive(Drop)]
struct ForHead {
    begins: Items<LinedSimple>,
    test: Option<Boxed<BoundExpr>>,
    after: Option<Boxed<LinedSimple>>,
}

impl ForHead {
    // The `for` with this head around a body.
    fn around(self, line: u32, body: Boxed<BoundStat>) -> BoundStat
        ensures { result ≡ made.For line self.begins self.test self.after body }
    {
        BoundStat::For(line, self.begins, self.test, self.after, body)
    }
}

// The head of a `for`.
fn for_head(
    alloc: Global,
    numbers: Numbers<'_>,
    begins: &Option<Boxed<CheckedStart>>,
    test: &Option<Boxed<CheckedExpr>>,
    step: &Option<Boxed<CheckedSimple>>,
) -> Result<ForHead, AllocError>
    ensures begins { IfOk result (λ head.
        head.begins ≡ start_of (numbering_of numbers.entry) begins.now) }
    ensures test { IfOk result (λ head.
        head.test ≡ option_of (numbering_of numbers.entry) test.now) }
    ensures after { IfOk result (λ head.
        head.after ≡ after_of (numbering_of numbers.entry) step.now) }
{
    let begins = start(alloc, numbers, begins)?;
    let test = keeping!(begins; option(alloc, numbers, test));
    let after = keeping!(begins, test; after(alloc, numbers, step));
    Ok(ForHead {
        begins,
        test,
        after,
    })
}

// An `if` by its test and the statements that are made already.
fn if_stat(
    alloc: Global,
    numbers: Numbers<'_>,
    line: u32,
    test: &CheckedExpr,
    yes: Boxed<BoundStat>,
    no: Option<Boxed<BoundStat>>,
) -> Result<BoundStat, AllocError>
    ensures { IfOk result (λ tree. tree
        ≡ BoundStat.If line (expr_of (numbering_of numbers.entry) test.now) yes no) }
{
    let test = keeping!(yes, no; boxed(alloc, numbers, test));
    Ok(BoundStat::If(line, test, yes, no))
}

// A `while` by its test and the body that is made already.
fn while_stat(
    alloc: Global,
    numbers: Numbers<'_>,
    line: u32,
    test: &CheckedExpr,
    body: Boxed<BoundStat>,
) -> Result<BoundStat, AllocError>
    ensures { IfOk result (λ tree. tree
        ≡ BoundStat.While line (expr_of (numbering_of numbers.entry) test.now) body) }
{
    let test = keeping!(body; boxed(alloc, numbers, test));
    Ok(BoundStat::While(line, test, body))
}

// A `do` by the body that is made already and its test.
fn do_stat(
    alloc: Global,
    numbers: Numbers<'_>,
    line: u32,
    body: Boxed<BoundStat>,
    test: &CheckedExpr,
) -> Result<BoundStat, AllocError>
    ensures { IfOk result (λ tree. tree
        ≡ BoundStat.Do line body (expr_of (numbering_of numbers.entry) test.now)) }
{
    let test = keeping!(body; boxed(alloc, numbers, test));
    Ok(BoundStat::Do(line, body, test))
}

// A `for` by its head and the body that is made already.
fn for_stat(
    alloc: Global,
    numbers: Numbers<'_>,
    line: u32,
    begins: &Option<Boxed<CheckedStart>>,
    test: &Option<Boxed<CheckedExpr>>,
    step: &Option<Boxed<CheckedSimple>>,
    body: Boxed<BoundStat>,
) -> Result<BoundStat, AllocError>
    ensures { IfOk result (λ tree. tree ≡ BoundStat.For line
        (start_of (numbering_of numbers.entry) begins.now)
        (option_of (numbering_of numbers.entry) test.now)
        (after_of (numbering_of numbers.entry) step.now) body) }
{
    let head = keeping!(body; for_head(alloc, numbers, begins, test, step));
    Ok(head.around(line, body))
}

// A statement.
#[cycle(stat)]
#[tactic(auto, unfolding(crate::specs::Stats::stat_of))]
fn stat(
    alloc: Global,
    numbers: Numbers<'_>,
    statement: &CheckedStat,
) -> Result<BoundStat, AllocError>
    ensures { IfOk result (λ tree. tree ≡ stat_of (numbering_of numbers.entry) statement.now) }
{
    match statement {
        CheckedStat::Block(_, body) => block(alloc, numbers, body.as_slice()),
        CheckedStat::Empty(_) => Ok(BoundStat::Block(Items::new(alloc))),
        CheckedStat::Local(given) => local_stat(alloc, numbers, given.get()),
        CheckedStat::Simple(statement) => plain_stat(alloc, numbers, statement.get()),
        CheckedStat::If(at, test, yes, no) => {
            let yes = got!(inner(alloc, numbers, yes.get()));
            let no = keeping!(yes; otherwise(alloc, numbers, no));
            if_stat(alloc, numbers, at.line, test.get(), yes, no)
        }
        CheckedStat::While(at, test, body) => {
            let body = got!(inner(alloc, numbers, body.get()));
            while_stat(alloc, numbers, at.line, test.get(), body)
        }
        CheckedStat::Do(at, body, test) => {
            let body = got!(inner(alloc, numbers, body.get()));
            do_stat(alloc, numbers, at.line, body, test.get())
        }
        CheckedStat::For(at, begins, test, step, body) => {
            let body = got!(inner(alloc, numbers, body.get()));
            for_stat(alloc, numbers, at.line, begins, test, step, body)
        }
        CheckedStat::Break(at) => Ok(BoundStat::Break(at.line)),
        CheckedStat::Continue(at) => Ok(BoundStat::Continue(at.line)),
        CheckedStat::Return(at, value) => return_stat(alloc, numbers, at.line, value),
    }
}

// A block.
#[cycle(stat)]
fn block(alloc: Global, numbers: Numbers<'_>, body: &[CheckedStat]) -> Result<BoundStat, AllocError>
    ensures { IfOk result (λ tree.
        tree ≡ BoundStat.Block (stats_of (numbering_of numbers.entry) body.now)) }
{
    let body = got!(stats(alloc, numbers, body));
    Ok(BoundStat::Block(body))
}

// No statement yet, with room for so many.
fn room(alloc: Global, count: usize) -> Result<Items<BoundStat>, AllocError>
    ensures { IfOk result (λ all. all ≡ []) }
{
    Ok(Items::from_vec(Vec::with_capacity(alloc, count)?))
}

/// The statements of a body, with numbers in place of names.
///
/// # Errors
///
/// Only where memory runs out, or where a number is above `2^32 - 1`, which no source of a MiB has.
#[cycle(stat)]
#[tactic(auto, unfolding(crate::specs::Stats::stat_of))]
pub fn stats(
    alloc: Global,
    numbers: Numbers<'_>,
    body: &[CheckedStat],
) -> Result<Items<BoundStat>, AllocError>
    ensures { IfOk result (λ all. all ≡ stats_of (numbering_of numbers.entry) body.now) }
{
    let mut all = room(alloc, body.len())?;
    'parts: for part in body {
        let tree = keeping!(all; stat(alloc, numbers, part));
        all = with_stat(all, tree)?;
    }
    Ok(all)
}

// A statement inside another, on the heap.
#[cycle(stat)]
#[tactic(auto, unfolding(crate::specs::Stats::stat_of))]
fn inner(
    alloc: Global,
    numbers: Numbers<'_>,
    statement: &CheckedStat,
) -> Result<Boxed<BoundStat>, AllocError>
    ensures { IfOk result (λ tree. tree ≡ stat_of (numbering_of numbers.entry) statement.now) }
{
    let tree = got!(stat(alloc, numbers, statement));
    boxed_stat(alloc, tree)
}

// The statement after `else`, if there is one.
#[cycle(stat)]
#[tactic(auto, unfolding(crate::specs::Stats::stat_of))]
fn otherwise(
    alloc: Global,
    numbers: Numbers<'_>,
    no: &Option<Boxed<CheckedStat>>,
) -> Result<Option<Boxed<BoundStat>>, AllocError>
    ensures { IfOk result (λ tree. tree ≡ else_of (numbering_of numbers.entry) no.now) }
{
    match no {
        None => Ok(None),
        Some(statement) => {
            let tree = got!(inner(alloc, numbers, statement.get()));
            Ok(Some(tree))
        }
    }
}
