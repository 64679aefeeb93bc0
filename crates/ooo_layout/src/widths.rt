ghost use Rattle.std.specs.Prelude.{◌≡◌, ◌+◌, length, IfOk};
ghost use Rattle.ooo_shapes.specs.Widths.{body_widths, both, count_of, expr_widths, exprs_widths};
ghost use Rattle.ooo_shapes.specs.Widths.{after_widths, item_widths, items_widths, nothing, option_widths};
ghost use Rattle.ooo_shapes.specs.Widths.{params_widths, right_widths, simple_widths, simples_widths};
ghost use Rattle.ooo_layout.specs.Widths.{else_widths};
ghost use Rattle.ooo_shapes.specs.Widths.{stat_widths, start_of, target_widths, time_widths, up_to, wait_widths};

use crate::numbers::{narrow, sum};
use ooo_bound::{
    BoundExpr, BoundItem, BoundRight, BoundSimple, BoundStat, BoundTarget, BoundTime, LinedSimple,
};
use ooo_shapes::Widths;
use ooo_value::Kind;
use sqlite_items::{Boxed, Items};
use std::alloc::AllocError;

/// No slots.
const NOTHING: Widths = Widths {
    bools: 0,
    ints: 0,
    uints: 0,
    longs: 0,
    ulongs: 0,
};

/// As many slots as both need.
pub(crate) fn both(v: Widths, w: Widths) -> Widths
    ensures { result ≡ both v w }
{
    Widths {
        bools: v.bools.max(w.bools),
        ints: v.ints.max(w.ints),
        uints: v.uints.max(w.uints),
        longs: v.longs.max(w.longs),
        ulongs: v.ulongs.max(w.ulongs),
    }
}

// The slots up to that of a local.
fn up_to(kind: Kind, slot: u32) -> Widths
    ensures { result ≡ up_to kind slot }
{
    let count = slot as u64 + 1;
    match kind {
        Kind::Bool => Widths {
            bools: count,
            ..NOTHING
        },
        Kind::Int => Widths {
            ints: count,
            ..NOTHING
        },
        Kind::Uint => Widths {
            uints: count,
            ..NOTHING
        },
        Kind::Long => Widths {
            longs: count,
            ..NOTHING
        },
        Kind::Ulong => Widths {
            ulongs: count,
            ..NOTHING
        },
    }
}

/// How many slots there are.
pub(crate) fn count_of(w: Widths) -> Result<u64, AllocError>
    ensures { IfOk result (λ n. n ≡ count_of w) }
{
    let words = sum(sum(w.bools, w.ints)?, w.uints)?;
    sum(sum(words, w.longs)?, w.ulongs)
}

/// The slots that parameters need.
#[tactic(auto, using(crate::proofs::Joined::both_assoc, crate::proofs::Joined::both_nothing, crate::proofs::Joined::nothing_both))]
pub(crate) fn of_params(kinds: &[Kind]) -> Result<Widths, AllocError>
    ensures { IfOk result (λ w. w ≡ params_widths 0 kinds.now) }
{
    let mut all = NOTHING;
    let mut slot = 0;
    'parts: for kind in kinds {
        all = both(all, up_to(*kind, narrow(slot)?));
        slot += 1;
    }
    Ok(all)
}

/// Where the locals of a kind begin among the slots of all locals, which are so many of each kind: the number of slots before
/// them.
///
/// # Errors
///
/// Out of memory where 64 bits don't hold it.
pub fn start_of(w: Widths, kind: Kind) -> Result<u64, AllocError>
    ensures { IfOk result (λ n. n ≡ start_of w kind) }
{
    match kind {
        Kind::Bool => Ok(0),
        Kind::Int => Ok(w.bools),
        Kind::Uint => sum(w.bools, w.ints),
        Kind::Long => sum(sum(w.bools, w.ints)?, w.uints),
        Kind::Ulong => sum(sum(sum(w.bools, w.ints)?, w.uints)?, w.longs),
    }
}

#[tactic(auto, unfolding(ooo_shapes::specs::Widths::expr_widths))]
fn of_expr(e: &BoundExpr) -> Widths
    ensures { result ≡ expr_widths e.now }
{
    match e {
        BoundExpr::Local(kind, slot) => up_to(*kind, *slot),
        BoundExpr::Element(_, e)
        | BoundExpr::Convert(_, e)
        | BoundExpr::Promote(e)
        | BoundExpr::Negate(e)
        | BoundExpr::Invert(e)
        | BoundExpr::Not(e) => of_expr(e.get()),
        BoundExpr::Binary(_, a, b) | BoundExpr::Both(a, b) | BoundExpr::Either(a, b) => {
            let left = of_expr(a.get());
            both(left, of_expr(b.get()))
        }
        BoundExpr::Choose(_, c, a, b) => {
            let test = of_expr(c.get());
            let left = of_expr(a.get());
            both(test, both(left, of_expr(b.get())))
        }
        BoundExpr::Constant(_)
        | BoundExpr::Variable(_)
        | BoundExpr::Signal(_)
        | BoundExpr::Changed(_)
        | BoundExpr::Edge(_, _)
        | BoundExpr::Available(_)
        | BoundExpr::Free(_) => NOTHING,
    }
}

// Of expressions one after the other.
#[tactic(auto, using(crate::proofs::Joined::both_assoc, crate::proofs::Joined::both_nothing, crate::proofs::Joined::nothing_both))]
fn of_exprs(es: &[BoundExpr]) -> Widths
    ensures { result ≡ exprs_widths es.now }
{
    let mut all = NOTHING;
    'parts: for part in es {
        all = both(all, of_expr(part));
    }
    all
}

// Of an expression, if there is one.
fn of_option(e: &Option<Boxed<BoundExpr>>) -> Widths
    ensures { result ≡ option_widths e.now }
{
    match e {
        None => NOTHING,
        Some(e) => of_expr(e.get()),
    }
}

fn of_time(time: &BoundTime) -> Widths
    ensures { result ≡ time_widths time.now }
{
    match time {
        BoundTime::Fixed(_) => NOTHING,
        BoundTime::Amount(e, _) => of_expr(e),
    }
}

// Of the time of a wait, if it has one.
fn of_wait(time: &Option<BoundTime>) -> Widths
    ensures { result ≡ wait_widths time.now }
{
    match time {
        None => NOTHING,
        Some(time) => of_time(time),
    }
}

fn of_target(target: &BoundTarget) -> Widths
    ensures { result ≡ target_widths target.now }
{
    match target {
        BoundTarget::Local(kind, slot) => up_to(*kind, *slot),
        BoundTarget::Element(_, index) => of_expr(index),
        BoundTarget::Nothing | BoundTarget::Variable(_) | BoundTarget::Signal(_) => NOTHING,
    }
}

fn of_right(right: &BoundRight) -> Widths
    ensures { result ≡ right_widths right.now }
{
    match right {
        BoundRight::Value(e) => of_expr(e),
        BoundRight::Call(_, args) => of_exprs(args.as_slice()),
        BoundRight::Read(_) => NOTHING,
        BoundRight::NbRead(_, into) => of_target(into),
        BoundRight::NbWrite(_, e) => of_expr(e),
    }
}

fn of_item(item: &BoundItem) -> Widths
    ensures { result ≡ item_widths item.now }
{
    match item {
        BoundItem::Value(e) => of_expr(e),
        BoundItem::Text(_) | BoundItem::Time => NOTHING,
    }
}

#[tactic(auto, using(crate::proofs::Joined::both_assoc, crate::proofs::Joined::both_nothing, crate::proofs::Joined::nothing_both))]
fn of_items(items: &[BoundItem]) -> Widths
    ensures { result ≡ items_widths items.now }
{
    let mut all = NOTHING;
    'parts: for part in items {
        all = both(all, of_item(part));
    }
    all
}

fn of_simple(simple: &BoundSimple) -> Widths
    ensures { result ≡ simple_widths simple.now }
{
    match simple {
        BoundSimple::Assign(target, right) => {
            let into = of_target(target);
            both(into, of_right(right))
        }
        BoundSimple::Update(target, _, e) => {
            let into = of_target(target);
            both(into, of_expr(e))
        }
        BoundSimple::Write(_, e) => of_expr(e),
        BoundSimple::Notify(_, time) => of_time(time),
        BoundSimple::Wait(wait) | BoundSimple::NextTrigger(wait) => of_wait(&wait.time),
        BoundSimple::Print(items) => of_items(items.as_slice()),
        BoundSimple::Cancel(_) | BoundSimple::Stop => NOTHING,
    }
}

#[tactic(auto, using(crate::proofs::Joined::both_assoc, crate::proofs::Joined::both_nothing, crate::proofs::Joined::nothing_both))]
fn of_simples(simples: &[LinedSimple]) -> Widths
    ensures { result ≡ simples_widths simples.now }
{
    let mut all = NOTHING;
    'parts: for part in simples {
        all = both(all, of_simple(&part.simple));
    }
    all
}

// Of what a `for` does after each turn.
fn of_after(after: &Option<Boxed<LinedSimple>>) -> Widths
    ensures { result ≡ after_widths after.now }
{
    match after {
        None => NOTHING,
        Some(after) => of_simple(&after.get().simple),
    }
}

// Of the statement after `else`, if there is one.
#[cycle(stat)]
#[tactic(auto, unfolding(ooo_shapes::specs::Widths::stat_widths))]
fn of_else(no: &Option<Boxed<BoundStat>>) -> Widths
    ensures { result ≡ else_widths no.now }
{
    match no {
        None => NOTHING,
        Some(stat) => of_stat(stat.get()),
    }
}

#[cycle(stat)]
#[tactic(auto, unfolding(ooo_shapes::specs::Widths::stat_widths))]
fn of_stat(stat: &BoundStat) -> Widths
    ensures { result ≡ stat_widths stat.now }
{
    match stat {
        BoundStat::Block(body) => of_body(body.as_slice()),
        BoundStat::Simple(part) => of_simple(&part.get().simple),
        BoundStat::If(_, test, yes, no) => {
            let test = of_expr(test.get());
            let yes = of_stat(yes.get());
            both(test, both(yes, of_else(no)))
        }
        BoundStat::While(_, test, body) => {
            let test = of_expr(test.get());
            both(test, of_stat(body.get()))
        }
        BoundStat::Do(_, body, test) => {
            let body = of_stat(body.get());
            both(body, of_expr(test.get()))
        }
        BoundStat::For(_, begin, test, after, body) => {
            let begin = of_simples(begin.as_slice());
            let test = of_option(test);
            let after = of_after(after);
            both(begin, both(test, both(after, of_stat(body.get()))))
        }
        BoundStat::Return(_, value) => of_option(value),
        BoundStat::Break(_) | BoundStat::Continue(_) => NOTHING,
    }
}

/// The slots that the locals of a body need, of each kind.
#[cycle(stat)]
#[tactic(auto, unfolding(ooo_shapes::specs::Widths::stat_widths), using(crate::proofs::Joined::both_assoc, crate::proofs::Joined::both_nothing, crate::proofs::Joined::nothing_both))]
pub fn of_body(body: &[BoundStat]) -> Widths
    ensures { result ≡ body_widths body.now }
{
    let mut all = NOTHING;
    'parts: for part in body {
        all = both(all, of_stat(part));
    }
    all
}
