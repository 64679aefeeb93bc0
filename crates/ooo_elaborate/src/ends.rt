ghost use Rattle.std.specs.Prelude.{◌≡◌};
ghost use Rattle.ooo_elaborate.specs.Ends.{after_holds, body_holds, else_holds, expr_holds, exprs_hold};
ghost use Rattle.ooo_elaborate.specs.Ends.{item_holds, items_hold, lined_hold, option_holds};
ghost use Rattle.ooo_elaborate.specs.Ends.{right_holds, simple_holds, some_time_holds, stat_holds};
ghost use Rattle.ooo_elaborate.specs.Ends.{target_holds, time_holds};

use crate::holders::{End, Held, hold};
use ooo_bound::{
    BoundExpr, BoundItem, BoundRight, BoundSimple, BoundStat, BoundTarget, BoundTime, LinedSimple,
};
use sqlite_items::{Boxed, Items};

// A process holds the ends of an expression.
#[cycle(expr)]
#[tactic(auto, unfolding(crate::specs::Ends::expr_holds))]
fn hold_expr(process: u32, e: &BoundExpr, all: &mut Items<Held>)
    ensures { all.new ≡ expr_holds process e.now all.old }
{
    match e {
        BoundExpr::Available(channel) => hold(process, End::Reading(*channel), all),
        BoundExpr::Free(channel) => hold(process, End::Writing(*channel), all),
        BoundExpr::Element(_, e)
        | BoundExpr::Convert(_, e)
        | BoundExpr::Promote(e)
        | BoundExpr::Negate(e)
        | BoundExpr::Invert(e)
        | BoundExpr::Not(e) => hold_expr(process, e.get(), all),
        BoundExpr::Binary(_, a, b) | BoundExpr::Both(a, b) | BoundExpr::Either(a, b) => {
            hold_expr(process, a.get(), all);
            hold_expr(process, b.get(), all);
        }
        BoundExpr::Choose(_, c, a, b) => {
            hold_expr(process, c.get(), all);
            hold_expr(process, a.get(), all);
            hold_expr(process, b.get(), all);
        }
        BoundExpr::Constant(_)
        | BoundExpr::Local(_, _)
        | BoundExpr::Variable(_)
        | BoundExpr::Signal(_)
        | BoundExpr::Changed(_)
        | BoundExpr::Edge(_, _) => {}
    }
}

// The same of expressions one after the other.
fn hold_exprs(process: u32, es: &[BoundExpr], all: &mut Items<Held>)
    ensures { all.new ≡ exprs_hold process es.now all.old }
{
    'parts: for part in es {
        hold_expr(process, part, all);
    }
}

// The same of an expression, if there is one.
fn hold_option(process: u32, e: &Option<Boxed<BoundExpr>>, all: &mut Items<Held>)
    ensures { all.new ≡ option_holds process e.now all.old }
{
    if let Some(e) = e {
        hold_expr(process, e.get(), all);
    }
}

// The same of a time.
fn hold_time(process: u32, time: &BoundTime, all: &mut Items<Held>)
    ensures { all.new ≡ time_holds process time.now all.old }
{
    if let BoundTime::Amount(e, _) = time {
        hold_expr(process, e, all);
    }
}

// The same of a time, if there is one.
fn hold_some_time(process: u32, time: &Option<BoundTime>, all: &mut Items<Held>)
    ensures { all.new ≡ some_time_holds process time.now all.old }
{
    if let Some(time) = time {
        hold_time(process, time, all);
    }
}

// The same of what a value is put into.
fn hold_target(process: u32, target: &BoundTarget, all: &mut Items<Held>)
    ensures { all.new ≡ target_holds process target.now all.old }
{
    match target {
        BoundTarget::Signal(channel) => hold(process, End::Writing(*channel), all),
        BoundTarget::Element(_, index) => hold_expr(process, index, all),
        BoundTarget::Nothing | BoundTarget::Local(_, _) | BoundTarget::Variable(_) => {}
    }
}

// The same of what gives a value.
fn hold_right(process: u32, right: &BoundRight, all: &mut Items<Held>)
    ensures { all.new ≡ right_holds process right.now all.old }
{
    match right {
        BoundRight::Value(e) => hold_expr(process, e, all),
        BoundRight::Call(_, args) => hold_exprs(process, args.as_slice(), all),
        BoundRight::Read(channel) => hold(process, End::Reading(*channel), all),
        BoundRight::NbRead(channel, target) => {
            hold(process, End::Reading(*channel), all);
            hold_target(process, target, all);
        }
        BoundRight::NbWrite(channel, e) => {
            hold(process, End::Writing(*channel), all);
            hold_expr(process, e, all);
        }
    }
}

// The same of what a print writes.
fn hold_item(process: u32, item: &BoundItem, all: &mut Items<Held>)
    ensures { all.new ≡ item_holds process item.now all.old }
{
    if let BoundItem::Value(e) = item {
        hold_expr(process, e, all);
    }
}

// The same of what a print writes, one item after the other.
fn hold_items(process: u32, items: &[BoundItem], all: &mut Items<Held>)
    ensures { all.new ≡ items_hold process items.now all.old }
{
    'parts: for part in items {
        hold_item(process, part, all);
    }
}

// The same of a simple statement.
fn hold_simple(process: u32, simple: &BoundSimple, all: &mut Items<Held>)
    ensures { all.new ≡ simple_holds process simple.now all.old }
{
    match simple {
        BoundSimple::Assign(target, right) => {
            hold_target(process, target, all);
            hold_right(process, right, all);
        }
        BoundSimple::Update(target, _, e) => {
            hold_target(process, target, all);
            hold_expr(process, e, all);
        }
        BoundSimple::Write(channel, e) => {
            hold(process, End::Writing(*channel), all);
            hold_expr(process, e, all);
        }
        BoundSimple::Notify(_, time) => hold_time(process, time, all),
        BoundSimple::Wait(wait) | BoundSimple::NextTrigger(wait) => {
            hold_some_time(process, &wait.time, all);
        }
        BoundSimple::Print(items) => hold_items(process, items.as_slice(), all),
        BoundSimple::Cancel(_) | BoundSimple::Stop => {}
    }
}

// The same of simple statements one after the other.
fn hold_lined(process: u32, parts: &[LinedSimple], all: &mut Items<Held>)
    ensures { all.new ≡ lined_hold process parts.now all.old }
{
    'parts: for part in parts {
        hold_simple(process, &part.simple, all);
    }
}

// The same of what a `for` does after each turn.
fn hold_after(process: u32, after: &Option<Boxed<LinedSimple>>, all: &mut Items<Held>)
    ensures { all.new ≡ after_holds process after.now all.old }
{
    if let Some(after) = after {
        hold_simple(process, &after.get().simple, all);
    }
}

// The same of the statement after `else`, if there is one.
#[cycle(stat)]
#[tactic(auto, unfolding(crate::specs::Ends::stat_holds))]
fn hold_else(process: u32, no: &Option<Boxed<BoundStat>>, all: &mut Items<Held>)
    ensures { all.new ≡ else_holds process no.now all.old }
{
    if let Some(stat) = no {
        hold_stat(process, stat.get(), all);
    }
}

// The same of a statement.
#[cycle(stat)]
#[tactic(auto, unfolding(crate::specs::Ends::stat_holds))]
fn hold_stat(process: u32, stat: &BoundStat, all: &mut Items<Held>)
    ensures { all.new ≡ stat_holds process stat.now all.old }
{
    match stat {
        BoundStat::Block(body) => hold_body(process, body.as_slice(), all),
        BoundStat::Simple(part) => hold_simple(process, &part.get().simple, all),
        BoundStat::If(_, test, yes, no) => {
            hold_expr(process, test.get(), all);
            hold_stat(process, yes.get(), all);
            hold_else(process, no, all);
        }
        BoundStat::While(_, test, body) => {
            hold_expr(process, test.get(), all);
            hold_stat(process, body.get(), all);
        }
        BoundStat::Do(_, body, test) => {
            hold_stat(process, body.get(), all);
            hold_expr(process, test.get(), all);
        }
        BoundStat::For(_, begin, test, after, body) => {
            hold_lined(process, begin.as_slice(), all);
            hold_option(process, test, all);
            hold_after(process, after, all);
            hold_stat(process, body.get(), all);
        }
        BoundStat::Return(_, value) => hold_option(process, value, all),
        BoundStat::Break(_) | BoundStat::Continue(_) => {}
    }
}

/// A process holds the ends of the statements of a body.
#[cycle(stat)]
#[tactic(auto, unfolding(crate::specs::Ends::stat_holds))]
pub(crate) fn hold_body(process: u32, body: &[BoundStat], all: &mut Items<Held>)
    ensures { all.new ≡ body_holds process body.now all.old }
{
    'parts: for part in body {
        hold_stat(process, part, all);
    }
}
