use crate::printed::paper::{Paper, kind_letters, operator_sign, unit_word};
use ooo_bound::{BoundExpr, BoundTarget, BoundTime, BoundWait};

/// An expression, with its operator before its operands.
#[cycle(expression)]
pub(crate) fn expression(paper: &mut Paper, e: &BoundExpr) {
    match e {
        BoundExpr::Constant(value) => paper.value(*value),
        BoundExpr::Local(of, slot) => paper.local(*of, *slot),
        BoundExpr::Variable(number) => paper.named("v", *number),
        BoundExpr::Signal(number) => paper.named("s", *number),
        BoundExpr::Changed(number) => paper.named("changed ", *number),
        BoundExpr::Edge(number, true) => paper.named("rise ", *number),
        BoundExpr::Edge(number, false) => paper.named("fall ", *number),
        BoundExpr::Available(number) => paper.named("available ", *number),
        BoundExpr::Free(number) => paper.named("free ", *number),
        BoundExpr::Element(number, index) => {
            paper.named("v", *number);
            paper.put("[");
            expression(paper, index.get());
            paper.put("]");
        }
        BoundExpr::Convert(to, e) => on_one(paper, kind_letters(*to), e.get()),
        BoundExpr::Promote(e) => on_one(paper, "+", e.get()),
        BoundExpr::Negate(e) => on_one(paper, "-", e.get()),
        BoundExpr::Invert(e) => on_one(paper, "~", e.get()),
        BoundExpr::Not(e) => on_one(paper, "!", e.get()),
        BoundExpr::Binary(op, a, b) => {
            opened(paper, operator_sign(*op), a.get());
            closed(paper, b.get());
        }
        BoundExpr::Both(a, b) => {
            opened(paper, "&&", a.get());
            closed(paper, b.get());
        }
        BoundExpr::Either(a, b) => {
            opened(paper, "||", a.get());
            closed(paper, b.get());
        }
        BoundExpr::Choose(of, test, a, b) => {
            paper.put("(?");
            paper.put(kind_letters(*of));
            paper.put(" ");
            expression(paper, test.get());
            paper.put(" ");
            expression(paper, a.get());
            closed(paper, b.get());
        }
    }
}

// An operator and its operand.
#[cycle(expression)]
fn on_one(paper: &mut Paper, sign: &str, e: &BoundExpr) {
    opened(paper, sign, e);
    paper.put(")");
}

// An operator and its first operand.
#[cycle(expression)]
fn opened(paper: &mut Paper, sign: &str, e: &BoundExpr) {
    begin(paper, sign);
    expression(paper, e);
}

// The last operand of an operator.
#[cycle(expression)]
fn closed(paper: &mut Paper, e: &BoundExpr) {
    paper.put(" ");
    expression(paper, e);
    paper.put(")");
}

// What stands before an operator's operands.
fn begin(paper: &mut Paper, sign: &str) {
    paper.put("(");
    paper.put(sign);
    paper.put(" ");
}

/// Expressions with commas between them.
pub(crate) fn expressions(paper: &mut Paper, all: &[BoundExpr]) {
    for (place, e) in all.iter().enumerate() {
        paper.between(place, ", ");
        expression(paper, e);
    }
}

/// A time: its ticks, or its amount and unit.
pub(crate) fn time(paper: &mut Paper, time: &BoundTime) {
    match time {
        BoundTime::Fixed(time) => paper.ticks(*time),
        BoundTime::Amount(e, scale) => {
            expression(paper, e);
            paper.put(" ");
            paper.put(unit_word(*scale));
        }
    }
}

/// What is waited for: the time or `-`, and the events.
pub(crate) fn wait(paper: &mut Paper, wait: &BoundWait) {
    if wait.is_static {
        paper.put("static ");
    }
    match &wait.time {
        Some(e) => time(paper, e),
        None => paper.put("-"),
    }
    paper.put(" ");
    paper.numbers(wait.events.as_slice());
}

/// What a value is put into; `_` is nothing.
pub(crate) fn target(paper: &mut Paper, target: &BoundTarget) {
    match target {
        BoundTarget::Nothing => paper.put("_"),
        BoundTarget::Local(of, slot) => paper.local(*of, *slot),
        BoundTarget::Variable(number) => paper.named("v", *number),
        BoundTarget::Signal(number) => paper.named("s", *number),
        BoundTarget::Element(number, index) => {
            paper.named("v", *number);
            paper.put("[");
            expression(paper, index);
            paper.put("]");
        }
    }
}
