use crate::paper::{Paper, kind_letters, operator_sign, unit_word};
use ooo_code::{NodeExpr, NodeTime, NodeWait};

/// An expression, with its operator before its operands.
#[cycle(expression)]
pub(crate) fn expression(paper: &mut Paper, e: &NodeExpr) {
    match e {
        NodeExpr::Constant(value) => paper.value(*value),
        NodeExpr::Slot(number) => paper.named("$", *number),
        NodeExpr::Variable(number) => paper.named("v", *number),
        NodeExpr::Signal(number) => paper.named("s", *number),
        NodeExpr::Event(number) => paper.named("changed ", *number),
        NodeExpr::Edge(number, true) => paper.named("rise ", *number),
        NodeExpr::Edge(number, false) => paper.named("fall ", *number),
        NodeExpr::Available(number) => paper.named("available ", *number),
        NodeExpr::Free(number) => paper.named("free ", *number),
        NodeExpr::Element(number, index) => {
            paper.named("v", *number);
            paper.put("[");
            expression(paper, index.get());
            paper.put("]");
        }
        NodeExpr::Convert(to, e) => on_one(paper, kind_letters(*to), e.get()),
        NodeExpr::Negate(e) => on_one(paper, "-", e.get()),
        NodeExpr::Invert(e) => on_one(paper, "~", e.get()),
        NodeExpr::Not(e) => on_one(paper, "!", e.get()),
        NodeExpr::Binary(op, a, b) => {
            opened(paper, operator_sign(*op), a.get());
            closed(paper, b.get());
        }
        NodeExpr::And(a, b) => {
            opened(paper, "&&", a.get());
            closed(paper, b.get());
        }
        NodeExpr::Or(a, b) => {
            opened(paper, "||", a.get());
            closed(paper, b.get());
        }
        NodeExpr::Choose(test, a, b) => {
            begin(paper, "?");
            expression(paper, test.get());
            paper.put(" ");
            expression(paper, a.get());
            paper.put(" ");
            expression(paper, b.get());
            paper.put(")");
        }
    }
}

// An operator and its operand.
#[cycle(expression)]
fn on_one(paper: &mut Paper, sign: &str, e: &NodeExpr) {
    opened(paper, sign, e);
    paper.put(")");
}

// An operator and its first operand.
#[cycle(expression)]
fn opened(paper: &mut Paper, sign: &str, e: &NodeExpr) {
    begin(paper, sign);
    expression(paper, e);
}

// The last operand of an operator.
#[cycle(expression)]
fn closed(paper: &mut Paper, e: &NodeExpr) {
    paper.put(" ");
    expression(paper, e);
    paper.put(")");
}

// What stands before an operator's operands.
fn begin(paper: &mut Paper, sign: &str) {
    paper.put("(");
    paper.put(sign);
    paper.put(" ");
}

/// A time: its ticks, or its amount and unit.
pub(crate) fn time(paper: &mut Paper, time: &NodeTime) {
    match time {
        NodeTime::Fixed(time) => paper.ticks(*time),
        NodeTime::Amount(e, scale) => {
            expression(paper, e);
            paper.put(" ");
            paper.put(unit_word(*scale));
        }
    }
}

/// What is waited for: the time or `-`, and the events.
pub(crate) fn wait(paper: &mut Paper, wait: &NodeWait) {
    if wait.is_static {
        paper.put("static ");
    }
    match &wait.time {
        Some(e) => time(paper, e),
        None => paper.put("-"),
    }
    paper.put(" ");
    paper.numbers(wait.events.as_slice());
}
