use crate::printed::expressions::{expression, expressions, target, time, wait};
use crate::printed::paper::{Paper, operator_sign};
use ooo_bound::{BoundItem, BoundRight, BoundSimple, LinedSimple};

/// A statement without statements in it, behind its line.
pub(crate) fn lined(paper: &mut Paper, lined: &LinedSimple) {
    paper.number(lined.line);
    paper.put(":");
    simple(paper, &lined.simple);
    paper.put(";");
}

fn simple(paper: &mut Paper, simple: &BoundSimple) {
    match simple {
        BoundSimple::Assign(to, value) => {
            target(paper, to);
            paper.put(" := ");
            right(paper, value);
        }
        BoundSimple::Update(to, op, e) => {
            target(paper, to);
            paper.put(" ");
            paper.put(operator_sign(*op));
            paper.put("= ");
            expression(paper, e);
        }
        BoundSimple::Write(number, e) => {
            paper.named("put ", *number);
            paper.put(" ");
            expression(paper, e);
        }
        BoundSimple::Notify(number, delay) => {
            paper.named("notify ", *number);
            paper.put(" ");
            time(paper, delay);
        }
        BoundSimple::Cancel(number) => paper.named("cancel ", *number),
        BoundSimple::Wait(on) => {
            paper.put("wait ");
            wait(paper, on);
        }
        BoundSimple::NextTrigger(on) => {
            paper.put("trigger ");
            wait(paper, on);
        }
        BoundSimple::Stop => paper.put("stop"),
        BoundSimple::Print(items) => print(paper, items.as_slice()),
    }
}

// What gives a value.
fn right(paper: &mut Paper, right: &BoundRight) {
    match right {
        BoundRight::Value(e) => expression(paper, e),
        BoundRight::Call(number, args) => {
            paper.named("call ", *number);
            paper.put("(");
            expressions(paper, args.as_slice());
            paper.put(")");
        }
        BoundRight::Read(number) => paper.named("read ", *number),
        BoundRight::NbRead(number, to) => {
            paper.named("nb_read ", *number);
            paper.put(" ");
            target(paper, to);
        }
        BoundRight::NbWrite(number, e) => {
            paper.named("nb_write ", *number);
            paper.put(" ");
            expression(paper, e);
        }
    }
}

// What a print writes.
fn print(paper: &mut Paper, items: &[BoundItem]) {
    paper.put("print");
    for item in items {
        paper.put(" ");
        match item {
            BoundItem::Value(e) => expression(paper, e),
            BoundItem::Text(text) => paper.quoted(text.as_bytes()),
            BoundItem::Time => paper.put("time"),
        }
    }
}
