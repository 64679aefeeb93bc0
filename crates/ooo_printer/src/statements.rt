use crate::expressions::{boxed_after, expression, expressions, value_after};
use crate::paper::Paper;
use crate::times::{awaited, time};
use ooo_syntax::{AssignOp, Expr, ForStart, Local, PrintItem, Simple, Stat, StepOp, Target};
use sqlite_items::Boxed;

/// Statements in their braces.
#[cycle(statement)]
pub(crate) fn block(paper: &mut Paper, body: &[Stat]) {
    paper.put("{");
    for stat in body {
        statement(paper, stat);
    }
    paper.put("}");
}

#[cycle(statement)]
fn statement(paper: &mut Paper, stat: &Stat) {
    match stat {
        Stat::Block(_, body) => block(paper, body.as_slice()),
        Stat::Empty(_) => paper.put(";"),
        Stat::Local(declared) => {
            local(paper, declared.get());
            paper.put(";");
        }
        Stat::Simple(done) => {
            simple(paper, done.get());
            paper.put(";");
        }
        Stat::If(_, e, then, other) => {
            tested(paper, "if", e.get());
            statement(paper, then.get());
            if let Some(other) = other {
                paper.put("else");
                statement(paper, other.get());
            }
        }
        Stat::While(_, e, body) => {
            tested(paper, "while", e.get());
            statement(paper, body.get());
        }
        Stat::Do(_, body, e) => {
            paper.put("do");
            statement(paper, body.get());
            tested(paper, "while", e.get());
            paper.put(";");
        }
        Stat::For(_, start, test, step, body) => {
            turns(paper, start, test, step);
            statement(paper, body.get());
        }
        Stat::Break(_) => paper.put("break ;"),
        Stat::Continue(_) => paper.put("continue ;"),
        Stat::Return(_, value) => {
            boxed_after(paper, "return", value);
            paper.put(if value.is_none() { "return ;" } else { ";" });
        }
    }
}

// A word and an expression in parentheses.
fn tested(paper: &mut Paper, word: &str, e: &Expr) {
    paper.put(word);
    paper.put("(");
    expression(paper, e);
    paper.put(")");
}

// What a `for` has in its parentheses.
fn turns(
    paper: &mut Paper,
    start: &Option<Boxed<ForStart>>,
    test: &Option<Boxed<Expr>>,
    step: &Option<Boxed<Simple>>,
) {
    paper.put("for (");
    match start {
        None => {}
        Some(start) => match start.get() {
            ForStart::Local(declared) => local(paper, declared),
            ForStart::Simple(done) => simple(paper, done),
        },
    }
    boxed_after(paper, ";", test);
    paper.put(if test.is_none() { "; ;" } else { ";" });
    if let Some(step) = step {
        simple(paper, step.get());
    }
    paper.put(")");
}

fn local(paper: &mut Paper, declared: &Local) {
    paper.type_name(&declared.form);
    for (n, declarator) in declared.names.as_slice().iter().enumerate() {
        paper.between(n, ",");
        paper.word(&declarator.name);
        value_after(paper, "=", &declarator.value);
    }
}

fn target(paper: &mut Paper, what: &Target) {
    paper.word(&what.name);
    if let Some(index) = &what.index {
        paper.put("[");
        expression(paper, index);
        paper.put("]");
    }
}

fn simple(paper: &mut Paper, done: &Simple) {
    match done {
        Simple::Assign(what, op, value) => {
            target(paper, what);
            paper.put(assign_sign(*op));
            expression(paper, value);
        }
        Simple::StepAfter(what, op) => {
            target(paper, what);
            paper.put(step_sign(*op));
        }
        Simple::StepBefore(_, op, what) => {
            paper.put(step_sign(*op));
            target(paper, what);
        }
        Simple::Call(name, args) => {
            paper.word(name);
            in_parens(paper, args.as_slice());
        }
        Simple::Member(name, called, arg) => {
            paper.member(name, called);
            value_after(paper, "(", arg);
            paper.put(if arg.is_none() { "( )" } else { ")" });
        }
        Simple::Notify(name, _, delay) => {
            paper.word(name);
            paper.put(". notify (");
            time(paper, delay);
            paper.put(")");
        }
        Simple::Cancel(name, _) => {
            paper.word(name);
            paper.put(". cancel ( )");
        }
        Simple::Wait(_, what) => {
            paper.put("wait");
            awaited(paper, what);
        }
        Simple::NextTrigger(_, what) => {
            paper.put("next_trigger");
            awaited(paper, what);
        }
        Simple::Stop(_) => paper.put("sc_stop ( )"),
        Simple::Print(_, items) => printed(paper, items.as_slice()),
    }
}

// The arguments of a call.
fn in_parens(paper: &mut Paper, args: &[Expr]) {
    paper.put("(");
    expressions(paper, args);
    paper.put(")");
}

fn printed(paper: &mut Paper, items: &[PrintItem]) {
    paper.put("cout");
    for item in items {
        paper.put("<<");
        match item {
            PrintItem::Value(e) => expression(paper, e),
            PrintItem::Text(text) => paper.text(text),
            PrintItem::Line(_) => paper.put("endl"),
            PrintItem::TimeStamp(_) => paper.put("sc_time_stamp ( )"),
        }
    }
}

fn assign_sign(op: AssignOp) -> &'static str {
    match op {
        AssignOp::Set => "=",
        AssignOp::Add => "+=",
        AssignOp::Subtract => "-=",
        AssignOp::Multiply => "*=",
        AssignOp::Divide => "/=",
        AssignOp::Remainder => "%=",
        AssignOp::And => "&=",
        AssignOp::Or => "|=",
        AssignOp::Xor => "^=",
        AssignOp::ShiftLeft => "<<=",
        AssignOp::ShiftRight => ">>=",
    }
}

fn step_sign(op: StepOp) -> &'static str {
    match op {
        StepOp::Up => "++",
        StepOp::Down => "--",
    }
}
