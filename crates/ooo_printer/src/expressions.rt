use crate::paper::Paper;
use ooo_syntax::{BinaryOp, Expr, PrefixOp, TypeName, Word};
use sqlite_items::Boxed;

#[cycle(expression)]
pub(crate) fn expression(paper: &mut Paper, e: &Expr) {
    match e {
        Expr::Number(number) => paper.number(number),
        Expr::Truth(true, _) => paper.put("true"),
        Expr::Truth(false, _) => paper.put("false"),
        Expr::Name(name) => paper.word(name),
        Expr::Paren(_, e) => in_parens(paper, e.get()),
        Expr::Index(name, index) => element(paper, name, index.get()),
        Expr::Call(name, args) => {
            paper.word(name);
            paper.put("(");
            for (n, arg) in args.as_slice().iter().enumerate() {
                paper.between(n, ",");
                expression(paper, arg);
            }
            paper.put(")");
        }
        Expr::Member(name, called, arg) => {
            paper.member(name, called);
            paper.put("(");
            if let Some(arg) = arg {
                expression(paper, arg.get());
            }
            paper.put(")");
        }
        Expr::Prefix(_, op, e) => behind(paper, prefix_sign(*op), e.get()),
        Expr::Cast(_, form, e) => cast(paper, form, e.get()),
        Expr::Conversion(form, e) => {
            paper.type_name(form);
            in_parens(paper, e.get());
        }
        Expr::Binary(op, a, b) => {
            expression(paper, a.get());
            behind(paper, binary_sign(*op), b.get());
        }
        Expr::Choose(c, a, b) => {
            expression(paper, c.get());
            behind(paper, "?", a.get());
            behind(paper, ":", b.get());
        }
    }
}

// An expression in parentheses.
#[cycle(expression)]
fn in_parens(paper: &mut Paper, e: &Expr) {
    paper.put("(");
    expression(paper, e);
    paper.put(")");
}

// An element of an array.
#[cycle(expression)]
fn element(paper: &mut Paper, array: &Word, index: &Expr) {
    paper.word(array);
    paper.put("[");
    expression(paper, index);
    paper.put("]");
}

// An expression behind a type in parentheses.
#[cycle(expression)]
fn cast(paper: &mut Paper, form: &TypeName, e: &Expr) {
    paper.put("(");
    paper.type_name(form);
    paper.put(")");
    expression(paper, e);
}

// A sign, and the expression behind it.
#[cycle(expression)]
fn behind(paper: &mut Paper, sign: &str, e: &Expr) {
    paper.put(sign);
    expression(paper, e);
}

/// Expressions with commas between them.
pub(crate) fn expressions(paper: &mut Paper, list: &[Expr]) {
    for (n, e) in list.iter().enumerate() {
        paper.between(n, ",");
        expression(paper, e);
    }
}

/// An expression behind a sign, where there is one.
pub(crate) fn value_after(paper: &mut Paper, sign: &str, value: &Option<Expr>) {
    if let Some(value) = value {
        paper.put(sign);
        expression(paper, value);
    }
}

/// The same of an expression on the heap.
pub(crate) fn boxed_after(paper: &mut Paper, sign: &str, value: &Option<Boxed<Expr>>) {
    if let Some(value) = value {
        paper.put(sign);
        expression(paper, value.get());
    }
}

fn prefix_sign(op: PrefixOp) -> &'static str {
    match op {
        PrefixOp::Not => "!",
        PrefixOp::Invert => "~",
        PrefixOp::Negate => "-",
        PrefixOp::Keep => "+",
    }
}

fn binary_sign(op: BinaryOp) -> &'static str {
    match op {
        BinaryOp::Either => "||",
        BinaryOp::Both => "&&",
        BinaryOp::Or => "|",
        BinaryOp::Xor => "^",
        BinaryOp::And => "&",
        BinaryOp::Equal => "==",
        BinaryOp::NotEqual => "!=",
        BinaryOp::Less => "<",
        BinaryOp::LessEqual => "<=",
        BinaryOp::Greater => ">",
        BinaryOp::GreaterEqual => ">=",
        BinaryOp::ShiftLeft => "<<",
        BinaryOp::ShiftRight => ">>",
        BinaryOp::Add => "+",
        BinaryOp::Subtract => "-",
        BinaryOp::Multiply => "*",
        BinaryOp::Divide => "/",
        BinaryOp::Remainder => "%",
    }
}
