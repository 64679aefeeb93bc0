use crate::printed::expressions::expression;
use crate::printed::paper::Paper;
use crate::printed::simple::lined;
use ooo_bound::{BoundExpr, BoundStat, LinedSimple};
use sqlite_items::Boxed;

/// Statements in their braces.
#[cycle(statement)]
pub(crate) fn block(paper: &mut Paper, body: &[BoundStat]) {
    paper.put("{");
    for (place, stat) in body.iter().enumerate() {
        paper.between(place, " ");
        statement(paper, stat);
    }
    paper.put("}");
}

#[cycle(statement)]
fn statement(paper: &mut Paper, stat: &BoundStat) {
    match stat {
        BoundStat::Block(body) => block(paper, body.as_slice()),
        BoundStat::Simple(simple) => lined(paper, simple.get()),
        BoundStat::If(line, test, yes, no) => {
            tested(paper, *line, "if", test.get());
            statement(paper, yes.get());
            if let Some(no) = no {
                paper.put(" else ");
                statement(paper, no.get());
            }
        }
        BoundStat::While(line, test, body) => {
            tested(paper, *line, "while", test.get());
            statement(paper, body.get());
        }
        BoundStat::Do(line, body, test) => {
            head(paper, *line, "do ");
            statement(paper, body.get());
            paper.put(" while (");
            expression(paper, test.get());
            paper.put(")");
        }
        BoundStat::For(line, begins, test, after, body) => {
            turns(paper, *line, begins.as_slice(), test, after);
            statement(paper, body.get());
        }
        BoundStat::Break(line) => head(paper, *line, "break;"),
        BoundStat::Continue(line) => head(paper, *line, "continue;"),
        BoundStat::Return(line, value) => {
            head(paper, *line, "return");
            value_after(paper, " ", value);
            paper.put(";");
        }
    }
}

// The line and the word of a statement.
fn head(paper: &mut Paper, line: u32, word: &str) {
    paper.number(line);
    paper.put(":");
    paper.put(word);
}

// A statement's word, and its test in parentheses.
fn tested(paper: &mut Paper, line: u32, word: &str, test: &BoundExpr) {
    head(paper, line, word);
    paper.put(" (");
    expression(paper, test);
    paper.put(") ");
}

// What a `for` has in its parentheses.
fn turns(
    paper: &mut Paper,
    line: u32,
    begins: &[LinedSimple],
    test: &Option<Boxed<BoundExpr>>,
    after: &Option<Boxed<LinedSimple>>,
) {
    head(paper, line, "for (");
    for simple in begins {
        lined(paper, simple);
    }
    value_after(paper, "; ", test);
    paper.put("; ");
    if let Some(after) = after {
        lined(paper, after.get());
    }
    paper.put(") ");
}

// A sign, and an expression behind it, if there is one.
fn value_after(paper: &mut Paper, sign: &str, value: &Option<Boxed<BoundExpr>>) {
    if let Some(e) = value {
        paper.put(sign);
        expression(paper, e.get());
    }
}
