use crate::expressions::expression;
use crate::paper::Paper;
use ooo_syntax::{Awaited, Event, TimeForm};

pub(crate) fn time(paper: &mut Paper, form: &TimeForm) {
    match form {
        TimeForm::Zero(_) => paper.put("SC_ZERO_TIME"),
        TimeForm::Made(_, amount, scale) => {
            paper.put("sc_time (");
            expression(paper, amount);
            paper.put(",");
            paper.scale(*scale);
            paper.put(")");
        }
        TimeForm::Amount(amount, scale) => {
            expression(paper, amount);
            paper.put(",");
            paper.scale(*scale);
        }
    }
}

/// Events with a sign between them.
pub(crate) fn events(paper: &mut Paper, sign: &str, list: &[Event]) {
    for (n, event) in list.iter().enumerate() {
        paper.between(n, sign);
        paper.word(&event.name);
        if let Some(call) = &event.call {
            paper.put(".");
            paper.word(call);
            paper.put("( )");
        }
    }
}

/// What `wait` or `next_trigger` waits for, in its parentheses.
pub(crate) fn awaited(paper: &mut Paper, what: &Awaited) {
    paper.put("(");
    match what {
        Awaited::Sensitive => {}
        Awaited::Delay(delay) => time(paper, delay),
        Awaited::Until(most, list) => {
            time(paper, most);
            paper.put(",");
            events(paper, "|", list.as_slice());
        }
        Awaited::Events(list) => events(paper, "|", list.as_slice()),
    }
    paper.put(")");
}
