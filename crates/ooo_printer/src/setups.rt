//! Constructors, and what stands in them.

use crate::expressions::expression;
use crate::members::params;
use crate::paper::Paper;
use crate::times::{events, time};
use ooo_syntax::{Arg, Binding, Constructor, Init, Setup};

pub(crate) fn args(paper: &mut Paper, list: &[Arg]) {
    for (n, arg) in list.iter().enumerate() {
        paper.between(n, ",");
        match arg {
            Arg::Text(text) => paper.text(text),
            Arg::Time(form) => time(paper, form.get()),
            Arg::Value(e) => expression(paper, e.get()),
        }
    }
}

pub(crate) fn binding(paper: &mut Paper, made: &Binding) {
    paper.word(&made.instance);
    paper.put(".");
    paper.word(&made.port);
    paper.put(if made.is_by_bind { ". bind (" } else { "(" });
    paper.word(&made.channel);
    paper.put(") ;");
}

pub(crate) fn constructor(paper: &mut Paper, made: &Constructor) {
    match made {
        Constructor::Named(module, inits, body) => {
            paper.put("SC_CTOR (");
            paper.word(module);
            paper.put(")");
            initialised(paper, inits.as_slice());
            setups(paper, body.as_slice());
        }
        Constructor::Written(module, name, list, inits, body) => {
            paper.word(module);
            paper.put("( sc_module_name");
            paper.word(name);
            if !list.is_empty() {
                paper.put(",");
            }
            params(paper, list.as_slice());
            paper.put(")");
            initialised(paper, inits.as_slice());
            setups(paper, body.as_slice());
        }
    }
}

fn initialised(paper: &mut Paper, inits: &[Init]) {
    for (n, init) in inits.iter().enumerate() {
        paper.put(if n == 0 { ":" } else { "," });
        paper.word(&init.name);
        paper.put("(");
        args(paper, init.args.as_slice());
        paper.put(")");
    }
}

fn setups(paper: &mut Paper, body: &[Setup]) {
    paper.put("{");
    for step in body {
        setup(paper, step);
    }
    paper.put("}");
}

fn setup(paper: &mut Paper, step: &Setup) {
    match step {
        Setup::Thread(_, function) => {
            paper.put("SC_THREAD (");
            paper.word(function);
            paper.put(") ;");
        }
        Setup::Method(_, function) => {
            paper.put("SC_METHOD (");
            paper.word(function);
            paper.put(") ;");
        }
        Setup::Sensitive(_, list) => {
            paper.put("sensitive <<");
            events(paper, "<<", list.as_slice());
            paper.put(";");
        }
        Setup::DontInitialize(_) => paper.put("dont_initialize ( ) ;"),
        Setup::Bind(made) => binding(paper, made),
        Setup::Set(name, e) => {
            paper.word(name);
            paper.put("=");
            expression(paper, e.get());
            paper.put(";");
        }
    }
}
