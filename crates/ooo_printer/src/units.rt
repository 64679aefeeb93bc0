use crate::members::{channel_word, constant, module};
use crate::paper::Paper;
use crate::setups::{args, binding};
use crate::times::time;
use ooo_syntax::{
    Library, Main, MainChannel, MainItem, MainValues, StartForm, Unit, UnitItem, Word,
};
use std::alloc::{AllocError, Global};

/// A tree as a text, in which a blank stands between two tokens.
///
/// # Errors
///
/// Only where memory runs out.
pub fn print(alloc: Global, unit: &Unit) -> Result<Vec<u8>, AllocError> {
    let mut paper = Paper::new(alloc);
    write(&mut paper, unit);
    paper.into_text()
}

fn write(paper: &mut Paper, unit: &Unit) {
    for item in unit.items.as_slice() {
        match item {
            UnitItem::Using(library) => using(paper, *library),
            UnitItem::Constant(made) => constant(paper, made),
            UnitItem::Module(made) => module(paper, made),
        }
    }
    main(paper, &unit.main);
}

fn using(paper: &mut Paper, library: Library) {
    paper.put(match library {
        Library::ScCore => "using namespace sc_core ;",
        Library::ScDt => "using namespace sc_dt ;",
        Library::Std => "using namespace std ;",
    });
}

fn main(paper: &mut Paper, made: &Main) {
    paper.put("int sc_main ( int");
    given(paper, &made.count);
    paper.put(", char *");
    match &made.values {
        MainValues::Array(name) => {
            given(paper, name);
            paper.put("[ ] ) {");
        }
        MainValues::Pointer(name) => {
            paper.put("*");
            given(paper, name);
            paper.put(") {");
        }
    }
    for item in made.items.as_slice() {
        main_item(paper, item);
    }
    started(paper, &made.start);
    if let Some(number) = &made.returned {
        paper.put("return");
        paper.number(number);
        paper.put(";");
    }
    paper.put("}");
}

fn given(paper: &mut Paper, name: &Option<Word>) {
    if let Some(name) = name {
        paper.word(name);
    }
}

fn started(paper: &mut Paper, start: &Option<StartForm>) {
    match start {
        None => {}
        Some(StartForm::Open(_)) => paper.put("sc_start ( ) ;"),
        Some(StartForm::Limited(_, form)) => {
            paper.put("sc_start (");
            time(paper, form.get());
            paper.put(") ;");
        }
    }
}

fn main_item(paper: &mut Paper, item: &MainItem) {
    match item {
        MainItem::Constant(made) => constant(paper, made),
        MainItem::Channel(made) => main_channel(paper, made),
        MainItem::Clock(_, name, text, period) => {
            paper.put("sc_clock");
            paper.word(name);
            paper.put("(");
            paper.text(text);
            paper.put(",");
            time(paper, period.get());
            paper.put(") ;");
        }
        MainItem::Instance(module_name, name, list) => {
            paper.word(module_name);
            paper.word(name);
            paper.put("(");
            args(paper, list.as_slice());
            paper.put(") ;");
        }
        MainItem::Bind(made) => binding(paper, made),
    }
}

fn main_channel(paper: &mut Paper, made: &MainChannel) {
    paper.put(channel_word(made.channel));
    paper.put("<");
    paper.type_name(&made.form);
    paper.put(">");
    paper.word(&made.name);
    if let Some(list) = &made.args {
        paper.put("(");
        args(paper, list.as_slice());
        paper.put(")");
    }
    paper.put(";");
}
