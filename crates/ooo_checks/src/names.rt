//! Whole texts, by their bytes: what is refused of names and types, and what is accepted.

mod table;

use ooo_checked::TypeError;
use ooo_lexer::{LexError, MOST_BYTES, Position, lex};
use ooo_parser::parse;
use ooo_syntax::{ParseError, Unit};
use ooo_types::check;
use std::alloc::{AllocError, Global};
use std::process::Abort;
use std::test::Fail;

// What stands before and after a row in its text.
struct Frame {
    file: &'static str,
    members: &'static str,
    before: &'static str,
    after: &'static str,
}

static TEXT: Frame = Frame {
    file: "",
    members: "",
    before: "",
    after: "",
};

static ITEM: Frame = Frame {
    file: "",
    members: "",
    before: "\n",
    after: "\nint sc_main(int, char*[]) {}\n",
};

static MAIN: Frame = Frame {
    file: table::FILE_HEAD,
    members: "",
    before: "int sc_main(int argc, char* argv[]) {\n",
    after: "\n}\n",
};

static MEMBER: Frame = Frame {
    file: table::FILE_HEAD,
    members: "",
    before: "SC_MODULE(M) {\n",
    after: "\n};\nint sc_main(int, char*[]) {}\n",
};

static SETUP: Frame = Frame {
    file: table::FILE_HEAD,
    members: table::MODULE_HEAD,
    before: "void run() {} SC_CTOR(M) {\n",
    after: "\n} };\nint sc_main(int, char*[]) {}\n",
};

static SENSITIVE: Frame = Frame {
    file: table::FILE_HEAD,
    members: table::MODULE_HEAD,
    before: "void run() {} SC_CTOR(M) { SC_THREAD(run); sensitive <<\n",
    after: "\n; } };\nint sc_main(int, char*[]) {}\n",
};

static INIT: Frame = Frame {
    file: table::FILE_HEAD,
    members: table::MODULE_HEAD,
    before: "void run() {} SC_CTOR(M) :\n",
    after: "\n{} };\nint sc_main(int, char*[]) {}\n",
};

static BUILD: Frame = Frame {
    file: table::FILE_HEAD,
    members: table::MODULE_HEAD,
    before: "M(sc_module_name name, int size, bool wide) :\n",
    after: "\n{} };\nint sc_main(int, char*[]) {}\n",
};

static THREAD: Frame = Frame {
    file: table::FILE_HEAD,
    members: table::MODULE_HEAD,
    before: "SC_CTOR(M) { SC_THREAD(run); } void run() {\n",
    after: "\n} };\nint sc_main(int, char*[]) {}\n",
};

static METHOD: Frame = Frame {
    file: table::FILE_HEAD,
    members: table::MODULE_HEAD,
    before: "SC_CTOR(M) { SC_METHOD(run); } void run() {\n",
    after: "\n} };\nint sc_main(int, char*[]) {}\n",
};

static LOOSE: Frame = Frame {
    file: table::FILE_HEAD,
    members: table::MODULE_HEAD,
    before: "void loose() {\n",
    after: "\n} };\nint sc_main(int, char*[]) {}\n",
};

static VALUE: Frame = Frame {
    file: table::FILE_HEAD,
    members: table::MODULE_HEAD,
    before: "int value() {\n",
    after: "\n} };\nint sc_main(int, char*[]) {}\n",
};

// The tables, each with what stands around its rows.
fn tables() -> [(&'static Frame, &'static str); 33] {
    [
        (&THREAD, table::NAMES),
        (&THREAD, table::DOTS),
        (&THREAD, table::SIGNALS),
        (&THREAD, table::FIFOS),
        (&THREAD, table::TARGETS),
        (&THREAD, table::WRITES),
        (&THREAD, table::VALUES),
        (&THREAD, table::CALLS),
        (&THREAD, table::LOCALS),
        (&THREAD, table::LOOPS),
        (&THREAD, table::WAITS),
        (&METHOD, table::METHODS),
        (&LOOSE, table::LOOSE),
        (&VALUE, table::RESULTS),
        (&SENSITIVE, table::SENSITIVE),
        (&SETUP, table::SETUPS),
        (&INIT, table::INITS),
        (&BUILD, table::PARAMS),
        (&MEMBER, table::MEMBERS),
        (&MEMBER, table::FUNCTIONS),
        (&MEMBER, table::CONSTRUCTORS),
        (&MEMBER, table::ORDER),
        (&MAIN, table::MAINS),
        (&ITEM, table::FILES),
        (&TEXT, table::TEXTS),
        (&MEMBER, table::REGISTERED),
        (&ITEM, table::STRANGERS),
        (&THREAD, table::OPEN_BODIES),
        (&MEMBER, table::OPEN_MEMBERS),
        (&BUILD, table::OPEN_INITS),
        (&SETUP, table::OPEN_SETUPS),
        (&MAIN, table::OPEN_MAINS),
        (&TEXT, table::SHORTEST),
    ]
}

// A name of a breach with its layer, but for names and types, and its line and column.
fn refused(alloc: Global, name: &str, at: Position) -> Result<Vec<u8>, AllocError> {
    let line = at.line;
    let column = at.column;
    let text = format!(in alloc; "{name} {line}:{column}")?;
    Vec::from_slice(alloc, text.as_bytes())
}

// `ok`, or why the text is refused.
fn outcome(rt: &impl Abort, alloc: Global, source: &[u8]) -> Result<Vec<u8>, AllocError> {
    assert!(rt; source.len() <= MOST_BYTES);
    match lex(alloc, source) {
        Ok(tokens) => match parse(alloc, source, &tokens) {
            Ok(unit) => checked(alloc, unit),
            Err(ParseError::Refused(breach, at)) => {
                let name = format!(in alloc; "parser {breach}")?;
                refused(alloc, &name, at)
            }
            Err(ParseError::OutOfMemory) => Err(AllocError),
        },
        Err(LexError::Refused(breach, at)) => {
            let name = format!(in alloc; "lexer {breach}")?;
            refused(alloc, &name, at)
        }
        Err(LexError::OutOfMemory) => Err(AllocError),
    }
}

// `ok`, or what is wrong with the names and types of a text.
fn checked(alloc: Global, unit: Unit) -> Result<Vec<u8>, AllocError> {
    match check(alloc, unit) {
        Ok(tree) => {
            drop(tree);
            Vec::from_slice(alloc, b"ok")
        }
        Err(TypeError::Refused(breach, at)) => refused(alloc, breach.name(), at),
        Err(TypeError::OutOfMemory) => Err(AllocError),
    }
}

fn framed(alloc: Global, frame: &Frame, body: &str) -> Result<Vec<u8>, AllocError> {
    let mut text = Vec::from_slice(alloc, frame.file.as_bytes())?;
    text.extend_from_slice(frame.members.as_bytes())?;
    text.extend_from_slice(frame.before.as_bytes())?;
    text.extend_from_slice(body.as_bytes())?;
    text.extend_from_slice(frame.after.as_bytes())?;
    Ok(text)
}

// Adds a row to the wrong ones where another answer is found than is wanted.
fn try_row(
    rt: &impl Abort,
    alloc: Global,
    frame: &Frame,
    row: &str,
    wrong: &mut Vec<u8>,
) -> Result<(), AllocError> {
    let Some((body, wanted)) = row.split_once(" => ") else {
        return Ok(());
    };
    let text = framed(alloc, frame, body)?;
    let found = outcome(rt, alloc, text.as_slice())?;
    if found.as_slice() != wanted.as_bytes() {
        wrong.push(b'\n')?;
        wrong.extend_from_slice(row.as_bytes())?;
        wrong.extend_from_slice(b", and not ")?;
        wrong.extend_from_slice(found.as_slice())?;
    }
    Ok(())
}

// Adds the wrong rows of a table, whose lines are a body, ` => ` and what is wanted.
fn try_rows(
    rt: &impl Abort,
    alloc: Global,
    frame: &Frame,
    rows: &str,
    wrong: &mut Vec<u8>,
) -> Result<(), AllocError> {
    for row in rows.lines() {
        try_row(rt, alloc, frame, row, wrong)?;
    }
    Ok(())
}

// All wrong rows are told, each with what is found.
#[test]
fn each_row_has_its_answer(rt: HostRuntime) -> Result<(), Fail> {
    let alloc = rt.alloc();
    let mut wrong = Vec::new(alloc);
    for (frame, rows) in tables() {
        try_rows(&rt, alloc, frame, rows, &mut wrong)?;
    }
    let text = String::from_utf8_lossy(alloc, wrong.as_slice())?;
    assert!(rt; wrong.is_empty(), "{text}");
    Ok(())
}

// The members are declared before the body is read, but the place in the body comes first.
#[test]
fn an_earlier_line_comes_before_a_smaller_column(rt: HostRuntime) -> Result<(), Fail> {
    let text =
        "SC_MODULE(M) {\n      void f() { none = 1; }\n  int v; int v;\n};\nint sc_main(int, char*[]) {}";
    let found = outcome(&rt, rt.alloc(), text.as_bytes())?;
    assert!(rt; found.as_slice() == b"UnknownName 2:18".as_slice());
    Ok(())
}
