//! Whole texts that elaboration refuses, and texts just inside each limit.

mod table;

use crate::outcomes::outcome;
use std::alloc::{AllocError, Global};
use std::process::Abort;
use std::test::Fail;

// What stands before and after a row in its text.
struct Frame {
    before: &'static str,
    after: &'static str,
}

static TEXT: Frame = Frame {
    before: "",
    after: "",
};

static BODY: Frame = Frame {
    before: "SC_MODULE(M) {\n",
    after: "\n};\nint sc_main(int, char*[]) { M m(\"m\"); }\n",
};

static RUN: Frame = Frame {
    before: "SC_MODULE(M) { sc_event e; int x; const int gap = -1; const int far = 4611687; void none() { e.notify(-1, SC_NS); } void late() { x = 1; } SC_CTOR(M) { SC_THREAD(run); } void run() {\n",
    after: "\n} };\nint sc_main(int, char*[]) { M m(\"m\"); }\n",
};

static MAIN: Frame = Frame {
    before: "int sc_main(int, char*[]) {\n",
    after: "\n}\n",
};

static PORTS: Frame = Frame {
    before: "SC_MODULE(KI) { sc_in<int> p; }; SC_MODULE(KJ) { sc_in<bool> p; }; SC_MODULE(KO) { sc_out<int> p; }; SC_MODULE(KP) { sc_out<bool> p; }; SC_MODULE(KU) { sc_inout<int> p; }; SC_MODULE(KV) { sc_inout<bool> p; }; SC_MODULE(KR) { sc_fifo_in<int> p; }; SC_MODULE(KS) { sc_fifo_in<bool> p; }; SC_MODULE(KW) { sc_fifo_out<int> p; }; SC_MODULE(KX) { sc_fifo_out<bool> p; }; int sc_main(int, char*[]) { sc_signal<int> si; sc_signal<bool> sb; sc_clock ck(\"ck\", 2, SC_PS); sc_fifo<int> qi; sc_fifo<bool> qb;\n",
    after: "\n}\n",
};

static CHILD: Frame = Frame {
    before: "SC_MODULE(KI) { sc_in<int> p; }; SC_MODULE(KJ) { sc_in<bool> p; }; SC_MODULE(KO) { sc_out<int> p; }; SC_MODULE(KP) { sc_out<bool> p; }; SC_MODULE(KU) { sc_inout<int> p; }; SC_MODULE(KV) { sc_inout<bool> p; }; SC_MODULE(KR) { sc_fifo_in<int> p; }; SC_MODULE(KS) { sc_fifo_in<bool> p; }; SC_MODULE(KW) { sc_fifo_out<int> p; }; SC_MODULE(KX) { sc_fifo_out<bool> p; }; SC_MODULE(M) {\n",
    after: "\n",
};

static WRITING: Frame = Frame {
    before: "SC_MODULE(M) { sc_signal<int> s; sc_fifo<int> q; sc_signal<int> t; sc_event e; int x, l[3]; void b() { s = 1; q.write(1); } void put() { s = 1; q.nb_write(1); } int get(int v) { s = 1; q.nb_write(1); return v; } void deep() { put(); } int idle(int v) { return v; } SC_CTOR(M) { SC_THREAD(b); SC_THREAD(a); } void a() {\n",
    after: "\n} };\nint sc_main(int, char*[]) { M m(\"m\"); }\n",
};

static READING: Frame = Frame {
    before: "SC_MODULE(M) { sc_signal<int> s; sc_fifo<int> q; sc_signal<int> t; sc_event e; int x, l[3]; void b() { x = q.num_available(); } void put() { x = q.num_available(); } int get(int v) { x = q.num_available(); return v; } void deep() { put(); } int idle(int v) { return v; } SC_CTOR(M) { SC_THREAD(b); SC_THREAD(a); } void a() {\n",
    after: "\n} };\nint sc_main(int, char*[]) { M m(\"m\"); }\n",
};

static WORKED: Frame = Frame {
    before: "#include <systemc.h>\nSC_MODULE(M) {\n",
    after: "\n};\nint sc_main(int argc, char* argv[]) {\n  M m(\"m\");\n  sc_start(100, SC_NS);\n  return 0;\n}\n",
};

// The tables, each with what stands around its rows.
fn tables() -> [(&'static Frame, &'static str); 18] {
    [
        (&BODY, table::MEMBERS),
        (&BODY, table::CONSTRUCTORS),
        (&BODY, table::SIZES),
        (&TEXT, table::PARAMETERS),
        (&TEXT, table::FILES),
        (&MAIN, table::MAINS),
        (&RUN, table::TIMES),
        (&TEXT, table::CALLED),
        (&PORTS, table::TOPS),
        (&CHILD, table::PARENTS),
        (&CHILD, table::INNERS),
        (&TEXT, table::BINDINGS),
        (&WRITING, table::WRITING),
        (&READING, table::READING),
        (&WRITING, table::FREE),
        (&TEXT, table::HOLDERS),
        (&TEXT, table::LEVELS),
        (&WORKED, table::WORKED),
    ]
}

// The text of a row.
fn framed(alloc: Global, frame: &Frame, body: &str) -> Result<Vec<u8>, AllocError> {
    let mut text = Vec::from_slice(alloc, frame.before.as_bytes())?;
    text.extend_from_slice(body.as_bytes())?;
    text.extend_from_slice(frame.after.as_bytes())?;
    Ok(text)
}

// Adds a row to the wrong ones where another answer is found than is wanted.
fn try_row(
    rt: &impl Abort,
    alloc: Global,
    frame: &Frame,
    row: &str,
    wrong: &mut Vec<u8>,
) -> Result<(), AllocError> {
    let Some((body, wanted)) = row.split_once(" => ") else {
        return Ok(());
    };
    let text = framed(alloc, frame, body)?;
    let found = outcome(rt, alloc, text.as_slice())?;
    if found.as_slice() != wanted.as_bytes() {
        wrong.push(b'\n')?;
        wrong.extend_from_slice(row.as_bytes())?;
        wrong.extend_from_slice(b", and not ")?;
        wrong.extend_from_slice(found.as_slice())?;
    }
    Ok(())
}

// Adds the wrong rows of a table, whose lines are a body, ` => ` and what is wanted.
fn try_rows(
    rt: &impl Abort,
    alloc: Global,
    frame: &Frame,
    rows: &str,
    wrong: &mut Vec<u8>,
) -> Result<(), AllocError> {
    for row in rows.lines() {
        try_row(rt, alloc, frame, row, wrong)?;
    }
    Ok(())
}

// All wrong rows are told, each with what is found.
#[test]
fn each_row_has_its_answer(rt: HostRuntime) -> Result<(), Fail> {
    let alloc = rt.alloc();
    let mut wrong = Vec::new(alloc);
    for (frame, rows) in tables() {
        try_rows(&rt, alloc, frame, rows, &mut wrong)?;
    }
    let text = String::from_utf8_lossy(alloc, wrong.as_slice())?;
    assert!(rt; wrong.is_empty(), "{text}");
    Ok(())
}
