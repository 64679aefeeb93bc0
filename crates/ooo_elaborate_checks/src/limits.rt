//! Texts that reach the limits of a model, and texts of one more.

use crate::outcomes::outcome;
use std::alloc::{AllocError, Global};
use std::process::Abort;
use std::test::Fail;

// A piece of a text that is repeated: before and after its number.
type Piece<'a> = (&'a str, &'a str);

// A text of a head, pieces that are numbered from 0, and a tail.
fn repeated(
    alloc: Global,
    head: &str,
    count: u32,
    pieces: (Piece<'_>, Piece<'_>),
    tail: &str,
) -> Result<Vec<u8>, AllocError> {
    let ((a, b), (c, d)) = pieces;
    let mut text = Vec::from_slice(alloc, head.as_bytes())?;
    for number in 0..count {
        let piece = format!(in alloc; "{a}{number}{b}{c}{number}{d}")?;
        text.extend_from_slice(piece.as_bytes())?;
    }
    text.extend_from_slice(tail.as_bytes())?;
    Ok(text)
}

// A limit of numbered declarations: what stands before them, each, how many there may be, and the refusal of one more.
#[derive(Clone, Copy)]
struct Limit {
    head: &'static str,
    each: (Piece<'static>, Piece<'static>),
    most: u32,
    tail: &'static str,
    wanted: &'static str,
}

const INSTANCE: (Piece<'static>, Piece<'static>) = (("M m", "(\""), ("i", "\");\n"));

const CLOCK: (Piece<'static>, Piece<'static>) = (("sc_clock c", "(\""), ("i", "\", 2, SC_PS);\n"));

const EVENT: (Piece<'static>, Piece<'static>) = (("sc_event e", "; /*"), ("", "*/\n"));

const SIGNAL: (Piece<'static>, Piece<'static>) = (("sc_signal<int> s", "; /*"), ("", "*/\n"));

const FIFO: (Piece<'static>, Piece<'static>) = (("sc_fifo<int> q", "; /*"), ("", "*/\n"));

const SCALAR: (Piece<'static>, Piece<'static>) = (("int x", "; /*"), ("", "*/\n"));

const ARRAY: (Piece<'static>, Piece<'static>) = (("int x", "[2]; /*"), ("", "*/\n"));

const CHILD: (Piece<'static>, Piece<'static>) = (("M m", "; /*"), ("", "*/\n"));
// Members of a module of which there is one instance, which is an object too.
const BODY: &str = "SC_MODULE(M) {};\nSC_MODULE(N) {\n";

const LAST: &str = "};\nint sc_main(int, char*[]) { N n(\"n\"); }\n";

static LIMITS: [Limit; 11] = [
    Limit {
        head: "SC_MODULE(M) { void a() {} SC_CTOR(M) {\nSC_THREAD(a); } };\nint sc_main(int, char*[]) {\n",
        each: INSTANCE,
        most: 256,
        tail: "}\n",
        wanted: "TooManyProcesses 2:11 m256.a",
    },
    Limit {
        head: "SC_MODULE(M) { void a() {} SC_CTOR(M) {\nSC_METHOD(a); } };\nint sc_main(int, char*[]) {\n",
        each: INSTANCE,
        most: 256,
        tail: "}\n",
        wanted: "TooManyProcesses 2:11 m256.a",
    },
    Limit {
        head: "int sc_main(int, char*[]) {\n",
        each: CLOCK,
        most: 256,
        tail: "}\n",
        wanted: "TooManyProcesses 258:10 c256",
    },
    Limit {
        head: "SC_MODULE(M) {};\nint sc_main(int, char*[]) {\n",
        each: INSTANCE,
        most: 4096,
        tail: "}\n",
        wanted: "TooManyObjects 4099:3 m4096",
    },
    Limit {
        head: "int sc_main(int, char*[]) {\n",
        each: SIGNAL,
        most: 4096,
        tail: "}\n",
        wanted: "TooManyObjects 4098:16 s4096",
    },
    Limit {
        head: BODY,
        each: EVENT,
        most: 4095,
        tail: LAST,
        wanted: "TooManyObjects 4098:10 n.e4095",
    },
    Limit {
        head: BODY,
        each: SIGNAL,
        most: 4095,
        tail: LAST,
        wanted: "TooManyObjects 4098:16 n.s4095",
    },
    Limit {
        head: BODY,
        each: FIFO,
        most: 4095,
        tail: LAST,
        wanted: "TooManyObjects 4098:14 n.q4095",
    },
    Limit {
        head: BODY,
        each: SCALAR,
        most: 4095,
        tail: LAST,
        wanted: "TooManyObjects 4098:5 n.x4095",
    },
    Limit {
        head: BODY,
        each: ARRAY,
        most: 4095,
        tail: LAST,
        wanted: "TooManyObjects 4098:5 n.x4095",
    },
    Limit {
        head: BODY,
        each: CHILD,
        most: 4095,
        tail: LAST,
        wanted: "TooManyObjects 4098:3 n.m4095",
    },
];

// What elaboration says of a text of so many declarations.
fn said(rt: &impl Abort, alloc: Global, limit: Limit, count: u32) -> Result<Vec<u8>, AllocError> {
    let text = repeated(alloc, limit.head, count, limit.each, limit.tail)?;
    outcome(rt, alloc, text.as_slice())
}

// A text of as many as may be is elaborated, and one of one more is refused.
fn try_limit(rt: &impl Abort, alloc: Global, limit: Limit) -> Result<(), Fail> {
    let most = limit.most;
    let inside = said(rt, alloc, limit, most)?;
    let wanted = limit.wanted;
    assert!(rt; inside.as_slice() == b"ok".as_slice(), "before {wanted}");
    let beyond = said(rt, alloc, limit, most.saturating_add(1))?;
    assert!(rt; beyond.as_slice() == wanted.as_bytes(), "{wanted}");
    Ok(())
}

#[test]
fn limit_of_threads(rt: HostRuntime) -> Result<(), Fail> {
    try_limit(&rt, rt.alloc(), LIMITS[0])
}

#[test]
fn limit_of_methods(rt: HostRuntime) -> Result<(), Fail> {
    try_limit(&rt, rt.alloc(), LIMITS[1])
}

#[test]
fn limit_of_clocks(rt: HostRuntime) -> Result<(), Fail> {
    try_limit(&rt, rt.alloc(), LIMITS[2])
}

#[test]
fn limit_of_instances(rt: HostRuntime) -> Result<(), Fail> {
    try_limit(&rt, rt.alloc(), LIMITS[3])
}

#[test]
fn limit_of_main_signals(rt: HostRuntime) -> Result<(), Fail> {
    try_limit(&rt, rt.alloc(), LIMITS[4])
}

#[test]
fn limit_of_events(rt: HostRuntime) -> Result<(), Fail> {
    try_limit(&rt, rt.alloc(), LIMITS[5])
}

#[test]
fn limit_of_signals(rt: HostRuntime) -> Result<(), Fail> {
    try_limit(&rt, rt.alloc(), LIMITS[6])
}

#[test]
fn limit_of_fifos(rt: HostRuntime) -> Result<(), Fail> {
    try_limit(&rt, rt.alloc(), LIMITS[7])
}

#[test]
fn limit_of_scalars(rt: HostRuntime) -> Result<(), Fail> {
    try_limit(&rt, rt.alloc(), LIMITS[8])
}

#[test]
fn limit_of_arrays(rt: HostRuntime) -> Result<(), Fail> {
    try_limit(&rt, rt.alloc(), LIMITS[9])
}

#[test]
fn limit_of_children(rt: HostRuntime) -> Result<(), Fail> {
    try_limit(&rt, rt.alloc(), LIMITS[10])
}

// A text that breaks two limits by one declaration is refused for the limit that is told first.
fn try_both(rt: &impl Abort, alloc: Global, text: &[u8], wanted: &str) -> Result<(), Fail> {
    let found = outcome(rt, alloc, text)?;
    assert!(rt; found.as_slice() == wanted.as_bytes(), "{wanted}");
    Ok(())
}

// The last clock is one process and one object too many.
#[test]
fn process_before_object(rt: HostRuntime) -> Result<(), Fail> {
    let alloc = rt.alloc();
    let mut text = repeated(alloc, "int sc_main(int, char*[]) {\n", 3840, SIGNAL, "")?;
    let clocks = repeated(alloc, "", 257, CLOCK, "}\n")?;
    text.extend_from_slice(clocks.as_slice())?;
    try_both(&rt, alloc, text.as_slice(), "TooManyProcesses 4098:10 c256")
}

// The array is one object too many, and has too many elements.
#[test]
fn object_before_cells(rt: HostRuntime) -> Result<(), Fail> {
    let alloc = rt.alloc();
    let mut text = repeated(alloc, BODY, 4095, EVENT, "int z[1048577];\n")?;
    text.extend_from_slice(LAST.as_bytes())?;
    try_both(&rt, alloc, text.as_slice(), "TooManyObjects 4098:5 n.z")
}
