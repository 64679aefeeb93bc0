use ooo_board::Board;
use ooo_outside::{Gate, MeetGate, MemorySink, MemorySource, OpenGate};
use ooo_sim::{Outcome, simulate};
use std::alloc::{AllocError, Global};
use std::sync::Wait;
use std::test::Fail;
use std::thread::Threads;

// The model and the report of the row second-thread-first.
static MODEL: &[u8] = b"#include <systemc.h>\n\
    SC_MODULE(M) {\n\
    void a() { cout << \"a\" << endl; }\n\
    void b() { cout << \"b\" << endl; wait(5, SC_NS); cout << \"c\" << endl; }\n\
    \x20 SC_CTOR(M) { SC_THREAD(a); SC_THREAD(b); }\n\
    };\n\
    int sc_main(int argc, char* argv[]) {\n\
    \x20 M m(\"m\");\n\
    \x20 sc_start(100, SC_NS);\n\
    \x20 return 0;\n\
    }\n\
    ";

static REPORT: &[u8] = b"a\nb\nc\n== histories\n== end\nidle 5 ns 0\n";

// How many bytes a read gives and a write takes at most.
const MOST: usize = 16;

// The numbers of the read and of the write that fail; 0 for none.
#[derive(Clone, Copy)]
struct Failing {
    read: u32,
    write: u32,
}

const NONE: Failing = Failing { read: 0, write: 0 };

// How a call ended, by its number, whether it handed out a board, and what its sink holds.
#[derive(Drop)]
struct Called {
    status: u8,
    has_board: bool,
    held: Vec<u8>,
}

impl Called {
    fn is(&self, status: u8, has_board: bool, held: &[u8]) -> bool {
        self.status == status && self.has_board == has_board && self.held.as_slice() == held
    }
}

// Words of a call.
fn words_of(alloc: Global, words: &[&str]) -> Result<Vec<String>, AllocError> {
    let mut given = Vec::new(alloc);
    for word in words {
        given.push(String::from_str(alloc, word)?)?;
    }
    Ok(given)
}

// The model in memory.
fn source(alloc: Global, failing: u32) -> Result<MemorySource, AllocError> {
    let text = Vec::from_slice(alloc, MODEL)?;
    Ok(MemorySource::new(text, MOST, vec![in alloc; failing]?))
}

// An empty sink in memory.
fn sink(alloc: Global, failing: u32) -> Result<MemorySink, AllocError> {
    MemorySink::make(alloc, 4096, MOST, vec![in alloc; failing]?)
}

// What is kept of a call: the board goes.
fn told(
    alloc: Global,
    outcome: Outcome,
    board: Option<Board>,
    sink: &MemorySink,
) -> Result<Called, AllocError> {
    let (status, has_board) = (outcome.number(), board.is_some());
    drop(board);
    drop(outcome);
    Ok(Called {
        status,
        has_board,
        held: Vec::from_slice(alloc, sink.held())?,
    })
}

// Calls `simulate` by these words on the model in memory.
fn call<G: Gate>(
    rt: &(impl Threads + Wait + Sync),
    alloc: Global,
    words: &[&str],
    failing: Failing,
    gate: &G,
) -> Result<Called, AllocError> {
    let given = words_of(alloc, words)?;
    let mut source = source(alloc, failing.read)?;
    let mut sink = sink(alloc, failing.write)?;
    let (outcome, board) = simulate(rt, alloc, &given, &mut source, &mut sink, gate);
    told(alloc, outcome, board, &sink)
}

#[test]
fn plain_and_run_give_the_report(rt: HostRuntime) -> Result<(), Fail> {
    let called = call(&rt, rt.alloc(), &["plain"], NONE, &OpenGate)?;
    assert!(rt; called.is(0, false, REPORT));
    for workers in ["1", "2", "64"] {
        let words = ["run", "--workers", workers];
        let called = call(&rt, rt.alloc(), &words, NONE, &OpenGate)?;
        assert!(rt; called.is(0, true, REPORT), "{workers}");
    }
    Ok(())
}

// One worker waits at the gate with the first job of process 0 until another is there with that of process 1.
#[test]
fn two_workers_meet(rt: HostRuntime) -> Result<(), Fail> {
    let gate = MeetGate::new(50_000_000);
    let called = call(&rt, rt.alloc(), &["run", "--workers", "2"], NONE, &gate)?;
    assert!(rt; called.is(0, true, REPORT));
    assert!(rt; gate.met());
    Ok(())
}

#[test]
fn one_worker_meets_nobody(rt: HostRuntime) -> Result<(), Fail> {
    let gate = MeetGate::new(1);
    let called = call(&rt, rt.alloc(), &["run", "--workers=1"], NONE, &gate)?;
    assert!(rt; called.is(0, true, REPORT));
    assert!(rt; !gate.met());
    Ok(())
}

#[test]
fn a_failing_read_gives_status_4(rt: HostRuntime) -> Result<(), Fail> {
    let failing = Failing { read: 2, ..NONE };
    for command in ["plain", "run"] {
        let called = call(&rt, rt.alloc(), &[command], failing, &OpenGate)?;
        assert!(rt; called.is(4, false, b""), "{command}");
    }
    Ok(())
}

#[test]
fn a_failing_write_gives_status_5_after_a_prefix(rt: HostRuntime) -> Result<(), Fail> {
    let failing = Failing { write: 2, ..NONE };
    for command in ["plain", "run"] {
        let called = call(&rt, rt.alloc(), &[command], failing, &OpenGate)?;
        assert!(rt; called.is(5, false, &REPORT[..MOST]), "{command}");
    }
    Ok(())
}
