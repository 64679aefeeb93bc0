//! Models of worked rows, and their reports.

ghost use Rattle.std.specs.Prelude.{IfOk, IfSome};
ghost use Rattle.ooo_board_checks.specs.Samples.{IsReady};

use crate::lines::{Line, Seen, tried};
use crate::sample::Sample;
use ooo_words::RunOptions;
use std::alloc::{AllocError, Global};

// The options by default, as the words of a run say them.
const BY_DEFAULT: RunOptions = RunOptions {
    stop: None,
    deltas: 10_000,
    statements: 1_000_000,
};

/// A model whose run was worked by hand.
#[derive(Clone, Copy, Debug)]
pub(crate) enum Row {
    /// The second thread can run to its end before the first does.
    SecondThreadFirst,
    /// The second thread prints a variable at 3 ns and at 10 ns; the first writes it at 5 ns.
    VariableAhead,
    /// The third thread prints at 5 ns what the second writes once the first has notified it, at 1 ns.
    NotifiedLater,
    /// The first thread prints a signal at 5 ns; the second writes it at the start and at 10 ns.
    SlowReader,
    /// The first thread divides by zero at 5 ns; the second prints the time every 20 ns.
    FaultBehind,
    /// The first thread puts three values into a fifo of one, the second takes and prints them.
    FifoOfOne,
    /// Two methods wake each other with no end; a thread stops the run in the third delta cycle.
    Stopped,
}

impl Row {
    /// All of them.
    pub(crate) const ALL: [Row; 7] = [
        Row::SecondThreadFirst,
        Row::VariableAhead,
        Row::NotifiedLater,
        Row::SlowReader,
        Row::FaultBehind,
        Row::FifoOfOne,
        Row::Stopped,
    ];

    /// What boards are made of, if the text is accepted.
    pub(crate) fn sample(self, alloc: Global) -> Result<Option<Sample>, AllocError>
        ensures { IfOk result (λ sample. IfSome sample IsReady) }
    {
        Sample::make(alloc, self.text(), BY_DEFAULT)
    }

    /// What is seen of its board once these lines were tried on it, if the text is accepted.
    pub(crate) fn tried(self, alloc: Global, lines: &[Line]) -> Result<Option<Seen>, AllocError> {
        let Some(sample) = self.sample(alloc)? else {
            return Ok(None);
        };
        let seen = tried(alloc, &sample, lines);
        drop(sample);
        Ok(Some(seen?))
    }

    fn text(self) -> &'static [u8] {
        match self {
            Row::SecondThreadFirst => SECOND_THREAD_FIRST,
            Row::VariableAhead => VARIABLE_AHEAD,
            Row::NotifiedLater => NOTIFIED_LATER,
            Row::SlowReader => SLOW_READER,
            Row::FaultBehind => FAULT_BEHIND,
            Row::FifoOfOne => FIFO_OF_ONE,
            Row::Stopped => STOPPED,
        }
    }

    /// Its report.
    pub(crate) fn report(self) -> &'static [u8] {
        match self {
            Row::SecondThreadFirst => b"a\nb\nc\n== histories\n== end\nidle 5 ns 0\n",
            Row::VariableAhead => b"0\n1\n== histories\n== end\nidle 10 ns 0\n",
            Row::NotifiedLater => b"7\n== histories\n== end\nidle 5 ns 0\n",
            Row::SlowReader => SLOW_READER_REPORT,
            Row::FaultBehind => FAULT_BEHIND_REPORT,
            Row::FifoOfOne => FIFO_OF_ONE_REPORT,
            Row::Stopped => STOPPED_REPORT,
        }
    }
}

static SECOND_THREAD_FIRST: &[u8] = b"#include <systemc.h>\n\
    SC_MODULE(M) {\n\
    void a() { cout << \"a\" << endl; }\n\
    void b() { cout << \"b\" << endl; wait(5, SC_NS); cout << \"c\" << endl; }\n\
    \x20 SC_CTOR(M) { SC_THREAD(a); SC_THREAD(b); }\n\
    };\n\
    int sc_main(int argc, char* argv[]) {\n\
    \x20 M m(\"m\");\n\
    \x20 sc_start(100, SC_NS);\n\
    \x20 return 0;\n\
    }\n\
    ";

static VARIABLE_AHEAD: &[u8] = b"#include <systemc.h>\n\
    SC_MODULE(M) {\n\
    \x20 int x;\n\
    \x20 void a() { wait(5, SC_NS); x = 1; }\n\
    \x20 void b() { wait(3, SC_NS); cout << x << endl; wait(7, SC_NS); cout << x << endl; }\n\
    \x20 SC_CTOR(M) { SC_THREAD(a); SC_THREAD(b); }\n\
    };\n\
    int sc_main(int argc, char* argv[]) {\n\
    \x20 M m(\"m\");\n\
    \x20 sc_start(100, SC_NS);\n\
    \x20 return 0;\n\
    }\n\
    ";

static NOTIFIED_LATER: &[u8] = b"#include <systemc.h>\n\
    SC_MODULE(M) {\n\
    sc_event e; int x;\n\
    void a() { wait(1, SC_NS); e.notify(SC_ZERO_TIME); }\n\
    void b() { wait(e); x = 7; }\n\
    void c() { wait(5, SC_NS); cout << x << endl; }\n\
    \x20 SC_CTOR(M) { SC_THREAD(a); SC_THREAD(b); SC_THREAD(c); }\n\
    };\n\
    int sc_main(int argc, char* argv[]) {\n\
    \x20 M m(\"m\");\n\
    \x20 sc_start(100, SC_NS);\n\
    \x20 return 0;\n\
    }\n\
    ";

static SLOW_READER: &[u8] = b"#include <systemc.h>\n\
    SC_MODULE(M) {\n\
    sc_signal<int> s;\n\
    void a() { wait(5, SC_NS); cout << s.read() << endl; }\n\
    void b() { s.write(1); wait(10, SC_NS); s.write(2); }\n\
    \x20 SC_CTOR(M) { SC_THREAD(a); SC_THREAD(b); }\n\
    };\n\
    int sc_main(int argc, char* argv[]) {\n\
    \x20 M m(\"m\");\n\
    \x20 sc_start(100, SC_NS);\n\
    \x20 return 0;\n\
    }\n\
    ";

static SLOW_READER_REPORT: &[u8] = b"1\n\
    == histories\n\
    m.s @ 0 s 0 = 1\n\
    m.s @ 10 ns 0 = 2\n\
    == end\n\
    idle 10 ns 0\n\
    ";

static FAULT_BEHIND: &[u8] = b"#include <systemc.h>\n\
    SC_MODULE(M) {\n\
    \x20 int z;\n\
    \x20 void a() { wait(5, SC_NS); cout << \"x\" << endl; for (int i = 0; i < 1000; i++) { } cout << 1 / z << endl; }\n\
    \x20 void b() { while (true) { cout << sc_time_stamp() << endl; wait(20, SC_NS); } }\n\
    \x20 SC_CTOR(M) { SC_THREAD(a); SC_THREAD(b); }\n\
    };\n\
    int sc_main(int argc, char* argv[]) {\n\
    \x20 M m(\"m\");\n\
    \x20 sc_start(100, SC_NS);\n\
    \x20 return 0;\n\
    }\n\
    ";

static FAULT_BEHIND_REPORT: &[u8] = b"0 s\n\
    x\n\
    == histories\n\
    == end\n\
    fault DivideByZero 5 ns 0 m.a 4\n\
    ";

static FIFO_OF_ONE: &[u8] = b"#include <systemc.h>\n\
    SC_MODULE(M) {\n\
    sc_fifo<int> q;\n\
    void w() { for (int i = 1; i <= 3; i++) q.write(i); }\n\
    void r() { for (int i = 0; i < 3; i++) { int v = q.read(); cout << v << endl; } }\n\
    SC_CTOR(M) : q(1) { SC_THREAD(w); SC_THREAD(r); }\n\
    };\n\
    int sc_main(int argc, char* argv[]) {\n\
    \x20 M m(\"m\");\n\
    \x20 sc_start(100, SC_NS);\n\
    \x20 return 0;\n\
    }\n\
    ";

static FIFO_OF_ONE_REPORT: &[u8] = b"1\n\
    2\n\
    3\n\
    == histories\n\
    m.q @ 0 s 0 in 1\n\
    m.q @ 0 s 1 out 1\n\
    m.q @ 0 s 2 in 2\n\
    m.q @ 0 s 3 out 2\n\
    m.q @ 0 s 4 in 3\n\
    m.q @ 0 s 5 out 3\n\
    == end\n\
    idle 0 s 5\n\
    ";

static STOPPED: &[u8] = b"#include <systemc.h>\n\
    SC_MODULE(M) {\n\
    \x20 sc_signal<bool> a, b;\n\
    \x20 void f() { a.write(!b.read()); }\n\
    \x20 void g() { b.write(a.read()); }\n\
    \x20 void t() { wait(SC_ZERO_TIME); cout << \"t\" << endl; wait(SC_ZERO_TIME); sc_stop(); }\n\
    \x20 SC_CTOR(M) {\n\
    \x20   SC_METHOD(f); sensitive << b;\n\
    \x20   SC_METHOD(g); sensitive << a;\n\
    \x20   SC_THREAD(t);\n\
    \x20 }\n\
    };\n\
    int sc_main(int argc, char* argv[]) {\n\
    \x20 M m(\"m\");\n\
    \x20 sc_start(100, SC_NS);\n\
    \x20 return 0;\n\
    }\n\
    ";

static STOPPED_REPORT: &[u8] = b"t\n\
    == histories\n\
    m.a @ 0 s 0 = 1\n\
    m.a @ 0 s 2 = 0\n\
    m.b @ 0 s 1 = 1\n\
    == end\n\
    stop 0 s 2\n\
    ";
