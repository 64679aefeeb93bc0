use crate::shape::{Shape, first_hint};
use crate::site::Site;

/// What is written outside modules and `sc_main`.
pub static IN_FILE: &[Shape] = &[
    Shape {
        tokens: "^ void <word> ::",
        hint: "a function is written inside its module, with its body: 'SC_MODULE(M) { void f() { .. } .. };'",
    },
    Shape {
        tokens: "^ bool <word> ::",
        hint: "a function is written inside its module, with its body: 'SC_MODULE(M) { void f() { .. } .. };'",
    },
    Shape {
        tokens: "int ^ <word> ::",
        hint: "a function is written inside its module, with its body: 'SC_MODULE(M) { void f() { .. } .. };'",
    },
    Shape {
        tokens: "<type> ^ <word> ::",
        hint: "a function is written inside its module, with its body: 'SC_MODULE(M) { void f() { .. } .. };'",
    },
    Shape {
        tokens: "int ^ main (",
        hint: "the simulation begins in sc_main: 'int sc_main(int argc, char* argv[]) { .. }'",
    },
    Shape {
        tokens: "^ void <word> (",
        hint: "a function is one of a module: write it inside SC_MODULE, with its body",
    },
    Shape {
        tokens: "^ bool <word> (",
        hint: "a function is one of a module: write it inside SC_MODULE, with its body",
    },
    Shape {
        tokens: "int ^ <word> (",
        hint: "a function is one of a module: write it inside SC_MODULE, with its body",
    },
    Shape {
        tokens: "^ unsigned <word> (",
        hint: "a function is one of a module: write it inside SC_MODULE, with its body",
    },
    Shape {
        tokens: "int ^ <word> =",
        hint: "a variable of the file isn't taken: make it a member of a module, or 'const int NAME = 1;'",
    },
    Shape {
        tokens: "int ^ <word> ;",
        hint: "a variable of the file isn't taken: make it a member of a module, or 'const int NAME = 1;'",
    },
    Shape {
        tokens: "int ^ <word> [",
        hint: "a variable of the file isn't taken: make it a member of a module, or 'const int NAME = 1;'",
    },
    Shape {
        tokens: "int ^ <word> ,",
        hint: "a variable of the file isn't taken: make it a member of a module, or 'const int NAME = 1;'",
    },
    Shape {
        tokens: "^ <type> <word> =",
        hint: "a variable of the file isn't taken: make it a member of a module, or 'const int NAME = 1;'",
    },
    Shape {
        tokens: "^ <type> <word> ;",
        hint: "a variable of the file isn't taken: make it a member of a module, or 'const int NAME = 1;'",
    },
    Shape {
        tokens: "^ <type> <word> [",
        hint: "a variable of the file isn't taken: make it a member of a module, or 'const int NAME = 1;'",
    },
    Shape {
        tokens: "const <type> <word> ^ [",
        hint: "a table is a member of a module, which a process fills at the start",
    },
    Shape {
        tokens: "using namespace ^ <any>",
        hint: "the namespaces are sc_core, sc_dt and std",
    },
    Shape {
        tokens: "using ^ <any>",
        hint: "write 'using namespace std;'",
    },
    Shape {
        tokens: "^ sc_signal",
        hint: "channels are declared in a module or in sc_main",
    },
    Shape {
        tokens: "^ sc_event",
        hint: "events are declared in a module",
    },
    Shape {
        tokens: "^ SC_CTOR",
        hint: "a constructor stands in its module: a '{' or a '}' may be wrong before it",
    },
    Shape {
        tokens: "^ SC_THREAD",
        hint: "processes are registered in a constructor: a '}' may be one too many before it",
    },
    Shape {
        tokens: "} ^ }",
        hint: "this '}' closes nothing",
    },
    Shape {
        tokens: "^ }",
        hint: "this '}' closes nothing",
    },
];

/// What to write in place of what is written in `sc_main`.
pub fn hint_in_main(site: &Site<'_>) -> Option<&'static str> {
    first_hint(&[MAIN_STATEMENTS, MAIN_CALLS, MAIN_INSTANCES], site)
}

// The head of `sc_main`, and what a process does.
static MAIN_STATEMENTS: &[Shape] = &[
    Shape {
        tokens: "sc_main ( ^ )",
        hint: "write 'int sc_main(int argc, char* argv[]) { .. }'",
    },
    Shape {
        tokens: "sc_main ( ^ void",
        hint: "write 'int sc_main(int argc, char* argv[]) { .. }'",
    },
    Shape {
        tokens: "sc_main ( int <word> , ^ <any>",
        hint: "write 'int sc_main(int argc, char* argv[]) { .. }'",
    },
    Shape {
        tokens: "^ for",
        hint: "sc_main only declares and binds before 'sc_start': let a thread or a method of a module do this",
    },
    Shape {
        tokens: "^ while",
        hint: "sc_main only declares and binds before 'sc_start': let a thread or a method of a module do this",
    },
    Shape {
        tokens: "^ if",
        hint: "sc_main only declares and binds before 'sc_start': let a thread or a method of a module do this",
    },
    Shape {
        tokens: "^ do",
        hint: "sc_main only declares and binds before 'sc_start': let a thread or a method of a module do this",
    },
    Shape {
        tokens: "^ cout",
        hint: "sc_main only declares and binds before 'sc_start': let a thread or a method of a module do this",
    },
    Shape {
        tokens: "^ wait",
        hint: "sc_main only declares and binds before 'sc_start': let a thread or a method of a module do this",
    },
    Shape {
        tokens: "cerr ^ <<",
        hint: "sc_main only declares and binds before 'sc_start': let a thread or a method of a module do this",
    },
    Shape {
        tokens: "printf ^ (",
        hint: "sc_main only declares and binds before 'sc_start': let a thread or a method of a module do this",
    },
    Shape {
        tokens: "^ <type> <word>",
        hint: "sc_main has no variables but 'const int N = 4;': make it a member of a module",
    },
    Shape {
        tokens: "sc_trace_file ^ *",
        hint: "there are no trace files: the report has the history of every channel",
    },
    Shape {
        tokens: "sc_close_vcd_trace_file ^ (",
        hint: "there are no trace files: the report has the history of every channel",
    },
    Shape {
        tokens: "<word> ^ =",
        hint: "a signal gets its values from a process: write it at the start of a thread; others see it from the next delta cycle on",
    },
    Shape {
        tokens: "<word> . write ( ^ <any>",
        hint: "a signal gets its values from a process: write it at the start of a thread; others see it from the next delta cycle on",
    },
];

// Bindings, calls and clocks in `sc_main`.
static MAIN_CALLS: &[Shape] = &[
    Shape {
        tokens: "<word> . <word> ( <word> ^ ,",
        hint: "a binding names one channel: 'c.x(s0);'",
    },
    Shape {
        tokens: "<word> . <word> ^ ;",
        hint: "a binding names its channel: 'c.x(s0);'",
    },
    Shape {
        tokens: "sc_start ( <number> ^ )",
        hint: "a time has a unit: write 'sc_start(100, SC_NS);'",
    },
    Shape {
        tokens: "sc_start ^ ;",
        hint: "write 'sc_start(100, SC_NS);'",
    },
    Shape {
        tokens: "; ^ sc_start",
        hint: "'sc_start' stands once, with the whole time: 'sc_start(100, SC_NS);'",
    },
    Shape {
        tokens: "sc_stop ^ (",
        hint: "'sc_stop();' stands in a process, and the report ends there",
    },
    Shape {
        tokens: "^ sc_stop",
        hint: "'sc_stop();' stands in a process, and the report ends there",
    },
    Shape {
        tokens: "sc_clock <word> ^ ;",
        hint: "a clock has a name and a period: 'sc_clock clk(\"clk\", 10, SC_NS);'",
    },
    Shape {
        tokens: "sc_clock <word> ( ^ <number>",
        hint: "a clock has a name and a period: 'sc_clock clk(\"clk\", 10, SC_NS);'",
    },
    Shape {
        tokens: "sc_clock <word> ( <text> ^ )",
        hint: "a clock has a name and a period: 'sc_clock clk(\"clk\", 10, SC_NS);'",
    },
    Shape {
        tokens: "sc_clock <word> ( <text> , <number> ^ )",
        hint: "a period has a unit: 'sc_clock clk(\"clk\", 10, SC_NS);'",
    },
    Shape {
        tokens: "sc_clock <word> ( <text> , <number> , <word> ^ ,",
        hint: "a clock has a name and a period alone, and begins high: for another duty cycle let a thread write a signal",
    },
    Shape {
        tokens: "sc_clock <word> ( <text> , sc_time ( <number> , <word> ) ^ ,",
        hint: "a clock has a name and a period alone, and begins high: for another duty cycle let a thread write a signal",
    },
];

// Instances in `sc_main`, and what belongs elsewhere.
static MAIN_INSTANCES: &[Shape] = &[
    Shape {
        tokens: "<word> <word> ^ ;",
        hint: "an instance has its name as a text: 'Child c(\"c\");'",
    },
    Shape {
        tokens: "<word> <word> ^ ,",
        hint: "an instance has its name as a text: 'Child c(\"c\");'",
    },
    Shape {
        tokens: "> <word> ^ [",
        hint: "arrays hold variables alone: give each port, signal, fifo, event and module a name of its own",
    },
    Shape {
        tokens: "<word> <word> ^ [",
        hint: "arrays hold variables alone: give each port, signal, fifo, event and module a name of its own",
    },
    Shape {
        tokens: "<word> ^ *",
        hint: "there are no pointers: declare the thing itself, and write 'p.f()' in place of 'p->f()'",
    },
    Shape {
        tokens: "<word> ^ -",
        hint: "there are no pointers: write 'p.f()' in place of 'p->f()'",
    },
    Shape {
        tokens: "<word> ^ (",
        hint: "bind each port by its name: 'c.x(s0); c.y(s1);' in place of 'c(s0, s1);'",
    },
    Shape {
        tokens: "<word> ^ [",
        hint: "arrays hold variables alone: give each port, signal, fifo, event and module a name of its own",
    },
    Shape {
        tokens: "<word> ^ <<",
        hint: "sc_main binds each port by its name: 'c.x(s0);'",
    },
    Shape {
        tokens: "<word> ^ ++",
        hint: "sc_main only declares and binds before 'sc_start': let a thread or a method of a module do this",
    },
    Shape {
        tokens: "^ SC_MODULE",
        hint: "modules stand before sc_main",
    },
    Shape {
        tokens: "^ sc_event",
        hint: "events are declared in a module",
    },
    Shape {
        tokens: "^ sc_time",
        hint: "write the time where it is used: 'sc_clock clk(\"clk\", 10, SC_NS);'",
    },
    Shape {
        tokens: "^ return <number> ; return",
        hint: "'return' stands once, at the end",
    },
];
