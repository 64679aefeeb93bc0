use crate::shape::{Shape, first_hint};
use crate::site::Site;

/// What to write in place of what can't stand where it does.
pub fn hint_of_kind(site: &Site<'_>) -> Option<&'static str> {
    first_hint(&[ASSIGNED, AWAITED, PROCESSES, USED], site)
}

// What is assigned to.
static ASSIGNED: &[Shape] = &[
    Shape {
        tokens: "nb_read ( ^ <any>",
        hint: "'nb_read' sets a variable: give it a local, a parameter or a member that may change",
    },
    Shape {
        tokens: "^ <in> =",
        hint: "an sc_in is only read: to write, make the port an sc_out or an sc_inout",
    },
    Shape {
        tokens: "^ <fifo> =",
        hint: "a fifo is written by 'q.write(e);'",
    },
    Shape {
        tokens: "^ <event> =",
        hint: "an event has no value: notify it by 'e.notify(SC_ZERO_TIME);'",
    },
    Shape {
        tokens: "^ <array> =",
        hint: "an element is set, by its index: 'a[0] = 1;'",
    },
    Shape {
        tokens: "^ <function> =",
        hint: "a function is no variable",
    },
    Shape {
        tokens: "^ <signal> ++",
        hint: "a signal is written whole: 's = s + 1;'",
    },
    Shape {
        tokens: "^ <signal> --",
        hint: "a signal is written whole: 's = s - 1;'",
    },
    Shape {
        tokens: "++ ^ <signal>",
        hint: "a signal is written whole: 's = s + 1;'",
    },
    Shape {
        tokens: "-- ^ <signal>",
        hint: "a signal is written whole: 's = s - 1;'",
    },
    Shape {
        tokens: "^ <signal> +=",
        hint: "a signal is written whole: 's = s + e;'",
    },
    Shape {
        tokens: "^ <signal> -=",
        hint: "a signal is written whole: 's = s - e;'",
    },
    Shape {
        tokens: "^ <signal> |=",
        hint: "a signal is written whole: 's = s | e;'",
    },
    Shape {
        tokens: "^ <signal> &=",
        hint: "a signal is written whole: 's = s & e;'",
    },
    Shape {
        tokens: "^ <signal> *=",
        hint: "a signal is written whole: 's = s * e;'",
    },
    Shape {
        tokens: "^ <signal> ^=",
        hint: "a signal is written whole: 's = s ^ e;'",
    },
    Shape {
        tokens: "^ <variable> ++",
        hint: "a bool is turned by 'b = !b;'; a constant isn't changed",
    },
    Shape {
        tokens: "^ <variable> --",
        hint: "a bool is turned by 'b = !b;'; a constant isn't changed",
    },
];

// What is waited for.
static AWAITED: &[Shape] = &[
    Shape {
        tokens: "wait ( ^ <signal>",
        hint: "a signal's event is 's.value_changed_event()'; its name alone is one in 'sensitive'",
    },
    Shape {
        tokens: "next_trigger ( ^ <signal>",
        hint: "a signal's event is 's.value_changed_event()'; its name alone is one in 'sensitive'",
    },
    Shape {
        tokens: "| ^ <signal>",
        hint: "a signal's event is 's.value_changed_event()'; its name alone is one in 'sensitive'",
    },
    Shape {
        tokens: "wait ( ^ <fifo>",
        hint: "a fifo's events are 'q.data_written_event()' and 'q.data_read_event()'",
    },
    Shape {
        tokens: "wait ( ^ <variable> )",
        hint: "a time has a unit: 'wait(n, SC_NS);'; for n events of the sensitivity write a loop with 'wait();'",
    },
    Shape {
        tokens: "wait ( ^ <word>",
        hint: "here stands an event, or a time with its unit: 'wait(n, SC_NS);'",
    },
    Shape {
        tokens: "<word> . ^ pos",
        hint: "in 'wait' the edge is 'clk.posedge_event()'; 'clk.pos()' stands in 'sensitive'",
    },
    Shape {
        tokens: "<word> . ^ neg",
        hint: "in 'wait' the edge is 'clk.negedge_event()'; 'clk.neg()' stands in 'sensitive'",
    },
    Shape {
        tokens: "<word> . ^ value_changed",
        hint: "in 'wait' it is 's.value_changed_event()'; 's.value_changed()' stands in 'sensitive'",
    },
    Shape {
        tokens: "<word> . ^ data_written",
        hint: "in 'wait' it is 'q.data_written_event()'; 'q.data_written()' stands in 'sensitive'",
    },
    Shape {
        tokens: "<word> . ^ data_read",
        hint: "in 'wait' it is 'q.data_read_event()'; 'q.data_read()' stands in 'sensitive'",
    },
    Shape {
        tokens: "sensitive << ^ <fifo>",
        hint: "a fifo's events are 'q.data_written_event()' and 'q.data_read_event()'",
    },
    Shape {
        tokens: "sensitive << ^ <variable>",
        hint: "a process is sensitive to signals, ports and events; make the variable an sc_signal",
    },
];

// What belongs to a process, a function or a loop.
static PROCESSES: &[Shape] = &[
    Shape {
        tokens: "^ sensitive",
        hint: "the process is registered first: 'SC_METHOD(f); sensitive << ..;'",
    },
    Shape {
        tokens: "^ dont_initialize",
        hint: "the process is registered first: 'SC_METHOD(f); dont_initialize();'",
    },
    Shape {
        tokens: "^ next_trigger",
        hint: "'next_trigger' is for a function that SC_METHOD registers; a thread waits by 'wait'",
    },
    Shape {
        tokens: "^ return ;",
        hint: "the function has a type: write 'return' with a value",
    },
    Shape {
        tokens: "^ return",
        hint: "the function is 'void': write 'return;', or give the function a type",
    },
    Shape {
        tokens: "^ break",
        hint: "'break' stands in a loop",
    },
    Shape {
        tokens: "^ continue",
        hint: "'continue' stands in a loop",
    },
    Shape {
        tokens: "SC_CTOR ( ^ <word>",
        hint: "the constructor has the name of its module",
    },
    Shape {
        tokens: "SC_HAS_PROCESS ( ^ <word>",
        hint: "here stands the name of the module",
    },
    Shape {
        tokens: "SC_THREAD ( ^ <word>",
        hint: "a process is a function 'void f() { .. }' without parameters",
    },
    Shape {
        tokens: "SC_METHOD ( ^ <word>",
        hint: "a process is a function 'void f() { .. }' without parameters",
    },
];

// What is called, indexed or read.
static USED: &[Shape] = &[
    Shape {
        tokens: "^ <signal> (",
        hint: "a signal is no function: its value is its name alone, or 's.read()'",
    },
    Shape {
        tokens: "^ <fifo> (",
        hint: "a fifo is no function: read it by 'int v = q.read();'",
    },
    Shape {
        tokens: "^ <event> (",
        hint: "an event is no function: 'e.notify(SC_ZERO_TIME);' notifies it",
    },
    Shape {
        tokens: "^ <array> (",
        hint: "an array has no start values: a process fills it at the start",
    },
    Shape {
        tokens: "^ <event>",
        hint: "an event has no value: 'wait(e)' waits for it; a variable can keep that it came",
    },
    Shape {
        tokens: "^ <fifo>",
        hint: "a fifo's next value is read by a statement: 'int v = q.read();'",
    },
    Shape {
        tokens: "^ <array>",
        hint: "an array stands with an index: 'a[i]'",
    },
    Shape {
        tokens: "^ <variable> [",
        hint: "it is declared without a length, so it is no array",
    },
    Shape {
        tokens: "^ <signal> [",
        hint: "a signal has no elements: shift and mask its value, as '(s >> 3) & 1'",
    },
    Shape {
        tokens: ") : ^ <variable> (",
        hint: "a static constant has its value where it is declared: 'static const int SIZE = 4;'",
    },
    Shape {
        tokens: "^ <variable> (",
        hint: "it is a variable and no function: leave the brackets out",
    },
    Shape {
        tokens: "= ^ <function> (",
        hint: "the function is 'void' and gives no value: give it a type, or make the call a statement",
    },
    Shape {
        tokens: "^ <function> (",
        hint: "the function is 'void' and gives no value: give it a type, or make the call a statement",
    },
    Shape {
        tokens: "= ^ <function>",
        hint: "a function is called with brackets: 'x = f();'",
    },
    Shape {
        tokens: "^ <function>",
        hint: "a function is called with brackets: 'f();'",
    },
    Shape {
        tokens: "<word> . ^ write",
        hint: "a 'write' gives no value: make it a statement",
    },
    Shape {
        tokens: "<word> . ^ nb_read",
        hint: "'nb_read' takes a variable: 'bool ok = q.nb_read(v);'",
    },
    Shape {
        tokens: "^ <variable>",
        hint: "a constant isn't changed: declare it without 'const'",
    },
    Shape {
        tokens: "^ <word> =",
        hint: "only variables, signals and ports that are written are assigned to",
    },
    Shape {
        tokens: "^ <word> <word>",
        hint: "this names no module, so nothing is made of it",
    },
    Shape {
        tokens: "^ <any>",
        hint: "REFUSALS.md has a table of what may stand where, under WrongKind",
    },
];

/// What has other arguments than its form.
pub static WRONG_COUNT: &[Shape] = &[
    Shape {
        tokens: "> ^ <word> (",
        hint: "a channel has its name as a text, and an sc_fifo then its size: no start value, which a process writes at the start",
    },
    Shape {
        tokens: "> ^ <word> {",
        hint: "a channel has its name as a text, and an sc_fifo then its size: no start value, which a process writes at the start",
    },
    Shape {
        tokens: ". ^ read",
        hint: "'read' has no argument: 'v = q.read();'",
    },
    Shape {
        tokens: ". ^ write",
        hint: "'write' has one argument",
    },
    Shape {
        tokens: ". ^ nb_read",
        hint: "'nb_read' has one argument, a variable: 'bool ok = q.nb_read(v);'",
    },
    Shape {
        tokens: ". ^ nb_write",
        hint: "'nb_write' has one argument",
    },
    Shape {
        tokens: ". ^ <any>",
        hint: "this call has no argument",
    },
    Shape {
        tokens: "^ <function> (",
        hint: "as many arguments are given as the function has parameters",
    },
    Shape {
        tokens: "<word> ^ <word>",
        hint: "an instance has its name as a text, and then a value for each parameter of its module's constructor: 'Child c(\"c\", 4);'",
    },
    Shape {
        tokens: "^ <word> (",
        hint: "an initialiser of a variable has one value, of an instance its name and a value for each parameter",
    },
    Shape {
        tokens: "^ <any>",
        hint: "an instance has its name as a text, and then a value for each parameter of its module's constructor",
    },
];
