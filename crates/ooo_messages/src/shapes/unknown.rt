use crate::shape::{Shape, first_hint};
use crate::site::Site;

/// What to write in place of what isn't known.
pub fn hint_of_unknown(site: &Site<'_>) -> Option<&'static str> {
    first_hint(&[MEMBERS, CALLS, TYPES, OTHERS], site)
}

// What is named behind a dot.
static MEMBERS: &[Shape] = &[
    Shape {
        tokens: "<in> . ^ write",
        hint: "an sc_in is only read: to write, make the port an sc_out or an sc_inout",
    },
    Shape {
        tokens: "<fifo_in> . ^ write",
        hint: "an sc_fifo_in only reads: to write, make the port an sc_fifo_out",
    },
    Shape {
        tokens: "<fifo_in> . ^ nb_write",
        hint: "an sc_fifo_in only reads: to write, make the port an sc_fifo_out",
    },
    Shape {
        tokens: "<fifo_in> . ^ num_free",
        hint: "an sc_fifo_in tells 'num_available()'; 'num_free()' is told by an sc_fifo_out",
    },
    Shape {
        tokens: "<fifo_out> . ^ read",
        hint: "an sc_fifo_out only writes: to read, make the port an sc_fifo_in",
    },
    Shape {
        tokens: "<fifo_out> . ^ nb_read",
        hint: "an sc_fifo_out only writes: to read, make the port an sc_fifo_in",
    },
    Shape {
        tokens: "<fifo_out> . ^ num_available",
        hint: "an sc_fifo_out tells 'num_free()'; 'num_available()' is told by an sc_fifo_in",
    },
    Shape {
        tokens: "<signal> . ^ posedge",
        hint: "edges are those of 'bool' alone: compare with a value, as 's.read() == 1'",
    },
    Shape {
        tokens: "<signal> . ^ negedge",
        hint: "edges are those of 'bool' alone: compare with a value, as 's.read() == 0'",
    },
    Shape {
        tokens: "<signal> . ^ posedge_event",
        hint: "edges are those of 'bool' alone: use 'value_changed_event()'",
    },
    Shape {
        tokens: "<signal> . ^ negedge_event",
        hint: "edges are those of 'bool' alone: use 'value_changed_event()'",
    },
    Shape {
        tokens: "<signal> . ^ pos",
        hint: "'pos()' is an event of ports of 'bool': of a signal use 'posedge_event()', of other types 'value_changed_event()'",
    },
    Shape {
        tokens: "<signal> . ^ neg",
        hint: "'neg()' is an event of ports of 'bool': of a signal use 'negedge_event()', of other types 'value_changed_event()'",
    },
    Shape {
        tokens: "<signal> . ^ notify",
        hint: "a signal isn't notified: write it, or declare an sc_event",
    },
    Shape {
        tokens: "<signal> . ^ <any>",
        hint: "a signal has 'read()', 'write(e)' and 'event()', as events 'value_changed_event()' and 'default_event()', and of bool edges",
    },
    Shape {
        tokens: "<fifo_in> . ^ <any>",
        hint: "an sc_fifo_in has 'read()', 'nb_read(x)' and 'num_available()', and the event 'data_written_event()'",
    },
    Shape {
        tokens: "<fifo_out> . ^ <any>",
        hint: "an sc_fifo_out has 'write(e)', 'nb_write(e)' and 'num_free()', and the event 'data_read_event()'",
    },
    Shape {
        tokens: "<fifo> . ^ <any>",
        hint: "an sc_fifo has 'read()', 'write(e)', 'nb_read(x)', 'nb_write(e)', 'num_available()' and 'num_free()'",
    },
    Shape {
        tokens: "<event> . ^ <any>",
        hint: "an sc_event has 'notify(t)' with a time, and 'cancel()'",
    },
    Shape {
        tokens: "<variable> . ^ <any>",
        hint: "a variable has no calls: write its name alone",
    },
    Shape {
        tokens: "<array> . ^ <any>",
        hint: "an array has no calls: its length is the number that it is declared with",
    },
    Shape {
        tokens: "<word> . ^ <any>",
        hint: "nothing of an instance is reached from outside but its ports, which are bound; exchange values by channels",
    },
];

// What is called in C++, or printed.
static CALLS: &[Shape] = &[
    Shape {
        tokens: "^ printf",
        hint: "print by 'cout': 'cout << x << endl;'",
    },
    Shape {
        tokens: "^ fprintf",
        hint: "print by 'cout': 'cout << x << endl;'",
    },
    Shape {
        tokens: "^ puts",
        hint: "print by 'cout': 'cout << \"text\" << endl;'",
    },
    Shape {
        tokens: "<< ^ flush",
        hint: "write 'endl', or leave it out: what is printed is always written",
    },
    Shape {
        tokens: "<< ^ hex",
        hint: "numbers are printed in decimal alone",
    },
    Shape {
        tokens: "<< ^ dec",
        hint: "numbers are printed in decimal anyway: leave it out",
    },
    Shape {
        tokens: "<< ^ boolalpha",
        hint: "a bool is printed as 0 or 1",
    },
    Shape {
        tokens: "<< ^ setw",
        hint: "numbers are printed without padding",
    },
    Shape {
        tokens: "<< ^ setfill",
        hint: "numbers are printed without padding",
    },
    Shape {
        tokens: "<< ^ ends",
        hint: "write 'endl'",
    },
    Shape {
        tokens: "<< ^ name",
        hint: "write the name as a text",
    },
    Shape {
        tokens: "^ assert",
        hint: "print what is wrong and call 'sc_stop();'",
    },
    Shape {
        tokens: "^ sc_assert",
        hint: "print what is wrong and call 'sc_stop();'",
    },
    Shape {
        tokens: "^ SC_REPORT_ERROR",
        hint: "print what is wrong and call 'sc_stop();'",
    },
    Shape {
        tokens: "^ SC_REPORT_INFO",
        hint: "print by 'cout'",
    },
    Shape {
        tokens: "^ SC_REPORT_WARNING",
        hint: "print by 'cout'",
    },
    Shape {
        tokens: "^ rand",
        hint: "compute the next number by a variable of the module: 'seed = seed * 1103515245 + 12345;' with an 'unsigned'",
    },
    Shape {
        tokens: "^ sc_delta_count",
        hint: "the delta cycle isn't told to a model: the report has it",
    },
    Shape {
        tokens: "^ exit",
        hint: "call 'sc_stop();'",
    },
    Shape {
        tokens: "^ abort",
        hint: "call 'sc_stop();'",
    },
    Shape {
        tokens: "^ min",
        hint: "write 'a < b ? a : b'",
    },
    Shape {
        tokens: "^ max",
        hint: "write 'a < b ? b : a'",
    },
    Shape {
        tokens: "^ abs",
        hint: "write 'a < 0 ? -a : a'",
    },
    Shape {
        tokens: "^ NULL",
        hint: "there are no pointers",
    },
    Shape {
        tokens: "^ nullptr",
        hint: "there are no pointers",
    },
];

// Types of the libraries of C++ and C.
static TYPES: &[Shape] = &[
    Shape {
        tokens: "^ float <word>",
        hint: "there are no fractions: use whole numbers of a smaller unit",
    },
    Shape {
        tokens: "^ string <word>",
        hint: "texts stand in prints alone: write 'cout << \"text\";'",
    },
    Shape {
        tokens: "^ uint8_t <word>",
        hint: "there are five types: 'bool', 'int', 'unsigned', 'long long' and 'unsigned long long'",
    },
    Shape {
        tokens: "^ uint16_t <word>",
        hint: "there are five types: 'bool', 'int', 'unsigned', 'long long' and 'unsigned long long'",
    },
    Shape {
        tokens: "^ uint32_t <word>",
        hint: "there are five types: 'bool', 'int', 'unsigned', 'long long' and 'unsigned long long'",
    },
    Shape {
        tokens: "^ uint64_t <word>",
        hint: "there are five types: 'bool', 'int', 'unsigned', 'long long' and 'unsigned long long'",
    },
    Shape {
        tokens: "^ int8_t <word>",
        hint: "there are five types: 'bool', 'int', 'unsigned', 'long long' and 'unsigned long long'",
    },
    Shape {
        tokens: "^ int16_t <word>",
        hint: "there are five types: 'bool', 'int', 'unsigned', 'long long' and 'unsigned long long'",
    },
    Shape {
        tokens: "^ int32_t <word>",
        hint: "there are five types: 'bool', 'int', 'unsigned', 'long long' and 'unsigned long long'",
    },
    Shape {
        tokens: "^ int64_t <word>",
        hint: "there are five types: 'bool', 'int', 'unsigned', 'long long' and 'unsigned long long'",
    },
    Shape {
        tokens: "^ size_t <word>",
        hint: "there are five types: 'bool', 'int', 'unsigned', 'long long' and 'unsigned long long'",
    },
    Shape {
        tokens: "^ uint <word>",
        hint: "there are five types: 'bool', 'int', 'unsigned', 'long long' and 'unsigned long long'",
    },
    Shape {
        tokens: "^ uint64 <word>",
        hint: "there are five types: 'bool', 'int', 'unsigned', 'long long' and 'unsigned long long'",
    },
    Shape {
        tokens: "^ int64 <word>",
        hint: "there are five types: 'bool', 'int', 'unsigned', 'long long' and 'unsigned long long'",
    },
];

// Names of modules, members and locals.
static OTHERS: &[Shape] = &[
    Shape {
        tokens: "SC_THREAD ( ^ <any>",
        hint: "a process is a function 'void f() { .. }' of this module",
    },
    Shape {
        tokens: "SC_METHOD ( ^ <any>",
        hint: "a process is a function 'void f() { .. }' of this module",
    },
    Shape {
        tokens: "^ <word> <word> ;",
        hint: "a module is known behind its declaration: put it before this one",
    },
    Shape {
        tokens: "^ <word> <word> (",
        hint: "a module is known behind its declaration: put it before this one",
    },
    Shape {
        tokens: "^ <word> <word> {",
        hint: "a module is known behind its declaration: put it before this one",
    },
    Shape {
        tokens: "^ <word> . <word>",
        hint: "only the members of its own module are known in a function, ports among them: exchange values by channels",
    },
    Shape {
        tokens: "^ <word> (",
        hint: "a function is one of this module",
    },
    Shape {
        tokens: "^ <word> =",
        hint: "a local is declared with its type, before or here: 'int x = 1;'; a member in its module",
    },
    Shape {
        tokens: "^ <any>",
        hint: "a local is known behind its declaration and in its block, a member in its module, a constant behind its declaration",
    },
];
