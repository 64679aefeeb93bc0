use crate::shape::{Shape, first_hint};
use crate::site::Site;

/// What to write in place of what is written among the members of a module.
pub fn hint_in_members(site: &Site<'_>) -> Option<&'static str> {
    first_hint(&[MEMBER_TYPES, MEMBER_HEADS, MEMBER_PLACES], site)
}

// Arrays, parameters and types among the members of a module.
static MEMBER_TYPES: &[Shape] = &[
    Shape {
        tokens: "> <word> ^ [",
        hint: "arrays hold variables alone: give each port, signal, fifo, event and module a name of its own",
    },
    Shape {
        tokens: "sc_event <word> ^ [",
        hint: "arrays hold variables alone: give each port, signal, fifo, event and module a name of its own",
    },
    Shape {
        tokens: "<word> <word> ^ [",
        hint: "arrays hold variables alone: give each port, signal, fifo, event and module a name of its own",
    },
    Shape {
        tokens: "] ^ [",
        hint: "an array has one index: write 'int a[6];' and 'a[i * 3 + j]' in place of 'a[2][3]'",
    },
    Shape {
        tokens: "] ^ =",
        hint: "a process fills an array at the start: there is no list of start values",
    },
    Shape {
        tokens: "^ sc_time",
        hint: "a time is no variable: write 'const int gap = 10;' as a member of the module, and 'wait(gap, SC_NS);'",
    },
    Shape {
        tokens: "^ sc_clock",
        hint: "a clock is declared in sc_main, and reaches a module by a port 'sc_in<bool> clk;'",
    },
    Shape {
        tokens: "<type> ^ &",
        hint: "a parameter is a value: write 'int x', and give the outcome back by 'return'",
    },
    Shape {
        tokens: "( <type> <word> ^ =",
        hint: "an argument is always given: leave the '=' and its value out",
    },
    Shape {
        tokens: ", <type> <word> ^ =",
        hint: "an argument is always given: leave the '=' and its value out",
    },
    Shape {
        tokens: "<type> ^ *",
        hint: "there are no pointers: declare the thing itself, and write 'p.f()' in place of 'p->f()'",
    },
    Shape {
        tokens: "<word> ^ *",
        hint: "there are no pointers: declare the thing itself, and write 'p.f()' in place of 'p->f()'",
    },
    Shape {
        tokens: "> ^ *",
        hint: "there are no pointers: declare the thing itself, and write 'p.f()' in place of 'p->f()'",
    },
    Shape {
        tokens: "unsigned ^ char",
        hint: "there are five types: 'bool', 'int', 'unsigned', 'long long' and 'unsigned long long'",
    },
    Shape {
        tokens: "unsigned ^ short",
        hint: "there are five types: 'bool', 'int', 'unsigned', 'long long' and 'unsigned long long'",
    },
    Shape {
        tokens: "unsigned ^ long <word>",
        hint: "write 'unsigned long long' or 'unsigned'",
    },
    Shape {
        tokens: "long ^ <word>",
        hint: "write 'long long' or 'int'",
    },
    Shape {
        tokens: "^ long <word>",
        hint: "write 'long long' or 'int'",
    },
];

// Functions, ports, channels and instances among the members of a module.
static MEMBER_HEADS: &[Shape] = &[
    Shape {
        tokens: "( ) ^ ;",
        hint: "a function is written inside its module, with its body: 'SC_MODULE(M) { void f() { .. } .. };'",
    },
    Shape {
        tokens: "<type> <word> ) ^ ;",
        hint: "a function is written inside its module, with its body: 'SC_MODULE(M) { void f() { .. } .. };'",
    },
    Shape {
        tokens: ") ^ const",
        hint: "leave 'const' out behind a function's parameters",
    },
    Shape {
        tokens: "<port> ^ <word>",
        hint: "a port has the type of its values: 'sc_in<int> a;'",
    },
    Shape {
        tokens: "sc_signal ^ <word>",
        hint: "a signal has the type of its values: 'sc_signal<int> s;'",
    },
    Shape {
        tokens: "sc_fifo ^ <word>",
        hint: "a fifo has the type of its values: 'sc_fifo<int> q;'",
    },
    Shape {
        tokens: "sc_signal < ^ <any>",
        hint: "a channel's values are of one of five types: 'bool', 'int', 'unsigned', 'long long', 'unsigned long long'",
    },
    Shape {
        tokens: "sc_fifo < ^ <any>",
        hint: "a channel's values are of one of five types: 'bool', 'int', 'unsigned', 'long long', 'unsigned long long'",
    },
    Shape {
        tokens: "<port> < ^ <any>",
        hint: "a port's values are of one of five types: 'bool', 'int', 'unsigned', 'long long', 'unsigned long long'",
    },
    Shape {
        tokens: "> <word> ^ =",
        hint: "a signal has no start value: a process writes it at the start",
    },
    Shape {
        tokens: "> <word> ^ (",
        hint: "in a module the arguments stand in braces or in the list of initialisers: 'sc_fifo<int> q{8};'",
    },
    Shape {
        tokens: "<word> <word> ^ (",
        hint: "in a module an instance's arguments stand in braces or in the list of initialisers: 'Child c{\"c\", 4};'",
    },
    Shape {
        tokens: "SC_CTOR ( <word> ) ^ ;",
        hint: "a function is written inside its module, with its body: 'SC_MODULE(M) { void f() { .. } .. };'",
    },
];

// What stands among the members of a module and belongs elsewhere, and constructors.
static MEMBER_PLACES: &[Shape] = &[
    Shape {
        tokens: "^ SC_THREAD",
        hint: "processes are registered in a constructor: 'SC_CTOR(M) { SC_THREAD(run); }'",
    },
    Shape {
        tokens: "^ SC_METHOD",
        hint: "processes are registered in a constructor: 'SC_CTOR(M) { SC_METHOD(run); }'",
    },
    Shape {
        tokens: "^ sensitive",
        hint: "the sensitivity stands in a constructor, behind its process",
    },
    Shape {
        tokens: "sc_module_name <word> ) ^ {",
        hint: "the constructor begins its list with the name: 'M(sc_module_name name) : sc_module(name) { .. }'",
    },
    Shape {
        tokens: "<word> ( ^ const",
        hint: "a constructor is 'SC_CTOR(M) { .. }', or 'M(sc_module_name name, int n) : sc_module(name) { .. }'",
    },
    Shape {
        tokens: "<word> ^ (",
        hint: "a constructor is 'SC_CTOR(M) { .. }', or 'M(sc_module_name name, int n) : sc_module(name) { .. }'",
    },
    Shape {
        tokens: "^ SC_MODULE",
        hint: "a '}' seems to be missing before it: a module ends with '};'",
    },
    Shape {
        tokens: "int ^ sc_main",
        hint: "a '}' seems to be missing before it: a module ends with '};'",
    },
    Shape {
        tokens: "^ ~",
        hint: "there are no destructors: leave it out",
    },
    Shape {
        tokens: "^ using",
        hint: "'using namespace' stands outside modules",
    },
    Shape {
        tokens: "^ for",
        hint: "statements stand in functions",
    },
    Shape {
        tokens: "^ if",
        hint: "statements stand in functions",
    },
    Shape {
        tokens: "^ while",
        hint: "statements stand in functions",
    },
];

/// What is written in a constructor.
pub static IN_CONSTRUCTOR: &[Shape] = &[
    Shape {
        tokens: "sensitive ^ (",
        hint: "write 'sensitive << clk.pos();' with '<<'",
    },
    Shape {
        tokens: "sensitive_pos ^ <any>",
        hint: "write 'sensitive << clk.pos();'",
    },
    Shape {
        tokens: "sensitive_neg ^ <any>",
        hint: "write 'sensitive << clk.neg();'",
    },
    Shape {
        tokens: "<word> . <word> ^ ;",
        hint: "an event is a call: 'sensitive << clk.pos();'",
    },
    Shape {
        tokens: "<word> . <word> ^ <<",
        hint: "an event is a call: 'sensitive << clk.pos();'",
    },
    Shape {
        tokens: "dont_initialize ^ ;",
        hint: "it is a call: 'dont_initialize();'",
    },
    Shape {
        tokens: "set_stack_size ^ (",
        hint: "leave it out: a thread takes what it needs",
    },
    Shape {
        tokens: "reset_signal_is ^ (",
        hint: "test the reset in the thread: 'if (reset) { .. }' behind each wait",
    },
    Shape {
        tokens: "async_reset_signal_is ^ (",
        hint: "test the reset in the thread: 'if (reset) { .. }' behind each wait",
    },
    Shape {
        tokens: "SC_THREAD ( <word> ^ ,",
        hint: "a process is registered by its function alone: 'SC_THREAD(run);'",
    },
    Shape {
        tokens: "<word> . <word> ( <word> ^ ,",
        hint: "a binding names one channel: 'c.x(s0);'",
    },
    Shape {
        tokens: "<word> ^ [",
        hint: "a process fills an array at the start",
    },
    Shape {
        tokens: "<word> ^ -",
        hint: "there are no pointers: write 'p.f()' in place of 'p->f()'",
    },
    Shape {
        tokens: "<word> ^ (",
        hint: "bind each port by its name: 'c.x(s0); c.y(s1);' in place of 'c(s0, s1);'",
    },
    Shape {
        tokens: "= ^ new",
        hint: "there is no 'new': declare the instance as a member: 'Child c;'",
    },
    Shape {
        tokens: "^ for",
        hint: "a constructor has no loops: a thread does this at its start",
    },
    Shape {
        tokens: "^ while",
        hint: "a constructor has no loops: a thread does this at its start",
    },
    Shape {
        tokens: "^ if",
        hint: "a constructor has no 'if': a process does this at its start",
    },
    Shape {
        tokens: "^ cout",
        hint: "a constructor doesn't print: a process does this at its start",
    },
    Shape {
        tokens: "^ <type> <word>",
        hint: "a constructor has no locals: make it a member of the module",
    },
    Shape {
        tokens: "^ wait",
        hint: "a constructor doesn't wait: a thread does this at its start",
    },
    Shape {
        tokens: "^ SC_MODULE",
        hint: "a '}' seems to be missing before it: a module ends with '};'",
    },
    Shape {
        tokens: "^ int sc_main",
        hint: "a '}' seems to be missing before it: a module ends with '};'",
    },
    Shape {
        tokens: "^ void <word> (",
        hint: "a '}' seems to be missing before it: functions don't stand in a constructor",
    },
];

/// What to write in place of what is written in a function.
pub fn hint_in_body(site: &Site<'_>) -> Option<&'static str> {
    first_hint(&[WAITS, OPERATORS, LOCALS, PRINTS, BODY_PLACES], site)
}

// Times, waits and notifications in a function.
static WAITS: &[Shape] = &[
    Shape {
        tokens: "wait ( <number> ^ )",
        hint: "a time has a unit: write 'wait(2, SC_NS);', or for several events of the sensitivity a loop: 'for (int i = 0; i < 2; i++) { wait(); }'",
    },
    Shape {
        tokens: "wait ( ^ sc_time <word>",
        hint: "a time is no variable: write 'const int gap = 10;' as a member of the module, and 'wait(gap, SC_NS);'",
    },
    Shape {
        tokens: "^ sc_time",
        hint: "a time is no variable: write 'const int gap = 10;' as a member of the module, and 'wait(gap, SC_NS);'",
    },
    Shape {
        tokens: "wait ( <number> ^ <word>",
        hint: "a ',' is missing between a time and its unit: 'wait(5, SC_NS);'",
    },
    Shape {
        tokens: "wait ( <word> & <word> ^ )",
        hint: "there is no event of two: wait for each, with a variable that tells which came",
    },
    Shape {
        tokens: "wait ( <word> , ^ <number>",
        hint: "the time stands before the event: 'wait(5, SC_NS, e);'",
    },
    Shape {
        tokens: "printf ( ^ <text>",
        hint: "print by 'cout': 'cout << x << endl;'",
    },
    Shape {
        tokens: "wait ( <word> ^ &",
        hint: "there is no event of two: wait for each, with a variable that tells which came",
    },
    Shape {
        tokens: "wait ^ ;",
        hint: "it is a call: 'wait();'",
    },
    Shape {
        tokens: "next_trigger ( <number> ^ )",
        hint: "a time has a unit: 'next_trigger(2, SC_NS);'",
    },
    Shape {
        tokens: ". notify ( ^ )",
        hint: "a notification has a time: 'e.notify(SC_ZERO_TIME);' comes in the next delta cycle, 'e.notify(1, SC_NS);' later",
    },
    Shape {
        tokens: ". notify ( <number> ^ )",
        hint: "a notification has a time: 'e.notify(SC_ZERO_TIME);' comes in the next delta cycle, 'e.notify(1, SC_NS);' later",
    },
    Shape {
        tokens: ". notify ( <word> ^ )",
        hint: "a notification has a time: 'e.notify(SC_ZERO_TIME);' comes in the next delta cycle, 'e.notify(1, SC_NS);' later",
    },
    Shape {
        tokens: "notify ( ^ )",
        hint: "a notification has a time: 'e.notify(SC_ZERO_TIME);' comes in the next delta cycle, 'e.notify(1, SC_NS);' later",
    },
];

// Operators in a function.
static OPERATORS: &[Shape] = &[
    Shape {
        tokens: "<word> ^ - >",
        hint: "there are no pointers: write 'p.f()' in place of 'p->f()'",
    },
    Shape {
        tokens: "<word> - ^ >",
        hint: "there are no pointers: write 'p.f()' in place of 'p->f()'",
    },
    Shape {
        tokens: "] ^ =",
        hint: "an assignment is a statement of its own; to compare, write '=='",
    },
    Shape {
        tokens: "<word> ^ =",
        hint: "an assignment is a statement of its own; to compare, write '=='",
    },
    Shape {
        tokens: "<word> ^ +=",
        hint: "an assignment is a statement of its own; to compare, write '=='",
    },
    Shape {
        tokens: "<word> ^ -=",
        hint: "an assignment is a statement of its own; to compare, write '=='",
    },
    Shape {
        tokens: "<word> ^ ++",
        hint: "'++' and '--' are statements of their own: write 'i++;' before or behind this one",
    },
    Shape {
        tokens: "<word> ^ --",
        hint: "'++' and '--' are statements of their own: write 'i++;' before or behind this one",
    },
    Shape {
        tokens: "] ^ ++",
        hint: "'++' and '--' are statements of their own: write 'i++;' before or behind this one",
    },
    Shape {
        tokens: "] ^ --",
        hint: "'++' and '--' are statements of their own: write 'i++;' before or behind this one",
    },
    Shape {
        tokens: "^ ++",
        hint: "'++' and '--' are statements of their own: write 'i++;' before or behind this one",
    },
    Shape {
        tokens: "^ --",
        hint: "'++' and '--' are statements of their own: write 'i++;' before or behind this one",
    },
];

// Locals and arrays in a function.
static LOCALS: &[Shape] = &[
    Shape {
        tokens: "<type> <word> ^ [",
        hint: "an array is a member of the module",
    },
    Shape {
        tokens: "<word> ] ^ [",
        hint: "an array has one index: 'a[i * 3 + j]'",
    },
    Shape {
        tokens: "] ^ [",
        hint: "an array has one index: write 'int a[6];' and 'a[i * 3 + j]' in place of 'a[2][3]'",
    },
    Shape {
        tokens: "<type> <word> ^ (",
        hint: "a local's value stands behind '=': 'int x = 1;'; if this begins a function, a '}' is missing before it",
    },
    Shape {
        tokens: "<type> <word> ^ {",
        hint: "a local's value stands behind '=': 'int x = 1;'",
    },
    Shape {
        tokens: "^ const",
        hint: "a local isn't const: leave 'const' out, or make it a member of the module",
    },
    Shape {
        tokens: "^ static",
        hint: "a local isn't static: make it a member of the module",
    },
    Shape {
        tokens: "<type> ^ *",
        hint: "there are no pointers: declare the thing itself, and write 'p.f()' in place of 'p->f()'",
    },
    Shape {
        tokens: "<type> ^ &",
        hint: "there are no pointers: declare the thing itself, and write 'p.f()' in place of 'p->f()'",
    },
    Shape {
        tokens: "^ &",
        hint: "there are no addresses: name the thing itself",
    },
    Shape {
        tokens: "for ( <type> <word> ^ :",
        hint: "write a loop with an index: 'for (int i = 0; i < 8; i++) { .. a[i] .. }'",
    },
];

// Prints in a function.
static PRINTS: &[Shape] = &[
    Shape {
        tokens: "cerr ^ <<",
        hint: "write 'cout' in place of 'cerr'",
    },
    Shape {
        tokens: "clog ^ <<",
        hint: "write 'cout' in place of 'clog'",
    },
    Shape {
        tokens: "cout << <any> ^ >",
        hint: "in a print what binds looser than '+' stands in parentheses: 'cout << (a > b);'",
    },
    Shape {
        tokens: "cout << <any> ^ <",
        hint: "in a print what binds looser than '+' stands in parentheses: 'cout << (a < b);'",
    },
    Shape {
        tokens: "cout << <any> ^ ==",
        hint: "in a print what binds looser than '+' stands in parentheses: 'cout << (a == b);'",
    },
    Shape {
        tokens: "cout << <any> ^ ?",
        hint: "in a print what binds looser than '+' stands in parentheses: 'cout << (a ? b : c);'",
    },
    Shape {
        tokens: "cout << <any> ^ &",
        hint: "in a print what binds looser than '+' stands in parentheses: 'cout << (a & b);'",
    },
    Shape {
        tokens: "sc_time_stamp ( ) ^ .",
        hint: "the time is printed alone: 'cout << sc_time_stamp();'",
    },
    Shape {
        tokens: "^ sc_time_stamp",
        hint: "the time stands in prints alone: 'cout << sc_time_stamp();'",
    },
];

// What stands in a function and belongs elsewhere, and lists.
static BODY_PLACES: &[Shape] = &[
    Shape {
        tokens: "^ sc_start",
        hint: "'sc_start' stands in sc_main",
    },
    Shape {
        tokens: "^ else",
        hint: "no 'if' stands right before this 'else'",
    },
    Shape {
        tokens: "++ ^ ,",
        hint: "there is no ',' between statements: write the second one into the loop's body",
    },
    Shape {
        tokens: "= <any> ^ ,",
        hint: "there is no ',' between statements: write two of them",
    },
    Shape {
        tokens: "^ <text>",
        hint: "a text stands in prints alone, behind 'cout <<'",
    },
    Shape {
        tokens: "^ SC_CTOR",
        hint: "a '}' seems to be missing before it: a constructor doesn't stand in a function",
    },
    Shape {
        tokens: "^ SC_THREAD",
        hint: "processes are registered in a constructor",
    },
    Shape {
        tokens: "^ SC_METHOD",
        hint: "processes are registered in a constructor",
    },
    Shape {
        tokens: "^ SC_MODULE",
        hint: "a '}' seems to be missing before it",
    },
    Shape {
        tokens: "^ sc_main",
        hint: "a '}' seems to be missing before it",
    },
    Shape {
        tokens: "^ void",
        hint: "a '}' seems to be missing before it: functions don't stand in functions",
    },
    Shape {
        tokens: "^ sc_signal",
        hint: "channels are declared in a module, outside its functions",
    },
    Shape {
        tokens: "^ sc_event",
        hint: "events are declared in a module, outside its functions",
    },
    Shape {
        tokens: "^ sc_fifo",
        hint: "channels are declared in a module, outside its functions",
    },
    Shape {
        tokens: "long ^ <word>",
        hint: "write 'long long' or 'int'",
    },
    Shape {
        tokens: "return ^ {",
        hint: "there are no lists of values",
    },
    Shape {
        tokens: "= ^ {",
        hint: "there are no lists of values: set each by a statement",
    },
];
