use crate::shape::{Shape, first_hint};
use crate::site::Site;

/// What to write in place of a word or form that the language hasn't, wherever it stands.
pub fn hint_anywhere(site: &Site<'_>) -> Option<&'static str> {
    first_hint(
        &[
            STATEMENTS_AND_TYPES,
            CLASSES_AND_OBJECTS,
            CHANNELS_AND_WORDS,
            LIBRARY_TYPES,
        ],
        site,
    )
}

// `switch`, and types that the language hasn't.
static STATEMENTS_AND_TYPES: &[Shape] = &[
    Shape {
        tokens: "^ switch",
        hint: "write 'if' and 'else if' in place of 'switch'",
    },
    Shape {
        tokens: "^ case",
        hint: "write 'if' and 'else if' in place of 'switch'",
    },
    Shape {
        tokens: "^ default",
        hint: "write 'if' and 'else if' in place of 'switch'",
    },
    Shape {
        tokens: "^ double",
        hint: "there are no fractions: use whole numbers of a smaller unit",
    },
    Shape {
        tokens: "^ float",
        hint: "there are no fractions: use whole numbers of a smaller unit",
    },
    Shape {
        tokens: "<number> ^ .",
        hint: "there are no fractions: write a whole number of a smaller unit",
    },
    Shape {
        tokens: "^ sc_uint",
        hint: "use 'int' or 'unsigned', and 'x & 255' where the width counts",
    },
    Shape {
        tokens: "^ sc_int",
        hint: "use 'int' or 'unsigned', and 'x & 255' where the width counts",
    },
    Shape {
        tokens: "^ sc_biguint",
        hint: "use 'int' or 'unsigned', and 'x & 255' where the width counts",
    },
    Shape {
        tokens: "^ sc_bigint",
        hint: "use 'int' or 'unsigned', and 'x & 255' where the width counts",
    },
    Shape {
        tokens: "^ sc_bv",
        hint: "use 'unsigned', with '&', '|' and shifts for its bits",
    },
    Shape {
        tokens: "^ sc_lv",
        hint: "use 'unsigned', with '&', '|' and shifts for its bits: there is no X and no Z",
    },
    Shape {
        tokens: "^ sc_logic",
        hint: "use 'bool': there is no X and no Z",
    },
    Shape {
        tokens: "^ sc_bit",
        hint: "use 'bool'",
    },
    Shape {
        tokens: "^ sc_fixed",
        hint: "use whole numbers of a smaller unit",
    },
    Shape {
        tokens: "^ sc_ufixed",
        hint: "use whole numbers of a smaller unit",
    },
    Shape {
        tokens: "^ char",
        hint: "there are five types: 'bool', 'int', 'unsigned', 'long long' and 'unsigned long long'",
    },
    Shape {
        tokens: "^ short",
        hint: "there are five types: 'bool', 'int', 'unsigned', 'long long' and 'unsigned long long'",
    },
    Shape {
        tokens: "^ signed",
        hint: "write 'int' in place of 'signed'",
    },
    Shape {
        tokens: "^ auto",
        hint: "write the type: there are five types: 'bool', 'int', 'unsigned', 'long long' and 'unsigned long long'",
    },
];

// Types of one's own, processes and objects of other kinds, and access to members.
static CLASSES_AND_OBJECTS: &[Shape] = &[
    Shape {
        tokens: "^ struct <word> :",
        hint: "write 'SC_MODULE(Name) { .. };' with a constructor 'SC_CTOR(Name) { .. }'",
    },
    Shape {
        tokens: "^ class <word> :",
        hint: "write 'SC_MODULE(Name) { .. };' with a constructor 'SC_CTOR(Name) { .. }'",
    },
    Shape {
        tokens: "^ struct",
        hint: "a struct isn't taken: write a variable for each of its fields",
    },
    Shape {
        tokens: "^ class",
        hint: "a struct isn't taken: write a variable for each of its fields",
    },
    Shape {
        tokens: "^ union",
        hint: "a struct isn't taken: write a variable for each of its fields",
    },
    Shape {
        tokens: "^ enum",
        hint: "write a 'const int' for each of its names",
    },
    Shape {
        tokens: "^ typedef",
        hint: "write the type itself wherever it is used",
    },
    Shape {
        tokens: "^ template",
        hint: "there are no templates: write the module once for each type, with numbers as parameters of its constructor",
    },
    Shape {
        tokens: "^ static_cast",
        hint: "write '(int)x' or 'int(x)' in place of 'static_cast<int>(x)'",
    },
    Shape {
        tokens: "^ SC_CTHREAD",
        hint: "write 'SC_THREAD(run); sensitive << clk.pos(); dont_initialize();'",
    },
    Shape {
        tokens: "^ sc_mutex",
        hint: "use a variable that tells whether it is taken, and an event on which the others wait",
    },
    Shape {
        tokens: "^ sc_semaphore",
        hint: "use a variable that counts, and an event on which the others wait",
    },
    Shape {
        tokens: "^ sc_vector",
        hint: "arrays hold variables alone: give each port, signal, fifo, event and module a name of its own",
    },
    Shape {
        tokens: "^ sc_trace",
        hint: "there are no trace files: the report has the history of every channel",
    },
    Shape {
        tokens: "* ^ <word> = new",
        hint: "there is no 'new': declare the instance itself: 'Child c(\"c\");'",
    },
    Shape {
        tokens: "^ new",
        hint: "there is no 'new': declare an instance as 'Child c;' in a module, or as 'Child c(\"c\");' in sc_main",
    },
    Shape {
        tokens: "^ delete",
        hint: "there is no 'delete': nothing is made at run time",
    },
    Shape {
        tokens: "^ private",
        hint: "all members are public here: leave it out",
    },
    Shape {
        tokens: "^ protected",
        hint: "all members are public here: leave it out",
    },
    Shape {
        tokens: "^ friend",
        hint: "all members are public here: leave it out",
    },
    Shape {
        tokens: "^ this",
        hint: "write the member's name alone",
    },
];

// Channels of other kinds and SystemC's settings, and words of C++.
static CHANNELS_AND_WORDS: &[Shape] = &[
    Shape {
        tokens: "^ sc_port",
        hint: "use a port of a channel: 'sc_in<int>', 'sc_out<int>', 'sc_fifo_in<int>' or 'sc_fifo_out<int>'",
    },
    Shape {
        tokens: "^ sc_export",
        hint: "use a port of a channel: 'sc_in<int>', 'sc_out<int>', 'sc_fifo_in<int>' or 'sc_fifo_out<int>'",
    },
    Shape {
        tokens: "^ sc_interface",
        hint: "there are no channels of one's own: use sc_signal, sc_fifo and sc_event",
    },
    Shape {
        tokens: "^ sc_event_queue",
        hint: "use an sc_event, and a variable that counts",
    },
    Shape {
        tokens: "^ sc_spawn",
        hint: "every process is registered in a constructor: 'SC_THREAD(run);'",
    },
    Shape {
        tokens: "^ sc_set_time_resolution",
        hint: "the resolution is one picosecond: leave it out",
    },
    Shape {
        tokens: "^ SC_FS",
        hint: "the smallest unit is SC_PS",
    },
    Shape {
        tokens: "^ SC_MANY_WRITERS",
        hint: "one process writes a signal: leave the policy out, and use a signal for each writer",
    },
    Shape {
        tokens: "^ SC_UNCHECKED_WRITERS",
        hint: "one process writes a signal: leave the policy out, and use a signal for each writer",
    },
    Shape {
        tokens: "sc_signal < <word> ^ ,",
        hint: "one process writes a signal: leave the policy out, and use a signal for each writer",
    },
    Shape {
        tokens: "sc_signal < unsigned int ^ ,",
        hint: "one process writes a signal: leave the policy out, and use a signal for each writer",
    },
    Shape {
        tokens: "^ virtual",
        hint: "there is no inheritance: leave 'virtual' out",
    },
    Shape {
        tokens: "^ operator",
        hint: "there are no operators of one's own: write a function of the module",
    },
    Shape {
        tokens: "^ goto",
        hint: "write a loop with 'break' and 'continue', or a function with 'return'",
    },
    Shape {
        tokens: "^ try",
        hint: "there are no exceptions: leave it out",
    },
    Shape {
        tokens: "^ throw",
        hint: "there are no exceptions: print what is wrong and call 'sc_stop();'",
    },
    Shape {
        tokens: "^ sizeof",
        hint: "write the number itself",
    },
    Shape {
        tokens: "^ volatile",
        hint: "leave 'volatile' out",
    },
    Shape {
        tokens: "^ explicit",
        hint: "leave 'explicit' out",
    },
];

// Types of the libraries of C++ and C.
static LIBRARY_TYPES: &[Shape] = &[
    Shape {
        tokens: "vector ^ <",
        hint: "use an array as a member of the module: 'int a[8];', or an sc_fifo between processes",
    },
    Shape {
        tokens: "queue ^ <",
        hint: "use an array as a member of the module: 'int a[8];', or an sc_fifo between processes",
    },
    Shape {
        tokens: "deque ^ <",
        hint: "use an array as a member of the module: 'int a[8];', or an sc_fifo between processes",
    },
    Shape {
        tokens: "list ^ <",
        hint: "use an array as a member of the module: 'int a[8];', or an sc_fifo between processes",
    },
    Shape {
        tokens: "map ^ <",
        hint: "use an array as a member of the module: 'int a[8];', or an sc_fifo between processes",
    },
    Shape {
        tokens: "array ^ <",
        hint: "use an array as a member of the module: 'int a[8];', or an sc_fifo between processes",
    },
    Shape {
        tokens: "tlm_fifo ^ <",
        hint: "use an sc_fifo",
    },
    Shape {
        tokens: "float ^ <word>",
        hint: "there are no fractions: use whole numbers of a smaller unit",
    },
    Shape {
        tokens: "string ^ <word>",
        hint: "texts stand in prints alone: write 'cout << \"text\";'",
    },
    Shape {
        tokens: "uint8_t ^ <word>",
        hint: "there are five types: 'bool', 'int', 'unsigned', 'long long' and 'unsigned long long'",
    },
    Shape {
        tokens: "uint16_t ^ <word>",
        hint: "there are five types: 'bool', 'int', 'unsigned', 'long long' and 'unsigned long long'",
    },
    Shape {
        tokens: "uint32_t ^ <word>",
        hint: "there are five types: 'bool', 'int', 'unsigned', 'long long' and 'unsigned long long'",
    },
    Shape {
        tokens: "uint64_t ^ <word>",
        hint: "there are five types: 'bool', 'int', 'unsigned', 'long long' and 'unsigned long long'",
    },
    Shape {
        tokens: "int8_t ^ <word>",
        hint: "there are five types: 'bool', 'int', 'unsigned', 'long long' and 'unsigned long long'",
    },
    Shape {
        tokens: "int16_t ^ <word>",
        hint: "there are five types: 'bool', 'int', 'unsigned', 'long long' and 'unsigned long long'",
    },
    Shape {
        tokens: "int32_t ^ <word>",
        hint: "there are five types: 'bool', 'int', 'unsigned', 'long long' and 'unsigned long long'",
    },
    Shape {
        tokens: "int64_t ^ <word>",
        hint: "there are five types: 'bool', 'int', 'unsigned', 'long long' and 'unsigned long long'",
    },
    Shape {
        tokens: "size_t ^ <word>",
        hint: "there are five types: 'bool', 'int', 'unsigned', 'long long' and 'unsigned long long'",
    },
    Shape {
        tokens: "uint ^ <word>",
        hint: "there are five types: 'bool', 'int', 'unsigned', 'long long' and 'unsigned long long'",
    },
    Shape {
        tokens: "uint64 ^ <word>",
        hint: "there are five types: 'bool', 'int', 'unsigned', 'long long' and 'unsigned long long'",
    },
    Shape {
        tokens: "int64 ^ <word>",
        hint: "there are five types: 'bool', 'int', 'unsigned', 'long long' and 'unsigned long long'",
    },
    Shape {
        tokens: "^ float <word>",
        hint: "there are no fractions: use whole numbers of a smaller unit",
    },
    Shape {
        tokens: "^ string <word>",
        hint: "texts stand in prints alone: write 'cout << \"text\";'",
    },
];
