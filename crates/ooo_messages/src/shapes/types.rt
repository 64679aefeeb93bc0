use crate::shape::Shape;

/// What is declared a second time.
pub static DECLARED_TWICE: &[Shape] = &[
    Shape {
        tokens: "SC_THREAD ( ^ <any>",
        hint: "a function is one process: write it twice, or let two functions call it",
    },
    Shape {
        tokens: "SC_METHOD ( ^ <any>",
        hint: "a function is one process: write it twice, or let two functions call it",
    },
    Shape {
        tokens: "^ <any>",
        hint: "take another name, or an inner block",
    },
];

/// What waits in a method.
pub static WAIT_IN_METHOD: &[Shape] = &[
    Shape {
        tokens: ". ^ read",
        hint: "a read of a fifo may wait: make the process an SC_THREAD, or use 'nb_read'",
    },
    Shape {
        tokens: ". ^ write",
        hint: "a write to a fifo may wait: make the process an SC_THREAD, or use 'nb_write'",
    },
    Shape {
        tokens: "^ <any>",
        hint: "register the function by SC_THREAD, or use 'next_trigger' in place of 'wait'",
    },
];

/// What waits in a function that is no process.
pub static WAIT_IN_FUNCTION: &[Shape] = &[Shape {
    tokens: "^ <any>",
    hint: "wait in the thread itself, before or after the call; a function that is no process yet is registered by 'SC_THREAD(f);'",
}];

/// What calls itself.
pub static RECURSIVE_CALL: &[Shape] = &[Shape {
    tokens: "^ <any>",
    hint: "write a loop",
}];

/// What is bound and is no port.
pub static NOT_A_PORT: &[Shape] = &[
    Shape {
        tokens: "<word> . ^ write",
        hint: "a signal gets its values from a process: write it at the start of a thread; others see it from the next delta cycle on",
    },
    Shape {
        tokens: "<word> . ^ read",
        hint: "a channel is read in a process",
    },
    Shape {
        tokens: "^ <any>",
        hint: "only ports of an instance are bound: look at the module's declarations, or give it a port",
    },
];

/// What stands inside an expression and does something.
pub static EFFECT_INSIDE: &[Shape] = &[
    Shape {
        tokens: ". ^ nb_read",
        hint: "write 'bool ok = q.nb_read(v); if (ok) { .. }'",
    },
    Shape {
        tokens: ". ^ nb_write",
        hint: "write 'bool ok = q.nb_write(e); if (ok) { .. }'",
    },
    Shape {
        tokens: ". ^ read",
        hint: "write 'int v = q.read();', and then use v",
    },
    Shape {
        tokens: "^ <any>",
        hint: "write 'int v = f();', and then use v",
    },
];

/// What has to be known before the simulation.
pub static NOT_CONSTANT: &[Shape] = &[
    Shape {
        tokens: "[ ^ <any>",
        hint: "a length is made of numbers, constants and parameters of the constructor: 'const int SIZE = 4;'",
    },
    Shape {
        tokens: "^ <any>",
        hint: "use numbers, constants, const members and parameters of the constructor; a process sets what is known only later",
    },
];
