use crate::shape::Shape;

/// A port that nothing is bound to.
pub static PORT_NOT_BOUND: &[Shape] = &[Shape {
    tokens: "^ <any>",
    hint: "bind it where its instance is made: 'c.port(channel);'",
}];

/// A port that is bound twice.
pub static PORT_BOUND_TWICE: &[Shape] = &[Shape {
    tokens: "^ <any>",
    hint: "take one of its bindings away",
}];

/// What a port can't be bound to.
pub static PORT_KIND: &[Shape] = &[Shape {
    tokens: "^ <any>",
    hint: "port and channel have one type, an sc_in takes a signal or a clock, an sc_out and an sc_inout a signal that is no clock, and a fifo's port a fifo",
}];

/// What two processes write.
pub static TWO_WRITERS: &[Shape] = &[Shape {
    tokens: "^ <any>",
    hint: "one process writes a signal or a fifo: let one of the two do it, or use a channel for each",
}];

/// What two processes read from.
pub static TWO_READERS: &[Shape] = &[Shape {
    tokens: "^ <any>",
    hint: "one process reads a fifo: let one of the two do it, or use a fifo for each",
}];

/// A process too many.
pub static TOO_MANY_PROCESSES: &[Shape] = &[Shape {
    tokens: "^ <any>",
    hint: "there are at most 256 processes, clocks among them: use fewer instances",
}];

/// An object too many.
pub static TOO_MANY_OBJECTS: &[Shape] = &[Shape {
    tokens: "^ <any>",
    hint: "there are at most 4096 instances, channels, events and variables: use arrays, or fewer instances",
}];

/// Arrays that are too long.
pub static TOO_MANY_CELLS: &[Shape] = &[Shape {
    tokens: "^ <any>",
    hint: "there are at most 1048576 elements in all: make the arrays shorter",
}];

/// A fifo's size.
pub static FIFO_SIZE: &[Shape] = &[Shape {
    tokens: "^ <any>",
    hint: "give it a size from 1 to 65536; without one it has 16",
}];

/// A time that is too great.
pub static TIME_TOO_LARGE: &[Shape] = &[Shape {
    tokens: "^ <any>",
    hint: "a time has at most 4611686018427387903 ps, some 53 days: choose a smaller amount or unit",
}];

/// A period without a half.
pub static ODD_CLOCK: &[Shape] = &[Shape {
    tokens: "^ <any>",
    hint: "choose an even number of picoseconds above 0",
}];

/// A constant that has no value.
pub static BAD_CONSTANT: &[Shape] = &[
    Shape {
        tokens: "[ ^ <any>",
        hint: "an array has a length of at least 1",
    },
    Shape {
        tokens: "sc_start ( ^ <any>",
        hint: "to simulate what is due at time 0 alone, call with '--stop 0ns'",
    },
    Shape {
        tokens: "^ <any>",
        hint: "it overflows, divides by zero, shifts too far, or is negative or zero where it must not be",
    },
];
