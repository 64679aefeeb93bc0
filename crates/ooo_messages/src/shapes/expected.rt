use crate::shape::Shape;

/// What may stand outside modules and `sc_main`.
pub static OF_FILE: &[Shape] = &[
    Shape {
        tokens: "^ <end>",
        hint: "what is missing is 'int sc_main(int argc, char* argv[]) { .. }'",
    },
    Shape {
        tokens: "^ <any>",
        hint: "here may stand 'using namespace', 'const', 'SC_MODULE' or 'int sc_main'",
    },
];

/// What may stand in `sc_main`.
pub static OF_MAIN: &[Shape] = &[
    Shape {
        tokens: "^ <end>",
        hint: "a '}' or a ')' is missing",
    },
    Shape {
        tokens: "; ^ <any>",
        hint: "here may stand a constant, a channel, a clock, an instance, a binding, 'sc_start', 'return' or '}'",
    },
    Shape {
        tokens: "{ ^ <any>",
        hint: "here may stand a constant, a channel, a clock, an instance, a binding, 'sc_start', 'return' or '}'",
    },
    Shape {
        tokens: ") ^ <any>",
        hint: "here may stand a ';'",
    },
];

/// What may stand among the members of a module.
pub static OF_MEMBERS: &[Shape] = &[
    Shape {
        tokens: "^ <end>",
        hint: "a '}' or a ')' is missing",
    },
    Shape {
        tokens: "; ^ <any>",
        hint: "here may stand a variable, a port, a channel, an event, an instance, a function, a constructor or '}'",
    },
    Shape {
        tokens: "{ ^ <any>",
        hint: "here may stand a variable, a port, a channel, an event, an instance, a function, a constructor or '}'",
    },
    Shape {
        tokens: "} ^ <any>",
        hint: "here may stand a variable, a port, a channel, an event, an instance, a function, a constructor or '}'",
    },
    Shape {
        tokens: "<type> ^ <any>",
        hint: "here stands a name",
    },
];

/// What may stand in a constructor.
pub static OF_CONSTRUCTOR: &[Shape] = &[
    Shape {
        tokens: "^ <end>",
        hint: "a '}' or a ')' is missing",
    },
    Shape {
        tokens: "; ^ <any>",
        hint: "here may stand SC_THREAD, SC_METHOD, 'sensitive', 'dont_initialize', a binding, an assignment or '}'",
    },
    Shape {
        tokens: "{ ^ <any>",
        hint: "here may stand SC_THREAD, SC_METHOD, 'sensitive', 'dont_initialize', a binding, an assignment or '}'",
    },
    Shape {
        tokens: ") ^ <any>",
        hint: "here may stand a ';'",
    },
];

/// What may stand in a function.
pub static OF_BODY: &[Shape] = &[
    Shape {
        tokens: "^ <end>",
        hint: "a '}' or a ')' is missing",
    },
    Shape {
        tokens: ") ^ {",
        hint: "a ')' may be missing before it",
    },
    Shape {
        tokens: "^ {",
        hint: "a ')' may be missing before it",
    },
    Shape {
        tokens: "( ^ )",
        hint: "here stands an expression",
    },
    Shape {
        tokens: "; ^ )",
        hint: "here stands an expression or a statement",
    },
    Shape {
        tokens: "<type> ^ <any>",
        hint: "here stands a name",
    },
    Shape {
        tokens: "<word> ^ <word>",
        hint: "two words stand side by side: an operator, a ';' or a ',' may be missing between them, or the first is no type",
    },
    Shape {
        tokens: "<word> ^ (",
        hint: "only functions of the module are called, with '(' behind their names",
    },
    Shape {
        tokens: "; ^ <any>",
        hint: "here may stand a statement or '}'",
    },
    Shape {
        tokens: "{ ^ <any>",
        hint: "here may stand a statement or '}'",
    },
];
