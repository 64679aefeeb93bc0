use ooo_value::Value;

/// What a name means in one instance of its module, or in the file or in `sc_main`: a value that it keeps, or the number of
/// what it denotes in the model.
#[derive(Clone, Copy)]
pub enum Meaning {
    /// No value and no number of its own: a module, a function that no process reaches.
    Nothing,
    /// A constant, or a member that keeps its value.
    Constant(Value),
    /// A variable, of one value or several.
    Variable(u32),
    /// A signal, a fifo or a clock.
    Channel(u32),
    /// A port.
    Port(u32),
    /// An `sc_event`.
    Event(u32),
    /// An instance of a module.
    Instance(u32),
    /// A member function.
    Function(u32),
}
