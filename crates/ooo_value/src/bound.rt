use crate::kinds::Kind;
use crate::values::Value;

/// Which of the two kinds of processes one is (IEEE 1666-2011, 5.2.10 and 5.2.11).
#[derive(Clone, Copy)]
pub enum ProcessKind {
    /// Registered by `SC_THREAD`, or a clock's: it starts once and may wait.
    Thread,
    /// Registered by `SC_METHOD`: its body runs whole at each trigger.
    Method,
}

/// A member variable of an instance.
#[derive(Clone, Copy)]
pub struct BoundVariable {
    /// The kind of each element.
    pub kind: Kind,
    /// How many elements there are; 1 for a scalar.
    pub length: u32,
    /// What every element starts at.
    pub start: Value,
}

/// Which of the two kinds of channels one is.
#[derive(Clone, Copy)]
pub enum ChannelKind {
    /// An `sc_signal` or an `sc_clock` (IEEE 1666-2011, 6.4 and 6.7).
    Signal,
    /// An `sc_fifo` (IEEE 1666-2011, 6.23).
    Fifo,
}

/// A channel of the model.
#[derive(Clone, Copy)]
pub struct BoundChannel {
    /// Signal or fifo.
    pub kind: ChannelKind,
    /// The kind of its values.
    pub value: Kind,
    /// How many values a fifo holds; a signal has no use for it.
    pub size: u32,
}

/// An event of the model. A channel's events name the channel by its number.
#[derive(Clone, Copy)]
pub enum BoundEvent {
    /// An `sc_event` of its own (IEEE 1666-2011, 5.10).
    Own,
    /// The value of a signal changed.
    Changed(u32),
    /// A signal of bool changed to true.
    Rise(u32),
    /// A signal of bool changed to false.
    Fall(u32),
    /// A value was written to a fifo.
    Written(u32),
    /// A value was read from a fifo.
    Taken(u32),
}
