use ooo_syntax::Word;
use ooo_value::Kind;

/// Which way the values of a signal port go (IEEE 1666-2011, 6.8, 6.9 and 6.10).
#[derive(Clone, Copy, Debug, PartialEq, Eq)]
pub enum Direction {
    /// `sc_in`
    In,
    /// `sc_out`
    Out,
    /// `sc_inout`
    Inout,
}

/// What sort of thing a name denotes, with its type.
#[derive(Clone, Copy, Debug, PartialEq, Eq)]
pub enum Thing {
    /// The name is not known here.
    Nothing,
    /// A module, whose constructor has this many parameters.
    Module(usize),
    /// A constant of the file.
    FileConstant(Kind),
    /// A constant of `sc_main`.
    MainConstant(Kind),
    /// A parameter of `sc_main`.
    MainArgument,
    /// An `sc_clock`.
    Clock,
    /// A member variable of one value.
    Variable(Kind),
    /// A member that keeps the one value that it starts with, and whether it is static.
    Fixed(Kind, bool),
    /// A member variable of several values.
    Array(Kind),
    /// A member of several values that it keeps.
    FixedArray(Kind),
    /// An `sc_signal`.
    Signal(Kind),
    /// An `sc_fifo`.
    Fifo(Kind),
    /// A port for a signal.
    SignalPort(Direction, Kind),
    /// An `sc_fifo_in`.
    FifoIn(Kind),
    /// An `sc_fifo_out`.
    FifoOut(Kind),
    /// An `sc_event`.
    Event,
    /// An instance of the module of this number.
    Instance(usize),
    /// A member function: what it gives, and how many parameters it has.
    Function(Option<Kind>, usize),
    /// A parameter of a function or of a constructor.
    Parameter(Kind),
    /// The `sc_module_name` parameter of a constructor.
    ModuleName,
    /// A local of a function.
    Local(Kind),
}

/// What a name denotes: a thing, and its number among its like.
///
/// Modules and constants of the file have their place among the names that the file declares; constants, channels, clocks
/// and instances of `sc_main` their place among the names that it declares; members their place among the names that the
/// module declares; parameters of a constructor or of `sc_main` their place among its parameters. Parameters and locals of
/// a function have a slot each: how many of its parameters and locals are known where it is declared. A name that its
/// block declares already counts for no number.
#[derive(Clone, Copy, Debug, PartialEq, Eq)]
pub struct Denotation {
    pub thing: Thing,
    pub number: usize,
}

/// A name with what it denotes.
#[derive(Drop)]
pub struct Resolved {
    pub word: Word,
    pub denotes: Denotation,
}

/// A call of a channel or a port, by the word after the dot (IEEE 1666-2011, 6.4 and 6.23).
#[derive(Clone, Copy)]
pub enum Method {
    /// It has no such call.
    Nothing,
    Read,
    Write,
    /// `event`
    Event,
    /// `posedge`
    Posedge,
    /// `negedge`
    Negedge,
    /// `nb_read`
    NbRead,
    /// `nb_write`
    NbWrite,
    /// `num_available`
    NumAvailable,
    /// `num_free`
    NumFree,
}

/// Which event of a thing is meant where an event stands.
#[derive(Clone, Copy)]
pub enum EventForm {
    /// No event is meant.
    Nothing,
    /// An `sc_event` itself.
    Own,
    /// The value of a signal changed.
    Changed,
    /// A signal of bool became true.
    Rise,
    /// A signal of bool became false.
    Fall,
    /// Values were written to a fifo.
    Written,
    /// Values were read from a fifo.
    Taken,
}

/// How an event of a channel or a port is called, by the word after the dot (IEEE 1666-2011, 6.4, 6.8, 6.23 to 6.26).
#[derive(Clone, Copy)]
pub enum EventWord {
    /// `value_changed_event`
    ValueChangedEvent,
    /// `default_event`
    DefaultEvent,
    /// `posedge_event`
    PosedgeEvent,
    /// `negedge_event`
    NegedgeEvent,
    /// `data_written_event`
    DataWrittenEvent,
    /// `data_read_event`
    DataReadEvent,
    /// `value_changed`
    ValueChanged,
    /// `pos`
    Pos,
    /// `neg`
    Neg,
    /// `data_written`
    DataWritten,
    /// `data_read`
    DataRead,
}
