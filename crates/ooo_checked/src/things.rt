ghost use Rattle.std.specs.Prelude.{◌≡◌};
ghost use Rattle.ooo_checked.specs.Places.{takes_elements, takes_value};
ghost use Rattle.ooo_checked.specs.Things.{argument_count, called_event, edge_of, event_by, event_named, event_text, method_text};
ghost use Rattle.ooo_checked.specs.Things.{gives_nothing, has_effect, has_method, has_method_named, has_value};
ghost use Rattle.ooo_checked.specs.Things.{fifo_event, fifo_in_event, fifo_out_event, own_event, port_event, signal_event};
ghost use Rattle.ooo_checked.specs.Things.{is_array, is_assignable, is_blocking, is_bool, is_constant_thing, is_event};
ghost use Rattle.ooo_checked.specs.Things.{is_fifo, is_finder, is_known, is_reading, is_writing, method_kind};
ghost use Rattle.ooo_checked.specs.Things.{method_named, method_of, named_event, of_port, of_signal, own_method};
ghost use Rattle.ooo_checked.specs.Things.{result_kind, value_kind};

use crate::denotation::{Direction, EventForm, EventWord, Method, Thing};
use ooo_value::Kind;

impl Thing {
    /// Whether the name is known.
    pub fn is_known(self) -> bool
        ensures { result ≡ is_known self }
    {
        !matches!(self, Thing::Nothing)
    }

    /// Whether the thing's name by itself has a value.
    pub fn has_value(self) -> bool
        ensures { result ≡ has_value self }
    {
        matches!(
            self,
            Thing::FileConstant(_)
                | Thing::MainConstant(_)
                | Thing::Clock
                | Thing::Variable(_)
                | Thing::Fixed(_, _)
                | Thing::Signal(_)
                | Thing::SignalPort(_, _)
                | Thing::Parameter(_)
                | Thing::Local(_)
        )
    }

    /// Whether it has several values.
    pub fn is_array(self) -> bool
        ensures { result ≡ is_array self }
    {
        matches!(self, Thing::Array(_) | Thing::FixedArray(_))
    }

    /// The kind of its values; `Int` where it has none.
    pub fn value_kind(self) -> Kind
        ensures { result ≡ value_kind self }
    {
        match self {
            Thing::FileConstant(kind)
            | Thing::MainConstant(kind)
            | Thing::Variable(kind)
            | Thing::Fixed(kind, _)
            | Thing::Array(kind)
            | Thing::FixedArray(kind)
            | Thing::Signal(kind)
            | Thing::Fifo(kind)
            | Thing::SignalPort(_, kind)
            | Thing::FifoIn(kind)
            | Thing::FifoOut(kind)
            | Thing::Parameter(kind)
            | Thing::Local(kind) => kind,
            Thing::Clock => Kind::Bool,
            _ => Kind::Int,
        }
    }

    /// The kind of what a function gives; `Int` where it gives nothing.
    pub fn result_kind(self) -> Kind
        ensures { result ≡ result_kind self }
    {
        match self {
            Thing::Function(Some(kind), _) => kind,
            _ => Kind::Int,
        }
    }

    /// Whether its value is known before the simulation.
    pub fn is_constant(self) -> bool
        ensures { result ≡ is_constant_thing self }
    {
        matches!(
            self,
            Thing::FileConstant(_)
                | Thing::MainConstant(_)
                | Thing::Fixed(_, _)
                | Thing::Parameter(_)
        )
    }

    /// Whether a value can be put into it by its name alone.
    pub fn takes_value(self) -> bool
        ensures { result ≡ takes_value self }
    {
        matches!(
            self,
            Thing::Variable(_) | Thing::Parameter(_) | Thing::Local(_)
        )
    }

    /// Whether values can be put into its elements.
    pub fn takes_elements(self) -> bool
        ensures { result ≡ takes_elements self }
    {
        matches!(self, Thing::Array(_))
    }

    /// Whether it, or its element, may be assigned to, by `=` or by another sign.
    pub fn is_assignable(self, has_index: bool, is_compound: bool) -> bool
        ensures { result ≡ is_assignable self has_index is_compound }
    {
        match self {
            Thing::Variable(kind) | Thing::Local(kind) | Thing::Parameter(kind) => {
                !has_index && !(is_compound && is_bool(kind))
            }
            Thing::Array(kind) => has_index && !(is_compound && is_bool(kind)),
            Thing::Signal(_)
            | Thing::SignalPort(Direction::Out, _)
            | Thing::SignalPort(Direction::Inout, _) => !has_index && !is_compound,
            _ => false,
        }
    }

    /// Whether it is a fifo or a port for one.
    pub fn is_fifo(self) -> bool
        ensures { result ≡ is_fifo self }
    {
        matches!(self, Thing::Fifo(_) | Thing::FifoIn(_) | Thing::FifoOut(_))
    }

    /// Whether it has the call.
    pub fn has_method(self, method: Method) -> bool
        ensures { result ≡ has_method self method }
    {
        match self {
            Thing::Signal(kind) => of_signal(kind, method),
            Thing::SignalPort(direction, kind) => of_port(direction, kind, method),
            Thing::Fifo(_) => is_reading(method) || is_writing(method),
            Thing::FifoIn(_) => is_reading(method),
            Thing::FifoOut(_) => is_writing(method),
            _ => false,
        }
    }

    /// Its call that a word names.
    pub fn method(self, name: &[u8]) -> Method
        ensures { result ≡ method_of self name.now }
    {
        match Method::named(name) {
            Some(method) if self.has_method(method) => method,
            _ => Method::Nothing,
        }
    }

    /// Whether it has a call that a word names.
    pub fn has_method_named(self, name: &[u8]) -> bool
        ensures { result ≡ has_method_named self (method_named name.now) }
    {
        match Method::named(name) {
            Some(method) => self.has_method(method),
            None => false,
        }
    }

    /// The event that it has by a word.
    pub fn event(self, word: EventWord) -> EventForm
        ensures { result ≡ own_event self word }
    {
        match self {
            Thing::Signal(kind) => signal_event(kind, word),
            Thing::SignalPort(_, kind) => port_event(kind, word),
            Thing::Fifo(_) => fifo_event(word),
            Thing::FifoIn(_) => fifo_in_event(word),
            Thing::FifoOut(_) => fifo_out_event(word),
            _ => EventForm::Nothing,
        }
    }

    /// The event that it has by the word of this name, if there is one.
    pub fn event_by(self, name: &[u8]) -> EventForm
        ensures { result ≡ event_by self (event_named name.now) }
    {
        match EventWord::named(name) {
            Some(word) => self.event(word),
            None => EventForm::Nothing,
        }
    }

    /// The event that is meant by its call of this name, in `sensitive` or in a wait.
    pub fn called_event(self, in_sensitive: bool, name: &[u8]) -> EventForm
        ensures { result ≡ called_event in_sensitive self (event_named name.now) }
    {
        match EventWord::named(name) {
            Some(word) if in_sensitive || !word.is_finder() => self.event(word),
            _ => EventForm::Nothing,
        }
    }

    /// The event that is meant by its name alone, in `sensitive` or in a wait.
    pub fn named_event(self, in_sensitive: bool) -> EventForm
        ensures { result ≡ named_event in_sensitive self }
    {
        match self {
            Thing::Event => EventForm::Own,
            Thing::Signal(_) | Thing::SignalPort(_, _) if in_sensitive => EventForm::Changed,
            _ => EventForm::Nothing,
        }
    }
}

impl Method {
    /// The call that a word names.
    pub fn named(name: &[u8]) -> Option<Method>
        ensures { result ≡ method_named name.now }
    {
        METHODS.iter().copied().find(|method| name == method.text())
    }

    /// How the call is written.
    pub fn text(self) -> &'static [u8]
        ensures { result.now ≡ method_text self }
    {
        match self {
            Method::Nothing => b"",
            Method::Read => b"read",
            Method::Write => b"write",
            Method::Event => b"event",
            Method::Posedge => b"posedge",
            Method::Negedge => b"negedge",
            Method::NbRead => b"nb_read",
            Method::NbWrite => b"nb_write",
            Method::NumAvailable => b"num_available",
            Method::NumFree => b"num_free",
        }
    }

    /// Whether it may have to wait, as a call of this thing.
    pub fn is_blocking(self, thing: Thing) -> bool
        ensures { result ≡ is_blocking thing self }
    {
        matches!(self, Method::Read | Method::Write) && thing.is_fifo()
    }

    /// Whether it does more than give a value, as a call of this thing.
    pub fn has_effect(self, thing: Thing) -> bool
        ensures { result ≡ has_effect thing self }
    {
        match self {
            Method::Read => thing.is_fifo(),
            Method::NbRead | Method::NbWrite => true,
            _ => false,
        }
    }

    /// Whether it gives no value.
    pub fn gives_nothing(self) -> bool
        ensures { result ≡ gives_nothing self }
    {
        matches!(self, Method::Write)
    }

    /// How many arguments it has.
    pub fn argument_count(self) -> usize
        ensures { result ≡ argument_count self }
    {
        match self {
            Method::Write | Method::NbRead | Method::NbWrite => 1,
            _ => 0,
        }
    }

    /// The kind of what it gives, as a call of this thing.
    pub fn kind(self, thing: Thing) -> Kind
        ensures { result ≡ method_kind thing self }
    {
        match self {
            Method::Read => thing.value_kind(),
            Method::NumAvailable | Method::NumFree | Method::Write | Method::Nothing => Kind::Int,
            _ => Kind::Bool,
        }
    }
}

impl EventWord {
    /// The call of an event that a word names.
    pub fn named(name: &[u8]) -> Option<EventWord>
        ensures { result ≡ event_named name.now }
    {
        EVENT_WORDS.iter().copied().find(|word| name == word.text())
    }

    /// How the call is written.
    pub fn text(self) -> &'static [u8]
        ensures { result.now ≡ event_text self }
    {
        match self {
            EventWord::ValueChangedEvent => b"value_changed_event",
            EventWord::DefaultEvent => b"default_event",
            EventWord::PosedgeEvent => b"posedge_event",
            EventWord::NegedgeEvent => b"negedge_event",
            EventWord::DataWrittenEvent => b"data_written_event",
            EventWord::DataReadEvent => b"data_read_event",
            EventWord::ValueChanged => b"value_changed",
            EventWord::Pos => b"pos",
            EventWord::Neg => b"neg",
            EventWord::DataWritten => b"data_written",
            EventWord::DataRead => b"data_read",
        }
    }

    /// Whether it stands in `sensitive` alone.
    pub fn is_finder(self) -> bool
        ensures { result ≡ is_finder self }
    {
        matches!(
            self,
            EventWord::ValueChanged
                | EventWord::Pos
                | EventWord::Neg
                | EventWord::DataWritten
                | EventWord::DataRead
        )
    }
}

impl EventForm {
    /// Whether an event is meant.
    pub fn is_event(self) -> bool
        ensures { result ≡ is_event self }
    {
        !matches!(self, EventForm::Nothing)
    }
}

static METHODS: [Method; 9] = [
    Method::Read,
    Method::Write,
    Method::Event,
    Method::Posedge,
    Method::Negedge,
    Method::NbRead,
    Method::NbWrite,
    Method::NumAvailable,
    Method::NumFree,
];

static EVENT_WORDS: [EventWord; 11] = [
    EventWord::ValueChangedEvent,
    EventWord::DefaultEvent,
    EventWord::PosedgeEvent,
    EventWord::NegedgeEvent,
    EventWord::DataWrittenEvent,
    EventWord::DataReadEvent,
    EventWord::ValueChanged,
    EventWord::Pos,
    EventWord::Neg,
    EventWord::DataWritten,
    EventWord::DataRead,
];

fn is_bool(kind: Kind) -> bool
    ensures { result ≡ is_bool kind }
{
    matches!(kind, Kind::Bool)
}

fn of_signal(kind: Kind, method: Method) -> bool
    ensures { result ≡ of_signal kind method }
{
    match method {
        Method::Read | Method::Write | Method::Event => true,
        Method::Posedge | Method::Negedge => is_bool(kind),
        _ => false,
    }
}

fn of_port(direction: Direction, kind: Kind, method: Method) -> bool
    ensures { result ≡ of_port direction kind method }
{
    match (direction, method) {
        (Direction::In, Method::Write) => false,
        _ => of_signal(kind, method),
    }
}

fn is_reading(method: Method) -> bool
    ensures { result ≡ is_reading method }
{
    matches!(method, Method::Read | Method::NbRead | Method::NumAvailable)
}

fn is_writing(method: Method) -> bool
    ensures { result ≡ is_writing method }
{
    matches!(method, Method::Write | Method::NbWrite | Method::NumFree)
}

// An edge, which only a signal of bool has.
fn edge_of(kind: Kind, edge: EventForm) -> EventForm
    ensures { result ≡ edge_of kind edge }
{
    if is_bool(kind) {
        edge
    } else {
        EventForm::Nothing
    }
}

fn signal_event(kind: Kind, word: EventWord) -> EventForm
    ensures { result ≡ signal_event kind word }
{
    match word {
        EventWord::ValueChangedEvent | EventWord::DefaultEvent => EventForm::Changed,
        EventWord::PosedgeEvent => edge_of(kind, EventForm::Rise),
        EventWord::NegedgeEvent => edge_of(kind, EventForm::Fall),
        _ => EventForm::Nothing,
    }
}

fn port_event(kind: Kind, word: EventWord) -> EventForm
    ensures { result ≡ port_event kind word }
{
    match word {
        EventWord::ValueChanged => EventForm::Changed,
        EventWord::Pos => edge_of(kind, EventForm::Rise),
        EventWord::Neg => edge_of(kind, EventForm::Fall),
        _ => signal_event(kind, word),
    }
}

fn fifo_event(word: EventWord) -> EventForm
    ensures { result ≡ fifo_event word }
{
    match word {
        EventWord::DataWrittenEvent => EventForm::Written,
        EventWord::DataReadEvent => EventForm::Taken,
        _ => EventForm::Nothing,
    }
}

fn fifo_in_event(word: EventWord) -> EventForm
    ensures { result ≡ fifo_in_event word }
{
    match word {
        EventWord::DataWrittenEvent | EventWord::DataWritten => EventForm::Written,
        _ => EventForm::Nothing,
    }
}

fn fifo_out_event(word: EventWord) -> EventForm
    ensures { result ≡ fifo_out_event word }
{
    match word {
        EventWord::DataReadEvent | EventWord::DataRead => EventForm::Taken,
        _ => EventForm::Nothing,
    }
}
