use crate::refusal::Refusal;
use ooo_checked::Thing;
use ooo_constants::Meaning;
use ooo_lexer::Position;
use ooo_time::Time;
use ooo_value::{BoundChannel, BoundEvent, BoundVariable, Fault, Name, ProcessKind, Value};
use sqlite_items::Items;

/// What a constant expression gives, and where its first token stands.
#[derive(Clone, Copy)]
pub struct Evaluated {
    pub answer: Result<Value, Fault>,
    pub at: Position,
}

/// A channel as it was declared.
#[derive(Drop)]
pub struct WalkedChannel {
    pub bound: BoundChannel,
    /// Whether it is an `sc_clock`, to which no port is bound that writes.
    pub is_clock: bool,
    /// The number of its first event.
    pub first_event: u32,
    /// Its full name.
    pub name: Name,
    /// Where its name is declared.
    pub at: Position,
}

/// A port of an instance.
#[derive(Drop)]
pub struct WalkedPort {
    /// What sort of port it is, with its type.
    pub form: Thing,
    /// Its full name.
    pub name: Name,
    /// Where its name is declared.
    pub at: Position,
}

/// An instance of a module.
#[derive(Drop)]
pub struct WalkedInstance {
    /// The number of its module among the names of the file.
    pub module_number: usize,
    /// What each name of the module means in it.
    pub members: Items<Meaning>,
}

/// Where a process comes from.
#[derive(Clone, Copy)]
pub enum ProcessForm {
    /// A clock's: its channel, half its period, and the line of its declaration.
    Clock(u32, Time, u32),
    /// A function's: its kind, its instance, the place of its registration in the constructor, and the function's number.
    Registered(ProcessKind, u32, usize, usize),
}

/// A process.
#[derive(Drop)]
pub struct WalkedProcess {
    pub form: ProcessForm,
    /// Its full name.
    pub name: Name,
}

/// A binding of a port.
#[derive(Clone, Copy)]
pub struct WalkedBinding {
    /// The number of the port.
    pub port: u32,
    /// The channel or the port that it is bound to; nothing where it is something else.
    pub to: Meaning,
    /// Where its first token stands.
    pub at: Position,
}

/// What is known of the instance that is walked, or of `sc_main`.
#[derive(Drop)]
pub struct Here {
    /// Its full name; that of `sc_main` is empty.
    pub name: Name,
    /// What its constructor was given.
    pub parameters: Items<Value>,
    /// Of each name of its module, the value where it is a static member.
    pub statics: Items<Meaning>,
    /// What each of its names that were walked so far means.
    pub members: Items<Meaning>,
}

/// What has been walked of a text.
#[derive(Drop)]
pub struct Walk {
    /// What each name of the file means that was walked so far.
    pub file: Items<Meaning>,
    /// How many instances, channels, events and member variables there are.
    pub objects: usize,
    /// How many elements the variables have in all.
    pub cells: usize,
    pub variables: Items<BoundVariable>,
    pub channels: Items<WalkedChannel>,
    pub events: Items<BoundEvent>,
    pub ports: Items<WalkedPort>,
    pub instances: Items<WalkedInstance>,
    pub processes: Items<WalkedProcess>,
    pub bindings: Items<WalkedBinding>,
    /// The time of `sc_start`, where it has one.
    pub stop: Option<Time>,
    /// The instance that is walked.
    pub here: Here,
    /// What is refused. Nothing more is walked then.
    pub refusal: Option<Refusal>,
}
