ghost use Rattle.std.specs.Prelude.{◌≡◌};
ghost use Rattle.std.specs.Option.{option_copied};
ghost use Rattle.ooo_members.specs.Constructors.{registering};
ghost use Rattle.ooo_members.specs.Known.{is_port, is_process, module_at, port_of, registered_as, registration_at};

use ooo_bodies::notes::Call;
use ooo_checked::{Denotation, Resolved, Thing};
use ooo_lexer::Position;
use ooo_scopes::Scopes;
use ooo_value::ProcessKind;
use sqlite_items::{Items, at};
use std::alloc::Global;

/// What a name denotes that is not known.
pub const UNKNOWN: Denotation = Denotation {
    thing: Thing::Nothing,
    number: 0,
};

/// What is known of a module behind its declaration.
#[derive(Drop)]
pub struct ModuleFacts {
    /// The names that it declares, by themselves.
    pub names: Scopes,
    /// How many parameters its constructor has.
    pub params: usize,
}

/// What the members of a module are read by.
#[derive(Clone, Copy)]
pub struct Surroundings<'a> {
    /// Where memory is taken from.
    pub alloc: Global,
    /// What is known of the modules of the file, by the numbers of their names.
    pub modules: &'a [Option<ModuleFacts>],
    /// The module's own name.
    pub module_name: &'a [u8],
    /// The names that its constructors initialise, by themselves.
    pub initialised: &'a Scopes,
}

/// What has to be known of a function when all of its module is known.
#[derive(Drop)]
pub struct FunctionFacts {
    /// Its number among the names that the module declares.
    pub number: usize,
    /// The calls in its body, in the order of the text.
    pub calls: Items<Call>,
    /// Its waits.
    pub waits: Items<Position>,
    /// Its `next_trigger`s.
    pub triggers: Items<Position>,
}

/// By which words a function is registered as a process.
#[derive(Clone, Copy)]
pub struct Registration {
    /// By `SC_THREAD`.
    pub as_thread: bool,
    /// By `SC_METHOD`.
    pub as_method: bool,
}

/// Registered by no word.
pub const NOT_REGISTERED: Registration = Registration {
    as_thread: false,
    as_method: false,
};

/// What the members of a module so far have set up.
#[derive(Drop)]
pub struct Sofar {
    /// Of each name that the module declares, by which words it is registered as a process.
    pub registered: Items<Registration>,
    /// Whether a constructor has registered something.
    pub has_process: bool,
    /// Whether there is a constructor.
    pub has_constructor: bool,
}

/// Whether a thing is a port.
pub fn is_port(thing: Thing) -> bool
    ensures { result ≡ is_port thing }
{
    matches!(
        thing,
        Thing::SignalPort(_, _) | Thing::FifoIn(_) | Thing::FifoOut(_)
    )
}

/// The module of this number, if it is one.
pub fn module_at(modules: &[Option<ModuleFacts>], number: usize) -> Option<&ModuleFacts>
    ensures { option_copied result ≡ module_at modules.now number }
{
    match at(modules, number) {
        Some(Some(module)) => Some(module),
        _ => None,
    }
}

/// What a name denotes among the ports of a module; it is unknown where there is no module.
pub fn port_of(facts: Option<&ModuleFacts>, name: &[u8]) -> Denotation
    ensures { result ≡ port_of (option_copied facts.entry) name.now }
{
    match facts {
        Some(module) => {
            let denotes = module.names.denotes(name);
            if is_port(denotes.thing) {
                denotes
            } else {
                UNKNOWN
            }
        }
        None => UNKNOWN,
    }
}

impl Registration {
    /// Whether it is a process.
    pub fn is_process(self) -> bool
        ensures { result ≡ is_process self }
    {
        self.as_thread || self.as_method
    }

    /// Registered by one word more.
    pub fn and_as(self, kind: ProcessKind) -> Registration
        ensures { result ≡ registered_as kind self }
    {
        match kind {
            ProcessKind::Thread => Registration {
                as_thread: true,
                as_method: self.as_method,
            },
            ProcessKind::Method => Registration {
                as_thread: self.as_thread,
                as_method: true,
            },
        }
    }
}

impl Sofar {
    /// How the function of this number is registered.
    pub fn registration_at(&self, number: usize) -> Registration
        ensures { result ≡ registration_at self.now.registered number }
    {
        match self.registered.get(number) {
            Some(registration) => *registration,
            None => NOT_REGISTERED,
        }
    }

    /// Registers what a name denotes as a process, if that is a function.
    pub fn register(&mut self, kind: ProcessKind, name: &Resolved)
        ensures { self.new ≡ registering kind name.now self.old }
    {
        self.has_process = true;
        let number = name.denotes.number;
        if let Thing::Function(_, _) = name.denotes.thing {
            let registration = self.registration_at(number).and_as(kind);
            if number < self.registered.len() {
                self.registered.set(number, registration);
            }
        }
    }
}
