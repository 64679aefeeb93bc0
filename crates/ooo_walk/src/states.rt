ghost use Rattle.std.specs.Prelude.{◌≡◌, ◌∷◌, [], ◌++◌, IfOk, OnOk, Some, None, take, length, is_some};
ghost use Rattle.std.specs.Option.{option_copied};
ghost use Rattle.ooo_constants.specs.declared.meaning.Meaning.TheVariants as meaning;
ghost use Rattle.ooo_constants.specs.Meanings.{constants_of};
ghost use Rattle.ooo_walk.specs.States.{after_answer, after_option, after_start, channel_events, evaluated};
ghost use Rattle.ooo_walk.specs.States.{full_name, in_kind, joined, known_here, known_statics};
ghost use Rattle.ooo_walk.specs.States.{later_value, meant, option_evaluated, refused, start_value};
ghost use Rattle.ooo_walk.specs.States.{with_cells, with_channel, with_event, with_object, with_port};
ghost use Rattle.ooo_walk.specs.States.{with_process, with_variable};

use crate::refusal::{ElabBreach, Refusal};
use crate::state::{Evaluated, ProcessForm, Walk, WalkedChannel, WalkedPort, WalkedProcess};
use ooo_checked::{CheckedExpr, Thing};
use ooo_constants::{Known, Meaning, value};
use ooo_lexer::Position;
use ooo_value::{
    BoundChannel, BoundEvent, BoundVariable, ChannelKind, Fault, Kind, Name, Value, convert, narrow,
};
use sqlite_items::Items;
use std::alloc::{AllocError, Global};

/// The most instances, channels, events and member variables of a model.
pub const MOST_OBJECTS: usize = 4096;

/// The most elements that all variables of a model have.
pub const MOST_CELLS: usize = 1_048_576;

/// The most processes of a model.
pub const MOST_PROCESSES: usize = 256;

// Identifiers joined by a dot.
fn joined(alloc: Global, path: &Name, name: &Name) -> Result<Name, AllocError>
    ensures { IfOk result (λ full. full ≡ joined path.now name.now) }
{
    if path.as_bytes().is_empty() {
        return name.copy(alloc);
    }
    let mut bytes = Vec::from_slice(alloc, path.as_bytes())?;
    bytes.push(b'.')?;
    bytes.extend_from_slice(name.as_bytes())?;
    Ok(Name::from_bytes(bytes))
}

/// What a constant expression gives.
pub(crate) fn evaluated(known: Known<'_>, e: &CheckedExpr) -> Evaluated
    ensures { result ≡ evaluated (constants_of known.entry) e.now }
{
    Evaluated {
        answer: value(known, e),
        at: e.first(),
    }
}

// The same of one, if there is one.
pub(crate) fn option_evaluated(known: Known<'_>, e: Option<&CheckedExpr>) -> Option<Evaluated>
    ensures { result ≡ option_evaluated (constants_of known.entry) (option_copied e.entry) }
{
    match e {
        Some(e) => Some(evaluated(known, e)),
        None => None,
    }
}

/// The value of an answer in a kind; a fault counts as 0.
pub(crate) fn in_kind(kind: Kind, answer: Result<Value, Fault>) -> Value
    ensures { result ≡ in_kind kind answer }
{
    match answer {
        Ok(value) => convert(value, kind),
        Err(_) => kind.zero(),
    }
}

// The value that is given in a kind, if one is given, else the one before.
fn later_value(kind: Kind, before: Value, given: Option<Evaluated>) -> Value
    ensures { result ≡ later_value kind before given }
{
    match given {
        Some(given) => in_kind(kind, given.answer),
        None => before,
    }
}

// A start value: by the declaration, and then by the initialiser.
pub(crate) fn start_value(
    kind: Kind,
    declared: Option<Evaluated>,
    initial: Option<Evaluated>,
) -> Value
    ensures { result ≡ start_value kind declared initial }
{
    later_value(kind, later_value(kind, kind.zero(), declared), initial)
}

// The events of a channel.
fn add_channel_events(
    kind: ChannelKind,
    value: Kind,
    channel: u32,
    events: &mut Items<BoundEvent>,
) -> Result<(), AllocError>
    ensures { OnOk result (events.new ≡ events.old ++ channel_events kind value channel) }
{
    match (kind, value) {
        (ChannelKind::Signal, Kind::Bool) => {
            got!(events.push(BoundEvent::Changed(channel)));
            got!(events.push(BoundEvent::Rise(channel)));
            events.push(BoundEvent::Fall(channel))
        }
        (ChannelKind::Signal, _) => events.push(BoundEvent::Changed(channel)),
        (ChannelKind::Fifo, _) => {
            got!(events.push(BoundEvent::Written(channel)));
            events.push(BoundEvent::Taken(channel))
        }
    }
}

impl Walk {
    // Refuses the text, unless it is refused already.
    pub(crate) fn refuse(
        &mut self,
        alloc: Global,
        what: ElabBreach,
        at: Position,
        name: &Name,
    ) -> Result<(), AllocError>
        ensures { OnOk result (self.new ≡ refused what at name.now self.old) }
    {
        if self.refusal.is_none() {
            let name = got!(name.copy(alloc));
            let mut names = Items::new(alloc);
            keeping!(names; names.push(name));
            self.refusal = Some(Refusal { what, at, names });
        }
        Ok(())
    }

    // The full name of a part of what is walked.
    pub(crate) fn full_name(&self, alloc: Global, name: &Name) -> Result<Name, AllocError>
        ensures { IfOk result (λ full. full ≡ full_name self.now name.now) }
    {
        joined(alloc, &self.here.name, name)
    }

    // The next name of what is walked means this.
    pub(crate) fn mean(&mut self, meaning: Meaning) -> Result<(), AllocError>
        ensures { OnOk result (self.new ≡ meant meaning self.old) }
    {
        self.here.members.push(meaning)
    }

    // What is known where the walk stands.
    pub(crate) fn known(&self) -> Known<'_>
        ensures { constants_of result ≡ known_here self.now }
    {
        Known {
            file: self.file.as_slice(),
            statics: self.here.statics.as_slice(),
            members: self.here.members.as_slice(),
            parameters: self.here.parameters.as_slice(),
        }
    }

    // What is known where the static member of this number is declared.
    pub(crate) fn known_statics(&self, number: usize) -> Known<'_>
        ensures { constants_of result ≡ known_statics self.now number }
    {
        let statics = self.here.statics.as_slice();
        let before = if number < statics.len() {
            &statics[..number]
        } else {
            statics
        };
        Known {
            file: self.file.as_slice(),
            statics: before,
            members: &[],
            parameters: self.here.parameters.as_slice(),
        }
    }

    // Refuses a constant expression that faults.
    pub(crate) fn after_answer(
        &mut self,
        alloc: Global,
        answer: Result<Value, Fault>,
        at: Position,
        name: &Name,
    ) -> Result<(), AllocError>
        ensures { OnOk result (self.new ≡ after_answer answer at name.now self.old) }
    {
        match answer {
            Ok(_) => Ok(()),
            Err(_) => self.refuse(alloc, ElabBreach::BadConstant, at, name),
        }
    }

    // Refuses what faults, if something is given.
    fn after_option(
        &mut self,
        alloc: Global,
        name: &Name,
        given: Option<Evaluated>,
    ) -> Result<(), AllocError>
        ensures { OnOk result (self.new ≡ after_option name.now given self.old) }
    {
        match given {
            Some(given) => self.after_answer(alloc, given.answer, given.at, name),
            None => Ok(()),
        }
    }

    // Refuses the part of a start value that faults.
    pub(crate) fn after_start(
        &mut self,
        alloc: Global,
        name: &Name,
        declared: Option<Evaluated>,
        initial: Option<Evaluated>,
    ) -> Result<(), AllocError>
        ensures { OnOk result (self.new ≡ after_start name.now declared initial self.old) }
    {
        self.after_option(alloc, name, declared)?;
        self.after_option(alloc, name, initial)
    }

    // Counts an object.
    pub(crate) fn add_object(
        &mut self,
        alloc: Global,
        at: Position,
        name: &Name,
    ) -> Result<(), AllocError>
        ensures { OnOk result (self.new ≡ with_object at name.now self.old) }
    {
        if self.objects < MOST_OBJECTS {
            self.objects += 1;
            Ok(())
        } else {
            self.refuse(alloc, ElabBreach::TooManyObjects, at, name)
        }
    }

    // Counts elements.
    pub(crate) fn add_cells(
        &mut self,
        alloc: Global,
        count: usize,
        at: Position,
        name: &Name,
    ) -> Result<(), AllocError>
        ensures { OnOk result (self.new ≡ with_cells count at name.now self.old) }
    {
        if count <= MOST_CELLS.saturating_sub(self.cells) {
            self.cells += count;
            Ok(())
        } else {
            self.refuse(alloc, ElabBreach::TooManyCells, at, name)
        }
    }

    // Adds a process.
    pub(crate) fn add_process(
        &mut self,
        alloc: Global,
        form: ProcessForm,
        at: Position,
        name: &Name,
    ) -> Result<(), AllocError>
        ensures { OnOk result (self.new ≡ with_process form at name.now self.old) }
    {
        if self.processes.len() < MOST_PROCESSES {
            let name = name.copy(alloc)?;
            self.processes.push(WalkedProcess { form, name })
        } else {
            self.refuse(alloc, ElabBreach::TooManyProcesses, at, name)
        }
    }

    // Adds a variable.
    pub(crate) fn add_variable(&mut self, variable: BoundVariable) -> Result<(), AllocError>
        ensures { OnOk result (self.new ≡ with_variable variable self.old) }
    {
        let number = got!(narrow(self.variables.len()));
        got!(self.variables.push(variable));
        self.mean(Meaning::Variable(number))
    }

    // Adds a channel, with its events.
    pub(crate) fn add_channel(
        &mut self,
        bound: BoundChannel,
        is_clock: bool,
        at: Position,
        name: Name,
    ) -> Result<(), AllocError>
        ensures { OnOk result (self.new ≡ with_channel bound is_clock at name self.old) }
    {
        let number = keeping!(name; narrow(self.channels.len()));
        let first_event = keeping!(name; narrow(self.events.len()));
        got!(
            self.channels.push(WalkedChannel {
                bound,
                is_clock,
                first_event,
                name,
                at,
            })
        );
        got!(add_channel_events(bound.kind, bound.value, number, &mut self.events));
        self.mean(Meaning::Channel(number))
    }

    // Adds a port.
    pub(crate) fn add_port(
        &mut self,
        form: Thing,
        at: Position,
        name: Name,
    ) -> Result<(), AllocError>
        ensures { OnOk result (self.new ≡ with_port form at name self.old) }
    {
        let number = keeping!(name; narrow(self.ports.len()));
        got!(self.ports.push(WalkedPort { form, name, at }));
        self.mean(Meaning::Port(number))
    }

    // Adds an `sc_event`.
    pub(crate) fn add_event(&mut self) -> Result<(), AllocError>
        ensures { OnOk result (self.new ≡ with_event self.old) }
    {
        let number = narrow(self.events.len())?;
        self.events.push(BoundEvent::Own)?;
        self.mean(Meaning::Event(number))
    }
}
