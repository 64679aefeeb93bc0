ghost use Rattle.std.specs.Prelude.{◌≡◌, ◌∷◌, IfOk, OnOk, Some, None, slice_get, slice_set};
ghost use Rattle.std.specs.Option.{option_copied};
ghost use Rattle.ooo_constants.specs.Bodies.{told_of};
ghost use Rattle.ooo_constants.specs.Meanings.{constants_of};
ghost use Rattle.ooo_walk.specs.Plans.{viewed};
ghost use Rattle.ooo_walk.specs.Setups.{after_times, bind_meant, bind_of, bound_to, end_of};
ghost use Rattle.ooo_walk.specs.Setups.{function_refusals, port_in, process_of, process_told};
ghost use Rattle.ooo_walk.specs.Setups.{set_meant, set_of, set_with, setup_of, setups_from};
ghost use Rattle.ooo_walk.specs.Setups.{told_times, with_start};
ghost use Rattle.ooo_walk.specs.States.{as_breach, unless_refused, with_process};

use crate::plan::View;
use crate::reach::{calls, reached};
use crate::refusal::ElabBreach;
use crate::state::{Evaluated, ProcessForm, Walk, WalkedBinding};
use crate::states::{evaluated, in_kind};
use ooo_checked::{
    CheckedBinding, CheckedExpr, CheckedFunction, CheckedSetup, Denotation, Resolved, Thing,
};
use ooo_constants::{Known, Meaning, TimeBreach, TimeRefusal, refuse_times};
use ooo_lexer::Position;
use ooo_value::{BoundVariable, Fault, Name, ProcessKind, Value, narrow};
use std::alloc::{AllocError, Global};

// What is wrong with a constant time, as a refusal of the text.
pub(crate) fn as_breach(what: TimeBreach) -> ElabBreach
    ensures { result ≡ as_breach what }
{
    match what {
        TimeBreach::Bad => ElabBreach::BadConstant,
        TimeBreach::TooLarge => ElabBreach::TimeTooLarge,
    }
}

// Tells what is wrong with the constant times of a function.
fn tell_function(
    known: Known<'_>,
    function: Option<&CheckedFunction>,
    told: &mut Option<TimeRefusal>,
)
    ensures { told.new ≡ told_of told.old
        (function_refusals (constants_of known.entry) (option_copied function.entry)) }
{
    if let Some(function) = function {
        refuse_times(known, function.body.as_slice(), told);
    }
}

// Tells what is wrong with the constant times of functions.
fn tell_functions(
    view: View<'_>,
    known: Known<'_>,
    functions: &[usize],
    told: &mut Option<TimeRefusal>,
)
    ensures { told.new ≡ told_times (viewed view.entry)
        (constants_of known.entry) told.old functions.now }
{
    'parts: for e in functions {
        tell_function(known, view.function(*e), told);
    }
}

// What is told of the constant times of a process: of its function's, and of those that it reaches by calls.
fn told(
    alloc: Global,
    view: View<'_>,
    known: Known<'_>,
    number: usize,
) -> Result<Option<TimeRefusal>, AllocError>
    ensures { IfOk result (λ told. told
        ≡ process_told (viewed view.entry) (constants_of known.entry) number) }
{
    let function = view.function(number);
    let by = got!(calls(alloc, function));
    let functions = keeping!(by; reached(alloc, view, by.as_slice()));
    let mut told = None;
    tell_function(known, function, &mut told);
    tell_functions(view, known, functions.as_slice(), &mut told);
    Ok(told)
}

impl Walk {
    // A variable starts otherwise.
    fn start(&mut self, number: usize, answer: Result<Value, Fault>)
        ensures { self.new ≡ with_start number
            (slice_get self.old.variables number) answer self.old }
    {
        if let Some(variable) = self.variables.get(number).copied() {
            let start = in_kind(variable.kind, answer);
            self.variables
                .set(number, BoundVariable { start, ..variable });
        }
    }

    // A variable starts otherwise, if a name means one.
    fn start_meant(&mut self, meaning: Option<Meaning>, answer: Result<Value, Fault>)
        ensures { self.new ≡ set_meant meaning answer self.old }
    {
        if let Some(Meaning::Variable(number)) = meaning {
            self.start(number as usize, answer);
        }
    }

    // A start value that is set.
    fn set_value(
        &mut self,
        alloc: Global,
        name: &Resolved,
        given: Evaluated,
    ) -> Result<(), AllocError>
        ensures { OnOk result (self.new ≡ set_with name.now given self.old) }
    {
        let full = got!(self.full_name(alloc, &name.word.name));
        let meaning = self.here.members.get(name.denotes.number).copied();
        keeping!(full; self.after_answer(alloc, given.answer, given.at, &full));
        self.start_meant(meaning, given.answer);
        Ok(())
    }

    // A start value that is set.
    fn set(&mut self, alloc: Global, name: &Resolved, e: &CheckedExpr) -> Result<(), AllocError>
        ensures { OnOk result (self.new ≡ set_of name.now e.now self.old) }
    {
        let given = evaluated(self.known(), e);
        self.set_value(alloc, name, given)
    }

    // What a port may be bound to: a channel or a port of what is walked.
    fn end(&self, name: Denotation) -> Meaning
        ensures { result ≡ end_of name self.now }
    {
        match name.thing {
            Thing::Clock
            | Thing::Signal(_)
            | Thing::Fifo(_)
            | Thing::SignalPort(_, _)
            | Thing::FifoIn(_)
            | Thing::FifoOut(_) => match self.here.members.get(name.number) {
                Some(meaning) => *meaning,
                None => Meaning::Nothing,
            },
            _ => Meaning::Nothing,
        }
    }

    // What a port's name means in an instance.
    fn port_in(&self, instance: u32, number: usize) -> Option<Meaning>
        ensures { result ≡ port_in (slice_get self.now.instances instance) number }
    {
        match self.instances.get(instance as usize) {
            Some(instance) => instance.members.get(number).copied(),
            None => None,
        }
    }

    // A binding of a port, if it is one.
    fn bind_port(
        &mut self,
        port: Option<Meaning>,
        to: Meaning,
        at: Position,
    ) -> Result<(), AllocError>
        ensures { OnOk result (self.new ≡ bound_to port to at self.old) }
    {
        match port {
            Some(Meaning::Port(port)) => self.bindings.push(WalkedBinding { port, to, at }),
            _ => Ok(()),
        }
    }

    /// A binding.
    pub(crate) fn bind(&mut self, binding: &CheckedBinding) -> Result<(), AllocError>
        ensures { OnOk result (self.new ≡ bind_of binding.now self.old) }
    {
        match self.here.members.get(binding.instance.denotes.number) {
            Some(Meaning::Instance(instance)) => {
                let port = self.port_in(*instance, binding.port.denotes.number);
                let to = self.end(binding.channel.denotes);
                self.bind_port(port, to, binding.instance.word.position)
            }
            _ => Ok(()),
        }
    }

    // Refuses what is told of constant times, with the process's name.
    fn after_times(
        &mut self,
        alloc: Global,
        told: Option<TimeRefusal>,
        name: &Name,
    ) -> Result<(), AllocError>
        ensures { OnOk result (self.new ≡ after_times told name.now self.old) }
    {
        match told {
            Some(told) => self.refuse(alloc, as_breach(told.what), told.at, name),
            None => Ok(()),
        }
    }

    // A process of this full name, of whose constant times this is told.
    fn add_told(
        &mut self,
        alloc: Global,
        form: ProcessForm,
        told: Option<TimeRefusal>,
        at: Position,
        name: &Name,
    ) -> Result<(), AllocError>
        ensures { OnOk result (self.new ≡ unless_refused (after_times told name.now)
            (with_process form at name.now self.old)) }
    {
        got!(self.add_process(alloc, form, at, name));
        if self.refusal.is_some() {
            return Ok(());
        }
        self.after_times(alloc, told, name)
    }

    // A process of a kind, which is registered at a place of the constructor.
    fn process(
        &mut self,
        alloc: Global,
        view: View<'_>,
        kind: ProcessKind,
        place: usize,
        name: &Resolved,
    ) -> Result<(), AllocError>
        ensures { OnOk result
            (self.new ≡ process_of (viewed view.entry) kind place name.now self.old) }
    {
        let full = got!(self.full_name(alloc, &name.word.name));
        let told = keeping!(full; told(alloc, view, self.known(), name.denotes.number));
        let instance = keeping!(full; narrow(self.instances.len()));
        let form = ProcessForm::Registered(kind, instance, place, name.denotes.number);
        self.add_told(alloc, form, told, name.word.position, &full)
    }

    // A statement at a place of the constructor.
    fn setup(
        &mut self,
        alloc: Global,
        view: View<'_>,
        place: usize,
        setup: &CheckedSetup,
    ) -> Result<(), AllocError>
        ensures { OnOk result (self.new ≡ setup_of (viewed view.entry) place setup.now self.old) }
    {
        match setup {
            CheckedSetup::Thread(_, name) => self.process(
                alloc,
                view,
                ProcessKind::Thread,
                place,
                name,
            ),
            CheckedSetup::Method(_, name) => self.process(
                alloc,
                view,
                ProcessKind::Method,
                place,
                name,
            ),
            CheckedSetup::Sensitive(_, _) | CheckedSetup::DontInitialize(_) => Ok(()),
            CheckedSetup::Bind(binding) => self.bind(binding),
            CheckedSetup::Set(name, e) => self.set(alloc, name, e),
        }
    }

    // A statement at a place of the constructor, unless something is refused.
    fn setup_unless(
        &mut self,
        alloc: Global,
        view: View<'_>,
        place: usize,
        setup: &CheckedSetup,
    ) -> Result<(), AllocError>
        ensures { OnOk result (self.new
            ≡ unless_refused (setup_of (viewed view.entry) place setup.now) self.old) }
    {
        if self.refusal.is_some() {
            return Ok(());
        }
        self.setup(alloc, view, place, setup)
    }

    /// What a constructor sets up.
    pub(crate) fn setups(&mut self, alloc: Global, view: View<'_>) -> Result<(), AllocError>
        ensures { OnOk result (self.new
            ≡ setups_from (viewed view.entry) 0 view.entry.setups.now self.old) }
    {
        'parts: for (place, e) in view.setups.iter().enumerate() {
            self.setup_unless(alloc, view, place, e)?;
        }
        Ok(())
    }
}
