ghost use Rattle.std.specs.Prelude.{◌≡◌, ◌+◌, ◌∷◌, [], ◌++◌, drop, IfOk, OnOk, slice_get};
ghost use Rattle.std.specs.Option.{option_copied};
ghost use Rattle.ooo_numbers.specs.Names.{numbering_of};
ghost use Rattle.ooo_walk.specs.Plans.{filed, view_at, viewed};
ghost use Rattle.ooo_elaborate.specs.Processes.{body_in, clock_body, clock_step, clock_wait, clock_write};
ghost use Rattle.ooo_elaborate.specs.Processes.{function_of, functions_of, initialized_by, kinds_of};
ghost use Rattle.ooo_elaborate.specs.Processes.{members_in, numbering_in, process_of, processes_of};
ghost use Rattle.ooo_elaborate.specs.Processes.{registered_of, result_of, sensitive_by, view_in};
ghost use Rattle.ooo_elaborate.specs.Processes.{walked_function_of};

use crate::functions::WalkedFunction;
use ooo_bound::{
    BoundExpr, BoundFunction, BoundProcess, BoundRight, BoundSimple, BoundStat, BoundTarget,
    BoundTime, BoundWait, LinedSimple,
};
use ooo_checked::{CheckedFunction, CheckedParam, CheckedSetup, CheckedStat};
use ooo_constants::{Meaning, kind_written};
use ooo_numbers::{Numbers, events, stats};
use ooo_syntax::ResultForm;
use ooo_time::Time;
use ooo_value::{Kind, ProcessKind, Value};
use ooo_walk::{Modules, ProcessForm, View, WalkedInstance, WalkedProcess};
use sqlite_items::{Boxed, Items, at};
use std::alloc::{AllocError, Global};

/// What the bodies of all instances stand in.
#[derive(Drop)]
pub struct Model {
    /// What the names of the file mean.
    pub file: Items<Meaning>,
    /// The channel of each port.
    pub ports: Items<Option<u32>>,
    /// The first event of each channel.
    pub events: Items<u32>,
}

// What the bodies of an instance stand in.
fn numbers<'a>(model: &'a Model, members: &'a [Meaning]) -> Numbers<'a>
    ensures { numbering_of result ≡ numbering_in model.now members.now }
{
    Numbers {
        file: model.file.as_slice(),
        members,
        ports: model.ports.as_slice(),
        events: model.events.as_slice(),
    }
}

// What the names of an instance's module mean in it.
pub(crate) fn members_in(instance: Option<&WalkedInstance>) -> &[Meaning]
    ensures { result.now ≡ members_in (option_copied instance.entry) }
{
    match instance {
        Some(instance) => instance.members.as_slice(),
        None => &[],
    }
}

// The module of an instance.
pub(crate) fn view_in<'a>(modules: Modules<'a>, instance: Option<&WalkedInstance>) -> View<'a>
    ensures { viewed result ≡ view_in (filed modules.entry) (option_copied instance.entry) }
{
    match instance {
        Some(instance) => modules.view(instance.module_number),
        None => modules.view(0),
    }
}

// A step of a clock's body.
fn clock_step(alloc: Global, line: u32, simple: BoundSimple) -> Result<BoundStat, AllocError>
    ensures { IfOk result (λ step. step ≡ clock_step line simple) }
{
    let lined = Boxed::new(alloc, LinedSimple { line, simple })?;
    Ok(BoundStat::Simple(lined))
}

// The clock's signal gets a value.
fn clock_write(channel: u32, up: bool) -> BoundSimple
    ensures { result ≡ clock_write channel up }
{
    let value = BoundRight::Value(BoundExpr::Constant(Value::Bool(up)));
    BoundSimple::Assign(BoundTarget::Signal(channel), value)
}

// Half the clock's period passes.
fn clock_wait(alloc: Global, half: Time) -> BoundSimple
    ensures { result ≡ clock_wait half }
{
    BoundSimple::Wait(BoundWait {
        time: Some(BoundTime::Fixed(half)),
        events: Items::new(alloc),
        is_static: false,
    })
}

// A step of a clock's body behind others.
fn with_step(
    alloc: Global,
    mut steps: Items<BoundStat>,
    line: u32,
    simple: BoundSimple,
) -> Result<Items<BoundStat>, AllocError>
    ensures { IfOk result (λ all. all ≡ steps ++ clock_step line simple ∷ []) }
{
    let step = keeping!(steps; clock_step(alloc, line, simple));
    keeping!(steps; steps.push(step));
    Ok(steps)
}

// A clock's body: it is true for half its period, and false for the other half, for ever.
fn clock_body(
    alloc: Global,
    channel: u32,
    half: Time,
    line: u32,
) -> Result<Items<BoundStat>, AllocError>
    ensures { IfOk result (λ body. body ≡ clock_body channel half line) }
{
    let steps = Items::new(alloc);
    let steps = got!(with_step(alloc, steps, line, clock_write(channel, true)));
    let steps = got!(with_step(alloc, steps, line, clock_wait(alloc, half)));
    let steps = got!(with_step(alloc, steps, line, clock_write(channel, false)));
    let steps = got!(with_step(alloc, steps, line, clock_wait(alloc, half)));
    let turn = got!(Boxed::new(alloc, BoundStat::Block(steps)));
    let test = keeping!(turn; Boxed::new(alloc, BoundExpr::Constant(Value::Bool(true))));
    let mut body = Items::new(alloc);
    keeping!(body; body.push(BoundStat::Do(line, turn, test)));
    Ok(body)
}

// Adds the static events of the process before, up to the next one.
fn add_sensitive(
    numbers: Numbers<'_>,
    setups: &[CheckedSetup],
    all: &mut Items<u32>,
) -> Result<(), AllocError>
    ensures { OnOk result
        (all.new ≡ all.old ++ sensitive_by (numbering_of numbers.entry) setups.now) }
{
    'parts: for e in setups {
        match e {
            CheckedSetup::Thread(_, _) | CheckedSetup::Method(_, _) => return Ok(()),
            CheckedSetup::Sensitive(_, given) => events(numbers, given.as_slice(), all)?,
            _ => {}
        }
    }
    Ok(())
}

// Whether the process before is made runnable at initialization: up to the next one nothing says otherwise.
fn initialized(setups: &[CheckedSetup]) -> bool
    ensures { result ≡ initialized_by setups.now }
{
    'parts: for e in setups {
        match e {
            CheckedSetup::Thread(_, _) | CheckedSetup::Method(_, _) => return true,
            CheckedSetup::DontInitialize(_) => return false,
            _ => {}
        }
    }
    true
}

// The statements behind a place.
fn behind(setups: &[CheckedSetup], place: usize) -> &[CheckedSetup]
    ensures { result.now ≡ drop (place + 1) setups.now }
{
    if place < setups.len() {
        &setups[place + 1..]
    } else {
        &[]
    }
}

// The statements of a function.
fn body_in(function: Option<&CheckedFunction>) -> &[CheckedStat]
    ensures { result.now ≡ body_in (option_copied function.entry) }
{
    match function {
        Some(function) => function.body.as_slice(),
        None => &[],
    }
}

// A process of an instance.
fn registered(
    alloc: Global,
    model: &Model,
    view: View<'_>,
    members: &[Meaning],
    kind: ProcessKind,
    place: usize,
    function: usize,
) -> Result<BoundProcess, AllocError>
    ensures { IfOk result (λ process. process
        ≡ registered_of model.now (viewed view.entry) members.now kind place function) }
{
    let numbers = numbers(model, members);
    let body = got!(stats(alloc, numbers, body_in(view.function(function))));
    let said = behind(view.setups, place);
    let mut sensitive = Items::new(alloc);
    keeping!(body, sensitive; add_sensitive(numbers, said, &mut sensitive));
    Ok(BoundProcess {
        kind,
        body,
        sensitive,
        initialize: initialized(said),
    })
}

// A process.
fn process(
    alloc: Global,
    modules: Modules<'_>,
    model: &Model,
    instances: &[WalkedInstance],
    form: ProcessForm,
) -> Result<BoundProcess, AllocError>
    ensures { IfOk result (λ process. process
        ≡ process_of (filed modules.entry) model.now instances.now form) }
{
    match form {
        ProcessForm::Clock(channel, half, line) => Ok(BoundProcess {
            kind: ProcessKind::Thread,
            body: got!(clock_body(alloc, channel, half, line)),
            sensitive: Items::new(alloc),
            initialize: true,
        }),
        ProcessForm::Registered(kind, instance, place, function) => {
            let instance = at(instances, instance as usize);
            let view = view_in(modules, instance);
            registered(
                alloc,
                model,
                view,
                members_in(instance),
                kind,
                place,
                function,
            )
        }
    }
}

/// The processes of a model.
///
/// # Errors
///
/// Only where memory runs out.
pub(crate) fn all_processes(
    alloc: Global,
    modules: Modules<'_>,
    model: &Model,
    instances: &[WalkedInstance],
    processes: &[WalkedProcess],
) -> Result<Items<BoundProcess>, AllocError>
    ensures { IfOk result (λ all. all
        ≡ processes_of (filed modules.entry) model.now instances.now processes.now) }
{
    let mut all = Items::new(alloc);
    'parts: for e in processes {
        let process = keeping!(all; process(alloc, modules, model, instances, e.form));
        keeping!(all; all.push(process));
    }
    Ok(all)
}

// The kinds of parameters.
fn kinds_of(alloc: Global, params: &[CheckedParam]) -> Result<Items<Kind>, AllocError>
    ensures { IfOk result (λ all. all ≡ kinds_of params.now) }
{
    let mut all = Items::new(alloc);
    'parts: for e in params {
        keeping!(all; all.push(kind_written(e.form.form)));
    }
    Ok(all)
}

// The kind of what a function gives.
fn result_of(form: ResultForm) -> Option<Kind>
    ensures { result ≡ result_of form }
{
    match form {
        ResultForm::Nothing => None,
        ResultForm::Value(name) => Some(kind_written(name.form)),
    }
}

// A function of an instance.
fn function(
    alloc: Global,
    model: &Model,
    members: &[Meaning],
    function: Option<&CheckedFunction>,
) -> Result<BoundFunction, AllocError>
    ensures { IfOk result (λ bound. bound
        ≡ function_of model.now members.now (option_copied function.entry)) }
{
    match function {
        Some(function) => {
            let params = got!(kinds_of(alloc, function.params.as_slice()));
            let numbers = numbers(model, members);
            let body = keeping!(params; stats(alloc, numbers, function.body.as_slice()));
            Ok(BoundFunction {
                result: result_of(function.result),
                params,
                body,
            })
        }
        None => Ok(BoundFunction {
            result: None,
            params: Items::new(alloc),
            body: Items::new(alloc),
        }),
    }
}

// A function of a model.
fn walked_function(
    alloc: Global,
    modules: Modules<'_>,
    model: &Model,
    instances: &[WalkedInstance],
    walked: WalkedFunction,
) -> Result<BoundFunction, AllocError>
    ensures { IfOk result (λ bound. bound ≡ walked_function_of
        (filed modules.entry) model.now instances.now walked) }
{
    let instance = at(instances, walked.instance);
    let view = view_in(modules, instance);
    function(
        alloc,
        model,
        members_in(instance),
        view.function(walked.function),
    )
}

/// The functions of a model.
///
/// # Errors
///
/// Only where memory runs out.
pub(crate) fn all_functions(
    alloc: Global,
    modules: Modules<'_>,
    model: &Model,
    instances: &[WalkedInstance],
    functions: &[WalkedFunction],
) -> Result<Items<BoundFunction>, AllocError>
    ensures { IfOk result (λ all. all
        ≡ functions_of (filed modules.entry) model.now instances.now functions.now) }
{
    let mut all = Items::new(alloc);
    'parts: for e in functions {
        let function = keeping!(all; walked_function(alloc, modules, model, instances, *e));
        keeping!(all; all.push(function));
    }
    Ok(all)
}
