ghost use Rattle.std.specs.Prelude.{◌≡◌, ◌∷◌, [], ◌++◌, IfOk, OnOk, length, replicate, slice_get};
ghost use Rattle.std.specs.Option.{option_copied};
ghost use Rattle.ooo_walk.specs.Plans.{filed, plans_from};
ghost use Rattle.ooo_elaborate.specs.Elaborated.{assembled, bound_channels, bound_of, channel_names};
ghost use Rattle.ooo_elaborate.specs.Elaborated.{channel_pass, first_events, held_in, IsAnswerTo};
ghost use Rattle.ooo_elaborate.specs.Elaborated.{model_of, own_holds, process_functions, process_holds};
ghost use Rattle.ooo_elaborate.specs.Elaborated.{process_members, process_names, processes_hold};
ghost use Rattle.ooo_elaborate.specs.Elaborated.{unless_linked, unless_walked};
ghost use Rattle.ooo_elaborate.specs.Holders.{holders_refusal};

use crate::bindings::{Links, link_all, push_copy, unbound};
use crate::ends::hold_body;
use crate::functions::{Numbered, number_all};
use crate::holders::{Held, hold_functions, holders_refusal};
use crate::processes::{Model, all_functions, all_processes, members_in, view_in};
use ooo_bound::{Bound, BoundProcess};
use ooo_checked::CheckedUnit;
use ooo_constants::Meaning;
use ooo_value::{BoundChannel, Name, Names, narrow};
use ooo_walk::{
    ElabError, Modules, Plan, ProcessForm, Refusal, Walk, WalkedChannel, WalkedInstance,
    WalkedProcess, calls, plans, reached, walk,
};
use sqlite_items::{Items, at};
use std::alloc::{AllocError, Global};

// The first event of each channel.
fn first_events(alloc: Global, channels: &[WalkedChannel]) -> Result<Items<u32>, AllocError>
    ensures { IfOk result (λ all. all ≡ first_events channels.now) }
{
    let mut all = Items::new(alloc);
    'parts: for e in channels {
        keeping!(all; all.push(e.first_event));
    }
    Ok(all)
}

// The channels as the model holds them.
fn bound_channels(
    alloc: Global,
    channels: &[WalkedChannel],
) -> Result<Items<BoundChannel>, AllocError>
    ensures { IfOk result (λ all. all ≡ bound_channels channels.now) }
{
    let mut all = Items::new(alloc);
    'parts: for e in channels {
        keeping!(all; all.push(e.bound));
    }
    Ok(all)
}

// The full names of the channels.
fn channel_names(alloc: Global, channels: &[WalkedChannel]) -> Result<Items<Name>, AllocError>
    ensures { IfOk result (λ all. all ≡ channel_names channels.now) }
{
    let mut all = Items::new(alloc);
    'parts: for e in channels {
        keeping!(all; push_copy(alloc, &e.name, &mut all));
    }
    Ok(all)
}

// The full names of the processes.
fn process_names(alloc: Global, processes: &[WalkedProcess]) -> Result<Items<Name>, AllocError>
    ensures { IfOk result (λ all. all ≡ process_names processes.now) }
{
    let mut all = Items::new(alloc);
    'parts: for e in processes {
        keeping!(all; push_copy(alloc, &e.name, &mut all));
    }
    Ok(all)
}

// What the bodies stand in, behind the walk and the bindings.
fn model(alloc: Global, walk: &Walk, links: &Links) -> Result<Model, AllocError>
    ensures { IfOk result (λ model. model ≡ model_of walk.now links.now) }
{
    let file = got!(Items::from_slice(alloc, walk.file.as_slice()));
    let ports = keeping!(file; links.channels(alloc));
    let events = keeping!(file, ports; first_events(alloc, walk.channels.as_slice()));
    Ok(Model {
        file,
        ports,
        events,
    })
}

// The full names of processes and channels.
fn names(alloc: Global, walk: &Walk) -> Result<Names, AllocError>
    ensures { IfOk result (λ names. names ≡ record {
      processes = process_names walk.now.processes;
      channels = channel_names walk.now.channels;
    }) }
{
    let processes = got!(process_names(alloc, walk.processes.as_slice()));
    let channels = keeping!(processes; channel_names(alloc, walk.channels.as_slice()));
    Ok(Names {
        processes,
        channels,
    })
}

// The model that a walk, its bindings and its numbered functions make.
fn assembled(
    alloc: Global,
    modules: Modules<'_>,
    walk: &Walk,
    links: &Links,
    numbered: &Numbered,
) -> Result<Bound, AllocError>
    ensures { IfOk result (λ bound. bound
        ≡ assembled (filed modules.entry) walk.now links.now numbered.now) }
{
    let model = got!(model(alloc, walk, links));
    let instances = numbered.instances.as_slice();
    let names_of = numbered.functions.as_slice();
    let forms = walk.processes.as_slice();
    let processes = keeping!(model; all_processes(alloc, modules, &model, instances, forms));
    let functions = keeping!(
        model, processes;
        all_functions(alloc, modules, &model, instances, names_of)
    );
    drop(model);
    let variables = Items::from_slice(alloc, walk.variables.as_slice());
    let variables = keeping!(processes, functions; variables);
    let channels = bound_channels(alloc, walk.channels.as_slice());
    let channels = keeping!(processes, functions, variables; channels);
    let events = Items::from_slice(alloc, walk.events.as_slice());
    let events = keeping!(processes, functions, variables, channels; events);
    let names = keeping!(processes, functions, variables, channels, events; names(alloc, walk));
    Ok(Bound {
        processes,
        functions,
        variables,
        channels,
        events,
        stop: walk.stop,
        names,
    })
}

// The functions that the function of a process reaches by calls.
fn process_functions(
    alloc: Global,
    modules: Modules<'_>,
    instances: &[WalkedInstance],
    form: ProcessForm,
) -> Result<Items<usize>, AllocError>
    ensures { IfOk result
        (λ all. all ≡ process_functions (filed modules.entry) instances.now form) }
{
    match form {
        ProcessForm::Clock(_, _, _) => Ok(Items::new(alloc)),
        ProcessForm::Registered(_, instance, _, function) => {
            let view = view_in(modules, at(instances, instance as usize));
            let by = calls(alloc, view.function(function))?;
            reached(alloc, view, by.as_slice())
        }
    }
}

// What the names of a process's instance mean in it.
fn process_members(instances: &[WalkedInstance], form: ProcessForm) -> &[Meaning]
    ensures { result.now ≡ process_members instances.now form }
{
    match form {
        ProcessForm::Clock(_, _, _) => &[],
        ProcessForm::Registered(_, instance, _, _) => members_in(at(instances, instance as usize)),
    }
}

// A process holds the ends of its body.
fn hold_own(process: u32, bound: Option<&BoundProcess>, all: &mut Items<Held>)
    ensures { all.new ≡ own_holds process (option_copied bound.entry) all.old }
{
    if let Some(bound) = bound {
        hold_body(process, bound.body.as_slice(), all);
    }
}

// The process of a number holds the ends of its code.
fn hold_process(
    alloc: Global,
    modules: Modules<'_>,
    instances: &[WalkedInstance],
    bound: &Bound,
    number: usize,
    form: ProcessForm,
    all: &mut Items<Held>,
) -> Result<(), AllocError>
    ensures { OnOk result (all.new
        ≡ process_holds (filed modules.entry) instances.now bound.now number form all.old) }
{
    let process = narrow(number)?;
    let names = process_functions(alloc, modules, instances, form)?;
    hold_own(process, bound.processes.get(number), all);
    let members = process_members(instances, form);
    hold_functions(
        process,
        bound.functions.as_slice(),
        members,
        names.as_slice(),
        all,
    );
    Ok(())
}

// The processes that hold each end of each channel of a model.
fn held_in(
    alloc: Global,
    modules: Modules<'_>,
    walk: &Walk,
    numbered: &Numbered,
    bound: &Bound,
) -> Result<Items<Held>, AllocError>
    ensures { IfOk result (λ all. all
        ≡ held_in (filed modules.entry) walk.now numbered.now bound.now) }
{
    let none = got!(Vec::from_elem(alloc, Held::NOT_HELD, walk.channels.len()));
    let mut all = Items::from_vec(none);
    let instances = numbered.instances.as_slice();
    let processes = walk.processes.as_slice();
    'parts: for (place, e) in processes.iter().enumerate() {
        let form = e.form;
        keeping!(all; hold_process(alloc, modules, instances, bound, place, form, &mut all));
    }
    Ok(all)
}

// What is refused among the channels of a model.
fn channels_refusal(
    alloc: Global,
    modules: Modules<'_>,
    walk: &Walk,
    numbered: &Numbered,
    bound: &Bound,
) -> Result<Option<Refusal>, AllocError>
    ensures { IfOk result (λ refusal. refusal ≡ holders_refusal walk.now.processes 0
        walk.now.channels (held_in (filed modules.entry) walk.now numbered.now bound.now)) }
{
    let held = held_in(alloc, modules, walk, numbered, bound)?;
    let processes = walk.processes.as_slice();
    holders_refusal(alloc, processes, walk.channels.as_slice(), held.as_slice())
}

// The pass over the channels.
fn channel_pass(
    alloc: Global,
    modules: Modules<'_>,
    walk: &Walk,
    links: &Links,
    numbered: &Numbered,
) -> Result<Bound, ElabError>
    ensures { IsAnswerTo
        (channel_pass (filed modules.entry) walk.now links.now numbered.now) result }
{
    let bound = assembled(alloc, modules, walk, links, numbered)?;
    match channels_refusal(alloc, modules, walk, numbered, &bound) {
        Ok(None) => Ok(bound),
        Ok(Some(refusal)) => {
            drop(bound);
            Err(ElabError::Refused(refusal))
        }
        Err(error) => {
            drop(bound);
            Err(ElabError::from(error))
        }
    }
}

// The names of a refusal.
fn copied_names(alloc: Global, names: &[Name]) -> Result<Items<Name>, AllocError>
    ensures { IfOk result (λ all. all ≡ names.now) }
{
    let mut all = Items::new(alloc);
    'parts: for e in names {
        keeping!(all; push_copy(alloc, e, &mut all));
    }
    Ok(all)
}

// The same refusal, as an error.
fn refused(alloc: Global, refusal: &Refusal) -> Result<Bound, ElabError>
    ensures { IsAnswerTo (Err refusal.now) result }
{
    let names = copied_names(alloc, refusal.names.as_slice())?;
    Err(ElabError::Refused(Refusal {
        what: refusal.what,
        at: refusal.at,
        names,
    }))
}

// The pass over the ports, and then over the channels.
fn port_pass(
    alloc: Global,
    modules: Modules<'_>,
    walk: &Walk,
    links: &Links,
) -> Result<Bound, ElabError>
    ensures { IsAnswerTo (unless_linked None (filed modules.entry) walk.now links.now) result }
{
    match unbound(alloc, walk.ports.as_slice(), links.ends.as_slice())? {
        Some(refusal) => Err(ElabError::Refused(refusal)),
        None => {
            let numbered = number_all(alloc, modules, walk.instances.as_slice())?;
            let answer = channel_pass(alloc, modules, walk, links, &numbered);
            drop(numbered);
            answer
        }
    }
}

// The pass over the bindings, and then over ports and channels.
fn binding_pass(alloc: Global, modules: Modules<'_>, walk: &Walk) -> Result<Bound, ElabError>
    ensures { IsAnswerTo (unless_walked None (filed modules.entry) walk.now) result }
{
    let links = link_all(alloc, walk)?;
    match &links.refusal {
        Some(refusal) => refused(alloc, refusal),
        None => port_pass(alloc, modules, walk, &links),
    }
}

// What is refused in the walk, or else the passes behind it.
fn pass_behind(alloc: Global, modules: Modules<'_>, walk: &Walk) -> Result<Bound, ElabError>
    ensures { IsAnswerTo (unless_walked walk.now.refusal (filed modules.entry) walk.now) result }
{
    match &walk.refusal {
        Some(refusal) => refused(alloc, refusal),
        None => binding_pass(alloc, modules, walk),
    }
}

// All passes over a text, whose names the plans are of.
#[tactic(auto, unfolding(crate::specs::Elaborated::bound_of))]
fn passes(alloc: Global, unit: &CheckedUnit, plans: &[Plan]) -> Result<Bound, ElabError>
    requires { plans.now ≡ plans_from 0 unit.now.items }
    ensures { IsAnswerTo (bound_of unit.now) result }
{
    let modules = Modules {
        items: unit.items.as_slice(),
        plans,
    };
    let walk = walk(alloc, unit, plans)?;
    let answer = pass_behind(alloc, modules, &walk);
    drop(walk);
    answer
}

/// Elaborates a text whose names and types are known: makes its instances, binds its ports and puts numbers in place of
/// names (IEEE 1666-2011, clause 4.1).
///
/// # Errors
///
/// What is refused first: in the walk over the declarations, then among the bindings, among the ports and among the
/// channels; or memory runs out.
pub fn elaborate(alloc: Global, unit: &CheckedUnit) -> Result<Bound, ElabError>
    ensures { IsAnswerTo (bound_of unit.now) result }
{
    let plans = plans(alloc, unit.items.as_slice())?;
    let answer = passes(alloc, unit, plans.as_slice());
    drop(plans);
    answer
}
