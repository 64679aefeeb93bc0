ghost use Rattle.std.specs.Prelude.{◌≡◌, ◌++◌, [], IfOk, OnOk, length};
ghost use Rattle.ooo_elaborate.specs.Functions.{functions_in, meanings_with, numbered, numbered_by};
ghost use Rattle.ooo_elaborate.specs.Functions.{numbered_with, of_instance, setup_calls, setups_calls};
ghost use Rattle.ooo_walk.specs.Plans.{filed, viewed};

use ooo_checked::CheckedSetup;
use ooo_constants::Meaning;
use ooo_value::narrow;
use ooo_walk::{Modules, View, WalkedInstance, calls, reached};
use sqlite_items::Items;
use std::alloc::{AllocError, Global};

/// A function of an instance.
#[derive(Clone, Copy)]
pub struct WalkedFunction {
    /// The number of the instance.
    pub instance: usize,
    /// Its number among the names of the instance's module.
    pub function: usize,
}

/// The functions of a model in the order of their numbers, and its instances, whose names mean these numbers.
#[derive(Drop)]
pub struct Numbered {
    pub functions: Items<WalkedFunction>,
    pub instances: Items<WalkedInstance>,
}

// Adds the calls of the process that a constructor registers.
fn add_setup_calls(
    alloc: Global,
    view: View<'_>,
    setup: &CheckedSetup,
    all: &mut Items<usize>,
) -> Result<(), AllocError>
    ensures { OnOk result (all.new ≡ all.old ++ setup_calls (viewed view.entry) setup.now) }
{
    match setup {
        CheckedSetup::Thread(_, name) | CheckedSetup::Method(_, name) => {
            let more = calls(alloc, view.function(name.denotes.number))?;
            all.append(Items::from_vec(more))
        }
        _ => Ok(()),
    }
}

// The calls of the processes that a constructor registers.
fn setups_calls(alloc: Global, view: View<'_>) -> Result<Items<usize>, AllocError>
    ensures { IfOk result (λ all. all ≡ setups_calls (viewed view.entry) view.entry.setups.now) }
{
    let mut all = Items::new(alloc);
    'parts: for e in view.setups {
        keeping!(all; add_setup_calls(alloc, view, e, &mut all));
    }
    Ok(all)
}

// The functions of a module that a process of an instance reaches by calls, each once.
fn functions_in(alloc: Global, view: View<'_>) -> Result<Items<usize>, AllocError>
    ensures { IfOk result (λ all. all ≡ functions_in (viewed view.entry)) }
{
    let by = setups_calls(alloc, view)?;
    reached(alloc, view, by.as_slice())
}

// Functions of an instance mean numbers from one on.
fn number_functions(
    first: usize,
    functions: &[usize],
    members: &mut Items<Meaning>,
) -> Result<(), AllocError>
    ensures { OnOk result (members.new ≡ meanings_with first functions.now members.old) }
{
    let mut number = narrow(first)?;
    'parts: for e in functions {
        if *e < members.len() {
            members.set(*e, Meaning::Function(number));
        }
        number = narrow(number as usize + 1)?;
    }
    Ok(())
}

// The functions of an instance, each with the instance's number.
fn add_functions(
    instance: usize,
    functions: &[usize],
    all: &mut Items<WalkedFunction>,
) -> Result<(), AllocError>
    ensures { OnOk result (all.new ≡ all.old ++ of_instance instance functions.now) }
{
    'parts: for e in functions {
        all.push(WalkedFunction {
            instance,
            function: *e,
        })?;
    }
    Ok(())
}

// The same instance.
fn copied(alloc: Global, instance: &WalkedInstance) -> Result<WalkedInstance, AllocError>
    ensures { IfOk result (λ copy. copy ≡ instance.now) }
{
    Ok(WalkedInstance {
        module_number: instance.module_number,
        members: Items::from_slice(alloc, instance.members.as_slice())?,
    })
}

impl Numbered {
    // Adds an instance whose functions get the next numbers.
    fn add(
        &mut self,
        alloc: Global,
        functions: &[usize],
        instance: &WalkedInstance,
    ) -> Result<(), AllocError>
        ensures { OnOk result (self.new ≡ numbered_with functions.now instance.now self.old) }
    {
        let mut instance = got!(copied(alloc, instance));
        let first = self.functions.len();
        keeping!(instance; number_functions(first, functions, &mut instance.members));
        let number = self.instances.len();
        keeping!(instance; add_functions(number, functions, &mut self.functions));
        self.instances.push(instance)
    }
}

/// Instances whose functions have numbers, and the functions in the order of their numbers.
///
/// # Errors
///
/// Only where memory runs out.
pub(crate) fn number_all(
    alloc: Global,
    modules: Modules<'_>,
    instances: &[WalkedInstance],
) -> Result<Numbered, AllocError>
    ensures { IfOk result (λ all. all ≡ numbered (filed modules.entry) instances.now) }
{
    let mut all = Numbered {
        functions: Items::new(alloc),
        instances: Items::new(alloc),
    };
    'parts: for e in instances {
        let functions = keeping!(all; functions_in(alloc, modules.view(e.module_number)));
        keeping!(all, functions; all.add(alloc, functions.as_slice(), e));
    }
    Ok(all)
}
