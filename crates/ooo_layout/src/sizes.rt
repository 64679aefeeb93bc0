ghost use Rattle.std.specs.Prelude.{◌≡◌, ◌+◌, ◌≤◌, ◌++◌, ◌↔◌, [], length, IfOk, IsTrue, OnOk};
ghost use Rattle.ooo_layout.specs.Weighing.{AreWeighed, IsLeft, IsWeightOf, Weighs, calls_size, else_size};
ghost use Rattle.ooo_layout.specs.Weighing.{Spends, SpendsOwn, owed_calls, sizes_by, weight_by};
ghost use Rattle.ooo_shapes.specs.Sizes.{after_size, body_size, code_size, processes_size, right_size};
ghost use Rattle.ooo_shapes.specs.Sizes.{simple_size, simples_size, sizes_within, stat_size};

use crate::blocks::bare;
use crate::numbers::sum;
use ooo_bound::{
    Bound, BoundFunction, BoundProcess, BoundRight, BoundSimple, BoundStat, LinedSimple,
};
use sqlite_items::{Boxed, Items, at};
use std::alloc::{AllocError, Global};

/// The size of a body but for the functions that it calls, and the calls in it, one for each time. A size counts the items
/// that count against the statement limit.
#[derive(Drop)]
pub struct Weight {
    own: u64,
    calls: Items<u32>,
}

impl Weight {
    fn new(alloc: Global) -> Weight
        ensures own { result.own ≡ 0 }
        ensures calls { result.calls ≡ [] }
    {
        Weight {
            own: 0,
            calls: Items::new(alloc),
        }
    }

    /// The functions that are called, one for each call.
    pub(crate) fn calls(&self) -> &[u32]
        ensures { result.now ≡ self.now.calls }
    {
        self.calls.as_slice()
    }

    // So many items more.
    fn count(&mut self, n: u64) -> Result<(), AllocError>
        ensures { OnOk result (Weighs (λ sizes. n) self.old self.new) }
    {
        self.own = sum(self.own, n)?;
        Ok(())
    }

    // A call more.
    #[tactic(auto, using(crate::proofs::Sized::calls_more))]
    fn call(&mut self, f: u32) -> Result<(), AllocError>
        ensures { OnOk result (Weighs (λ sizes. sizes f) self.old self.new) }
    {
        self.calls.push(f)?;
        Ok(())
    }
}

fn weigh_simple(w: &mut Weight, simple: &BoundSimple) -> Result<(), AllocError>
    ensures { OnOk result (Weighs (λ sizes. simple_size sizes simple.now) w.old w.new) }
{
    match simple {
        BoundSimple::Assign(_, right) => match right {
            BoundRight::Call(f, args) => {
                w.count(1)?;
                w.count(args.len() as u64)?;
                w.call(*f)?;
                Ok(())
            }
            _ => {
                w.count(1)?;
                Ok(())
            }
        },
        BoundSimple::Print(items) => {
            w.count(1)?;
            w.count(items.len() as u64)?;
            Ok(())
        }
        _ => {
            w.count(1)?;
            Ok(())
        }
    }
}

// Simple statements one after the other.
fn weigh_simples(w: &mut Weight, simples: &[LinedSimple]) -> Result<(), AllocError>
    ensures { OnOk result (Weighs (λ sizes. simples_size sizes simples.now) w.old w.new) }
{
    'parts: for part in simples {
        weigh_simple(w, &part.simple)?;
    }
    Ok(())
}

// What a `for` does after each turn.
fn weigh_after(w: &mut Weight, after: &Option<Boxed<LinedSimple>>) -> Result<(), AllocError>
    ensures { OnOk result (Weighs (λ sizes. after_size sizes after.now) w.old w.new) }
{
    match after {
        None => Ok(()),
        Some(after) => {
            weigh_simple(w, &after.get().simple)?;
            Ok(())
        }
    }
}

// The statement after `else`, if there is one.
#[cycle(weigh)]
#[tactic(auto, unfolding(ooo_shapes::specs::Sizes::stat_size))]
fn weigh_else(w: &mut Weight, no: &Option<Boxed<BoundStat>>) -> Result<(), AllocError>
    ensures { OnOk result (Weighs (λ sizes. else_size sizes no.now) w.old w.new) }
{
    match no {
        None => Ok(()),
        Some(stat) => {
            weigh_stat(w, stat.get())?;
            Ok(())
        }
    }
}

#[cycle(weigh)]
#[tactic(auto, unfolding(ooo_shapes::specs::Sizes::stat_size))]
fn weigh_stat(w: &mut Weight, stat: &BoundStat) -> Result<(), AllocError>
    ensures { OnOk result (Weighs (λ sizes. stat_size sizes stat.now) w.old w.new) }
{
    match stat {
        BoundStat::Block(body) => weigh_body(w, body.as_slice()),
        BoundStat::Simple(part) => weigh_simple(w, &part.get().simple),
        BoundStat::If(_, _, yes, no) => {
            weigh_stat(w, yes.get())?;
            weigh_else(w, no)?;
            w.count(1)
        }
        BoundStat::While(_, _, body) => {
            weigh_stat(w, body.get())?;
            w.count(1)
        }
        BoundStat::Do(_, body, _) => {
            weigh_stat(w, body.get())?;
            w.count(1)
        }
        BoundStat::For(_, begin, _, after, body) => {
            weigh_simples(w, begin.as_slice())?;
            weigh_after(w, after)?;
            weigh_stat(w, body.get())?;
            w.count(1)
        }
        BoundStat::Break(_) | BoundStat::Continue(_) | BoundStat::Return(_, _) => {
            w.count(1)?;
            Ok(())
        }
    }
}

// The statements of a body.
#[cycle(weigh)]
#[tactic(auto, unfolding(ooo_shapes::specs::Sizes::stat_size))]
fn weigh_body(w: &mut Weight, body: &[BoundStat]) -> Result<(), AllocError>
    ensures { OnOk result (Weighs (λ sizes. body_size sizes body.now) w.old w.new) }
{
    'parts: for stat in body {
        weigh_stat(w, stat)?;
    }
    Ok(())
}

// A body by itself.
fn weight_of(alloc: Global, body: &[BoundStat]) -> Result<Weight, AllocError>
    ensures { IfOk result (λ w. IsWeightOf w body.now) }
{
    let mut w = Weight::new(alloc);
    weigh_body(&mut w, bare(body))?;
    Ok(w)
}

/// The weights of the bodies of functions, one for each.
///
/// # Errors
///
/// Only where memory runs out.
pub fn weights_of(alloc: Global, functions: &[BoundFunction]) -> Result<Items<Weight>, AllocError>
    ensures { IfOk result (λ ws. AreWeighed ws functions.now) }
{
    let mut all = Items::new(alloc);
    'functions: for function in functions {
        let weight = weight_of(alloc, function.body.as_slice())?;
        all.push(weight)?;
    }
    Ok(all)
}

/// A call whose size is still to be taken off: of this function, whose own calls are nested no deeper than this.
#[derive(Clone, Copy)]
pub(crate) struct Owed {
    function: u32,
    depth: usize,
}

// Notes the calls of a body, whose own calls are nested no deeper than this.
fn owe(owed: &mut Items<Owed>, depth: usize, calls: &[u32]) -> Result<(), AllocError>
    ensures { OnOk result (owed.new ≡ owed.old ++ owed_calls depth calls.now) }
{
    'calls: for f in calls {
        owed.push(Owed {
            function: *f,
            depth,
        })?;
    }
    Ok(())
}

// What is left once the own size of a body is taken off; its calls are then owed.
fn spend_own(
    owed: &mut Items<Owed>,
    depth: usize,
    w: &Weight,
    left: u64,
) -> Result<Option<u64>, AllocError>
    ensures { IfOk result (λ rest. SpendsOwn w.now depth left owed.old owed.new rest) }
{
    match left.checked_sub(w.own) {
        None => Ok(None),
        Some(rest) => {
            owe(owed, depth, w.calls.as_slice())?;
            Ok(Some(rest))
        }
    }
}

// The same of a call, if there is the function and calls may be nested so deep.
fn spend_call(
    weights: &[Weight],
    owed: &mut Items<Owed>,
    call: Owed,
    left: u64,
) -> Result<Option<u64>, AllocError>
    ensures { IfOk result (λ rest. Spends weights.now call left owed.old owed.new rest) }
{
    if call.depth == 0 {
        return Ok(Some(left));
    }
    match at(weights, call.function as usize) {
        None => Ok(Some(left)),
        Some(w) => {
            let rest = spend_own(owed, call.depth - 1, w, left)?;
            Ok(rest)
        }
    }
}

// What is left once the size of a body is taken off, where calls are nested no deeper than this; nothing, where it is more.
fn spend(
    alloc: Global,
    weights: &[Weight],
    depth: usize,
    w: &Weight,
    left: u64,
) -> Result<Option<u64>, AllocError>
    ensures { IfOk result (λ rest. IsLeft (weight_by (sizes_by depth weights.now) w.now) left rest) }
{
    let mut owed = Items::new(alloc);
    let Some(mut rest) = spend_own(&mut owed, depth, w, left)? else {
        return Ok(None);
    };
    'calls: while let Some(call) = owed.pop() {
        match spend_call(weights, &mut owed, call, rest)? {
            None => return Ok(None),
            Some(less) => rest = less,
        }
    }
    Ok(Some(rest))
}

// The same of a process, which has one more than its body.
fn spend_process(
    alloc: Global,
    functions: &[BoundFunction],
    weights: &[Weight],
    process: &BoundProcess,
    left: u64,
) -> Result<Option<u64>, AllocError>
    requires { AreWeighed weights.now functions.now }
    ensures { IfOk result (λ rest. IsLeft
        (1 + body_size (sizes_within
        (length functions.now) functions.now) process.now.body) left rest) }
{
    let w = weight_of(alloc, process.body.as_slice())?;
    if left == 0 {
        return Ok(None);
    }
    let rest = spend(alloc, weights, functions.len(), &w, left - 1)?;
    Ok(rest)
}

// What is left once the sizes of processes are taken.
fn spend_processes(
    alloc: Global,
    functions: &[BoundFunction],
    weights: &[Weight],
    processes: &[BoundProcess],
    left: u64,
) -> Result<Option<u64>, AllocError>
    requires { AreWeighed weights.now functions.now }
    ensures { IfOk result (λ rest. IsLeft
        (processes_size (sizes_within
        (length functions.now) functions.now) processes.now) left rest) }
{
    let mut rest = left;
    'processes: for process in processes {
        match spend_process(alloc, functions, weights, process, rest)? {
            None => return Ok(None),
            Some(less) => rest = less,
        }
    }
    Ok(Some(rest))
}

/// Whether the size of the code of a model is at most this, where these are the weights of its functions. It takes no more
/// steps than the text has parts, and than the limit allows.
///
/// # Errors
///
/// Only where memory runs out.
pub fn is_within(
    alloc: Global,
    model: &Bound,
    weights: &[Weight],
    limit: u64,
) -> Result<bool, AllocError>
    requires { AreWeighed weights.now model.now.functions }
    ensures { IfOk result (λ fits. IsTrue fits ↔ (code_size model.now ≤ limit)) }
{
    let rest = spend_processes(
        alloc,
        model.functions.as_slice(),
        weights,
        model.processes.as_slice(),
        limit,
    )?;
    Ok(rest.is_some())
}
