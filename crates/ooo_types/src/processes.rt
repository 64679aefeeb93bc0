ghost use Rattle.std.specs.Prelude.{◌≡◌, ◌<◌, ◌+◌, ◌^◌, ◌++◌, length, IfOk, OnOk};
ghost use Rattle.ooo_bodies.specs.Noting.{noted};
ghost use Rattle.ooo_types.specs.Processes.{all_edges, edges_of, functions_notes};
ghost use Rattle.ooo_types.specs.Processes.{trigger_notes, wait_notes, wait_notes_at};
ghost use Rattle.ooo_types.specs.Running.{calls_from, function_from, functions_from};

use ooo_bodies::notes::{Call, Notes};
use ooo_calls::{Call as Edge, Calls};
use ooo_checked::TypeBreach;
use ooo_lexer::Position;
use ooo_members::known::{FunctionFacts, Sofar};
use sqlite_items::Items;
use std::alloc::{AllocError, Global};

// The calls of a function, behind others.
fn add_edges(function: &FunctionFacts, edges: &mut Items<Edge>) -> Result<(), AllocError>
    ensures { OnOk result (edges.new ≡ edges.old ++ edges_of function.now) }
{
    'parts: for e in function.calls.as_slice() {
        edges.push(Edge {
            from: function.number,
            to: e.function,
        })?;
    }
    Ok(())
}

// The calls of all functions.
fn all_edges(alloc: Global, functions: &Items<FunctionFacts>) -> Result<Items<Edge>, AllocError>
    ensures { IfOk result (λ edges. edges ≡ all_edges functions.now) }
{
    let mut edges = Items::new(alloc);
    'parts: for e in functions.as_slice() {
        keeping!(edges; add_edges(e, &mut edges));
    }
    Ok(edges)
}

// Notes the calls of a function that lie on a cycle, whose places among all calls go on from one; gives the place behind
// them.
fn note_calls(calls: &Calls, from: usize, own: &Items<Call>, notes: &mut Notes) -> usize
    requires { from + length own.now < 2 ^ 64 }
    ensures behind { result ≡ from + length own.now }
    ensures notes { notes.new ≡ noted notes.old (calls_from calls.now from own.now) }
{
    let mut place = from;
    'parts: for e in own.as_slice() {
        let is_on_cycle = calls.is_on_cycle(place).unwrap_or(false);
        notes.breaks_when(is_on_cycle, TypeBreach::RecursiveCall, e.at);
        place += 1;
    }
    place
}

// Notes a wait.
#[tactic(auto, using(ooo_bodies::specs::Noting::noted_append))]
fn note_wait(is_method: bool, may_wait: bool, at: Position, notes: &mut Notes)
    ensures { notes.new ≡ noted notes.old (wait_notes_at is_method may_wait at) }
{
    notes.breaks_when(is_method, TypeBreach::WaitInMethod, at);
    notes.breaks_when(!may_wait, TypeBreach::WaitInFunction, at);
}

// Notes the waits of a function.
fn note_waits(is_method: bool, may_wait: bool, waits: &Items<Position>, notes: &mut Notes)
    ensures { notes.new ≡ noted notes.old (wait_notes is_method may_wait waits.now) }
{
    'parts: for e in waits.as_slice() {
        note_wait(is_method, may_wait, *e, notes);
    }
}

// Notes the `next_trigger`s of a function.
fn note_triggers(is_method: bool, triggers: &Items<Position>, notes: &mut Notes)
    ensures { notes.new ≡ noted notes.old (trigger_notes is_method triggers.now) }
{
    'parts: for e in triggers.as_slice() {
        notes.breaks_when(!is_method, TypeBreach::WrongKind, *e);
    }
}

// Notes what hangs on all functions, of one of them, whose calls have their places among all from one on; gives the
// place behind them.
#[tactic(auto, using(ooo_bodies::specs::Noting::noted_append))]
fn note_function(
    calls: &Calls,
    sofar: &Sofar,
    from: usize,
    function: &FunctionFacts,
    notes: &mut Notes,
) -> usize
    requires { from + length function.now.calls < 2 ^ 64 }
    ensures behind { result ≡ from + length function.now.calls }
    ensures notes { notes.new ≡ noted notes.old
        (function_from calls.now sofar.now.registered from function.now) }
{
    let registration = sofar.registration_at(function.number);
    let is_method = registration.as_method;
    let may_wait = registration.is_process() && !calls.is_called(function.number);
    let place = note_calls(calls, from, &function.calls, notes);
    note_waits(is_method, may_wait, &function.waits, notes);
    note_triggers(is_method, &function.triggers, notes);
    place
}

// Notes what hangs on all functions, of each of them, where they have so many calls.
fn note_each(
    calls: &Calls,
    count: usize,
    sofar: &Sofar,
    functions: &Items<FunctionFacts>,
    notes: &mut Notes,
)
    requires { length (all_edges functions.now) ≡ count }
    ensures { notes.new ≡ noted notes.old
        (functions_from calls.now sofar.now.registered 0 functions.now) }
{
    let mut place = 0;
    'parts: for e in functions.as_slice() {
        place = note_function(calls, sofar, place, e, notes);
    }
}

/// Notes what hangs on all functions of a module: the calls that lie on a cycle, and the waits and `next_trigger`s that
/// stand where they may not.
///
/// # Errors
///
/// Only where memory runs out.
pub(crate) fn note_functions(
    alloc: Global,
    sofar: &Sofar,
    functions: &Items<FunctionFacts>,
    notes: &mut Notes,
) -> Result<(), AllocError>
    ensures { OnOk result (notes.new ≡ noted notes.old (functions_notes
        (all_edges functions.now) sofar.now.registered functions.now)) }
{
    let edges = all_edges(alloc, functions)?;
    let calls = keeping!(edges; Calls::make(alloc, edges.as_slice()));
    note_each(&calls, edges.len(), sofar, functions, notes);
    Ok(())
}
