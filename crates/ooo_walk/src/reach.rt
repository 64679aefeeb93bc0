ghost use Rattle.std.specs.Prelude.{◌≡◌, [], length, true, IfOk, OnOk, slice_get, slice_index_or};
ghost use Rattle.std.specs.Option.{option_copied};
ghost use Rattle.ooo_walk.specs.Plans.{function_at, viewed};
ghost use Rattle.ooo_walk.specs.Reach.{calls_at, calls_in, Marks, reached_by, with_calls, with_function};

use crate::plan::View;
use ooo_checked::CheckedFunction;
use ooo_constants::add_calls;
use sqlite_items::Items;
use std::alloc::{AllocError, Global};

/// The functions that a function calls, by their numbers, in the order of the text.
///
/// # Errors
///
/// Only where memory runs out.
pub fn calls(alloc: Global, function: Option<&CheckedFunction>) -> Result<Vec<usize>, AllocError>
    ensures { IfOk result (λ calls. calls.items
        ≡ calls_in (option_copied function.entry)) }
{
    let mut all = Vec::new(alloc);
    if let Some(function) = function {
        keeping!(all; add_calls(function.body.as_slice(), &mut all));
    }
    Ok(all)
}

// Marks as long as there are names, of which none is set.
fn no_marks(alloc: Global, names: usize) -> Result<Items<bool>, AllocError>
    ensures { IfOk result (λ marks. Marks names [] marks) }
{
    Ok(Items::from_vec(Vec::from_elem(alloc, false, names)?))
}

// Whether a number is marked; one without a mark counts as marked.
fn is_marked(marks: &Items<bool>, number: usize) -> bool
    ensures { result ≡ slice_index_or marks.now number true }
{
    match marks.get(number) {
        Some(mark) => *mark,
        None => true,
    }
}

// Adds the number of a function, unless it is there.
fn add_function(
    view: View<'_>,
    number: usize,
    marks: &mut Items<bool>,
    seen: &mut Items<usize>,
) -> Result<(), AllocError>
    requires { Marks (length view.places.now) seen.old marks.old }
    ensures seen { OnOk result (seen.new
        ≡ with_function seen.old number (function_at (viewed view.entry) number)) }
    ensures marks { OnOk result (Marks (length view.entry.places.now) seen.new marks.new) }
{
    if is_marked(marks, number) {
        return Ok(());
    }
    if view.function(number).is_none() {
        return Ok(());
    }
    got!(seen.push(number));
    marks.set(number, true);
    Ok(())
}

// Adds the functions of calls, unless they are there.
fn add_functions(
    view: View<'_>,
    calls: &[usize],
    marks: &mut Items<bool>,
    seen: &mut Items<usize>,
) -> Result<(), AllocError>
    requires { Marks (length view.places.now) seen.old marks.old }
    ensures seen { OnOk result (seen.new ≡ with_calls (viewed view.entry) seen.old calls.now) }
    ensures marks { OnOk result (Marks (length view.entry.places.now) seen.new marks.new) }
{
    'parts: for e in calls {
        add_function(view, *e, marks, seen)?;
    }
    Ok(())
}

// The functions that the one at a place of a list calls.
fn calls_at(alloc: Global, view: View<'_>, number: Option<usize>) -> Result<Vec<usize>, AllocError>
    ensures { IfOk result (λ calls. calls.items ≡ calls_at (viewed view.entry) number) }
{
    match number {
        Some(number) => calls(alloc, view.function(number)),
        None => Ok(Vec::new(alloc)),
    }
}

// Adds the functions that the one at a place of a list calls, unless they are there.
fn add_turn(
    alloc: Global,
    view: View<'_>,
    place: usize,
    marks: &mut Items<bool>,
    seen: &mut Items<usize>,
) -> Result<(), AllocError>
    requires { Marks (length view.places.now) seen.old marks.old }
    ensures seen { OnOk result (seen.new ≡ with_calls (viewed view.entry) seen.old
        (calls_at (viewed view.entry) (slice_get seen.old place))) }
    ensures marks { OnOk result (Marks (length view.entry.places.now) seen.new marks.new) }
{
    let calls = got!(calls_at(alloc, view, seen.get(place).copied()));
    add_functions(view, calls.as_slice(), marks, seen)
}

/// The functions of a module that are reached by calls of these, by their numbers, each once.
///
/// # Errors
///
/// Only where memory runs out.
pub fn reached(alloc: Global, view: View<'_>, by: &[usize]) -> Result<Items<usize>, AllocError>
    ensures { IfOk result (λ all. all ≡ reached_by (viewed view.entry) by.now) }
{
    let names = view.places.len();
    let mut marks = got!(no_marks(alloc, names));
    let mut seen = Items::new(alloc);
    keeping!(marks, seen; add_functions(view, by, &mut marks, &mut seen));
    'turns: for place in 0..names {
        keeping!(marks, seen; add_turn(alloc, view, place, &mut marks, &mut seen));
    }
    Ok(seen)
}
