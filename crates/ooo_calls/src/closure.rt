ghost use Rattle.std.specs.Prelude.{◌≡◌, ◌+◌, ◌<◌, ◌==◌, ◌&&◌, ◌||◌, false, length, map, All, IfOk, slice_index_or};
ghost use Rattle.std.specs.List.{list_any};
ghost use Rattle.ooo_calls.specs.Cycles.{is_on_cycle, reaches};
ghost use Rattle.ooo_calls.specs.Marks.{AreBelow, AreMarksOf};

use crate::call::Call;
use crate::marks::is_marked;
use std::alloc::{AllocError, Global};

/// Of each call whether it lies on a cycle, by a closure for each call: the time grows with the third power of the number
/// of calls.
pub(crate) fn calls_on_cycle(
    alloc: Global,
    calls: &[Call],
    count: usize,
) -> Result<Vec<bool>, AllocError>
    requires { AreBelow count calls.now }
    ensures { IfOk result (λ answers. answers.items ≡ map (is_on_cycle calls.now) calls.now) }
{
    let mut answers = Vec::with_capacity(alloc, calls.len())?;
    'calls: for call in calls {
        answers.push(is_on_cycle(alloc, calls, count, *call)?)?;
    }
    Ok(answers)
}

// Whether a call lies on a cycle.
fn is_on_cycle(alloc: Global, calls: &[Call], count: usize, call: Call) -> Result<bool, AllocError>
    requires { AreBelow count calls.now }
    ensures { IfOk result (λ answer. answer ≡ is_on_cycle calls.now call) }
{
    let marks = reaching(alloc, calls, count, call.from)?;
    let comes_back = is_marked(marks.as_slice(), call.to);
    Ok(call.from == call.to || comes_back)
}

// Of each function whether it reaches a target within twice as many calls as there are.
fn reaching(
    alloc: Global,
    calls: &[Call],
    count: usize,
    target: usize,
) -> Result<Vec<bool>, AllocError>
    requires { AreBelow count calls.now }
    ensures { let rounds = length calls.now + length calls.now in
        IfOk result (λ marks. AreMarksOf (λ f. reaches rounds calls.now f target) marks.items) }
{
    let mut marks = vec![in alloc; false; count]?;
    'rounds: for _round in 0..calls.len() + calls.len() {
        marks = one_call_more(alloc, calls, marks.as_slice(), target)?;
    }
    Ok(marks)
}

// Of each function whether it calls the target, or a function that was marked before.
fn one_call_more(
    alloc: Global,
    calls: &[Call],
    before: &[bool],
    target: usize,
) -> Result<Vec<bool>, AllocError>
    requires { AreBelow (length before.now) calls.now }
    ensures count { IfOk result (λ marks. length marks.items ≡ length before.now) }
    ensures exact { IfOk result (λ marks. AreMarksOf (λ f. list_any (λ c. (c.from == f)
        && ((c.to == target) || slice_index_or before.now c.to false)) calls.now) marks.items) }
{
    let mut marks = vec![in alloc; false; before.len()]?;
    'calls: for call in calls {
        if goes_on(before, target, *call) {
            marks[call.from] = true;
        }
    }
    Ok(marks)
}

// Whether a call goes to the target, or to a function that was marked before.
fn goes_on(before: &[bool], target: usize, call: Call) -> bool
    ensures { result ≡ ((call.to == target) || slice_index_or before.now call.to false) }
{
    call.to == target || is_marked(before, call.to)
}
