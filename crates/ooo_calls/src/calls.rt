ghost use Rattle.std.specs.Prelude.{◌≡◌, ◌<◌, IfOk, map, slice_get};
ghost use Rattle.std.specs.Option.{option_map};
ghost use Rattle.ooo_calls.specs.Cycles.{is_called, is_on_cycle};
ghost use Rattle.ooo_calls.specs.Marks.{AreBelow, AreMarksOf};

use crate::call::Call;
use crate::closure;
use crate::marks::is_marked;
use crate::search::search;
use sqlite_items::at;
use std::alloc::{AllocError, Global};
use std::marker::Model;

/// The calls among functions, with the answers which of them lie on a cycle of calls.
#[derive(Drop)]
pub struct Calls {
    calls: Vec<Call>,
    called: Vec<bool>,
    on_cycle: Vec<bool>,
}

impl Model for Calls {
    ghost use Rattle.std.specs.Prelude.{List};
    ghost use Rattle.ooo_calls.specs.declared.call.Call.{Call as CallSpec};

    ghost Value = { List CallSpec };

    ghost use Rattle.ooo_calls.specs.Answers.{AreAnswers};

    ghost view = { λ c. c.calls.items };

    ghost invariant = { AreAnswers };
}

impl Calls {
    /// The answers for these calls. It takes time and memory that grow with the number of calls and with the greatest
    /// number of a function.
    ///
    /// # Errors
    ///
    /// Only where memory runs out, as it does at the greatest number that there is.
    pub fn make(alloc: Global, calls: &[Call]) -> Result<Calls, AllocError>
        ensures { IfOk result (λ c. c ≡ calls.now) }
    {
        let count = count_functions(calls)?;
        let called = called_functions(alloc, calls, count)?;
        let on_cycle = calls_on_cycle(alloc, calls, count)?;
        let calls = Vec::from_slice(alloc, calls)?;
        Ok(Calls {
            calls,
            called,
            on_cycle,
        })
    }

    /// Whether some call calls this function.
    pub fn is_called(&self, function: usize) -> bool
        ensures { result ≡ is_called self.now function }
    {
        is_marked(self.called.as_slice(), function)
    }

    /// Whether a call lies on a cycle of calls, by its place among the calls. Where no call has this place, `None`.
    pub fn is_on_cycle(&self, i: usize) -> Option<bool>
        ensures { result ≡ option_map (is_on_cycle self.now) (slice_get self.now i) }
    {
        at(self.on_cycle.as_slice(), i).copied()
    }
}

// A number above that of each function that occurs in the calls. Above the greatest number there is none.
fn count_functions(calls: &[Call]) -> Result<usize, AllocError>
    ensures { IfOk result (λ count. AreBelow count calls.now) }
{
    let mut count = 0usize;
    'calls: for call in calls {
        let greatest = call.from.max(call.to);
        if greatest == usize::MAX {
            return Err(AllocError);
        }
        count = count.max(greatest + 1);
    }
    Ok(count)
}

// Of each function whether it is called.
fn called_functions(alloc: Global, calls: &[Call], count: usize) -> Result<Vec<bool>, AllocError>
    requires { AreBelow count calls.now }
    ensures { IfOk result (λ marks. AreMarksOf (is_called calls.now) marks.items) }
{
    let mut marks = vec![in alloc; false; count]?;
    'calls: for call in calls {
        marks[call.to] = true;
    }
    Ok(marks)
}

// Of each call whether it lies on a cycle, by a search whose claim is checked.
fn calls_on_cycle(alloc: Global, calls: &[Call], count: usize) -> Result<Vec<bool>, AllocError>
    requires { AreBelow count calls.now }
    ensures { IfOk result (λ answers. answers.items ≡ map (is_on_cycle calls.now) calls.now) }
{
    let claim = search(alloc, calls, count)?;
    if claim.is_right(calls) {
        claim.calls_on_cycle(alloc, calls)
    } else {
        closure::calls_on_cycle(alloc, calls, count)
    }
}
