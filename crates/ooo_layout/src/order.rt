use crate::numbers::{narrow, sum};
use crate::sizes::Weight;
use sqlite_items::{Items, at};
use std::alloc::{AllocError, Global};
use std::mem;

/// A step of a search through calls: a function is entered, and left once those that it calls are.
#[derive(Clone, Copy)]
pub(crate) enum Step {
    Enter(u32),
    Leave(u32),
}

/// A search through calls: which functions were entered, the steps to come, the next one last, and the functions that were
/// left, in order.
#[derive(Drop)]
pub(crate) struct Search {
    entered: Vec<bool>,
    steps: Items<Step>,
    left: Items<u32>,
}

impl Search {
    // Each function is to be entered.
    fn new(alloc: Global, count: usize) -> Result<Search, AllocError> {
        let entered = vec![in alloc; false; count]?;
        let mut steps = Items::new(alloc);
        for f in 0..count {
            steps.push(Step::Enter(narrow(f as u64)?))?;
        }
        Ok(Search {
            entered,
            steps,
            left: Items::new(alloc),
        })
    }

    // Whether a function was entered, or isn't there. From now on it was.
    fn enters_anew(&mut self, f: u32) -> bool {
        match self.entered.get_mut(f as usize) {
            None => false,
            Some(entered) => !mem::replace(entered, true),
        }
    }

    // Enters a function: those that it calls are entered next, and then it is left.
    fn enter(&mut self, f: u32, calls: &[u32]) -> Result<(), AllocError> {
        self.steps.push(Step::Leave(f))?;
        for called in calls {
            self.steps.push(Step::Enter(*called))?;
        }
        Ok(())
    }

    // Takes a step.
    fn take(&mut self, weights: &[Weight], step: Step) -> Result<(), AllocError> {
        match step {
            Step::Leave(f) => self.left.push(f),
            Step::Enter(f) => match at(weights, f as usize) {
                Some(weight) if self.enters_anew(f) => self.enter(f, weight.calls()),
                _ => Ok(()),
            },
        }
    }
}

// How many steps a search takes: each function is left once, and is entered at most once for itself and once for each call.
fn step_count(weights: &[Weight]) -> Result<u64, AllocError> {
    let mut count = 0;
    for weight in weights {
        let steps = sum(2, weight.calls().len() as u64)?;
        count = sum(count, steps)?;
    }
    Ok(count)
}

/// The functions, each behind those that it calls, where they don't call one another in a circle. That they stand so isn't
/// claimed: who goes by this order sees what a function calls.
///
/// # Errors
///
/// Only where memory runs out.
pub(crate) fn callees_first(alloc: Global, weights: &[Weight]) -> Result<Items<u32>, AllocError> {
    let mut search = Search::new(alloc, weights.len())?;
    for _ in 0..step_count(weights)? {
        if let Some(step) = search.steps.pop() {
            search.take(weights, step)?;
        }
    }
    Ok(search.left)
}
