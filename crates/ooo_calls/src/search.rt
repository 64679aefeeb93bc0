use crate::call::Call;
use crate::chains::{Chains, Direction};
use crate::claim::{Claim, Steps};
use std::alloc::{AllocError, Global};

/// Groups of functions that call each other, by Kosaraju's algorithm.
///
/// The first search goes along the calls, and gives the order in which it is done with the functions. The second goes
/// against them from the function that was done last, and finds one group after another. The third goes along them again,
/// from the root of the last group to that of the first, and thus stays within groups. Each takes a bounded number of turns.
pub(crate) fn search(alloc: Global, calls: &[Call], count: usize) -> Result<Claim, AllocError> {
    let order = functions_done(alloc, calls, count)?;
    let to_root = Forest::find(alloc, calls, count, Direction::Against, order)?;
    let roots = Vec::from_slice(alloc, to_root.roots.as_slice())?;
    let from_root = Forest::find(alloc, calls, count, Direction::Along, roots)?;
    Ok(Claim {
        groups: to_root.groups,
        roots: to_root.roots,
        to_root: to_root.steps,
        from_root: from_root.steps,
    })
}

// How many turns a search takes at most: one for each start, for each call, and for each function that it is done with.
fn turns(calls: &[Call], count: usize) -> usize {
    count
        .saturating_add(count)
        .saturating_add(calls.len())
        .saturating_add(1)
}

// The functions below `count` in the order in which a search along the calls is done with them.
fn functions_done(alloc: Global, calls: &[Call], count: usize) -> Result<Vec<usize>, AllocError> {
    let mut chains = Chains::new(alloc, calls, count, Direction::Along)?;
    let mut found = vec![in alloc; false; count]?;
    let mut done = Vec::with_capacity(alloc, count)?;
    let mut path = Vec::new(alloc);
    let mut start = 0usize;
    for _turn in 0..turns(calls, count) {
        match path.last().copied() {
            None if start < count => {
                if is_new(&mut found, start) {
                    path.push(start)?;
                }
                start += 1;
            }
            None => break,
            Some(function) => match chains.take(function) {
                Some(taken) => {
                    if is_new(&mut found, taken.end) {
                        path.push(taken.end)?;
                    }
                }
                None => {
                    done.push(function)?;
                    let _ = path.pop();
                }
            },
        }
    }
    Ok(done)
}

// Whether a function wasn't found before. It is found from then on.
fn is_new(found: &mut Vec<bool>, function: usize) -> bool {
    match found.get_mut(function) {
        Some(mark) => {
            let new = !*mark;
            *mark = true;
            new
        }
        None => false,
    }
}

// Trees of functions, each found from its root: of each function the number of its tree and its step, and the roots.
#[derive(Drop)]
struct Forest {
    found: Vec<bool>,
    groups: Vec<usize>,
    roots: Vec<usize>,
    steps: Steps,
}

impl Forest {
    // The trees of a search from these starts, of which the last is the first.
    fn find(
        alloc: Global,
        calls: &[Call],
        count: usize,
        direction: Direction,
        mut starts: Vec<usize>,
    ) -> Result<Forest, AllocError> {
        let mut chains = Chains::new(alloc, calls, count, direction)?;
        let mut forest = Forest::new(alloc, count)?;
        let mut path = Vec::new(alloc);
        for _turn in 0..turns(calls, count) {
            match path.last().copied() {
                None => match starts.pop() {
                    Some(start) => {
                        if forest.add_root(start)? {
                            path.push(start)?;
                        }
                    }
                    None => break,
                },
                Some(function) => match chains.take(function) {
                    Some(taken) => {
                        if forest.add(function, taken.call, taken.end) {
                            path.push(taken.end)?;
                        }
                    }
                    None => {
                        let _ = path.pop();
                    }
                },
            }
        }
        Ok(forest)
    }

    // No function is found yet.
    fn new(alloc: Global, count: usize) -> Result<Forest, AllocError> {
        Ok(Forest {
            found: vec![in alloc; false; count]?,
            groups: vec![in alloc; 0; count]?,
            roots: Vec::new(alloc),
            steps: Steps {
                calls: vec![in alloc; 0; count]?,
                depths: vec![in alloc; 0; count]?,
            },
        })
    }

    // Begins a tree at a function, and answers whether it is new.
    fn add_root(&mut self, root: usize) -> Result<bool, AllocError> {
        if !is_new(&mut self.found, root) {
            return Ok(false);
        }
        put(&mut self.groups, root, self.roots.len());
        self.roots.push(root)?;
        Ok(true)
    }

    // Adds a function to the tree of another, from which a call leads to it, and answers whether it is new.
    fn add(&mut self, before: usize, call: usize, function: usize) -> bool {
        if !is_new(&mut self.found, function) {
            return false;
        }
        let group = self.groups.get(before).copied().unwrap_or(0);
        let depth = self.steps.depths.get(before).copied().unwrap_or(0);
        put(&mut self.groups, function, group);
        put(&mut self.steps.calls, function, call);
        put(&mut self.steps.depths, function, depth.saturating_add(1));
        true
    }
}

// Writes a number to its place, if there is one.
fn put(numbers: &mut Vec<usize>, i: usize, number: usize) {
    if let Some(place) = numbers.get_mut(i) {
        *place = number;
    }
}
