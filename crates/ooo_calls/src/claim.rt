ghost use Rattle.std.specs.Prelude.{◌≡◌, ◌==◌, IsTrue, IfOk, map, length, slice_index};
ghost use Rattle.ooo_calls.specs.Cycles.{is_on_cycle};

use crate::call::Call;
use sqlite_items::at;
use std::alloc::{AllocError, Global};

/// Of each function the place of a call, and how many such calls it is away from the root of its group.
#[derive(Drop)]
pub(crate) struct Steps {
    pub(crate) calls: Vec<usize>,
    pub(crate) depths: Vec<usize>,
}

/// What a search claims: of each function the number of its group; of each group its root; and of each function a call
/// by which it comes nearer to the root, and a call by which the root comes nearer to it.
#[derive(Drop)]
pub(crate) struct Claim {
    pub(crate) groups: Vec<usize>,
    pub(crate) roots: Vec<usize>,
    pub(crate) to_root: Steps,
    pub(crate) from_root: Steps,
}

impl Claim {
    ghost use Rattle.ooo_calls.specs.Claims.{group_of, root_of, is_nearer, has_way_to_root, has_way_from_root, is_right_at, is_right};

    /// Whether the claim is right at each call.
    pub(crate) fn is_right(&self, calls: &[Call]) -> bool
        ensures { result ≡ is_right self.now calls.now }
    {
        calls.iter().all(|call| self.is_right_at(calls, call))
    }

    /// Of each call whether it lies on a cycle, by a claim that is right: whether it stays in its group.
    pub(crate) fn calls_on_cycle(
        &self,
        alloc: Global,
        calls: &[Call],
    ) -> Result<Vec<bool>, AllocError>
        requires { IsTrue (is_right self.now calls.now) }
        ensures { IfOk result (λ answers. answers.items ≡ map (is_on_cycle calls.now) calls.now) }
    {
        self.stays_in_groups(alloc, calls)
    }

    // Of each call whether it stays in its group.
    fn stays_in_groups(&self, alloc: Global, calls: &[Call]) -> Result<Vec<bool>, AllocError>
        ensures { IfOk result (λ answers. answers.items
            ≡ map (λ c. group_of self.now c.from == group_of self.now c.to) calls.now) }
    {
        calls
            .iter()
            .map(|call| self.group(call.from) == self.group(call.to))
            .collect(alloc)
    }

    // Whether the claim is right at a call.
    fn is_right_at(&self, calls: &[Call], call: &Call) -> bool
        ensures { result ≡ is_right_at self.now calls.now call.now }
    {
        let from = self.group(call.from);
        let to = self.group(call.to);
        from < to
            || (from == to
                && (self.has_way_to_root(calls, call.to)
                    && self.has_way_from_root(calls, call.from)))
    }

    // Whether a function is the root of its group, or calls one that is nearer to it.
    fn has_way_to_root(&self, calls: &[Call], function: usize) -> bool
        ensures { result ≡ has_way_to_root self.now calls.now function }
    {
        if self.root(function) == function {
            return true;
        }
        match at(calls, number_at(self.to_root.calls.as_slice(), function)) {
            Some(call) => {
                call.from == function
                    && self.is_nearer(&self.to_root, calls.len(), call.to, function)
            }
            None => false,
        }
    }

    // Whether a function is the root of its group, or is called by one that is nearer to it.
    fn has_way_from_root(&self, calls: &[Call], function: usize) -> bool
        ensures { result ≡ has_way_from_root self.now calls.now function }
    {
        if self.root(function) == function {
            return true;
        }
        match at(calls, number_at(self.from_root.calls.as_slice(), function)) {
            Some(call) => {
                call.to == function
                    && self.is_nearer(&self.from_root, calls.len(), call.from, function)
            }
            None => false,
        }
    }

    // Whether a function stands in the group of another, nearer to the root, where the other is within a limit.
    fn is_nearer(&self, steps: &Steps, limit: usize, near: usize, far: usize) -> bool
        ensures { result ≡ is_nearer self.now steps.now limit near far }
    {
        let depth = number_at(steps.depths.as_slice(), far);
        self.group(near) == self.group(far)
            && (number_at(steps.depths.as_slice(), near) < depth && depth <= limit)
    }

    // The group of a function.
    fn group(&self, function: usize) -> usize
        ensures { result ≡ group_of self.now function }
    {
        number_at(self.groups.as_slice(), function)
    }

    // The root of a function's group.
    fn root(&self, function: usize) -> usize
        ensures { result ≡ root_of self.now function }
    {
        number_at(self.roots.as_slice(), self.group(function))
    }
}

// The number at a place, and 0 past the end.
fn number_at(numbers: &[usize], i: usize) -> usize
    ensures { result ≡ slice_index numbers.now i }
{
    at(numbers, i).copied().unwrap_or(0)
}
