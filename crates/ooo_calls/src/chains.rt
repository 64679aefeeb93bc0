use crate::call::Call;
use std::alloc::{AllocError, Global};
use std::mem;

/// Whether a search goes along the calls, or against them.
#[derive(Clone, Copy)]
pub(crate) enum Direction {
    Along,
    Against,
}

/// Of each function a chain of the calls that begin at it in a direction, from which they are taken one by one.
#[derive(Drop)]
pub(crate) struct Chains {
    heads: Vec<Option<usize>>,
    links: Vec<Link>,
}

// What a chain has of a call: the function at its end, and the next call of the chain.
#[derive(Clone, Copy)]
struct Link {
    end: usize,
    next: Option<usize>,
}

/// A call that was taken from a chain: its place, and the function at its end.
#[derive(Clone, Copy)]
pub(crate) struct Taken {
    pub(crate) call: usize,
    pub(crate) end: usize,
}

impl Direction {
    // The function at which a call begins, and the one at which it ends.
    fn ends(self, call: &Call) -> (usize, usize) {
        match self {
            Direction::Along => (call.from, call.to),
            Direction::Against => (call.to, call.from),
        }
    }
}

impl Chains {
    /// The chains of functions below `count`.
    pub(crate) fn new(
        alloc: Global,
        calls: &[Call],
        count: usize,
        direction: Direction,
    ) -> Result<Chains, AllocError> {
        let mut heads = vec![in alloc; None; count]?;
        let mut links = Vec::with_capacity(alloc, calls.len())?;
        for (i, call) in calls.iter().enumerate() {
            let (begin, end) = direction.ends(call);
            let next = match heads.get_mut(begin) {
                Some(head) => mem::replace(head, Some(i)),
                None => None,
            };
            links.push(Link { end, next })?;
        }
        Ok(Chains { heads, links })
    }

    /// Takes a call from the chain of a function, if there is one left.
    pub(crate) fn take(&mut self, function: usize) -> Option<Taken> {
        let head = self.heads.get_mut(function)?;
        let call = (*head)?;
        let link = *self.links.get(call)?;
        *head = link.next;
        Some(Taken {
            call,
            end: link.end,
        })
    }
}
