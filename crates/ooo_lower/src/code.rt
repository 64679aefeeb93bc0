ghost use Rattle.std.specs.Prelude.{◌≡◌, ◌+◌, ◌++◌, [], ◌∷◌, length, IfOk, OnOk};
ghost use Rattle.ooo_shapes.specs.Simples.{counted, uncounted};
ghost use Rattle.ooo_lower.specs.Codes.{Puts};

use ooo_code::{Node, NodeKind};
use ooo_layout::numbers::{behind, narrow};
use ooo_value::Kind;
use sqlite_items::Items;
use std::alloc::AllocError;

/// Code as far as it is made: the nodes of all processes so far, and the kinds of the slots of the process at hand.
#[derive(Drop)]
pub(crate) struct Code {
    pub(crate) nodes: Items<Node>,
    pub(crate) slots: Items<Kind>,
}

impl Code {
    /// The number of the next node.
    pub(crate) fn at(&self) -> Result<u32, AllocError>
        ensures { IfOk result (λ n. n ≡ length self.now.nodes) }
    {
        narrow(self.nodes.len() as u64)
    }

    /// The number of the node behind the next one.
    pub(crate) fn after(&self) -> Result<u32, AllocError>
        ensures { IfOk result (λ n. n ≡ length self.now.nodes + 1) }
    {
        behind(self.at()?, 1)
    }

    /// The number of the next slot.
    pub(crate) fn free(&self) -> Result<u32, AllocError>
        ensures { IfOk result (λ n. n ≡ length self.now.slots) }
    {
        narrow(self.slots.len() as u64)
    }

    /// Adds a node that counts against the statement limit.
    pub(crate) fn put_counted(
        &mut self,
        kind: NodeKind,
        line: u32,
        next: u32,
    ) -> Result<(), AllocError>
        ensures { OnOk result (Puts (counted kind line next ∷ []) self.old self.new) }
    {
        self.put(kind, line, true, next)
    }

    /// Adds a node that doesn't count.
    pub(crate) fn put_uncounted(
        &mut self,
        kind: NodeKind,
        line: u32,
        next: u32,
    ) -> Result<(), AllocError>
        ensures { OnOk result (Puts (uncounted kind line next ∷ []) self.old self.new) }
    {
        self.put(kind, line, false, next)
    }

    // Adds a node.
    fn put(&mut self, kind: NodeKind, line: u32, counts: bool, next: u32) -> Result<(), AllocError>
        ensures { OnOk result (Puts
            (record { kind = kind; line = line; counts = counts; next = next } ∷ [])
            self.old self.new) }
    {
        self.nodes.push(Node {
            kind,
            line,
            counts,
            next,
        })
    }
}
