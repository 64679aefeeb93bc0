ghost use Rattle.std.specs.Prelude.{◌≡◌, [], ◌∷◌, length, IfOk, OnOk};
ghost use Rattle.ooo_layout.specs.Scenes.{home_at};
ghost use Rattle.ooo_lower.specs.Changes.{events_of};
ghost use Rattle.ooo_lower.specs.Codes.{Puts};
ghost use Rattle.ooo_lower.specs.Parts.{element_update_nodes, fifo_value, updated_element, updated_expr};
ghost use Rattle.ooo_shapes.specs.Expressions.{lowered};
ghost use Rattle.ooo_shapes.specs.Simples.{aim_kind, begins, counted, item_nodes, nb_read_nodes, nb_write_nodes};
ghost use Rattle.ooo_shapes.specs.Simples.{put_at_kind, put_kind, read_nodes, truth, uncounted, update_nodes};
ghost use Rattle.ooo_shapes.specs.Simples.{wait_kind, write_nodes};

use crate::code::Code;
use crate::expressions::{converted, lowered};
use crate::kinds_of_nodes::{
    Change, aim_kind, channel_slot, current_expr, index_slot, item_kind, put_at_kind, put_kind,
    store_kind, value_slot, wait_for,
};
use ooo_bound::{BoundExpr, BoundItem, BoundTarget};
use ooo_code::{NodeExpr, NodeKind};
use ooo_layout::kinds::{kind_in, kind_of_channel};
use ooo_layout::numbers::behind;
use ooo_layout::scene::Scene;
use ooo_shapes::Around;
use ooo_value::{Op, Value};
use sqlite_items::Boxed;
use std::alloc::{AllocError, Global};

/// Where the nodes of a statement go, which line they name, and how deep calls may be nested in it.
#[derive(Clone, Copy)]
pub(crate) struct Spot {
    /// What stands around the statement.
    pub(crate) around: Around,
    /// The line of its first token.
    pub(crate) line: u32,
    /// The number of the node behind it.
    pub(crate) next: u32,
    pub(crate) depth: usize,
}

/// What nodes are made of, and where they go.
#[derive(Clone, Copy)]
pub(crate) struct Site<'a> {
    pub(crate) alloc: Global,
    pub(crate) scene: Scene<'a>,
    pub(crate) spot: Spot,
}

impl<'a> Site<'a> {
    // What puts a value into a target and leads on.
    fn put_kind(self, into: &BoundTarget, value: NodeExpr) -> Result<NodeKind, AllocError>
        ensures { IfOk result (λ k. k ≡ put_kind (home_at self.entry.scene)
            self.entry.spot.around into.now value self.entry.spot.next) }
    {
        put_kind(
            self.alloc,
            self.scene,
            self.spot.around,
            into,
            value,
            self.spot.next,
        )
    }

    // A value is put into a target, as the last node of a statement.
    fn put_into(
        self,
        code: &mut Code,
        into: &BoundTarget,
        value: NodeExpr,
    ) -> Result<(), AllocError>
        ensures { OnOk result (Puts (uncounted (put_kind (home_at self.entry.scene)
            self.entry.spot.around into.now value self.entry.spot.next)
            self.entry.spot.line self.entry.spot.next ∷ []) code.old code.new) }
    {
        let kind = got!(self.put_kind(into, value));
        code.put_uncounted(kind, self.spot.line, self.spot.next)
    }

    // A wait for a change of a fifo, behind which the code goes on there.
    fn put_wait(
        self,
        code: &mut Code,
        change: Change,
        fifo: u32,
        next: u32,
    ) -> Result<(), AllocError>
        ensures { OnOk result (Puts
            (uncounted (wait_kind (events_of self.entry.scene.known.model.now change fifo))
            self.entry.spot.line next ∷ []) code.old code.new) }
    {
        let wait = got!(wait_for(self.alloc, self.scene, change, fifo));
        code.put_uncounted(wait, self.spot.line, next)
    }

    /// A value is put into a target.
    pub(crate) fn put_value(
        self,
        code: &mut Code,
        into: &BoundTarget,
        e: &BoundExpr,
    ) -> Result<(), AllocError>
        ensures { OnOk result (Puts (counted (put_kind (home_at self.entry.scene)
            self.entry.spot.around into.now (lowered self.entry.spot.around e.now)
            self.entry.spot.next) self.entry.spot.line self.entry.spot.next ∷ [])
            code.old code.new) }
    {
        let value = got!(lowered(self.alloc, self.spot.around, e));
        let kind = got!(self.put_kind(into, value));
        code.put_counted(kind, self.spot.line, self.spot.next)
    }

    /// A blocking read: test, wait, take, put (IEEE 1666-2011, 6.23).
    #[tactic(auto, using(crate::proofs::Puts::puts_more))]
    pub(crate) fn put_read(
        self,
        code: &mut Code,
        into: &BoundTarget,
        fifo: u32,
    ) -> Result<(), AllocError>
        ensures { OnOk result
            (Puts (read_nodes (home_at self.entry.scene) self.entry.spot.around into.now fifo
            self.entry.spot.line (length code.old.nodes) self.entry.spot.next)
            code.old code.new) }
    {
        let line = self.spot.line;
        let at = got!(code.at());
        let put_at = got!(behind(at, 3));
        let wait_at = at + 1;
        let take_at = at + 2;
        let slot = channel_slot(self.scene, fifo);
        got!(code.put_counted(NodeKind::TestAvailable(fifo, wait_at), line, take_at));
        got!(self.put_wait(code, Change::Written, fifo, at));
        got!(code.put_uncounted(NodeKind::Take(fifo, slot), line, put_at));
        self.put_into(code, into, NodeExpr::Slot(slot))
    }

    /// A blocking write: its value, test, wait, put (6.23).
    #[tactic(auto, using(crate::proofs::Puts::puts_more))]
    pub(crate) fn put_write(
        self,
        code: &mut Code,
        fifo: u32,
        e: &BoundExpr,
    ) -> Result<(), AllocError>
        ensures { OnOk result (Puts (write_nodes (home_at self.entry.scene)
            self.entry.spot.around fifo e.now self.entry.spot.line (length code.old.nodes)
            self.entry.spot.next) code.old code.new) }
    {
        let line = self.spot.line;
        let at = got!(code.at());
        let put_at = got!(behind(at, 3));
        let test_at = at + 1;
        let wait_at = at + 2;
        let slot = channel_slot(self.scene, fifo);
        let set = got!(self.fifo_value(fifo, e));
        got!(code.put_uncounted(set, line, test_at));
        got!(code.put_counted(NodeKind::TestFree(fifo, wait_at), line, put_at));
        got!(self.put_wait(code, Change::Read, fifo, test_at));
        let put = NodeKind::Put(fifo, NodeExpr::Slot(slot));
        code.put_uncounted(put, line, self.spot.next)
    }

    // The value that is written into a fifo goes to its slot.
    fn fifo_value(self, fifo: u32, e: &BoundExpr) -> Result<NodeKind, AllocError>
        ensures { IfOk result (λ k. k ≡
            fifo_value (home_at self.entry.scene) self.entry.spot.around fifo e.now) }
    {
        let value = got!(lowered(self.alloc, self.spot.around, e));
        let kind = kind_of_channel(self.scene.known.model, fifo);
        let value = got!(converted(self.alloc, kind, value));
        Ok(NodeKind::Set(channel_slot(self.scene, fifo), value))
    }

    // What a call that doesn't block gives.
    fn put_truth(self, code: &mut Code, into: &BoundTarget, is_true: bool) -> Result<(), AllocError>
        ensures { OnOk result (Puts (uncounted (put_kind (home_at self.entry.scene)
            self.entry.spot.around into.now (truth is_true) self.entry.spot.next)
            self.entry.spot.line self.entry.spot.next ∷ []) code.old code.new) }
    {
        self.put_into(code, into, NodeExpr::Constant(Value::Bool(is_true)))
    }

    // The index of a target is evaluated first.
    fn put_aim(self, code: &mut Code, into: &BoundTarget, next: u32) -> Result<(), AllocError>
        ensures { OnOk result
            (Puts (counted (aim_kind (home_at self.entry.scene) self.entry.spot.around into.now)
            self.entry.spot.line next ∷ []) code.old code.new) }
    {
        let aim = got!(aim_kind(self.alloc, self.scene, self.spot.around, into));
        code.put_counted(aim, self.spot.line, next)
    }

    // A value is put into a target whose index was evaluated before.
    fn put_aimed(
        self,
        code: &mut Code,
        into: &BoundTarget,
        value: NodeExpr,
        next: u32,
    ) -> Result<(), AllocError>
        ensures { OnOk result (Puts (uncounted (put_at_kind (home_at self.entry.scene)
            self.entry.spot.around into.now value next)
            self.entry.spot.line next ∷ []) code.old code.new) }
    {
        let put = got!(put_at_kind(self.alloc, self.scene, self.spot.around, into, value, next));
        code.put_uncounted(put, self.spot.line, next)
    }

    /// `nb_read`: the index of what is read into, test, take, put; and what the call gives, either way (6.23).
    #[tactic(auto, using(crate::proofs::Puts::puts_more))]
    pub(crate) fn put_nb_read(
        self,
        code: &mut Code,
        given: &BoundTarget,
        fifo: u32,
        into: &BoundTarget,
    ) -> Result<(), AllocError>
        ensures { OnOk result
            (Puts (nb_read_nodes (home_at self.entry.scene) self.entry.spot.around given.now fifo
            into.now self.entry.spot.line (length code.old.nodes) self.entry.spot.next)
            code.old code.new) }
    {
        let line = self.spot.line;
        let at = got!(code.at());
        let false_at = got!(behind(at, 5));
        let test_at = at + 1;
        let take_at = at + 2;
        let put_at = at + 3;
        let true_at = at + 4;
        let slot = channel_slot(self.scene, fifo);
        got!(self.put_aim(code, into, test_at));
        got!(code.put_uncounted(NodeKind::TestAvailable(fifo, false_at), line, take_at));
        got!(code.put_uncounted(NodeKind::Take(fifo, slot), line, put_at));
        got!(self.put_aimed(code, into, NodeExpr::Slot(slot), true_at));
        got!(self.put_truth(code, given, true));
        self.put_truth(code, given, false)
    }

    /// `nb_write`: its value, test, put; and what the call gives, either way (6.23).
    #[tactic(auto, using(crate::proofs::Puts::puts_more))]
    pub(crate) fn put_nb_write(
        self,
        code: &mut Code,
        given: &BoundTarget,
        fifo: u32,
        e: &BoundExpr,
    ) -> Result<(), AllocError>
        ensures { OnOk result
            (Puts (nb_write_nodes (home_at self.entry.scene) self.entry.spot.around given.now fifo
            e.now self.entry.spot.line (length code.old.nodes) self.entry.spot.next)
            code.old code.new) }
    {
        let line = self.spot.line;
        let at = got!(code.at());
        let false_at = got!(behind(at, 4));
        let test_at = at + 1;
        let put_at = at + 2;
        let true_at = at + 3;
        let slot = channel_slot(self.scene, fifo);
        let set = got!(self.fifo_value(fifo, e));
        got!(code.put_counted(set, line, test_at));
        got!(code.put_uncounted(NodeKind::TestFree(fifo, false_at), line, put_at));
        let put = NodeKind::Put(fifo, NodeExpr::Slot(slot));
        got!(code.put_uncounted(put, line, true_at));
        got!(self.put_truth(code, given, true));
        self.put_truth(code, given, false)
    }

    // `a op= b` of an element: the value of b and the index are evaluated first, each into its slot.
    #[tactic(auto, using(crate::proofs::Puts::puts_more))]
    fn put_element_update(
        self,
        code: &mut Code,
        variable: u32,
        index: &BoundExpr,
        op: Op,
        e: &BoundExpr,
    ) -> Result<(), AllocError>
        ensures { OnOk result
            (Puts (element_update_nodes (home_at self.entry.scene) self.entry.spot.around variable
            index.now op e.now self.entry.spot.line (length code.old.nodes) self.entry.spot.next)
            code.old code.new) }
    {
        let model = self.scene.known.model;
        let at = got!(code.at());
        let store_at = got!(behind(at, 2));
        let index_at = at + 1;
        let value_slot = value_slot(kind_in(model, e));
        let index_slot = index_slot(kind_in(model, index));
        let value = got!(lowered(self.alloc, self.spot.around, e));
        got!(code.put_counted(NodeKind::Set(value_slot, value), self.spot.line, index_at));
        let index = got!(lowered(self.alloc, self.spot.around, index));
        got!(code.put_uncounted(NodeKind::Set(index_slot, index), self.spot.line, store_at));
        let value = got!(updated_element(self.alloc, op, variable, index_slot, value_slot));
        let index = NodeExpr::Slot(index_slot);
        let store = got!(store_kind(self.alloc, self.scene, variable, Some(index), value));
        code.put_uncounted(store, self.spot.line, self.spot.next)
    }

    // The operator between what stands in a target without an index and a value.
    fn updated(self, into: &BoundTarget, op: Op, e: &BoundExpr) -> Result<NodeExpr, AllocError>
        ensures { IfOk result (λ x. x ≡ updated_expr self.entry.spot.around into.now op e.now) }
    {
        let current = got!(current_expr(self.spot.around, into));
        let current = got!(Boxed::new(self.alloc, current));
        let value = keeping!(current; lowered(self.alloc, self.spot.around, e));
        let value = keeping!(current; Boxed::new(self.alloc, value));
        Ok(NodeExpr::Binary(op, current, value))
    }

    /// `a op= b`
    pub(crate) fn put_update(
        self,
        code: &mut Code,
        into: &BoundTarget,
        op: Op,
        e: &BoundExpr,
    ) -> Result<(), AllocError>
        ensures { OnOk result
            (Puts (update_nodes (home_at self.entry.scene) self.entry.spot.around into.now op e.now
            self.entry.spot.line (length code.old.nodes) self.entry.spot.next)
            code.old code.new) }
    {
        match into {
            BoundTarget::Element(variable, index) => {
                self.put_element_update(code, *variable, index, op, e)
            }
            _ => {
                let value = got!(self.updated(into, op, e));
                let kind = got!(self.put_kind(into, value));
                code.put_counted(kind, self.spot.line, self.spot.next)
            }
        }
    }

    /// The items of a print, one after the other.
    pub(crate) fn put_items(self, code: &mut Code, items: &[BoundItem]) -> Result<(), AllocError>
        ensures { OnOk result (Puts (item_nodes self.entry.spot.around items.now
            self.entry.spot.line (length code.old.nodes) self.entry.spot.next)
            code.old code.new) }
    {
        let mut left = items.len();
        'parts: for item in items {
            left -= 1;
            let after = got!(code.after());
            let to = begins(left as u64, after, self.spot.next);
            let kind = got!(item_kind(self.alloc, self.spot.around, item));
            got!(code.put_uncounted(kind, self.spot.line, to));
        }
        Ok(())
    }
}

// The operator between an element, whose index stands in its slot, and the value that stands in its slot.
fn updated_element(
    alloc: Global,
    op: Op,
    variable: u32,
    index: u32,
    value: u32,
) -> Result<NodeExpr, AllocError>
    ensures { IfOk result (λ e. e ≡ updated_element op variable index value) }
{
    let index = got!(Boxed::new(alloc, NodeExpr::Slot(index)));
    let element = got!(Boxed::new(alloc, NodeExpr::Element(variable, index)));
    let value = keeping!(element; Boxed::new(alloc, NodeExpr::Slot(value)));
    Ok(NodeExpr::Binary(op, element, value))
}

/// Where that begins which has so many nodes from a place on.
pub(crate) fn begins(size: u64, at: u32, next: u32) -> u32
    ensures { result ≡ begins size at next }
{
    if size == 0 { next } else { at }
}
