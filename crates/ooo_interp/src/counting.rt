ghost use Rattle.std.specs.Prelude.{◌≡◌, ◌+◌, IsTrue, IsFalse, suc};
ghost use Rattle.ooo_interp.specs.Running.{room_of};

use ooo_code::Node;

/// How much of an activation is left.
#[derive(Clone, Copy)]
pub struct Left {
    /// How many statements may still count.
    pub statements: u32,
    /// How many nodes may be passed up to the next one that counts are this many and `spare`.
    pub room: usize,
    pub spare: u8,
}

impl Left {
    // The nodes that may be passed beyond the count of all nodes: the one that counts, and one more.
    const SPARE: u8 = 2;

    // At the start, and after a statement that counted, of so many nodes.
    pub(crate) fn new(statements: u32, nodes: usize) -> Left
        ensures statements { result.statements ≡ statements }
        ensures room { room_of result ≡ suc (suc nodes) }
    {
        Left {
            statements,
            room: nodes,
            spare: Left::SPARE,
        }
    }

    // Passes a node, where there is room.
    pub(crate) fn pass(&mut self) -> bool
        ensures passed { IsTrue result → room_of self.old ≡ suc (room_of self.new) }
        ensures none { IsFalse result → room_of self.old ≡ 0 }
        ensures statements { self.new.statements ≡ self.old.statements }
    {
        if self.room > 0 {
            self.room -= 1;
            true
        } else if self.spare > 0 {
            self.spare -= 1;
            true
        } else {
            false
        }
    }
    // Counts the statement of a node, if it has one, where one may still count: then as many nodes may be passed again.
    #[inline(always)]
    pub(crate) fn count(&mut self, node: &Node, nodes: usize) -> bool
        ensures same { IsFalse node.now.counts → self.new ≡ self.old }
        ensures counted { IsTrue node.now.counts → IsTrue result →
            self.old.statements ≡ suc self.new.statements }
        ensures room { IsTrue node.now.counts → IsTrue result →
            room_of self.new ≡ suc (suc nodes) }
        ensures none { IsFalse result → self.old.statements ≡ 0 }
        ensures counts { IsFalse result → IsTrue node.now.counts }
        ensures left { IsFalse result → self.new ≡ self.old }
    {
        if !node.counts {
            return true;
        }
        if self.statements == 0 {
            return false;
        }
        *self = Left::new(self.statements - 1, nodes);
        true
    }
}
