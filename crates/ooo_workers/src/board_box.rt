ghost use Rattle.std.specs.Prelude.{◌≡◌, IfOk};

use ooo_board::Board;
use std::alloc::{AllocError, Global};
use std::marker::Model;

/// A board on the heap, so that a slot holds it by one pointer. It is seen as the board.
#[derive(Drop)]
pub struct BoardBox {
    inner: Box<Board>,
}

impl Model for BoardBox {
    ghost use Rattle.ooo_board.specs.Boards.{Shown};
    ghost use Rattle.std.specs.Coded.{codes};
    ghost use Rattle.ooo_code.specs.contracts.expression.NodeExpr as e;

    ghost Value = { Shown };

    ghost coded = { Prim.hlevel (codes, e.the_row.coded) };

    ghost view = { λ b. b.inner.value };
}

impl BoardBox {
    /// Moves a board to the heap.
    ///
    /// # Errors
    ///
    /// Only where memory runs out; the board is then given up.
    pub(crate) fn new(alloc: Global, board: Board) -> Result<BoardBox, AllocError>
        ensures { IfOk result (λ b. b ≡ board) }
    {
        let inner = Box::new(alloc, board)?;
        Ok(BoardBox { inner })
    }

    /// The board in a box that lies open.
    pub(crate) fn open(self) -> Box<Board>
        ensures { result.value ≡ self }
    {
        let BoardBox { inner } = self;
        inner
    }

    /// The board in an open box, closed.
    pub(crate) fn closed(inner: Box<Board>) -> BoardBox
        ensures { result ≡ inner.value }
    {
        BoardBox { inner }
    }
}
