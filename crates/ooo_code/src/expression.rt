use ooo_value::{Kind, Op, Value};
use sqlite_items::Boxed;

/// An expression in a node. Numbers are those of slots, variables and channels.
#[derive(Drop)]
pub enum NodeExpr {
    Constant(Value),
    /// The value of a local.
    Slot(u32),
    /// The value of a scalar variable.
    Variable(u32),
    /// The element of an array variable at an index.
    Element(u32, Boxed<NodeExpr>),
    /// The value of a signal.
    Signal(u32),
    /// Whether a signal changed in the delta cycle before: `event()`.
    Event(u32),
    /// Whether a signal of bool changed to this value in the delta cycle before: `posedge()` and `negedge()`.
    Edge(u32, bool),
    /// `num_available()` of a fifo.
    Available(u32),
    /// `num_free()` of a fifo.
    Free(u32),
    Convert(Kind, Boxed<NodeExpr>),
    /// `-`
    Negate(Boxed<NodeExpr>),
    /// `~`
    Invert(Boxed<NodeExpr>),
    /// `!`
    Not(Boxed<NodeExpr>),
    Binary(Op, Boxed<NodeExpr>, Boxed<NodeExpr>),
    /// `&&`
    And(Boxed<NodeExpr>, Boxed<NodeExpr>),
    /// `||`
    Or(Boxed<NodeExpr>, Boxed<NodeExpr>),
    /// `? :`
    Choose(Boxed<NodeExpr>, Boxed<NodeExpr>, Boxed<NodeExpr>),
}
