use ooo_time::{Scale, Time};
use ooo_value::{Kind, Op, Value};
use sqlite_items::{Boxed, Items};

/// An expression. Numbers are those of slots, variables and channels; parentheses are gone.
#[derive(Drop)]
pub enum BoundExpr {
    Constant(Value),
    /// The value of a parameter or a local of this kind, by its slot.
    Local(Kind, u32),
    /// The value of a variable of one value.
    Variable(u32),
    /// The element of an array variable at an index.
    Element(u32, Boxed<BoundExpr>),
    /// The value of a signal (IEEE 1666-2011, 6.4).
    Signal(u32),
    /// Whether a signal changed in the delta cycle before: `event()`.
    Changed(u32),
    /// Whether a signal of bool changed to this value in the delta cycle before: `posedge()` and `negedge()` (6.5).
    Edge(u32, bool),
    /// `num_available()` of a fifo (6.23).
    Available(u32),
    /// `num_free()` of a fifo (6.23).
    Free(u32),
    /// A cast.
    Convert(Kind, Boxed<BoundExpr>),
    /// `+`: the value in its promoted kind.
    Promote(Boxed<BoundExpr>),
    /// `-`
    Negate(Boxed<BoundExpr>),
    /// `~`
    Invert(Boxed<BoundExpr>),
    /// `!`
    Not(Boxed<BoundExpr>),
    Binary(Op, Boxed<BoundExpr>, Boxed<BoundExpr>),
    /// `&&`
    Both(Boxed<BoundExpr>, Boxed<BoundExpr>),
    /// `||`
    Either(Boxed<BoundExpr>, Boxed<BoundExpr>),
    /// `? :`, with the kind in which both branches meet.
    Choose(Kind, Boxed<BoundExpr>, Boxed<BoundExpr>, Boxed<BoundExpr>),
}

/// A time.
#[derive(Drop)]
pub enum BoundTime {
    /// A time that is known before the simulation.
    Fixed(Time),
    /// A value of this unit.
    Amount(BoundExpr, Scale),
}

/// What `wait` or `next_trigger` waits for: a time, events, or both (IEEE 1666-2011, 5.2.17 and 5.2.18).
#[derive(Drop)]
pub struct BoundWait {
    pub time: Option<BoundTime>,
    /// The numbers of the events.
    pub events: Items<u32>,
    /// Whether the events are the process's static ones, as of `wait()` and `next_trigger()`; `events` is empty then.
    pub is_static: bool,
}
