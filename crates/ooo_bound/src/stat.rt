use crate::expr::{BoundExpr, BoundTime, BoundWait};
use ooo_value::{Kind, Name, Op};
use sqlite_items::{Boxed, Items};

/// What a value is put into. The value is converted to the kind of the place.
#[derive(Drop)]
pub enum BoundTarget {
    /// Nothing: the value is dropped.
    Nothing,
    /// A parameter or a local of this kind, by its slot.
    Local(Kind, u32),
    /// A variable of one value.
    Variable(u32),
    /// The element of an array variable at an index, which is evaluated after the value.
    Element(u32, BoundExpr),
    /// A signal, of which the value is requested (IEEE 1666-2011, 6.4).
    Signal(u32),
}

/// What gives a value: a whole right side.
#[derive(Drop)]
pub enum BoundRight {
    Value(BoundExpr),
    /// A call of a function, by its number, with its arguments.
    Call(u32, Items<BoundExpr>),
    /// `read()` of a fifo, which waits while none is available (IEEE 1666-2011, 6.23).
    Read(u32),
    /// `nb_read(x)` of a fifo: whether a value was available, which is put into `x` then (6.23).
    NbRead(u32, BoundTarget),
    /// `nb_write(e)` of a fifo: whether a slot was free, into which the value is put then (6.23).
    NbWrite(u32, BoundExpr),
}

/// What a print writes.
#[derive(Drop)]
pub enum BoundItem {
    Value(BoundExpr),
    Text(Name),
    /// `sc_time_stamp()`
    Time,
}

/// A statement without statements in it.
#[derive(Drop)]
pub enum BoundSimple {
    /// A local with its initial value, `=`, `write` of a signal, or a call whose value is dropped.
    Assign(BoundTarget, BoundRight),
    /// `a op= b`, which is `a = a op b` with the value of `b` taken first and the index of `a` evaluated once; `++` and `--`.
    Update(BoundTarget, Op, BoundExpr),
    /// `write(e)` of a fifo, which waits while no slot is free (IEEE 1666-2011, 6.23).
    Write(u32, BoundExpr),
    /// `notify` of an event with a time (5.10.6).
    Notify(u32, BoundTime),
    /// `cancel` of an event (5.10.7).
    Cancel(u32),
    /// `wait` (5.2.18)
    Wait(BoundWait),
    /// `next_trigger` (5.2.17)
    NextTrigger(BoundWait),
    /// `sc_stop()` (4.5.3)
    Stop,
    Print(Items<BoundItem>),
}

/// A statement without statements in it, and the line of its first token.
#[derive(Drop)]
pub struct LinedSimple {
    pub line: u32,
    pub simple: BoundSimple,
}

/// A statement. A number before its parts is the line of its first token.
#[derive(Drop)]
pub enum BoundStat {
    /// The statements one after the other. A declaration of locals is a block of them.
    Block(Items<BoundStat>),
    Simple(Boxed<LinedSimple>),
    If(u32, Boxed<BoundExpr>, Boxed<BoundStat>, Option<Boxed<BoundStat>>),
    While(u32, Boxed<BoundExpr>, Boxed<BoundStat>),
    Do(u32, Boxed<BoundStat>, Boxed<BoundExpr>),
    /// What it begins with, its test, what it does after each turn, and its body.
    For(
        u32,
        Items<LinedSimple>,
        Option<Boxed<BoundExpr>>,
        Option<Boxed<LinedSimple>>,
        Boxed<BoundStat>,
    ),
    Break(u32),
    Continue(u32),
    Return(u32, Option<Boxed<BoundExpr>>),
}
