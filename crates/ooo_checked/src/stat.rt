use crate::denotation::{EventForm, Method, Resolved};
use crate::expr::CheckedExpr;
use ooo_lexer::Position;
use ooo_syntax::{AssignOp, StepOp, Text, TypeName, Word};
use ooo_time::Scale;
use sqlite_items::{Boxed, Items};

/// A time.
#[derive(Drop)]
pub enum CheckedTime {
    /// `SC_ZERO_TIME`
    Zero(Position),
    /// `sc_time ( e , SC_NS )`, by the position of `sc_time`
    Made(Position, CheckedExpr, Scale),
    /// `e , SC_NS`
    Amount(CheckedExpr, Scale),
}

/// `a` or `a . f ( )` where an event stands, with the event that is meant.
#[derive(Drop)]
pub struct CheckedEvent {
    pub name: Resolved,
    pub call: Option<Word>,
    pub form: EventForm,
}

/// What `wait` or `next_trigger` waits for.
#[derive(Drop)]
pub enum CheckedAwaited {
    /// Nothing is said: the static events.
    Sensitive,
    /// A time.
    Delay(CheckedTime),
    /// A time at most, or one of these events.
    Until(CheckedTime, Items<CheckedEvent>),
    /// One of these events.
    Events(Items<CheckedEvent>),
}

/// `a` or `a [ i ]` where it is assigned to.
#[derive(Drop)]
pub struct CheckedTarget {
    pub name: Resolved,
    pub index: Option<CheckedExpr>,
}

/// A local's name, and its initial value.
#[derive(Drop)]
pub struct CheckedDeclarator {
    pub name: Resolved,
    pub value: Option<CheckedExpr>,
}

/// `int a = e , b`
#[derive(Drop)]
pub struct CheckedLocal {
    pub form: TypeName,
    pub names: Items<CheckedDeclarator>,
}

/// What a print writes.
#[derive(Drop)]
pub enum CheckedItem {
    Value(CheckedExpr),
    Text(Text),
    /// `endl`
    Line(Position),
    /// `sc_time_stamp ( )`
    TimeStamp(Position),
}

/// A statement without its `;`. A position is that of the first token, or of the word after the dot.
#[derive(Drop)]
pub enum CheckedSimple {
    Assign(CheckedTarget, AssignOp, CheckedExpr),
    /// `a ++`
    StepAfter(CheckedTarget, StepOp),
    /// `++ a`
    StepBefore(Position, StepOp, CheckedTarget),
    Call(Resolved, Items<CheckedExpr>),
    Member(Resolved, Word, Method, Option<CheckedExpr>),
    Notify(Resolved, Position, CheckedTime),
    Cancel(Resolved, Position),
    Wait(Position, CheckedAwaited),
    NextTrigger(Position, CheckedAwaited),
    Stop(Position),
    Print(Position, Items<CheckedItem>),
}

/// What a `for` begins with.
#[derive(Drop)]
pub enum CheckedStart {
    Local(CheckedLocal),
    Simple(CheckedSimple),
}

/// A statement. A position is that of the first token.
#[derive(Drop)]
pub enum CheckedStat {
    Simple(Boxed<CheckedSimple>),
    For(
        Position,
        Option<Boxed<CheckedStart>>,
        Option<Boxed<CheckedExpr>>,
        Option<Boxed<CheckedSimple>>,
        Boxed<CheckedStat>,
    ),
    If(Position, Boxed<CheckedExpr>, Boxed<CheckedStat>, Option<Boxed<CheckedStat>>),
    While(Position, Boxed<CheckedExpr>, Boxed<CheckedStat>),
    Do(Position, Boxed<CheckedStat>, Boxed<CheckedExpr>),
    Block(Position, Items<CheckedStat>),
    Local(Boxed<CheckedLocal>),
    Return(Position, Option<Boxed<CheckedExpr>>),
    Empty(Position),
    Break(Position),
    Continue(Position),
}
