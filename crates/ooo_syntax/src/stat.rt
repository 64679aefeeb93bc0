use crate::expr::Expr;
use crate::leaves::{Text, TypeName, Word};
use ooo_lexer::Position;
use ooo_time::Scale;
use sqlite_items::{Boxed, Items};

/// A time as it is written.
#[derive(Drop)]
pub enum TimeForm {
    /// `SC_ZERO_TIME`
    Zero(Position),
    /// `sc_time ( e , SC_NS )`, by the position of `sc_time`
    Made(Position, Expr, Scale),
    /// `e , SC_NS`
    Amount(Expr, Scale),
}

/// `a` or `a . f ( )` where an event stands.
#[derive(Drop)]
pub struct Event {
    pub name: Word,
    pub call: Option<Word>,
}

/// What `wait` or `next_trigger` waits for.
#[derive(Drop)]
pub enum Awaited {
    /// Nothing is said: the static events.
    Sensitive,
    /// A time.
    Delay(TimeForm),
    /// A time at most, or one of these events.
    Until(TimeForm, Items<Event>),
    /// One of these events.
    Events(Items<Event>),
}

/// An assignment's sign.
#[derive(Clone, Copy)]
pub enum AssignOp {
    /// `=`
    Set,
    /// `+=`
    Add,
    /// `-=`
    Subtract,
    /// `*=`
    Multiply,
    /// `/=`
    Divide,
    /// `%=`
    Remainder,
    /// `&=`
    And,
    /// `|=`
    Or,
    /// `^=`
    Xor,
    /// `<<=`
    ShiftLeft,
    /// `>>=`
    ShiftRight,
}

/// `++` or `--`
#[derive(Clone, Copy)]
pub enum StepOp {
    Up,
    Down,
}

/// `a` or `a [ i ]` where it is assigned to.
#[derive(Drop)]
pub struct Target {
    pub name: Word,
    pub index: Option<Expr>,
}

/// A local's name, and its initial value.
#[derive(Drop)]
pub struct Declarator {
    pub name: Word,
    pub value: Option<Expr>,
}

/// `int a = e , b`
#[derive(Drop)]
pub struct Local {
    pub form: TypeName,
    pub names: Items<Declarator>,
}

/// What a print writes.
#[derive(Drop)]
pub enum PrintItem {
    Value(Expr),
    Text(Text),
    /// `endl`
    Line(Position),
    /// `sc_time_stamp ( )`
    TimeStamp(Position),
}

/// A statement without its `;`. A position is that of the first token, or of the word after the dot.
#[derive(Drop)]
pub enum Simple {
    Assign(Target, AssignOp, Expr),
    /// `a ++`
    StepAfter(Target, StepOp),
    /// `++ a`
    StepBefore(Position, StepOp, Target),
    Call(Word, Items<Expr>),
    Member(Word, Word, Option<Expr>),
    Notify(Word, Position, TimeForm),
    Cancel(Word, Position),
    Wait(Position, Awaited),
    NextTrigger(Position, Awaited),
    Stop(Position),
    Print(Position, Items<PrintItem>),
}

/// What a `for` begins with.
#[derive(Drop)]
pub enum ForStart {
    Local(Local),
    Simple(Simple),
}

/// A statement. A position is that of the first token.
#[derive(Drop)]
pub enum Stat {
    Simple(Boxed<Simple>),
    For(Position, Option<Boxed<ForStart>>, Option<Boxed<Expr>>, Option<Boxed<Simple>>, Boxed<Stat>),
    If(Position, Boxed<Expr>, Boxed<Stat>, Option<Boxed<Stat>>),
    While(Position, Boxed<Expr>, Boxed<Stat>),
    Do(Position, Boxed<Stat>, Boxed<Expr>),
    Block(Position, Items<Stat>),
    Local(Boxed<Local>),
    Return(Position, Option<Boxed<Expr>>),
    Empty(Position),
    Break(Position),
    Continue(Position),
}
