use crate::expr::Expr;
use crate::leaves::{Text, TypeName, Word};
use crate::stat::{Event, Stat, TimeForm};
use ooo_lexer::Position;
use sqlite_items::{Boxed, Items};

/// An argument of a channel, an instance or an initialiser.
#[derive(Drop)]
pub enum Arg {
    Text(Text),
    Time(Boxed<TimeForm>),
    Value(Boxed<Expr>),
}

/// `const int a = e ;` of a file, a module or `sc_main`.
#[derive(Drop)]
pub struct Constant {
    pub is_static: bool,
    pub form: TypeName,
    pub name: Word,
    pub value: Boxed<Expr>,
}

/// What stands behind a field's name.
#[derive(Drop)]
pub enum FieldForm {
    Plain,
    /// `[ e ]`
    Length(Boxed<Expr>),
    /// `= e`
    Value(Boxed<Expr>),
}

/// A variable of a module.
#[derive(Drop)]
pub struct Field {
    pub name: Word,
    pub form: FieldForm,
}

/// `int a , b [ 3 ] ;`
#[derive(Drop)]
pub struct Fields {
    pub is_const: bool,
    pub form: TypeName,
    pub fields: Items<Field>,
}

/// Which port it is.
#[derive(Clone, Copy)]
pub enum PortWord {
    /// `sc_in`
    In,
    /// `sc_out`
    Out,
    /// `sc_inout`
    Inout,
    /// `sc_fifo_in`
    FifoIn,
    /// `sc_fifo_out`
    FifoOut,
}

/// `sc_in < int > a , b ;`
#[derive(Drop)]
pub struct Ports {
    pub port: PortWord,
    pub form: TypeName,
    pub names: Items<Word>,
}

/// Which channel it is.
#[derive(Clone, Copy)]
pub enum ChannelWord {
    /// `sc_signal`
    Signal,
    /// `sc_fifo`
    Fifo,
}

/// A channel or a child, and its arguments in braces.
#[derive(Drop)]
pub struct Part {
    pub name: Word,
    pub args: Option<Items<Arg>>,
}

/// `sc_fifo < int > a , b { 4 } ;`
#[derive(Drop)]
pub struct Channels {
    pub channel: ChannelWord,
    pub form: TypeName,
    pub parts: Items<Part>,
}

/// `Child a , b { "b" } ;`
#[derive(Drop)]
pub struct Children {
    pub module_name: Word,
    pub parts: Items<Part>,
}

/// A parameter.
#[derive(Drop)]
pub struct Param {
    pub form: TypeName,
    pub name: Word,
}

/// What a function gives.
#[derive(Clone, Copy)]
pub enum ResultForm {
    /// `void`
    Nothing,
    Value(TypeName),
}

/// A function of a module.
#[derive(Drop)]
pub struct Function {
    pub result: ResultForm,
    pub name: Word,
    pub params: Items<Param>,
    pub body: Items<Stat>,
}

/// A member that a constructor initialises.
#[derive(Drop)]
pub struct Init {
    pub name: Word,
    pub args: Items<Arg>,
}

/// `p . x ( y ) ;`, or `p . x . bind ( y ) ;`
#[derive(Drop)]
pub struct Binding {
    pub instance: Word,
    pub port: Word,
    pub is_by_bind: bool,
    pub channel: Word,
}

/// A statement of a constructor. A position is that of the first token.
#[derive(Drop)]
pub enum Setup {
    Thread(Position, Word),
    Method(Position, Word),
    Sensitive(Position, Items<Event>),
    DontInitialize(Position),
    Bind(Binding),
    Set(Word, Boxed<Expr>),
}

/// A constructor.
#[derive(Drop)]
pub enum Constructor {
    /// `SC_CTOR ( M )`, with initialisers if a `:` follows
    Named(Word, Items<Init>, Items<Setup>),
    /// `M ( sc_module_name n , int a ) : m ( n )`
    Written(Word, Word, Items<Param>, Items<Init>, Items<Setup>),
}

/// A member of a module.
#[derive(Drop)]
pub enum Member {
    /// `public :`
    Public,
    Constant(Constant),
    /// `SC_HAS_PROCESS ( M ) ;`
    HasProcess(Word),
    Fields(Fields),
    Ports(Ports),
    /// `sc_in_clk a , b ;`
    Clocks(Items<Word>),
    Channels(Channels),
    /// `sc_event a , b ;`
    Events(Items<Word>),
    Children(Children),
    Function(Function),
    Constructor(Constructor),
}

/// A module.
#[derive(Drop)]
pub struct Module {
    pub name: Word,
    pub members: Items<Member>,
}
