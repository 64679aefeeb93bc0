use crate::denotation::Resolved;
use crate::expr::CheckedExpr;
use crate::stat::{CheckedEvent, CheckedStat, CheckedTime};
use ooo_lexer::Position;
use ooo_syntax::{ChannelWord, PortWord, ResultForm, Text, TypeName, Word};
use sqlite_items::Items;

/// An argument of a channel, an instance or an initialiser.
#[derive(Drop)]
pub enum CheckedArg {
    Text(Text),
    Time(CheckedTime),
    Value(CheckedExpr),
}

/// `const int a = e ;` of a file, a module or `sc_main`.
#[derive(Drop)]
pub struct CheckedConstant {
    pub is_static: bool,
    pub form: TypeName,
    pub name: Resolved,
    pub value: CheckedExpr,
}

/// What stands behind a field's name.
#[derive(Drop)]
pub enum CheckedFieldForm {
    Plain,
    /// `[ e ]`
    Length(CheckedExpr),
    /// `= e`
    Value(CheckedExpr),
}

/// A variable of a module.
#[derive(Drop)]
pub struct CheckedField {
    pub name: Resolved,
    pub form: CheckedFieldForm,
}

/// `int a , b [ 3 ] ;`
#[derive(Drop)]
pub struct CheckedFields {
    pub is_const: bool,
    pub form: TypeName,
    pub fields: Items<CheckedField>,
}

/// `sc_in < int > a , b ;`
#[derive(Drop)]
pub struct CheckedPorts {
    pub port: PortWord,
    pub form: TypeName,
    pub names: Items<Resolved>,
}

/// A channel or a child, and its arguments in braces.
#[derive(Drop)]
pub struct CheckedPart {
    pub name: Resolved,
    pub args: Option<Items<CheckedArg>>,
}

/// `sc_fifo < int > a , b { 4 } ;`
#[derive(Drop)]
pub struct CheckedChannels {
    pub channel: ChannelWord,
    pub form: TypeName,
    pub parts: Items<CheckedPart>,
}

/// `Child a , b { "b" } ;`
#[derive(Drop)]
pub struct CheckedChildren {
    pub module_name: Resolved,
    pub parts: Items<CheckedPart>,
}

/// A parameter.
#[derive(Drop)]
pub struct CheckedParam {
    pub form: TypeName,
    pub name: Resolved,
}

/// A function of a module.
#[derive(Drop)]
pub struct CheckedFunction {
    pub result: ResultForm,
    pub name: Resolved,
    pub params: Items<CheckedParam>,
    pub body: Items<CheckedStat>,
}

/// A member that a constructor initialises, or `sc_module`, which denotes nothing.
#[derive(Drop)]
pub struct CheckedInit {
    pub name: Resolved,
    pub args: Items<CheckedArg>,
}

/// `p . x ( y ) ;`, or `p . x . bind ( y ) ;`
#[derive(Drop)]
pub struct CheckedBinding {
    pub instance: Resolved,
    /// The port, as a member of the instance's module.
    pub port: Resolved,
    pub is_by_bind: bool,
    pub channel: Resolved,
}

/// A statement of a constructor. A position is that of the first token.
#[derive(Drop)]
pub enum CheckedSetup {
    Thread(Position, Resolved),
    Method(Position, Resolved),
    Sensitive(Position, Items<CheckedEvent>),
    DontInitialize(Position),
    Bind(CheckedBinding),
    Set(Resolved, CheckedExpr),
}

/// A constructor.
#[derive(Drop)]
pub enum CheckedConstructor {
    /// `SC_CTOR ( M )`, with initialisers if a `:` follows
    Named(Word, Items<CheckedInit>, Items<CheckedSetup>),
    /// `M ( sc_module_name n , int a ) : m ( n )`
    Written(Word, Resolved, Items<CheckedParam>, Items<CheckedInit>, Items<CheckedSetup>),
}

/// A member of a module.
#[derive(Drop)]
pub enum CheckedMember {
    /// `public :`
    Public,
    Constant(CheckedConstant),
    /// `SC_HAS_PROCESS ( M ) ;`
    HasProcess(Word),
    Fields(CheckedFields),
    Ports(CheckedPorts),
    /// `sc_in_clk a , b ;`
    Clocks(Items<Resolved>),
    Channels(CheckedChannels),
    /// `sc_event a , b ;`
    Events(Items<Resolved>),
    Children(CheckedChildren),
    Function(CheckedFunction),
    Constructor(CheckedConstructor),
}

/// A module.
#[derive(Drop)]
pub struct CheckedModule {
    pub name: Resolved,
    pub members: Items<CheckedMember>,
}
