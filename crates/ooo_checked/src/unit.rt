use crate::denotation::Resolved;
use crate::module::{CheckedArg, CheckedBinding, CheckedConstant, CheckedModule};
use crate::stat::CheckedTime;
use ooo_lexer::Position;
use ooo_syntax::{ChannelWord, Library, Number, Text, TypeName};
use sqlite_items::Items;

/// A declaration of a file.
#[derive(Drop)]
pub enum CheckedUnitItem {
    Using(Library),
    Constant(CheckedConstant),
    Module(CheckedModule),
}

/// `sc_fifo < int > a ( 4 ) ;`
#[derive(Drop)]
pub struct CheckedMainChannel {
    pub channel: ChannelWord,
    pub form: TypeName,
    pub name: Resolved,
    pub args: Option<Items<CheckedArg>>,
}

/// A declaration or a binding of `sc_main`.
#[derive(Drop)]
pub enum CheckedMainItem {
    Constant(CheckedConstant),
    Channel(CheckedMainChannel),
    /// `sc_clock c ( "c" , 10 , SC_NS ) ;`
    Clock(Position, Resolved, Text, CheckedTime),
    /// `M a ( "a" ) ;`
    Instance(Resolved, Resolved, Items<CheckedArg>),
    Bind(CheckedBinding),
}

/// How `sc_main`'s second parameter is written.
#[derive(Drop)]
pub enum CheckedMainValues {
    /// `char * a [ ]`
    Array(Option<Resolved>),
    /// `char * * a`
    Pointer(Option<Resolved>),
}

/// What `sc_start` is given.
#[derive(Drop)]
pub enum CheckedStartForm {
    /// `sc_start ( )`
    Open(Position),
    /// `sc_start ( 1 , SC_SEC )`
    Limited(Position, CheckedTime),
}

/// `sc_main`
#[derive(Drop)]
pub struct CheckedMain {
    pub count: Option<Resolved>,
    pub values: CheckedMainValues,
    pub items: Items<CheckedMainItem>,
    pub start: Option<CheckedStartForm>,
    pub returned: Option<Number>,
}

/// A whole text, with what each name denotes and the kind of each expression.
#[derive(Drop)]
pub struct CheckedUnit {
    pub items: Items<CheckedUnitItem>,
    pub main: CheckedMain,
}
