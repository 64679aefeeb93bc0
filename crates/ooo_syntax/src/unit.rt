use crate::leaves::{Number, Text, TypeName, Word};
use crate::module::{Arg, Binding, ChannelWord, Constant, Module};
use crate::stat::TimeForm;
use ooo_lexer::Position;
use sqlite_items::{Boxed, Items};

/// A namespace that a text uses.
#[derive(Clone, Copy)]
pub enum Library {
    /// `sc_core`
    ScCore,
    /// `sc_dt`
    ScDt,
    /// `std`
    Std,
}

/// A declaration of a file.
#[derive(Drop)]
pub enum UnitItem {
    Using(Library),
    Constant(Constant),
    Module(Module),
}

/// `sc_fifo < int > a ( 4 ) ;`
#[derive(Drop)]
pub struct MainChannel {
    pub channel: ChannelWord,
    pub form: TypeName,
    pub name: Word,
    pub args: Option<Items<Arg>>,
}

/// A declaration or a binding of `sc_main`.
#[derive(Drop)]
pub enum MainItem {
    Constant(Constant),
    Channel(MainChannel),
    /// `sc_clock c ( "c" , 10 , SC_NS ) ;`
    Clock(Position, Word, Text, Boxed<TimeForm>),
    /// `M a ( "a" ) ;`
    Instance(Word, Word, Items<Arg>),
    Bind(Binding),
}

/// How `sc_main`'s second parameter is written.
#[derive(Drop)]
pub enum MainValues {
    /// `char * a [ ]`
    Array(Option<Word>),
    /// `char * * a`
    Pointer(Option<Word>),
}

/// What `sc_start` is given.
#[derive(Drop)]
pub enum StartForm {
    /// `sc_start ( )`
    Open(Position),
    /// `sc_start ( 1 , SC_SEC )`
    Limited(Position, Boxed<TimeForm>),
}

/// `sc_main`
#[derive(Drop)]
pub struct Main {
    pub count: Option<Word>,
    pub values: MainValues,
    pub items: Items<MainItem>,
    pub start: Option<StartForm>,
    pub returned: Option<Number>,
}

/// A whole text.
#[derive(Drop)]
pub struct Unit {
    pub items: Items<UnitItem>,
    pub main: Main,
}
