//! The words and signs of the grammar, the trees of its texts, and why a text is refused.
//!
//! `specs/Words.antt` has the table of the words and signs, `specs/Breaches.antt` the names of what is wrong with a
//! text. A tree is what was written: it has one variant for each alternative of the grammar, and the position of
//! whatever a refusal or a line of a report can name.
#![tactic(auto)]

mod error;
mod expr;
mod leaves;
mod module;
mod stat;
mod symbol;
mod table;
mod terminal;
mod unit;
mod words;

pub use error::{ParseBreach, ParseError};
pub use expr::{BinaryOp, Expr, PrefixOp};
pub use leaves::{Number, Text, TypeForm, TypeName, Word};
pub use module::{
    Arg, Binding, ChannelWord, Channels, Children, Constant, Constructor, Field, FieldForm, Fields,
    Function, Init, Member, Module, Param, Part, PortWord, Ports, ResultForm, Setup,
};
pub use stat::{
    AssignOp, Awaited, Declarator, Event, ForStart, Local, PrintItem, Simple, Stat, StepOp, Target,
    TimeForm,
};
pub use symbol::{Mark, Symbol};
pub use terminal::Terminal;
pub use unit::{Library, Main, MainChannel, MainItem, MainValues, StartForm, Unit, UnitItem};
pub use words::{is_reserved, terminal_of};
