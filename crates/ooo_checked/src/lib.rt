//! Texts whose names are known: the trees of a text with what each name denotes beside the name and the kind of its
//! value beside each expression, and the definition of what is wrong with names and types.
//!
//! A tree has the variants of the tree of the grammar, and keeps each name and position of it.
#![tactic(auto)]

mod breach;
mod context;
mod denotation;
mod expr;
mod module;
mod place;
mod stat;
mod things;
mod unit;

pub use breach::{Breach, TypeBreach, TypeError};
pub use context::Context;
pub use denotation::{Denotation, Direction, EventForm, EventWord, Method, Resolved, Thing};
pub use expr::CheckedExpr;
pub use module::{
    CheckedArg, CheckedBinding, CheckedChannels, CheckedChildren, CheckedConstant,
    CheckedConstructor, CheckedField, CheckedFieldForm, CheckedFields, CheckedFunction,
    CheckedInit, CheckedMember, CheckedModule, CheckedParam, CheckedPart, CheckedPorts,
    CheckedSetup,
};
pub use place::CallPlace;
pub use stat::{
    CheckedAwaited, CheckedDeclarator, CheckedEvent, CheckedItem, CheckedLocal, CheckedSimple,
    CheckedStart, CheckedStat, CheckedTarget, CheckedTime,
};
pub use unit::{
    CheckedMain, CheckedMainChannel, CheckedMainItem, CheckedMainValues, CheckedStartForm,
    CheckedUnit, CheckedUnitItem,
};
