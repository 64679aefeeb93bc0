//! Bound models made by hand.
//!
//! What is made is handed on as the `Result` that it is. Where a test itself answered that memory ran out, each `?` would let
//! go all that was made before it, which is dear to prove.

use crate::nodes::lines;
use ooo_bound::{
    Bound, BoundExpr, BoundFunction, BoundProcess, BoundRight, BoundSimple, BoundStat, BoundTarget,
    LinedSimple,
};
use ooo_code::Design;
use ooo_lower::{LowerError, lower};
use ooo_value::{
    BoundChannel, BoundEvent, BoundVariable, ChannelKind, Kind, Names, Op, ProcessKind, Value,
};
use sqlite_items::{Boxed, Items};
use std::alloc::{AllocError, Global};
use std::test::Fail;

/// What was made, unless memory ran out.
pub(crate) type Made<T> = Result<T, AllocError>;

// Variable 0 is an int, and variable 1 an array of four long long.
static VARIABLES: [BoundVariable; 2] = [
    BoundVariable {
        kind: Kind::Int,
        length: 1,
        start: Value::Int(0),
    },
    BoundVariable {
        kind: Kind::Long,
        length: 4,
        start: Value::Long(0),
    },
];

// Channel 0 is a fifo of one long long, and channel 1 a signal of bool.
static CHANNELS: [BoundChannel; 2] = [
    BoundChannel {
        kind: ChannelKind::Fifo,
        value: Kind::Long,
        size: 1,
    },
    BoundChannel {
        kind: ChannelKind::Signal,
        value: Kind::Bool,
        size: 0,
    },
];

// Event 0 is one of its own, events 1 and 2 are those of the fifo, and events 3 to 5 those of the signal.
static EVENTS: [BoundEvent; 6] = [
    BoundEvent::Own,
    BoundEvent::Written(0),
    BoundEvent::Taken(0),
    BoundEvent::Changed(1),
    BoundEvent::Rise(1),
    BoundEvent::Fall(1),
];

/// A model of these processes and functions.
pub(crate) fn model(
    alloc: Global,
    processes: Made<Items<BoundProcess>>,
    functions: Made<Items<BoundFunction>>,
) -> Made<Bound> {
    let variables = Items::from_slice(alloc, &VARIABLES);
    let channels = Items::from_slice(alloc, &CHANNELS);
    let events = Items::from_slice(alloc, &EVENTS);
    match (processes, functions, variables, channels, events) {
        (Ok(processes), Ok(functions), Ok(variables), Ok(channels), Ok(events)) => Ok(Bound {
            processes,
            functions,
            variables,
            channels,
            events,
            stop: None,
            names: Names {
                processes: Items::new(alloc),
                channels: Items::new(alloc),
            },
        }),
        _ => Err(AllocError),
    }
}

/// A thread that starts at initialization, and that event 0 is static for.
pub(crate) fn thread(alloc: Global, body: Made<Items<BoundStat>>) -> Made<BoundProcess> {
    process(alloc, ProcessKind::Thread, true, body)
}

/// A process that event 0 is static for.
pub(crate) fn process(
    alloc: Global,
    kind: ProcessKind,
    initialize: bool,
    body: Made<Items<BoundStat>>,
) -> Made<BoundProcess> {
    match (body, Items::from_slice(alloc, &[0])) {
        (Ok(body), Ok(sensitive)) => Ok(BoundProcess {
            kind,
            body,
            sensitive,
            initialize,
        }),
        _ => Err(AllocError),
    }
}

/// The processes, and one more.
pub(crate) fn with_process(
    processes: Made<Items<BoundProcess>>,
    more: Made<BoundProcess>,
) -> Made<Items<BoundProcess>> {
    match (processes, more) {
        (Ok(mut processes), Ok(more)) => {
            processes.push(more)?;
            Ok(processes)
        }
        _ => Err(AllocError),
    }
}

/// The functions, and one more.
pub(crate) fn with_function(
    functions: Made<Items<BoundFunction>>,
    more: Made<BoundFunction>,
) -> Made<Items<BoundFunction>> {
    match (functions, more) {
        (Ok(mut functions), Ok(more)) => {
            functions.push(more)?;
            Ok(functions)
        }
        _ => Err(AllocError),
    }
}

/// No functions.
pub(crate) fn no_functions(alloc: Global) -> Made<Items<BoundFunction>> {
    Ok(Items::new(alloc))
}

// The lines of a design, or the error that stands in its place.
fn written(alloc: Global, design: Result<Design, LowerError>) -> Result<Vec<u8>, AllocError> {
    match design {
        Ok(design) => {
            let text = lines(alloc, &design);
            drop(design);
            text
        }
        Err(LowerError::CodeTooLarge) => Vec::from_slice(alloc, b"CodeTooLarge"),
        Err(LowerError::OutOfMemory) => Err(AllocError),
    }
}

/// The lines of what a model of these processes and functions is lowered to, or the error.
pub(crate) fn told(
    alloc: Global,
    processes: Made<Items<BoundProcess>>,
    functions: Made<Items<BoundFunction>>,
) -> Result<Vec<u8>, Fail> {
    let model = model(alloc, processes, functions)?;
    let design = lower(alloc, &model);
    drop(model);
    Ok(written(alloc, design)?)
}

/// The lines of a model of one thread and some functions.
pub(crate) fn told_thread(
    alloc: Global,
    body: Made<Items<BoundStat>>,
    functions: Made<Items<BoundFunction>>,
) -> Result<Vec<u8>, Fail> {
    told_process(alloc, thread(alloc, body), functions)
}

/// The lines of a model of one process and some functions.
pub(crate) fn told_process(
    alloc: Global,
    process: Made<BoundProcess>,
    functions: Made<Items<BoundFunction>>,
) -> Result<Vec<u8>, Fail> {
    told(
        alloc,
        with_process(Ok(Items::new(alloc)), process),
        functions,
    )
}

// ---- expressions

/// A constant of kind int.
pub(crate) fn int(n: i32) -> BoundExpr {
    BoundExpr::Constant(Value::Int(n))
}

/// The local of kind int in this slot.
pub(crate) fn local(n: u32) -> BoundExpr {
    BoundExpr::Local(Kind::Int, n)
}

/// A value in a box.
pub(crate) fn boxed(alloc: Global, e: BoundExpr) -> Made<Boxed<BoundExpr>> {
    Boxed::new(alloc, e)
}

/// An operator on two values.
pub(crate) fn binary(alloc: Global, op: Op, a: BoundExpr, b: BoundExpr) -> Made<BoundExpr> {
    match (boxed(alloc, a), boxed(alloc, b)) {
        (Ok(a), Ok(b)) => Ok(BoundExpr::Binary(op, a, b)),
        _ => Err(AllocError),
    }
}

// ---- statements

/// A body without statements.
pub(crate) fn empty(alloc: Global) -> Made<Items<BoundStat>> {
    Ok(Items::new(alloc))
}

/// A body and one more statement.
pub(crate) fn with(body: Made<Items<BoundStat>>, more: Made<BoundStat>) -> Made<Items<BoundStat>> {
    match (body, more) {
        (Ok(mut body), Ok(more)) => {
            body.push(more)?;
            Ok(body)
        }
        _ => Err(AllocError),
    }
}

/// A statement in a box.
pub(crate) fn inner(alloc: Global, stat: Made<BoundStat>) -> Made<Boxed<BoundStat>> {
    Boxed::new(alloc, stat?)
}

/// A statement without statements in it.
pub(crate) fn simple(alloc: Global, line: u32, simple: BoundSimple) -> Made<BoundStat> {
    let lined = Boxed::new(alloc, LinedSimple { line, simple })?;
    Ok(BoundStat::Simple(lined))
}

/// What is right of the sign is put into the target.
pub(crate) fn gives(
    alloc: Global,
    line: u32,
    target: BoundTarget,
    right: BoundRight,
) -> Made<BoundStat> {
    simple(alloc, line, BoundSimple::Assign(target, right))
}

/// A value is put into the target.
pub(crate) fn set(
    alloc: Global,
    line: u32,
    target: BoundTarget,
    value: BoundExpr,
) -> Made<BoundStat> {
    gives(alloc, line, target, BoundRight::Value(value))
}

/// Variable 0 gets a constant.
pub(crate) fn store(alloc: Global, line: u32, n: i32) -> Made<BoundStat> {
    set(alloc, line, BoundTarget::Variable(0), int(n))
}

/// A `return` of a value.
pub(crate) fn returns(alloc: Global, line: u32, value: BoundExpr) -> Made<BoundStat> {
    let value = boxed(alloc, value)?;
    Ok(BoundStat::Return(line, Some(value)))
}

/// What runs only where a value isn't 0.
pub(crate) fn only_if(
    alloc: Global,
    line: u32,
    test: BoundExpr,
    yes: Made<BoundStat>,
) -> Made<BoundStat> {
    match (boxed(alloc, test), inner(alloc, yes)) {
        (Ok(test), Ok(yes)) => Ok(BoundStat::If(line, test, yes, None)),
        _ => Err(AllocError),
    }
}

/// Two statements in braces.
pub(crate) fn pair(alloc: Global, a: Made<BoundStat>, b: Made<BoundStat>) -> Made<BoundStat> {
    let parts = with(with(empty(alloc), a), b)?;
    Ok(BoundStat::Block(parts))
}

/// Braces with nothing in them.
pub(crate) fn nothing(alloc: Global) -> Made<BoundStat> {
    Ok(BoundStat::Block(Items::new(alloc)))
}
