ghost use Rattle.std.specs.Prelude.{◌≡◌, IfOk};
ghost use Rattle.ooo_constants.specs.Times.{is_fixed, time_of as constant_time_of};
ghost use Rattle.ooo_constants.specs.Values.{operator_of};
ghost use Rattle.ooo_numbers.specs.Exprs.{amount_of, expr_of, exprs_of, method_of, name_of, nothing, operated};
ghost use Rattle.ooo_numbers.specs.Exprs.{option_of, prefixed, time_in, time_of, wait_of};
ghost use Rattle.ooo_numbers.specs.Names.{events_of, known_in, numbering_of, variable_of};

use crate::names::{channel_of, events, variable_of};
use crate::numbers::Numbers;
use ooo_bound::{BoundExpr, BoundTime, BoundWait};
use ooo_checked::{
    CheckedAwaited, CheckedEvent, CheckedExpr, CheckedTime, Denotation, Method, Thing,
};
use ooo_constants::{Known, constant_at, is_fixed, kind_written, operator};
use ooo_syntax::{BinaryOp, PrefixOp};
use ooo_time::{Scale, Time};
use ooo_value::{Kind, Value, narrow};
use sqlite_items::{Boxed, Items};
use std::alloc::{AllocError, Global};

/// An `int` of 0, for what has no value.
pub(crate) fn nothing() -> BoundExpr
    ensures { result ≡ nothing }
{
    BoundExpr::Constant(Kind::Int.zero())
}

// A name by itself.
fn named(numbers: Numbers<'_>, name: Denotation) -> Result<BoundExpr, AllocError>
    ensures { IfOk result (λ tree. tree ≡ name_of (numbering_of numbers.entry) name) }
{
    match name.thing {
        Thing::FileConstant(kind) => {
            Ok(BoundExpr::Constant(constant_at(numbers.file, kind, name.number)))
        }
        Thing::Fixed(kind, _) => {
            Ok(BoundExpr::Constant(constant_at(numbers.members, kind, name.number)))
        }
        Thing::Variable(_) => Ok(BoundExpr::Variable(variable_of(numbers, name))),
        Thing::Signal(_) | Thing::SignalPort(_, _) => {
            Ok(BoundExpr::Signal(channel_of(numbers, name)))
        }
        Thing::Parameter(kind) | Thing::Local(kind) => {
            Ok(BoundExpr::Local(kind, narrow(name.number)?))
        }
        _ => Ok(nothing()),
    }
}

/// A call of a channel or a port that gives a value and does nothing.
pub(crate) fn called(numbers: Numbers<'_>, name: Denotation, method: Method) -> BoundExpr
    ensures { result ≡ method_of (numbering_of numbers.entry) name method }
{
    match method {
        Method::Read => BoundExpr::Signal(channel_of(numbers, name)),
        Method::Event => BoundExpr::Changed(channel_of(numbers, name)),
        Method::Posedge => BoundExpr::Edge(channel_of(numbers, name), true),
        Method::Negedge => BoundExpr::Edge(channel_of(numbers, name), false),
        Method::NumAvailable => BoundExpr::Available(channel_of(numbers, name)),
        Method::NumFree => BoundExpr::Free(channel_of(numbers, name)),
        _ => nothing(),
    }
}

// A prefix on an expression.
fn prefixed(op: PrefixOp, operand: Boxed<BoundExpr>) -> BoundExpr
    ensures { result ≡ prefixed op operand }
{
    match op {
        PrefixOp::Not => BoundExpr::Not(operand),
        PrefixOp::Invert => BoundExpr::Invert(operand),
        PrefixOp::Negate => BoundExpr::Negate(operand),
        PrefixOp::Keep => BoundExpr::Promote(operand),
    }
}

// A sign between two expressions.
fn joined(sign: BinaryOp, a: Boxed<BoundExpr>, b: Boxed<BoundExpr>) -> BoundExpr
    ensures { result ≡ operated sign (operator_of sign) a b }
{
    match operator(sign) {
        Some(op) => BoundExpr::Binary(op, a, b),
        None => match sign {
            BinaryOp::Both => BoundExpr::Both(a, b),
            _ => BoundExpr::Either(a, b),
        },
    }
}

// What is made already, onto the heap.
fn boxed_tree(alloc: Global, tree: BoundExpr) -> Result<Boxed<BoundExpr>, AllocError>
    ensures { IfOk result (λ boxed. boxed ≡ tree) }
{
    Boxed::new(alloc, tree)
}

/// An expression, with numbers in place of names.
#[cycle(expr)]
#[tactic(auto, unfolding(crate::specs::Exprs::expr_of))]
pub(crate) fn expr(
    alloc: Global,
    numbers: Numbers<'_>,
    e: &CheckedExpr,
) -> Result<BoundExpr, AllocError>
    ensures { IfOk result (λ tree. tree ≡ expr_of (numbering_of numbers.entry) e.now) }
{
    match e {
        CheckedExpr::Number(_, number) => Ok(BoundExpr::Constant(number.value)),
        CheckedExpr::Truth(is_true, _) => Ok(BoundExpr::Constant(Value::Bool(*is_true))),
        CheckedExpr::Name(_, name) => named(numbers, name.denotes),
        CheckedExpr::Paren(_, _, e) => expr(alloc, numbers, e.get()),
        CheckedExpr::Index(_, name, index) => indexed(alloc, numbers, name.denotes, index.get()),
        CheckedExpr::Call(_, _, _) => Ok(nothing()),
        CheckedExpr::Member(_, name, _, method, _) => Ok(called(numbers, name.denotes, *method)),
        CheckedExpr::Prefix(_, _, op, e) => prefix(alloc, numbers, *op, e.get()),
        CheckedExpr::Cast(_, _, form, e) | CheckedExpr::Conversion(_, form, e) => {
            converted(alloc, numbers, kind_written(form.form), e.get())
        }
        CheckedExpr::Binary(_, sign, a, b) => binary(alloc, numbers, *sign, a.get(), b.get()),
        CheckedExpr::Choose(kind, test, a, b) => {
            choice(alloc, numbers, *kind, test.get(), a.get(), b.get())
        }
    }
}

/// An expression on the heap.
#[cycle(expr)]
#[tactic(auto, unfolding(crate::specs::Exprs::expr_of))]
pub(crate) fn boxed(
    alloc: Global,
    numbers: Numbers<'_>,
    e: &CheckedExpr,
) -> Result<Boxed<BoundExpr>, AllocError>
    ensures { IfOk result (λ tree. tree ≡ expr_of (numbering_of numbers.entry) e.now) }
{
    let tree = got!(expr(alloc, numbers, e));
    boxed_tree(alloc, tree)
}

// An element of an array.
#[cycle(expr)]
fn indexed(
    alloc: Global,
    numbers: Numbers<'_>,
    name: Denotation,
    index: &CheckedExpr,
) -> Result<BoundExpr, AllocError>
    ensures { IfOk result (λ tree. tree ≡ BoundExpr.Element
        (variable_of (numbering_of numbers.entry) name)
        (expr_of (numbering_of numbers.entry) index.now)) }
{
    let index = got!(boxed(alloc, numbers, index));
    Ok(BoundExpr::Element(variable_of(numbers, name), index))
}

// A prefix and its operand.
#[cycle(expr)]
fn prefix(
    alloc: Global,
    numbers: Numbers<'_>,
    op: PrefixOp,
    e: &CheckedExpr,
) -> Result<BoundExpr, AllocError>
    ensures { IfOk result (λ tree. tree
        ≡ prefixed op (expr_of (numbering_of numbers.entry) e.now)) }
{
    let operand = got!(boxed(alloc, numbers, e));
    Ok(prefixed(op, operand))
}

// A value in another kind.
#[cycle(expr)]
fn converted(
    alloc: Global,
    numbers: Numbers<'_>,
    kind: Kind,
    e: &CheckedExpr,
) -> Result<BoundExpr, AllocError>
    ensures { IfOk result (λ tree. tree
        ≡ BoundExpr.Convert kind (expr_of (numbering_of numbers.entry) e.now)) }
{
    let operand = got!(boxed(alloc, numbers, e));
    Ok(BoundExpr::Convert(kind, operand))
}

// A sign and what stands before and behind it.
#[cycle(expr)]
fn binary(
    alloc: Global,
    numbers: Numbers<'_>,
    sign: BinaryOp,
    a: &CheckedExpr,
    b: &CheckedExpr,
) -> Result<BoundExpr, AllocError>
    ensures { IfOk result (λ tree. tree ≡ operated sign (operator_of sign)
        (expr_of (numbering_of numbers.entry) a.now)
        (expr_of (numbering_of numbers.entry) b.now)) }
{
    let left = got!(boxed(alloc, numbers, a));
    let right = keeping!(left; boxed(alloc, numbers, b));
    Ok(joined(sign, left, right))
}

// A choice of this kind.
#[cycle(expr)]
fn choice(
    alloc: Global,
    numbers: Numbers<'_>,
    kind: Kind,
    test: &CheckedExpr,
    a: &CheckedExpr,
    b: &CheckedExpr,
) -> Result<BoundExpr, AllocError>
    ensures { IfOk result (λ tree. tree ≡ BoundExpr.Choose kind
        (expr_of (numbering_of numbers.entry) test.now)
        (expr_of (numbering_of numbers.entry) a.now)
        (expr_of (numbering_of numbers.entry) b.now)) }
{
    let test = got!(boxed(alloc, numbers, test));
    let left = keeping!(test; boxed(alloc, numbers, a));
    let right = keeping!(test, left; boxed(alloc, numbers, b));
    Ok(BoundExpr::Choose(kind, test, left, right))
}

/// Expressions one after the other.
pub(crate) fn exprs(
    alloc: Global,
    numbers: Numbers<'_>,
    es: &[CheckedExpr],
) -> Result<Items<BoundExpr>, AllocError>
    ensures { IfOk result (λ all. all ≡ exprs_of (numbering_of numbers.entry) es.now) }
{
    let mut all = Items::new(alloc);
    'parts: for e in es {
        all.push(expr(alloc, numbers, e)?)?;
    }
    Ok(all)
}

/// An expression on the heap, if there is one.
pub(crate) fn option(
    alloc: Global,
    numbers: Numbers<'_>,
    e: &Option<Boxed<CheckedExpr>>,
) -> Result<Option<Boxed<BoundExpr>>, AllocError>
    ensures { IfOk result (λ tree. tree ≡ option_of (numbering_of numbers.entry) e.now) }
{
    match e {
        None => Ok(None),
        Some(e) => {
            let tree = boxed(alloc, numbers, e.get())?;
            Ok(Some(tree))
        }
    }
}

// A time that is known before the simulation; one with which something is wrong counts as none.
fn known_time(numbers: Numbers<'_>, given: &CheckedTime) -> Time
    ensures { result ≡ time_in
        (constant_time_of (known_in (numbering_of numbers.entry)) given.now) }
{
    let known = Known {
        file: numbers.file,
        statics: &[],
        members: numbers.members,
        parameters: &[],
    };
    match ooo_constants::time(known, given) {
        Ok(time) => time,
        Err(_) => Time::ZERO,
    }
}

// An amount in a unit: a time that is known before the simulation, where the amount is.
fn amount(
    alloc: Global,
    numbers: Numbers<'_>,
    given: &CheckedTime,
    e: &CheckedExpr,
    scale: Scale,
) -> Result<BoundTime, AllocError>
    ensures { IfOk result (λ time. time
        ≡ amount_of (numbering_of numbers.entry) (is_fixed e.now) given.now e.now scale) }
{
    if is_fixed(e) {
        return Ok(BoundTime::Fixed(known_time(numbers, given)));
    }
    let amount = expr(alloc, numbers, e)?;
    Ok(BoundTime::Amount(amount, scale))
}

/// A time.
pub(crate) fn time(
    alloc: Global,
    numbers: Numbers<'_>,
    given: &CheckedTime,
) -> Result<BoundTime, AllocError>
    ensures { IfOk result (λ time. time ≡ time_of (numbering_of numbers.entry) given.now) }
{
    match given {
        CheckedTime::Zero(_) => Ok(BoundTime::Fixed(Time::ZERO)),
        CheckedTime::Made(_, e, scale) | CheckedTime::Amount(e, scale) => {
            amount(alloc, numbers, given, e, *scale)
        }
    }
}

// The events that are waited for.
fn awaited(
    alloc: Global,
    numbers: Numbers<'_>,
    given: &[CheckedEvent],
) -> Result<Items<u32>, AllocError>
    ensures { IfOk result (λ all. all ≡ events_of (numbering_of numbers.entry) given.now) }
{
    let mut all = Items::new(alloc);
    events(numbers, given, &mut all)?;
    Ok(all)
}

/// What a wait or a `next_trigger` waits for.
pub(crate) fn wait(
    alloc: Global,
    numbers: Numbers<'_>,
    what: &CheckedAwaited,
) -> Result<BoundWait, AllocError>
    ensures { IfOk result (λ wait. wait ≡ wait_of (numbering_of numbers.entry) what.now) }
{
    match what {
        CheckedAwaited::Sensitive => Ok(BoundWait {
            time: None,
            events: Items::new(alloc),
            is_static: true,
        }),
        CheckedAwaited::Delay(given) => {
            let time = time(alloc, numbers, given)?;
            Ok(BoundWait {
                time: Some(time),
                events: Items::new(alloc),
                is_static: false,
            })
        }
        CheckedAwaited::Until(given, all) => {
            let events = awaited(alloc, numbers, all.as_slice())?;
            let time = time(alloc, numbers, given)?;
            Ok(BoundWait {
                time: Some(time),
                events,
                is_static: false,
            })
        }
        CheckedAwaited::Events(all) => {
            let events = awaited(alloc, numbers, all.as_slice())?;
            Ok(BoundWait {
                time: None,
                events,
                is_static: false,
            })
        }
    }
}
