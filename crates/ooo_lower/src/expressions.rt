ghost use Rattle.std.specs.Prelude.{◌≡◌, IfOk};
ghost use Rattle.ooo_code.specs.declared.expression.NodeExpr.TheVariants as node;
ghost use Rattle.ooo_shapes.specs.Expressions.{converted, kept, lowered, lowered_time, lowered_wait_time, slot_of};

use ooo_bound::{BoundExpr, BoundTime};
use ooo_code::{NodeExpr, NodeTime};
use ooo_layout::numbers::{narrow, sum};
use ooo_layout::widths::start_of;
use ooo_shapes::Around;
use ooo_value::{Kind, Op, Value, convert};
use sqlite_items::Boxed;
use std::alloc::{AllocError, Global};

/// The slot of a local.
pub(crate) fn slot_of(t: Around, kind: Kind, slot: u32) -> Result<u32, AllocError>
    ensures { IfOk result (λ n. n ≡ slot_of t kind slot) }
{
    let start = start_of(t.widths, kind)?;
    let within = sum(start, slot as u64)?;
    narrow(sum(t.base as u64, within)?)
}

// `+e` is `e << 0`.
fn kept(alloc: Global, e: Boxed<NodeExpr>) -> Result<NodeExpr, AllocError>
    ensures { IfOk result (λ x. x ≡ kept e) }
{
    let nothing = keeping!(e; Boxed::new(alloc, NodeExpr::Constant(Value::Int(0))));
    Ok(NodeExpr::Binary(Op::ShiftLeft, e, nothing))
}

// An expression on the heap that is converted to a kind as the node runs.
fn conversion(alloc: Global, kind: Kind, e: Boxed<NodeExpr>) -> Result<Boxed<NodeExpr>, AllocError>
    ensures { IfOk result (λ x. x ≡ node.Convert kind e) }
{
    Boxed::new(alloc, NodeExpr::Convert(kind, e))
}

// A choice between two values, each converted to a kind.
fn choice(
    alloc: Global,
    kind: Kind,
    test: Boxed<NodeExpr>,
    left: Boxed<NodeExpr>,
    right: Boxed<NodeExpr>,
) -> Result<NodeExpr, AllocError>
    ensures { IfOk result (λ x.
        x ≡ node.Choose test (node.Convert kind left) (node.Convert kind right)) }
{
    let left = keeping!(test, right; conversion(alloc, kind, left));
    let right = keeping!(test, left; conversion(alloc, kind, right));
    Ok(NodeExpr::Choose(test, left, right))
}

/// An expression of a function whose locals stand there.
#[cycle(expr)]
#[tactic(auto, unfolding(ooo_shapes::specs::Expressions::lowered))]
pub(crate) fn lowered(alloc: Global, t: Around, e: &BoundExpr) -> Result<NodeExpr, AllocError>
    ensures { IfOk result (λ x. x ≡ lowered t e.now) }
{
    match e {
        BoundExpr::Constant(value) => Ok(NodeExpr::Constant(*value)),
        BoundExpr::Local(kind, slot) => Ok(NodeExpr::Slot(got!(slot_of(t, *kind, *slot)))),
        BoundExpr::Variable(variable) => Ok(NodeExpr::Variable(*variable)),
        BoundExpr::Element(variable, index) => {
            Ok(NodeExpr::Element(*variable, got!(boxed(alloc, t, index.get()))))
        }
        BoundExpr::Signal(channel) => Ok(NodeExpr::Signal(*channel)),
        BoundExpr::Changed(channel) => Ok(NodeExpr::Event(*channel)),
        BoundExpr::Edge(channel, up) => Ok(NodeExpr::Edge(*channel, *up)),
        BoundExpr::Available(channel) => Ok(NodeExpr::Available(*channel)),
        BoundExpr::Free(channel) => Ok(NodeExpr::Free(*channel)),
        BoundExpr::Convert(kind, e) => Ok(NodeExpr::Convert(*kind, got!(boxed(alloc, t, e.get())))),
        BoundExpr::Promote(e) => kept(alloc, got!(boxed(alloc, t, e.get()))),
        BoundExpr::Negate(e) => Ok(NodeExpr::Negate(got!(boxed(alloc, t, e.get())))),
        BoundExpr::Invert(e) => Ok(NodeExpr::Invert(got!(boxed(alloc, t, e.get())))),
        BoundExpr::Not(e) => Ok(NodeExpr::Not(got!(boxed(alloc, t, e.get())))),
        BoundExpr::Binary(op, a, b) => {
            let (left, right) = got!(operands(alloc, t, a.get(), b.get()));
            Ok(NodeExpr::Binary(*op, left, right))
        }
        BoundExpr::Both(a, b) => {
            let (left, right) = got!(operands(alloc, t, a.get(), b.get()));
            Ok(NodeExpr::And(left, right))
        }
        BoundExpr::Either(a, b) => {
            let (left, right) = got!(operands(alloc, t, a.get(), b.get()));
            Ok(NodeExpr::Or(left, right))
        }
        BoundExpr::Choose(kind, test, a, b) => {
            let test = got!(boxed(alloc, t, test.get()));
            let (left, right) = keeping!(test; operands(alloc, t, a.get(), b.get()));
            choice(alloc, *kind, test, left, right)
        }
    }
}

// An expression on the heap.
#[cycle(expr)]
#[tactic(auto, unfolding(ooo_shapes::specs::Expressions::lowered))]
fn boxed(alloc: Global, t: Around, e: &BoundExpr) -> Result<Boxed<NodeExpr>, AllocError>
    ensures { IfOk result (λ x. x ≡ lowered t e.now) }
{
    let tree = got!(lowered(alloc, t, e));
    Boxed::new(alloc, tree)
}

// Two expressions on the heap.
#[cycle(expr)]
#[tactic(auto, unfolding(ooo_shapes::specs::Expressions::lowered))]
fn operands(
    alloc: Global,
    t: Around,
    a: &BoundExpr,
    b: &BoundExpr,
) -> Result<(Boxed<NodeExpr>, Boxed<NodeExpr>), AllocError>
    ensures { IfOk result (λ x. x ≡ (lowered t a.now, lowered t b.now)) }
{
    let left = got!(boxed(alloc, t, a));
    let right = keeping!(left; boxed(alloc, t, b));
    Ok((left, right))
}

/// A value converted to a kind: a constant at once, and any other value as the node runs.
pub(crate) fn converted(alloc: Global, kind: Kind, e: NodeExpr) -> Result<NodeExpr, AllocError>
    ensures { IfOk result (λ x. x ≡ converted kind e) }
{
    match e {
        NodeExpr::Constant(value) => Ok(NodeExpr::Constant(convert(value, kind))),
        e => Ok(NodeExpr::Convert(kind, Boxed::new(alloc, e)?)),
    }
}

/// A time in a node.
pub(crate) fn lowered_time(
    alloc: Global,
    t: Around,
    time: &BoundTime,
) -> Result<NodeTime, AllocError>
    ensures { IfOk result (λ x. x ≡ lowered_time t time.now) }
{
    match time {
        BoundTime::Fixed(time) => Ok(NodeTime::Fixed(*time)),
        BoundTime::Amount(e, scale) => {
            let amount = lowered(alloc, t, e)?;
            Ok(NodeTime::Amount(amount, *scale))
        }
    }
}

/// The time of a wait, if it has one.
pub(crate) fn lowered_wait_time(
    alloc: Global,
    t: Around,
    time: &Option<BoundTime>,
) -> Result<Option<NodeTime>, AllocError>
    ensures { IfOk result (λ x. x ≡ lowered_wait_time t time.now) }
{
    match time {
        None => Ok(None),
        Some(time) => {
            let time = lowered_time(alloc, t, time)?;
            Ok(Some(time))
        }
    }
}
