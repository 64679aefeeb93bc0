//! Nodes that only compute with numbers of one kind, and write what they compute into a local, a variable or a
//! signal, done at once: most of those that run are so. What isn't plain in this way gives none, and nothing is done.

ghost use Rattle.std.specs.Prelude.{◌≡◌, IfNone, IfOk, IfSome, Ok, Some};
ghost use Rattle.ooo_code.specs.declared.expression.NodeExpr.{NodeExpr as NodeExprSpec};
ghost use Rattle.ooo_code.specs.declared.node.NodeKind.TheVariants as kind;
ghost use Rattle.ooo_code.specs.Expressions.{on_value, reading_of};
ghost use Rattle.ooo_interp.specs.Acting.{ActsOn, Emits};
ghost use Rattle.ooo_interp.specs.Plainly.{written};
ghost use Rattle.ooo_value.specs.Operators.{binary_of};
ghost use Rattle.ooo_value.specs.declared.values.Value.TheVariants as ValueSpec;

use crate::combining::combine;
use crate::doing::Emitted;
use crate::expressions::{evaluate, index_below};
use crate::numbers::kinds::Operand;
use crate::numbers::{combined, operand};
use crate::parts::Lent;
use ooo_code::{Effect, Node, NodeExpr, NodeKind};
use ooo_value::{Kind, Op, Value};
use std::alloc::AllocError;

// Does what a node does, where that is plain: the next node. Where it isn't, nothing is done. The value that is written
// is computed in one place, as its code is long: with a copy for each kind of node this stays a call in the loop over
// nodes.
#[inline(always)]
pub(crate) fn do_plainly<L: Lent>(
    lent: &mut L,
    emitted: &mut Emitted,
    node: &Node,
) -> Result<Option<u32>, AllocError>
    ensures acts { IfOk result (λ to. IfSome to (λ n. Emits node.now.kind node.now.next (Ok n)
        (L.sight lent.old) emitted.old (L.sight lent.new) emitted.new)) }
    ensures sight { IfOk result (λ to. IfNone to (L.sight lent.new ≡ L.sight lent.old)) }
    ensures emitted { IfOk result (λ to. IfNone to (emitted.new ≡ emitted.old)) }
    ensures kept { L.kept lent.new ≡ L.kept lent.old }
{
    let e = match &node.kind {
        NodeKind::Set(_, e) | NodeKind::Write(_, e) => e,
        NodeKind::Store(x, index, e) => match index {
            None => e,
            Some(i) => return Ok(store_at(lent, *x, i, e, node.next)),
        },
        NodeKind::Test(e, no) => return Ok(test(lent, e, node.next, *no)),
        NodeKind::Goto => return Ok(Some(node.next)),
        _ => return Ok(None),
    };
    match plain_value(lent, e) {
        Some(v) => write(lent, emitted, node, v),
        None => Ok(None),
    }
}

// A local, a scalar variable or a signal gets the value that a node writes.
#[inline(always)]
fn write<L: Lent>(
    lent: &mut L,
    emitted: &mut Emitted,
    node: &Node,
    v: Value,
) -> Result<Option<u32>, AllocError>
    ensures acts { (e : NodeExprSpec) →
        written node.now.kind ≡ Some e → Ok v ≡ reading_of e (L.sight lent.old) →
        IfOk result (λ to. IfSome to (λ n. Emits node.now.kind node.now.next (Ok n)
        (L.sight lent.old) emitted.old (L.sight lent.new) emitted.new)) }
    ensures sight { IfOk result (λ to. IfNone to (L.sight lent.new ≡ L.sight lent.old)) }
    ensures emitted { IfOk result (λ to. IfNone to (emitted.new ≡ emitted.old)) }
    ensures kept { L.kept lent.new ≡ L.kept lent.old }
{
    match &node.kind {
        NodeKind::Set(n, _) => lent.set_slot(*n, v),
        NodeKind::Store(x, None, _) => lent.set_cell(*x, 0, v),
        NodeKind::Write(c, _) => emitted.add(Effect::Request(*c, v))?,
        _ => return Ok(None),
    }
    Ok(Some(node.next))
}

// An element of a variable gets a value.
fn store_at<L: Lent>(
    lent: &mut L,
    variable: u32,
    i: &NodeExpr,
    e: &NodeExpr,
    to: u32,
) -> Option<u32>
    ensures acts { IfSome result (λ n. ActsOn (kind.Store variable (Some i.now) e.now) to (Ok n)
        (L.sight lent.old) (L.sight lent.new)) }
    ensures none { IfNone result (L.sight lent.new ≡ L.sight lent.old) }
    ensures kept { L.kept lent.new ≡ L.kept lent.old }
{
    let v = plain_value(lent, e)?;
    let index: i32 = operand(lent, i)?;
    let at = index_below(lent.cells(variable).len(), Value::Int(index))?;
    lent.set_cell(variable, at, v);
    Some(to)
}

// Goes to another node where a value is 0.
#[inline(always)]
fn test<L: Lent>(lent: &L, e: &NodeExpr, to: u32, other: u32) -> Option<u32>
    ensures { let s = L.sight lent.now in
        IfSome result (λ n. ActsOn (kind.Test e.now other) to (Ok n) s s) }
{
    let holds = plain_truth(lent, e)?;
    Some(if holds { to } else { other })
}

// What an expression gives, where that is a constant or a number that is converted to its own kind.
#[inline(always)]
#[tactic(auto, unfolding(ooo_code::specs::Expressions::reading_of))]
fn plain_value<L: Lent>(lent: &L, e: &NodeExpr) -> Option<Value>
    ensures { IfSome result (λ v. Ok v ≡ reading_of e.now (L.sight lent.now)) }
{
    match e {
        NodeExpr::Constant(v) => Some(*v),
        NodeExpr::Convert(Kind::Int, a) => Some(Value::Int(root(lent, a.get())?)),
        NodeExpr::Convert(Kind::Uint, a) => Some(Value::Uint(root(lent, a.get())?)),
        NodeExpr::Convert(Kind::Long, a) => Some(Value::Long(operand(lent, a.get())?)),
        NodeExpr::Convert(Kind::Ulong, a) => Some(Value::Ulong(operand(lent, a.get())?)),
        _ => None,
    }
}

// Whether a comparison holds.
#[inline(always)]
#[tactic(auto, unfolding(ooo_code::specs::Expressions::reading_of))]
fn plain_truth<L: Lent>(lent: &L, e: &NodeExpr) -> Option<bool>
    ensures { IfSome result (λ t. Ok (ValueSpec.Bool t) ≡ reading_of e.now (L.sight lent.now)) }
{
    match e {
        NodeExpr::Binary(op, a, b) => match operand::<i32, L>(lent, a.get()) {
            Some(x) => i32::compared(*op, x, operand(lent, b.get())?),
            None => other_truth(lent, *op, a.get(), b.get()),
        },
        _ => None,
    }
}

// The same, of any two operands.
#[inline(never)]
fn other_truth<L: Lent>(lent: &L, op: Op, a: &NodeExpr, b: &NodeExpr) -> Option<bool>
    ensures { let s = L.sight lent.now in IfSome result (λ t. Ok (ValueSpec.Bool t) ≡
        on_value (reading_of a.now s)
        (λ v. on_value (reading_of b.now s) (λ w. binary_of op v w))) }
{
    let v = evaluate(lent, a).ok()?;
    let w = evaluate(lent, b).ok()?;
    match combine(op, v, w) {
        Ok(Value::Bool(holds)) => Some(holds),
        _ => None,
    }
}

// What an expression gives, where that is a number of this kind. The outermost operator needs no call.
#[inline(always)]
#[tactic(auto, unfolding(ooo_code::specs::Expressions::reading_of))]
fn root<N: Operand, L: Lent>(lent: &L, e: &NodeExpr) -> Option<N>
    ensures { IfSome result (λ x. Ok (N.value x) ≡ reading_of e.now (L.sight lent.now)) }
{
    match e {
        NodeExpr::Binary(op, a, b) => combined(lent, *op, a.get(), b.get()),
        _ => operand(lent, e),
    }
}
