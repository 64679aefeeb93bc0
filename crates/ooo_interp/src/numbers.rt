//! Expressions whose parts are all of one kind, evaluated to bare numbers: most are so, and need not carry the kind of
//! each part along. What isn't plain in this way gives none.

ghost use Rattle.std.specs.Prelude.{◌≡◌, IfSome, Ok, length};
ghost use Rattle.ooo_code.specs.Expressions.{cells_of, element_at, index_in, on_value, reading_of};
ghost use Rattle.ooo_value.specs.Operators.{binary_of};
ghost use Rattle.ooo_value.specs.Values.{number_of};
ghost use Rattle.ooo_value.specs.declared.values.Value.TheVariants as ValueSpec;

use crate::expressions::{evaluate, index_below, value_at};
use crate::numbers::kinds::{Number, Operand, number_of_answer};
use crate::parts::Lent;
use ooo_code::NodeExpr;
use ooo_value::{Op, Value};

pub(crate) mod kinds;

// What an expression gives, where that is a number of this kind.
#[cycle(computed)]
#[inline(always)]
#[tactic(auto, unfolding(ooo_code::specs::Expressions::reading_of))]
pub(crate) fn operand<N: Operand, L: Lent>(lent: &L, e: &NodeExpr) -> Option<N>
    ensures { IfSome result (λ x. Ok (N.value x) ≡ reading_of e.now (L.sight lent.now)) }
{
    match e {
        NodeExpr::Constant(v) => N::of(*v),
        NodeExpr::Slot(n) => N::of(value_at(lent.slots(), *n as usize)),
        NodeExpr::Variable(x) => N::of(value_at(lent.cells(*x), 0)),
        _ => computed(lent, e),
    }
}

// The same, of a signal and of an expression that has parts.
#[cycle(computed)]
#[tactic(auto, unfolding(ooo_code::specs::Expressions::reading_of))]
fn computed<N: Operand, L: Lent>(lent: &L, e: &NodeExpr) -> Option<N>
    ensures { IfSome result (λ x. Ok (N.value x) ≡ reading_of e.now (L.sight lent.now)) }
{
    match e {
        NodeExpr::Binary(op, a, b) => combined(lent, *op, a.get(), b.get()),
        NodeExpr::Signal(c) => N::of(lent.signal(*c).0),
        NodeExpr::Element(x, i) => N::of(element_of(lent, *x, i.get())?),
        _ => evaluated(lent, e),
    }
}

// The same, of an operator on two operands. How far to shift is an int.
#[cycle(computed)]
#[inline(always)]
pub(crate) fn combined<N: Operand, L: Lent>(
    lent: &L,
    op: Op,
    a: &NodeExpr,
    b: &NodeExpr,
) -> Option<N>
    ensures { let s = L.sight lent.now in IfSome result (λ z. Ok (N.value z) ≡
        on_value (reading_of a.now s)
        (λ v. on_value (reading_of b.now s) (λ w. binary_of op v w))) }
{
    let x: N = operand(lent, a)?;
    match op {
        Op::ShiftLeft | Op::ShiftRight => {
            let by = simple_int(lent, b)?;
            N::shifted(op, x, by)
        }
        _ => {
            let y: N = operand(lent, b)?;
            N::by(op, x, y)
        }
    }
}

// An element of a variable, where its index is an int in range.
#[inline(always)]
fn element_of<L: Lent>(lent: &L, variable: u32, i: &NodeExpr) -> Option<Value>
    ensures { let s = L.sight lent.now in let cells = cells_of s.variables variable in
        IfSome result (λ v. Ok v ≡ on_value (reading_of i.now s)
        (λ w. element_at cells (index_in (length cells) (number_of w)))) }
{
    let index = simple_int(lent, i)?;
    let cells = lent.cells(variable);
    let at = index_below(cells.len(), Value::Int(index))?;
    Some(value_at(cells, at))
}

// The int that an index or an amount is, at once where it has no parts.
#[inline(always)]
#[tactic(auto, unfolding(ooo_code::specs::Expressions::reading_of))]
fn simple_int<L: Lent>(lent: &L, e: &NodeExpr) -> Option<i32>
    ensures { IfSome result (λ x. Ok (ValueSpec.Int x) ≡ reading_of e.now (L.sight lent.now)) }
{
    match e {
        NodeExpr::Constant(v) => i32::of(*v),
        NodeExpr::Slot(n) => i32::of(value_at(lent.slots(), *n as usize)),
        NodeExpr::Variable(x) => i32::of(value_at(lent.cells(*x), 0)),
        _ => evaluated(lent, e),
    }
}

// What an expression of any form gives, where that is a number of this kind.
#[inline(never)]
fn evaluated<N: Number, L: Lent>(lent: &L, e: &NodeExpr) -> Option<N>
    ensures { IfSome result (λ x. Ok (N.value x) ≡ reading_of e.now (L.sight lent.now)) }
{
    number_of_answer(evaluate(lent, e))
}
