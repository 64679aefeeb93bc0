ghost use Rattle.std.specs.Prelude.{◌≡◌, length, not, pos, slice_index_or, true, false};
ghost use Rattle.ooo_code.specs.Expressions.{SignalSeen, by_truth, cells_of, element_at, index_in, is_edge, no_value, on_value, reading_of};
ghost use Rattle.ooo_value.specs.Operators.{binary_of, inversion_of, negation_of};
ghost use Rattle.ooo_value.specs.Values.{conversion_of, number_of, truth_of};
ghost use Rattle.ooo_value.specs.declared.values.Value.TheVariants as ValueSpec;

use crate::combining::combine;
use crate::parts::Lent;
use ooo_code::NodeExpr;
use ooo_value::{Fault, Kind, Op, Value, convert, invert, negate, truth};

/// What an expression gives. Operands are evaluated from left to right, and `&&`, `||` and `? :` leave out what isn't
/// needed (ISO C++ [expr.log.and], [expr.log.or], [expr.cond]). It takes no memory.
#[cycle(evaluate)]
#[tactic(auto, unfolding(ooo_code::specs::Expressions::reading_of))]
pub fn evaluate<L: Lent>(lent: &L, e: &NodeExpr) -> Result<Value, Fault>
    ensures { result ≡ reading_of e.now (L.sight lent.now) }
{
    match e {
        NodeExpr::Constant(v) => Ok(*v),
        NodeExpr::Slot(n) => Ok(value_at(lent.slots(), *n as usize)),
        NodeExpr::Variable(x) => Ok(value_at(lent.cells(*x), 0)),
        NodeExpr::Element(x, i) => element_of(lent, *x, i.get()),
        NodeExpr::Signal(c) => Ok(lent.signal(*c).0),
        NodeExpr::Event(c) => Ok(Value::Bool(lent.signal(*c).1)),
        NodeExpr::Edge(c, up) => Ok(Value::Bool(has_edge(lent.signal(*c), *up))),
        NodeExpr::Available(c) => Ok(Value::Int(lent.available(*c))),
        NodeExpr::Free(c) => Ok(Value::Int(lent.free(*c))),
        NodeExpr::Convert(kind, a) => converted(lent, a.get(), *kind),
        NodeExpr::Negate(a) => negated(lent, a.get()),
        NodeExpr::Invert(a) => inverted(lent, a.get()),
        NodeExpr::Not(a) => opposite(lent, a.get()),
        NodeExpr::Binary(op, a, b) => combined(lent, *op, a.get(), b.get()),
        NodeExpr::And(a, b) => both(lent, a.get(), b.get()),
        NodeExpr::Or(a, b) => either(lent, a.get(), b.get()),
        NodeExpr::Choose(c, a, b) => chosen(lent, c.get(), a.get(), b.get()),
    }
}

// Each form that has parts is a function of its own: a function clears the room of all its values as it begins, which
// took more time in one function for all forms than all else. It needs less of the stack, too.

// What a part gives: at once, where it has no parts of its own.
#[cycle(evaluate)]
#[inline(always)]
#[tactic(auto, unfolding(ooo_code::specs::Expressions::reading_of))]
fn operand<L: Lent>(lent: &L, e: &NodeExpr) -> Result<Value, Fault>
    ensures { result ≡ reading_of e.now (L.sight lent.now) }
{
    match e {
        NodeExpr::Constant(v) => Ok(*v),
        NodeExpr::Slot(n) => Ok(value_at(lent.slots(), *n as usize)),
        NodeExpr::Variable(x) => Ok(value_at(lent.cells(*x), 0)),
        _ => evaluate(lent, e),
    }
}

// An element of a variable.
#[cycle(evaluate)]
fn element_of<L: Lent>(lent: &L, variable: u32, i: &NodeExpr) -> Result<Value, Fault>
    ensures { let cells = cells_of (L.sight lent.now).variables variable in
        result ≡ on_value (reading_of i.now (L.sight lent.now))
        (λ v. element_at cells (index_in (length cells) (number_of v))) }
{
    let index = operand(lent, i)?;
    element(lent.cells(variable), index)
}

// An operand in a kind.
#[cycle(evaluate)]
fn converted<L: Lent>(lent: &L, a: &NodeExpr, kind: Kind) -> Result<Value, Fault>
    ensures { result ≡ on_value (reading_of a.now (L.sight lent.now))
        (λ v. Ok (conversion_of v kind)) }
{
    let v = operand(lent, a)?;
    Ok(convert(v, kind))
}

// `-`
#[cycle(evaluate)]
fn negated<L: Lent>(lent: &L, a: &NodeExpr) -> Result<Value, Fault>
    ensures { result ≡ on_value (reading_of a.now (L.sight lent.now)) (λ v. negation_of v) }
{
    let v = operand(lent, a)?;
    negate(v)
}

// `~`
#[cycle(evaluate)]
fn inverted<L: Lent>(lent: &L, a: &NodeExpr) -> Result<Value, Fault>
    ensures { result ≡ on_value (reading_of a.now (L.sight lent.now)) (λ v. Ok (inversion_of v)) }
{
    let v = operand(lent, a)?;
    Ok(invert(v))
}

// `!`
#[cycle(evaluate)]
fn opposite<L: Lent>(lent: &L, a: &NodeExpr) -> Result<Value, Fault>
    ensures { result ≡ on_value (reading_of a.now (L.sight lent.now))
        (λ v. Ok (ValueSpec.Bool (not (truth_of v)))) }
{
    let v = operand(lent, a)?;
    Ok(Value::Bool(!truth(v)))
}

// An operator on two operands, the left one first.
#[cycle(evaluate)]
fn combined<L: Lent>(lent: &L, op: Op, a: &NodeExpr, b: &NodeExpr) -> Result<Value, Fault>
    ensures { let s = L.sight lent.now in
        result ≡ on_value (reading_of a.now s)
        (λ v. on_value (reading_of b.now s) (λ w. binary_of op v w)) }
{
    let left = operand(lent, a)?;
    let right = operand(lent, b)?;
    combine(op, left, right)
}

// `&&`
#[cycle(evaluate)]
fn both<L: Lent>(lent: &L, a: &NodeExpr, b: &NodeExpr) -> Result<Value, Fault>
    ensures { let s = L.sight lent.now in result ≡ on_value (reading_of a.now s)
        (λ v. by_truth v (on_value (reading_of b.now s) (λ w. Ok (ValueSpec.Bool (truth_of w))))
        (Ok (ValueSpec.Bool false))) }
{
    let v = operand(lent, a)?;
    if !truth(v) {
        return Ok(Value::Bool(false));
    }
    let w = operand(lent, b)?;
    Ok(Value::Bool(truth(w)))
}

// `||`
#[cycle(evaluate)]
fn either<L: Lent>(lent: &L, a: &NodeExpr, b: &NodeExpr) -> Result<Value, Fault>
    ensures { let s = L.sight lent.now in result ≡ on_value (reading_of a.now s)
        (λ v. by_truth v (Ok (ValueSpec.Bool true))
        (on_value (reading_of b.now s) (λ w. Ok (ValueSpec.Bool (truth_of w))))) }
{
    let v = operand(lent, a)?;
    if truth(v) {
        return Ok(Value::Bool(true));
    }
    let w = operand(lent, b)?;
    Ok(Value::Bool(truth(w)))
}

// `? :`
#[cycle(evaluate)]
fn chosen<L: Lent>(lent: &L, c: &NodeExpr, a: &NodeExpr, b: &NodeExpr) -> Result<Value, Fault>
    ensures { let s = L.sight lent.now in result ≡ on_value (reading_of c.now s)
        (λ v. by_truth v (reading_of a.now s) (reading_of b.now s)) }
{
    let v = operand(lent, c)?;
    if truth(v) {
        evaluate(lent, a)
    } else {
        evaluate(lent, b)
    }
}

// The value at a place, or 0 where there is none.
pub(crate) fn value_at(values: &[Value], at: usize) -> Value
    ensures { result ≡ slice_index_or values.now at no_value }
{
    if at < values.len() {
        values[at]
    } else {
        Value::Int(0)
    }
}

// The element at an index.
fn element(cells: &[Value], index: Value) -> Result<Value, Fault>
    ensures { result ≡ element_at cells.now (index_in (length cells.now) (number_of index)) }
{
    match index_below(cells.len(), index) {
        Some(at) => Ok(value_at(cells, at)),
        None => Err(Fault::IndexRange),
    }
}

// The index that a value is, where it is from 0 to below the length.
pub(crate) fn index_below(length: usize, index: Value) -> Option<usize>
    ensures { result ≡ index_in length (number_of index) }
{
    match index {
        Value::Bool(b) => below(length, u64::from(b)),
        Value::Int(x) if x >= 0 => below(length, x as u64),
        Value::Uint(x) => below(length, u64::from(x)),
        Value::Long(x) if x >= 0 => below(length, x as u64),
        Value::Ulong(x) => below(length, x),
        Value::Int(_) | Value::Long(_) => None,
    }
}

// A number, where it is below the length.
fn below(length: usize, n: u64) -> Option<usize>
    ensures { result ≡ index_in length (pos n) }
{
    let at = n as usize;
    if at < length { Some(at) } else { None }
}

// Whether a signal of this value, which changed or not, has an edge.
fn has_edge(signal: (Value, bool), up: bool) -> bool
    ensures { (s : SignalSeen) → s.value ≡ signal.0 → s.changed ≡ signal.1 → result ≡ is_edge s up }
{
    let (value, changed) = signal;
    if up {
        changed && truth(value)
    } else {
        changed && !truth(value)
    }
}
