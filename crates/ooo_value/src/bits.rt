ghost use Rattle.std.specs.Prelude.{◌≡◌, bit_and, bit_or, bit_xor};
ghost use Rattle.ooo_value.specs.Operators.{bitwise, inversion_of};
ghost use Rattle.ooo_value.specs.Pairs.{pair_kind, left_of, right_of};

use crate::pairs::Pair;
use crate::values::Value;

// `&`
#[tactic(auto, using(crate::proofs::Wraps::signed_and))]
pub(crate) fn and(pair: Pair) -> Value
    ensures { result ≡ bitwise bit_and (pair_kind pair) (left_of pair) (right_of pair) }
{
    match pair {
        Pair::Int(a, b) => Value::Int(a & b),
        Pair::Uint(a, b) => Value::Uint(a & b),
        Pair::Long(a, b) => Value::Long(a & b),
        Pair::Ulong(a, b) => Value::Ulong(a & b),
    }
}

// `|`
#[tactic(auto, using(crate::proofs::Wraps::signed_or, crate::proofs::Wraps::unsigned_or))]
pub(crate) fn or(pair: Pair) -> Value
    ensures { result ≡ bitwise bit_or (pair_kind pair) (left_of pair) (right_of pair) }
{
    match pair {
        Pair::Int(a, b) => Value::Int(a | b),
        Pair::Uint(a, b) => Value::Uint(a | b),
        Pair::Long(a, b) => Value::Long(a | b),
        Pair::Ulong(a, b) => Value::Ulong(a | b),
    }
}

// `^`
#[tactic(auto, using(crate::proofs::Wraps::signed_xor, crate::proofs::Wraps::unsigned_xor))]
pub(crate) fn xor(pair: Pair) -> Value
    ensures { result ≡ bitwise bit_xor (pair_kind pair) (left_of pair) (right_of pair) }
{
    match pair {
        Pair::Int(a, b) => Value::Int(a ^ b),
        Pair::Uint(a, b) => Value::Uint(a ^ b),
        Pair::Long(a, b) => Value::Long(a ^ b),
        Pair::Ulong(a, b) => Value::Ulong(a ^ b),
    }
}

/// `~`: each bit of the promoted operand inverted (ISO C++ [expr.unary.op]).
pub fn invert(v: Value) -> Value
    ensures { result ≡ inversion_of v }
{
    match v {
        Value::Bool(b) => Value::Int(!i32::from(b)),
        Value::Int(x) => Value::Int(!x),
        Value::Uint(x) => Value::Uint(!x),
        Value::Long(x) => Value::Long(!x),
        Value::Ulong(x) => Value::Ulong(!x),
    }
}
