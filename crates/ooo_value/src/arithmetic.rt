ghost use Rattle.std.specs.Prelude.{◌≡◌, ◌+ℤ◌, ◌-ℤ◌, ◌*ℤ◌, ℤ, SomeIff, FitsSigned};
ghost use Rattle.std.specs.Int.{w32, w64};
ghost use Rattle.ooo_value.specs.declared.kinds.Kind.TheVariants as kind;
ghost use Rattle.ooo_value.specs.Operators.{result_in, negation_of};
ghost use Rattle.ooo_value.specs.Pairs.{pair_kind, left_of, right_of};

use crate::operators::Fault;
use crate::pairs::Pair;
use crate::values::Value;

// `+`
pub(crate) fn add(pair: Pair) -> Result<Value, Fault>
    ensures { result ≡ result_in (pair_kind pair) (left_of pair +ℤ right_of pair) }
{
    match pair {
        Pair::Int(a, b) => int_or_overflow(a.checked_add(b)),
        Pair::Uint(a, b) => Ok(Value::Uint(a.wrapping_add(b))),
        Pair::Long(a, b) => long_or_overflow(a.checked_add(b)),
        Pair::Ulong(a, b) => Ok(Value::Ulong(a.wrapping_add(b))),
    }
}

// `-`
pub(crate) fn subtract(pair: Pair) -> Result<Value, Fault>
    ensures { result ≡ result_in (pair_kind pair) (left_of pair -ℤ right_of pair) }
{
    match pair {
        Pair::Int(a, b) => int_or_overflow(a.checked_sub(b)),
        Pair::Uint(a, b) => Ok(Value::Uint(a.wrapping_sub(b))),
        Pair::Long(a, b) => long_or_overflow(a.checked_sub(b)),
        Pair::Ulong(a, b) => Ok(Value::Ulong(a.wrapping_sub(b))),
    }
}

// `*`
pub(crate) fn multiply(pair: Pair) -> Result<Value, Fault>
    ensures { result ≡ result_in (pair_kind pair) (left_of pair *ℤ right_of pair) }
{
    match pair {
        Pair::Int(a, b) => int_or_overflow(a.checked_mul(b)),
        Pair::Uint(a, b) => Ok(Value::Uint(a.wrapping_mul(b))),
        Pair::Long(a, b) => long_or_overflow(a.checked_mul(b)),
        Pair::Ulong(a, b) => Ok(Value::Ulong(a.wrapping_mul(b))),
    }
}

/// Unary `-`, in the promoted kind of the operand (ISO C++ [expr.unary.op]).
///
/// # Errors
///
/// `Overflow` where the operand is the least value of a signed kind, as `law::negation_faults`
/// says.
pub fn negate(v: Value) -> Result<Value, Fault>
    ensures { result ≡ negation_of v }
{
    match v {
        Value::Bool(b) => Ok(Value::Int(-i32::from(b))),
        Value::Int(x) => int_or_overflow(x.checked_neg()),
        Value::Uint(x) => Ok(Value::Uint(x.wrapping_neg())),
        Value::Long(x) => long_or_overflow(x.checked_neg()),
        Value::Ulong(x) => Ok(Value::Ulong(x.wrapping_neg())),
    }
}

// An exact result, which is there where an `int` holds it.
pub(crate) fn int_or_overflow(exact: Option<i32>) -> Result<Value, Fault>
    ensures { (z : ℤ) → SomeIff exact (FitsSigned w32 z) z → result ≡ result_in kind.Int z }
{
    exact.map(Value::Int).ok_or(Fault::Overflow)
}

// An exact result, which is there where a `long long` holds it.
pub(crate) fn long_or_overflow(exact: Option<i64>) -> Result<Value, Fault>
    ensures { (z : ℤ) → SomeIff exact (FitsSigned w64 z) z → result ≡ result_in kind.Long z }
{
    exact.map(Value::Long).ok_or(Fault::Overflow)
}
