//! Operators on two values.

ghost use Rattle.std.specs.Prelude.{◌≡◌, ℤ, SomeIff, FitsSigned};
ghost use Rattle.std.specs.Int.{w32, w64};
ghost use Rattle.ooo_value.specs.declared.kinds.Kind.TheVariants as kind;
ghost use Rattle.ooo_value.specs.declared.values.Value.TheVariants as ValueSpec;
ghost use Rattle.ooo_value.specs.Operators.{binary_of, result_in};

use ooo_value::{Fault, Op, Value, binary};

// An operator on two values: at once where both are of one kind, and else by their common kind.
#[inline(always)]
pub(crate) fn combine(op: Op, a: Value, b: Value) -> Result<Value, Fault>
    ensures { result ≡ binary_of op a b }
{
    match (a, b) {
        (Value::Int(x), Value::Int(y)) => on_ints(op, x, y),
        (Value::Uint(x), Value::Uint(y)) => on_uints(op, x, y),
        (Value::Long(x), Value::Long(y)) => on_longs(op, x, y),
        (Value::Ulong(x), Value::Ulong(y)) => on_ulongs(op, x, y),
        _ => by_any(op, a, b),
    }
}

// An operator on any two values. What it answers is taken apart and put together again: so no arm that calls this has
// its own answer handed through memory.
#[inline(always)]
fn by_any(op: Op, a: Value, b: Value) -> Result<Value, Fault>
    ensures { result ≡ binary_of op a b }
{
    Ok(binary(op, a, b)?)
}

// An operator on two values of kind int.
#[inline(always)]
fn on_ints(op: Op, x: i32, y: i32) -> Result<Value, Fault>
    ensures { result ≡ binary_of op (ValueSpec.Int x) (ValueSpec.Int y) }
{
    match op {
        Op::Add => int_or_overflow(x.checked_add(y)),
        Op::Subtract => int_or_overflow(x.checked_sub(y)),
        Op::Multiply => int_or_overflow(x.checked_mul(y)),
        Op::BitAnd => Ok(Value::Int(x & y)),
        Op::BitOr => Ok(Value::Int(x | y)),
        Op::BitXor => Ok(Value::Int(x ^ y)),
        Op::Equal => Ok(Value::Bool(x == y)),
        Op::NotEqual => Ok(Value::Bool(x != y)),
        Op::Less => Ok(Value::Bool(x < y)),
        Op::LessOrEqual => Ok(Value::Bool(x <= y)),
        Op::Greater => Ok(Value::Bool(x > y)),
        Op::GreaterOrEqual => Ok(Value::Bool(x >= y)),
        Op::Divide | Op::Remainder | Op::ShiftLeft | Op::ShiftRight => {
            by_any(op, Value::Int(x), Value::Int(y))
        }
    }
}

// An operator on two values of kind unsigned int.
#[inline(always)]
fn on_uints(op: Op, x: u32, y: u32) -> Result<Value, Fault>
    ensures { result ≡ binary_of op (ValueSpec.Uint x) (ValueSpec.Uint y) }
{
    match op {
        Op::Add => Ok(Value::Uint(x.wrapping_add(y))),
        Op::Subtract => Ok(Value::Uint(x.wrapping_sub(y))),
        Op::Multiply => Ok(Value::Uint(x.wrapping_mul(y))),
        Op::BitAnd => Ok(Value::Uint(x & y)),
        Op::BitOr => Ok(Value::Uint(x | y)),
        Op::BitXor => Ok(Value::Uint(x ^ y)),
        Op::Equal => Ok(Value::Bool(x == y)),
        Op::NotEqual => Ok(Value::Bool(x != y)),
        Op::Less => Ok(Value::Bool(x < y)),
        Op::LessOrEqual => Ok(Value::Bool(x <= y)),
        Op::Greater => Ok(Value::Bool(x > y)),
        Op::GreaterOrEqual => Ok(Value::Bool(x >= y)),
        Op::Divide | Op::Remainder | Op::ShiftLeft | Op::ShiftRight => {
            by_any(op, Value::Uint(x), Value::Uint(y))
        }
    }
}

// An operator on two values of kind long long.
fn on_longs(op: Op, x: i64, y: i64) -> Result<Value, Fault>
    ensures { result ≡ binary_of op (ValueSpec.Long x) (ValueSpec.Long y) }
{
    match op {
        Op::Add => long_or_overflow(x.checked_add(y)),
        Op::Subtract => long_or_overflow(x.checked_sub(y)),
        Op::Multiply => long_or_overflow(x.checked_mul(y)),
        Op::BitAnd => Ok(Value::Long(x & y)),
        Op::BitOr => Ok(Value::Long(x | y)),
        Op::BitXor => Ok(Value::Long(x ^ y)),
        Op::Equal => Ok(Value::Bool(x == y)),
        Op::NotEqual => Ok(Value::Bool(x != y)),
        Op::Less => Ok(Value::Bool(x < y)),
        Op::LessOrEqual => Ok(Value::Bool(x <= y)),
        Op::Greater => Ok(Value::Bool(x > y)),
        Op::GreaterOrEqual => Ok(Value::Bool(x >= y)),
        Op::Divide | Op::Remainder | Op::ShiftLeft | Op::ShiftRight => {
            by_any(op, Value::Long(x), Value::Long(y))
        }
    }
}

// An operator on two values of kind unsigned long long.
fn on_ulongs(op: Op, x: u64, y: u64) -> Result<Value, Fault>
    ensures { result ≡ binary_of op (ValueSpec.Ulong x) (ValueSpec.Ulong y) }
{
    match op {
        Op::Add => Ok(Value::Ulong(x.wrapping_add(y))),
        Op::Subtract => Ok(Value::Ulong(x.wrapping_sub(y))),
        Op::Multiply => Ok(Value::Ulong(x.wrapping_mul(y))),
        Op::BitAnd => Ok(Value::Ulong(x & y)),
        Op::BitOr => Ok(Value::Ulong(x | y)),
        Op::BitXor => Ok(Value::Ulong(x ^ y)),
        Op::Equal => Ok(Value::Bool(x == y)),
        Op::NotEqual => Ok(Value::Bool(x != y)),
        Op::Less => Ok(Value::Bool(x < y)),
        Op::LessOrEqual => Ok(Value::Bool(x <= y)),
        Op::Greater => Ok(Value::Bool(x > y)),
        Op::GreaterOrEqual => Ok(Value::Bool(x >= y)),
        Op::Divide | Op::Remainder | Op::ShiftLeft | Op::ShiftRight => {
            by_any(op, Value::Ulong(x), Value::Ulong(y))
        }
    }
}

// An exact result, which is there where an int holds it.
#[inline(always)]
pub(crate) fn int_or_overflow(exact: Option<i32>) -> Result<Value, Fault>
    ensures { (z : ℤ) → SomeIff exact (FitsSigned w32 z) z → result ≡ result_in kind.Int z }
{
    match exact {
        Some(x) => Ok(Value::Int(x)),
        None => Err(Fault::Overflow),
    }
}

// An exact result, which is there where a long long holds it.
#[inline(always)]
pub(crate) fn long_or_overflow(exact: Option<i64>) -> Result<Value, Fault>
    ensures { (z : ℤ) → SomeIff exact (FitsSigned w64 z) z → result ≡ result_in kind.Long z }
{
    match exact {
        Some(x) => Ok(Value::Long(x)),
        None => Err(Fault::Overflow),
    }
}
