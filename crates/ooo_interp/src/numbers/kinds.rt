//! Numbers of one kind, and operators on two of them: what plain nodes compute with.

ghost use Rattle.std.specs.Prelude.{◌≡◌, ◌<◌, IfSome, Ok};
ghost use Rattle.ooo_value.specs.Operators.{amount_of, binary_of};
ghost use Rattle.ooo_value.specs.declared.values.Value.{Value as AnyValue};
ghost use Rattle.ooo_value.specs.declared.values.Value.TheVariants as ValueSpec;

use crate::combining::{int_or_overflow, long_or_overflow};
use ooo_value::{Fault, Op, Value, binary};

// A number of one of the four kinds that have more than two values.
pub(crate) trait Number: Copy {
    // The value that a number is.
    ghost value: { Self → AnyValue };

    // A value's number, where it is of this kind.
    fn of(v: Value) -> Option<Self>
        ensures { IfSome result (λ x. v ≡ Self.value x) };

    // The value that this number is.
    fn to_value(self) -> Value
        ensures { result ≡ Self.value self };
}

// A number on which operators work at once.
pub(crate) trait Operand: Number {
    // What an operator gives on two numbers, where that is a number of their kind.
    fn by(op: Op, x: Self, y: Self) -> Option<Self>
        ensures { IfSome result (λ z. Ok (Self.value z) ≡
            binary_of op (Self.value x) (Self.value y)) };

    // Whether a comparison of two numbers holds.
    fn compared(op: Op, x: Self, y: Self) -> Option<bool>
        ensures { IfSome result (λ t. Ok (ValueSpec.Bool t) ≡
            binary_of op (Self.value x) (Self.value y)) };

    // A number shifted by an int.
    fn shifted(op: Op, x: Self, by: i32) -> Option<Self>
        ensures { IfSome result (λ z. Ok (Self.value z) ≡
            binary_of op (Self.value x) (ValueSpec.Int by)) };
}

impl Number for i32 {
    ghost value = { λ x. ValueSpec.Int x };

    #[inline(always)]
    fn of(v: Value) -> Option<i32> {
        match v {
            Value::Int(x) => Some(x),
            _ => None,
        }
    }

    #[inline(always)]
    fn to_value(self) -> Value {
        Value::Int(self)
    }
}

impl Operand for i32 {
    #[inline(always)]
    fn by(op: Op, x: i32, y: i32) -> Option<i32> {
        match op {
            Op::Add => number_of_answer(int_or_overflow(x.checked_add(y))),
            Op::Subtract => number_of_answer(int_or_overflow(x.checked_sub(y))),
            Op::Multiply => number_of_answer(int_or_overflow(x.checked_mul(y))),
            Op::BitAnd => Some(x & y),
            Op::BitOr => Some(x | y),
            Op::BitXor => Some(x ^ y),
            Op::Divide if y > 0 => Some(x / y),
            Op::Remainder if y > 0 => Some(x % y),
            _ => by_any(op, x, y),
        }
    }

    #[inline(always)]
    fn compared(op: Op, x: i32, y: i32) -> Option<bool> {
        match op {
            Op::Equal => Some(x == y),
            Op::NotEqual => Some(x != y),
            Op::Less => Some(x < y),
            Op::LessOrEqual => Some(x <= y),
            Op::Greater => Some(x > y),
            Op::GreaterOrEqual => Some(x >= y),
            _ => None,
        }
    }

    #[inline(always)]
    fn shifted(op: Op, x: i32, by: i32) -> Option<i32> {
        match op {
            Op::ShiftRight => Some(x >> amount(by, 32)?),
            _ => shifted_by_any(op, x, by),
        }
    }
}

impl Number for u32 {
    ghost value = { λ x. ValueSpec.Uint x };

    #[inline(always)]
    fn of(v: Value) -> Option<u32> {
        match v {
            Value::Uint(x) => Some(x),
            _ => None,
        }
    }

    #[inline(always)]
    fn to_value(self) -> Value {
        Value::Uint(self)
    }
}

impl Operand for u32 {
    #[inline(always)]
    fn by(op: Op, x: u32, y: u32) -> Option<u32> {
        match op {
            Op::Add => Some(x.wrapping_add(y)),
            Op::Subtract => Some(x.wrapping_sub(y)),
            Op::Multiply => Some(x.wrapping_mul(y)),
            Op::BitAnd => Some(x & y),
            Op::BitOr => Some(x | y),
            Op::BitXor => Some(x ^ y),
            Op::Divide if y > 0 => Some(x / y),
            Op::Remainder if y > 0 => Some(x % y),
            _ => by_any(op, x, y),
        }
    }

    #[inline(always)]
    fn compared(op: Op, x: u32, y: u32) -> Option<bool> {
        match op {
            Op::Equal => Some(x == y),
            Op::NotEqual => Some(x != y),
            Op::Less => Some(x < y),
            Op::LessOrEqual => Some(x <= y),
            Op::Greater => Some(x > y),
            Op::GreaterOrEqual => Some(x >= y),
            _ => None,
        }
    }

    #[inline(always)]
    fn shifted(op: Op, x: u32, by: i32) -> Option<u32> {
        match op {
            Op::ShiftRight => Some(x >> amount(by, 32)?),
            _ => shifted_by_any(op, x, by),
        }
    }
}

impl Number for i64 {
    ghost value = { λ x. ValueSpec.Long x };

    #[inline(always)]
    fn of(v: Value) -> Option<i64> {
        match v {
            Value::Long(x) => Some(x),
            _ => None,
        }
    }

    #[inline(always)]
    fn to_value(self) -> Value {
        Value::Long(self)
    }
}

impl Operand for i64 {
    #[inline(always)]
    fn by(op: Op, x: i64, y: i64) -> Option<i64> {
        match op {
            Op::Add => number_of_answer(long_or_overflow(x.checked_add(y))),
            Op::Subtract => number_of_answer(long_or_overflow(x.checked_sub(y))),
            Op::Multiply => number_of_answer(long_or_overflow(x.checked_mul(y))),
            Op::BitAnd => Some(x & y),
            Op::BitOr => Some(x | y),
            Op::BitXor => Some(x ^ y),
            Op::Divide if y > 0 => Some(x / y),
            Op::Remainder if y > 0 => Some(x % y),
            _ => by_any(op, x, y),
        }
    }

    #[inline(always)]
    fn compared(op: Op, x: i64, y: i64) -> Option<bool> {
        match op {
            Op::Equal => Some(x == y),
            Op::NotEqual => Some(x != y),
            Op::Less => Some(x < y),
            Op::LessOrEqual => Some(x <= y),
            Op::Greater => Some(x > y),
            Op::GreaterOrEqual => Some(x >= y),
            _ => None,
        }
    }

    #[inline(always)]
    fn shifted(op: Op, x: i64, by: i32) -> Option<i64> {
        match op {
            Op::ShiftRight => Some(x >> amount(by, 64)?),
            _ => shifted_by_any(op, x, by),
        }
    }
}

impl Number for u64 {
    ghost value = { λ x. ValueSpec.Ulong x };

    #[inline(always)]
    fn of(v: Value) -> Option<u64> {
        match v {
            Value::Ulong(x) => Some(x),
            _ => None,
        }
    }

    #[inline(always)]
    fn to_value(self) -> Value {
        Value::Ulong(self)
    }
}

impl Operand for u64 {
    #[inline(always)]
    fn by(op: Op, x: u64, y: u64) -> Option<u64> {
        match op {
            Op::Add => Some(x.wrapping_add(y)),
            Op::Subtract => Some(x.wrapping_sub(y)),
            Op::Multiply => Some(x.wrapping_mul(y)),
            Op::BitAnd => Some(x & y),
            Op::BitOr => Some(x | y),
            Op::BitXor => Some(x ^ y),
            Op::Divide if y > 0 => Some(x / y),
            Op::Remainder if y > 0 => Some(x % y),
            _ => by_any(op, x, y),
        }
    }

    #[inline(always)]
    fn compared(op: Op, x: u64, y: u64) -> Option<bool> {
        match op {
            Op::Equal => Some(x == y),
            Op::NotEqual => Some(x != y),
            Op::Less => Some(x < y),
            Op::LessOrEqual => Some(x <= y),
            Op::Greater => Some(x > y),
            Op::GreaterOrEqual => Some(x >= y),
            _ => None,
        }
    }

    #[inline(always)]
    fn shifted(op: Op, x: u64, by: i32) -> Option<u64> {
        match op {
            Op::ShiftRight => Some(x >> amount(by, 64)?),
            _ => shifted_by_any(op, x, by),
        }
    }
}

// The number of an answer, where it is of this kind.
#[inline(always)]
pub(crate) fn number_of_answer<N: Number>(answer: Result<Value, Fault>) -> Option<N>
    ensures { IfSome result (λ x. answer ≡ Ok (N.value x)) }
{
    match answer {
        Ok(v) => N::of(v),
        Err(_) => None,
    }
}

// What an operator gives on two numbers, by the operator on any values.
#[inline(never)]
fn by_any<N: Number>(op: Op, x: N, y: N) -> Option<N>
    ensures { IfSome result (λ z. Ok (N.value z) ≡ binary_of op (N.value x) (N.value y)) }
{
    number_of_answer(binary(op, x.to_value(), y.to_value()))
}

// A number shifted by an int, by the operator on any values.
#[inline(never)]
fn shifted_by_any<N: Number>(op: Op, x: N, by: i32) -> Option<N>
    ensures { IfSome result (λ z. Ok (N.value z) ≡ binary_of op (N.value x) (ValueSpec.Int by)) }
{
    number_of_answer(binary(op, x.to_value(), Value::Int(by)))
}

// How far to shift so many bits, where there is such an amount.
#[inline(always)]
fn amount(by: i32, width: u32) -> Option<u32>
    ensures value { IfSome result (λ n. Ok n ≡ amount_of width by) }
    ensures below { IfSome result (λ n. n < width) }
{
    if by < 0 {
        return None;
    }
    let n = by as u32;
    if n < width { Some(n) } else { None }
}
