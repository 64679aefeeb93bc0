ghost use Rattle.std.specs.Prelude.{◌≡◌};
ghost use Rattle.ooo_value.specs.Operators.{binary_of};

use crate::arithmetic::{add, multiply, subtract};
use crate::bits::{and, or, xor};
use crate::comparisons::{equal, less, less_or_equal};
use crate::division::{divide, remainder};
use crate::pairs::Pair;
use crate::shifts::{shift_left, shift_right};
use crate::values::Value;

/// An operator on two values.
#[derive(Clone, Copy, PartialEq, Eq, Debug)]
pub enum Op {
    /// `+`
    Add,
    /// `-`
    Subtract,
    /// `*`
    Multiply,
    /// `/`
    Divide,
    /// `%`
    Remainder,
    /// `&`
    BitAnd,
    /// `|`
    BitOr,
    /// `^`
    BitXor,
    /// `<<`
    ShiftLeft,
    /// `>>`
    ShiftRight,
    /// `==`
    Equal,
    /// `!=`
    NotEqual,
    /// `<`
    Less,
    /// `<=`
    LessOrEqual,
    /// `>`
    Greater,
    /// `>=`
    GreaterOrEqual,
}

/// What ends a run where C++ leaves the behaviour undefined.
#[derive(Clone, Copy, PartialEq, Eq, Debug)]
pub enum Fault {
    /// A signed result outside its kind.
    Overflow,
    /// A zero divisor.
    DivideByZero,
    /// A shift by a negative amount, or by one that isn't below the width.
    ShiftRange,
    /// An index that is negative or not below the length.
    IndexRange,
    /// A time that is negative or too large.
    BadTime,
}

/// An operator on two values (ISO C++ [expr.mul] to [expr.or]). Each operand is taken in the
/// common kind of both, and for a shift in its own promoted kind.
///
/// # Errors
///
/// `Overflow` where a signed result, for `%` that of the quotient, is outside its kind,
/// `DivideByZero` where the divisor is 0, and `ShiftRange` where the amount of a shift is negative
/// or not below the width, as `law::binary_faults` says.
pub fn binary(op: Op, a: Value, b: Value) -> Result<Value, Fault>
    ensures { result ≡ binary_of op a b }
{
    let pair = Pair::of(a, b);
    match op {
        Op::Add => add(pair),
        Op::Subtract => subtract(pair),
        Op::Multiply => multiply(pair),
        Op::Divide => divide(pair),
        Op::Remainder => remainder(pair),
        Op::BitAnd => Ok(and(pair)),
        Op::BitOr => Ok(or(pair)),
        Op::BitXor => Ok(xor(pair)),
        Op::ShiftLeft => shift_left(a, b),
        Op::ShiftRight => shift_right(a, b),
        Op::Equal => Ok(Value::Bool(equal(pair))),
        Op::NotEqual => Ok(Value::Bool(!equal(pair))),
        Op::Less => Ok(Value::Bool(less(pair))),
        Op::LessOrEqual => Ok(Value::Bool(less_or_equal(pair))),
        Op::Greater => Ok(Value::Bool(!less_or_equal(pair))),
        Op::GreaterOrEqual => Ok(Value::Bool(!less(pair))),
    }
}
