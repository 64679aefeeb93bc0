ghost use Rattle.std.specs.Prelude.{◌≡◌, int_div, int_rem};
ghost use Rattle.ooo_value.specs.Operators.{divided_in};
ghost use Rattle.ooo_value.specs.Pairs.{pair_kind, left_of, right_of};

use crate::operators::Fault;
use crate::pairs::Pair;
use crate::values::Value;

// `/`, which cuts towards zero.
pub(crate) fn divide(pair: Pair) -> Result<Value, Fault>
    ensures { result ≡ divided_in int_div (pair_kind pair) (left_of pair) (right_of pair) }
{
    if pair.is_right_zero() {
        return Err(Fault::DivideByZero);
    }
    match pair {
        Pair::Int(a, b) => match a.checked_div(b) {
            Some(quotient) => Ok(Value::Int(quotient)),
            None => Err(Fault::Overflow),
        },
        Pair::Uint(a, b) => Ok(Value::Uint(a / b)),
        Pair::Long(a, b) => match a.checked_div(b) {
            Some(quotient) => Ok(Value::Long(quotient)),
            None => Err(Fault::Overflow),
        },
        Pair::Ulong(a, b) => Ok(Value::Ulong(a / b)),
    }
}

// `%`, with the sign of the left side. It faults where `/` does.
pub(crate) fn remainder(pair: Pair) -> Result<Value, Fault>
    ensures { result ≡ divided_in int_rem (pair_kind pair) (left_of pair) (right_of pair) }
{
    if pair.is_right_zero() {
        return Err(Fault::DivideByZero);
    }
    match pair {
        Pair::Int(a, b) => match a.checked_rem(b) {
            Some(rest) => Ok(Value::Int(rest)),
            None => Err(Fault::Overflow),
        },
        Pair::Uint(a, b) => Ok(Value::Uint(a % b)),
        Pair::Long(a, b) => match a.checked_rem(b) {
            Some(rest) => Ok(Value::Long(rest)),
            None => Err(Fault::Overflow),
        },
        Pair::Ulong(a, b) => Ok(Value::Ulong(a % b)),
    }
}
