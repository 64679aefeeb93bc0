ghost use Rattle.std.specs.Prelude.{◌≡◌, ◌<◌, IfOk};
ghost use Rattle.std.specs.Int.{int_shr};
ghost use Rattle.ooo_value.specs.Operators.{amount_of, shift_of, times_power};
ghost use Rattle.ooo_value.specs.Values.{number_of};

use crate::operators::Fault;
use crate::times::natural;
use crate::values::Value;

// `<<`, in the promoted kind of the left side. It wraps.
#[tactic(auto, using(crate::proofs::Wraps::shl))]
pub(crate) fn shift_left(v: Value, by: Value) -> Result<Value, Fault>
    ensures { result ≡ shift_of times_power v by }
{
    Ok(match v {
        Value::Bool(b) => Value::Int(i32::from(b) << amount(by, 32)?),
        Value::Int(x) => Value::Int(x << amount(by, 32)?),
        Value::Uint(x) => Value::Uint(x << amount(by, 32)?),
        Value::Long(x) => Value::Long(x << amount(by, 64)?),
        Value::Ulong(x) => Value::Ulong(x << amount(by, 64)?),
    })
}

// `>>`, in the promoted kind of the left side. It copies the sign.
pub(crate) fn shift_right(v: Value, by: Value) -> Result<Value, Fault>
    ensures { result ≡ shift_of int_shr v by }
{
    Ok(match v {
        Value::Bool(b) => Value::Int(i32::from(b) >> amount(by, 32)?),
        Value::Int(x) => Value::Int(x >> amount(by, 32)?),
        Value::Uint(x) => Value::Uint(x >> amount(by, 32)?),
        Value::Long(x) => Value::Long(x >> amount(by, 64)?),
        Value::Ulong(x) => Value::Ulong(x >> amount(by, 64)?),
    })
}

// How far to shift a value of so many bits.
fn amount(by: Value, width: u32) -> Result<u32, Fault>
    ensures value { result ≡ amount_of width (number_of by) }
    ensures below { IfOk result (λ n. n < width) }
{
    match natural(by) {
        Some(n) if n < u64::from(width) => Ok(n as u32),
        _ => Err(Fault::ShiftRange),
    }
}
