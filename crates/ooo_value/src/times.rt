ghost use Rattle.std.specs.Prelude.{◌≡◌, ◌<ℤ◌, pos, IfSome, IfNone};
ghost use Rattle.ooo_value.specs.Times.{time_of};
ghost use Rattle.ooo_value.specs.Values.{number_of};

use crate::operators::Fault;
use crate::values::Value;
use ooo_time::{Scale, Time, from_amount};

/// The time of so many units.
///
/// # Errors
///
/// `BadTime` where the amount is negative, or the time above `Time::GREATEST`, as
/// `law::time_faults` says.
pub fn time_of(amount: Value, unit: Scale) -> Result<Time, Fault>
    ensures { result ≡ time_of amount unit }
{
    let Some(count) = natural(amount) else {
        return Err(Fault::BadTime);
    };
    match from_amount(count, unit) {
        Ok(time) => Ok(time),
        Err(_) => Err(Fault::BadTime),
    }
}

// The value's integer where it is not negative.
pub(crate) fn natural(v: Value) -> Option<u64>
    ensures some { IfSome result (λ n. pos n ≡ number_of v) }
    ensures none { IfNone result (number_of v <ℤ pos 0) }
{
    match v {
        Value::Bool(b) => Some(u64::from(b)),
        Value::Int(x) if x >= 0 => Some(x as u64),
        Value::Uint(x) => Some(u64::from(x)),
        Value::Long(x) if x >= 0 => Some(x as u64),
        Value::Ulong(x) => Some(x),
        Value::Int(_) | Value::Long(_) => None,
    }
}
