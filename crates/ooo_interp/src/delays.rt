ghost use Rattle.std.specs.Prelude.{◌≡◌};
ghost use Rattle.ooo_code.specs.Expressions.{time_given};
ghost use Rattle.ooo_code.specs.Nodes.{wait_time};

use crate::expressions::evaluate;
use crate::parts::Lent;
use ooo_code::NodeTime;
use ooo_time::Time;
use ooo_value::{Fault, time_of};

// The time that a time in a node gives.
pub(crate) fn delay<L: Lent>(lent: &L, time: &NodeTime) -> Result<Time, Fault>
    ensures { result ≡ time_given time.now (L.sight lent.now) }
{
    match time {
        NodeTime::Fixed(t) => Ok(*t),
        NodeTime::Amount(e, scale) => {
            let amount = evaluate(lent, e)?;
            time_of(amount, *scale)
        }
    }
}

// The time of a wait, if it has one.
pub(crate) fn delay_of_wait<L: Lent>(
    lent: &L,
    time: &Option<NodeTime>,
) -> Result<Option<Time>, Fault>
    ensures { result ≡ wait_time time.now (L.sight lent.now) }
{
    match time {
        None => Ok(None),
        Some(time) => {
            let given = delay(lent, time)?;
            Ok(Some(given))
        }
    }
}
