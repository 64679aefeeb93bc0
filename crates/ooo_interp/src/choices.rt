//! What nodes do that choose between two next nodes.

ghost use Rattle.std.specs.Prelude.{Ok};
ghost use Rattle.ooo_code.specs.declared.node.NodeKind.TheVariants as kind;
ghost use Rattle.ooo_interp.specs.Acting.{ActsOn};

use crate::doing::Break;
use crate::expressions::evaluate;
use crate::parts::Lent;
use ooo_code::NodeExpr;
use ooo_value::truth;

// Goes to another node where a value is 0.
pub(crate) fn test<'a, L: Lent>(
    lent: &L,
    e: &NodeExpr,
    to: u32,
    other: u32,
) -> Result<u32, Break<'a>>
    ensures { let s = L.sight lent.now in ActsOn (kind.Test e.now other) to result s s }
{
    let v = evaluate(lent, e)?;
    if truth(v) { Ok(to) } else { Ok(other) }
}

// Goes to another node where no value of a fifo is available.
pub(crate) fn test_available<L: Lent>(lent: &L, fifo: u32, to: u32, other: u32) -> u32
    ensures { let s = L.sight lent.now in
        ActsOn (kind.TestAvailable fifo other) to (Ok result) s s }
{
    match lent.first(fifo) {
        Some(_) => to,
        None => other,
    }
}

// Goes to another node where no slot of a fifo is free.
pub(crate) fn test_free<L: Lent>(lent: &L, fifo: u32, to: u32, other: u32) -> u32
    ensures { let s = L.sight lent.now in ActsOn (kind.TestFree fifo other) to (Ok result) s s }
{
    if lent.free(fifo) == 0 { other } else { to }
}
