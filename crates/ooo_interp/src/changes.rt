//! What nodes do that change a local, a variable or a channel.

ghost use Rattle.std.specs.Prelude.{◌≡◌, Some, None};
ghost use Rattle.ooo_code.specs.declared.node.NodeKind.TheVariants as kind;
ghost use Rattle.ooo_interp.specs.Acting.{ActsOn, Emits};

use crate::doing::{Break, Emitted};
use crate::expressions::{evaluate, index_below};
use crate::parts::Lent;
use ooo_code::{Effect, NodeExpr};
use ooo_value::Fault;

// A local gets a value.
pub(crate) fn set<'a, L: Lent>(
    lent: &mut L,
    slot: u32,
    e: &NodeExpr,
    to: u32,
) -> Result<u32, Break<'a>>
    ensures acts { ActsOn (kind.Set slot e.now) to result
        (L.sight lent.old) (L.sight lent.new) }
    ensures kept { L.kept lent.new ≡ L.kept lent.old }
{
    let v = evaluate(lent, e)?;
    lent.set_slot(slot, v);
    Ok(to)
}

// A variable, or its element at an index, gets a value.
pub(crate) fn store<'a, L: Lent>(
    lent: &mut L,
    variable: u32,
    index: &Option<NodeExpr>,
    e: &NodeExpr,
    to: u32,
) -> Result<u32, Break<'a>>
    ensures acts { ActsOn (kind.Store variable index.now e.now) to result
        (L.sight lent.old) (L.sight lent.new) }
    ensures kept { L.kept lent.new ≡ L.kept lent.old }
{
    match index {
        None => store_scalar(lent, variable, e, to),
        Some(i) => store_at(lent, variable, i, e, to),
    }
}

// A scalar variable gets a value.
fn store_scalar<'a, L: Lent>(
    lent: &mut L,
    variable: u32,
    e: &NodeExpr,
    to: u32,
) -> Result<u32, Break<'a>>
    ensures acts { ActsOn (kind.Store variable None e.now) to result
        (L.sight lent.old) (L.sight lent.new) }
    ensures kept { L.kept lent.new ≡ L.kept lent.old }
{
    let v = evaluate(lent, e)?;
    lent.set_cell(variable, 0, v);
    Ok(to)
}

// An element of a variable gets a value. The value is evaluated before the index.
fn store_at<'a, L: Lent>(
    lent: &mut L,
    variable: u32,
    i: &NodeExpr,
    e: &NodeExpr,
    to: u32,
) -> Result<u32, Break<'a>>
    ensures acts { ActsOn (kind.Store variable (Some i.now) e.now) to result
        (L.sight lent.old) (L.sight lent.new) }
    ensures kept { L.kept lent.new ≡ L.kept lent.old }
{
    let v = evaluate(lent, e)?;
    let index = evaluate(lent, i)?;
    let Some(at) = index_below(lent.cells(variable).len(), index) else {
        return Err(Break::Faults(Fault::IndexRange));
    };
    lent.set_cell(variable, at, v);
    Ok(to)
}

// A value of a signal is requested.
pub(crate) fn write<'a, L: Lent>(
    lent: &L,
    emitted: &mut Emitted,
    signal: u32,
    e: &NodeExpr,
    to: u32,
) -> Result<u32, Break<'a>>
    ensures { let s = L.sight lent.now in
        Emits (kind.Write signal e.now) to result s emitted.old s emitted.new }
{
    let v = evaluate(lent, e)?;
    emitted.go_with(Effect::Request(signal, v), to)
}

// A value of a fifo is taken into a local, where one is available.
pub(crate) fn take<'a, L: Lent>(
    lent: &mut L,
    emitted: &mut Emitted,
    fifo: u32,
    slot: u32,
    to: u32,
) -> Result<u32, Break<'a>>
    ensures acts { Emits (kind.Take fifo slot) to result
        (L.sight lent.old) emitted.old (L.sight lent.new) emitted.new }
    ensures kept { L.kept lent.new ≡ L.kept lent.old }
{
    let Some(v) = lent.first(fifo) else {
        return Ok(to);
    };
    lent.set_slot(slot, v);
    lent.take(fifo);
    emitted.go_with(Effect::Take(fifo), to)
}

// A value is put into a fifo.
pub(crate) fn put<'a, L: Lent>(
    lent: &mut L,
    emitted: &mut Emitted,
    fifo: u32,
    e: &NodeExpr,
    to: u32,
) -> Result<u32, Break<'a>>
    ensures acts { Emits (kind.Put fifo e.now) to result
        (L.sight lent.old) emitted.old (L.sight lent.new) emitted.new }
    ensures kept { L.kept lent.new ≡ L.kept lent.old }
{
    let v = evaluate(lent, e)?;
    lent.put(fifo);
    emitted.go_with(Effect::Put(fifo, v), to)
}
