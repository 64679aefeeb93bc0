ghost use Rattle.std.specs.Prelude.{◌≡◌, OnOk, IfOk, slice_get};
ghost use Rattle.ooo_code.specs.Touches.{touched_by, constant_delay};
ghost use Rattle.ooo_code.specs.declared.node.NodeKind.TheVariants as kind;
ghost use Rattle.ooo_access.specs.Told.{Tells, all_meant, touched_at, touched_of};

use crate::expressions::{tell, tell_reads, tell_time};
use crate::told::Told;
use ooo_code::{Design, NodeExpr, NodeKind, NodeTime};
use ooo_time::Time;
use sqlite_items::at;
use std::alloc::{AllocError, Global};

// Tells what these nodes of a design touch.
pub(crate) fn told_of(
    alloc: Global,
    design: &Design,
    nodes: &[u32],
) -> Result<Vec<Told>, AllocError>
    ensures { IfOk result (λ told.
        all_meant design.now.events told.items ≡ touched_of design.now nodes.now) }
{
    let mut told = Vec::new(alloc);
    for n in nodes {
        tell_at(&mut told, design, *n)?;
    }
    Ok(told)
}

// Tells what the node of this number touches.
fn tell_at(told: &mut Vec<Told>, design: &Design, n: u32) -> Result<(), AllocError>
    ensures { OnOk result (Tells told.old.items told.new.items
        (λ events. touched_at events (slice_get design.now.nodes n))) }
{
    match at(design.nodes.as_slice(), n as usize) {
        Some(node) => tell_node(told, &node.kind),
        None => Ok(()),
    }
}

// Tells what a node touches.
fn tell_node(told: &mut Vec<Told>, kind: &NodeKind) -> Result<(), AllocError>
    ensures { OnOk result (Tells told.old.items told.new.items
        (λ events. touched_by events kind.now)) }
{
    match kind {
        NodeKind::Set(_, e) | NodeKind::Test(e, _) | NodeKind::PrintValue(e) => tell_reads(told, e),
        NodeKind::Store(x, i, e) => tell_store(told, *x, i, e),
        NodeKind::Write(c, e) => {
            tell(told, Told::WritesSignal(*c))?;
            tell_reads(told, e)?;
            tell(told, Told::Changes(*c))
        }
        NodeKind::TestAvailable(c, _) => tell(told, Told::HoldsReading(*c)),
        NodeKind::TestFree(c, _) => tell(told, Told::HoldsWriting(*c)),
        NodeKind::Take(c, _) => {
            tell(told, Told::HoldsReading(*c))?;
            tell(told, Told::DataRead(*c))
        }
        NodeKind::Put(c, e) => {
            tell(told, Told::HoldsWriting(*c))?;
            tell_reads(told, e)?;
            tell(told, Told::DataWritten(*c))
        }
        NodeKind::Notify(e, time) => tell_notice(told, *e, time),
        NodeKind::Cancel(e) => tell(told, Told::Cancels(*e)),
        NodeKind::Trigger(on) | NodeKind::Wait(on) => tell_time(told, &on.time),
        NodeKind::Goto
        | NodeKind::PrintText(_)
        | NodeKind::PrintTime
        | NodeKind::Stop
        | NodeKind::End => Ok(()),
    }
}

// Tells what a store touches.
fn tell_store(
    told: &mut Vec<Told>,
    x: u32,
    index: &Option<NodeExpr>,
    e: &NodeExpr,
) -> Result<(), AllocError>
    ensures { OnOk result (Tells told.old.items told.new.items
        (λ events. touched_by events (kind.Store x index.now e.now))) }
{
    tell(told, Told::Writes(x))?;
    tell_reads(told, e)?;
    match index {
        Some(i) => tell_reads(told, i),
        None => Ok(()),
    }
}

// Tells what a notification touches.
fn tell_notice(told: &mut Vec<Told>, e: u32, time: &NodeTime) -> Result<(), AllocError>
    ensures { OnOk result (Tells told.old.items told.new.items
        (λ events. touched_by events (kind.Notify e time.now))) }
{
    tell(told, Told::Notifies(e, constant(time)))?;
    match time {
        NodeTime::Fixed(_) => Ok(()),
        NodeTime::Amount(amount, _) => tell_reads(told, amount),
    }
}

// The constant time above zero that a time is, if it is one.
fn constant(time: &NodeTime) -> Option<Time>
    ensures { result ≡ constant_delay time.now }
{
    match time {
        NodeTime::Fixed(t) if *t != Time::ZERO => Some(*t),
        NodeTime::Fixed(_) | NodeTime::Amount(_, _) => None,
    }
}
