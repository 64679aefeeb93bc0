ghost use Rattle.std.specs.Prelude.{OnOk};
ghost use Rattle.ooo_code.specs.Touches.{reads_of, wait_reads};
ghost use Rattle.ooo_access.specs.Told.{Tells, meant};

use crate::told::Told;
use ooo_code::{NodeExpr, NodeTime};
use std::alloc::AllocError;

// Tells one thing.
pub(crate) fn tell(told: &mut Vec<Told>, one: Told) -> Result<(), AllocError>
    ensures { OnOk result (Tells told.old.items told.new.items (λ events. meant events one)) }
{
    told.push(one)?;
    Ok(())
}

// Tells what an expression reads, whichever way its tests go.
#[tactic(auto, unfolding(ooo_code::specs::Touches::reads_of))]
pub(crate) fn tell_reads(told: &mut Vec<Told>, e: &NodeExpr) -> Result<(), AllocError>
    ensures { OnOk result (Tells told.old.items told.new.items (λ _. reads_of e.now)) }
{
    match e {
        NodeExpr::Constant(_) | NodeExpr::Slot(_) => Ok(()),
        NodeExpr::Variable(x) => tell(told, Told::Reads(*x)),
        NodeExpr::Element(x, i) => {
            tell(told, Told::Reads(*x))?;
            tell_reads(told, i.get())
        }
        NodeExpr::Signal(c) | NodeExpr::Event(c) | NodeExpr::Edge(c, _) => {
            tell(told, Told::ReadsSignal(*c))
        }
        NodeExpr::Available(c) => tell(told, Told::HoldsReading(*c)),
        NodeExpr::Free(c) => tell(told, Told::HoldsWriting(*c)),
        NodeExpr::Convert(_, a) | NodeExpr::Negate(a) | NodeExpr::Invert(a) | NodeExpr::Not(a) => {
            tell_reads(told, a.get())
        }
        NodeExpr::Binary(_, a, b) | NodeExpr::And(a, b) | NodeExpr::Or(a, b) => {
            tell_reads(told, a.get())?;
            tell_reads(told, b.get())
        }
        NodeExpr::Choose(c, a, b) => {
            tell_reads(told, c.get())?;
            tell_reads(told, a.get())?;
            tell_reads(told, b.get())
        }
    }
}

// Tells what the time of a wait or a notification reads, if there is one.
pub(crate) fn tell_time(told: &mut Vec<Told>, time: &Option<NodeTime>) -> Result<(), AllocError>
    ensures { OnOk result (Tells told.old.items told.new.items (λ _. wait_reads time.now)) }
{
    match time {
        Some(NodeTime::Amount(e, _)) => tell_reads(told, e),
        Some(NodeTime::Fixed(_)) | None => Ok(()),
    }
}
