//! The channels that a process's nodes are shown something of.

ghost use Rattle.std.specs.Prelude.{◌≡◌, ◌++◌, List, length, IfOk, OnOk};
ghost use Rattle.ooo_value.specs.declared.bound.BoundEvent.{BoundEvent as BoundEventSpec};
ghost use Rattle.ooo_code.specs.Sound.{IsSound, FitsProcess};
ghost use Rattle.ooo_code.specs.Touches.{touched_by, reads_of, index_reads, time_reads, wait_reads};
ghost use Rattle.ooo_plain.specs.Engine.{AreShownTo, AreShownChannels};
ghost use Rattle.ooo_plain.specs.Schedule.{lists_of};
ghost use Rattle.ooo_plain.specs.Shown.{one_of, shown_to, shown_to_nodes};

use ooo_code::{Design, Node, NodeExpr, NodeKind, NodeTime, Proc};
use std::alloc::{AllocError, Global};

/// Of each process, the channels that its nodes are shown something of, ascending.
///
/// # Errors
///
/// Only where memory runs out.
pub fn all_shown_channels(alloc: Global, design: &Design) -> Result<Vec<Vec<u32>>, AllocError>
    requires { IsSound design.now }
    ensures { IfOk result (λ lists.
        AreShownChannels design.now (length design.now.processes) (lists_of lists.items)) }
{
    let processes = design.processes.as_slice();
    let mut lists = Vec::new(alloc);
    for p in 0..processes.len() {
        let shown = keeping!(lists; shown_channels_of(alloc, design, &processes[p]));
        lists.push(shown)?;
    }
    Ok(lists)
}

// The channels that a process's nodes are shown something of, ascending.
fn shown_channels_of(alloc: Global, design: &Design, process: &Proc) -> Result<Vec<u32>, AllocError>
    requires { FitsProcess design.now process.now }
    ensures { IfOk result (λ shown. AreShownTo design.now process.now shown.items) }
{
    let nodes = &design.nodes.as_slice()[process.first as usize..process.end as usize];
    let mut shown = told_of(alloc, design.channels.len(), nodes)?;
    shown.sort_unstable();
    shown.dedup();
    Ok(shown)
}

// The channels, of so many, that these nodes are shown something of, each as often as it is named.
fn told_of(alloc: Global, count: usize, nodes: &[Node]) -> Result<Vec<u32>, AllocError>
    ensures { IfOk result (λ told. (events : List BoundEventSpec) →
        told.items ≡ shown_to_nodes count events nodes.now) }
{
    let mut told = Vec::new(alloc);
    for node in nodes {
        keeping!(told; tell_node(&mut told, count, &node.kind));
    }
    Ok(told)
}

// Tells a channel, if it is one of so many.
fn tell(told: &mut Vec<u32>, count: usize, c: u32) -> Result<(), AllocError>
    ensures { OnOk result (told.new.items ≡ told.old.items ++ one_of count c) }
{
    if (c as usize) < count {
        told.push(c)?;
    }
    Ok(())
}

// Tells the channels that an expression reads, whichever way its tests go.
#[tactic(auto, unfolding(ooo_code::specs::Touches::reads_of))]
fn tell_reads(told: &mut Vec<u32>, count: usize, e: &NodeExpr) -> Result<(), AllocError>
    ensures { OnOk result (told.new.items ≡ told.old.items ++ shown_to count (reads_of e.now)) }
{
    match e {
        NodeExpr::Constant(_) | NodeExpr::Slot(_) | NodeExpr::Variable(_) => Ok(()),
        NodeExpr::Element(_, i) => tell_reads(told, count, i.get()),
        NodeExpr::Signal(c) | NodeExpr::Event(c) | NodeExpr::Edge(c, _) => tell(told, count, *c),
        NodeExpr::Available(c) | NodeExpr::Free(c) => tell(told, count, *c),
        NodeExpr::Convert(_, a) | NodeExpr::Negate(a) | NodeExpr::Invert(a) | NodeExpr::Not(a) => {
            tell_reads(told, count, a.get())
        }
        NodeExpr::Binary(_, a, b) | NodeExpr::And(a, b) | NodeExpr::Or(a, b) => {
            tell_reads(told, count, a.get())?;
            tell_reads(told, count, b.get())
        }
        NodeExpr::Choose(c, a, b) => {
            tell_reads(told, count, c.get())?;
            tell_reads(told, count, a.get())?;
            tell_reads(told, count, b.get())
        }
    }
}

// Tells the channels that a time reads.
fn tell_time(told: &mut Vec<u32>, count: usize, time: &NodeTime) -> Result<(), AllocError>
    ensures { OnOk result (
        told.new.items ≡ told.old.items ++ shown_to count (time_reads time.now)) }
{
    match time {
        NodeTime::Fixed(_) => Ok(()),
        NodeTime::Amount(e, _) => tell_reads(told, count, e),
    }
}

// Tells the channels that the time of a wait reads, if it has one.
fn tell_wait(told: &mut Vec<u32>, count: usize, time: &Option<NodeTime>) -> Result<(), AllocError>
    ensures { OnOk result (
        told.new.items ≡ told.old.items ++ shown_to count (wait_reads time.now)) }
{
    match time {
        Some(t) => tell_time(told, count, t),
        None => Ok(()),
    }
}

// Tells the channels that an index reads, if there is one.
fn tell_index(told: &mut Vec<u32>, count: usize, i: &Option<NodeExpr>) -> Result<(), AllocError>
    ensures { OnOk result (told.new.items ≡ told.old.items ++ shown_to count (index_reads i.now)) }
{
    match i {
        Some(e) => tell_reads(told, count, e),
        None => Ok(()),
    }
}

// Tells the channels that a node is shown something of.
fn tell_node(told: &mut Vec<u32>, count: usize, kind: &NodeKind) -> Result<(), AllocError>
    ensures { OnOk result ((events : List BoundEventSpec) →
        told.new.items ≡ told.old.items ++ shown_to count (touched_by events kind.now)) }
{
    match kind {
        NodeKind::Set(_, e)
        | NodeKind::Test(e, _)
        | NodeKind::PrintValue(e)
        | NodeKind::Write(_, e) => tell_reads(told, count, e),
        NodeKind::Store(_, i, e) => {
            tell_reads(told, count, e)?;
            tell_index(told, count, i)
        }
        NodeKind::TestAvailable(c, _) | NodeKind::TestFree(c, _) | NodeKind::Take(c, _) => {
            tell(told, count, *c)
        }
        NodeKind::Put(c, e) => {
            tell(told, count, *c)?;
            tell_reads(told, count, e)
        }
        NodeKind::Notify(_, time) => tell_time(told, count, time),
        NodeKind::Trigger(on) | NodeKind::Wait(on) => tell_wait(told, count, &on.time),
        NodeKind::Goto
        | NodeKind::PrintText(_)
        | NodeKind::PrintTime
        | NodeKind::Cancel(_)
        | NodeKind::Stop
        | NodeKind::End => Ok(()),
    }
}
