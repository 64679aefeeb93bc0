ghost use Rattle.std.specs.Prelude.{◌≡◌, IfOk, Some};
ghost use Rattle.std.specs.List.{position_from};
ghost use Rattle.ooo_activation.specs.Activations.{channel_kind, one_event};
ghost use Rattle.ooo_activation.specs.Activations.{variable_kind as kind_of_variable};
ghost use Rattle.ooo_code.specs.declared.node.NodeKind.TheVariants as node;
ghost use Rattle.ooo_layout.specs.Scenes.{home_at};
ghost use Rattle.ooo_lower.specs.Changes.{events_of, is_event};
ghost use Rattle.ooo_shapes.specs.Expressions.{converted, index_slot, kind_number, lowered, slot_of};
ghost use Rattle.ooo_shapes.specs.Expressions.{value_slot};
ghost use Rattle.ooo_shapes.specs.Shapes.{leave_kind, result_expr, return_kind};
ghost use Rattle.ooo_shapes.specs.Simples.{aim_kind, channel_slot, current_expr, item_kind, lowered_wait};
ghost use Rattle.ooo_shapes.specs.Simples.{put_at_kind, put_kind, wait_kind};

use crate::expressions::{converted, lowered, lowered_wait_time, slot_of};
use ooo_bound::{BoundExpr, BoundItem, BoundTarget, BoundWait};
use ooo_code::{NodeExpr, NodeKind, NodeWait};
use ooo_layout::kinds::{kind_in, kind_of_channel, kind_of_variable};
use ooo_layout::numbers::narrow;
use ooo_layout::scene::Scene;
use ooo_shapes::Around;
use ooo_value::{BoundEvent, Kind, Value};
use sqlite_items::{Boxed, Items};
use std::alloc::{AllocError, Global};

// The place of a kind among the five.
fn kind_number(kind: Kind) -> u32
    ensures { result ≡ kind_number kind }
{
    match kind {
        Kind::Bool => 0,
        Kind::Int => 1,
        Kind::Uint => 2,
        Kind::Long => 3,
        Kind::Ulong => 4,
    }
}

/// The slot that holds a value of a kind within a statement.
pub(crate) fn value_slot(kind: Kind) -> u32
    ensures { result ≡ value_slot kind }
{
    kind_number(kind)
}

/// The slot that holds an index of a kind within a statement.
pub(crate) fn index_slot(kind: Kind) -> u32
    ensures { result ≡ index_slot kind }
{
    match kind {
        Kind::Bool => 5,
        Kind::Int => 6,
        Kind::Uint => 7,
        Kind::Long => 8,
        Kind::Ulong => 9,
    }
}

/// The slot for a value of a channel.
pub(crate) fn channel_slot(scene: Scene<'_>, channel: u32) -> u32
    ensures { result ≡ channel_slot (home_at scene.entry) channel }
{
    value_slot(kind_of_channel(scene.known.model, channel))
}

/// A value goes to the slot of a local.
pub(crate) fn set_kind(
    alloc: Global,
    t: Around,
    kind: Kind,
    slot: u32,
    value: NodeExpr,
) -> Result<NodeKind, AllocError>
    ensures { IfOk result (λ k. k ≡ node.Set (slot_of t kind slot) (converted kind value)) }
{
    let value = got!(converted(alloc, kind, value));
    let slot = keeping!(value; slot_of(t, kind, slot));
    Ok(NodeKind::Set(slot, value))
}

/// A value goes to a variable, or where there is an index to this element of it.
pub(crate) fn store_kind(
    alloc: Global,
    scene: Scene<'_>,
    variable: u32,
    index: Option<NodeExpr>,
    value: NodeExpr,
) -> Result<NodeKind, AllocError>
    ensures { IfOk result (λ k. k ≡ node.Store variable index
        (converted (kind_of_variable scene.entry.known.model.now variable) value)) }
{
    let kind = kind_of_variable(scene.known.model, variable);
    let value = keeping!(index; converted(alloc, kind, value));
    Ok(NodeKind::Store(variable, index, value))
}

// A value goes to a signal.
fn write_kind(
    alloc: Global,
    scene: Scene<'_>,
    channel: u32,
    value: NodeExpr,
) -> Result<NodeKind, AllocError>
    ensures { IfOk result (λ k. k ≡
        node.Write channel (converted (channel_kind scene.entry.known.model.now channel) value)) }
{
    let kind = kind_of_channel(scene.known.model, channel);
    let value = got!(converted(alloc, kind, value));
    Ok(NodeKind::Write(channel, value))
}

// A value goes to an element, whose index is evaluated then.
fn element_kind(
    alloc: Global,
    scene: Scene<'_>,
    t: Around,
    variable: u32,
    index: &BoundExpr,
    value: NodeExpr,
) -> Result<NodeKind, AllocError>
    ensures { IfOk result (λ k. k ≡ node.Store variable (Some (lowered t index.now))
        (converted (kind_of_variable scene.entry.known.model.now variable) value)) }
{
    let index = keeping!(value; lowered(alloc, t, index));
    store_kind(alloc, scene, variable, Some(index), value)
}

/// A value is put into a target, whose index is evaluated then.
pub(crate) fn put_kind(
    alloc: Global,
    scene: Scene<'_>,
    t: Around,
    into: &BoundTarget,
    value: NodeExpr,
    next: u32,
) -> Result<NodeKind, AllocError>
    ensures { IfOk result (λ k. k ≡ put_kind (home_at scene.entry) t into.now value next) }
{
    match into {
        BoundTarget::Nothing => Ok(NodeKind::Test(value, next)),
        BoundTarget::Local(kind, slot) => set_kind(alloc, t, *kind, *slot, value),
        BoundTarget::Variable(variable) => store_kind(alloc, scene, *variable, None, value),
        BoundTarget::Element(variable, index) => {
            element_kind(alloc, scene, t, *variable, index, value)
        }
        BoundTarget::Signal(channel) => write_kind(alloc, scene, *channel, value),
    }
}

/// The same where the index was evaluated before, and stands in its slot.
pub(crate) fn put_at_kind(
    alloc: Global,
    scene: Scene<'_>,
    t: Around,
    into: &BoundTarget,
    value: NodeExpr,
    next: u32,
) -> Result<NodeKind, AllocError>
    ensures { IfOk result (λ k. k ≡ put_at_kind (home_at scene.entry) t into.now value next) }
{
    match into {
        BoundTarget::Element(variable, index) => {
            let index = NodeExpr::Slot(index_slot(kind_in(scene.known.model, index)));
            store_kind(alloc, scene, *variable, Some(index), value)
        }
        _ => put_kind(alloc, scene, t, into, value, next),
    }
}

/// The index of a target is evaluated into its slot; a target without one needs nothing.
pub(crate) fn aim_kind(
    alloc: Global,
    scene: Scene<'_>,
    t: Around,
    into: &BoundTarget,
) -> Result<NodeKind, AllocError>
    ensures { IfOk result (λ k. k ≡ aim_kind (home_at scene.entry) t into.now) }
{
    match into {
        BoundTarget::Element(_, index) => {
            let slot = index_slot(kind_in(scene.known.model, index));
            Ok(NodeKind::Set(slot, got!(lowered(alloc, t, index))))
        }
        _ => Ok(NodeKind::Goto),
    }
}

/// What stands in a target without an index.
pub(crate) fn current_expr(t: Around, into: &BoundTarget) -> Result<NodeExpr, AllocError>
    ensures { IfOk result (λ e. e ≡ current_expr t into.now) }
{
    match into {
        BoundTarget::Local(kind, slot) => Ok(NodeExpr::Slot(got!(slot_of(t, *kind, *slot)))),
        BoundTarget::Variable(variable) => Ok(NodeExpr::Variable(*variable)),
        BoundTarget::Signal(channel) => Ok(NodeExpr::Signal(*channel)),
        BoundTarget::Nothing | BoundTarget::Element(_, _) => Ok(NodeExpr::Constant(Value::Int(0))),
    }
}

/// What happens to a fifo, for which a blocking call of it waits (IEEE 1666-2011, 6.23).
#[derive(Clone, Copy)]
pub(crate) enum Change {
    Written,
    Read,
}

// The event is that of the fifo's change.
fn is_event(change: Change, fifo: u32, event: BoundEvent) -> bool
    ensures { result ≡ is_event change fifo event }
{
    match event {
        BoundEvent::Written(of) => change == Change::Written && of == fifo,
        BoundEvent::Taken(of) => change == Change::Read && of == fifo,
        BoundEvent::Own | BoundEvent::Changed(_) | BoundEvent::Rise(_) | BoundEvent::Fall(_) =>
            false,
    }
}

// The number of the event of a fifo's change, if there is it.
fn event_of(events: &[BoundEvent], change: Change, fifo: u32) -> Option<usize>
    ensures { result ≡ position_from (is_event change fifo) 0 events.now }
{
    let mut at = 0;
    'events: for event in events {
        if is_event(change, fifo, *event) {
            return Some(at);
        }
        at += 1;
    }
    None
}

// An event, in a list, if there is it.
fn one_event(alloc: Global, event: Option<usize>) -> Result<Items<u32>, AllocError>
    ensures { IfOk result (λ es. es ≡ one_event event) }
{
    match event {
        None => Ok(Items::new(alloc)),
        Some(event) => {
            let event = narrow(event as u64)?;
            Items::from_slice(alloc, &[event])
        }
    }
}

// The event of a fifo's change, in a list, if there is it.
#[tactic(auto, using(crate::proofs::Firsts::events_are))]
fn events_for(
    alloc: Global,
    scene: Scene<'_>,
    change: Change,
    fifo: u32,
) -> Result<Items<u32>, AllocError>
    ensures { IfOk result (λ es. es ≡ events_of scene.entry.known.model.now change fifo) }
{
    let event = event_of(scene.known.model.events.as_slice(), change, fifo);
    one_event(alloc, event)
}

/// A wait for a change of a fifo.
pub(crate) fn wait_for(
    alloc: Global,
    scene: Scene<'_>,
    change: Change,
    fifo: u32,
) -> Result<NodeKind, AllocError>
    ensures { IfOk result (λ k. k ≡ wait_kind (events_of scene.entry.known.model.now change fifo)) }
{
    let events = got!(events_for(alloc, scene, change, fifo));
    Ok(NodeKind::Wait(NodeWait {
        time: None,
        events,
        is_static: false,
    }))
}

/// What a wait or a trigger waits for (5.2.17 and 5.2.18).
pub(crate) fn lowered_wait(
    alloc: Global,
    scene: Scene<'_>,
    t: Around,
    wait: &BoundWait,
) -> Result<NodeWait, AllocError>
    ensures { IfOk result (λ w. w ≡ lowered_wait (home_at scene.entry) t wait.now) }
{
    let time = got!(lowered_wait_time(alloc, t, &wait.time));
    let named = if wait.is_static {
        scene.sensitive.as_slice()
    } else {
        wait.events.as_slice()
    };
    let events = keeping!(time; Items::from_slice(alloc, named));
    Ok(NodeWait {
        time,
        events,
        is_static: wait.is_static,
    })
}

/// An item of a print.
pub(crate) fn item_kind(alloc: Global, t: Around, item: &BoundItem) -> Result<NodeKind, AllocError>
    ensures { IfOk result (λ k. k ≡ item_kind t item.now) }
{
    match item {
        BoundItem::Value(e) => Ok(NodeKind::PrintValue(got!(lowered(alloc, t, e)))),
        BoundItem::Text(text) => Ok(NodeKind::PrintText(Items::from_slice(
            alloc,
            text.as_bytes(),
        )?)),
        BoundItem::Time => Ok(NodeKind::PrintTime),
    }
}

/// `return`: its value goes to the result's slot, where the function has a result.
pub(crate) fn return_kind(
    alloc: Global,
    t: Around,
    value: &Option<Boxed<BoundExpr>>,
) -> Result<NodeKind, AllocError>
    ensures { IfOk result (λ k. k ≡ return_kind t value.now) }
{
    match value {
        None => Ok(NodeKind::Goto),
        Some(e) => {
            let value = got!(lowered(alloc, t, e.get()));
            match t.result {
                None => Ok(NodeKind::Test(value, t.return_to)),
                Some(kind) => {
                    let value = got!(converted(alloc, kind, value));
                    Ok(NodeKind::Set(t.result_slot, value))
                }
            }
        }
    }
}

/// What a call gives: the result, or a value for what has none.
pub(crate) fn result_expr(kind: Option<Kind>, slot: u32) -> NodeExpr
    ensures { result ≡ result_expr kind slot }
{
    match kind {
        None => NodeExpr::Constant(Value::Int(0)),
        Some(_) => NodeExpr::Slot(slot),
    }
}
