//! The loop over the nodes of an activation: how many statements it may count, where it goes on, and how it ends.

ghost use Rattle.std.specs.Prelude.{◌≡◌, IfOk, None};
ghost use Rattle.ooo_code.specs.declared.activation.Frame.{Frame};
ghost use Rattle.ooo_code.specs.Nodes.{Doing, Next, Running, act, steps};
ghost use Rattle.ooo_code.specs.Outcomes.{Outcome};
ghost use Rattle.ooo_interp.specs.Acting.{IsBreak, doing_of, ended_by, running_of};
ghost use Rattle.ooo_interp.specs.Running.{Comes, Shortens, Turns, from_node};

use crate::acting::{act, at_end};
use crate::counting::Left;
use crate::doing::{Activation, Break, Emitted, Halt, Pause};
use crate::parts::Lent;
use crate::plainly::do_plainly;
use ooo_code::{Node, NodeKind};
use sqlite_items::at;
use std::alloc::AllocError;

// What a turn of the loop over nodes comes to.
#[derive(Drop)]
pub enum Turn<'a> {
    // On to this node.
    Goes(u32),
    Over(Halt<'a>),
}

/// Runs an activation from a node on, with a statement limit: what it does is done on the parts lent, and added to
/// what it emitted.
///
/// # Errors
///
/// Only where memory runs out.
pub fn run_nodes<'a, L: Lent>(
    lent: &mut L,
    emitted: &mut Emitted,
    nodes: &'a [Node],
    activation: &Activation<'a>,
    first: u32,
    statements: u32,
) -> Result<Halt<'a>, AllocError>
    ensures does { let r = running_of activation.now in
        IfOk result (λ halt. steps nodes.now r statements first
        (doing_of (L.sight lent.old) emitted.old None)
        ≡ ended_by r halt (doing_of (L.sight lent.new) emitted.new None)) }
    ensures kept { L.kept lent.new ≡ L.kept lent.old }
{
    let mut left = Left::new(statements, nodes.len());
    let mut number = first;
    let mut trigger = None;
    'turns: loop {
        match go_on(
            lent,
            emitted,
            &mut trigger,
            nodes,
            activation,
            number,
            &mut left,
        )? {
            Turn::Goes(to) => number = to,
            Turn::Over(halt) => {
                emitted.counted = statements.saturating_sub(left.statements);
                return Ok(halt);
            }
        }
    }
}

// Goes on from a node by one. What it answers is large, so it isn't handed through the stack.
#[inline(always)]
fn go_on<'a, L: Lent>(
    lent: &mut L,
    emitted: &mut Emitted,
    trigger: &mut Option<Pause<'a>>,
    nodes: &'a [Node],
    activation: &Activation<'a>,
    number: u32,
    left: &mut Left,
) -> Result<Turn<'a>, AllocError>
    ensures comes { let r = running_of activation.now in
        let before = doing_of (L.sight lent.old) emitted.old trigger.old in
        let after = doing_of (L.sight lent.new) emitted.new trigger.new in
        IfOk result (λ t. Comes nodes.now r left.new t after
        (from_node nodes.now r left.old number before)) }
    ensures shortens { IfOk result (λ t. Shortens nodes.now left.old left.new t) }
    ensures kept { L.kept lent.new ≡ L.kept lent.old }
{
    if !left.pass() {
        return Ok(Turn::Over(Halt::Ended));
    }
    let Some(node) = at(nodes, number as usize) else {
        return Ok(Turn::Over(Halt::Ended));
    };
    if !left.count(node, nodes.len()) {
        return Ok(Turn::Over(Halt::Limit(node.line)));
    }
    do_node(lent, emitted, trigger, activation, node, number)
}

// Does what a node does, at once where that is plain.
#[inline(always)]
fn do_node<'a, L: Lent>(
    lent: &mut L,
    emitted: &mut Emitted,
    trigger: &mut Option<Pause<'a>>,
    activation: &Activation<'a>,
    node: &'a Node,
    number: u32,
) -> Result<Turn<'a>, AllocError>
    ensures does { let r = running_of activation.now in
        let before = doing_of (L.sight lent.old) emitted.old trigger.old in
        let after = doing_of (L.sight lent.new) emitted.new trigger.new in
        IfOk result (λ t. (next : Next) → Turns r t next after
        (act r node.now.kind number node.now.line node.now.next next before)) }
    ensures kept { L.kept lent.new ≡ L.kept lent.old }
{
    if let NodeKind::End = &node.kind {
        return Ok(Turn::Over(at_end(trigger, activation)));
    }
    match do_plainly(lent, emitted, node)? {
        Some(to) => Ok(Turn::Goes(to)),
        None => do_slowly(lent, emitted, trigger, activation, node, number),
    }
}

// Does what a node does that isn't plain. A function clears the room of all its values as it begins: by this one the
// room for what `do_any` answers is cleared here alone, and not for each plain node.
#[inline(always)]
fn do_slowly<'a, L: Lent>(
    lent: &mut L,
    emitted: &mut Emitted,
    trigger: &mut Option<Pause<'a>>,
    activation: &Activation<'a>,
    node: &'a Node,
    number: u32,
) -> Result<Turn<'a>, AllocError>
    ensures does { let r = running_of activation.now in
        let before = doing_of (L.sight lent.old) emitted.old trigger.old in
        let after = doing_of (L.sight lent.new) emitted.new trigger.new in
        IfOk result (λ t. (next : Next) → Turns r t next after
        (act r node.now.kind number node.now.line node.now.next next before)) }
    ensures kept { L.kept lent.new ≡ L.kept lent.old }
{
    do_any(lent, emitted, trigger, activation, node, number)
}

// Does what any node does.
#[inline(never)]
fn do_any<'a, L: Lent>(
    lent: &mut L,
    emitted: &mut Emitted,
    trigger: &mut Option<Pause<'a>>,
    activation: &Activation<'a>,
    node: &'a Node,
    number: u32,
) -> Result<Turn<'a>, AllocError>
    ensures does { let r = running_of activation.now in
        let before = doing_of (L.sight lent.old) emitted.old trigger.old in
        let after = doing_of (L.sight lent.new) emitted.new trigger.new in
        IfOk result (λ t. (next : Next) → Turns r t next after
        (act r node.now.kind number node.now.line node.now.next next before)) }
    ensures kept { L.kept lent.new ≡ L.kept lent.old }
{
    match act(lent, emitted, trigger, activation, node, number) {
        Ok(to) => Ok(Turn::Goes(to)),
        Err(why) => broken(why, node.line),
    }
}

// An activation that breaks off at a node of this line is over.
#[inline(always)]
fn broken<'a>(why: Break<'a>, line: u32) -> Result<Turn<'a>, AllocError>
    ensures { (r : Running) (d : Doing) (o : Outcome Frame) → IsBreak r line why.entry d o →
        IfOk result (λ t. (next : Next) → Turns r t next d o) }
{
    match why {
        Break::Halts(halt) => Ok(Turn::Over(halt)),
        Break::Faults(fault) => Ok(Turn::Over(Halt::Faulted(fault, line))),
        Break::OutOfMemory => Err(AllocError),
    }
}
