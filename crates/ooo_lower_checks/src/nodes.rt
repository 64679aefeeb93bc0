use crate::expressions::{expression, time, wait};
use crate::paper::Paper;
use ooo_code::{Design, Node, NodeExpr, NodeKind, Proc};
use ooo_value::ProcessKind;
use std::alloc::{AllocError, Global};

/// The processes and the nodes of a design as lines.
///
/// # Errors
///
/// Only where memory runs out.
pub(crate) fn lines(alloc: Global, design: &Design) -> Result<Vec<u8>, AllocError> {
    let mut paper = Paper::new(alloc);
    for e in design.processes.as_slice() {
        process(&mut paper, e);
    }
    nodes(&mut paper, design.nodes.as_slice());
    paper.into_text()
}

fn process(paper: &mut Paper, process: &Proc) {
    paper.put(match process.kind {
        ProcessKind::Thread => "thread ",
        ProcessKind::Method => "method ",
    });
    paper.put(if process.initialize {
        "starts "
    } else {
        "waits "
    });
    paper.numbers(process.sensitive.as_slice());
    paper.named(" from ", process.first);
    paper.named(" to ", process.end);
    paper.put(" ");
    paper.kinds(process.slots.as_slice());
    paper.put("\n");
}

fn nodes(paper: &mut Paper, nodes: &[Node]) {
    let mut number = 0_u32;
    for e in nodes {
        node(paper, number, e);
        number = number.saturating_add(1);
    }
}

fn node(paper: &mut Paper, number: u32, node: &Node) {
    paper.number(number);
    paper.put(": ");
    step(paper, &node.kind);
    paper.named("; line ", node.line);
    paper.put(if node.counts { " counted" } else { "" });
    paper.named("; next ", node.next);
    paper.put("\n");
}

// What a node does.
fn step(paper: &mut Paper, kind: &NodeKind) {
    match kind {
        NodeKind::Set(slot, e) => assigned(paper, "$", *slot, e),
        NodeKind::Store(variable, None, e) => assigned(paper, "v", *variable, e),
        NodeKind::Store(variable, Some(index), e) => stored(paper, *variable, index, e),
        NodeKind::Write(signal, e) => assigned(paper, "s", *signal, e),
        NodeKind::Test(e, other) => {
            paper.put("test ");
            expression(paper, e);
            paper.named(" else ", *other);
        }
        NodeKind::PrintText(text) => {
            paper.put("print ");
            paper.quoted(text.as_slice());
        }
        NodeKind::PrintValue(e) => {
            paper.put("print ");
            expression(paper, e);
        }
        NodeKind::Notify(event, delay) => {
            paper.named("notify ", *event);
            paper.put(" ");
            time(paper, delay);
        }
        NodeKind::Trigger(on) => {
            paper.put("trigger ");
            wait(paper, on);
        }
        NodeKind::Wait(on) => {
            paper.put("wait ");
            wait(paper, on);
        }
        NodeKind::Goto => paper.put("goto"),
        NodeKind::PrintTime => paper.put("print time"),
        NodeKind::Cancel(event) => paper.named("cancel ", *event),
        NodeKind::Stop => paper.put("stop"),
        NodeKind::End => paper.put("end"),
        NodeKind::TestAvailable(fifo, other) => tested(paper, "available ", *fifo, *other),
        NodeKind::TestFree(fifo, other) => tested(paper, "free ", *fifo, *other),
        NodeKind::Take(fifo, slot) => taken(paper, *fifo, *slot),
        NodeKind::Put(fifo, e) => put(paper, *fifo, e),
    }
}

// An element of a variable, and the value that it gets.
fn stored(paper: &mut Paper, variable: u32, index: &NodeExpr, e: &NodeExpr) {
    paper.named("v", variable);
    paper.put("[");
    expression(paper, index);
    paper.put("] := ");
    expression(paper, e);
}

// A local, and the fifo whose value it gets.
fn taken(paper: &mut Paper, fifo: u32, slot: u32) {
    paper.named("$", slot);
    paper.named(" := take ", fifo);
}

// A fifo, and the value that is put into it.
fn put(paper: &mut Paper, fifo: u32, e: &NodeExpr) {
    paper.named("put ", fifo);
    paper.put(" ");
    expression(paper, e);
}

// A place, and the value that it gets.
fn assigned(paper: &mut Paper, word: &str, number: u32, e: &NodeExpr) {
    paper.named(word, number);
    paper.put(" := ");
    expression(paper, e);
}

// A test of a fifo.
fn tested(paper: &mut Paper, word: &str, fifo: u32, other: u32) {
    paper.named(word, fifo);
    paper.named(" else ", other);
}
