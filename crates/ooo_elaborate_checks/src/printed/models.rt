use crate::printed::paper::{Paper, kind_letters};
use crate::printed::statements::block;
use ooo_bound::{Bound, BoundFunction, BoundProcess};
use ooo_value::{BoundChannel, BoundEvent, BoundVariable, ChannelKind, Name, ProcessKind};
use std::alloc::{AllocError, Global};

/// A bound model as lines.
///
/// # Errors
///
/// Only where memory runs out.
pub(crate) fn lines(alloc: Global, model: &Bound) -> Result<Vec<u8>, AllocError> {
    let mut paper = Paper::new(alloc);
    code(&mut paper, model);
    things(&mut paper, model);
    paper.into_text()
}

// Processes and functions.
fn code(paper: &mut Paper, model: &Bound) {
    names(paper, "processes", model.names.processes.as_slice());
    for e in model.processes.as_slice() {
        process(paper, e);
    }
    for e in model.functions.as_slice() {
        function(paper, e);
    }
}

// What they work on, and the stop time.
fn things(paper: &mut Paper, model: &Bound) {
    for e in model.variables.as_slice() {
        variable(paper, e);
    }
    names(paper, "channels", model.names.channels.as_slice());
    for e in model.channels.as_slice() {
        channel(paper, e);
    }
    for e in model.events.as_slice() {
        event(paper, *e);
    }
    paper.put("stop");
    if let Some(stop) = model.stop {
        paper.put(" ");
        paper.ticks(stop);
    }
    paper.put("\n");
}

fn process(paper: &mut Paper, process: &BoundProcess) {
    paper.put(match process.kind {
        ProcessKind::Thread => "thread ",
        ProcessKind::Method => "method ",
    });
    paper.put(if process.initialize {
        "starts "
    } else {
        "waits "
    });
    paper.numbers(process.sensitive.as_slice());
    paper.put(" ");
    block(paper, process.body.as_slice());
    paper.put("\n");
}

fn function(paper: &mut Paper, function: &BoundFunction) {
    paper.put("function ");
    paper.put(match function.result {
        Some(result) => kind_letters(result),
        None => "void",
    });
    paper.put(" (");
    for e in function.params.as_slice() {
        paper.put(kind_letters(*e));
        paper.put(",");
    }
    paper.put(") ");
    block(paper, function.body.as_slice());
    paper.put("\n");
}

// The kind of a variable, its length and its start value.
fn variable(paper: &mut Paper, variable: &BoundVariable) {
    paper.put("variable ");
    paper.put(kind_letters(variable.kind));
    paper.named(" ", variable.length);
    paper.put(" ");
    paper.value(variable.start);
    paper.put("\n");
}

// The kind of a channel's values, and the size of a fifo; that of a signal has no use.
fn channel(paper: &mut Paper, channel: &BoundChannel) {
    match channel.kind {
        ChannelKind::Signal => {
            paper.put("signal ");
            paper.put(kind_letters(channel.value));
        }
        ChannelKind::Fifo => {
            paper.put("fifo ");
            paper.put(kind_letters(channel.value));
            paper.named(" ", channel.size);
        }
    }
    paper.put("\n");
}

fn event(paper: &mut Paper, event: BoundEvent) {
    match event {
        BoundEvent::Own => paper.put("own"),
        BoundEvent::Changed(channel) => paper.named("changed ", channel),
        BoundEvent::Rise(channel) => paper.named("rise ", channel),
        BoundEvent::Fall(channel) => paper.named("fall ", channel),
        BoundEvent::Written(channel) => paper.named("written ", channel),
        BoundEvent::Taken(channel) => paper.named("taken ", channel),
    }
    paper.put("\n");
}

fn names(paper: &mut Paper, word: &str, names: &[Name]) {
    paper.put(word);
    for name in names {
        paper.put(" ");
        paper.bytes(name.as_bytes());
    }
    paper.put("\n");
}
