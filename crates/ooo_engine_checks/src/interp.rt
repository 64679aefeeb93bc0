//! Activations worked by hand, on parts that stand in lists.

mod expressions;
mod faults;
mod fifos;
mod limits;
mod node_kinds;
mod nodes;
mod one_fifo;
mod parts;
mod segments;
mod waits;

use crate::interp::nodes::Code;
use crate::interp::parts::Parts;
use ooo_code::{Cells, Design, Effect, JobEnd, SegmentEntry, WaitOn};
use ooo_interp::{Emitted, Halt, Start, Whole, run_process};
use ooo_time::{Stamp, Time};
use ooo_value::{Fault, ProcessKind, Value};
use sqlite_items::Items;
use std::alloc::{AllocError, Global};

/// What was made, unless memory ran out.
pub type Made<T> = Result<T, AllocError>;

/// So many statements are enough for most of these activations.
pub const MANY: u32 = 1_000;

/// 10 ns, in ticks.
pub const TEN_NS: Time = Time(10_000);

/// What an activation came to, with the locals and the variables as it left them.
#[derive(Drop)]
pub struct Ran {
    pub entry: SegmentEntry,
    pub output: Vec<u8>,
    pub effects: Vec<Effect>,
    pub end: JobEnd,
    pub slots: Vec<Value>,
    pub variables: Vec<Cells>,
}

/// Runs nodes as a thread's, from its start.
pub fn run(parts: Made<Parts>, code: Code, statements: u32) -> Made<Ran> {
    let alloc = code.alloc;
    let design = code.design(ProcessKind::Thread);
    run_from(alloc, parts, design, SegmentEntry::Start, statements)
}

/// Runs the process of a design from an entry, at 10 ns.
pub fn run_from(
    alloc: Global,
    parts: Made<Parts>,
    design: Made<Design>,
    entry: SegmentEntry,
    statements: u32,
) -> Made<Ran> {
    match (parts, design) {
        (Ok(mut parts), Ok(design)) => {
            let outcome = outcome_of(alloc, &mut parts, &design, entry, statements);
            drop(design);
            left(parts, outcome)
        }
        _ => Err(AllocError),
    }
}

// What an activation came to, apart from its parts and its design.
#[derive(Drop)]
struct Outcome {
    entry: SegmentEntry,
    emitted: Emitted,
    end: JobEnd,
}

fn outcome_of(
    alloc: Global,
    parts: &mut Parts,
    design: &Design,
    entry: SegmentEntry,
    statements: u32,
) -> Made<Outcome> {
    let mut emitted = Emitted::new(alloc);
    match run_process(parts, &mut emitted, design, start_from(entry, statements)) {
        Ok(halt) => ended(alloc, entry, emitted, halt),
        Err(error) => {
            drop(emitted);
            Err(error)
        }
    }
}

fn ended(alloc: Global, entry: SegmentEntry, emitted: Emitted, halt: Halt<'_>) -> Made<Outcome> {
    let entry = halt.entry_after(entry);
    match own_end(alloc, halt) {
        Ok(end) => Ok(Outcome {
            entry,
            emitted,
            end,
        }),
        Err(error) => {
            drop(emitted);
            Err(error)
        }
    }
}

fn left(parts: Parts, outcome: Made<Outcome>) -> Made<Ran> {
    let Whole {
        slots,
        variables,
        ports: _,
        fifos: _,
    } = parts;
    match outcome {
        Ok(
            Outcome {
                entry,
                emitted,
                end,
            },
        ) => {
            let Emitted {
                output,
                effects,
                counted: _,
            } = emitted;
            Ok(Ran {
                entry,
                output,
                effects,
                end,
                slots,
                variables,
            })
        }
        Err(error) => {
            drop(slots);
            drop(variables);
            Err(error)
        }
    }
}

/// How an activation ended, apart from its design.
fn own_end(alloc: Global, halt: Halt<'_>) -> Made<JobEnd> {
    match halt {
        Halt::Waits(_, pause) => {
            let events = Items::from_slice(alloc, pause.events.as_slice())?;
            Ok(JobEnd::Waits(WaitOn {
                time: pause.time,
                events,
            }))
        }
        Halt::Ended => Ok(JobEnd::Ended),
        Halt::Faulted(fault, line) => Ok(JobEnd::Faulted(fault, line)),
        Halt::Limit(line) => Ok(JobEnd::Limit(line)),
    }
}

/// The first process from an entry, at 10 ns.
pub fn start_from(entry: SegmentEntry, statements: u32) -> Start {
    Start {
        process: 0,
        entry,
        stamp: Stamp {
            time: TEN_NS,
            delta: 0,
        },
        statements,
    }
}

/// Whether an activation printed this text.
pub fn printed(output: &[u8], text: &str) -> bool {
    output == text.as_bytes()
}

/// Whether an activation's process is over.
pub fn is_over(end: &JobEnd) -> bool {
    match end {
        JobEnd::Ended => true,
        JobEnd::Waits(_) | JobEnd::Faulted(_, _) | JobEnd::Limit(_) => false,
    }
}

/// The fault that ended an activation, with its line.
pub fn fault_of(end: &JobEnd) -> Option<(Fault, u32)> {
    match end {
        JobEnd::Faulted(fault, line) => Some((*fault, *line)),
        JobEnd::Waits(_) | JobEnd::Ended | JobEnd::Limit(_) => None,
    }
}

/// The line at which an activation would have counted one statement more.
pub fn limit_of(end: &JobEnd) -> Option<u32> {
    match end {
        JobEnd::Limit(line) => Some(*line),
        JobEnd::Waits(_) | JobEnd::Ended | JobEnd::Faulted(_, _) => None,
    }
}

/// What an activation's process waits for.
pub fn wait_of(end: &JobEnd) -> Option<&WaitOn> {
    match end {
        JobEnd::Waits(on) => Some(on),
        JobEnd::Ended | JobEnd::Faulted(_, _) | JobEnd::Limit(_) => None,
    }
}
