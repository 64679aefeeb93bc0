//! What a process has: locals, variables and ports.

use super::Made;
use crate::interp::one_fifo::OneFifo;
use ooo_code::Cells;
use ooo_interp::{FifoPort, Port, Ports, Whole};
use ooo_value::Value;
use sqlite_items::Items;
use std::alloc::{AllocError, Global};
use std::process::Abort;

/// Parts in lists, with the values of one fifo.
pub type Parts = Whole<OneFifo>;

/// Whether values are these numbers of kind int.
pub fn are_ints(values: &[Value], numbers: &[i32]) -> bool {
    let same = values
        .iter()
        .zip(numbers)
        .all(|(v, x)| *v == Value::Int(*x));
    same && values.len() == numbers.len()
}

/// Whether variable number `x` has these elements.
pub fn has_cells(variables: &[Cells], x: usize, numbers: &[i32]) -> bool {
    match variables.get(x) {
        Some(cells) => are_ints(cells.as_slice(), numbers),
        None => false,
    }
}

/// Values of kind int.
pub fn ints(alloc: Global, values: &[i32]) -> Made<Vec<Value>> {
    values.iter().map(|x| Value::Int(*x)).collect(alloc)
}

/// Parts with locals and nothing else.
pub fn locals(alloc: Global, values: &[i32]) -> Made<Parts> {
    let slots = ints(alloc, values)?;
    Ok(Whole {
        slots,
        variables: Vec::new(alloc),
        ports: Ports::new(alloc),
        fifos: OneFifo::new(alloc),
    })
}

/// The parts, and one more variable.
pub fn with_variable(parts: Made<Parts>, cells: Made<Cells>) -> Made<Parts> {
    match (parts, cells) {
        (Ok(mut parts), Ok(cells)) => {
            let is_pushed = parts.variables.push(cells).is_ok();
            kept(parts, is_pushed)
        }
        _ => Err(AllocError),
    }
}

/// The parts, and one more port, of a channel with a greater number than those that there are.
pub fn with_port(rt: &impl Abort, parts: Made<Parts>, port: Port) -> Made<Parts> {
    let mut parts = parts?;
    assert!(rt; parts.ports.is_below(port.channel()));
    let is_pushed = parts.ports.push(port).is_ok();
    kept(parts, is_pushed)
}

// The parts, unless memory ran out for what was to be pushed.
fn kept(parts: Parts, is_pushed: bool) -> Made<Parts> {
    if is_pushed {
        Ok(parts)
    } else {
        drop(parts);
        Err(AllocError)
    }
}

/// The parts, and one more port, of a fifo of at most the greatest size, whose values are then the only ones.
pub fn with_fifo(
    rt: &impl Abort,
    parts: Made<Parts>,
    channel: u32,
    values: Made<Vec<Value>>,
    free: u32,
) -> Made<Parts> {
    assert!(rt; free <= FifoPort::GREATEST_SIZE);
    let port = Port::Fifo(FifoPort::new(channel, free));
    with_port(rt, with_values(parts, fifo_of(rt, channel, values)), port)
}

fn fifo_of(rt: &impl Abort, channel: u32, values: Made<Vec<Value>>) -> Made<OneFifo> {
    let values = values?;
    assert!(rt; values.len() <= FifoPort::GREATEST_SIZE as usize);
    Ok(OneFifo { channel, values })
}

fn with_values(parts: Made<Parts>, fifo: Made<OneFifo>) -> Made<Parts> {
    match (parts, fifo) {
        (Ok(mut parts), Ok(fifo)) => {
            if !fifo.values.is_empty() {
                parts.fifos = fifo;
            }
            Ok(parts)
        }
        _ => Err(AllocError),
    }
}

/// The elements of a variable.
pub fn cells(alloc: Global, values: &[i32]) -> Made<Cells> {
    let values = ints(alloc, values)?;
    Ok(Items::from_vec(values))
}
