use crate::segment::SegmentEntry;
use ooo_time::Time;
use ooo_value::{Fault, Value};
use sqlite_items::Items;

/// A variable's values, one for each element.
pub type Cells = Items<Value>;

/// Where a process is: where it goes on, or went on last, and its locals.
#[derive(Drop)]
pub struct Frame {
    pub entry: SegmentEntry,
    pub slots: Items<Value>,
}

/// What an activation does to a channel, an event or the run. The numbers are those of channels, and of `Notify` and
/// `Cancel` of events.
#[derive(Clone, Copy, PartialEq, Eq, Debug)]
pub enum Effect {
    /// Requests a value of a signal (IEEE 1666-2011, 6.4).
    Request(u32, Value),
    /// Puts a value into a fifo (6.23).
    Put(u32, Value),
    /// Takes a value of a fifo.
    Take(u32),
    /// Notifies an event with a delay (5.10.6).
    Notify(u32, Time),
    /// Cancels what is pending of an event (5.10.6).
    Cancel(u32),
    /// Calls `sc_stop` (4.5.3).
    Stop,
}

/// What a process sees of a channel, by the channel's number.
#[derive(Drop)]
pub enum Seen {
    /// A signal's value, and whether it changed in the delta cycle before.
    Signal(u32, Value, bool),
    /// The values of a fifo that the process may take, and how many it may put.
    Fifo(u32, Items<Value>, u32),
}

/// What a process waits for: a time, events, or both. Of neither it waits for ever.
#[derive(Drop)]
pub struct WaitOn {
    pub time: Option<Time>,
    pub events: Items<u32>,
}

/// How an activation ends. The last number is that of a line.
#[derive(Drop)]
pub enum JobEnd {
    Waits(WaitOn),
    Ended,
    Faulted(Fault, u32),
    /// It would count one statement more than the statement limit.
    Limit(u32),
}
