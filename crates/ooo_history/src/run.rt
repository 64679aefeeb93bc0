use ooo_time::{Place, Stamp, Time};
use ooo_value::{Fault, Value};
use sqlite_items::Items;

/// What happened on a channel.
#[derive(Clone, Copy, PartialEq, Eq, Debug)]
pub enum What {
    /// A value was read from a fifo (IEEE 1666-2011, 6.23).
    Took,
    /// A value was written to a fifo.
    Put,
    /// The value of a signal changed in the update of the cycle (6.4).
    Changed,
}

/// One thing that happened on a channel: when it did, and the value that was read or written, or is the new one.
#[derive(Clone, Copy)]
pub struct Entry {
    pub stamp: Stamp,
    pub what: What,
    pub value: Value,
}

/// What a process printed at a stamp.
#[derive(Drop)]
pub struct Piece {
    pub place: Place,
    pub bytes: Items<u8>,
}

/// How a run ends.
#[derive(Clone, Copy, PartialEq, Eq, Debug)]
pub enum End {
    /// A process would run after this stop time.
    Time(Time),
    /// No process runs any more; the stamp of the last activation, or time zero where there was none.
    Idle(Stamp),
    /// `sc_stop` was called in the cycle of this stamp.
    Stop(Stamp),
    /// The process of this place faulted there, in the statement on this line.
    Fault(Fault, Place, u32),
    /// The process of this place reached the statement limit there, at the statement on this line.
    Statements(Place, u32),
    /// A process is runnable at this stamp, whose delta cycle has the number of the delta limit.
    Deltas(Stamp),
}

/// What a run gives.
#[derive(Drop)]
pub struct Run {
    /// What was printed, in order of place.
    pub pieces: Items<Piece>,
    /// Channel `c`'s history at place `c`: its entries in order of stamp, and within a stamp what was read before
    /// what was written.
    pub channels: Items<Items<Entry>>,
    /// How it ended.
    pub end: End,
    /// How many activations there were, the one that ended the run counted.
    pub activations: u128,
}
