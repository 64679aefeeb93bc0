use ooo_time::Time;
use sqlite_items::Items;

/// What a segment touches, and the events on which its entry waits: numbers of variables, signals, fifos and events. Each
/// list is ascending, and nothing stands in it twice.
#[derive(Drop)]
pub struct Access {
    /// Variables that are read. An array is one variable.
    pub read: Items<u32>,
    /// Variables that are written.
    pub written: Items<u32>,
    pub signals_read: Items<u32>,
    pub signals_written: Items<u32>,
    /// Fifos of which it holds the reading end.
    pub takes: Items<u32>,
    /// Fifos of which it holds the writing end.
    pub puts: Items<u32>,
    /// Events that are cancelled.
    pub cancelled: Items<u32>,
    /// Events on which the entry waits.
    pub waited: Items<u32>,
    /// Events that are notified, each with its constant time, or with none for the next delta cycle.
    pub notified: Items<(u32, Option<Time>)>,
}
