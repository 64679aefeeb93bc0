use sqlite_items::Items;

/// The nodes that a process may run from its start, or after a wait, up to its next wait.
#[derive(Drop)]
pub struct Segment {
    pub process: u32,
    pub entry: SegmentEntry,
    pub nodes: Items<u32>,
}

/// Where a segment begins.
#[derive(Clone, Copy, PartialEq, Eq, Debug)]
pub enum SegmentEntry {
    /// At the start of its process.
    Start,
    /// After the wait node of this number.
    After(u32),
}
