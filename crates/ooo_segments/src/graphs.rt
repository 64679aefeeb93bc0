use ooo_code::Segment;
use ooo_time::Delay;
use sqlite_items::Items;

/// An edge between two segments of one process, by their numbers: the second can follow the first, by the delay at the
/// earliest. A wait for a constant time above zero alone takes that time, and every other wait one delta cycle.
#[derive(Clone, Copy, PartialEq, Eq, Debug)]
pub struct Edge {
    pub from: u32,
    pub to: u32,
    pub delay: Delay,
}

/// The segments of a design, and the edges within its processes. A segment's number is its place among the segments.
#[derive(Drop)]
pub struct Graph {
    /// All segments, process by process: the start of each first, and then its waits in the order of their nodes.
    pub segments: Items<Segment>,
    /// All edges, by the segment that they lead from and then by the one that they lead to.
    pub edges: Items<Edge>,
}

impl Graph {
    /// The most segments that a design may have.
    pub const GREATEST_SEGMENTS: usize = 1024;
}
