use ooo_time::Stamp;

/// What a process runs next, or runs: a segment, at a stamp.
#[derive(Clone, Copy, PartialEq, Eq)]
pub struct Front {
    pub segment: u32,
    pub stamp: Stamp,
}

/// What holds a front up: the front of another process, by its number, that leads to a segment which clashes with the one
/// held up, and the stamp at which it leads there.
#[derive(Clone, Copy, PartialEq, Eq)]
pub struct Hold {
    /// The process whose front it is.
    pub front: u32,
    pub segment: u32,
    pub at: Stamp,
}
