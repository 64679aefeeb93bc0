use ooo_time::Stamp;
use ooo_value::Value;
use sqlite_items::Items;

/// How the last activation of a process left it: what it waits for, and the segment that runs then. As a simulation starts
/// it waits since before time zero.
#[derive(Drop)]
pub(crate) struct Waiting {
    pub(crate) segment: u32,
    pub(crate) timeout: Option<Stamp>,
    pub(crate) events: Items<u32>,
    pub(crate) since: Option<Stamp>,
}

/// What a board keeps of a process.
#[derive(Drop)]
pub(crate) struct Process {
    /// Its locals, unless its job is out.
    pub(crate) slots: Items<Value>,
    /// What it waits for; nothing once it ended.
    pub(crate) waiting: Option<Waiting>,
    /// How many of its activations were committed.
    pub(crate) activations: u128,
}
