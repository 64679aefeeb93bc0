use ooo_time::Time;

/// What bounds a run.
#[derive(Clone, Copy)]
pub struct Limits {
    /// The last time at which anything runs.
    pub stop: Time,
    /// How many delta cycles there may be at one time.
    pub deltas: u32,
    /// How many statements an activation may count.
    pub statements: u32,
}

impl Limits {
    /// The greatest delta limit.
    pub const GREATEST_DELTAS: u32 = 1_000_000;

    /// The greatest statement limit.
    pub const GREATEST_STATEMENTS: u32 = 1_000_000_000;
}
