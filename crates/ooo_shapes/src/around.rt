use ooo_value::Kind;

/// How many slots the locals of a function have, by kind: for each slot number of that kind one.
#[derive(Clone, Copy)]
pub struct Widths {
    pub bools: u64,
    pub ints: u64,
    pub uints: u64,
    pub longs: u64,
    pub ulongs: u64,
}

/// What stands around a statement: where its locals stand, where the result of its function goes, and where its jumps
/// lead.
#[derive(Clone, Copy)]
pub struct Around {
    /// The first slot of the locals.
    pub base: u32,
    pub widths: Widths,
    /// The slot of the result, where the function has one.
    pub result_slot: u32,
    /// The kind of the result.
    pub result: Option<Kind>,
    /// The number of the node to which `break` leads.
    pub break_to: u32,
    pub continue_to: u32,
    pub return_to: u32,
}
