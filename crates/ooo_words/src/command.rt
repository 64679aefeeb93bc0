use ooo_time::Time;

/// What is asked of a run.
#[derive(Clone, Copy, Debug)]
pub struct RunOptions {
    /// The stop time in place of the one that the text gives to sc_start, if one is given.
    pub stop: Option<Time>,
    /// How many delta cycles there may be at one time.
    pub deltas: u32,
    /// How many statements an activation may run.
    pub statements: u32,
}

/// What the words ask for.
#[derive(Clone, Copy, Debug)]
pub enum Command {
    /// The report of a run by this many workers.
    Run {
        options: RunOptions,
        workers: u32,
    },
    /// The report of a run by the sequential scheduler.
    Plain(RunOptions),
    /// Whether the text is accepted.
    Check,
    /// The tables of the text's segments.
    Tables,
    /// A summary of a run of a generated text of this many stages and items, with the seed of its numbers.
    Bench {
        stages: u32,
        items: u32,
        seed: u32,
        workers: u32,
    },
}
