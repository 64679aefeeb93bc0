use ooo_interp::Job;

/// What a caller gets that asks for a job.
#[derive(Drop)]
pub enum Turn {
    /// A job to run.
    Job(Job),
    /// The board is over: there is nothing more to do.
    Over,
    /// A job was abandoned, so there are no more of them.
    Lost,
}

/// Why a worker ended.
#[derive(Clone, Copy)]
pub enum Worked {
    /// The board is over.
    Over,
    /// A job was abandoned.
    Lost,
    /// Memory ran out.
    NoMemory,
}
