/// A step of a schedule, with the number of the process that it is of.
#[derive(Clone, Copy)]
pub enum Step {
    /// The next activation of the process is handed out as a job.
    Dispatch(u32),
    /// The job of the process is taken into the log.
    Commit(u32),
    /// The job of the process is given up: nothing can be dispatched from then on.
    Abandon(u32),
}
