//! A board that is tried: its steps, each made only where it may be made, and its report.

ghost use Rattle.std.specs.Prelude.{◌≡◌, ◌<◌, IfOk, IsSome, IsTrue, None, length, replicate};
ghost use Rattle.ooo_board.specs.Boards.{MayBeDispatched, rules, state};
ghost use Rattle.ooo_dispatch.specs.Steps.{job_of};
ghost use Rattle.ooo_board_checks.specs.Samples.{IsReady};
ghost use Rattle.ooo_board_checks.specs.Trials.{AreHeld};

use crate::sample::Sample;
use ooo_board::Board;
use ooo_dispatch::Step;
use ooo_history::{is_named, report};
use ooo_interp::{Done, run_segment};
use ooo_tables::Tables;
use ooo_value::Names;
use std::alloc::{AllocError, Global};
use std::sync::Arc;

// As many processes as a model may have.
const MOST_PROCESSES: u32 = 256;

/// A board, and what the job of each process gave that isn't committed yet.
#[derive(Drop)]
pub(crate) struct Trial {
    pub(crate) board: Board,
    given: Vec<Option<Done>>,
}

impl Trial {
    /// The board of a sample as a simulation starts.
    pub(crate) fn make(alloc: Global, sample: &Sample) -> Result<Trial, AllocError>
        requires { IsReady sample.now }
        ensures { IfOk result (λ trial. AreHeld trial.board trial.given.items) }
    {
        let given = nothing_given(alloc, sample.design.processes.len())?;
        let tables = Tables::make(alloc, &sample.design)?;
        let design = Arc::clone(&sample.design)?;
        let board = Board::make(alloc, design, tables, sample.limits)?;
        Ok(Trial { board, given })
    }

    /// Makes a step, if it is lawful. It answers whether it is.
    pub(crate) fn step(&mut self, alloc: Global, step: Step) -> Result<bool, AllocError>
        requires { AreHeld self.old.board self.old.given.items }
        ensures { AreHeld self.new.board self.new.given.items }
    {
        match step {
            Step::Dispatch(p) => self.dispatch(alloc, p),
            Step::Commit(p) => self.commit(p),
            Step::Abandon(p) => Ok(self.abandon(p)),
        }
    }

    // Dispatches a process and runs its job, if it may be dispatched.
    fn dispatch(&mut self, alloc: Global, p: u32) -> Result<bool, AllocError>
        requires { AreHeld self.old.board self.old.given.items }
        ensures { AreHeld self.new.board self.new.given.items }
    {
        if !self.allowed(p) {
            return Ok(false);
        }
        self.given[p as usize] = None;
        let job = self.board.dispatch(alloc, p)?;
        let done = run_segment(alloc, job)?;
        self.given[p as usize] = Some(done);
        Ok(true)
    }

    // Commits the job of a process, if it is out.
    fn commit(&mut self, p: u32) -> Result<bool, AllocError>
        requires { AreHeld self.old.board self.old.given.items }
        ensures { AreHeld self.new.board self.new.given.items }
    {
        if !self.has(p) {
            return Ok(false);
        }
        let Some(done) = self.given[p as usize].take() else {
            return Ok(false);
        };
        match self.board.commit(done) {
            Ok(()) => Ok(true),
            Err((error, _)) => Err(error),
        }
    }

    // Abandons the job of a process, if it is out.
    fn abandon(&mut self, p: u32) -> bool
        requires { AreHeld self.old.board self.old.given.items }
        ensures { AreHeld self.new.board self.new.given.items }
    {
        if !self.running(p) {
            return false;
        }
        self.given[p as usize] = None;
        self.board.abandon(p);
        true
    }

    /// All lawful steps but those that abandon a job.
    pub(crate) fn lawful(&self, alloc: Global) -> Result<Vec<Step>, AllocError>
        requires { AreHeld self.now.board self.now.given.items }
    {
        let mut steps = Vec::new(alloc);
        for p in 0..MOST_PROCESSES {
            if !self.has(p) {
                break;
            }
            if self.allowed(p) {
                steps.push(Step::Dispatch(p))?;
            }
            if self.running(p) {
                steps.push(Step::Commit(p))?;
            }
        }
        Ok(steps)
    }

    /// Whether there is a process of this number.
    pub(crate) fn has(&self, p: u32) -> bool
        requires { AreHeld self.now.board self.now.given.items }
        ensures { IsTrue result → p < length self.now.board.design.processes }
    {
        (p as usize) < self.given.len()
    }

    /// Whether there is such a process, and it may be dispatched.
    pub(crate) fn allowed(&self, p: u32) -> bool
        requires { AreHeld self.now.board self.now.given.items }
        ensures there { IsTrue result → p < length self.now.board.design.processes }
        ensures may { IsTrue result → MayBeDispatched self.now.board p }
    {
        self.has(p) && self.board.allowed(p)
    }

    /// Whether there is such a process, and a job of it is out that was not abandoned.
    pub(crate) fn running(&self, p: u32) -> bool
        requires { AreHeld self.now.board self.now.given.items }
        ensures there { IsTrue result → p < length self.now.board.design.processes }
        ensures out { IsTrue result
            → IsSome (job_of (rules self.now.board) (state self.now.board) p) }
    {
        self.has(p) && self.board.running(p)
    }

    /// What the board reports, by these names. None where it isn't over, or speaks of what has no name.
    pub(crate) fn report(
        &self,
        alloc: Global,
        names: &Names,
    ) -> Result<Option<Vec<u8>>, AllocError> {
        if !self.board.is_over() {
            return Ok(None);
        }
        let run = self.board.finish(alloc)?;
        if run.channels.len() > names.channels.len()
            || !is_named(run.end, names.processes.as_slice())
        {
            return Ok(None);
        }
        Ok(Some(report(alloc, &run, names)?))
    }
}

// So many processes, of which none has given something.
fn nothing_given(alloc: Global, count: usize) -> Result<Vec<Option<Done>>, AllocError>
    ensures { IfOk result (λ given. given.items ≡ replicate count None) }
{
    let mut given = Vec::with_capacity(alloc, count)?;
    for _process in 0..count {
        given.push(None)?;
    }
    Ok(given)
}
