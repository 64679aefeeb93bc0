//! What a board is to do and to answer, line by line.

ghost use Rattle.ooo_board_checks.specs.Samples.{IsReady};
ghost use Rattle.ooo_board_checks.specs.Trials.{AreHeld};

use crate::sample::Sample;
use crate::trial::Trial;
use ooo_dispatch::Step;
use ooo_fronts::{Front, Hold};
use std::alloc::{AllocError, Global};

/// A step that is to be made, or an answer that the board is to give.
#[derive(Clone, Copy)]
pub(crate) enum Line {
    Makes(Step),
    /// The step isn't lawful, and isn't made.
    Refuses(Step),
    Front(u32, Option<Front>),
    /// Whether a process may be dispatched.
    Allowed(u32, bool),
    Running(u32, bool),
    Holder(u32, Option<Hold>),
    Holds(&'static [u32]),
    Picks(Option<u32>),
    IsOver(bool),
    IsLost(bool),
}

/// What is seen of a board that did what lines say.
#[derive(Drop)]
pub(crate) struct Seen {
    /// The number of the first line that isn't so, if any is not. Those after it were not tried.
    pub(crate) wrong: Option<usize>,
    /// The steps that the board says were made.
    pub(crate) made: Vec<Step>,
    /// What it reports then.
    pub(crate) report: Option<Vec<u8>>,
}

/// A board of a sample, with these lines tried on it one after the other.
pub(crate) fn tried(alloc: Global, sample: &Sample, lines: &[Line]) -> Result<Seen, AllocError>
    requires { IsReady sample.now }
{
    let mut trial = Trial::make(alloc, sample)?;
    let wrong = first_wrong(alloc, &mut trial, lines);
    let made = Vec::from_slice(alloc, trial.board.schedule());
    let report = trial.report(alloc, &sample.names);
    drop(trial);
    Ok(Seen {
        wrong: wrong?,
        made: made?,
        report: report?,
    })
}

// The number of the first of these lines that isn't so, if any is not.
fn first_wrong(
    alloc: Global,
    trial: &mut Trial,
    lines: &[Line],
) -> Result<Option<usize>, AllocError>
    requires { AreHeld trial.old.board trial.old.given.items }
    ensures { AreHeld trial.new.board trial.new.given.items }
{
    for n in 0..lines.len() {
        if !is_so(alloc, trial, lines[n])? {
            return Ok(Some(n));
        }
    }
    Ok(None)
}

// Whether a line is so.
fn is_so(alloc: Global, trial: &mut Trial, line: Line) -> Result<bool, AllocError>
    requires { AreHeld trial.old.board trial.old.given.items }
    ensures { AreHeld trial.new.board trial.new.given.items }
{
    match line {
        Line::Makes(step) => trial.step(alloc, step),
        Line::Refuses(step) => Ok(!trial.step(alloc, step)?),
        other => Ok(answers(trial, other)),
    }
}

// Whether the board answers so.
fn answers(trial: &Trial, line: Line) -> bool
    requires { AreHeld trial.now.board trial.now.given.items }
{
    match line {
        Line::Front(p, front) => trial.has(p) && trial.board.front(p) == front,
        Line::Allowed(p, allowed) => trial.allowed(p) == allowed,
        Line::Running(p, running) => trial.running(p) == running,
        Line::Holder(p, hold) => trial.has(p) && trial.board.holder(p) == hold,
        Line::Holds(counts) => trial.board.holds() == counts,
        Line::Picks(p) => trial.board.pick() == p,
        Line::IsOver(over) => trial.board.is_over() == over,
        Line::IsLost(lost) => trial.board.is_lost() == lost,
        Line::Makes(_) | Line::Refuses(_) => false,
    }
}
