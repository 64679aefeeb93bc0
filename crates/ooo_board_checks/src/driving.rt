//! Boards that are driven in orders drawn from seeds.

ghost use Rattle.std.specs.Prelude.{◌<◌};
ghost use Rattle.ooo_board_checks.specs.Samples.{IsReady};
ghost use Rattle.ooo_board_checks.specs.Trials.{AreHeld};

use crate::sample::Sample;
use crate::trial::Trial;
use std::alloc::{AllocError, Global};

// More steps than a board of a small model takes.
const MOST_STEPS: u32 = 10_000_000;

/// What boards report that are driven in several orders.
#[derive(Drop)]
pub(crate) enum Told {
    /// All of them this.
    Same(Vec<u8>),
    /// In the order of this seed the board doesn't come to be over, or it reports something else than in the first.
    Differs(u32),
}

/// What the boards of a sample report in orders of the seeds below `orders`, of which there is one at least.
pub(crate) fn told_in_orders(
    alloc: Global,
    sample: &Sample,
    orders: u32,
) -> Result<Told, AllocError>
    requires { IsReady sample.now }
{
    let Some(first) = told_in_order(alloc, sample, 0)? else {
        return Ok(Told::Differs(0));
    };
    for seed in 1..orders {
        let report = told_in_order(alloc, sample, seed)?;
        let is_same = match &report {
            Some(report) => report.as_slice() == first.as_slice(),
            None => false,
        };
        if !is_same {
            return Ok(Told::Differs(seed));
        }
    }
    Ok(Told::Same(first))
}

// What a board reports that is driven in the order of a seed. None where it doesn't come to be over.
fn told_in_order(alloc: Global, sample: &Sample, seed: u32) -> Result<Option<Vec<u8>>, AllocError>
    requires { IsReady sample.now }
{
    let mut trial = Trial::make(alloc, sample)?;
    let driven = drive(alloc, &mut trial, seed);
    let report = trial.report(alloc, &sample.names);
    drop(trial);
    match driven {
        Ok(()) => report,
        Err(error) => Err(error),
    }
}

// Makes lawful steps in an order drawn from a seed, with any number of jobs out at once, until there is none or too many were
// made.
fn drive(alloc: Global, trial: &mut Trial, seed: u32) -> Result<(), AllocError>
    requires { AreHeld trial.old.board trial.old.given.items }
    ensures { AreHeld trial.new.board trial.new.given.items }
{
    let mut draws = Draws {
        state: u64::from(seed),
    };
    for _step in 0..MOST_STEPS {
        let steps = trial.lawful(alloc)?;
        if steps.is_empty() {
            return Ok(());
        }
        trial.step(alloc, steps[draws.below(steps.len())])?;
    }
    Ok(())
}

// Numbers that are drawn one after another from a seed.
#[derive(Clone, Copy)]
struct Draws {
    state: u64,
}

impl Draws {
    // The next number, below `count`.
    fn below(&mut self, count: usize) -> usize
        requires { 0 < count }
        ensures { result < count }
    {
        self.state = self
            .state
            .wrapping_mul(6_364_136_223_846_793_005)
            .wrapping_add(1_442_695_040_888_963_407);
        (self.state >> 33) as usize % count
    }
}
