//! How long the activations of each process take: it says nothing of any contract, and only who is woken and who leaves a job
//! to another worker depend on it.

use std::alloc::{AllocError, Global};
use std::sync::atomic::AtomicU32;
use std::sync::atomic::Ordering::Relaxed;

/// How many statements the activations of each process counted on average, and how many jobs are out whose processes have
/// short ones. What has not run yet counts as long. Jobs are noted with the turn held.
#[derive(Drop)]
pub struct Lengths {
    averages: Vec<AtomicU32>,
    short_ones_out: AtomicU32,
}

impl Lengths {
    // From so many statements on, an activation takes longer than it takes another worker to wake up and to have a job.
    const LONG: u32 = 100;

    // The last activation is one in so many of the average.
    const SHARE: u32 = 8;

    /// For so many processes, of which none has run yet.
    ///
    /// # Errors
    ///
    /// Only where memory runs out.
    pub(crate) fn unknown(alloc: Global, processes: usize) -> Result<Lengths, AllocError> {
        let mut averages = Vec::with_capacity(alloc, processes)?;
        for _ in 0..processes {
            averages.push(AtomicU32::new(Lengths::LONG))?;
        }
        Ok(Lengths {
            averages,
            short_ones_out: AtomicU32::new(0),
        })
    }

    /// Whether the next activation of a process is likely to be long, since they are so on average.
    pub(crate) fn is_long(&self, process: u32) -> bool {
        match self.averages.get(process as usize) {
            Some(average) => average.load(Relaxed) >= Lengths::LONG,
            None => true,
        }
    }

    /// Whether a job of a process is better left to who runs another one: both are likely to be short, so that one is back
    /// before this one was worth a second worker.
    pub(crate) fn is_left(&self, process: u32) -> bool {
        !self.is_long(process) && self.short_ones_out.load(Relaxed) > 0
    }

    /// Notes that a job of a process is out.
    pub(crate) fn begin(&self, process: u32) {
        if !self.is_long(process) {
            self.short_ones_out.fetch_add(1, Relaxed);
        }
    }

    /// Notes that the job of a process was handed in, and how many statements it counted.
    pub(crate) fn end(&self, process: u32, statements: u32) {
        if !self.is_long(process) {
            self.short_ones_out.fetch_sub(1, Relaxed);
        }
        if let Some(average) = self.averages.get(process as usize) {
            let before = average.load(Relaxed);
            let kept = before.saturating_sub(before / Lengths::SHARE);
            average.store(kept.saturating_add(statements / Lengths::SHARE), Relaxed);
        }
    }
}
