ghost use Rattle.std.specs.Prelude.{◌+◌, ◌<◌, ◌^◌, length, IfOk};
ghost use Rattle.ooo_code.specs.Sound.{IsSound};
ghost use Rattle.ooo_plain.specs.Engine.{IsFew};
ghost use Rattle.ooo_plain.specs.Cycles.{AreInRange, IsWithin, MayGo, Passes, Evaluates, Cycles};

use crate::engine::Engine;
use crate::laws::laws;
use ooo_code::{Design, Limits};
use ooo_history::End;
use ooo_interp::Emitted;
use ooo_time::Stamp;
use std::alloc::{AllocError, Global};

/// What came of the lowest process that is due now.
#[derive(Clone, Copy)]
pub enum Pass {
    /// No process is due now.
    Nobody,
    /// This process had its turn.
    Had(usize),
    /// A process had its turn, and its activation ended the run.
    Broke(End),
}

/// What follows a cycle.
#[derive(Clone, Copy)]
pub enum CycleEnd {
    /// The run is over, with the histories up to the cycle of a stamp.
    Over(End, Stamp),
    /// Another cycle.
    Goes,
}

impl Engine {
    // The lowest process that is due now has its turn.
    fn pass_next(
        &mut self,
        alloc: Global,
        design: &Design,
        emitted: &mut Emitted,
        statements: u32,
    ) -> Result<Pass, AllocError>
        requires sound { IsSound design.now }
        requires few { IsFew design.now }
        requires may { MayGo design.now self.old }
        requires counts { self.old.activations + 1 < 2 ^ 128 }
        ensures { IfOk result (λ o. Passes design.now statements o self.old self.new) }
    {
        let Some(p) = self.schedule.take(self.stamp) else {
            return Ok(Pass::Nobody);
        };
        match self.turn(alloc, design, emitted, p as u32, statements)? {
            None => Ok(Pass::Had(p)),
            Some(end) => Ok(Pass::Broke(end)),
        }
    }

    // The evaluation: each process that is due now has its turn, in ascending number (IEEE 1666-2011, 4.2.1.2). How an
    // activation ended the run, if one did.
    fn evaluate(
        &mut self,
        alloc: Global,
        design: &Design,
        emitted: &mut Emitted,
        statements: u32,
    ) -> Result<Option<End>, AllocError>
        requires sound { IsSound design.now }
        requires few { IsFew design.now }
        requires may { MayGo design.now self.old }
        requires counts { self.old.activations + length design.now.processes + 1 < 2 ^ 128 }
        ensures { IfOk result (λ o. Evaluates design.now statements o self.old self.new) }
    {
        let mut next = 0;
        'turns: loop {
            match self.pass_next(alloc, design, emitted, statements)? {
                Pass::Nobody => return Ok(None),
                Pass::Had(p) => next = p + 1,
                Pass::Broke(end) => return Ok(Some(end)),
            }
        }
    }

    /// One cycle, from its evaluation up to the next stamp at which a process runs (4.2.1). Its activations emit, one
    /// after the other, into what is lent for that.
    ///
    /// # Errors
    ///
    /// Only where memory runs out.
    pub fn cycle(
        &mut self,
        alloc: Global,
        design: &Design,
        emitted: &mut Emitted,
        limits: &Limits,
    ) -> Result<CycleEnd, AllocError>
        requires sound { IsSound design.now }
        requires few { IsFew design.now }
        requires range { AreInRange limits.now }
        requires within { IsWithin limits.now self.old.stamp }
        requires may { MayGo design.now self.old }
        requires counts { self.old.activations + length design.now.processes + 1 < 2 ^ 128 }
        ensures { IfOk result (λ t. Cycles design.now limits.now t self.old self.new) }
    {
        laws();
        if let Some(end) = self.evaluate(alloc, design, emitted, limits.statements)? {
            return Ok(CycleEnd::Over(end, self.stamp));
        }
        let after = Stamp {
            time: self.stamp.time,
            delta: self.stamp.delta + 1,
        };
        if self.stopped {
            return Ok(CycleEnd::Over(End::Stop(self.stamp), after));
        }
        let Some(next) = self.schedule.first() else {
            return Ok(CycleEnd::Over(End::Idle(self.last), after));
        };
        if next.time.0 > limits.stop.0 {
            return Ok(CycleEnd::Over(End::Time(limits.stop), after));
        }
        if next.delta == limits.deltas {
            return Ok(CycleEnd::Over(End::Deltas(next), after));
        }
        self.stamp = next;
        self.bank.forget(next);
        Ok(CycleEnd::Goes)
    }
}
