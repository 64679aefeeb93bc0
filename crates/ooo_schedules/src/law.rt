//! The laws: functions that do nothing, whose clauses are the laws.

ghost use Rattle.ooo_schedules.specs.Boards.{EveryBoard};
ghost use Rattle.ooo_schedules.specs.Cuts.{EveryCut};
ghost use Rattle.ooo_schedules.specs.Example.{ExampleMet};
ghost use Rattle.ooo_schedules.specs.Going.{EveryEnding, EveryStep};
ghost use Rattle.ooo_schedules.specs.Reports.{EveryReport};
ghost use Rattle.ooo_schedules.specs.Tables.{EverySchedule};

/// Of a program whose access and edges are sound, each lawful schedule makes the activations of the sequential run alike
/// or activations beyond all of it; a board that is over reports just the run's, and ends as the run does; what is
/// dispatched out of order doesn't conflict; and what is allowed stays so until it is dispatched, with the same job.
pub fn every_schedule<R>()
    ensures { EverySchedule R }
{}

/// The cut of a board never rises: what an activation or the delta limit has cut off stays cut off.
pub fn every_cut<R>()
    ensures { EveryCut R }
{}

/// How the sequential run of such a program begins and goes on, turn by turn and cycle by cycle: for a scheduler of which it
/// is to be said that it makes the same steps.
pub fn every_step<R>()
    ensures { EveryStep R }
{}

/// How it ends where no activation broke or stopped: idle where nothing is due, late where all that is due is after the stop
/// time, and at the limit of deltas where a process is to run there.
pub fn every_ending<R>()
    ensures { EveryEnding R }
{}

/// What a board that is over reports can be read off its log and its fronts: the activations that no other one cuts off and
/// that stand below the limit of deltas are those of the sequential run, in their order; and the board's next stamp is the
/// one after which the run ends.
pub fn every_report<R>()
    ensures { EveryReport R }
{}

/// A board to which lawful steps lead goes on until it is over: where no job is out, it is over or some process is allowed;
/// no process is committed more often than there are stamps below the limits; and the sequential run is made by lawful steps,
/// after which the board is over.
pub fn every_board<R>()
    ensures { EveryBoard R }
{}

/// There is a program of which the law speaks.
pub fn example_is_sound()
    ensures { ExampleMet }
{}
