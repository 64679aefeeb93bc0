//! What holds of the definitions: functions that do nothing, whose clauses are laws.

ghost use Rattle.std.specs.Prelude.{◌≡◌, ℕ, ◌+◌, ◌*◌, ◌<◌, ◌≤◌, ◌⊎◌, List, [], ◌∷◌, ◌++◌, Option, Some, slice_get};
ghost use Rattle.ooo_time.specs.declared.stamp.Stamp.{Stamp as StampSpec};
ghost use Rattle.ooo_code.specs.declared.design.Proc.{Proc as ProcSpec};
ghost use Rattle.ooo_code.specs.declared.segment.Segment.{Segment as SegmentSpec};
ghost use Rattle.ooo_code.specs.declared.activation.Frame.{Frame as FrameSpec};
ghost use Rattle.ooo_code.specs.Dependence.{DidTheSame};
ghost use Rattle.ooo_code.specs.Nodes.{by_nodes};
ghost use Rattle.ooo_code.specs.Outcomes.{View};
ghost use Rattle.ooo_code.specs.Segments.{Accesses};
ghost use Rattle.ooo_code.specs.Sound.{IsSound};
ghost use Rattle.ooo_schedules.specs.Design.{only};
ghost use Rattle.ooo_schedules.specs.Model.{Act, Front, In, committed, count, dispatched};
ghost use Rattle.ooo_schedules.specs.Program.{Sound, sees};
ghost use Rattle.ooo_meaning.specs.Runs.{IsSequentialRun, Shows as ShowsRun};
ghost use Rattle.ooo_meaning.specs.Sequence.{Result};
ghost use Rattle.ooo_schedules.specs.Sequence.{RunsTo, Starts, begin};
ghost use Rattle.ooo_schedules.specs.Tables.{EveryScheduleOf, program};
ghost use Rattle.ooo_dispatch.specs.declared.reads.Reads.{Reads as ReadsSpec};
ghost use Rattle.ooo_dispatch.specs.Enough.{ComeBefore, Descend, Shows};
ghost use Rattle.ooo_dispatch.specs.Rules.{Rules, reads_at, tables, view_at};
ghost use Rattle.ooo_dispatch.specs.Scheduler.{AgreesWith, AreMadeAs, JobsRead};
ghost use Rattle.ooo_dispatch.specs.Boards.{AreRules, Board, IsAllowed, IsLawful, IsOverBoard, model};
ghost use Rattle.ooo_dispatch.specs.Reports.{run_of_board};
ghost use Rattle.ooo_time.specs.Scales.{greatest_time};
ghost use Rattle.ooo_code.specs.declared.design.Design.{Design as DesignSpec};
ghost use Rattle.ooo_code.specs.declared.limits.Limits.{Limits as LimitsSpec};
ghost use Rattle.ooo_tables.specs.declared.tables.Tables.{Tables as TablesSpec};
ghost use Rattle.ooo_tables.specs.Tables.{AreTables};
ghost use Rattle.ooo_dispatch.specs.declared.step.Step.{Step as StepSpec};
ghost use Rattle.ooo_dispatch.specs.Banks.{FrontsAreTold, FrontsStay, JobsMayCommit, JobsReadBoard};
ghost use Rattle.ooo_dispatch.specs.Goes.{ComesToEnd};
ghost use Rattle.ooo_dispatch.specs.Inside.{AreInside};
ghost use Rattle.ooo_dispatch.specs.Least.{MayRun, rules_of};
ghost use Rattle.ooo_dispatch.specs.Reach.{FrontsInReach, JobsLeaveInReach};
ghost use Rattle.ooo_dispatch.specs.ReadOff.{ReportsAreReadOff};
ghost use Rattle.ooo_dispatch.specs.Worked.{WorkedSchedule};
ghost use Rattle.ooo_dispatch.specs.Schedules.{Always, CommitsPutBack, CommitsWalk, CutStays, IsReady};
ghost use Rattle.ooo_dispatch.specs.Schedules.{NoDeadEnd, NoneOvertakes, NothingAway, StayAllowed};
ghost use Rattle.ooo_dispatch.specs.Steps.{AreLawful, IsLawfulStep, Replay, nothing_done, replayed};

use crate::reads::Reads;

/// Nothing was done: that is lawful.
pub fn begins()
    ensures { (r : Rules) → IsLawful r (record { log = []; out = [] }) }
{}

/// Where a process is allowed, or a job is out, a lawful board goes on.
pub fn goes_on()
    ensures dispatched { (r : Rules) (b : Board r) (p : ℕ) (f : Front StampSpec) →
        IsLawful r b → IsAllowed r b p f → IsLawful r (dispatched (model r) b p f) }
    ensures committed { (r : Rules) (b : Board r) (j : Act StampSpec ReadsSpec) →
        IsLawful r b → In j b.out → IsLawful r (committed (model r) b j) }
{}

/// The tables that are computed of a design are such as the laws speak of.
pub fn tables_are_rules()
    ensures { (design : DesignSpec) (limits : LimitsSpec) (t : TablesSpec) →
        AreTables design t → AreRules (rules_of design limits t) }
{}

/// What the least delays and the clashes of the tables allow is allowed.
pub fn least_allows()
    ensures { (design : DesignSpec) (limits : LimitsSpec) (t : TablesSpec)
        (b : Board (rules_of design limits t)) (p : ℕ) (f : Front StampSpec) →
        AreTables design t → limits.stop.0 ≤ greatest_time →
        MayRun (rules_of design limits t) t.advance b p f → IsAllowed (rules_of design limits t) b p f }
{}

/// The empty list of steps is lawful; a lawful one goes on with each step that is lawful after it; and what a lawful one
/// leads to is a board of which the laws speak.
pub fn steps_are_lawful()
    ensures empty { (design : DesignSpec) (limits : LimitsSpec) (t : TablesSpec) →
        AreLawful (rules_of design limits t) t.advance (nothing_done (rules_of design limits t)) [] }
    ensures on { (design : DesignSpec) (limits : LimitsSpec) (t : TablesSpec)
        (s : Replay (rules_of design limits t)) (steps : List StepSpec) (step : StepSpec) →
        AreLawful (rules_of design limits t) t.advance s steps →
        IsLawfulStep (rules_of design limits t) t.advance (replayed (rules_of design limits t) s steps) step →
        AreLawful (rules_of design limits t) t.advance s (steps ++ step ∷ []) }
    ensures leads { (design : DesignSpec) (limits : LimitsSpec) (t : TablesSpec) (steps : List StepSpec) →
        AreTables design t → limits.stop.0 ≤ greatest_time →
        AreLawful (rules_of design limits t) t.advance (nothing_done (rules_of design limits t)) steps →
        IsLawful (rules_of design limits t)
        (replayed (rules_of design limits t) (nothing_done (rules_of design limits t)) steps).board }
{}

/// The tables of a sound design say of its activations what the theorem on schedules asks: what they call their segments
/// call, their notifications and waits are along edges no longer than these, and what they share their segments share.
pub fn tables_are_sound()
    ensures { (r : Rules) → AreRules r → IsSound r.design → Sound (program (tables r)) }
{
    ooo_code::law::does_as_said();
}

/// Each process of a design is ready at time zero, or waits on its static events since before it.
pub fn processes_start()
    ensures { (r : Rules) → AreRules r → 0 < r.limits.deltas → Starts (program (tables r)) }
{}

/// A lawful board goes on until it is over, but not for ever. Where no job is out, it is over, or some process is allowed. No
/// process is committed more often than there are delta cycles, below the limit at each time, up to the stop time. And there
/// is a lawful board that is over: that of the sequential run.
pub fn boards_go_on()
    ensures never_stuck { (r : Rules) (b : Board r) → AreRules r → IsSound r.design →
        0 < r.limits.deltas → IsLawful r b → b.out ≡ [] →
        IsOverBoard r b ⊎ ((p : ℕ) × (f : Front StampSpec) × IsAllowed r b p f) }
    ensures not_for_ever { (r : Rules) (b : Board r) → AreRules r → IsSound r.design →
        0 < r.limits.deltas → IsLawful r b →
        (p : ℕ) → count p b.log ≤ (r.limits.stop.0 + 1) * r.limits.deltas }
    ensures comes_to_end { (r : Rules) → AreRules r → IsSound r.design → 0 < r.limits.deltas →
        (b : Board r) × IsLawful r b × IsOverBoard r b }
{
    ooo_meaning::law::every_design_runs();
    scheduler_makes_steps();
    tables_are_sound();
    processes_start();
    ooo_schedules::law::every_board::<Reads>();
}

/// Every lawful schedule of a sound design makes the activations of its sequential run alike, or activations beyond all of
/// it; and the rest of the theorem on schedules.
pub fn every_schedule()
    ensures { (r : Rules) → AreRules r → IsSound r.design → 0 < r.limits.deltas →
        EveryScheduleOf (tables r) }
{
    tables_are_sound();
    processes_start();
    ooo_schedules::law::every_schedule::<Reads>();
}

/// A worked schedule, in which one thread is over before the other runs at an earlier time, computed from the definitions
/// alone: each step is lawful, the board is over after them, and it shows what was printed in order of place.
pub fn worked_schedule()
    ensures { WorkedSchedule }
{}

/// Of every lawful list of steps: each front after a commit was there, and not later, or by the table of least delays the
/// job that is committed leads to it.
pub fn commits_walk()
    ensures { (design : DesignSpec) (limits : LimitsSpec) (t : TablesSpec) →
        IsReady design limits t → Always design limits t CommitsWalk }
{
    tables_are_sound();
    every_schedule();
}

/// Of every lawful list of steps: a place that is below the cut after a further step was so before it; so the cut never
/// rises.
pub fn cut_stays()
    ensures { (design : DesignSpec) (limits : LimitsSpec) (t : TablesSpec) →
        IsReady design limits t → Always design limits t CutStays }
{
    tables_are_sound();
    every_schedule();
    ooo_schedules::law::every_cut::<Reads>();
}

/// Of every lawful list of steps: nothing that was dispatched at a later place than a job that is out clashes with it.
pub fn none_overtakes()
    ensures { (design : DesignSpec) (limits : LimitsSpec) (t : TablesSpec) →
        IsReady design limits t → Always design limits t NoneOvertakes }
{
    tables_are_sound();
    every_schedule();
}

/// Of every lawful list of steps: no job out owns a variable that an allowed segment touches, or that another job does.
pub fn nothing_away()
    ensures { (design : DesignSpec) (limits : LimitsSpec) (t : TablesSpec) →
        IsReady design limits t → Always design limits t NothingAway }
{
    tables_are_sound();
    every_schedule();
}

/// Of every lawful list of steps: a commit puts each variable that the job owns back as its activation leaves it, and all
/// others stay.
pub fn commits_put_back()
    ensures { (design : DesignSpec) (limits : LimitsSpec) (t : TablesSpec) →
        IsReady design limits t → Always design limits t CommitsPutBack }
{
    tables_are_sound();
    every_schedule();
}

/// Of every lawful list of steps: what is allowed stays so until it is dispatched or is no more below the cut, and its job
/// stays the same.
pub fn stay_allowed()
    ensures { (design : DesignSpec) (limits : LimitsSpec) (t : TablesSpec) →
        IsReady design limits t → Always design limits t StayAllowed }
{
    tables_are_sound();
    every_schedule();
}

/// Of every lawful list of steps: where no process runs, the front of least place may be dispatched, if it is below the cut.
pub fn no_dead_end()
    ensures { (design : DesignSpec) (limits : LimitsSpec) (t : TablesSpec) →
        IsReady design limits t → Always design limits t NoDeadEnd }
{
    tables_are_sound();
    every_schedule();
}

/// Every lawful list of steps in which no job was abandoned goes on to one after which the board is over.
pub fn every_list_ends()
    ensures { (design : DesignSpec) (limits : LimitsSpec) (t : TablesSpec) →
        IsReady design limits t → Always design limits t ComesToEnd }
{
    tables_are_sound();
    processes_start();
    every_schedule();
    ooo_schedules::law::every_board::<Reads>();
}

/// Of the activations before its place, a segment reads those that it may see; what they make of all that it touches is
/// what all of them make. So it does what it would do on any view that shows that.
pub fn jobs_read_enough()
    ensures shows { (r : Rules) (p g : ℕ) (process : ProcSpec) (segment : SegmentSpec) (s : StampSpec)
        (last : Option (Act StampSpec ReadsSpec)) (ys : List (Act StampSpec ReadsSpec)) →
        AreRules r → IsSound r.design → slice_get r.segments g ≡ Some segment →
        segment.process ≡ p → slice_get r.design.processes p ≡ Some process →
        Descend r ys → ComeBefore p s ys →
        Shows r process segment.entry ys
        (view_at s (reads_at r p g s last (only (sees (program (tables r)) p g s) ys))) }
    ensures does { (r : Rules) (p : ℕ) (process : ProcSpec) (frame : FrameSpec)
        (ys : List (Act StampSpec ReadsSpec)) (v w : View) →
        slice_get r.design.processes p ≡ Some process → v.stamp ≡ w.stamp →
        Shows r process frame.entry ys v → Shows r process frame.entry ys w →
        DidTheSame (Accesses r.design process frame.entry)
        (by_nodes r.design r.limits.statements p frame v)
        (by_nodes r.design r.limits.statements p frame w) }
{
    ooo_code::law::does_as_said();
    ooo_code::law::reads_what_is_touched();
}

/// The sequential run of a sound design makes the steps of the run of which the theorem speaks: there is a log of just its
/// activations, at the same places, with the same output, effects and ends.
pub fn scheduler_makes_steps()
    ensures { (r : Rules) (result : Result) → AreRules r → IsSound r.design → 0 < r.limits.deltas →
        IsSequentialRun r.design r.limits result →
        (log : List (Act StampSpec ReadsSpec)) ×
        RunsTo (program (tables r)) (begin (program (tables r))) [] log ×
        AreMadeAs r result.made log }
{
    ooo_code::law::does_as_said();
    ooo_code::law::reads_what_is_touched();
    ooo_code::law::changes_what_is_touched();
    tables_are_sound();
    processes_start();
    ooo_schedules::law::every_step::<Reads>();
    ooo_schedules::law::every_ending::<Reads>();
}

/// Whatever lawful steps lead to a board, its jobs are the activations of the sequential run, as far as that goes; and once
/// it is over, it reports just these.
pub fn every_board_agrees()
    ensures { (r : Rules) (result : Result) (b : Board r) → AreRules r → IsSound r.design →
        0 < r.limits.deltas → IsSequentialRun r.design r.limits result → IsLawful r b →
        AgreesWith r b result }
{
    scheduler_makes_steps();
    every_schedule();
}

/// Whatever lawful steps lead to a board that is over, the run that is read off it is the sequential run: it has its
/// histories, its ending and the number of its activations, and its pieces joined are its output.
pub fn every_board_reports()
    ensures { (r : Rules) (result : Result) (b : Board r) → AreRules r → IsSound r.design →
        0 < r.limits.deltas → IsSequentialRun r.design r.limits result → IsLawful r b →
        IsOverBoard r b → ShowsRun (run_of_board r b) result }
{
    ooo_code::law::does_as_said();
    ooo_code::law::reads_what_is_touched();
    ooo_code::law::changes_what_is_touched();
    tables_are_sound();
    processes_start();
    ooo_schedules::law::every_step::<Reads>();
    ooo_schedules::law::every_ending::<Reads>();
    ooo_schedules::law::every_report::<Reads>();
}

/// Whatever lawful steps lead to a board, each of its jobs and committed activations reads what the activation of that
/// process and number sees in the sequential run, if the run makes it: of all that its segment touches, at the same stamp.
pub fn every_job_reads()
    ensures { (r : Rules) (result : Result) (b : Board r) → AreRules r → IsSound r.design →
        0 < r.limits.deltas → IsSequentialRun r.design r.limits result → IsLawful r b →
        JobsRead r b result }
{
    every_board_agrees();
}

/// Of every lawful list of steps: the board agrees with the sequential run, each of its jobs reads what that run's activation
/// sees, and once it is over, the run that is read off it is that one.
pub fn every_list_agrees()
    ensures agrees { (design : DesignSpec) (limits : LimitsSpec) (t : TablesSpec) (result : Result) →
        IsReady design limits t → IsSequentialRun design limits result →
        Always design limits t (λ r least s. AgreesWith r s.board result) }
    ensures reads { (design : DesignSpec) (limits : LimitsSpec) (t : TablesSpec) (result : Result) →
        IsReady design limits t → IsSequentialRun design limits result →
        Always design limits t (λ r least s. JobsRead r s.board result) }
    ensures reports { (design : DesignSpec) (limits : LimitsSpec) (t : TablesSpec) (result : Result) →
        IsReady design limits t → IsSequentialRun design limits result → Always design limits t
        (λ r least s. IsOverBoard r s.board → ShowsRun (run_of_board r s.board) result) }
{
    every_board_agrees();
    every_job_reads();
    every_board_reports();
}

/// Of every lawful list of steps: what the next job of a process reads is what a bank shows to which the effects of the log
/// were applied, in the order of the commits, and the cells as the commits left them.
pub fn jobs_read_board()
    ensures { (design : DesignSpec) (limits : LimitsSpec) (t : TablesSpec) →
        IsReady design limits t → Always design limits t JobsReadBoard }
{
    tables_are_sound();
    every_schedule();
    ooo_code::law::does_as_said();
}

/// Of every lawful list of steps: the effects of a job that is out may be applied to the bank to which those of the log were
/// applied, in the order of the commits; and it ran in time, below the limit of deltas.
pub fn jobs_may_commit()
    ensures { (design : DesignSpec) (limits : LimitsSpec) (t : TablesSpec) →
        IsReady design limits t → Always design limits t JobsMayCommit }
{
    tables_are_sound();
    every_schedule();
    ooo_code::law::does_as_said();
    ooo_code::law::own_steps_are_seen();
    jobs_read_board();
}

/// Of every lawful list of steps: when the events of a wait fire is what such a bank tells.
pub fn fronts_are_told()
    ensures { (design : DesignSpec) (limits : LimitsSpec) (t : TablesSpec) →
        IsReady design limits t → Always design limits t FrontsAreTold }
{
    tables_are_sound();
    every_schedule();
    ooo_code::law::does_as_said();
}

/// Of every lawful list of steps: a commit whose effects touch no event of a wait leaves the front by that wait as it was.
pub fn fronts_stay()
    ensures { (design : DesignSpec) (limits : LimitsSpec) (t : TablesSpec) →
        IsReady design limits t → Always design limits t FrontsStay }
{}

/// Of every lawful list of steps: each front is of a segment of its process, and at a stamp to which delays can be added,
/// with a delta index up to the limit.
pub fn fronts_in_reach()
    ensures { (design : DesignSpec) (limits : LimitsSpec) (t : TablesSpec) →
        IsReady design limits t → Always design limits t FrontsInReach }
{
    tables_are_sound();
    ooo_code::law::does_as_said();
}

/// Of every lawful list of steps: a job that is out leaves its process to one of its segments, after a time that can be
/// counted.
pub fn jobs_leave_in_reach()
    ensures { (design : DesignSpec) (limits : LimitsSpec) (t : TablesSpec) →
        IsReady design limits t → Always design limits t JobsLeaveInReach }
{
    tables_are_sound();
    ooo_code::law::does_as_said();
}

/// What a segment of a sound design reads, writes or waits on is there.
pub fn accesses_are_inside()
    ensures { (r : Rules) → AreRules r → IsSound r.design → AreInside r }
{}

/// Of every lawful list of steps: each committed activation ran below the limit of deltas, and the operations on each channel
/// were applied in the order of their stamps. And once the board is over, the run that it reports can be computed from what
/// is kept in the order of the commits: the operations, the places and the pieces of the activations, those beyond the end
/// among them, and what may end the run.
pub fn reports_are_read_off()
    ensures { (design : DesignSpec) (limits : LimitsSpec) (t : TablesSpec) →
        IsReady design limits t → Always design limits t ReportsAreReadOff }
{
    tables_are_sound();
    every_schedule();
    ooo_code::law::does_as_said();
}
