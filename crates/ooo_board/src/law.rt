//! What holds of jobs: functions that do nothing, whose clauses are laws.

ghost use Rattle.std.specs.Prelude.{◌≡◌, ℕ, List, length};
ghost use Rattle.ooo_time.specs.declared.stamp.Stamp.{Stamp as StampSpec};
ghost use Rattle.ooo_code.specs.declared.design.Design.{Design as DesignSpec};
ghost use Rattle.ooo_code.specs.declared.limits.Limits.{Limits as LimitsSpec};
ghost use Rattle.ooo_code.specs.Outcomes.{View};
ghost use Rattle.ooo_interp.specs.Jobs.{IsOf, IsPartOf, done_on, job_on};
ghost use Rattle.ooo_interp.specs.declared.job.Done.{Done as DoneSpec};
ghost use Rattle.ooo_interp.specs.declared.job.Job.{Job as JobSpec};
ghost use Rattle.ooo_schedules.specs.Model.{Act};
ghost use Rattle.ooo_dispatch.specs.declared.reads.Reads.{Reads as ReadsSpec};
ghost use Rattle.ooo_dispatch.specs.declared.step.Step.{Step as StepSpec};
ghost use Rattle.ooo_dispatch.specs.Rules.{Rules, process_of};
ghost use Rattle.ooo_tables.specs.declared.tables.Tables.{Tables as TablesSpec};
ghost use Rattle.ooo_fronts.specs.declared.front.Front.{Front as FrontSpec};
ghost use Rattle.ooo_board.specs.Cores.{MayDispatch, Stands};
ghost use Rattle.ooo_board.specs.Jobs.{IsDoneOf, IsJobOf};
ghost use Rattle.ooo_board.specs.Lending.{AreAtHand};

/// What is done for a job of a board is the activation that the job is of.
pub fn jobs_give()
    ensures { (r : Rules) (j : Act StampSpec ReadsSpec) (job : JobSpec) (done : DoneSpec) →
        process_of r j.segment ≡ j.process →
        length j.reads.variables ≡ length r.design.variables → IsJobOf r j job → IsOf job done →
        ((v : View) → IsPartOf job v → job_on job v ≡ done_on done v) → IsDoneOf r j done }
{}

/// What a job is lent is at hand, where its process may be dispatched.
pub fn parts_are_at_hand()
    ensures { (design : DesignSpec) (limits : LimitsSpec) (t : TablesSpec) (steps : List StepSpec)
        (p : ℕ) (f : FrontSpec) → Stands design limits t steps →
        MayDispatch design limits t steps p f → AreAtHand design limits t steps p f }
{
    ooo_dispatch::law::tables_are_rules();
    ooo_dispatch::law::fronts_in_reach();
    ooo_dispatch::law::accesses_are_inside();
    ooo_dispatch::law::jobs_read_board();
    ooo_dispatch::law::nothing_away();
}
