//! What holds of the definitions: functions that do nothing, whose clauses are laws.

ghost use Rattle.std.specs.Prelude.{◌≡◌, ℕ, ◌+◌, ◌*◌, ◌<◌, List, Some, false, slice_get};
ghost use Rattle.ooo_code.specs.Outcomes.{Activate};
ghost use Rattle.ooo_code.specs.declared.design.Design.{Design as DesignSpec};
ghost use Rattle.ooo_code.specs.declared.limits.Limits.{Limits as LimitsSpec};
ghost use Rattle.ooo_meaning.specs.Sequence.{State, Result, evaluate, run_whole, IsWholeRun};
ghost use Rattle.ooo_meaning.specs.World.{wait_at};
ghost use Rattle.ooo_meaning.specs.Laws.{AreAlike, SameState, IsBetween, cycles_left};
ghost use Rattle.ooo_meaning.specs.Runs.{sequential_run};
ghost use Rattle.ooo_meaning.specs.Rows.{WorkedRuns};
ghost use Rattle.ooo_meaning.specs.Endings.{EndingsAreNamed, RunsHaveHistories};

/// The reports of models that are worked by hand, computed from the definitions alone.
pub fn worked_runs()
    ensures { WorkedRuns }
{}

/// A relation of the places of two kinds of activation, for each process.
pub trait Relation<K, L> {
    ghost relates: { ℕ → K → L → Type 0 };
}

/// A state has one run.
pub fn one_run<K>()
    ensures { (activate : Activate K) (order : List ℕ) (bounds : LimitsSpec) (s : State K)
        (r q : Result) →
        IsWholeRun activate order bounds s r → IsWholeRun activate order bounds s q → r ≡ q }
{}

/// Two activations that do the same from related places give the same runs.
pub fn same_runs<K, L, R: Relation<K, L>>()
    ensures { (f : Activate K) (g : Activate L) (order : List ℕ) (bounds : LimitsSpec)
        (n : ℕ) (s : State K) (t : State L) →
        AreAlike R.relates f g → SameState R.relates s t →
        run_whole f order bounds n s ≡ run_whole g order bounds n t }
{}

/// A process that isn't runnable as an evaluation begins keeps its place in it.
pub fn keeps_place<K>()
    ensures { (activate : Activate K) (order : List ℕ) (s : State K) (p : ℕ) →
        (wait_at s.world.waits p).runnable ≡ false →
        slice_get (evaluate activate order s).places p ≡ slice_get s.places p }
{}

/// Every run is over after one cycle more than the limits leave.
pub fn every_run_ends<K>()
    ensures { (activate : Activate K) (order : List ℕ) (bounds : LimitsSpec) (s : State K) (n : ℕ) →
        IsBetween bounds s.world → cycles_left bounds s.world < n →
        (r : Result) × (run_whole activate order bounds n s ≡ Some r) }
{}

/// Every design has a sequential run, within so many cycles.
pub fn every_design_runs()
    ensures { (design : DesignSpec) (bounds : LimitsSpec) → 0 < bounds.deltas →
        (r : Result) × (sequential_run design bounds ((bounds.stop.0 + 1) * (bounds.deltas + 1))
        ≡ Some r) }
{}

/// The sequential run of a design has a history for each of its channels.
pub fn histories()
    ensures { RunsHaveHistories }
{}

/// Where each process of a design has a name, the ending of its sequential run names one, if it speaks of a process.
pub fn endings()
    ensures { EndingsAreNamed }
{}
