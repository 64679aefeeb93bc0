//! What holds of the definitions: functions that do nothing, whose clauses are laws.

ghost use Rattle.std.specs.Prelude.{◌≡◌, ◌≢◌, ℕ, List, Option, None, Some, slice_index_or};
ghost use Rattle.ooo_code.specs.declared.design.Design.{Design as DesignSpec};
ghost use Rattle.ooo_code.specs.declared.limits.Limits.{Limits as LimitsSpec};
ghost use Rattle.ooo_tables.specs.declared.tables.Tables.{Tables as TablesSpec};
ghost use Rattle.ooo_tables.specs.Tables.{AreTables};
ghost use Rattle.ooo_time.specs.Delays.{advanced};
ghost use Rattle.ooo_dispatch.specs.Least.{HoldsUp, rules_of};
ghost use Rattle.ooo_dispatch.specs.Schedules.{Always, IsReady};
ghost use Rattle.ooo_fronts.specs.declared.front.Front.{Front as FrontSpec};
ghost use Rattle.ooo_fronts.specs.declared.front.Hold.{Hold as HoldSpec};
ghost use Rattle.ooo_fronts.specs.Choices.{CountHolds, PicksLeast};
ghost use Rattle.ooo_fronts.specs.Fronts.{AreAligned, front_is};
ghost use Rattle.ooo_fronts.specs.Holds.{AreCounts, IsHold, IsHoldByRule};

/// Of every lawful list of steps: where no process runs, and some front is below the cut, the process that is picked is that
/// of the front of least place.
pub fn least_is_picked()
    ensures { (design : DesignSpec) (limits : LimitsSpec) (t : TablesSpec) →
        IsReady design limits t → Always design limits t PicksLeast }
{
    ooo_dispatch::law::no_dead_end();
}

/// The tables of a design are such that fronts can be counted by them.
pub fn tables_are_aligned()
    ensures { (design : DesignSpec) (t : TablesSpec) → AreTables design t → AreAligned t }
{}

/// The count of a process that has a front is 0 exactly where no front of another process holds it up, by the rule that the
/// tables of a design give.
pub fn counts_are_of_the_rule()
    ensures { (design : DesignSpec) (limits : LimitsSpec) (t : TablesSpec)
        (fronts : List (Option FrontSpec)) (counts : List ℕ) → AreTables design t →
        AreCounts t fronts counts → CountHolds (rules_of design limits t) t.advance fronts counts }
{}

/// What is found to hold a process up does so by the rule, and what does so by the rule is found.
pub fn holds_are_of_the_rule()
    ensures up { (design : DesignSpec) (limits : LimitsSpec) (t : TablesSpec)
        (fronts : List (Option FrontSpec)) (p : ℕ) (h : HoldSpec) → (is : IsHold t fronts p h) →
        IsHoldByRule design limits t p h is.holding is.held }
    ensures found { (design : DesignSpec) (limits : LimitsSpec) (t : TablesSpec)
        (fronts : List (Option FrontSpec)) (p q : ℕ) (g f : FrontSpec) → AreTables design t → q ≢ p →
        slice_index_or fronts q None ≡ Some g → slice_index_or fronts p None ≡ Some f →
        (up : HoldsUp (rules_of design limits t) t.advance (front_is g) p (front_is f)) → IsHold t
        fronts p (record { front = q; segment = up.segment; at = advanced g.stamp up.delay }) }
{}
