//! What holds of the definitions: functions that do nothing, whose clauses are laws.

ghost use Rattle.std.specs.Prelude.{◌≡◌, ℕ};
ghost use Rattle.ooo_bound.specs.declared.model.Bound.{Bound as BoundSpec};
ghost use Rattle.ooo_bound.specs.declared.model.BoundProcess.{BoundProcess as BoundProcessSpec};
ghost use Rattle.ooo_shapes.specs.Designs.{process_nodes};
ghost use Rattle.ooo_waits.specs.Waits.{process_waits, waits_of};

/// The wait nodes of a process, in order, are the waits of its statements, in the order of the text, reachable or not.
pub fn waits_in_order()
    ensures { (b : BoundSpec) (process : BoundProcessSpec) (first : ℕ) →
        waits_of (process_nodes b process first) ≡ process_waits b process }
{}
