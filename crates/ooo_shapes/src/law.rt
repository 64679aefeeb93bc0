//! What holds of the definitions: functions that do nothing, whose clauses are laws.

ghost use Rattle.std.specs.Prelude.{◌≡◌, ℕ, [], Some, slice_get};
ghost use Rattle.ooo_code.specs.Sound.{IsSound as IsSoundDesign};
ghost use Rattle.ooo_code.specs.declared.design.Proc.{Proc as ProcSpec};
ghost use Rattle.ooo_code.specs.declared.limits.Limits.{Limits as LimitsSpec};
ghost use Rattle.ooo_code.specs.Dependence.{AgreeOn, DidTheSame, TouchesOnly};
ghost use Rattle.ooo_code.specs.Outcomes.{View};
ghost use Rattle.ooo_code.specs.declared.segment.SegmentEntry.TheVariants.{Start};
ghost use Rattle.ooo_bound.specs.declared.model.Bound.{Bound as BoundSpec};
ghost use Rattle.ooo_bound.specs.declared.model.BoundProcess.{BoundProcess as BoundProcessSpec};
ghost use Rattle.ooo_activation.specs.Activations.{Place, act_found};
ghost use Rattle.ooo_activation.specs.Items.{entered_all};
ghost use Rattle.ooo_activation.specs.Sound.{IsSound};
ghost use Rattle.ooo_activation.specs.Runs as by_statements;
ghost use Rattle.ooo_meaning.specs.Runs as by_nodes;
ghost use Rattle.ooo_shapes.specs.Designs.{design_of};
ghost use Rattle.ooo_shapes.specs.Segments.{EndsBehind, SameSegments, Touches, without_values};

use ooo_code::law::own_steps_are_seen;

/// A sound model has the same sequential runs by its statements and by its nodes.
pub fn same_runs()
    ensures { (b : BoundSpec) (bounds : LimitsSpec) (n : ℕ) → IsSound b →
        by_statements.sequential_run b bounds n ≡ by_nodes.sequential_run (design_of b) bounds n }
{}

/// The design of a sound model is sound.
pub fn sound_design()
    ensures { (b : BoundSpec) → IsSound b → IsSoundDesign (design_of b) }
{}

/// A process of a sound model has the same segments by its statements and by its nodes, past any number of waits: each
/// touches the same, names the same events in triggers, and ends by the same waits.
pub fn same_segments()
    ensures { (b : BoundSpec) (p count : ℕ) (process : BoundProcessSpec) (own : ProcSpec) →
        IsSound b →
        slice_get b.processes p ≡ Some process → slice_get (design_of b).processes p ≡ Some own →
        SameSegments b process (design_of b) own count (entered_all process.body []) Start }
{}

/// Where an activation by statements ends by a wait, it stands behind one that the statements come to from where it began,
/// whichever way their tests go; or it is that of a method, and stands at its start.
pub fn ends_behind_a_wait()
    ensures { (b : BoundSpec) (process : BoundProcessSpec) (statements : ℕ) (place : Place)
        (v : View) →
        let ended = act_found b statements (Some process) place v in
        EndsBehind b process (without_values place.items) ended.deed.end ended.next.items }
{}

/// An activation by statements does the same on two views that agree on what its statements touch up to their next waits.
pub fn reads_what_statements_touch()
    ensures { (b : BoundSpec) (process : BoundProcessSpec) (statements : ℕ) (place : Place)
        (v w : View) →
        AgreeOn (Touches b (without_values place.items)) v w →
        DidTheSame (Touches b (without_values place.items))
        (act_found b statements (Some process) place v)
        (act_found b statements (Some process) place w) }
{
    own_steps_are_seen();
}

/// An activation by statements changes no variable and has no effect but on what its statements touch up to their next
/// waits.
pub fn changes_what_statements_touch()
    ensures { (b : BoundSpec) (process : BoundProcessSpec) (statements : ℕ) (place : Place)
        (v : View) →
        TouchesOnly (Touches b (without_values place.items)) v
        (act_found b statements (Some process) place v) }
{
    own_steps_are_seen();
}
