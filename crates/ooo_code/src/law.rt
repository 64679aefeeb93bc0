//! What holds of the definitions: functions that do nothing, whose clauses are laws.

ghost use Rattle.std.specs.Prelude.{◌≡◌, ℕ, ◌≤◌, List, Some, slice_get};
ghost use Rattle.ooo_code.specs.declared.activation.Frame.{Frame as FrameSpec};
ghost use Rattle.ooo_code.specs.declared.design.Design.{Design as DesignSpec};
ghost use Rattle.ooo_code.specs.declared.design.Proc.{Proc as ProcSpec};
ghost use Rattle.ooo_code.specs.Dependence.{AgreeOn, DidTheSame, TouchesOnly};
ghost use Rattle.ooo_code.specs.AsSaid.{DoesAsSaid};
ghost use Rattle.ooo_code.specs.OwnSteps.{SeesOwnSteps};
ghost use Rattle.ooo_code.specs.Nodes.{by_nodes, between, pass, Doing, Next, Running};
ghost use Rattle.ooo_code.specs.Sound.{IsRanked};
ghost use Rattle.ooo_code.specs.declared.node.Node.{Node as NodeSpec};
ghost use Rattle.ooo_code.specs.Outcomes.{View};
ghost use Rattle.ooo_code.specs.Segments.{Accesses};

/// An activation does the same on two views that agree on what its segment touches.
pub fn reads_what_is_touched()
    ensures { (design : DesignSpec) (statements p : ℕ) (process : ProcSpec) (frame : FrameSpec)
        (v w : View) →
        slice_get design.processes p ≡ Some process →
        AgreeOn (Accesses design process frame.entry) v w →
        DidTheSame (Accesses design process frame.entry)
        (by_nodes design statements p frame v) (by_nodes design statements p frame w) }
{}

/// An activation changes no variable and has no effect but on what its segment touches.
pub fn changes_what_is_touched()
    ensures { (design : DesignSpec) (statements p : ℕ) (process : ProcSpec) (frame : FrameSpec)
        (v : View) →
        slice_get design.processes p ≡ Some process →
        TouchesOnly (Accesses design process frame.entry) v (by_nodes design statements p frame v) }
{}

/// Each effect of an activation is that of a node of its segment, and notifies after the node's constant time where there is
/// one. Where it waits, it waits behind a wait node of its segment and on what that says, or it is that of a method.
pub fn does_as_said()
    ensures { (design : DesignSpec) (statements p : ℕ) (process : ProcSpec) (frame : FrameSpec)
        (v : View) →
        slice_get design.processes p ≡ Some process →
        DoesAsSaid design process frame.entry (by_nodes design statements p frame v) }
{}

/// In a sound design more nodes than `between` between two that count change nothing, so an activation ends by a wait,
/// an end, a fault or the statement limit.
pub fn enough_nodes()
    ensures { (nodes : List NodeSpec) (r : Running) (counted : NodeSpec → Next) (m n : ℕ)
        (d : Doing) →
        IsRanked nodes → between nodes ≤ m →
        pass nodes r counted m n d ≡ pass nodes r counted (between nodes) n d }
{}

/// A process's own take leaves it one value less of that fifo, and its own put one free slot less; nothing else that it sees
/// changes by them.
pub fn own_steps_are_seen()
    ensures { SeesOwnSteps }
{}
