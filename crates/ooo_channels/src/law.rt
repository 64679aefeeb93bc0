//! What holds of operations, and of operations beside a run of the sequential scheduler: functions that do nothing, whose
//! clauses are laws.
//!
//! An engine that applies the effects of each activation at the present stamp, and asks at the present stamp, keeps
//! `Agrees` by these laws alone: it holds as the run starts (`starts`), through each activation (`activates`) and as a
//! cycle ends (`settles`), also where the engine forgets firings (`forgets`). While it holds, a bank to which the
//! operations were applied answers what the scheduler's phases give (`shows`, `fires`).

ghost use Rattle.std.specs.Prelude.{◌<◌, ℕ, List, length};
ghost use Rattle.ooo_time.specs.declared.stamp.Stamp.{Stamp as StampSpec};
ghost use Rattle.ooo_events.specs.Slots.{due_of};
ghost use Rattle.ooo_events.specs.Firings.{IsFirstAfter};
ghost use Rattle.ooo_code.specs.declared.activation.Effect.{Effect as EffectSpec};
ghost use Rattle.ooo_code.specs.declared.design.Design.{Design as DesignSpec};
ghost use Rattle.ooo_code.specs.declared.limits.Limits.{Limits as LimitsSpec};
ghost use Rattle.ooo_code.specs.Outcomes.{Deed};
ghost use Rattle.ooo_meaning.specs.World.{World, slot_at, zero_stamp, update, reach, settle, notified, after_deed};
ghost use Rattle.ooo_meaning.specs.Runs.{start_of};
ghost use Rattle.ooo_channels.specs.Operations.{Operations, no_operations, after_effects, after_forgetting};
ghost use Rattle.ooo_channels.specs.Calls.{FiresAt};
ghost use Rattle.ooo_channels.specs.Conditions.{HasEventAt, AreOrdered, MayApplyAll, IsInOrder, Names};
ghost use Rattle.ooo_channels.specs.Apart.{SameOn, IsChannelSame, LeavesOthers};
ghost use Rattle.ooo_channels.specs.Agreement.{Agrees, IsTimely, IsShown, IsNextStamp, GoesOn, shown_up_to};

/// The operations on a channel alone determine what is seen of it, also by those before any stamp, its history and when its
/// events fire, whatever is done to other channels and events.
pub fn apart()
    ensures { (ops others : Operations) (c : ℕ) → SameOn c ops others → IsChannelSame c ops others }
{}

/// What effects don't name stands after them as before.
pub fn others_stay()
    ensures { (at : StampSpec) (ops : Operations) (effects : List EffectSpec) →
        LeavesOthers at ops effects }
{}

/// Effects that are applied where they may be are applied in the order of their stamps, channel by channel.
pub fn ordered()
    ensures starts { (design : DesignSpec) (c : ℕ) →
        AreOrdered (no_operations design.channels design.events) c }
    ensures goes_on { (at : StampSpec) (ops : Operations) (effects : List EffectSpec) (c : ℕ) →
        AreOrdered ops c → MayApplyAll ops at effects →
        AreOrdered (after_effects at ops effects) c }
{}

/// As a run of a design starts, no operation was made, and the initialization goes on with that (IEEE 1666-2011, 4.2.1.1).
pub fn starts()
    ensures agrees { (design : DesignSpec) → let world = (start_of design).world in
        Agrees (no_operations design.channels design.events) world × IsTimely world }
    ensures initializes { (design : DesignSpec) (bounds : LimitsSpec) →
        let ops = no_operations design.channels design.events in
        GoesOn ops zero_stamp (notified bounds (start_of design).world) }
{}

/// An activation whose effects are applied at the present stamp (4.2.1.2).
pub fn activates()
    ensures agrees { (ops : Operations) (w : World) (p : ℕ) (d : Deed) →
        Agrees ops w → MayApplyAll ops w.stamp d.effects →
        Agrees (after_effects w.stamp ops d.effects) (after_deed p w d) }
    ensures timely { (w : World) (p : ℕ) (d : Deed) → IsTimely w → IsTimely (after_deed p w d) }
{}

/// The rest of a cycle after its evaluation: the update, the delta notifications and, where no process is runnable, the
/// timed notifications (4.2.1.3 to 4.2.1.5). The operations stay as they are.
pub fn settles()
    ensures { (ops : Operations) (w : World) (bounds : LimitsSpec) → Agrees ops w → IsTimely w →
        GoesOn ops (shown_up_to w) (settle bounds w) }
{}

/// The same of one step: after the update, at the stamp of the next delta cycle or of any later time, whatever is due
/// between.
pub fn reaches()
    ensures { (ops : Operations) (w : World) (next : StampSpec) → Agrees ops w →
        IsNextStamp w.stamp next →
        Agrees ops (reach next (update w)) }
{}

/// Where firings are forgotten.
pub fn forgets()
    ensures { (ops : Operations) (w : World) (below : StampSpec) →
        Agrees ops w → Agrees (after_forgetting below ops) w }
{}

/// What a bank answers of a channel at the present stamp is what the world shows of it: of a signal its value and whether
/// that changed in the delta cycle just before (6.4), of a fifo the values that may be read and the slots that are free
/// (6.23), and the history.
pub fn shows()
    ensures { (ops : Operations) (w : World) (c : ℕ) → Agrees ops w → c < length ops.channels →
        IsShown ops w c }
{}

/// The first firing of an event after the present stamp is when its slot is due once the update has notified the events of
/// channels.
pub fn fires()
    ensures { (ops : Operations) (w : World) (e : ℕ) → Agrees ops w → HasEventAt ops e →
        IsFirstAfter (FiresAt ops e) w.stamp (due_of (slot_at (update w).slots e)) }
{}

/// At the present stamp an effect on what is there is in order.
pub fn in_order()
    ensures { (ops : Operations) (w : World) (f : EffectSpec) → Agrees ops w → Names ops f →
        IsInOrder ops w.stamp f }
{}
