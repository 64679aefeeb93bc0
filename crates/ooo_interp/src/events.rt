//! What nodes do with events and times.

ghost use Rattle.ooo_code.specs.declared.node.NodeKind.TheVariants as kind;
ghost use Rattle.ooo_interp.specs.Acting.{ActsAs, Emits, Steps, doing_of};
ghost use Rattle.ooo_code.specs.Nodes.{Running, act};
ghost use Rattle.std.specs.Prelude.{ℕ, Option};
ghost use Rattle.ooo_interp.specs.declared.doing.Emitted.{Emitted as EmittedSpec};
ghost use Rattle.ooo_interp.specs.declared.doing.Pause.{Pause as PauseSpec};

use crate::delays::{delay, delay_of_wait};
use crate::doing::{Break, Emitted, Halt, Pause};
use crate::parts::Lent;
use ooo_code::{Effect, NodeTime, NodeWait, SegmentEntry};

// An event is notified.
pub(crate) fn notify<'a, L: Lent>(
    lent: &L,
    emitted: &mut Emitted,
    event: u32,
    time: &NodeTime,
    to: u32,
) -> Result<u32, Break<'a>>
    ensures { let s = L.sight lent.now in
        Emits (kind.Notify event time.now) to result s emitted.old s emitted.new }
{
    let time = delay(lent, time)?;
    emitted.go_with(Effect::Notify(event, time), to)
}

// A method sets what it waits for next.
pub(crate) fn set_trigger<'a, L: Lent>(
    lent: &L,
    trigger: &mut Option<Pause<'a>>,
    on: &'a NodeWait,
    to: u32,
) -> Result<u32, Break<'a>>
    ensures { (m : EmittedSpec) → let s = L.sight lent.now in ActsAs (kind.Trigger on.now) to result
        (doing_of s m trigger.old) (doing_of s m trigger.new) }
{
    let time = delay_of_wait(lent, &on.time)?;
    *trigger = Some(Pause {
        time,
        events: &on.events,
    });
    Ok(to)
}

// A thread waits.
pub(crate) fn wait<'a, L: Lent>(lent: &L, on: &'a NodeWait, number: u32) -> Result<u32, Break<'a>>
    ensures { (m : EmittedSpec) (p : Option PauseSpec) (r : Running) (line to : ℕ) →
        let d = doing_of (L.sight lent.now) m p in
        Steps r line result d (λ next. act r (kind.Wait on.now) number line to next d) }
{
    let time = delay_of_wait(lent, &on.time)?;
    let pause = Pause {
        time,
        events: &on.events,
    };
    Err(Break::Halts(Halt::Waits(SegmentEntry::After(number), pause)))
}
