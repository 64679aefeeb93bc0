ghost use Rattle.std.specs.Prelude.{◌≡◌};
ghost use Rattle.ooo_code.specs.Expressions.{Sight};
ghost use Rattle.ooo_code.specs.Nodes.{at_end};
ghost use Rattle.ooo_interp.specs.declared.doing.Emitted.{Emitted as EmittedSpec};
ghost use Rattle.ooo_interp.specs.Acting.{Acts, doing_of, ended_by, running_of};

use crate::changes::{put, set, store, take, write};
use crate::choices::{test, test_available, test_free};
use crate::doing::{Activation, Break, Emitted, Halt, Pause};
use crate::events::{notify, set_trigger, wait};
use crate::parts::Lent;
use crate::printing::{print_text, print_time, print_value};
use ooo_code::{Effect, Node, NodeKind, SegmentEntry};
use ooo_value::ProcessKind;

// What a node does: the next node, or why there is none.
#[inline(always)]
pub(crate) fn act<'a, L: Lent>(
    lent: &mut L,
    emitted: &mut Emitted,
    trigger: &mut Option<Pause<'a>>,
    activation: &Activation<'a>,
    node: &'a Node,
    number: u32,
) -> Result<u32, Break<'a>>
    ensures acts { Acts (running_of activation.now) node.now number result
        (doing_of (L.sight lent.old) emitted.old trigger.old)
        (doing_of (L.sight lent.new) emitted.new trigger.new) }
    ensures kept { L.kept lent.new ≡ L.kept lent.old }
{
    let to = node.next;
    match &node.kind {
        NodeKind::Set(n, e) => set(lent, *n, e, to),
        NodeKind::Store(x, i, e) => store(lent, *x, i, e, to),
        NodeKind::Test(e, no) => test(lent, e, to, *no),
        NodeKind::Goto => Ok(to),
        NodeKind::PrintText(text) => print_text(emitted, text, to),
        NodeKind::PrintValue(e) => print_value(lent, emitted, e, to),
        NodeKind::PrintTime => print_time(emitted, activation.stamp.time, to),
        NodeKind::Write(c, e) => write(lent, emitted, *c, e, to),
        NodeKind::TestAvailable(c, no) => Ok(test_available(lent, *c, to, *no)),
        NodeKind::TestFree(c, no) => Ok(test_free(lent, *c, to, *no)),
        NodeKind::Take(c, n) => take(lent, emitted, *c, *n, to),
        NodeKind::Put(c, e) => put(lent, emitted, *c, e, to),
        NodeKind::Notify(e, t) => notify(lent, emitted, *e, t, to),
        NodeKind::Cancel(e) => emitted.go_with(Effect::Cancel(*e), to),
        NodeKind::Stop => emitted.go_with(Effect::Stop, to),
        NodeKind::Trigger(w) => set_trigger(lent, trigger, w, to),
        NodeKind::Wait(w) => wait(lent, w, number),
        NodeKind::End => Err(Break::Halts(at_end(trigger, activation))),
    }
}

// How a process ends: a thread as its body does, and a method with what it waits for next.
#[inline(always)]
pub(crate) fn at_end<'a>(trigger: &mut Option<Pause<'a>>, activation: &Activation<'a>) -> Halt<'a>
    ensures { (s : Sight) (m : EmittedSpec) →
        let r = running_of activation.now in let d = doing_of s m trigger.old in
        at_end r r.process.kind d.trigger d ≡ ended_by r result (doing_of s m trigger.new) }
{
    match activation.process.kind {
        ProcessKind::Thread => Halt::Ended,
        ProcessKind::Method => match trigger.take() {
            Some(pause) => Halt::Waits(SegmentEntry::Start, pause),
            None => Halt::Waits(
                SegmentEntry::Start,
                Pause {
                    time: None,
                    events: &activation.process.sensitive,
                },
            ),
        },
    }
}
