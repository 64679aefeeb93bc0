ghost use Rattle.std.specs.Prelude.{◌⊎◌, ◌↔◌, List, IsTrue};
ghost use Rattle.ooo_value.specs.declared.bound.BoundEvent.{BoundEvent as EventSpec};
ghost use Rattle.ooo_access.specs.Access.{IsInOrder};
ghost use Rattle.ooo_conflicts.specs.Clashes.{Share, ShareFifo, ShareVariable, WritesRead};
ghost use Rattle.ooo_conflicts.specs.Kinds.{AreCalled, AreListed, IsKindOf};

use crate::called::Called;
use crate::kind::ClashKind;
use crate::sharing::share;
use ooo_access::Access;

// When two segments clash.
pub(crate) fn kind_of(b: &Access, b_calls: &Called, g: &Access, g_calls: &Called) -> ClashKind
    requires first { IsInOrder b.now }
    requires second { IsInOrder g.now }
    requires first_calls { AreListed b_calls.now }
    requires second_calls { AreListed g_calls.now }
    ensures { (events : List EventSpec) → AreCalled events b.now b_calls.now →
        AreCalled events g.now g_calls.now → IsKindOf events b.now g.now result }
{
    if clashes_same(b, b_calls, g, g_calls) {
        ClashKind::Same
    } else if clashes_earlier(b, b_calls, g) {
        ClashKind::Earlier
    } else {
        ClashKind::Apart
    }
}

// Whether two segments clash even at one stamp.
fn clashes_same(b: &Access, b_calls: &Called, g: &Access, g_calls: &Called) -> bool
    requires first { IsInOrder b.now }
    requires second { IsInOrder g.now }
    requires first_calls { AreListed b_calls.now }
    requires second_calls { AreListed g_calls.now }
    ensures { IsTrue result ↔ (ShareVariable b.now g.now ⊎ Share b_calls.now.own g_calls.now.own) }
{
    share_variable(b, g) || share(&b_calls.own, &g_calls.own)
}

// Whether two segments clash where the first comes at an earlier stamp.
fn clashes_earlier(b: &Access, b_calls: &Called, g: &Access) -> bool
    requires first { IsInOrder b.now }
    requires second { IsInOrder g.now }
    requires calls { AreListed b_calls.now }
    ensures { IsTrue result
        ↔ (Share b_calls.now.all g.now.waited ⊎ (WritesRead b.now g.now ⊎ ShareFifo b.now g.now)) }
{
    share(&b_calls.all, &g.waited) || share_channel(b, g)
}

// Whether the first writes a signal that the second reads, or they hold the two ends of one fifo.
fn share_channel(b: &Access, g: &Access) -> bool
    requires first { IsInOrder b.now }
    requires second { IsInOrder g.now }
    ensures { IsTrue result ↔ (WritesRead b.now g.now ⊎ ShareFifo b.now g.now) }
{
    writes_read(b, g) || share_fifo(b, g)
}

// Whether one writes a variable that the other reads or writes.
fn share_variable(b: &Access, g: &Access) -> bool
    requires first { IsInOrder b.now }
    requires second { IsInOrder g.now }
    ensures { IsTrue result ↔ ShareVariable b.now g.now }
{
    share(&b.written, &g.written) || share_read(b, g)
}

// Whether one writes a variable that the other reads.
fn share_read(b: &Access, g: &Access) -> bool
    requires first { IsInOrder b.now }
    requires second { IsInOrder g.now }
    ensures { IsTrue result ↔ (Share b.now.written g.now.read ⊎ Share b.now.read g.now.written) }
{
    share(&b.written, &g.read) || share(&b.read, &g.written)
}

// Whether the first writes a signal that the second reads.
fn writes_read(b: &Access, g: &Access) -> bool
    requires first { IsInOrder b.now }
    requires second { IsInOrder g.now }
    ensures { IsTrue result ↔ WritesRead b.now g.now }
{
    share(&b.signals_written, &g.signals_read)
}

// Whether they hold the two different ends of one fifo.
fn share_fifo(b: &Access, g: &Access) -> bool
    requires first { IsInOrder b.now }
    requires second { IsInOrder g.now }
    ensures { IsTrue result ↔ ShareFifo b.now g.now }
{
    share(&b.takes, &g.puts) || share(&b.puts, &g.takes)
}
