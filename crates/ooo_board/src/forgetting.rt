//! What was before all fronts is forgotten now and then, so that it takes no room.

ghost use Rattle.std.specs.Prelude.{◌≡◌, ◌<◌, ◌%◌, length};
ghost use Rattle.ooo_code.specs.declared.design.Design.{Design as DesignSpec};
ghost use Rattle.ooo_code.specs.declared.limits.Limits.{Limits as LimitsSpec};
ghost use Rattle.ooo_channels.specs.Operations.{later_of};
ghost use Rattle.ooo_tables.specs.declared.tables.Tables.{Tables as TablesSpec};
ghost use Rattle.ooo_dispatch.specs.Least.{rules_of};
ghost use Rattle.ooo_dispatch.specs.Steps.{Replay};
ghost use Rattle.ooo_board.specs.Cores.{IsCore};
ghost use Rattle.ooo_board.specs.Forgetting.{HasForgotten, IsJustBefore};

use crate::cores::Core;
use ooo_time::{Stamp, Time};

impl Core {
    /// Once in as many commits as there are processes, the bank forgets what was before all fronts: so a commit takes no more
    /// than a step for it on average. It takes no memory.
    pub(crate) fn forget_now_and_then(&mut self)
        requires some { 0 < length self.old.states.items }
        ensures kept { (design : DesignSpec) (limits : LimitsSpec) (t : TablesSpec)
            (s : Replay (rules_of design limits t)) → IsCore design limits t s self.old →
            IsCore design limits t s self.new }
        ensures then { length self.old.places.items % length self.old.states.items ≡ 0 →
            HasForgotten self.new }
    {
        if self.places.len() % self.states.len() == 0 {
            self.forget();
        }
    }

    // The bank forgets what was before all fronts: nothing asks for it any more.
    fn forget(&mut self)
        ensures kept { (design : DesignSpec) (limits : LimitsSpec) (t : TablesSpec)
            (s : Replay (rules_of design limits t)) → IsCore design limits t s self.old →
            IsCore design limits t s self.new }
        ensures forgotten { HasForgotten self.new }
    {
        let Some(least) = self.fronts.least() else {
            return;
        };
        let Some(below) = just_before(least) else {
            return;
        };
        self.bank.forget(below);
        self.below = later(self.below, below);
    }
}

// The last stamp before another one, of those whose delta cycle has a number of 32 bits. None where there is none.
fn just_before(at: Stamp) -> Option<Stamp>
    ensures { IsJustBefore at result }
{
    let Stamp { time, delta } = at;
    if delta > 0 {
        let delta = delta - 1;
        Some(Stamp { time, delta })
    } else if time.0 > 0 {
        let time = Time(time.0 - 1);
        let delta = u32::MAX;
        Some(Stamp { time, delta })
    } else {
        None
    }
}

/// The later of two stamps.
pub(crate) fn later(one: Stamp, other: Stamp) -> Stamp
    ensures { result ≡ later_of one other }
{
    if one.is_before(other) { other } else { one }
}
