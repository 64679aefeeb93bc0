//! Fronts that are asked anew of the bank, once a commit changed what it tells.

ghost use Rattle.std.specs.Prelude.{◌≡◌, ◌<◌, length, map, slice_set, All, IsTrue, Some};
ghost use Rattle.ooo_schedules.specs.Design.{Wait, sooner, soonest};
ghost use Rattle.ooo_schedules.specs.Program.{design};
ghost use Rattle.ooo_schedules.specs.Tables.{program};
ghost use Rattle.ooo_time.specs.declared.stamp.Stamp.{Stamp as StampSpec};
ghost use Rattle.ooo_dispatch.specs.Banks.{first_on};
ghost use Rattle.ooo_dispatch.specs.Boards.{Board};
ghost use Rattle.ooo_dispatch.specs.Rules.{Rules, tables};
ghost use Rattle.ooo_dispatch.specs.Steps.{Replay};
ghost use Rattle.ooo_fronts.specs.declared.front.Front.{Front as FrontSpec};
ghost use Rattle.ooo_fronts.specs.Fronts.{AreAligned, AreFit, IsFit, maybe_front};
ghost use Rattle.ooo_fronts.specs.Holds.{AreKept};
ghost use Rattle.ooo_fronts.specs.Reaching.{AreReaches};
ghost use Rattle.ooo_board.specs.Cores.{maybe_wait};
ghost use Rattle.ooo_board.specs.Waking.{IsAsked, IsThere, MayAskFront, MayWake, Woken, EffectsReach, EventsReach, Reaches, ReachesAll, front_told};

use crate::cores::Core;
use crate::forgetting::later;
use crate::links::Links;
use crate::process::Waiting;
use ooo_channels::Bank;
use ooo_code::Effect;
use ooo_fronts::{Front, State};
use ooo_tables::Tables;
use ooo_time::Stamp;

impl Core {
    /// The processes that wait on an event that one of these effects touches have the fronts that the bank tells.
    pub(crate) fn wake(&mut self, tables: &Tables, links: &Links, effects: &[Effect])
        requires there { (r : Rules) × (s : Replay r) × MayWake r tables.now s links.now self.old
            × All (IsThere r.design) effects.now }
        ensures { (r : Rules) (s : Replay r) → MayWake r tables.now s links.now self.old →
            All (IsThere r.design) effects.now →
            Woken r tables.now s (EffectsReach links.now effects.now (length effects.now))
            self.old self.new }
    {
        for effect in effects {
            self.wake_for(tables, links, *effect);
        }
    }

    // The same for one effect.
    fn wake_for(&mut self, tables: &Tables, links: &Links, effect: Effect)
        requires there { (r : Rules) × (s : Replay r) × MayWake r tables.now s links.now self.old
            × IsThere r.design effect }
        ensures { (r : Rules) (s : Replay r) → MayWake r tables.now s links.now self.old →
            IsThere r.design effect →
            Woken r tables.now s (Reaches links.now effect) self.old self.new }
    {
        match effect {
            Effect::Request(c, _) | Effect::Put(c, _) | Effect::Take(c) => {
                self.wake_all(tables, links, links.channel_events[c as usize].as_slice());
            }
            Effect::Notify(e, _) | Effect::Cancel(e) => self.wake_by(tables, links, e),
            Effect::Stop => {}
        }
    }

    // The processes that may wait on one of these events have the fronts that the bank tells.
    fn wake_all(&mut self, tables: &Tables, links: &Links, events: &[u32])
        requires there { (r : Rules) × (s : Replay r) × MayWake r tables.now s links.now self.old
            × All (λ e. e < length r.design.events) events.now }
        ensures { (r : Rules) (s : Replay r) → MayWake r tables.now s links.now self.old →
            All (λ e. e < length r.design.events) events.now →
            Woken r tables.now s (EventsReach links.now events.now (length events.now))
            self.old self.new }
    {
        for e in events {
            self.wake_by(tables, links, *e);
        }
    }

    // The processes that may wait on an event have the fronts that the bank tells.
    fn wake_by(&mut self, tables: &Tables, links: &Links, e: u32)
        requires there { (r : Rules) × (s : Replay r) × MayWake r tables.now s links.now self.old
            × (e < length r.design.events) }
        ensures { (r : Rules) (s : Replay r) → MayWake r tables.now s links.now self.old →
            e < length r.design.events →
            Woken r tables.now s (ReachesAll links.now e) self.old self.new }
    {
        let waiters = links.waiters[e as usize].as_slice();
        for q in waiters {
            self.refresh(tables, links, *q);
        }
    }

    /// A process has the front that the bank tells, if it waits.
    pub(crate) fn refresh(&mut self, tables: &Tables, links: &Links, q: u32)
        requires within { q < length self.old.processes.items }
        requires waking { (r : Rules) × (s : Replay r) × MayWake r tables.now s links.now self.old }
        ensures { (r : Rules) (s : Replay r) → MayWake r tables.now s links.now self.old →
            Woken r tables.now s (λ x. x ≡ q) self.old self.new }
    {
        let State::Waiting = self.states[q as usize] else {
            return;
        };
        let front = front_by(&self.bank, self.below, &self.processes[q as usize].waiting);
        self.give(tables, links, q, front);
    }

    // Gives a process a front, if it has another one.
    fn give(&mut self, tables: &Tables, links: &Links, q: u32, front: Option<Front>)
        requires aligned { AreAligned tables.now }
        requires reaches { AreReaches tables.now links.now.reaches }
        requires within { q < length self.old.fronts.fronts }
        requires new { (f : FrontSpec) → front ≡ Some f → IsFit tables.now q f }
        requires fit { AreFit tables.now self.old.fronts.fronts }
        requires kept { AreKept tables.now self.old.fronts }
        ensures others { self.new ≡ record self.old { fronts = self.new.fronts } }
        ensures fronts { self.new.fronts.fronts ≡ slice_set self.old.fronts.fronts q front }
        ensures fit { AreFit tables.now self.new.fronts.fronts }
        ensures kept { AreKept tables.now self.new.fronts }
    {
        if are_same(front, self.fronts.front(q)) {
            return;
        }
        self.fronts.set(tables, &links.reaches, q, front);
    }
}

// Whether two fronts are the same, or there is none twice.
fn are_same(one: Option<Front>, other: Option<Front>) -> bool
    ensures { IsTrue result → one ≡ other }
{
    one == other
}

// The front of a process that waits so, as the bank tells it, which forgot what was before a stamp.
fn front_by(bank: &Bank, below: Stamp, waiting: &Option<Waiting>) -> Option<Front>
    requires { (r : Rules) × (b : Board r)
        × MayAskFront r b bank.now below (maybe_wait waiting.now) }
    ensures { (r : Rules) (b : Board r) →
        MayAskFront r b bank.now below (maybe_wait waiting.now) →
        maybe_front result ≡ front_told r b (maybe_wait waiting.now) }
{
    let Some(waiting) = waiting else {
        return None;
    };
    let since = waiting.since.unwrap_or(Stamp::default());
    let fired = soonest(bank, waiting.events.as_slice(), later(since, below));
    let stamp = sooner(waiting.timeout, fired)?;
    Some(Front {
        segment: waiting.segment,
        stamp,
    })
}

// The first stamp after `from` at which one of these events fires.
fn soonest(bank: &Bank, events: &[u32], from: Stamp) -> Option<Stamp>
    requires { (r : Rules) × (b : Board r) × (w : Wait StampSpec)
        × IsAsked r b bank.now w events.now from }
    ensures { (r : Rules) (b : Board r) (w : Wait StampSpec) →
        IsAsked r b bank.now w events.now from →
        result
        ≡ soonest (design (program (tables r))) (map (λ e. first_on r b e w.since) w.events) }
{
    let mut first = None;
    let mut i = events.len();
    'events: while i > 0 {
        i -= 1;
        first = sooner(bank.first(events[i], from), first);
    }
    first
}

// The sooner of two stamps, of those that there are.
fn sooner(one: Option<Stamp>, other: Option<Stamp>) -> Option<Stamp>
    ensures { (r : Rules) → result ≡ sooner (design (program (tables r))) one other }
{
    match (one, other) {
        (Some(one), Some(other)) if other.is_before(one) => Some(other),
        (Some(one), _) => Some(one),
        (None, other) => other,
    }
}
