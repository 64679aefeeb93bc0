ghost use Rattle.std.specs.Prelude.{◌≡◌, ◌*◌, ◌≤◌, IfOk, OnOk, IsTrue};
ghost use Rattle.ooo_meaning.specs.World.{zero_stamp};
ghost use Rattle.ooo_channels.specs.Conditions.{FindsPlace, IsCountableStamp};
ghost use Rattle.ooo_channels_checks.specs.Trials.{trial_events, IsTrial, FitsTrial, MayTry};
ghost use Rattle.ooo_value.specs.declared.bound.ChannelKind.TheVariants as channel;

use ooo_channels::Bank;
use ooo_code::{Design, Effect};
use ooo_history::{Entry, What};
use ooo_time::{Stamp, Time};
use ooo_value::{BoundChannel, BoundEvent, ChannelKind, Kind, Value};
use sqlite_items::Items;
use std::alloc::{AllocError, Global};
use std::process::Abort;
use std::test::Fail;

/// The stamp of a delta cycle of a time in nanoseconds.
fn at(count: u64, delta: u32) -> Stamp
    requires { count ≤ 1000000 }
    ensures time { result.time.0 ≡ 1000 * count }
    ensures delta { result.delta ≡ delta }
{
    Stamp {
        time: Time(1000 * count),
        delta,
    }
}

/// The events of a trial.
fn events(kind: ChannelKind) -> [BoundEvent; 4]
    ensures { result ≡ trial_events kind }
{
    match kind {
        ChannelKind::Signal => [
            BoundEvent::Changed(0),
            BoundEvent::Rise(0),
            BoundEvent::Fall(0),
            BoundEvent::Own,
        ],
        ChannelKind::Fifo => [
            BoundEvent::Written(0),
            BoundEvent::Taken(0),
            BoundEvent::Own,
            BoundEvent::Own,
        ],
    }
}

/// A bank of one channel with its events.
fn begin(alloc: Global, channel: BoundChannel) -> Result<Bank, AllocError>
    ensures { IfOk result (λ bank. IsTrial channel.kind bank zero_stamp) }
{
    let design = Design {
        nodes: Items::new(alloc),
        processes: Items::new(alloc),
        variables: Items::new(alloc),
        channels: Items::from_slice(alloc, &[channel])?,
        events: Items::from_slice(alloc, &events(channel.kind))?,
    };
    Bank::make(alloc, &design)
}

/// Applies an effect.
fn act(
    bank: &mut Bank,
    kind: ChannelKind,
    last: Stamp,
    now: Stamp,
    effect: Effect,
) -> Result<(), AllocError>
    requires { MayTry kind bank.old last now effect }
    ensures { OnOk result (IsTrial kind bank.new now) }
{
    let effects = [effect];
    bank.reserve(&effects)?;
    bank.apply(&effects, now);
    Ok(())
}

/// Forgets what was before a stamp.
fn forget(bank: &mut Bank, kind: ChannelKind, last: Stamp, below: Stamp)
    requires { IsTrial kind bank.old last }
    ensures { IsTrial kind bank.new last }
{
    bank.forget(below);
}

/// A stamp whose notifications can be counted.
fn is_countable(now: Stamp) -> bool
    ensures { IsTrue result → IsCountableStamp now }
{
    now.time <= Time::GREATEST && now.delta <= 1_000_000
}

/// Whether the effect is on the channel, or on the event of the model's own.
fn fits(kind: ChannelKind, effect: Effect) -> bool
    ensures { IsTrue result → FitsTrial kind effect }
{
    match kind {
        ChannelKind::Signal => match effect {
            Effect::Request(c, _) => c == 0,
            Effect::Put(_, _) | Effect::Take(_) => false,
            Effect::Notify(e, _) | Effect::Cancel(e) => e == 3,
            Effect::Stop => true,
        },
        ChannelKind::Fifo => match effect {
            Effect::Request(_, _) => false,
            Effect::Put(c, _) | Effect::Take(c) => c == 0,
            Effect::Notify(e, _) | Effect::Cancel(e) => e == 3,
            Effect::Stop => true,
        },
    }
}

/// Whether what an effect needs is there.
fn has_place(bank: &Bank, kind: ChannelKind, last: Stamp, now: Stamp, effect: Effect) -> bool
    requires trial { IsTrial kind bank.now last }
    requires fits { FitsTrial kind effect }
    ensures { (trial : IsTrial kind bank.now last) → IsTrue result →
        FindsPlace trial.ops now effect }
{
    match effect {
        Effect::Put(_, _) => bank.free(0, now) >= 1,
        Effect::Take(_) => bank.available(0, now) >= 1,
        Effect::Notify(_, delay) => delay <= Time::GREATEST,
        _ => true,
    }
}

/// An effect, a question with its answer, or that what was before is forgotten.
#[derive(Clone, Copy)]
enum Step {
    Does(Effect),
    Forgets,
    Sees(Value, bool),
    Available(u32),
    Free(u32),
    Value(u32, Value),
    First(u32, Option<Stamp>),
}

use Step::{Available, Does, First, Forgets, Free, Sees};

/// Whether a bank of a signal answers so at a stamp.
fn signal_answers(bank: &Bank, last: Stamp, now: Stamp, question: Step) -> bool
    requires { IsTrial channel.Signal bank.now last }
{
    match question {
        Sees(value, event) => {
            let seen = bank.signal(0, now);
            seen.0 == value && seen.1 == event
        }
        First(event, first) => event < 4 && bank.first(event, now) == first,
        _ => false,
    }
}

/// Whether a bank of a fifo answers so at a stamp.
fn fifo_answers(bank: &Bank, last: Stamp, now: Stamp, question: Step) -> bool
    requires { IsTrial channel.Fifo bank.now last }
{
    match question {
        Available(n) => bank.available(0, now) == n,
        Free(n) => bank.free(0, now) == n,
        Step::Value(n, value) => n < bank.available(0, now) && bank.value(0, n) == value,
        First(event, first) => event < 4 && bank.first(event, now) == first,
        _ => false,
    }
}

/// A bank of one channel, and the stamp of the last effect.
#[derive(Drop)]
struct Trial {
    bank: Bank,
    kind: ChannelKind,
    last: Stamp,
}

impl Trial {
    fn new(alloc: Global, kind: ChannelKind, value: Kind, size: u32) -> Result<Trial, AllocError>
        ensures { IfOk result (λ trial. IsTrial trial.kind trial.bank trial.last) }
    {
        Ok(Trial {
            bank: begin(alloc, BoundChannel { kind, value, size })?,
            kind,
            last: Stamp::default(),
        })
    }

    /// Takes a step, and says whether it may be taken and is answered so.
    fn takes(&mut self, now: Stamp, step: Step) -> Result<bool, AllocError>
        requires { IsTrial self.old.kind self.old.bank self.old.last }
        ensures { OnOk result (IsTrial self.new.kind self.new.bank self.new.last) }
    {
        if let Forgets = step {
            forget(&mut self.bank, self.kind, self.last, now);
            return Ok(true);
        }
        let Does(effect) = step else {
            return Ok(match self.kind {
                ChannelKind::Signal => signal_answers(&self.bank, self.last, now, step),
                ChannelKind::Fifo => fifo_answers(&self.bank, self.last, now, step),
            });
        };
        if now.is_before(self.last) {
            return Ok(false);
        }
        if !is_countable(now) {
            return Ok(false);
        }
        if !fits(self.kind, effect) {
            return Ok(false);
        }
        if !has_place(&self.bank, self.kind, self.last, now, effect) {
            return Ok(false);
        }
        act(&mut self.bank, self.kind, self.last, now, effect)?;
        self.last = now;
        Ok(true)
    }

    /// Takes steps one after the other, and gives the number of the first that isn't answered so.
    fn first_wrong(&mut self, steps: &[(Stamp, Step)]) -> Result<Option<usize>, AllocError>
        requires { IsTrial self.old.kind self.old.bank self.old.last }
        ensures { OnOk result (IsTrial self.new.kind self.new.bank self.new.last) }
    {
        for n in 0..steps.len() {
            let (now, step) = steps[n];
            if !self.takes(now, step)? {
                return Ok(Some(n));
            }
        }
        Ok(None)
    }

    /// Puts 16 ascending numbers, and says whether each finds a free slot and none is left behind them.
    fn fills(&mut self, now: Stamp, first: u32) -> Result<bool, AllocError>
        requires trial { IsTrial self.old.kind self.old.bank self.old.last }
        requires small { first ≤ 1000000 }
        ensures { OnOk result (IsTrial self.new.kind self.new.bank self.new.last) }
    {
        for n in first..first + 16 {
            if !self.takes(now, Does(Effect::Put(0, Value::Uint(n))))? {
                return Ok(false);
            }
        }
        self.takes(now, Free(0))
    }

    /// Takes these numbers again, and says whether each is there in its turn and none is left behind them.
    fn empties(&mut self, now: Stamp, first: u32) -> Result<bool, AllocError>
        requires trial { IsTrial self.old.kind self.old.bank self.old.last }
        requires small { first ≤ 1000000 }
        ensures { OnOk result (IsTrial self.new.kind self.new.bank self.new.last) }
    {
        for n in first..first + 16 {
            if !self.takes(now, Step::Value(0, Value::Uint(n)))? {
                return Ok(false);
            }
            if !self.takes(now, Does(Effect::Take(0)))? {
                return Ok(false);
            }
        }
        self.takes(now, Available(0))
    }

    /// The history of the channel up to the cycle of a stamp.
    fn history(self, alloc: Global, now: Stamp) -> Result<Items<Entry>, AllocError>
        requires { IsTrial self.kind self.bank self.last }
    {
        let mut histories = self.bank.into_histories(alloc, now)?;
        match histories.pop() {
            Some(history) => Ok(history),
            None => Ok(Items::new(alloc)),
        }
    }

    /// The entries of that history: the stamp of each, what happened, and the value.
    fn entries(self, alloc: Global, now: Stamp) -> Result<Vec<(Stamp, What, Value)>, AllocError>
        requires { IsTrial self.kind self.bank self.last }
    {
        let history = self.history(alloc, now)?;
        let mut told = Vec::new(alloc);
        for entry in history.as_slice() {
            told.push((entry.stamp, entry.what, entry.value))?;
        }
        Ok(told)
    }
}

// A signal that is written twice in a cycle shows the last value in the next delta cycle, and its change there alone; and
// where it is written back to its old value nothing happens.
#[test]
fn signal_written_twice(rt: HostRuntime) -> Result<(), Fail> {
    let mut trial = Trial::new(rt.alloc(), ChannelKind::Signal, Kind::Int, 0)?;
    let wrong = trial.first_wrong(&[
        (at(0, 0), Sees(Value::Int(0), false)),
        (at(0, 0), Does(Effect::Request(0, Value::Int(5)))),
        (at(0, 0), Does(Effect::Request(0, Value::Int(7)))),
        (at(0, 0), Sees(Value::Int(0), false)),
        (at(0, 1), Sees(Value::Int(7), true)),
        (at(0, 2), Sees(Value::Int(7), false)),
        (at(1, 0), Sees(Value::Int(7), false)),
        (at(1, 1), Sees(Value::Int(7), false)),
        (at(0, 0), First(0, Some(at(0, 1)))),
        (at(0, 1), First(0, None)),
        (at(2, 0), Does(Effect::Request(0, Value::Int(9)))),
        (at(2, 0), Does(Effect::Request(0, Value::Int(7)))),
        (at(2, 1), Sees(Value::Int(7), false)),
        (at(0, 1), First(0, None)),
        (at(3, 0), Does(Effect::Request(0, Value::Int(7)))),
        (at(3, 1), Sees(Value::Int(7), false)),
        (at(0, 1), First(0, None)),
    ])?;
    assert_eq!(rt; wrong, None);
    let told = trial.entries(rt.alloc(), at(9, 0))?;
    let expected = [(at(0, 0), What::Changed, Value::Int(7))];
    assert_eq!(rt; told.as_slice(), expected.as_slice());
    Ok(())
}

// A change of a cycle is an event only in the next delta cycle of its own time; the cycle of a later time has none.
#[test]
fn event_at_the_next_time(rt: HostRuntime) -> Result<(), Fail> {
    let mut trial = Trial::new(rt.alloc(), ChannelKind::Signal, Kind::Bool, 0)?;
    let wrong = trial.first_wrong(&[
        (at(5, 3), Does(Effect::Request(0, Value::Bool(true)))),
        (at(6, 0), Sees(Value::Bool(true), false)),
        (at(5, 5), Sees(Value::Bool(true), false)),
        (at(5, 4), Sees(Value::Bool(true), true)),
        (at(5, 4), Does(Effect::Request(0, Value::Bool(true)))),
        (at(5, 4), Sees(Value::Bool(true), true)),
        (at(5, 5), Sees(Value::Bool(true), false)),
        (at(6, 0), Does(Effect::Request(0, Value::Bool(false)))),
        (at(6, 0), Sees(Value::Bool(true), false)),
        (at(6, 1), Sees(Value::Bool(false), true)),
    ])?;
    assert_eq!(rt; wrong, None);
    Ok(())
}

// A signal answers at stamps behind its newest request by the requests before each stamp: a request isn't seen in its own
// cycle, a change is an event in the delta cycle just after it alone, and a request that changes nothing makes none.
#[test]
fn signal_behind_its_newest_request(rt: HostRuntime) -> Result<(), Fail> {
    let mut trial = Trial::new(rt.alloc(), ChannelKind::Signal, Kind::Int, 0)?;
    let wrong = trial.first_wrong(&[
        (at(1, 0), Does(Effect::Request(0, Value::Int(5)))),
        (at(1, 1), Does(Effect::Request(0, Value::Int(6)))),
        (at(4, 0), Does(Effect::Request(0, Value::Int(6)))),
        (at(7, 2), Does(Effect::Request(0, Value::Int(8)))),
        (at(7, 2), Does(Effect::Request(0, Value::Int(9)))),
        (at(0, 0), Sees(Value::Int(0), false)),
        (at(1, 0), Sees(Value::Int(0), false)),
        (at(1, 1), Sees(Value::Int(5), true)),
        (at(1, 2), Sees(Value::Int(6), true)),
        (at(1, 3), Sees(Value::Int(6), false)),
        (at(2, 0), Sees(Value::Int(6), false)),
        (at(4, 0), Sees(Value::Int(6), false)),
        (at(4, 1), Sees(Value::Int(6), false)),
        (at(7, 2), Sees(Value::Int(6), false)),
        (at(7, 3), Sees(Value::Int(9), true)),
        (at(7, 4), Sees(Value::Int(9), false)),
        (at(8, 0), Sees(Value::Int(9), false)),
    ])?;
    assert_eq!(rt; wrong, None);
    Ok(())
}

// Once what was before a stamp is forgotten, a signal answers at that stamp and at later ones as before, by the last
// request before it.
#[test]
fn signal_forgets(rt: HostRuntime) -> Result<(), Fail> {
    let mut trial = Trial::new(rt.alloc(), ChannelKind::Signal, Kind::Int, 0)?;
    let wrong = trial.first_wrong(&[
        (at(1, 0), Does(Effect::Request(0, Value::Int(5)))),
        (at(2, 0), Does(Effect::Request(0, Value::Int(6)))),
        (at(3, 0), Does(Effect::Request(0, Value::Int(7)))),
        (at(2, 1), Forgets),
        (at(4, 0), Does(Effect::Request(0, Value::Int(8)))),
        (at(2, 1), Sees(Value::Int(6), true)),
        (at(2, 2), Sees(Value::Int(6), false)),
        (at(3, 0), Sees(Value::Int(6), false)),
        (at(3, 1), Sees(Value::Int(7), true)),
        (at(4, 0), Sees(Value::Int(7), false)),
        (at(4, 1), Sees(Value::Int(8), true)),
        (at(9, 0), Forgets),
        (at(9, 0), Does(Effect::Request(0, Value::Int(1)))),
        (at(9, 1), Does(Effect::Request(0, Value::Int(2)))),
        (at(9, 0), Sees(Value::Int(8), false)),
        (at(9, 1), Sees(Value::Int(1), true)),
        (at(9, 2), Sees(Value::Int(2), true)),
        (at(9, 3), Sees(Value::Int(2), false)),
    ])?;
    assert_eq!(rt; wrong, None);
    let told = trial.entries(rt.alloc(), at(10, 0))?;
    let expected = [
        (at(1, 0), What::Changed, Value::Int(5)),
        (at(2, 0), What::Changed, Value::Int(6)),
        (at(3, 0), What::Changed, Value::Int(7)),
        (at(4, 0), What::Changed, Value::Int(8)),
        (at(9, 0), What::Changed, Value::Int(1)),
        (at(9, 1), What::Changed, Value::Int(2)),
    ];
    assert_eq!(rt; told.as_slice(), expected.as_slice());
    Ok(())
}

// The events of edges: posedge on a change to true, negedge on a change to false, and the value-changed event on both.
#[test]
fn edges(rt: HostRuntime) -> Result<(), Fail> {
    let mut trial = Trial::new(rt.alloc(), ChannelKind::Signal, Kind::Bool, 0)?;
    let wrong = trial.first_wrong(&[
        (at(0, 0), Does(Effect::Request(0, Value::Bool(true)))),
        (at(5, 0), Does(Effect::Request(0, Value::Bool(false)))),
        (at(10, 0), Does(Effect::Request(0, Value::Bool(true)))),
        (at(10, 0), Does(Effect::Request(0, Value::Bool(false)))),
        (at(15, 2), Does(Effect::Request(0, Value::Bool(false)))),
        (at(15, 2), Does(Effect::Request(0, Value::Bool(true)))),
        (at(0, 0), First(1, Some(at(0, 1)))),
        (at(0, 1), First(1, Some(at(15, 3)))),
        (at(15, 3), First(1, None)),
        (at(0, 0), First(2, Some(at(5, 1)))),
        (at(5, 1), First(2, None)),
        (at(0, 0), First(0, Some(at(0, 1)))),
        (at(0, 1), First(0, Some(at(5, 1)))),
        (at(5, 1), First(0, Some(at(15, 3)))),
        (at(15, 3), First(0, None)),
    ])?;
    assert_eq!(rt; wrong, None);
    Ok(())
}

// An event of the model's own: the earlier of two timed notifications, a delta notification over it, and a cancel.
#[test]
fn own_event(rt: HostRuntime) -> Result<(), Fail> {
    let mut trial = Trial::new(rt.alloc(), ChannelKind::Signal, Kind::Bool, 0)?;
    let wrong = trial.first_wrong(&[
        (at(0, 0), Does(Effect::Notify(3, Time(20_000)))),
        (at(0, 0), Does(Effect::Notify(3, Time(10_000)))),
        (at(0, 0), First(3, Some(at(10, 0)))),
        (at(4, 2), Does(Effect::Notify(3, Time::ZERO))),
        (at(0, 0), First(3, Some(at(4, 3)))),
        (at(4, 3), First(3, None)),
        (at(6, 0), Does(Effect::Notify(3, Time(1_000)))),
        (at(6, 0), Does(Effect::Cancel(3))),
        (at(4, 3), First(3, None)),
        (at(6, 0), Does(Effect::Stop)),
    ])?;
    assert_eq!(rt; wrong, None);
    Ok(())
}

// A fifo of one slot: a value that is written counts from the next delta cycle on, and a slot that is freed does too.
#[test]
fn fifo_of_one(rt: HostRuntime) -> Result<(), Fail> {
    let mut trial = Trial::new(rt.alloc(), ChannelKind::Fifo, Kind::Int, 1)?;
    let wrong = trial.first_wrong(&[
        (at(0, 0), Free(1)),
        (at(0, 0), Available(0)),
        (at(0, 0), Does(Effect::Put(0, Value::Int(3)))),
        (at(0, 0), Free(0)),
        (at(0, 0), Available(0)),
        (at(0, 1), Available(1)),
        (at(0, 1), Free(0)),
        (at(0, 1), Step::Value(0, Value::Int(3))),
        (at(0, 0), First(0, Some(at(0, 1)))),
        (at(0, 0), First(1, None)),
        (at(0, 1), Does(Effect::Take(0))),
        (at(0, 1), Free(0)),
        (at(0, 1), Available(0)),
        (at(0, 2), Free(1)),
        (at(0, 2), Available(0)),
        (at(0, 0), First(1, Some(at(0, 2)))),
        (at(0, 1), First(0, None)),
        (at(0, 2), Does(Effect::Put(0, Value::Int(4)))),
        (at(7, 0), Step::Value(0, Value::Int(4))),
    ])?;
    assert_eq!(rt; wrong, None);
    // Neither a second put nor a take of what is written in this delta cycle finds its place.
    assert!(rt; !trial.takes(at(0, 2), Does(Effect::Put(0, Value::Int(5))))?);
    assert!(rt; !trial.takes(at(0, 2), Does(Effect::Take(0)))?);
    Ok(())
}

// Three values go through a fifo of one slot in six delta cycles.
#[test]
fn three_through_one_slot(rt: HostRuntime) -> Result<(), Fail> {
    let mut trial = Trial::new(rt.alloc(), ChannelKind::Fifo, Kind::Uint, 1)?;
    let wrong = trial.first_wrong(&[
        (at(0, 0), Does(Effect::Put(0, Value::Uint(1)))),
        (at(0, 1), Step::Value(0, Value::Uint(1))),
        (at(0, 1), Does(Effect::Take(0))),
        (at(0, 2), Does(Effect::Put(0, Value::Uint(2)))),
        (at(0, 3), Step::Value(0, Value::Uint(2))),
        (at(0, 3), Does(Effect::Take(0))),
        (at(0, 4), Does(Effect::Put(0, Value::Uint(3)))),
        (at(0, 5), Step::Value(0, Value::Uint(3))),
        (at(0, 5), Does(Effect::Take(0))),
        (at(0, 6), Available(0)),
        (at(0, 6), Free(1)),
    ])?;
    assert_eq!(rt; wrong, None);
    let expected = [
        (at(0, 0), What::Put, Value::Uint(1)),
        (at(0, 1), What::Took, Value::Uint(1)),
        (at(0, 2), What::Put, Value::Uint(2)),
        (at(0, 3), What::Took, Value::Uint(2)),
        (at(0, 4), What::Put, Value::Uint(3)),
        (at(0, 5), What::Took, Value::Uint(3)),
    ];
    let told = trial.entries(rt.alloc(), at(1, 0))?;
    assert_eq!(rt; told.as_slice(), expected.as_slice());
    Ok(())
}

// A slot that is freed at the first delta cycle of a later time doesn't count in that cycle.
#[test]
fn slot_freed_later(rt: HostRuntime) -> Result<(), Fail> {
    let mut trial = Trial::new(rt.alloc(), ChannelKind::Fifo, Kind::Int, 1)?;
    let wrong = trial.first_wrong(&[
        (at(0, 0), Does(Effect::Put(0, Value::Int(1)))),
        (at(5, 0), Step::Value(0, Value::Int(1))),
        (at(5, 0), Does(Effect::Take(0))),
        (at(5, 0), Free(0)),
        (at(5, 1), Free(1)),
    ])?;
    assert_eq!(rt; wrong, None);
    let expected = [
        (at(0, 0), What::Put, Value::Int(1)),
        (at(5, 0), What::Took, Value::Int(1)),
    ];
    let told = trial.entries(rt.alloc(), at(6, 0))?;
    assert_eq!(rt; told.as_slice(), expected.as_slice());
    Ok(())
}

// In one cycle what was read stands in the history before what was written.
#[test]
fn history_of_a_fifo(rt: HostRuntime) -> Result<(), Fail> {
    let mut trial = Trial::new(rt.alloc(), ChannelKind::Fifo, Kind::Int, 3)?;
    let wrong = trial.first_wrong(&[
        (at(0, 0), Does(Effect::Put(0, Value::Int(1)))),
        (at(0, 0), Does(Effect::Put(0, Value::Int(2)))),
        (at(1, 0), Does(Effect::Put(0, Value::Int(3)))),
        (at(1, 0), Does(Effect::Take(0))),
        (at(1, 0), Free(0)),
        (at(1, 1), Free(1)),
        (at(1, 1), Step::Value(0, Value::Int(2))),
        (at(1, 1), Step::Value(1, Value::Int(3))),
    ])?;
    assert_eq!(rt; wrong, None);
    let told = trial.entries(rt.alloc(), at(2, 0))?;
    let expected = [
        (at(0, 0), What::Put, Value::Int(1)),
        (at(0, 0), What::Put, Value::Int(2)),
        (at(1, 0), What::Took, Value::Int(1)),
        (at(1, 0), What::Put, Value::Int(3)),
    ];
    assert_eq!(rt; told.as_slice(), expected.as_slice());
    Ok(())
}

// Nothing stands in the history that was read or written in the cycle up to which it is asked.
#[test]
fn history_before_the_last_cycle(rt: HostRuntime) -> Result<(), Fail> {
    let mut trial = Trial::new(rt.alloc(), ChannelKind::Fifo, Kind::Int, 3)?;
    let wrong = trial.first_wrong(&[
        (at(0, 0), Does(Effect::Put(0, Value::Int(1)))),
        (at(1, 0), Does(Effect::Put(0, Value::Int(2)))),
        (at(1, 0), Does(Effect::Take(0))),
    ])?;
    assert_eq!(rt; wrong, None);
    let told = trial.entries(rt.alloc(), at(1, 0))?;
    let expected = [(at(0, 0), What::Put, Value::Int(1))];
    assert_eq!(rt; told.as_slice(), expected.as_slice());
    Ok(())
}

// A fifo that is filled, emptied and wrapped over 100,000 operations, with its history.
#[test]
fn fifo_wraps(rt: HostRuntime) -> Result<(), Fail> {
    let mut trial = Trial::new(rt.alloc(), ChannelKind::Fifo, Kind::Uint, 16)?;
    for round in 0..3_125u32 {
        let (filled, emptied) = (at(u64::from(round), 0), at(u64::from(round), 1));
        assert!(rt; trial.fills(filled, round * 16)?);
        assert!(rt; trial.empties(emptied, round * 16)?);
    }
    let history = trial.history(rt.alloc(), at(4_000, 0))?;
    assert_eq!(rt; history.len(), 100_000);
    tells_in_turns(&rt, history.as_slice());
    Ok(())
}

/// Each entry of the history of that fifo tells what it should.
fn tells_in_turns(rt: &impl Abort, history: &[Entry]) {
    for (n, entry) in history.iter().enumerate() {
        let (what, number) = told(n);
        assert_eq!(rt; entry.what, what);
        assert_eq!(rt; entry.value, Value::Uint(number));
    }
}

/// What entry `n` of the history of that fifo tells: 16 puts, 16 takes, and so on, of ascending numbers.
fn told(n: usize) -> (What, u32) {
    let number = u32::try_from(n / 32 * 16 + n % 16).unwrap_or(u32::MAX);
    if n % 32 < 16 {
        (What::Put, number)
    } else {
        (What::Took, number)
    }
}
