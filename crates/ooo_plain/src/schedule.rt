ghost use Rattle.std.specs.Prelude.{◌≡◌, ◌↔◌, IsTrue, Some, ◌<◌, length, OnOk, IfOk, IfSome, IfNone, All, Contains, [], ◌∷◌};
ghost use Rattle.ooo_meaning.specs.World.{sooner, least};
ghost use Rattle.ooo_plain.specs.Agenda.{AllFrom, Takes, TakesNone};
ghost use Rattle.ooo_channels.specs.Bank.{BankState};
ghost use Rattle.ooo_plain.specs.Schedule.{IsNew, AreIdle, IsAsked, MayAskFor, MayAsk, MayAskAll, KnowsWaiters, Joined, Waits, RefreshedOne, Touched, TouchedOthers, AreEmpty, awaited_at, awaited_for, alone, Listens, IsLeastOf};

use crate::agenda::Agenda;
use ooo_channels::Bank;
use ooo_time::Stamp;
use sqlite_items::Items;
use std::alloc::{AllocError, Global};

/// What a process waits for: events, and the stamp of its time-out. Of neither it waits for ever.
#[derive(Drop)]
pub struct Awaited {
    pub events: Items<u32>,
    pub timeout: Option<Stamp>,
}

/// When each process is due, what it waits for, and for each event those that may wait on it.
#[derive(Drop)]
pub struct Schedule {
    pub agenda: Agenda,
    pub awaited: Vec<Awaited>,
    pub waiters: Vec<Vec<usize>>,
}

impl Schedule {
    /// So many processes that wait for nothing, and so many events.
    ///
    /// # Errors
    ///
    /// Only where memory runs out.
    pub fn new(alloc: Global, processes: usize, events: usize) -> Result<Schedule, AllocError>
        ensures { IfOk result (IsNew processes events) }
    {
        let agenda = Agenda::new(alloc, processes)?;
        let awaited = keeping!(agenda; idle_processes(alloc, processes));
        let waiters = keeping!(agenda, awaited; empty_lists(alloc, events));
        Ok(Schedule {
            agenda,
            awaited,
            waiters,
        })
    }

    /// The earliest stamp at which a process is due.
    pub fn first(&self) -> Option<Stamp>
        ensures { result ≡ least self.now.agenda }
    {
        self.agenda.first()
    }

    /// Takes off the lowest process that is due now, where none is due before.
    pub fn take(&mut self, now: Stamp) -> Option<usize>
        requires { AllFrom now self.old.agenda }
        ensures taken { IfSome result (λ p. Takes p now self.old.agenda self.new.agenda) }
        ensures none { IfNone result (TakesNone now self.old.agenda self.new.agenda) }
        ensures rest { self.new ≡ record self.old { agenda = self.new.agenda } }
    {
        self.agenda.take(now)
    }

    /// A process waits from now on, and is due when the bank says. Its events are copied only where it waited on others last.
    ///
    /// # Errors
    ///
    /// Only where memory runs out.
    #[inline(always)]
    pub fn wait(
        &mut self,
        alloc: Global,
        p: usize,
        events: &[u32],
        timeout: Option<Stamp>,
        bank: &Bank,
        now: Stamp,
    ) -> Result<(), AllocError>
        requires process { p < length self.old.awaited.items }
        requires knows { KnowsWaiters self.old }
        requires may { MayAsk bank.now events.now (length self.old.waiters.items) }
        ensures { let awaited = awaited_for events.now timeout in
            OnOk result (Waits p awaited bank.now now self.old self.new) }
    {
        let due = earliest(bank, now, events, timeout);
        self.listen(alloc, p, events)?;
        self.awaited[p].timeout = timeout;
        self.agenda.set(p, due)
    }

    // A process waits on these events, as it does already where it waited on the same last.
    #[inline(always)]
    fn listen(&mut self, alloc: Global, p: usize, events: &[u32]) -> Result<(), AllocError>
        requires process { p < length self.old.awaited.items }
        requires knows { KnowsWaiters self.old }
        requires within { All (λ e. e < length self.old.waiters.items) events.now }
        ensures { OnOk result (Listens p events.now self.old self.new) }
    {
        if are_same(self.awaited[p].events.as_slice(), events) {
            return Ok(());
        }
        self.listen_anew(alloc, p, events)
    }

    // A process waits on these events, whatever it waited on last.
    fn listen_anew(&mut self, alloc: Global, p: usize, events: &[u32]) -> Result<(), AllocError>
        requires process { p < length self.old.awaited.items }
        requires within { All (λ e. e < length self.old.waiters.items) events.now }
        ensures { OnOk result (Listens p events.now self.old self.new) }
    {
        self.join_all(p, events)?;
        self.awaited[p].events = Items::from_slice(alloc, events)?;
        Ok(())
    }

    // A process stands among those that may wait on these events.
    fn join_all(&mut self, p: usize, events: &[u32]) -> Result<(), AllocError>
        requires { All (λ e. e < length self.old.waiters.items) events.now }
        ensures { OnOk result (Joined p events.now self.old self.new) }
    {
        for e in events {
            self.join(p, *e as usize)?;
        }
        Ok(())
    }

    // A process stands among those that may wait on an event.
    fn join(&mut self, p: usize, e: usize) -> Result<(), AllocError>
        requires { e < length self.old.waiters.items }
        ensures { OnOk result (Joined p (e ∷ []) self.old self.new) }
    {
        if !stands_in(&self.waiters[e], p) {
            self.waiters[e].push(p)?;
        }
        Ok(())
    }

    /// Those that wait on one of these events are asked anew, but for those that are due now.
    ///
    /// # Errors
    ///
    /// Only where memory runs out.
    pub fn touch_all(&mut self, events: &[u32], bank: &Bank, now: Stamp) -> Result<(), AllocError>
        requires events { All (λ e. e < length self.old.waiters.items) events.now }
        requires knows { KnowsWaiters self.old }
        requires may { MayAskAll bank.now self.old }
        ensures { OnOk result (Touched events.now bank.now now self.old self.new) }
    {
        for e in events {
            self.touch(*e, bank, now)?;
        }
        Ok(())
    }

    /// Those that wait on an event are asked anew, but for those that are due now.
    ///
    /// # Errors
    ///
    /// Only where memory runs out.
    pub fn touch(&mut self, e: u32, bank: &Bank, now: Stamp) -> Result<(), AllocError>
        requires event { e < length self.old.waiters.items }
        requires knows { KnowsWaiters self.old }
        requires may { MayAskAll bank.now self.old }
        ensures { OnOk result (Touched (e ∷ []) bank.now now self.old self.new) }
    {
        if self.waiters[e as usize].is_empty() {
            return Ok(());
        }
        self.touch_waiters(e, bank, now)
    }

    // The same, where processes stand in the event's list. From the first of them on that waits on the event alone, the bank
    // is asked once for all that wait so.
    fn touch_waiters(&mut self, e: u32, bank: &Bank, now: Stamp) -> Result<(), AllocError>
        requires event { e < length self.old.waiters.items }
        requires knows { KnowsWaiters self.old }
        requires may { MayAskAll bank.now self.old }
        ensures { OnOk result (Touched (e ∷ []) bank.now now self.old self.new) }
    {
        let at = e as usize;
        let count = self.waiters[at].len();
        let asked = self.touch_others(e, bank, now)?;
        if asked == count {
            return Ok(());
        }
        let first = bank.first(e, now);
        for i in asked..count {
            let q = self.waiters[at][i];
            self.refresh_knowing(q, e, first, bank, now)?;
        }
        Ok(())
    }

    // Those in an event's list that come before the first who waits on it alone are asked anew: how many they are.
    fn touch_others(&mut self, e: u32, bank: &Bank, now: Stamp) -> Result<usize, AllocError>
        requires event { e < length self.old.waiters.items }
        requires knows { KnowsWaiters self.old }
        requires may { MayAskAll bank.now self.old }
        ensures { IfOk result (λ n. TouchedOthers e n bank.now now self.old self.new) }
    {
        let at = e as usize;
        let count = self.waiters[at].len();
        for i in 0..count {
            let q = self.waiters[at][i];
            if self.waits_only(q, e) {
                return Ok(i);
            }
            self.refresh(q, bank, now)?;
        }
        Ok(count)
    }

    // Whether a process waits on an event alone, without a time-out.
    #[inline(always)]
    fn waits_only(&self, q: usize, e: u32) -> bool
        requires { q < length self.now.awaited.items }
        ensures { IsTrue result → awaited_at self.now.awaited.items q ≡ alone e }
    {
        let awaited = &self.awaited[q];
        awaited.timeout.is_none() && is_one(awaited.events.as_slice(), e)
    }

    // A process is asked anew, unless it is due now, where an event's first firing is known.
    #[inline(always)]
    fn refresh_knowing(
        &mut self,
        q: usize,
        e: u32,
        first: Option<Stamp>,
        bank: &Bank,
        now: Stamp,
    ) -> Result<(), AllocError>
        requires process { q < length self.old.awaited.items }
        requires count { length self.old.agenda ≡ length self.old.awaited.items }
        requires may { MayAskAll bank.now self.old }
        requires first { IsAsked bank.now now (alone e) first }
        ensures { OnOk result (RefreshedOne q bank.now now self.old self.new) }
    {
        if self.waits_only(q, e) {
            return self.refresh_by(q, first, now);
        }
        self.refresh(q, bank, now)
    }

    // A process is due as it is told, unless it is due now.
    #[inline(always)]
    fn refresh_by(&mut self, q: usize, due: Option<Stamp>, now: Stamp) -> Result<(), AllocError>
        requires process { q < length self.old.awaited.items }
        requires count { length self.old.agenda ≡ length self.old.awaited.items }
        ensures { let awaited = awaited_at self.old.awaited.items q in
            OnOk result ((bank : BankState) → IsAsked bank now awaited due →
            RefreshedOne q bank now self.old self.new) }
    {
        if is_now(self.agenda.due(q), now) {
            return Ok(());
        }
        self.agenda.set(q, due)
    }

    // A process is asked anew, unless it is due now.
    fn refresh(&mut self, q: usize, bank: &Bank, now: Stamp) -> Result<(), AllocError>
        requires process { q < length self.old.awaited.items }
        requires count { length self.old.agenda ≡ length self.old.awaited.items }
        requires may { MayAskAll bank.now self.old }
        ensures { OnOk result (RefreshedOne q bank.now now self.old self.new) }
    {
        if is_now(self.agenda.due(q), now) {
            return Ok(());
        }
        let awaited = &self.awaited[q];
        let due = earliest(bank, now, awaited.events.as_slice(), awaited.timeout);
        self.agenda.set(q, due)
    }
}

// So many processes that wait for nothing.
fn idle_processes(alloc: Global, count: usize) -> Result<Vec<Awaited>, AllocError>
    ensures { IfOk result (λ awaited. AreIdle count awaited.items) }
{
    let mut awaited = Vec::new(alloc);
    for _process in 0..count {
        awaited.push(Awaited {
            events: Items::new(alloc),
            timeout: None,
        })?;
    }
    Ok(awaited)
}

// So many lists without elements.
fn empty_lists(alloc: Global, count: usize) -> Result<Vec<Vec<usize>>, AllocError>
    ensures { IfOk result (λ lists. AreEmpty count lists.items) }
{
    let mut lists = Vec::new(alloc);
    for _event in 0..count {
        lists.push(Vec::new(alloc))?;
    }
    Ok(lists)
}

// Whether two lists have the same events.
#[inline(always)]
fn are_same(a: &[u32], b: &[u32]) -> bool
    ensures { IsTrue result → a.now ≡ b.now }
{
    if b.len() == 1 {
        return is_one(a, b[0]);
    }
    a == b
}

// Whether a list has one event, this one.
#[inline(always)]
fn is_one(events: &[u32], e: u32) -> bool
    ensures { IsTrue result → events.now ≡ e ∷ [] }
{
    events.len() == 1 && events[0] == e
}

// Whether a process stands in a list.
fn stands_in(list: &[usize], p: usize) -> bool
    ensures { IsTrue result → Contains list.now p }
{
    list.contains(&p)
}

// Whether a stamp is the present one.
#[inline(always)]
fn is_now(due: Option<Stamp>, now: Stamp) -> bool
    ensures { IsTrue result ↔ (due ≡ Some now) }
{
    due == Some(now)
}

// The earlier of two stamps, of those that there are.
#[inline(always)]
fn earlier(a: Option<Stamp>, b: Option<Stamp>) -> Option<Stamp>
    ensures { result ≡ sooner a b }
{
    match (a, b) {
        (None, _) => b,
        (_, None) => a,
        (Some(x), Some(y)) => { if y.is_before(x) { b } else { a } }
    }
}

// When a process is due that waits so, as far as the bank knows.
#[inline(always)]
fn earliest(bank: &Bank, now: Stamp, events: &[u32], timeout: Option<Stamp>) -> Option<Stamp>
    requires { MayAskFor bank.now events.now }
    ensures { IsAsked bank.now now (awaited_for events.now timeout) result }
{
    earlier(timeout, first_of(bank, now, events))
}

// The least of the first firings of these events. Mostly there is one.
#[inline(always)]
fn first_of(bank: &Bank, now: Stamp, events: &[u32]) -> Option<Stamp>
    requires { MayAskFor bank.now events.now }
    ensures { IsLeastOf bank.now now events.now result }
{
    if events.len() == 1 {
        return bank.first(events[0], now);
    }
    first_of_many(bank, now, events)
}

// The same, asked for one event after the other.
#[inline(always)]
fn first_of_many(bank: &Bank, now: Stamp, events: &[u32]) -> Option<Stamp>
    requires { MayAskFor bank.now events.now }
    ensures { IsLeastOf bank.now now events.now result }
{
    let mut found = None;
    let mut left = events.len();
    'events: while left > 0 {
        left -= 1;
        found = earlier(bank.first(events[left], now), found);
    }
    found
}
