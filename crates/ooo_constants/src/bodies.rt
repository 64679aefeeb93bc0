ghost use Rattle.std.specs.Prelude.{◌≡◌};
ghost use Rattle.ooo_constants.specs.Bodies.{body_refusals, simple_refusals, start_refusals, stat_refusals};
ghost use Rattle.ooo_constants.specs.Bodies.{else_refusals, step_refusals, stands_before, time_refusals, told, told_of, wait_refusals};
ghost use Rattle.ooo_constants.specs.Meanings.{constants_of};

use crate::bare::bare;
use crate::known::Known;
use crate::times::{TimeBreach, is_fixed_time, place, time};
use ooo_checked::{CheckedAwaited, CheckedSimple, CheckedStart, CheckedStat, CheckedTime};
use ooo_lexer::Position;
use sqlite_items::Boxed;

/// What is wrong with a constant time, and where: at the first token of its amount.
#[derive(Clone, Copy, Debug, PartialEq, Eq)]
pub struct TimeRefusal {
    pub what: TimeBreach,
    pub at: Position,
}

/// Looks at the constant times of a body: of what is wrong with them, and of what was told before, what stands first in the
/// text is told.
pub fn refuse_times(known: Known<'_>, body: &[CheckedStat], told: &mut Option<TimeRefusal>)
    ensures { told.new ≡ told_of told.old (body_refusals (constants_of known.entry) body.now) }
{
    refuse_stats(known, bare(body), told);
}

// The same of statements one after the other.
#[cycle(refusals)]
#[tactic(auto, unfolding(crate::specs::Bodies::stat_refusals), using(crate::proofs::Told::told_of_append))]
fn refuse_stats(known: Known<'_>, body: &[CheckedStat], told: &mut Option<TimeRefusal>)
    ensures { told.new ≡ told_of told.old (body_refusals (constants_of known.entry) body.now) }
{
    'parts: for statement in body {
        refuse_stat(known, statement, told);
    }
}

// The same of a statement.
#[cycle(refusals)]
#[tactic(auto, unfolding(crate::specs::Bodies::stat_refusals), using(crate::proofs::Told::told_of_append))]
fn refuse_stat(known: Known<'_>, statement: &CheckedStat, told: &mut Option<TimeRefusal>)
    ensures { told.new ≡ told_of told.old (stat_refusals (constants_of known.entry) statement.now) }
{
    match statement {
        CheckedStat::Block(_, body) => refuse_stats(known, body.as_slice(), told),
        CheckedStat::Simple(statement) => refuse_simple(known, statement.get(), told),
        CheckedStat::If(_, _, yes, no) => {
            refuse_stat(known, yes.get(), told);
            refuse_else(known, no, told);
        }
        CheckedStat::While(_, _, body) | CheckedStat::Do(_, body, _) => {
            refuse_stat(known, body.get(), told);
        }
        CheckedStat::For(_, begins, _, after, body) => {
            refuse_start(known, begins, told);
            refuse_step(known, after, told);
            refuse_stat(known, body.get(), told);
        }
        CheckedStat::Empty(_)
        | CheckedStat::Local(_)
        | CheckedStat::Break(_)
        | CheckedStat::Continue(_)
        | CheckedStat::Return(_, _) => {}
    }
}

// The same of the statement after `else`, if there is one.
#[cycle(refusals)]
#[tactic(auto, unfolding(crate::specs::Bodies::stat_refusals), using(crate::proofs::Told::told_of_append))]
fn refuse_else(known: Known<'_>, no: &Option<Boxed<CheckedStat>>, told: &mut Option<TimeRefusal>)
    ensures { told.new ≡ told_of told.old (else_refusals (constants_of known.entry) no.now) }
{
    if let Some(statement) = no {
        refuse_stat(known, statement.get(), told);
    }
}

// The same of what a `for` begins with.
fn refuse_start(
    known: Known<'_>,
    begins: &Option<Boxed<CheckedStart>>,
    told: &mut Option<TimeRefusal>,
)
    ensures { told.new ≡ told_of told.old (start_refusals (constants_of known.entry) begins.now) }
{
    if let Some(begins) = begins {
        if let CheckedStart::Simple(statement) = begins.get() {
            refuse_simple(known, statement, told);
        }
    }
}

// The same of what a `for` does after each turn.
fn refuse_step(
    known: Known<'_>,
    after: &Option<Boxed<CheckedSimple>>,
    told: &mut Option<TimeRefusal>,
)
    ensures { told.new ≡ told_of told.old (step_refusals (constants_of known.entry) after.now) }
{
    if let Some(statement) = after {
        refuse_simple(known, statement.get(), told);
    }
}

// The same of a simple statement.
fn refuse_simple(known: Known<'_>, statement: &CheckedSimple, told: &mut Option<TimeRefusal>)
    ensures { told.new ≡ told_of told.old
        (simple_refusals (constants_of known.entry) statement.now) }
{
    match statement {
        CheckedSimple::Notify(_, _, given) => refuse_time(known, given, told),
        CheckedSimple::Wait(_, what) | CheckedSimple::NextTrigger(_, what) => {
            refuse_wait(known, what, told);
        }
        _ => {}
    }
}

// The same of what a wait or a `next_trigger` waits for.
fn refuse_wait(known: Known<'_>, what: &CheckedAwaited, told: &mut Option<TimeRefusal>)
    ensures { told.new ≡ told_of told.old (wait_refusals (constants_of known.entry) what.now) }
{
    match what {
        CheckedAwaited::Delay(given) | CheckedAwaited::Until(given, _) => {
            refuse_time(known, given, told);
        }
        CheckedAwaited::Sensitive | CheckedAwaited::Events(_) => {}
    }
}

// The same of a time, which is looked at where it is known before the simulation.
fn refuse_time(known: Known<'_>, given: &CheckedTime, told: &mut Option<TimeRefusal>)
    ensures { told.new ≡ told_of told.old (time_refusals (constants_of known.entry) given.now) }
{
    if is_fixed_time(given) {
        if let Err(what) = time(known, given) {
            let at = place(given);
            *told = Some(first_told(*told, TimeRefusal { what, at }));
        }
    }
}

// Of what was told before and one more, what stands first.
fn first_told(before: Option<TimeRefusal>, more: TimeRefusal) -> TimeRefusal
    ensures { told before more ≡ Some result }
{
    match before {
        Some(known) if !stands_before(more.at, known.at) => known,
        _ => more,
    }
}

// Whether a place of a text is an earlier one.
fn stands_before(a: Position, b: Position) -> bool
    ensures { result ≡ stands_before a b }
{
    a.line < b.line || (a.line == b.line && a.column < b.column)
}
