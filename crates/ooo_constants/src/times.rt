ghost use Rattle.std.specs.Prelude.{◌≡◌, pos, int_lt};
ghost use Rattle.ooo_value.specs.Times.{ticks_in};
ghost use Rattle.ooo_value.specs.Values.{number_of};
ghost use Rattle.ooo_constants.specs.Meanings.{constants_of};
ghost use Rattle.ooo_constants.specs.Times.{is_fixed, is_fixed_thing, is_fixed_time, place_of, time_of, time_of_ticks};

use crate::known::Known;
use crate::values::value;
use ooo_checked::{CheckedExpr, CheckedTime, Thing};
use ooo_lexer::Position;
use ooo_time::{Scale, Time};
use ooo_value::{Value, time_of};

/// What is wrong with a constant time.
#[derive(Clone, Copy, Debug, PartialEq, Eq)]
pub enum TimeBreach {
    /// Its amount faults, or is negative.
    Bad,
    /// It has more than `2^62 - 1` ticks.
    TooLarge,
}

/// The time that a constant time is (IEEE 1666-2011, 5.11).
///
/// # Errors
///
/// `Bad` where its amount faults or is negative, `TooLarge` where it has more than `2^62 - 1` ticks.
pub fn time(known: Known<'_>, given: &CheckedTime) -> Result<Time, TimeBreach>
    ensures { result ≡ time_of (constants_of known.entry) given.now }
{
    match given {
        CheckedTime::Zero(_) => Ok(Time::ZERO),
        CheckedTime::Made(_, e, scale) | CheckedTime::Amount(e, scale) => match value(known, e) {
            Ok(amount) => counted(amount, *scale),
            Err(_) => Err(TimeBreach::Bad),
        },
    }
}

// The time of an amount in a unit.
#[tactic(auto, using(crate::proofs::Ticks::ticks_counted))]
fn counted(amount: Value, scale: Scale) -> Result<Time, TimeBreach>
    ensures { result ≡ time_of_ticks (ticks_in amount scale) }
{
    match time_of(amount, scale) {
        Ok(time) => Ok(time),
        Err(_) if is_negative(amount) => Err(TimeBreach::Bad),
        Err(_) => Err(TimeBreach::TooLarge),
    }
}

// Whether a value is below 0.
fn is_negative(v: Value) -> bool
    ensures { result ≡ int_lt (number_of v) (pos 0) }
{
    match v {
        Value::Int(x) => x < 0,
        Value::Long(x) => x < 0,
        Value::Bool(_) | Value::Uint(_) | Value::Ulong(_) => false,
    }
}

/// Where what is wrong with a time stands: at the first token of its amount.
pub fn place(given: &CheckedTime) -> Position
    ensures { result ≡ place_of given.now }
{
    match given {
        CheckedTime::Zero(at) => *at,
        CheckedTime::Made(_, e, _) | CheckedTime::Amount(e, _) => e.first(),
    }
}

// Whether the name has one value in a body: a constant of the file, or a member that keeps its value.
fn is_fixed_thing(thing: Thing) -> bool
    ensures { result ≡ is_fixed_thing thing }
{
    matches!(thing, Thing::FileConstant(_) | Thing::Fixed(_, _))
}

/// Whether an expression in a body has one value in its instance.
#[tactic(auto, unfolding(crate::specs::Times::is_fixed))]
pub fn is_fixed(e: &CheckedExpr) -> bool
    ensures { result ≡ is_fixed e.now }
{
    match e {
        CheckedExpr::Number(_, _) | CheckedExpr::Truth(_, _) => true,
        CheckedExpr::Name(_, name) => is_fixed_thing(name.denotes.thing),
        CheckedExpr::Index(_, _, _)
        | CheckedExpr::Call(_, _, _)
        | CheckedExpr::Member(_, _, _, _, _) => false,
        CheckedExpr::Paren(_, _, e)
        | CheckedExpr::Prefix(_, _, _, e)
        | CheckedExpr::Cast(_, _, _, e)
        | CheckedExpr::Conversion(_, _, e) => is_fixed(e.get()),
        CheckedExpr::Binary(_, _, a, b) => is_fixed(a.get()) && is_fixed(b.get()),
        CheckedExpr::Choose(_, c, a, b) => {
            is_fixed(c.get()) && is_fixed(a.get()) && is_fixed(b.get())
        }
    }
}

/// Whether a time in a body is known before the simulation.
pub fn is_fixed_time(given: &CheckedTime) -> bool
    ensures { result ≡ is_fixed_time given.now }
{
    match given {
        CheckedTime::Zero(_) => true,
        CheckedTime::Made(_, e, _) | CheckedTime::Amount(e, _) => is_fixed(e),
    }
}
