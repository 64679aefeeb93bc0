//! Values and times of small trees, each worked by hand from ISO C++ and IEEE 1666-2011, 5.11.

use ooo_checked::{
    CheckedAwaited, CheckedExpr, CheckedSimple, CheckedStat, CheckedTime, Denotation, Resolved,
    Thing,
};
use ooo_constants::{
    Known, Meaning, TimeBreach, TimeRefusal, add_calls, operator, place, refuse_times, time, value,
};
use ooo_lexer::Position;
use ooo_syntax::{BinaryOp, Number, PrefixOp, TypeForm, TypeName, Word};
use ooo_time::{Scale, Time};
use ooo_value::{Fault, Kind, Name, Op, Value};
use sqlite_items::{Boxed, Items};
use std::alloc::{AllocError, Global};
use std::process::Abort;
use std::test::Fail;

/// What was made, unless memory ran out.
type Made<T> = Result<T, AllocError>;

const AT: Position = Position { line: 3, column: 5 };

const LEAST: Value = Value::Int(-2_147_483_648);

// A file of two names and a module of three members, the third a variable; the second member is static.
static FILE: [Meaning; 2] = [Meaning::Constant(Value::Int(40)), Meaning::Nothing];

static STATICS: [Meaning; 2] = [Meaning::Nothing, Meaning::Constant(Value::Uint(7))];

static MEMBERS: [Meaning; 3] = [
    Meaning::Constant(Value::Bool(true)),
    Meaning::Constant(Value::Uint(9)),
    Meaning::Variable(0),
];

static PARAMETERS: [Value; 1] = [Value::Long(11)];

fn known() -> Known<'static> {
    Known {
        file: &FILE,
        statics: &STATICS,
        members: &MEMBERS,
        parameters: &PARAMETERS,
    }
}

fn number(value: Value) -> CheckedExpr {
    let number = Number {
        value,
        position: AT,
    };
    CheckedExpr::Number(value.kind(), number)
}

fn name(alloc: Global, thing: Thing, number: usize) -> Made<CheckedExpr> {
    let word = Word {
        name: Name::new(alloc, "x")?,
        position: AT,
    };
    let denotes = Denotation { thing, number };
    Ok(CheckedExpr::Name(thing.value_kind(), Resolved { word, denotes }))
}

fn boxed(alloc: Global, e: Made<CheckedExpr>) -> Made<Boxed<CheckedExpr>> {
    Boxed::new(alloc, e?)
}

fn joined(
    alloc: Global,
    sign: BinaryOp,
    a: Made<CheckedExpr>,
    b: Made<CheckedExpr>,
) -> Made<CheckedExpr> {
    match (boxed(alloc, a), boxed(alloc, b)) {
        (Ok(a), Ok(b)) => Ok(CheckedExpr::Binary(Kind::Int, sign, a, b)),
        _ => Err(AllocError),
    }
}

fn prefixed(alloc: Global, op: PrefixOp, e: Made<CheckedExpr>) -> Made<CheckedExpr> {
    Ok(CheckedExpr::Prefix(Kind::Int, AT, op, boxed(alloc, e)?))
}

fn cast(alloc: Global, e: Made<CheckedExpr>) -> Made<CheckedExpr> {
    let form = TypeName {
        form: TypeForm::UnsignedLongLong,
        position: AT,
    };
    Ok(CheckedExpr::Cast(Kind::Ulong, AT, form, boxed(alloc, e)?))
}

// An operator on two numbers of kind int.
fn of_ints(alloc: Global, sign: BinaryOp, a: i32, b: i32) -> Made<CheckedExpr> {
    joined(
        alloc,
        sign,
        Ok(number(Value::Int(a))),
        Ok(number(Value::Int(b))),
    )
}

// An expression that divides by 0.
fn faulty(alloc: Global) -> Made<CheckedExpr> {
    of_ints(alloc, BinaryOp::Divide, 1, 0)
}

// One that shifts by more than its width has.
fn faulty_shift(alloc: Global) -> Made<CheckedExpr> {
    of_ints(alloc, BinaryOp::ShiftLeft, 1, 32)
}

fn gives(
    rt: &impl Abort,
    e: Made<CheckedExpr>,
    answer: Result<Value, Fault>,
    what: &str,
) -> Made<()> {
    let e = e?;
    let found = value(known(), &e);
    drop(e);
    assert_eq!(rt; found, answer, "{what}");
    Ok(())
}

#[test]
fn operators_give_what_c_does(rt: HostRuntime) -> Result<(), Fail> {
    let rows = [
        (BinaryOp::Either, Value::Bool(true)),
        (BinaryOp::Both, Value::Bool(true)),
        (BinaryOp::Or, Value::Int(15)),
        (BinaryOp::Xor, Value::Int(13)),
        (BinaryOp::And, Value::Int(2)),
        (BinaryOp::Equal, Value::Bool(false)),
        (BinaryOp::NotEqual, Value::Bool(true)),
        (BinaryOp::Less, Value::Bool(false)),
        (BinaryOp::LessEqual, Value::Bool(false)),
        (BinaryOp::Greater, Value::Bool(true)),
        (BinaryOp::GreaterEqual, Value::Bool(true)),
        (BinaryOp::ShiftLeft, Value::Int(112)),
        (BinaryOp::ShiftRight, Value::Int(1)),
        (BinaryOp::Add, Value::Int(17)),
        (BinaryOp::Subtract, Value::Int(11)),
        (BinaryOp::Multiply, Value::Int(42)),
        (BinaryOp::Divide, Value::Int(4)),
        (BinaryOp::Remainder, Value::Int(2)),
    ];
    for (sign, answer) in rows {
        let e = of_ints(rt.alloc(), sign, 14, 3);
        gives(&rt, e, Ok(answer), "14 and 3")?;
    }
    assert!(rt; operator(BinaryOp::Both).is_none() && operator(BinaryOp::Either).is_none());
    assert_eq!(rt; operator(BinaryOp::LessEqual), Some(Op::LessOrEqual));
    Ok(())
}

// A side that is left out may fault.
#[test]
fn a_side_that_is_left_out_plays_no_part(rt: HostRuntime) -> Result<(), Fail> {
    let yes = Value::Int(2);
    let no = Value::Uint(0);
    let fault = Err(Fault::DivideByZero);
    let rows = [
        (BinaryOp::Both, no, Ok(Value::Bool(false))),
        (BinaryOp::Both, yes, fault),
        (BinaryOp::Either, yes, Ok(Value::Bool(true))),
        (BinaryOp::Either, no, fault),
        (BinaryOp::And, no, fault),
    ];
    for (sign, left, answer) in rows {
        let e = joined(rt.alloc(), sign, Ok(number(left)), faulty(rt.alloc()));
        gives(&rt, e, answer, "a fault on the right")?;
    }
    Ok(())
}

// Of two faults the left side's is told, and of a right side that counts its truth.
#[test]
fn both_sides_play_their_part(rt: HostRuntime) -> Result<(), Fail> {
    let alloc = rt.alloc();
    let both = joined(alloc, BinaryOp::Add, faulty_shift(alloc), faulty(alloc));
    gives(&rt, both, Err(Fault::ShiftRange), "two faults")?;
    let truth = of_ints(alloc, BinaryOp::Both, 2, 0);
    gives(
        &rt,
        truth,
        Ok(Value::Bool(false)),
        "the truth of the right side",
    )?;
    Ok(())
}

// Of a choice one branch alone is evaluated, and its value gets the kind of both.
#[test]
fn the_other_branch_plays_no_part(rt: HostRuntime) -> Result<(), Fail> {
    let alloc = rt.alloc();
    let least = Ok(number(Value::Int(-1)));
    let left = chosen(alloc, Value::Int(2), least, faulty(alloc));
    let common = Ok(Value::Uint(4_294_967_295));
    gives(&rt, left, common, "the first branch, in the common kind")?;
    let truth = Ok(number(Value::Bool(true)));
    let right = chosen(alloc, Value::Uint(0), faulty(alloc), truth);
    gives(&rt, right, Ok(Value::Uint(1)), "the second branch")?;
    Ok(())
}

// A choice of an `int` and an `unsigned int`.
fn chosen(
    alloc: Global,
    test: Value,
    yes: Made<CheckedExpr>,
    no: Made<CheckedExpr>,
) -> Made<CheckedExpr> {
    let test = boxed(alloc, Ok(number(test)));
    match (test, boxed(alloc, yes), boxed(alloc, no)) {
        (Ok(test), Ok(yes), Ok(no)) => Ok(CheckedExpr::Choose(Kind::Uint, test, yes, no)),
        _ => Err(AllocError),
    }
}

#[test]
fn prefixes_give_their_values(rt: HostRuntime) -> Result<(), Fail> {
    let rows = [
        (PrefixOp::Not, Value::Int(5), Ok(Value::Bool(false))),
        (
            PrefixOp::Invert,
            Value::Uint(1),
            Ok(Value::Uint(4_294_967_294)),
        ),
        (PrefixOp::Negate, Value::Bool(true), Ok(Value::Int(-1))),
        (PrefixOp::Negate, LEAST, Err(Fault::Overflow)),
        (PrefixOp::Keep, Value::Bool(true), Ok(Value::Int(1))),
    ];
    for (op, operand, answer) in rows {
        let e = prefixed(rt.alloc(), op, Ok(number(operand)));
        gives(&rt, e, answer, "a prefix")?;
    }
    Ok(())
}

#[test]
fn casts_and_names_give_their_values(rt: HostRuntime) -> Result<(), Fail> {
    let operand = cast(rt.alloc(), Ok(number(Value::Int(-1))));
    let greatest = Ok(Value::Ulong(18_446_744_073_709_551_615));
    gives(&rt, operand, greatest, "a cast")?;
    let names = [
        (Thing::FileConstant(Kind::Int), 0, Value::Int(40)),
        (Thing::FileConstant(Kind::Long), 1, Value::Long(0)),
        (Thing::MainConstant(Kind::Bool), 0, Value::Bool(true)),
        (Thing::Fixed(Kind::Bool, false), 0, Value::Bool(true)),
        (Thing::Fixed(Kind::Uint, true), 1, Value::Uint(7)),
        (Thing::Parameter(Kind::Long), 1, Value::Long(11)),
        (Thing::Variable(Kind::Uint), 2, Value::Int(0)),
    ];
    for (thing, number, answer) in names {
        let e = name(rt.alloc(), thing, number);
        gives(&rt, e, Ok(answer), "a name")?;
    }
    Ok(())
}

fn ticks(given: CheckedTime) -> Result<Time, TimeBreach> {
    let ticks = time(known(), &given);
    drop(given);
    ticks
}

// A time whose amount divides by 0.
fn faulty_time(alloc: Global) -> Made<CheckedTime> {
    let at = Position { line: 3, column: 1 };
    Ok(CheckedTime::Made(at, faulty(alloc)?, Scale::Ns))
}

// 2^62 - 1 is 4,611,686,018,427,387,903.
#[test]
fn times_are_counted_in_ticks(rt: HostRuntime) -> Result<(), Fail> {
    let rows = [
        (Value::Int(0), Scale::Sec, Ok(Time(0))),
        (Value::Int(10), Scale::Ns, Ok(Time(10_000))),
        (Value::Bool(true), Scale::Ms, Ok(Time(1_000_000_000))),
        (Value::Int(-1), Scale::Ps, Err(TimeBreach::Bad)),
        (
            Value::Long(4_611_686_018_427_387_903),
            Scale::Ps,
            Ok(Time(4_611_686_018_427_387_903)),
        ),
        (
            Value::Long(4_611_686_018_427_387_904),
            Scale::Ps,
            Err(TimeBreach::TooLarge),
        ),
        (
            Value::Int(4_611_686),
            Scale::Sec,
            Ok(Time(4_611_686_000_000_000_000)),
        ),
        (Value::Int(4_611_687), Scale::Sec, Err(TimeBreach::TooLarge)),
    ];
    for (amount, scale, answer) in rows {
        let given = CheckedTime::Amount(number(amount), scale);
        assert_eq!(rt; ticks(given), answer, "{amount:?}");
    }
    assert_eq!(rt; ticks(CheckedTime::Zero(AT)), Ok(Time(0)));
    let made = faulty_time(rt.alloc())?;
    let at = place(&made);
    assert_eq!(rt; ticks(made), Err(TimeBreach::Bad));
    assert_eq!(rt; at, AT);
    Ok(())
}

fn simple(alloc: Global, simple: CheckedSimple) -> Made<CheckedStat> {
    Ok(CheckedStat::Simple(Boxed::new(alloc, simple)?))
}

// wait(-1, SC_NS)
fn wait(alloc: Global, at: Position) -> Made<CheckedStat> {
    let number = Number {
        value: Value::Int(-1),
        position: at,
    };
    let amount = CheckedExpr::Number(Kind::Int, number);
    let delay = CheckedAwaited::Delay(CheckedTime::Amount(amount, Scale::Ns));
    simple(alloc, CheckedSimple::Wait(at, delay))
}

// A call of the function 4.
fn call(alloc: Global, at: Position) -> Made<CheckedStat> {
    let word = Word {
        name: Name::new(alloc, "f")?,
        position: at,
    };
    let denotes = Denotation {
        thing: Thing::Function(None, 0),
        number: 4,
    };
    let call = CheckedSimple::Call(Resolved { word, denotes }, Items::new(alloc));
    simple(alloc, call)
}

// Two statements.
fn both(
    alloc: Global,
    first: Made<CheckedStat>,
    second: Made<CheckedStat>,
) -> Made<Items<CheckedStat>> {
    with(with(Ok(Items::new(alloc)), first), second)
}

fn with(body: Made<Items<CheckedStat>>, more: Made<CheckedStat>) -> Made<Items<CheckedStat>> {
    match more {
        Ok(more) => pushed(body, more),
        Err(error) => {
            drop(body);
            Err(error)
        }
    }
}

fn pushed(body: Made<Items<CheckedStat>>, more: CheckedStat) -> Made<Items<CheckedStat>> {
    match body {
        Ok(mut body) => {
            body.push(more)?;
            Ok(body)
        }
        Err(error) => {
            drop(more);
            Err(error)
        }
    }
}

// wait(-1, SC_NS) at a line and a call of the function 4, in a block.
fn refused_block(alloc: Global, line: u32) -> Made<CheckedStat> {
    let at = Position { line, column: 9 };
    let body = both(alloc, wait(alloc, at), call(alloc, at))?;
    Ok(CheckedStat::Block(at, body))
}

// What is told of the times of a body, and which functions it calls.
fn looked_at(alloc: Global, body: Items<CheckedStat>) -> Made<(Option<TimeRefusal>, Vec<usize>)> {
    let mut told = None;
    refuse_times(known(), body.as_slice(), &mut told);
    let mut calls = Vec::new(alloc);
    let added = add_calls(body.as_slice(), &mut calls);
    drop(body);
    added?;
    Ok((told, calls))
}

#[test]
fn a_body_is_looked_at_as_a_whole(rt: HostRuntime) -> Result<(), Fail> {
    let alloc = rt.alloc();
    let body = both(alloc, refused_block(alloc, 7), refused_block(alloc, 6))?;
    let (told, calls) = looked_at(alloc, body)?;
    let at = Position { line: 6, column: 9 };
    let what = TimeBreach::Bad;
    assert_eq!(rt; told, Some(TimeRefusal { what, at }));
    assert_eq!(rt; calls.as_slice(), [4, 4].as_slice());
    Ok(())
}
