//! The operators against a C++ compiler: `tests_table/table.cpp` makes the tables.

mod bits;
mod chosen;
mod comparisons;
mod conversions;
mod quotients;
mod single;
mod sums;

use ooo_time::{Scale, Time};
use ooo_value::{
    Fault, Kind, Name, Names, Op, Value, append, binary, common, convert, invert, negate, promoted,
    time_of, truth,
};
use sqlite_items::Items;
use std::alloc::AllocError;
use std::cmp::Ordering;
use std::process::Abort;
use std::test::Fail;

/// An operator, its operands, and its answer.
pub type BinaryRow = (Op, Value, Value, Result<Value, Fault>);

/// Two values, and their order in the common kind.
pub type OrderRow = (Value, Value, Ordering);

/// A value, what `-` and `~` give for it, and whether it is not 0.
pub type UnaryRow = (Value, Result<Value, Fault>, Value, bool);

/// A value, a kind, and the value in that kind.
pub type ConvertRow = (Value, Kind, Value);

/// Two kinds and their common kind.
pub type CommonRow = (Kind, Kind, Kind);

fn check_binary(rt: &impl Abort, rows: &[BinaryRow]) {
    for (op, a, b, answer) in rows {
        assert_eq!(rt; binary(*op, *a, *b), *answer, "{op:?} of {a:?} and {b:?}");
    }
}

#[test]
fn arithmetic_is_that_of_the_compiler(rt: HostRuntime) {
    check_binary(&rt, &chosen::CHOSEN);
    check_binary(&rt, &sums::ADD);
    check_binary(&rt, &sums::SUBTRACT);
    check_binary(&rt, &sums::MULTIPLY);
    check_binary(&rt, &quotients::DIVIDE);
    check_binary(&rt, &quotients::REMAINDER);
}

#[test]
fn bits_are_those_of_the_compiler(rt: HostRuntime) {
    check_binary(&rt, &bits::BIT_AND);
    check_binary(&rt, &bits::BIT_OR);
    check_binary(&rt, &bits::BIT_XOR);
    check_binary(&rt, &bits::SHIFT_LEFT);
    check_binary(&rt, &bits::SHIFT_RIGHT);
}

#[test]
fn comparisons_are_those_of_the_compiler(rt: HostRuntime) {
    for (a, b, order) in &comparisons::ORDERS {
        let answers = [
            (Op::Equal, *order == Ordering::Equal),
            (Op::NotEqual, *order != Ordering::Equal),
            (Op::Less, *order == Ordering::Less),
            (Op::LessOrEqual, *order != Ordering::Greater),
            (Op::Greater, *order == Ordering::Greater),
            (Op::GreaterOrEqual, *order != Ordering::Less),
        ];
        for (op, holds) in answers {
            assert_eq!(rt;
                binary(op, *a, *b),
                Ok(Value::Bool(holds)),
                "{op:?} of {a:?} and {b:?}"
            );
        }
    }
}

#[test]
fn unary_operators_are_those_of_the_compiler(rt: HostRuntime) {
    for (v, minus, inverted, holds) in &single::UNARY {
        assert_eq!(rt; negate(*v), *minus, "-{v:?}");
        assert_eq!(rt; invert(*v), *inverted, "~{v:?}");
        assert_eq!(rt; truth(*v), *holds, "whether {v:?}");
    }
}

#[test]
fn conversions_are_those_of_the_compiler(rt: HostRuntime) {
    for (v, kind, converted) in &conversions::CONVERSIONS {
        assert_eq!(rt; convert(*v, *kind), *converted, "{v:?} to {kind:?}");
    }
}

#[test]
fn common_kinds_are_those_of_the_compiler(rt: HostRuntime) {
    for (a, b, kind) in &conversions::COMMON {
        assert_eq!(rt; common(*a, *b), *kind, "{a:?} and {b:?}");
    }
}

#[test]
fn kinds_have_a_zero_and_a_promoted_kind(rt: HostRuntime) {
    for (a, b, kind) in &conversions::COMMON {
        assert!(rt; !truth(a.zero()) && a.zero().kind() == *a, "{a:?}");
        assert!(rt; a != b || promoted(*a) == *kind, "{a:?}");
    }
}

// A time is from 0 to 2^62 - 1 ticks.
#[test]
fn values_are_amounts_of_time(rt: HostRuntime) {
    let rows = [
        (Value::Bool(true), Scale::Sec, Ok(Time(1_000_000_000_000))),
        (Value::Int(10), Scale::Ns, Ok(Time(10_000))),
        (Value::Int(-1), Scale::Ps, Err(Fault::BadTime)),
        (Value::Long(0), Scale::Sec, Ok(Time::ZERO)),
        (Value::Ulong((1 << 62) - 1), Scale::Ps, Ok(Time::GREATEST)),
        (Value::Ulong(1 << 62), Scale::Ps, Err(Fault::BadTime)),
        (Value::Ulong(u64::MAX), Scale::Ms, Err(Fault::BadTime)),
    ];
    for (amount, unit, time) in rows {
        assert_eq!(rt; time_of(amount, unit), time, "{amount:?} {unit:?}");
    }
}

#[test]
fn names_keep_their_bytes(rt: HostRuntime) -> Result<(), Fail> {
    let name = Name::from_bytes(b"m.run".to_vec(rt.alloc())?);
    assert_eq!(rt; name.as_bytes(), b"m.run".as_slice());
    let names = Names {
        processes: Items::from_vec(vec![in rt.alloc(); name]?),
        channels: Items::new(rt.alloc()),
    };
    assert_eq!(rt; names.processes.len(), 1);
    let spelled = Name::from_bytes(b"m".to_vec(rt.alloc())?).into_bytes();
    assert_eq!(rt; spelled.as_slice(), b"m".as_slice());
    Ok(())
}

// Worked by hand: the ends of each kind.
#[test]
fn prints_each_kind(rt: HostRuntime) -> Result<(), AllocError> {
    let rows: [(Value, &str); 10] = [
        (Value::Bool(false), "0"),
        (Value::Bool(true), "1"),
        (Value::Int(0), "0"),
        (Value::Int(-2_147_483_648), "-2147483648"),
        (Value::Int(2_147_483_647), "2147483647"),
        (Value::Uint(4_294_967_295), "4294967295"),
        (
            Value::Long(-9_223_372_036_854_775_808),
            "-9223372036854775808",
        ),
        (Value::Long(7), "7"),
        (Value::Ulong(0), "0"),
        (
            Value::Ulong(18_446_744_073_709_551_615),
            "18446744073709551615",
        ),
    ];
    for (value, wanted) in rows {
        let mut text = Vec::new(rt.alloc());
        append(&mut text, value)?;
        assert!(rt; text.as_slice() == wanted.as_bytes(), "{wanted}");
    }
    Ok(())
}

#[test]
fn writes_its_name(rt: HostRuntime) -> Result<(), Fail> {
    let text = format!(in rt.alloc(); "{}", Fault::BadTime)?;
    assert_eq!(rt; text.as_str(), "BadTime");
    Ok(())
}
