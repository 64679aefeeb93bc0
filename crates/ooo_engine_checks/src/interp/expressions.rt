//! What each form of expression gives.

use super::nodes::{Code, binary, boxed, element, int};
use super::parts::{Parts, cells, ints, locals, with_fifo, with_port, with_variable};
use super::{MANY, Made, printed, run};
use ooo_code::{NodeExpr, NodeKind};
use ooo_interp::Port;
use ooo_value::{Kind, Op, Value};
use sqlite_items::Boxed;
use std::alloc::Global;
use std::process::Abort;
use std::test::Fail;

/// A local of 8, a scalar of 5 and an array of 1, 2 and 3, a signal of 7, and a fifo of two values with three free
/// slots.
fn parts(rt: &impl Abort, alloc: Global) -> Made<Parts> {
    let parts = with_variable(locals(alloc, &[8]), cells(alloc, &[5]));
    let parts = with_variable(parts, cells(alloc, &[1, 2, 3]));
    let parts = with_port(rt, parts, Port::Signal(0, Value::Int(7), false));
    with_fifo(rt, parts, 1, ints(alloc, &[4, 6]), 3)
}

fn printing(e: Made<NodeExpr>) -> Made<NodeKind> {
    Ok(NodeKind::PrintValue(e?))
}

/// An expression gives a value that is printed so.
fn check(rt: &impl Abort, alloc: Global, e: Made<NodeExpr>, text: &str) -> Made<()> {
    let code = Code::new(alloc).passed(printing(e), 1).ends();
    let ran = run(parts(rt, alloc), code, MANY)?;
    assert!(rt; printed(&ran.output, text), "{text}");
    Ok(())
}

fn number(alloc: Global, x: i32) -> Made<Boxed<NodeExpr>> {
    boxed(alloc, Ok(int(x)))
}

fn negated(alloc: Global, x: i32) -> Made<NodeExpr> {
    Ok(NodeExpr::Negate(number(alloc, x)?))
}

fn inverted(alloc: Global, x: i32) -> Made<NodeExpr> {
    Ok(NodeExpr::Invert(number(alloc, x)?))
}

fn not(alloc: Global, x: i32) -> Made<NodeExpr> {
    Ok(NodeExpr::Not(number(alloc, x)?))
}

fn converted(alloc: Global, kind: Kind, x: i32) -> Made<NodeExpr> {
    Ok(NodeExpr::Convert(kind, number(alloc, x)?))
}

fn and(alloc: Global, x: i32, y: i32) -> Made<NodeExpr> {
    Ok(NodeExpr::And(number(alloc, x)?, number(alloc, y)?))
}

fn or(alloc: Global, x: i32, y: i32) -> Made<NodeExpr> {
    Ok(NodeExpr::Or(number(alloc, x)?, number(alloc, y)?))
}

fn choice(alloc: Global, x: i32, y: i32, z: i32) -> Made<NodeExpr> {
    Ok(NodeExpr::Choose(number(alloc, x)?, number(alloc, y)?, number(alloc, z)?))
}

#[test]
fn each_form_gives_its_value(rt: HostRuntime) -> Result<(), Fail> {
    let alloc = rt.alloc();
    check(&rt, alloc, element(alloc, 1, Ok(int(2))), "3")?;
    check(&rt, alloc, Ok(NodeExpr::Constant(Value::Long(-9))), "-9")?;
    check(&rt, alloc, Ok(NodeExpr::Slot(0)), "8")?;
    check(&rt, alloc, Ok(NodeExpr::Variable(0)), "5")?;
    check(&rt, alloc, Ok(NodeExpr::Signal(0)), "7")?;
    check(&rt, alloc, Ok(NodeExpr::Available(1)), "2")?;
    check(&rt, alloc, Ok(NodeExpr::Free(1)), "3")?;
    check(&rt, alloc, converted(alloc, Kind::Uint, -1), "4294967295")?;
    check(&rt, alloc, negated(alloc, 4), "-4")?;
    check(&rt, alloc, inverted(alloc, 4), "-5")?;
    check(&rt, alloc, not(alloc, 4), "0")?;
    Ok(())
}

#[test]
fn what_chooses_takes_what_it_needs(rt: HostRuntime) -> Result<(), Fail> {
    let alloc = rt.alloc();
    for (x, y, both, either) in [
        (0, 0, "0", "0"),
        (0, 6, "0", "1"),
        (6, 0, "0", "1"),
        (6, 5, "1", "1"),
    ] {
        check(&rt, alloc, and(alloc, x, y), both)?;
        check(&rt, alloc, or(alloc, x, y), either)?;
    }
    for (x, text) in [(3, "10"), (0, "20")] {
        check(&rt, alloc, choice(alloc, x, 10, 20), text)?;
    }
    Ok(())
}

/// `0 + 1 + 2 + .. - ..` with so many operators, each grouped with what stands to its left: every second one takes away
/// what the one before it added.
fn long_sum(alloc: Global, operators: i32) -> Made<NodeExpr> {
    let mut sum = Ok(int(0));
    for n in 0..operators {
        let op = if n % 2 == 0 { Op::Add } else { Op::Subtract };
        sum = binary(alloc, op, sum, Ok(int(n / 2 + 1)));
    }
    sum
}

// As many operators as an expression may hold: `0 + 1 - 1 + 2 - 2 ..`, and one less leaves what was added last.
#[test]
fn a_long_sum_gives_its_value(rt: HostRuntime) -> Result<(), Fail> {
    let alloc = rt.alloc();
    check(&rt, alloc, long_sum(alloc, 1_024), "0")?;
    check(&rt, alloc, long_sum(alloc, 1_023), "512")?;
    Ok(())
}
