//! One small design a kind of node.

use super::nodes::{Code, binary, element, int, set};
use super::parts::{Parts, are_ints, cells, has_cells, locals, with_port, with_variable};
use super::{MANY, Made, is_over, printed, run, start_from};
use ooo_code::{Design, Effect, NodeExpr, NodeKind, NodeTime, SegmentEntry};
use ooo_interp::{Emitted, Port, run_process};
use ooo_time::{Scale, Time};
use ooo_value::{Op, ProcessKind, Value};
use std::alloc::{AllocError, Global};
use std::test::Fail;

fn setting_and_printing(alloc: Global) -> Code {
    let sum = binary(alloc, Op::Add, Ok(int(3)), Ok(int(4)));
    Code::new(alloc)
        .counted(set(1, sum), 1, 1)
        .says("x=", 2, 2)
        .passed(Ok(NodeKind::PrintValue(NodeExpr::Slot(1))), 3)
        .says(" at ", 2, 4)
        .passed(Ok(NodeKind::PrintTime), 5)
        .ends()
}

#[test]
fn sets_and_prints(rt: HostRuntime) -> Result<(), Fail> {
    let alloc = rt.alloc();
    let ran = run(locals(alloc, &[1, 2, 3]), setting_and_printing(alloc), MANY)?;
    assert!(rt; printed(&ran.output, "x=7 at 10 ns"));
    assert!(rt; is_over(&ran.end));
    assert!(rt; are_ints(&ran.slots, &[1, 7, 3]));
    Ok(())
}

/// A node that stores a value in an element of variable 1.
fn store(index: i32, value: Made<NodeExpr>) -> Made<NodeKind> {
    Ok(NodeKind::Store(1, Some(int(index)), value?))
}

fn storing(alloc: Global) -> Code {
    let sum = binary(
        alloc,
        Op::Add,
        element(alloc, 1, Ok(int(2))),
        Ok(NodeExpr::Variable(0)),
    );
    Code::new(alloc)
        .counted(Ok(NodeKind::Store(0, None, int(5))), 1, 1)
        .counted(store(2, Ok(NodeExpr::Variable(0))), 2, 2)
        .counted(store(0, sum), 3, 3)
        .ends()
}

#[test]
fn stores(rt: HostRuntime) -> Result<(), Fail> {
    let alloc = rt.alloc();
    let parts = with_variable(locals(alloc, &[]), cells(alloc, &[0]));
    let parts = with_variable(parts, cells(alloc, &[0, 0, 0]));
    let ran = run(parts, storing(alloc), MANY)?;
    assert!(rt; is_over(&ran.end));
    assert!(rt; has_cells(&ran.variables, 0, &[5]));
    assert!(rt; has_cells(&ran.variables, 1, &[10, 0, 5]));
    Ok(())
}

fn choosing(alloc: Global) -> Code {
    Code::new(alloc)
        .counted(Ok(NodeKind::Test(NodeExpr::Slot(0), 3)), 1, 1)
        .says("yes", 2, 2)
        .passed(Ok(NodeKind::Goto), 4)
        .says("no", 3, 4)
        .ends()
}

#[test]
fn goes_one_of_two_ways(rt: HostRuntime) -> Result<(), Fail> {
    let alloc = rt.alloc();
    for (x, text) in [(1, "yes"), (0, "no"), (-1, "yes")] {
        let ran = run(locals(alloc, &[x]), choosing(alloc), MANY)?;
        assert!(rt; printed(&ran.output, text), "from {x}");
    }
    Ok(())
}

fn having_effects(alloc: Global) -> Code {
    let five = NodeTime::Fixed(Time(5));
    let two = NodeTime::Amount(int(2), Scale::Ns);
    Code::new(alloc)
        .counted(Ok(NodeKind::Write(4, int(3))), 1, 1)
        .counted(Ok(NodeKind::Notify(1, five)), 2, 2)
        .counted(Ok(NodeKind::Notify(2, two)), 3, 3)
        .counted(Ok(NodeKind::Cancel(1)), 4, 4)
        .counted(Ok(NodeKind::Stop), 5, 5)
        .ends()
}

#[test]
fn has_effects_in_order(rt: HostRuntime) -> Result<(), Fail> {
    let alloc = rt.alloc();
    let ran = run(locals(alloc, &[]), having_effects(alloc), MANY)?;
    let effects = [
        Effect::Request(4, Value::Int(3)),
        Effect::Notify(1, Time(5)),
        Effect::Notify(2, Time(2_000)),
        Effect::Cancel(1),
        Effect::Stop,
    ];
    assert_eq!(rt; ran.effects.as_slice(), effects.as_slice());
    Ok(())
}

fn printing_and_stopping(alloc: Global) -> Code {
    Code::new(alloc)
        .says("x", 1, 1)
        .counted(Ok(NodeKind::Stop), 2, 2)
        .ends()
}

// Whether a process that prints an x and stops emits that alone three times, into what was emitted before.
fn emits_alone(alloc: Global, parts: Made<Parts>, design: Made<Design>) -> Made<bool> {
    match (parts, design) {
        (Ok(mut parts), Ok(design)) => {
            let mut emitted = Emitted::new(alloc);
            let is_alone = emits_each_time(&mut parts, &mut emitted, &design);
            drop(emitted);
            drop(parts);
            drop(design);
            is_alone
        }
        _ => Err(AllocError),
    }
}

fn emits_each_time(parts: &mut Parts, emitted: &mut Emitted, design: &Design) -> Made<bool> {
    let start = start_from(SegmentEntry::Start, MANY);
    for _ in 0..3 {
        run_process(parts, emitted, design, start)?;
        let stops = emitted.effects.as_slice() == [Effect::Stop].as_slice();
        if !stops || !printed(&emitted.output, "x") {
            return Ok(false);
        }
    }
    Ok(true)
}

// What was emitted before is neither printed nor done again.
#[test]
fn forgets_what_was_emitted_before(rt: HostRuntime) -> Result<(), Fail> {
    let alloc = rt.alloc();
    let design = printing_and_stopping(alloc).design(ProcessKind::Thread);
    assert!(rt; emits_alone(alloc, locals(alloc, &[]), design)?);
    Ok(())
}

fn reading_signals(alloc: Global) -> Code {
    Code::new(alloc)
        .passed(Ok(NodeKind::PrintValue(NodeExpr::Signal(4))), 1)
        .passed(Ok(NodeKind::PrintValue(NodeExpr::Event(4))), 2)
        .passed(Ok(NodeKind::PrintValue(NodeExpr::Edge(4, true))), 3)
        .passed(Ok(NodeKind::PrintValue(NodeExpr::Edge(4, false))), 4)
        .passed(Ok(NodeKind::PrintValue(NodeExpr::Signal(6))), 5)
        .passed(Ok(NodeKind::PrintValue(NodeExpr::Event(6))), 6)
        .ends()
}

#[test]
fn reads_signals(rt: HostRuntime) -> Result<(), Fail> {
    let alloc = rt.alloc();
    let bit = Port::Signal(4, Value::Bool(true), true);
    let parts = with_port(&rt, locals(alloc, &[]), bit);
    let parts = with_port(&rt, parts, Port::Signal(6, Value::Int(-9), false));
    let ran = run(parts, reading_signals(alloc), MANY)?;
    assert!(rt; printed(&ran.output, "1110-90"));
    Ok(())
}
