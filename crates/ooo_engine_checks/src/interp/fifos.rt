//! Takes and puts behind a process's own.

use super::nodes::{Code, binary, int, one_more, set};
use super::parts::{are_ints, ints, locals, with_fifo};
use super::{MANY, Made, is_over, printed, run};
use ooo_code::{Effect, NodeExpr, NodeKind};
use ooo_value::{Op, Value};
use std::alloc::Global;
use std::test::Fail;

fn put(channel: u32, value: Made<NodeExpr>) -> Made<NodeKind> {
    Ok(NodeKind::Put(channel, value?))
}

/// Takes two values of fifo 0, as many as there are, and goes on to node 5. Every other way goes to node 10.
fn two_takes(alloc: Global) -> Code {
    Code::new(alloc)
        .counted(Ok(NodeKind::TestAvailable(0, 10)), 1, 1)
        .passed(Ok(NodeKind::Take(0, 0)), 2)
        .counted(Ok(NodeKind::TestAvailable(0, 10)), 2, 3)
        .passed(Ok(NodeKind::Take(0, 1)), 4)
        .counted(Ok(NodeKind::TestAvailable(0, 5)), 3, 10)
}

/// Then it puts their sum into the one free slot of fifo 1.
fn two_takes_and_a_put(alloc: Global) -> Code {
    let sum = binary(alloc, Op::Add, Ok(NodeExpr::Slot(0)), Ok(NodeExpr::Slot(1)));
    two_takes(alloc)
        .counted(Ok(NodeKind::TestFree(1, 10)), 4, 6)
        .passed(put(1, sum), 7)
        .counted(Ok(NodeKind::TestFree(1, 8)), 5, 10)
        .passed(Ok(NodeKind::PrintValue(NodeExpr::Available(0))), 9)
        .passed(Ok(NodeKind::PrintValue(NodeExpr::Free(1))), 11)
        .says("wrong", 6, 11)
        .ends()
}

#[test]
fn sees_its_own_takes_and_puts(rt: HostRuntime) -> Result<(), Fail> {
    let alloc = rt.alloc();
    let parts = with_fifo(&rt, locals(alloc, &[0, 0]), 0, ints(alloc, &[4, 6]), 0);
    let parts = with_fifo(&rt, parts, 1, ints(alloc, &[]), 1);
    let ran = run(parts, two_takes_and_a_put(alloc), MANY)?;
    assert!(rt; printed(&ran.output, "00"));
    assert!(rt; are_ints(&ran.slots, &[4, 6]));
    let effects = [
        Effect::Take(0),
        Effect::Take(0),
        Effect::Put(1, Value::Int(10)),
    ];
    assert_eq!(rt; ran.effects.as_slice(), effects.as_slice());
    Ok(())
}

/// Puts 1 and 2 into fifo 0 while it has free slots, and prints how many are left, or that there were more or fewer.
fn two_puts(alloc: Global) -> Code {
    Code::new(alloc)
        .counted(Ok(NodeKind::TestFree(0, 7)), 1, 1)
        .passed(put(0, Ok(int(1))), 2)
        .counted(Ok(NodeKind::TestFree(0, 7)), 2, 3)
        .passed(put(0, Ok(int(2))), 4)
        .counted(Ok(NodeKind::TestFree(0, 6)), 3, 5)
        .says("more than two", 4, 8)
        .passed(Ok(NodeKind::PrintValue(NodeExpr::Free(0))), 8)
        .says("fewer than two", 5, 8)
        .ends()
}

#[test]
fn a_put_fills_a_slot_for_the_next(rt: HostRuntime) -> Result<(), Fail> {
    let alloc = rt.alloc();
    let puts = [Effect::Put(0, Value::Int(1)), Effect::Put(0, Value::Int(2))];
    for (free, text, count) in [
        (0, "fewer than two", 0),
        (1, "fewer than two", 1),
        (2, "0", 2),
        (3, "more than two", 2),
    ] {
        let parts = with_fifo(&rt, locals(alloc, &[]), 0, ints(alloc, &[]), free);
        let ran = run(parts, two_puts(alloc), MANY)?;
        assert!(rt; printed(&ran.output, text));
        assert!(rt; count <= puts.len());
        assert_eq!(rt; ran.effects.as_slice(), &puts[..count]);
    }
    Ok(())
}

/// Takes from fifo 0 into local 0, without a test, and prints that.
fn untested_take(alloc: Global) -> Code {
    Code::new(alloc)
        .passed(Ok(NodeKind::Take(0, 0)), 1)
        .passed(Ok(NodeKind::PrintValue(NodeExpr::Slot(0))), 2)
        .ends()
}

// A process that takes where nothing is available has no effect by that.
#[test]
fn nothing_is_taken_of_an_empty_fifo(rt: HostRuntime) -> Result<(), Fail> {
    let alloc = rt.alloc();
    let parts = with_fifo(&rt, locals(alloc, &[3]), 0, ints(alloc, &[]), 2);
    let ran = run(parts, untested_take(alloc), MANY)?;
    assert!(rt; printed(&ran.output, "3"));
    assert!(rt; ran.effects.is_empty());
    Ok(())
}

/// Counts the values of fifo 0 in local 0, one statement each, and prints the last of them.
fn counting(alloc: Global) -> Code {
    Code::new(alloc)
        .passed(Ok(NodeKind::TestAvailable(0, 3)), 1)
        .passed(Ok(NodeKind::Take(0, 1)), 2)
        .counted(set(0, one_more(alloc, 0)), 1, 0)
        .passed(Ok(NodeKind::PrintValue(NodeExpr::Slot(1))), 4)
        .ends()
}

#[test]
fn a_full_fifo_of_the_greatest_size_is_read(rt: HostRuntime) -> Result<(), Fail> {
    let alloc = rt.alloc();
    let values = (0..65_536u32).map(|n| Value::Uint(n)).collect(alloc);
    let parts = with_fifo(&rt, locals(alloc, &[0, 0]), 0, values, 0);
    let ran = run(parts, counting(alloc), 65_536)?;
    assert!(rt; is_over(&ran.end));
    assert!(rt; printed(&ran.output, "65535"));
    assert_eq!(rt; ran.effects.len(), 65_536);
    Ok(())
}
