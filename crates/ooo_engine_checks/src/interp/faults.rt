//! The five faults where each can come, and what was done before.

use super::nodes::{Code, binary, boxed, element, int, set};
use super::parts::{are_ints, cells, has_cells, locals, with_variable};
use super::{MANY, Made, fault_of, printed, run};
use ooo_code::{Effect, NodeExpr, NodeKind, NodeTime, NodeWait};
use ooo_time::Scale;
use ooo_value::{Fault, Op, Value};
use sqlite_items::Items;
use std::alloc::Global;
use std::process::Abort;
use std::test::Fail;

/// A node behind a print and a request, and before a print.
fn around(alloc: Global, kind: Made<NodeKind>) -> Code {
    Code::new(alloc)
        .says("before", 1, 1)
        .counted(Ok(NodeKind::Write(4, int(3))), 2, 2)
        .counted(kind, 3, 3)
        .says("after", 4, 4)
        .ends()
}

/// A node faults with this, and what was done before is kept.
fn check(rt: &impl Abort, alloc: Global, kind: Made<NodeKind>, fault: Fault) -> Made<()> {
    let parts = with_variable(locals(alloc, &[8]), cells(alloc, &[1, 2, 3]));
    let ran = run(parts, around(alloc, kind), MANY)?;
    assert_eq!(rt; fault_of(&ran.end), Some((fault, 3)));
    assert!(rt; printed(&ran.output, "before"));
    assert_eq!(rt;
        ran.effects.as_slice(),
        [Effect::Request(4, Value::Int(3))].as_slice()
    );
    assert!(rt; are_ints(&ran.slots, &[8]));
    assert!(rt; has_cells(&ran.variables, 0, &[1, 2, 3]));
    Ok(())
}

/// What an expression faults with.
#[derive(Clone, Copy)]
enum Cause {
    TooGreat,
    ByZero,
    FarShift,
    BackShift,
    PastTheLast,
    BeforeTheFirst,
}

impl Cause {
    const ALL: [Cause; 6] = [
        Cause::TooGreat,
        Cause::ByZero,
        Cause::FarShift,
        Cause::BackShift,
        Cause::PastTheLast,
        Cause::BeforeTheFirst,
    ];

    fn fault(self) -> Fault {
        match self {
            Cause::TooGreat => Fault::Overflow,
            Cause::ByZero => Fault::DivideByZero,
            Cause::FarShift | Cause::BackShift => Fault::ShiftRange,
            Cause::PastTheLast | Cause::BeforeTheFirst => Fault::IndexRange,
        }
    }

    /// An expression that faults so.
    fn expression(self, alloc: Global) -> Made<NodeExpr> {
        let of = |op: Op, a: i32, b: i32| binary(alloc, op, Ok(int(a)), Ok(int(b)));
        match self {
            Cause::TooGreat => of(Op::Add, i32::MAX, 1),
            Cause::ByZero => of(Op::Divide, 1, 0),
            Cause::FarShift => of(Op::ShiftLeft, 1, 32),
            Cause::BackShift => of(Op::ShiftRight, 1, -1),
            Cause::PastTheLast => element(alloc, 0, Ok(int(3))),
            Cause::BeforeTheFirst => element(alloc, 0, Ok(int(-1))),
        }
    }
}

/// Where an expression stands in a node.
#[derive(Clone, Copy)]
enum Place {
    Local,
    Variable,
    ElementValue,
    Test,
    Print,
    Request,
    Put,
    StoredIndex,
    ReadIndex,
    LeftShift,
    RightShift,
    NotifyAmount,
    WaitAmount,
    TriggerAmount,
}

impl Place {
    const ALL: [Place; 14] = [
        Place::Local,
        Place::Variable,
        Place::ElementValue,
        Place::Test,
        Place::Print,
        Place::Request,
        Place::Put,
        Place::StoredIndex,
        Place::ReadIndex,
        Place::LeftShift,
        Place::RightShift,
        Place::NotifyAmount,
        Place::WaitAmount,
        Place::TriggerAmount,
    ];

    const AMOUNTS: [Place; 3] = [Place::NotifyAmount, Place::WaitAmount, Place::TriggerAmount];

    /// A node with the expression in this place.
    fn node(self, alloc: Global, e: Made<NodeExpr>) -> Made<NodeKind> {
        self.node_of(alloc, e?)
    }

    fn node_of(self, alloc: Global, e: NodeExpr) -> Made<NodeKind> {
        match self {
            Place::Local => Ok(NodeKind::Set(0, e)),
            Place::Variable => Ok(NodeKind::Store(0, None, e)),
            Place::ElementValue => Ok(NodeKind::Store(0, Some(int(1)), e)),
            Place::Test => Ok(NodeKind::Test(e, 4)),
            Place::Print => Ok(NodeKind::PrintValue(e)),
            Place::Request => Ok(NodeKind::Write(4, e)),
            Place::Put => Ok(NodeKind::Put(5, e)),
            Place::StoredIndex => Ok(NodeKind::Store(0, Some(e), int(9))),
            Place::ReadIndex => set(0, element(alloc, 0, Ok(e))),
            Place::LeftShift => set(0, binary(alloc, Op::ShiftLeft, Ok(int(1)), Ok(e))),
            Place::RightShift => set(0, binary(alloc, Op::ShiftRight, Ok(int(1)), Ok(e))),
            Place::NotifyAmount => Ok(NodeKind::Notify(0, NodeTime::Amount(e, Scale::Ns))),
            Place::WaitAmount => Ok(NodeKind::Wait(after(alloc, e))),
            Place::TriggerAmount => Ok(NodeKind::Trigger(after(alloc, e))),
        }
    }
}

/// A wait of so many seconds.
fn after(alloc: Global, amount: NodeExpr) -> NodeWait {
    NodeWait {
        time: Some(NodeTime::Amount(amount, Scale::Sec)),
        events: Items::new(alloc),
        is_static: false,
    }
}

#[test]
fn a_fault_ends_the_activation_wherever_it_comes(rt: HostRuntime) -> Result<(), Fail> {
    let alloc = rt.alloc();
    for place in Place::ALL {
        for cause in Cause::ALL {
            let kind = place.node(alloc, cause.expression(alloc));
            check(&rt, alloc, kind, cause.fault())?;
        }
    }
    Ok(())
}

// An amount is no time where it is negative or beyond the greatest time, and no shift where it isn't below the width.
#[test]
fn an_amount_faults(rt: HostRuntime) -> Result<(), Fail> {
    let alloc = rt.alloc();
    for place in Place::AMOUNTS {
        for amount in [Value::Int(-1), Value::Long(-1), Value::Ulong(u64::MAX)] {
            let kind = place.node(alloc, Ok(NodeExpr::Constant(amount)));
            check(&rt, alloc, kind, Fault::BadTime)?;
        }
    }
    for place in [Place::LeftShift, Place::RightShift] {
        for amount in [Value::Int(-1), Value::Int(32), Value::Ulong(u64::MAX)] {
            let kind = place.node(alloc, Ok(NodeExpr::Constant(amount)));
            check(&rt, alloc, kind, Fault::ShiftRange)?;
        }
    }
    Ok(())
}

#[test]
fn an_index_faults(rt: HostRuntime) -> Result<(), Fail> {
    let alloc = rt.alloc();
    for place in [Place::StoredIndex, Place::ReadIndex] {
        for index in [Value::Int(3), Value::Int(-1), Value::Ulong(u64::MAX)] {
            let kind = place.node(alloc, Ok(NodeExpr::Constant(index)));
            check(&rt, alloc, kind, Fault::IndexRange)?;
        }
    }
    Ok(())
}

/// A node that stores a value past the last element.
fn stored_past_the_last(value: Made<NodeExpr>) -> Made<NodeKind> {
    Ok(NodeKind::Store(0, Some(int(3)), value?))
}

// A value is evaluated before the index at which it is stored.
#[test]
fn a_value_faults_before_its_index(rt: HostRuntime) -> Result<(), Fail> {
    let alloc = rt.alloc();
    let kind = stored_past_the_last(Cause::TooGreat.expression(alloc));
    check(&rt, alloc, kind, Fault::Overflow)?;
    Ok(())
}

/// `0 && 1 / 0`
fn false_and_a_fault(alloc: Global) -> Made<NodeExpr> {
    let right = boxed(alloc, Cause::ByZero.expression(alloc))?;
    Ok(NodeExpr::And(boxed(alloc, Ok(int(0)))?, right))
}

// The right operand of `&&` isn't evaluated where the left one is 0; the left operand of `+` comes first.
#[test]
fn what_is_left_out_does_not_fault(rt: HostRuntime) -> Result<(), Fail> {
    let alloc = rt.alloc();
    let too_great = Cause::TooGreat.expression(alloc);
    let sum = binary(alloc, Op::Add, false_and_a_fault(alloc), too_great);
    check(&rt, alloc, set(0, sum), Fault::Overflow)?;
    Ok(())
}
