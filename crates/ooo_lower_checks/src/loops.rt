//! Loops.

use crate::making::{
    Made, binary, boxed, empty, inner, int, local, no_functions, nothing, only_if, pair, set,
    simple, store, told_thread, with,
};
use ooo_bound::{
    BoundExpr, BoundRight, BoundSimple, BoundStat, BoundTarget, BoundTime, BoundWait, LinedSimple,
};
use ooo_time::Time;
use ooo_value::{Kind, Op, Value};
use sqlite_items::{Boxed, Items};
use std::alloc::{AllocError, Global};
use std::test::Fail;

static WHILES: &str = "thread starts [0] from 0 to 9 [b i u l ul b i u l ul]
0: v0 := 0i; line 1 counted; next 1
1: test (< v0 9i) else 7; line 2 counted; next 2
2: test v0 else 4; line 3 counted; next 3
3: goto; line 3 counted; next 7
4: test s1 else 6; line 4 counted; next 5
5: goto; line 4 counted; next 1
6: v0 := 4i; line 5 counted; next 1
7: test v0 else 8; line 6 counted; next 7
8: end; line 0; next 8
";

// A `while` that is left by `break`, with a `continue`, and one without a body.
#[test]
fn whiles(rt: HostRuntime) -> Result<(), Fail> {
    let alloc = rt.alloc();
    let last = while_of(alloc, 6, Ok(BoundExpr::Variable(0)), nothing(alloc));
    let body = with(
        with(with(empty(alloc), store(alloc, 1, 0)), searching(alloc)),
        last,
    );
    let text = told_thread(alloc, body, no_functions(alloc))?;
    assert!(rt; text.as_slice() == WHILES.as_bytes());
    Ok(())
}

// A `while`.
fn while_of(
    alloc: Global,
    line: u32,
    test: Made<BoundExpr>,
    turn: Made<BoundStat>,
) -> Made<BoundStat> {
    match (in_box(alloc, test), inner(alloc, turn)) {
        (Ok(test), Ok(turn)) => Ok(BoundStat::While(line, test, turn)),
        _ => Err(AllocError),
    }
}

// A value in a box.
fn in_box(alloc: Global, e: Made<BoundExpr>) -> Made<Boxed<BoundExpr>> {
    boxed(alloc, e?)
}

// A loop with a `break` and a `continue`.
fn searching(alloc: Global) -> Made<BoundStat> {
    let leaves = only_if(alloc, 3, BoundExpr::Variable(0), Ok(BoundStat::Break(3)));
    let again = only_if(alloc, 4, BoundExpr::Signal(1), Ok(BoundStat::Continue(4)));
    let turn = pair(alloc, leaves, pair(alloc, again, store(alloc, 5, 4)));
    let test = binary(alloc, Op::Less, BoundExpr::Variable(0), int(9));
    while_of(alloc, 2, test, turn)
}

static FORS: &str = "thread starts [0] from 0 to 13 [b i u l ul b i u l ul i]
0: $10 := 0i; line 1 counted; next 1
1: goto; line 1; next 6
2: available 0 else 3; line 1 counted; next 4
3: wait - [1]; line 1; next 2
4: $3 := take 0; line 1; next 5
5: $10 := (i $3); line 1; next 6
6: test (< $10 3i) else 10; line 1 counted; next 7
7: test v0 else 9; line 2 counted; next 8
8: goto; line 2 counted; next 2
9: v0 := (i $10); line 3 counted; next 2
10: test 1b else 12; line 4 counted; next 11
11: goto; line 5 counted; next 12
12: end; line 0; next 12
";

// A `for` whose step waits for a fifo, with a `continue`; and one without a test and a step.
#[test]
fn fors(rt: HostRuntime) -> Result<(), Fail> {
    let alloc = rt.alloc();
    let body = with(with(empty(alloc), counting(alloc)), without_a_head(alloc));
    let text = told_thread(alloc, body, no_functions(alloc))?;
    assert!(rt; text.as_slice() == FORS.as_bytes());
    Ok(())
}

// A loop without a test and a step, which is left at once.
fn without_a_head(alloc: Global) -> Made<BoundStat> {
    let turn = inner(alloc, Ok(BoundStat::Break(5)))?;
    Ok(BoundStat::For(4, Items::new(alloc), None, None, turn))
}

// What a local gets at the head of a loop.
fn at_head(right: BoundRight) -> LinedSimple {
    LinedSimple {
        line: 1,
        simple: BoundSimple::Assign(BoundTarget::Local(Kind::Int, 0), right),
    }
}

// The local gets 0.
fn begins(alloc: Global) -> Made<Items<LinedSimple>> {
    let mut begins = Items::new(alloc);
    begins.push(at_head(BoundRight::Value(int(0))))?;
    Ok(begins)
}

// A loop whose step reads the local that it counts.
fn counting(alloc: Global) -> Made<BoundStat> {
    let again = only_if(alloc, 2, BoundExpr::Variable(0), Ok(BoundStat::Continue(2)));
    let rest = set(alloc, 3, BoundTarget::Variable(0), local(0));
    let turn = inner(alloc, pair(alloc, again, rest));
    let test = in_box(alloc, binary(alloc, Op::Less, local(0), int(3)));
    let step = Boxed::new(alloc, at_head(BoundRight::Read(0)));
    match (begins(alloc), test, step, turn) {
        (Ok(begins), Ok(test), Ok(step), Ok(turn)) => {
            Ok(BoundStat::For(1, begins, Some(test), Some(step), turn))
        }
        _ => Err(AllocError),
    }
}

static DOS: &str = "thread starts [0] from 0 to 7 [b i u l ul b i u l ul]
0: test v0 else 2; line 2 counted; next 1
1: goto; line 2 counted; next 3
2: v0 := 1i; line 3 counted; next 3
3: test s1 else 4; line 1 counted; next 0
4: goto; line 5 counted; next 6
5: test 1b else 6; line 4 counted; next 4
6: end; line 0; next 6
";

// The constant `true`.
fn always() -> BoundExpr {
    BoundExpr::Constant(Value::Bool(true))
}

// A `do`.
fn do_of(alloc: Global, line: u32, turn: Made<BoundStat>, test: BoundExpr) -> Made<BoundStat> {
    match (inner(alloc, turn), boxed(alloc, test)) {
        (Ok(turn), Ok(test)) => Ok(BoundStat::Do(line, turn, test)),
        _ => Err(AllocError),
    }
}

// A `do` with a `continue`, and one that is left by `break`.
#[test]
fn dos(rt: HostRuntime) -> Result<(), Fail> {
    let alloc = rt.alloc();
    let again = only_if(alloc, 2, BoundExpr::Variable(0), Ok(BoundStat::Continue(2)));
    let turn = pair(alloc, again, store(alloc, 3, 1));
    let first = do_of(alloc, 1, turn, BoundExpr::Signal(1));
    let last = do_of(alloc, 4, Ok(BoundStat::Break(5)), always());
    let text = told_thread(
        alloc,
        with(with(empty(alloc), first), last),
        no_functions(alloc),
    )?;
    assert!(rt; text.as_slice() == DOS.as_bytes());
    Ok(())
}

static CLOCK: &str = "thread starts [0] from 0 to 6 [b i u l ul b i u l ul]
0: s1 := 1b; line 1 counted; next 1
1: wait =5000 []; line 1 counted; next 2
2: s1 := 0b; line 1 counted; next 3
3: wait =5000 []; line 1 counted; next 4
4: test 1b else 5; line 1 counted; next 0
5: end; line 0; next 5
";

// Half a period of a clock.
fn half(alloc: Global, up: i32) -> Made<BoundStat> {
    let wait = BoundWait {
        time: Some(BoundTime::Fixed(Time(5000))),
        events: Items::new(alloc),
        is_static: false,
    };
    let waits = simple(alloc, 1, BoundSimple::Wait(wait));
    pair(alloc, set(alloc, 1, BoundTarget::Signal(1), int(up)), waits)
}

// The body of a clock.
#[test]
fn a_clock(rt: HostRuntime) -> Result<(), Fail> {
    let alloc = rt.alloc();
    let turn = pair(alloc, half(alloc, 1), half(alloc, 0));
    let body = with(empty(alloc), do_of(alloc, 1, turn, always()));
    let text = told_thread(alloc, body, no_functions(alloc))?;
    assert!(rt; text.as_slice() == CLOCK.as_bytes());
    Ok(())
}
