//! Where slots and processes stand.

use crate::making::{
    Made, empty, gives, inner, int, no_functions, only_if, process, returns, store, thread, told,
    told_thread, with, with_function, with_process,
};
use ooo_bound::{
    BoundExpr, BoundFunction, BoundRight, BoundSimple, BoundStat, BoundTarget, LinedSimple,
};
use ooo_value::{Kind, ProcessKind};
use sqlite_items::{Boxed, Items};
use std::alloc::{AllocError, Global};
use std::test::Fail;

// A function that gives 1.
fn one(alloc: Global) -> Made<BoundFunction> {
    let body = with(empty(alloc), returns(alloc, 9, int(1)))?;
    Ok(BoundFunction {
        result: Some(Kind::Int),
        params: Items::new(alloc),
        body,
    })
}

static LOOP: &str = "thread starts [0] from 0 to 11 [b i u l ul b i u l ul i i]
0: goto; line 1; next 5
1: goto; line 2 counted; next 2
2: $10 := 0i; line 2; next 3
3: $10 := 1i; line 9 counted; next 4
4: v0 := (i $10); line 2; next 5
5: test 1b else 10; line 1 counted; next 6
6: goto; line 3 counted; next 7
7: $11 := 0i; line 3; next 8
8: $11 := 1i; line 9 counted; next 9
9: goto; line 3; next 1
10: end; line 0; next 10
";

// A call of function 0.
fn called(alloc: Global) -> BoundRight {
    BoundRight::Call(0, Items::new(alloc))
}

// A loop that calls the function in its step and in its body.
fn calling(alloc: Global) -> Made<BoundStat> {
    let step = Boxed::new(
        alloc,
        LinedSimple {
            line: 2,
            simple: BoundSimple::Assign(BoundTarget::Variable(0), called(alloc)),
        },
    );
    let turn = gives(alloc, 3, BoundTarget::Nothing, called(alloc));
    match (step, inner(alloc, turn)) {
        (Ok(step), Ok(turn)) => { Ok(BoundStat::For(1, Items::new(alloc), None, Some(step), turn)) }
        _ => Err(AllocError),
    }
}

// The call in the step of a loop has the first slot, and that in its body, whose result is dropped, the next one.
#[test]
fn calls_in_a_loop(rt: HostRuntime) -> Result<(), Fail> {
    let alloc = rt.alloc();
    let functions = with_function(no_functions(alloc), one(alloc));
    let text = told_thread(alloc, with(empty(alloc), calling(alloc)), functions)?;
    assert!(rt; text.as_slice() == LOOP.as_bytes());
    Ok(())
}

static PROCESSES: &str = "thread starts [0] from 0 to 4 [b i u l ul b i u l ul]
method waits [0] from 4 to 8 [b i u l ul b i u l ul]
0: test v0 else 2; line 1 counted; next 1
1: goto; line 1 counted; next 3
2: v0 := 1i; line 2 counted; next 3
3: end; line 0; next 3
4: test v0 else 6; line 1 counted; next 5
5: goto; line 1 counted; next 7
6: v0 := 1i; line 2 counted; next 7
7: end; line 0; next 7
";

// Each process returns to its own end.
#[test]
fn two_processes(rt: HostRuntime) -> Result<(), Fail> {
    let alloc = rt.alloc();
    let first = thread(alloc, returning(alloc));
    let second = process(alloc, ProcessKind::Method, false, returning(alloc));
    let processes = with_process(with_process(Ok(Items::new(alloc)), first), second);
    let text = told(alloc, processes, no_functions(alloc))?;
    assert!(rt; text.as_slice() == PROCESSES.as_bytes());
    Ok(())
}

// A body that may return early.
fn returning(alloc: Global) -> Made<Items<BoundStat>> {
    let early = only_if(
        alloc,
        1,
        BoundExpr::Variable(0),
        Ok(BoundStat::Return(1, None)),
    );
    with(with(empty(alloc), early), store(alloc, 2, 1))
}
