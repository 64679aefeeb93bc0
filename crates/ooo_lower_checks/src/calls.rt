//! Calls.

use crate::making::{
    Made, binary, empty, gives, int, local, no_functions, only_if, returns, set, told_thread, with,
    with_function,
};
use ooo_bound::{BoundExpr, BoundFunction, BoundRight, BoundStat, BoundTarget};
use ooo_value::{Kind, Op};
use sqlite_items::Items;
use std::alloc::{AllocError, Global};
use std::test::Fail;

// A call of one argument.
fn call(
    alloc: Global,
    line: u32,
    into: BoundTarget,
    function: u32,
    argument: BoundExpr,
) -> Made<BoundStat> {
    match arguments(alloc, argument) {
        Ok(arguments) => gives(alloc, line, into, BoundRight::Call(function, arguments)),
        Err(_) => Err(AllocError),
    }
}

// One argument.
fn arguments(alloc: Global, argument: BoundExpr) -> Made<Items<BoundExpr>> {
    let mut arguments = Items::new(alloc);
    arguments.push(argument)?;
    Ok(arguments)
}

// A function.
fn function(
    alloc: Global,
    kind: Option<Kind>,
    params: &[Kind],
    body: Made<Items<BoundStat>>,
) -> Made<BoundFunction> {
    match (Items::from_slice(alloc, params), body) {
        (Ok(params), Ok(body)) => Ok(BoundFunction {
            result: kind,
            params,
            body,
        }),
        _ => Err(AllocError),
    }
}

static RESULT: &str = "thread starts [0] from 0 to 12 [b i u l ul b i u l ul l b b i]
0: goto; line 1 counted; next 1
1: $10 := 0l; line 1; next 2
2: $11 := 0b; line 1; next 3
3: $12 := 0b; line 1; next 4
4: $13 := 0i; line 1; next 5
5: $13 := (i (+ v0 1i)); line 1; next 6
6: $12 := (b s1); line 1; next 7
7: test $12 else 9; line 10 counted; next 8
8: $10 := (l $13); line 10 counted; next 10
9: $10 := 3l; line 11 counted; next 10
10: v0 := (i $10); line 1; next 11
11: end; line 0; next 11
";

// Two arguments: a variable and 1, and a signal.
fn sum_and_signal(alloc: Global) -> Made<Items<BoundExpr>> {
    let sum = binary(alloc, Op::Add, BoundExpr::Variable(0), int(1))?;
    let mut all = arguments(alloc, sum)?;
    all.push(BoundExpr::Signal(1))?;
    Ok(all)
}

// A call with two arguments and a result, of a function that returns from two places.
#[test]
fn a_result(rt: HostRuntime) -> Result<(), Fail> {
    let alloc = rt.alloc();
    let right = BoundRight::Call(0, sum_and_signal(alloc)?);
    let body = with(
        empty(alloc),
        gives(alloc, 1, BoundTarget::Variable(0), right),
    );
    let functions = with_function(no_functions(alloc), first_or_three(alloc));
    let text = told_thread(alloc, body, functions)?;
    assert!(rt; text.as_slice() == RESULT.as_bytes());
    Ok(())
}

// Its first argument, an int, where the second is true, and else 3, as a long long.
fn first_or_three(alloc: Global) -> Made<BoundFunction> {
    let second = BoundExpr::Local(Kind::Bool, 1);
    let first = only_if(alloc, 10, second, returns(alloc, 10, local(0)));
    let body = with(with(empty(alloc), first), returns(alloc, 11, int(3)));
    function(alloc, Some(Kind::Long), &[Kind::Int, Kind::Bool], body)
}

static VOID: &str = "thread starts [0] from 0 to 12 [b i u l ul b i u l ul i u]
0: $10 := 1i; line 1 counted; next 1
1: goto; line 2 counted; next 2
2: $11 := 0u; line 2; next 3
3: $11 := 4294967295u; line 2; next 4
4: test $11 else 6; line 10 counted; next 5
5: goto; line 10 counted; next 7
6: v0 := (i $11); line 11 counted; next 7
7: goto; line 2; next 8
8: test v0 else 10; line 3 counted; next 9
9: goto; line 3 counted; next 11
10: $10 := 2i; line 4 counted; next 11
11: end; line 0; next 11
";

// A call of a function of void that returns early, with -1 for its unsigned parameter, and a process that returns early.
#[test]
fn a_void_function(rt: HostRuntime) -> Result<(), Fail> {
    let alloc = rt.alloc();
    let early = only_if(
        alloc,
        3,
        BoundExpr::Variable(0),
        Ok(BoundStat::Return(3, None)),
    );
    let body = with(
        empty(alloc),
        set(alloc, 1, BoundTarget::Local(Kind::Int, 0), int(1)),
    );
    let body = with(body, call(alloc, 2, BoundTarget::Nothing, 0, int(-1)));
    let body = with(body, early);
    let body = with(
        body,
        set(alloc, 4, BoundTarget::Local(Kind::Int, 0), int(2)),
    );
    let functions = with_function(no_functions(alloc), unless_zero(alloc));
    let text = told_thread(alloc, body, functions)?;
    assert!(rt; text.as_slice() == VOID.as_bytes());
    Ok(())
}

// Returns where its argument isn't 0, and else puts it into variable 0.
fn unless_zero(alloc: Global) -> Made<BoundFunction> {
    let argument = BoundExpr::Local(Kind::Uint, 0);
    let early = only_if(alloc, 10, argument, Ok(BoundStat::Return(10, None)));
    let argument = BoundExpr::Local(Kind::Uint, 0);
    let last = set(alloc, 11, BoundTarget::Variable(0), argument);
    function(
        alloc,
        None,
        &[Kind::Uint],
        with(with(empty(alloc), early), last),
    )
}

static NESTED: &str = "thread starts [0] from 0 to 20 [b i u l ul b i u l ul i i i i i i i]
0: goto; line 1 counted; next 1
1: $10 := 0i; line 1; next 2
2: $11 := 0i; line 1; next 3
3: $12 := 0i; line 1; next 4
4: $11 := 7i; line 1; next 5
5: goto; line 10 counted; next 6
6: $13 := 0i; line 10; next 7
7: $14 := 0i; line 10; next 8
8: $14 := (i $11); line 10; next 9
9: $13 := (i (+ $14 1i)); line 20 counted; next 10
10: $12 := (i $13); line 10; next 11
11: $10 := (i $12); line 11 counted; next 12
12: v0 := (i $10); line 1; next 13
13: goto; line 2 counted; next 14
14: $15 := 0i; line 2; next 15
15: $16 := 0i; line 2; next 16
16: $16 := 8i; line 2; next 17
17: $15 := (i (+ $16 1i)); line 20 counted; next 18
18: v0 := (i $15); line 2; next 19
19: end; line 0; next 19
";

// A function that calls another, which is called by the process too: each call has slots of its own.
#[test]
fn nested_calls(rt: HostRuntime) -> Result<(), Fail> {
    let alloc = rt.alloc();
    let first = call(alloc, 1, BoundTarget::Variable(0), 0, int(7));
    let second = call(alloc, 2, BoundTarget::Variable(0), 1, int(8));
    let functions = with_function(no_functions(alloc), passes_on(alloc));
    let functions = with_function(functions, one_more(alloc));
    let text = told_thread(alloc, with(with(empty(alloc), first), second), functions)?;
    assert!(rt; text.as_slice() == NESTED.as_bytes());
    Ok(())
}

// What function 1 gives of its argument.
fn passes_on(alloc: Global) -> Made<BoundFunction> {
    let into = BoundTarget::Local(Kind::Int, 1);
    let body = with(empty(alloc), call(alloc, 10, into, 1, local(0)));
    let body = with(body, returns(alloc, 11, local(1)));
    function(alloc, Some(Kind::Int), &[Kind::Int], body)
}

// Its argument and one more.
fn one_more(alloc: Global) -> Made<BoundFunction> {
    let sum = binary(alloc, Op::Add, local(0), int(1))?;
    let body = with(empty(alloc), returns(alloc, 20, sum));
    function(alloc, Some(Kind::Int), &[Kind::Int], body)
}
