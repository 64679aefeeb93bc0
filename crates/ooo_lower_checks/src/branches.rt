//! Branches.

use crate::making::{
    Made, boxed, empty, inner, int, no_functions, nothing, only_if, pair, set, store, told_thread,
    with,
};
use ooo_bound::{BoundExpr, BoundStat, BoundTarget};
use ooo_value::Kind;
use std::alloc::{AllocError, Global};
use std::test::Fail;

// One of two.
fn one_of(
    alloc: Global,
    line: u32,
    test: BoundExpr,
    yes: Made<BoundStat>,
    no: Made<BoundStat>,
) -> Made<BoundStat> {
    match (boxed(alloc, test), inner(alloc, yes), inner(alloc, no)) {
        (Ok(test), Ok(yes), Ok(no)) => Ok(BoundStat::If(line, test, yes, Some(no))),
        _ => Err(AllocError),
    }
}

static BRANCHES: &str = "thread starts [0] from 0 to 8 [b i u l ul b i u l ul b]
0: test v0 else 2; line 1 counted; next 1
1: v0 := 1i; line 2 counted; next 4
2: v0 := 2i; line 3 counted; next 3
3: v0 := 3i; line 4 counted; next 4
4: test s1 else 6; line 5 counted; next 5
5: $10 := 1b; line 6 counted; next 6
6: test v0 else 7; line 7 counted; next 7
7: end; line 0; next 7
";

// An `if` with a second branch, one without, and one with two empty branches.
#[test]
fn branches(rt: HostRuntime) -> Result<(), Fail> {
    let alloc = rt.alloc();
    let no = pair(alloc, store(alloc, 3, 2), store(alloc, 4, 3));
    let first = one_of(alloc, 1, BoundExpr::Variable(0), store(alloc, 2, 1), no);
    let yes = set(alloc, 6, BoundTarget::Local(Kind::Bool, 0), int(1));
    let second = only_if(alloc, 5, BoundExpr::Signal(1), yes);
    let third = one_of(
        alloc,
        7,
        BoundExpr::Variable(0),
        nothing(alloc),
        nothing(alloc),
    );
    let body = with(with(with(empty(alloc), first), second), third);
    let text = told_thread(alloc, body, no_functions(alloc))?;
    assert!(rt; text.as_slice() == BRANCHES.as_bytes());
    Ok(())
}
