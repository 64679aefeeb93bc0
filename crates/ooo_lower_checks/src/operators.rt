//! Expressions: operators that are laid out otherwise than they stand, and what is asked of a channel.

use crate::making::{Made, boxed, empty, int, no_functions, set, told_thread, with};
use ooo_bound::{BoundExpr, BoundStat, BoundTarget};
use ooo_value::Kind;
use std::alloc::{AllocError, Global};
use std::test::Fail;

static OPERATORS: &str = "thread starts [0] from 0 to 5 [b i u l ul b i u l ul]
0: v0 := (i (<< s1 0i)); line 1 counted; next 1
1: v0 := (i (? s1 (l v0) (l 1i))); line 2 counted; next 2
2: v0 := (i (&& changed 1 rise 1)); line 3 counted; next 3
3: v0 := (i (|| fall 1 (! free 0))); line 4 counted; next 4
4: end; line 0; next 4
";

// Variable 0 gets a value.
fn kept(alloc: Global, line: u32, value: Made<BoundExpr>) -> Made<BoundStat> {
    set(alloc, line, BoundTarget::Variable(0), value?)
}

// `+` of a signal.
fn promoted(alloc: Global) -> Made<BoundExpr> {
    Ok(BoundExpr::Promote(boxed(alloc, BoundExpr::Signal(1))?))
}

// A variable or 1, by a signal.
fn chosen(alloc: Global) -> Made<BoundExpr> {
    let test = boxed(alloc, BoundExpr::Signal(1));
    let yes = boxed(alloc, BoundExpr::Variable(0));
    match (test, yes, boxed(alloc, int(1))) {
        (Ok(test), Ok(yes), Ok(no)) => Ok(BoundExpr::Choose(Kind::Long, test, yes, no)),
        _ => Err(AllocError),
    }
}

// Whether a signal changed, and rose.
fn rose(alloc: Global) -> Made<BoundExpr> {
    let changed = boxed(alloc, BoundExpr::Changed(1));
    match (changed, boxed(alloc, BoundExpr::Edge(1, true))) {
        (Ok(changed), Ok(rose)) => Ok(BoundExpr::Both(changed, rose)),
        _ => Err(AllocError),
    }
}

// Whether a signal fell, or a fifo is full.
fn fell_or_full(alloc: Global) -> Made<BoundExpr> {
    let free = boxed(alloc, BoundExpr::Free(0))?;
    let full = boxed(alloc, BoundExpr::Not(free));
    match (boxed(alloc, BoundExpr::Edge(1, false)), full) {
        (Ok(fell), Ok(full)) => Ok(BoundExpr::Either(fell, full)),
        _ => Err(AllocError),
    }
}

// The value of `+` is shifted by 0, and both branches of `? :` are converted, constants too.
#[test]
fn operators(rt: HostRuntime) -> Result<(), Fail> {
    let alloc = rt.alloc();
    let body = with(empty(alloc), kept(alloc, 1, promoted(alloc)));
    let body = with(body, kept(alloc, 2, chosen(alloc)));
    let body = with(body, kept(alloc, 3, rose(alloc)));
    let body = with(body, kept(alloc, 4, fell_or_full(alloc)));
    let text = told_thread(alloc, body, no_functions(alloc))?;
    assert!(rt; text.as_slice() == OPERATORS.as_bytes());
    Ok(())
}
