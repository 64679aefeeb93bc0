//! Statements of fifos.

use crate::making::{empty, gives, local, no_functions, simple, told_thread, with};
use ooo_bound::{BoundExpr, BoundRight, BoundSimple, BoundTarget};
use ooo_value::{Kind, Value};
use std::test::Fail;

static BLOCKING: &str = "thread starts [0] from 0 to 13 [b i u l ul b i u l ul]
0: available 0 else 1; line 1 counted; next 2
1: wait - [1]; line 1; next 0
2: $3 := take 0; line 1; next 3
3: v1[v0] := (l $3); line 1; next 4
4: $3 := (l v0); line 2; next 5
5: free 0 else 6; line 2 counted; next 7
6: wait - [2]; line 2; next 5
7: put 0 $3; line 2; next 8
8: available 0 else 9; line 3 counted; next 10
9: wait - [1]; line 3; next 8
10: $3 := take 0; line 3; next 11
11: test $3 else 12; line 3; next 12
12: end; line 0; next 12
";

// A read into an element, a write, and a read whose value is dropped. Each is counted again after it waited.
#[test]
fn blocking(rt: HostRuntime) -> Result<(), Fail> {
    let alloc = rt.alloc();
    let body = empty(alloc);
    let element = BoundTarget::Element(1, BoundExpr::Variable(0));
    let body = with(body, gives(alloc, 1, element, BoundRight::Read(0)));
    let body = with(
        body,
        simple(alloc, 2, BoundSimple::Write(0, BoundExpr::Variable(0))),
    );
    let body = with(
        body,
        gives(alloc, 3, BoundTarget::Nothing, BoundRight::Read(0)),
    );
    let text = told_thread(alloc, body, no_functions(alloc))?;
    assert!(rt; text.as_slice() == BLOCKING.as_bytes());
    Ok(())
}

static NB_READS: &str = "thread starts [0] from 0 to 19 [b i u l ul b i u l ul b i i]
0: goto; line 1 counted; next 1
1: available 0 else 5; line 1; next 2
2: $3 := take 0; line 1; next 3
3: $12 := (i $3); line 1; next 4
4: $10 := 1b; line 1; next 6
5: $10 := 0b; line 1; next 6
6: $6 := $12; line 2 counted; next 7
7: available 0 else 11; line 2; next 8
8: $3 := take 0; line 2; next 9
9: v1[$6] := (l $3); line 2; next 10
10: v0 := 1i; line 2; next 12
11: v0 := 0i; line 2; next 12
12: goto; line 3 counted; next 13
13: available 0 else 17; line 3; next 14
14: $3 := take 0; line 3; next 15
15: v0 := (i $3); line 3; next 16
16: test 1b else 18; line 3; next 18
17: test 0b else 18; line 3; next 18
18: end; line 0; next 18
";

// `nb_read` into a local, an element and a variable; what it gives goes into a local and a variable, and is dropped.
#[test]
fn nb_reads(rt: HostRuntime) -> Result<(), Fail> {
    let alloc = rt.alloc();
    let body = empty(alloc);
    let into = BoundRight::NbRead(0, BoundTarget::Local(Kind::Int, 1));
    let body = with(
        body,
        gives(alloc, 1, BoundTarget::Local(Kind::Bool, 0), into),
    );
    let into = BoundRight::NbRead(0, BoundTarget::Element(1, local(1)));
    let body = with(body, gives(alloc, 2, BoundTarget::Variable(0), into));
    let into = BoundRight::NbRead(0, BoundTarget::Variable(0));
    let body = with(body, gives(alloc, 3, BoundTarget::Nothing, into));
    let text = told_thread(alloc, body, no_functions(alloc))?;
    assert!(rt; text.as_slice() == NB_READS.as_bytes());
    Ok(())
}

static NB_WRITES: &str = "thread starts [0] from 0 to 11 [b i u l ul b i u l ul]
0: $3 := (l v0); line 1 counted; next 1
1: free 0 else 4; line 1; next 2
2: put 0 $3; line 1; next 3
3: s1 := 1b; line 1; next 5
4: s1 := 0b; line 1; next 5
5: $3 := 9l; line 2 counted; next 6
6: free 0 else 9; line 2; next 7
7: put 0 $3; line 2; next 8
8: test 1b else 10; line 2; next 10
9: test 0b else 10; line 2; next 10
10: end; line 0; next 10
";

// `nb_write`; what it gives goes to a signal, and is dropped.
#[test]
fn nb_writes(rt: HostRuntime) -> Result<(), Fail> {
    let alloc = rt.alloc();
    let body = empty(alloc);
    let puts = BoundRight::NbWrite(0, BoundExpr::Variable(0));
    let body = with(body, gives(alloc, 1, BoundTarget::Signal(1), puts));
    let nine = BoundExpr::Constant(Value::Int(9));
    let puts = BoundRight::NbWrite(0, nine);
    let body = with(body, gives(alloc, 2, BoundTarget::Nothing, puts));
    let text = told_thread(alloc, body, no_functions(alloc))?;
    assert!(rt; text.as_slice() == NB_WRITES.as_bytes());
    Ok(())
}
