//! Statements without statements in them.

use crate::making::{binary, empty, int, local, no_functions, set, told_thread, with};
use ooo_bound::{BoundExpr, BoundTarget};
use ooo_value::{Kind, Op, Value};
use std::test::Fail;

static ASSIGNMENTS: &str = "thread starts [0] from 0 to 6 [b i u l ul b i u l ul i l l]
0: $10 := 5i; line 1 counted; next 1
1: $12 := (l $10); line 2 counted; next 2
2: v0 := 7i; line 3 counted; next 3
3: v1[$10] := (l (+ v0 1i)); line 4 counted; next 4
4: s1 := (b v0); line 5 counted; next 5
5: end; line 0; next 5
";

// A value is put into a local of each of two kinds, a variable, an element and a signal. A constant is converted at once.
#[test]
fn assignments(rt: HostRuntime) -> Result<(), Fail> {
    let alloc = rt.alloc();
    let more = binary(alloc, Op::Add, BoundExpr::Variable(0), int(1))?;
    let seven = BoundExpr::Constant(Value::Uint(7));
    let body = empty(alloc);
    let body = with(
        body,
        set(alloc, 1, BoundTarget::Local(Kind::Int, 0), int(5)),
    );
    let body = with(
        body,
        set(alloc, 2, BoundTarget::Local(Kind::Long, 1), local(0)),
    );
    let body = with(body, set(alloc, 3, BoundTarget::Variable(0), seven));
    let body = with(body, set(alloc, 4, BoundTarget::Element(1, local(0)), more));
    let body = with(
        body,
        set(alloc, 5, BoundTarget::Signal(1), BoundExpr::Variable(0)),
    );
    let text = told_thread(alloc, body, no_functions(alloc))?;
    assert!(rt; text.as_slice() == ASSIGNMENTS.as_bytes());
    Ok(())
}
