//! `a op= b`.

use crate::making::{Made, boxed, empty, int, local, no_functions, simple, told_thread, with};
use ooo_bound::{BoundExpr, BoundSimple, BoundStat, BoundTarget};
use ooo_value::{Kind, Op, Value};
use std::alloc::Global;
use std::test::Fail;

fn update(
    alloc: Global,
    line: u32,
    target: BoundTarget,
    op: Op,
    value: BoundExpr,
) -> Made<BoundStat> {
    simple(alloc, line, BoundSimple::Update(target, op, value))
}

static UPDATES: &str = "thread starts [0] from 0 to 9 [b i u l ul b i u l ul i]
0: $1 := v0; line 1 counted; next 1
1: $6 := $10; line 1; next 2
2: v1[$6] := (l (+ v1[$6] $1)); line 1; next 3
3: $10 := (i (- $10 1i)); line 2 counted; next 4
4: v0 := (i (* v0 2l)); line 3 counted; next 5
5: $3 := v1[0i]; line 4 counted; next 6
6: $7 := 2u; line 4; next 7
7: v1[$7] := (l (<< v1[$7] $3)); line 4; next 8
8: end; line 0; next 8
";

// Of an element the value and then the index are kept, each in the slot of its kind; of a local and a variable neither is.
#[test]
fn updates(rt: HostRuntime) -> Result<(), Fail> {
    let alloc = rt.alloc();
    let first = BoundExpr::Element(1, boxed(alloc, int(0))?);
    let element = BoundTarget::Element(1, local(0));
    let body = with(
        empty(alloc),
        update(alloc, 1, element, Op::Add, BoundExpr::Variable(0)),
    );
    let counter = BoundTarget::Local(Kind::Int, 0);
    let body = with(body, update(alloc, 2, counter, Op::Subtract, int(1)));
    let two = BoundExpr::Constant(Value::Long(2));
    let body = with(
        body,
        update(alloc, 3, BoundTarget::Variable(0), Op::Multiply, two),
    );
    let third = BoundTarget::Element(1, BoundExpr::Constant(Value::Uint(2)));
    let body = with(body, update(alloc, 4, third, Op::ShiftLeft, first));
    let text = told_thread(alloc, body, no_functions(alloc))?;
    assert!(rt; text.as_slice() == UPDATES.as_bytes());
    Ok(())
}
