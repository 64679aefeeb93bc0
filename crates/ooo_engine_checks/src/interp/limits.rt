//! The statement limit.

use super::nodes::{Code, int, one_more, set};
use super::parts::{are_ints, locals};
use super::{is_over, limit_of, printed, run};
use ooo_code::NodeKind;
use std::alloc::Global;
use std::test::Fail;

// A loop without end, of one statement.
fn looping(alloc: Global) -> Code {
    Code::new(alloc)
        .passed(Ok(NodeKind::Goto), 1)
        .counted(set(0, one_more(alloc, 0)), 3, 0)
}

#[test]
fn a_loop_meets_the_limit_at_its_statement(rt: HostRuntime) -> Result<(), Fail> {
    let alloc = rt.alloc();
    for (statements, count) in [(0, 0), (1, 1), (2, 2), (1_000, 1_000)] {
        let ran = run(locals(alloc, &[0]), looping(alloc), statements)?;
        assert_eq!(rt; limit_of(&ran.end), Some(3));
        assert!(rt; are_ints(&ran.slots, &[count]));
    }
    Ok(())
}

// A loop of a test and two statements, each on a line of its own.
fn turning(alloc: Global) -> Code {
    Code::new(alloc)
        .counted(Ok(NodeKind::Test(int(1), 3)), 1, 1)
        .counted(set(0, one_more(alloc, 0)), 2, 2)
        .says("x", 3, 0)
        .ends()
}

#[test]
fn the_limit_falls_on_each_statement_of_a_loop(rt: HostRuntime) -> Result<(), Fail> {
    let alloc = rt.alloc();
    for (statements, line, count, text) in [
        (6, 1, 2, "xx"),
        (7, 2, 2, "xx"),
        (8, 3, 3, "xx"),
        (9, 1, 3, "xxx"),
    ] {
        let ran = run(locals(alloc, &[0]), turning(alloc), statements)?;
        assert_eq!(rt; limit_of(&ran.end), Some(line));
        assert!(rt; are_ints(&ran.slots, &[count]));
        assert!(rt; printed(&ran.output, text));
    }
    Ok(())
}

fn two_statements(alloc: Global) -> Code {
    Code::new(alloc)
        .counted(set(0, Ok(int(5))), 1, 1)
        .counted(set(0, Ok(int(6))), 2, 2)
        .ends()
}

#[test]
fn as_many_statements_as_the_limit_are_done(rt: HostRuntime) -> Result<(), Fail> {
    let alloc = rt.alloc();
    for (statements, line) in [(0, Some(1)), (1, Some(2)), (2, None), (3, None)] {
        let ran = run(locals(alloc, &[0]), two_statements(alloc), statements)?;
        assert_eq!(rt; limit_of(&ran.end), line);
        assert_eq!(rt; is_over(&ran.end), line.is_none());
    }
    Ok(())
}
