//! Tables of calls, worked by hand; all calls among a few functions; and many calls.
//!
//! The time rests on that the claim of the search is right: where it isn't, the answers take a time that grows with the
//! third power of the number of calls, which is days for a long row of them, and hours for all calls among a few functions
//! side by side.

use ooo_calls::{Call, Calls};
use std::alloc::{AllocError, Global};
use std::process::Abort;
use std::test::Fail;

// A call, and whether it lies on a cycle.
type Row = (usize, usize, bool);

// What is answered of some calls is what the rows say.
fn check(rt: &impl Abort, alloc: Global, rows: &[Row]) -> Result<(), Fail> {
    let mut calls = Vec::new(alloc);
    for (from, to, _) in rows {
        calls.push(Call {
            from: *from,
            to: *to,
        })?;
    }
    let answers = Calls::make(alloc, calls.as_slice())?;
    for (i, row) in rows.iter().enumerate() {
        assert_eq!(rt; answers.is_on_cycle(i), Some(row.2), "call {i}");
    }
    assert_eq!(rt; answers.is_on_cycle(rows.len()), None);
    Ok(())
}

#[test]
fn no_call_has_no_answer(rt: HostRuntime) -> Result<(), Fail> {
    check(&rt, rt.alloc(), &[])
}

#[test]
fn a_function_that_calls_itself(rt: HostRuntime) -> Result<(), Fail> {
    check(
        &rt,
        rt.alloc(),
        &[(3, 3, true), (3, 4, false), (0, 3, false)],
    )
}

#[test]
fn a_cycle_of_two(rt: HostRuntime) -> Result<(), Fail> {
    check(&rt, rt.alloc(), &[(1000, 7, true), (7, 1000, true)])
}

#[test]
fn a_chain_and_a_rhombus(rt: HostRuntime) -> Result<(), Fail> {
    check(
        &rt,
        rt.alloc(),
        &[(0, 1, false), (1, 2, false), (2, 3, false)],
    )?;
    check(
        &rt,
        rt.alloc(),
        &[
            (0, 1, false),
            (0, 2, false),
            (1, 3, false),
            (2, 3, false),
            (3, 4, false),
        ],
    )
}

#[test]
fn a_bridge_between_cycles(rt: HostRuntime) -> Result<(), Fail> {
    check(
        &rt,
        rt.alloc(),
        &[
            (0, 1, true),
            (1, 0, true),
            (1, 2, false),
            (2, 3, true),
            (3, 2, true),
            (0, 3, false),
        ],
    )
}

#[test]
fn cycles_inside_of_cycles(rt: HostRuntime) -> Result<(), Fail> {
    check(
        &rt,
        rt.alloc(),
        &[
            (0, 1, true),
            (1, 2, true),
            (2, 1, true),
            (2, 3, true),
            (3, 0, true),
            (1, 1, true),
            (3, 4, false),
        ],
    )
}

#[test]
fn cycles_that_share_a_function(rt: HostRuntime) -> Result<(), Fail> {
    check(
        &rt,
        rt.alloc(),
        &[
            (0, 1, true),
            (1, 0, true),
            (0, 2, true),
            (2, 0, true),
            (0, 1, true),
            (2, 4, false),
        ],
    )
}

#[test]
fn calls_that_are_apart(rt: HostRuntime) -> Result<(), Fail> {
    check(
        &rt,
        rt.alloc(),
        &[
            (5, 9, false),
            (2, 3, true),
            (3, 2, true),
            (8, 8, true),
            (1, 0, false),
        ],
    )
}

#[test]
fn called_functions_are_told(rt: HostRuntime) -> Result<(), Fail> {
    let calls = [Call { from: 4, to: 2 }, Call { from: 2, to: 2 }];
    let answers = Calls::make(rt.alloc(), &calls)?;
    assert!(rt; answers.is_called(2));
    assert!(rt; !answers.is_called(4));
    assert!(rt; !answers.is_called(0));
    assert!(rt; !answers.is_called(usize::MAX));
    Ok(())
}

// All calls among some functions, each with itself too or not, of which the bits of a number choose some.
fn chosen(
    alloc: Global,
    functions: usize,
    with_itself: bool,
    choice: u32,
) -> Result<Vec<Call>, AllocError> {
    let mut calls = Vec::new(alloc);
    let mut left = choice;
    for from in 0..functions {
        for to in 0..functions {
            if with_itself || from != to {
                if left % 2 == 1 {
                    calls.push(Call { from, to })?;
                }
                left /= 2;
            }
        }
    }
    Ok(calls)
}

// Whether calls lead from a function to another one, or back to itself by none, found round by round.
fn leads(alloc: Global, calls: &[Call], from: usize, to: usize) -> Result<bool, AllocError> {
    let mut reached = Vec::new(alloc);
    reached.push(from)?;
    for _round in 0..calls.len() {
        for call in calls {
            if reached.contains(&call.from) && !reached.contains(&call.to) {
                reached.push(call.to)?;
            }
        }
    }
    Ok(reached.contains(&to))
}

#[test]
fn the_answers_are_right_among_few_functions(rt: HostRuntime) -> Result<(), Fail> {
    for choice in 0..512u32 {
        let calls = chosen(rt.alloc(), 3, true, choice)?;
        let answers = Calls::make(rt.alloc(), calls.as_slice())?;
        for (i, call) in calls.iter().enumerate() {
            let comes_back = leads(rt.alloc(), calls.as_slice(), call.to, call.from)?;
            assert_eq!(rt; answers.is_on_cycle(i), Some(comes_back), "choice {choice}");
        }
    }
    Ok(())
}

// Calls, and of each whether it lies on a cycle; all are among the functions below a number.
#[derive(Drop)]
struct Known {
    calls: Vec<Call>,
    on_cycle: Vec<bool>,
    functions: usize,
}

impl Known {
    fn new(alloc: Global) -> Known {
        Known {
            calls: Vec::new(alloc),
            on_cycle: Vec::new(alloc),
            functions: 0,
        }
    }

    // Adds calls among some functions of their own.
    fn add(&mut self, alloc: Global, functions: usize, calls: &[Call]) -> Result<(), AllocError> {
        for call in calls {
            self.on_cycle
                .push(leads(alloc, calls, call.to, call.from)?)?;
            self.calls.push(Call {
                from: self.functions.saturating_add(call.from),
                to: self.functions.saturating_add(call.to),
            })?;
        }
        self.functions = self.functions.saturating_add(functions);
        Ok(())
    }

    // Adds each choice of these calls.
    fn add_choices(
        &mut self,
        alloc: Global,
        functions: usize,
        with_itself: bool,
        choices: u32,
    ) -> Result<(), AllocError> {
        for choice in 0..choices {
            let calls = chosen(alloc, functions, with_itself, choice)?;
            self.add(alloc, functions, calls.as_slice())?;
        }
        Ok(())
    }
}

// The claim of the search is right of all calls together where it is right of each choice among its functions.
#[test]
fn the_search_is_right_among_few_functions(rt: HostRuntime) -> Result<(), Fail> {
    let mut known = Known::new(rt.alloc());
    known.add_choices(rt.alloc(), 3, true, 512)?;
    known.add_choices(rt.alloc(), 4, false, 4096)?;
    assert_eq!(rt; known.calls.len(), 26_880);
    let answers = Calls::make(rt.alloc(), known.calls.as_slice())?;
    for (i, comes_back) in known.on_cycle.iter().enumerate() {
        assert_eq!(rt; answers.is_on_cycle(i), Some(*comes_back), "call {i}");
    }
    Ok(())
}

// So many calls one after another.
fn chain(alloc: Global, count: usize) -> Result<Vec<Call>, AllocError> {
    let mut calls = Vec::new(alloc);
    for from in 0..count {
        let to = from.saturating_add(1);
        calls.push(Call { from, to })?;
    }
    Ok(calls)
}

#[test]
fn a_long_chain(rt: HostRuntime) -> Result<(), Fail> {
    let calls = chain(rt.alloc(), 60_000)?;
    let answers = Calls::make(rt.alloc(), calls.as_slice())?;
    for i in 0..60_000 {
        assert_eq!(rt; answers.is_on_cycle(i), Some(false), "call {i}");
    }
    Ok(())
}

#[test]
fn a_long_ring(rt: HostRuntime) -> Result<(), Fail> {
    let mut calls = chain(rt.alloc(), 60_000)?;
    calls.push(Call {
        from: 60_000,
        to: 0,
    })?;
    let answers = Calls::make(rt.alloc(), calls.as_slice())?;
    for i in 0..60_001 {
        assert_eq!(rt; answers.is_on_cycle(i), Some(true), "call {i}");
    }
    Ok(())
}

#[test]
fn the_greatest_numbers_take_too_much_memory(rt: HostRuntime) {
    let greatest = [Call {
        from: usize::MAX,
        to: 0,
    }];
    assert!(rt; Calls::make(rt.alloc(), &greatest).is_err());
    let next = [Call {
        from: 0,
        to: usize::MAX - 1,
    }];
    assert!(rt; Calls::make(rt.alloc(), &next).is_err());
}
