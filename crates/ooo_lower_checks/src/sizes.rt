//! The size of the code of a model.

use crate::making::{
    Made, empty, gives, model, no_functions, simple, thread, with, with_function, with_process,
};
use ooo_bound::{BoundFunction, BoundRight, BoundSimple, BoundStat, BoundTarget};
use ooo_code::Design;
use ooo_lower::{LowerError, lower};
use sqlite_items::Items;
use std::alloc::Global;
use std::test::Fail;

// Calls of a function without arguments, so many.
fn calls(alloc: Global, count: u32, function: u32) -> Made<Items<BoundStat>> {
    let mut body = empty(alloc);
    for _ in 0..count {
        let right = BoundRight::Call(function, Items::new(alloc));
        body = with(body, gives(alloc, 1, BoundTarget::Nothing, right));
    }
    body
}

// A body, and so many statements more that count one each.
fn cancels(alloc: Global, count: u32, body: Made<Items<BoundStat>>) -> Made<Items<BoundStat>> {
    let mut all = body;
    for _ in 0..count {
        all = with(all, simple(alloc, 2, BoundSimple::Cancel(0)));
    }
    all
}

// A function of void without parameters.
fn function(alloc: Global, body: Made<Items<BoundStat>>) -> Made<BoundFunction> {
    Ok(BoundFunction {
        result: None,
        params: Items::new(alloc),
        body: body?,
    })
}

// How many nodes there are in the code of a model of one thread.
fn nodes(
    alloc: Global,
    body: Made<Items<BoundStat>>,
    functions: Made<Items<BoundFunction>>,
) -> Result<usize, LowerError> {
    let processes = with_process(Ok(Items::new(alloc)), thread(alloc, body));
    let model = model(alloc, processes, functions)?;
    let design = lower(alloc, &model);
    drop(model);
    length(design)
}

// How many nodes a design has.
fn length(design: Result<Design, LowerError>) -> Result<usize, LowerError> {
    Ok(design?.nodes.len())
}

// A thread that calls a function of 254 statements 257 times, and so many statements more. A call counts 1 and 254, and the
// process 1, so this is 65,536 and those statements.
fn called_often(alloc: Global, more: u32) -> Result<usize, LowerError> {
    let called = function(alloc, cancels(alloc, 254, empty(alloc)));
    let body = cancels(alloc, more, calls(alloc, 257, 0));
    nodes(alloc, body, with_function(no_functions(alloc), called))
}

// A call has a node before the body and one behind it, and the process its end: 257 * 256 + 1.
#[test]
fn the_greatest_size(rt: HostRuntime) -> Result<(), Fail> {
    assert_eq!(rt; called_often(rt.alloc(), 0), Ok(65_793));
    Ok(())
}

#[test]
fn one_more_than_the_greatest_size(rt: HostRuntime) -> Result<(), Fail> {
    assert_eq!(rt; called_often(rt.alloc(), 1), Err(LowerError::CodeTooLarge));
    Ok(())
}

// Seventy functions, of which each but the last calls the next twice: the size of the first is above 2^70.
fn tree(alloc: Global) -> Result<usize, LowerError> {
    let mut functions = no_functions(alloc);
    for next in 1..70 {
        functions = with_function(functions, function(alloc, calls(alloc, 2, next)));
    }
    let last = function(alloc, cancels(alloc, 1, empty(alloc)));
    nodes(alloc, calls(alloc, 1, 0), with_function(functions, last))
}

#[test]
fn a_tree_of_calls(rt: HostRuntime) -> Result<(), Fail> {
    assert_eq!(rt; tree(rt.alloc()), Err(LowerError::CodeTooLarge));
    Ok(())
}

// A body in a block.
fn in_block(alloc: Global, body: Made<Items<BoundStat>>) -> Made<Items<BoundStat>> {
    with(empty(alloc), Ok(BoundStat::Block(body?)))
}

// A body in so many blocks, one in the other.
fn in_blocks(alloc: Global, count: u32, body: Made<Items<BoundStat>>) -> Made<Items<BoundStat>> {
    let mut whole = body;
    for _ in 0..count {
        whole = in_block(alloc, whole);
    }
    whole
}

// Functions up to this number, of which the first does nothing, and each other one calls the one before it, in so many
// blocks; and a thread that calls the last one.
fn chain(alloc: Global, last: u32, blocks: u32) -> Result<usize, LowerError> {
    let mut functions = with_function(no_functions(alloc), function(alloc, empty(alloc)));
    for before in 0..last {
        let body = in_blocks(alloc, blocks, calls(alloc, 1, before));
        functions = with_function(functions, function(alloc, body));
    }
    nodes(alloc, calls(alloc, 1, last), functions)
}

// Each call has two nodes, and the process its end.
#[test]
fn chains_of_calls(rt: HostRuntime) -> Result<(), Fail> {
    assert_eq!(rt; chain(rt.alloc(), 2, 2), Ok(7));
    assert_eq!(rt; chain(rt.alloc(), 104, 60), Ok(211));
    Ok(())
}

// The recursion of the program goes by the nesting of blocks, and not by the length of a chain.
#[test]
fn long_chains_of_calls(rt: HostRuntime) -> Result<(), Fail> {
    assert_eq!(rt; chain(rt.alloc(), 3_999, 0), Ok(8_001));
    assert_eq!(rt; chain(rt.alloc(), 499, 60), Ok(1_001));
    Ok(())
}
