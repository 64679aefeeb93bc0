//! The most segments that a design may have.

ghost use Rattle.std.specs.Prelude.{◌<◌};

use crate::closed::are_closed;
use crate::sketch::{Sketch, Step, design_of, thread};
use ooo_code::Design;
use ooo_segments::{GraphError, graph_of_closed};
use std::alloc::{AllocError, Global};
use std::process::Abort;
use std::test::Fail;

// A thread of so many waits, one after another.
fn waits(alloc: Global, count: u32) -> Result<Design, AllocError>
    requires { count < 2000 }
{
    let mut nodes = Vec::new(alloc);
    for n in 0..count {
        nodes.push(Step::Wait(1, n + 1))?;
    }
    nodes.push(Step::End)?;
    let sketch = Sketch {
        nodes: nodes.as_slice(),
        processes: &[thread(0, count + 1)],
        channels: &[],
        events: &[],
    };
    design_of(alloc, sketch)
}

// How many segments a thread of so many waits has, unless they are too many.
fn segments(rt: &impl Abort, alloc: Global, count: u32) -> Result<Option<usize>, Fail>
    requires { count < 2000 }
{
    let design = waits(alloc, count)?;
    assert!(rt; are_closed(&design));
    let graph = graph_of_closed(alloc, &design);
    drop(design);
    match graph {
        Ok(graph) => Ok(Some(graph.segments.len())),
        Err(GraphError::TooManySegments) => Ok(None),
        Err(error) => Err(Fail::from(error)),
    }
}

#[test]
fn a_design_may_have_1024_segments(rt: HostRuntime) -> Result<(), Fail> {
    let alloc = rt.alloc();
    assert_eq!(rt; segments(&rt, alloc, 1023)?, Some(1024));
    assert_eq!(rt; segments(&rt, alloc, 1024)?, None);
    Ok(())
}
