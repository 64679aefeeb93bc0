//! The text of the tables of two whole designs, each worked out by hand.

ghost use Rattle.std.specs.Prelude.{◌≤◌};

use crate::closed::are_closed;
use crate::sketch::{FIFO, SIGNAL, Sketch, Step, design_on_lines, thread};
use ooo_code::Design;
use ooo_tables::{Tables, law, text};
use ooo_value::{BoundEvent, Name};
use std::alloc::{AllocError, Global};
use std::process::Abort;
use std::test::Fail;

// A name for each of these.
fn named(alloc: Global, names: &[&str]) -> Result<Vec<Name>, AllocError> {
    let mut all = Vec::new(alloc);
    for name in names {
        all.push(Name::new(alloc, name)?)?;
    }
    Ok(all)
}

// The text of a design's tables is the one that is wanted.
fn is_written(
    rt: &impl Abort,
    alloc: Global,
    sketch: Sketch,
    lines: &[u32],
    names: &[&str],
    wanted: &str,
) -> Result<(), Fail> {
    let design = design_on_lines(alloc, sketch, lines)?;
    let written = written(rt, alloc, &design, names);
    drop(design);
    assert!(rt; written?.as_slice() == wanted.as_bytes());
    Ok(())
}

// The text of a design's tables, by the names of its processes.
fn written(
    rt: &impl Abort,
    alloc: Global,
    design: &Design,
    names: &[&str],
) -> Result<Vec<u8>, Fail> {
    let names = named(alloc, names)?;
    assert!(rt; are_closed(design));
    assert!(rt; design.processes.len() <= names.len());
    match Tables::make_of_closed(alloc, design) {
        Ok(tables) => {
            let written = text(alloc, design, names.as_slice(), &tables);
            drop(tables);
            drop(names);
            Ok(written?)
        }
        Err(error) => {
            drop(names);
            Err(Fail::from(error))
        }
    }
}

static TWO_THREADS: &str = "segment 0 m.a start
segment 1 m.a 4
segment 2 m.b start
segment 3 m.b 5
segment 4 m.b 5
least 0 0 0 s 0
least 0 1 5 ns 0
least 1 1 0 s 0
least 2 2 0 s 0
least 2 3 3 ns 0
least 2 4 10 ns 0
least 3 3 0 s 0
least 3 4 7 ns 0
least 4 4 0 s 0
clash 1 3 same
clash 1 4 same
clash 3 1 same
clash 4 1 same
";

// A thread that waits for 5 ns and writes a variable, and one that waits for 3 ns, prints it, waits for 7 ns and prints it
// again.
#[test]
fn writes_the_tables_of_two_threads(rt: HostRuntime) -> Result<(), Fail> {
    let nodes = [
        Step::Wait(5_000, 1),
        Step::Store(0, 2),
        Step::End,
        Step::Wait(3_000, 4),
        Step::Print(0, 5),
        Step::Wait(7_000, 6),
        Step::Print(0, 7),
        Step::End,
    ];
    let sketch = Sketch {
        nodes: &nodes,
        processes: &[thread(0, 3), thread(3, 8)],
        channels: &[],
        events: &[],
    };
    let lines = [4, 4, 4, 5, 5, 5, 5, 5];
    is_written(
        &rt,
        rt.alloc(),
        sketch,
        &lines,
        &["m.a", "m.b"],
        TWO_THREADS,
    )
}

static A_FIFO_AND_A_CLOCK: &str = "segment 0 m.producer start
segment 1 m.producer 8
segment 2 m.producer 9
segment 3 m.consumer start
segment 4 m.consumer 14
segment 5 m.consumer 15
segment 6 m.clk start
segment 7 m.clk 21
least 0 0 0 s 0
least 0 1 0 s 1
least 0 2 2 ns 0
least 0 4 0 s 1
least 0 5 0 s 2
least 1 1 0 s 0
least 1 2 2 ns 0
least 1 4 0 s 1
least 1 5 0 s 2
least 2 1 0 s 1
least 2 2 0 s 0
least 2 4 0 s 1
least 2 5 0 s 2
least 3 1 0 s 1
least 3 2 2 ns 0
least 3 3 0 s 0
least 3 4 0 s 1
least 3 5 0 s 1
least 4 1 0 s 1
least 4 2 2 ns 0
least 4 4 0 s 0
least 4 5 0 s 1
least 5 1 0 s 1
least 5 2 2 ns 0
least 5 4 0 s 1
least 5 5 0 s 0
least 6 1 0 s 2
least 6 2 2 ns 0
least 6 4 0 s 2
least 6 5 0 s 1
least 6 6 0 s 0
least 6 7 5 ns 0
least 7 1 0 s 2
least 7 2 2 ns 0
least 7 4 0 s 2
least 7 5 0 s 1
least 7 7 0 s 0
clash 0 3 earlier
clash 0 4 earlier
clash 0 5 earlier
clash 1 3 earlier
clash 1 4 earlier
clash 1 5 earlier
clash 2 3 earlier
clash 2 4 earlier
clash 2 5 earlier
clash 3 0 earlier
clash 3 1 earlier
clash 3 2 earlier
clash 4 0 earlier
clash 4 1 earlier
clash 4 2 earlier
clash 5 0 earlier
clash 5 1 earlier
clash 5 2 earlier
clash 6 5 earlier
clash 7 5 earlier
";

// A thread that puts a value into a fifo every 2 ns, or waits on event 1 for a slot; one that takes a value, or waits on
// event 0 for one, and then waits on event 2 for a change of the signal; and one that writes the signal every 5 ns.
#[test]
fn writes_the_tables_of_a_fifo_and_a_clock(rt: HostRuntime) -> Result<(), Fail> {
    let nodes = [
        Step::TestFree(0, 2, 1),
        Step::WaitEvent(1, 0),
        Step::Put(0, 3),
        Step::Wait(2_000, 0),
        Step::TestAvailable(0, 6, 5),
        Step::WaitEvent(0, 4),
        Step::Take(0, 7),
        Step::WaitEvent(2, 4),
        Step::Write(1, 9),
        Step::Wait(5_000, 8),
    ];
    let sketch = Sketch {
        nodes: &nodes,
        processes: &[thread(0, 4), thread(4, 8), thread(8, 10)],
        channels: &[FIFO, SIGNAL],
        events: &[
            BoundEvent::Written(0),
            BoundEvent::Taken(0),
            BoundEvent::Changed(1),
        ],
    };
    let lines = [8, 8, 8, 9, 14, 14, 14, 15, 20, 21];
    let names = ["m.producer", "m.consumer", "m.clk"];
    is_written(&rt, rt.alloc(), sketch, &lines, &names, A_FIFO_AND_A_CLOCK)
}

#[test]
fn laws_hold() {
    law::one_tables();
}
