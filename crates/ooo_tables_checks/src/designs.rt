//! Small designs, drawn up node by node, each with its tables worked out by hand: the text before a test has those of the
//! design that the test draws up.

use crate::sketch::{FIFO, Part, SIGNAL, Sketch, Step, thread};
use crate::texts::told;
use ooo_value::{BoundEvent, ProcessKind};
use std::test::Fail;

static A_WAIT_IN_EACH_BRANCH: &str = "segment 0: process 0 start; nodes 0 1 3
segment 1: process 0 after 1; nodes 2 5 6
segment 2: process 0 after 3; nodes 4 5 6
access 0; reads 0
access 1; reads 1
access 2; reads 1; writes 1
edge 0 to 1: 5+0
edge 0 to 2: 7+0
clashes 0: ...
clashes 1: ..s
clashes 2: .ss
least 0: 0+0 5+0 7+0
least 1: - 0+0 -
least 2: - - 0+0
";

// A test, of which each way has a wait and then leads to the same end.
#[test]
fn a_wait_in_each_branch(rt: HostRuntime) -> Result<(), Fail> {
    let nodes = [
        Step::Test(1, 3),
        Step::Wait(5, 2),
        Step::Goto(5),
        Step::Wait(7, 4),
        Step::Store(1, 5),
        Step::Print(1, 6),
        Step::End,
    ];
    let sketch = Sketch {
        nodes: &nodes,
        processes: &[thread(0, 7)],
        channels: &[],
        events: &[],
    };
    let text = told(rt.alloc(), sketch)?;
    assert_eq!(rt; text.as_str(), A_WAIT_IN_EACH_BRANCH);
    Ok(())
}

static LOOPS_WITH_AND_WITHOUT_A_WAIT: &str = "segment 0: process 0 start; nodes 0 1
segment 1: process 0 after 1; nodes 0 1
segment 2: process 1 start; nodes 2 3 4 5
segment 3: process 1 after 5; nodes 6
access 0; writes 0
access 1; writes 0
access 2; reads 0; writes 1
access 3
edge 0 to 1: 5+0
edge 1 to 1: 5+0
edge 2 to 3: 3+0
clashes 0: sss.
clashes 1: sss.
clashes 2: sss.
clashes 3: ....
least 0: 0+0 5+0 - -
least 1: - 0+0 - -
least 2: - - 0+0 3+0
least 3: - - - 0+0
";

// A thread with a wait in its loop, and one that waits after a loop without one.
#[test]
fn loops_with_and_without_a_wait(rt: HostRuntime) -> Result<(), Fail> {
    let nodes = [
        Step::Store(0, 1),
        Step::Wait(5, 0),
        Step::Test(3, 5),
        Step::Store(1, 4),
        Step::Goto(2),
        Step::Wait(3, 6),
        Step::End,
    ];
    let sketch = Sketch {
        nodes: &nodes,
        processes: &[thread(0, 2), thread(2, 7)],
        channels: &[],
        events: &[],
    };
    let text = told(rt.alloc(), sketch)?;
    assert_eq!(rt; text.as_str(), LOOPS_WITH_AND_WITHOUT_A_WAIT);
    Ok(())
}

static A_METHOD_WITH_NEXT_TRIGGER: &str = "segment 0: process 0 start; nodes 0 1 2
segment 1: process 1 start; nodes 3 4
segment 2: process 2 start; nodes 5 6
access 0; writes 0; waits 0 1
access 1; notifies 1 in 5
access 2; waits 1; notifies 0
edge 0 to 0: 0+1
clashes 0: s..
clashes 1: ese
clashes 2: e.s
least 0: 0+0 - -
least 1: 5+0 0+0 5+0
least 2: 0+1 - 0+0
";

// A method of static sensitivity to event 0, whose next_trigger names event 1, which the first thread notifies after 5
// ticks. The second thread isn't initialized, waits on event 1, and notifies event 0.
#[test]
fn a_method_with_next_trigger(rt: HostRuntime) -> Result<(), Fail> {
    let nodes = [
        Step::Trigger(1, 1),
        Step::Store(0, 2),
        Step::End,
        Step::Notify(1, 5, 4),
        Step::End,
        Step::Notify(0, 0, 6),
        Step::End,
    ];
    let sketch = Sketch {
        nodes: &nodes,
        processes: &[
            Part {
                kind: ProcessKind::Method,
                first: 0,
                end: 3,
                sensitive: Some(0),
                initialize: true,
            },
            thread(3, 5),
            Part {
                kind: ProcessKind::Thread,
                first: 5,
                end: 7,
                sensitive: Some(1),
                initialize: false,
            },
        ],
        channels: &[],
        events: &[BoundEvent::Own, BoundEvent::Own],
    };
    let text = told(rt.alloc(), sketch)?;
    assert_eq!(rt; text.as_str(), A_METHOD_WITH_NEXT_TRIGGER);
    Ok(())
}

static NOTIFIED_IN_CONSTANT_AND_VARIABLE_TIME: &str = "segment 0: process 0 start; nodes 0 1
segment 1: process 0 after 1; nodes 2 3
segment 2: process 1 start; nodes 4
segment 3: process 1 after 4; nodes 4 5
segment 4: process 2 start; nodes 6 7 8 9
segment 5: process 3 start; nodes 10
segment 6: process 3 after 10; nodes 11
access 0; notifies 0 in 5
access 1; reads 0; notifies 0
access 2
access 3; waits 0
access 4; reads 0; notifies 1 1 in 5
access 5
access 6; waits 1
edge 0 to 1: 10+0
edge 2 to 3: 0+1
edge 3 to 3: 0+1
edge 5 to 6: 0+1
clashes 0: ss.e...
clashes 1: ss.e...
clashes 2: .......
clashes 3: .......
clashes 4: ....s.e
clashes 5: .......
clashes 6: .......
least 0: 0+0 10+0 - 5+0 - - -
least 1: - 0+0 - 0+1 - - -
least 2: - - 0+0 0+1 - - -
least 3: - - - 0+0 - - -
least 4: - - - - 0+0 - 0+1
least 5: - - - - - 0+0 0+1
least 6: - - - - - - 0+0
";

// The first thread notifies event 0 in 5 ticks, waits for 10 ticks, and notifies it in a variable time; the second waits
// on it again and again. The third notifies event 1 in 5 ticks or not, and then in a variable time; the fourth waits on it.
#[test]
fn notified_in_constant_and_variable_time(rt: HostRuntime) -> Result<(), Fail> {
    let nodes = [
        Step::Notify(0, 5, 1),
        Step::Wait(10, 2),
        Step::NotifyBy(0, 3),
        Step::End,
        Step::WaitEvent(0, 5),
        Step::PrintTime(4),
        Step::Test(7, 8),
        Step::Notify(1, 5, 8),
        Step::NotifyBy(1, 9),
        Step::End,
        Step::WaitEvent(1, 11),
        Step::End,
    ];
    let sketch = Sketch {
        nodes: &nodes,
        processes: &[thread(0, 4), thread(4, 6), thread(6, 10), thread(10, 12)],
        channels: &[],
        events: &[BoundEvent::Own, BoundEvent::Own],
    };
    let text = told(rt.alloc(), sketch)?;
    assert_eq!(rt; text.as_str(), NOTIFIED_IN_CONSTANT_AND_VARIABLE_TIME);
    Ok(())
}

static BOTH_ENDS_IN_ONE_PROCESS: &str = "segment 0: process 0 start; nodes 0 1 2 3 4 5 6
segment 1: process 0 after 2; nodes 0 1 2 3 4 5 6
segment 2: process 0 after 5; nodes 3 4 5 6
access 0; takes 0; puts 0; notifies 0 1
access 1; takes 0; puts 0; waits 1; notifies 0 1
access 2; takes 0; waits 0; notifies 1
edge 0 to 1: 0+1
edge 0 to 2: 0+1
edge 1 to 1: 0+1
edge 1 to 2: 0+1
edge 2 to 2: 0+1
clashes 0: eee
clashes 1: eee
clashes 2: ee.
least 0: 0+0 0+1 0+1
least 1: - 0+0 0+1
least 2: - 0+1 0+0
";

// A thread that puts into a fifo and takes out of it, by blocking calls. Event 0 is that a value was written, event 1 that
// one was read.
#[test]
fn both_ends_in_one_process(rt: HostRuntime) -> Result<(), Fail> {
    let nodes = [
        Step::TestFree(0, 1, 2),
        Step::Put(0, 3),
        Step::WaitEvent(1, 0),
        Step::TestAvailable(0, 4, 5),
        Step::Take(0, 6),
        Step::WaitEvent(0, 3),
        Step::End,
    ];
    let sketch = Sketch {
        nodes: &nodes,
        processes: &[thread(0, 7)],
        channels: &[FIFO],
        events: &[BoundEvent::Written(0), BoundEvent::Taken(0)],
    };
    let text = told(rt.alloc(), sketch)?;
    assert_eq!(rt; text.as_str(), BOTH_ENDS_IN_ONE_PROCESS);
    Ok(())
}

static A_FIFO_AND_A_SIGNAL_BETWEEN_PROCESSES: &str = "segment 0: process 0 start; nodes 0 1 2 3 4
segment 1: process 0 after 2; nodes 0 1 2 3 4
segment 2: process 1 start; nodes 5 6 7 8 9
segment 3: process 1 after 7; nodes 5 6 7 8 9
segment 4: process 1 after 9; nodes 10
segment 5: process 2 start; nodes 11
access 0; writes signals 1; puts 0; notifies 0 2 3 4
access 1; writes signals 1; puts 0; waits 1; notifies 0 2 3 4
access 2; reads signals 1; takes 0; notifies 1
access 3; reads signals 1; takes 0; waits 0; notifies 1
access 4; waits 3
access 5; waits 2
edge 0 to 1: 0+1
edge 1 to 1: 0+1
edge 2 to 3: 0+1
edge 2 to 4: 0+1
edge 3 to 3: 0+1
edge 3 to 4: 0+1
edge 5 to 5: 0+1
clashes 0: ..eeee
clashes 1: ..eeee
clashes 2: ee....
clashes 3: ee....
clashes 4: ......
clashes 5: ......
least 0: 0+0 0+1 - 0+1 0+1 0+1
least 1: - 0+0 - 0+1 0+1 0+1
least 2: - 0+1 0+0 0+1 0+1 0+2
least 3: - 0+1 - 0+0 0+1 0+2
least 4: - - - - 0+0 -
least 5: - - - - - 0+0
";

// The first thread puts into fifo 0 and writes signal 1. The second takes, prints the signal, and waits for it to rise. A
// method waits for it to change.
#[test]
fn a_fifo_and_a_signal_between_processes(rt: HostRuntime) -> Result<(), Fail> {
    let nodes = [
        Step::TestFree(0, 1, 2),
        Step::Put(0, 3),
        Step::WaitEvent(1, 0),
        Step::Write(1, 4),
        Step::End,
        Step::TestAvailable(0, 6, 7),
        Step::Take(0, 8),
        Step::WaitEvent(0, 5),
        Step::PrintSignal(1, 9),
        Step::WaitEvent(3, 10),
        Step::End,
        Step::End,
    ];
    let sketch = Sketch {
        nodes: &nodes,
        processes: &[
            thread(0, 5),
            thread(5, 11),
            Part {
                kind: ProcessKind::Method,
                first: 11,
                end: 12,
                sensitive: Some(2),
                initialize: true,
            },
        ],
        channels: &[FIFO, SIGNAL],
        events: &[
            BoundEvent::Written(0),
            BoundEvent::Taken(0),
            BoundEvent::Changed(1),
            BoundEvent::Rise(1),
            BoundEvent::Fall(1),
        ],
    };
    let text = told(rt.alloc(), sketch)?;
    assert_eq!(rt; text.as_str(), A_FIFO_AND_A_SIGNAL_BETWEEN_PROCESSES);
    Ok(())
}

static A_SIGNAL_WRITTEN_WHILE_A_SLOWER_THREAD_READS: &str = "segment 0: process 0 start; nodes 0
segment 1: process 0 after 0; nodes 1 2
segment 2: process 1 start; nodes 3 4
segment 3: process 1 after 4; nodes 5 6
access 0
access 1; reads signals 0
access 2; writes signals 0; notifies 0
access 3; writes signals 0; notifies 0
edge 0 to 1: 5+0
edge 2 to 3: 10+0
clashes 0: ....
clashes 1: ....
clashes 2: .e..
clashes 3: .e..
least 0: 0+0 5+0 - -
least 1: - 0+0 - -
least 2: - - 0+0 10+0
least 3: - - - 0+0
";

// A thread waits for 5 ticks and prints a signal. Another one writes it, waits for 10 ticks and writes it again. Its
// segments clash with the one that reads where they come earlier, and that one with none.
#[test]
fn a_signal_written_while_a_slower_thread_reads(rt: HostRuntime) -> Result<(), Fail> {
    let nodes = [
        Step::Wait(5, 1),
        Step::PrintSignal(0, 2),
        Step::End,
        Step::Write(0, 4),
        Step::Wait(10, 5),
        Step::Write(0, 6),
        Step::End,
    ];
    let sketch = Sketch {
        nodes: &nodes,
        processes: &[thread(0, 3), thread(3, 7)],
        channels: &[SIGNAL],
        events: &[BoundEvent::Changed(0)],
    };
    let text = told(rt.alloc(), sketch)?;
    assert_eq!(rt; text.as_str(), A_SIGNAL_WRITTEN_WHILE_A_SLOWER_THREAD_READS);
    Ok(())
}

static A_ZERO_WAIT: &str = "segment 0: process 0 start; nodes 0
segment 1: process 0 after 0; nodes 1
segment 2: process 0 after 1; nodes 2
segment 3: process 0 after 2; nodes 3
segment 4: process 0 after 3; nodes 4
access 0
access 1
access 2
access 3; reads 0; waits 0
access 4
edge 0 to 1: 0+1
edge 1 to 2: 5+0
edge 2 to 3: 0+1
edge 3 to 4: 0+1
clashes 0: .....
clashes 1: .....
clashes 2: .....
clashes 3: .....
clashes 4: .....
least 0: 0+0 0+1 5+0 5+1 5+2
least 1: - 0+0 5+0 5+1 5+2
least 2: - - 0+0 0+1 0+2
least 3: - - - 0+0 0+1
least 4: - - - - 0+0
";

// Waits for no time, for 5 ticks, for 5 ticks or an event, and for a variable time.
#[test]
fn a_zero_wait(rt: HostRuntime) -> Result<(), Fail> {
    let nodes = [
        Step::Wait(0, 1),
        Step::Wait(5, 2),
        Step::WaitEither(5, 0, 3),
        Step::WaitBy(0, 4),
        Step::End,
    ];
    let sketch = Sketch {
        nodes: &nodes,
        processes: &[thread(0, 5)],
        channels: &[],
        events: &[BoundEvent::Own],
    };
    let text = told(rt.alloc(), sketch)?;
    assert_eq!(rt; text.as_str(), A_ZERO_WAIT);
    Ok(())
}

static TWO_WALKS_OF_ONE_SUM: &str = "segment 0: process 0 start; nodes 0 1 3
segment 1: process 0 after 1; nodes 2
segment 2: process 0 after 2; nodes 5
segment 3: process 0 after 3; nodes 4
segment 4: process 0 after 4; nodes 5
segment 5: process 0 after 5; nodes 6
access 0; reads 0
access 1
access 2
access 3
access 4
access 5
edge 0 to 1: 3+0
edge 0 to 3: 5+0
edge 1 to 2: 4+0
edge 2 to 5: 1+0
edge 3 to 4: 2+0
edge 4 to 5: 1+0
clashes 0: ......
clashes 1: ......
clashes 2: ......
clashes 3: ......
clashes 4: ......
clashes 5: ......
least 0: 0+0 3+0 7+0 5+0 7+0 8+0
least 1: - 0+0 4+0 - - 5+0
least 2: - - 0+0 - - 1+0
least 3: - - - 0+0 2+0 3+0
least 4: - - - - 0+0 1+0
least 5: - - - - - 0+0
";

// By one way 3 ticks and 4, by the other 5 and 2, to one node that waits for 1.
#[test]
fn two_walks_of_one_sum(rt: HostRuntime) -> Result<(), Fail> {
    let nodes = [
        Step::Test(1, 3),
        Step::Wait(3, 2),
        Step::Wait(4, 5),
        Step::Wait(5, 4),
        Step::Wait(2, 5),
        Step::Wait(1, 6),
        Step::End,
    ];
    let sketch = Sketch {
        nodes: &nodes,
        processes: &[thread(0, 7)],
        channels: &[],
        events: &[],
    };
    let text = told(rt.alloc(), sketch)?;
    assert_eq!(rt; text.as_str(), TWO_WALKS_OF_ONE_SUM);
    Ok(())
}

static A_WALK_BEYOND_THE_GREATEST_TIME: &str = "segment 0: process 0 start; nodes 0
segment 1: process 0 after 0; nodes 1 2 3
segment 2: process 0 after 2; nodes 4
segment 3: process 0 after 3; nodes 4
access 0
access 1; reads 0
access 2
access 3
edge 0 to 1: 4611686018427387903+0
edge 1 to 2: 1+0
edge 1 to 3: 0+1
clashes 0: ....
clashes 1: ....
clashes 2: ....
clashes 3: ....
least 0: 0+0 4611686018427387903+0 - 4611686018427387903+1
least 1: - 0+0 1+0 0+1
least 2: - - 0+0 -
least 3: - - - 0+0
";

// Waits for 2^62 - 1 ticks, and then for 1 tick by one way and for no time by the other.
#[test]
fn a_walk_beyond_the_greatest_time(rt: HostRuntime) -> Result<(), Fail> {
    let nodes = [
        Step::Wait(4_611_686_018_427_387_903, 1),
        Step::Test(2, 3),
        Step::Wait(1, 4),
        Step::Wait(0, 4),
        Step::End,
    ];
    let sketch = Sketch {
        nodes: &nodes,
        processes: &[thread(0, 5)],
        channels: &[],
        events: &[],
    };
    let text = told(rt.alloc(), sketch)?;
    assert_eq!(rt; text.as_str(), A_WALK_BEYOND_THE_GREATEST_TIME);
    Ok(())
}

static A_CYCLE_OF_ZERO_TIME: &str = "segment 0: process 0 start; nodes 0 1
segment 1: process 0 after 1; nodes 0 1
segment 2: process 1 start; nodes 2 3
segment 3: process 1 after 3; nodes 2 3
access 0; notifies 1
access 1; waits 0; notifies 1
access 2; notifies 0
access 3; waits 1; notifies 0
edge 0 to 1: 0+1
edge 1 to 1: 0+1
edge 2 to 3: 0+1
edge 3 to 3: 0+1
clashes 0: ss.e
clashes 1: ss.e
clashes 2: .ess
clashes 3: .ess
least 0: 0+0 0+1 - 0+1
least 1: - 0+0 - 0+1
least 2: - 0+1 0+0 0+1
least 3: - 0+1 - 0+0
";

// Two threads that wait on an event each and notify the other's in no time.
#[test]
fn a_cycle_of_zero_time(rt: HostRuntime) -> Result<(), Fail> {
    let nodes = [
        Step::Notify(1, 0, 1),
        Step::WaitEvent(0, 0),
        Step::Notify(0, 0, 3),
        Step::WaitEvent(1, 2),
    ];
    let sketch = Sketch {
        nodes: &nodes,
        processes: &[thread(0, 2), thread(2, 4)],
        channels: &[],
        events: &[BoundEvent::Own, BoundEvent::Own],
    };
    let text = told(rt.alloc(), sketch)?;
    assert_eq!(rt; text.as_str(), A_CYCLE_OF_ZERO_TIME);
    Ok(())
}

static A_CANCEL_AND_AN_ELEMENT: &str = "segment 0: process 0 start; nodes 0 1
segment 1: process 0 after 1; nodes 2 3
segment 2: process 1 start; nodes 4 5 6
access 0; cancels 1; waits 0
access 1; reads 1 2; writes 0; waits 0
access 2; notifies 1 in 5
edge 0 to 1: 0+1
clashes 0: s.s
clashes 1: .s.
clashes 2: s.s
least 0: 0+0 0+1 -
least 1: - 0+0 -
least 2: - - 0+0
";

// A thread that isn't initialized cancels event 1, waits on its static sensitivity, and writes to an element of variable
// 0. Another notifies event 1 in 5 ticks, and calls sc_stop.
#[test]
fn a_cancel_and_an_element(rt: HostRuntime) -> Result<(), Fail> {
    let nodes = [
        Step::Cancel(1, 1),
        Step::WaitStatic(0, 2),
        Step::StoreAt(0, 1, 2, 3),
        Step::End,
        Step::Notify(1, 5, 5),
        Step::Stop(6),
        Step::End,
    ];
    let sketch = Sketch {
        nodes: &nodes,
        processes: &[
            Part {
                kind: ProcessKind::Thread,
                first: 0,
                end: 4,
                sensitive: Some(0),
                initialize: false,
            },
            thread(4, 7),
        ],
        channels: &[],
        events: &[BoundEvent::Own, BoundEvent::Own],
    };
    let text = told(rt.alloc(), sketch)?;
    assert_eq!(rt; text.as_str(), A_CANCEL_AND_AN_ELEMENT);
    Ok(())
}
