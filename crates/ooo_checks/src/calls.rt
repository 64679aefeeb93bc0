ghost use Rattle.std.specs.Prelude.{◌≤◌};

use ooo_outside::{MemorySink, MemorySource};
use ooo_sim::alone;
use std::alloc::{AllocError, Global};
use std::test::Fail;

// Two threads, of which the first prints, waits for 10 ns and prints the time, and the second prints.
static MODEL: &[u8] = b"#include <systemc.h>\n\
    SC_MODULE(M) {\n\
    \x20 void a() { cout << \"a\" << endl; wait(10, SC_NS); cout << sc_time_stamp() << endl; }\n\
    \x20 void b() { cout << \"b\" << endl; }\n\
    \x20 SC_CTOR(M) { SC_THREAD(a); SC_THREAD(b); }\n\
    };\n\
    int sc_main(int argc, char* argv[]) {\n\
    \x20 M m(\"m\");\n\
    \x20 sc_start(100, SC_NS);\n\
    \x20 return 0;\n\
    }\n\
    ";

static REPORT: &[u8] = b"a\nb\n10 ns\n== histories\n== end\nidle 10 ns 0\n";

static NO_TEXT: &[u8] = b"refused parser Syntax 1:1048577\n";

// How a call is fed: the most bytes of a read, the number of the read that fails (0: none), and so for the writes.
#[derive(Clone, Copy)]
struct Feed {
    most_read: usize,
    failing_read: u32,
    room: usize,
    most_written: usize,
    failing_write: u32,
}

const PLENTY: Feed = Feed {
    most_read: 4096,
    failing_read: 0,
    room: 4096,
    most_written: 4096,
    failing_write: 0,
};

// How a call ended, by its number, and what its sink holds.
#[derive(Drop)]
struct Called {
    status: Option<u8>,
    held: Vec<u8>,
}

impl Called {
    fn is(&self, status: u8, held: &[u8]) -> bool {
        self.status == Some(status) && self.held.as_slice() == held
    }
}

// Calls `alone` with one word on a source and a sink in memory.
fn call(alloc: Global, word: &str, text: Vec<u8>, feed: Feed) -> Result<Called, AllocError>
    requires read { 1 ≤ feed.most_read }
    requires written { 1 ≤ feed.most_written }
{
    let words = vec![in alloc; String::from_str(alloc, word)?]?;
    let mut source = MemorySource::new(text, feed.most_read, vec![in alloc; feed.failing_read]?);
    let mut sink = MemorySink::make(
        alloc,
        feed.room,
        feed.most_written,
        vec![in alloc; feed.failing_write]?,
    )?;
    let outcome = alone(alloc, &words, &mut source, &mut sink);
    Ok(Called {
        status: outcome.map(|outcome| outcome.number()),
        held: Vec::from_slice(alloc, sink.held())?,
    })
}

fn model(alloc: Global) -> Result<Vec<u8>, AllocError> {
    Vec::from_slice(alloc, MODEL)
}

#[test]
fn a_byte_at_a_time_gives_the_report(rt: HostRuntime) -> Result<(), Fail> {
    let feed = Feed {
        most_read: 1,
        most_written: 1,
        ..PLENTY
    };
    let outcome = call(rt.alloc(), "plain", model(rt.alloc())?, feed)?;
    assert!(rt; outcome.is(0, REPORT));
    Ok(())
}

// The model has 294 bytes, so 19 reads give it and the next one tells its end.
#[test]
fn each_failing_read_gives_status_4_and_writes_nothing(rt: HostRuntime) -> Result<(), Fail> {
    for failing_read in 1..=20 {
        let feed = Feed {
            most_read: 16,
            failing_read,
            ..PLENTY
        };
        let outcome = call(rt.alloc(), "plain", model(rt.alloc())?, feed)?;
        assert!(rt; outcome.is(4, b""), "read {failing_read}");
    }
    let feed = Feed {
        most_read: 16,
        failing_read: 21,
        ..PLENTY
    };
    let outcome = call(rt.alloc(), "plain", model(rt.alloc())?, feed)?;
    assert!(rt; outcome.is(0, REPORT));
    Ok(())
}

// The report has 43 bytes, so 11 writes take it.
#[test]
fn each_failing_write_gives_status_5_after_a_prefix(rt: HostRuntime) -> Result<(), Fail> {
    for failing_write in 1..=11usize {
        let feed = Feed {
            most_written: 4,
            failing_write: failing_write as u32,
            ..PLENTY
        };
        let outcome = call(rt.alloc(), "plain", model(rt.alloc())?, feed)?;
        assert!(rt;
            outcome.is(5, &REPORT[..4 * failing_write - 4]),
            "write {failing_write}"
        );
    }
    let feed = Feed {
        most_written: 4,
        failing_write: 12,
        ..PLENTY
    };
    let outcome = call(rt.alloc(), "plain", model(rt.alloc())?, feed)?;
    assert!(rt; outcome.is(0, REPORT));
    Ok(())
}

#[test]
fn a_sink_without_room_gives_status_5_after_a_prefix(rt: HostRuntime) -> Result<(), Fail> {
    let feed = Feed { room: 10, ..PLENTY };
    let outcome = call(rt.alloc(), "plain", model(rt.alloc())?, feed)?;
    assert!(rt; outcome.is(5, b"a\nb\n10 ns\n"));
    Ok(())
}

#[test]
fn a_source_may_have_1048576_bytes(rt: HostRuntime) -> Result<(), Fail> {
    let alloc = rt.alloc();
    let blanks = vec![in alloc; b' '; 1_048_576]?;
    let outcome = call(alloc, "plain", blanks, PLENTY)?;
    assert!(rt; outcome.is(3, NO_TEXT));
    let blanks = vec![in alloc; b' '; 1_048_577]?;
    let outcome = call(alloc, "plain", blanks, PLENTY)?;
    assert!(rt; outcome.is(8, b"refused source TooLong\n"));
    Ok(())
}

// Worked by hand: the first thread waits once, and nothing of one thread touches what the other does.
#[test]
fn check_and_tables_answer(rt: HostRuntime) -> Result<(), Fail> {
    let outcome = call(rt.alloc(), "check", model(rt.alloc())?, PLENTY)?;
    assert!(rt; outcome.is(0, b"accepted processes 2 segments 3\n"));
    let outcome = call(rt.alloc(), "tables", model(rt.alloc())?, PLENTY)?;
    let tables = b"segment 0 m.a start\nsegment 1 m.a 3\nsegment 2 m.b start\n\
        least 0 0 0 s 0\nleast 0 1 10 ns 0\nleast 1 1 0 s 0\nleast 2 2 0 s 0\n";
    assert!(rt; outcome.is(0, tables));
    Ok(())
}

#[test]
fn other_words_are_refused(rt: HostRuntime) -> Result<(), Fail> {
    let rows: [(&str, &[u8]); 3] = [
        ("", b"refused words UnknownCommand \n"),
        ("Plain", b"refused words UnknownCommand Plain\n"),
        ("plain ", b"refused words UnknownCommand plain \n"),
    ];
    for (word, line) in rows {
        let outcome = call(rt.alloc(), word, model(rt.alloc())?, PLENTY)?;
        assert!(rt; outcome.is(2, line), "{word}");
    }
    Ok(())
}

// What takes workers isn't done alone, and nothing is read or written.
#[test]
fn workers_are_left_to_simulate(rt: HostRuntime) -> Result<(), Fail> {
    for word in ["run", "bench"] {
        let called = call(rt.alloc(), word, model(rt.alloc())?, PLENTY)?;
        assert!(rt; called.status.is_none());
        assert!(rt; called.held.as_slice() == b"".as_slice());
    }
    Ok(())
}
