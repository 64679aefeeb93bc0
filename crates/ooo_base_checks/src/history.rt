use ooo_history::{End, Entry, Piece, Run, What, is_named, report};
use ooo_time::{Place, Stamp, Time};
use ooo_value::{Fault, Name, Names, Value};
use sqlite_items::Items;
use std::alloc::{AllocError, Global};
use std::test::Fail;

fn at(nanoseconds: u32, delta: u32) -> Stamp {
    Stamp {
        time: Time(u64::from(nanoseconds) * 1_000),
        delta,
    }
}

fn piece(alloc: Global, stamp: Stamp, process: u32, bytes: &[u8]) -> Result<Piece, AllocError> {
    Ok(Piece {
        place: Place { stamp, process },
        bytes: Items::from_slice(alloc, bytes)?,
    })
}

// A clock and a fifo, with what happened on them and was printed up to 10 ns.
fn run(alloc: Global) -> Result<Run, AllocError> {
    let clock = [
        (at(0, 0), What::Changed, Value::Bool(true)),
        (at(5, 0), What::Changed, Value::Bool(false)),
    ];
    let queue = [
        (at(0, 1), What::Put, Value::Int(-1)),
        (at(10, 2), What::Took, Value::Int(-1)),
        (at(10, 2), What::Put, Value::Int(2)),
    ];
    let mut channels = Items::new(alloc);
    channels.push(history(alloc, &clock)?)?;
    channels.push(history(alloc, &queue)?)?;
    let mut pieces = Items::new(alloc);
    pieces.push(piece(alloc, at(0, 0), 0, b"a\n")?)?;
    pieces.push(piece(alloc, at(0, 0), 1, b"b")?)?;
    Ok(Run {
        pieces,
        channels,
        end: End::Time(Time(25_000)),
        activations: 4,
    })
}

fn history(alloc: Global, rows: &[(Stamp, What, Value)]) -> Result<Items<Entry>, AllocError> {
    let mut entries = Items::new(alloc);
    for (stamp, what, value) in rows {
        entries.push(Entry {
            stamp: *stamp,
            what: *what,
            value: *value,
        })?;
    }
    Ok(entries)
}

fn names(alloc: Global) -> Result<Names, AllocError> {
    let processes = vec![in alloc; Name::from_bytes(b"m.a".to_vec(alloc)?)]?;
    let channels = vec![in alloc;
        Name::from_bytes(b"clk".to_vec(alloc)?),
        Name::from_bytes(b"m.q".to_vec(alloc)?),
    ]?;
    Ok(Names {
        processes: Items::from_vec(processes),
        channels: Items::from_vec(channels),
    })
}

#[test]
fn reports_output_and_histories(rt: HostRuntime) -> Result<(), Fail> {
    let run = run(rt.alloc())?;
    let names = names(rt.alloc())?;
    assert!(rt; run.channels.len() <= names.channels.len());
    let end = run.end;
    assert_eq!(rt; end, End::Time(Time(25_000)));
    let text = report(rt.alloc(), &run, &names)?;
    let wanted = b"a\nb\n== histories\nclk @ 0 s 0 = 1\nclk @ 5 ns 0 = 0\nm.q @ 0 s 1 in -1\n\
        m.q @ 10 ns 2 out -1\nm.q @ 10 ns 2 in 2\n== end\ntime 25 ns\n";
    assert!(rt; text.as_slice() == wanted.as_slice());
    Ok(())
}

// Each ending after a run that did nothing, written by hand.
#[test]
fn reports_each_ending(rt: HostRuntime) -> Result<(), Fail> {
    let place = Place {
        stamp: at(5, 0),
        process: 0,
    };
    let rows: [(End, &str); 6] = [
        (End::Time(Time(100_000)), "time 100 ns\n"),
        (End::Idle(at(0, 5)), "idle 0 s 5\n"),
        (End::Stop(at(7, 1)), "stop 7 ns 1\n"),
        (
            End::Fault(Fault::DivideByZero, place, 4),
            "fault DivideByZero 5 ns 0 m.a 4\n",
        ),
        (End::Statements(place, 3), "statements 5 ns 0 m.a 3\n"),
        (End::Deltas(at(0, 10_000)), "deltas 0 s 10000\n"),
    ];
    for (end, line) in rows {
        ends_with(&rt, rt.alloc(), end, line)?;
    }
    Ok(())
}

fn ends_with(
    rt: &impl std::process::Abort,
    alloc: Global,
    end: End,
    line: &str,
) -> Result<(), Fail> {
    let run = Run {
        pieces: Items::new(alloc),
        channels: Items::new(alloc),
        end,
        activations: 0,
    };
    let names = names(alloc)?;
    assert!(rt; is_named(end, names.processes.as_slice()));
    let text = report(alloc, &run, &names)?;
    let wanted = format!(in alloc; "== histories\n== end\n{line}")?;
    assert!(rt; text.as_slice() == wanted.as_bytes());
    Ok(())
}
