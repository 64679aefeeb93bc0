use ooo_outside::{Failed, MemorySink, MemorySource, ReadSource, Sink, Source, WriteSink};
use std::io;
use std::io::{Read, Write};
use std::test::Fail;

#[test]
fn a_memory_source_gives_its_bytes_in_order(rt: HostRuntime) -> Result<(), Fail> {
    let bytes = Vec::from_slice(rt.alloc(), b"abcde")?;
    let mut source = MemorySource::new(bytes, 2, vec![in rt.alloc(); 2]?);
    let mut into = [0u8; 4];
    assert!(rt; source.read(&mut into) == Ok(2));
    assert!(rt; &into[..2] == b"ab".as_slice());
    assert!(rt; source.read(&mut into) == Err(Failed));
    assert!(rt; source.read(&mut into) == Ok(2));
    assert!(rt; &into[..2] == b"cd".as_slice());
    assert!(rt; source.read(&mut into[..0]) == Ok(0));
    assert!(rt; source.read(&mut into) == Ok(1));
    assert!(rt; into[0] == b'e');
    assert!(rt; source.read(&mut into) == Ok(0));
    Ok(())
}

#[test]
fn a_memory_sink_takes_bytes_up_to_its_room(rt: HostRuntime) -> Result<(), Fail> {
    let mut sink = MemorySink::make(rt.alloc(), 3, 2, vec![in rt.alloc(); 1]?)?;
    assert!(rt; sink.write(b"ab") == Err(Failed));
    assert!(rt; sink.write(b"abcd") == Ok(2));
    assert!(rt; sink.write(b"") == Ok(0));
    assert!(rt; sink.write(b"cd") == Ok(1));
    assert!(rt; sink.write(b"d") == Err(Failed));
    assert!(rt; sink.held() == b"abc".as_slice());
    Ok(())
}

// A reader and a writer that fail at their second call; the writer takes nothing at its third.
#[derive(Drop)]
struct Flaky {
    calls: u32,
}

impl Flaky {
    fn next(&mut self) -> u32 {
        self.calls = self.calls.saturating_add(1);
        self.calls
    }
}

impl Read for Flaky {
    fn read(&mut self, buf: &mut [u8]) -> io::Result<usize> {
        match self.next() {
            2 => Err(io::Error::from(io::ErrorKind::BrokenPipe)),
            _ => Ok(buf.len().min(1)),
        }
    }
}

impl Write for Flaky {
    fn write(&mut self, buf: &[u8]) -> io::Result<usize> {
        match self.next() {
            2 => Err(io::Error::from(io::ErrorKind::BrokenPipe)),
            3 => Ok(0),
            _ => Ok(buf.len()),
        }
    }

    fn flush(&mut self) -> io::Result<()> {
        Ok(())
    }
}

#[test]
fn the_adapters_pass_errors_on(rt: HostRuntime) {
    let mut source = ReadSource::new(Flaky { calls: 0 });
    let mut into = [0u8; 4];
    assert!(rt; source.read(&mut into) == Ok(1));
    assert!(rt; source.read(&mut into) == Err(Failed));
    assert!(rt; source.read(&mut into) == Ok(1));
    let mut sink = WriteSink::new(Flaky { calls: 0 });
    assert!(rt; sink.write(b"ab") == Ok(2));
    assert!(rt; sink.write(b"ab") == Err(Failed));
    assert!(rt; sink.write(b"ab") == Err(Failed));
    assert!(rt; sink.write(b"ab") == Ok(2));
}
