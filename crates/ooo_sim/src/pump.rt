ghost use Rattle.std.specs.Prelude.{◌≡◌, ◌≤◌, length, IfOk, OnOk, OnErr, IsErrOf};
ghost use Rattle.std.specs.Io.KnownBytes.{Appends};
ghost use Rattle.ooo_outside.specs.Causes.{Rose};
ghost use Rattle.ooo_sim.specs.Pumps.{AreFirst, GaveFirst, AppendsPrefix};

use ooo_outside::{Failed, Sink, Source};
use std::alloc::{AllocError, Global};

// How many bytes one call of a source is asked for at most.
const CHUNK: usize = 4096;

/// Why a text was not read.
#[derive(Clone, Copy)]
pub(crate) enum ReadError {
    /// The source failed.
    Failed,
    OutOfMemory,
}

impl From<AllocError> for ReadError {
    ghost use Rattle.ooo_sim.specs.declared.pump.ReadError.TheVariants.{OutOfMemory};

    ghost from_gives = { λ _ e. e ≡ OutOfMemory };

    fn from(_error: AllocError) -> ReadError {
        ReadError::OutOfMemory
    }
}

/// Reads a source to its end, or its first `limit` bytes.
pub(crate) fn read_text<So: Source>(
    alloc: Global,
    source: &mut So,
    limit: usize,
) -> Result<Vec<u8>, ReadError>
    ensures text { IfOk result (λ text. AreFirst limit (So.rest source.old) text.items) }
    ensures given { IfOk result (λ _. GaveFirst limit (So.rest source.old) (So.rest source.new)) }
    ensures limit { IfOk result (λ text. length text.items ≤ limit) }
    ensures later { So.faults source.old ≤ So.faults source.new }
    ensures failed { IsErrOf result ReadError.Failed
        → Rose (So.faults source.old) (So.faults source.new) }
{
    let mut text = Vec::new(alloc);
    let mut chunk = [0u8; CHUNK];
    'reading: while text.len() < limit {
        let room = (limit - text.len()).min(CHUNK);
        match source.read(&mut chunk[..room]) {
            Err(Failed) => return Err(ReadError::Failed),
            Ok(0) => return Ok(text),
            Ok(count) => text.extend_from_slice(&chunk[..count])?,
        }
    }
    Ok(text)
}

/// Writes all of a text, or a prefix of it and then a fault.
pub(crate) fn write_text<Si: Sink>(sink: &mut Si, text: &[u8]) -> Result<(), Failed>
    ensures ok { OnOk result (Appends (Si.held sink.old) (Si.held sink.new) text.now) }
    ensures prefix { OnErr result (AppendsPrefix (Si.held sink.old) (Si.held sink.new) text.now) }
    ensures later { Si.faults sink.old ≤ Si.faults sink.new }
    ensures failed { OnErr result (Rose (Si.faults sink.old) (Si.faults sink.new)) }
{
    let mut written = 0;
    'writing: while written < text.len() {
        written += sink.write(&text[written..])?;
    }
    Ok(())
}
