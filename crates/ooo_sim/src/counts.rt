ghost use Rattle.std.specs.Prelude.{◌≡◌, IfOk};
ghost use Rattle.ooo_sim.specs.Counts.{counts_line};

use crate::lines::add_number;
use std::alloc::{AllocError, Global};

/// The line that says how many processes and segments a model has.
pub(crate) fn counts_line(
    alloc: Global,
    processes: usize,
    segments: u32,
) -> Result<Vec<u8>, AllocError>
    ensures { IfOk result (λ line. line.items ≡ counts_line processes segments) }
{
    let mut line = Vec::new(alloc);
    keeping!(line; add_number(&mut line, b"accepted processes ", processes as u128));
    keeping!(line; add_number(&mut line, b" segments ", segments as u128));
    keeping!(line; line.extend_from_slice(b"\n"));
    Ok(line)
}
