ghost use Rattle.std.specs.Prelude.{◌≡◌, IfOk};
ghost use Rattle.ooo_code.specs.Nodes.{entry_node};
ghost use Rattle.ooo_interp.specs.Jobs.{activation_of, comes_to};

use crate::doing::{Activation, Emitted, Halt};
use crate::parts::Lent;
use crate::running::run_nodes;
use ooo_code::{Design, Proc, SegmentEntry};
use ooo_time::Stamp;
use sqlite_items::at;
use std::alloc::AllocError;

/// Where an activation begins: its process by its number, the entry of the segment that it runs, its stamp, and how
/// many statements it may count.
#[derive(Clone, Copy)]
pub struct Start {
    pub process: u32,
    pub entry: SegmentEntry,
    pub stamp: Stamp,
    pub statements: u32,
}

/// Runs an activation of a process on lent parts: what it emitted, and how it ended. A process that there isn't does
/// nothing.
///
/// # Errors
///
/// Only where memory runs out.
pub fn run_process<'a, L: Lent>(
    lent: &mut L,
    emitted: &mut Emitted,
    design: &'a Design,
    start: Start,
) -> Result<Halt<'a>, AllocError>
    ensures does { IfOk result (λ halt. activation_of design.now start (L.sight lent.old)
        ≡ comes_to start.entry emitted.new halt (L.sight lent.new)) }
    ensures kept { L.kept lent.new ≡ L.kept lent.old }
{
    emitted.clear();
    let Some(process) = at(design.processes.as_slice(), start.process as usize) else {
        return Ok(Halt::Ended);
    };
    let activation = Activation {
        process,
        entry: start.entry,
        stamp: start.stamp,
    };
    let first = entry_node(design, process, start.entry);
    let nodes = design.nodes.as_slice();
    run_nodes(lent, emitted, nodes, &activation, first, start.statements)
}

// The node at which a segment begins.
fn entry_node(design: &Design, process: &Proc, entry: SegmentEntry) -> u32
    ensures { result ≡ entry_node design.now process.now entry }
{
    match entry {
        SegmentEntry::Start => process.first,
        SegmentEntry::After(wait) => match at(design.nodes.as_slice(), wait as usize) {
            Some(node) => node.next,
            None => 0,
        },
    }
}
