//! The tables of a design, made one after another.

ghost use Rattle.std.specs.Prelude.{◌≡◌, ◌≤◌, length, All, IfOk};
ghost use Rattle.ooo_code.specs.Segments.{IsSegment};
ghost use Rattle.ooo_access.specs.Access.{IsInOrder};
ghost use Rattle.ooo_segments.specs.Beginnings.{greatest_segments};
ghost use Rattle.ooo_segments.specs.Closed.{AreClosed};

use ooo_access::{Access, sets};
use ooo_advance::AdvanceTable;
use ooo_code::{Design, Segment};
use ooo_conflicts::ClashTable;
use ooo_segments::{Graph, GraphError, graph_of_closed};
use std::alloc::{AllocError, Global};

/// The tables of a design, all of as many segments.
#[derive(Drop)]
pub(crate) struct Tables {
    pub(crate) graph: Graph,
    pub(crate) access: Vec<Access>,
    pub(crate) clashes: ClashTable,
    pub(crate) advances: AdvanceTable,
    ghost few: { length access.items ≤ greatest_segments },
    ghost clash_rows: { length clashes ≡ length access.items },
    ghost advance_rows: { length advances ≡ length access.items },
}

/// The tables of a closed design.
pub(crate) fn tables_of(alloc: Global, design: &Design) -> Result<Tables, GraphError>
    requires { AreClosed design.now }
{
    let graph = graph_of_closed(alloc, design)?;
    let access = access_of(alloc, design, graph.segments.as_slice())?;
    let clashes = ClashTable::make(alloc, design, access.as_slice())?;
    let advances = AdvanceTable::make(alloc, &graph, access.as_slice())?;
    Ok(Tables {
        graph,
        access,
        clashes,
        advances,
    })
}

// The access of each segment.
fn access_of(
    alloc: Global,
    design: &Design,
    segments: &[Segment],
) -> Result<Vec<Access>, AllocError>
    requires { All (IsSegment design.now) segments.now }
    ensures count { IfOk result (λ access. length access.items ≡ length segments.now) }
    ensures in_order { IfOk result (λ access. All IsInOrder access.items) }
{
    let mut access = Vec::new(alloc);
    for segment in segments {
        access.push(sets(alloc, design, segment)?)?;
    }
    Ok(access)
}
