ghost use Rattle.std.specs.Prelude.{◌≡◌, ◌<◌, ◌≤◌, ◌↔◌, Err, length, All, IfOk};
ghost use Rattle.ooo_code.specs.Segments.{IsSegment};
ghost use Rattle.ooo_code.specs.Sound.{IsSound};
ghost use Rattle.ooo_segments.specs.Beginnings.{beginnings, greatest_segments, AreSegments};
ghost use Rattle.ooo_segments.specs.Closed.{AreClosed};
ghost use Rattle.ooo_segments.specs.Edges.{AreEdges, IsLink};
ghost use Rattle.ooo_tables.specs.Accesses.{AreAccesses};

use ooo_access::{Access, sets};
use ooo_advance::AdvanceTable;
use ooo_code::{Design, Segment};
use ooo_conflicts::ClashTable;
use ooo_segments::{Graph, GraphError, graph, graph_of_closed};
use sqlite_items::Items;
use std::alloc::{AllocError, Global};

/// The segments of a design, what each touches, which clash, and how soon one can come after another.
#[derive(Drop)]
pub struct Tables {
    /// The segments, and the edges within processes.
    pub graph: Graph,
    /// What each segment touches, in the order of the segments.
    pub access: Items<Access>,
    /// Which segments clash.
    pub clash: ClashTable,
    /// By how much one segment comes after another at the least.
    pub advance: AdvanceTable,
}

impl Tables {
    ghost use Rattle.ooo_tables.specs.Tables.{AreTables};

    /// The tables of a sound design that has not too many segments.
    ///
    /// # Errors
    ///
    /// Only where memory runs out.
    pub fn make(alloc: Global, design: &Design) -> Result<Tables, AllocError>
        requires sound { IsSound design.now }
        requires few { length (beginnings design.now) ≤ greatest_segments }
        ensures { IfOk result (AreTables design.now) }
    {
        match graph(alloc, design) {
            Ok(graph) => Ok(Tables::of_graph(alloc, design, graph)?),
            Err(GraphError::OutOfMemory) => Err(AllocError),
            Err(GraphError::TooManySegments) => unreachable!(),
        }
    }

    /// The tables as [`Tables::make`] makes them, of a design of which only this is known: each process has nodes of its
    /// own, which lead to none but these, and no constant wait is above the greatest time. A sound design is such a one;
    /// this is for a caller who can show no more.
    ///
    /// # Errors
    ///
    /// `TooManySegments`, exactly where there are more than [`Graph::GREATEST_SEGMENTS`]; else only where memory runs out.
    pub fn make_of_closed(alloc: Global, design: &Design) -> Result<Tables, GraphError>
        requires { AreClosed design.now }
        ensures tables { IfOk result (AreTables design.now) }
        ensures too_many { (result ≡ Err GraphError.TooManySegments)
            ↔ (greatest_segments < length (beginnings design.now)) }
    {
        let graph = graph_of_closed(alloc, design)?;
        Ok(Tables::of_graph(alloc, design, graph)?)
    }

    // The tables of a design that has this graph.
    fn of_graph(alloc: Global, design: &Design, graph: Graph) -> Result<Tables, AllocError>
        requires segments { AreSegments design.now graph.segments }
        requires edges { AreEdges design.now graph.segments graph.edges }
        requires few { length graph.segments ≤ greatest_segments }
        requires links { All (IsLink (length graph.segments)) graph.edges }
        ensures { IfOk result (AreTables design.now) }
    {
        let access = access_of(alloc, design, graph.segments.as_slice())?;
        let clash = ClashTable::make(alloc, design, access.as_slice())?;
        let advance = AdvanceTable::make(alloc, &graph, access.as_slice())?;
        Ok(Tables {
            graph,
            access,
            clash,
            advance,
        })
    }
}

// The access of each of these segments.
fn access_of(
    alloc: Global,
    design: &Design,
    segments: &[Segment],
) -> Result<Items<Access>, AllocError>
    requires { All (IsSegment design.now) segments.now }
    ensures { IfOk result (AreAccesses design.now segments.now) }
{
    let mut access = Items::new(alloc);
    for segment in segments {
        access.push(sets(alloc, design, segment)?)?;
    }
    Ok(access)
}
