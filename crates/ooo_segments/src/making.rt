ghost use Rattle.std.specs.Prelude.{◌≡◌, ◌<◌, ◌≤◌, ◌↔◌, Err, length, All, IfOk};
ghost use Rattle.ooo_code.specs.Sound.{IsSound};
ghost use Rattle.ooo_segments.specs.Beginnings.{beginnings, greatest_segments, AreSegments};
ghost use Rattle.ooo_segments.specs.Closed.{AreClosed};
ghost use Rattle.ooo_segments.specs.Edges.{AreEdges, IsLink};

use crate::counting::count_of_closed;
use crate::edges::all_edges;
use crate::error::GraphError;
use crate::graphs::Graph;
use crate::segments::all_segments;
use ooo_code::Design;
use sqlite_items::Items;
use std::alloc::Global;

/// The segments of a design and the edges within its processes.
///
/// # Errors
///
/// `TooManySegments`, exactly where there are more than [`Graph::GREATEST_SEGMENTS`]; else only where memory runs out.
pub fn graph(alloc: Global, design: &Design) -> Result<Graph, GraphError>
    requires { IsSound design.now }
    ensures segments { IfOk result (λ g. AreSegments design.now g.segments) }
    ensures edges { IfOk result (λ g. AreEdges design.now g.segments g.edges) }
    ensures too_many { (result ≡ Err GraphError.TooManySegments)
        ↔ (greatest_segments < length (beginnings design.now)) }

    // What follows of these, as the tables need it.
    ensures few { IfOk result (λ g. length g.segments ≤ greatest_segments) }
    ensures links { IfOk result (λ g. All (IsLink (length g.segments)) g.edges) }
{
    graph_of_closed(alloc, design)
}

/// The graph as [`graph`] makes it, of a design of which only this is known: each process has nodes of its own, which lead
/// to none but these, and no constant wait is above the greatest time. A sound design is such a one; this is for a caller
/// who can show no more.
///
/// # Errors
///
/// `TooManySegments`, exactly where there are more than [`Graph::GREATEST_SEGMENTS`]; else only where memory runs out.
pub fn graph_of_closed(alloc: Global, design: &Design) -> Result<Graph, GraphError>
    requires { AreClosed design.now }
    ensures segments { IfOk result (λ g. AreSegments design.now g.segments) }
    ensures edges { IfOk result (λ g. AreEdges design.now g.segments g.edges) }
    ensures too_many { (result ≡ Err GraphError.TooManySegments)
        ↔ (greatest_segments < length (beginnings design.now)) }

    // What follows of these, as the tables need it.
    ensures few { IfOk result (λ g. length g.segments ≤ greatest_segments) }
    ensures links { IfOk result (λ g. All (IsLink (length g.segments)) g.edges) }
{
    if count_of_closed(design).is_none() {
        return Err(GraphError::TooManySegments);
    }
    let segments = all_segments(alloc, design)?;
    let edges = all_edges(alloc, design, segments.as_slice())?;
    Ok(Graph {
        segments: Items::from_vec(segments),
        edges: Items::from_vec(edges),
    })
}
