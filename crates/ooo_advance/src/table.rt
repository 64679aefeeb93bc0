ghost use Rattle.std.specs.Prelude.{◌≡◌, ◌<◌, ◌≤◌, length, All, IfOk};
ghost use Rattle.ooo_access.specs.Access.{IsInOrder};
ghost use Rattle.ooo_segments.specs.Beginnings.{greatest_segments};
ghost use Rattle.ooo_segments.specs.Edges.{IsLink};
ghost use Rattle.ooo_advance.specs.Rows.{AreAddable, IsTable, entry_at};

use crate::links::links_of;
use crate::search::least_from;
use ooo_access::Access;
use ooo_segments::Graph;
use ooo_time::Delay;
use sqlite_items::Items;
use std::alloc::{AllocError, Global};
use std::marker::Model;

/// Of any two segments of a design, the least delay by which the second can come after the first.
#[derive(Drop)]
pub struct AdvanceTable {
    rows: Vec<Items<Option<Delay>>>,
}

impl Model for AdvanceTable {
    ghost use Rattle.std.specs.Prelude.{◌≡◌, List, Option, length, All};
    ghost use Rattle.ooo_time.specs.declared.delay.Delay.{Delay as DelaySpec};

    ghost Value = { List (List (Option DelaySpec)) };

    ghost view = { λ t. t.rows.items };

    ghost invariant = { λ t. All (λ row. length row ≡ length t.rows.items) t.rows.items };
}

impl AdvanceTable {
    /// The table of a design's segments, by its graph and the access of each segment, in the order of the segments.
    ///
    /// # Errors
    ///
    /// Only where memory runs out.
    pub fn make(alloc: Global, graph: &Graph, access: &[Access]) -> Result<AdvanceTable, AllocError>
        requires few { length access.now ≤ greatest_segments }
        requires links { All (IsLink (length access.now)) graph.now.edges }
        requires in_order { All IsInOrder access.now }
        ensures exact { IfOk result (IsTable graph.now access.now) }
        ensures rows { IfOk result (All (λ row. length row ≡ length access.now)) }
        ensures addable { IfOk result (λ rows. All AreAddable rows) }
    {
        let links = links_of(alloc, graph, access)?;
        let mut rows = Vec::with_capacity(alloc, access.len())?;
        for source in 0..access.len() as u32 {
            rows.push(least_from(alloc, links.as_slice(), source)?)?;
        }
        Ok(AdvanceTable { rows })
    }

    /// The least sum of the delays along a walk from segment `a` to segment `b`; none where there is no walk, or where the
    /// least sum has more than 2^62 - 1 ticks.
    pub fn least(&self, a: u32, b: u32) -> Option<Delay>
        requires first { a < length self.now }
        requires second { b < length self.now }
        ensures { result ≡ entry_at self.now a b }
    {
        let row = &self.rows[a as usize];
        row.as_slice()[b as usize]
    }
}
