ghost use Rattle.std.specs.Prelude.{◌≡◌, ◌<◌, ◌≤◌, None, length, count_by, IfSome};
ghost use Rattle.ooo_code.specs.Segments.{is_wait as is_wait_node};
ghost use Rattle.ooo_code.specs.Sound.{IsSound};
ghost use Rattle.ooo_segments.specs.Beginnings.{beginnings, greatest_segments};
ghost use Rattle.ooo_segments.specs.Closed.{AreClosed};

use crate::graphs::Graph;
use crate::waits::is_wait;
use ooo_code::{Design, Node};

/// How many segments a design has, or none where it has more than [`Graph::GREATEST_SEGMENTS`]. It makes no segment.
pub fn segment_count(design: &Design) -> Option<u32>
    requires { IsSound design.now }
    ensures count { IfSome result (λ n. n ≡ length (beginnings design.now)) }
    ensures few { IfSome result (λ n. n ≤ greatest_segments) }
    ensures many { result ≡ None → greatest_segments < length (beginnings design.now) }
{
    count_of_closed(design)
}

// How many segments a design has, or none where it has more than it may have.
pub(crate) fn count_of_closed(design: &Design) -> Option<u32>
    requires { AreClosed design.now }
    ensures count { IfSome result (λ n. n ≡ length (beginnings design.now)) }
    ensures few { IfSome result (λ n. n ≤ greatest_segments) }
    ensures many { result ≡ None → greatest_segments < length (beginnings design.now) }
{
    let mut left = Graph::GREATEST_SEGMENTS;
    for process in design.processes.as_slice() {
        let nodes = &design.nodes.as_slice()[process.first as usize..process.end as usize];
        let count = waits(nodes) + 1;
        if count > left {
            return None;
        }
        left -= count;
    }
    Some((Graph::GREATEST_SEGMENTS - left) as u32)
}

// How many of the nodes are waits.
fn waits(nodes: &[Node]) -> usize
    ensures { result ≡ count_by is_wait_node nodes.now }
{
    let mut count = 0;
    for node in nodes {
        if is_wait(node) {
            count += 1;
        }
    }
    count
}
