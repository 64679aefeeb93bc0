ghost use Rattle.std.specs.Prelude.{◌≡◌};
ghost use Rattle.ooo_code.specs.Segments.{is_wait as is_wait_node};
ghost use Rattle.ooo_segments.specs.Edges.{delay_of as delay_of_wait};

use ooo_code::{Node, NodeKind, NodeTime, NodeWait};
use ooo_time::{Delay, Time};

// Whether a node is a wait.
pub(crate) fn is_wait(node: &Node) -> bool
    ensures { result ≡ is_wait_node node.now }
{
    matches!(&node.kind, NodeKind::Wait(_))
}

// The delay of a wait.
pub(crate) fn delay_of(wait: &NodeWait) -> Delay
    ensures { result ≡ delay_of_wait wait.now }
{
    match &wait.time {
        Some(NodeTime::Fixed(time)) if wait.events.is_empty() && *time != Time::ZERO => Delay {
            time: *time,
            deltas: 0,
        },
        _ => Delay::DELTA,
    }
}
