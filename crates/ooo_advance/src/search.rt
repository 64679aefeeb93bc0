ghost use Rattle.std.specs.Prelude.{◌≡◌, ◌+◌, ◌<◌, ◌≤◌, ℕ, List, length, All, IfOk, IfSome, MatchOption};
ghost use Rattle.ooo_time.specs.Delays.{greatest_deltas};
ghost use Rattle.ooo_time.specs.Scales.{greatest_time};
ghost use Rattle.ooo_segments.specs.Beginnings.{greatest_segments};
ghost use Rattle.ooo_segments.specs.declared.graphs.Graph.{Graph as GraphSpec};
ghost use Rattle.ooo_access.specs.declared.access.Access.{Access as AccessSpec};
ghost use Rattle.ooo_advance.specs.Links.{HasRows, HasSteps};
ghost use Rattle.ooo_advance.specs.Rows.{AreAddable};
ghost use Rattle.ooo_advance.specs.Settled.{IsSettled};
ghost use Rattle.ooo_advance.specs.Turns.{AllLinks, IsLowered, IsLoweredTo, IsNearer, IsNearest, HasNone};

use crate::links::lesser;
use ooo_time::{Delay, Time};
use sqlite_items::Items;
use std::alloc::{AllocError, Global};

// The least sums of the walks from a segment to each. In each turn the nearest segment that isn't done yet is done, and the
// edges from it lower what is known of the others, among which the next one is found.
pub(crate) fn least_from(
    alloc: Global,
    links: &[Items<Option<Delay>>],
    source: u32,
) -> Result<Items<Option<Delay>>, AllocError>
    requires source { source < length links.now }
    requires few { length links.now ≤ greatest_segments }
    requires rows { HasRows (length links.now) links.now }
    requires steps { HasSteps links.now }
    ensures count { IfOk result (λ row. length row ≡ length links.now) }
    ensures addable { IfOk result AreAddable }
    ensures settled { (graph : GraphSpec) (access : List AccessSpec) →
        AllLinks graph access links.now → IfOk result (IsSettled graph access source) }
{
    let mut least = vec![in alloc; None; links.len()]?;
    let mut done = vec![in alloc; false; links.len()]?;
    least[source as usize] = Some(Delay::NONE);
    let mut next = nearest(&least, &done);
    'turns: while let Some((n, delay)) = next {
        done[n] = true;
        next = relax(&mut least, &done, links[n].as_slice(), delay);
    }
    Ok(Items::from_vec(least))
}

// The nearest segment of those that aren't done, with its delay.
fn nearest(least: &[Option<Delay>], done: &[bool]) -> Option<(usize, Delay)>
    requires { length done.now ≡ length least.now }
    ensures { MatchOption result (HasNone least.now done.now (length least.now))
        (λ x. IsNearest least.now done.now x.0 x.1 × (x.0 < length least.now)) }
{
    let mut best = None;
    for n in 0..least.len() {
        best = nearer(best, n, least[n], done[n]);
    }
    best
}

// The nearer of the best so far and a segment, unless that is done or not reached.
fn nearer(
    best: Option<(usize, Delay)>,
    n: usize,
    delay: Option<Delay>,
    is_done: bool,
) -> Option<(usize, Delay)>
    ensures { IsNearer best n delay is_done result }
{
    match (delay, best) {
        (None, _) => best,
        (Some(_), _) if is_done => best,
        (Some(delay), Some(known)) if !delay.is_less(known.1) => Some(known),
        (Some(delay), _) => Some((n, delay)),
    }
}

// Lowers what is known of those that aren't done to what comes by an edge from a segment of this delay, and gives the
// nearest of them then, with its delay.
fn relax(
    least: &mut [Option<Delay>],
    done: &[bool],
    links: &[Option<Delay>],
    delay: Delay,
) -> Option<(usize, Delay)>
    requires done { length done.now ≡ length least.old }
    requires links { length links.now ≡ length least.old }
    requires time { delay.time.0 ≤ greatest_time }
    requires deltas { All (λ link. IfSome link (λ k. delay.deltas + k.deltas ≤ greatest_deltas))
        links.now }
    ensures lowered { IsLowered done.now least.old least.new links.now delay }
    ensures nearest { MatchOption result (HasNone least.new done.now (length least.new))
        (λ x. IsNearest least.new done.now x.0 x.1 × (x.0 < length least.new)) }
{
    let mut best = None;
    for n in 0..least.len() {
        if !done[n] {
            let low = lowered(least[n], links[n], delay);
            least[n] = low;
            best = nearer(best, n, low, false);
        }
    }
    best
}

// What is known of a segment, lowered to what comes by a link after this delay, within the greatest time.
fn lowered(known: Option<Delay>, link: Option<Delay>, delay: Delay) -> Option<Delay>
    requires time { delay.time.0 ≤ greatest_time }
    requires deltas { IfSome link (λ k. delay.deltas + k.deltas ≤ greatest_deltas) }
    ensures { IsLoweredTo known link delay result }
{
    match link {
        Some(link) if link.time.0 <= Time::GREATEST.0 - delay.time.0 => {
            Some(lesser(known, delay.then(link)))
        }
        _ => known,
    }
}
