ghost use Rattle.std.specs.Prelude.{ℕ, ◌<◌, ◌≤◌, ◌↔◌, [], ◌∷◌, length, All, IfOk, OnOk};
ghost use Rattle.ooo_code.specs.Segments.{Reaches, successors};
ghost use Rattle.ooo_segments.specs.Numbers.{IsIn};
ghost use Rattle.ooo_segments.specs.Searches.{Finds};

use crate::numbers::NumberSet;
use ooo_code::{Node, NodeKind};
use sqlite_items::at;
use std::alloc::{AllocError, Global};

/// The nodes that are reachable from an entry without passing a wait, where all of them are below `end`.
pub(crate) fn reached(
    alloc: Global,
    nodes: &[Node],
    entry: u32,
    end: u32,
) -> Result<NumberSet, AllocError>
    requires { (n : ℕ) → Reaches nodes.now entry n → n < end }
    ensures { IfOk result (λ s. (n : ℕ) → IsIn s n ↔ Reaches nodes.now entry n) }
{
    let mut found = NumberSet::below(alloc, end)?;
    let mut left = Vec::new(alloc);
    find(&mut found, &mut left, entry)?;
    'nodes: while let Some(number) = left.pop() {
        if let Some(node) = at(nodes, number as usize) {
            follow(&mut found, &mut left, node)?;
        }
    }
    Ok(found)
}

// Finds the nodes to which a node leads.
fn follow(found: &mut NumberSet, left: &mut Vec<u32>, node: &Node) -> Result<(), AllocError>
    requires { All (λ n. n < length found.old) (successors node.now) }
    ensures { OnOk result (Finds found.old left.old.items found.new left.new.items
        (successors node.now)) }
{
    match &node.kind {
        NodeKind::Test(_, other)
        | NodeKind::TestAvailable(_, other)
        | NodeKind::TestFree(_, other) => find_both(found, left, node.next, *other),
        NodeKind::Wait(_) | NodeKind::End => Ok(()),
        _ => find(found, left, node.next),
    }
}

// Finds two nodes.
fn find_both(found: &mut NumberSet, left: &mut Vec<u32>, a: u32, b: u32) -> Result<(), AllocError>
    requires first { a < length found.old }
    requires second { b < length found.old }
    ensures { OnOk result (Finds found.old left.old.items found.new left.new.items (a ∷ b ∷ [])) }
{
    find(found, left, a)?;
    find(found, left, b)?;
    Ok(())
}

// Finds a node.
fn find(found: &mut NumberSet, left: &mut Vec<u32>, n: u32) -> Result<(), AllocError>
    requires { n < length found.old }
    ensures { OnOk result (Finds found.old left.old.items found.new left.new.items (n ∷ [])) }
{
    if found.contains(n) {
        return Ok(());
    }
    left.push(n)?;
    found.mark(n);
    Ok(())
}
