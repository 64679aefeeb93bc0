ghost use Rattle.std.specs.Prelude.{ℕ, ◌↔◌, ◌⊎◌, Contains, IfOk, OnOk};
ghost use Rattle.ooo_segments.specs.Numbers.{IsIn};
ghost use Rattle.ooo_access.specs.Told.{entry_waits, start_waits, triggers_at, triggers_of, waits_at};
ghost use Rattle.std.specs.Prelude.{slice_get};

use crate::parts::add_all;
use ooo_code::{Design, NodeKind, Proc, SegmentEntry};
use ooo_segments::NumberSet;
use ooo_value::ProcessKind;
use sqlite_items::at;
use std::alloc::{AllocError, Global};

// The events on which an entry waits, whose segment has these nodes.
pub(crate) fn waited_on(
    alloc: Global,
    design: &Design,
    process: &Proc,
    entry: SegmentEntry,
    nodes: &[u32],
) -> Result<NumberSet, AllocError>
    ensures { IfOk result (λ s. (e : ℕ) →
        IsIn s e ↔ Contains (entry_waits design.now process.now nodes.now entry) e) }
{
    let mut waited = NumberSet::new(alloc);
    match entry {
        SegmentEntry::Start => add_start(&mut waited, design, process, nodes)?,
        SegmentEntry::After(wait) => add_wait(&mut waited, design, wait)?,
    }
    Ok(waited)
}

// Adds the events on which the start of a process waits.
fn add_start(
    waited: &mut NumberSet,
    design: &Design,
    process: &Proc,
    nodes: &[u32],
) -> Result<(), AllocError>
    ensures { OnOk result ((e : ℕ) → IsIn waited.new e ↔ (IsIn waited.old e
        ⊎ Contains (start_waits design.now process.now nodes.now process.now.kind) e)) }
{
    match process.kind {
        ProcessKind::Thread if process.initialize => Ok(()),
        ProcessKind::Thread => add_all(waited, process.sensitive.as_slice()),
        ProcessKind::Method => {
            add_all(waited, process.sensitive.as_slice())?;
            add_triggers(waited, design, nodes)?;
            Ok(())
        }
    }
}

// Adds the events of a wait.
fn add_wait(waited: &mut NumberSet, design: &Design, wait: u32) -> Result<(), AllocError>
    ensures { OnOk result ((e : ℕ) → IsIn waited.new e ↔ (IsIn waited.old e
        ⊎ Contains (waits_at (slice_get design.now.nodes wait)) e)) }
{
    match at(design.nodes.as_slice(), wait as usize) {
        Some(node) => match &node.kind {
            NodeKind::Wait(on) => add_all(waited, on.events.as_slice()),
            _ => Ok(()),
        },
        None => Ok(()),
    }
}

// Adds the events that the next_triggers of these nodes name.
fn add_triggers(waited: &mut NumberSet, design: &Design, nodes: &[u32]) -> Result<(), AllocError>
    ensures { OnOk result ((e : ℕ) → IsIn waited.new e
        ↔ (IsIn waited.old e ⊎ Contains (triggers_of design.now nodes.now) e)) }
{
    for n in nodes {
        add_triggers_at(waited, design, *n)?;
    }
    Ok(())
}

// Adds the events that the node's next_trigger names.
fn add_triggers_at(waited: &mut NumberSet, design: &Design, n: u32) -> Result<(), AllocError>
    ensures { OnOk result ((e : ℕ) → IsIn waited.new e ↔ (IsIn waited.old e
        ⊎ Contains (triggers_at (slice_get design.now.nodes n)) e)) }
{
    match at(design.nodes.as_slice(), n as usize) {
        Some(node) => match &node.kind {
            NodeKind::Trigger(on) => add_all(waited, on.events.as_slice()),
            _ => Ok(()),
        },
        None => Ok(()),
    }
}
