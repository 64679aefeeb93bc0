ghost use Rattle.std.specs.Prelude.{◌≡◌, ◌<◌, ◌≤◌, ℕ, [], Err, IfOk, OnOk};
ghost use Rattle.ooo_activation.specs.Runs as by_statements;
ghost use Rattle.ooo_activation.specs.Sound.{IsSound as IsSoundModel};
ghost use Rattle.ooo_code.specs.Sound.{IsSound};
ghost use Rattle.ooo_code.specs.declared.limits.Limits.{Limits as LimitsSpec};
ghost use Rattle.ooo_lower.specs.declared.designs.LowerError.TheVariants as lower_error;
ghost use Rattle.ooo_lower.specs.declared.designs.TheConstants.{GREATEST_SIZE};
ghost use Rattle.ooo_meaning.specs.Runs as by_nodes;
ghost use Rattle.ooo_shapes.specs.Sizes.{code_size};
ghost use Rattle.ooo_layout.specs.Extents.{IsKnown};
ghost use Rattle.ooo_lower.specs.Codes.{PutsKinds};
ghost use Rattle.ooo_lower.specs.Lowered.{HasProcess};
ghost use Rattle.ooo_shapes.specs.Designs.{around_process, design_of};
ghost use Rattle.ooo_shapes.specs.Expressions.{first_kinds};

use crate::calls::push_locals;
use crate::code::Code;
use crate::simples::{Site, Spot};
use crate::statements::emit_stats;
use ooo_bound::{Bound, BoundProcess};
use ooo_code::{Design, NodeKind, Proc};
use ooo_layout::extents::{body_size, find_outlines};
use ooo_layout::numbers::past;
use ooo_layout::scene::{Known, Scene};
use ooo_layout::sizes::{is_within, weights_of};
use ooo_layout::widths::of_body;
use ooo_shapes::law::{same_runs, sound_design};
use ooo_shapes::{Around, Widths};
use ooo_value::Kind;
use sqlite_items::Items;
use std::alloc::{AllocError, Global};

// The slots of a process that hold values and indices within a statement.
fn push_first(alloc: Global, code: &mut Code) -> Result<(), AllocError>
    ensures { OnOk result (PutsKinds first_kinds code.old code.new) }
{
    let kinds = [
        Kind::Bool,
        Kind::Int,
        Kind::Uint,
        Kind::Long,
        Kind::Ulong,
        Kind::Bool,
        Kind::Int,
        Kind::Uint,
        Kind::Long,
        Kind::Ulong,
    ];
    let first = Items::from_slice(alloc, &kinds)?;
    code.slots.append(first)
}

// Around the body of a process whose end stands there.
fn around_process(widths: Widths, end: u32) -> Around
    ensures { result ≡ around_process widths end }
{
    Around {
        base: 10,
        widths,
        result_slot: 0,
        result: None,
        break_to: end,
        continue_to: end,
        return_to: end,
    }
}

// The nodes of a process; answers the process.
fn lower_process(
    alloc: Global,
    known: Known<'_>,
    code: &mut Code,
    process: &BoundProcess,
) -> Result<Proc, AllocError>
    requires known { IsKnown known }
    requires slots { code.old.slots ≡ [] }
    ensures { IfOk result
        (λ p. HasProcess known.entry.model.now process.now p code.old code.new) }
{
    let scene = Scene {
        known,
        sensitive: &process.sensitive,
    };
    let depth = known.model.functions.len();
    let body = process.body.as_slice();
    let widths = of_body(body);
    let first = got!(code.at());
    let size = got!(body_size(scene, depth, body));
    let end = got!(past(first, size));
    got!(push_first(alloc, code));
    got!(push_locals(code, widths));
    let spot = Spot {
        around: around_process(widths, end),
        line: 0,
        next: end,
        depth,
    };
    got!(emit_stats(Site { alloc, scene, spot }, code, body));
    got!(code.put_uncounted(NodeKind::End, 0, end));
    let after = got!(code.at());
    let sensitive = got!(Items::from_slice(alloc, process.sensitive.as_slice()));
    let slots = std::mem::replace(&mut code.slots, Items::new(alloc));
    Ok(Proc {
        kind: process.kind,
        first,
        end: after,
        slots,
        sensitive,
        initialize: process.initialize,
    })
}

// The design of a bound model: its statements as nodes, whatever their number.
fn lowered_design(alloc: Global, known: Known<'_>) -> Result<Design, AllocError>
    requires { IsKnown known }
    ensures { IfOk result (λ design. design ≡ design_of known.entry.model.now) }
{
    let model = known.model;
    let mut processes = Items::new(alloc);
    let mut code = Code {
        nodes: Items::new(alloc),
        slots: Items::new(alloc),
    };
    'processes: for process in model.processes.as_slice() {
        let lowered = keeping!(code, processes; lower_process(alloc, known, &mut code, process));
        keeping!(code, processes; processes.push(lowered));
    }
    let variables = keeping!(code, processes; Items::from_slice(alloc, model.variables.as_slice()));
    let channels =
        keeping!(code, processes, variables; Items::from_slice(alloc, model.channels.as_slice()));
    let events =
        keeping!(code, processes, variables, channels; Items::from_slice(alloc, model.events.as_slice()));
    Ok(Design {
        nodes: code.nodes,
        processes,
        variables,
        channels,
        events,
    })
}

/// The greatest size of the code of a model: how many of its items count against the statement limit, each where it is
/// written, and those of a called function anew for each call.
pub const GREATEST_SIZE: u64 = 65_536;

/// Why a model isn't lowered.
#[derive(Clone, Copy, PartialEq, Eq, Debug)]
pub enum LowerError {
    /// The code is larger than [`GREATEST_SIZE`].
    CodeTooLarge,
    /// Memory ran out, which says nothing of the model; or functions call one another in a circle, which those of a sound
    /// model don't.
    OutOfMemory,
}

impl From<AllocError> for LowerError {
    ghost use Rattle.std.specs.Prelude.{◌≡◌};
    ghost use Rattle.ooo_lower.specs.declared.designs.LowerError.TheVariants as lower_error;

    ghost from_gives = { λ _ error. error ≡ lower_error.OutOfMemory };

    fn from(_error: AllocError) -> LowerError {
        LowerError::OutOfMemory
    }
}

/// The design of a bound model: its statements as nodes. Of a sound model the design is sound, and has the same runs
/// (`ooo_shapes::law`).
///
/// # Errors
///
/// [`LowerError::CodeTooLarge`] exactly where the size of the code is above [`GREATEST_SIZE`], and
/// [`LowerError::OutOfMemory`].
pub fn lower(alloc: Global, model: &Bound) -> Result<Design, LowerError>
    ensures design { IfOk result (λ design. design ≡ design_of model.now) }
    ensures within { IfOk result (λ design. code_size model.now ≤ GREATEST_SIZE) }
    ensures too_large { result ≡ Err lower_error.CodeTooLarge →
        GREATEST_SIZE < code_size model.now }
    ensures sound { IsSoundModel model.now → IfOk result IsSound }
    ensures runs { (bounds : LimitsSpec) (n : ℕ) → IsSoundModel model.now → IfOk result (λ design.
        by_statements.sequential_run model.now bounds n ≡ by_nodes.sequential_run design bounds n) }
{
    sound_design();
    same_runs();
    let weights = weights_of(alloc, model.functions.as_slice())?;
    if !is_within(alloc, model, weights.as_slice(), GREATEST_SIZE)? {
        return Err(LowerError::CodeTooLarge);
    }
    let outlines = find_outlines(alloc, model, weights.as_slice())?;
    let known = Known {
        model,
        outlines: outlines.as_slice(),
    };
    let design = lowered_design(alloc, known)?;
    Ok(design)
}
