ghost use Rattle.std.specs.Prelude.{◌≡◌, ◌+◌, ◌++◌, [], ◌∷◌, drop, length, min, replicate, IfOk, OnOk};
ghost use Rattle.ooo_layout.specs.Scenes.{home_at};
ghost use Rattle.ooo_lower.specs.Codes.{Puts, PutsKinds};
ghost use Rattle.ooo_lower.specs.Parts.{argument_kind};
ghost use Rattle.ooo_shapes.specs.Shapes.{argument_nodes, call_kinds, function_widths, inside_call, leave_kind};
ghost use Rattle.ooo_shapes.specs.Shapes.{result_kinds, zero_nodes};
ghost use Rattle.ooo_shapes.specs.Widths.{kinds_of};

use crate::code::Code;
use crate::expressions::lowered;
use crate::kinds_of_nodes::{put_kind, result_expr, set_kind};
use crate::simples::Spot;
use ooo_bound::{BoundExpr, BoundFunction, BoundTarget};
use ooo_code::{NodeExpr, NodeKind};
use ooo_layout::numbers::{behind, narrow};
use ooo_layout::scene::Scene;
use ooo_shapes::{Around, Widths};
use ooo_value::Kind;
use std::alloc::{AllocError, Global};

// So many slots of a kind.
#[tactic(auto, using(crate::proofs::Given::one_more))]
fn push_kind(code: &mut Code, kind: Kind, count: u64) -> Result<(), AllocError>
    ensures { OnOk result (PutsKinds (replicate count kind) code.old code.new) }
{
    'slots: for _ in 0..count {
        code.slots.push(kind)?;
    }
    Ok(())
}

/// The slots of locals.
#[tactic(auto, using(crate::proofs::Puts::kinds_more))]
pub(crate) fn push_locals(code: &mut Code, w: Widths) -> Result<(), AllocError>
    ensures { OnOk result (PutsKinds (kinds_of w) code.old code.new) }
{
    push_kind(code, Kind::Bool, w.bools)?;
    push_kind(code, Kind::Int, w.ints)?;
    push_kind(code, Kind::Uint, w.uints)?;
    push_kind(code, Kind::Long, w.longs)?;
    push_kind(code, Kind::Ulong, w.ulongs)
}

// The slot of a function's result, where it has one.
fn push_result(code: &mut Code, kind: Option<Kind>) -> Result<(), AllocError>
    ensures { OnOk result (PutsKinds (result_kinds kind) code.old code.new) }
{
    match kind {
        None => Ok(()),
        Some(kind) => {
            code.slots.push(kind)?;
            Ok(())
        }
    }
}

/// The slots of a called function, whose locals need these.
#[tactic(auto, using(crate::proofs::Puts::kinds_more))]
pub(crate) fn push_kinds(
    code: &mut Code,
    function: &BoundFunction,
    widths: Widths,
) -> Result<(), AllocError>
    requires { widths ≡ function_widths function.now }
    ensures { OnOk result (PutsKinds (call_kinds function.now) code.old code.new) }
{
    push_result(code, function.result)?;
    push_locals(code, widths)
}

/// The slots from this one on get 0 of their kinds.
pub(crate) fn put_zeros(code: &mut Code, line: u32, first: u32) -> Result<(), AllocError>
    ensures { OnOk result
        (Puts (zero_nodes line first (drop first code.old.slots) (length code.old.nodes))
        code.old code.new) }
{
    'slots: for slot in first as usize..code.slots.len() {
        let to = code.after()?;
        let kind = code.slots.as_slice()[slot];
        let slot = narrow(slot as u64)?;
        code.put_uncounted(
            NodeKind::Set(slot, NodeExpr::Constant(kind.zero())),
            line,
            to,
        )?;
    }
    Ok(())
}

// An argument, for the parameter of a kind and a slot.
fn argument_kind(
    alloc: Global,
    t: Around,
    u: Around,
    kind: Kind,
    slot: u32,
    e: &BoundExpr,
) -> Result<NodeKind, AllocError>
    ensures { IfOk result (λ k. k ≡ argument_kind t u kind slot e.now) }
{
    let value = got!(lowered(alloc, t, e));
    set_kind(alloc, u, kind, slot, value)
}

/// The arguments of a call, from left to right.
pub(crate) fn put_arguments(
    alloc: Global,
    code: &mut Code,
    spot: Spot,
    u: Around,
    kinds: &[Kind],
    args: &[BoundExpr],
) -> Result<(), AllocError>
    ensures { OnOk result (Puts (argument_nodes spot.around u spot.line 0 kinds.now args.now
        (length code.old.nodes)) code.old code.new) }
{
    let given = kinds.len().min(args.len());
    'args: for n in 0..given {
        let to = got!(code.after());
        let slot = got!(narrow(n as u64));
        let kind = got!(argument_kind(alloc, spot.around, u, kinds[n], slot, &args[n]));
        got!(code.put_uncounted(kind, spot.line, to));
    }
    Ok(())
}

/// Around the body of a called function, whose locals need these slots, whose first slot is this, and whose end stands there.
pub(crate) fn frame_of(
    function: &BoundFunction,
    widths: Widths,
    free: u32,
    leave: u32,
) -> Result<Around, AllocError>
    requires { widths ≡ function_widths function.now }
    ensures { IfOk result (λ u. u ≡ inside_call function.now free leave) }
{
    let base = match function.result {
        None => free,
        Some(_) => behind(free, 1)?,
    };
    Ok(Around {
        base,
        widths,
        result_slot: free,
        result: function.result,
        break_to: leave,
        continue_to: leave,
        return_to: leave,
    })
}

/// How a call's result goes on.
pub(crate) fn leave_kind(
    alloc: Global,
    scene: Scene<'_>,
    spot: Spot,
    into: &BoundTarget,
    kind: Option<Kind>,
    free: u32,
) -> Result<NodeKind, AllocError>
    ensures { IfOk result
        (λ k. k ≡ leave_kind (home_at scene.entry) spot.around into.now kind free spot.next) }
{
    match into {
        BoundTarget::Nothing => Ok(NodeKind::Goto),
        _ => {
            let value = result_expr(kind, free);
            put_kind(alloc, scene, spot.around, into, value, spot.next)
        }
    }
}
