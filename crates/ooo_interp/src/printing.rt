//! What nodes do that print.

ghost use Rattle.std.specs.Prelude.{◌≡◌, ℕ, Option};
ghost use Rattle.ooo_code.specs.declared.node.NodeKind.TheVariants as kind;
ghost use Rattle.ooo_code.specs.Expressions.{Sight};
ghost use Rattle.ooo_code.specs.Nodes.{Running, act};
ghost use Rattle.ooo_interp.specs.declared.doing.Pause.{Pause as PauseSpec};
ghost use Rattle.ooo_interp.specs.Acting.{Emits, Steps, doing_of};

use crate::doing::{Break, Emitted};
use crate::expressions::evaluate;
use crate::parts::Lent;
use ooo_code::NodeExpr;
use ooo_time::Time;
use sqlite_items::Items;

// Prints a text.
pub(crate) fn print_text<'a>(
    emitted: &mut Emitted,
    text: &Items<u8>,
    to: u32,
) -> Result<u32, Break<'a>>
    ensures { (s : Sight) → Emits (kind.PrintText text.now) to result s emitted.old s emitted.new }
{
    emitted.output.extend_from_slice(text.as_slice())?;
    Ok(to)
}

// Prints a value.
pub(crate) fn print_value<'a, L: Lent>(
    lent: &L,
    emitted: &mut Emitted,
    e: &NodeExpr,
    to: u32,
) -> Result<u32, Break<'a>>
    ensures { let s = L.sight lent.now in
        Emits (kind.PrintValue e.now) to result s emitted.old s emitted.new }
{
    let v = evaluate(lent, e)?;
    ooo_value::append(&mut emitted.output, v)?;
    Ok(to)
}

// Prints the present time.
pub(crate) fn print_time<'a>(emitted: &mut Emitted, now: Time, to: u32) -> Result<u32, Break<'a>>
    ensures { (s : Sight) (p : Option PauseSpec) (r : Running) (number line : ℕ) →
        r.stamp.time ≡ now → Steps r line result (doing_of s emitted.new p)
        (λ next. act r kind.PrintTime number line to next (doing_of s emitted.old p)) }
{
    ooo_time::append(&mut emitted.output, now)?;
    Ok(to)
}
