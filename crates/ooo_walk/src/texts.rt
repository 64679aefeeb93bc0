ghost use Rattle.std.specs.Prelude.{◌≡◌, [], IfOk, OnOk};
ghost use Rattle.ooo_walk.specs.Plans.{filed, plans_from};
ghost use Rattle.ooo_walk.specs.Texts.{at_first, file_of, item_of, main_item_of, start_of, walk_of};
ghost use Rattle.ooo_walk.specs.States.{in_order, unless_refused};

use crate::children::entered;
use crate::plan::{Modules, Plan};
use crate::state::Walk;
use ooo_checked::CheckedUnit;
use ooo_value::Name;
use sqlite_items::Items;
use std::alloc::{AllocError, Global};

// Nothing has been walked.
fn at_first(alloc: Global) -> Walk
    ensures { result ≡ at_first }
{
    Walk {
        file: Items::new(alloc),
        objects: 0,
        cells: 0,
        variables: Items::new(alloc),
        channels: Items::new(alloc),
        events: Items::new(alloc),
        ports: Items::new(alloc),
        instances: Items::new(alloc),
        processes: Items::new(alloc),
        bindings: Items::new(alloc),
        stop: None,
        here: entered(alloc, Name::from_bytes(Vec::new(alloc)), Items::new(alloc)),
        refusal: None,
    }
}

impl Walk {
    // The declarations of a text, from the file's to those of `sc_main`, until something is refused.
    fn text(&mut self, alloc: Global, unit: &CheckedUnit, plans: &[Plan]) -> Result<(), AllocError>
        requires { plans.now ≡ plans_from 0 unit.now.items }
        ensures { OnOk result (self.new ≡ unless_refused (start_of unit.now.main.start)
            (in_order (main_item_of (file_of unit.now)) unit.now.main.items
            (in_order item_of unit.now.items self.old))) }
    {
        let modules = Modules {
            items: unit.items.as_slice(),
            plans,
        };
        got!(self.file_items(alloc, unit.items.as_slice()));
        got!(self.main_items(alloc, modules, unit.main.items.as_slice()));
        if self.refusal.is_some() {
            return Ok(());
        }
        self.start_form(alloc, &unit.main.start)
    }
}

/// Walks the declarations of a text, whose names the plans are of: what is known of it when all of it has been walked, or
/// what was refused first.
///
/// # Errors
///
/// Only where memory runs out.
pub fn walk(alloc: Global, unit: &CheckedUnit, plans: &[Plan]) -> Result<Walk, AllocError>
    requires { plans.now ≡ plans_from 0 unit.now.items }
    ensures { IfOk result (λ walk. walk ≡ walk_of unit.now) }
{
    let mut walk = at_first(alloc);
    keeping!(walk; walk.text(alloc, unit, plans));
    Ok(walk)
}
