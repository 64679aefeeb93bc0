ghost use Rattle.std.specs.Prelude.{◌≡◌};
ghost use Rattle.ooo_types.specs.Told.{IsAnswerTo};
ghost use Rattle.ooo_types.specs.Units.{unit_of};

use crate::law;
use crate::units::unit;
use ooo_bodies::notes::Notes;
use ooo_checked::{CheckedUnit, TypeError};
use ooo_syntax::Unit;
use std::alloc::Global;
use std::marker::Model;

/// A whole text whose names and types are right. It is seen as the text that it was made from, and lends the text's tree
/// with what each name denotes beside each name and its kind beside each expression.
#[derive(Drop)]
pub struct Checked {
    tree: CheckedUnit,
}

impl Model for Checked {
    ghost use Rattle.ooo_syntax.specs.declared.unit.Unit.{Unit as UnitSpec};
    ghost use Rattle.ooo_syntax.specs.contracts.expr.Expr as e;
    ghost use Rattle.ooo_syntax.specs.contracts.stat.Stat as s;
    ghost use Rattle.std.specs.Coded.{codes};

    ghost Value = { UnitSpec };

    ghost coded = { Prim.hlevel (codes, e.the_row.coded, s.the_row.coded) };

    ghost use Rattle.ooo_types.specs.Told.{IsOfItsText, text_of};

    ghost view = { text_of };

    ghost invariant = { IsOfItsText };
}

impl Checked {
    /// The text's tree, with what each name denotes and the kind of each expression.
    pub fn tree(&self) -> &CheckedUnit
        ensures { result.now ≡ (unit_of self.now).tree }
    {
        &self.tree
    }
}

/// Checks the names and types of a text, and lets its tree go part by part.
///
/// # Errors
///
/// The breach of the text's names and types that stands first in it, and of several at one place the one that stands
/// first in [`ooo_checked::TypeBreach`]; or memory runs out.
pub fn check(alloc: Global, text: Unit) -> Result<Checked, TypeError>
    ensures { IsAnswerTo text result }
{
    let mut notes = Notes::new(alloc);
    let tree = unit(alloc, text, &mut notes)?;
    match notes.breach {
        Some(breach) => {
            drop(tree);
            Err(TypeError::Refused(breach.what, breach.at))
        }
        None => {
            law::texts();
            Ok(Checked { tree })
        }
    }
}
