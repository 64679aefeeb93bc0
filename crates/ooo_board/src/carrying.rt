//! Variables that a job carries: those that it may change are moved out and back, the others are copied.

ghost use Rattle.std.specs.Prelude.{◌≡◌, ◌<◌, [], length, All, IfOk};
ghost use Rattle.ooo_interp.specs.Carrying.{put_in};
ghost use Rattle.ooo_board.specs.Carrying.{bare, carried_from, taken_from};

use ooo_code::Cells;
use sqlite_items::Items;
use std::alloc::{AllocError, Global};
use std::mem;

/// Copies of the variables of these numbers.
///
/// # Errors
///
/// Only where memory runs out.
pub(crate) fn copies(
    alloc: Global,
    variables: &[Cells],
    numbers: &[u32],
) -> Result<Vec<(u32, Cells)>, AllocError>
    requires { All (λ x. x < length variables.now) numbers.now }
    ensures { IfOk result (λ copied. copied.items ≡ carried_from variables.now numbers.now) }
{
    let mut copied = Vec::with_capacity(alloc, numbers.len())?;
    for x in numbers {
        let cells = Items::from_slice(alloc, variables[*x as usize].as_slice());
        copied.push_reserved((*x, keeping!(copied; cells)));
    }
    Ok(copied)
}

/// The numbers, each with no cells yet, in this vector.
///
/// # Errors
///
/// Only where memory runs out.
pub(crate) fn bare(
    alloc: Global,
    room: Vec<(u32, Cells)>,
    numbers: &[u32],
) -> Result<Vec<(u32, Cells)>, AllocError>
    requires { room.items ≡ [] }
    ensures { IfOk result (λ owned. owned.items ≡ bare numbers.now) }
{
    let mut owned = room;
    keeping!(owned; owned.reserve_exact(numbers.len()));
    for x in numbers {
        owned.push_reserved((*x, Items::new(alloc)));
    }
    Ok(owned)
}

/// Moves the cells of each variable out that has a place for them among these, which have none yet.
pub(crate) fn move_out(variables: &mut Vec<Cells>, owned: &mut Vec<(u32, Cells)>)
    requires { All (λ c. c.0 < length variables.old.items) owned.old.items }
    ensures { taken_from variables.old.items owned.old.items
        ≡ (variables.new.items, owned.new.items) }
{
    for i in 0..owned.len() {
        let x = owned[i].0 as usize;
        mem::swap(&mut variables[x], &mut owned[i].1);
    }
}

/// Moves cells back to their variables. What carried them is handed back, with nothing in it.
pub(crate) fn move_back(variables: &mut Vec<Cells>, owned: Vec<(u32, Cells)>) -> Vec<(u32, Cells)>
    requires { All (λ c. c.0 < length variables.old.items) owned.items }
    ensures { variables.new.items ≡ put_in owned.items variables.old.items }
{
    let mut owned = owned;
    'variables: while let Some((x, cells)) = owned.pop() {
        variables[x as usize] = cells;
    }
    owned
}
