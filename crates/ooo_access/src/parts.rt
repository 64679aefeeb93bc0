ghost use Rattle.std.specs.Prelude.{ℕ, ◌⊎◌, ◌↔◌, Contains, IfOk, OnOk};
ghost use Rattle.ooo_segments.specs.Numbers.{IsIn};
ghost use Rattle.ooo_access.specs.Told.{IsTold};

use crate::told::{Part, Told};
use ooo_segments::NumberSet;
use std::alloc::{AllocError, Global};

// The numbers that are told in a part.
pub(crate) fn set_of(alloc: Global, told: &[Told], part: Part) -> Result<NumberSet, AllocError>
    ensures { IfOk result (λ s. (n : ℕ) → IsIn s n ↔ IsTold part n told.now) }
{
    let mut numbers = NumberSet::new(alloc);
    for one in told {
        if let Some(n) = part.number(one) {
            numbers.add(n)?;
        }
    }
    Ok(numbers)
}

// Adds these numbers to a set.
pub(crate) fn add_all(set: &mut NumberSet, numbers: &[u32]) -> Result<(), AllocError>
    ensures { OnOk result ((n : ℕ) → IsIn set.new n ↔ (IsIn set.old n ⊎ Contains numbers.now n)) }
{
    for n in numbers {
        set.add(*n)?;
    }
    Ok(())
}
