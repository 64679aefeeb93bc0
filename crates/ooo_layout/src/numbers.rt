ghost use Rattle.std.specs.Prelude.{◌≡◌, ◌+◌, IfOk};

use std::alloc::AllocError;

/// A number in 32 bits.
///
/// # Errors
///
/// Out of memory above `2^32 - 1`: no design has so many nodes or slots.
pub fn narrow(n: u64) -> Result<u32, AllocError>
    ensures { IfOk result (λ m. m ≡ n) }
{
    match u32::try_from(n) {
        Ok(m) => Ok(m),
        Err(_) => Err(AllocError),
    }
}

/// A sum.
///
/// # Errors
///
/// Out of memory where 64 bits don't hold it.
pub fn sum(a: u64, b: u64) -> Result<u64, AllocError>
    ensures { IfOk result (λ n. n ≡ a + b) }
{
    match a.checked_add(b) {
        Some(n) => Ok(n),
        None => Err(AllocError),
    }
}

/// The number of the node or slot that stands so many behind the one with the number `at`.
///
/// # Errors
///
/// Out of memory where 32 bits don't hold it.
pub fn behind(at: u32, by: u32) -> Result<u32, AllocError>
    ensures { IfOk result (λ n. n ≡ at + by) }
{
    match at.checked_add(by) {
        Some(n) => Ok(n),
        None => Err(AllocError),
    }
}

/// The number of the node behind so many nodes, of which the first has the number `at`.
///
/// # Errors
///
/// Out of memory where 32 bits don't hold it.
pub fn past(at: u32, size: u64) -> Result<u32, AllocError>
    ensures { IfOk result (λ n. n ≡ at + size) }
{
    behind(at, narrow(size)?)
}

/// A number less another one.
///
/// # Errors
///
/// Out of memory where the other one is greater.
pub fn less(a: u64, b: u64) -> Result<u64, AllocError>
    ensures { IfOk result (λ n. n + b ≡ a) }
{
    match a.checked_sub(b) {
        Some(n) => Ok(n),
        None => Err(AllocError),
    }
}
