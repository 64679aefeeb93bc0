ghost use Rattle.std.specs.Prelude.{◌≡◌, IfOk};

use std::alloc::AllocError;

/// A count as a model holds it, in 32 bits.
///
/// # Errors
///
/// Out of memory above `2^32 - 1`: a text of 1 MiB makes no model that counts so far.
pub fn narrow(n: usize) -> Result<u32, AllocError>
    ensures { IfOk result (λ m. m ≡ n) }
{
    u32::try_from(n).map_err(|_| AllocError)
}
