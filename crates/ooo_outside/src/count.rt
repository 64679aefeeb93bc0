ghost use Rattle.std.specs.Prelude.{◌≡◌};
ghost use Rattle.ooo_outside.specs.Memory.{counted};

/// The next value of a counter, which stands still at its end.
pub(crate) fn counted(count: u64) -> u64
    ensures { result ≡ counted count }
{
    count.saturating_add(1)
}
