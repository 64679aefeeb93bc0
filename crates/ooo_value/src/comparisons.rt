ghost use Rattle.std.specs.Prelude.{◌≡◌, int_lt, int_le};
ghost use Rattle.std.specs.Ordering.{int_eq};
ghost use Rattle.ooo_value.specs.Pairs.{left_of, right_of};

use crate::pairs::Pair;

// `==`
pub(crate) fn equal(pair: Pair) -> bool
    ensures { result ≡ int_eq (left_of pair) (right_of pair) }
{
    match pair {
        Pair::Int(a, b) => a == b,
        Pair::Uint(a, b) => a == b,
        Pair::Long(a, b) => a == b,
        Pair::Ulong(a, b) => a == b,
    }
}

// `<`
pub(crate) fn less(pair: Pair) -> bool
    ensures { result ≡ int_lt (left_of pair) (right_of pair) }
{
    match pair {
        Pair::Int(a, b) => a < b,
        Pair::Uint(a, b) => a < b,
        Pair::Long(a, b) => a < b,
        Pair::Ulong(a, b) => a < b,
    }
}

// `<=`
pub(crate) fn less_or_equal(pair: Pair) -> bool
    ensures { result ≡ int_le (left_of pair) (right_of pair) }
{
    match pair {
        Pair::Int(a, b) => a <= b,
        Pair::Uint(a, b) => a <= b,
        Pair::Long(a, b) => a <= b,
        Pair::Ulong(a, b) => a <= b,
    }
}
