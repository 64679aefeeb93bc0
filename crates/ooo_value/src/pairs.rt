ghost use Rattle.std.specs.Prelude.{◌≡◌, not};
ghost use Rattle.ooo_value.specs.Kinds.{common_kind};
ghost use Rattle.ooo_value.specs.Values.{is_nonzero, kind_of, number_in};
ghost use Rattle.ooo_value.specs.Pairs.{pair_kind, left_of, right_of};

use crate::kinds::{Kind, common};
use crate::values::{Value, as_int, as_long, as_uint, as_ulong};

// Two operands in one promoted kind.
#[derive(Clone, Copy)]
pub(crate) enum Pair {
    Int(i32, i32),
    Uint(u32, u32),
    Long(i64, i64),
    Ulong(u64, u64),
}

impl Pair {
    // Two operands converted to their common kind.
    pub(crate) fn of(a: Value, b: Value) -> Pair
        ensures kind { pair_kind result ≡ common_kind (kind_of a) (kind_of b) }
        ensures left { left_of result ≡ number_in (common_kind (kind_of a) (kind_of b)) a }
        ensures right { right_of result ≡ number_in (common_kind (kind_of a) (kind_of b)) b }
    {
        match common(a.kind(), b.kind()) {
            Kind::Ulong => Pair::Ulong(as_ulong(a), as_ulong(b)),
            Kind::Long => Pair::Long(as_long(a), as_long(b)),
            Kind::Uint => Pair::Uint(as_uint(a), as_uint(b)),
            Kind::Int => Pair::Int(as_int(a), as_int(b)),
            Kind::Bool => unreachable!(),
        }
    }

    // Whether the right one is 0.
    pub(crate) fn is_right_zero(self) -> bool
        ensures { result ≡ not (is_nonzero (right_of self)) }
    {
        match self {
            Pair::Int(_, b) => b == 0,
            Pair::Uint(_, b) => b == 0,
            Pair::Long(_, b) => b == 0,
            Pair::Ulong(_, b) => b == 0,
        }
    }
}
