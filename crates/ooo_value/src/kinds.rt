ghost use Rattle.std.specs.Prelude.{◌≡◌, pos};
ghost use Rattle.ooo_value.specs.Kinds.{common_kind, promoted_kind};
ghost use Rattle.ooo_value.specs.Values.{value_of};

use crate::values::Value;

/// The type of a value.
#[derive(Clone, Copy, PartialEq, Eq, Debug)]
pub enum Kind {
    /// `bool`
    Bool,
    /// `int`, of 32 bits
    Int,
    /// `unsigned int`, of 32 bits
    Uint,
    /// `long long`, of 64 bits
    Long,
    /// `unsigned long long`, of 64 bits
    Ulong,
}

impl Kind {
    /// The value 0 of the kind, which is `false` for `Bool`.
    pub fn zero(self) -> Value
        ensures { result ≡ value_of self (pos 0) }
    {
        match self {
            Kind::Bool => Value::Bool(false),
            Kind::Int => Value::Int(0),
            Kind::Uint => Value::Uint(0),
            Kind::Long => Value::Long(0),
            Kind::Ulong => Value::Ulong(0),
        }
    }
}

/// The kind that an operand of a kind has for an operator: an `int` in place of a `bool`
/// (ISO C++ [conv.prom]).
pub fn promoted(kind: Kind) -> Kind
    ensures { result ≡ promoted_kind kind }
{
    match kind {
        Kind::Bool => Kind::Int,
        other => other,
    }
}

/// The kind in which two operands meet: that of the usual arithmetic conversions
/// (ISO C++ [expr.arith.conv]), after promotion, so never `Bool`.
pub fn common(a: Kind, b: Kind) -> Kind
    ensures { result ≡ common_kind a b }
{
    match (a, b) {
        (Kind::Ulong, _) | (_, Kind::Ulong) => Kind::Ulong,
        (Kind::Long, _) | (_, Kind::Long) => Kind::Long,
        (Kind::Uint, _) | (_, Kind::Uint) => Kind::Uint,
        _ => Kind::Int,
    }
}
