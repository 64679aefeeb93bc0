ghost use Rattle.std.specs.Prelude.{◌≡◌, ◌%◌, ◌^◌};
ghost use Rattle.std.specs.Int.{int_wrap, w32, w64};
ghost use Rattle.ooo_value.specs.Values.{conversion_of, kind_of, number_of, residue, truth_of};

use crate::kinds::Kind;

/// A value of the simulated language, of one of the five kinds.
#[derive(Clone, Copy, PartialEq, Eq, Debug)]
pub enum Value {
    /// A `bool`.
    Bool(bool),
    /// An `int`.
    Int(i32),
    /// An `unsigned int`.
    Uint(u32),
    /// A `long long`.
    Long(i64),
    /// An `unsigned long long`.
    Ulong(u64),
}

impl Value {
    /// The value's kind.
    pub fn kind(self) -> Kind
        ensures { result ≡ kind_of self }
    {
        match self {
            Value::Bool(_) => Kind::Bool,
            Value::Int(_) => Kind::Int,
            Value::Uint(_) => Kind::Uint,
            Value::Long(_) => Kind::Long,
            Value::Ulong(_) => Kind::Ulong,
        }
    }
}

/// Whether the value differs from 0 (ISO C++ [conv.bool]).
pub fn truth(v: Value) -> bool
    ensures { result ≡ truth_of v }
{
    match v {
        Value::Bool(b) => b,
        Value::Int(x) => x != 0,
        Value::Uint(x) => x != 0,
        Value::Long(x) => x != 0,
        Value::Ulong(x) => x != 0,
    }
}

/// The value of a kind that `v` converts to: for `Bool` whether `v` differs from 0, and for any
/// other kind the one congruent to `v` modulo 2 to the kind's width (ISO C++ [conv.integral],
/// [conv.bool]). It never faults.
pub fn convert(v: Value, to: Kind) -> Value
    ensures { result ≡ conversion_of v to }
{
    match to {
        Kind::Bool => Value::Bool(truth(v)),
        Kind::Int => Value::Int(as_int(v)),
        Kind::Uint => Value::Uint(as_uint(v)),
        Kind::Long => Value::Long(as_long(v)),
        Kind::Ulong => Value::Ulong(as_ulong(v)),
    }
}

// The value as an `int`.
#[tactic(auto, using(crate::proofs::Wraps::int_wrap_is))]
pub(crate) fn as_int(v: Value) -> i32
    ensures { result ≡ int_wrap w32 (number_of v) }
{
    match v {
        Value::Bool(b) => i32::from(b),
        Value::Int(x) => x,
        Value::Uint(x) => x.cast_signed(),
        Value::Long(x) => low_half(x.cast_unsigned()).cast_signed(),
        Value::Ulong(x) => low_half(x).cast_signed(),
    }
}

// The value as an `unsigned int`.
pub(crate) fn as_uint(v: Value) -> u32
    ensures { result ≡ residue 32 (number_of v) }
{
    match v {
        Value::Bool(b) => u32::from(b),
        Value::Int(x) => x.cast_unsigned(),
        Value::Uint(x) => x,
        Value::Long(x) => low_half(x.cast_unsigned()),
        Value::Ulong(x) => low_half(x),
    }
}

// The value as a `long long`.
#[tactic(auto, using(crate::proofs::Wraps::int_wrap_is))]
pub(crate) fn as_long(v: Value) -> i64
    ensures { result ≡ int_wrap w64 (number_of v) }
{
    match v {
        Value::Bool(b) => i64::from(b),
        Value::Int(x) => i64::from(x),
        Value::Uint(x) => i64::from(x),
        Value::Long(x) => x,
        Value::Ulong(x) => x.cast_signed(),
    }
}

// The value as an `unsigned long long`.
pub(crate) fn as_ulong(v: Value) -> u64
    ensures { result ≡ residue 64 (number_of v) }
{
    match v {
        Value::Bool(b) => u64::from(b),
        Value::Int(x) => i64::from(x).cast_unsigned(),
        Value::Uint(x) => u64::from(x),
        Value::Long(x) => x.cast_unsigned(),
        Value::Ulong(x) => x,
    }
}

// The lower 32 of 64 bits.
fn low_half(bits: u64) -> u32
    ensures { result ≡ bits % 2 ^ 32 }
{
    (bits % (1 << 32)) as u32
}
