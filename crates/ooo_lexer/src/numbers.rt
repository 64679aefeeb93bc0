ghost use Rattle.std.specs.Prelude.{◌≡◌, ◌<◌, MatchOption, Some};
ghost use Rattle.ooo_lexer.specs.Numbers.{radix, digit_value, value_of, kinds_of, greatest_of, first_holding, HasNoNumber, IsNumberOf};
ghost use Rattle.ooo_lexer.specs.Numerals.{class_of, are_digits, suffix_of, fitting, number_with, number_after, number_of};

use crate::breach::LexBreach;
use crate::bytes::{Class, is_digit};

/// The kind of a number (ISO/IEC 14882, [basic.fundamental]).
#[derive(Clone, Copy, PartialEq, Eq)]
pub enum NumberKind {
    /// `int`, of 32 bits.
    Int,
    /// `unsigned int`, of 32 bits.
    Uint,
    /// `long long`, of 64 bits.
    Long,
    /// `unsigned long long`, of 64 bits.
    Ulong,
}

/// A number: its kind, which holds its value.
#[derive(Clone, Copy, PartialEq, Eq)]
pub struct Number {
    /// Its kind.
    pub kind: NumberKind,
    /// Its value.
    pub value: u64,
}

/// How a number's digits are written.
#[derive(Clone, Copy)]
pub(crate) enum Base {
    Decimal,
    Hexadecimal,
}

/// What follows a number's digits.
#[derive(Clone, Copy)]
pub(crate) enum Suffix {
    /// Nothing.
    Bare,
    /// `u`.
    Unsigned,
    /// `ll`.
    Long,
    /// `ull`.
    UnsignedLong,
}

/// The number that a number token's bytes are, or none where they are no number or none of its kinds
/// holds the value (ISO/IEC 14882, [lex.icon]).
#[inline(never)]
pub fn read_number(bytes: &[u8]) -> Option<Number>
    ensures { MatchOption result (HasNoNumber bytes.now) (λ n. IsNumberOf bytes.now n) }
{
    number_of(bytes).ok()
}

/// The number that bytes are, or why they are none.
#[tactic(auto, unfolding(crate::specs::Numerals::number_of))]
pub(crate) fn number_of(bytes: &[u8]) -> Result<Number, LexBreach>
    ensures { result ≡ number_of bytes.now }
{
    match bytes {
        [b'0', b'x' | b'X', rest @ ..] => number_after(Base::Hexadecimal, rest),
        _ => number_after(Base::Decimal, bytes),
    }
}

// A number, by what follows its prefix.
fn number_after(base: Base, bytes: &[u8]) -> Result<Number, LexBreach>
    ensures { result ≡ number_after base bytes.now }
{
    let (digits, ending) = base.class().split(bytes);
    if !base.are_digits(digits) {
        return Err(LexBreach::BadNumber);
    }
    let Some(suffix) = suffix_of(ending) else {
        return Err(LexBreach::BadNumber);
    };
    number_with(base, digits, suffix)
}

// The number of these digits and this suffix.
fn number_with(base: Base, digits: &[u8], suffix: Suffix) -> Result<Number, LexBreach>
    ensures { result ≡ number_with base digits.now (Some suffix) }
{
    let Some(value) = base.value_of(digits) else {
        return Err(LexBreach::NumberTooWide);
    };
    match first_holding(kinds_of(base, suffix), value) {
        None => Err(LexBreach::NumberTooWide),
        Some(kind) => Ok(Number { kind, value }),
    }
}

impl Base {
    fn class(self) -> Class
        ensures { result ≡ class_of self }
    {
        match self {
            Base::Decimal => Class::Digit,
            Base::Hexadecimal => Class::HexDigit,
        }
    }

    fn radix(self) -> u64
        ensures { result ≡ radix self }
    {
        match self {
            Base::Decimal => 10,
            Base::Hexadecimal => 16,
        }
    }

    // Whether a run of digits may be a number's.
    fn are_digits(self, run: &[u8]) -> bool
        ensures { result ≡ are_digits self run.now }
    {
        match (self, run) {
            (_, []) => false,
            (Base::Decimal, [first, others @ ..]) => *first != b'0' || others.is_empty(),
            (Base::Hexadecimal, _) => true,
        }
    }

    // The value of digits, if 64 bits hold it.
    fn value_of(self, digits: &[u8]) -> Option<u64>
        ensures { result ≡ fitting (value_of self digits.now) }
    {
        let mut value: u64 = 0;
        for digit in digits {
            value = value
                .checked_mul(self.radix())?
                .checked_add(digit_value(*digit))?;
        }
        Some(value)
    }
}

fn digit_value(digit: u8) -> u64
    ensures { result ≡ digit_value digit }
{
    if is_digit(digit) {
        (digit - b'0') as u64
    } else if digit >= b'a' {
        (digit - b'a' + 10) as u64
    } else {
        digit.saturating_sub(b'A' - 10) as u64
    }
}

fn suffix_of(bytes: &[u8]) -> Option<Suffix>
    ensures { result ≡ suffix_of bytes.now }
{
    match bytes {
        b"" => Some(Suffix::Bare),
        b"u" | b"U" => Some(Suffix::Unsigned),
        b"ll" | b"LL" => Some(Suffix::Long),
        b"ull" | b"ULL" => Some(Suffix::UnsignedLong),
        _ => None,
    }
}

// The kinds that are tried, in this order.
fn kinds_of(base: Base, suffix: Suffix) -> &'static [NumberKind]
    ensures { result.now ≡ kinds_of base suffix }
{
    use NumberKind::{Int, Long, Uint, Ulong};
    match (base, suffix) {
        (Base::Decimal, Suffix::Bare) => &[Int, Long],
        (Base::Hexadecimal, Suffix::Bare) => &[Int, Uint, Long, Ulong],
        (_, Suffix::Unsigned) => &[Uint, Ulong],
        (Base::Decimal, Suffix::Long) => &[Long],
        (Base::Hexadecimal, Suffix::Long) => &[Long, Ulong],
        (_, Suffix::UnsignedLong) => &[Ulong],
    }
}

fn first_holding(kinds: &[NumberKind], value: u64) -> Option<NumberKind>
    ensures { result ≡ first_holding kinds.now value }
{
    for kind in kinds {
        if value <= kind.greatest() {
            return Some(*kind);
        }
    }
    None
}

impl NumberKind {
    // The greatest value that the kind holds.
    fn greatest(self) -> u64
        ensures { result ≡ greatest_of self }
    {
        match self {
            NumberKind::Int => 2_147_483_647,
            NumberKind::Uint => 4_294_967_295,
            NumberKind::Long => 9_223_372_036_854_775_807,
            NumberKind::Ulong => 18_446_744_073_709_551_615,
        }
    }
}
