//! Laws of kinds, values and operators. Each function does nothing, and its contract is the law.

ghost use Rattle.std.specs.Prelude.{◌≡◌, ◌≢◌, ◌↔◌, ◌⊎◌, ◌+◌, ◌^◌, pos, neg_ℤ, unsigned_abs, IsTrue, IsFalse, Ok, Err, IfOk, IfErr};
ghost use Rattle.std.specs.Int.{int_shr};
ghost use Rattle.ooo_value.specs.declared.kinds.Kind.TheVariants as kind;
ghost use Rattle.ooo_value.specs.declared.operators.Fault.TheVariants as fault;
ghost use Rattle.ooo_value.specs.declared.operators.Op.TheVariants as op;
ghost use Rattle.ooo_value.specs.declared.values.Value.TheVariants as value;
ghost use Rattle.ooo_value.specs.Faults.{DividesByZero, Overflows, ShiftsTooFar, is_shift};
ghost use Rattle.ooo_value.specs.Kinds.{common_kind, is_signed, promoted_kind, width_of};
ghost use Rattle.ooo_value.specs.Operators.{IsFloor, IsQuotientAndRest, binary_kind, binary_of, bits_in, inversion_of, negation_of, shift_of};
ghost use Rattle.ooo_value.specs.Times.{IsTime, ticks_in, time_of};
ghost use Rattle.ooo_value.specs.Values.{IsCongruent, IsOfKind, conversion_of, kind_of, number_in, number_of, is_in_range};

use crate::kinds::Kind;
use crate::operators::Op;
use crate::values::Value;
use ooo_time::Scale;

/// The common kind is that of the same operands the other way round.
pub fn common_is_symmetric(a: Kind, b: Kind)
    ensures { common_kind a b ≡ common_kind b a }
{}

/// Of three operands it doesn't matter which two meet first.
pub fn common_is_associative(a: Kind, b: Kind, c: Kind)
    ensures { common_kind (common_kind a b) c ≡ common_kind a (common_kind b c) }
{}

/// A common kind is a promoted one, and two operands of one promoted kind meet in it.
pub fn common_is_promoted(a: Kind, b: Kind)
    ensures promoted { promoted_kind (common_kind a b) ≡ common_kind a b }
    ensures same { common_kind a a ≡ promoted_kind a }
{}

/// A value of any kind stands for an integer in the kind's range.
pub fn values_are_in_range(v: Value)
    ensures { IsTrue (is_in_range (kind_of v) (number_of v)) }
{}

/// A value converted to its own kind is that value.
pub fn conversion_to_own_kind(v: Value)
    ensures { conversion_of v (kind_of v) ≡ v }
{}

/// A value converted to a kind is one of that kind.
pub fn conversion_is_of_the_kind(v: Value, to: Kind)
    ensures kind { kind_of (conversion_of v to) ≡ to }
    ensures range { IsTrue (is_in_range to (number_of (conversion_of v to))) }
{}

/// A conversion to another kind than `Bool` keeps the value modulo 2 to the kind's width, and one
/// to `Bool` keeps whether it is 0.
pub fn conversion_is_congruent(v: Value, to: Kind)
    ensures number { let z = number_of (conversion_of v to) in
        to ≢ kind.Bool → IsCongruent (width_of to) z (number_of v) }
    ensures bool { (number_of (conversion_of v kind.Bool) ≡ pos 0) ↔ (number_of v ≡ pos 0) }
{}

/// An operator other than a shift, so each comparison, is that of its operands once they are
/// converted to their common kind.
pub fn operands_are_converted(op: Op, a: Value, b: Value)
    ensures { let k = common_kind (kind_of a) (kind_of b) in
        IsFalse (is_shift op) →
        binary_of op a b ≡ binary_of op (conversion_of a k) (conversion_of b k) }
{}

/// Each fault of an operator comes exactly where C++ leaves the result undefined.
pub fn binary_faults(op: Op, a: Value, b: Value)
    ensures overflow { (binary_of op a b ≡ Err fault.Overflow) ↔ Overflows op a b }
    ensures divide_by_zero { (binary_of op a b ≡ Err fault.DivideByZero) ↔ DividesByZero op b }
    ensures shift_range { (binary_of op a b ≡ Err fault.ShiftRange) ↔ ShiftsTooFar op a b }
    ensures no_index_range { binary_of op a b ≢ Err fault.IndexRange }
    ensures no_bad_time { binary_of op a b ≢ Err fault.BadTime }
{}

/// At an unsigned common kind no operator overflows.
pub fn unsigned_never_overflows(op: Op, a: Value, b: Value)
    ensures { let k = common_kind (kind_of a) (kind_of b) in
        IsFalse (is_signed k) → binary_of op a b ≢ Err fault.Overflow }
{}

/// Unary `-` faults exactly at the least value of a signed kind, with `Overflow`.
pub fn negation_faults(v: Value)
    ensures overflow { let least_int = neg_ℤ (pos (2 ^ 31)) in
        let least_long = neg_ℤ (pos (2 ^ 63)) in
        (negation_of v ≡ Err fault.Overflow)
        ↔ ((v ≡ value.Int least_int) ⊎ (v ≡ value.Long least_long)) }
    ensures no_divide_by_zero { negation_of v ≢ Err fault.DivideByZero }
    ensures no_shift_range { negation_of v ≢ Err fault.ShiftRange }
    ensures no_index_range { negation_of v ≢ Err fault.IndexRange }
    ensures no_bad_time { negation_of v ≢ Err fault.BadTime }
{}

/// What an operator gives is a value of the operator's kind.
pub fn binary_is_of_its_kind(op: Op, a: Value, b: Value)
    ensures { IfOk (binary_of op a b) (λ v. IsOfKind v (binary_kind op (kind_of a) (kind_of b))) }
{}

/// What unary `-` and `~` give is a value of the promoted kind.
pub fn unary_is_of_the_promoted_kind(v: Value)
    ensures negation { IfOk (negation_of v) (λ w. IsOfKind w (promoted_kind (kind_of v))) }
    ensures inversion { IsOfKind (inversion_of v) (promoted_kind (kind_of v)) }
{}

/// `~` flips every bit: what it gives has the bits that the promoted value lacks.
pub fn inversion_has_the_other_bits(v: Value)
    ensures { let k = promoted_kind (kind_of v) in
        bits_in k (number_of (inversion_of v)) + bits_in k (number_of v) + 1 ≡ 2 ^ width_of k }
{}

/// `>>` divides by a power of two and rounds down, so it copies the sign.
pub fn right_shift_rounds_down(v: Value, by: Value)
    ensures { let power = 2 ^ unsigned_abs (number_of by) in
        IfOk (shift_of int_shr v by) (λ w. IsFloor (number_of v) power (number_of w)) }
{}

/// The quotient times the divisor and the rest make the left side, and the rest is smaller than
/// the divisor and has the sign of the left side.
pub fn quotient_and_rest(a: Value, b: Value, quotient: Value, rest: Value)
    ensures { let k = common_kind (kind_of a) (kind_of b) in
        binary_of op.Divide a b ≡ Ok quotient →
        binary_of op.Remainder a b ≡ Ok rest →
        IsQuotientAndRest (number_in k a) (number_in k b) (number_of quotient) (number_of rest) }
{}

/// The time of so many units is their count of ticks, and there is none exactly where that is
/// negative or above the greatest time.
pub fn time_faults(amount: Value, unit: Scale)
    ensures ticks { IfOk (time_of amount unit) (λ t. pos t.0 ≡ ticks_in amount unit) }
    ensures bad_time { (time_of amount unit ≡ Err fault.BadTime)
        ↔ (¬ IsTime (ticks_in amount unit)) }
    ensures only { IfErr (time_of amount unit) (λ e. e ≡ fault.BadTime) }
{}
