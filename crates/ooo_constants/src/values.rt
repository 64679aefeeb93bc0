ghost use Rattle.std.specs.Prelude.{◌≡◌, if◌then◌else◌};
ghost use Rattle.ooo_value.specs.Values.{truth_of};
ghost use Rattle.ooo_constants.specs.Meanings.{constants_of};
ghost use Rattle.ooo_constants.specs.Values.{converted, is_decided, on_value, operated, operator_of};
ghost use Rattle.ooo_constants.specs.Values.{prefixed, value_of};

use crate::kinds::kind_written;
use crate::known::Known;
use crate::names::name_value;
use ooo_checked::CheckedExpr;
use ooo_syntax::{BinaryOp, PrefixOp};
use ooo_value::{Fault, Kind, Op, Value, binary, convert, invert, negate, promoted, truth};

/// What a constant expression gives: operands from left to right, and the first fault ends it. The right side of `&&` or
/// `||`, and the branches of `?:`, are evaluated only where their value is needed.
///
/// # Errors
///
/// The fault, where it has one.
#[cycle(value)]
#[tactic(auto, unfolding(crate::specs::Values::value_of))]
pub fn value(known: Known<'_>, e: &CheckedExpr) -> Result<Value, Fault>
    ensures { result ≡ value_of (constants_of known.entry) e.now }
{
    match e {
        CheckedExpr::Number(_, number) => Ok(number.value),
        CheckedExpr::Truth(is_true, _) => Ok(Value::Bool(*is_true)),
        CheckedExpr::Name(_, name) => Ok(name_value(known, name.denotes)),
        CheckedExpr::Index(kind, _, _)
        | CheckedExpr::Call(kind, _, _)
        | CheckedExpr::Member(kind, _, _, _, _) => Ok(kind.zero()),
        CheckedExpr::Paren(_, _, e) => value(known, e.get()),
        CheckedExpr::Prefix(_, _, op, e) => prefixed(*op, value(known, e.get())?),
        CheckedExpr::Cast(_, _, form, e) | CheckedExpr::Conversion(_, form, e) => {
            converted(known, kind_written(form.form), e.get())
        }
        CheckedExpr::Binary(_, sign, a, b) => operated(known, *sign, a.get(), b.get()),
        CheckedExpr::Choose(kind, test, yes, no) => {
            chosen(known, *kind, test.get(), yes.get(), no.get())
        }
    }
}

// What an expression gives, in another kind.
#[cycle(value)]
fn converted(known: Known<'_>, kind: Kind, e: &CheckedExpr) -> Result<Value, Fault>
    ensures { result ≡ converted kind (value_of (constants_of known.entry) e.now) }
{
    let operand = value(known, e)?;
    Ok(convert(operand, kind))
}

// What a sign gives with what stands before and behind it.
#[cycle(value)]
fn operated(
    known: Known<'_>,
    sign: BinaryOp,
    a: &CheckedExpr,
    b: &CheckedExpr,
) -> Result<Value, Fault>
    ensures { result ≡ operated sign (operator_of sign) (value_of (constants_of known.entry) a.now)
        (value_of (constants_of known.entry) b.now) }
{
    let left = value(known, a)?;
    match operator(sign) {
        Some(op) => {
            let right = value(known, b)?;
            binary(op, left, right)
        }
        None if is_decided(sign, truth(left)) => Ok(Value::Bool(truth(left))),
        None => {
            let right = value(known, b)?;
            Ok(Value::Bool(truth(right)))
        }
    }
}

// What `?:` gives, in this kind.
#[cycle(value)]
fn chosen(
    known: Known<'_>,
    kind: Kind,
    test: &CheckedExpr,
    yes: &CheckedExpr,
    no: &CheckedExpr,
) -> Result<Value, Fault>
    ensures { let of = value_of (constants_of known.entry) in
        result ≡ on_value (of test.now) (λ v. converted kind (if truth_of v then of yes.now else of no.now)) }
{
    if truth(value(known, test)?) {
        converted(known, kind, yes)
    } else {
        converted(known, kind, no)
    }
}

// Whether `&&`, or else `||`, needs no right side where its left side is so.
fn is_decided(sign: BinaryOp, left: bool) -> bool
    ensures { result ≡ is_decided sign left }
{
    match sign {
        BinaryOp::Both => !left,
        _ => left,
    }
}

// A prefix on a value.
fn prefixed(op: PrefixOp, operand: Value) -> Result<Value, Fault>
    ensures { result ≡ prefixed op operand }
{
    match op {
        PrefixOp::Not => Ok(Value::Bool(!truth(operand))),
        PrefixOp::Invert => Ok(invert(operand)),
        PrefixOp::Negate => negate(operand),
        PrefixOp::Keep => Ok(convert(operand, promoted(operand.kind()))),
    }
}

/// The operator on values that a sign means; `&&` and `||` are none, since they may leave their right side out.
pub fn operator(sign: BinaryOp) -> Option<Op>
    ensures { result ≡ operator_of sign }
{
    match sign {
        BinaryOp::Either | BinaryOp::Both => None,
        BinaryOp::Or => Some(Op::BitOr),
        BinaryOp::Xor => Some(Op::BitXor),
        BinaryOp::And => Some(Op::BitAnd),
        BinaryOp::Equal => Some(Op::Equal),
        BinaryOp::NotEqual => Some(Op::NotEqual),
        BinaryOp::Less => Some(Op::Less),
        BinaryOp::LessEqual => Some(Op::LessOrEqual),
        BinaryOp::Greater => Some(Op::Greater),
        BinaryOp::GreaterEqual => Some(Op::GreaterOrEqual),
        BinaryOp::ShiftLeft => Some(Op::ShiftLeft),
        BinaryOp::ShiftRight => Some(Op::ShiftRight),
        BinaryOp::Add => Some(Op::Add),
        BinaryOp::Subtract => Some(Op::Subtract),
        BinaryOp::Multiply => Some(Op::Multiply),
        BinaryOp::Divide => Some(Op::Divide),
        BinaryOp::Remainder => Some(Op::Remainder),
    }
}
