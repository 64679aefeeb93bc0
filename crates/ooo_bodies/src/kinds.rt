ghost use Rattle.std.specs.Prelude.{◌≡◌};
ghost use Rattle.ooo_checked.specs.Exprs.{binary_kind, choice_kind, prefix_kind};

use ooo_syntax::{BinaryOp, PrefixOp};
use ooo_value::{Kind, common, promoted};

/// The kind of a prefix's value.
pub(crate) fn prefix_kind(op: PrefixOp, kind: Kind) -> Kind
    ensures { result ≡ prefix_kind op kind }
{
    match op {
        PrefixOp::Not => Kind::Bool,
        _ => promoted(kind),
    }
}

/// The kind of a binary operator's value.
pub(crate) fn binary_kind(op: BinaryOp, left: Kind, right: Kind) -> Kind
    ensures { result ≡ binary_kind op left right }
{
    match op {
        BinaryOp::Either
        | BinaryOp::Both
        | BinaryOp::Equal
        | BinaryOp::NotEqual
        | BinaryOp::Less
        | BinaryOp::LessEqual
        | BinaryOp::Greater
        | BinaryOp::GreaterEqual => Kind::Bool,
        BinaryOp::ShiftLeft | BinaryOp::ShiftRight => promoted(left),
        _ => common(left, right),
    }
}

/// The kind of a choice's value.
pub(crate) fn choice_kind(yes: Kind, no: Kind) -> Kind
    ensures { result ≡ choice_kind yes no }
{
    match (yes, no) {
        (Kind::Bool, Kind::Bool) => Kind::Bool,
        _ => common(yes, no),
    }
}
