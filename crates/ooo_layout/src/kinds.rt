ghost use Rattle.std.specs.Prelude.{◌≡◌, option_map, slice_get};
ghost use Rattle.ooo_value.specs.Kinds.{promoted_kind};
ghost use Rattle.ooo_value.specs.Operators.{binary_kind};
ghost use Rattle.ooo_code.specs.Sound.{fifo_kind, if_bool, if_typed, of_two, signal_kind, variable_kind};
ghost use Rattle.ooo_activation.specs.Activations.{channel_kind, variable_kind as kind_of_variable};
ghost use Rattle.ooo_activation.specs.Kinds.{expression_kind};
ghost use Rattle.ooo_shapes.specs.Expressions.{kind_in};

use ooo_bound::{Bound, BoundExpr};
use ooo_value::{ChannelKind, Kind, Op, common, promoted};
use sqlite_items::at;

// The kind of a variable's elements, if there is the variable.
fn variable_found(model: &Bound, variable: u32) -> Option<Kind>
    ensures { result ≡ variable_kind (slice_get model.now.variables variable) }
{
    match at(model.variables.as_slice(), variable as usize) {
        Some(found) => Some(found.kind),
        None => None,
    }
}

// The kind of a signal's values, if it is one.
fn signal_found(model: &Bound, channel: u32) -> Option<Kind>
    ensures { result ≡ signal_kind (slice_get model.now.channels channel) }
{
    match at(model.channels.as_slice(), channel as usize) {
        Some(found) => match found.kind {
            ChannelKind::Signal => Some(found.value),
            ChannelKind::Fifo => None,
        },
        None => None,
    }
}

// The kind of a fifo's values, if it is one.
fn fifo_found(model: &Bound, channel: u32) -> Option<Kind>
    ensures { result ≡ fifo_kind (slice_get model.now.channels channel) }
{
    match at(model.channels.as_slice(), channel as usize) {
        Some(found) => match found.kind {
            ChannelKind::Signal => None,
            ChannelKind::Fifo => Some(found.value),
        },
        None => None,
    }
}

/// The kind of a variable's elements; int, where there is no such variable.
pub fn kind_of_variable(model: &Bound, variable: u32) -> Kind
    ensures { result ≡ kind_of_variable model.now variable }
{
    match at(model.variables.as_slice(), variable as usize) {
        Some(found) => found.kind,
        None => Kind::Int,
    }
}

/// The kind of a channel's values; int, where there is no such channel.
pub fn kind_of_channel(model: &Bound, channel: u32) -> Kind
    ensures { result ≡ channel_kind model.now channel }
{
    match at(model.channels.as_slice(), channel as usize) {
        Some(found) => found.value,
        None => Kind::Int,
    }
}

// The kind of what an operator gives.
fn binary_kind(op: Op, a: Kind, b: Kind) -> Kind
    ensures { result ≡ binary_kind op a b }
{
    match op {
        Op::Add
        | Op::Subtract
        | Op::Multiply
        | Op::Divide
        | Op::Remainder
        | Op::BitAnd
        | Op::BitOr
        | Op::BitXor => common(a, b),
        Op::ShiftLeft | Op::ShiftRight => promoted(a),
        Op::Equal | Op::NotEqual | Op::Less | Op::LessOrEqual | Op::Greater | Op::GreaterOrEqual =>
            Kind::Bool,
    }
}

// The second kind, where there is a first one.
fn if_typed(first: Option<Kind>, second: Option<Kind>) -> Option<Kind>
    ensures { result ≡ if_typed first second }
{
    match first {
        None => None,
        Some(_) => second,
    }
}

// The kind of what an operator gives, where both operands have one.
fn of_two(op: Op, a: Option<Kind>, b: Option<Kind>) -> Option<Kind>
    ensures { result ≡ of_two (binary_kind op) a b }
{
    match a {
        None => None,
        Some(a) => match b {
            None => None,
            Some(b) => Some(binary_kind(op, a, b)),
        },
    }
}

// This kind, where it is bool.
fn if_bool(kind: Option<Kind>) -> Option<Kind>
    ensures { result ≡ if_bool kind }
{
    match kind {
        Some(Kind::Bool) => Some(Kind::Bool),
        _ => None,
    }
}

// The promoted kind, where there is one.
fn promoted_kind(kind: Option<Kind>) -> Option<Kind>
    ensures { result ≡ option_map promoted_kind kind }
{
    match kind {
        None => None,
        Some(kind) => Some(promoted(kind)),
    }
}

// The kind of an expression, where all that it names is there.
#[tactic(auto, unfolding(ooo_activation::specs::Kinds::expression_kind))]
fn expression_kind(model: &Bound, e: &BoundExpr) -> Option<Kind>
    ensures { result ≡ expression_kind model.now e.now }
{
    match e {
        BoundExpr::Constant(value) => Some(value.kind()),
        BoundExpr::Local(kind, _) => Some(*kind),
        BoundExpr::Variable(variable) => variable_found(model, *variable),
        BoundExpr::Element(variable, index) => {
            if_typed(
                expression_kind(model, index.get()),
                variable_found(model, *variable),
            )
        }
        BoundExpr::Signal(channel) => signal_found(model, *channel),
        BoundExpr::Changed(channel) => if_typed(signal_found(model, *channel), Some(Kind::Bool)),
        BoundExpr::Edge(channel, _) => if_bool(signal_found(model, *channel)),
        BoundExpr::Available(channel) | BoundExpr::Free(channel) => {
            if_typed(fifo_found(model, *channel), Some(Kind::Int))
        }
        BoundExpr::Convert(kind, e) => if_typed(expression_kind(model, e.get()), Some(*kind)),
        BoundExpr::Promote(e) | BoundExpr::Negate(e) | BoundExpr::Invert(e) => {
            promoted_kind(expression_kind(model, e.get()))
        }
        BoundExpr::Not(e) => if_typed(expression_kind(model, e.get()), Some(Kind::Bool)),
        BoundExpr::Binary(op, a, b) => {
            let left = expression_kind(model, a.get());
            of_two(*op, left, expression_kind(model, b.get()))
        }
        BoundExpr::Both(a, b) | BoundExpr::Either(a, b) => {
            let left = expression_kind(model, a.get());
            let right = expression_kind(model, b.get());
            if_typed(left, if_typed(right, Some(Kind::Bool)))
        }
        BoundExpr::Choose(kind, test, a, b) => {
            let test = expression_kind(model, test.get());
            let left = expression_kind(model, a.get());
            let right = expression_kind(model, b.get());
            if_typed(test, if_typed(left, if_typed(right, Some(*kind))))
        }
    }
}

/// The kind of an expression; int, where it has none.
pub fn kind_in(model: &Bound, e: &BoundExpr) -> Kind
    ensures { result ≡ kind_in model.now e.now }
{
    match expression_kind(model, e) {
        None => Kind::Int,
        Some(kind) => kind,
    }
}
