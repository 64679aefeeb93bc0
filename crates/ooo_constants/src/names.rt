ghost use Rattle.std.specs.Prelude.{◌≡◌, ◌-◌, slice_get};
ghost use Rattle.ooo_constants.specs.Meanings.{constant_at, constants_of, member_at, name_value, value_in};

use crate::known::Known;
use crate::meaning::Meaning;
use ooo_checked::{Denotation, Thing};
use ooo_value::{Kind, Value};

/// The constant of a number among names; what has none counts as 0 of the kind.
pub fn constant_at(names: &[Meaning], kind: Kind, number: usize) -> Value
    ensures { result ≡ constant_at names.now kind number }
{
    match names.get(number) {
        Some(Meaning::Constant(value)) => *value,
        _ => kind.zero(),
    }
}

// The constant of a member: that of a static member is known first.
fn member_at(known: Known<'_>, kind: Kind, number: usize) -> Value
    ensures { result ≡ member_at (constants_of known.entry) kind number }
{
    match known.statics.get(number) {
        Some(Meaning::Constant(value)) => *value,
        _ => constant_at(known.members, kind, number),
    }
}

// The value of a parameter of the constructor, whose numbers follow that of the module's name.
fn parameter_at(known: Known<'_>, kind: Kind, number: usize) -> Value
    ensures { result ≡ value_in (slice_get known.entry.parameters.now (number - 1)) kind }
{
    match known.parameters.get(number.saturating_sub(1)) {
        Some(value) => *value,
        None => kind.zero(),
    }
}

/// The value that a name has before the simulation, by what it denotes; a name that has none counts as 0.
pub(crate) fn name_value(known: Known<'_>, name: Denotation) -> Value
    ensures { result ≡ name_value (constants_of known.entry) name }
{
    match name.thing {
        Thing::FileConstant(kind) => constant_at(known.file, kind, name.number),
        Thing::MainConstant(kind) => constant_at(known.members, kind, name.number),
        Thing::Fixed(kind, _) => member_at(known, kind, name.number),
        Thing::Parameter(kind) => parameter_at(known, kind, name.number),
        _ => Kind::Int.zero(),
    }
}
