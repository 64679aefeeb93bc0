ghost use Rattle.std.specs.Prelude.{◌≡◌};
ghost use Rattle.ooo_checked.specs.Exprs.{kind_written};

use ooo_syntax::TypeForm;
use ooo_value::Kind;

/// The kind that a type's words mean.
pub fn kind_written(form: TypeForm) -> Kind
    ensures { result ≡ kind_written form }
{
    match form {
        TypeForm::Bool => Kind::Bool,
        TypeForm::Int => Kind::Int,
        TypeForm::Unsigned | TypeForm::UnsignedInt => Kind::Uint,
        TypeForm::LongLong | TypeForm::LongLongInt => Kind::Long,
        TypeForm::UnsignedLongLong | TypeForm::UnsignedLongLongInt => Kind::Ulong,
    }
}
