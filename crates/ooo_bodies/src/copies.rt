ghost use Rattle.std.specs.Prelude.{◌≡◌, IfOk};
ghost use Rattle.ooo_checked.specs.Exprs.{kind_written, resolved};

use ooo_checked::Resolved;
use ooo_scopes::Scopes;
use ooo_syntax::{Text, TypeForm, Word};
use ooo_value::{Kind, Name};
use std::alloc::{AllocError, Global};

/// The same word.
pub fn copy_word(alloc: Global, word: &Word) -> Result<Word, AllocError>
    ensures { IfOk result (λ copy. copy ≡ word.now) }
{
    Ok(Word {
        name: word.name.copy(alloc)?,
        position: word.position,
    })
}

/// The same text.
pub fn copy_text(alloc: Global, text: &Text) -> Result<Text, AllocError>
    ensures { IfOk result (λ copy. copy ≡ text.now) }
{
    Ok(Text {
        value: text.value.copy(alloc)?,
        position: text.position,
    })
}

/// A word with what it denotes in a scope.
pub fn resolve(alloc: Global, scopes: &Scopes, word: &Word) -> Result<Resolved, AllocError>
    ensures { IfOk result (λ name. name ≡ resolved scopes.now word.now) }
{
    Ok(Resolved {
        word: copy_word(alloc, word)?,
        denotes: scopes.denotes(word.name.as_bytes()),
    })
}

/// The kind that a type's words mean.
pub fn kind_written(form: TypeForm) -> Kind
    ensures { result ≡ kind_written form }
{
    match form {
        TypeForm::Bool => Kind::Bool,
        TypeForm::Int => Kind::Int,
        TypeForm::Unsigned | TypeForm::UnsignedInt => Kind::Uint,
        TypeForm::LongLong | TypeForm::LongLongInt => Kind::Long,
        TypeForm::UnsignedLongLong | TypeForm::UnsignedLongLongInt => Kind::Ulong,
    }
}
