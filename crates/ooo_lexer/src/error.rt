use crate::breach::LexBreach;
use crate::position::Position;
use std::alloc::AllocError;

/// Why a source was not cut into tokens.
#[derive(Clone, Copy, Debug, PartialEq, Eq)]
pub enum LexError {
    /// The source can't be cut: what is wrong, and where.
    Refused(LexBreach, Position),
    /// Memory ran out, which says nothing of the source.
    OutOfMemory,
}

impl From<AllocError> for LexError {
    ghost use Rattle.std.specs.Prelude.{◌≡◌};
    ghost use Rattle.ooo_lexer.specs.declared.error.LexError.TheVariants.{OutOfMemory};

    ghost from_gives = { λ _ e. e ≡ OutOfMemory };

    fn from(_error: AllocError) -> LexError {
        LexError::OutOfMemory
    }
}
