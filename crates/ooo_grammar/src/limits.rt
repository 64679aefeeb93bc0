ghost use Rattle.std.specs.Prelude.{◌≡◌, ◌-◌};
ghost use Rattle.ooo_grammar.specs.Readings.{below, enter as room_of, fits};
ghost use Rattle.ooo_grammar.specs.Gives.{room_at};

use crate::tokens::next;
use ooo_syntax::Symbol;
use std::alloc::AllocError;

/// How many operators one expression may hold.
pub const OPERATOR_LIMIT: u64 = 1024;

/// On how many levels a token may stand: outside of everything, and inside 64 things.
pub const LEVEL_LIMIT: usize = 65;

/// Why no tree was read.
#[derive(Clone, Copy)]
pub enum ReadError {
    /// How many tokens are left from the refused one on.
    Syntax(usize),
    /// How many tokens are left from the first one that is too deep on.
    TooDeep(usize),
    /// Memory ran out.
    OutOfMemory,
}

impl From<AllocError> for ReadError {
    ghost use Rattle.std.specs.Prelude.{◌≡◌};
    ghost use Rattle.ooo_grammar.specs.declared.limits.ReadError.TheVariants.{OutOfMemory};

    ghost from_gives = { λ _ e. e ≡ OutOfMemory };

    fn from(_error: AllocError) -> ReadError {
        ReadError::OutOfMemory
    }
}

/// How many levels are left, and the number of the first operator that is too many, if an expression sets one.
#[derive(Clone, Copy)]
pub struct Limits {
    pub levels: usize,
    pub bound: Option<u64>,
}

impl Limits {
    /// One level deeper.
    pub fn inside(self) -> Limits
        ensures levels { result.levels ≡ self.levels - 1 }
        ensures bound { result.bound ≡ self.bound }
    {
        Limits {
            levels: self.levels.saturating_sub(1),
            bound: self.bound,
        }
    }

    /// The limits of an expression of its own that begins here.
    pub fn enter(self, tokens: &[Symbol<'_>]) -> Limits
        ensures levels { result.levels ≡ self.levels }
        ensures bound { room_at result.bound ≡ room_of (room_at self.bound) tokens.now }
    {
        match next(tokens) {
            Some((token, _)) => Limits {
                levels: self.levels,
                bound: Some(token.before as u64 + OPERATOR_LIMIT),
            },
            None => self,
        }
    }

    /// Whether a token may stand where so many levels are left.
    pub fn fit(self, token: Symbol<'_>) -> bool
        ensures { result ≡ fits self.levels (room_at self.bound) token.entry }
    {
        self.levels > 0 && (!token.counts || is_below(self.bound, token.before))
    }
}

// Whether the number is below the bound, if there is one.
fn is_below(bound: Option<u64>, number: u32) -> bool
    ensures { result ≡ below bound number }
{
    match bound {
        None => true,
        Some(limit) => (number as u64) < limit,
    }
}
