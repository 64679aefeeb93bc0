ghost use Rattle.std.specs.Prelude.{◌≡◌};
ghost use Rattle.ooo_lexer.specs.Heads.{flaw};

use crate::breach::LexBreach;

/// Why no piece stands first in a list of bytes: what is wrong, and how many bytes stand before that.
#[derive(Clone, Copy)]
pub(crate) struct Flaw {
    pub(crate) breach: LexBreach,
    pub(crate) before: usize,
}

impl Flaw {
    /// A flaw of the first byte.
    pub(crate) fn first(breach: LexBreach) -> Flaw
        ensures { result ≡ flaw breach 0 }
    {
        Flaw { breach, before: 0 }
    }
}
