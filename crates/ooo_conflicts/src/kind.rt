ghost use Rattle.std.specs.Prelude.{◌≡◌};
ghost use Rattle.ooo_conflicts.specs.Kinds.{is_clash};

// When two segments clash.
#[derive(Clone, Copy)]
pub(crate) enum ClashKind {
    // Never.
    Apart,
    // Where the first comes at an earlier stamp.
    Earlier,
    // Even at one stamp.
    Same,
}

impl ClashKind {
    // Whether there is a clash, strictly or not.
    pub(crate) fn holds(self, strict: bool) -> bool
        ensures { result ≡ is_clash self strict }
    {
        match self {
            ClashKind::Apart => false,
            ClashKind::Earlier => strict,
            ClashKind::Same => true,
        }
    }
}
