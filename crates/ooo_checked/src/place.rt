ghost use Rattle.std.specs.Prelude.{◌≡◌};
ghost use Rattle.ooo_checked.specs.CallPlaces.{is_inside, is_used};

/// Where a call stands.
#[derive(Clone, Copy)]
pub enum CallPlace {
    /// As a statement.
    Statement,
    /// As the whole right side of an assignment or of a local's initial value.
    Whole,
    /// Inside an expression.
    Inside,
}

impl CallPlace {
    /// Whether the call stands inside an expression.
    pub fn is_inside(self) -> bool
        ensures { result ≡ is_inside self }
    {
        matches!(self, CallPlace::Inside)
    }

    /// Whether the call's value is used.
    pub fn is_used(self) -> bool
        ensures { result ≡ is_used self }
    {
        !matches!(self, CallPlace::Statement)
    }
}
