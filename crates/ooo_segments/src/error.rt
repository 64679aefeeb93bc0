ghost use Rattle.std.specs.Prelude.{◌≡◌};
ghost use Rattle.ooo_segments.specs.GraphErrors.{name_of};

use std::alloc::AllocError;
use std::error::Error;
use std::fmt;

/// Why a design has no graph.
#[derive(Clone, Copy, Debug)]
pub enum GraphError {
    /// It has more segments than it may have.
    TooManySegments,
    /// Memory ran out, which says nothing of the design.
    OutOfMemory,
}

impl GraphError {
    /// The error's name, as refusals write it.
    pub fn name(self) -> &'static str
        ensures { result.now ≡ name_of self }
    {
        match self {
            GraphError::TooManySegments => "TooManySegments",
            GraphError::OutOfMemory => "OutOfMemory",
        }
    }
}

/// Writes the error's name.
impl fmt::Display for GraphError {
    ghost use Rattle.std.specs.Prelude.{Some};
    ghost use Rattle.ooo_segments.specs.GraphErrors.{name_of};

    ghost output = { λ error. Some (name_of error) };

    fn fmt<W: fmt::Write>(&self, f: &mut fmt::Formatter<W>) -> fmt::Result {
        f.write_str(self.name())
    }
}

impl Error for GraphError {}

impl From<AllocError> for GraphError {
    ghost use Rattle.std.specs.Prelude.{◌≡◌};
    ghost use Rattle.ooo_segments.specs.declared.error.GraphError.TheVariants.{OutOfMemory};

    ghost from_gives = { λ _ e. e ≡ OutOfMemory };

    fn from(_error: AllocError) -> GraphError {
        GraphError::OutOfMemory
    }
}
